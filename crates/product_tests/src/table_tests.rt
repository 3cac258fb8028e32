//! Tests of what the programs tell, over the tables.

use crate::runs::outcome;
use crate::streams::{PLAIN, Ways};
use crate::tables::{
    CHECKED, CLASH, FULL, PAYLOAD, REFUSED, SINK_FAILS, SMALL, SOURCE_FAILS, TOO_LONG,
};
use cw_base::{Sha256, SumHasher};
use std::test::Fail;

#[test]
fn runs_end_as_the_tables_tell(rt: HostRuntime) -> Result<(), Fail> {
    for (table, want) in [
        (SMALL, "29 runs"),
        (CHECKED, "9 runs"),
        (REFUSED, "12 runs"),
    ] {
        let found = outcome::<Sha256, _>(&rt, rt.alloc(), PLAIN, table)?;
        assert_eq!(rt; found.as_str(), want);
    }
    Ok(())
}

#[test]
fn a_clash_is_told_by_each_program(rt: HostRuntime) -> Result<(), Fail> {
    let found = outcome::<SumHasher, _>(&rt, rt.alloc(), PLAIN, CLASH)?;
    assert_eq!(rt; found.as_str(), "3 runs");
    Ok(())
}

// The header has twelve bytes: pieces of three are read by calls 1 to 4, and call 5 finds the end.
#[test]
fn a_source_that_fails_ends_each_run_with_nothing_written(rt: HostRuntime) -> Result<(), Fail> {
    for reading in [1, 2, 5] {
        let ways = Ways { reading, ..PLAIN };
        let found = outcome::<Sha256, _>(&rt, rt.alloc(), ways, SOURCE_FAILS)?;
        assert_eq!(rt; found.as_str(), "3 runs");
    }
    Ok(())
}

#[test]
fn a_sink_that_fails_has_a_front_of_each_text(rt: HostRuntime) -> Result<(), Fail> {
    let ways = Ways {
        writing: 2,
        ..PLAIN
    };
    let found = outcome::<Sha256, _>(&rt, rt.alloc(), ways, SINK_FAILS)?;
    assert_eq!(rt; found.as_str(), "9 runs");
    Ok(())
}

#[test]
fn what_is_too_large_is_told_by_each_program(rt: HostRuntime) -> Result<(), Fail> {
    for (size, table) in [
        (16_777_216, FULL),
        (16_777_217, TOO_LONG),
        (2_097_176, PAYLOAD),
    ] {
        let ways = Ways { size, ..PLAIN };
        let found = outcome::<Sha256, _>(&rt, rt.alloc(), ways, table)?;
        assert_eq!(rt; found.as_str(), "3 runs");
    }
    Ok(())
}
