//! Tests of a step that is stopped.

use crate::cases::{cases, two};
use crate::runs::told;
use crate::tables::STOPPED;
use std::test::Fail;

#[test]
fn a_stopped_step_is_kept_whole_or_lost_whole(rt: HostRuntime) -> Result<(), Fail> {
    let alloc = rt.alloc();
    let mut count = 0u64;
    for case in cases(alloc, STOPPED)? {
        let (front, back) = two(case.script, "STOP")?;
        for stop in case.name.split(",") {
            let script = format!(in alloc; "{front}{stop}{back}")?;
            let (_, text) = told(&rt, alloc, &script)?;
            assert_eq!(rt; text, case.text, "at {stop}");
            count = count.saturating_add(1);
        }
    }
    assert_eq!(rt; count, 45);
    Ok(())
}
