//! Tests of runs whose texts are known.

use crate::cases::{Case, cases};
use crate::runs::{run, told_by};
use crate::tables::{BOUNDARY, HASHED, REFUSED, REPEATED, WORKED};
use cw_base::{Digest32, Hasher, Sha256, SumHasher};
use std::alloc::Global;
use std::test::Fail;
use std::thread::Threads;

#[test]
fn runs_end_with_the_texts_of_the_tables(rt: HostRuntime) -> Result<(), Fail> {
    for table in [WORKED, BOUNDARY, REFUSED, REPEATED] {
        let wrong = first_wrong::<SumHasher, _>(&rt, rt.alloc(), table)?;
        assert_eq!(rt; wrong.as_str(), "");
    }
    Ok(())
}

#[test]
fn runs_under_sha_256_end_with_the_texts_of_an_independent_program(
    rt: HostRuntime,
) -> Result<(), Fail> {
    let wrong = first_wrong::<Sha256, _>(&rt, rt.alloc(), HASHED)?;
    assert_eq!(rt; wrong.as_str(), "");
    Ok(())
}

// The name of the first run of a table that ends otherwise, and what it wrote; empty where all end
// so.
fn first_wrong<H: Hasher<Digest = Digest32>, R: Threads + Sync>(
    rt: &R,
    alloc: Global,
    table: &str,
) -> Result<String, Fail> {
    let cases = cases(alloc, table)?;
    wrong_of::<H, R>(rt, alloc, &cases)
}

fn wrong_of<H: Hasher<Digest = Digest32>, R: Threads + Sync>(
    rt: &R,
    alloc: Global,
    cases: &[Case],
) -> Result<String, Fail> {
    for case in cases {
        let wrong = wrong_text::<H, R>(rt, alloc, case)?;
        if !wrong.is_empty() {
            return Ok(wrong);
        }
    }
    Ok(String::new(alloc))
}

// The same of one run.
fn wrong_text<H: Hasher<Digest = Digest32>, R: Threads + Sync>(
    rt: &R,
    alloc: Global,
    case: &Case,
) -> Result<String, Fail> {
    let (status, text) = told_by::<H, R>(rt, alloc, case.script)?;
    let name = case.name;
    let found = format!(in alloc; "{status} {name}:\n{text}")?;
    let want = format!(in alloc; "{} {name}:\n{}", case.status, case.text)?;
    if found == want {
        return Ok(String::new(alloc));
    }
    Ok(found)
}

// Scripts, and the disk of member 0 after their runs.
const DISKS: &str = "== 0 a vote
cluster 4 3
timeout 0 1
--
01000000000000000a0301000000000000000100
== 0 a stop in the first device call
cluster 4 3
cut 1 3 255 timeout 0 1
--
00000000ffffffffffffffffffffffffffffffff
";

// The disk of member 0 after a script's run.
fn disk_after<R: Threads + Sync>(rt: &R, alloc: Global, script: &str) -> Result<String, Fail> {
    let ended = run(rt, alloc, script)?;
    ended.first_disk(alloc)
}

#[test]
fn disks_hold_what_was_written(rt: HostRuntime) -> Result<(), Fail> {
    let alloc = rt.alloc();
    for case in cases(alloc, DISKS)? {
        let disk = disk_after(&rt, alloc, case.script)?;
        assert_eq!(rt; disk, case.text, "at {}", case.name);
    }
    Ok(())
}
