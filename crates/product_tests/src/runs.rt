//! Runs of the programs as the tables ask for them.

use crate::program::Program;
use crate::streams::{Ways, sink_of, source_of, words_of};
use crate::tables::{Part, part_of, two};
use cw_base::{Digest32, Hasher};
use std::alloc::Global;
use std::test::Fail;
use std::thread::Threads;

/// How many runs of a table end as it tells, where all do; else the runs of the first script with
/// one that doesn't, as they end.
pub(crate) fn outcome<H: Hasher<Digest = Digest32>, R: Threads + Sync>(
    rt: &R,
    alloc: Global,
    ways: Ways,
    table: &str,
) -> Result<String, Fail> {
    for text in table.split("== ").skip(1) {
        let part = part_of(text)?;
        let again = played::<H, R>(rt, alloc, ways, part)?;
        if again.as_str() != part.runs {
            return Ok(again);
        }
    }
    counted(alloc, table)
}

// How many runs a table has.
fn counted(alloc: Global, table: &str) -> Result<String, Fail> {
    let mut text = String::new(alloc);
    write!(text, "{} runs", table.split("> ").skip(1).count())?;
    Ok(text)
}

// The runs of a script, as they end.
fn played<H: Hasher<Digest = Digest32>, R: Threads + Sync>(
    rt: &R,
    alloc: Global,
    ways: Ways,
    part: Part,
) -> Result<String, Fail> {
    let mut again = String::new(alloc);
    for run in part.runs.split("> ").skip(1) {
        let (head, _) = two(run, "\n")?;
        let (_, asked) = two(head, " ")?;
        push_run::<H, R>(rt, alloc, &mut again, ways, asked, part.script)?;
    }
    Ok(again)
}

// Adds a run of a program, which the first word names.
fn push_run<H: Hasher<Digest = Digest32>, R: Threads + Sync>(
    rt: &R,
    alloc: Global,
    again: &mut String,
    ways: Ways,
    asked: &str,
    script: &str,
) -> Result<(), Fail> {
    let (status, text) = told::<H, R>(rt, alloc, ways, asked, script)?;
    write!(again, "> {status} {asked}\n{text}\n")?;
    Ok(())
}

// The exit status of a program, and what it writes.
fn told<H: Hasher<Digest = Digest32>, R: Threads + Sync>(
    rt: &R,
    alloc: Global,
    ways: Ways,
    asked: &str,
    script: &str,
) -> Result<(u8, String), Fail> {
    let (name, words) = asked.split_once(" ").unwrap_or((asked, ""));
    let program = Program::named(name)?;
    let words = words_of(alloc, words)?;
    let mut source = source_of(alloc, ways, script)?;
    let mut sink = sink_of(alloc, ways)?;
    let status = program.status::<H, R>(rt, alloc, &words, &mut source, &mut sink);
    Ok((status, String::from_utf8_lossy(alloc, sink.bytes())?))
}
