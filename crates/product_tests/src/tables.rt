//! Scripts, and what the programs tell of them. `== NAME` begins a script, and a line `--` ends it;
//! `> STATUS PROGRAM WORDS` begins a run of it, and the text that the run writes follows, with a
//! line's end behind it.

mod checked;
mod outside;
mod refused;
mod worked;

pub(crate) use checked::CHECKED;
pub(crate) use outside::{FULL, PAYLOAD, SINK_FAILS, SOURCE_FAILS, TOO_LONG};
pub(crate) use refused::{CLASH, REFUSED};
use std::test::Fail;
pub(crate) use worked::SMALL;

/// A script of a table, and its runs.
#[derive(Clone, Copy)]
pub(crate) struct Part<'a> {
    pub script: &'a str,
    pub runs: &'a str,
}

/// The part that stands behind a mark `== `.
pub(crate) fn part_of(text: &str) -> Result<Part<'_>, Fail> {
    let (_, rest) = two(text, "\n")?;
    let (script, runs) = two(rest, "--\n")?;
    Ok(Part { script, runs })
}

/// What stands before and behind the first mark.
pub(crate) fn two<'a>(text: &'a str, mark: &str) -> Result<(&'a str, &'a str), Fail> {
    match text.split_once(mark) {
        Some(parts) => Ok(parts),
        None => Err("a mark in a table".into()),
    }
}
