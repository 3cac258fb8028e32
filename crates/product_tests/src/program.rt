//! The programs over a source and a sink in memory.

use cw_base::{Digest32, Hasher, MemorySink, MemorySource, Sequential};
use hail_report::Exit;
use run_archive::archive_program;
use run_ledger::ledger_program;
use run_light::light_program;
use std::alloc::Global;
use std::test::Fail;
use std::thread::Threads;

/// A program over the run of a script.
#[derive(Clone, Copy)]
pub(crate) enum Program {
    /// Gives each honest member's replica of the ledger its blocks.
    Ledger,
    /// Looks for a height on the honest members' disks.
    Light,
    /// Puts the chunks that were sent into an archive.
    Archive,
}

impl Program {
    /// The program of that name.
    pub(crate) fn named(name: &str) -> Result<Program, Fail> {
        match name {
            "ledger" => Ok(Program::Ledger),
            "light" => Ok(Program::Light),
            "archive" => Ok(Program::Archive),
            _ => Err("the name of a program".into()),
        }
    }

    /// The exit status over words, a source and a sink.
    pub(crate) fn status<H: Hasher<Digest = Digest32>, R: Threads + Sync>(
        self,
        rt: &R,
        alloc: Global,
        words: &[String],
        input: &mut MemorySource,
        output: &mut MemorySink,
    ) -> u8 {
        let by = &Sequential;
        match self {
            Program::Ledger => {
                status_of(ledger_program::<H, _, _, _, _>(rt, alloc, words, input, output, by))
            }
            Program::Light => {
                status_of(light_program::<H, _, _, _, _>(rt, alloc, words, input, output, by))
            }
            Program::Archive => {
                status_of(archive_program::<H, _, _, _, _>(rt, alloc, words, input, output, by))
            }
        }
    }
}

// The status of an exit, which is let go.
fn status_of<D: Drop>(exit: Exit<D>) -> u8 {
    let status = exit.status();
    drop(exit);
    status
}
