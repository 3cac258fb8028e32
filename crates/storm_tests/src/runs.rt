//! Runs of the program on a text in memory.

use cw_base::{Digest32, Hasher, MemorySink, MemorySource, Sequential, SumHasher};
use hailstorm::{Exit, Report, run_program};
use std::alloc::Global;
use std::test::Fail;
use std::thread::Threads;

/// How a run ended.
#[derive(Drop)]
pub(crate) struct Ended<H: Hasher<Digest = Digest32>> {
    pub exit: Exit<Report<H>>,
    /// What was written.
    pub text: String,
}

impl<H: Hasher<Digest = Digest32>> Ended<H> {
    /// The report of a run that is done.
    pub(crate) fn report(&self) -> Result<&Report<H>, Fail> {
        match &self.exit {
            Exit::Done(report) => Ok(report),
            _ => Err("a run that is done".into()),
        }
    }

    /// The disk of member 0 as a line of hexadecimal digits.
    pub(crate) fn first_disk(&self, alloc: Global) -> Result<String, Fail> {
        let Some(disk) = self.report()?.disks.as_slice().first() else {
            return Err("a disk of member 0".into());
        };
        let mut text = hex::encode(alloc, disk.as_slice())?;
        text.push_str("\n")?;
        Ok(text)
    }
}

/// Runs a script.
pub(crate) fn run<R: Threads + Sync>(
    rt: &R,
    alloc: Global,
    script: &str,
) -> Result<Ended<SumHasher>, Fail> {
    let source = source_of(alloc, script)?;
    run_into(rt, alloc, &[], source, sink_of(alloc)?)
}

/// The exit status of a script's run, and what it wrote.
pub(crate) fn told<R: Threads + Sync>(
    rt: &R,
    alloc: Global,
    script: &str,
) -> Result<(u8, String), Fail> {
    told_by::<SumHasher, R>(rt, alloc, script)
}

/// The same under any hasher.
pub(crate) fn told_by<H: Hasher<Digest = Digest32>, R: Threads + Sync>(
    rt: &R,
    alloc: Global,
    script: &str,
) -> Result<(u8, String), Fail> {
    let source = source_of(alloc, script)?;
    told_into::<H, R>(rt, alloc, &[], source, sink_of(alloc)?)
}

/// A source of that text.
pub(crate) fn source_of(alloc: Global, text: &str) -> Result<MemorySource, Fail> {
    let bytes = text.as_bytes().to_vec(alloc)?;
    Ok(MemorySource::new(bytes, 4096, Vec::new(alloc)))
}

// A sink that takes 65,536 bytes.
fn sink_of(alloc: Global) -> Result<MemorySink, Fail> {
    Ok(MemorySink::new(alloc, 4096, Vec::new(alloc))?)
}

/// The exit status of the program on words and a source, and what it wrote.
pub(crate) fn told_from<R: Threads + Sync>(
    rt: &R,
    alloc: Global,
    words: &[String],
    source: MemorySource,
) -> Result<(u8, String), Fail> {
    let sink = sink_of(alloc)?;
    told_into::<SumHasher, R>(rt, alloc, words, source, sink)
}

/// The same on words, a source and a sink.
pub(crate) fn told_into<H: Hasher<Digest = Digest32>, R: Threads + Sync>(
    rt: &R,
    alloc: Global,
    words: &[String],
    source: MemorySource,
    sink: MemorySink,
) -> Result<(u8, String), Fail> {
    let Ended { exit, text } = run_into::<H, R>(rt, alloc, words, source, sink)?;
    Ok((exit.status(), text))
}

// Runs the program on words, a source and a sink.
fn run_into<H: Hasher<Digest = Digest32>, R: Threads + Sync>(
    rt: &R,
    alloc: Global,
    words: &[String],
    source: MemorySource,
    sink: MemorySink,
) -> Result<Ended<H>, Fail> {
    let mut source = source;
    let mut sink = sink;
    sink.reserve(65_536)?;
    let exit = run_program::<H, R, MemorySource, MemorySink, Sequential>(
        rt,
        alloc,
        words,
        &mut source,
        &mut sink,
        &Sequential,
    );
    with_text(alloc, exit, &sink)
}

// A run that ended so, and wrote into that sink.
fn with_text<H: Hasher<Digest = Digest32>>(
    alloc: Global,
    exit: Exit<Report<H>>,
    sink: &MemorySink,
) -> Result<Ended<H>, Fail> {
    let text = String::from_utf8_lossy(alloc, sink.bytes())?;
    Ok(Ended { exit, text })
}
