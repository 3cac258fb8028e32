//! Tests of what the programs hand back: the ledger's replicas, and the archive.

use crate::streams::{PLAIN, sink_of, source_of, words_of};
use crate::tables::{SMALL, part_of};
use cw_archive::Archive;
use cw_base::{Items, Sequential, Sha256};
use cw_ledger::Replica;
use cw_types::{ChainBlock, Message};
use hail_report::{Acked, Entry, Exit};
use hail_world::Report;
use node::Chunked;
use node_disk::MemoryDisk;
use run_archive::archive_program;
use run_ledger::ledger_program;
use std::alloc::Global;
use std::test::Fail;
use std::thread::Threads;

// The members whose replicas are handed back, with the height of each and what account 7 has; how
// each answers to the link of height 1, which but that of member 2 none has; and the same again.
const REPLICAS: &str = "0 at 0 with 0: Done, at 1 with 5
1 at 0 with 0: Done, at 1 with 5
2 at 1 with 5: Known, at 1 with 5
3 at 0 with 0: Done, at 1 with 5
";

#[test]
fn the_replicas_are_handed_back_at_work(rt: HostRuntime) -> Result<(), Fail> {
    let told = replicas_after(&rt, rt.alloc(), script_at(1)?)?;
    assert_eq!(rt; told.as_str(), REPLICAS);
    Ok(())
}

// The script that stands behind so many marks of the small ones.
fn script_at(place: usize) -> Result<&'static str, Fail> {
    match SMALL.split("== ").nth(place) {
        Some(text) => Ok(part_of(text)?.script),
        None => Err("so many scripts".into()),
    }
}

// A line for each replica behind the run of a script.
fn replicas_after<R: Threads + Sync>(rt: &R, alloc: Global, script: &str) -> Result<String, Fail> {
    let mut source = source_of(alloc, PLAIN, script)?;
    let mut sink = sink_of(alloc, PLAIN)?;
    told_of_ledger(
        alloc,
        ledger_program(rt, alloc, &[], &mut source, &mut sink, &Sequential),
    )
}

// What the ledger hands back of a run that is done.
type Ledgers = (Report<Sha256, Chunked>, Items<Replica<MemoryDisk>>);

fn told_of_ledger(alloc: Global, exit: Exit<Ledgers>) -> Result<String, Fail> {
    match exit {
        Exit::Done((report, replicas)) => {
            let mut replicas = replicas.into_vec();
            let (acked, chain) = (report.acked.as_slice(), report.chain.as_slice());
            let text = replicas_text(alloc, acked, chain, &mut replicas);
            drop(report);
            drop(replicas);
            text
        }
        other => {
            drop(other);
            Err("a run that is done".into())
        }
    }
}

fn replicas_text(
    alloc: Global,
    acked: &[Acked],
    chain: &[ChainBlock],
    replicas: &mut [Replica<MemoryDisk>],
) -> Result<String, Fail> {
    let Some(link) = chain.get(1) else {
        return Err("a link of height 1".into());
    };
    let mut text = String::new(alloc);
    for (acked, replica) in acked.iter().zip(replicas.iter_mut()) {
        write!(text, "{} ", acked.member)?;
        push_replica(alloc, &mut text, link, replica)?;
    }
    Ok(text)
}

fn push_replica(
    alloc: Global,
    text: &mut String,
    link: &ChainBlock,
    replica: &mut Replica<MemoryDisk>,
) -> Result<(), Fail> {
    push_standing(text, replica)?;
    let answer = replica.apply(alloc, link)?;
    write!(text, ": {answer:?}, ")?;
    push_standing(text, replica)?;
    write!(text, "\n")?;
    Ok(())
}

fn push_standing(text: &mut String, replica: &Replica<MemoryDisk>) -> Result<(), Fail> {
    let Some(height) = replica.height() else {
        return Err("a block that was applied".into());
    };
    write!(text, "at {height} with {}", replica.balance(7))?;
    Ok(())
}

// The four chunks of one block, of 88 bytes each, are sent in turn, and then the first and the
// third again.
#[test]
fn the_archive_is_handed_back(rt: HostRuntime) -> Result<(), Fail> {
    for (limit, want) in [("100", (88, 1)), ("200", (176, 2)), ("1000", (352, 4))] {
        assert_eq!(rt; used_and_count(&rt, rt.alloc(), limit)?, want, "at {limit}");
    }
    Ok(())
}

// How many bytes the archive of that limit holds behind the run, and how many chunks of the block
// that was sent first.
fn used_and_count<R: Threads + Sync>(
    rt: &R,
    alloc: Global,
    limit: &str,
) -> Result<(u64, usize), Fail> {
    let words = words_of(alloc, limit)?;
    let mut source = source_of(alloc, PLAIN, script_at(2)?)?;
    let mut sink = sink_of(alloc, PLAIN)?;
    told_of_archive(archive_program(rt, alloc, &words, &mut source, &mut sink, &Sequential))
}

// What the archive hands back of a run that is done.
type Archived = (Report<Sha256, Chunked>, Archive<Sha256>);

fn told_of_archive(exit: Exit<Archived>) -> Result<(u64, usize), Fail> {
    match exit {
        Exit::Done((report, archive)) => {
            let used = archive.used();
            let count = count_of_first(report.steps.as_slice(), &archive);
            drop(report);
            drop(archive);
            match count {
                Ok(count) => Ok((used, count)),
                Err(missing) => Err(missing),
            }
        }
        other => {
            drop(other);
            Err("a run that is done".into())
        }
    }
}

fn count_of_first(steps: &[Entry], archive: &Archive<Sha256>) -> Result<usize, Fail> {
    let Some(entry) = steps.first() else {
        return Err("a line of the script".into());
    };
    let Some(sent) = entry.sent.as_slice().first() else {
        return Err("a message".into());
    };
    match &sent.message {
        Message::Shard(commitment, _) => Ok(archive.count(commitment)),
        _ => Err("a shard".into()),
    }
}
