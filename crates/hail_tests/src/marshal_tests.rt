//! Tests of a store: its disk, the contracts of the harness, and the worked rows.

mod answers;
mod blocks;
mod store;
mod tables;

use crate::disks::disk_of;
use crate::tables::{count_of, head_and_rest};
use answers::first_wrong;
use cw_base::SumHasher;
use cw_types::{Note, Vote};
use marshal::{Marshal, MarshalError, notes_on};
use node_disk::{MemoryDisk, StoreError};
use std::alloc::Global;
use std::test::Fail;
use store::open;
use tables::STORES;

// The disk after a step that notes a Nullify vote of view 1.
const ONE_NOTE: [u8; 20] = [1, 0, 0, 0, 0, 0, 0, 0, 10, 3, 1, 0, 0, 0, 0, 0, 0, 0, 1, 0];

const NULLIFY: Note = Note::Vote(Vote::Nullify { epoch: 0, view: 1 });

// How many notes a start finds on these bytes. What is found without a start is the same.
fn found(alloc: Global, bytes: &[u8]) -> Result<Result<usize, MarshalError>, Fail> {
    let started = match open(alloc, 1, disk_of(alloc, bytes)?)? {
        Ok(marshal) => Ok(marshal.notes().len()),
        Err(error) => Err(error),
    };
    let read = match notes_on(alloc, bytes) {
        Ok(notes) => Ok(notes.len()),
        Err(error) => Err(error),
    };
    if started != read {
        return Err("one answer by a start and without it".into());
    }
    Ok(started)
}

// How many notes a store has, how many of them its last frame has, and the bytes of its disk.
fn told(alloc: Global, marshal: &Marshal<SumHasher, MemoryDisk>) -> Result<String, Fail> {
    let notes = marshal.notes().len();
    let last = marshal.last_frame().len();
    Ok(format!(in alloc; "{notes} {last} {:?}\n", marshal.bytes())?)
}

// That of a store that stages a note, and behind each of two commits.
fn stage_and_commit(
    alloc: Global,
    marshal: &mut Marshal<SumHasher, MemoryDisk>,
) -> Result<String, Fail> {
    marshal.stage(NULLIFY)?;
    let mut text = told(alloc, marshal)?;
    for _ in 0..2 {
        marshal.commit()?;
        text.push_str(&told(alloc, marshal)?)?;
    }
    Ok(text)
}

fn committed_twice(alloc: Global) -> Result<String, Fail> {
    match open(alloc, 3, MemoryDisk::new(alloc, Vec::new(alloc)))? {
        Ok(mut marshal) => stage_and_commit(alloc, &mut marshal),
        Err(error) => Err(Fail::from(error)),
    }
}

#[test]
fn a_staged_note_takes_twenty_bytes(rt: HostRuntime) -> Result<(), Fail> {
    let note = format!(in rt.alloc(); "1 1 {ONE_NOTE:?}\n")?;
    let want = format!(in rt.alloc(); "1 0 [0]\n{note}{note}")?;
    assert_eq!(rt; committed_twice(rt.alloc())?, want);
    Ok(())
}

#[test]
fn frames_that_are_no_notes_are_foreign(rt: HostRuntime) -> Result<(), Fail> {
    for (bytes, want) in [
        (
            [1, 0, 0, 0, 0, 0, 0, 0, 5, 0].as_slice(),
            Err(StoreError::Foreign(0)),
        ),
        (
            [1, 0, 0, 0, 0, 0, 0, 0, 0, 0].as_slice(),
            Err(StoreError::Foreign(0)),
        ),
        (
            [1, 0, 0, 0, 0, 0, 0, 0, 1, 9, 0].as_slice(),
            Err(StoreError::Foreign(0)),
        ),
        ([0, 1].as_slice(), Ok(0)),
        (ONE_NOTE.as_slice(), Ok(1)),
    ] {
        assert_eq!(rt; found(rt.alloc(), bytes)?, want);
    }
    Ok(())
}

// What is found of two such frames, of which so many bytes are left.
fn whole_frames(bytes: usize) -> Result<usize, MarshalError> {
    match bytes {
        0..2 => Ok(0),
        2..20 => Err(StoreError::Foreign(0)),
        20..39 => Err(StoreError::Foreign(19)),
        _ => Ok(2),
    }
}

#[test]
fn a_log_is_cut_at_every_byte(rt: HostRuntime) -> Result<(), Fail> {
    let alloc = rt.alloc();
    let mut image = Vec::from_slice(alloc, &ONE_NOTE[..19])?;
    for byte in ONE_NOTE {
        image.push(byte)?;
    }
    for bytes in 0..image.len() + 1 {
        assert_eq!(rt;
            found(alloc, &image[..bytes])?,
            whole_frames(bytes),
            "at {bytes}"
        );
    }
    Ok(())
}

// How many notes a start finds on a disk.
fn found_on(alloc: Global, disk: MemoryDisk) -> Result<usize, Fail> {
    match open(alloc, 3, disk)? {
        Ok(marshal) => Ok(marshal.notes().len()),
        Err(error) => Err(Fail::from(error)),
    }
}

// What two commits do where the device call of this number fails, or what a start answers, twice;
// and how many notes a start finds afterwards.
fn with_failing(
    alloc: Global,
    call: u64,
) -> Result<(Result<(), MarshalError>, Result<(), MarshalError>, usize), Fail> {
    let disk = MemoryDisk::new(alloc, vec![in alloc; call]?);
    match open(alloc, 3, disk)? {
        Ok(mut marshal) => {
            let (first, second) = commit_twice(&mut marshal)?;
            let notes = found_on(alloc, marshal.into_disk())?;
            Ok((first, second, notes))
        }
        Err(error) => Ok((Err(error), Err(error), 0)),
    }
}

fn commit_twice(
    marshal: &mut Marshal<SumHasher, MemoryDisk>,
) -> Result<(Result<(), MarshalError>, Result<(), MarshalError>), Fail> {
    marshal.stage(NULLIFY)?;
    let first = marshal.commit();
    Ok((first, marshal.commit()))
}

#[test]
fn each_device_call_fails_once(rt: HostRuntime) -> Result<(), Fail> {
    let disk = Err(StoreError::Disk);
    let failed = Err(StoreError::Failed);
    for (call, first, second, notes) in [
        (1, disk, disk, 0),
        (2, disk, disk, 0),
        (3, disk, disk, 0),
        (4, disk, failed, 0),
        (5, disk, failed, 0),
        (6, disk, failed, 0),
        (7, disk, failed, 1),
        (20, Ok(()), Ok(()), 1),
    ] {
        assert_eq!(rt;
            with_failing(rt.alloc(), call)?,
            (first, second, notes),
            "at {call}"
        );
    }
    Ok(())
}

// What the first commit answers where a stop stands at a device call from then on, and how many
// notes a start finds afterwards.
fn with_stop(
    alloc: Global,
    call: u64,
    cut: u64,
    fill: u8,
) -> Result<(Result<(), MarshalError>, usize), Fail> {
    match open(alloc, 3, MemoryDisk::new(alloc, Vec::new(alloc)))? {
        Ok(mut marshal) => {
            let first = commit_stopped(&mut marshal, call, cut, fill)?;
            Ok((first, found_on(alloc, marshal.into_disk().reopen())?))
        }
        Err(error) => Err(Fail::from(error)),
    }
}

fn commit_stopped(
    marshal: &mut Marshal<SumHasher, MemoryDisk>,
    call: u64,
    cut: u64,
    fill: u8,
) -> Result<Result<(), MarshalError>, Fail> {
    marshal.stage(NULLIFY)?;
    marshal.stop_at(call, cut, fill);
    Ok(marshal.commit())
}

#[test]
fn a_stop_leaves_the_frame_or_none(rt: HostRuntime) -> Result<(), Fail> {
    let disk = Err(StoreError::Disk);
    for (call, cut, fill, first, notes) in [
        (1, 3, 255, disk, 0),
        (2, 0, 1, disk, 0),
        (3, 0, 1, disk, 1),
        (3, 0, 0, disk, 0),
        (3, 1, 0, disk, 1),
        (4, 1, 0, disk, 1),
        (4, 0, 255, disk, 0),
        (5, 0, 0, Ok(()), 1),
    ] {
        assert_eq!(rt; with_stop(rt.alloc(), call, cut, fill)?, (first, notes));
    }
    Ok(())
}

#[test]
fn stores_answer_by_the_tables(rt: HostRuntime) -> Result<(), Fail> {
    let alloc = rt.alloc();
    for part in STORES.split("== ").skip(1) {
        let (name, table) = head_and_rest(part)?;
        assert_eq!(rt; first_wrong(&rt, alloc, table)?, None, "{name}");
    }
    assert_eq!(rt; count_of(STORES), 25);
    Ok(())
}
