//! Logs over a disk in memory that stops, fails and is cut.

use crate::tables::case_in;
use node_disk::{Disk, DiskError, HostCall, HostDisk, Log, MemoryDisk, StoreError, read_log};
use std::alloc::Global;
use std::fmt::Write;
use std::test::Fail;

// The note of a Nullify vote of view 1.
const NOTE: [u8; 10] = [3, 1, 0, 0, 0, 0, 0, 0, 0, 1];

fn log_on(alloc: Global, disk: MemoryDisk) -> Result<Log<MemoryDisk>, Fail> {
    match Log::start(alloc, disk) {
        Ok(log) => Ok(log),
        Err((_, error)) => Err(Fail::from(error)),
    }
}

/// A disk that holds these bytes.
pub(crate) fn disk_of(alloc: Global, bytes: &[u8]) -> Result<MemoryDisk, Fail> {
    let mut disk = MemoryDisk::new(alloc, Vec::new(alloc));
    disk.write_at(0, bytes)?;
    disk.sync()?;
    Ok(disk)
}

// The frames and the bytes of a log.
fn told(alloc: Global, log: &Log<MemoryDisk>) -> Result<String, Fail> {
    Ok(format!(in alloc; "{} {:?}", log.frames(), log.bytes())?)
}

// A log of these frames.
fn log_of(alloc: Global, frames: &[&[u8]]) -> Result<Log<MemoryDisk>, Fail> {
    let mut log = log_on(alloc, MemoryDisk::new(alloc, Vec::new(alloc)))?;
    for frame in frames {
        log.append(frame)?;
    }
    Ok(log)
}

// The frames and the bytes of a log of these frames.
fn told_of(alloc: Global, frames: &[&[u8]]) -> Result<String, Fail> {
    told(alloc, &log_of(alloc, frames)?)
}

// The frames that are found after a note and [9], before which a stop was armed and dropped.
fn disarmed(alloc: Global) -> Result<String, Fail> {
    let mut log = log_of(alloc, &[&[], &NOTE])?;
    log.stop_at(2, 0, 0);
    log.disarm();
    log.append(&[9])?;
    let again = log_on(alloc, log.into_disk())?;
    if again.frames() != 2 {
        return Err("two frames".into());
    }
    Ok(format!(in alloc; "{:?} {:?}", again.frame(0), again.frame(1))?)
}

#[test]
fn a_note_takes_twenty_bytes(rt: HostRuntime) -> Result<(), Fail> {
    let alloc = rt.alloc();
    let note = "1 [1, 0, 0, 0, 0, 0, 0, 0, 10, 3, 1, 0, 0, 0, 0, 0, 0, 0, 1, 0]";
    let cases: [(&[&[u8]], &str); 3] = [(&[], "0 [0]"), (&[&[]], "0 [0]"), (&[&[], &NOTE], note)];
    for (frames, want) in cases {
        assert_eq!(rt; told_of(alloc, frames)?.as_str(), want);
    }
    assert_eq!(rt;
        disarmed(alloc)?.as_str(),
        "[3, 1, 0, 0, 0, 0, 0, 0, 0, 1] [9]"
    );
    Ok(())
}

// How many frames a start finds on a disk of these bytes.
fn started(alloc: Global, bytes: &[u8]) -> Result<Result<usize, StoreError>, Fail> {
    match Log::start(alloc, disk_of(alloc, bytes)?) {
        Ok(log) => Ok(Ok(log.frames())),
        Err((_, error)) => Ok(Err(error)),
    }
}

// How many it finds, and a read of them without a disk.
fn found(alloc: Global, bytes: &[u8]) -> Result<String, Fail> {
    let started = started(alloc, bytes)?;
    let read = match read_log(alloc, bytes) {
        Ok(frames) => Ok(frames.len()),
        Err(error) => Err(error),
    };
    Ok(format!(in alloc; "{started:?} {read:?}")?)
}

// Whether that is found on a disk of a line of the table.
fn is_found(alloc: Global, line: &str) -> Result<bool, Fail> {
    let case = case_in(alloc, line)?;
    let found = found(alloc, &case.bytes)?;
    Ok(found.as_str() == case.want)
}

const FOUND: &str = "\
no bytes: : Ok(0) Ok(0)
a gate alone: 1: Ok(0) Ok(0)
a byte behind the end: 0 1: Ok(0) Ok(0)
a gate of another kind: 2 0*9: Ok(0) Ok(0)
an empty frame: 1 0*9: Ok(1) Ok(1)
a byte: 1 0*7 1 9 0: Ok(1) Ok(1)
a note: 1 0*7 10 3 1 0*7 1 0: Ok(1) Ok(1)
a cut length: 1 0: Err(Foreign(0)) Err(Foreign(0))
a cut frame: 1 0*7 5 0: Err(Foreign(0)) Err(Foreign(0))
a frame without a gate behind it: 1 0*8: Err(Foreign(0)) Err(Foreign(0))
a note without a gate behind it: 1 0*7 10 3 1 0*7 1: Err(Foreign(0)) Err(Foreign(0))
an open gate behind a note: 1 0*7 10 3 1 0*7 1 1: Err(Foreign(19)) Err(Foreign(19))
";

// Bytes without a disk have the frames that a start finds on a disk of them.
#[test]
fn a_start_finds_whole_frames_and_names_a_cut_one(rt: HostRuntime) -> Result<(), Fail> {
    let mut count = 0u8;
    for line in FOUND.lines() {
        assert!(rt; is_found(rt.alloc(), line)?, "{line}");
        count = count.wrapping_add(1);
    }
    assert_eq!(rt; count, 12);
    Ok(())
}

// Whether a start finds a long frame and a note.
fn finds_long(alloc: Global) -> Result<bool, Fail> {
    let mut frame = Vec::new(alloc);
    frame.resize(1_048_745, 7)?;
    let log = log_of(alloc, &[&frame, &NOTE])?;
    let again = log_on(alloc, log.into_disk().reopen())?;
    if again.frames() != 2 {
        return Err("two frames".into());
    }
    Ok(again.frame(0) == frame.as_slice() && again.frame(1) == NOTE.as_slice())
}

#[test]
fn a_frame_of_more_than_a_mebibyte_is_found_again(rt: HostRuntime) -> Result<(), Fail> {
    assert!(rt; finds_long(rt.alloc())?);
    Ok(())
}

// Whether a log whose next device call stops has failed, the answers to two appends, and its bytes.
fn log_told(alloc: Global, log: &mut Log<MemoryDisk>) -> Result<String, Fail> {
    let early = log.is_failed();
    let first = log.append(&NOTE);
    let late = log.is_failed();
    let second = log.append(&NOTE);
    Ok(format!(in alloc; "{early} {first:?} {late} {second:?}\n{:?}", log.bytes())?)
}

// What a disk answers that stopped: to a sync, a write, and, where no stop is armed, a read.
fn disk_told(alloc: Global, disk: &mut MemoryDisk) -> Result<String, Fail> {
    let synced = disk.sync();
    let written = disk.write_at(0, &[1]);
    disk.disarm();
    let read = disk.read_all(alloc).err();
    Ok(format!(in alloc; "{synced:?} {written:?} {read:?}")?)
}

// The two of a log whose first device call stops, and what is found then.
fn torn(alloc: Global) -> Result<String, Fail> {
    let mut log = log_of(alloc, &[])?;
    log.stop_at(1, 3, 255);
    let first = log_told(alloc, &mut log)?;
    let mut disk = log.into_disk();
    let second = disk_told(alloc, &mut disk)?;
    let third = told(alloc, &log_on(alloc, disk.reopen())?)?;
    Ok(format!(in alloc; "{first}\n{second}\n{third}\n")?)
}

const TORN: &str = "\
false Err(Disk) true Err(Failed)
[0, 0, 0, 0, 255, 255, 255, 255, 255, 255, 255, 255, 255, 255, 255, 255, 255, 255, 255, 255]
Err(Failed) Err(Failed) Some(Failed)
0 [0, 0, 0, 0, 255, 255, 255, 255, 255, 255, 255, 255, 255, 255, 255, 255, 255, 255, 255, 255]
";

#[test]
fn a_stopped_write_is_torn_and_the_disk_stays_stopped(rt: HostRuntime) -> Result<(), Fail> {
    assert_eq!(rt; torn(rt.alloc())?.as_str(), TORN);
    Ok(())
}

// What the last of three writes answers, at 0, 2 and 0, and a sync that stops behind so many bytes,
// and the bytes then.
fn sync_told(
    alloc: Global,
    failing: Vec<u64>,
    first: &[u8],
    last: &[u8],
    cut: u64,
) -> Result<String, Fail> {
    let mut disk = MemoryDisk::new(alloc, failing);
    disk.write_at(0, first)?;
    if disk.bytes().len() < 2 {
        return Err("two bytes".into());
    }
    disk.write_at(2, &[3, 4])?;
    let written = disk.write_at(0, last);
    disk.stop_at(1, cut, 9);
    let synced = disk.sync();
    Ok(format!(in alloc; "{written:?} {synced:?} {:?}", disk.bytes())?)
}

#[test]
fn a_stopped_sync_tears_the_writes_joined_in_order(rt: HostRuntime) -> Result<(), Fail> {
    // The third device call fails, and is left out.
    let said = sync_told(rt.alloc(), vec![in rt.alloc(); 3]?, &[1, 2], &[7], 3)?;
    assert_eq!(rt; said.as_str(), "Err(Failed) Err(Failed) [1, 2, 3, 9]");
    Ok(())
}

#[test]
fn a_stopped_sync_tears_by_the_order_of_calls_not_of_places(rt: HostRuntime) -> Result<(), Fail> {
    let said = sync_told(rt.alloc(), Vec::new(rt.alloc()), &[0; 4], &[1, 2], 7)?;
    assert_eq!(rt; said.as_str(), "Ok(()) Err(Failed) [1, 9, 3, 4]");
    Ok(())
}

// The answer to an append that is stopped at a device call, and how many frames are found then.
fn stopped(
    alloc: Global,
    call: u64,
    cut: u64,
    fill: u8,
) -> Result<(Result<(), StoreError>, usize), Fail> {
    let mut log = log_of(alloc, &[&[9]])?;
    log.stop_at(call, cut, fill);
    let answer = log.append(&NOTE);
    let again = log_on(alloc, log.into_disk().reopen())?;
    Ok((answer, again.frames()))
}

#[test]
fn a_stop_leaves_the_frame_from_its_third_call_on(rt: HostRuntime) -> Result<(), Fail> {
    for call in 1..6u64 {
        for cut in 0..3u64 {
            for fill in [0u8, 1, 255] {
                let kept = call == 5 || (call == 3 || call == 4) && (cut >= 1 || fill == 1);
                let answer = if call == 5 {
                    Ok(())
                } else {
                    Err(StoreError::Disk)
                };
                let want = (answer, if kept { 2 } else { 1 });
                let said = stopped(rt.alloc(), call, cut, fill)?;
                assert_eq!(rt; said, want, "{call} {cut} {fill}");
            }
        }
    }
    Ok(())
}

// The error of a start whose device call of that number fails.
fn start_error(alloc: Global, number: u64) -> Result<Option<StoreError>, Fail> {
    match Log::start(alloc, MemoryDisk::new(alloc, vec![in alloc; number]?)) {
        Ok(_) => Ok(None),
        Err((_, error)) => Ok(Some(error)),
    }
}

// The answers to two appends where the device call of that number fails, and how many frames are
// found then.
fn appended(
    alloc: Global,
    number: u64,
) -> Result<(Result<(), StoreError>, Result<(), StoreError>, usize), Fail> {
    let mut log = log_on(alloc, MemoryDisk::new(alloc, vec![in alloc; number]?))?;
    let first = log.append(&NOTE);
    let second = log.append(&NOTE);
    let again = log_on(alloc, log.into_disk())?;
    Ok((first, second, again.frames()))
}

#[test]
fn a_failing_call_is_answered_and_remembered(rt: HostRuntime) -> Result<(), Fail> {
    for number in 1..4u64 {
        assert_eq!(rt; start_error(rt.alloc(), number)?, Some(StoreError::Disk));
    }
    // The fourth call of an append is the seventh of the disk: its gate is open by then.
    for (number, frames) in [(4u64, 0), (5, 0), (6, 0), (7, 1)] {
        let want = (Err(StoreError::Disk), Err(StoreError::Failed), frames);
        assert_eq!(rt; appended(rt.alloc(), number)?, want, "after {number}");
    }
    Ok(())
}

// A device call as a line: whether it was done, and a write's place and bytes.
fn put_call(text: &mut String, call: &HostCall) -> Result<(), Fail> {
    match call {
        HostCall::Write { place, bytes, done } => {
            write!(text, "{done} {place} {:?}\n", bytes.as_slice())?;
        }
        HostCall::Sync { done } => write!(text, "{done} sync\n")?,
    }
    Ok(())
}

// What an append to a new log answers where the device call of that number fails, the calls that
// its host is told, and how many it is told again.
fn host_told(alloc: Global, number: u64) -> Result<String, Fail> {
    let below = MemoryDisk::new(alloc, vec![in alloc; number]?);
    let mut log = match Log::start(alloc, HostDisk::new(alloc, below)) {
        Ok(log) => log,
        Err((_, error)) => return Err(Fail::from(error)),
    };
    let answer = log.append(&[9]);
    let mut text = format!(in alloc; "{answer:?}\n")?;
    let mut disk = log.into_disk();
    for call in disk.take_calls().as_slice() {
        put_call(&mut text, call)?;
    }
    write!(text, "{}", disk.take_calls().len())?;
    Ok(text)
}

const TOLD_TO_A_HOST: &str = "\
Ok(())
true sync
true 0 [0]
true sync
true 1 [0, 0, 0, 0, 0, 0, 0, 1, 9, 0]
true sync
true 0 [1]
true sync
0";

const TOLD_OF_A_FAULT: &str = "\
Err(Disk)
true sync
true 0 [0]
true sync
false 1 [0, 0, 0, 0, 0, 0, 0, 1, 9, 0]
0";

#[test]
fn a_host_is_told_each_device_call_once(rt: HostRuntime) -> Result<(), Fail> {
    assert_eq!(rt; host_told(rt.alloc(), 20)?.as_str(), TOLD_TO_A_HOST);
    assert_eq!(rt; host_told(rt.alloc(), 4)?.as_str(), TOLD_OF_A_FAULT);
    Ok(())
}
