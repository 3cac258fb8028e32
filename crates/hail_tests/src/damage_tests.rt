//! Tests of disks that fail or hold something else: what a log, a store and a node answer on them.

use crate::disks::{Nobody, disk_of, start};
use cw_base::{Sequential, SumHasher};
use cw_types::{AcceptAll, Committees, Event};
use marshal::Marshal;
use node::{Node, NodeError};
use node_disk::{Log, MemoryDisk, StoreError};
use std::alloc::Global;
use std::test::Fail;
use std::thread::Threads;

type SumNode = Node<SumHasher, MemoryDisk, AcceptAll>;

// What a start of member 0 of four answers on a disk, which it hands back where it refuses.
fn start_first<R: Threads + Sync>(
    rt: &R,
    alloc: Global,
    disk: MemoryDisk,
) -> Result<Result<SumNode, (MemoryDisk, NodeError)>, Fail> {
    match start(rt, alloc, 0, Committees::single(alloc, 4)?, disk)? {
        Ok((node, _)) => Ok(Ok(node)),
        Err(refused) => Ok(Err(refused)),
    }
}

// How many notes a start finds on a disk that was given back.
fn found_again<R: Threads + Sync>(rt: &R, alloc: Global, disk: MemoryDisk) -> Result<usize, Fail> {
    match start_first(rt, alloc, disk)? {
        Ok(node) => Ok(node.notes().len()),
        Err((_, error)) => Err(Fail::from(error)),
    }
}

// How a step is answered: what it was refused by, if it was.
fn refused_by<R: Threads + Sync>(
    rt: &R,
    alloc: Global,
    node: &mut SumNode,
    event: Event,
) -> Option<NodeError> {
    let answer = node.step(rt, alloc, &event, &Nobody, &Sequential);
    drop(event);
    match answer {
        Ok(_) => None,
        Err(error) => Some(error),
    }
}

// What a start answers, the first step, which notes a vote, and three later ones: one with nothing
// to do, one that only asks, and one that notes an acknowledgement.
type Refusals = [Option<NodeError>; 5];

fn refused_steps<R: Threads + Sync>(rt: &R, alloc: Global, node: &mut SumNode) -> Refusals {
    [
        None,
        refused_by(rt, alloc, node, Event::Timeout(1)),
        refused_by(rt, alloc, node, Event::Timeout(2)),
        refused_by(rt, alloc, node, Event::Hint(1)),
        refused_by(rt, alloc, node, Event::Ack),
    ]
}

// These where the device call of this number fails, and how many notes a start finds then on the
// disk that comes back.
fn with_failing<R: Threads + Sync>(
    rt: &R,
    alloc: Global,
    call: u64,
) -> Result<(Refusals, usize), Fail> {
    let disk = MemoryDisk::new(alloc, vec![in alloc; call]?);
    match start_first(rt, alloc, disk)? {
        Err((disk, error)) => Ok((
            [Some(error), None, None, None, None],
            found_again(rt, alloc, disk)?,
        )),
        Ok(mut node) => {
            let refusals = refused_steps(rt, alloc, &mut node);
            Ok((refusals, found_again(rt, alloc, node.into_disk())?))
        }
    }
}

// A start on a new disk makes three device calls, a step with notes four.
#[test]
fn a_node_says_where_its_disk_fails(rt: HostRuntime) -> Result<(), Fail> {
    let disk = Some(StoreError::Disk);
    let failed = Some(StoreError::Failed);
    for (call, answers, notes) in [
        (1, [disk, None, None, None, None], 0),
        (2, [disk, None, None, None, None], 0),
        (3, [disk, None, None, None, None], 0),
        (4, [None, disk, failed, failed, failed], 0),
        (5, [None, disk, failed, failed, failed], 0),
        (6, [None, disk, failed, failed, failed], 0),
        (7, [None, disk, failed, failed, failed], 1),
        (20, [None; 5], 2),
    ] {
        assert_eq!(rt;
            with_failing(&rt, rt.alloc(), call)?,
            (answers, notes),
            "at {call}"
        );
    }
    Ok(())
}

// The disk after a step that notes a Nullify vote of view 1, and its last byte is another.
const OPEN_END: [u8; 20] = [1, 0, 0, 0, 0, 0, 0, 0, 10, 3, 1, 0, 0, 0, 0, 0, 0, 0, 1, 1];

const EMPTY_FRAME: [u8; 10] = [1, 0, 0, 0, 0, 0, 0, 0, 0, 0];

const UNKNOWN_BYTE: [u8; 11] = [1, 0, 0, 0, 0, 0, 0, 0, 1, 9, 0];

// The frames that a log finds on a disk of these bytes, or how it refuses them.
fn frames_on(alloc: Global, bytes: &[u8]) -> Result<String, Fail> {
    match Log::start(alloc, disk_of(alloc, bytes)?) {
        Ok(log) => frames_of(alloc, &log),
        Err((_, error)) => Ok(format!(in alloc; "{error:?}")?),
    }
}

fn frames_of(alloc: Global, log: &Log<MemoryDisk>) -> Result<String, Fail> {
    let mut frames = Vec::new(alloc);
    for place in 0..log.frames() {
        frames.push(log.frame(place))?;
    }
    Ok(format!(in alloc; "{frames:?}")?)
}

// How a store and a node refuse a disk of these bytes, twice each.
fn refused_on<R: Threads + Sync>(
    rt: &R,
    alloc: Global,
    bytes: &[u8],
) -> Result<[Option<StoreError>; 4], Fail> {
    let (disk, store) = store_on(alloc, disk_of(alloc, bytes)?)?;
    let (disk, store_again) = store_on(alloc, disk)?;
    let (disk, node) = node_on(rt, alloc, disk)?;
    let (_, node_again) = node_on(rt, alloc, disk)?;
    Ok([store, store_again, node, node_again])
}

fn store_on(alloc: Global, disk: MemoryDisk) -> Result<(MemoryDisk, Option<StoreError>), Fail> {
    match Marshal::<SumHasher, MemoryDisk>::start(alloc, Committees::single(alloc, 4)?, 3, disk) {
        Ok(marshal) => Ok((marshal.into_disk(), None)),
        Err((disk, error)) => Ok((disk, Some(error))),
    }
}

fn node_on<R: Threads + Sync>(
    rt: &R,
    alloc: Global,
    disk: MemoryDisk,
) -> Result<(MemoryDisk, Option<StoreError>), Fail> {
    match start_first(rt, alloc, disk)? {
        Ok(node) => Ok((node.into_disk(), None)),
        Err((disk, error)) => Ok((disk, Some(error))),
    }
}

// A log takes any frames that are whole, a store and a node those that are notes.
#[test]
fn damaged_disks_are_foreign(rt: HostRuntime) -> Result<(), Fail> {
    let alloc = rt.alloc();
    for (bytes, frames, place) in [
        (EMPTY_FRAME.as_slice(), "[[]]", 0),
        (UNKNOWN_BYTE.as_slice(), "[[9]]", 0),
        (OPEN_END.as_slice(), "Foreign(19)", 19),
    ] {
        assert_eq!(rt; frames_on(alloc, bytes)?.as_str(), frames);
        let foreign = Some(StoreError::Foreign(place));
        assert_eq!(rt; refused_on(&rt, alloc, bytes)?, [foreign; 4]);
    }
    Ok(())
}
