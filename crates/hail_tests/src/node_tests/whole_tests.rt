//! Tests of the start of a whole member by a number of members.

use cw_base::{Sequential, SumHasher};
use cw_types::{AcceptAll, StepOut};
use node_disk::MemoryDisk;
use std::alloc::Global;
use std::test::Fail;
use std::thread::Threads;
use whole_node::{WholeNode, start_whole};

// The epoch, the view and the notes of a member that started, and how much it hands out and sends.
fn numbers(
    node: &WholeNode<SumHasher, MemoryDisk, AcceptAll>,
    out: &StepOut,
) -> (u64, u64, usize, usize, usize) {
    let notes = node.notes().len();
    (
        node.epoch(),
        node.view(),
        notes,
        out.handed.len(),
        out.sent.len(),
    )
}

// The same of member 1 of four, which starts on an empty disk.
fn numbers_at_start<R: Threads + Sync>(
    rt: &R,
    alloc: Global,
) -> Result<(u64, u64, usize, usize, usize), Fail> {
    let disk = MemoryDisk::new(alloc, Vec::new(alloc));
    match start_whole(rt, alloc, 1, 4, 3, disk, AcceptAll, &Sequential) {
        Ok((node, out)) => {
            let numbers = numbers(&node, &out);
            drop(node);
            drop(out);
            Ok(numbers)
        }
        Err((_, error)) => Err(Fail::from(error)),
    }
}

#[test]
fn a_whole_member_starts_in_the_first_view(rt: HostRuntime) -> Result<(), Fail> {
    let alloc = rt.alloc();
    assert_eq!(rt; numbers_at_start(&rt, alloc)?, (0, 1, 0, 1, 0));
    Ok(())
}
