//! The node in a member's place.

ghost use Rattle.std.specs.Prelude.{◌≡◌, ◌<◌, ◌≤◌, ℕ, List, true, false, IfOk, IfErr, IsErrOf};
ghost use Rattle.std.specs.Option.{option_map};
ghost use Rattle.cw_types.specs.declared.note.Note.{Note as NoteValue};
ghost use Rattle.cw_rules_coded.specs.Coded.{ruled};
ghost use Rattle.marshal.specs.Frames.{FindsNotes};
ghost use Rattle.node_disk.specs.Memory.{is_calm, memory_state};
ghost use Rattle.hail_world.specs.MemoryNodes.{HasStarted, HasStepped, WasStopped, Works, rules_by};
ghost use Rattle.hail_world.specs.MemoryNodes as memory_nodes;

use cw_base::{Digest32, Hasher, NoMemory, Strategy};
use cw_types::{AcceptAll, Committees, Event, StepOut, Verifier};
use node::{Member, Way};
use node_disk::{MemoryDisk, StoreError};
use std::alloc::Global;
use std::marker::Model;
use std::thread::Threads;

/// A node over a disk in memory, which accepts every block.
pub type MemoryNode<H, W> = Member<H, MemoryDisk, AcceptAll, W>;

/// A node that takes events.
#[derive(Drop)]
pub struct LiveNode<H: Hasher<Digest = Digest32>, W: Way> {
    pub(crate) node: MemoryNode<H, W>,
}

impl<H: Hasher<Digest = Digest32>, W: Way> Model for LiveNode<H, W> {
    ghost use Rattle.std.specs.Prelude.{◌≡◌, true};
    ghost use Rattle.hail_world.specs.MemoryNodes as memory_nodes;

    ghost Value = { memory_nodes.MemoryNode };

    ghost view = { λ s. s.node };

    ghost invariant = { λ s. s.node.member.live ≡ true };
}

/// Starts a node on a disk that doesn't fail: on the frames of notes that it holds.
pub(crate) fn start<H: Hasher<Digest = Digest32>, W: Way, R: Threads + Sync, S: Strategy>(
    rt: &R,
    alloc: Global,
    id: u16,
    committees: Committees,
    backlog: u64,
    disk: MemoryDisk,
    strategy: &S,
) -> Result<(LiveNode<H, W>, StepOut), NoMemory>
    requires known { id < committees.total }
    requires some { 1 ≤ backlog }
    requires calm { is_calm disk ≡ true }
    requires holds { (frames : List (List NoteValue))
        × FindsNotes frames (memory_state disk).now.seen }
    ensures { (frames : List (List NoteValue)) → FindsNotes frames (memory_state disk).now.seen
        → IfOk result
        (λ started. HasStarted
        (ruled W.travel H.digest_of committees backlog
        (λ b a. true)) id frames disk started.0 started.1) }
{
    match Member::start(
        rt, alloc, id, committees, backlog, disk, AcceptAll, strategy,
    ) {
        Ok((node, out)) => Ok((LiveNode { node }, out)),
        Err((_, StoreError::NoMemory)) => Err(NoMemory),
        Err((_, StoreError::Disk)) => unreachable!(),
        Err(_) => unreachable!(),
    }
}

/// A node takes an event.
pub(crate) fn step<
    H: Hasher<Digest = Digest32>,
    W: Way,
    V: Verifier,
    R: Threads + Sync,
    S: Strategy,
>(
    rt: &R,
    alloc: Global,
    node: &mut MemoryNode<H, W>,
    event: &Event,
    verifier: &V,
    strategy: &S,
) -> Result<StepOut, StoreError>
    requires { Works node.old }
    ensures ok { IfOk result
        (λ out. HasStepped (rules_by H.digest_of node.old)
        (V.signs verifier.now) event.now node.old node.new out) }
    ensures cut { IsErrOf result StoreError.Disk
        → WasStopped (rules_by H.digest_of node.old)
        (V.signs verifier.now) event.now node.old node.new }
    ensures not_failed { IsErrOf result StoreError.Failed → ⊥ }
    ensures not_foreign { (place : ℕ) → IsErrOf result (StoreError.Foreign place) → ⊥ }
{
    node.step(rt, alloc, event, verifier, strategy)
}
