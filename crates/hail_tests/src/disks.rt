//! Disks that hold given bytes or lost some, and members that are started on disks.

ghost use Rattle.std.specs.Prelude.{false};

use cw_base::{Digest32, Hasher, Sequential};
use cw_types::{AcceptAll, Committees, StepOut, Verifier, Vote};
use node::{Member, NodeError, Way};
use node_disk::{Disk, MemoryDisk};
use std::alloc::Global;
use std::test::Fail;
use std::thread::Threads;

/// A disk that gives these bytes.
pub(crate) fn disk_of(alloc: Global, bytes: &[u8]) -> Result<MemoryDisk, Fail> {
    let mut disk = MemoryDisk::new(alloc, Vec::new(alloc));
    disk.write_at(0, bytes)?;
    disk.sync()?;
    Ok(disk)
}

/// What a crash leaves of a disk: what was written since the last sync is overwritten by 255s. A
/// disk that stopped before is left as it stopped.
pub(crate) fn crashed(mut disk: MemoryDisk) -> Result<MemoryDisk, Fail> {
    disk.stop_at(1, 0, 255);
    match disk.sync() {
        Err(_) => Ok(disk.reopen()),
        Ok(()) => Err("a crash".into()),
    }
}

/// A member, and what its start gave.
pub(crate) type Started<H, W> = (Member<H, MemoryDisk, AcceptAll, W>, StepOut);

/// What a start with backlog 3 answers on a disk, which it hands back where it refuses.
pub(crate) fn start<H: Hasher<Digest = Digest32>, W: Way, R: Threads + Sync>(
    rt: &R,
    alloc: Global,
    id: u16,
    committees: Committees,
    disk: MemoryDisk,
) -> Result<Result<Started<H, W>, (MemoryDisk, NodeError)>, Fail> {
    if id >= committees.total() {
        return Err("a member of the cluster".into());
    }
    Ok(Member::start(rt, alloc, id, committees, 3, disk, AcceptAll, &Sequential))
}

/// By whom no vote was signed.
pub(crate) struct Nobody;

impl Verifier for Nobody {
    ghost signs = { λ _ _ _. false };

    fn signed(&self, _member: u16, _vote: &Vote) -> bool {
        false
    }
}
