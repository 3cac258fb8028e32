//! A disk over another one, which notes its device calls for whoever keeps the real file.

ghost use Rattle.std.specs.Prelude.{◌≡◌, ◌<◌, ◌∷◌, ◌++◌, [], map, vec_len, vec_capacity};
ghost use Rattle.node_disk.specs.Host.{told_of};

use crate::{Disk, DiskError};
use cw_base::Items;
use std::alloc::Global;
use std::marker::Model;
use std::mem;

/// A device call that was made on a [`HostDisk`], for its host.
#[derive(Debug, Drop)]
pub enum HostCall {
    /// Bytes were written from a place on.
    Write {
        /// In bytes from the start of the file.
        place: u64,
        /// What was written.
        bytes: Items<u8>,
        /// False where the disk below failed: the range may then hold any bytes.
        done: bool,
    },
    /// All that was written before was to be kept.
    Sync {
        /// False where the disk below failed: it is no sync then.
        done: bool,
    },
}

/// A disk over another one that notes each device call which it makes there, until the calls are
/// taken. A host, as a program that speaks with a member through pipes, makes the same calls in
/// their order on a file of its own, and the file then has what this disk has, whenever the host is
/// stopped ([`law_of_files`](crate::law_of_files)). The calls that it tells the layers above are
/// those that wait.
///
/// A note is a copy of what was written; a call that was refused for memory isn't made, and isn't
/// noted. Over a [`MemoryDisk`](crate::MemoryDisk), which keeps what was ever written, a byte of
/// the file takes two bytes of memory, and one more until the calls are taken.
///
/// ```text
/// let mut disk = HostDisk::new(alloc, MemoryDisk::new(alloc, Vec::new(alloc)));
/// disk.write_at(0, &[7])?;
/// disk.sync()?;
/// for call in disk.take_calls().as_slice() {
///     // the write, and then the sync; the next answer has none of them
/// }
/// ```
#[derive(Drop)]
pub struct HostDisk<D: Disk> {
    alloc: Global,
    inner: D,
    // Those that wait to be taken.
    calls: Vec<HostCall>,
    tries: u64,
}

impl<D: Disk> Model for HostDisk<D> {
    ghost use Rattle.std.specs.Prelude.{map};
    ghost use Rattle.node_disk.specs.Host.{HostState, told_of};

    ghost Value = { HostState D };

    ghost view = { λ disk. record {
      inner = disk.inner;
      waiting = map told_of disk.calls.items;
      tries = disk.tries;
    } };
}

impl<D: Disk> HostDisk<D> {
    /// A disk over another one, no call of which waits. It takes no memory.
    pub fn new(alloc: Global, inner: D) -> HostDisk<D>
        ensures { result ≡ record { inner = inner; waiting = []; tries = 0 } }
    {
        HostDisk {
            alloc,
            inner,
            calls: Vec::new(alloc),
            tries: 0,
        }
    }

    /// The device calls since they were taken last, in their order; none of them waits then. It
    /// takes no memory.
    pub fn take_calls(&mut self) -> Items<HostCall>
        ensures taken { map told_of result ≡ self.old.waiting }
        ensures rest { self.new ≡ record self.old { waiting = [] } }
    {
        let none = Vec::new(self.alloc);
        Items::from_vec(mem::replace(&mut self.calls, none))
    }

    /// The disk below, as it stands.
    pub fn into_inner(self) -> D
        ensures { result ≡ self.inner }
    {
        let HostDisk {
            alloc: _,
            inner,
            calls: _,
            tries: _,
        } = self;
        inner
    }
}

// Puts a call behind those that wait, for which there is room.
fn note(calls: &mut Vec<HostCall>, call: HostCall)
    requires { vec_len calls.old < vec_capacity calls.old }
    ensures { map told_of calls.new.items ≡ map told_of calls.old.items ++ told_of call ∷ [] }
{
    let _ = calls.push(call);
}

impl<D: Disk> Disk for HostDisk<D> {
    ghost use Rattle.node_disk.specs.Host.{HostContinues, host_state};
    ghost use Rattle.node_disk.specs.HostLaws.{host_itself, host_on};

    ghost state = { host_state D.state };

    ghost continues = { HostContinues D.state D.continues };

    ghost calm = { λ disk. D.calm disk.inner };

    ghost seen_is_image = { λ disk. D.seen_is_image disk.inner };

    ghost continues_itself = { host_itself D.state D.continues D.continues_itself };

    ghost continues_on = { host_on D.state D.continues D.continues_on };

    ghost stays_calm = { λ old new on. D.stays_calm old.inner new.inner on.inner };

    fn read_all(&mut self, alloc: Global) -> Result<Vec<u8>, DiskError> {
        self.inner.read_all(alloc)
    }

    fn write_at(&mut self, place: u64, bytes: &[u8]) -> Result<(), DiskError> {
        self.tries = self.tries.saturating_add(1);
        let bytes_kept = Items::from_vec(bytes.to_vec(self.alloc)?);
        self.calls.reserve(1)?;
        match self.inner.write_at(place, bytes) {
            Ok(()) => {
                let call = HostCall::Write {
                    place,
                    bytes: bytes_kept,
                    done: true,
                };
                note(&mut self.calls, call);
                Ok(())
            }
            Err(DiskError::Failed) => {
                let call = HostCall::Write {
                    place,
                    bytes: bytes_kept,
                    done: false,
                };
                note(&mut self.calls, call);
                Err(DiskError::Failed)
            }
            Err(DiskError::NoMemory) => Err(DiskError::NoMemory),
        }
    }

    fn sync(&mut self) -> Result<(), DiskError> {
        self.tries = self.tries.saturating_add(1);
        self.calls.reserve(1)?;
        match self.inner.sync() {
            Ok(()) => {
                note(&mut self.calls, HostCall::Sync { done: true });
                Ok(())
            }
            Err(DiskError::Failed) => {
                note(&mut self.calls, HostCall::Sync { done: false });
                Err(DiskError::Failed)
            }
            Err(DiskError::NoMemory) => Err(DiskError::NoMemory),
        }
    }
}
