//! A disk in memory, which keeps a record of its device calls.

ghost use Rattle.std.specs.Prelude.{◌≡◌, ◌+◌, ◌≤◌, [], ◌∷◌, ◌++◌, length, map, true, false, Some};
ghost use Rattle.std.specs.Prelude.{None, IfOk, OnOk, OnErr};
ghost use Rattle.node_disk.specs.Images.{IsDurable};
ghost use Rattle.node_disk.specs.Record.{Write, has_succeeded, request_of};
ghost use Rattle.node_disk.specs.Memory.{memory_state, new_disk, reopened_disk, is_stopped};
ghost use Rattle.node_disk.specs.Memory.{stop_from_now, HasCalled, next_outcome, HasCounted};
ghost use Rattle.node_disk.specs.Memory.{answer_of};

use crate::effects::{add_call, change, count_fault, has_succeeded, outcome_of};
use crate::record::{Action, Call, Pending, Stop};
use crate::{Disk, DiskError};
use std::alloc::{AllocError, Global};
use std::marker::Model;

/// A disk in memory. Device calls are `write_at` and `sync`, counted from 1. It fails in the calls
/// whose numbers it is given, and from a stop on until it is reopened, and in no other case.
///
/// It keeps every byte that was ever written to it, in the record by which it answers for earlier
/// moments.
///
/// ```text
/// let mut disk = MemoryDisk::new(alloc, Vec::new(alloc)); // no call fails by its number
/// disk.stop_at(1, 1, 9); // in the next device call, behind one byte; the rest is 9
/// assert_eq!(rt; disk.write_at(0, &[7, 7]), Err(DiskError::Failed));
/// assert_eq!(rt; disk.reopen().bytes(), [7, 9].as_slice());
/// ```
#[derive(Drop)]
pub struct MemoryDisk {
    alloc: Global,
    bytes: Vec<u8>,
    // The writes that were done since the last sync.
    pending: Vec<Pending>,
    calls: Vec<Call>,
    // It was reopened since the last of the calls.
    reopened: bool,
    failing: Vec<u64>,
    stop: Option<Stop>,
    faults: u64,
    tries: u64,
}

impl Model for MemoryDisk {
    ghost use Rattle.std.specs.Prelude.{map};
    ghost use Rattle.node_disk.specs.Record.{held_after, recorded_of, write_of};
    ghost use Rattle.node_disk.specs.Memory.{MemoryState, IsHeldBy};

    ghost Value = { MemoryState };

    ghost view = { λ disk. record {
      calls = map recorded_of disk.calls.items;
      reopened = disk.reopened;
      stop = disk.stop;
      failing = disk.failing.items;
      faults = disk.faults;
      tries = disk.tries;
    } };

    ghost invariant = { λ disk.
        IsHeldBy (held_after (map recorded_of disk.calls.items) disk.reopened) disk.bytes.items
        (map write_of disk.pending.items) };
}

impl MemoryDisk {
    /// An empty disk, whose device calls of these numbers fail. It takes no memory.
    #[tactic(auto, unfolding(crate::specs::Record::held_after))]
    pub fn new(alloc: Global, failing: Vec<u64>) -> Self
        ensures disk { result ≡ new_disk failing.items }
        ensures empty { (memory_state result).now.seen ≡ [] }
        ensures durable { IsDurable (memory_state result).now }
    {
        MemoryDisk {
            alloc,
            bytes: Vec::new(alloc),
            pending: Vec::new(alloc),
            calls: Vec::new(alloc),
            reopened: false,
            failing,
            stop: None,
            faults: 0,
            tries: 0,
        }
    }

    // A stop was reached, and the disk not reopened since.
    fn is_stopped(&self) -> bool
        ensures { result ≡ is_stopped self.now }
    {
        match self.stop {
            None => false,
            Some(stop) => match stop.after.checked_add(stop.call) {
                None => false,
                Some(end) => end <= self.calls.len() as u64,
            },
        }
    }

    /// Arms a stop at a device call from now, the first being 1, in place of one that is armed. If
    /// that call is a write, the first `cut` bytes of its range are as written and the rest of the
    /// range is `fill`. If it is a sync, the same is done to the ranges written since the last
    /// sync, joined in order; writes that failed are left out. A stop at 0 is reached at once. A
    /// disk that is stopped stays as it is.
    pub fn stop_at(&mut self, call: u64, cut: u64, fill: u8)
        ensures armed { is_stopped self.old ≡ false
            → self.new ≡ record self.old { stop = stop_from_now self.old call cut fill } }
        ensures stopped { is_stopped self.old ≡ true → self.new ≡ self.old }
        ensures state { memory_state self.new ≡ memory_state self.old }
    {
        if !self.is_stopped() {
            self.stop = Some(Stop {
                after: self.calls.len() as u64,
                call,
                cut,
                fill,
            });
        }
    }

    /// Drops a stop that wasn't reached.
    pub fn disarm(&mut self)
        ensures dropped { is_stopped self.old ≡ false → self.new ≡ record self.old { stop = None } }
        ensures stopped { is_stopped self.old ≡ true → self.new ≡ self.old }
        ensures state { memory_state self.new ≡ memory_state self.old }
    {
        if !self.is_stopped() {
            self.stop = None;
        }
    }

    /// The disk after a restart: what a read gives is on the disk, and no stop is armed. It takes
    /// no memory.
    #[tactic(auto, unfolding(crate::specs::Record::held_after), using(crate::proofs::Reopens::reopens))]
    pub fn reopen(self) -> MemoryDisk
        ensures disk { result ≡ reopened_disk self }
        ensures seen { (memory_state result).now.seen ≡ (memory_state self).now.seen }
        ensures durable { IsDurable (memory_state result).now }
    {
        let MemoryDisk {
            alloc,
            bytes,
            mut pending,
            calls,
            reopened: _,
            failing,
            stop: _,
            faults,
            tries,
        } = self;
        pending.clear();
        MemoryDisk {
            alloc,
            bytes,
            pending,
            calls,
            reopened: true,
            failing,
            stop: None,
            faults,
            tries,
        }
    }

    /// What a read gives.
    pub fn bytes(&self) -> &[u8]
        ensures { result.now ≡ (memory_state self.now).now.seen }
    {
        &self.bytes
    }

    // Makes the next device call as the stop and the numbers that fail decide, and records it.
    // Answers whether it was done; refused for memory, it wasn't made.
    fn make(&mut self, action: Action) -> Result<bool, AllocError>
        ensures called { OnOk result (HasCalled (request_of action) self.old self.new) }
        ensures done { IfOk result (λ done. done ≡ has_succeeded (next_outcome self.old)) }
        ensures err { OnErr result (self.new ≡ self.old) }
        ensures faults { self.new.faults ≡ self.old.faults }
        ensures tries { self.new.tries ≡ self.old.tries }
    {
        let outcome = outcome_of(self.stop, &self.failing, self.calls.len() as u64);
        if let Err(error) = change(
            self.alloc,
            &mut self.bytes,
            &mut self.pending,
            &mut self.calls,
            &action,
            outcome,
        ) {
            drop(action);
            return Err(error);
        }
        add_call(&mut self.calls, self.reopened, action, outcome);
        self.reopened = false;
        Ok(has_succeeded(outcome))
    }

    // The same of a write, whose bytes the record keeps.
    fn make_write(&mut self, place: u64, bytes: &[u8]) -> Result<bool, AllocError>
        ensures called { OnOk result (HasCalled (Write place bytes.now) self.old self.new) }
        ensures done { IfOk result (λ done. done ≡ has_succeeded (next_outcome self.old)) }
        ensures err { OnErr result (self.new ≡ self.old) }
        ensures faults { self.new.faults ≡ self.old.faults }
        ensures tries { self.new.tries ≡ self.old.tries }
    {
        let kept = bytes.to_vec(self.alloc)?;
        self.make(Action::Write { place, bytes: kept })
    }

    // Counts a device call that was tried, and its fault where it failed, and answers how it went.
    fn count(&mut self, made: Result<bool, AllocError>) -> Result<(), DiskError>
        ensures answer { result ≡ answer_of made }
        ensures counts { HasCounted made self.old self.new }
        ensures later { self.old.faults ≤ self.new.faults }
    {
        self.tries = self.tries.saturating_add(1);
        match made {
            Ok(true) => Ok(()),
            Ok(false) => Err(count_fault(&mut self.faults)),
            Err(_) => Err(DiskError::NoMemory),
        }
    }
}

impl Disk for MemoryDisk {
    ghost use Rattle.std.specs.Prelude.{◌≡◌, ◌≤◌, length, true, false, IfOk, OnOk, IsErrOf};
    ghost use Rattle.cw_base.specs.Causes.{Rose};
    ghost use Rattle.cw_base.specs.Memory.{counted};
    ghost use Rattle.node_disk.specs.Disk.{IsSame, HasWritten, HasFailedToWrite, HasSynced};
    ghost use Rattle.node_disk.specs.Disk.{HasFailedToSync};
    ghost use Rattle.node_disk.specs.Record.{Write, Sync};
    ghost use Rattle.node_disk.specs.Memory.{memory_state, is_calm, is_stopped, next_fails};
    ghost use Rattle.node_disk.specs.Memory.{HasCalled, Continues};
    ghost use Rattle.node_disk.specs.MemoryLaws.{calm_stays, continues_itself as itself};
    ghost use Rattle.node_disk.specs.MemoryLaws.{continues_on as on, seen_is_image as is_image};

    ghost state = { memory_state };

    ghost continues = { Continues };

    ghost calm = { is_calm };

    ghost seen_is_image = { is_image };

    ghost continues_itself = { itself };

    ghost continues_on = { on };

    ghost stays_calm = { calm_stays };

    // It fails exactly where a stop was reached.
    #[tactic(auto, using(crate::proofs::Calm::never))]
    fn read_all(&mut self, alloc: Global) -> Result<Vec<u8>, DiskError>
        ensures bytes { IfOk result (λ bytes. bytes.items ≡ (memory_state self.old).now.seen) }
        ensures same { IsSame (memory_state self.old) (memory_state self.new) }
        ensures tries { (memory_state self.new).tries ≡ (memory_state self.old).tries }
        ensures faults { (memory_state self.old).faults ≤ (memory_state self.new).faults }
        ensures cause { IsErrOf result DiskError.Failed
            → Rose (memory_state self.old).faults (memory_state self.new).faults }
        ensures never_fails { is_calm self.old ≡ true → IsErrOf result DiskError.Failed → ⊥ }
        ensures continues { Continues self.old self.new }

        ensures kept { self.new ≡ record self.old { faults = self.new.faults } }
        ensures calm { IfOk result (λ bytes. self.new.faults ≡ self.old.faults) }
        ensures fault_counted { IsErrOf result DiskError.Failed
            → self.new.faults ≡ counted self.old.faults }
        ensures no_fault { IsErrOf result DiskError.NoMemory → self.new.faults ≡ self.old.faults }
        ensures stopped { is_stopped self.old ≡ true → IsErrOf result DiskError.Failed }
        ensures only_stopped { IsErrOf result DiskError.Failed → is_stopped self.old ≡ true }
    {
        if self.is_stopped() {
            return Err(count_fault(&mut self.faults));
        }
        Ok(self.bytes.to_vec(alloc)?)
    }

    // It fails exactly where a stop or the numbers that fail say so, and records what it did.
    fn write_at(&mut self, place: u64, bytes: &[u8]) -> Result<(), DiskError>
        requires { place ≤ length (memory_state self.old).now.seen }
        ensures ok { OnOk result
            (HasWritten place bytes.now (memory_state self.old) (memory_state self.new)) }
        ensures failed { IsErrOf result DiskError.Failed
            → HasFailedToWrite place bytes.now (memory_state self.old) (memory_state self.new) }
        ensures no_memory { IsErrOf result DiskError.NoMemory
            → IsSame (memory_state self.old) (memory_state self.new) }
        ensures tried { Rose (memory_state self.old).tries (memory_state self.new).tries }
        ensures faults { (memory_state self.old).faults ≤ (memory_state self.new).faults }
        ensures never_fails { is_calm self.old ≡ true → IsErrOf result DiskError.Failed → ⊥ }
        ensures continues { Continues self.old self.new }

        ensures recorded { OnOk result (HasCalled (Write place bytes.now) self.old self.new) }
        ensures failure_recorded { IsErrOf result DiskError.Failed
            → HasCalled (Write place bytes.now) self.old self.new }
        ensures calm { OnOk result (self.new.faults ≡ self.old.faults) }
        ensures fault_counted { IsErrOf result DiskError.Failed
            → self.new.faults ≡ counted self.old.faults }
        ensures no_fault { IsErrOf result DiskError.NoMemory → self.new.faults ≡ self.old.faults }
        ensures try_counted { self.new.tries ≡ counted self.old.tries }
        ensures succeeds { OnOk result (next_fails self.old ≡ false) }
        ensures fails { IsErrOf result DiskError.Failed → next_fails self.old ≡ true }
    {
        let made = self.make_write(place, bytes);
        self.count(made)
    }

    // The same of a sync.
    fn sync(&mut self) -> Result<(), DiskError>
        ensures ok { OnOk result (HasSynced (memory_state self.old) (memory_state self.new)) }
        ensures failed { IsErrOf result DiskError.Failed
            → HasFailedToSync (memory_state self.old) (memory_state self.new) }
        ensures no_memory { IsErrOf result DiskError.NoMemory
            → IsSame (memory_state self.old) (memory_state self.new) }
        ensures tried { Rose (memory_state self.old).tries (memory_state self.new).tries }
        ensures faults { (memory_state self.old).faults ≤ (memory_state self.new).faults }
        ensures never_fails { is_calm self.old ≡ true → IsErrOf result DiskError.Failed → ⊥ }
        ensures continues { Continues self.old self.new }

        ensures recorded { OnOk result (HasCalled Sync self.old self.new) }
        ensures failure_recorded { IsErrOf result DiskError.Failed
            → HasCalled Sync self.old self.new }
        ensures calm { OnOk result (self.new.faults ≡ self.old.faults) }
        ensures fault_counted { IsErrOf result DiskError.Failed
            → self.new.faults ≡ counted self.old.faults }
        ensures no_fault { IsErrOf result DiskError.NoMemory → self.new.faults ≡ self.old.faults }
        ensures try_counted { self.new.tries ≡ counted self.old.tries }
        ensures succeeds { OnOk result (next_fails self.old ≡ false) }
        ensures fails { IsErrOf result DiskError.Failed → next_fails self.old ≡ true }
    {
        let made = self.make(Action::Sync);
        self.count(made)
    }
}
