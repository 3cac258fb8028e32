//! A log of frames on a disk.

ghost use Rattle.std.specs.Prelude.{◌≡◌, ◌⊎◌, ◌≤◌, ◌<◌, ◌^◌, [], ◌∷◌, List, ℕ, length, true, false};
ghost use Rattle.std.specs.Prelude.{IfOk, OnOk, OnErr, IfErr, Ok, Err, IsErrOf, Some, None};
ghost use Rattle.std.specs.Prelude.{slice_get, vec_len, vec_capacity};
ghost use Rattle.node_disk.specs.Images.{IsImage};
ghost use Rattle.cw_base.specs.Causes.{Rose};
ghost use Rattle.node_disk.specs.Disk.{LeavesOnly, Synced, HasTold, IsCutShort, IsFront};
ghost use Rattle.node_disk.specs.Frames.{read_log, Finds, FindsWithOrWithout, frames_in};
ghost use Rattle.node_disk.specs.Log.{all_items, with_frame};
ghost use Rattle.node_disk.specs.Log.{calls_of_append, start_calls, IsBeforeOrSame, HasAppended};
ghost use Rattle.node_disk.specs.Log.{WasCutShort};

use crate::records::Bytes;
use crate::{Disk, DiskError, MemoryDisk, RecordLog};
use cw_base::NoMemory;
use std::alloc::{AllocError, AllocFailed, Global};
use thiserror::Error;

/// Why a store on a disk did not do what it was asked for.
#[derive(Clone, Copy, Debug, PartialEq, Eq, Error)]
pub enum StoreError {
    /// The disk failed in this call: its count of faults rose.
    #[error("the disk failed")]
    Disk,
    /// An earlier call since the start answered `Disk`, or `NoMemory` after a device call was made.
    /// It is tested before all else; start again on the disk.
    #[error("an earlier call failed: start again on the disk")]
    Failed,
    /// Memory was refused.
    #[error("memory ran out")]
    NoMemory,
    /// A start found an open gate byte at this place, in bytes from the start of the file, whose
    /// frame is cut or is no record, and only whole frames before it.
    #[error("not a file of this log: the frame at byte {0} is cut or no record")]
    Foreign(u64),
}

impl From<AllocError> for StoreError {
    ghost use Rattle.std.specs.Prelude.{◌≡◌};
    ghost use Rattle.node_disk.specs.declared.log.StoreError.TheVariants.{NoMemory};

    ghost from_gives = { λ _ e. e ≡ NoMemory };

    fn from(_: AllocError) -> Self {
        StoreError::NoMemory
    }
}

impl From<NoMemory> for StoreError {
    ghost use Rattle.std.specs.Prelude.{◌≡◌};
    ghost use Rattle.node_disk.specs.declared.log.StoreError.TheVariants.{NoMemory};

    ghost from_gives = { λ _ e. e ≡ NoMemory };

    fn from(_: NoMemory) -> Self {
        StoreError::NoMemory
    }
}

impl<T: Drop> From<AllocFailed<T>> for StoreError {
    ghost use Rattle.std.specs.Prelude.{◌≡◌};
    ghost use Rattle.node_disk.specs.declared.log.StoreError.TheVariants.{NoMemory};

    ghost from_gives = { λ _ e. e ≡ NoMemory };

    fn from(_: AllocFailed<T>) -> Self {
        StoreError::NoMemory
    }
}

impl From<DiskError> for StoreError {
    ghost use Rattle.std.specs.Prelude.{◌≡◌};
    ghost use Rattle.node_disk.specs.Errors.{store_error};

    ghost from_gives = { λ e f. f ≡ store_error e };

    fn from(error: DiskError) -> Self {
        match error {
            DiskError::Failed => StoreError::Disk,
            DiskError::NoMemory => StoreError::NoMemory,
        }
    }
}

/// A log of frames on a disk, as [`RecordLog`] has them, for whoever wants their bytes: it holds
/// them in memory too.
///
/// ```text
/// let mut log = match Log::start(alloc, MemoryDisk::new(alloc, Vec::new(alloc))) {
///     Ok(log) => log,
///     Err((_disk, error)) => return Err(error),
/// };
/// log.append(b"first")?;
/// let disk = log.into_disk().reopen(); // a restart, on which a start finds the frame
/// ```
#[derive(Drop)]
pub struct Log<D: Disk> {
    alloc: Global,
    pub(crate) log: RecordLog<D>,
    frames: Vec<Vec<u8>>,
    ghost kept: { all_items frames.items ≡ frames_in log.count (D.state log.disk).now.seen },
}

impl<D: Disk> Log<D> {
    ghost use Rattle.node_disk.specs.LogWords.{log_frames, log_gate, log_disk, has_failed};
    ghost use Rattle.node_disk.specs.LogWords.{log_state, LogIsSettled, IsUnchanged};

    /// Opens the log of a disk: syncs, reads, and where the file is shorter than two bytes writes a
    /// closed gate and syncs. An `Err` hands the disk back.
    pub fn start(alloc: Global, disk: D) -> Result<Log<D>, (D, StoreError)>
        // The frames are those of the bytes that it found, or a frame there is cut.
        ensures ok { IfOk result (λ log. (has_failed log ≡ false)
            × Finds (log_frames log) (D.state disk).now.seen) }
        ensures settled { IfOk result (λ log. LogIsSettled D.state log) }
        ensures seen { IfOk result (λ log. 2 ≤ length (D.state disk).now.seen
            → (D.state (log_disk log)).now.seen ≡ (D.state disk).now.seen) }
        ensures on_disk { IfOk result (λ log. (image : List ℕ)
            → IsImage (D.state (log_disk log)).now image → Finds (log_frames log) image) }
        ensures foreign { (place : ℕ) → IfErr result (λ e. e.1 ≡ StoreError.Foreign place
            → read_log (D.state disk).now.seen ≡ Err place) }
        ensures foreign_same { (place : ℕ) → IfErr result (λ e. e.1 ≡ StoreError.Foreign place
            → (D.state e.0).now.seen ≡ (D.state disk).now.seen) }

        // They stay in each image from the first sync on, and before it no other image than before
        // can be left.
        ensures any_moment { IfOk result (λ log.
            LeavesOnly (D.state disk) (D.state (log_disk log))
            (IsBeforeOrSame (D.state disk).now)) }
        ensures any_moment_err { IfErr result (λ e.
            LeavesOnly (D.state disk) (D.state e.0) (IsBeforeOrSame (D.state disk).now)) }

        // The device calls: all of them, or up to the first that fails. A read that fails comes
        // after the sync.
        ensures calls { IfOk result (λ log.
            HasTold (start_calls (D.state disk).now.seen) (D.state disk) (D.state (log_disk log))) }
        ensures calls_foreign { (place : ℕ) → IfErr result (λ e. e.1 ≡ StoreError.Foreign place
            → HasTold (start_calls (D.state disk).now.seen) (D.state disk) (D.state e.0)) }
        ensures calls_failed { IfErr result (λ e. e.1 ≡ StoreError.Disk
            → IsCutShort (start_calls (D.state disk).now.seen) (D.state disk) (D.state e.0)
            ⊎ HasTold (Synced true ∷ []) (D.state disk) (D.state e.0)) }
        ensures calls_no_memory { IfErr result (λ e. e.1 ≡ StoreError.NoMemory
            → IsFront (start_calls (D.state disk).now.seen) (D.state disk) (D.state e.0)) }

        ensures cause { IfErr result (λ e. e.1 ≡ StoreError.Disk
            → Rose (D.state disk).faults (D.state e.0).faults) }
        ensures faults { IfOk result
            (λ log. (D.state disk).faults ≤ (D.state (log_disk log)).faults) }
        ensures faults_err { IfErr result (λ e. (D.state disk).faults ≤ (D.state e.0).faults) }
        ensures never_fails { D.calm disk ≡ true → IfErr result (λ e. e.1 ≡ StoreError.Disk → ⊥) }
        ensures not_failed { IfErr result (λ e. e.1 ≡ StoreError.Failed → ⊥) }
        ensures continues { IfOk result (λ log. D.continues disk (log_disk log)) }
        ensures continues_err { IfErr result (λ e. D.continues disk e.0) }
    {
        let mut kept = Bytes::new(alloc);
        match RecordLog::start(alloc, disk, &mut kept) {
            Ok(log) => Ok(Log {
                alloc,
                log,
                frames: kept.into_frames(),
            }),
            Err(refused) => Err(refused),
        }
    }

    /// The number of frames. It takes no memory.
    pub fn frames(&self) -> usize
        ensures { result ≡ length (log_frames self.now) }
    {
        self.frames.len()
    }

    /// The frame at this index, the first being 0. It takes no memory.
    pub fn frame(&self, index: usize) -> &[u8]
        requires { index < length (log_frames self.now) }
        ensures { slice_get (log_frames self.now) index ≡ Some result.now }
    {
        self.frames[index].as_slice()
    }

    /// Whether an earlier call left the disk in doubt: each append then answers `Failed`.
    pub fn is_failed(&self) -> bool
        ensures { result ≡ has_failed self.now }
    {
        self.log.is_failed()
    }

    /// Adds a frame, which is then on the disk, by four device calls: it writes length, frame and a
    /// closed gate behind the last gate, syncs, opens that gate, and syncs, and makes none after
    /// the first that fails. An empty frame isn't added and calls no device. Refused for memory
    /// before a device call, it changes nothing.
    pub fn append(&mut self, frame: &[u8]) -> Result<(), StoreError>
        ensures ok { OnOk result ((has_failed self.new ≡ false)
            × (log_frames self.new ≡ with_frame (log_frames self.old) frame.now)) }
        ensures err { OnErr result (log_frames self.new ≡ log_frames self.old) }
        ensures empty { length frame.now ≡ 0 → IsUnchanged self.old self.new }
        ensures empty_ok { length frame.now ≡ 0 → has_failed self.old ≡ false → result ≡ Ok tt }
        ensures settled { has_failed self.new ≡ false → LogIsSettled D.state self.new }

        // After it each image has all frames, the new one too.
        ensures on_disk { OnOk result ((image : List ℕ)
            → IsImage (D.state (log_disk self.new)).now image → Finds (log_frames self.new) image) }

        // A crash at any moment of the call leaves the frames from before it, with the new one or
        // without.
        ensures any_moment { has_failed self.old ≡ false
            → LeavesOnly (D.state (log_disk self.old)) (D.state (log_disk self.new))
            (FindsWithOrWithout (log_frames self.old) frame.now) }

        // The device calls: all of them, or up to the first that fails.
        ensures appended { OnOk result
            (HasAppended D.state D.continues frame.now (log_state self.old) (log_state self.new)) }
        ensures cut_short { IsErrOf result StoreError.Disk
            → WasCutShort D.state D.continues frame.now (log_state self.old) (log_state self.new) }
        ensures calls_no_memory { IsErrOf result StoreError.NoMemory
            → IsFront (calls_of_append (log_gate self.old) frame.now)
            (D.state (log_disk self.old)) (D.state (log_disk self.new)) }

        // Each answer and its cause, and whether later calls answer `Failed`.
        ensures disk { IsErrOf result StoreError.Disk → has_failed self.new ≡ true }
        ensures disk_cause { IsErrOf result StoreError.Disk
            → Rose (D.state (log_disk self.old)).faults (D.state (log_disk self.new)).faults }
        ensures never_fails { D.calm (log_disk self.old) ≡ true → IsErrOf result StoreError.Disk
            → ⊥ }
        ensures faults { (D.state (log_disk self.old)).faults
            ≤ (D.state (log_disk self.new)).faults }
        ensures failed { has_failed self.old ≡ true → IsErrOf result StoreError.Failed }
        ensures failed_same { has_failed self.old ≡ true → IsUnchanged self.old self.new }
        ensures failed_only { IsErrOf result StoreError.Failed → has_failed self.old ≡ true }
        ensures no_memory { IsErrOf result StoreError.NoMemory → IsUnchanged self.old self.new
            ⊎ ((has_failed self.new ≡ true)
            × Rose (D.state (log_disk self.old)).tries (D.state (log_disk self.new)).tries) }
        ensures not_foreign { (place : ℕ) → IsErrOf result (StoreError.Foreign place) → ⊥ }
        ensures continues { D.continues (log_disk self.old) (log_disk self.new) }

        // Its length fits the eight bytes.
        ensures short { length frame.now < 2 ^ 64 }
    {
        if frame.is_empty() {
            return self.log.append(frame);
        }
        if self.log.is_failed() {
            return Err(StoreError::Failed);
        }
        let Ok(kept) = copy_for(self.alloc, &mut self.frames, frame) else {
            return Err(StoreError::NoMemory);
        };
        match self.log.append(frame) {
            Ok(()) => {
                // Room was reserved, so this takes no memory.
                let _ = self.frames.push(kept);
                Ok(())
            }
            Err(error) => Err(error),
        }
    }

    /// The disk of the log, as it stands.
    pub fn into_disk(self) -> D
        ensures { result ≡ log_disk self }
    {
        let Log {
            alloc: _,
            log,
            frames: _,
        } = self;
        log.into_disk()
    }
}
// A copy of a frame, and room for it behind the others.
fn copy_for(alloc: Global, frames: &mut Vec<Vec<u8>>, frame: &[u8]) -> Result<Vec<u8>, NoMemory>
    ensures same { frames.new.items ≡ frames.old.items }
    ensures room { OnOk result (vec_len frames.new < vec_capacity frames.new) }
    ensures copy { IfOk result (λ kept. kept.items ≡ frame.now) }
{
    frames.reserve(1)?;
    Ok(frame.to_vec(alloc)?)
}

/// What a log over a disk in memory shows of it.
impl Log<MemoryDisk> {
    ghost use Rattle.node_disk.specs.LogWords.{log_frames, log_gate, log_disk, has_failed};
    ghost use Rattle.node_disk.specs.Memory.{memory_state, is_stopped, stop_from_now};

    /// Arms a stop of the disk, as [`MemoryDisk::stop_at`] does.
    pub fn stop_at(&mut self, call: u64, cut: u64, fill: u8)
        ensures armed { is_stopped (log_disk self.old) ≡ false
            → log_disk self.new
            ≡ record (log_disk self.old) {
              stop = stop_from_now
                  (log_disk self.old) call cut fill;
            } }
        ensures stopped { is_stopped (log_disk self.old) ≡ true
            → log_disk self.new ≡ log_disk self.old }
        ensures state { memory_state (log_disk self.new) ≡ memory_state (log_disk self.old) }
        ensures frames { log_frames self.new ≡ log_frames self.old }
        ensures gate { log_gate self.new ≡ log_gate self.old }
        ensures failed { has_failed self.new ≡ has_failed self.old }
    {
        self.log.stop_at(call, cut, fill);
    }

    /// Drops a stop of the disk that wasn't reached.
    pub fn disarm(&mut self)
        ensures dropped { is_stopped (log_disk self.old) ≡ false
            → log_disk self.new ≡ record (log_disk self.old) { stop = None } }
        ensures stopped { is_stopped (log_disk self.old) ≡ true
            → log_disk self.new ≡ log_disk self.old }
        ensures state { memory_state (log_disk self.new) ≡ memory_state (log_disk self.old) }
        ensures frames { log_frames self.new ≡ log_frames self.old }
        ensures gate { log_gate self.new ≡ log_gate self.old }
        ensures failed { has_failed self.new ≡ has_failed self.old }
    {
        self.log.disarm();
    }

    /// What a read of the disk gives.
    pub fn bytes(&self) -> &[u8]
        ensures { result.now ≡ (memory_state (log_disk self.now)).now.seen }
    {
        self.log.bytes()
    }
}
