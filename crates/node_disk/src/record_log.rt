//! A log of records on a disk.

ghost use Rattle.std.specs.Prelude.{◌≡◌, ◌⊎◌, ◌+◌, ◌≤◌, ◌<◌, ◌^◌, ◌++◌, [], ◌∷◌, List, ℕ, length};
ghost use Rattle.std.specs.Prelude.{true, false, IfOk, OnOk, OnErr, IfErr, Ok, IsErrOf, Some};
ghost use Rattle.std.specs.Prelude.{None};
ghost use Rattle.node_disk.specs.Images.{IsImage, IsDurable};
ghost use Rattle.cw_base.specs.Causes.{Rose};
ghost use Rattle.node_disk.specs.Disk.{Holds, Torn, LeavesOnly, Synced, HasTold, IsCutShort};
ghost use Rattle.node_disk.specs.Disk.{IsFront};
ghost use Rattle.node_disk.specs.Frames.{body, read_log, IsAtRest, Finds, FindsWithOrWithout};
ghost use Rattle.node_disk.specs.Frames.{frames_in};
ghost use Rattle.node_disk.specs.Log.{HasSettled, write_then_sync, with_frame};
ghost use Rattle.node_disk.specs.Log.{calls_of_append, start_calls, IsBeforeOrSame, HasAppended};
ghost use Rattle.node_disk.specs.Log.{WasCutShort};
ghost use Rattle.node_disk.specs.Records.{refused_place};

use crate::records::{Records, read_into};
use crate::{Disk, DiskError, HostCall, HostDisk, MemoryDisk, StoreError};
use cw_base::{Items, NoMemory, put_be64, put_bytes, put_u8};
use std::alloc::Global;

/// A log of records on a disk, each record the bytes of one frame. It holds no frame in memory: its
/// frames are those on its disk, and a start hands each to what keeps the records.
///
/// The file is read from place 0. A gate byte that is 1 opens a frame: eight bytes of length, high
/// byte first, the frame, and the next gate byte. Any other gate byte is closed and ends the log;
/// what stands behind it doesn't count. A file shorter than two bytes has no frames.
///
/// An append writes length, frame and a closed gate behind the last gate, syncs, opens the last
/// gate and syncs. So the gate stands closed on the disk until the frame behind it is there whole,
/// and no checksum is needed.
///
/// ```text
/// let mut log = match RecordLog::start(alloc, disk, &mut records) {
///     Ok(log) => log, // `records` has read each frame that the disk holds
///     Err((_disk, error)) => return Err(error),
/// };
/// log.append(b"one more")?; // on the disk from here on
/// let disk = log.into_disk(); // a start on it reads that frame last
/// ```
#[derive(Drop)]
pub struct RecordLog<D: Disk> {
    alloc: Global,
    pub(crate) disk: D,
    // How many frames there are.
    pub(crate) count: usize,
    // The place of the last gate, which is closed.
    pub(crate) gate: u64,
    // An earlier call left the disk in doubt.
    pub(crate) failed: bool,
    ghost counted: { length (frames_in count (D.state disk).now.seen) ≡ count },
    ghost settled: { failed ≡ false
        → HasSettled (frames_in count (D.state disk).now.seen) gate (D.state disk).now },
}

impl<D: Disk> RecordLog<D> {
    ghost use Rattle.node_disk.specs.RecordWords.{log_frames, log_gate, log_disk, has_failed};
    ghost use Rattle.node_disk.specs.RecordWords.{log_state, LogIsSettled, IsUnchanged};

    /// Opens the log of a disk: syncs, reads, and where the file is shorter than two bytes writes a
    /// closed gate and syncs. Each frame is read as a record. An `Err` hands the disk back.
    pub fn start<K: Records>(
        alloc: Global,
        mut disk: D,
        records: &mut K,
    ) -> Result<RecordLog<D>, (D, StoreError)>
        requires { K.keeps records.old [] }

        // The frames are those of the bytes that it found, each of a record that is kept; or a
        // frame there is cut or no record.
        ensures ok { IfOk result (λ log. (has_failed log ≡ false)
            × Finds (log_frames log) (D.state disk).now.seen) }
        ensures kept { IfOk result (λ log. K.keeps records.new (log_frames log)) }
        ensures all_records { OnOk result
            (refused_place K.is_record (read_log (D.state disk).now.seen) ≡ None) }
        ensures settled { IfOk result (λ log. LogIsSettled D.state log) }
        ensures seen { IfOk result (λ log. 2 ≤ length (D.state disk).now.seen
            → (D.state (log_disk log)).now.seen ≡ (D.state disk).now.seen) }
        ensures on_disk { IfOk result (λ log. (image : List ℕ)
            → IsImage (D.state (log_disk log)).now image → Finds (log_frames log) image) }
        ensures foreign { (place : ℕ) → IfErr result (λ e. e.1 ≡ StoreError.Foreign place
            → refused_place K.is_record (read_log (D.state disk).now.seen) ≡ Some place) }
        ensures foreign_same { (place : ℕ) → IfErr result (λ e. e.1 ≡ StoreError.Foreign place
            → (D.state e.0).now.seen ≡ (D.state disk).now.seen) }

        // They stay in each image from the first sync on, and before it no other image than before
        // can be left.
        ensures any_moment { IfOk result (λ log.
            LeavesOnly (D.state disk) (D.state (log_disk log))
            (IsBeforeOrSame (D.state disk).now)) }
        ensures any_moment_err { IfErr result (λ e.
            LeavesOnly (D.state disk) (D.state e.0) (IsBeforeOrSame (D.state disk).now)) }

        // The device calls: all of them, or up to the first that fails. A read that fails comes
        // after the sync.
        ensures calls { IfOk result (λ log.
            HasTold (start_calls (D.state disk).now.seen) (D.state disk) (D.state (log_disk log))) }
        ensures calls_foreign { (place : ℕ) → IfErr result (λ e. e.1 ≡ StoreError.Foreign place
            → HasTold (start_calls (D.state disk).now.seen) (D.state disk) (D.state e.0)) }
        ensures calls_failed { IfErr result (λ e. e.1 ≡ StoreError.Disk
            → IsCutShort (start_calls (D.state disk).now.seen) (D.state disk) (D.state e.0)
            ⊎ HasTold (Synced true ∷ []) (D.state disk) (D.state e.0)) }
        ensures calls_no_memory { IfErr result (λ e. e.1 ≡ StoreError.NoMemory
            → IsFront (start_calls (D.state disk).now.seen) (D.state disk) (D.state e.0)) }

        ensures cause { IfErr result (λ e. e.1 ≡ StoreError.Disk
            → Rose (D.state disk).faults (D.state e.0).faults) }
        ensures faults { IfOk result
            (λ log. (D.state disk).faults ≤ (D.state (log_disk log)).faults) }
        ensures faults_err { IfErr result (λ e. (D.state disk).faults ≤ (D.state e.0).faults) }
        ensures never_fails { D.calm disk ≡ true → IfErr result (λ e. e.1 ≡ StoreError.Disk → ⊥) }
        ensures not_failed { IfErr result (λ e. e.1 ≡ StoreError.Failed → ⊥) }
        ensures continues { IfOk result (λ log. D.continues disk (log_disk log)) }
        ensures continues_err { IfErr result (λ e. D.continues disk e.0) }
    {
        let bytes = match found_bytes(alloc, &mut disk) {
            Ok(bytes) => bytes,
            Err(error) => return Err((disk, StoreError::from(error))),
        };
        if bytes.len() < 2 {
            if let Err(error) = write_and_sync(&mut disk, 0, &[0]) {
                return Err((disk, StoreError::from(error)));
            }
            return Ok(RecordLog {
                alloc,
                disk,
                count: 0,
                gate: 0,
                failed: false,
            });
        }
        match read_into(alloc, &bytes, records) {
            Ok((count, gate)) => Ok(RecordLog {
                alloc,
                disk,
                count,
                gate,
                failed: false,
            }),
            Err(error) => Err((disk, error)),
        }
    }

    /// The number of frames. It takes no memory.
    pub fn frames(&self) -> usize
        ensures { result ≡ length (log_frames self.now) }
    {
        self.count
    }

    /// Whether an earlier call left the disk in doubt: each append then answers `Failed`.
    pub fn is_failed(&self) -> bool
        ensures { result ≡ has_failed self.now }
    {
        self.failed
    }

    /// Adds a frame, which is then on the disk, by four device calls: it writes length, frame and a
    /// closed gate behind the last gate, syncs, opens that gate, and syncs, and makes none after
    /// the first that fails. An empty frame isn't added and calls no device. Refused for memory
    /// before a device call, it changes nothing.
    pub fn append(&mut self, frame: &[u8]) -> Result<(), StoreError>
        ensures ok { OnOk result ((has_failed self.new ≡ false)
            × (log_frames self.new ≡ with_frame (log_frames self.old) frame.now)) }
        ensures err { OnErr result (log_frames self.new ≡ log_frames self.old) }
        ensures empty { length frame.now ≡ 0 → IsUnchanged self.old self.new }
        ensures empty_ok { length frame.now ≡ 0 → has_failed self.old ≡ false → result ≡ Ok tt }
        ensures settled { has_failed self.new ≡ false → LogIsSettled D.state self.new }

        // After it each image has all frames, the new one too.
        ensures on_disk { OnOk result ((image : List ℕ)
            → IsImage (D.state (log_disk self.new)).now image → Finds (log_frames self.new) image) }

        // A crash at any moment of the call leaves the frames from before it, with the new one or
        // without.
        ensures any_moment { has_failed self.old ≡ false
            → LeavesOnly (D.state (log_disk self.old)) (D.state (log_disk self.new))
            (FindsWithOrWithout (log_frames self.old) frame.now) }

        // The device calls: all of them, or up to the first that fails.
        ensures appended { OnOk result
            (HasAppended D.state D.continues frame.now (log_state self.old) (log_state self.new)) }
        ensures cut_short { IsErrOf result StoreError.Disk
            → WasCutShort D.state D.continues frame.now (log_state self.old) (log_state self.new) }
        ensures calls_no_memory { IsErrOf result StoreError.NoMemory
            → IsFront (calls_of_append (log_gate self.old) frame.now)
            (D.state (log_disk self.old)) (D.state (log_disk self.new)) }

        // Each answer and its cause, and whether later calls answer `Failed`.
        ensures disk { IsErrOf result StoreError.Disk → has_failed self.new ≡ true }
        ensures disk_cause { IsErrOf result StoreError.Disk
            → Rose (D.state (log_disk self.old)).faults (D.state (log_disk self.new)).faults }
        ensures never_fails { D.calm (log_disk self.old) ≡ true → IsErrOf result StoreError.Disk
            → ⊥ }
        ensures faults { (D.state (log_disk self.old)).faults
            ≤ (D.state (log_disk self.new)).faults }
        ensures failed { has_failed self.old ≡ true → IsErrOf result StoreError.Failed }
        ensures failed_same { has_failed self.old ≡ true → IsUnchanged self.old self.new }
        ensures failed_only { IsErrOf result StoreError.Failed → has_failed self.old ≡ true }
        ensures no_memory { IsErrOf result StoreError.NoMemory → IsUnchanged self.old self.new
            ⊎ ((has_failed self.new ≡ true)
            × Rose (D.state (log_disk self.old)).tries (D.state (log_disk self.new)).tries) }
        ensures not_foreign { (place : ℕ) → IsErrOf result (StoreError.Foreign place) → ⊥ }
        ensures continues { D.continues (log_disk self.old) (log_disk self.new) }

        // Its length fits the eight bytes.
        ensures short { length frame.now < 2 ^ 64 }
    {
        let length = frame.len();
        if self.failed {
            return Err(StoreError::Failed);
        }
        if length == 0 {
            return Ok(());
        }
        let Ok((bytes, count, next)) = prepare(self.alloc, self.count, self.gate, frame) else {
            return Err(StoreError::NoMemory);
        };
        self.failed = true;
        match add_frame(&mut self.disk, self.gate, &bytes) {
            Ok(()) => {}
            Err(error) => return Err(StoreError::from(error)),
        }
        self.count = count;
        self.gate = next;
        self.failed = false;
        Ok(())
    }

    /// The disk of the log, as it stands.
    pub fn into_disk(self) -> D
        ensures { result ≡ log_disk self }
    {
        let RecordLog {
            alloc: _,
            disk,
            count: _,
            gate: _,
            failed: _,
        } = self;
        disk
    }
}
// Syncs a disk and reads it.
fn found_bytes<D: Disk>(alloc: Global, disk: &mut D) -> Result<Vec<u8>, DiskError>
    ensures bytes { IfOk result (λ bytes. bytes.items ≡ (D.state disk.old).now.seen) }
    ensures seen { OnOk result ((D.state disk.new).now.seen ≡ (D.state disk.old).now.seen) }
    ensures durable { OnOk result (IsDurable (D.state disk.new).now) }
    ensures any_moment { LeavesOnly (D.state disk.old) (D.state disk.new)
        (IsImage (D.state disk.old).now) }
    ensures calls { OnOk result (HasTold (Synced true ∷ []) (D.state disk.old) (D.state disk.new)) }
    ensures failed { IsErrOf result DiskError.Failed
        → IsCutShort (Synced true ∷ []) (D.state disk.old) (D.state disk.new)
        ⊎ HasTold (Synced true ∷ []) (D.state disk.old) (D.state disk.new) }
    ensures no_memory { IsErrOf result DiskError.NoMemory
        → IsFront (Synced true ∷ []) (D.state disk.old) (D.state disk.new) }
    ensures cause { IsErrOf result DiskError.Failed
        → Rose (D.state disk.old).faults (D.state disk.new).faults }
    ensures faults { (D.state disk.old).faults ≤ (D.state disk.new).faults }
    ensures never_fails { D.calm disk.old ≡ true → IsErrOf result DiskError.Failed → ⊥ }
    ensures continues { D.continues disk.old disk.new }
{
    match disk.sync() {
        Ok(()) => disk.read_all(alloc),
        Err(error) => Err(error),
    }
}

// What an append writes behind the last gate: length, frame and a closed gate.
fn bytes_of(alloc: Global, frame: &[u8]) -> Result<Vec<u8>, NoMemory>
    ensures { IfOk result (λ bytes. bytes.items ≡ body frame.now ++ 0 ∷ []) }
{
    let mut bytes = Vec::with_capacity(alloc, frame.len().saturating_add(9))?;
    put_be64(&mut bytes, frame.len() as u64)?;
    put_bytes(&mut bytes, frame)?;
    put_u8(&mut bytes, 0)?;
    Ok(bytes)
}

// What an append of a frame needs: what is written, and how many frames there are and where the
// last gate stands after it.
fn prepare(
    alloc: Global,
    count: usize,
    gate: u64,
    frame: &[u8],
) -> Result<(Vec<u8>, usize, u64), NoMemory>
    ensures made { IfOk result (λ made. (made.0.items ≡ body frame.now ++ 0 ∷ [])
        × (made.1 ≡ count + 1)
        × (made.2 ≡ gate + length made.0.items)) }
    ensures fits { OnOk result (gate + 1 < 2 ^ 64) }
{
    let bytes = bytes_of(alloc, frame)?;
    // No memory holds the frames of so long a file.
    let Some(count) = count.checked_add(1) else {
        return Err(NoMemory);
    };
    match gate.checked_add(bytes.len() as u64) {
        None => Err(NoMemory),
        Some(next) => Ok((bytes, count, next)),
    }
}

// Writes bytes on a disk that is all synced, and syncs it.
fn write_and_sync<D: Disk>(disk: &mut D, place: u64, bytes: &[u8]) -> Result<(), DiskError>
    requires inside { place ≤ length (D.state disk.old).now.seen }
    requires durable { IsDurable (D.state disk.old).now }
    ensures written { OnOk result
        (Holds (D.state disk.old).now.seen place bytes.now (D.state disk.new).now.seen) }
    ensures durable { OnOk result (IsDurable (D.state disk.new).now) }
    ensures any_moment { LeavesOnly (D.state disk.old) (D.state disk.new)
        (Torn place (length bytes.now) (D.state disk.old).now.seen) }
    ensures calls { OnOk result
        (HasTold (write_then_sync place bytes.now) (D.state disk.old) (D.state disk.new)) }
    ensures failed { IsErrOf result DiskError.Failed
        → IsCutShort (write_then_sync place bytes.now) (D.state disk.old) (D.state disk.new) }
    ensures no_memory { IsErrOf result DiskError.NoMemory
        → IsFront (write_then_sync place bytes.now) (D.state disk.old) (D.state disk.new) }
    ensures cause { IsErrOf result DiskError.Failed
        → Rose (D.state disk.old).faults (D.state disk.new).faults }
    ensures faults { (D.state disk.old).faults ≤ (D.state disk.new).faults }
    ensures tried { Rose (D.state disk.old).tries (D.state disk.new).tries }
    ensures never_fails { D.calm disk.old ≡ true → IsErrOf result DiskError.Failed → ⊥ }
    ensures continues { D.continues disk.old disk.new }
{
    match disk.write_at(place, bytes) {
        Ok(()) => disk.sync(),
        Err(error) => Err(error),
    }
}

// Writes a frame's bytes and a closed gate behind the last gate, and then opens that gate.
fn add_frame<D: Disk>(disk: &mut D, gate: u64, bytes: &[u8]) -> Result<(), DiskError>
    requires inside { gate < length (D.state disk.old).now.seen }
    requires fits { gate + 1 < 2 ^ 64 }
    requires durable { IsDurable (D.state disk.old).now }
    ensures ok { OnOk result ((frames : List (List ℕ)) (frame : List ℕ)
        → IsAtRest frames gate (D.state disk.old).now.seen → bytes.now ≡ body frame ++ 0 ∷ []
        → length frame < 2 ^ 64
        → HasSettled (frames ++ frame ∷ []) (gate + length bytes.now) (D.state disk.new).now) }
    ensures any_moment { (frames : List (List ℕ)) (frame : List ℕ)
        → IsAtRest frames gate (D.state disk.old).now.seen → bytes.now ≡ body frame ++ 0 ∷ []
        → length frame < 2 ^ 64
        → LeavesOnly (D.state disk.old) (D.state disk.new) (FindsWithOrWithout frames frame) }
    ensures calls { OnOk result
        (HasTold (write_then_sync (gate + 1) bytes.now ++ write_then_sync gate (1 ∷ []))
        (D.state disk.old) (D.state disk.new)) }
    ensures failed { IsErrOf result DiskError.Failed
        → IsCutShort (write_then_sync (gate + 1) bytes.now ++ write_then_sync gate (1 ∷ []))
        (D.state disk.old) (D.state disk.new) }
    ensures no_memory { IsErrOf result DiskError.NoMemory
        → IsFront (write_then_sync (gate + 1) bytes.now ++ write_then_sync gate (1 ∷ []))
        (D.state disk.old) (D.state disk.new) }
    ensures cause { IsErrOf result DiskError.Failed
        → Rose (D.state disk.old).faults (D.state disk.new).faults }
    ensures faults { (D.state disk.old).faults ≤ (D.state disk.new).faults }
    ensures tried { Rose (D.state disk.old).tries (D.state disk.new).tries }
    ensures never_fails { D.calm disk.old ≡ true → IsErrOf result DiskError.Failed → ⊥ }
    ensures continues { D.continues disk.old disk.new }
{
    match write_and_sync(disk, gate + 1, bytes) {
        Ok(()) => write_and_sync(disk, gate, &[1]),
        Err(error) => Err(error),
    }
}
/// What a log of records over a disk in memory shows of it.
impl RecordLog<MemoryDisk> {
    ghost use Rattle.node_disk.specs.RecordWords.{log_frames, log_gate, log_disk, has_failed};
    ghost use Rattle.node_disk.specs.Memory.{memory_state, is_stopped, stop_from_now};

    /// Arms a stop of the disk, as [`MemoryDisk::stop_at`] does.
    pub fn stop_at(&mut self, call: u64, cut: u64, fill: u8)
        ensures armed { is_stopped (log_disk self.old) ≡ false
            → log_disk self.new
            ≡ record (log_disk self.old) {
              stop = stop_from_now
                  (log_disk self.old) call cut fill;
            } }
        ensures stopped { is_stopped (log_disk self.old) ≡ true
            → log_disk self.new ≡ log_disk self.old }
        ensures state { memory_state (log_disk self.new) ≡ memory_state (log_disk self.old) }
        ensures frames { log_frames self.new ≡ log_frames self.old }
        ensures gate { log_gate self.new ≡ log_gate self.old }
        ensures failed { has_failed self.new ≡ has_failed self.old }
    {
        self.disk.stop_at(call, cut, fill);
    }

    /// Drops a stop of the disk that wasn't reached.
    pub fn disarm(&mut self)
        ensures dropped { is_stopped (log_disk self.old) ≡ false
            → log_disk self.new ≡ record (log_disk self.old) { stop = None } }
        ensures stopped { is_stopped (log_disk self.old) ≡ true
            → log_disk self.new ≡ log_disk self.old }
        ensures state { memory_state (log_disk self.new) ≡ memory_state (log_disk self.old) }
        ensures frames { log_frames self.new ≡ log_frames self.old }
        ensures gate { log_gate self.new ≡ log_gate self.old }
        ensures failed { has_failed self.new ≡ has_failed self.old }
    {
        self.disk.disarm();
    }

    /// What a read of the disk gives.
    pub fn bytes(&self) -> &[u8]
        ensures { result.now ≡ (memory_state (log_disk self.now)).now.seen }
    {
        self.disk.bytes()
    }
}

/// What a log of records over a disk for a host shows of it.
impl<D: Disk> RecordLog<HostDisk<D>> {
    ghost use Rattle.std.specs.Prelude.{map};
    ghost use Rattle.node_disk.specs.Host.{told_of};
    ghost use Rattle.node_disk.specs.RecordWords.{log_frames, log_gate, log_disk, has_failed};

    /// Takes the device calls that wait, as [`HostDisk::take_calls`] does.
    pub fn take_calls(&mut self) -> Items<HostCall>
        ensures taken { map told_of result ≡ (log_disk self.old).waiting }
        ensures disk { log_disk self.new ≡ record (log_disk self.old) { waiting = [] } }
        ensures frames { log_frames self.new ≡ log_frames self.old }
        ensures gate { log_gate self.new ≡ log_gate self.old }
        ensures failed { has_failed self.new ≡ has_failed self.old }
    {
        self.disk.take_calls()
    }
}
