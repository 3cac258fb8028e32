//! Reading the frames of a log as records.

ghost use Rattle.std.specs.Prelude.{◌≡◌, ◌+◌, ◌≤◌, ◌<◌, ◌++◌, [], ◌∷◌, ℕ, List, length, map, Bool};
ghost use Rattle.std.specs.Prelude.{IfOk, OnOk, IsErrOf, Ok, None, Some, true};
ghost use Rattle.node_disk.specs.Frames.{read_log, IsAtRest, Finds, frames_in};
ghost use Rattle.node_disk.specs.Log.{all_items};
ghost use Rattle.node_disk.specs.Records.{first_refused, refused_place};

use crate::StoreError;
use crate::reading::{frame_in, place_behind, read_frames};
use cw_base::NoMemory;
use std::alloc::Global;

/// What a store keeps of the records in the frames of its log: some or all of them, or what they
/// come to. A start reads the frames in order.
///
/// `Loading` of `crates/cw_ledger` is a short one: it keeps the balances that the payloads in the
/// frames leave, and refuses a frame of another height than the next.
pub trait Records {
    /// Whether the frame of this number, counted from 0, is a record.
    ghost is_record: { ℕ → List ℕ → Bool };

    /// It keeps the records of these frames.
    ghost keeps: { Self → List (List ℕ) → Type 0 };

    /// Reads the frame behind those whose records it keeps, and keeps its record; false where it is
    /// none, and then, as where memory is short, nothing is known of what it keeps.
    fn read(&mut self, alloc: Global, frame: &[u8]) -> Result<bool, NoMemory>
        ensures kept { IfOk result (λ read. read ≡ true → (frames : List (List ℕ))
            → keeps self.old frames → keeps self.new (frames ++ frame.now ∷ [])) }
        ensures told { IfOk result (λ read. (frames : List (List ℕ)) → keeps self.old frames
            → is_record (length frames) frame.now ≡ read) };
}

/// Reads the records of a log's bytes, without a disk: those that a start reads on a disk that
/// gives these bytes. `Foreign` is the place that such a start refuses.
pub fn read_records<K: Records>(
    alloc: Global,
    bytes: &[u8],
    records: &mut K,
) -> Result<(), StoreError>
    requires { K.keeps records.old [] }
    ensures kept { OnOk result ((frames : List (List ℕ)) → Finds frames bytes.now
        → K.keeps records.new frames) }
    ensures all_records { OnOk result (refused_place K.is_record (read_log bytes.now) ≡ None) }
    ensures foreign { (place : ℕ) → IsErrOf result (StoreError.Foreign place)
        → refused_place K.is_record (read_log bytes.now) ≡ Some place }
    ensures disk { IsErrOf result StoreError.Disk → ⊥ }
    ensures failed { IsErrOf result StoreError.Failed → ⊥ }
{
    if bytes.len() < 2 {
        return Ok(());
    }
    match read_into(alloc, bytes, records) {
        Ok(_) => Ok(()),
        Err(error) => Err(error),
    }
}

/// The same for a file that isn't shorter than two bytes: how many frames there are, and the place
/// of the gate behind the last.
pub(crate) fn read_into<K: Records>(
    alloc: Global,
    bytes: &[u8],
    records: &mut K,
) -> Result<(usize, u64), StoreError>
    requires long { 2 ≤ length bytes.now }
    requires none { K.keeps records.old [] }
    ensures rests { IfOk result (λ p. IsAtRest (frames_in p.0 bytes.now) p.1 bytes.now) }
    ensures counted { IfOk result (λ p. length (frames_in p.0 bytes.now) ≡ p.0) }
    ensures kept { IfOk result (λ p. K.keeps records.new (frames_in p.0 bytes.now)) }
    ensures all_records { OnOk result (refused_place K.is_record (read_log bytes.now) ≡ None) }
    ensures foreign { (place : ℕ) → IsErrOf result (StoreError.Foreign place)
        → refused_place K.is_record (read_log bytes.now) ≡ Some place }
    ensures disk { IsErrOf result StoreError.Disk → ⊥ }
    ensures failed { IsErrOf result StoreError.Failed → ⊥ }
{
    match read_frames(alloc, bytes) {
        Ok((frames, gate)) => match read_each(alloc, &frames, records) {
            Ok(()) => Ok((frames.len(), gate)),
            Err(error) => Err(error),
        },
        Err(error) => Err(error),
    }
}

// Reads these frames, one behind the other.
fn read_each<K: Records>(alloc: Global, frames: &[&[u8]], records: &mut K) -> Result<(), StoreError>
    requires { K.keeps records.old [] }
    ensures kept { OnOk result (K.keeps records.new (map (λ frame. frame.now) frames.now)) }
    ensures all_records { OnOk result
        (first_refused K.is_record 0 0 (map (λ frame. frame.now) frames.now) ≡ None) }
    ensures foreign { (place : ℕ) → IsErrOf result (StoreError.Foreign place)
        → first_refused K.is_record 0 0 (map (λ frame. frame.now) frames.now) ≡ Some place }
    ensures disk { IsErrOf result StoreError.Disk → ⊥ }
    ensures failed { IsErrOf result StoreError.Failed → ⊥ }
{
    let mut place = 0;
    for index in 0..frames.len() {
        let frame = frame_in(frames, index);
        if !records.read(alloc, frame)? {
            return Err(StoreError::Foreign(place));
        }
        place = place_behind(place, frame)?;
    }
    Ok(())
}

/// The frames of a log as their bytes: each is a record.
#[derive(Drop)]
pub(crate) struct Bytes {
    frames: Vec<Vec<u8>>,
}

impl Bytes {
    pub(crate) fn new(alloc: Global) -> Bytes
        ensures { all_items result.frames.items ≡ [] }
    {
        Bytes {
            frames: Vec::new(alloc),
        }
    }

    pub(crate) fn into_frames(self) -> Vec<Vec<u8>>
        ensures { result ≡ self.frames }
    {
        let Bytes { frames } = self;
        frames
    }
}

impl Records for Bytes {
    ghost use Rattle.node_disk.specs.Bytes.{are_all, HasFrames};

    ghost is_record = { are_all };

    ghost keeps = { HasFrames };

    fn read(&mut self, alloc: Global, frame: &[u8]) -> Result<bool, NoMemory> {
        self.frames.push(frame.to_vec(alloc)?)?;
        Ok(true)
    }
}
