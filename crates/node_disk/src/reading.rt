//! Reading a log's bytes.

ghost use Rattle.std.specs.Prelude.{◌≡◌, ◌+◌, ◌≤◌, ◌<◌, ◌++◌, [], ◌∷◌, ℕ, List, length, IfOk};
ghost use Rattle.std.specs.Prelude.{IsErrOf, Ok, Err, MatchOption, Some, map, slice_get, take};
ghost use Rattle.std.specs.Prelude.{drop};
ghost use Rattle.node_disk.specs.Frames.{count_of, read_log, IsAtRest};

use crate::StoreError;
use cw_base::{Items, NoMemory};
use std::alloc::Global;

/// The frames of a log that these bytes are, without a disk: those that a start finds on a disk
/// that gives them. `Foreign` is the place of an open gate whose frame is cut, in bytes from the
/// start.
pub fn read_log(alloc: Global, bytes: &[u8]) -> Result<Items<Items<u8>>, StoreError>
    ensures found { IfOk result (λ frames. read_log bytes.now ≡ Ok frames) }
    ensures foreign { (place : ℕ) → IsErrOf result (StoreError.Foreign place)
        → read_log bytes.now ≡ Err place }
    ensures disk { IsErrOf result StoreError.Disk → ⊥ }
    ensures failed { IsErrOf result StoreError.Failed → ⊥ }
{
    if bytes.len() < 2 {
        return Ok(Items::new(alloc));
    }
    match read_frames(alloc, bytes) {
        Ok((frames, _)) => match items_of(alloc, &frames) {
            Ok(items) => Ok(items),
            Err(NoMemory) => Err(StoreError::NoMemory),
        },
        Err(error) => Err(error),
    }
}

/// The place of the gate behind a frame whose own gate stands at this place: the gate, eight bytes
/// of length and the frame lie between. No memory holds the frames of a longer file.
pub fn place_behind(place: u64, frame: &[u8]) -> Result<u64, NoMemory>
    ensures { IfOk result (λ next. next ≡ place + 9 + length frame.now) }
{
    match place.checked_add(9) {
        None => Err(NoMemory),
        Some(start) => match start.checked_add(frame.len() as u64) {
            None => Err(NoMemory),
            Some(next) => Ok(next),
        },
    }
}

// The same frames, as lists that contracts see as their bytes.
fn items_of(alloc: Global, frames: &[&[u8]]) -> Result<Items<Items<u8>>, NoMemory>
    ensures { IfOk result (λ items. items ≡ map (λ frame. frame.now) frames.now) }
{
    let mut items = Items::new(alloc);
    for index in 0..frames.len() {
        let copy = copy_of(alloc, frame_in(frames, index))?;
        items.push(copy)?;
    }
    Ok(items)
}

fn copy_of(alloc: Global, frame: &[u8]) -> Result<Items<u8>, NoMemory>
    ensures { IfOk result (λ copy. copy ≡ frame.now) }
{
    Ok(Items::from_vec(frame.to_vec(alloc)?))
}

/// The frame at this index.
pub(crate) fn frame_in<'a>(frames: &[&'a [u8]], index: usize) -> &'a [u8]
    requires { index < length frames.now }
    ensures { slice_get (map (λ frame. frame.now) frames.now) index ≡ Some result.now }
{
    frames[index]
}

// The number that eight bytes say, the high byte first.
#[tactic(auto, unfolding(crate::specs::Frames::count_of))]
fn read_count(bytes: &[u8]) -> u64
    requires { 8 ≤ length bytes.now }
    ensures { result ≡ count_of bytes.now }
{
    u64::from_be_bytes([
        bytes[0], bytes[1], bytes[2], bytes[3], bytes[4], bytes[5], bytes[6], bytes[7],
    ])
}

// The frame that follows an open gate, if it is whole and a gate follows it.
fn first_frame(rest: &[u8]) -> Option<&[u8]>
    ensures { MatchOption result
        (length rest.now ≤ 8 + count_of rest.now)
        (λ frame. (8 + count_of rest.now < length rest.now)
        × (frame.now ≡ take (count_of rest.now) (drop 8 rest.now))) }
{
    if rest.len() < 8 {
        return None;
    }
    let count = read_count(rest);
    if (rest.len() - 8) as u64 <= count {
        return None;
    }
    Some(&rest[8..8 + count as usize])
}

/// The frames, and the place of the gate behind the last.
pub(crate) fn read_frames(alloc: Global, bytes: &[u8]) -> Result<(Vec<&[u8]>, u64), StoreError>
    requires { 2 ≤ length bytes.now }
    ensures found { IfOk result
        (λ p. IsAtRest (map (λ frame. frame.now) p.0.items) p.1 bytes.now) }
    ensures foreign { (place : ℕ) → IsErrOf result (StoreError.Foreign place)
        → read_log bytes.now ≡ Err place }
    ensures disk { IsErrOf result StoreError.Disk → ⊥ }
    ensures failed { IsErrOf result StoreError.Failed → ⊥ }
{
    let mut frames = Vec::new(alloc);
    let mut at = 0usize;
    while bytes[at] == 1 {
        match first_frame(&bytes[at + 1..]) {
            None => return Err(StoreError::Foreign(at as u64)),
            Some(frame) => {
                at += 9 + frame.len();
                frames.push(frame)?;
            }
        }
    }
    Ok((frames, at as u64))
}
