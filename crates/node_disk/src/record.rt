//! The record of a disk in memory.

/// How a device call of a disk in memory went. Public since the record of its calls, which
/// contracts speak of, has one for each; no function takes or answers one.
#[derive(Clone, Copy)]
pub enum Outcome {
    /// It did what it was asked for.
    Done,
    /// It did nothing.
    Failed,
    /// The disk stopped in it: the first `cut` bytes are as written, and the rest are `fill`.
    Stopped { cut: u64, fill: u8 },
}

/// What a device call asks for.
#[derive(Drop)]
pub(crate) enum Action {
    /// These bytes at this place.
    Write { place: u64, bytes: Vec<u8> },
    /// That all which was written be kept.
    Sync,
}

/// A device call, and how it went.
#[derive(Drop)]
pub(crate) struct Call {
    /// The disk was reopened since the call before.
    pub reopened: bool,
    pub action: Action,
    pub outcome: Outcome,
}

/// A stop of a disk in memory, at the device call whose number is the sum of `after`, the calls
/// that were made before it was armed, and `call`. Public since contracts speak of it; no function
/// takes or answers one.
#[derive(Clone, Copy)]
pub struct Stop {
    /// How many device calls were made before it was armed.
    pub after: u64,
    /// The device call at which it stops, counted from then; 0 stops at once.
    pub call: u64,
    /// How many bytes of the range are as written.
    pub cut: u64,
    /// The byte that the rest of the range is.
    pub fill: u8,
}

/// A write that was done since the last sync, at a place in bytes from the start.
#[derive(Drop)]
pub(crate) struct Pending {
    pub place: u64,
    pub bytes: Vec<u8>,
}
