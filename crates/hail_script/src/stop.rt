//! Stops.

ghost use Rattle.std.specs.Prelude.{◌<◌};

/// A stop at a device call from 1 on: of what that call writes the first bytes are as written, as
/// many as the cut says, and the others are `fill`.
#[derive(Clone, Copy, Debug, PartialEq, Eq)]
pub struct Stop {
    /// The device call at which the member stops, from 1.
    pub call: u64,
    /// How many bytes of its range are as written.
    pub cut: u64,
    /// The byte that the rest of the range is.
    pub fill: u8,
    ghost later: { 0 < call },
}
