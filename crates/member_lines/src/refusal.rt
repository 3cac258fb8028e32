//! Why a line is refused.

/// Why a line is refused, which then changes nothing.
#[derive(Clone, Copy, Debug, PartialEq, Eq)]
pub enum Refusal {
    /// It is outside the grammar.
    Syntax,
    /// It has more than 4,194,304 bytes.
    TooLong,
    /// It needs the start, or the header, which hasn't come.
    TooEarly,
    /// The start that it prepares has come.
    TooLate,
    /// The members of the header are no committees.
    BadCommittee,
    /// This member isn't one of those of the header.
    UnknownMember,
    /// Its payload has more than 1,048,576 bytes.
    OversizeBlock,
    /// Its message is no certificate of a vote to finalize.
    NoFinalization,
    /// What it asks for isn't there.
    NoBlock,
    /// The file isn't a member's: its frame at this byte is cut, or holds no notes.
    Foreign(u64),
}
