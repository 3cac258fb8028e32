//! How blocks travel.

/// How the blocks of a cluster travel: one way for all its members, for as long as it lasts.
#[derive(Clone, Copy, Debug, PartialEq, Eq)]
pub enum Travel {
    /// In chunks: each member is sent one of its own, and votes for the block of which it came.
    Chunked,
    /// Whole: each member is sent the block, and votes for what it saw.
    Uncut,
}
