//! What is answered to a put.

/// What is answered to a put: the first that holds.
#[derive(Clone, Copy, Debug, PartialEq, Eq)]
pub enum Put {
    /// A chunk of that commitment and index is kept.
    Known,
    /// It doesn't check under the commitment's root and config at its index.
    Foreign,
    /// Its shard is longer than the limit.
    TooLarge,
    /// It is kept, as the newest.
    Kept,
}
