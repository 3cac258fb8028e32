//! Why data is not encoded, a chunk not taken, or chunks not decoded.

ghost use Rattle.std.specs.Prelude.{◌≡◌};
ghost use Rattle.cw_coding.specs.declared.error.ReedSolomonError.TheVariants as error;

use cw_base::NoMemory;
use std::alloc::{AllocError, AllocFailed};
use thiserror::Error;

/// What the code refuses in a shard.
#[derive(Clone, Copy, Debug, PartialEq, Eq, Error)]
pub enum RsError {
    /// Shards do not have so many bytes.
    #[error("invalid shard size: {shard_bytes}")]
    InvalidShardSize {
        /// How many bytes the shard has.
        shard_bytes: usize,
    },
}

/// Why a call of the coding scheme was refused.
#[derive(Clone, Copy, Debug, PartialEq, Eq, Error)]
pub enum ReedSolomonError {
    /// A shard is refused by the code.
    #[error("reed-solomon error: {0}")]
    ReedSolomon(RsError),
    /// The chunks are not of one encoding.
    #[error("inconsistent")]
    Inconsistent,
    /// A chunk does not stand under the commitment.
    #[error("invalid proof")]
    InvalidProof,
    /// There are fewer chunks than the minimum.
    #[error("not enough chunks")]
    NotEnoughChunks,
    /// This index came twice.
    #[error("duplicate chunk index: {0}")]
    DuplicateIndex(u16),
    /// Data of so many bytes is not encoded.
    #[error("invalid data length: {0}")]
    InvalidDataLength(usize),
    /// This index is not one of the config, or not the one asked for.
    #[error("invalid index: {0}")]
    InvalidIndex(u16),
    /// The config has more shards than 65,535.
    #[error("too many total shards: {0}")]
    TooManyTotalShards(u32),
    /// A chunk was checked under another commitment.
    #[error("checked shard commitment does not match decode commitment")]
    CommitmentMismatch,
    /// Memory ran out.
    #[error("no memory")]
    NoMemory,
}

impl From<RsError> for ReedSolomonError {
    ghost from_gives = { λ refused e. e ≡ error.ReedSolomon refused };

    fn from(error: RsError) -> ReedSolomonError {
        ReedSolomonError::ReedSolomon(error)
    }
}

impl From<NoMemory> for ReedSolomonError {
    ghost from_gives = { λ _ e. e ≡ error.NoMemory };

    fn from(_error: NoMemory) -> ReedSolomonError {
        ReedSolomonError::NoMemory
    }
}

impl From<AllocError> for ReedSolomonError {
    ghost from_gives = { λ _ e. e ≡ error.NoMemory };

    fn from(_error: AllocError) -> ReedSolomonError {
        ReedSolomonError::NoMemory
    }
}

impl<T: Drop> From<AllocFailed<T>> for ReedSolomonError {
    ghost from_gives = { λ _ e. e ≡ error.NoMemory };

    fn from(_error: AllocFailed<T>) -> ReedSolomonError {
        ReedSolomonError::NoMemory
    }
}
