//! Why a script isn't run to its end.

ghost use Rattle.std.specs.Prelude.{◌≡◌};
ghost use Rattle.hail_script.specs.declared.error.RunError.TheVariants as error;

use cw_base::{Items, NoMemory};
use std::alloc::AllocError;
use thiserror::Error;

/// Why a script isn't run to its end, in the order in which it is tested. Lines are counted from 1.
#[derive(Debug, Drop, Error, PartialEq, Eq)]
pub enum RunError {
    /// The first line outside the grammar.
    #[error("line {0} is outside the grammar")]
    Syntax(u64),
    /// The cluster has fewer than 4 members, or more than 65,535, or an epoch has fewer than 4.
    #[error("a committee has fewer than 4 members, or more than 65,535")]
    BadCommittee,
    /// The first line that names a member past the last.
    #[error("line {0} names a member past the last")]
    UnknownMember(u64),
    /// The script makes more than f members of an epoch faulty.
    #[error("more members are faulty than an epoch bears")]
    TooManyFaulty,
    /// The first line with a payload of more than 1,048,576 bytes.
    #[error("line {0} has a payload of more than 1,048,576 bytes")]
    OversizeBlock(u64),
    /// The encodings of two blocks of one digest, the earlier first.
    #[error("two blocks have one digest")]
    HashClash(Items<u8>, Items<u8>),
    /// Memory is short.
    #[error("memory ran out")]
    NoMemory,
}

impl From<NoMemory> for RunError {
    ghost from_gives = { λ _ e. e ≡ error.NoMemory };

    fn from(_error: NoMemory) -> RunError {
        RunError::NoMemory
    }
}

impl From<AllocError> for RunError {
    ghost from_gives = { λ _ e. e ≡ error.NoMemory };

    fn from(_error: AllocError) -> RunError {
        RunError::NoMemory
    }
}
