//! The numbers by which C knows a refusal, and what they mean in words.

ghost use Rattle.std.specs.Prelude.{◌≡◌, ◌≤◌};
ghost use Rattle.coding_c.specs.Calls.{status};
ghost use Rattle.coding_c.specs.Shards.{plan_status};
ghost use Rattle.coding_c.specs.Texts.{status_text};

use cw_coding::ReedSolomonError;
use rs_code::PlanError;

pub(crate) const OK: u32 = 0;

pub(crate) const NO_MEMORY: u32 = 1;

pub(crate) const NO_CONFIG: u32 = 2;

pub(crate) const TOO_MANY_SHARDS: u32 = 3;

pub(crate) const TOO_LONG: u32 = 4;

pub(crate) const NO_ROOM: u32 = 5;

pub(crate) const NO_CHUNK: u32 = 6;

pub(crate) const BAD_INDEX: u32 = 7;

pub(crate) const BAD_WIDTH: u32 = 8;

pub(crate) const BAD_PROOF: u32 = 9;

pub(crate) const TOO_FEW: u32 = 10;

pub(crate) const DUPLICATE: u32 = 11;

pub(crate) const INCONSISTENT: u32 = 12;

pub(crate) const OTHER_ROOT: u32 = 13;

// The number of what the scheme refuses.
pub(crate) fn status_of(error: ReedSolomonError) -> u32
    ensures value { result ≡ status error }
    ensures some { 1 ≤ result }
{
    match error {
        ReedSolomonError::NoMemory => NO_MEMORY,
        ReedSolomonError::TooManyTotalShards(_) => TOO_MANY_SHARDS,
        ReedSolomonError::InvalidDataLength(_) => TOO_LONG,
        ReedSolomonError::InvalidIndex(_) => BAD_INDEX,
        ReedSolomonError::ReedSolomon(_) => BAD_WIDTH,
        ReedSolomonError::InvalidProof => BAD_PROOF,
        ReedSolomonError::NotEnoughChunks => TOO_FEW,
        ReedSolomonError::DuplicateIndex(_) => DUPLICATE,
        ReedSolomonError::Inconsistent => INCONSISTENT,
        ReedSolomonError::CommitmentMismatch => OTHER_ROOT,
    }
}

// The number of why there is no plan.
pub(crate) fn status_of_plan(error: PlanError) -> u32
    ensures value { result ≡ plan_status error }
    ensures some { 1 ≤ result }
{
    match error {
        PlanError::NoMemory => NO_MEMORY,
        PlanError::OutOfRange(_) => BAD_INDEX,
        PlanError::TooFew => TOO_FEW,
        PlanError::Duplicate(_) => DUPLICATE,
    }
}

// What a status means, in ASCII.
pub(crate) fn words_of(status: u32) -> &'static [u8]
    ensures { result.now ≡ status_text status }
{
    match status {
        OK => b"ok",
        NO_MEMORY => b"out of memory",
        NO_CONFIG => b"k and m must be at least 1",
        TOO_MANY_SHARDS => b"more than 65535 shards",
        TOO_LONG => b"text or shards too long",
        NO_ROOM => b"buffer too small",
        NO_CHUNK => b"not a chunk",
        BAD_INDEX => b"another chunk's index",
        BAD_WIDTH => b"invalid shard width",
        BAD_PROOF => b"invalid proof",
        TOO_FEW => b"not enough chunks",
        DUPLICATE => b"duplicate chunk",
        INCONSISTENT => b"inconsistent chunks",
        OTHER_ROOT => b"chunk of another root",
        _ => b"unknown status",
    }
}
