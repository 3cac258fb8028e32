//! Digests, and the hash functions that give them.

ghost use Rattle.std.specs.Prelude.{◌≡◌, ◌↔◌, ℕ, ◌%◌, ◌^◌, ◌++◌, List, length, replicate, sum};
ghost use Rattle.std.specs.Prelude.{IfOk, IfSome, IsSome, IsTrue, ◌<◌};
ghost use Rattle.sha2.specs.Sha256.{sha256};
ghost use Rattle.cw_base.specs.Hash.{sum_bytes};
ghost use Rattle.cw_base.specs.Rows.{row_hashes};

use crate::error::NoMemory;
use crate::rows::hash_rows;
use crate::strategy::{Sequential, Strategy};
use sha2::Digest as Sha2Digest;
use std::alloc::Global;
use std::fmt;
use std::hash::Hash;
use std::thread::Threads;

/// What a hash function answers: a fixed number of bytes.
pub trait Digest: Copy + Eq + Ord + Hash + Send + Sync {
    ghost SIZE: { ℕ };

    ghost EMPTY: { Self };

    /// Its bytes.
    ghost content: { Self → List ℕ };

    /// How many bytes a digest has.
    const SIZE: usize;

    /// The digest whose bytes are all zero.
    const EMPTY: Self;

    /// Its `SIZE` bytes.
    fn as_bytes(&self) -> &[u8]
        ensures value { result.now ≡ content self.now }
        ensures size { length (content self.now) ≡ SIZE };

    /// Whether the two are one digest.
    fn is_same(&self, other: &Self) -> bool
        ensures { IsTrue result ↔ (self.now ≡ other.now) };

    /// The digest with these bytes; `None` where their number is not `SIZE`.
    fn from_slice(bytes: &[u8]) -> Option<Self>
        ensures exact { IsSome result ↔ (length bytes.now ≡ SIZE) }
        ensures value { IfSome result (λ digest. content digest ≡ bytes.now) };

    ghost empty_is_zero: { content EMPTY ≡ replicate SIZE 0 };

    /// Digests of the same bytes are one digest.
    ghost told_by_bytes: { (a b : Self) → content a ≡ content b → a ≡ b };
}

/// A digest of 32 bytes.
#[derive(Clone, Copy, Debug, PartialEq, Eq, PartialOrd, Ord, Hash)]
pub struct Digest32(pub [u8; 32]);

/// Its bytes in order, each in two hex digits.
impl fmt::Display for Digest32 {
    fn fmt<W: fmt::Write>(&self, f: &mut fmt::Formatter<W>) -> fmt::Result {
        for byte in self.0 {
            write!(f, "{byte:02x}")?;
        }
        Ok(())
    }
}

impl Digest for Digest32 {
    ghost SIZE = { 32 };

    ghost EMPTY = { record { 0 = replicate 32 0 } };

    ghost content = { λ digest. digest.0 };

    const SIZE: usize = 32;

    const EMPTY: Digest32 = Digest32([0; 32]);

    fn as_bytes(&self) -> &[u8] {
        &self.0
    }

    fn is_same(&self, other: &Digest32) -> bool {
        self.0 == other.0
    }

    fn from_slice(bytes: &[u8]) -> Option<Digest32> {
        if bytes.len() != 32 {
            return None;
        }
        let mut digest = [0; 32];
        digest.copy_from_slice(bytes);
        Some(Digest32(digest))
    }

    ghost empty_is_zero = { Prim.search };

    ghost use Rattle.std.proofs.Common.{ap};

    ghost told_by_bytes = { λ a b same. ap (λ bytes. record { 0 = bytes }) same };
}

/// Rows of fewer bytes in all are hashed on the caller's thread, whatever the strategy is: to start
/// the threads takes longer than they save there (docs/SPEED.md).
pub const FEW_BYTES: usize = 32768;

/// A hash function from byte texts to digests.
///
/// Nothing more is asked of it than that it is a function: what is proved over a hasher holds also
/// where two texts have one digest.
pub trait Hasher: Send + Sync {
    type Digest: Digest;

    /// The digest of a text.
    ghost digest_of: { List ℕ → Self.Digest };

    /// The digest of `bytes`.
    fn hash(bytes: &[u8]) -> Self::Digest
        ensures { result ≡ digest_of bytes.now };

    /// The digest of `left` followed by `right`.
    fn hash_pair(left: &[u8], right: &[u8]) -> Self::Digest
        ensures { result ≡ digest_of (left.now ++ right.now) };

    /// The digest of each of the rows of `width` bytes that stand end to end in `rows`, in their
    /// order.
    final fn hash_many<R: Threads + Sync, S: Strategy>(
        rt: &R,
        alloc: Global,
        rows: &[u8],
        width: usize,
        strategy: &S,
    ) -> Result<Vec<Self::Digest>, NoMemory>
        requires positive { 0 < width }
        requires whole_rows { length rows.now % width ≡ 0 }
        ensures each_row { IfOk result
            (λ digests. digests.items ≡ row_hashes digest_of width rows.now) }
    {
        if rows.len() < FEW_BYTES {
            return hash_rows::<Self, R, Sequential>(rt, alloc, rows, width, &Sequential);
        }
        hash_rows::<Self, R, S>(rt, alloc, rows, width, strategy)
    }

    /// Each digest has `SIZE` bytes.
    ghost sized: { (bytes : List ℕ)
        → length (Self.Digest.content (digest_of bytes)) ≡ Self.Digest.SIZE };
}

/// SHA-256, of FIPS 180-4.
#[derive(Clone, Copy, Debug)]
pub struct Sha256;

impl Hasher for Sha256 {
    type Digest = Digest32;

    ghost digest_of = { λ bytes. record { 0 = sha256 bytes } };

    fn hash(bytes: &[u8]) -> Digest32 {
        Digest32(sha2::Sha256::digest(bytes))
    }

    fn hash_pair(left: &[u8], right: &[u8]) -> Digest32 {
        let mut hasher = sha2::Sha256::new();
        hasher.update(left);
        hasher.update(right);
        Digest32(hasher.finalize())
    }

    ghost use Rattle.sha2.proofs.Facts256.{length-sha256};

    ghost sized = { length-sha256 };
}

/// A hash for tests and examples, whose digests can be found by hand and whose collisions are many:
/// 32 bytes, each the sum of the text's bytes modulo 256.
#[derive(Clone, Copy, Debug)]
pub struct SumHasher;

// The sum of some bytes modulo 256.
fn sum_of(bytes: &[u8]) -> u8
    ensures { result ≡ sum bytes.now % 2 ^ 8 }
{
    let mut total: u8 = 0;
    for byte in bytes {
        total = total.wrapping_add(*byte);
    }
    total
}

impl Hasher for SumHasher {
    type Digest = Digest32;

    ghost digest_of = { λ bytes. record { 0 = sum_bytes bytes } };

    fn hash(bytes: &[u8]) -> Digest32 {
        Digest32([sum_of(bytes); 32])
    }

    fn hash_pair(left: &[u8], right: &[u8]) -> Digest32 {
        Digest32([sum_of(left).wrapping_add(sum_of(right)); 32])
    }

    ghost use Rattle.std.proofs.lemmas.List.{length-replicate};

    ghost sized = { λ bytes. length-replicate 32 (sum bytes % 2 ^ 8) };
}
