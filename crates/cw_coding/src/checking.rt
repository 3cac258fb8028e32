//! Chunks that are checked under a commitment.

ghost use Rattle.std.specs.Prelude.{◌≡◌, ◌≢◌, ℕ, ◌%◌, ◌⊎◌, ◌↔◌, length, IsTrue, IfOk, IfErr, Err};
ghost use Rattle.cw_coding.specs.Checking.{IsUnder, IsCheckRefusal, IsBadWidth, Checks};
ghost use Rattle.cw_coding.specs.Checking.{IsVerdictOn, AllStand, AllCheck};

use crate::error::{ReedSolomonError, RsError};
use bytes::Bytes;
use cw_base::{Config, Digest, Hasher, NoMemory, Strategy};
use cw_tree::Chunk;
use std::alloc::Global;
use std::fmt::Debug;
use std::marker::{Model, PhantomData};
use std::thread::Threads;

/// A chunk that was checked under a commitment. It keeps the commitment and its shard's digest: a
/// row that decoding compares with a chunk isn't hashed again.
#[derive(Drop)]
#[derive_where(PartialEq, Eq; H: Hasher)]
#[derive_where(Debug; H: Hasher, H::Digest: Debug)]
pub struct CheckedChunk<H: Hasher> {
    root: H::Digest,
    shard: Bytes,
    index: u16,
    digest: H::Digest,
    #[derive_where(skip)]
    hasher: PhantomData<H>,
}

impl<H: Hasher> Model for CheckedChunk<H> {
    ghost use Rattle.std.specs.Prelude.{◌≡◌};
    ghost use Rattle.cw_coding.specs.Checked.{Checked};

    ghost Value = { Checked H.Digest };

    ghost view = { λ c. record {
      root = c.root;
      shard = c.shard;
      index = c.index;
      digest = c.digest;
    } };

    ghost inverse = { λ c. record {
      root = c.root;
      shard = c.shard;
      index = c.index;
      digest = c.digest;
      hasher = record {};
    } };

    ghost invariant = { λ c. c.digest ≡ H.digest_of c.shard };
}

impl<H: Hasher> CheckedChunk<H> {
    // The commitment that it was checked under.
    pub(crate) fn root(&self) -> &H::Digest
        ensures { result.now ≡ self.now.root }
    {
        &self.root
    }

    /// The bytes of the shard.
    pub fn shard(&self) -> &[u8]
        ensures { result.now ≡ self.now.shard }
    {
        self.shard.as_slice()
    }

    /// The place of the shard among all shards of its text.
    pub fn index(&self) -> u16
        ensures { result ≡ self.now.index }
    {
        self.index
    }

    // The digest of the shard.
    pub(crate) fn digest(&self) -> H::Digest
        ensures { result ≡ H.digest_of self.now.shard }
    {
        self.digest
    }

    /// An equal chunk, which shares the bytes of the shard.
    pub fn copy(&self, _alloc: Global) -> Result<CheckedChunk<H>, NoMemory>
        ensures { IfOk result (λ copy. copy ≡ self.now) }
    {
        Ok(CheckedChunk {
            root: self.root,
            shard: self.shard.slice(..)?,
            index: self.index,
            digest: self.digest,
            hasher: PhantomData,
        })
    }
}

// What checking a chunk answers.
pub(crate) fn check_chunk<H: Hasher>(
    config: &Config,
    commitment: &H::Digest,
    index: u16,
    shard: &Chunk<H::Digest>,
) -> Result<CheckedChunk<H>, ReedSolomonError>
    ensures { Checks H.digest_of H.Digest.content config.now commitment.now index shard.now result }
{
    match stands::<H>(config, commitment, index, shard) {
        Ok(digest) => match checked::<H>(commitment, index, shard, digest) {
            Ok(chunk) => Ok(chunk),
            Err(_) => Err(ReedSolomonError::NoMemory),
        },
        Err(error) => Err(error),
    }
}

// What checking answers to each chunk at its index.
pub(crate) fn check_all<H: Hasher, R: Threads + Sync, S: Strategy>(
    rt: &R,
    alloc: Global,
    config: &Config,
    commitment: &H::Digest,
    indices: &[u16],
    shards: &[Chunk<H::Digest>],
    strategy: &S,
) -> Result<Vec<Result<CheckedChunk<H>, ReedSolomonError>>, ReedSolomonError>
    requires lengths { length indices.now ≡ length shards.now }
    ensures each { IfOk result
        (λ answers. AllCheck H.digest_of H.Digest.content config.now commitment.now indices.now
        shards.now answers.items) }
    ensures memory { IfErr result (λ e. e ≡ ReedSolomonError.NoMemory) }
{
    let stood = stand_all::<H, R, S>(rt, alloc, config, commitment, indices, shards, strategy)?;
    let stood = stood.as_slice();
    let mut answers = Vec::new(alloc);
    for i in 0..shards.len() {
        answers.push(answer::<H>(config, commitment, indices[i], &shards[i], stood[i])?)?;
    }
    Ok(answers)
}

// Whether each chunk stands at its index, by a strategy.
fn stand_all<H: Hasher, R: Threads + Sync, S: Strategy>(
    rt: &R,
    alloc: Global,
    config: &Config,
    commitment: &H::Digest,
    indices: &[u16],
    shards: &[Chunk<H::Digest>],
    strategy: &S,
) -> Result<Vec<Result<H::Digest, ReedSolomonError>>, NoMemory>
    requires lengths { length indices.now ≡ length shards.now }
    ensures { IfOk result
        (λ stood. AllStand H.digest_of H.Digest.content config.now commitment.now indices.now
        shards.now stood.items) }
{
    let mut items = Vec::new(alloc);
    for i in 0..shards.len() {
        items.push((indices[i], &shards[i]))?;
    }
    let stand = |item: &(u16, &Chunk<H::Digest>)| -> Result<H::Digest, ReedSolomonError>
        ensures { IsVerdictOn H.digest_of H.Digest.content config.entry.now commitment.entry.now
            item.now.0 item.now.1.now result }
    { stands::<H>(config, commitment, item.0, item.1) };
    let stood = strategy.map(rt, alloc, &items, &stand)?;
    Ok(stood)
}

// The digest of a shard that stands under a commitment at an index, or why it doesn't stand there.
// Nothing is hashed before the last test.
fn stands<H: Hasher>(
    config: &Config,
    commitment: &H::Digest,
    index: u16,
    shard: &Chunk<H::Digest>,
) -> Result<H::Digest, ReedSolomonError>
    ensures { IsVerdictOn H.digest_of H.Digest.content config.now commitment.now index shard.now
        result }
{
    let total = config.total_shards();
    if total > 65535 {
        return Err(ReedSolomonError::TooManyTotalShards(total));
    }
    if u32::from(index) >= total {
        return Err(ReedSolomonError::InvalidIndex(index));
    }
    let width = shard.shard().len();
    if is_bad_width(width) {
        return Err(ReedSolomonError::ReedSolomon(RsError::InvalidShardSize { shard_bytes: width }));
    }
    let proof = shard.proof();
    if proof.leaf_count != total {
        return Err(ReedSolomonError::InvalidProof);
    }
    let embedded = shard.index();
    if embedded != index {
        return Err(ReedSolomonError::InvalidIndex(embedded));
    }
    let digest = H::hash(shard.shard());
    if !proof.verify_element_inclusion::<H>(&digest, u32::from(index), commitment) {
        return Err(ReedSolomonError::InvalidProof);
    }
    Ok(digest)
}

fn is_bad_width(width: usize) -> bool
    ensures { IsTrue result ↔ IsBadWidth width }
{
    width == 0 || width % 2 != 0
}

// The answer to a chunk that stands, or doesn't, as `stands` said.
fn answer<H: Hasher>(
    config: &Config,
    commitment: &H::Digest,
    index: u16,
    shard: &Chunk<H::Digest>,
    stood: Result<H::Digest, ReedSolomonError>,
) -> Result<Result<CheckedChunk<H>, ReedSolomonError>, NoMemory>
    requires { IsVerdictOn H.digest_of H.Digest.content config.now commitment.now index shard.now
        stood }
    ensures checks { IfOk result
        (λ r. Checks H.digest_of H.Digest.content config.now commitment.now index shard.now r) }
    ensures memory { IfOk result (λ r. r ≢ Err ReedSolomonError.NoMemory) }
{
    match stood {
        Ok(digest) => Ok(Ok(checked::<H>(commitment, index, shard, digest)?)),
        Err(error) => Ok(Err(error)),
    }
}

// The chunk that was checked, which shares the bytes of the shard.
fn checked<H: Hasher>(
    commitment: &H::Digest,
    index: u16,
    shard: &Chunk<H::Digest>,
    digest: H::Digest,
) -> Result<CheckedChunk<H>, NoMemory>
    requires { digest ≡ H.digest_of shard.now.shard }
    ensures { IfOk result
        (λ c. c
        ≡ record {
          root = commitment.now;
          shard = shard.now.shard;
          index = index;
          digest = digest;
        }) }
{
    Ok(CheckedChunk {
        root: *commitment,
        shard: shard.shared()?,
        index,
        digest,
        hasher: PhantomData,
    })
}
