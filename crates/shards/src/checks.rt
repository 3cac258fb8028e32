//! Whether chunks stand under a commitment.

ghost use Rattle.std.specs.Prelude.{◌≡◌, ◌≤◌, ◌++◌, ◌∷◌, [], IfOk, IsTrue, OnOk, map};
ghost use Rattle.cw_rules.specs.Accepted.{is_chunk_of};
ghost use Rattle.cw_rules.specs.Coding.{AreBytes, AreByteChunks};
ghost use Rattle.cw_coding.specs.Totals.{total_of};
ghost use Rattle.cw_rules_coded.specs.Coded.{leads_up};
ghost use Rattle.shards.specs.Enough.{AreUnder, checked_of, is_under_root};
ghost use Rattle.shards.specs.Kept.{chunk_rules};

use crate::configs::has_config;
use cw_base::{Digest32, Hasher, NoMemory, Strategy};
use cw_coding::{CheckedChunk, Chunk, ReedSolomon, ReedSolomonError, Scheme};
use cw_types::{Commitment, Committees};
use std::alloc::Global;

/// Whether the rules take the chunk: the commitment's config is that of some epoch, and the chunk
/// stands under its root at its index. Takes no memory.
pub(crate) fn is_chunk_of<H: Hasher<Digest = Digest32>>(
    committees: &Committees,
    commitment: &Commitment,
    chunk: &Chunk<Digest32>,
) -> bool
    ensures value { result
        ≡ is_chunk_of (chunk_rules H.digest_of committees.now) commitment.now chunk.now }
    ensures some { IsTrue result → 2 ≤ commitment.now.config.minimum }
    ensures few { IsTrue result → total_of commitment.now.config ≤ 65535 }
{
    has_config(committees, &commitment.config) && is_under::<H>(commitment, chunk)
}

// Whether the chunk stands under the commitment's root at its index, as a check of it asks.
fn is_under<H: Hasher<Digest = Digest32>>(commitment: &Commitment, chunk: &Chunk<Digest32>) -> bool
    ensures { result ≡ is_under_root H.digest_of commitment.now chunk.now }
{
    let total = commitment.config.total_shards();
    let width = chunk.shard().len();
    u32::from(chunk.index()) < total
        && 0 < width
        && width % 2 == 0
        && chunk.proof().leaf_count == total
        && leads_up::<H>(&commitment.root, chunk)
}

// Whether the chunk's siblings lead from its shard to the root.
#[tactic(auto, using(crate::proofs::LedUp::led_up))]
fn leads_up<H: Hasher<Digest = Digest32>>(root: &Digest32, chunk: &Chunk<Digest32>) -> bool
    ensures { result ≡ leads_up H.digest_of root.now chunk.now }
{
    let digest = H::hash(chunk.shard());
    let index = u32::from(chunk.index());
    chunk
        .proof()
        .verify_element_inclusion::<H>(&digest, index, root)
}

// The chunk, which stands under the commitment, with its digest.
fn checked<H: Hasher<Digest = Digest32>, S: Strategy>(
    alloc: Global,
    commitment: &Commitment,
    chunk: &Chunk<Digest32>,
    strategy: &S,
) -> Result<CheckedChunk<H>, NoMemory>
    requires few { total_of commitment.now.config ≤ 65535 }
    requires under { IsTrue (is_under_root H.digest_of commitment.now chunk.now) }
    ensures { IfOk result (λ checked. checked ≡ checked_of H.digest_of commitment.now chunk.now) }
{
    let checked = ReedSolomon::<H>::check(
        alloc,
        &commitment.config,
        &commitment.root,
        chunk.index(),
        chunk,
        strategy,
    );
    match checked {
        Ok(checked) => Ok(checked),
        Err(ReedSolomonError::NoMemory) => Err(NoMemory),
        Err(_) => unreachable!(),
    }
}

// The chunk goes to the end of those that were checked.
fn add_checked<H: Hasher<Digest = Digest32>, S: Strategy>(
    all: &mut Vec<CheckedChunk<H>>,
    alloc: Global,
    commitment: &Commitment,
    chunk: &Chunk<Digest32>,
    strategy: &S,
) -> Result<(), NoMemory>
    requires few { total_of commitment.now.config ≤ 65535 }
    requires under { IsTrue (is_under_root H.digest_of commitment.now chunk.now) }
    ensures { OnOk result (all.new.items
        ≡ all.old.items ++ checked_of H.digest_of commitment.now chunk.now ∷ []) }
{
    let checked = checked::<H, S>(alloc, commitment, chunk, strategy)?;
    all.push(checked)?;
    Ok(())
}

// What a slice holds is bytes.
fn are_bytes(shard: &[u8])
    ensures { AreBytes shard.now }
{
    let _shard = shard;
}

/// The chunks, each of which stands under the commitment, with their digests.
pub(crate) fn checked_all<H: Hasher<Digest = Digest32>, S: Strategy>(
    alloc: Global,
    commitment: &Commitment,
    chunks: &[&Chunk<Digest32>],
    strategy: &S,
) -> Result<Vec<CheckedChunk<H>>, NoMemory>
    requires few { total_of commitment.now.config ≤ 65535 }
    requires under { AreUnder H.digest_of commitment.now (map (λ chunk. chunk.now) chunks.now) }
    ensures checked { IfOk result
        (λ checked. checked.items
        ≡ map (checked_of H.digest_of commitment.now) (map (λ chunk. chunk.now) chunks.now)) }
    ensures bytes { IfOk result (λ _. AreByteChunks (map (λ chunk. chunk.now) chunks.now)) }
{
    let mut all = Vec::new(alloc);
    for chunk in chunks {
        are_bytes(chunk.shard());
        match add_checked::<H, S>(&mut all, alloc, commitment, chunk, strategy) {
            Ok(()) => {}
            Err(error) => {
                drop(all);
                return Err(error);
            }
        }
    }
    Ok(all)
}
