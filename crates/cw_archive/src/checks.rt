//! Whether chunks check under commitments.

ghost use Rattle.std.specs.Prelude.{◌≡◌, ◌≤◌, IfOk, None, Some, if◌then◌else◌, map};
ghost use Rattle.cw_rules.specs.Coding.{AreByteChunks, AreBytes};
ghost use Rattle.cw_archive.specs.Archived.{checks};
ghost use Rattle.cw_archive.specs.Showing.{AreChecked};
ghost use Rattle.shards.specs.Enough.{checked_of};

use cw_base::{Digest32, Hasher, NoMemory, Strategy};
use cw_coding::{CheckedChunk, Chunk, ReedSolomon, ReedSolomonError, Scheme};
use cw_types::Commitment;
use std::alloc::Global;

/// The chunk with its digest, where it checks under the commitment's root and config at its own
/// index.
pub(crate) fn checked<H: Hasher<Digest = Digest32>, S: Strategy>(
    alloc: Global,
    commitment: &Commitment,
    chunk: &Chunk<Digest32>,
    strategy: &S,
) -> Result<Option<CheckedChunk<H>>, NoMemory>
    ensures { IfOk result (λ checked. checked ≡ (if checks H.digest_of commitment.now chunk.now
        then Some (checked_of H.digest_of commitment.now chunk.now) else None)) }
{
    let checked = ReedSolomon::<H>::check(
        alloc,
        &commitment.config,
        &commitment.root,
        chunk.index(),
        chunk,
        strategy,
    );
    match checked {
        Ok(checked) => Ok(Some(checked)),
        Err(ReedSolomonError::NoMemory) => Err(NoMemory),
        Err(_) => Ok(None),
    }
}

/// A law: what a slice holds is bytes.
pub(crate) fn are_bytes(shard: &[u8])
    ensures { AreBytes shard.now }
{
    let _shard = shard;
}

/// The chunks, each of which checks under the commitment, with their digests.
pub(crate) fn checked_all<H: Hasher<Digest = Digest32>, S: Strategy>(
    alloc: Global,
    commitment: &Commitment,
    chunks: &[&Chunk<Digest32>],
    strategy: &S,
) -> Result<Vec<CheckedChunk<H>>, NoMemory>
    requires { AreChecked H.digest_of commitment.now (map (λ chunk. chunk.now) chunks.now) }
    ensures checked { IfOk result
        (λ checked. checked.items
        ≡ map (checked_of H.digest_of commitment.now) (map (λ chunk. chunk.now) chunks.now)) }
    ensures bytes { IfOk result (λ _. AreByteChunks (map (λ chunk. chunk.now) chunks.now)) }
{
    let mut all = Vec::new(alloc);
    for chunk in chunks {
        are_bytes(chunk.shard());
        match checked::<H, S>(alloc, commitment, chunk, strategy)? {
            Some(checked) => all.push(checked)?,
            None => unreachable!(),
        }
    }
    Ok(all)
}
