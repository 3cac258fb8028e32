//! The chunks that are decoded: which fit together, and in which order they are used.

ghost use Rattle.std.specs.Prelude.{◌≡◌, ℕ, ◌+◌, ◌-◌, ◌*◌, ◌^◌, ◌<◌, ◌≤◌, ◌==◌};
ghost use Rattle.std.specs.Prelude.{[], ◌∷◌, ◌++◌, ◌↔◌, ◌⊎◌};
ghost use Rattle.std.specs.Prelude.{List, length, take, map, filter, nat_lt, not, if◌then◌else◌};
ghost use Rattle.std.specs.Prelude.{IfOk, OnOk, IsTrue, MatchOption, MatchResult};
ghost use Rattle.std.specs.List.{flat_map};
ghost use Rattle.std.specs.Iterator.{IsFinite, Drains};
ghost use Rattle.cw_coding.specs.Checked.{Checked};
ghost use Rattle.cw_coding.specs.Totals.{IsWidth};
ghost use Rattle.cw_coding.specs.Decoding.{IsMisfit, IsFirstMisfit, FitTogether, IsChunkRefusal};
ghost use Rattle.cw_coding.specs.Decoding.{AreDecodable, indices_of, in_order, compared, width_of};

use crate::checking::CheckedChunk;
use crate::error::{ReedSolomonError, RsError};
use cw_base::{Config, Digest, Hasher, NoMemory, put_bytes};
use std::alloc::Global;

// The chunks that an iterator gives, which share their bytes with those.
pub(crate) fn gathered<'a, H: Hasher + 'a, I: Iterator<Item = &'a CheckedChunk<H>> + Drop>(
    alloc: Global,
    shards: I,
) -> Result<Vec<CheckedChunk<H>>, NoMemory>
    requires can { I.can_next shards }
    requires ends { IsFinite (I.remaining shards) }
    ensures { IfOk result (λ v. (given : _) × Drains I.next_gives shards given
        × (v.items ≡ map (λ chunk. chunk.now) given)) }
{
    let mut chunks = Vec::new(alloc);
    for chunk in shards {
        chunks.push(chunk.copy(alloc)?)?;
    }
    Ok(chunks)
}

// The width of chunks that can be decoded.
pub(crate) fn decodable<H: Hasher>(
    alloc: Global,
    config: &Config,
    root: &H::Digest,
    shards: &[CheckedChunk<H>],
) -> Result<usize, ReedSolomonError>
    ensures { MatchResult result
        (λ w. (w ≡ width_of shards.now) × AreDecodable config.now root.now shards.now)
        (λ e. (e ≡ ReedSolomonError.NoMemory)
        ⊎ IsChunkRefusal config.now root.now shards.now e) }
{
    let total = config.total_shards();
    if total > 65535 {
        return Err(ReedSolomonError::TooManyTotalShards(total));
    }
    let Some(width) = first_width::<H>(shards) else {
        return Err(ReedSolomonError::NotEnoughChunks);
    };
    if !is_width(total, width) {
        return Err(ReedSolomonError::ReedSolomon(RsError::InvalidShardSize { shard_bytes: width }));
    }
    if let Err(error) = fitting::<H>(alloc, total, root, width, shards) {
        return Err(error);
    }
    if shards.len() < usize::from(config.minimum()) {
        return Err(ReedSolomonError::NotEnoughChunks);
    }
    Ok(width)
}

// Chunks of one width in the order in which they are used.
#[derive(Drop)]
pub(crate) struct Given<H: Hasher> {
    pub(crate) width: usize,
    pub(crate) indices: Vec<u16>,
    pub(crate) rows: Vec<u8>,
    pub(crate) digests: Vec<H::Digest>,
    pub(crate) compared: usize,
}

pub(crate) fn ordered<H: Hasher>(
    alloc: Global,
    k: u16,
    width: usize,
    shards: &[CheckedChunk<H>],
) -> Result<Given<H>, NoMemory>
    ensures width { IfOk result (λ given. given.width ≡ width) }
    ensures indices { IfOk result
        (λ given. given.indices.items ≡ indices_of (in_order k shards.now)) }
    ensures rows { IfOk result
        (λ given. given.rows.items ≡ flat_map (λ c. c.shard) (in_order k shards.now)) }
    ensures digests { IfOk result (λ given. given.digests.items
        ≡ map (λ c. H.digest_of c.shard) (in_order k shards.now)) }
    ensures compared { IfOk result (λ given. given.compared ≡ compared k shards.now) }
{
    let mut indices = Vec::new(alloc);
    let mut rows = Vec::with_capacity(alloc, shards.len().saturating_mul(width))?;
    let mut digests = Vec::new(alloc);
    put_originals::<H>(k, &mut indices, &mut rows, &mut digests, shards)?;
    let compared = compared_of(indices.len(), shards.len(), k);
    put_recoveries::<H>(k, &mut indices, &mut rows, &mut digests, shards)?;
    Ok(Given {
        width,
        indices,
        rows,
        digests,
        compared,
    })
}

// The width of the first chunk.
fn first_width<H: Hasher>(shards: &[CheckedChunk<H>]) -> Option<usize>
    ensures { MatchOption result (length shards.now ≡ 0)
        (λ width. (0 < length shards.now) × (width ≡ width_of shards.now)) }
{
    let first = shards.first()?;
    Some(first.shard().len())
}

// Whether shards can have this width.
fn is_width(total: u32, width: usize) -> bool
    requires { total ≤ 65535 }
    ensures { IsTrue result ↔ IsWidth total width }
{
    width <= 0xffff_ffff && total as usize * width <= isize::MAX as usize
}

// Refuses the first chunk that doesn't fit those before it. The index of each of these is marked.
fn fitting<H: Hasher>(
    alloc: Global,
    total: u32,
    root: &H::Digest,
    width: usize,
    shards: &[CheckedChunk<H>],
) -> Result<(), ReedSolomonError>
    ensures { MatchResult result
        (λ _. FitTogether total root.now width shards.now)
        (λ e. (e ≡ ReedSolomonError.NoMemory)
        ⊎ IsFirstMisfit total root.now width shards.now e) }
{
    let Ok(mut given) = vec![in alloc; false; total as usize] else {
        return Err(ReedSolomonError::NoMemory);
    };
    for chunk in shards {
        if let Err(error) = stray::<H>(total, root, width, chunk) {
            return Err(error);
        }
        let index = usize::from(chunk.index());
        if given[index] {
            return Err(ReedSolomonError::DuplicateIndex(chunk.index()));
        }
        given[index] = true;
    }
    Ok(())
}

// Why a chunk is refused, whatever stands before it.
fn stray<H: Hasher>(
    total: u32,
    root: &H::Digest,
    width: usize,
    chunk: &CheckedChunk<H>,
) -> Result<(), ReedSolomonError>
    ensures { MatchResult result
        (λ _. (chunk.now.root ≡ root.now) × (length chunk.now.shard ≡ width)
        × (chunk.now.index < total))
        (λ e. (before : List (Checked H.Digest)) →
        IsMisfit total root.now width before chunk.now e) }
{
    if !chunk.root().is_same(root) {
        return Err(ReedSolomonError::CommitmentMismatch);
    }
    if chunk.shard().len() != width {
        return Err(ReedSolomonError::Inconsistent);
    }
    let index = chunk.index();
    if u32::from(index) >= total {
        return Err(ReedSolomonError::InvalidIndex(index));
    }
    Ok(())
}

// Adds the originals.
fn put_originals<H: Hasher>(
    k: u16,
    indices: &mut Vec<u16>,
    rows: &mut Vec<u8>,
    digests: &mut Vec<H::Digest>,
    shards: &[CheckedChunk<H>],
) -> Result<(), NoMemory>
    ensures indices { OnOk result
        (indices.new.items ≡ indices.old.items ++ indices_of
        (filter (λ c. nat_lt c.index k) shards.now)) }
    ensures rows { OnOk result
        (rows.new.items ≡ rows.old.items ++ flat_map (λ c. c.shard)
        (filter (λ c. nat_lt c.index k) shards.now)) }
    ensures digests { OnOk result
        (digests.new.items ≡ digests.old.items ++ map (λ c. H.digest_of c.shard)
        (filter (λ c. nat_lt c.index k) shards.now)) }
{
    for chunk in shards {
        put_if::<H>(chunk.index() < k, indices, rows, digests, chunk)?;
    }
    Ok(())
}

// Adds the recoveries.
fn put_recoveries<H: Hasher>(
    k: u16,
    indices: &mut Vec<u16>,
    rows: &mut Vec<u8>,
    digests: &mut Vec<H::Digest>,
    shards: &[CheckedChunk<H>],
) -> Result<(), NoMemory>
    ensures indices { OnOk result
        (indices.new.items ≡ indices.old.items ++ indices_of
        (filter (λ c. not (nat_lt c.index k)) shards.now)) }
    ensures rows { OnOk result
        (rows.new.items ≡ rows.old.items ++ flat_map (λ c. c.shard)
        (filter (λ c. not (nat_lt c.index k)) shards.now)) }
    ensures digests { OnOk result
        (digests.new.items ≡ digests.old.items ++ map (λ c. H.digest_of c.shard)
        (filter (λ c. not (nat_lt c.index k)) shards.now)) }
{
    for chunk in shards {
        put_if::<H>(!(chunk.index() < k), indices, rows, digests, chunk)?;
    }
    Ok(())
}

// Adds a chunk's index, shard and digest, where it is taken.
fn put_if<H: Hasher>(
    taken: bool,
    indices: &mut Vec<u16>,
    rows: &mut Vec<u8>,
    digests: &mut Vec<H::Digest>,
    chunk: &CheckedChunk<H>,
) -> Result<(), NoMemory>
    ensures indices { OnOk result
        (indices.new.items
        ≡ (if taken then indices.old.items ++ chunk.now.index ∷ [] else indices.old.items)) }
    ensures rows { OnOk result
        (rows.new.items ≡ (if taken then rows.old.items ++ chunk.now.shard else rows.old.items)) }
    ensures digests { OnOk result (digests.new.items ≡ (if taken
        then digests.old.items ++ H.digest_of chunk.now.shard ∷ [] else digests.old.items)) }
{
    if taken {
        indices.push(chunk.index())?;
        put_bytes(rows, chunk.shard())?;
        digests.push(chunk.digest())?;
    }
    Ok(())
}

fn compared_of(originals: usize, chunks: usize, k: u16) -> usize
    ensures { result ≡ (if originals == k then chunks else k) }
{
    if originals == usize::from(k) {
        chunks
    } else {
        usize::from(k)
    }
}
