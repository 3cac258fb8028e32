//! Two texts of one root, and two texts of one digest that come of them.

ghost use Rattle.std.specs.Prelude.{◌≡◌, ◌≢◌, ◌⊎◌, ℕ, ◌<◌, ◌↔◌, length, slice_get};
ghost use Rattle.std.specs.Prelude.{IsTrue, IfOk, IsSome};
ghost use Rattle.std.specs.Prelude.{IfErr, IfSome, IfNone, MatchBool, MatchOption, Some};
ghost use Rattle.cw_tree.specs.Chunks.{Piece};
ghost use Rattle.cw_coding.specs.Encoding.{IsEncodable, IsEncodeRefusal, root_of_text};
ghost use Rattle.cw_coding.specs.Clash.{AreTold, AreAlike, AreRivals, AreClash, IsFirstClash};
ghost use Rattle.cw_coding.specs.Clash.{way_of};

use crate::encoding::encode_text;
use crate::error::ReedSolomonError;
use cw_base::{Config, Digest, Hasher, Items, NoMemory, Strategy};
use cw_tree::Chunk;
use rs_code::laws::prove_rows;
use std::alloc::Global;
use std::thread::Threads;

/// Two different texts of one digest, where two different inputs have one commitment under a
/// config.
///
/// `None` exactly where the inputs are equal or the commitments differ. Else the lowest index whose
/// shards differ is taken; on the way from the shard up to the commitment, what is given are the
/// first two texts that were hashed for the two inputs, differ and have one digest. So whoever
/// shows two inputs of one commitment has broken the hash function.
///
/// Refused as `encode` refuses `first`, and else as it refuses `second`. `NoMemory` may come at any
/// point.
pub fn find_clash<H: Hasher, R: Threads + Sync, S: Strategy>(
    rt: &R,
    alloc: Global,
    config: &Config,
    first: &[u8],
    second: &[u8],
    strategy: &S,
) -> Result<Option<(Vec<u8>, Vec<u8>)>, ReedSolomonError>
    ensures taken { IfOk result (λ _. IsEncodable config.now (length first.now)
        × IsEncodable config.now (length second.now)) }
    ensures collision { IfOk result (λ found. IfSome found (λ clash.
        (clash.0.items ≢ clash.1.items)
        × (H.digest_of clash.0.items ≡ H.digest_of clash.1.items))) }
    ensures found { IfOk result (λ found. MatchOption found
        ((first.now ≡ second.now)
        ⊎ (root_of_text H.digest_of H.Digest.content config.now first.now ≢ root_of_text H.digest_of
        H.Digest.content config.now second.now))
        (λ clash. AreClash H.digest_of H.Digest.content config.now first.now second.now
        clash.0.items clash.1.items)) }
    ensures refused { IfErr result (λ e. IsEncodeRefusal config.now (length first.now) e
        ⊎ (IsEncodable config.now (length first.now)
        × IsEncodeRefusal config.now (length second.now) e)) }
{
    let (root, ours) = match encode_text::<H, R, S>(rt, alloc, config, first, strategy) {
        Ok(encoded) => encoded,
        Err(error) => return Err(error),
    };
    let (other_root, theirs) = match encode_text::<H, R, S>(rt, alloc, config, second, strategy) {
        Ok(encoded) => encoded,
        Err(error) => return Err(error),
    };
    if same_bytes(first, second) || !root.is_same(&other_root) {
        return Ok(None);
    }
    prove_rows();
    let Some(index) = first_difference(&ours, &theirs) else {
        unreachable!();
    };
    let clash = clash_of::<H>(alloc, &ours[index], &theirs[index])?;
    Ok(Some(clash))
}

// The first index at which chunks have different shards.
fn first_difference<D>(ours: &[Chunk<D>], theirs: &[Chunk<D>]) -> Option<usize>
    requires lengths { length ours.now ≡ length theirs.now }
    ensures none { IfNone result (AreAlike (length ours.now) ours.now theirs.now) }
    ensures within { IfSome result (λ i. i < length ours.now) }
    ensures differ { IfSome result (λ i. (p q : Piece D) → slice_get ours.now i ≡ Some p
        → slice_get theirs.now i ≡ Some q → p.shard ≢ q.shard) }
    ensures before { IfSome result (λ i. AreAlike i ours.now theirs.now) }
{
    for i in 0..ours.len() {
        if !same_bytes(ours[i].shard(), theirs[i].shard()) {
            return Some(i);
        }
    }
    None
}

// The first two different texts of one digest that are hashed from two chunks.
fn clash_of<H: Hasher>(
    alloc: Global,
    ours: &Chunk<H::Digest>,
    theirs: &Chunk<H::Digest>,
) -> Result<(Vec<u8>, Vec<u8>), NoMemory>
    requires { AreRivals H.digest_of H.Digest.content ours.now theirs.now }
    ensures { IfOk result (λ found. IsFirstClash H.digest_of H.Digest.content ours.now theirs.now
        found.0.items found.1.items) }
{
    let ours = way_from_chunk::<H>(alloc, ours)?;
    let theirs = way_from_chunk::<H>(alloc, theirs)?;
    let Some(place) = first_collision::<H>(&ours, &theirs) else {
        unreachable!();
    };
    let one = Vec::from_slice(alloc, ours[place].as_slice())?;
    let other = Vec::from_slice(alloc, theirs[place].as_slice())?;
    Ok((one, other))
}

// All that is hashed from a chunk up to a root that it leads to.
fn way_from_chunk<H: Hasher>(
    alloc: Global,
    chunk: &Chunk<H::Digest>,
) -> Result<Vec<Items<u8>>, NoMemory>
    requires leads { IsSome (way_of H.digest_of H.Digest.content chunk.now) }
    ensures { IfOk result
        (λ texts. way_of H.digest_of H.Digest.content chunk.now ≡ Some texts.items) }
{
    let shard = Vec::from_slice(alloc, chunk.shard())?;
    let digest = H::hash(&shard);
    let index = u32::from(chunk.index());
    let Some(above) = chunk.proof().hashed_texts::<H>(alloc, &digest, index)? else {
        unreachable!();
    };
    let mut texts = above;
    texts.insert(0, Items::from_vec(shard))?;
    Ok(texts)
}

// The first place at which two ways have different texts of one digest.
fn first_collision<H: Hasher>(ours: &[Items<u8>], theirs: &[Items<u8>]) -> Option<usize>
    requires lengths { length ours.now ≡ length theirs.now }
    ensures none { IfNone result (AreTold H.digest_of (length ours.now) ours.now theirs.now) }
    ensures within { IfSome result (λ p. p < length ours.now) }
    ensures collide { IfSome result (λ p. (a b : _) → slice_get ours.now p ≡ Some a
        → slice_get theirs.now p ≡ Some b →
        (a ≢ b) × (H.digest_of a ≡ H.digest_of b)) }
    ensures before { IfSome result (λ p. AreTold H.digest_of p ours.now theirs.now) }
{
    for p in 0..ours.len() {
        if collide::<H>(ours[p].as_slice(), theirs[p].as_slice()) {
            return Some(p);
        }
    }
    None
}

// Whether two texts differ and have one digest.
fn collide<H: Hasher>(one: &[u8], other: &[u8]) -> bool
    ensures { MatchBool result
        ((one.now ≢ other.now) × (H.digest_of one.now ≡ H.digest_of other.now))
        (H.digest_of one.now ≡ H.digest_of other.now → one.now ≡ other.now) }
{
    if same_bytes(one, other) {
        return false;
    }
    H::hash(one).is_same(&H::hash(other))
}

fn same_bytes(first: &[u8], second: &[u8]) -> bool
    ensures { IsTrue result ↔ (first.now ≡ second.now) }
{
    first == second
}
