//! Shards that are put under a tree by hand: their chunks check, and are not decoded.

ghost use Rattle.std.specs.Prelude.{◌≡◌, ◌<◌, ◌≤◌, length, IfOk};

use super::*;
use bytes::Bytes;
use cw_base::{Digest32, Reader, Strategy};
use cw_tree::bmt::{Builder, Tree};

// The tree over the digests of shards.
fn tree_over(alloc: Global, shards: &[Vec<u8>]) -> Result<Tree<Sha256>, Fail>
    requires some { 0 < length shards.now }
    requires few { length shards.now ≤ 65535 }
    ensures { IfOk result (λ tree. length tree ≡ length shards.now) }
{
    let mut builder = Builder::<Sha256>::new(alloc, shards.len())?;
    for shard in shards {
        builder.add(&Sha256::hash(shard))?;
    }
    Ok(builder.build(alloc)?)
}

// The chunk of a shard under a tree, as it is read from its bytes.
fn planted(
    alloc: Global,
    config: &Config,
    tree: &Tree<Sha256>,
    shard: &[u8],
    index: u16,
    maximum: usize,
) -> Result<Chunk<Digest32>, Fail>
    requires { index < length tree.now }
{
    let proof = tree.proof(alloc, u32::from(index))?;
    let mut bytes = Vec::new(alloc);
    let shard = Bytes::copy_from_slice(alloc, shard)?;
    Chunk::new(shard, index, proof).write(&mut bytes)?;
    Ok(Chunk::read(alloc, &mut Reader::new(&bytes), config, maximum)?)
}

// The root over shards, and their chunks as they are checked under it.
fn put_under_a_tree(
    alloc: Global,
    config: Config,
    shards: &[Vec<u8>],
    maximum: usize,
) -> Result<Coded<Sha256>, Fail> {
    if shards.is_empty() || shards.len() > 65535 {
        return Err(Fail::from("no tree"));
    }
    let tree = tree_over(alloc, shards)?;
    let mut chunks = Vec::new(alloc);
    for i in 0..shards.len() {
        chunks.push(planted(alloc, &config, &tree, &shards[i], i as u16, maximum)?)?;
    }
    let root = tree.root();
    let checked = checked::<Sha256>(alloc, &config, &root, &chunks)?;
    Ok(Coded {
        config,
        root,
        chunks,
        checked,
    })
}

// Four rows that are no codeword.
fn four_rows(alloc: Global) -> Result<Vec<Vec<u8>>, Fail> {
    let mut shards = Vec::new(alloc);
    for shard in [[0u8, 0, 0, 1], [1, 0, 0, 0], [2, 0, 0, 4], [3, 0, 0, 2]] {
        shards.push(shard.to_vec(alloc)?)?;
    }
    Ok(shards)
}

#[test]
fn rows_that_are_no_codeword_check_and_do_not_decode(rt: HostRuntime) -> Result<(), Fail> {
    let shards = four_rows(rt.alloc())?;
    let four = put_under_a_tree(rt.alloc(), config(2, 2), &shards, 1)?;
    assert_eq!(rt; four.checked.len(), 4);
    for indices in [[0, 1].as_slice(), &[0, 3, 2]] {
        let answer = decoded(&rt, rt.alloc(), &four, indices);
        assert_eq!(rt; answer.err(), Some(ReedSolomonError::Inconsistent));
    }
    Ok(())
}

// Shards of eight widths that fall, and many of two bytes.
fn many_widths(alloc: Global) -> Result<Vec<Vec<u8>>, Fail> {
    let mut shards = Vec::new(alloc);
    for i in 0u8..64 {
        let width = if i < 8 { 8192 - 64 * usize::from(i) } else { 2 };
        shards.push(vec![in alloc; i; width]?)?;
    }
    Ok(shards)
}

// Whether many chunks check at once as each of them did alone.
fn check_at_once<R: Threads + Sync, S: Strategy>(
    rt: &R,
    alloc: Global,
    coded: &Coded<Sha256>,
    indices: &[u16],
    strategy: &S,
) -> Result<bool, ReedSolomonError> {
    if indices.len() != coded.chunks.len() {
        return Ok(false);
    }
    let answers = Rs::check_many(
        rt,
        alloc,
        &coded.config,
        &coded.root,
        indices,
        &coded.chunks,
        strategy,
    )?;
    let mut pairs = answers.iter().zip(coded.checked.iter());
    Ok(answers.len() == 64 && pairs.all(|(answer, alone)| answer.as_ref().ok() == Some(alone)))
}

#[test]
fn shards_of_many_widths_check_and_do_not_decode(rt: HostRuntime) -> Result<(), Fail> {
    let shards = many_widths(rt.alloc())?;
    let many = put_under_a_tree(rt.alloc(), config(32, 32), &shards, 262_140)?;
    let mut indices = downwards(rt.alloc(), 64)?;
    indices.reverse();
    assert!(rt; check_at_once(&rt, rt.alloc(), &many, &indices, &Sequential)?);
    let gate = FourPieces::new();
    assert!(rt; check_at_once(&rt, rt.alloc(), &many, &indices, &gate)?);
    assert_eq!(rt; gate.passed(), 1);
    let answer = decoded(&rt, rt.alloc(), &many, &indices);
    assert_eq!(rt; answer.err(), Some(ReedSolomonError::Inconsistent));
    Ok(())
}
