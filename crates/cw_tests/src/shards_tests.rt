//! Tests of chunks that come: which are kept, which hold their block, and what shows none.

ghost use Rattle.std.specs.Prelude.{◌≡◌, IfOk, length};

use bytes::Bytes;
use cw_base::{Config, Digest32, Hasher, Items, Sequential, Sha256, SumHasher};
use cw_coding::Chunk;
use cw_tree::bmt::{Builder, Tree};
use cw_types::{ChainBlock, Commitment, Committees, Context, Payload, genesis_commitment};
use shards::{Shards, Verdict, cut_block};
use std::alloc::Global;
use std::num::NonZeroU16;
use std::test::Fail;
use std::thread::Threads;

const ROWS: [[u8; 4]; 4] = [[0, 0, 0, 1], [1, 0, 0, 0], [2, 0, 0, 4], [3, 0, 0, 2]];

// the tree over the digests of four rows that are no codeword
fn tree(alloc: Global) -> Result<Tree<Sha256>, Fail>
    ensures { IfOk result (λ tree. length tree ≡ 4) }
{
    let mut digests = Items::new(alloc);
    digests.push(Sha256::hash(&ROWS[0]))?;
    digests.push(Sha256::hash(&ROWS[1]))?;
    digests.push(Sha256::hash(&ROWS[2]))?;
    digests.push(Sha256::hash(&ROWS[3]))?;
    Ok(Builder::<Sha256>::of(digests).build(alloc)?)
}

// the row of that place, with its way up
fn row(alloc: Global, at: u16) -> Result<Chunk<Digest32>, Fail> {
    if at >= 4 {
        return Err("a place of four".into());
    }
    let proof = tree(alloc)?.proof(alloc, u32::from(at))?;
    let shard = Bytes::copy_from_slice(alloc, &ROWS[usize::from(at)])?;
    Ok(Chunk::new(shard, at, proof))
}

// what a commitment with that root names, where blocks are cut in two and two
fn under(root: Digest32, minimum: NonZeroU16) -> Commitment {
    let two = NonZeroU16::MIN.saturating_add(1);
    Commitment {
        block: Digest32([7; 32]),
        root,
        context: Digest32([8; 32]),
        config: Config {
            minimum_shards: minimum,
            extra_shards: two,
        },
    }
}

// whether that verdict is given
fn gives<H: Hasher<Digest = Digest32>, R: Threads + Sync>(
    rt: &R,
    shards: &mut Shards<H>,
    commitment: &Commitment,
    chunk: Chunk<Digest32>,
    want: &Verdict,
) -> Result<bool, Fail> {
    Ok(shards.take(rt, commitment, chunk, &Sequential)? == *want)
}

// nothing is kept yet, in a cluster of four
fn four<H: Hasher<Digest = Digest32>>(alloc: Global) -> Result<Shards<H>, Fail> {
    Ok(Shards::new(alloc, Committees::single(alloc, 4)?))
}

// the verdict on the row of that place
fn told<R: Threads + Sync>(
    rt: &R,
    alloc: Global,
    shards: &mut Shards<Sha256>,
    commitment: &Commitment,
    at: u16,
) -> Result<String, Fail> {
    let row = row(alloc, at)?;
    let verdict = shards.take(rt, commitment, row, &Sequential)?;
    Ok(format!(in alloc; "{verdict:?} ")?)
}

// the verdicts on the rows of these places
fn verdicts<R: Threads + Sync>(
    rt: &R,
    alloc: Global,
    commitment: &Commitment,
    places: &[u16],
) -> Result<String, Fail> {
    let mut shards = four::<Sha256>(alloc)?;
    let mut text = String::new(alloc);
    for at in places {
        text.push_str(&told(rt, alloc, &mut shards, commitment, *at)?)?;
    }
    Ok(text)
}

#[test]
fn rows_that_are_no_codeword_show_no_block(rt: HostRuntime) -> Result<(), Fail> {
    let two = NonZeroU16::MIN.saturating_add(1);
    let commitment = under(tree(rt.alloc())?.root(), two);
    let said = verdicts(&rt, rt.alloc(), &commitment, &[0, 1, 2, 0])?;
    assert_eq!(rt; said.as_str(), "Kept Garbage Kept Known ");
    Ok(())
}

#[test]
fn a_chunk_of_another_config_or_root_is_foreign(rt: HostRuntime) -> Result<(), Fail> {
    let one = NonZeroU16::MIN;
    let root = tree(rt.alloc())?.root();
    for commitment in [
        under(root, one),
        under(Digest32([9; 32]), one.saturating_add(1)),
    ] {
        let said = verdicts(&rt, rt.alloc(), &commitment, &[0])?;
        assert_eq!(rt; said.as_str(), "Foreign ");
    }
    Ok(())
}

// the chunks that are kept of a commitment, each with its index
fn kept(alloc: Global, shards: &Shards<Sha256>, commitment: &Commitment) -> Result<String, Fail> {
    let mut text = String::new(alloc);
    match shards.kept(commitment) {
        Some(chunks) => {
            for (index, chunk) in chunks.iter() {
                text.push_str(&format!(in alloc; "{index} {:?} ", chunk.shard())?)?;
            }
        }
        None => text.push_str("none")?,
    }
    Ok(text)
}

#[test]
fn kept_chunks_are_found_by_index(rt: HostRuntime) -> Result<(), Fail> {
    let two = NonZeroU16::MIN.saturating_add(1);
    let commitment = under(tree(rt.alloc())?.root(), two);
    let mut shards = four::<Sha256>(rt.alloc())?;
    for at in 0..3 {
        told(&rt, rt.alloc(), &mut shards, &commitment, at)?;
    }
    let all = kept(rt.alloc(), &shards, &commitment)?;
    assert_eq!(rt;
        all.as_str(),
        "0 [0, 0, 0, 1] 1 [1, 0, 0, 0] 2 [2, 0, 0, 4] "
    );
    let other = under(Digest32([9; 32]), two);
    assert_eq!(rt; kept(rt.alloc(), &shards, &other)?.as_str(), "none");
    Ok(())
}

// the block of view 1 over the first one with the payload "hi"
fn block(alloc: Global) -> Result<ChainBlock, Fail> {
    let context = Context {
        epoch: 0,
        view: 1,
        leader: 1,
        parent_view: 0,
        parent: genesis_commitment::<SumHasher>(),
    };
    match Payload::new([104u8, 105].to_vec(alloc)?) {
        Ok(payload) => Ok(ChainBlock::new(context, Digest32([2; 32]), 1, payload)),
        Err(_) => Err("a short payload".into()),
    }
}

fn cut<R: Threads + Sync>(
    rt: &R,
    alloc: Global,
) -> Result<(Commitment, Vec<Chunk<Digest32>>), Fail> {
    let committees = Committees::single(alloc, 4)?;
    Ok(cut_block::<SumHasher, R, Sequential>(rt, alloc, &committees, &block(alloc)?, &Sequential)?)
}

// whether these two chunks of the block hold it, at the second
fn hold<R: Threads + Sync>(
    rt: &R,
    alloc: Global,
    commitment: &Commitment,
    first: &Chunk<Digest32>,
    second: &Chunk<Digest32>,
) -> Result<bool, Fail> {
    let mut shards = four::<SumHasher>(alloc)?;
    let kept = gives(
        rt,
        &mut shards,
        commitment,
        first.copy(alloc)?,
        &Verdict::Kept,
    )?;
    let held = Verdict::Held(block(alloc)?);
    Ok(kept && gives(rt, &mut shards, commitment, second.copy(alloc)?, &held)?)
}

#[test]
fn any_two_chunks_hold_their_block(rt: HostRuntime) -> Result<(), Fail> {
    let (commitment, chunks) = cut(&rt, rt.alloc())?;
    assert!(rt; chunks.len() == 4 && commitment.block == Digest32([216; 32]));
    for first in &chunks {
        for second in &chunks {
            let other = first.index() != second.index();
            assert!(rt; !other || hold(&rt, rt.alloc(), &commitment, first, second)?);
        }
    }
    Ok(())
}
