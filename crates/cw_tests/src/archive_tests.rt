//! Tests of the archive: what its limit lets it keep, and what it refuses.

use cw_archive::{Archive, Put};
use cw_base::{Digest32, Sequential, Sha256};
use cw_coding::Chunk;
use cw_types::{ChainBlock, Commitment, Committees, Context, Payload, genesis_commitment};
use shards::cut_block;
use std::alloc::Global;
use std::test::Fail;
use std::thread::Threads;

// the block of view 1 over the first one with the payload "hi", 169 bytes
fn block(alloc: Global) -> Result<ChainBlock, Fail> {
    let context = Context {
        epoch: 0,
        view: 1,
        leader: 1,
        parent_view: 0,
        parent: genesis_commitment::<Sha256>(),
    };
    match Payload::new([104u8, 105].to_vec(alloc)?) {
        Ok(payload) => Ok(ChainBlock::new(context, Digest32([2; 32]), 1, payload)),
        Err(_) => Err("a short payload".into()),
    }
}

// its commitment in a cluster of four, and its four chunks, whose shards have 88 bytes
fn cut<R: Threads + Sync>(
    rt: &R,
    alloc: Global,
) -> Result<(Commitment, Vec<Chunk<Digest32>>), Fail> {
    let committees = Committees::single(alloc, 4)?;
    Ok(cut_block::<Sha256, R, Sequential>(rt, alloc, &committees, &block(alloc)?, &Sequential)?)
}

// the answers of an archive to the four, put in order, and to the first once more
fn put_all<R: Threads + Sync>(
    rt: &R,
    alloc: Global,
    archive: &mut Archive<Sha256>,
    commitment: &Commitment,
    chunks: &[Chunk<Digest32>],
) -> Result<Vec<Put>, Fail> {
    let mut answers = Vec::new(alloc);
    for at in [0usize, 1, 2, 3, 0] {
        let Some(chunk) = chunks.get(at) else {
            return Err("four chunks".into());
        };
        answers.push(archive.put(rt, commitment, chunk.copy(alloc)?, &Sequential)?)?;
    }
    Ok(answers)
}

// whether an archive gives the block
fn gives<R: Threads + Sync>(
    rt: &R,
    alloc: Global,
    archive: &Archive<Sha256>,
    commitment: &Commitment,
) -> Result<bool, Fail> {
    let block = block(alloc)?;
    Ok(archive.get(rt, alloc, commitment, &Sequential)? == Some(block))
}

// what an archive of that limit answers to each of them, the bytes and the chunks that it has then,
// and whether it gives the block
fn filled<R: Threads + Sync>(rt: &R, alloc: Global, limit: u64) -> Result<String, Fail> {
    let (commitment, chunks) = cut(rt, alloc)?;
    let mut archive = Archive::<Sha256>::new(alloc, limit)?;
    let answers = put_all(rt, alloc, &mut archive, &commitment, &chunks)?;
    let found = gives(rt, alloc, &archive, &commitment)?;
    let (used, count) = (archive.used(), archive.count(&commitment));
    Ok(format!(in alloc; "{answers:?} {used} {count} {found}")?)
}

#[test]
fn the_oldest_leave(rt: HostRuntime) -> Result<(), Fail> {
    for (limit, want) in [
        (
            87,
            "[TooLarge, TooLarge, TooLarge, TooLarge, TooLarge] 0 0 false",
        ),
        (100, "[Kept, Kept, Kept, Kept, Kept] 88 1 false"),
        (200, "[Kept, Kept, Kept, Kept, Kept] 176 2 true"),
        (1000, "[Kept, Kept, Kept, Kept, Known] 352 4 true"),
    ] {
        let said = filled(&rt, rt.alloc(), limit)?;
        assert_eq!(rt; said.as_str(), want, "limit {limit}");
    }
    Ok(())
}

#[test]
fn a_chunk_under_another_root_is_foreign(rt: HostRuntime) -> Result<(), Fail> {
    let (commitment, chunks) = cut(&rt, rt.alloc())?;
    let root = Digest32([9; 32]);
    let other = Commitment { root, ..commitment };
    let mut archive = Archive::<Sha256>::new(rt.alloc(), 1000)?;
    let answers = put_all(&rt, rt.alloc(), &mut archive, &other, &chunks)?;
    assert!(rt; answers.as_slice() == [Put::Foreign; 5].as_slice() && archive.used() == 0);
    Ok(())
}
