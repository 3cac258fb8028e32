//! Blocks, certificates and disks for the tests of a store.

use cw_base::{Digest32, Items, Sequential, SumHasher};
use cw_types::{
    Cert, ChainBlock, Commitment, Context, Height, Payload, Proposal, Vote, commit, genesis,
    genesis_commitment,
};
use std::alloc::Global;
use std::test::Fail;
use std::thread::Threads;

/// A block and what names it among four members.
#[derive(Drop)]
pub(crate) struct Made {
    pub block: ChainBlock,
    pub commitment: Commitment,
}

/// The block of a height, in a view, over another, whose payload is one byte 97 times.
fn block_in<R: Threads + Sync>(
    rt: &R,
    alloc: Global,
    height: u64,
    view: u64,
    below: &Commitment,
    byte: u8,
) -> Result<Made, Fail> {
    let context = Context {
        epoch: 0,
        view,
        leader: (view % 4) as u16,
        parent_view: view.saturating_sub(1),
        parent: *below,
    };
    let Ok(payload) = Payload::new(vec![in alloc; byte; 97]?) else {
        return Err("a short payload".into());
    };
    if height == u64::MAX {
        return Err("a height that a block may have".into());
    }
    let block = ChainBlock::new(context, below.block, height, payload);
    let commitment = commit::<SumHasher, R, Sequential>(rt, alloc, 4, &block, &Sequential)?;
    Ok(Made { block, commitment })
}

/// The first block, and the blocks of these heights, each in the view of its number and over the
/// one before it.
pub(crate) fn chain<R: Threads + Sync>(
    rt: &R,
    alloc: Global,
    first: u64,
    last: u64,
) -> Result<Vec<Made>, Fail> {
    let mut blocks = Vec::new(alloc);
    blocks.push(first_block(alloc))?;
    let mut below = genesis_commitment::<SumHasher>();
    for height in first..=last {
        let made = block_in(rt, alloc, height, height, &below, (height % 256) as u8)?;
        below = made.commitment;
        blocks.push(made)?;
    }
    Ok(blocks)
}

/// The same, and a block of height 5 and view 5 over the first block behind them.
pub(crate) fn chain_and_one<R: Threads + Sync>(
    rt: &R,
    alloc: Global,
    first: u64,
    last: u64,
) -> Result<Vec<Made>, Fail> {
    let mut blocks = chain(rt, alloc, first, last)?;
    blocks.push(block_in(rt, alloc, 5, 5, &genesis_commitment::<SumHasher>(), 7)?)?;
    Ok(blocks)
}

/// The first block, and two of height 1 and view 1.
pub(crate) fn rivals<R: Threads + Sync>(rt: &R, alloc: Global) -> Result<Vec<Made>, Fail> {
    let mut blocks = Vec::new(alloc);
    blocks.push(first_block(alloc))?;
    for byte in 7..9u8 {
        blocks.push(block_in(rt, alloc, 1, 1, &genesis_commitment::<SumHasher>(), byte)?)?;
    }
    Ok(blocks)
}

fn first_block(alloc: Global) -> Made {
    Made {
        block: genesis::<SumHasher>(alloc),
        commitment: genesis_commitment::<SumHasher>(),
    }
}

/// The block at a place of a chain.
pub(crate) fn at(blocks: &[Made], place: usize) -> Result<&Made, Fail> {
    match blocks.get(place) {
        Some(made) => Ok(made),
        None => Err("a block at that place".into()),
    }
}

/// The proposal of a block in a view.
pub(crate) fn proposal(blocks: &[Made], place: usize, view: u64) -> Result<Proposal, Fail> {
    let made = at(blocks, place)?;
    Ok(Proposal {
        epoch: 0,
        view,
        parent: made.block.context().parent_view,
        payload: made.commitment,
    })
}

/// The certificate of a vote by members 0, 1 and 2.
pub(crate) fn signed(alloc: Global, vote: Vote) -> Result<Cert, Fail> {
    let signers = Items::from_vec(vec![in alloc; 0, 1, 2]?);
    Ok(Cert { vote, signers })
}

/// The view of the block at a place, and 0 where there is none.
pub(crate) fn view_of(blocks: &[Made], place: usize) -> u64 {
    match blocks.get(place) {
        Some(made) => made.block.context().view,
        None => 0,
    }
}

/// The place of the block under a commitment.
pub(crate) fn named(blocks: &[Made], commitment: &Commitment) -> Result<usize, Fail> {
    match blocks
        .iter()
        .position(|made| made.commitment == *commitment)
    {
        Some(place) => Ok(place),
        None => Err("a commitment of the list".into()),
    }
}

/// The place of a block.
pub(crate) fn place_among(blocks: &[Made], block: &ChainBlock) -> Result<usize, Fail> {
    match blocks.iter().position(|made| *block == made.block) {
        Some(place) => Ok(place),
        None => Err("a block of the list".into()),
    }
}

/// The place of a block that is told with its height and its digest.
pub(crate) fn place_of(
    blocks: &[Made],
    info: (Height, Digest32),
    block: &ChainBlock,
) -> Result<usize, Fail> {
    let place = place_among(blocks, block)?;
    let made = at(blocks, place)?;
    if info != (Height::new(made.block.height()), made.commitment.block) {
        return Err("the height and the digest of the block".into());
    }
    Ok(place)
}
