//! Committees, blocks that travel among them, and the votes that members signed on them.

ghost use Rattle.std.specs.Prelude.{◌≡◌, ◌&&◌, ◌==◌};
ghost use Rattle.std.specs.List.{list_any};
ghost use Rattle.cw_types.specs.Same.{same_vote};

use cw_base::{Digest32, Items, NoMemory, Sequential, SumHasher};
use cw_coding::Chunk;
use cw_rules::Travel;
use cw_types::{
    Cert, ChainBlock, Commitment, Committees, Context, Payload, Proposal, Verifier, Vote, genesis,
    genesis_commitment,
};
use node::{Way, whole_commit};
use shards::cut_block;
use std::alloc::Global;
use std::marker::{Model, PhantomData};
use std::test::Fail;
use std::thread::Threads;

/// A block with what names it, and its chunks with what these name it by, which is the same where
/// blocks travel in chunks. The first block has none.
#[derive(Drop)]
pub(crate) struct Made {
    pub block: ChainBlock,
    pub commitment: Commitment,
    pub cut: Commitment,
    pub chunks: Vec<Chunk<Digest32>>,
}

/// The committees of a cluster in which blocks travel so, and blocks of its chain: the first one,
/// and others by their places. Members 0, 1 and 2 signed all votes on them in their views and the
/// next, member 3 none. What contracts see of it says nothing.
#[derive(Drop)]
pub(crate) struct Scene<W: Way> {
    committees: Committees,
    blocks: Vec<Made>,
    signed: Signed,
    way: PhantomData<W>,
}

impl<W: Way> Model for Scene<W> {
    ghost Value = { Unit {0} };

    ghost view = { λ _. tt };
}

/// A table of votes, each with its signer.
#[derive(Drop)]
pub(crate) struct Signed {
    votes: Vec<(u16, Vote)>,
}

impl Verifier for Signed {
    ghost signs = { λ table member vote.
        list_any (λ entry. entry.0 == member && same_vote entry.1 vote) table.votes.items };

    fn signed(&self, member: u16, vote: &Vote) -> bool {
        self.votes
            .iter()
            .any(|entry| entry.0 == member && entry.1.is_same(vote))
    }
}

impl<W: Way> Scene<W> {
    /// With the first block alone.
    pub(crate) fn new(alloc: Global, committees: Committees) -> Result<Scene<W>, Fail> {
        let mut blocks = Vec::new(alloc);
        blocks.push(Made {
            block: genesis::<SumHasher>(alloc),
            commitment: genesis_commitment::<SumHasher>(),
            cut: genesis_commitment::<SumHasher>(),
            chunks: Vec::new(alloc),
        })?;
        let signed = Signed {
            votes: Vec::new(alloc),
        };
        Ok(Scene {
            committees,
            blocks,
            signed,
            way: PhantomData,
        })
    }

    /// Adds a block over the one at a place, proposed in an epoch and a view by its leader.
    pub(crate) fn add<R: Threads + Sync>(
        &mut self,
        rt: &R,
        alloc: Global,
        below: usize,
        round: (u64, u64, u16),
        payload: &[u8],
    ) -> Result<(), Fail> {
        let block = self.over(alloc, below, round, payload)?;
        let made = self.made(rt, alloc, block)?;
        let place = self.blocks.len();
        self.blocks.push(made)?;
        self.sign(place, round.1)
    }

    // A block over the one at a place.
    fn over(
        &self,
        alloc: Global,
        below: usize,
        (epoch, view, leader): (u64, u64, u16),
        payload: &[u8],
    ) -> Result<ChainBlock, Fail> {
        let under = self.block(below)?;
        let context = Context {
            epoch,
            view,
            leader,
            parent_view: view_in(&under.block, epoch),
            parent: under.commitment,
        };
        let height = under.block.height().saturating_add(1);
        block_of(alloc, context, under.commitment.block, height, payload)
    }

    // The block with what names it, and its chunks.
    fn made<R: Threads + Sync>(
        &self,
        rt: &R,
        alloc: Global,
        block: ChainBlock,
    ) -> Result<Made, Fail> {
        match self.names(rt, alloc, &block) {
            Ok((commitment, cut, chunks)) => Ok(Made {
                block,
                commitment,
                cut,
                chunks,
            }),
            Err(error) => {
                drop(block);
                Err(error)
            }
        }
    }

    // What names the block, and what its chunks name it by, with these.
    fn names<R: Threads + Sync>(
        &self,
        rt: &R,
        alloc: Global,
        block: &ChainBlock,
    ) -> Result<(Commitment, Commitment, Vec<Chunk<Digest32>>), Fail> {
        let whole = whole_commit::<SumHasher>(alloc, block)?;
        let (cut, chunks) = cut_block::<SumHasher, R, Sequential>(
            rt,
            alloc,
            &self.committees,
            block,
            &Sequential,
        )?;
        let commitment = match W::travel() {
            Travel::Chunked => cut,
            Travel::Uncut => whole,
        };
        Ok((commitment, cut, chunks))
    }

    // Members 0, 1 and 2 sign votes on the block at a place, in its view and the next.
    fn sign(&mut self, place: usize, view: u64) -> Result<(), Fail> {
        for signer in 0..3u16 {
            self.sign_in(signer, place, view)?;
            self.sign_in(signer, place, view.saturating_add(1))?;
        }
        Ok(())
    }

    // A member signs both votes on a block in a view.
    fn sign_in(&mut self, signer: u16, place: usize, view: u64) -> Result<(), Fail> {
        let notarize = Vote::Notarize(self.proposal(place, view)?);
        let finalize = Vote::Finalize(self.proposal(place, view)?);
        self.signed.votes.push((signer, notarize))?;
        self.signed.votes.push((signer, finalize))?;
        Ok(())
    }

    /// Its committees.
    pub(crate) fn committees(&self, alloc: Global) -> Result<Committees, NoMemory> {
        self.committees.copy(alloc)
    }

    /// Who signed what.
    pub(crate) fn signed(&self) -> &Signed {
        &self.signed
    }

    /// The block at a place.
    pub(crate) fn block(&self, place: usize) -> Result<&Made, Fail> {
        match self.blocks.get(place) {
            Some(made) => Ok(made),
            None => Err("a block at that place".into()),
        }
    }

    /// The proposal of a block in its view, or again in a later one.
    pub(crate) fn proposal(&self, place: usize, view: u64) -> Result<Proposal, Fail> {
        let made = self.block(place)?;
        let context = made.block.context();
        let parent = if view == context.view {
            context.parent_view
        } else {
            context.view
        };
        Ok(Proposal {
            epoch: context.epoch,
            view,
            parent,
            payload: made.commitment,
        })
    }

    /// The place of the block under a commitment, and how many blocks there are where it is none.
    pub(crate) fn named(&self, commitment: &Commitment) -> usize {
        let mut places = self.blocks.iter();
        match places.position(|made| made.commitment == *commitment) {
            Some(place) => place,
            None => self.blocks.len(),
        }
    }

    /// The place of a block, and how many there are where it is none.
    pub(crate) fn place(&self, block: &ChainBlock) -> usize {
        match self.blocks.iter().position(|made| made.block == *block) {
            Some(place) => place,
            None => self.blocks.len(),
        }
    }
}

/// The certificate of a vote by members 0, 1 and 2.
pub(crate) fn certificate(alloc: Global, vote: Vote) -> Result<Cert, Fail> {
    Ok(Cert {
        vote,
        signers: Items::from_vec(vec![in alloc; 0, 1, 2]?),
    })
}

// The view that a block stands in as a parent in an epoch.
fn view_in(block: &ChainBlock, epoch: u64) -> u64 {
    let context = block.context();
    if context.epoch == epoch {
        context.view
    } else {
        0
    }
}

fn block_of(
    alloc: Global,
    context: Context,
    parent: Digest32,
    height: u64,
    payload: &[u8],
) -> Result<ChainBlock, Fail> {
    let Ok(payload) = Payload::new(Vec::from_slice(alloc, payload)?) else {
        return Err("a short payload".into());
    };
    if height == u64::MAX {
        return Err("a height that a block may have".into());
    }
    Ok(ChainBlock::new(context, parent, height, payload))
}
