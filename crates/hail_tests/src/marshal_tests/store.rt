//! A store with nothing staged, as a user of the writing calls has it.

ghost use Rattle.std.specs.Prelude.{◌≡◌, [], IfOk};
ghost use Rattle.cw_types.specs.Values as values;
ghost use Rattle.cw_types.specs.declared.note.Note.{Note};

use super::blocks::{Made, at, named, place_among, place_of, proposal, signed, view_of};
use crate::disks::crashed;
use cw_base::{Sequential, SumHasher};
use cw_types::{Cert, Committees, Epoch, Handed, Height, Round, View, Vote, well_formed};
use marshal::{Identifier, Marshal, MarshalError};
use node_disk::MemoryDisk;
use std::alloc::Global;
use std::mem;
use std::test::Fail;
use std::thread::Threads;

/// A store of a member of four, with nothing staged.
#[derive(Drop)]
pub(crate) struct Store {
    backlog: u64,
    marshal: Marshal<SumHasher, MemoryDisk>,
    ghost quiet: { marshal.staged ≡ [] },
}

impl Store {
    /// On a new disk.
    pub(crate) fn new(alloc: Global, backlog: u64) -> Result<Store, Fail> {
        let marshal = opened(alloc, backlog, MemoryDisk::new(alloc, Vec::new(alloc)))?;
        Ok(Store { backlog, marshal })
    }

    /// Starts it again on what a crash leaves of its disk: the height that was acknowledged last.
    /// Another stands in its place meanwhile.
    pub(crate) fn restart(&mut self, alloc: Global) -> Result<Option<u64>, Fail> {
        let other = opened(alloc, self.backlog, MemoryDisk::new(alloc, Vec::new(alloc)))?;
        let disk = mem::replace(&mut self.marshal, other).into_disk();
        self.marshal = opened(alloc, self.backlog, crashed(disk)?)?;
        Ok(self.processed())
    }

    /// Notes a block as verified in its round.
    pub(crate) fn verify<R: Threads + Sync>(
        &mut self,
        rt: &R,
        blocks: &[Made],
        place: usize,
    ) -> Result<bool, Fail> {
        let block = &at(blocks, place)?.block;
        let context = block.context();
        let round = Round::new(Epoch::new(context.epoch), View::new(context.view));
        Ok(self.marshal.verified(rt, round, block, &Sequential)?)
    }

    /// Notes the blocks at 1 to a place as verified: how many of them it did.
    pub(crate) fn verify_to<R: Threads + Sync>(
        &mut self,
        rt: &R,
        blocks: &[Made],
        last: usize,
    ) -> Result<u64, Fail> {
        let mut count = 0u64;
        for place in 1..=last {
            if self.verify(rt, blocks, place)? {
                count = count.saturating_add(1);
            }
        }
        Ok(count)
    }

    /// Notes a block as certified in a view.
    pub(crate) fn certify<R: Threads + Sync>(
        &mut self,
        rt: &R,
        blocks: &[Made],
        place: usize,
        view: u64,
    ) -> Result<bool, Fail> {
        let block = &at(blocks, place)?.block;
        let context = block.context();
        if view == u64::MAX || view < context.view || view <= context.parent_view {
            return Err("a view to certify in".into());
        }
        let round = Round::new(Epoch::new(context.epoch), View::new(view));
        Ok(self.marshal.certified(rt, round, block, &Sequential)?)
    }

    /// Notes the finalization of a block in a view.
    pub(crate) fn report(
        &mut self,
        alloc: Global,
        blocks: &[Made],
        place: usize,
        view: u64,
    ) -> Result<bool, Fail> {
        let vote = Vote::Finalize(proposal(blocks, place, view)?);
        self.note(&signed(alloc, vote)?)
    }

    /// Notes the notarization of a block in a view.
    pub(crate) fn notarize(
        &mut self,
        alloc: Global,
        blocks: &[Made],
        place: usize,
        view: u64,
    ) -> Result<bool, Fail> {
        let vote = Vote::Notarize(proposal(blocks, place, view)?);
        self.note(&signed(alloc, vote)?)
    }

    // Notes a certificate.
    fn note(&mut self, cert: &Cert) -> Result<bool, Fail> {
        if !is_storable(cert) {
            return Err("a certificate that can be noted".into());
        }
        Ok(self.marshal.report(cert)?)
    }

    /// Notes the finalizations of the blocks at 1 to a place, each in its block's view: how many of
    /// them it did.
    pub(crate) fn report_to(
        &mut self,
        alloc: Global,
        blocks: &[Made],
        last: usize,
    ) -> Result<u64, Fail> {
        let mut count = 0u64;
        for place in 1..=last {
            if self.report(alloc, blocks, place, view_of(blocks, place))? {
                count = count.saturating_add(1);
            }
        }
        Ok(count)
    }

    /// Asks for the floor of a block's finalization in a view.
    pub(crate) fn set_floor(
        &mut self,
        alloc: Global,
        blocks: &[Made],
        place: usize,
        view: u64,
    ) -> Result<bool, Fail> {
        let cert = signed(alloc, Vote::Finalize(proposal(blocks, place, view)?))?;
        self.note_floor(&cert)
    }

    // Asks for the floor of a certificate.
    fn note_floor(&mut self, cert: &Cert) -> Result<bool, Fail> {
        if !is_storable(cert) {
            return Err("a certificate that can be noted".into());
        }
        match cert.vote {
            Vote::Finalize(_) => Ok(self.marshal.set_floor(cert)?),
            _ => Err("a finalization".into()),
        }
    }

    /// Acknowledges the least pending height.
    pub(crate) fn acknowledge(&mut self) -> Result<Option<u64>, Fail> {
        match self.marshal.acknowledge()? {
            Some(height) => Ok(Some(height.get())),
            None => Ok(None),
        }
    }

    /// Hands out and acknowledges at most a hundred heights: how many.
    pub(crate) fn process(&mut self, alloc: Global) -> Result<u64, Fail> {
        for count in 0..100u64 {
            drop(self.deliver(alloc)?);
            if self.acknowledge()?.is_none() {
                return Ok(count);
            }
        }
        Ok(100)
    }

    /// Lets blocks below a height go.
    pub(crate) fn prune(&mut self, height: u64) -> Result<bool, Fail> {
        Ok(self.marshal.prune(height)?)
    }

    /// The heights that are handed out next.
    pub(crate) fn deliver(&mut self, alloc: Global) -> Result<Vec<u64>, Fail> {
        let handed = self.marshal.next_deliveries(alloc)?;
        heights_of(alloc, &handed)
    }

    /// The first and the last of them, and how many they are; none where one isn't above the other.
    pub(crate) fn deliver_run(&mut self, alloc: Global) -> Result<Option<(u64, u64, usize)>, Fail> {
        Ok(run_of(&self.deliver(alloc)?))
    }

    /// A ticket for the block of a digest.
    pub(crate) fn watch_digest(&mut self, blocks: &[Made], place: usize) -> Result<u64, Fail> {
        let digest = at(blocks, place)?.commitment.block;
        Ok(self.marshal.subscribe_by_digest(digest)?)
    }

    /// A ticket for the block under a commitment.
    pub(crate) fn watch_commitment(&mut self, blocks: &[Made], place: usize) -> Result<u64, Fail> {
        let commitment = at(blocks, place)?.commitment;
        Ok(self.marshal.subscribe_by_commitment(commitment)?)
    }

    /// Lets a ticket go.
    pub(crate) fn cancel(&mut self, ticket: u64) -> bool {
        self.marshal.cancel(ticket)
    }

    /// The tickets that are served, each with the place of its block.
    pub(crate) fn take_tickets(
        &mut self,
        alloc: Global,
        blocks: &[Made],
    ) -> Result<Vec<(u64, usize)>, Fail> {
        let mut served = Vec::new(alloc);
        for (ticket, commitment) in &self.marshal.take_tickets(alloc)? {
            served.push((*ticket, named(blocks, commitment)?))?;
        }
        Ok(served)
    }

    /// The place of the block that was verified last in a view.
    pub(crate) fn verified_in(&self, blocks: &[Made], view: u64) -> Result<Option<usize>, Fail> {
        let round = Round::new(Epoch::new(0), View::new(view));
        match self.marshal.get_verified(round) {
            Some(block) => Ok(Some(place_among(blocks, block)?)),
            None => Ok(None),
        }
    }

    /// The height that was acknowledged last, or the floor, with its block's place.
    pub(crate) fn anchor(&self, blocks: &[Made]) -> Result<Option<(u64, usize)>, Fail> {
        match self.marshal.get_anchor() {
            Some((height, block)) => Ok(Some((height.get(), place_among(blocks, block)?))),
            None => Ok(None),
        }
    }

    /// The place of the block that is found, by its height, its digest and itself.
    pub(crate) fn found(&self, blocks: &[Made], id: Identifier) -> Result<Option<usize>, Fail> {
        match (self.marshal.get_info(id), self.marshal.get_block(id)) {
            (None, None) => Ok(None),
            (Some(info), Some(block)) => Ok(Some(place_of(blocks, info, block)?)),
            _ => Err("a block with its height, or neither".into()),
        }
    }

    /// The same of the digest of a block of the list.
    pub(crate) fn found_by_digest(
        &self,
        blocks: &[Made],
        place: usize,
    ) -> Result<Option<usize>, Fail> {
        let digest = at(blocks, place)?.commitment.block;
        self.found(blocks, Identifier::Digest(digest))
    }

    /// How many heights from one to another have a block.
    pub(crate) fn count_at(&self, first: u64, last: u64) -> u64 {
        let mut count = 0u64;
        for height in first..=last {
            if self.marshal.get_block(Identifier::Height(height)).is_some() {
                count = count.saturating_add(1);
            }
        }
        count
    }

    /// The blocks that are noted, each with the place of the first such note.
    pub(crate) fn places(&self, alloc: Global, blocks: &[Made]) -> Result<Vec<(usize, u64)>, Fail> {
        let mut places = Vec::new(alloc);
        for (commitment, place) in self.marshal.places() {
            places.push((named(blocks, commitment)?, *place))?;
        }
        Ok(places)
    }

    /// The height that was acknowledged last.
    pub(crate) fn processed(&self) -> Option<u64> {
        match self.marshal.get_processed() {
            Some(height) => Some(height.get()),
            None => None,
        }
    }

    /// The floor.
    pub(crate) fn floor(&self) -> Option<u64> {
        match self.marshal.greatest_floor() {
            Some(height) => Some(height.get()),
            None => None,
        }
    }

    /// The view of the finalization of a height.
    pub(crate) fn finalized_in(&self, height: u64) -> Option<u64> {
        match self.marshal.get_finalization(height)?.vote {
            Vote::Finalize(proposal) => Some(proposal.view),
            _ => None,
        }
    }

    /// Whether the block is found under its commitment and, as the first of it, by its digest.
    pub(crate) fn has(&self, blocks: &[Made], place: usize) -> Result<bool, Fail> {
        let made = at(blocks, place)?;
        Ok(
            self.is_found(made, Identifier::Commitment(made.commitment))
                && self.is_found(made, Identifier::Digest(made.commitment.block)),
        )
    }

    fn is_found(&self, made: &Made, id: Identifier) -> bool {
        match self.marshal.get_block(id) {
            Some(block) => *block == made.block,
            None => false,
        }
    }

    /// How many of the blocks are at their heights.
    pub(crate) fn count_final(&self, blocks: &[Made]) -> usize {
        blocks.iter().filter(|made| self.is_final(made)).count()
    }

    // Whether the block is at its height, with its digest, and has a finalization there.
    fn is_final(&self, made: &Made) -> bool {
        let height = made.block.height();
        let info = self.marshal.get_info(Identifier::Height(height));
        info == Some((Height::new(height), made.commitment.block))
            && self.marshal.commitment_at(height) == Some(made.commitment)
            && self.marshal.get_finalization(height).is_some()
            && !self.marshal.hint_finalized(height)
    }

    /// The heights from a block down, as far as they are held.
    pub(crate) fn heights_down(
        &self,
        alloc: Global,
        blocks: &[Made],
        place: usize,
    ) -> Result<Vec<u64>, Fail> {
        let mut heights = Vec::new(alloc);
        for block in self.marshal.ancestry(&at(blocks, place)?.commitment) {
            heights.push(block.height())?;
        }
        Ok(heights)
    }
}

// The heights that are handed out.
fn heights_of(alloc: Global, handed: &[Handed]) -> Result<Vec<u64>, Fail> {
    let mut heights = Vec::new(alloc);
    for handed in handed {
        heights.push(handed.height)?;
    }
    Ok(heights)
}

// The first and the last of heights that go up by one, and how many they are.
fn run_of(heights: &[u64]) -> Option<(u64, u64, usize)> {
    let first = *heights.first()?;
    let last = *heights.last()?;
    for (place, height) in heights.iter().enumerate() {
        if first.saturating_add(place as u64) != *height {
            return None;
        }
    }
    Some((first, last, heights.len()))
}

// Whether a certificate has a form on the disk.
fn is_storable(cert: &Cert) -> bool
    ensures { result ≡ values.is_storable (Note.Cert cert.now) }
{
    well_formed(&cert.vote) && cert.signers.len() < 65536
}

// A store on a disk.
fn opened(
    alloc: Global,
    backlog: u64,
    disk: MemoryDisk,
) -> Result<Marshal<SumHasher, MemoryDisk>, Fail>
    ensures { IfOk result (λ marshal. marshal.staged ≡ []) }
{
    match open(alloc, backlog, disk)? {
        Ok(marshal) => Ok(marshal),
        Err(error) => Err(Fail::from(error)),
    }
}

/// What a start answers on a disk.
pub(crate) fn open(
    alloc: Global,
    backlog: u64,
    disk: MemoryDisk,
) -> Result<Result<Marshal<SumHasher, MemoryDisk>, MarshalError>, Fail>
    ensures { IfOk result (λ started. IfOk started (λ marshal. marshal.staged ≡ [])) }
{
    if backlog == 0 {
        return Err("a backlog".into());
    }
    match Marshal::start(alloc, Committees::single(alloc, 4)?, backlog, disk) {
        Ok(marshal) => Ok(Ok(marshal)),
        Err((_, error)) => Ok(Err(error)),
    }
}
