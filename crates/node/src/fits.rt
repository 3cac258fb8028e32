//! Which block is one for a proposal, and the proposal that is owed a note for it.

ghost use Rattle.std.specs.Prelude.{◌≡◌, ◌&&◌, ◌<◌, ◌-◌, ◌^◌, ◌*◌, IfOk, IfSome, IsTrue};
ghost use Rattle.cw_types.specs.Values.{is_storable};
ghost use Rattle.cw_rules.specs.Accepted.{first_some};
ghost use Rattle.cw_rules.specs.Fits as fits_rule;
ghost use Rattle.cw_rules.specs.Owed as rule;
ghost use Rattle.cw_types.specs.Epochs as epochs_rule;
ghost use Rattle.node.specs.Holding.{own_state, rules_of};
ghost use Rattle.node.specs.Standing.{PartsStand};
ghost use Rattle.node.specs.Store.{stored_notes};

use crate::holding::Holding;
use cw_base::{Digest32, Hasher, NoMemory};
use cw_types::{Application, ChainBlock, Commitment, Context, Note, Proposal, committees};
use node_disk::Disk;
use std::alloc::Global;
use voter::tally_stands;

impl<H: Hasher<Digest = Digest32>, D: Disk, A: Application> Holding<H, D, A> {
    // The context of a proposal over a parent.
    pub(crate) fn context_for(&self, proposal: &Proposal, parent: &Commitment) -> Context
        ensures { result ≡ fits_rule.context_for (rules_of H.digest_of A.accepts self.now)
            proposal.now parent.now }
    {
        Context {
            epoch: proposal.epoch,
            view: proposal.view,
            leader: committees::leader(&self.committees, proposal.epoch, proposal.view),
            parent_view: proposal.parent,
            parent: *parent,
        }
    }

    // Whether a block of that height is within the epoch.
    pub(crate) fn is_within(&self, epoch: u64, height: u64) -> bool
        requires { height < 2 ^ 64 - 1 }
        ensures { result ≡ epochs_rule.is_within self.now.epochs epoch height }
    {
        match self.committees.last_height(epoch) {
            Some(last) => height <= last,
            None => true,
        }
    }

    // Whether a block of that height is the last of the epoch.
    pub(crate) fn is_last(&self, epoch: u64, height: u64) -> bool
        requires { height < 2 ^ 64 - 1 }
        ensures { result ≡ epochs_rule.is_last self.now.epochs epoch height }
    {
        match self.committees.last_height(epoch) {
            Some(last) => height == last,
            None => false,
        }
    }

    // Whether the block is a new one for the proposal over that parent.
    fn builds_on(
        &self,
        alloc: Global,
        proposal: &Proposal,
        block: &ChainBlock,
        commitment: &Commitment,
        parent: &ChainBlock,
    ) -> Result<bool, NoMemory>
        ensures { IfOk result (λ builds. builds
            ≡ fits_rule.builds_on (rules_of H.digest_of A.accepts self.now) proposal.now block.now
            commitment.now parent.now) }
    {
        let digest = parent.digest::<H>(alloc)?;
        Ok(
            block
                .context()
                .is_same(&self.context_for(proposal, commitment))
                && block.parent() == digest
                && block.height() == parent.height() + 1
                && self.is_within(proposal.epoch, block.height())
                && self.app.verify(block, parent),
        )
    }

    // Whether the proposal is of that parent again, the last block of its epoch.
    fn repeats(
        &self,
        proposal: &Proposal,
        block: &ChainBlock,
        commitment: &Commitment,
        parent: &ChainBlock,
    ) -> bool
        ensures { result ≡ fits_rule.repeats (rules_of H.digest_of A.accepts self.now) proposal.now
            block.now commitment.now parent.now }
    {
        proposal.payload.is_same(commitment)
            && block.is_same(parent)
            && 0 < proposal.parent
            && self.is_last(proposal.epoch, block.height())
    }

    // Whether the block is one for the proposal over the held block that is settled for its parent
    // view.
    fn fits(&self, alloc: Global, proposal: &Proposal, block: &ChainBlock) -> Result<bool, NoMemory>
        requires { PartsStand H.digest_of A.accepts self.now }
        ensures { IfOk result (λ fits. fits
            ≡ fits_rule.fits (rules_of H.digest_of A.accepts self.now) (stored_notes self.now.store)
            proposal.now block.now) }
    {
        let Some(commitment) = self.tally.settled(proposal.epoch, proposal.parent) else {
            return Ok(false);
        };
        let Some(parent) = self.store.held(&commitment) else {
            return Ok(false);
        };
        let builds = self.builds_on(alloc, proposal, block, &commitment, parent)?;
        Ok(builds || self.repeats(proposal, block, &commitment, parent))
    }

    // Whether the held block of the proposal's payload is one for it.
    fn block_fits(&self, alloc: Global, proposal: &Proposal) -> Result<bool, NoMemory>
        requires { PartsStand H.digest_of A.accepts self.now }
        ensures { IfOk result (λ fits. fits
            ≡ fits_rule.block_fits (rules_of H.digest_of A.accepts self.now)
            (stored_notes self.now.store) proposal.now) }
    {
        match self.store.held(&proposal.payload) {
            Some(block) => self.fits(alloc, proposal, block),
            None => Ok(false),
        }
    }

    // 3. A notarized proposal whose held block fits.
    pub(crate) fn owed_certified(&self, alloc: Global) -> Result<Option<Note>, NoMemory>
        requires { PartsStand H.digest_of A.accepts self.now }
        ensures value { IfOk result
            (λ note. note ≡ first_some
            (rule.certified_owed (rules_of H.digest_of A.accepts self.now) (own_state self.now))
            (rule.named_proposals (own_state self.now))) }
        ensures storable { IfOk result (λ note. IfSome note (λ note. IsTrue (is_storable note))) }
    {
        tally_stands();
        let mut index = 0;
        while let Some(proposal) = self.tally.uncertified(index) {
            if self.block_fits(alloc, proposal)? {
                return Ok(Some(Note::Certified(*proposal)));
            }
            // No memory holds so many proposals.
            let Some(next) = index.checked_add(1) else {
                return Err(NoMemory);
            };
            index = next;
        }
        Ok(None)
    }
}
