//! The vote that a member owes.

ghost use Rattle.std.specs.Prelude.{◌≡◌, ◌&&◌, ◌||◌, IfOk, IfSome, IsTrue, false, find, is_some};
ghost use Rattle.std.specs.Option.{option_map, option_map_or, option_or};
ghost use Rattle.cw_rules.specs.Accepted.{first_some};
ghost use Rattle.cw_rules.specs.Held as held_rule;
ghost use Rattle.cw_rules.specs.Owed as rule;
ghost use Rattle.cw_types.specs.Epochs as epochs_rule;
ghost use Rattle.cw_types.specs.Values.{is_storable};
ghost use Rattle.cw_types.specs.declared.note.Note.{Note as NoteValue};
ghost use Rattle.cw_types.specs.declared.vote.Vote.{Vote as VoteValue};
ghost use Rattle.node.specs.Holding.{own_state, rules_of};
ghost use Rattle.node.specs.Standing.{PartsStand};
ghost use Rattle.node.specs.Store.{stored_notes};
ghost use Rattle.voter.specs.Owing as owing;

use crate::holding::Holding;
use cw_base::{Digest32, Hasher, NoMemory};
use cw_rules::Travel;
use cw_types::{Application, Commitment, Note, Proposal, Vote};
use node_disk::Disk;
use voter::tally_stands;

impl<H: Hasher<Digest = Digest32>, D: Disk, A: Application> Holding<H, D, A> {
    // Whether a block is held under the payload.
    fn is_held(&self, payload: &Commitment) -> bool
        ensures { result ≡ is_some (held_rule.held (rules_of H.digest_of A.accepts self.now)
            (stored_notes self.now.store) payload.now) }
    {
        match self.store.held(payload) {
            Some(_) => true,
            None => false,
        }
    }

    // Whether a payload is known: it is shown, or held.
    fn knows(&self, payload: &Commitment) -> bool
        requires { PartsStand H.digest_of A.accepts self.now }
        ensures { result ≡ rule.is_known (rules_of H.digest_of A.accepts self.now)
            (own_state self.now) payload.now }
    {
        match self.shown(payload) {
            Some(_) => true,
            None => self.is_held(payload),
        }
    }

    // Whether the payload is one for the proposal over that parent.
    fn is_payload_for(&self, proposal: &Proposal, parent: &Commitment) -> bool
        ensures { result ≡ rule.is_payload_for (rules_of H.digest_of A.accepts self.now)
            proposal.now parent.now }
    {
        self.is_config_of(&proposal.payload.config, proposal.epoch)
            && proposal.payload.context == H::hash(&self.context_for(proposal, parent).to_bytes())
    }

    // Whether the held block under the commitment is the last of the epoch.
    fn is_last_held(&self, epoch: u64, commitment: &Commitment) -> bool
        ensures { result ≡ option_map_or (λ a. epochs_rule.is_last self.now.epochs epoch a.height)
            (held_rule.held (rules_of H.digest_of A.accepts self.now) (stored_notes self.now.store)
            commitment.now) false }
    {
        match self.store.held(commitment) {
            Some(block) => self.is_last(epoch, block.height()),
            None => false,
        }
    }

    // Whether the proposal is of the settled payload again, the last block of its epoch.
    fn is_again(&self, proposal: &Proposal, parent: &Commitment) -> bool
        ensures { result ≡ rule.is_again (rules_of H.digest_of A.accepts self.now)
            (stored_notes self.now.store) proposal.now parent.now }
    {
        proposal.payload.is_same(parent)
            && 0 < proposal.parent
            && self.is_last_held(proposal.epoch, parent)
    }

    // Whether the payload is known and one for the proposal over that parent, or it is again.
    fn is_ready_by_knowing(&self, proposal: &Proposal, parent: &Commitment) -> bool
        requires { PartsStand H.digest_of A.accepts self.now }
        ensures { result ≡ ((rule.is_known (rules_of H.digest_of A.accepts self.now)
            (own_state self.now) proposal.now.payload
            && rule.is_payload_for (rules_of H.digest_of A.accepts self.now) proposal.now
            parent.now)
            || rule.is_again (rules_of H.digest_of A.accepts self.now)
            (stored_notes self.now.store) proposal.now parent.now) }
    {
        (self.knows(&proposal.payload) && self.is_payload_for(proposal, parent))
            || self.is_again(proposal, parent)
    }

    // Whether the member can vote for the proposal over that parent, where blocks travel whole.
    fn is_ready(&self, proposal: &Proposal, parent: &Commitment) -> bool
        requires stands { PartsStand H.digest_of A.accepts self.now }
        requires uncut { self.now.travel ≡ Travel.Uncut }
        ensures { result ≡ rule.is_ready (rules_of H.digest_of A.accepts self.now)
            self.now.tally.id (own_state self.now) proposal.now parent.now }
    {
        self.is_ready_by_knowing(proposal, parent)
    }

    // Whether it can over the payload that is settled for the proposal's parent view.
    fn can_vote(&self, proposal: &Proposal) -> bool
        requires stands { PartsStand H.digest_of A.accepts self.now }
        requires uncut { self.now.travel ≡ Travel.Uncut }
        ensures { result ≡ rule.can_vote (rules_of H.digest_of A.accepts self.now)
            self.now.tally.id (own_state self.now) proposal.now }
    {
        match self.tally.settled(proposal.epoch, proposal.parent) {
            Some(parent) => self.is_ready(proposal, &parent),
            None => false,
        }
    }

    // The first proposal that it can vote for.
    fn first_ready(&self) -> Result<Option<Proposal>, NoMemory>
        requires stands { PartsStand H.digest_of A.accepts self.now }
        requires uncut { self.now.travel ≡ Travel.Uncut }
        ensures value { IfOk result
            (λ first. first ≡ find (rule.can_vote (rules_of H.digest_of A.accepts self.now)
            self.now.tally.id (own_state self.now)) (owing.votable self.now.tally)) }
        ensures storable { IfOk result (λ first. IfSome first
            (λ p. IsTrue (is_storable (NoteValue.Vote (VoteValue.Notarize p))))) }
    {
        let mut index = 0;
        while let Some(proposal) = self.tally.votable(index) {
            if self.can_vote(&proposal) {
                return Ok(Some(proposal));
            }
            // No memory holds so many proposals.
            let Some(next) = index.checked_add(1) else {
                return Err(NoMemory);
            };
            index = next;
        }
        Ok(None)
    }

    // 6. where blocks travel whole: the tally finds what a vote asks beside its payload.
    fn owed_notarize(&self) -> Result<Option<Note>, NoMemory>
        requires stands { PartsStand H.digest_of A.accepts self.now }
        requires uncut { self.now.travel ≡ Travel.Uncut }
        ensures value { IfOk result (λ note. note ≡ first_some
            (rule.notarize_owed (rules_of H.digest_of A.accepts self.now) self.now.id
            (own_state self.now)) (rule.named_proposals (own_state self.now))) }
        ensures storable { IfOk result (λ note. IfSome note (λ note. IsTrue (is_storable note))) }
    {
        tally_stands();
        match self.first_ready()? {
            Some(proposal) => Ok(Some(Note::Vote(Vote::Notarize(proposal)))),
            None => Ok(None),
        }
    }

    // 7. A vote to finalize.
    fn owed_finalize(&self) -> Option<Note>
        requires { PartsStand H.digest_of A.accepts self.now }
        ensures value { result ≡ first_some
            (rule.finalize_owed (rules_of H.digest_of A.accepts self.now) self.now.id
            (own_state self.now)) (rule.named_proposals (own_state self.now)) }
        ensures storable { IfSome result (λ note. IsTrue (is_storable note)) }
    {
        tally_stands();
        match self.tally.owed_finalize() {
            Some(vote) => Some(Note::Vote(vote)),
            None => None,
        }
    }

    // 6. and 7. where blocks travel whole.
    fn owed_whole_vote(&self) -> Result<Option<Note>, NoMemory>
        requires stands { PartsStand H.digest_of A.accepts self.now }
        requires uncut { self.now.travel ≡ Travel.Uncut }
        ensures value { IfOk result (λ note. note ≡ option_or
            (first_some (rule.notarize_owed (rules_of H.digest_of A.accepts self.now) self.now.id
            (own_state self.now)) (rule.named_proposals (own_state self.now)))
            (first_some (rule.finalize_owed (rules_of H.digest_of A.accepts self.now) self.now.id
            (own_state self.now)) (rule.named_proposals (own_state self.now)))) }
        ensures storable { IfOk result (λ note. IfSome note (λ note. IsTrue (is_storable note))) }
    {
        if let Some(note) = self.owed_notarize()? {
            return Ok(Some(note));
        }
        Ok(self.owed_finalize())
    }

    // 6. and 7. where blocks are cut: the tally was told of the own chunks.
    fn owed_cut_vote(&self) -> Option<Note>
        requires stands { PartsStand H.digest_of A.accepts self.now }
        requires cut { self.now.travel ≡ Travel.Chunked }
        ensures value { result ≡ option_or
            (first_some (rule.notarize_owed (rules_of H.digest_of A.accepts self.now) self.now.id
            (own_state self.now)) (rule.named_proposals (own_state self.now)))
            (first_some (rule.finalize_owed (rules_of H.digest_of A.accepts self.now) self.now.id
            (own_state self.now)) (rule.named_proposals (own_state self.now))) }
        ensures storable { IfSome result (λ note. IsTrue (is_storable note)) }
    {
        tally_stands();
        match self.tally.owed_vote() {
            Some(vote) => Some(Note::Vote(vote)),
            None => None,
        }
    }

    /// 6. and 7. A vote to notarize, else to finalize.
    pub(crate) fn owed_vote(&self) -> Result<Option<Note>, NoMemory>
        requires { PartsStand H.digest_of A.accepts self.now }
        ensures value { IfOk result (λ note. note ≡ option_or
            (first_some (rule.notarize_owed (rules_of H.digest_of A.accepts self.now) self.now.id
            (own_state self.now)) (rule.named_proposals (own_state self.now)))
            (first_some (rule.finalize_owed (rules_of H.digest_of A.accepts self.now) self.now.id
            (own_state self.now)) (rule.named_proposals (own_state self.now)))) }
        ensures storable { IfOk result (λ note. IfSome note (λ note. IsTrue (is_storable note))) }
    {
        match self.travel {
            Travel::Chunked => Ok(self.owed_cut_vote()),
            Travel::Uncut => {
                let note = self.owed_whole_vote()?;
                Ok(note)
            }
        }
    }
}
