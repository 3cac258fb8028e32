//! The vote that a member owes.

ghost use Rattle.std.specs.Prelude.{◌≡◌, ◌==◌, ◌&&◌, ◌<◌, ◌-◌, ◌^◌, IfSome, IsTrue};
ghost use Rattle.std.specs.Prelude.{false, find, not, option_map};
ghost use Rattle.std.specs.List.{list_any};
ghost use Rattle.std.specs.Option.{option_map_or};
ghost use Rattle.cw_base.specs.Config.{same_counts};
ghost use Rattle.cw_rules.specs.Held.{held};
ghost use Rattle.cw_rules.specs.Notes as notes_rule;
ghost use Rattle.cw_rules.specs.Owed as rule;
ghost use Rattle.cw_types.specs.Commit.{genesis_commitment};
ghost use Rattle.cw_types.specs.Epochs.{config_in, is_last, is_member, leader, place};
ghost use Rattle.cw_types.specs.declared.note.Note.{Note};
ghost use Rattle.cw_types.specs.declared.vote.Vote.{Vote};
ghost use Rattle.note_scans.specs.Countable.{is_countable};
ghost use Rattle.voter.specs.Heights.{kept_height};
ghost use Rattle.voter.specs.Known.{is_own_at, known_state, vote_rules};
ghost use Rattle.voter.specs.Owing as owing;
ghost use Rattle.voter.specs.Runs.{nullified_from};

use crate::tally::Tally;
use cw_base::{Config, Digest32, Hasher};
use cw_types::{Commitment, Context, Proposal, Vote, genesis_commitment, leader};

impl<H> Tally<H> {
    // Whether it is a member of the epoch.
    pub(crate) fn is_member(&self, epoch: u64) -> bool
        ensures { result ≡ is_member self.now.epochs epoch self.now.id }
    {
        self.committees.is_member(epoch, self.id)
    }

    /// Whether a vote of the member's own in a view of an epoch is noted. Takes no memory.
    pub fn has_voted(&self, epoch: u64, view: u64) -> bool
        ensures { result ≡ rule.has_voted self.now.notes epoch view }
    {
        self.index.facts.said.has_voted(epoch, view)
    }

    /// Whether a vote of the member's own is noted that nullifies a view of an epoch or finalizes
    /// in it. Takes no memory.
    pub fn has_closed(&self, epoch: u64, view: u64) -> bool
        ensures { result ≡ rule.has_closed self.now.notes epoch view }
    {
        self.index.facts.said.has_closed(epoch, view)
    }

    // The view of the epoch from which on all views below the member's are nullified: the member's
    // own where the one before it isn't.
    pub(crate) fn nullified_from(&self, epoch: u64) -> u64
        ensures { result
            ≡ nullified_from self.now.notes epoch (notes_rule.view_of self.now.notes epoch) }
    {
        let view = self.view(epoch);
        if self.nullified(epoch, view - 1) {
            self.index.facts.runs.at(epoch, view - 1).first
        } else {
            view
        }
    }

    // Whether each view of the epoch between that one and the member's is nullified.
    pub(crate) fn all_nullified_above(&self, epoch: u64, low: u64) -> bool
        ensures { result ≡ rule.all_nullified self.now.notes epoch low
            (notes_rule.view_of self.now.notes epoch) }
    {
        self.nullified_from(epoch).saturating_sub(1) <= low
    }

    // Whether the chunk at that place of that commitment came.
    fn has_own_at(&self, index: u16, commitment: &Commitment) -> bool
        ensures { result ≡ list_any (is_own_at index commitment.now) self.now.own }
    {
        self.index.own.has(index, commitment)
    }

    // Whether the chunk of the proposal's payload at the member's own place came.
    fn has_own_chunk(&self, proposal: &Proposal) -> bool
        ensures { result ≡ option_map_or
            (λ at. list_any (is_own_at at proposal.now.payload) self.now.own)
            (place self.now.epochs proposal.now.epoch self.now.id) false }
    {
        match self.committees.place(proposal.epoch, self.id) {
            Some(index) => self.has_own_at(index, &proposal.payload),
            None => false,
        }
    }

    // The height of the first noted block under a commitment, unless that block was pruned.
    fn kept_height(&self, commitment: &Commitment) -> Option<u64>
        ensures value { result ≡ kept_height self.now.notes commitment.now }
        ensures bound { IfSome result (λ height. height < 2 ^ 64 - 1) }
    {
        self.index.facts.kept_height(commitment)
    }

    // Whether the proposal is certified, and the member is one of its epoch and hasn't closed its
    // view.
    fn can_finalize(&self, proposal: &Proposal) -> bool
        ensures { result ≡ (notes_rule.has_certified self.now.notes proposal.now
            && is_member self.now.epochs proposal.now.epoch self.now.id
            && not (rule.has_closed self.now.notes proposal.now.epoch proposal.now.view)) }
    {
        self.has_certified(proposal)
            && self.is_member(proposal.epoch)
            && !self.has_closed(proposal.epoch, proposal.view)
    }

    // Whether blocks of that epoch are cut so.
    fn is_config_of(&self, config: &Config, epoch: u64) -> bool
        ensures { result ≡ same_counts config.now (config_in self.now.epochs epoch) }
    {
        config.is_same(&self.committees.config(epoch))
    }

    // Whether a block of that height is the last of the epoch.
    fn is_last(&self, epoch: u64, height: u64) -> bool
        requires { height < 2 ^ 64 - 1 }
        ensures { result ≡ is_last self.now.epochs epoch height }
    {
        match self.committees.last_height(epoch) {
            Some(last) => height == last,
            None => false,
        }
    }
}

impl<H: Hasher<Digest = Digest32>> Tally<H> {
    // The height of the held block under a commitment.
    fn held_height(&self, commitment: &Commitment) -> Option<u64>
        ensures value { result ≡ option_map (λ b. b.height)
            (held (vote_rules H.digest_of self.now.epochs) self.now.notes commitment.now) }
        ensures bound { IfSome result (λ height. height < 2 ^ 64 - 1) }
    {
        if commitment.is_same(&genesis_commitment::<H>()) {
            return Some(0);
        }
        self.kept_height(commitment)
    }

    // Whether the payload is one for the proposal over that parent.
    fn is_payload_for(&self, proposal: &Proposal, parent: &Commitment) -> bool
        ensures { result ≡ rule.is_payload_for (vote_rules H.digest_of self.now.epochs) proposal.now
            parent.now }
    {
        let context = Context {
            epoch: proposal.epoch,
            view: proposal.view,
            leader: leader(&self.committees, proposal.epoch, proposal.view),
            parent_view: proposal.parent,
            parent: *parent,
        };
        self.is_config_of(&proposal.payload.config, proposal.epoch)
            && proposal.payload.context == H::hash(&context.to_bytes())
    }

    // Whether the proposal is of the settled payload again, the last block of its epoch.
    fn is_again(&self, proposal: &Proposal, parent: &Commitment) -> bool
        ensures { result ≡ rule.is_again (vote_rules H.digest_of self.now.epochs) self.now.notes
            proposal.now parent.now }
    {
        proposal.payload.is_same(parent)
            && 0 < proposal.parent
            && self.is_last_held(proposal.epoch, parent)
    }

    // Whether the held block under the commitment is the last of the epoch.
    fn is_last_held(&self, epoch: u64, commitment: &Commitment) -> bool
        ensures { result ≡ option_map_or (λ a. is_last self.now.epochs epoch a.height)
            (held (vote_rules H.digest_of self.now.epochs) self.now.notes commitment.now) false }
    {
        match self.held_height(commitment) {
            Some(height) => self.is_last(epoch, height),
            None => false,
        }
    }

    // Whether the chunk of the proposal's payload at the member's own place came.
    fn has_own_row(&self, proposal: &Proposal) -> bool
        ensures { result ≡ rule.has_own_row (vote_rules H.digest_of self.now.epochs) self.now.id
            (known_state self.now) proposal.now }
    {
        self.has_own_chunk(proposal)
    }

    // Whether the member can vote for the proposal over that parent.
    fn is_ready(&self, proposal: &Proposal, parent: &Commitment) -> bool
        ensures { result ≡ rule.is_ready (vote_rules H.digest_of self.now.epochs) self.now.id
            (known_state self.now) proposal.now parent.now }
    {
        (self.has_own_row(proposal) && self.is_payload_for(proposal, parent))
            || self.is_again(proposal, parent)
    }

    // Whether the member can vote for the proposal over the payload that is settled for its parent
    // view.
    #[tactic(auto, unfolding(crate::specs::Owing::can_vote_for))]
    fn can_vote(&self, proposal: &Proposal) -> bool
        ensures { result ≡ owing.can_vote_for H.digest_of self.now proposal.now }
    {
        match self.settled(proposal.epoch, proposal.parent) {
            Some(parent) => self.is_ready(proposal, &parent),
            None => false,
        }
    }

    // Whether all is there for a vote to notarize the proposal.
    fn can_notarize(&self, proposal: &Proposal) -> bool
        ensures { result ≡ (owing.is_votable self.now proposal.now
            && owing.can_vote_for H.digest_of self.now proposal.now) }
    {
        self.is_votable(proposal) && self.can_vote(proposal)
    }

    // Whether a vote to notarize the proposal is owed.
    fn owes_notarize(&self, proposal: &Proposal) -> bool
        ensures { result ≡ owing.owes_notarize H.digest_of self.now proposal.now }
    {
        self.can_notarize(proposal)
    }

    // Whether a vote to finalize the proposal is owed.
    fn owes_finalize(&self, proposal: &Proposal) -> bool
        ensures { result ≡ owing.owes_finalize H.digest_of self.now proposal.now }
    {
        self.can_finalize(proposal)
    }

    // The first proposal that a vote to notarize is owed of.
    fn first_to_notarize(&self) -> Option<Proposal>
        ensures { result ≡ find (owing.owes_notarize H.digest_of self.now)
            (rule.named_proposals (known_state self.now)) }
    {
        let epoch = self.epoch();
        self.waiting
            .views
            .of(epoch, self.view(epoch))
            .iter()
            .copied()
            .find(|proposal| self.owes_notarize(proposal))
    }

    // The first proposal that a vote to finalize is owed of.
    fn first_to_finalize(&self) -> Option<Proposal>
        ensures { result ≡ find (owing.owes_finalize H.digest_of self.now)
            (rule.named_proposals (known_state self.now)) }
    {
        let proposals = &self.waiting.proposals;
        proposals
            .came
            .waiting
            .iter()
            .map(|at| at.1)
            .chain(proposals.noted.waiting.iter().map(|at| at.1))
            .find(|proposal| self.owes_finalize(proposal))
    }

    fn owed_notarize(&self) -> Option<Vote>
        ensures { option_map Note.Vote result ≡ owing.first_notarize_owed H.digest_of self.now }
    {
        match self.first_to_notarize() {
            Some(proposal) => Some(Vote::Notarize(proposal)),
            None => None,
        }
    }

    fn first_final(&self) -> Option<Vote>
        ensures { option_map Note.Vote result ≡ owing.first_finalize_owed H.digest_of self.now }
    {
        match self.first_to_finalize() {
            Some(proposal) => Some(Vote::Finalize(proposal)),
            None => None,
        }
    }

    // The vote that the member owes: one to notarize goes first.
    fn first_owed(&self) -> Option<Vote>
        ensures { option_map Note.Vote result ≡ owing.vote_owed H.digest_of self.now }
    {
        match self.owed_notarize() {
            Some(vote) => Some(vote),
            None => self.first_final(),
        }
    }

    /// The vote that the member owes: to notarize the proposal of its view's leader for which all
    /// is there, else to finalize what is certified in a view that it hasn't closed. Of several
    /// proposals it is the first, in the order of what came and then of the notes. It can be noted.
    /// Takes no memory.
    pub fn owed_vote(&self) -> Option<Vote>
        ensures value { option_map Note.Vote result ≡ owing.vote_owed H.digest_of self.now }
        ensures countable { IfSome result (λ vote. IsTrue (is_countable (Note.Vote vote))) }
    {
        let _ = &self.notes;
        self.first_owed()
    }
    /// The vote to finalize that the member owes, whatever it owes beside: of the first proposal
    /// that is certified in a view that it hasn't closed. It can be noted. Takes no memory.
    pub fn owed_finalize(&self) -> Option<Vote>
        ensures value { option_map Note.Vote result
            ≡ owing.first_finalize_owed H.digest_of self.now }
        ensures countable { IfSome result (λ vote. IsTrue (is_countable (Note.Vote vote))) }
    {
        let _ = &self.notes;
        self.first_final()
    }
}
