//! The proposals that a member may certify, and those that it may vote for.

ghost use Rattle.std.specs.Prelude.{◌≡◌, IfSome, IsTrue, option_map, slice_get};
ghost use Rattle.std.specs.List.{list_any};
ghost use Rattle.cw_rules.specs.Notes.{has_certified};
ghost use Rattle.cw_rules.specs.Owed.{is_single};
ghost use Rattle.cw_types.specs.Epochs.{leader};
ghost use Rattle.cw_types.specs.Votes.{is_ordered};
ghost use Rattle.cw_types.specs.declared.note.Note.{Note};
ghost use Rattle.cw_types.specs.declared.vote.Vote.{Vote};
ghost use Rattle.note_scans.specs.Countable.{is_countable};
ghost use Rattle.voter.specs.Owing as owing;

use crate::tally::Tally;
use cw_types::{Proposal, Vote, leader};

impl<H> Tally<H> {
    /// The proposal at this place, counted from 0, among those with a noted notarization that
    /// aren't certified: each once, in the order in which what came and then the notes first name
    /// them. None past the last. Each can be noted as certified. Takes no memory.
    pub fn uncertified(&self, index: usize) -> Option<&Proposal>
        ensures value { option_map (λ proposal. proposal.now) result
            ≡ slice_get (owing.uncertified self.now) index }
        ensures ordered { IfSome result (λ proposal. IsTrue (is_ordered proposal.now)) }
    {
        let _ = &self.notes;
        self.nth_uncertified(index)
    }

    /// The proposal at this place, counted from 0, among those of the leader of the member's view
    /// in which it hasn't voted, where each view between their parent's and their own is nullified:
    /// a vote for one of these asks no more than its payload. Each once, in the order in which what
    /// came and then the notes first name them. None past the last. A vote to notarize each can be
    /// noted. Takes no memory.
    pub fn votable(&self, index: usize) -> Option<Proposal>
        ensures value { result ≡ slice_get (owing.votable self.now) index }
        ensures countable { IfSome result
            (λ proposal. IsTrue (is_countable (Note.Vote (Vote.Notarize proposal)))) }
    {
        let _ = &self.notes;
        self.nth_votable(index)
    }

    // The proposal at this place of those that are notarized and not certified.
    fn nth_uncertified(&self, index: usize) -> Option<&Proposal>
        ensures { option_map (λ proposal. proposal.now) result
            ≡ slice_get (owing.uncertified self.now) index }
    {
        self.waiting.nth_uncertified(&self.index.facts.said, index)
    }

    // The proposal at this place of those of which a vote asks no more than their payload.
    fn nth_votable(&self, index: usize) -> Option<Proposal>
        ensures { result ≡ slice_get (owing.votable self.now) index }
    {
        let epoch = self.epoch();
        self.waiting
            .views
            .of(epoch, self.view(epoch))
            .iter()
            .copied()
            .filter(|proposal| self.is_votable(proposal))
            .nth(index)
    }

    // Whether the proposal is noted as certified.
    pub(crate) fn has_certified(&self, proposal: &Proposal) -> bool
        ensures { result ≡ has_certified self.now.notes proposal.now }
    {
        self.index.facts.said.has_certified(proposal)
    }

    // Whether a vote for the proposal asks no more than its payload.
    #[tactic(auto, unfolding(crate::specs::Owing::is_votable))]
    pub(crate) fn is_votable(&self, proposal: &Proposal) -> bool
        ensures { result ≡ owing.is_votable self.now proposal.now }
    {
        self.is_turn(proposal) && self.all_nullified_above(proposal.epoch, proposal.parent)
    }

    // Whether it is the proposal of the leader of the member's view, in which it hasn't voted.
    #[tactic(auto, unfolding(crate::specs::Owing::is_turn))]
    fn is_turn(&self, proposal: &Proposal) -> bool
        ensures { result ≡ owing.is_turn self.now proposal.now }
    {
        proposal.epoch == self.epoch()
            && proposal.view == self.view(proposal.epoch)
            && self.is_member(proposal.epoch)
            && self.has_leaders_vote(proposal)
            && !self.has_voted(proposal.epoch, proposal.view)
    }

    // Whether the vote of the view's leader to notarize the proposal came.
    fn has_leaders_vote(&self, proposal: &Proposal) -> bool
        ensures { result ≡ list_any
            (is_single (leader self.now.epochs proposal.now.epoch proposal.now.view)
            (Vote.Notarize proposal.now)) self.now.ballots }
    {
        let member = leader(&self.committees, proposal.epoch, proposal.view);
        self.has_voted_so(&Vote::Notarize(*proposal), member)
    }
}
