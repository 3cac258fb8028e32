//! The votes and the proposals that are named and not done: the only ones of which something can be
//! owed.

ghost use Rattle.std.specs.Prelude.{◌≡◌, ◌++◌, ◌∷◌, [], ℕ, Bool, List, OnOk, Some, filter, not};
ghost use Rattle.std.specs.Prelude.{option_map, slice_get};
ghost use Rattle.std.specs.List.{cons_option, list_any};
ghost use Rattle.cw_rules.specs.Accepted.{Ballot as BallotValue};
ghost use Rattle.cw_rules.specs.Owed.{ballot_vote, note_proposal, note_vote};
ghost use Rattle.cw_types.specs.Epochs.{Epochs};
ghost use Rattle.cw_types.specs.Same.{same_proposal, same_vote};
ghost use Rattle.cw_types.specs.declared.vote.Proposal.{Proposal as ProposalValue};
ghost use Rattle.cw_types.specs.declared.vote.Vote.{Vote as VoteValue};
ghost use Rattle.note_scans.specs.Keys.{in_view, key_of, keyed};
ghost use Rattle.voter.specs.Facts.{HasSaid};
ghost use Rattle.voter.specs.Known.{Known, unknowing, with_note};
ghost use Rattle.voter.specs.Lines.{AreLines, IsComing, IsNoting, items_of};
ghost use Rattle.voter.specs.Views.{HasKey, HasRoomAt, HasViews};
ghost use Rattle.voter.specs.Waiting.{AreWaiting, CanCome, CanNote, also_came, can_certify};
ghost use Rattle.voter.specs.Waiting.{is_open_by, is_uncertified_by, was_but};

use crate::lines::Lines;
use crate::said::Said;
use crate::views::Views;
use cw_base::NoMemory;
use cw_types::{Committees, Note, Proposal, Vote};
use note_scans::{VoteKey, proposal_of, vote_of, voted_proposal};
use std::alloc::Global;

/// What waits: the votes of which a certificate can be noted, and the proposals of which something
/// can be owed but a vote to notarize. One of these is only for a proposal of the member's view, so
/// the proposals of each view stand by it.
#[derive(Drop)]
pub(crate) struct Waiting {
    pub(crate) votes: Lines<Vote>,
    pub(crate) proposals: Lines<Proposal>,
    pub(crate) views: Views,
}

// Whether the proposal is among these.
fn has_proposal(list: &[(usize, Proposal)], proposal: &Proposal) -> bool
    ensures { result ≡ list_any (λ at. same_proposal proposal.now at.1) list.now }
{
    list.iter().any(|at| proposal.is_same(&at.1))
}

// Whether something can be owed of the proposal, by what notes say to member `id`.
fn is_open(said: &Said, committees: &Committees, id: u16, proposal: &Proposal) -> bool
    ensures { result ≡ is_open_by committees.now id said.now.by_key.entries proposal.now }
{
    if said.has_certified(proposal) {
        committees.is_member(proposal.epoch, id) && !said.has_closed(proposal.epoch, proposal.view)
    } else {
        said.has_cert(&Vote::Notarize(*proposal))
    }
}

// Lets go of the proposals of which nothing can be owed any more.
fn drop_closed(list: &mut Vec<(usize, Proposal)>, said: &Said, committees: &Committees, id: u16)
    ensures { list.new.items
        ≡ filter (λ at. is_open_by committees.now id said.now.by_key.entries at.1)
        list.old.items }
{
    list.retain(|at| is_open(said, committees, id, &at.1));
}

// Whether the proposal is notarized and not certified, by what notes say.
fn is_uncertified(said: &Said, proposal: &Proposal) -> bool
    ensures { result ≡ is_uncertified_by said.now.by_key.entries proposal.now }
{
    said.has_cert(&Vote::Notarize(*proposal)) && !said.has_certified(proposal)
}

impl Waiting {
    /// That of a tally that knows nothing.
    pub(crate) fn new(alloc: Global) -> Waiting
        ensures { (x : Epochs) (id : ℕ) → AreWaiting (unknowing x id) result }
    {
        Waiting {
            votes: Lines::new(alloc),
            proposals: Lines::new(alloc),
            views: Views::new(alloc),
        }
    }

    /// Makes room for what comes and names that vote.
    pub(crate) fn reserve_came(&mut self, vote: &Vote) -> Result<(), NoMemory>
        ensures ready { OnOk result (CanCome vote.now self.new) }
        ensures waiting { (t : Known) → AreWaiting t self.old → AreWaiting t self.new }
    {
        self.votes.prepare_came(VoteKey::new(vote))?;
        if let Some(proposal) = voted_proposal(vote) {
            self.proposals.prepare_came(VoteKey::on(3, proposal))?;
            self.views.prepare(proposal)?;
        }
        Ok(())
    }

    /// Makes room for a note.
    pub(crate) fn reserve_noted(&mut self, note: &Note) -> Result<(), NoMemory>
        ensures ready { OnOk result (CanNote note.now self.new) }
        ensures waiting { (t : Known) → AreWaiting t self.old → AreWaiting t self.new }
    {
        self.prepare_vote(note)?;
        self.prepare_proposal(note)?;
        Ok(())
    }

    // For the vote that a note names.
    fn prepare_vote(&mut self, note: &Note) -> Result<(), NoMemory>
        ensures ready { (v : VoteValue) → note_vote note.now ≡ Some v
            → OnOk result (IsNoting (key_of v) self.new.votes) }
        ensures waiting { (t : Known) → AreWaiting t self.old → AreWaiting t self.new }
    {
        if let Some(vote) = vote_of(note) {
            self.votes.prepare_noted(VoteKey::new(&vote))?;
        }
        Ok(())
    }

    // For the proposal that a note names.
    fn prepare_proposal(&mut self, note: &Note) -> Result<(), NoMemory>
        ensures ready { (p : ProposalValue) → note_proposal note.now ≡ Some p
            → OnOk result (IsNoting (keyed 3 p) self.new.proposals) }
        ensures votes { self.new.votes ≡ self.old.votes }
        ensures waiting { (t : Known) → AreWaiting t self.old → AreWaiting t self.new }
    {
        if let Some(proposal) = proposal_of(note) {
            self.proposals.prepare_noted(VoteKey::on(3, proposal))?;
        }
        Ok(())
    }

    /// Something came that names a vote; `certifies` where a certificate of it can be noted. There
    /// is room.
    pub(crate) fn take_came(
        &mut self,
        vote: &Vote,
        certifies: bool,
        said: &Said,
        committees: &Committees,
        id: u16,
    )
        requires { CanCome vote.now self.old }
        ensures { (t : Known) (b : BallotValue) → t.epochs ≡ committees.now → t.id ≡ id
            → HasSaid t.notes said.now.by_key.entries → AreWaiting t self.old
            → ballot_vote b ≡ vote.now → certifies ≡ can_certify (also_came t b) vote.now
            → AreWaiting (also_came t b) self.new }
    {
        self.votes.take_came(&VoteKey::new(vote), *vote, certifies);
        if let Some(proposal) = voted_proposal(vote) {
            let opens = is_open(said, committees, id, proposal);
            self.name(proposal, opens);
        }
    }

    // What came names a proposal, of which something can be owed or not.
    fn name(&mut self, proposal: &Proposal, opens: bool)
        requires proposals { IsComing (keyed 3 proposal.now) self.old.proposals }
        requires views { HasRoomAt (in_view 9 proposal.now.epoch proposal.now.view)
            self.old.views.by_view.entries }
        ensures proposals { (now : ProposalValue → Bool) (came noted : List ProposalValue)
            → opens ≡ now proposal.now
            → AreLines (keyed 3) same_proposal now came noted self.old.proposals
            → AreLines (keyed 3) same_proposal now (came ++ proposal.now ∷ []) noted
            self.new.proposals }
        ensures views { (now : ProposalValue → Bool) (came noted : List ProposalValue)
            → HasKey (in_view 9 proposal.now.epoch proposal.now.view)
            self.old.views.by_view.entries
            → AreLines (keyed 3) same_proposal now came noted self.old.proposals
            → HasViews came self.old.views.by_view.entries
            → HasViews (came ++ proposal.now ∷ []) self.new.views.by_view.entries }
        ensures votes { self.new.votes ≡ self.old.votes }
    {
        let key = VoteKey::on(3, proposal);
        self.list_in_view(&key, proposal);
        self.proposals.take_came(&key, *proposal, opens);
    }

    // A proposal with that key goes to those of its view, unless what came names it already.
    fn list_in_view(&mut self, key: &VoteKey, proposal: &Proposal)
        requires { HasRoomAt (in_view 9 proposal.now.epoch proposal.now.view)
            self.old.views.by_view.entries }
        ensures views { (now : ProposalValue → Bool) (came noted : List ProposalValue)
            → keyed 3 proposal.now ≡ key.now
            → HasKey (in_view 9 proposal.now.epoch proposal.now.view)
            self.old.views.by_view.entries
            → AreLines (keyed 3) same_proposal now came noted self.old.proposals
            → HasViews came self.old.views.by_view.entries
            → HasViews (came ++ proposal.now ∷ []) self.new.views.by_view.entries }
        ensures proposals { self.new.proposals ≡ self.old.proposals }
        ensures votes { self.new.votes ≡ self.old.votes }
    {
        if !self.proposals.came.has(key) {
            self.views.take(proposal);
        }
    }

    /// A note came that the facts tell of already; `certifies` where of the vote that it names a
    /// certificate can be noted. There is room.
    pub(crate) fn take_note(
        &mut self,
        note: &Note,
        certifies: bool,
        said: &Said,
        committees: &Committees,
        id: u16,
    )
        requires { CanNote note.now self.old }
        ensures { (t : Known) → t.epochs ≡ committees.now → t.id ≡ id
            → HasSaid (t.notes ++ note.now ∷ []) said.now.by_key.entries → AreWaiting t self.old
            → ((v : VoteValue) → note_vote note.now ≡ Some v
            → certifies ≡ can_certify (with_note t note.now) v)
            → AreWaiting (with_note t note.now) self.new }
    {
        self.take_vote(note, certifies);
        self.take_proposal(note, said, committees, id);
        drop_closed(&mut self.proposals.came.waiting, said, committees, id);
        drop_closed(&mut self.proposals.noted.waiting, said, committees, id);
    }

    // A note names a vote, if it does.
    fn take_vote(&mut self, note: &Note, certifies: bool)
        requires { (v : VoteValue) → note_vote note.now ≡ Some v
            → IsNoting (key_of v) self.old.votes }
        ensures votes { (t : Known) → ((v : VoteValue) → note_vote note.now ≡ Some v
            → certifies ≡ can_certify (with_note t note.now) v)
            → (came noted : List VoteValue)
            → AreLines key_of same_vote (can_certify t) came noted self.old.votes
            → AreLines key_of same_vote (can_certify (with_note t note.now)) came
            (noted ++ cons_option (note_vote note.now) []) self.new.votes }
        ensures proposals { self.new.proposals ≡ self.old.proposals }
        ensures views { self.new.views ≡ self.old.views }
    {
        if let Some(vote) = vote_of(note) {
            self.votes.take_noted(&VoteKey::new(&vote), vote, certifies);
        }
    }

    // A note names a proposal, if it does.
    fn take_proposal(&mut self, note: &Note, said: &Said, committees: &Committees, id: u16)
        requires { (p : ProposalValue) → note_proposal note.now ≡ Some p
            → IsNoting (keyed 3 p) self.old.proposals }
        ensures proposals { (was now : ProposalValue → Bool)
            → ((p : ProposalValue) → now p
            ≡ is_open_by committees.now id said.now.by_key.entries p)
            → (came noted : List ProposalValue)
            → AreLines (keyed 3) same_proposal was came noted self.old.proposals
            → AreLines (keyed 3) same_proposal (was_but was now (note_proposal note.now)) came
            (noted ++ cons_option (note_proposal note.now) []) self.new.proposals }
        ensures votes { self.new.votes ≡ self.old.votes }
        ensures views { self.new.views ≡ self.old.views }
    {
        if let Some(proposal) = proposal_of(note) {
            let opens = is_open(said, committees, id, proposal);
            self.proposals
                .take_noted(&VoteKey::on(3, proposal), *proposal, opens);
        }
    }

    /// The proposal at this place of those that are notarized and not certified.
    pub(crate) fn nth_uncertified(&self, said: &Said, index: usize) -> Option<&Proposal>
        ensures { option_map (λ proposal. proposal.now) result
            ≡ slice_get (filter (is_uncertified_by said.now.by_key.entries)
            (items_of self.now.proposals.came ++ filter
            (λ p. not (list_any (same_proposal p) (items_of self.now.proposals.came)))
            (items_of self.now.proposals.noted))) index }
    {
        let came = self.proposals.came.waiting.as_slice();
        let noted = self.proposals.noted.waiting.as_slice();
        let found = came
            .iter()
            .chain(noted.iter().filter(|at| !has_proposal(came, &at.1)))
            .filter(|at| is_uncertified(said, &at.1))
            .nth(index);
        match found {
            Some(at) => Some(&at.1),
            None => None,
        }
    }
}
