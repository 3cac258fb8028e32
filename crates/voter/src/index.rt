//! What a tally looks up in place of searches: who signed what, and what notes say.

ghost use Rattle.std.specs.Prelude.{◌≡◌, ◌++◌, ◌∷◌, [], ℕ, IsTrue, List, OnErr, OnOk, false};
ghost use Rattle.std.specs.Prelude.{Some, filter, length, option_map};
ghost use Rattle.std.specs.List.{list_any};
ghost use Rattle.cw_rules.specs.Accepted.{Ballot as BallotValue, Single};
ghost use Rattle.cw_rules.specs.Owed as rule;
ghost use Rattle.cw_rules.specs.Owed.{is_single};
ghost use Rattle.cw_types.specs.Epochs.{Epochs, is_member, members_in};
ghost use Rattle.cw_types.specs.Votes.{vote_epoch};
ghost use Rattle.cw_types.specs.declared.note.Note.{Note as NoteValue};
ghost use Rattle.cw_types.specs.declared.vote.Vote.{Vote as VoteValue};
ghost use Rattle.note_scans.specs.Countable.{is_countable};
ghost use Rattle.voter.specs.Certs.{HasFirst};
ghost use Rattle.voter.specs.Facts.{HasSaid, HaveFacts};
ghost use Rattle.voter.specs.Known.{Known, known_signers, known_state};
ghost use Rattle.voter.specs.Lists.{HasLists};
ghost use Rattle.voter.specs.Own.{HasOwn};
ghost use Rattle.voter.specs.Signing.{HaveSigners, counted_vote};
ghost use Rattle.voter.specs.Waiting.{can_certify};

use crate::cert_places::Certs;
use crate::facts::Facts;
use crate::own_keys::OwnKeys;
use crate::signer_sets::SignerSets;
use cw_base::NoMemory;
use cw_types::{Committees, Note, Vote};
use note_scans::vote_of;
use std::alloc::Global;
use std::collections::BTreeSet;

/// Who signed each vote that came, and the members that are known to have signed each vote. The two
/// differ by the votes that the member noted, and by those of strangers. And what the notes say.
#[derive(Drop)]
pub(crate) struct Index {
    pub(crate) came: SignerSets,
    pub(crate) known: SignerSets,
    pub(crate) facts: Facts,
    pub(crate) certs: Certs,
    pub(crate) own: OwnKeys,
}

impl Index {
    /// That of a tally that knows nothing.
    pub(crate) fn new(alloc: Global) -> Index
        ensures signers { (x : Epochs) (id : ℕ) → HaveSigners x id [] []
            result.came.by_vote.entries result.known.by_vote.entries }
        ensures facts { HaveFacts [] result.facts }
        ensures certs { HasFirst [] result.certs.first.entries }
        ensures lists { HasLists [] result.certs.lists.by_vote.entries }
        ensures own { HasOwn [] result.own.by_key.entries }
    {
        Index {
            came: SignerSets::new(alloc),
            known: SignerSets::new(alloc),
            facts: Facts::new(alloc),
            certs: Certs::new(alloc),
            own: OwnKeys::new(alloc),
        }
    }

    /// A vote came that wasn't there; `counts` where its signer is a member of its epoch. Where
    /// memory is short nothing changes.
    pub(crate) fn take_vote(
        &mut self,
        signer: u16,
        vote: &Vote,
        counts: bool,
    ) -> Result<(), NoMemory>
        ensures ok { (x : Epochs) (id : ℕ) (notes : List NoteValue) (ballots : List BallotValue)
            → HaveSigners x id notes ballots self.old.came.by_vote.entries
            self.old.known.by_vote.entries
            → counts ≡ is_member x (vote_epoch vote.now) signer
            → OnOk result (HaveSigners x id notes (ballots ++ Single signer vote.now ∷ [])
            self.new.came.by_vote.entries self.new.known.by_vote.entries) }
        ensures err { (x : Epochs) (id : ℕ) (notes : List NoteValue) (ballots : List BallotValue)
            → HaveSigners x id notes ballots self.old.came.by_vote.entries
            self.old.known.by_vote.entries
            → list_any (is_single signer vote.now) ballots ≡ false
            → OnErr result (HaveSigners x id notes ballots self.new.came.by_vote.entries
            self.new.known.by_vote.entries) }
        ensures facts { self.new.facts ≡ self.old.facts }
        ensures certs { self.new.certs ≡ self.old.certs }
        ensures own { self.new.own ≡ self.old.own }
    {
        self.came.add(vote, signer)?;
        if !counts {
            return Ok(());
        }
        if let Err(NoMemory) = self.known.add(vote, signer) {
            self.came.remove(vote, signer);
            return Err(NoMemory);
        }
        Ok(())
    }

    /// The member `id` noted something; `counted` is the vote, where it is one of an epoch of the
    /// member's. Where memory is short nothing changes.
    pub(crate) fn take_note(
        &mut self,
        id: u16,
        note: &Note,
        counted: Option<&Vote>,
    ) -> Result<(), NoMemory>
        requires { IsTrue (is_countable note.now) }
        ensures ok { (x : Epochs) (notes : List NoteValue) (ballots : List BallotValue)
            → HaveSigners x id notes ballots self.old.came.by_vote.entries
            self.old.known.by_vote.entries
            → option_map (λ vote. vote.now) counted.entry ≡ counted_vote x id note.now
            → OnOk result (HaveSigners x id (notes ++ note.now ∷ []) ballots
            self.new.came.by_vote.entries self.new.known.by_vote.entries) }
        ensures err { (x : Epochs) (notes : List NoteValue) (ballots : List BallotValue)
            → HaveSigners x id notes ballots self.old.came.by_vote.entries
            self.old.known.by_vote.entries
            → OnErr result (HaveSigners x id notes ballots self.new.came.by_vote.entries
            self.new.known.by_vote.entries) }
        ensures facts { (x : Epochs) (notes : List NoteValue) → HaveFacts notes self.old.facts
            → option_map (λ vote. vote.now) counted.entry ≡ counted_vote x id note.now
            → OnOk result (HaveFacts (notes ++ note.now ∷ []) self.new.facts) }
        ensures refused { (notes : List NoteValue) → HaveFacts notes self.old.facts
            → OnErr result (HaveFacts notes self.new.facts) }
        ensures certs { self.new.certs ≡ self.old.certs }
        ensures own { self.new.own ≡ self.old.own }
    {
        self.facts.prepare(note)?;
        match counted {
            Some(vote) => {
                self.known.add(vote, id)?;
                self.facts.take_unsettling(note);
                Ok(())
            }
            None => self.facts.take(note),
        }
    }

    /// The members of its epoch that are known to have signed a vote, rising, if there are some.
    pub(crate) fn signers(&self, committees: &Committees, vote: &Vote) -> Option<&BTreeSet<u16>>
        ensures { (t : Known) → t.epochs ≡ committees.now
            → HaveSigners t.epochs t.id t.notes t.ballots self.now.came.by_vote.entries
            self.now.known.by_vote.entries
            → option_map (λ signers. signers.now.keys) result ≡ known_signers t vote.now }
    {
        // A committee rises, and so does a set, which is asked for its order by its length.
        let _members = committees.members(vote.epoch());
        match self.known.get(vote) {
            Some(signers) => {
                let _count = signers.len();
                Some(signers)
            }
            None => None,
        }
    }

    // How many members are known to have signed the vote.
    fn count_known(&self, committees: &Committees, vote: &Vote) -> usize
        ensures { (t : Known) → t.epochs ≡ committees.now
            → HaveSigners t.epochs t.id t.notes t.ballots self.now.came.by_vote.entries
            self.now.known.by_vote.entries
            → result ≡ length (filter (rule.knows t.id (known_state t) vote.now)
            (members_in t.epochs (vote_epoch vote.now))) }
    {
        match self.signers(committees, vote) {
            Some(signers) => signers.len(),
            None => 0,
        }
    }

    /// Whether no certificate of the vote is noted, and one came or a quorum is known.
    pub(crate) fn can_certify(&self, committees: &Committees, vote: &Vote) -> bool
        ensures { (t : Known) → t.epochs ≡ committees.now
            → HaveSigners t.epochs t.id t.notes t.ballots self.now.came.by_vote.entries
            self.now.known.by_vote.entries
            → HasSaid t.notes self.now.facts.said.by_key.entries
            → HasFirst t.ballots self.now.certs.first.entries
            → result ≡ can_certify t vote.now }
    {
        !self.facts.said.has_cert(vote)
            && (self.certs.place(vote).is_some()
                || committees.is_enough(vote.epoch(), self.count_known(committees, vote)))
    }

    /// The same of the vote that a note names, if it names one.
    pub(crate) fn certifies(&self, committees: &Committees, note: &Note) -> bool
        ensures { (t : Known) → t.epochs ≡ committees.now
            → HaveSigners t.epochs t.id t.notes t.ballots self.now.came.by_vote.entries
            self.now.known.by_vote.entries
            → HasSaid t.notes self.now.facts.said.by_key.entries
            → HasFirst t.ballots self.now.certs.first.entries
            → (v : VoteValue) → rule.note_vote note.now ≡ Some v → result ≡ can_certify t v }
    {
        match vote_of(note) {
            Some(vote) => self.can_certify(committees, &vote),
            None => false,
        }
    }
}
