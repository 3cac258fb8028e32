//! What notes say of votes, proposals and views.

ghost use Rattle.std.specs.Prelude.{◌≡◌, ◌++◌, ◌∷◌, [], List, OnOk};
ghost use Rattle.cw_rules.specs.Notes as rule;
ghost use Rattle.cw_rules.specs.Owed as owed;
ghost use Rattle.cw_types.specs.declared.note.Note.{Note as NoteValue};
ghost use Rattle.cw_types.specs.declared.vote.Vote.TheVariants.{Nullify};
ghost use Rattle.voter.specs.Facts.{HasSaid, IsThere, fact_of, own_fact, said_at};
ghost use Rattle.note_scans.specs.Keys.{in_view, key_of, keyed};

use crate::maps::{put_first, put_there};
use cw_base::NoMemory;
use cw_types::{Note, Proposal, Vote};
use note_scans::VoteKey;
use std::alloc::Global;
use std::collections::BTreeMap;

// What a vote of the member's own says of its view.
fn own_fact(vote: &Vote) -> VoteKey
    ensures { result ≡ own_fact vote.now }
{
    match vote {
        Vote::Notarize(proposal) => VoteKey::in_view(4, proposal.epoch, proposal.view),
        Vote::Nullify { epoch, view } => VoteKey::in_view(5, *epoch, *view),
        Vote::Finalize(proposal) => VoteKey::in_view(5, proposal.epoch, proposal.view),
    }
}

// What a note says.
fn fact_of(note: &Note) -> Option<VoteKey>
    ensures { result ≡ fact_of note.now }
{
    match note {
        Note::Vote(vote) => Some(own_fact(vote)),
        Note::Cert(cert) => Some(VoteKey::new(&cert.vote)),
        Note::Certified(proposal) => Some(VoteKey::on(3, proposal)),
        _ => None,
    }
}

/// What notes say, by key: no key is false that they say.
#[derive(Drop)]
pub(crate) struct Said {
    pub(crate) by_key: BTreeMap<VoteKey, bool>,
}

impl Said {
    /// That of no notes.
    pub(crate) fn new(alloc: Global) -> Said
        ensures { HasSaid [] result.by_key.entries }
    {
        Said {
            by_key: BTreeMap::new(alloc),
        }
    }

    /// Makes the key of what a note says, which says nothing yet.
    pub(crate) fn prepare(&mut self, note: &Note) -> Result<(), NoMemory>
        ensures same { (notes : List NoteValue) → HasSaid notes self.old.by_key.entries
            → HasSaid notes self.new.by_key.entries }
        ensures there { OnOk result (IsThere note.now self.new.by_key.entries) }
    {
        match fact_of(note) {
            Some(key) => {
                put_first(&mut self.by_key, key, false)?;
                Ok(())
            }
            None => Ok(()),
        }
    }

    /// One note more, whose key is there. Takes no memory.
    pub(crate) fn write(&mut self, note: &Note)
        ensures { (notes : List NoteValue) → HasSaid notes self.old.by_key.entries
            → IsThere note.now self.old.by_key.entries
            → HasSaid (notes ++ note.now ∷ []) self.new.by_key.entries }
    {
        if let Some(key) = fact_of(note) {
            put_there(&mut self.by_key, key, true);
        }
    }

    // Whether it is said.
    fn has(&self, key: &VoteKey) -> bool
        ensures { result ≡ said_at key.now self.now.by_key.entries }
    {
        match self.by_key.get(key) {
            Some(said) => *said,
            None => false,
        }
    }

    /// Whether a certificate of the vote is noted.
    pub(crate) fn has_cert(&self, vote: &Vote) -> bool
        ensures here { result ≡ said_at (key_of vote.now) self.now.by_key.entries }
        ensures noted { (notes : List NoteValue) → HasSaid notes self.now.by_key.entries
            → result ≡ rule.has_cert notes vote.now }
    {
        self.has(&VoteKey::new(vote))
    }

    /// Whether the nullification of a view of an epoch is noted.
    pub(crate) fn has_nullified(&self, epoch: u64, view: u64) -> bool
        ensures here { result ≡ said_at (key_of (Nullify epoch view)) self.now.by_key.entries }
        ensures noted { (notes : List NoteValue) → HasSaid notes self.now.by_key.entries
            → result ≡ rule.nullified notes epoch view }
    {
        self.has_cert(&Vote::Nullify { epoch, view })
    }

    /// Whether the proposal is noted as certified.
    pub(crate) fn has_certified(&self, proposal: &Proposal) -> bool
        ensures here { result ≡ said_at (keyed 3 proposal.now) self.now.by_key.entries }
        ensures noted { (notes : List NoteValue) → HasSaid notes self.now.by_key.entries
            → result ≡ rule.has_certified notes proposal.now }
    {
        self.has(&VoteKey::on(3, proposal))
    }

    /// Whether a vote of the member's own in a view of an epoch is noted.
    pub(crate) fn has_voted(&self, epoch: u64, view: u64) -> bool
        ensures { (notes : List NoteValue) → HasSaid notes self.now.by_key.entries
            → result ≡ owed.has_voted notes epoch view }
    {
        self.has(&VoteKey::in_view(4, epoch, view)) || self.has(&VoteKey::in_view(5, epoch, view))
    }

    /// Whether a vote of the member's own is noted that nullifies the view or finalizes in it.
    pub(crate) fn has_closed(&self, epoch: u64, view: u64) -> bool
        ensures here { result ≡ said_at (in_view 5 epoch view) self.now.by_key.entries }
        ensures noted { (notes : List NoteValue) → HasSaid notes self.now.by_key.entries
            → result ≡ owed.has_closed notes epoch view }
    {
        self.has(&VoteKey::in_view(5, epoch, view))
    }
}
