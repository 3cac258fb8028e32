//! What is settled for views, and what epochs build on.

ghost use Rattle.std.specs.Prelude.{◌≡◌, ◌++◌, ◌==◌, ◌∷◌, [], List, OnErr, OnOk, filter_map, find};
ghost use Rattle.std.specs.Prelude.{option_map};
ghost use Rattle.cw_rules.specs.Notes as rule;
ghost use Rattle.cw_types.specs.declared.note.Note.{Note as NoteValue};
ghost use Rattle.voter.specs.Facts.{HasFirstSettled, settled_by, settles};
ghost use Rattle.voter.specs.Settled.{last_some, later_settled};

use crate::maps::put_first;
use cw_base::NoMemory;
use cw_types::{Commitment, Note, Proposal, Vote};
use note_scans::VoteKey;
use std::alloc::Global;
use std::collections::BTreeMap;

// What the view of a proposal is settled by.
fn settled_by(proposal: &Proposal) -> (VoteKey, Commitment)
    ensures { result ≡ settled_by proposal.now }
{
    (
        VoteKey::in_view(6, proposal.epoch, proposal.view),
        proposal.payload,
    )
}

// What a note settles.
fn settles(note: &Note) -> Option<(VoteKey, Commitment)>
    ensures { result ≡ settles note.now }
{
    match note {
        Note::Certified(proposal) => Some(settled_by(proposal)),
        Note::Cert(cert) => match &cert.vote {
            Vote::Finalize(proposal) => Some(settled_by(proposal)),
            _ => None,
        },
        Note::Epoch(epoch, commitment) => Some((VoteKey::in_view(7, *epoch, 0), *commitment)),
        _ => None,
    }
}

/// The payload that is first settled for each view, and the one that each epoch builds on.
#[derive(Drop)]
pub(crate) struct Settled {
    pub(crate) by_key: BTreeMap<VoteKey, Commitment>,
}

impl Settled {
    /// That of no notes.
    pub(crate) fn new(alloc: Global) -> Settled
        ensures { HasFirstSettled [] result.by_key.entries }
    {
        Settled {
            by_key: BTreeMap::new(alloc),
        }
    }

    /// One note more. Where memory is short nothing changes.
    pub(crate) fn take(&mut self, note: &Note) -> Result<(), NoMemory>
        ensures ok { (notes : List NoteValue) → HasFirstSettled notes self.old.by_key.entries
            → OnOk result (HasFirstSettled (notes ++ note.now ∷ []) self.new.by_key.entries) }
        ensures err { OnErr result (self.new.by_key.entries ≡ self.old.by_key.entries) }
    {
        match settles(note) {
            Some((key, payload)) => {
                put_first(&mut self.by_key, key, payload)?;
                Ok(())
            }
            None => Ok(()),
        }
    }

    /// The payload that is settled for a view above 0.
    pub(crate) fn of_view(&self, epoch: u64, view: u64) -> Option<Commitment>
        ensures { (notes : List NoteValue) → HasFirstSettled notes self.now.by_key.entries
            → result ≡ option_map (λ p. p.payload) (rule.settler notes epoch view) }
    {
        self.by_key.get(&VoteKey::in_view(6, epoch, view)).copied()
    }

    /// The greatest settled view of an epoch that is above 0 and below `top`, with its payload.
    pub(crate) fn last_below(&self, epoch: u64, top: u64) -> Option<(u64, Commitment)>
        ensures { (notes : List NoteValue) → HasFirstSettled notes self.now.by_key.entries
            → result ≡ last_some (later_settled notes epoch) top }
    {
        if top <= 1 {
            return None;
        }
        let low = VoteKey::in_view(6, epoch, 1);
        let high = VoteKey::in_view(6, epoch, top);
        match self.by_key.range(low..high).next_back() {
            Some((key, payload)) => Some((key.view, *payload)),
            None => None,
        }
    }

    /// The payload that an epoch above 0 builds on.
    pub(crate) fn of_epoch(&self, epoch: u64) -> Option<Commitment>
        ensures { (notes : List NoteValue) → HasFirstSettled notes self.now.by_key.entries
            → result ≡ option_map (λ e. e.1)
            (find (λ e. e.0 == epoch) (filter_map rule.epoch_entered notes)) }
    {
        self.by_key.get(&VoteKey::in_view(7, epoch, 0)).copied()
    }
}
