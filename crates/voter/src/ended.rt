//! The epoch and the views that are over.

ghost use Rattle.std.specs.Prelude.{◌≡◌, ◌++◌, ◌∷◌, [], List, OnOk};
ghost use Rattle.cw_rules.specs.Notes as rule;
ghost use Rattle.cw_types.specs.declared.note.Note.{Note as NoteValue};
ghost use Rattle.voter.specs.Facts.{HasEnded, IsEndThere, ended_at, ending, greatest_ended};

use crate::maps::{put_first, put_there};
use cw_base::NoMemory;
use cw_types::{Note, Vote};
use std::alloc::Global;
use std::collections::BTreeMap;

// The view that a note ends, and its epoch.
fn ending(note: &Note) -> Option<(u64, u64)>
    ensures { result ≡ ending note.now }
{
    match note {
        Note::Certified(proposal) => Some((proposal.epoch, proposal.view)),
        Note::Cert(cert) => match &cert.vote {
            Vote::Notarize(_) => None,
            Vote::Nullify { epoch, view } => Some((*epoch, *view)),
            Vote::Finalize(proposal) => Some((proposal.epoch, proposal.view)),
        },
        _ => None,
    }
}

/// The greatest view of each epoch that is over.
#[derive(Drop)]
pub(crate) struct Ended {
    pub(crate) by_epoch: BTreeMap<u64, u64>,
}

impl Ended {
    /// That of no notes.
    pub(crate) fn new(alloc: Global) -> Ended
        ensures { HasEnded [] result.by_epoch.entries }
    {
        Ended {
            by_epoch: BTreeMap::new(alloc),
        }
    }

    /// Makes the key of the epoch in which a note ends a view, with no view that is over.
    pub(crate) fn prepare(&mut self, note: &Note) -> Result<(), NoMemory>
        ensures same { (notes : List NoteValue) → HasEnded notes self.old.by_epoch.entries
            → HasEnded notes self.new.by_epoch.entries }
        ensures there { OnOk result (IsEndThere note.now self.new.by_epoch.entries) }
    {
        match ending(note) {
            Some((epoch, _)) => {
                put_first(&mut self.by_epoch, epoch, 0)?;
                Ok(())
            }
            None => Ok(()),
        }
    }

    /// One note more, whose key is there. Takes no memory.
    pub(crate) fn write(&mut self, note: &Note)
        ensures { (notes : List NoteValue) → HasEnded notes self.old.by_epoch.entries
            → IsEndThere note.now self.old.by_epoch.entries
            → HasEnded (notes ++ note.now ∷ []) self.new.by_epoch.entries }
    {
        if let Some((epoch, view)) = ending(note) {
            let greatest = self.at(epoch).max(view);
            put_there(&mut self.by_epoch, epoch, greatest);
        }
    }

    // The number at an epoch.
    fn at(&self, epoch: u64) -> u64
        ensures { result ≡ ended_at epoch self.now.by_epoch.entries }
    {
        match self.by_epoch.get(&epoch) {
            Some(view) => *view,
            None => 0,
        }
    }

    /// The greatest view of an epoch that is over, 0 where none is. The member's view is the next.
    pub(crate) fn of(&self, epoch: u64) -> u64
        ensures { (notes : List NoteValue) → HasEnded notes self.now.by_epoch.entries
            → result ≡ greatest_ended notes epoch }
    {
        self.at(epoch)
    }
}
