//! What was verified last in each round.

ghost use Rattle.std.specs.Prelude.{◌≡◌, ◌++◌, ◌∷◌, [], List, None, OnErr, OnOk, filter_map};
ghost use Rattle.std.specs.List.{last_or};
ghost use Rattle.cw_types.specs.declared.note.Note.{Note as NoteValue};
ghost use Rattle.marshal.specs.Rounds.{HasVerified};
ghost use Rattle.note_scans.specs.Verified.{verified_in};

use crate::maps::put_there;
use cw_base::NoMemory;
use cw_types::{Commitment, Epoch, Note, Round, View};
use note_scans::last_verified;
use std::alloc::Global;
use std::collections::BTreeMap;

/// The commitment that the last Verified note of each round names.
#[derive(Drop)]
pub(crate) struct ByRound {
    pub(crate) last: BTreeMap<Round, Commitment>,
}

impl ByRound {
    /// That of no notes.
    pub(crate) fn new(alloc: Global) -> ByRound
        ensures { HasVerified result.last.entries [] }
    {
        ByRound {
            last: BTreeMap::new(alloc),
        }
    }

    /// A note goes to the end. Where memory is short nothing changes.
    pub(crate) fn put(&mut self, note: &Note) -> Result<(), NoMemory>
        ensures ok { (notes : List NoteValue) → HasVerified self.old.last.entries notes
            → OnOk result (HasVerified self.new.last.entries (notes ++ note.now ∷ [])) }
        ensures err { OnErr result (self.new.last.entries ≡ self.old.last.entries) }
    {
        match note {
            Note::Verified(epoch, view, commitment) => {
                self.last.insert(round_of(*epoch, *view), *commitment)?;
                Ok(())
            }
            _ => Ok(()),
        }
    }

    /// Lets the note behind these go. Its round is searched, since it may have been verified
    /// before; notes are taken back in a refused call alone.
    pub(crate) fn take(&mut self, note: &Note, notes: &[Note])
        ensures { HasVerified self.old.last.entries (notes.now ++ note.now ∷ [])
            → HasVerified self.new.last.entries notes.now }
    {
        if let Note::Verified(epoch, view, _) = note {
            let round = round_of(*epoch, *view);
            match last_verified(notes, round_of(*epoch, *view)) {
                Some(commitment) => put_there(&mut self.last, round, commitment),
                None => {
                    let _ = self.last.remove(&round);
                }
            }
        }
    }

    /// The commitment that the last Verified note of a round names.
    pub(crate) fn of(&self, round: Round) -> Option<Commitment>
        ensures { (notes : List NoteValue) → HasVerified self.now.last.entries notes
            → result ≡ last_or None (filter_map (verified_in round) notes) }
    {
        self.last.get(&round).copied()
    }
}

// That view of that epoch.
fn round_of(epoch: u64, view: u64) -> Round
    ensures { result ≡ record { epoch = epoch; view = view } }
{
    Round::new(Epoch::new(epoch), View::new(view))
}
