//! Where the first Block note of each commitment stands, and the first finalization of each
//! payload.

ghost use Rattle.std.specs.Prelude.{◌≡◌, ◌++◌, ◌∷◌, [], List, OnErr, OnOk, length};
ghost use Rattle.cw_types.specs.declared.note.Note.{Note as NoteValue};
ghost use Rattle.marshal.specs.Placed.{HasPlaces};
ghost use Rattle.marshal.specs.Reach.{HasFinals};

use crate::maps::{put_first, take_last};
use cw_base::NoMemory;
use cw_types::{Commitment, Note};
use note_scans::finalization_of;
use std::collections::BTreeMap;

/// Keeps the place of a note that goes to the end. Where memory is short nothing changes.
pub(crate) fn put_place(
    places: &mut BTreeMap<Commitment, u64>,
    finals: &mut BTreeMap<Commitment, u64>,
    note: &Note,
    place: u64,
) -> Result<(), NoMemory>
    ensures places { (notes : List NoteValue) → HasPlaces places.old.entries notes
        → place ≡ length notes
        → OnOk result (HasPlaces places.new.entries (notes ++ note.now ∷ [])) }
    ensures finals { (notes : List NoteValue) → HasFinals finals.old.entries notes
        → place ≡ length notes
        → OnOk result (HasFinals finals.new.entries (notes ++ note.now ∷ [])) }
    ensures err { OnErr result ((places.new.entries ≡ places.old.entries)
        × (finals.new.entries ≡ finals.old.entries)) }
{
    match note {
        Note::Block(commitment, _) => {
            put_first(places, *commitment, place)?;
            Ok(())
        }
        _ => put_final(finals, note, place),
    }
}

// Keeps the place of a note that goes to the end, where it is a finalization.
fn put_final(
    finals: &mut BTreeMap<Commitment, u64>,
    note: &Note,
    place: u64,
) -> Result<(), NoMemory>
    ensures ok { (notes : List NoteValue) → HasFinals finals.old.entries notes
        → place ≡ length notes
        → OnOk result (HasFinals finals.new.entries (notes ++ note.now ∷ [])) }
    ensures err { OnErr result (finals.new.entries ≡ finals.old.entries) }
{
    match finalization_of(note) {
        Some(proposal) => {
            put_first(finals, proposal.payload, place)?;
            Ok(())
        }
        None => Ok(()),
    }
}

/// Lets the place of the last note go.
pub(crate) fn take_place(
    places: &mut BTreeMap<Commitment, u64>,
    finals: &mut BTreeMap<Commitment, u64>,
    note: &Note,
    place: u64,
)
    ensures places { (notes : List NoteValue)
        → HasPlaces places.old.entries (notes ++ note.now ∷ []) → place ≡ length notes
        → HasPlaces places.new.entries notes }
    ensures finals { (notes : List NoteValue)
        → HasFinals finals.old.entries (notes ++ note.now ∷ []) → place ≡ length notes
        → HasFinals finals.new.entries notes }
{
    match note {
        Note::Block(commitment, _) => take_last(places, commitment, place),
        _ => take_final(finals, note, place),
    }
}

// Lets the place of the last note go, where it is a finalization.
fn take_final(finals: &mut BTreeMap<Commitment, u64>, note: &Note, place: u64)
    ensures { (notes : List NoteValue) → HasFinals finals.old.entries (notes ++ note.now ∷ [])
        → place ≡ length notes → HasFinals finals.new.entries notes }
{
    if let Some(proposal) = finalization_of(note) {
        take_last(finals, &proposal.payload, place);
    }
}
