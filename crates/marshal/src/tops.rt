//! The heights that notes give up, prune and acknowledge, as three numbers.

ghost use Rattle.std.specs.Prelude.{◌≡◌, ◌++◌, ◌∷◌, [], List, Some, max};
ghost use Rattle.std.specs.Option.{option_map_or};
ghost use Rattle.cw_types.specs.declared.note.Note.{Note as NoteValue};
ghost use Rattle.marshal.specs.Tops.{tops_of};

use cw_types::Note;
use note_scans::{floor_of, last_ack, prune_of};

/// The greatest height of a Floor note and of a Prune note, and the height that was acknowledged
/// last.
#[derive(Clone, Copy)]
pub(crate) struct Tops {
    pub floor: Option<u64>,
    pub prune: Option<u64>,
    pub acked: Option<u64>,
}

impl Tops {
    /// Those of these notes.
    pub(crate) fn of(notes: &[Note]) -> Tops
        ensures { result ≡ tops_of notes.now }
    {
        Tops {
            floor: floor_of(notes),
            prune: prune_of(notes),
            acked: last_ack(notes),
        }
    }

    /// Those with one note more.
    pub(crate) fn with(self, note: &Note) -> Tops
        ensures { (notes : List NoteValue) → self ≡ tops_of notes
            → result ≡ tops_of (notes ++ note.now ∷ []) }
    {
        match note {
            Note::Floor(height) => Tops {
                floor: greater(self.floor, *height),
                prune: self.prune,
                acked: self.acked,
            },
            Note::Prune(height) => Tops {
                floor: self.floor,
                prune: greater(self.prune, *height),
                acked: self.acked,
            },
            Note::Ack(height) => Tops {
                floor: self.floor,
                prune: self.prune,
                acked: Some(*height),
            },
            _ => self,
        }
    }
}

// The greater of a height and one before it.
fn greater(greatest: Option<u64>, height: u64) -> Option<u64>
    ensures { result ≡ Some (option_map_or (λ other. max other height) greatest height) }
{
    match greatest {
        Some(other) => Some(other.max(height)),
        None => Some(height),
    }
}
