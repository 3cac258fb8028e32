//! Heights: those that are given up, pruned and acknowledged.

ghost use Rattle.std.specs.Prelude.{◌≡◌, ◌<◌, ◌-◌, ◌^◌, IfSome, None, Some, filter_map};
ghost use Rattle.std.specs.List.{AllByRecursion};
ghost use Rattle.cw_rules.specs.Held as rule;
ghost use Rattle.cw_types.specs.Values.{IsNote};
ghost use Rattle.note_scans.specs.Heights.{greatest_of};

use cw_types::Note;

/// The height below which blocks are hidden: the greatest of a Prune note, else 0.
pub(crate) fn greatest_prune(notes: &[Note]) -> u64
    ensures { result ≡ rule.greatest_prune notes.now }
{
    prune_of(notes).unwrap_or(0)
}

/// The greatest height of a Prune note, if there is one.
pub fn prune_of(notes: &[Note]) -> Option<u64>
    ensures { result ≡ greatest_of (filter_map rule.pruned_height notes.now) }
{
    notes.iter().filter_map(|note| pruned_height(note)).max()
}

/// The greatest height of a Floor note, if there is one.
pub fn floor_of(notes: &[Note]) -> Option<u64>
    ensures { result ≡ greatest_of (filter_map rule.floor_height notes.now) }
{
    notes.iter().filter_map(|note| floor_height(note)).max()
}

/// The height that was acknowledged last. It is a block's, where the notes have a form.
pub fn last_ack(notes: &[Note]) -> Option<u64>
    ensures value { result ≡ rule.last_ack notes.now }
    ensures bound { AllByRecursion IsNote notes.now → IfSome result (λ h. h < 2 ^ 64 - 1) }
{
    notes.iter().filter_map(|note| acked_height(note)).last()
}

fn pruned_height(note: &Note) -> Option<u64>
    ensures { result ≡ rule.pruned_height note.now }
{
    match note {
        Note::Prune(height) => Some(*height),
        _ => None,
    }
}

fn floor_height(note: &Note) -> Option<u64>
    ensures { result ≡ rule.floor_height note.now }
{
    match note {
        Note::Floor(height) => Some(*height),
        _ => None,
    }
}

fn acked_height(note: &Note) -> Option<u64>
    ensures { result ≡ rule.acked_height note.now }
{
    match note {
        Note::Ack(height) => Some(*height),
        _ => None,
    }
}
