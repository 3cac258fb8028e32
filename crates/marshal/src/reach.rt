//! How high finalizations reach at most: a number beside each note, which never falls.

ghost use Rattle.std.specs.Prelude.{◌≡◌, ◌≤◌, ◌++◌, ◌∷◌, [], Some, ℕ};
ghost use Rattle.std.specs.List.Sorted.{IsNonDecreasing};
ghost use Rattle.std.specs.Map.{lookup};
ghost use Rattle.cw_types.specs.Block.{Block};
ghost use Rattle.cw_types.specs.Same.{same_commitment};
ghost use Rattle.cw_types.specs.declared.commitment.Commitment.{Commitment as CommitmentValue};
ghost use Rattle.cw_types.specs.declared.note.Note.{Note as NoteValue};
ghost use Rattle.marshal.specs.Reach.{AreAbove, IsLifted};

use cw_types::{Commitment, Note};
use std::collections::BTreeMap;

/// The number beside a note that goes to the end, where the note reaches this height.
pub(crate) fn reach_on(reach: &[u64], height: u64) -> u64
    ensures rising { IsNonDecreasing reach.now → IsNonDecreasing (reach.now ++ result ∷ []) }
    ensures height { height ≤ result }
{
    match reach.last() {
        Some(last) => (*last).max(height),
        None => height,
    }
}

/// Raises the numbers from the first finalization of a block on, where the note is a block. It
/// takes no memory.
pub(crate) fn raise(reach: &mut Vec<u64>, finals: &BTreeMap<Commitment, u64>, note: &Note)
    requires { IsNonDecreasing reach.old.items }
    ensures lifted { IsLifted reach.old.items reach.new.items }
    ensures block { (c : CommitmentValue) (b : Block) (place : ℕ) → note.now ≡ NoteValue.Block c b
        → lookup (same_commitment c) finals.now.entries ≡ Some place
        → AreAbove place b.height reach.new.items }
{
    if let Note::Block(commitment, block) = note {
        if let Some(place) = finals.get(commitment) {
            raise_from(reach, *place as usize, block.height());
        }
    }
}

// Raises the numbers from a place on to a height. The first that is as high ends it.
fn raise_from(reach: &mut Vec<u64>, from: usize, height: u64)
    requires { IsNonDecreasing reach.old.items }
    ensures lifted { IsLifted reach.old.items reach.new.items }
    ensures above { AreAbove from height reach.new.items }
{
    for place in from..reach.len() {
        if height <= reach[place] {
            return;
        }
        reach[place] = height;
    }
}
