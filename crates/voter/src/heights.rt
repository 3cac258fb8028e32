//! The heights of noted blocks.

ghost use Rattle.std.specs.Prelude.{◌≡◌, ◌++◌, ◌∷◌, ◌-◌, ◌^◌, ◌<◌, [], IfSome, List, OnOk};
ghost use Rattle.std.specs.Prelude.{option_map};
ghost use Rattle.cw_rules.specs.Accepted.{first_some};
ghost use Rattle.cw_rules.specs.Held.{noted_block_of};
ghost use Rattle.cw_types.specs.declared.note.Note.{Note as NoteValue};
ghost use Rattle.voter.specs.Heights.{HasBlockHeights, IsBlockThere, above_at, noted_above};

use crate::maps::{put_first, put_there};
use cw_base::NoMemory;
use cw_types::{Commitment, Note};
use std::alloc::Global;
use std::collections::BTreeMap;

// The commitment of a noted block, and one above its height.
fn noted_above(note: &Note) -> Option<(Commitment, u64)>
    ensures { result ≡ noted_above note.now }
{
    match note {
        Note::Block(commitment, block) => Some((*commitment, block.height() + 1)),
        _ => None,
    }
}

/// One above the height of the first noted block of each commitment. It is 0 where there is a key
/// for a block that isn't noted.
#[derive(Drop)]
pub(crate) struct Heights {
    pub(crate) above: BTreeMap<Commitment, u64>,
}

impl Heights {
    /// That of no notes.
    pub(crate) fn new(alloc: Global) -> Heights
        ensures { HasBlockHeights [] result.above.entries }
    {
        Heights {
            above: BTreeMap::new(alloc),
        }
    }

    /// Makes the key of a block, which has no height yet.
    pub(crate) fn prepare(&mut self, note: &Note) -> Result<(), NoMemory>
        ensures same { (notes : List NoteValue) → HasBlockHeights notes self.old.above.entries
            → HasBlockHeights notes self.new.above.entries }
        ensures there { OnOk result (IsBlockThere note.now self.new.above.entries) }
    {
        match noted_above(note) {
            Some((commitment, _)) => {
                put_first(&mut self.above, commitment, 0)?;
                Ok(())
            }
            None => Ok(()),
        }
    }

    /// One note more, whose key is there. Takes no memory.
    pub(crate) fn write(&mut self, note: &Note)
        ensures { (notes : List NoteValue) → HasBlockHeights notes self.old.above.entries
            → IsBlockThere note.now self.old.above.entries
            → HasBlockHeights (notes ++ note.now ∷ []) self.new.above.entries }
    {
        if let Some((commitment, above)) = noted_above(note) {
            if self.at(&commitment) == 0 {
                put_there(&mut self.above, commitment, above);
            }
        }
    }

    // The number at a commitment.
    fn at(&self, commitment: &Commitment) -> u64
        ensures { result ≡ above_at commitment.now self.now.above.entries }
    {
        match self.above.get(commitment) {
            Some(above) => *above,
            None => 0,
        }
    }

    /// The height of the first noted block of a commitment.
    pub(crate) fn of(&self, commitment: &Commitment) -> Option<u64>
        ensures value { (notes : List NoteValue) → HasBlockHeights notes self.now.above.entries
            → result ≡ option_map (λ b. b.height)
            (first_some (noted_block_of commitment.now) notes) }
        ensures bound { IfSome result (λ height. height < 2 ^ 64 - 1) }
    {
        let above = self.at(commitment);
        if above == 0 { None } else { Some(above - 1) }
    }
}
