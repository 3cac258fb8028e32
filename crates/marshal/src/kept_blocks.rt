//! The noted blocks that aren't hidden, by a look-up each.

ghost use Rattle.std.specs.Prelude.{◌≡◌, ◌&&◌, None, Some, if◌then◌else◌, nat_lt};
ghost use Rattle.std.specs.Prelude.{option_and_then, option_map, slice_get};
ghost use Rattle.cw_rules.specs.Accepted.{first_some};
ghost use Rattle.cw_rules.specs.Held.{greatest_prune, noted_block_of};

use cw_types::{ChainBlock, Commitment, Note};
use note_scans::noted_block_of;
use std::collections::BTreeMap;
use std::marker::Model;

/// Notes with the places of their blocks and the height below which blocks are hidden. Contracts
/// see them as the list of notes.
#[derive(Drop)]
pub(crate) struct KeptBlocks<'a> {
    pub(crate) notes: &'a [Note],
    pub(crate) places: &'a BTreeMap<Commitment, u64>,
    pub(crate) prune: u64,
}

impl<'a> Model for KeptBlocks<'a> {
    ghost use Rattle.std.specs.Prelude.{List};
    ghost use Rattle.cw_types.specs.declared.note.Note.{Note};
    ghost use Rattle.marshal.specs.Placed.{AreFound};

    ghost Value = { List Note };

    ghost view = { λ k. k.notes.now };

    ghost invariant = { λ k. AreFound k.places.now.entries k.prune k.notes.now };
}

impl<'a> KeptBlocks<'a> {
    // The block of the first Block note of a commitment.
    fn noted(&self, commitment: &Commitment) -> Option<&'a ChainBlock>
        ensures { option_map (λ b. b.now) result
            ≡ first_some (noted_block_of commitment.now) self.now }
    {
        match self.places.get(commitment) {
            Some(place) => block_at(self.notes, *place as usize, commitment),
            None => None,
        }
    }

    /// The first noted block under a commitment, unless it was pruned.
    pub(crate) fn kept(&self, commitment: &Commitment) -> Option<&'a ChainBlock>
        ensures { option_map (λ b. b.now) result
            ≡ option_and_then
            (λ b. if nat_lt 0 b.height && nat_lt b.height (greatest_prune self.now)
            then None else Some b)
            (first_some (noted_block_of commitment.now) self.now) }
    {
        match self.noted(commitment) {
            Some(block) => {
                if 0 < block.height() && block.height() < self.prune {
                    None
                } else {
                    Some(block)
                }
            }
            None => None,
        }
    }
}

// The block of the note at a place, where it is a Block note of that commitment.
fn block_at<'a>(notes: &'a [Note], place: usize, commitment: &Commitment) -> Option<&'a ChainBlock>
    ensures { option_map (λ b. b.now) result ≡ option_and_then
        (noted_block_of commitment.now) (slice_get notes.now place) }
{
    match notes.get(place) {
        Some(note) => noted_block_of(note, commitment),
        None => None,
    }
}
