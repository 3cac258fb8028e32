//! The blocks that are noted, and what notes say of commitments.

ghost use Rattle.std.specs.Prelude.{◌≡◌, ◌<◌, ◌&&◌, None, Some, filter_map};
ghost use Rattle.std.specs.Prelude.{option_map};
ghost use Rattle.std.specs.List.{last_or};
ghost use Rattle.cw_rules.specs.Accepted.{first_some};
ghost use Rattle.cw_rules.specs.Held as held;
ghost use Rattle.note_scans.specs.Verified.{verified_in};

use crate::heights::greatest_prune;
use cw_types::{ChainBlock, Commitment, Note, Proposal, Round, Vote};

// The first noted block under a commitment, be it pruned or not.
fn first_block<'a>(notes: &'a [Note], commitment: &Commitment) -> Option<&'a ChainBlock>
    ensures { option_map (λ b. b.now) result
        ≡ first_some (held.noted_block_of commitment.now) notes.now }
{
    for note in notes {
        if let Some(block) = noted_block_of(note, commitment) {
            return Some(block);
        }
    }
    None
}

/// The first noted block under a commitment, unless it was pruned. So it is the held block wherever
/// the commitment isn't that of genesis.
pub fn kept_block<'a>(notes: &'a [Note], commitment: &Commitment) -> Option<&'a ChainBlock>
    ensures { option_map (λ b. b.now) result ≡ held.kept_block notes.now commitment.now }
{
    match first_block(notes, commitment) {
        Some(block) => {
            if 0 < block.height() && block.height() < greatest_prune(notes) {
                None
            } else {
                Some(block)
            }
        }
        None => None,
    }
}

/// The block of a note, where it is under that commitment.
pub fn noted_block_of<'a>(note: &'a Note, commitment: &Commitment) -> Option<&'a ChainBlock>
    ensures { option_map (λ b. b.now) result ≡ held.noted_block_of commitment.now note.now }
{
    match note {
        Note::Block(other, block) => {
            if commitment.is_same(other) {
                Some(block)
            } else {
                None
            }
        }
        _ => None,
    }
}

/// The proposal of a noted finalization.
pub fn finalization_of(note: &Note) -> Option<Proposal>
    ensures { result ≡ held.finalization_of note.now }
{
    match note {
        Note::Cert(cert) => match cert.vote {
            Vote::Finalize(proposal) => Some(proposal),
            _ => None,
        },
        _ => None,
    }
}

/// The commitment that the last note of a verification in the round names.
pub fn last_verified(notes: &[Note], round: Round) -> Option<Commitment>
    ensures { result ≡ last_or None (filter_map (verified_in round) notes.now) }
{
    notes
        .iter()
        .filter_map(|note| verified_in(note, round))
        .last()
}

fn verified_in(note: &Note, round: Round) -> Option<Commitment>
    ensures { result ≡ verified_in round note.now }
{
    match note {
        Note::Verified(epoch, view, commitment) => {
            if *epoch == round.epoch.get() && *view == round.view.get() {
                Some(*commitment)
            } else {
                None
            }
        }
        _ => None,
    }
}
