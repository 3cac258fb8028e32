//! Noted blocks, with their digests.

ghost use Rattle.std.specs.Prelude.{◌≡◌, IfSome, map, option_and_then, option_map, slice_get};
ghost use Rattle.cw_rules.specs.Held as held;
ghost use Rattle.cw_types.specs.Encoding.{block_bytes};
ghost use Rattle.marshal.specs.Kept.{note_digest};

use cw_base::{Digest32, Hasher};
use cw_types::{ChainBlock, Commitment, Note};
use note_scans::noted_block_of;

/// A block that is there, with its digest.
#[derive(Clone, Copy)]
pub(crate) struct Held<'a> {
    pub block: &'a ChainBlock,
    pub digest: Digest32,
}

/// The block of the note at a place, where it is a Block note of that commitment.
pub(crate) fn block_at<'a, H: Hasher<Digest = Digest32>>(
    notes: &'a [Note],
    digests: &[Option<Digest32>],
    place: usize,
    commitment: &Commitment,
) -> Option<Held<'a>>
    requires { digests.now ≡ map (note_digest H.digest_of) notes.now }
    ensures block { option_map (λ h. h.block.now) result ≡ option_and_then
        (held.noted_block_of commitment.now) (slice_get notes.now place) }
    ensures digest { IfSome result (λ h. h.digest ≡ H.digest_of (block_bytes h.block.now)) }
{
    match notes.get(place) {
        Some(note) => match noted_block_of(note, commitment) {
            Some(block) => match digests[place] {
                Some(digest) => Some(Held { block, digest }),
                None => unreachable!(),
            },
            None => None,
        },
        None => None,
    }
}
