//! What notes are looked up by, in place of searches.

ghost use Rattle.std.specs.Prelude.{◌≡◌, ◌++◌, ◌∷◌, [], List, OnErr, OnOk, Option, length};
ghost use Rattle.cw_base.specs.declared.hash.Digest32.{Digest32 as DigestValue};
ghost use Rattle.cw_types.specs.declared.note.Note.{Note as NoteValue};
ghost use Rattle.marshal.specs.Indexed.{IsIndexOf};

use crate::by_digest::ByDigest;
use crate::by_round::ByRound;
use crate::certs::Certs;
use crate::places::{put_place, take_place};
use cw_base::{Digest32, NoMemory};
use cw_types::{Commitment, Note};
use std::alloc::Global;
use std::collections::BTreeMap;

/// Where the first Block note of each commitment stands, the first finalization of each payload,
/// the first certificate of each vote, and each digest; and what was verified last in each round.
#[derive(Drop)]
pub(crate) struct Index {
    pub(crate) places: BTreeMap<Commitment, u64>,
    pub(crate) finals: BTreeMap<Commitment, u64>,
    pub(crate) certs: Certs,
    pub(crate) by_digest: ByDigest,
    pub(crate) by_round: ByRound,
}

impl Index {
    /// That of no notes.
    pub(crate) fn new(alloc: Global) -> Index
        ensures { IsIndexOf [] [] result }
    {
        Index {
            places: BTreeMap::new(alloc),
            finals: BTreeMap::new(alloc),
            certs: Certs::new(alloc),
            by_digest: ByDigest::new(alloc),
            by_round: ByRound::new(alloc),
        }
    }

    /// A note goes to the end, at this place, with the digest of its block. Where memory is short
    /// it stays that of the notes before.
    pub(crate) fn put(
        &mut self,
        note: &Note,
        digest: Option<Digest32>,
        place: u64,
    ) -> Result<(), NoMemory>
        ensures ok { (notes : List NoteValue) (digests : List (Option DigestValue))
            → IsIndexOf notes digests self.old → place ≡ length notes → place ≡ length digests
            → OnOk result (IsIndexOf (notes ++ note.now ∷ []) (digests ++ digest ∷ [])
            self.new) }
        ensures err { (notes : List NoteValue) (digests : List (Option DigestValue))
            → IsIndexOf notes digests self.old → place ≡ length notes → place ≡ length digests
            → OnErr result (IsIndexOf notes digests self.new) }
    {
        self.by_digest.put(digest, place)?;
        if let Err(NoMemory) = self.certs.put(note, place) {
            self.by_digest.take(digest, place);
            return Err(NoMemory);
        }
        if let Err(NoMemory) = put_place(&mut self.places, &mut self.finals, note, place) {
            self.by_digest.take(digest, place);
            self.certs.take(note, place);
            return Err(NoMemory);
        }
        if let Err(NoMemory) = self.by_round.put(note) {
            self.by_digest.take(digest, place);
            self.certs.take(note, place);
            take_place(&mut self.places, &mut self.finals, note, place);
            return Err(NoMemory);
        }
        Ok(())
    }

    /// Lets the note behind these go, with the digest of its block.
    pub(crate) fn take(&mut self, note: &Note, digest: Option<Digest32>, notes: &[Note])
        ensures { (digests : List (Option DigestValue))
            → IsIndexOf (notes.now ++ note.now ∷ []) (digests ++ digest ∷ []) self.old
            → length digests ≡ length notes.now → IsIndexOf notes.now digests self.new }
    {
        let place = notes.len() as u64;
        self.by_digest.take(digest, place);
        self.certs.take(note, place);
        take_place(&mut self.places, &mut self.finals, note, place);
        self.by_round.take(note, notes);
    }
}
