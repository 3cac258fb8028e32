//! What the noted finalizations reach at each height, in place of walks.

ghost use Rattle.std.specs.Prelude.{◌≡◌, ◌++◌, ◌∷◌, ◌<◌, ◌-◌, ◌^◌, [], List, None, ℕ, Some};
ghost use Rattle.std.specs.Prelude.{false, filter_map, if◌then◌else◌, true};
ghost use Rattle.std.specs.Ordering.{is_eq, nat_cmp};
ghost use Rattle.cw_types.specs.declared.note.Note.{Note as NoteValue};
ghost use Rattle.cw_types.specs.declared.vote.Proposal.{Proposal};
ghost use Rattle.cw_rules.specs.Held.{finalization_of};
ghost use Rattle.cw_rules.specs.Rules.{Rules};
ghost use Rattle.marshal.specs.Bare.{bare};
ghost use Rattle.marshal.specs.Heights.{IsWalked, TellsReached, TellsReachedOfAll, is_awaited, there};

use crate::notes::Notes;
use cw_base::{Digest32, Hasher};
use cw_types::{ChainBlock, Commitment, Note};
use note_scans::finalization_of;
use std::alloc::Global;
use std::collections::BTreeMap;

/// At each height the commitment that noted finalizations reach there. It says so only while it is
/// known; else heights are walked to.
#[derive(Drop)]
pub(crate) struct ByHeight {
    pub(crate) known: bool,
    // two finalizations reach two commitments at one height: a quorum is broken
    pub(crate) split: bool,
    pub(crate) at: BTreeMap<u64, Commitment>,
}

impl ByHeight {
    /// One that says nothing.
    pub(crate) fn unknown(alloc: Global) -> ByHeight
        ensures { result.known ≡ false }
    {
        ByHeight {
            known: false,
            split: false,
            at: BTreeMap::new(alloc),
        }
    }

    // That of no finalizations.
    fn new(alloc: Global) -> ByHeight
        ensures { (r : Rules) (notes : List NoteValue) → TellsReached r notes [] result }
    {
        ByHeight {
            known: true,
            split: false,
            at: BTreeMap::new(alloc),
        }
    }

    /// That of these notes.
    pub(crate) fn of_notes<H: Hasher<Digest = Digest32>>(
        alloc: Global,
        notes: &Notes<H>,
    ) -> ByHeight
        ensures { TellsReachedOfAll (bare H.digest_of) notes.now result }
    {
        let mut heights = ByHeight::new(alloc);
        for note in notes.as_slice() {
            heights.put_final(notes, note);
        }
        heights
    }

    /// A note goes behind these notes.
    pub(crate) fn put<H: Hasher<Digest = Digest32>>(&mut self, notes: &Notes<H>, note: &Note)
        ensures { TellsReachedOfAll (bare H.digest_of) notes.now self.old
            → TellsReachedOfAll (bare H.digest_of) (notes.now ++ note.now ∷ []) self.new }
    {
        match note {
            Note::Block(commitment, block) => self.put_block(notes, commitment, block),
            _ => self.put_final(notes, note),
        }
    }

    // A finalization more, where the note is one.
    fn put_final<H: Hasher<Digest = Digest32>>(&mut self, notes: &Notes<H>, note: &Note)
        ensures { (finals : List Proposal) → TellsReached (bare H.digest_of) notes.now finals self.old
            → TellsReached (bare H.digest_of) notes.now
            (finals ++ filter_map finalization_of (note.now ∷ [])) self.new }
    {
        if let Some(proposal) = finalization_of(note) {
            if let Some(found) = notes.held(&proposal.payload) {
                self.enter(notes, proposal.payload, found.block);
            }
        }
    }

    // A block more under a commitment. It is walked from where a finalization reaches it.
    fn put_block<H: Hasher<Digest = Digest32>>(
        &mut self,
        notes: &Notes<H>,
        commitment: &Commitment,
        block: &ChainBlock,
    )
        ensures { TellsReachedOfAll (bare H.digest_of) notes.now self.old
            → TellsReachedOfAll (bare H.digest_of)
            (notes.now ++ NoteValue.Block commitment.now block.now ∷ []) self.new }
    {
        if !notes.becomes_held(commitment, block) {
            return;
        }
        if self.is_awaited(notes, commitment, block.height()) {
            self.enter(notes, *commitment, block);
        }
    }

    // Whether a finalization is of the commitment, or a block is reached right above that height
    // whose parent it is.
    fn is_awaited<H: Hasher<Digest = Digest32>>(
        &self,
        notes: &Notes<H>,
        commitment: &Commitment,
        height: u64,
    ) -> bool
        requires { height < 2 ^ 64 - 1 }
        ensures { result ≡ is_awaited (bare H.digest_of) notes.now self.now.at.entries
            commitment.now height }
    {
        if notes.is_finalized(commitment) {
            return true;
        }
        match self.at.get(&(height + 1)) {
            Some(upper) => match notes.held(upper) {
                Some(found) => {
                    found.block.height() == height + 1
                        && found.block.context().parent.is_same(commitment)
                }
                None => false,
            },
            None => false,
        }
    }

    // Enters a block and those that it reaches by parents, down to where one stands already.
    fn enter<'a, H: Hasher<Digest = Digest32>>(
        &mut self,
        notes: &'a Notes<H>,
        commitment: Commitment,
        block: &'a ChainBlock,
    )
        ensures known { self.new.known ≡ true → self.old.known ≡ true }
        ensures entered { self.new.known ≡ true → IsWalked (bare H.digest_of) notes.now
            commitment block.now self.old.at.entries self.new.at.entries }
    {
        let mut below = commitment;
        let mut next = Some(block);
        while let Some(found) = next {
            if !self.put_new(found.height(), below) {
                return;
            }
            below = found.context().parent;
            next = match notes.parent_of(found) {
                Some(parent) => Some(parent.block),
                None => None,
            };
        }
    }

    // Enters a commitment at a height where none stands; true where it did. Where another one
    // stands, or memory is short, nothing is known any longer.
    fn put_new(&mut self, height: u64, commitment: Commitment) -> bool
        ensures known { self.new.known ≡ true → self.old.known ≡ true }
        ensures fresh { result ≡ true → there height self.old.at.entries ≡ None }
        ensures there { result ≡ false → self.new.known ≡ true
            → there height self.old.at.entries ≡ Some commitment }
        ensures same { result ≡ false → self.new.at.entries ≡ self.old.at.entries }
        ensures entry { result ≡ true → (h : ℕ) → there h self.new.at.entries
            ≡ (if is_eq (nat_cmp height h) then Some commitment
            else there h self.old.at.entries) }
    {
        match self.at.get(&height) {
            Some(there) => {
                if !there.is_same(&commitment) {
                    self.known = false;
                    self.split = true;
                }
                false
            }
            None => match self.at.insert(height, commitment) {
                Ok(_) => true,
                Err(_) => {
                    self.known = false;
                    false
                }
            },
        }
    }
}
