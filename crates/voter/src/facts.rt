//! What notes say, in place of searches through them.

ghost use Rattle.std.specs.Prelude.{◌≡◌, ◌++◌, ◌∷◌, ◌-◌, ◌^◌, ◌<◌, [], IfSome, IsTrue, List};
ghost use Rattle.std.specs.Prelude.{None, OnErr, OnOk};
ghost use Rattle.cw_types.specs.declared.note.Note.{Note as NoteValue};
ghost use Rattle.note_scans.specs.Countable.{is_countable};
ghost use Rattle.voter.specs.Facts.{AreThere, HasEnded, HasSaid, HaveFacts, IsEndThere, IsThere};
ghost use Rattle.voter.specs.Facts.{entered_with, settles};
ghost use Rattle.voter.specs.Heights.{HasBlockHeights, IsBlockThere, kept_height, pruned_with};
ghost use Rattle.voter.specs.Runs.{HaveRuns, IsEndPrepared};

use crate::ended::Ended;
use crate::heights::Heights;
use crate::runs::Runs;
use crate::said::Said;
use crate::settled::Settled;
use cw_base::NoMemory;
use cw_types::{Commitment, Note};
use std::alloc::Global;

/// What notes say of votes, proposals, views, epochs and blocks.
#[derive(Drop)]
pub(crate) struct Facts {
    pub(crate) said: Said,
    pub(crate) settled: Settled,
    pub(crate) ended: Ended,
    pub(crate) runs: Runs,
    pub(crate) epoch: u64,
    pub(crate) heights: Heights,
    // blocks below it, but for those of height 0, are hidden
    pub(crate) prune: u64,
}

impl Facts {
    /// Those of no notes.
    pub(crate) fn new(alloc: Global) -> Facts
        ensures { HaveFacts [] result }
    {
        Facts {
            said: Said::new(alloc),
            settled: Settled::new(alloc),
            ended: Ended::new(alloc),
            runs: Runs::new(alloc),
            epoch: 0,
            heights: Heights::new(alloc),
            prune: 0,
        }
    }

    /// Makes the keys of what a note says, which say nothing yet.
    pub(crate) fn prepare(&mut self, note: &Note) -> Result<(), NoMemory>
        ensures same { (notes : List NoteValue) → HaveFacts notes self.old
            → HaveFacts notes self.new }
        ensures there { OnOk result (AreThere note.now self.new) }
    {
        self.said.prepare(note)?;
        self.ended.prepare(note)?;
        self.runs.prepare(note)?;
        self.heights.prepare(note)
    }

    /// One note more, whose keys are there. Where memory is short nothing changes.
    pub(crate) fn take(&mut self, note: &Note) -> Result<(), NoMemory>
        requires { IsTrue (is_countable note.now) }
        ensures ok { (notes : List NoteValue) → HaveFacts notes self.old
            → AreThere note.now self.old
            → OnOk result (HaveFacts (notes ++ note.now ∷ []) self.new) }
        ensures err { (notes : List NoteValue) → HaveFacts notes self.old
            → OnErr result (HaveFacts notes self.new) }
    {
        self.settled.take(note)?;
        self.write(note);
        Ok(())
    }

    /// The same of a note that settles nothing, which takes no memory.
    pub(crate) fn take_unsettling(&mut self, note: &Note)
        requires { IsTrue (is_countable note.now) }
        ensures { (notes : List NoteValue) → HaveFacts notes self.old → AreThere note.now self.old
            → settles note.now ≡ None → HaveFacts (notes ++ note.now ∷ []) self.new }
    {
        self.write(note);
    }

    // What a note says, but for what it settles.
    fn write(&mut self, note: &Note)
        requires { IsTrue (is_countable note.now) }
        ensures said { (notes : List NoteValue) → HasSaid notes self.old.said.by_key.entries
            → IsThere note.now self.old.said.by_key.entries
            → HasSaid (notes ++ note.now ∷ []) self.new.said.by_key.entries }
        ensures ended { (notes : List NoteValue) → HasEnded notes self.old.ended.by_epoch.entries
            → IsEndThere note.now self.old.ended.by_epoch.entries
            → HasEnded (notes ++ note.now ∷ []) self.new.ended.by_epoch.entries }
        ensures runs { (notes : List NoteValue) → HasSaid notes self.old.said.by_key.entries
            → HaveRuns notes self.old.runs.by_end.entries
            → IsEndPrepared note.now self.old.runs.by_end.entries
            → HaveRuns (notes ++ note.now ∷ []) self.new.runs.by_end.entries }
        ensures epoch { self.new.epoch ≡ entered_with self.old.epoch note.now }
        ensures heights { (notes : List NoteValue)
            → HasBlockHeights notes self.old.heights.above.entries
            → IsBlockThere note.now self.old.heights.above.entries
            → HasBlockHeights (notes ++ note.now ∷ []) self.new.heights.above.entries }
        ensures prune { self.new.prune ≡ pruned_with self.old.prune note.now }
        ensures settled { self.new.settled.by_key.entries ≡ self.old.settled.by_key.entries }
    {
        self.runs.write(note, &self.said);
        self.said.write(note);
        self.ended.write(note);
        self.epoch = entered_with(self.epoch, note);
        self.heights.write(note);
        self.prune = pruned_with(self.prune, note);
    }

    /// The height of the first noted block of a commitment, unless that block was pruned.
    pub(crate) fn kept_height(&self, commitment: &Commitment) -> Option<u64>
        ensures value { (notes : List NoteValue) → HaveFacts notes self.now
            → result ≡ kept_height notes commitment.now }
        ensures bound { IfSome result (λ height. height < 2 ^ 64 - 1) }
    {
        match self.heights.of(commitment) {
            Some(height) => {
                if 0 < height && height < self.prune {
                    None
                } else {
                    Some(height)
                }
            }
            None => None,
        }
    }
}

// The greater of an epoch and the one that a note enters.
fn entered_with(epoch: u64, note: &Note) -> u64
    ensures { result ≡ entered_with epoch note.now }
{
    match note {
        Note::Epoch(entered, _) => epoch.max(*entered),
        _ => epoch,
    }
}

// The greater of a height and the one below which a note lets blocks go.
fn pruned_with(prune: u64, note: &Note) -> u64
    ensures { result ≡ pruned_with prune note.now }
{
    match note {
        Note::Prune(height) => prune.max(*height),
        _ => prune,
    }
}
