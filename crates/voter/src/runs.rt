//! Runs of nullified views.

ghost use Rattle.std.specs.Prelude.{◌≡◌, ◌++◌, ◌+◌, ◌-◌, ◌∷◌, ◌<◌, ◌^◌, [], IsTrue, List, OnOk};
ghost use Rattle.std.specs.Prelude.{if◌then◌else◌};
ghost use Rattle.cw_types.specs.declared.note.Note.{Note as NoteValue};
ghost use Rattle.cw_types.specs.declared.vote.Vote.TheVariants.{Nullify};
ghost use Rattle.note_scans.specs.Countable.{is_countable};
ghost use Rattle.note_scans.specs.Keys.{key_of};
ghost use Rattle.voter.specs.Facts.{HasSaid, said_at};
ghost use Rattle.voter.specs.Runs.{HaveRuns, IsEndPrepared, nullifying, run_at};

use crate::maps::{put_first, put_there};
use crate::said::Said;
use cw_base::NoMemory;
use cw_types::{Note, Vote};
use note_scans::VoteKey;
use std::alloc::Global;
use std::collections::BTreeMap;

// The view that a note nullifies, and its epoch.
fn nullifying(note: &Note) -> Option<(u64, u64)>
    ensures { result ≡ nullifying note.now }
{
    match note {
        Note::Cert(cert) => match &cert.vote {
            Vote::Nullify { epoch, view } => Some((*epoch, *view)),
            _ => None,
        },
        _ => None,
    }
}

// The key of a view of an epoch.
fn end_key(epoch: u64, view: u64) -> VoteKey
    ensures { result ≡ key_of (Nullify epoch view) }
{
    VoteKey::new(&Vote::Nullify { epoch, view })
}

/// A run of nullified views of an epoch.
#[derive(Clone, Copy)]
pub(crate) struct Run {
    pub(crate) first: u64,
    pub(crate) last: u64,
}

/// Each greatest run of nullified views, at its first and at its last view. What stands at other
/// views says nothing.
#[derive(Drop)]
pub(crate) struct Runs {
    pub(crate) by_end: BTreeMap<VoteKey, Run>,
}

impl Runs {
    /// Those of no notes.
    pub(crate) fn new(alloc: Global) -> Runs
        ensures { HaveRuns [] result.by_end.entries }
    {
        Runs {
            by_end: BTreeMap::new(alloc),
        }
    }

    /// Makes the key of the view that a note nullifies, of no run yet.
    pub(crate) fn prepare(&mut self, note: &Note) -> Result<(), NoMemory>
        ensures same { (notes : List NoteValue) → HaveRuns notes self.old.by_end.entries
            → HaveRuns notes self.new.by_end.entries }
        ensures there { OnOk result (IsEndPrepared note.now self.new.by_end.entries) }
    {
        match nullifying(note) {
            Some((epoch, view)) => {
                put_first(
                    &mut self.by_end,
                    end_key(epoch, view),
                    Run { first: 0, last: 0 },
                )?;
                Ok(())
            }
            None => Ok(()),
        }
    }

    /// One note more, whose key is there, by what the notes before it say. It touches the ends of
    /// the runs at its sides alone. Takes no memory.
    pub(crate) fn write(&mut self, note: &Note, said: &Said)
        requires { IsTrue (is_countable note.now) }
        ensures { (notes : List NoteValue) → HasSaid notes said.now.by_key.entries
            → HaveRuns notes self.old.by_end.entries
            → IsEndPrepared note.now self.old.by_end.entries
            → HaveRuns (notes ++ note.now ∷ []) self.new.by_end.entries }
    {
        if let Some((epoch, view)) = nullifying(note) {
            if !said.has_nullified(epoch, view) {
                let run = self.joined(said, epoch, view);
                put_there(&mut self.by_end, end_key(epoch, run.first), run);
                put_there(&mut self.by_end, end_key(epoch, run.last), run);
            }
        }
    }

    /// What stands at a view of an epoch.
    pub(crate) fn at(&self, epoch: u64, view: u64) -> Run
        ensures { result ≡ run_at epoch view self.now.by_end.entries }
    {
        match self.by_end.get(&end_key(epoch, view)) {
            Some(run) => *run,
            None => Run { first: 0, last: 0 },
        }
    }

    // The run that a view makes with those at its sides, once it is nullified.
    fn joined(&self, said: &Said, epoch: u64, view: u64) -> Run
        requires above { 0 < view }
        requires below { view < 2 ^ 64 - 1 }
        ensures first { result.first
            ≡ (if said_at (key_of (Nullify epoch (view - 1))) said.now.by_key.entries
            then (run_at epoch (view - 1) self.now.by_end.entries).first else view) }
        ensures last { result.last
            ≡ (if said_at (key_of (Nullify epoch (view + 1))) said.now.by_key.entries
            then (run_at epoch (view + 1) self.now.by_end.entries).last else view) }
    {
        Run {
            first: self.first_below(said, epoch, view),
            last: self.last_above(said, epoch, view),
        }
    }

    // The first view of the run that ends right below a view, else that view.
    fn first_below(&self, said: &Said, epoch: u64, view: u64) -> u64
        requires { 0 < view }
        ensures { result
            ≡ (if said_at (key_of (Nullify epoch (view - 1))) said.now.by_key.entries
            then (run_at epoch (view - 1) self.now.by_end.entries).first else view) }
    {
        if said.has_nullified(epoch, view - 1) {
            self.at(epoch, view - 1).first
        } else {
            view
        }
    }

    // The last view of the run that begins right above a view, else that view.
    fn last_above(&self, said: &Said, epoch: u64, view: u64) -> u64
        requires { view < 2 ^ 64 - 1 }
        ensures { result
            ≡ (if said_at (key_of (Nullify epoch (view + 1))) said.now.by_key.entries
            then (run_at epoch (view + 1) self.now.by_end.entries).last else view) }
    {
        if said.has_nullified(epoch, view + 1) {
            self.at(epoch, view + 1).last
        } else {
            view
        }
    }
}
