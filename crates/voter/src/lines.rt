//! What came and what notes name, and which of it waits.

ghost use Rattle.std.specs.Prelude.{◌≡◌, ◌++◌, ◌∷◌, [], Bool, List, OnOk, false};
ghost use Rattle.note_scans.specs.Keys.{same_key};
ghost use Rattle.note_scans.specs.declared.key.VoteKey.{VoteKey as KeyValue};
ghost use Rattle.voter.specs.Lineup.{IsKeyed};
ghost use Rattle.voter.specs.Lines.{AreLines, IsComing, IsNoting};

use crate::lineup::Lineup;
use cw_base::NoMemory;
use note_scans::VoteKey;
use std::alloc::Global;

/// What came goes before what notes name: each has a lineup of its own.
#[derive(Drop)]
pub(crate) struct Lines<X> {
    pub(crate) came: Lineup<X>,
    pub(crate) noted: Lineup<X>,
}

impl<X: Copy + Drop> Lines<X> {
    /// Those of nothing.
    pub(crate) fn new(alloc: Global) -> Lines<X>
        ensures { (key : X → KeyValue) (same : X → X → Bool) (passes : X → Bool)
            → AreLines key same passes [] [] result }
    {
        Lines {
            came: Lineup::new(alloc),
            noted: Lineup::new(alloc),
        }
    }

    /// Makes room for one more that comes.
    pub(crate) fn prepare_came(&mut self, name: VoteKey) -> Result<(), NoMemory>
        ensures same { (key : X → KeyValue) (same : X → X → Bool) (passes : X → Bool)
            (came noted : List X) → AreLines key same passes came noted self.old
            → AreLines key same passes came noted self.new }
        ensures ready { OnOk result (IsComing name self.new) }
    {
        self.noted.reserve()?;
        self.came.prepare(name)?;
        Ok(())
    }

    /// Makes room for one more that is noted.
    pub(crate) fn prepare_noted(&mut self, name: VoteKey) -> Result<(), NoMemory>
        ensures same { (key : X → KeyValue) (same : X → X → Bool) (passes : X → Bool)
            (came noted : List X) → AreLines key same passes came noted self.old
            → AreLines key same passes came noted self.new }
        ensures ready { OnOk result (IsNoting name self.new) }
    {
        self.came.reserve()?;
        self.noted.prepare(name)?;
        Ok(())
    }

    /// What came names something, which waits or doesn't. Of all else `was` and `now` say the same.
    /// Takes no memory.
    pub(crate) fn take_came(&mut self, name: &VoteKey, item: X, waits: bool)
        requires { IsComing name.now self.old }
        ensures { (key : X → KeyValue) (same : X → X → Bool) → IsKeyed same_key key same
            → (was now : X → Bool) → ((y : X) → same item y ≡ false → was y ≡ now y)
            → key item ≡ name.now → waits ≡ now item → (came noted : List X)
            → AreLines key same was came noted self.old
            → AreLines key same now (came ++ item ∷ []) noted self.new }
    {
        self.came.take(name, item, waits);
        self.noted.renew(name, item, waits);
    }

    /// A note names something, which waits or doesn't. Of all else `was` and `now` say the same.
    /// Takes no memory.
    pub(crate) fn take_noted(&mut self, name: &VoteKey, item: X, waits: bool)
        requires { IsNoting name.now self.old }
        ensures { (key : X → KeyValue) (same : X → X → Bool) → IsKeyed same_key key same
            → (was now : X → Bool) → ((y : X) → same item y ≡ false → was y ≡ now y)
            → key item ≡ name.now → waits ≡ now item → (came noted : List X)
            → AreLines key same was came noted self.old
            → AreLines key same now came (noted ++ item ∷ []) self.new }
    {
        self.noted.take(name, item, waits);
        self.came.renew(name, item, waits);
    }
}
