//! What is named, in that order, and which of it waits.

ghost use Rattle.std.specs.Prelude.{◌≡◌, ◌++◌, ◌∷◌, ◌-◌, ◌^◌, ◌<◌, [], Bool, List, OnOk, false};
ghost use Rattle.std.specs.Prelude.{filter, length, nat_lt, vec_capacity, vec_len};
ghost use Rattle.std.specs.List.{list_any};
ghost use Rattle.std.specs.Map.{lookup};
ghost use Rattle.note_scans.specs.Keys.{same_key};
ghost use Rattle.note_scans.specs.declared.key.VoteKey.{VoteKey as KeyValue};
ghost use Rattle.voter.specs.Lineup.{IsKeyed, IsLineup, others, place_below, place_of, put_in};
ghost use Rattle.voter.specs.Lineup.{set_in};
ghost use Rattle.voter.specs.Lines.{HasSpare, IsPrepared};

use crate::maps::{put_first, put_there};
use cw_base::NoMemory;
use note_scans::VoteKey;
use std::alloc::Global;
use std::collections::BTreeMap;

/// What is named has a place: how many others were named before it. Those that wait stand with
/// their places, in that order, so one that begins to wait late goes where it belongs.
#[derive(Drop)]
pub(crate) struct Lineup<X> {
    // one above the place of what has that key; 0 says nothing
    pub(crate) places: BTreeMap<VoteKey, usize>,
    // how many are named
    pub(crate) count: usize,
    pub(crate) waiting: Vec<(usize, X)>,
}

// Lets go of the one at a place.
fn drop_at<X: Copy + Drop>(waiting: &mut Vec<(usize, X)>, place: usize)
    ensures items { waiting.new.items ≡ others place waiting.old.items }
    ensures room { vec_len waiting.old < vec_capacity waiting.old
        → vec_len waiting.new < vec_capacity waiting.new }
{
    waiting.retain(|at| at.0 != place);
}

// How many stand below a place.
fn count_below<X: Copy + Drop>(waiting: &[(usize, X)], place: usize) -> usize
    ensures { result ≡ length (filter (λ at. nat_lt at.0 place) waiting.now) }
{
    waiting.iter().filter(|at| at.0 < place).count()
}

// Puts one at its place. Takes no memory.
fn put_at<X: Copy + Drop>(waiting: &mut Vec<(usize, X)>, place: usize, item: X)
    requires { vec_len waiting.old < vec_capacity waiting.old }
    ensures { waiting.new.items ≡ put_in place item waiting.old.items }
{
    let below = count_below(waiting.as_slice(), place);
    match waiting.insert(below, (place, item)) {
        Ok(()) => {}
        Err(_) => {}
    }
}

// Sets whether the one at a place waits. Takes no memory.
fn set_at<X: Copy + Drop>(waiting: &mut Vec<(usize, X)>, place: usize, item: X, waits: bool)
    requires { vec_len waiting.old < vec_capacity waiting.old }
    ensures { waiting.new.items ≡ set_in place item waits waiting.old.items }
{
    drop_at(waiting, place);
    if waits {
        put_at(waiting, place, item);
    }
}

impl<X: Copy + Drop> Lineup<X> {
    /// That of nothing.
    pub(crate) fn new(alloc: Global) -> Lineup<X>
        ensures { (key : X → KeyValue) (same : X → X → Bool) (passes : X → Bool)
            → IsLineup same_key key same passes [] result.places.entries result.count
            result.waiting.items }
    {
        Lineup {
            places: BTreeMap::new(alloc),
            count: 0,
            waiting: Vec::new(alloc),
        }
    }

    /// Makes room for one more that waits.
    pub(crate) fn reserve(&mut self) -> Result<(), NoMemory>
        ensures same { (key : X → KeyValue) (same : X → X → Bool) (passes : X → Bool)
            (named : List X) → IsLineup same_key key same passes named self.old.places.entries
            self.old.count self.old.waiting.items
            → IsLineup same_key key same passes named self.new.places.entries self.new.count
            self.new.waiting.items }
        ensures room { OnOk result (HasSpare self.new) }
    {
        self.waiting.reserve(1)?;
        Ok(())
    }

    /// The same, and makes a key, which has no place yet.
    pub(crate) fn prepare(&mut self, name: VoteKey) -> Result<(), NoMemory>
        ensures same { (key : X → KeyValue) (same : X → X → Bool) (passes : X → Bool)
            (named : List X) → IsLineup same_key key same passes named self.old.places.entries
            self.old.count self.old.waiting.items
            → IsLineup same_key key same passes named self.new.places.entries self.new.count
            self.new.waiting.items }
        ensures ready { OnOk result (IsPrepared name self.new) }
    {
        if self.count == usize::MAX {
            return Err(NoMemory);
        }
        self.waiting.reserve(1)?;
        put_first(&mut self.places, name, 0)?;
        Ok(())
    }

    // One above the place of what has this key, 0 where it has none.
    fn above(&self, name: &VoteKey) -> usize
        ensures { place_of (lookup (same_key name.now) self.now.places.entries)
            ≡ place_below result }
    {
        match self.places.get(name) {
            Some(above) => *above,
            None => 0,
        }
    }

    /// Whether something with this key is named.
    pub(crate) fn has(&self, name: &VoteKey) -> bool
        ensures { (key : X → KeyValue) (same : X → X → Bool) → IsKeyed same_key key same
            → (passes : X → Bool) (named : List X) (x : X) → key x ≡ name.now
            → IsLineup same_key key same passes named self.now.places.entries self.now.count
            self.now.waiting.items
            → result ≡ list_any (same x) named }
    {
        self.above(name) > 0
    }

    /// Something is named, be it again, and waits or doesn't. Of all else `was` and `now` say the
    /// same. Takes no memory.
    pub(crate) fn take(&mut self, name: &VoteKey, item: X, waits: bool)
        requires { IsPrepared name.now self.old }
        ensures { (key : X → KeyValue) (same : X → X → Bool) → IsKeyed same_key key same
            → (was now : X → Bool) → ((y : X) → same item y ≡ false → was y ≡ now y)
            → key item ≡ name.now → waits ≡ now item → (named : List X)
            → IsLineup same_key key same was named self.old.places.entries self.old.count
            self.old.waiting.items
            → IsLineup same_key key same now (named ++ item ∷ []) self.new.places.entries
            self.new.count self.new.waiting.items }
    {
        let above = self.above(name);
        if above == 0 {
            set_at(&mut self.waiting, self.count, item, waits);
            self.count += 1;
            put_there(&mut self.places, *name, self.count);
        } else {
            set_at(&mut self.waiting, above - 1, item, waits);
        }
    }

    /// Something waits or doesn't any more, if it is named. Of all else `was` and `now` say the
    /// same. Takes no memory.
    pub(crate) fn renew(&mut self, name: &VoteKey, item: X, waits: bool)
        requires { HasSpare self.old }
        ensures { (key : X → KeyValue) (same : X → X → Bool) → IsKeyed same_key key same
            → (was now : X → Bool) → ((y : X) → same item y ≡ false → was y ≡ now y)
            → key item ≡ name.now → waits ≡ now item → (named : List X)
            → IsLineup same_key key same was named self.old.places.entries self.old.count
            self.old.waiting.items
            → IsLineup same_key key same now named self.new.places.entries self.new.count
            self.new.waiting.items }
    {
        let above = self.above(name);
        if above > 0 {
            set_at(&mut self.waiting, above - 1, item, waits);
        }
    }
}
