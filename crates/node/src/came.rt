//! What came, and which blocks it shows, with the places of the first under each commitment, and of
//! the first over each parent.

ghost use Rattle.std.specs.Prelude.{◌≡◌, ◌≤◌, ◌++◌, ◌∷◌, [], List, OnErr, OnOk, drop, length};
ghost use Rattle.std.specs.Prelude.{option_and_then, slice_get};
ghost use Rattle.std.specs.List.{list_any};
ghost use Rattle.std.specs.Option.{option_map};
ghost use Rattle.cw_rules.specs.Accepted.{first_some};
ghost use Rattle.node.specs.Arriving.{ArePlaces, PutsFirst};
ghost use Rattle.node.specs.Holding.{is_whole, shown_under, whole_under};
ghost use Rattle.node.specs.declared.arrival.Arrival.{Arrival as ArrivalValue};

use crate::arrival::{Arrival, Shown};
use cw_base::NoMemory;
use cw_types::{ChainBlock, Commitment};
use std::alloc::Global;
use std::collections::BTreeMap;
use std::marker::Model;

/// What came, in order. Contracts see the list.
#[derive(Drop)]
pub(crate) struct Arrivals {
    list: Vec<Arrival>,
    wholes: BTreeMap<Commitment, u64>,
    // By the commitment of a parent, the place from which on whole blocks over it stand.
    children: BTreeMap<Commitment, u64>,
}

impl Model for Arrivals {
    ghost use Rattle.std.specs.Prelude.{List};
    ghost use Rattle.node.specs.Arriving.{ArePlaces};
    ghost use Rattle.node.specs.declared.arrival.Arrival.{Arrival};

    ghost Value = { List Arrival };

    ghost view = { λ a. a.list.items };

    ghost invariant = { λ a. ArePlaces a.list.items a.wholes.entries a.children.entries };
}

impl Arrivals {
    /// Nothing came.
    pub(crate) fn new(alloc: Global) -> Arrivals
        ensures { result ≡ [] }
    {
        Arrivals {
            list: Vec::new(alloc),
            wholes: BTreeMap::new(alloc),
            children: BTreeMap::new(alloc),
        }
    }

    /// What came, in order.
    pub(crate) fn as_slice(&self) -> &[Arrival]
        ensures { result.now ≡ self.now }
    {
        &self.list
    }

    /// One more came. Where memory is short nothing changes.
    pub(crate) fn push(&mut self, arrival: Arrival) -> Result<(), NoMemory>
        ensures ok { OnOk result (self.new ≡ self.old ++ arrival ∷ []) }
        ensures err { OnErr result (self.new ≡ self.old) }
    {
        self.list.reserve(1)?;
        let place = self.list.len() as u64;
        put_places(&mut self.wholes, &mut self.children, &arrival, place)?;
        self.list.push_reserved(arrival);
        Ok(())
    }

    /// The first block that came whole under a commitment.
    pub(crate) fn whole(&self, commitment: &Commitment) -> Option<&ChainBlock>
        ensures { option_map (λ block. block.now) result
            ≡ first_some (whole_under commitment.now) self.now }
    {
        match self.wholes.get(commitment) {
            Some(place) => whole_at(&self.list, *place as usize, commitment),
            None => None,
        }
    }

    /// Whether that block came whole.
    pub(crate) fn has(&self, block: &ChainBlock) -> bool
        ensures { result ≡ list_any (is_whole block.now) self.now }
    {
        match self.children.get(&block.context().parent) {
            Some(place) => stands_from(&self.list, *place as usize, block),
            None => false,
        }
    }
}

/// Blocks that chunks of their commitments showed, in the order in which they did. Contracts see
/// the list.
#[derive(Drop)]
pub(crate) struct ShownBlocks {
    list: Vec<Shown>,
    places: BTreeMap<Commitment, u64>,
}

impl Model for ShownBlocks {
    ghost use Rattle.std.specs.Prelude.{List};
    ghost use Rattle.node.specs.Arriving.{HasFirstsUnder};
    ghost use Rattle.node.specs.Holding.{shown_under};
    ghost use Rattle.node.specs.declared.arrival.Shown.{Shown};

    ghost Value = { List Shown };

    ghost view = { λ s. s.list.items };

    ghost invariant = { λ s. HasFirstsUnder shown_under s.list.items s.places.entries };
}

impl ShownBlocks {
    /// No block was shown.
    pub(crate) fn new(alloc: Global) -> ShownBlocks
        ensures { result ≡ [] }
    {
        ShownBlocks {
            list: Vec::new(alloc),
            places: BTreeMap::new(alloc),
        }
    }

    /// One more was shown. Where memory is short nothing changes.
    pub(crate) fn push(&mut self, shown: Shown) -> Result<(), NoMemory>
        ensures ok { OnOk result (self.new ≡ self.old ++ shown ∷ []) }
        ensures err { OnErr result (self.new ≡ self.old) }
    {
        self.list.reserve(1)?;
        put_first(&mut self.places, &shown.commitment, self.list.len() as u64)?;
        self.list.push_reserved(shown);
        Ok(())
    }

    /// The first that was shown under a commitment.
    pub(crate) fn under(&self, commitment: &Commitment) -> Option<&ChainBlock>
        ensures { option_map (λ block. block.now) result
            ≡ first_some (shown_under commitment.now) self.now }
    {
        match self.places.get(commitment) {
            Some(place) => shown_at(&self.list, *place as usize, commitment),
            None => None,
        }
    }
}

// Keeps a place at a commitment that has none. Where memory is short nothing changes.
fn put_first(
    places: &mut BTreeMap<Commitment, u64>,
    commitment: &Commitment,
    place: u64,
) -> Result<(), NoMemory>
    ensures ok { OnOk result (PutsFirst commitment.now place places.old.entries
        places.new.entries) }
    ensures err { OnErr result (places.new.entries ≡ places.old.entries) }
{
    if places.contains_key(commitment) {
        return Ok(());
    }
    places.insert(*commitment, place)?;
    Ok(())
}

// Keeps the place of an arrival, where it came whole, under its commitment and its parent's. Where
// memory is short it may be kept under the parent's alone, from which on none stands yet.
fn put_places(
    wholes: &mut BTreeMap<Commitment, u64>,
    children: &mut BTreeMap<Commitment, u64>,
    arrival: &Arrival,
    place: u64,
) -> Result<(), NoMemory>
    ensures ok { (xs : List ArrivalValue) → ArePlaces xs wholes.old.entries children.old.entries
        → place ≡ length xs
        → OnOk result (ArePlaces (xs ++ arrival.now ∷ []) wholes.new.entries
        children.new.entries) }
    ensures err { (xs : List ArrivalValue) → ArePlaces xs wholes.old.entries children.old.entries
        → place ≡ length xs → OnErr result (ArePlaces xs wholes.new.entries children.new.entries) }
{
    match &arrival.block {
        Some(block) => {
            put_first(children, &block.context().parent, place)?;
            put_first(wholes, &arrival.commitment, place)?;
            Ok(())
        }
        None => Ok(()),
    }
}

// The block of the arrival at a place, where it came whole under that commitment.
fn whole_at<'a>(
    arrivals: &'a [Arrival],
    place: usize,
    commitment: &Commitment,
) -> Option<&'a ChainBlock>
    ensures { option_map (λ block. block.now) result
        ≡ option_and_then (whole_under commitment.now) (slice_get arrivals.now place) }
{
    match arrivals.get(place) {
        Some(arrival) => whole_of(arrival, commitment),
        None => None,
    }
}

// The block that was shown at a place, where it is under that commitment.
fn shown_at<'a>(shown: &'a [Shown], place: usize, commitment: &Commitment) -> Option<&'a ChainBlock>
    ensures { option_map (λ block. block.now) result
        ≡ option_and_then (shown_under commitment.now) (slice_get shown.now place) }
{
    match shown.get(place) {
        Some(one) => {
            if commitment.is_same(&one.commitment) {
                Some(&one.block)
            } else {
                None
            }
        }
        None => None,
    }
}

// The block of an arrival, where it came whole under that commitment.
fn whole_of<'a>(arrival: &'a Arrival, commitment: &Commitment) -> Option<&'a ChainBlock>
    ensures { option_map (λ block. block.now) result ≡ whole_under commitment.now arrival.now }
{
    match &arrival.block {
        Some(block) => {
            if arrival.commitment.is_same(commitment) {
                Some(block)
            } else {
                None
            }
        }
        None => None,
    }
}

// Whether that block came whole, at that place or behind it.
#[tactic(auto, using(crate::proofs::Leading::rest_is))]
fn stands_from(arrivals: &[Arrival], place: usize, block: &ChainBlock) -> bool
    requires { place ≤ length arrivals.now }
    ensures { result ≡ list_any (is_whole block.now) (drop place arrivals.now) }
{
    is_among(&arrivals[place..], block)
}

// Whether that block came whole among these.
fn is_among(arrivals: &[Arrival], block: &ChainBlock) -> bool
    ensures { result ≡ list_any (is_whole block.now) arrivals.now }
{
    arrivals.iter().any(|arrival| is_arrival_of(arrival, block))
}

// Whether it is that block, which came whole.
fn is_arrival_of(arrival: &Arrival, block: &ChainBlock) -> bool
    ensures { result ≡ is_whole block.now arrival.now }
{
    match &arrival.block {
        Some(other) => block.is_same(other),
        None => false,
    }
}
