//! The chain at the end of a run.

ghost use Rattle.std.specs.Prelude.{◌≡◌, ◌++◌, [], None, Option, flat_map, map, option_map, IfOk};
ghost use Rattle.std.specs.Option.{option_map_or};
ghost use Rattle.cw_rules.specs.Accepted.{first_some};
ghost use Rattle.cw_rules.specs.Chains.{block_under as block_in, chain_to};
ghost use Rattle.cw_rules.specs.Held.{noted_block_of};
ghost use Rattle.cw_rules.specs.Report.{highest as highest_of};
ghost use Rattle.cw_rules.specs.Rules.{Rules};
ghost use Rattle.cw_rules.specs.World.{World as RulesWorld};
ghost use Rattle.hail_world.specs.Places.{SitAs, notes_at as notes_in};
ghost use Rattle.hail_world.specs.Runs.{GoesBy, chain_from, first_named, higher, under};

use crate::live_node::LiveNode;
use crate::place::Place;
use crate::turn::notes_at;
use cw_base::{Digest32, Hasher, Items, NoMemory};
use cw_types::{ChainBlock, Commitment, Handed, Note, genesis, genesis_commitment};
use hail_report::Entry;
use node::Way;
use std::alloc::Global;

/// The chain up to the block that was handed out at the greatest height.
pub(crate) fn chain_of<H: Hasher<Digest = Digest32>, W: Way>(
    alloc: Global,
    places: &[Place<LiveNode<H, W>>],
    opening: &[Entry],
    steps: &[Entry],
) -> Result<Items<ChainBlock>, NoMemory>
    ensures { (r : Rules) (w : RulesWorld) → GoesBy H.digest_of r → SitAs places.now w.members
        → IfOk result
        (λ chain. chain ≡ chain_from r w
        (highest_of (flat_map (λ e. e.handed) (opening.now ++ steps.now)))) }
{
    match highest(steps, highest(opening, None)) {
        None => Ok(Items::new(alloc)),
        Some(top) => {
            let top = block_under::<H, W>(alloc, places, &top.commitment)?;
            links_to::<H, W>(alloc, places, top)
        }
    }
}

// The blocks from genesis up to one, each under the parent commitment of the one above it.
fn links_to<H: Hasher<Digest = Digest32>, W: Way>(
    alloc: Global,
    places: &[Place<LiveNode<H, W>>],
    top: Option<ChainBlock>,
) -> Result<Items<ChainBlock>, NoMemory>
    ensures { (r : Rules) (w : RulesWorld) → GoesBy H.digest_of r → SitAs places.now w.members
        → IfOk result (λ chain. chain ≡ option_map_or (λ b. chain_to r w b) top []) }
{
    let mut down = Vec::new(alloc);
    let mut left = height_of(&top);
    let mut next = top;
    while let Some(block) = next {
        next = parent::<H, W>(alloc, places, &block, left)?;
        left = left.saturating_sub(1);
        down.push(block)?;
    }
    down.reverse();
    Ok(Items::from_vec(down))
}

fn height_of(block: &Option<ChainBlock>) -> u64
    ensures { result ≡ option_map_or (λ b. b.height) block.now 0 }
{
    match block {
        Some(block) => block.height(),
        None => 0,
    }
}

// The block under the parent commitment of one, where some are left.
fn parent<H: Hasher<Digest = Digest32>, W: Way>(
    alloc: Global,
    places: &[Place<LiveNode<H, W>>],
    block: &ChainBlock,
    left: u64,
) -> Result<Option<ChainBlock>, NoMemory>
    ensures below { (r : Rules) (w : RulesWorld) → GoesBy H.digest_of r
        → SitAs places.now w.members
        → IfOk result (λ next. next ≡ under r w left block.now) }
    ensures bottom { left ≡ 0 → IfOk result (λ next. next ≡ None) }
{
    if left == 0 {
        return Ok(None);
    }
    block_under::<H, W>(alloc, places, &block.context().parent)
}

// The block of the first note of a commitment, and genesis for its own.
fn block_under<H: Hasher<Digest = Digest32>, W: Way>(
    alloc: Global,
    places: &[Place<LiveNode<H, W>>],
    commitment: &Commitment,
) -> Result<Option<ChainBlock>, NoMemory>
    ensures { (r : Rules) (w : RulesWorld) → GoesBy H.digest_of r → SitAs places.now w.members
        → IfOk result (λ block. block ≡ block_in r w commitment.now) }
{
    named::<H, W>(alloc, places, commitment)
}

fn named<H: Hasher<Digest = Digest32>, W: Way>(
    alloc: Global,
    places: &[Place<LiveNode<H, W>>],
    commitment: &Commitment,
) -> Result<Option<ChainBlock>, NoMemory>
    ensures { IfOk result
        (λ block. block ≡ first_named H.digest_of (map notes_in places.now) commitment.now) }
{
    if commitment.is_same(&genesis_commitment::<H>()) {
        return Ok(Some(genesis::<H>(alloc)));
    }
    match noted_in::<H, W>(places, commitment) {
        Some(block) => Ok(Some(block.copy(alloc)?)),
        None => Ok(None),
    }
}

// The block of the first note of a commitment, by place.
fn noted_in<'a, H: Hasher<Digest = Digest32>, W: Way>(
    places: &'a [Place<LiveNode<H, W>>],
    commitment: &Commitment,
) -> Option<&'a ChainBlock>
    ensures { option_map (λ b. b.now) result ≡ first_some (noted_block_of commitment.now)
        (flat_map (λ notes. notes) (map notes_in places.now)) }
{
    for place in places {
        if let Some(found) = noted_by(notes_at::<H, W>(place), commitment) {
            return Some(found);
        }
    }
    None
}

fn noted_by<'a>(notes: &'a [Note], commitment: &Commitment) -> Option<&'a ChainBlock>
    ensures { option_map (λ b. b.now) result ≡ first_some
        (noted_block_of commitment.now) notes.now }
{
    for note in notes {
        if let Some(found) = noted(note, commitment) {
            return Some(found);
        }
    }
    None
}

// The block of a note, where it is under that commitment.
fn noted<'a>(note: &'a Note, commitment: &Commitment) -> Option<&'a ChainBlock>
    ensures { option_map (λ b. b.now) result ≡ noted_block_of commitment.now note.now }
{
    match note {
        Note::Block(other, block) => {
            if commitment.is_same(other) {
                Some(block)
            } else {
                None
            }
        }
        _ => None,
    }
}

// The first of the greatest height.
#[tactic(auto, using(crate::proofs::Standing::higher_on))]
fn highest(entries: &[Entry], found: Option<Handed>) -> Option<Handed>
    ensures { result ≡ higher found (flat_map (λ e. e.handed) entries.now) }
{
    let mut found = found;
    for entry in entries {
        found = highest_in(entry.handed.as_slice(), found);
    }
    found
}

fn highest_in(handed: &[Handed], found: Option<Handed>) -> Option<Handed>
    ensures { result ≡ higher found handed.now }
{
    let mut found = found;
    for block in handed {
        found = match found {
            Some(best) if best.height >= block.height => Some(best),
            _ => Some(*block),
        };
    }
    found
}
