//! Two blocks of one digest, of which one is noted after the other.

ghost use Rattle.std.specs.Prelude.{◌≡◌, ◌<◌, ◌++◌, ◌∷◌, List, None, drop, length, option_map};
ghost use Rattle.std.specs.Prelude.{take, IfOk};
ghost use Rattle.std.specs.List.{AllByRecursion};
ghost use Rattle.cw_types.specs.Block.{Block};
ghost use Rattle.cw_types.specs.Encoding.{block_bytes};
ghost use Rattle.cw_rules.specs.Chains.{clash_at, first_clash};
ghost use Rattle.cw_rules.specs.Reached.{AllNamed, IsNamed};
ghost use Rattle.cw_rules.specs.Rules as rules;
ghost use Rattle.cw_rules.specs.Rules.{Rules};
ghost use Rattle.cw_rules.specs.World.{World as RulesWorld};
ghost use Rattle.hail_world.specs.Known.{AreKnown, Knows, blocks_in};
ghost use Rattle.hail_world.specs.Places.{SitAs};
ghost use Rattle.hail_world.specs.Runs.{HasGrown, encoded};

use crate::blocks::KnownBlocks;
use crate::live_node::LiveNode;
use crate::place::Place;
use crate::turn::notes_at;
use cw_base::{Digest32, Hasher, Items, NoMemory};
use cw_types::Note;
use node::Way;
use std::alloc::Global;

/// The first of a member's new blocks that collides with a known one, after the one that it
/// collides with. Where there is none, the new blocks are known.
pub(crate) fn find_clash<H: Hasher<Digest = Digest32>, W: Way>(
    alloc: Global,
    known: &mut KnownBlocks,
    places: &[Place<LiveNode<H, W>>],
    id: usize,
    old: usize,
) -> Result<Option<(Items<u8>, Items<u8>)>, NoMemory>
    requires there { id < length places.now }
    ensures clash { (r : Rules) (before after : RulesWorld) → r.block_bytes ≡ block_bytes
        → SitAs places.now after.members → HasGrown before after id old → AllNamed r after
        → Knows r known.old before
        → IfOk result (λ clash. clash ≡ option_map (encoded r) (clash_at r before after id)) }
    ensures knows { (r : Rules) (before after : RulesWorld) → r.block_bytes ≡ block_bytes
        → SitAs places.now after.members → HasGrown before after id old → AllNamed r after
        → Knows r known.old before
        → IfOk result (λ clash. clash ≡ None → Knows r known.new after) }
{
    let own = notes_at::<H, W>(&places[id]);
    clash_from(alloc, known, own, old)
}

// The first clash that one of a member's notes brings, from a number on.
fn clash_from(
    alloc: Global,
    known: &mut KnownBlocks,
    own: &[Note],
    old: usize,
) -> Result<Option<(Items<u8>, Items<u8>)>, NoMemory>
    ensures clash { (r : Rules) (low high : List Block) → r.block_bytes ≡ block_bytes
        → AllByRecursion (IsNamed r) own.now
        → AreKnown r known.old
        (rules.genesis r ∷ low ++ blocks_in (take old own.now) ++ high)
        → IfOk result (λ clash. clash ≡ option_map (encoded r)
        (first_clash r low (blocks_in (take old own.now)) high (blocks_in (drop old own.now)))) }
    ensures knows { (r : Rules) (low high : List Block) → r.block_bytes ≡ block_bytes
        → AllByRecursion (IsNamed r) own.now
        → AreKnown r known.old
        (rules.genesis r ∷ low ++ blocks_in (take old own.now) ++ high)
        → IfOk result (λ clash. clash ≡ None
        → AreKnown r known.new (rules.genesis r ∷ low ++ blocks_in own.now ++ high)) }
{
    for index in old..own.len() {
        if let Some(both) = known.take(alloc, &own[index])? {
            return Ok(Some(both));
        }
    }
    Ok(None)
}
