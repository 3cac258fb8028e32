//! The way down from a finalized block.

ghost use Rattle.std.specs.Prelude.{◌≡◌, ◌∷◌, ℕ, Bool, IfOk, List};
ghost use Rattle.cw_rules.specs.Rules as rule;
ghost use Rattle.cw_rules_coded.specs.Coded.{coded};
ghost use Rattle.cw_types.specs.Block.{Block};
ghost use Rattle.cw_light.specs.Checking as spec;

use cw_base::{Digest32, Hasher, NoMemory, Strategy};
use cw_rules_coded::commits_by_rules;
use cw_types::{ChainBlock, Commitment, Committees, commit, genesis, genesis_commitment};
use std::alloc::Global;
use std::thread::Threads;

/// The first place of a path where its block isn't the one that is wanted.
pub(crate) fn broken_at<H: Hasher<Digest = Digest32>, R: Threads + Sync, S: Strategy>(
    rt: &R,
    alloc: Global,
    committees: &Committees,
    commitment: &Commitment,
    path: &[ChainBlock],
    strategy: &S,
) -> Result<Option<u64>, NoMemory>
    ensures { (backlog : ℕ) (accepts : Block → Block → Bool)
        → IfOk result (λ place. place
        ≡ spec.broken_at (coded H.digest_of committees.now backlog accepts)
        commitment.now path.now) }
{
    let Some(first) = path.first() else {
        return Ok(None);
    };
    if !is_named::<H, R, S>(rt, alloc, committees, commitment, first, strategy)? {
        return Ok(Some(0));
    }
    broken_below::<H, R, S>(rt, alloc, committees, path, strategy)
}

// The first place of a path, behind the first one, where the block isn't the parent of the one
// before it.
fn broken_below<H: Hasher<Digest = Digest32>, R: Threads + Sync, S: Strategy>(
    rt: &R,
    alloc: Global,
    committees: &Committees,
    path: &[ChainBlock],
    strategy: &S,
) -> Result<Option<u64>, NoMemory>
    ensures { (backlog : ℕ) (accepts : Block → Block → Bool) (first : Block) (below : List Block)
        → path.now ≡ first ∷ below
        → IfOk result (λ place. place
        ≡ spec.broken_below (coded H.digest_of committees.now backlog accepts) 1 first below) }
{
    for place in 1..path.len() {
        let above = &path[place - 1];
        if !is_parent::<H, R, S>(rt, alloc, committees, above, &path[place], strategy)? {
            return Ok(Some(place as u64));
        }
    }
    Ok(None)
}

// Whether a block is the parent that one names, one height lower.
fn is_parent<H: Hasher<Digest = Digest32>, R: Threads + Sync, S: Strategy>(
    rt: &R,
    alloc: Global,
    committees: &Committees,
    above: &ChainBlock,
    block: &ChainBlock,
    strategy: &S,
) -> Result<bool, NoMemory>
    ensures { (backlog : ℕ) (accepts : Block → Block → Bool)
        → IfOk result (λ is. is
        ≡ spec.is_parent_of (coded H.digest_of committees.now backlog accepts)
        above.now block.now) }
{
    let parent = &above.context().parent;
    let is_named = is_named::<H, R, S>(rt, alloc, committees, parent, block, strategy)?;
    Ok(is_named && block.height() + 1 == above.height())
}

// Whether a block is the one that a commitment names.
fn is_named<H: Hasher<Digest = Digest32>, R: Threads + Sync, S: Strategy>(
    rt: &R,
    alloc: Global,
    committees: &Committees,
    commitment: &Commitment,
    block: &ChainBlock,
    strategy: &S,
) -> Result<bool, NoMemory>
    ensures { (backlog : ℕ) (accepts : Block → Block → Bool)
        → IfOk result (λ is. is
        ≡ spec.is_named_by (coded H.digest_of committees.now backlog accepts)
        commitment.now block.now) }
{
    if commitment.is_same(&genesis_commitment::<H>()) {
        return Ok(block.is_same(&genesis::<H>(alloc)));
    }
    let own = commitment_of::<H, R, S>(rt, alloc, committees, block, strategy)?;
    Ok(own.is_same(commitment))
}

// What a block is named by among the members of its epoch.
fn commitment_of<H: Hasher<Digest = Digest32>, R: Threads + Sync, S: Strategy>(
    rt: &R,
    alloc: Global,
    committees: &Committees,
    block: &ChainBlock,
    strategy: &S,
) -> Result<Commitment, NoMemory>
    ensures { (backlog : ℕ) (accepts : Block → Block → Bool)
        → IfOk result (λ own. own ≡ rule.commit (coded H.digest_of committees.now backlog accepts)
        block.now) }
{
    commits_by_rules();
    let n = committees.size(block.context().epoch);
    commit::<H, R, S>(rt, alloc, n, block, strategy)
}
