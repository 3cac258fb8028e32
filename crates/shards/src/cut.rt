//! Blocks that are cut into chunks.

ghost use Rattle.std.specs.Prelude.{◌≡◌, IfOk};
ghost use Rattle.cw_rules.specs.Rules.{chunks, commit};
ghost use Rattle.shards.specs.Kept.{chunk_rules};

use cw_base::{Digest32, Hasher, NoMemory, Strategy};
use cw_coding::Chunk;
use cw_rules_coded::commits_by_rules;
use cw_types::{ChainBlock, Commitment, Committees, commit_with_chunks};
use std::alloc::Global;
use std::thread::Threads;

/// What names a block, by the committee of its context's epoch, and its chunks, in the order of
/// their indices.
pub fn cut_block<H: Hasher<Digest = Digest32>, R: Threads + Sync, S: Strategy>(
    rt: &R,
    alloc: Global,
    committees: &Committees,
    block: &ChainBlock,
    strategy: &S,
) -> Result<(Commitment, Vec<Chunk<Digest32>>), NoMemory>
    ensures commitment { IfOk result (λ cut.
        cut.0 ≡ commit (chunk_rules H.digest_of committees.now) block.now) }
    ensures chunks { IfOk result (λ cut.
        cut.1.items ≡ chunks (chunk_rules H.digest_of committees.now) block.now) }
{
    commits_by_rules();
    let n = committees.size(block.context().epoch);
    let cut = commit_with_chunks::<H, R, S>(rt, alloc, n, block, strategy)?;
    Ok(cut)
}
