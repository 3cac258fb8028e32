//! What names a block, by how blocks travel.

ghost use Rattle.std.specs.Prelude.{◌≡◌, ℕ, Bool, IfOk};
ghost use Rattle.cw_rules.specs.Rules.{commit};
ghost use Rattle.cw_rules_coded.specs.Coded.{uncut_rules};
ghost use Rattle.cw_types.specs.Block.{Block};
ghost use Rattle.cw_types.specs.Commit as types;
ghost use Rattle.cw_types.specs.Epochs.{Epochs};
ghost use Rattle.node.specs.Holding.{cut_rules, rules_of};

use crate::holding::Holding;
use cw_base::{Config, Digest32, Hasher, NoMemory, Strategy};
use cw_rules::Travel;
use cw_types::{Application, ChainBlock, Commitment};
use node_disk::Disk;
use shards::cut_block;
use std::alloc::Global;
use std::num::NonZeroU16;
use std::thread::Threads;

/// The config of a block that isn't cut: one shard would hold it, and one is added.
pub(crate) fn uncut_config() -> Config
    ensures { result ≡ types.uncut }
{
    Config {
        minimum_shards: NonZeroU16::MIN,
        extra_shards: NonZeroU16::MIN,
    }
}

/// What names a block that travels whole: its digest twice, the digest of its context, and the
/// config (1, 1).
pub fn whole_commit<H: Hasher<Digest = Digest32>>(
    alloc: Global,
    block: &ChainBlock,
) -> Result<Commitment, NoMemory>
    ensures { (epochs : Epochs) (backlog : ℕ) (accepts : Block → Block → Bool)
        → IfOk result
        (λ c. c ≡ commit (uncut_rules H.digest_of epochs backlog accepts) block.now) }
{
    let digest = block.digest::<H>(alloc)?;
    Ok(Commitment {
        block: digest,
        root: digest,
        context: H::hash(&block.context().to_bytes()),
        config: uncut_config(),
    })
}

impl<H: Hasher<Digest = Digest32>, D: Disk, A: Application> Holding<H, D, A> {
    // What names a block that is cut.
    fn cut_commitment<R: Threads + Sync, S: Strategy>(
        &self,
        rt: &R,
        alloc: Global,
        block: &ChainBlock,
        strategy: &S,
    ) -> Result<Commitment, NoMemory>
        ensures { IfOk result
            (λ c. c ≡ commit (cut_rules H.digest_of A.accepts self.now) block.now) }
    {
        let (commitment, _chunks) = cut_block::<H, R, S>(
            rt,
            alloc,
            &self.committees,
            block,
            strategy,
        )?;
        Ok(commitment)
    }

    /// What names a block.
    pub(crate) fn commitment_of<R: Threads + Sync, S: Strategy>(
        &self,
        rt: &R,
        alloc: Global,
        block: &ChainBlock,
        strategy: &S,
    ) -> Result<Commitment, NoMemory>
        ensures { IfOk result
            (λ c. c ≡ commit (rules_of H.digest_of A.accepts self.now) block.now) }
    {
        match self.travel {
            Travel::Chunked => self.cut_commitment(rt, alloc, block, strategy),
            Travel::Uncut => whole_commit::<H>(alloc, block),
        }
    }
}
