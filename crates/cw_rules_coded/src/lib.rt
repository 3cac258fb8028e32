//! The cluster rules over what the code has: the real codeword, the real tree and the real bytes.
#![tactic(auto)]

ghost use Rattle.std.specs.Prelude.{◌≡◌, ◌≤◌, ℕ, Bool, List, Option, Some, length, replicate};
ghost use Rattle.cw_base.specs.declared.hash.Digest32.{Digest32};
ghost use Rattle.cw_types.specs.Block.{Block};
ghost use Rattle.cw_types.specs.Encoding.{block_bytes, context_bytes};
ghost use Rattle.cw_types.specs.Commit as types;
ghost use Rattle.cw_types.specs.Epochs.{Epochs, size};
ghost use Rattle.cw_types.specs.Values.{IsBlock};
ghost use Rattle.cw_rules.specs.Coding.{IsCoder};
ghost use Rattle.cw_rules.specs.Rules.{chunks, commit, config, digest, genesis};
ghost use Rattle.cw_rules.specs.Telling.{TellsBlocks};
ghost use Rattle.cw_rules.specs.declared.travel.Travel.{Travel};
ghost use Rattle.cw_rules_coded.specs.Coded.{coded, ruled, uncut_rules};
ghost use Rattle.cw_rules_coded.specs.Sums.{hi_block, summed};
ghost use Rattle.cw_tree.specs.Widths.{shard_len};

use cw_base::{Digest32, Hasher};
use rs_code::laws::prove_rows;

/// The rules over the real codeword, tree and bytes have what the laws on chunks ask: chunks are
/// decoded to exactly the text of whose codeword they are k rows, rows are of one even width, and
/// each way up leads to the root; a text is read as no block but the one whose bytes it is, and the
/// bytes of a block are read as that block.
pub fn coded_laws()
    ensures coder { (hash : List ℕ → Digest32) (epochs : Epochs) (backlog : ℕ) (accepts : Block
        → Block → Bool)
        → IsCoder (coded hash epochs backlog accepts) }
    ensures reads_back { (hash : List ℕ → Digest32) (epochs : Epochs) (backlog : ℕ) (accepts : Block
        → Block → Bool) (b : Block) → IsBlock b
        → (coded hash epochs backlog accepts).read_block (block_bytes b) ≡ Some b }
{
    prove_rows();
}

/// The bytes of a block tell it under these rules, by any hasher and however blocks travel: two
/// blocks that can be written have different bytes, what chunks show is such a block, and digests
/// and roots have thirty-two bytes. With this the laws of cw_rules that ask for `TellsBlocks` hold
/// of a real cluster.
pub fn ruled_tells<H: Hasher<Digest = Digest32>>()
    ensures { (travel : Travel) (epochs : Epochs) (backlog : ℕ) (accepts : Block → Block → Bool)
        → epochs.total ≤ 65535 → TellsBlocks (ruled travel H.digest_of epochs backlog accepts) }
{}

/// The same where blocks travel in chunks.
pub fn coded_tells<H: Hasher<Digest = Digest32>>()
    ensures { (epochs : Epochs) (backlog : ℕ) (accepts : Block → Block → Bool)
        → epochs.total ≤ 65535 → TellsBlocks (coded H.digest_of epochs backlog accepts) }
{}

/// The commitment and the chunks of a block among the members of its epoch are those of these
/// rules, whatever the backlog and the application: what `cw_types::commit` and
/// `commit_with_chunks` give for the size of the committee of the block's epoch is what the rules
/// ask for. A block that travels whole is committed to by its digest twice, its context's digest
/// and the config of a text that isn't cut.
pub fn commits_by_rules()
    ensures commit { (hash : List ℕ → Digest32) (epochs : Epochs) (backlog : ℕ) (accepts : Block
        → Block → Bool) (b : Block)
        → types.commit hash (size epochs b.context.epoch) b ≡ commit
        (coded hash epochs backlog accepts) b }
    ensures chunks { (hash : List ℕ → Digest32) (epochs : Epochs) (backlog : ℕ) (accepts : Block
        → Block → Bool) (b : Block)
        → types.block_chunks hash (size epochs b.context.epoch) b ≡ chunks
        (coded hash epochs backlog accepts) b }
    ensures whole { (hash : List ℕ → Digest32) (epochs : Epochs) (backlog : ℕ) (accepts : Block
        → Block → Bool) (b : Block)
        → commit (uncut_rules hash epochs backlog accepts) b ≡ record {
          block = hash (block_bytes b);
          root = hash (block_bytes b);
          context = hash (context_bytes b.context);
          config = types.uncut;
        } }
{}

/// Under the hash that adds up: the digests of genesis and of the block of view 1 with the payload
/// "hi", how many bytes that block has, how wide its shards are, and in how many it is cut.
#[tactic(auto, unfolding(cw_types::specs::Encoding::block_bytes, cw_types::specs::Encoding::context_bytes, cw_types::specs::Encoding::commitment_bytes, cw_base::specs::Config::config_bytes, cw_base::specs::Bytes::be64, cw_base::specs::Bytes::be16, cw_base::specs::Bytes::varint, cw_tree::specs::Widths::shard_len))]
pub fn worked_block()
    ensures genesis { digest summed (genesis summed) ≡ record { 0 = replicate 32 2 } }
    ensures block { digest summed hi_block ≡ record { 0 = replicate 32 216 } }
    ensures size { length (block_bytes hi_block) ≡ 169 }
    ensures width { shard_len (length (block_bytes hi_block)) 2 ≡ 88 }
    ensures config { config summed 0 ≡ record { minimum = 2; extra = 2 } }
{}
