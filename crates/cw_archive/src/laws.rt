//! What holds of what an archive gives back.

ghost use Rattle.std.specs.Prelude.{◌≡◌, ◌≤◌, List, Some, ℕ};
ghost use Rattle.cw_base.specs.declared.hash.Digest32.{Digest32};
ghost use Rattle.cw_types.specs.Block.{Block};
ghost use Rattle.cw_types.specs.declared.commitment.Commitment.{Commitment};
ghost use Rattle.cw_rules.specs.Coding.{AreApart, AreByteChunks};
ghost use Rattle.cw_rules.specs.Rules.{Chunk};
ghost use Rattle.cw_coding.specs.Totals.{total_of};
ghost use Rattle.shards.specs.declared.pieces.KeptChunk.{KeptChunk};
ghost use Rattle.cw_archive.specs.Archived.{chunks_of_least_index, shown_by_chunks};
ghost use Rattle.cw_archive.specs.Showing.{Shows};

use cw_rules_coded::coded_laws;

/// What an archive gives back is the one block of whose bytes' codeword the chunks of least index
/// are rows, and which the commitment names.
pub fn archives_show()
    // the chunks of least index are of different indices
    ensures apart { (c : Commitment) (kept : List KeptChunk)
        → AreApart (chunks_of_least_index c kept) }
    // a block that chunks give back is one that they show
    ensures shown { (hash : List ℕ → Digest32) (c : Commitment) (chunks : List Chunk) (b : Block)
        → shown_by_chunks hash c chunks ≡ Some b → Shows hash c chunks b }
    // a block that chunks show is the one that they give back
    ensures only { (hash : List ℕ → Digest32) (c : Commitment) (chunks : List Chunk) (b : Block)
        → 1 ≤ c.config.minimum → total_of c.config ≤ 65535 → AreApart chunks → AreByteChunks chunks
        → Shows hash c chunks b → shown_by_chunks hash c chunks ≡ Some b }
{
    coded_laws();
}
