//! What holds of the rules over the real codeword, and of the chunks that are kept for a member of
//! them.

ghost use Rattle.std.specs.Prelude.{◌++◌, ◌≡◌, ◌≤◌, ◌↔◌, [], Bool, IsFalse, IsTrue, List, None};
ghost use Rattle.std.specs.Prelude.{Some, filter_map, length, option_and_then, take, ℕ};
ghost use Rattle.std.specs.List.{list_any};
ghost use Rattle.cw_base.specs.declared.hash.Digest32.{Digest32};
ghost use Rattle.cw_types.specs.Block.{Block};
ghost use Rattle.cw_types.specs.Epochs.{Epochs};
ghost use Rattle.cw_types.specs.Same.{same_commitment};
ghost use Rattle.cw_types.specs.declared.commitment.Commitment.{Commitment};
ghost use Rattle.cw_types.specs.declared.event.Event.{Event};
ghost use Rattle.cw_types.specs.declared.vote.Vote.{Vote};
ghost use Rattle.cw_rules.specs.Accepted.{Came, Row, first_some, is_chunk_of, same_part, take_part};
ghost use Rattle.cw_rules.specs.Coding.{IsCoder};
ghost use Rattle.cw_rules.specs.Held.{if_committed, chunk_under, shown, whole_of};
ghost use Rattle.cw_rules.specs.Rules.{Chunk, Rules, block_of};
ghost use Rattle.cw_rules.specs.declared.travel.Travel.TheVariants.{Chunked};
ghost use Rattle.cw_rules.specs.Step.{nothing_came, taken_came};
ghost use Rattle.cw_rules_coded.specs.Coded.{coded};
ghost use Rattle.shards.specs.Kept.{Gathered, kept_came, chunks_of, chunk_rules};
ghost use Rattle.shards.specs.Standing.{StandsFor, after_event};
ghost use Rattle.shards.specs.Verdicts.{gathered_after, kept_after, verdict};
ghost use Rattle.shards.specs.declared.pieces.KeptChunk.{KeptChunk};
ghost use Rattle.shards.specs.declared.verdict.Verdict.{Verdict};

use cw_rules_coded::coded_laws;

/// The rules over any hash and committees have what the laws on chunks ask.
pub(crate) fn coder_laws()
    ensures { (hash : List ℕ → Digest32) (epochs : Epochs) → IsCoder (chunk_rules hash epochs) }
{
    coded_laws();
}

/// What is kept stands for a member of the rules from its start on, whatever its backlog and its
/// application, and whatever else comes to it.
pub fn shards_stand()
    // where nothing is kept, for a member to whom nothing came
    ensures start { (hash : List ℕ → Digest32) (epochs : Epochs) (backlog : ℕ)
        (accepts : Block → Block → Bool)
        → StandsFor hash (record { epochs = epochs; kept = [] }) (coded hash epochs backlog accepts)
        nothing_came }
    // a chunk is known exactly where the rules say that it came already
    ensures known { (hash : List ℕ → Digest32) (t : Gathered) (r : Rules) (came : Came)
        → StandsFor hash t r came
        → (c : Commitment) (x : Chunk)
        → (verdict (chunk_rules hash t.epochs) t.kept c x ≡ Verdict.Known)
        ↔ IsTrue (list_any (same_part (Row c x)) came.parts) }
    // it is foreign exactly where it didn't come already and the rules don't take it
    ensures foreign { (hash : List ℕ → Digest32) (t : Gathered) (r : Rules) (came : Came)
        → StandsFor hash t r came
        → (c : Commitment) (x : Chunk)
        → (verdict (chunk_rules hash t.epochs) t.kept c x ≡ Verdict.Foreign)
        ↔ (IsFalse (list_any (same_part (Row c x)) came.parts) × IsFalse (is_chunk_of r c x)) }
    // whatever the verdict, what is kept then stands for the member that took the chunk
    ensures taken { (hash : List ℕ → Digest32) (t : Gathered) (r : Rules) (came : Came)
        → StandsFor hash t r came
        → (c : Commitment) (x : Chunk)
        → StandsFor hash (gathered_after (chunk_rules hash t.epochs) t c x) r
        (take_part came (is_chunk_of r c x) (Row c x)) }
    // whatever the event, what is kept then stands for the member that accepted what it brought
    ensures events { (hash : List ℕ → Digest32) (t : Gathered) (r : Rules) (came : Came)
        → StandsFor hash t r came
        → (signed : ℕ → Vote → Bool) (e : Event)
        → StandsFor hash (after_event (chunk_rules hash t.epochs) t e) r
        (taken_came r signed came e) }
{}

/// What is kept shows what the member is shown.
pub fn shown_by_kept()
    // the chunks of a commitment that came to the member are those that are kept of it
    ensures rows { (hash : List ℕ → Digest32) (t : Gathered) (r : Rules) (came : Came)
        → StandsFor hash t r came
        → (c : Commitment) → filter_map (chunk_under c) came.parts ≡ chunks_of c t.kept }
    // where no whole block came under it, the member is shown what is kept shows
    ensures shown { (hash : List ℕ → Digest32) (t : Gathered) (r : Rules) (came : Came)
        → StandsFor hash t r came
        → (c : Commitment) → first_some (whole_of r c) came.parts ≡ None
        → shown r came c ≡ shown (chunk_rules hash t.epochs) (kept_came t.kept) c }
    // which is the block of whose codeword the first k chunks that are kept of it are rows, if it
    // is committed to so
    ensures first { (r : Rules) → r.travel ≡ Chunked → (kept : List KeptChunk) (c : Commitment)
        → shown r (kept_came kept) c
        ≡ option_and_then (if_committed r c)
        (block_of r c.config (take c.config.minimum (chunks_of c kept))) }
{}

/// What is shown stays so, but where a block comes to be held.
pub fn shown_stays()
    // what is kept after enough chunks of a commitment leaves what they show
    ensures enough { (r : Rules) → r.travel ≡ Chunked
        → (kept more : List KeptChunk) (c : Commitment)
        → c.config.minimum ≤ length (chunks_of c kept)
        → shown r (kept_came (kept ++ more)) c ≡ shown r (kept_came kept) c }
    // a block that was held is shown, whatever is kept since
    ensures held { (r : Rules) → r.travel ≡ Chunked
        → (kept more : List KeptChunk) (c : Commitment) (x : Chunk) (b : Block)
        → verdict r kept c x ≡ Verdict.Held b
        → shown r (kept_came (kept_after r kept c x ++ more)) c ≡ Some b }
    // garbage shows no block, whatever is kept since
    ensures garbage { (r : Rules) → r.travel ≡ Chunked
        → (kept more : List KeptChunk) (c : Commitment) (x : Chunk)
        → verdict r kept c x ≡ Verdict.Garbage
        → shown r (kept_came (kept_after r kept c x ++ more)) c ≡ None }
    // a chunk by which no block is held leaves what is shown
    ensures unheld { (r : Rules) → r.travel ≡ Chunked → IsCoder r
        → (kept : List KeptChunk) (c : Commitment) (x : Chunk) (d : Commitment)
        → ((b : Block) → verdict r kept c x ≡ Verdict.Held b → ⊥)
        → shown r (kept_came (kept_after r kept c x)) d ≡ shown r (kept_came kept) d }
    // and each leaves what is shown of another commitment
    ensures others { (r : Rules) → r.travel ≡ Chunked
        → (kept : List KeptChunk) (c d : Commitment) (x : Chunk)
        → IsFalse (same_commitment d c)
        → shown r (kept_came (kept_after r kept c x)) d ≡ shown r (kept_came kept) d }
{}
