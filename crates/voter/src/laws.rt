//! What a tally tells of the rules.

ghost use Rattle.std.specs.Prelude.{[], List, None, Some, find, option_map, true, ◌<◌, ◌≡◌};
ghost use Rattle.std.specs.Prelude.{◌∷◌, ℕ};
ghost use Rattle.cw_base.specs.declared.hash.Digest32.{Digest32};
ghost use Rattle.cw_types.specs.Block.{Block};
ghost use Rattle.cw_types.specs.Commit.{genesis_commitment};
ghost use Rattle.cw_types.specs.Encoding.{block_bytes, context_bytes};
ghost use Rattle.cw_types.specs.Epochs.{place};
ghost use Rattle.cw_types.specs.declared.commitment.Commitment.{Commitment};
ghost use Rattle.cw_types.specs.declared.event.Handed.{Handed};
ghost use Rattle.cw_types.specs.declared.note.Note.{Note};
ghost use Rattle.cw_types.specs.declared.vote.Vote.{Vote as VoteValue};
ghost use Rattle.cw_rules.specs.Accepted.{Ballot, Row, State, Whole, add_wish, first_some};
ghost use Rattle.cw_rules.specs.Accepted.{take_ballot, take_part};
ghost use Rattle.cw_rules.specs.Direct.{best_parent};
ghost use Rattle.cw_rules.specs.Fits.{block_fits};
ghost use Rattle.cw_rules.specs.Held.{held};
ghost use Rattle.cw_rules.specs.Notes.{view_of};
ghost use Rattle.cw_rules.specs.Owed as rule;
ghost use Rattle.cw_rules.specs.Rules.{Chunk, Rules};
ghost use Rattle.cw_rules.specs.declared.travel.Travel.TheVariants.{Chunked};
ghost use Rattle.cw_rules.specs.Step.{nothing_came, with_handed, with_notes};
ghost use Rattle.voter.specs.Known.{Known, with_note, unknowing, with_ballot, with_own};
ghost use Rattle.voter.specs.Owing as owing;
ghost use Rattle.voter.specs.Standing.{IsTallyOf, best_from, with_came};

/// What a tally owes is what the rules say that each member owes that it stands for, whatever the
/// rules stand on and whatever else the member knows. Whether a block fits is the member's to say.
pub fn tally_stands()
    ensures certificates { (hash : List ℕ → Digest32) (t : Known) (r : Rules) (s : State)
        → IsTallyOf hash t r s
        → first_some (rule.cert_owed r t.id s) (rule.named_votes s) ≡ owing.first_cert_owed hash t }
    // of the proposals that aren't certified, the first whose block fits
    ensures certified { (hash : List ℕ → Digest32) (t : Known) (r : Rules) (s : State)
        → IsTallyOf hash t r s
        → first_some (rule.certified_owed r s) (rule.named_proposals s)
        ≡ option_map Note.Certified (find (block_fits r t.notes) (owing.uncertified t)) }
    // however blocks travel: of the proposals of which a vote asks no more than their payload, the
    // first that the member can vote for
    ensures votable { (hash : List ℕ → Digest32) (t : Known) (r : Rules) (s : State)
        → IsTallyOf hash t r s
        → first_some (rule.notarize_owed r t.id s) (rule.named_proposals s)
        ≡ option_map (λ p. Note.Vote (VoteValue.Notarize p))
        (find (rule.can_vote r t.id s) (owing.votable t)) }
    // where blocks travel in chunks the tally finds it by the member's own chunks that came
    ensures notarized { (hash : List ℕ → Digest32) (t : Known) (r : Rules) (s : State)
        → r.travel ≡ Chunked → IsTallyOf hash t r s
        → first_some (rule.notarize_owed r t.id s) (rule.named_proposals s)
        ≡ owing.first_notarize_owed hash t }
    ensures finalized { (hash : List ℕ → Digest32) (t : Known) (r : Rules) (s : State)
        → IsTallyOf hash t r s
        → first_some (rule.finalize_owed r t.id s) (rule.named_proposals s)
        ≡ owing.first_finalize_owed hash t }
{}

/// The parents that a tally gives lead to the one over which the rules propose: asked from the
/// member's view on, and again below each parent whose block isn't held.
pub fn parent_stands()
    // the search begins at the member's view
    ensures start { (hash : List ℕ → Digest32) (t : Known) (r : Rules) (s : State)
        → IsTallyOf hash t r s
        → (epoch : ℕ) → best_parent r s.notes epoch (view_of s.notes epoch)
        ≡ best_from r t.notes epoch (view_of t.notes epoch) }
    // where no parent is given there is none
    ensures none { (hash : List ℕ → Digest32) (t : Known) (r : Rules) (s : State)
        → IsTallyOf hash t r s
        → (epoch below : ℕ) → owing.parent_over (genesis_commitment hash) t.notes epoch below ≡ None
        → best_from r t.notes epoch below ≡ None }
    // one whose block is held is it
    ensures held { (hash : List ℕ → Digest32) (t : Known) (r : Rules) (s : State)
        → IsTallyOf hash t r s
        → (epoch below view : ℕ) (c : Commitment) (b : Block)
        → owing.parent_over (genesis_commitment hash) t.notes epoch below ≡ Some (view, c)
        → held r t.notes c ≡ Some b → best_from r t.notes epoch below ≡ Some (view, c, b) }
    // over one whose block isn't held the search goes on below it
    ensures next { (hash : List ℕ → Digest32) (t : Known) (r : Rules) (s : State)
        → IsTallyOf hash t r s
        → (epoch below view : ℕ) (c : Commitment)
        → owing.parent_over (genesis_commitment hash) t.notes epoch below ≡ Some (view, c)
        → held r t.notes c ≡ None
        → best_from r t.notes epoch below ≡ best_from r t.notes epoch view }
    // which is lower
    ensures falls { (hash : List ℕ → Digest32) (t : Known)
        → (epoch below view : ℕ) (c : Commitment)
        → owing.parent_over (genesis_commitment hash) t.notes epoch below ≡ Some (view, c)
        → view < below }
{}

/// A tally goes on standing for a member as long as both are told the same.
pub fn standing_is_kept()
    // a tally that knows nothing stands for a member that starts with no notes
    ensures start { (hash : List ℕ → Digest32) (r : Rules) (id : ℕ) (given : List ℕ)
        → r.hash ≡ hash → r.block_bytes ≡ block_bytes → r.context_bytes ≡ context_bytes
        → IsTallyOf hash (unknowing r.epochs id) r
        (record { notes = []; came = nothing_came; given = given }) }
    ensures note { (hash : List ℕ → Digest32) (t : Known) (r : Rules) (s : State)
        → IsTallyOf hash t r s
        → (note : Note) → IsTallyOf hash (with_note t note) r (with_notes s (note ∷ [])) }
    ensures ballot { (hash : List ℕ → Digest32) (t : Known) (r : Rules) (s : State)
        → IsTallyOf hash t r s
        → (x : Ballot) → IsTallyOf hash (with_ballot t x) r
        (with_came s (take_ballot s.came true x)) }
    ensures own_chunk { (hash : List ℕ → Digest32) (t : Known) (r : Rules) (s : State)
        → IsTallyOf hash t r s
        → (c : Commitment) (x : Chunk)
        → IsTallyOf hash (with_own t c x.index) r (with_came s (take_part s.came true (Row c x))) }
    // a chunk that stands at the member's place of no epoch
    ensures other_chunk { (hash : List ℕ → Digest32) (t : Known) (r : Rules) (s : State)
        → IsTallyOf hash t r s
        → (c : Commitment) (x : Chunk)
        → ((epoch : ℕ) → place t.epochs epoch t.id ≡ Some x.index → ⊥)
        → IsTallyOf hash t r (with_came s (take_part s.came true (Row c x))) }
    ensures whole_block { (hash : List ℕ → Digest32) (t : Known) (r : Rules) (s : State)
        → IsTallyOf hash t r s
        → (b : Block) → IsTallyOf hash t r (with_came s (take_part s.came true (Whole b))) }
    ensures wish { (hash : List ℕ → Digest32) (t : Known) (r : Rules) (s : State)
        → IsTallyOf hash t r s
        → (c : Commitment) → IsTallyOf hash t r (with_came s (add_wish s.came c)) }
    ensures handed { (hash : List ℕ → Digest32) (t : Known) (r : Rules) (s : State)
        → IsTallyOf hash t r s
        → (out : List Handed) → IsTallyOf hash t r (with_handed s out) }
{}
