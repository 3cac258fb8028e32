//! What the users of a store of finalized blocks rely on, as laws of what its calls write, hold and
//! hand out. From the `Ok` of a call on each image of the disk has its notes, and a start has
//! exactly the notes that its disk's bytes spell, so what these laws say of notes holds after a
//! crash too.

ghost use Rattle.std.specs.Prelude.{◌≡◌, ◌≢◌, ◌≤◌, ◌<◌, ◌+◌, ◌++◌, ◌∷◌, [], IsTrue, List, None};
ghost use Rattle.std.specs.Prelude.{Some, filter_map, length, map, ℕ};
ghost use Rattle.std.specs.List.{last_or, range_with_len};
ghost use Rattle.cw_types.specs.Block.{Block};
ghost use Rattle.cw_types.specs.Epochs.{rises_from, size};
ghost use Rattle.cw_types.specs.declared.commitment.Commitment.{Commitment};
ghost use Rattle.cw_types.specs.declared.event.Event.{Event};
ghost use Rattle.cw_types.specs.declared.event.Handed.{Handed};
ghost use Rattle.cw_types.specs.declared.note.Note.{Note};
ghost use Rattle.cw_types.specs.declared.round.Round.{Round};
ghost use Rattle.cw_types.specs.declared.vote.Cert.{Cert};
ghost use Rattle.cw_types.specs.declared.vote.Proposal.{Proposal};
ghost use Rattle.cw_rules.specs.Accepted.{State};
ghost use Rattle.cw_rules.specs.Direct.{direct};
ghost use Rattle.cw_rules.specs.Held.{acked_height, at_height, finalization_of, greatest_floor};
ghost use Rattle.cw_rules.specs.Held.{greatest_prune, held, last_ack, next, pending};
ghost use Rattle.cw_rules.specs.Owed.{floor_owed};
ghost use Rattle.cw_rules.specs.Reached.{In};
ghost use Rattle.cw_rules.specs.Rules.{Rules, commit, digest, genesis_commitment};
ghost use Rattle.cw_rules.specs.declared.travel.Travel.TheVariants.{Chunked};
ghost use Rattle.cw_rules.specs.Step.{deliveries, with_handed, with_notes};
ghost use Rattle.marshal.specs.Finding.{finalization, identified};
ghost use Rattle.marshal.specs.Promises.{AgreeAt, IsReached, IsUnpruned, first_noted};
ghost use Rattle.marshal.specs.Writing.{ack_notes, certified_notes, prune_notes, verified_notes};
ghost use Rattle.marshal.specs.Writing.{with_floors};
ghost use Rattle.marshal.specs.declared.identifier.Identifier.{Identifier};

/// What `verified` or `certified` accepted is held, until it is pruned: the block, or the one that
/// was noted before it under its commitment. Before the call stood `notes`, and `more` came later,
/// so a verified and a certified block of one round are both held.
pub fn law_of_recovery()
    ensures verified { (r : Rules) (notes more : List Note) (round : Round) (b : Block)
        → commit r b ≢ genesis_commitment r
        → IsUnpruned (notes ++ verified_notes r notes round b ++ more)
        (first_noted notes (commit r b) b).height
        → held r (notes ++ verified_notes r notes round b ++ more) (commit r b) ≡ Some
        (first_noted notes (commit r b) b) }
    ensures certified { (r : Rules) (notes more : List Note) (round : Round) (b : Block)
        → commit r b ≢ genesis_commitment r
        → IsUnpruned (notes ++ certified_notes r notes round b ++ more)
        (first_noted notes (commit r b) b).height
        → held r (notes ++ certified_notes r notes round b ++ more) (commit r b) ≡ Some
        (first_noted notes (commit r b) b) }
    // where blocks travel in chunks a committee cuts each in two at least, so none is committed to
    // as genesis is
    ensures apart { (r : Rules) (b : Block) → r.travel ≡ Chunked
        → 4 ≤ size r.epochs b.context.epoch → commit r b ≢ genesis_commitment r }
{}

/// What is handed out is held, and above genesis a noted finalization reaches it; both stay so
/// until it is pruned. The heights of one call go up by one from the next height. No height is
/// handed out twice in a start, and none up to the last acknowledged one is handed out after the
/// next start, so an acknowledged genesis isn't.
pub fn law_of_deliveries()
    ensures held { (r : Rules) (s : State) (h : Handed) → In h (deliveries r s)
        → (b : Block) × (held r s.notes h.commitment ≡ Some b) × (b.height ≡ h.height)
        × (h.digest ≡ digest r b) }
    ensures reached { (r : Rules) (s : State) (h : Handed) → In h (deliveries r s) → 0 < h.height
        → IsReached r s.notes h.height h.commitment }
    ensures stays_held { (r : Rules) (notes more : List Note) (c : Commitment) (b : Block)
        → held r notes c ≡ Some b
        → IsUnpruned (notes ++ more) b.height → held r (notes ++ more) c ≡ Some b }
    ensures stays_reached { (r : Rules) (notes more : List Note) (height : ℕ) (c : Commitment)
        → IsReached r notes height c
        → greatest_prune (notes ++ more) ≤ height → IsReached r (notes ++ more) height c }
    ensures rising { (r : Rules) (s : State)
        → IsTrue (rises_from (next s) (map (λ h. h.height) (deliveries r s))) }
    ensures by_one { (r : Rules) (s : State) → map (λ h. h.height) (deliveries r s)
        ≡ range_with_len (next s) (length (deliveries r s)) }
    ensures once { (r : Rules) (s : State) (given : ℕ) → last_or None s.given ≡ Some given
        → IsTrue (rises_from (given + 1) (map (λ h. h.height) (deliveries r s))) }
    ensures resumed { (r : Rules) (s : State) (acked : ℕ) → s.given ≡ []
        → last_ack s.notes ≡ Some acked
        → IsTrue (rises_from (acked + 1) (map (λ h. h.height) (deliveries r s))) }
{}

/// At most the backlog is pending: deliveries keep to it, and no call that writes leaves more
/// pending.
pub fn law_of_the_backlog()
    ensures handed { (r : Rules) (s : State) → length (pending s) ≤ r.backlog
        → length (pending (with_handed s (deliveries r s))) ≤ r.backlog }
    ensures acknowledged { (r : Rules) (s : State)
        → length (pending (with_notes s (with_floors r s (ack_notes s)))) ≤ length (pending s) }
    ensures written { (r : Rules) (s : State) (own : List Note) → filter_map acked_height own ≡ []
        → length (pending (with_notes s (with_floors r s own))) ≤ length (pending s) }
{}

/// A floor hands out its own block next, where no two noted finalizations reach different blocks of
/// its height, and no height below the greatest floor is ever handed out.
pub fn law_of_a_floor()
    ensures next { (r : Rules) (s : State) (c : Commitment) (height : ℕ)
        → floor_owed r s c ≡ Some (Note.Floor height)
        → next (with_notes s (Note.Floor height ∷ [])) ≡ height }
    ensures block { (r : Rules) (s : State) (c : Commitment) (height : ℕ) (p : Proposal)
        → floor_owed r s c ≡ Some (Note.Floor height)
        → 0 < height → In p (filter_map finalization_of s.notes) → p.payload ≡ c
        → AgreeAt r (s.notes ++ Note.Floor height ∷ []) height
        → at_height r (s.notes ++ Note.Floor height ∷ []) height ≡ Some c }
    ensures below { (r : Rules) (s : State)
        → IsTrue (rises_from (greatest_floor s.notes) (map (λ h. h.height) (deliveries r s))) }
{}

/// The first finalization of a height stays, until the height is pruned, where no two reach
/// different blocks of it. With none noted, as with genesis alone, nothing is the latest.
pub fn law_of_finalizations()
    ensures first { (r : Rules) (notes more : List Note) (height : ℕ) (cert : Cert)
        → finalization r notes height ≡ Some cert
        → IsUnpruned (notes ++ more) height → AgreeAt r (notes ++ more) height
        → finalization r (notes ++ more) height ≡ Some cert }
    ensures latest { (r : Rules) (notes : List Note) → filter_map finalization_of notes ≡ []
        → identified r notes Identifier.Latest ≡ None }
{}

/// What `acknowledge` and `prune` note of their own is what the rules note at once in such an
/// event.
pub fn law_of_events()
    ensures ack { (r : Rules) (id : ℕ) (s : State) → direct r id s Event.Ack ≡ ack_notes s }
    ensures prune { (r : Rules) (id : ℕ) (s : State) (height : ℕ)
        → direct r id s (Event.Prune height) ≡ prune_notes s.notes height }
{}
