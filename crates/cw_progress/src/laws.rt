//! Laws on every world that a script reaches: what can still be delivered, which views have ended,
//! what is held, what goes over.

ghost use Rattle.std.specs.Prelude.{length, ◌-◌, ◌^◌, IsTrue, List, None, Some, [], max, nat_le, ℕ, ◌<◌, ◌≡◌, ◌≢◌, ◌≤◌, ◌⊎◌};
ghost use Rattle.std.specs.List.{AllByRecursion};
ghost use Rattle.cw_base.specs.Config.{same_counts};
ghost use Rattle.cw_types.specs.declared.commitment.Commitment.{Commitment};
ghost use Rattle.cw_types.specs.declared.message.Message.{Message};
ghost use Rattle.cw_types.specs.declared.note.Note.{Note};
ghost use Rattle.cw_types.specs.declared.vote.Cert.{Cert};
ghost use Rattle.cw_types.specs.declared.vote.Proposal.{Proposal};
ghost use Rattle.cw_types.specs.declared.vote.Vote.{Vote};
ghost use Rattle.cw_types.specs.Block.{Block};
ghost use Rattle.cw_types.specs.Epochs.{is_member, place, rises_from, size};
ghost use Rattle.cw_types.specs.Numbers.{quorum};
ghost use Rattle.cw_types.specs.Votes.{vote_epoch, well_formed};
ghost use Rattle.cw_rules.specs.Accepted.{Row, Whole, is_valid};
ghost use Rattle.cw_rules.specs.Chains.{Ends, block_under, outcome};
ghost use Rattle.cw_rules.specs.Held.{greatest_floor, greatest_prune, held};
ghost use Rattle.cw_rules.specs.Notes.{has_block, has_cert, has_certified, view_of};
ghost use Rattle.cw_rules.specs.Reached.{In, IsCluster, Reaches, ReachesClear, members_of};
ghost use Rattle.cw_rules.specs.Rules.{Chunk, Rules, commit, config};
ghost use Rattle.cw_rules.specs.Sends.{missing, to_all};
ghost use Rattle.cw_rules.specs.Stands.{EachAfter, Stands};
ghost use Rattle.cw_rules.specs.Step.{Member, member_notes, state_of};
ghost use Rattle.cw_rules.specs.World.{Line, World, member_at, run, signed};
ghost use Rattle.cw_progress.specs.Ended.{EndedForSome, IsOfView};
ghost use Rattle.cw_progress.specs.Fresh.{IsFresh, IsKept};
ghost use Rattle.cw_progress.specs.Going.{helps, is_able, is_stocked, keeps_all};
ghost use Rattle.cw_progress.specs.Over.{ComesTo, ComesToClash, IsBase};
ghost use Rattle.cw_progress.specs.Over.{KnowsNoLater, is_delivery, is_delivery_or_timeout};
ghost use Rattle.cw_progress.specs.Over.{is_honest_line};
ghost use Rattle.cw_progress.specs.Sent.{IsSent};
ghost use Rattle.cw_progress.specs.Tops.{final_top};
ghost use Rattle.cw_progress.specs.Views.{CanFinalize, ComeToOneView, ComeToView, IsVoter};

/// What a live member has sent to all, whatever was lost, repeated or cut. A member that is stopped
/// may still owe what the last frame of its notes gives; its start sends that.
pub fn sent_laws()
    // each vote that it noted
    ensures votes { (r : Rules) (script : List Line) (w : World)
        → IsCluster r script → Reaches r script w
        → (i : ℕ) (m : Member) → member_at w i ≡ Some m → IsTrue m.live
        → (v : Vote) → In (Note.Vote v) (member_notes m) → IsSent w i (to_all (Message.Vote i v)) }
    // each certificate that it noted
    ensures certificates { (r : Rules) (script : List Line) (w : World)
        → IsCluster r script → Reaches r script w
        → (i : ℕ) (m : Member) → member_at w i ≡ Some m → IsTrue m.live
        → (s : Cert) → In (Note.Cert s) (member_notes m) → IsSent w i (to_all (Message.Cert s)) }
    // which is valid by the signatures, so that whoever is given it accepts it
    ensures valid { (r : Rules) (script : List Line) (w : World)
        → IsCluster r script → Reaches r script w
        → (i : ℕ) (m : Member) → member_at w i ≡ Some m → IsTrue m.live
        → (s : Cert) → In (Note.Cert s) (member_notes m) → IsTrue (is_valid r (signed w) s) }
    // a question for each block that it misses
    ensures asked { (r : Rules) (script : List Line) (w : World)
        → IsCluster r script → Reaches r script w
        → (i : ℕ) (m : Member) → member_at w i ≡ Some m → IsTrue m.live
        → (c : Commitment) → In c (missing r (state_of m))
        → IsSent w i (to_all (Message.Ask i c)) }
    // in one epoch without end each chunk at its own place that it accepted since its start, of a
    // block for that epoch, also where it is stopped
    ensures passed { (r : Rules) (script : List Line) (w : World) → r.epochs.span ≡ None
        → IsCluster r script → Reaches r script w
        → (i : ℕ) (m : Member) → member_at w i ≡ Some m
        → (c : Commitment) (x : Chunk) → In (Row c x) m.came.parts
        → place r.epochs 0 i ≡ Some x.index → IsTrue (same_counts c.config (config r 0))
        → IsSent w i (to_all (Message.Shard c x)) }
{}

/// Which views have ended.
pub fn ended_laws()
    // each vote to nullify was noted in its view
    ensures nullified { (r : Rules) (script : List Line) (w : World)
        → IsCluster r script → Reaches r script w
        → (i : ℕ) (m : Member) → member_at w i ≡ Some m
        → EachAfter IsOfView [] (member_notes m) }
    // each view below that of an honest member has ended for some honest member
    ensures ended { (r : Rules) (script : List Line) (w : World)
        → IsCluster r script → Reaches r script w
        → (i : ℕ) (m : Member) → member_at w i ≡ Some m
        → (epoch view : ℕ) → 0 < view → view < view_of (member_notes m) epoch
        → EndedForSome w epoch view }
{}

/// What honest members know to be final.
pub fn final_laws()
    // no acknowledged height is above what its member knows to be final
    ensures acked { (r : Rules) (script : List Line) (w : World)
        → IsCluster r script → Reaches r script w
        → (i : ℕ) (m : Member) → member_at w i ≡ Some m
        → (h : ℕ) → In (Note.Ack h) (member_notes m) → h ≤ final_top r (member_notes m) }
    // nor one up to which heights are given up
    ensures given_up { (r : Rules) (script : List Line) (w : World)
        → IsCluster r script → Reaches r script w
        → (i : ℕ) (m : Member) → member_at w i ≡ Some m
        → (h : ℕ) → In (Note.Floor h) (member_notes m) → h ≤ final_top r (member_notes m) }
    // nor one below which blocks are hidden
    ensures let_go { (r : Rules) (script : List Line) (w : World)
        → IsCluster r script → Reaches r script w
        → (i : ℕ) (m : Member) → member_at w i ≡ Some m
        → (h : ℕ) → In (Note.Prune h) (member_notes m) → h ≤ final_top r (member_notes m) }
    // where no two blocks of one digest turned up, what stands finalized in a later view of an
    // epoch is no lower
    ensures rise { (r : Rules) (script : List Line) (w : World)
        → IsCluster r script → ReachesClear r script w
        → (p q : Proposal) → Stands r.epochs (members_of w) (Vote.Finalize p)
        → Stands r.epochs (members_of w) (Vote.Finalize q) → p.epoch ≡ q.epoch → p.view < q.view
        → (a b : Block) → block_under r w p.payload ≡ Some a → block_under r w q.payload ≡ Some b
        → a.height ≤ b.height }
{}

/// Whoever certified a proposal noted its block, and holds it where it isn't below what the member
/// knows to be final.
pub fn held_laws()
    ensures { (r : Rules) (script : List Line) (w : World)
        → IsCluster r script → Reaches r script w
        → (i : ℕ) (m : Member) → member_at w i ≡ Some m
        → (p : Proposal) → In (Note.Certified p) (member_notes m)
        → (b : Block) × In (Note.Block p.payload b) (member_notes m)
        × (final_top r (member_notes m) ≤ b.height
        → held r (member_notes m) p.payload ≡ Some b) }
{}

/// Each honest member can be started again.
pub fn fresh_law()
    // by lines that help and bring no clash. Then each is live, with the notes that it had, nothing
    // has come to it, and it hands out from where these let a start begin
    ensures { (r : Rules) (w : World) (payload : List ℕ)
        → (lines : List Line) × AllByRecursion (λ line. IsTrue (helps w payload line)) lines
        × (outcome r w lines ≡ Ends (run r w lines))
        × ((i : ℕ) (m : Member) → member_at w i ≡ Some m
        → IsFresh (run r w lines) i (member_notes m)) }
{}

/// What deliveries leave of whoever is live.
pub fn delivery_law()
    // all that it has, whatever is delivered to whom
    ensures { (r : Rules) (w : World) (lines : List Line)
        → AllByRecursion (λ line. IsTrue (is_delivery line)) lines
        → (i : ℕ) (m : Member) → member_at w i ≡ Some m → IsTrue m.live
        → IsKept (run r w lines) i m }
{}

/// What goes over from one live member to another by deliveries alone.
pub fn over_laws()
    // a noted certificate: whoever is live can be brought to note one of its vote
    ensures certificate { (r : Rules) (script : List Line) (w : World)
        → IsCluster r script → Reaches r script w
        → (i j : ℕ) (m n : Member) → member_at w i ≡ Some m → IsTrue m.live
        → member_at w j ≡ Some n → IsTrue n.live
        → (s : Cert) → In (Note.Cert s) (member_notes m)
        → ComesTo r w j is_delivery (λ notes. has_cert notes s.vote) }
    // a held block, to a member that misses it and hasn't given up its height, unless another block
    // of that commitment came to that member
    ensures block { (r : Rules) (script : List Line) (w : World)
        → IsCluster r script → Reaches r script w
        → (i j : ℕ) (m n : Member) → member_at w i ≡ Some m → IsTrue m.live
        → member_at w j ≡ Some n → IsTrue n.live
        → (c : Commitment) → In c (missing r (state_of n))
        → (b : Block) → held r (member_notes m) c ≡ Some b
        → max (greatest_floor (member_notes n)) (greatest_prune (member_notes n)) ≤ b.height
        → ComesTo r w j is_delivery (λ notes. has_block notes c)
        ⊎ ((a : Block) × In (Whole a) n.came.parts × (a ≢ b) × (commit r a ≡ c)) }
{}

/// A member that lags comes to where another is, by lines that help. Where a is the last block that
/// the other knows to be final, the one that lags gave up no height above it. Else a clash turns up.
pub fn catch_up_laws()
    // it certifies each proposal that the other certified above that block
    ensures certified { (r : Rules) (script : List Line) (w : World)
        → IsCluster r script → ReachesClear r script w → (payload : List ℕ)
        → (i j : ℕ) (m n : Member) → member_at w i ≡ Some m → member_at w j ≡ Some n
        → (epoch view : ℕ) (a : Block)
        → IsBase r (member_notes m) (member_notes n) epoch view a
        → KnowsNoLater r (member_notes m) epoch view a.height
        → max (greatest_floor (member_notes n)) (greatest_prune (member_notes n)) ≤ a.height
        → (p : Proposal) → In (Note.Certified p) (member_notes m) → p.epoch ≡ epoch → view < p.view
        → ComesTo r w j (helps w payload) (λ notes. has_certified notes p)
        ⊎ ComesToClash r w (helps w payload) }
    // it comes to a view that is no lower
    ensures view { (r : Rules) (script : List Line) (w : World)
        → IsCluster r script → ReachesClear r script w → (payload : List ℕ)
        → (i j : ℕ) (m n : Member) → member_at w i ≡ Some m → member_at w j ≡ Some n
        → (epoch view : ℕ) (a : Block)
        → IsBase r (member_notes m) (member_notes n) epoch view a
        → KnowsNoLater r (member_notes m) epoch view a.height
        → max (greatest_floor (member_notes n)) (greatest_prune (member_notes n)) ≤ a.height
        → ComesTo r w j (helps w payload)
        (λ notes. nat_le (view_of (member_notes m) epoch) (view_of notes epoch))
        ⊎ ComesToClash r w (helps w payload) }
{}

/// In one epoch without end all honest members come to one view, by lines that help, whatever each of
/// them knows, gave up or lacks. Else a clash turns up.
pub fn one_view_law()
    ensures { (r : Rules) (script : List Line) (w : World) → r.epochs.span ≡ None
        → IsCluster r script → ReachesClear r script w → (payload : List ℕ)
        → ComeToOneView r w (helps w payload) ⊎ ComesToClash r w (helps w payload) }
{}

/// In one epoch without end all honest members come to any view above all of theirs, and none of them
/// has voted in it: so to one that an honest member leads. Else a clash turns up.
pub fn new_view_law()
    ensures { (r : Rules) (script : List Line) (w : World) → r.epochs.span ≡ None
        → IsCluster r script → ReachesClear r script w → (payload : List ℕ) (view : ℕ)
        → view < 2 ^ 64 - 1
        → ((i : ℕ) (m : Member) → member_at w i ≡ Some m → view_of (member_notes m) 0 < view)
        → ComeToView r w (helps w payload) view ⊎ ComesToClash r w (helps w payload) }
{}

/// When a cluster has what it needs to go on.
pub fn able_laws()
    // always, where the script let no block go and gave up no height
    ensures always { (r : Rules) (script : List Line) (w : World)
        → IsCluster r script → AllByRecursion (λ line. IsTrue (keeps_all line)) script
        → Reaches r script w → IsTrue (is_able r w) }
    // in one epoch without end, where no block is gone that is still to be handed out
    ensures single { (r : Rules) (w : World) → r.epochs.span ≡ None → IsTrue (is_stocked w)
        → IsTrue (is_able r w) }
{}

/// A world that lines of honest members lead to is one that a script reaches too, with no other
/// faulty members. So each law here holds there again.
pub fn further_laws()
    // wherever they lead
    ensures reached { (r : Rules) (script : List Line) (w : World) (more : List Line)
        → IsCluster r script → Reaches r script w
        → AllByRecursion (λ line. IsTrue (is_honest_line line)) more
        → (longer : List Line) × IsCluster r longer × Reaches r longer (run r w more) }
    // without a clash, where they bring none
    ensures clear { (r : Rules) (script : List Line) (w u : World) (more : List Line)
        → IsCluster r script → ReachesClear r script w
        → AllByRecursion (λ line. IsTrue (is_honest_line line)) more → outcome r w more ≡ Ends u
        → (longer : List Line) × IsCluster r longer × ReachesClear r longer u }
{}

/// What a quorum of the members of an epoch brings about.
pub fn quorum_laws()
    // what they voted for: whoever is live can be brought to note a certificate of it
    ensures votes { (r : Rules) (script : List Line) (w : World) → IsCluster r script
        → (j : ℕ) (n : Member) → member_at w j ≡ Some n → IsTrue n.live
        → (v : Vote) → IsTrue (well_formed v) → (signers : List ℕ)
        → IsTrue (rises_from 0 signers) → quorum (size r.epochs (vote_epoch v)) ≤ length signers
        → ((i : ℕ) → In i signers → IsTrue (is_member r.epochs (vote_epoch v) i))
        → ((i : ℕ) → In i signers → IsSent w i (to_all (Message.Vote i v)))
        → ComesTo r w j is_delivery (λ notes. has_cert notes v) }
    // the end of the view that they are in: by timeouts whoever is live can be brought to note a
    // nullification
    ensures ends { (r : Rules) (script : List Line) (w : World)
        → IsCluster r script → Reaches r script w
        → (epoch view : ℕ) → view < 2 ^ 64 - 1 → (voters : List ℕ)
        → IsTrue (rises_from 0 voters) → quorum (size r.epochs epoch) ≤ length voters
        → ((i : ℕ) → In i voters → IsVoter r w epoch view i)
        → (j : ℕ) (n : Member) → member_at w j ≡ Some n → IsTrue n.live
        → ComesTo r w j is_delivery_or_timeout
        (λ notes. has_cert notes (Vote.Nullify epoch view)) }
    // the finalization of a proposal that somebody live noted a notarization of, where each of them
    // holds its block
    ensures finalizes { (r : Rules) (script : List Line) (w : World)
        → IsCluster r script → Reaches r script w
        → (p : Proposal) (s : Cert) → s.vote ≡ Vote.Notarize p
        → (i : ℕ) (m : Member) → member_at w i ≡ Some m → IsTrue m.live
        → In (Note.Cert s) (member_notes m)
        → (voters : List ℕ) → IsTrue (rises_from 0 voters)
        → quorum (size r.epochs p.epoch) ≤ length voters
        → ((j : ℕ) → In j voters → CanFinalize r w p j)
        → (j : ℕ) (n : Member) → member_at w j ≡ Some n → IsTrue n.live
        → ComesTo r w j is_delivery (λ notes. has_cert notes (Vote.Finalize p)) }
{}
