//! Laws on the way from votes for a proposal to a block that each honest member knows to be final, in
//! one epoch without end.

ghost use Rattle.std.specs.Prelude.{IsTrue, List, None, Some, ℕ, ◌≡◌, ◌⊎◌};
ghost use Rattle.std.specs.List.{AllByRecursion};
ghost use Rattle.cw_types.specs.declared.vote.Proposal.{Proposal};
ghost use Rattle.cw_types.specs.Block.{Block};
ghost use Rattle.cw_rules.specs.Fits.{block_fits};
ghost use Rattle.cw_rules.specs.Reached.{IsCluster, Reaches, ReachesClear};
ghost use Rattle.cw_rules.specs.Rules.{Rules};
ghost use Rattle.cw_rules.specs.Step.{Member, member_notes};
ghost use Rattle.cw_rules.specs.World.{Line, World, member_at, run};
ghost use Rattle.cw_progress.specs.Going.{helps, is_stocked};
ghost use Rattle.cw_progress.specs.Over.{ComesToClash};
ghost use Rattle.cw_progress.specs.Settling.{ComeToCertified, ComeToFinal, ComeToHold, HasCertified};
ghost use Rattle.cw_progress.specs.Settling.{IsBacker, KnowsFinal};

/// In one epoch without end, where all honest members are in the view of a proposal, those of the
/// epoch have voted for it and not to nullify that view, and one of them all holds a block that is
/// one for it, all come to certify it, by lines that help, however blocks travel. Then those of the
/// epoch have voted to finalize it. Else a clash turns up.
pub fn certify_law()
    ensures { (r : Rules) (script : List Line) (w : World) → r.epochs.span ≡ None
        → IsCluster r script → ReachesClear r script w → (payload : List ℕ)
        → (p : Proposal) → p.epoch ≡ 0
        → ((i : ℕ) (m : Member) → member_at w i ≡ Some m → IsBacker r w p i)
        → (i : ℕ) (m : Member) → member_at w i ≡ Some m
        → IsTrue (block_fits r (member_notes m) p)
        → ComeToCertified r w (helps w payload) p ⊎ ComesToClash r w (helps w payload) }
{}

/// From there all honest members come to know the block to be final, by lines that help. Else a clash
/// turns up.
pub fn finalize_law()
    ensures { (r : Rules) (script : List Line) (w : World) → r.epochs.span ≡ None
        → IsCluster r script → ReachesClear r script w → (payload : List ℕ)
        → (p : Proposal) (b : Block)
        → ((i : ℕ) (m : Member) → member_at w i ≡ Some m → HasCertified r w p b i)
        → ComeToFinal r w (helps w payload) p b ⊎ ComesToClash r w (helps w payload) }
{}

/// From there, where no block is gone that is still to be handed out, all honest members come to hold
/// what they still have to hand out up to that block, by lines that help. Else a clash turns up.
pub fn hold_law()
    ensures { (r : Rules) (script : List Line) (w : World) → r.epochs.span ≡ None
        → IsCluster r script → ReachesClear r script w → (payload : List ℕ)
        → IsTrue (is_stocked w) → (p : Proposal) (b : Block)
        → ((i : ℕ) (m : Member) → member_at w i ≡ Some m → KnowsFinal r w p b i)
        → ComeToHold r w (helps w payload) b.height ⊎ ComesToClash r w (helps w payload) }
{}

/// Lines that help let no block go: where none is gone that is still to be handed out, none is after
/// them.
pub fn stocked_law()
    ensures { (r : Rules) (script : List Line) (w : World) → IsCluster r script → Reaches r script w
        → (payload : List ℕ) → IsTrue (is_stocked w) → (lines : List Line)
        → AllByRecursion (λ line. IsTrue (helps w payload line)) lines
        → IsTrue (is_stocked (run r w lines)) }
{}
