//! The law that a cluster in one epoch without end is never stuck.

ghost use Rattle.std.specs.Prelude.{IsTrue, List, None, Some, ℕ, ◌*◌, ◌+◌, ◌-◌, ◌<◌, ◌^◌, ◌≡◌};
ghost use Rattle.std.specs.Prelude.{◌≤◌, ◌⊎◌};
ghost use Rattle.std.specs.List.{AllByRecursion};
ghost use Rattle.cw_types.specs.Epochs.{size};
ghost use Rattle.cw_rules.specs.Coding.{IsCoder};
ghost use Rattle.cw_rules.specs.Notes.{view_of};
ghost use Rattle.cw_rules.specs.Reached.{IsCluster, ReachesClear};
ghost use Rattle.cw_rules.specs.Rules.{Rules};
ghost use Rattle.cw_rules.specs.Step.{Member, member_notes};
ghost use Rattle.cw_rules.specs.World.{Line, World, member_at};
ghost use Rattle.cw_rules.specs.declared.travel.Travel.TheVariants.{Chunked};
ghost use Rattle.cw_progress.specs.Going.{GoesOnTimes, goes_on, helps, is_able, keeps_all};
ghost use Rattle.cw_progress.specs.Going.{shows_twins};
ghost use Rattle.cw_progress.specs.Offered.{IsWelcome};
ghost use Rattle.cw_progress.specs.Views.{AreViewsLeft};

/// In one epoch without end a cluster that is able is never stuck, wherever a script has brought it
/// without a clash, however blocks travel. The application must accept blocks of this payload, and
/// views must be left. Then there are lines that help by which each honest member hands out a block
/// above all that any of them knew to be final, and the cluster is able again; or they show twins.
pub fn goes_on_law()
    // where no block is gone that is still to be handed out
    ensures able { (r : Rules) (script : List Line) (w : World) → r.epochs.span ≡ None
        → IsCluster r script → ReachesClear r script w → (r.travel ≡ Chunked → IsCoder r)
        → 0 < r.backlog → (payload : List ℕ) → IsWelcome r payload → AreViewsLeft r w
        → IsTrue (is_able r w)
        → (more : List Line) × AllByRecursion (λ line. IsTrue (helps w payload line)) more
        × (IsTrue (goes_on r w more) ⊎ IsTrue (shows_twins r w payload more)) }
    // and so one block after the other, as long as views are left
    ensures many { (r : Rules) (script : List Line) (w : World) → r.epochs.span ≡ None
        → IsCluster r script → ReachesClear r script w → (r.travel ≡ Chunked → IsCoder r)
        → 0 < r.backlog → (payload : List ℕ) → IsWelcome r payload → (count base : ℕ)
        → ((i : ℕ) (m : Member) → member_at w i ≡ Some m → view_of (member_notes m) 0 ≤ base)
        → base + count * (2 * size r.epochs 0 + 4) < 2 ^ 64 - 1
        → IsTrue (is_able r w) → GoesOnTimes r payload count w }
    // one block more always, where the script let no block go and gave up no height
    ensures always { (r : Rules) (script : List Line) (w : World) → r.epochs.span ≡ None
        → IsCluster r script → ReachesClear r script w → (r.travel ≡ Chunked → IsCoder r)
        → 0 < r.backlog → (payload : List ℕ) → IsWelcome r payload → AreViewsLeft r w
        → AllByRecursion (λ line. IsTrue (keeps_all line)) script
        → (more : List Line) × AllByRecursion (λ line. IsTrue (helps w payload line)) more
        × (IsTrue (goes_on r w more) ⊎ IsTrue (shows_twins r w payload more)) }
{}
