//! Laws on what the leader of a view offers, and on who votes for it.

ghost use Rattle.std.specs.Prelude.{◌-◌, ◌^◌, List, None, Some, ℕ, ◌<◌, ◌≡◌, ◌⊎◌};
ghost use Rattle.cw_types.specs.Epochs.{leader};
ghost use Rattle.cw_rules.specs.Coding.{IsCoder};
ghost use Rattle.cw_rules.specs.Reached.{IsCluster, ReachesClear};
ghost use Rattle.cw_rules.specs.Rules.{Rules};
ghost use Rattle.cw_rules.specs.Step.{Member};
ghost use Rattle.cw_rules.specs.World.{Line, World, member_at};
ghost use Rattle.cw_rules.specs.declared.travel.Travel.TheVariants.{Chunked};
ghost use Rattle.cw_progress.specs.Offered.{ComeToOffer, ComeToVotes, ComesToTwins, IsWelcome};
ghost use Rattle.cw_progress.specs.Views.{IsNewTo};

/// In one epoch without end, where all honest members are in a view that an honest member leads and
/// none has voted in it, the leader can offer this payload, by lines that help. Else twins show.
pub fn propose_law()
    ensures { (r : Rules) (script : List Line) (w : World) → r.epochs.span ≡ None
        → IsCluster r script → ReachesClear r script w
        → (payload : List ℕ) → IsWelcome r payload → (view : ℕ) → view < 2 ^ 64 - 1
        → ((i : ℕ) (m : Member) → member_at w i ≡ Some m → IsNewTo w i view)
        → (m : Member) → member_at w (leader r.epochs 0 view) ≡ Some m
        → ComeToOffer r w payload view ⊎ ComesToTwins r w payload }
{}

/// From there lines that help lead on to where each honest member of the epoch has voted for what
/// is offered, however blocks travel. Else twins show.
pub fn notarize_law()
    ensures { (r : Rules) (script : List Line) (w : World) → r.epochs.span ≡ None
        → IsCluster r script → ReachesClear r script w → (r.travel ≡ Chunked → IsCoder r)
        → (payload : List ℕ) → IsWelcome r payload → (view : ℕ) → view < 2 ^ 64 - 1
        → ((i : ℕ) (m : Member) → member_at w i ≡ Some m → IsNewTo w i view)
        → (m : Member) → member_at w (leader r.epochs 0 view) ≡ Some m
        → ComeToVotes r w payload view ⊎ ComesToTwins r w payload }
{}
