//! Laws on what is handed out, once it is final.

ghost use Rattle.std.specs.Prelude.{IsTrue, List, Some, ℕ, ◌<◌, ◌≡◌};
ghost use Rattle.std.specs.List.{AllByRecursion};
ghost use Rattle.cw_rules.specs.Chains.{Ends, outcome};
ghost use Rattle.cw_rules.specs.Held.{pending};
ghost use Rattle.cw_rules.specs.Reached.{In, IsCluster, Reaches};
ghost use Rattle.cw_rules.specs.Rules.{Rules};
ghost use Rattle.cw_rules.specs.Step.{Member, state_of};
ghost use Rattle.cw_rules.specs.World.{Ask, Do, Line, World, happens, member_at, run};
ghost use Rattle.cw_progress.specs.Going.{known_top};
ghost use Rattle.cw_progress.specs.Handing.{AllHandAbove, AllHandUpTo, CanHandUpTo, HandsUpTo};
ghost use Rattle.cw_progress.specs.Handing.{IsAckTaken};
ghost use Rattle.cw_progress.specs.Over.{is_honest_line};

/// What an acknowledgement does.
pub fn ack_law()
    // where a live member handed something out that it hasn't acknowledged, it is taken, and lets
    // the next hand-outs go
    ensures taken { (r : Rules) (script : List Line) (w : World)
        → IsCluster r script → Reaches r script w
        → (i : ℕ) (m : Member) → member_at w i ≡ Some m → IsTrue m.live
        → (h : ℕ) → In h (pending (state_of m)) → IsAckTaken r w i m }
    // it leads to a world that a script reaches
    ensures reached { (r : Rules) (script : List Line) (w : World)
        → IsCluster r script → Reaches r script w → (i : ℕ)
        → (longer : List Line) × IsCluster r longer
        × Reaches r longer (happens r w (Do i Ask.Ack)) }
{}

/// What is final is handed out, with acknowledgements between.
pub fn hand_out_law()
    // by a live member that knows a block to be final and holds what is below it
    ensures one { (r : Rules) (script : List Line) (w : World)
        → IsCluster r script → Reaches r script w → 0 < r.backlog
        → (i : ℕ) (m : Member) → member_at w i ≡ Some m
        → (top : ℕ) → CanHandUpTo r m top → HandsUpTo r w i m top }
    // by all honest members, where each of them does
    ensures all { (r : Rules) (script : List Line) (w : World)
        → IsCluster r script → Reaches r script w → 0 < r.backlog
        → (top : ℕ) → ((i : ℕ) (m : Member) → member_at w i ≡ Some m → CanHandUpTo r m top)
        → AllHandUpTo r w top }
    // so where lines of honest members lead to that, and nobody knew so high a block to be final
    // before them, each hands out a block above all that was known, in these lines or behind them
    ensures above { (r : Rules) (script : List Line) (w : World)
        → IsCluster r script → Reaches r script w → 0 < r.backlog
        → (lines : List Line) → AllByRecursion (λ line. IsTrue (is_honest_line line)) lines
        → outcome r w lines ≡ Ends (run r w lines)
        → (top : ℕ) → known_top r w < top
        → ((i : ℕ) (m : Member) → member_at (run r w lines) i ≡ Some m → CanHandUpTo r m top)
        → AllHandAbove r w lines }
{}
