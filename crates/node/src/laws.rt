//! Laws of a member over its steps and its starts, which take no work.

ghost use Rattle.std.specs.Prelude.{◌≡◌, ◌++◌, IsTrue, List, ℕ};
ghost use Rattle.std.specs.List.{AllByRecursion};
ghost use Rattle.std.specs.List.Sorted.{IsStrictlyIncreasing};
ghost use Rattle.cw_types.specs.declared.note.Note.{Note};
ghost use Rattle.cw_types.specs.declared.vote.Vote.{Vote};
ghost use Rattle.cw_rules.specs.Held.{resume};
ghost use Rattle.cw_rules.specs.Keeps.{IsRising};
ghost use Rattle.cw_rules.specs.Notes.{has_vote};
ghost use Rattle.cw_rules.specs.Rules.{Rules};
ghost use Rattle.cw_rules.specs.Step.{Member, member_notes, step};
ghost use Rattle.marshal.specs.Stored.{join_frames};
ghost use Rattle.node.specs.Lives.{GoUp, Life, SendsVote, Turn, VotesOnce, after_lives};
ghost use Rattle.node.specs.Lives.{after_turns, since_start};

use cw_rules::member_laws;

/// What holds of a member over any lives, each from a start to a crash. A node goes by the rules'
/// start and steps, and a crash leaves all of a step's notes or none, so its disk holds the frames
/// after some lives.
pub fn life_laws()
    // where its first disk held no two votes to notarize of one epoch and view, and no votes to
    // nullify a view and to finalize in it, no later disk does
    ensures own_votes { (id : ℕ) (frames : List (List Note)) (lives : List Life)
        → AllByRecursion (λ (life : Life). IsRising life.rules) lives
        → VotesOnce (join_frames frames) → VotesOnce (join_frames (after_lives id frames lives)) }
    // a vote that a step sends is noted on each disk that a crash leaves later, whatever steps and
    // starts come between
    ensures sent_votes { (r : Rules) (id : ℕ) (m : Member) (turn : Turn) (v : Vote)
        (more : List Turn) (lives : List Life)
        → SendsVote r id m turn v
        → IsTrue (has_vote (join_frames (after_lives id
        (after_turns r id (step r id turn.signed m turn.event).member more).frames lives)) v) }
    // since a start what is handed out goes up by one from where it resumes, save jumps to noted
    // floors
    ensures handed { (r : Rules) (id : ℕ) (frames : List (List Note)) (turns : List Turn)
        → GoUp (member_notes (since_start r id frames turns)) (resume (join_frames frames))
        (since_start r id frames turns).given }
    // and what was handed out by then stays in front, so a jump is over a floor that was noted before
    // the hand-out
    ensures stays { (r : Rules) (id : ℕ) (frames : List (List Note)) (turns more : List Turn)
        → (later : List ℕ) × ((since_start r id frames (turns ++ more)).given
        ≡ (since_start r id frames turns).given ++ later) }
    // so no height is handed out twice
    ensures once { (r : Rules) (id : ℕ) (frames : List (List Note)) (turns : List Turn)
        → IsStrictlyIncreasing (since_start r id frames turns).given }
{
    member_laws();
}
