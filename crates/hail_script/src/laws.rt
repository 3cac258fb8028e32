//! Laws of the definition of scripts, which take no work.

ghost use Rattle.std.specs.Prelude.{◌≡◌, Err, List, Ok, ℕ};
ghost use Rattle.std.specs.List.{AllByRecursion};
ghost use Rattle.cw_rules.specs.Telling.{FitsLine};
ghost use Rattle.cw_rules.specs.declared.travel.Travel.{Travel};
ghost use Rattle.cw_rules.specs.declared.travel.Travel.TheVariants.{Chunked};
ghost use Rattle.cw_types.specs.Epochs.{single};
ghost use Rattle.hail_script.specs.Grammar.{IsEarly, script_by, whole_script_of};
ghost use Rattle.hail_script.specs.Lanes.{Laned, laned_of};
ghost use Rattle.hail_script.specs.Scenario.{Scenario};
ghost use Rattle.hail_script.specs.declared.error.RunError.{RunError};

/// A text that isn't run has one of the five causes that are tested before a run; and what the
/// lines of one that is run bring in can be written, with lanes too. A script that is run says how
/// its blocks travel: those of lanes in chunks; and where they travel whole there is one epoch, of
/// all members.
pub fn script_laws()
    ensures early { (travel : Travel) (text : List ℕ) (e : RunError) → script_by travel text ≡ Err e
        → IsEarly e }
    ensures fits { (travel : Travel) (text : List ℕ) (s : Scenario) → script_by travel text ≡ Ok s
        → AllByRecursion FitsLine s.lines }
    ensures travels { (travel : Travel) (text : List ℕ) (s : Scenario)
        → script_by travel text ≡ Ok s → s.travel ≡ travel }
    ensures whole { (text : List ℕ) (s : Scenario) → whole_script_of text ≡ Ok s
        → s.committees ≡ single s.committees.total }
    ensures laned { (text : List ℕ) (x : Laned) → laned_of text ≡ Ok x
        → AllByRecursion FitsLine x.script.lines }
    ensures lanes { (text : List ℕ) (x : Laned) → laned_of text ≡ Ok x
        → x.script.travel ≡ Chunked }
{}
