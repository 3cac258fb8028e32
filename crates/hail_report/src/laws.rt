//! Laws of runs and of storms, which take no work.

ghost use Rattle.std.specs.Prelude.{◌≡◌, ◌≤◌, [], ℕ, List, Ok, Some, length};
ghost use Rattle.cw_rules.specs.Report.{Entry, opening_entry};
ghost use Rattle.cw_rules.specs.Rules.{Rules};
ghost use Rattle.cw_rules.specs.Step.{start};
ghost use Rattle.cw_rules.specs.World.{Line, sent_from};
ghost use Rattle.hail_script.specs.Grammar.{script_of};
ghost use Rattle.hail_script.specs.Pieces.{lines};
ghost use Rattle.hail_script.specs.Scenario.{Scenario};
ghost use Rattle.hail_report.specs.Storm.{storm_script};

/// The script of every storm is one that is run, and has at most 6,313 lines.
pub fn storm_laws()
    ensures runs { (number : ℕ)
        → (script : Scenario) × (script_of (storm_script number) ≡ Ok script) }
    ensures short { (number : ℕ) → length (lines (storm_script number)) ≤ 6313 }
{}

/// The messages of an opening are those of the starts on empty disks: there are none.
pub fn opening_laws()
    ensures silent { (r : Rules) (id : ℕ) → (start r id []).sent ≡ [] }
    ensures entry { (r : Rules) (script : List Line) (id : ℕ) (entry : Entry)
        → opening_entry r script id ≡ Some entry
        → entry.sent ≡ sent_from 0 id (start r id []).sent }
{}
