//! The turn of one line, until a clash.

ghost use Rattle.std.specs.Prelude.{◌≡◌, ◌<◌, ◌++◌, ◌∷◌, ℕ, [], List, Some, length};
ghost use Rattle.std.specs.Prelude.{slice_get, IfOk, IfErr};
ghost use Rattle.cw_rules.specs.Report.{entry_of};
ghost use Rattle.cw_rules.specs.World.{Line, World as RulesWorld, run};
ghost use Rattle.hail_world.specs.Played.{lines_of};
ghost use Rattle.hail_world.specs.Places.{WorkBy, notes_at as notes_in, script_rules};
ghost use Rattle.hail_world.specs.declared.place.Place.{Place as PlaceValue};
ghost use Rattle.hail_world.specs.MemoryNodes.{MemoryNode as MemoryNodeValue};
ghost use Rattle.hail_world.specs.Runs.{IsStopped};
ghost use Rattle.hail_world.specs.Played.{Begin, HavePlayed};

use crate::blocks::KnownBlocks;
use crate::clash::find_clash;
use crate::live_node::LiveNode;
use crate::place::Place;
use crate::play::play;
use crate::setting::Setting;
use crate::turn::notes_at;
use cw_base::{Digest32, Hasher, Strategy};
use cw_rules::cluster_laws;
use hail_report::Entry;
use hail_script::RunError;
use node::Way;
use std::alloc::Global;
use std::thread::Threads;

/// A line's turn: its entry, or the clash that it brings. The blocks that it notes are known then.
pub(crate) fn turn_line<H: Hasher<Digest = Digest32>, W: Way, R: Threads + Sync, S: Strategy>(
    rt: &R,
    alloc: Global,
    setting: &Setting<'_>,
    places: &mut [Place<LiveNode<H, W>>],
    known: &mut KnownBlocks,
    strategy: &S,
) -> Result<Entry, RunError>
    requires way { setting.now.script.now.travel ≡ W.travel }
    requires count { length places.old ≡ setting.now.script.now.committees.total }
    requires sound { WorkBy (script_rules H.digest_of setting.now.script.now) 0 places.old }
    ensures played { (w : RulesWorld) (rows : List (ℕ × Line))
        → Begin (script_rules H.digest_of setting.now.script.now) w
        (lines_of rows ++ setting.now.line.now ∷ [])
        → HavePlayed (script_rules H.digest_of setting.now.script.now) w rows setting.now.pool.now
        places.old known.old setting.now.faulty.now
        → IfOk result
        (λ entry. HavePlayed (script_rules H.digest_of setting.now.script.now) w
        (rows ++ (setting.now.number, setting.now.line.now) ∷ [])
        (setting.now.pool.now ++ entry ∷ []) places.new known.new setting.now.faulty.now) }
    ensures gives { (w : RulesWorld) (rows : List (ℕ × Line))
        → HavePlayed (script_rules H.digest_of setting.now.script.now) w rows setting.now.pool.now
        places.old known.old setting.now.faulty.now
        → IfOk result
        (λ entry. entry ≡ entry_of (script_rules H.digest_of setting.now.script.now)
        (run (script_rules H.digest_of setting.now.script.now) w (lines_of rows)) setting.now.number
        setting.now.line.now) }
    ensures sound { IfOk result
        (λ _. WorkBy (script_rules H.digest_of setting.now.script.now) 0 places.new) }
    ensures err { (w : RulesWorld) (rows : List (ℕ × Line))
        → Begin (script_rules H.digest_of setting.now.script.now) w
        (lines_of rows ++ setting.now.line.now ∷ [])
        → HavePlayed (script_rules H.digest_of setting.now.script.now) w rows setting.now.pool.now
        places.old known.old setting.now.faulty.now
        → IfErr result
        (λ e. IsStopped (script_rules H.digest_of setting.now.script.now) w
        (lines_of rows ++ setting.now.line.now ∷ []) e) }
{
    cluster_laws();
    let id = usize::from(setting.line.member());
    let old = notes_before::<H, W>(places, id);
    let entry = play(rt, alloc, setting, places, strategy)?;
    if let Some((earlier, later)) = find_clash::<H, W>(alloc, known, places, id, old)? {
        return Err(RunError::HashClash(earlier, later));
    }
    Ok(entry)
}

// How many notes who sits there has.
fn notes_before<H: Hasher<Digest = Digest32>, W: Way>(
    places: &[Place<LiveNode<H, W>>],
    id: usize,
) -> usize
    ensures { (p : PlaceValue MemoryNodeValue) → slice_get places.now id ≡ Some p
        → result ≡ length (notes_in p) }
{
    match places.get(id) {
        None => 0,
        Some(place) => notes_at::<H, W>(place).len(),
    }
}
