//! A cluster in a run.

ghost use Rattle.std.specs.Prelude.{◌≡◌, ◌<◌, ◌++◌, ◌∷◌, [], Some, false, length, slice_get, true};
ghost use Rattle.std.specs.Prelude.{IfErr, IfOk, OnErr, OnOk};
ghost use Rattle.cw_rules.specs.Chains.{Ends, outcome};
ghost use Rattle.cw_rules.specs.Report.{opening_entries};
ghost use Rattle.cw_rules.specs.World.{Line};
ghost use Rattle.hail_world.specs.Clusters.{steps_in, world_in};
ghost use Rattle.hail_world.specs.Places.{script_rules};
ghost use Rattle.hail_world.specs.Played.{IsReportOf, lines_of};
ghost use Rattle.hail_world.specs.Runs.{IsStopped, opened};

use crate::blocks::KnownBlocks;
use crate::line_turn::turn_line;
use crate::live_node::LiveNode;
use crate::place::Place;
use crate::report::Ran;
use crate::setting::Setting;
use crate::world::{open_all, report_of};
use cw_base::{Digest32, Hasher, Items, NoMemory, Strategy};
use hail_report::{Entry, Pool};
use hail_script::{RunError, Script};
use node::Way;
use std::alloc::Global;
use std::marker::Model;
use std::mem;
use std::thread::Threads;

/// A cluster in a run, between two lines: its script, who sits in its places, what was sent and
/// what is told so far. Contracts see the script, the lines that had their turns, each under its
/// number, and whether one of them was left in the midst; by the rules these say all else.
#[derive(Drop)]
pub struct Cluster<H: Hasher<Digest = Digest32>, W: Way> {
    script: Script,
    // of each member, whether some line makes it faulty
    faulty: Vec<bool>,
    places: Vec<Place<LiveNode<H, W>>>,
    known: KnownBlocks,
    opening: Items<Entry>,
    pool: Pool,
    // of each line that had its turn, its number and its place in the script
    turns: Vec<(u64, usize)>,
    // whether a turn was left in the midst
    over: bool,
}

impl<H: Hasher<Digest = Digest32>, W: Way> Model for Cluster<H, W> {
    ghost use Rattle.hail_world.specs.Clusters.{Cluster, ClusterStands, lines_of_turns};

    ghost Value = { Cluster };

    ghost view = { λ c. record {
      script = c.script;
      rows = lines_of_turns c.script.lines c.turns.items;
      over = c.over;
    } };

    ghost invariant = { λ c. ClusterStands H.digest_of W.travel c.script c.opening
        (lines_of_turns c.script.lines c.turns.items) c.over c.pool c.places.items c.known
        c.faulty.items };
}

impl<H: Hasher<Digest = Digest32>, W: Way> Cluster<H, W> {
    /// Each honest member starts, by number, and no line has had its turn.
    pub fn open<R: Threads + Sync, S: Strategy>(
        rt: &R,
        alloc: Global,
        script: Script,
        strategy: &S,
    ) -> Result<Cluster<H, W>, NoMemory>
        requires way { script.travel ≡ W.travel }
        ensures { IfOk result
            (λ cluster. cluster ≡ record { script = script; rows = []; over = false }) }
    {
        let faulty = script.faulty(alloc)?;
        let known = KnownBlocks::new::<H>(alloc)?;
        let (opening, places) = open_all::<H, W, R, S>(rt, alloc, &script, &faulty, strategy)?;
        Ok(Cluster {
            script,
            faulty,
            places,
            known,
            opening,
            pool: Pool::new(alloc),
            turns: Vec::new(alloc),
            over: false,
        })
    }

    /// The line at a place of the script has its turn, under this number, whatever lines had theirs
    /// before. Where it brings a clash, or memory is short, no further line can have its turn.
    pub fn turn<R: Threads + Sync, S: Strategy>(
        &mut self,
        rt: &R,
        alloc: Global,
        at: usize,
        number: u64,
        strategy: &S,
    ) -> Result<(), RunError>
        requires whole { self.old.over ≡ false }
        requires there { at < length self.old.script.lines }
        ensures script { self.new.script ≡ self.old.script }
        ensures ok { (line : Line) → slice_get self.old.script.lines at ≡ Some line
            → OnOk result
            (self.new ≡ record self.old { rows = self.old.rows ++ (number, line) ∷ [] }) }
        ensures err { (line : Line) → slice_get self.old.script.lines at ≡ Some line
            → IfErr result
            (λ e. IsStopped (script_rules H.digest_of self.old.script)
            (opened H.digest_of self.old.script) (lines_of self.old.rows ++ line ∷ []) e) }
        ensures over { OnErr result (self.new.over ≡ true) }
    {
        // Until the line was played to its end.
        self.over = true;
        self.script.is_cluster();
        let setting = Setting {
            script: &self.script,
            faulty: &self.faulty,
            pool: &self.pool,
            number,
            line: &self.script.lines()[at],
        };
        let entry = match turn_line::<H, W, R, S>(
            rt,
            alloc,
            &setting,
            &mut self.places,
            &mut self.known,
            strategy,
        ) {
            Ok(entry) => entry,
            Err(error) => return Err(error),
        };
        put_turn(alloc, &mut self.pool, &mut self.turns, entry, (number, at))?;
        self.over = false;
        Ok(())
    }

    /// The script whose cluster it is.
    pub fn script(&self) -> &Script
        ensures { result.now ≡ self.now.script }
    {
        &self.script
    }

    /// What the lines gave that had their turns.
    pub fn steps(&self) -> &[Entry]
        ensures { self.now.over ≡ false → result.now ≡ steps_in H.digest_of self.now }
    {
        self.pool.entries()
    }

    /// A law: the lines that had their turns brought no clash.
    pub fn goes_on(&self)
        ensures { self.now.over ≡ false
            → outcome (script_rules H.digest_of self.now.script)
            (opened H.digest_of self.now.script)
            (lines_of self.now.rows)
            ≡ Ends (world_in H.digest_of self.now) }
    {
        let _over = &self.over;
    }

    /// The script, and the report of these lines.
    pub fn end(self, alloc: Global) -> Result<Ran<H, W>, NoMemory>
        requires { self.over ≡ false }
        ensures script { IfOk result (λ ran. ran.script ≡ self.script) }
        ensures report { IfOk result
            (λ ran. IsReportOf (script_rules H.digest_of self.script) (world_in H.digest_of self)
            (opening_entries (script_rules H.digest_of self.script) self.script.lines)
            (steps_in H.digest_of self) ran.report) }
    {
        let Cluster {
            script,
            faulty: _,
            places,
            known: _,
            opening,
            pool,
            turns: _,
            over: _,
        } = self;
        let _lines = script.lines();
        match report_of::<H, W>(alloc, places, opening, pool.into_entries()) {
            Ok(report) => Ok(Ran { script, report }),
            Err(error) => Err(error),
        }
    }
}

// One turn more, with its entry.
fn put_turn(
    alloc: Global,
    pool: &mut Pool,
    turns: &mut Vec<(u64, usize)>,
    entry: Entry,
    turn: (u64, usize),
) -> Result<(), NoMemory>
    ensures entry { OnOk result (pool.new ≡ pool.old ++ entry ∷ []) }
    ensures turn { OnOk result (turns.new.items ≡ turns.old.items ++ turn ∷ []) }
{
    let entries = mem::replace(pool, Pool::new(alloc));
    *pool = entries.with(alloc, entry)?;
    turns.push(turn)?;
    Ok(())
}
