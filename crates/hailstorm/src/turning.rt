//! The cluster of a script with lanes: any lane may have the next turn.

ghost use Rattle.std.specs.Prelude.{◌≡◌, ◌<◌, ◌≤◌, ◌⊎◌, ◌++◌, ◌∷◌, [], ℕ, List, None, Ok, Some};
ghost use Rattle.std.specs.Prelude.{false, flat_map, length, slice_get, take, true};
ghost use Rattle.std.specs.Prelude.{IfErr, IfOk, IfSome, OnOk};
ghost use Rattle.cw_rules.specs.Chains.{Ends, outcome};
ghost use Rattle.cw_rules.specs.Report.{entry_of};
ghost use Rattle.cw_rules.specs.World.{Line};
ghost use Rattle.hail_script.specs.declared.error.RunError.TheVariants as cause;
ghost use Rattle.hail_script.specs.Lanes.{Laned, laned_of, lanes as lanes_in, prefix, rows};
ghost use Rattle.hail_world.specs.Clusters.{world_in};
ghost use Rattle.hail_world.specs.Places.{script_rules};
ghost use Rattle.hail_world.specs.Played.{lines_of};
ghost use Rattle.hail_world.specs.Runs.{IsStopped, opened};
ghost use Rattle.hailstorm.specs.Lanes.{IsLanesCause, IsLanesReport, lane_at, left};
ghost use Rattle.hailstorm.specs.Turns.{IsTurnOf, told_order};

use crate::cursors::{cursor_at, cursors_of, first_left, number_of};
use crate::reply::{Reply, copy_entry, errors_again, law_of_equality};
use crate::world::Report;
use cw_base::{Digest32, Hasher, Items, NoMemory, Strategy};
use cw_rules::{clash_laws, report_laws};
use cw_rules_coded::ruled_tells;
use hail_report::Entry;
use hail_script::{LaneScript, RunError, script_laws};
use hail_world::Cluster;
use node::Chunked;
use std::alloc::Global;
use std::marker::Model;
use std::thread::Threads;

/// The cluster of a script with lanes, between two turns.
#[derive(Drop)]
pub(crate) struct Turning<H: Hasher<Digest = Digest32>> {
    cluster: Cluster<H, Chunked>,
    // of each line of its script, the number in the text
    numbers: Items<u64>,
    // how many lines stand before each lane: by these contracts know the lanes
    sizes: Items<u64>,
    // of each lane, the place of its next event and the end of its events
    cursors: Vec<(usize, usize)>,
    // the lanes that had a turn
    order: Items<u64>,
    // why no further line is played
    stopped: Option<RunError>,
}

impl<H: Hasher<Digest = Digest32>> Model for Turning<H> {
    ghost use Rattle.hailstorm.specs.Turns.{IsTurning, Turning};

    ghost Value = { Turning };

    ghost view = { λ t. record {
      laned = record { script = t.cluster.script; numbers = t.numbers; sizes = t.sizes };
      order = t.order;
      stopped = t.stopped;
    } };

    ghost invariant = { λ t. IsTurning H.digest_of
        (record { script = t.cluster.script; numbers = t.numbers; sizes = t.sizes }) t.order
        t.stopped t.cluster t.cursors.items };
}

impl<H: Hasher<Digest = Digest32>> Turning<H> {
    /// Each honest member starts, by number, and the lines before all lanes have their turns.
    pub(crate) fn open<R: Threads + Sync, S: Strategy>(
        rt: &R,
        alloc: Global,
        script: LaneScript,
        strategy: &S,
    ) -> Result<Turning<H>, RunError>
        ensures ok { IfOk result (λ t. t ≡ record { laned = script; order = []; stopped = None }) }
        ensures err { IfErr result
            (λ e. IsStopped (script_rules H.digest_of script.script)
            (opened H.digest_of script.script)
            (lines_of (prefix script)) e) }
    {
        let (plain, numbers, sizes) = script.into_parts();
        let (before, cursors) = cursors_of(alloc, sizes.as_slice(), plain.lines().len())?;
        let mut cluster = Cluster::<H, Chunked>::open(rt, alloc, plain, strategy)?;
        match play_before(
            rt,
            alloc,
            &mut cluster,
            numbers.as_slice(),
            before,
            strategy,
        ) {
            Ok(()) => Ok(Turning {
                cluster,
                numbers,
                sizes,
                cursors,
                order: Items::new(alloc),
                stopped: None,
            }),
            Err(error) => {
                drop(cluster);
                Err(error)
            }
        }
    }

    /// The next line of a lane has its turn. The reply is given twice.
    pub(crate) fn turn<R: Threads + Sync, S: Strategy>(
        &mut self,
        rt: &R,
        alloc: Global,
        lane: u64,
        strategy: &S,
    ) -> (Reply, Reply)
        ensures lawful { IsTurnOf H.digest_of self.old lane result.0 self.new }
        ensures equal { ⟦<Result<Option<Entry>, RunError> as PartialEq>⟧.eq result.0 result.1
            ≡ true }
    {
        let (first, second) = self.answer_twice(rt, alloc, lane, strategy);
        law_of_equality(&first);
        (first, second)
    }

    // The same, without that what is given is equal.
    fn answer_twice<R: Threads + Sync, S: Strategy>(
        &mut self,
        rt: &R,
        alloc: Global,
        lane: u64,
        strategy: &S,
    ) -> (Reply, Reply)
        ensures lawful { IsTurnOf H.digest_of self.old lane result.0 self.new }
        ensures twice { result.1 ≡ result.0 }
    {
        let count = self.cluster.script().lines().len();
        if let Some(error) = &self.stopped {
            let (first, second) = errors_again(alloc, error);
            return (Err(first), Err(second));
        }
        let Some((from, end)) = cursor_at(&self.cursors, lane, count) else {
            return (Ok(None), Ok(None));
        };
        // No line is played any more where this one isn't played to its end.
        self.stopped = Some(RunError::NoMemory);
        match self.order.push(lane) {
            Ok(()) => {}
            Err(_) => return (Err(RunError::NoMemory), Err(RunError::NoMemory)),
        }
        let number = number_of(self.numbers.as_slice(), from);
        match play_twice(rt, alloc, &mut self.cluster, from, number, strategy) {
            Ok((first, second)) => {
                self.cursors[lane as usize] = (from + 1, end);
                self.stopped = None;
                (Ok(Some(first)), Ok(Some(second)))
            }
            Err(error) => {
                let (first, second) = errors_again(alloc, &error);
                self.stopped = Some(met(error, &first));
                (Err(first), Err(second))
            }
        }
    }

    /// The first lane that has a line left, where lines are played yet.
    pub(crate) fn next_lane(&self) -> Option<u64>
        ensures some { IfSome result (λ lane. (self.now.stopped ≡ None)
            × (0 < length (lane_at (left (lanes_in self.now.laned) self.now.order) lane))) }
        ensures none { result ≡ None → self.now.stopped ≡ None
            → flat_map (λ lane. lane) (left (lanes_in self.now.laned) self.now.order) ≡ [] }
    {
        let count = self.cluster.script().lines().len();
        if self.stopped.is_some() {
            return None;
        }
        first_left(&self.cursors, count)
    }

    /// How many lines each lane has left.
    pub(crate) fn lines_left(&self, alloc: Global) -> Result<Vec<usize>, NoMemory> {
        let mut left = Vec::new(alloc);
        for (from, end) in &self.cursors {
            left.push(end.saturating_sub(*from))?;
        }
        Ok(left)
    }

    /// The lanes that had a turn, and the report; or why there is none.
    pub(crate) fn end(
        self,
        alloc: Global,
    ) -> Result<(Items<u64>, Report<H>), (Items<u64>, RunError)>
        requires { self.stopped ≡ None
            → flat_map (λ lane. lane) (left (lanes_in self.laned) self.order) ≡ [] }
        ensures ok { (text : List ℕ) → laned_of text ≡ Ok self.laned
            → IfOk result (λ done. IsLanesReport H.digest_of text done.0 done.1) }
        ensures err { (text : List ℕ) → laned_of text ≡ Ok self.laned
            → IfErr result (λ done. IsLanesCause H.digest_of text done.0 done.1) }
    {
        report_laws();
        clash_laws();
        script_laws();
        ruled_tells::<H>();
        let Turning {
            cluster,
            numbers: _,
            sizes: _,
            cursors: _,
            order,
            stopped,
        } = self;
        let plain = cluster.script();
        plain.is_cluster();
        let _backlog = plain.backlog();
        let _lines = plain.lines();
        match stopped {
            None => {
                cluster.goes_on();
                match cluster.end(alloc) {
                    Ok(ran) => Ok((order, ran.report)),
                    Err(NoMemory) => Err((Items::new(alloc), RunError::NoMemory)),
                }
            }
            Some(error) => {
                drop(cluster);
                Err((order_beside(alloc, order, &error), error))
            }
        }
    }
}

// The lanes that are told beside an error: with a clash those that had a turn, else none.
fn order_beside(alloc: Global, order: Items<u64>, error: &RunError) -> Items<u64>
    ensures { result ≡ told_order order error.now }
{
    match error {
        RunError::HashClash(_, _) => order,
        _ => Items::new(alloc),
    }
}

// The error that is kept beside a copy that is told.
fn met(error: RunError, told: &RunError) -> RunError
    requires { (told.now ≡ error) ⊎ (told.now ≡ cause.NoMemory) }
    ensures { result ≡ told.now }
{
    match told {
        RunError::NoMemory => RunError::NoMemory,
        _ => error,
    }
}

// The lines before all lanes have their turns, under these numbers.
fn play_before<H: Hasher<Digest = Digest32>, R: Threads + Sync, S: Strategy>(
    rt: &R,
    alloc: Global,
    cluster: &mut Cluster<H, Chunked>,
    numbers: &[u64],
    before: usize,
    strategy: &S,
) -> Result<(), RunError>
    requires first { cluster.old.rows ≡ [] }
    requires whole { cluster.old.over ≡ false }
    requires within { before ≤ length cluster.old.script.lines }
    ensures ok { (x : Laned) → x.script ≡ cluster.old.script → x.numbers ≡ numbers.now
        → OnOk result (cluster.new ≡ record cluster.old { rows = take before (rows x) }) }
    ensures err { (x : Laned) → x.script ≡ cluster.old.script → x.numbers ≡ numbers.now
        → IfErr result
        (λ e. IsStopped (script_rules H.digest_of x.script) (opened H.digest_of x.script)
        (lines_of (take before (rows x))) e) }
{
    for at in 0..before {
        let number = number_of(numbers, at);
        match cluster.turn(rt, alloc, at, number, strategy) {
            Ok(()) => {}
            Err(error) => return Err(error),
        }
    }
    Ok(())
}

// The line at a place of the script has its turn, under this number. Its entry is given twice.
fn play_twice<H: Hasher<Digest = Digest32>, R: Threads + Sync, S: Strategy>(
    rt: &R,
    alloc: Global,
    cluster: &mut Cluster<H, Chunked>,
    at: usize,
    number: u64,
    strategy: &S,
) -> Result<(Entry, Entry), RunError>
    requires whole { cluster.old.over ≡ false }
    requires there { at < length cluster.old.script.lines }
    ensures script { cluster.new.script ≡ cluster.old.script }
    ensures ok { (line : Line) → slice_get cluster.old.script.lines at ≡ Some line
        → OnOk result
        (cluster.new ≡ record cluster.old { rows = cluster.old.rows ++ (number, line) ∷ [] }) }
    ensures gives { (line : Line) → slice_get cluster.old.script.lines at ≡ Some line
        → IfOk result
        (λ r. r.0 ≡ entry_of (script_rules H.digest_of cluster.old.script)
        (world_in H.digest_of cluster.old) number line) }
    ensures twice { IfOk result (λ r. r.0 ≡ r.1) }
    ensures err { (line : Line) → slice_get cluster.old.script.lines at ≡ Some line
        → IfErr result
        (λ e. IsStopped (script_rules H.digest_of cluster.old.script)
        (opened H.digest_of cluster.old.script) (lines_of cluster.old.rows ++ line ∷ []) e) }
    ensures before { outcome (script_rules H.digest_of cluster.old.script)
        (opened H.digest_of cluster.old.script) (lines_of cluster.old.rows)
        ≡ Ends (world_in H.digest_of cluster.old) }
{
    cluster.goes_on();
    match cluster.turn(rt, alloc, at, number, strategy) {
        Ok(()) => {}
        Err(error) => return Err(error),
    }
    let steps = cluster.steps();
    let last = steps.len() - 1;
    let entry = &steps[last];
    let first = copy_entry(alloc, entry)?;
    let second = copy_entry(alloc, entry)?;
    Ok((first, second))
}
