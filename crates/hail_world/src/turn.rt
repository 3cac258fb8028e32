//! What a line makes of the member that it names.

ghost use Rattle.std.specs.Prelude.{◌≡◌, ◌<◌, ◌≤◌, List, ℕ, Option, Some, None, [], false, map};
ghost use Rattle.std.specs.Prelude.{true, is_none, option_and_then, IfOk, IsTrue};
ghost use Rattle.cw_types.specs.declared.note.Note.{Note as NoteValue};
ghost use Rattle.cw_types.specs.declared.event.Event.{Event as EventValue};
ghost use Rattle.cw_rules.specs.Step.{Member, Stepped, cut_step, start};
ghost use Rattle.cw_rules.specs.World as rule;
ghost use Rattle.cw_rules.specs.World.{line_member};
ghost use Rattle.marshal.specs.Frames.{FindsNotes};
ghost use Rattle.node_disk.specs.Memory.{is_calm, memory_state};
ghost use Rattle.hail_world.specs.Places.{DiskHolds, IsPutOut, Makes, SitsAs, WorksBy};
ghost use Rattle.hail_world.specs.Places.{did, did_cut};
ghost use Rattle.hail_world.specs.Places.{script_rules, starts_again, table, turned_by};
ghost use Rattle.hail_world.specs.Places.{world_of_pool};
ghost use Rattle.hail_world.specs.Places as places;
ghost use Rattle.hail_world.specs.declared.place.Place.TheVariants.{Live};
ghost use Rattle.hail_report.specs.Pool.{sent_in};
ghost use Rattle.hail_world.specs.MemoryNodes.{HasStepped, Works, out_of, rules_by};

use crate::event::event_for;
use crate::live_node::{LiveNode, MemoryNode, start, step};
use crate::place::Place;
use crate::setting::Setting;
use cw_base::{Digest32, Hasher, Items, NoMemory, Strategy};
use cw_types::{Event, Note, StepOut};
use hail_script::{Ask, EventLine, LineKind, Script, Stop};
use marshal::notes_on;
use node::Way;
use node_disk::{MemoryDisk, StoreError, law_of_a_stop};
use std::alloc::Global;
use std::thread::Threads;

// A member takes an event.
fn take_event<H: Hasher<Digest = Digest32>, W: Way, R: Threads + Sync, S: Strategy>(
    rt: &R,
    alloc: Global,
    setting: &Setting<'_>,
    node: &mut MemoryNode<H, W>,
    event: &Event,
    strategy: &S,
) -> Result<StepOut, NoMemory>
    requires works { Works node.old }
    requires calm { is_calm node.old.log.disk ≡ true }
    ensures steps { IfOk result
        (λ out. HasStepped (rules_by H.digest_of node.old)
        (table setting.now.faulty.now (sent_in setting.now.pool.now)) event.now node.old node.new
        out) }
    ensures calm { IfOk result (λ out. is_calm node.new.log.disk ≡ true) }
{
    match step(rt, alloc, node, event, setting, strategy) {
        Ok(out) => Ok(out),
        Err(StoreError::NoMemory) => Err(NoMemory),
        Err(StoreError::Disk) => unreachable!(),
        Err(_) => unreachable!(),
    }
}

// A member's place once it is stopped.
fn stopped<H: Hasher<Digest = Digest32>, W: Way>(
    alloc: Global,
    node: MemoryNode<H, W>,
) -> Result<Place<LiveNode<H, W>>, NoMemory>
    requires { (frames : List (List NoteValue))
        × FindsNotes frames (memory_state node.log.disk).now.seen }
    ensures { IfOk result (λ place. IsPutOut node.log.disk place) }
{
    let disk = node.into_disk().reopen();
    match notes_on(alloc, disk.bytes()) {
        Ok(notes) => Ok(Place::Stopped(disk, notes)),
        Err(StoreError::NoMemory) => Err(NoMemory),
        Err(StoreError::Foreign(_)) => unreachable!(),
        Err(_) => unreachable!(),
    }
}

// Nothing is sent or handed out.
fn nothing(alloc: Global) -> StepOut
    ensures { result ≡ record { sent = []; handed = []; tickets = [] } }
{
    StepOut {
        sent: Items::new(alloc),
        handed: Items::new(alloc),
        tickets: Items::new(alloc),
    }
}

// A member takes an event with a stop.
fn cut_event<H: Hasher<Digest = Digest32>, W: Way, R: Threads + Sync, S: Strategy>(
    rt: &R,
    alloc: Global,
    setting: &Setting<'_>,
    mut node: MemoryNode<H, W>,
    stop: Stop,
    event: &Event,
    strategy: &S,
) -> Result<(Place<LiveNode<H, W>>, StepOut), NoMemory>
    requires works { Works node }
    requires calm { is_calm node.log.disk ≡ true }
    ensures cut { let done = cut_step (rules_by H.digest_of node) node.id
        (table setting.now.faulty.now
        (sent_in setting.now.pool.now)) node.member stop.call stop.cut stop.fill event.now in
        IfOk result (λ made. SitsAs made.0 (Some done.member) × (made.1 ≡ out_of done)) }
    ensures sound { IfOk result (λ made. WorksBy (rules_by H.digest_of node) node.id made.0) }
{
    law_of_a_stop();
    node.stop_at(stop.call, stop.cut, stop.fill);
    match step(rt, alloc, &mut node, event, setting, strategy) {
        Ok(out) => Ok((stopped(alloc, node)?, out)),
        Err(StoreError::Disk) => Ok((stopped(alloc, node)?, nothing(alloc))),
        Err(StoreError::NoMemory) => {
            drop(node);
            Err(NoMemory)
        }
        Err(_) => unreachable!(),
    }
}

// A stopped member starts on its disk.
pub(crate) fn restart<H: Hasher<Digest = Digest32>, W: Way, R: Threads + Sync, S: Strategy>(
    rt: &R,
    alloc: Global,
    script: &Script,
    id: u16,
    disk: MemoryDisk,
    strategy: &S,
) -> Result<(Place<LiveNode<H, W>>, StepOut), NoMemory>
    requires way { script.now.travel ≡ W.travel }
    requires known { id < script.now.committees.total }
    requires calm { is_calm disk ≡ true }
    requires holds { (frames : List (List NoteValue))
        × FindsNotes frames (memory_state disk).now.seen }
    ensures started { (frames : List (List NoteValue))
        → FindsNotes frames (memory_state disk).now.seen
        → let done = start (script_rules H.digest_of script.now) id frames in
        IfOk result (λ made. SitsAs made.0 (Some done.member) × (made.1 ≡ out_of done)) }
    ensures sound { IfOk result (λ made. WorksBy (script_rules H.digest_of script.now) id made.0) }
{
    let committees = script.committees(alloc)?;
    let (live_node, out) = start(rt, alloc, id, committees, script.backlog(), disk, strategy)?;
    Ok((Place::Live(live_node), out))
}

// A member that runs takes the event that it was asked for.
fn event_taken<H: Hasher<Digest = Digest32>, W: Way, R: Threads + Sync, S: Strategy>(
    rt: &R,
    alloc: Global,
    setting: &Setting<'_>,
    live_node: LiveNode<H, W>,
    event: &Event,
    strategy: &S,
) -> Result<(LiveNode<H, W>, StepOut), NoMemory>
    requires works { Works live_node }
    requires calm { is_calm live_node.log.disk ≡ true }
    ensures steps { IfOk result
        (λ made. HasStepped (rules_by H.digest_of live_node)
        (table setting.now.faulty.now (sent_in setting.now.pool.now)) event.now live_node made.0
        made.1) }
    ensures calm { IfOk result (λ made. is_calm made.0.log.disk ≡ true) }
{
    let LiveNode { mut node } = live_node;
    match take_event(rt, alloc, setting, &mut node, event, strategy) {
        Ok(out) => Ok((LiveNode { node }, out)),
        Err(error) => {
            drop(node);
            Err(error)
        }
    }
}

// A member that runs, and is asked for something.
fn asked_live<H: Hasher<Digest = Digest32>, W: Way, R: Threads + Sync, S: Strategy>(
    rt: &R,
    alloc: Global,
    setting: &Setting<'_>,
    id: u16,
    live_node: LiveNode<H, W>,
    ask: &Ask,
    strategy: &S,
) -> Result<(Place<LiveNode<H, W>>, Option<StepOut>), NoMemory>
    requires sound { WorksBy (script_rules H.digest_of setting.now.script.now) id (Live live_node) }
    ensures makes { (o : Option Member) → SitsAs (Live live_node) o
        → let signed = table setting.now.faulty.now (sent_in setting.now.pool.now) in
        IfOk result
        (λ made. Makes o
        (option_and_then
        (did (script_rules H.digest_of setting.now.script.now) signed
        (world_of_pool (sent_in setting.now.pool.now)) id ask.now) o) made.0 made.1) }
    ensures sound { IfOk result
        (λ made. WorksBy (script_rules H.digest_of setting.now.script.now) id made.0) }
{
    match event_for(alloc, setting.pool, id, ask) {
        Ok(None) => Ok((Place::Live(live_node), None)),
        Ok(Some(event)) => {
            let made = event_taken(rt, alloc, setting, live_node, &event, strategy);
            drop(event);
            let (live_node, out) = made?;
            Ok((Place::Live(live_node), Some(out)))
        }
        Err(error) => {
            drop(live_node);
            Err(error)
        }
    }
}

// A member that is asked for something.
fn asked<H: Hasher<Digest = Digest32>, W: Way, R: Threads + Sync, S: Strategy>(
    rt: &R,
    alloc: Global,
    setting: &Setting<'_>,
    id: u16,
    place: Place<LiveNode<H, W>>,
    ask: &Ask,
    strategy: &S,
) -> Result<(Place<LiveNode<H, W>>, Option<StepOut>), NoMemory>
    requires sound { WorksBy (script_rules H.digest_of setting.now.script.now) id place }
    ensures makes { (o : Option Member) → SitsAs place o
        → let signed = table setting.now.faulty.now (sent_in setting.now.pool.now) in
        IfOk result
        (λ made. Makes o
        (option_and_then
        (did (script_rules H.digest_of setting.now.script.now) signed
        (world_of_pool (sent_in setting.now.pool.now)) id ask.now) o) made.0 made.1) }
    ensures sound { IfOk result
        (λ made. WorksBy (script_rules H.digest_of setting.now.script.now) id made.0) }
{
    match place {
        Place::Live(live_node) => asked_live(rt, alloc, setting, id, live_node, ask, strategy),
        other => Ok((other, None)),
    }
}

// A member that runs, and is asked for something, with a stop.
fn cut_live<H: Hasher<Digest = Digest32>, W: Way, R: Threads + Sync, S: Strategy>(
    rt: &R,
    alloc: Global,
    setting: &Setting<'_>,
    id: u16,
    live_node: LiveNode<H, W>,
    stop: Stop,
    ask: &Ask,
    strategy: &S,
) -> Result<(Place<LiveNode<H, W>>, Option<StepOut>), NoMemory>
    requires sound { WorksBy (script_rules H.digest_of setting.now.script.now) id (Live live_node) }
    ensures makes { (o : Option Member) → SitsAs (Live live_node) o
        → let signed = table setting.now.faulty.now (sent_in setting.now.pool.now) in
        IfOk result
        (λ made. Makes o
        (option_and_then
        (did_cut (script_rules H.digest_of setting.now.script.now) signed
        (world_of_pool (sent_in setting.now.pool.now)) id stop.call stop.cut stop.fill ask.now) o)
        made.0 made.1) }
    ensures sound { IfOk result
        (λ made. WorksBy (script_rules H.digest_of setting.now.script.now) id made.0) }
{
    match event_for(alloc, setting.pool, id, ask) {
        Ok(None) => Ok((Place::Live(live_node), None)),
        Ok(Some(event)) => {
            let LiveNode { node } = live_node;
            let made = cut_event(rt, alloc, setting, node, stop, &event, strategy);
            drop(event);
            let (place, out) = made?;
            Ok((place, Some(out)))
        }
        Err(error) => {
            drop(live_node);
            Err(error)
        }
    }
}

// A member that is asked for something, with a stop.
fn cut<H: Hasher<Digest = Digest32>, W: Way, R: Threads + Sync, S: Strategy>(
    rt: &R,
    alloc: Global,
    setting: &Setting<'_>,
    id: u16,
    place: Place<LiveNode<H, W>>,
    stop: Stop,
    ask: &Ask,
    strategy: &S,
) -> Result<(Place<LiveNode<H, W>>, Option<StepOut>), NoMemory>
    requires sound { WorksBy (script_rules H.digest_of setting.now.script.now) id place }
    ensures makes { (o : Option Member) → SitsAs place o
        → let signed = table setting.now.faulty.now (sent_in setting.now.pool.now) in
        IfOk result
        (λ made. Makes o
        (option_and_then
        (did_cut (script_rules H.digest_of setting.now.script.now) signed
        (world_of_pool (sent_in setting.now.pool.now)) id stop.call stop.cut stop.fill ask.now) o)
        made.0 made.1) }
    ensures sound { IfOk result
        (λ made. WorksBy (script_rules H.digest_of setting.now.script.now) id made.0) }
{
    match place {
        Place::Live(live_node) => cut_live(rt, alloc, setting, id, live_node, stop, ask, strategy),
        other => Ok((other, None)),
    }
}

// A member that starts again, where it was stopped.
fn restarted<H: Hasher<Digest = Digest32>, W: Way, R: Threads + Sync, S: Strategy>(
    rt: &R,
    alloc: Global,
    setting: &Setting<'_>,
    id: u16,
    place: Place<LiveNode<H, W>>,
    strategy: &S,
) -> Result<(Place<LiveNode<H, W>>, Option<StepOut>), NoMemory>
    requires way { setting.now.script.now.travel ≡ W.travel }
    requires member { id ≡ line_member setting.now.line.now }
    requires sound { WorksBy (script_rules H.digest_of setting.now.script.now) id place }
    ensures makes { (o : Option Member) → SitsAs place o
        → IfOk result
        (λ made. Makes o
        (option_and_then (starts_again (script_rules H.digest_of setting.now.script.now) id) o)
        made.0 made.1) }
    ensures sound { IfOk result
        (λ made. WorksBy (script_rules H.digest_of setting.now.script.now) id made.0) }
{
    match place {
        Place::Stopped(disk, _) => {
            let (place, out) = restart(rt, alloc, setting.script, id, disk, strategy)?;
            Ok((place, Some(out)))
        }
        other => Ok((other, None)),
    }
}

/// What the line makes of who sits in the place of the member that it names.
pub(crate) fn take_turn<H: Hasher<Digest = Digest32>, W: Way, R: Threads + Sync, S: Strategy>(
    rt: &R,
    alloc: Global,
    setting: &Setting<'_>,
    id: u16,
    place: Place<LiveNode<H, W>>,
    strategy: &S,
) -> Result<(Place<LiveNode<H, W>>, Option<StepOut>), NoMemory>
    requires way { setting.now.script.now.travel ≡ W.travel }
    requires member { id ≡ line_member setting.now.line.now }
    requires sound { WorksBy (script_rules H.digest_of setting.now.script.now) id place }
    ensures makes { (o : Option Member) → SitsAs place o
        → let signed = table setting.now.faulty.now (sent_in setting.now.pool.now) in
        IfOk result
        (λ made. Makes o
        (option_and_then
        (turned_by (script_rules H.digest_of setting.now.script.now) signed
        (world_of_pool (sent_in setting.now.pool.now)) id setting.now.line.now) o) made.0 made.1) }
    ensures sound { IfOk result
        (λ made. WorksBy (script_rules H.digest_of setting.now.script.now) id made.0) }
{
    match setting.line.kind() {
        LineKind::Do(_, ask) => asked(rt, alloc, setting, id, place, ask, strategy),
        LineKind::Cut(stop, _, ask) => { cut(rt, alloc, setting, id, place, *stop, ask, strategy) }
        LineKind::Restart(_) => restarted(rt, alloc, setting, id, place, strategy),
        LineKind::Faulty(..) => Ok((place, None)),
    }
}

/// The notes of who sits in a place.
pub(crate) fn notes_at<H: Hasher<Digest = Digest32>, W: Way>(
    place: &Place<LiveNode<H, W>>,
) -> &[Note]
    ensures { result.now ≡ places.notes_at place.now }
{
    match place {
        Place::Faulty => &[],
        Place::Live(live_node) => live_node.node.notes(),
        Place::Stopped(_, notes) => notes.as_slice(),
    }
}

/// How many notes a restart found, where it started its member.
pub(crate) fn found_at<H: Hasher<Digest = Digest32>, W: Way>(
    line: &EventLine,
    place: &Place<LiveNode<H, W>>,
    out: &Option<StepOut>,
) -> Option<u64>
    ensures { result ≡ places.found_at line.now place.now out.now }
{
    match (line.kind(), out) {
        (LineKind::Restart(_), Some(_)) => Some(notes_at::<H, W>(place).len() as u64),
        _ => None,
    }
}
