//! The cluster that a script runs, from its members' starts to its report.

ghost use Rattle.std.specs.Prelude.{◌≡◌, ◌<◌, ◌^◌, ◌++◌, [], Ok, Some, false, filter_map, length};
ghost use Rattle.std.specs.Prelude.{map, IfOk, IfErr, OnOk, Option};
ghost use Rattle.std.specs.List.{enumerate_from};
ghost use Rattle.cw_rules.specs.Held.{last_ack};
ghost use Rattle.cw_rules.specs.Report.{acked_at, opening_entries, opening_entry};
ghost use Rattle.cw_rules.specs.Rules.{Rules};
ghost use Rattle.cw_rules.specs.Step.{Member};
ghost use Rattle.hail_world.specs.Offers.{some_of};
ghost use Rattle.hail_world.specs.OneChain.{IsOneChain};
ghost use Rattle.cw_rules.specs.World.{World as RulesWorld};
ghost use Rattle.hail_script.specs.Grammar.{faulty_marks, first_event, script_by};
ghost use Rattle.hail_world.specs.Places.{SitAs, WorkBy, SitsAs, WorksBy};
ghost use Rattle.hail_world.specs.Places.{script_rules};
ghost use Rattle.hail_world.specs.Reports.{AreNodesOf, HoldNotes, IsCause, IsReport, IsRun, honest};
ghost use Rattle.hail_world.specs.Reports.{honest_at};
ghost use Rattle.hail_world.specs.Played.{IsReportOf};
ghost use Rattle.hail_world.specs.Runs.{GoesBy, HandsBack, IsStopped, acked_with};
ghost use Rattle.hail_world.specs.Runs.{opened, opening_member};

use crate::chain::chain_of;
use crate::cluster::Cluster;
use crate::event::is_faulty;
use crate::live_node::{LiveNode, MemoryNode};
use crate::place::Place;
use crate::report::{Ran, Report};
use crate::turn::restart;
use cw_base::{Digest32, Hasher, Items, NoMemory, Strategy};
use cw_rules::{clash_laws, report_laws};
use cw_rules_coded::ruled_tells;
use cw_types::Note;
use hail_report::{Acked, Entry};
use hail_script::{RunError, Script, script_laws};
use node::Way;
use node_disk::MemoryDisk;
use std::alloc::Global;
use std::thread::Threads;

/// Reads a script from its text, and runs it: each honest member starts, by number, and each line
/// has its turn, until a clash. The way in which blocks travel is `W`.
pub fn run_text<H: Hasher<Digest = Digest32>, W: Way, R: Threads + Sync, S: Strategy>(
    rt: &R,
    alloc: Global,
    text: &[u8],
    strategy: &S,
) -> Result<Ran<H, W>, RunError>
    // All that its honest members hand out lies on one chain.
    ensures one_chain { IfOk result (λ ran. IsOneChain H.digest_of ran.report) }

    // The text spells this script, and this is the report of its run.
    ensures spells { IfOk result (λ ran. script_by W.travel text.now ≡ Ok ran.script) }
    ensures run { IfOk result (λ ran. IsRun H.digest_of ran.script ran.report) }
    ensures report { IfOk result (λ ran. IsReport W.travel H.digest_of text.now ran.report) }
    ensures err { IfErr result (λ e. IsCause W.travel H.digest_of text.now e) }
{
    report_laws();
    clash_laws();
    script_laws();
    ruled_tells::<H>();
    let script = match Script::parse_by(alloc, W::travel(), text) {
        Ok(script) => script,
        Err(error) => return Err(error),
    };
    script.is_cluster();
    let _backlog = script.backlog();
    let _lines = script.lines();
    match run_script::<H, W, R, S>(rt, alloc, script, strategy) {
        Ok(ran) => Ok(ran),
        Err(error) => Err(error),
    }
}

fn run_script<H: Hasher<Digest = Digest32>, W: Way, R: Threads + Sync, S: Strategy>(
    rt: &R,
    alloc: Global,
    script: Script,
    strategy: &S,
) -> Result<Ran<H, W>, RunError>
    requires way { script.travel ≡ W.travel }
    ensures script { IfOk result (λ ran. ran.script ≡ script) }
    ensures ok { IfOk result (λ ran. IsRun H.digest_of script ran.report) }
    ensures err { IfErr result
        (λ e. IsStopped (script_rules H.digest_of script) (opened H.digest_of script) script.lines
        e) }
{
    let mut cluster = Cluster::<H, W>::open(rt, alloc, script, strategy)?;
    match play_all(rt, alloc, &mut cluster, strategy) {
        Ok(()) => {}
        Err(error) => {
            drop(cluster);
            return Err(error);
        }
    }
    cluster.goes_on();
    match cluster.end(alloc) {
        Ok(ran) => Ok(ran),
        Err(NoMemory) => Err(RunError::NoMemory),
    }
}

// Each line's turn, in order, until a clash.
fn play_all<H: Hasher<Digest = Digest32>, W: Way, R: Threads + Sync, S: Strategy>(
    rt: &R,
    alloc: Global,
    cluster: &mut Cluster<H, W>,
    strategy: &S,
) -> Result<(), RunError>
    requires first { cluster.old.rows ≡ [] }
    requires whole { cluster.old.over ≡ false }
    ensures ok { OnOk result
        (cluster.new
        ≡ record cluster.old {
          rows =
              enumerate_from (first_event cluster.old.script.committees) cluster.old.script.lines;
        }) }
    ensures err { IfErr result
        (λ e. IsStopped (script_rules H.digest_of cluster.old.script)
        (opened H.digest_of cluster.old.script) cluster.old.script.lines e) }
{
    let first = cluster.script().first_event();
    let count = cluster.script().lines().len();
    for at in 0..count {
        match cluster.turn(rt, alloc, at, first + at as u64, strategy) {
            Ok(()) => {}
            Err(error) => return Err(error),
        }
    }
    Ok(())
}

/// The report that the parts of a cluster give behind their last line: the entries of the opening
/// and of the lines, where each honest member stands, the chain, the disks and the nodes.
pub(crate) fn report_of<H: Hasher<Digest = Digest32>, W: Way>(
    alloc: Global,
    places: Vec<Place<LiveNode<H, W>>>,
    opening: Items<Entry>,
    steps: Items<Entry>,
) -> Result<Report<H, W>, NoMemory>
    requires { length places.items < 2 ^ 16 }
    ensures { (r : Rules) (w : RulesWorld) → GoesBy H.digest_of r → WorkBy r 0 places.items
        → SitAs places.items w.members
        → IfOk result (λ report. IsReportOf r w opening steps report) }
{
    let acked = standings::<H, W>(alloc, &places)?;
    let chain = chain_of::<H, W>(alloc, &places, opening.as_slice(), steps.as_slice())?;
    let (disks, nodes) = close_all::<H, W>(alloc, places)?;
    Ok(Report {
        opening,
        steps,
        acked,
        disks,
        nodes,
        chain,
    })
}

// A member's place, and its entry where no line makes it faulty.
fn open_one<H: Hasher<Digest = Digest32>, W: Way, R: Threads + Sync, S: Strategy>(
    rt: &R,
    alloc: Global,
    script: &Script,
    faulty: &[bool],
    id: u16,
    strategy: &S,
) -> Result<(Place<LiveNode<H, W>>, Option<Entry>), NoMemory>
    requires way { script.now.travel ≡ W.travel }
    requires marks { faulty.now ≡ faulty_marks script.now.lines script.now.committees.total }
    requires known { id < script.now.committees.total }
    ensures entry { IfOk result
        (λ made. made.1 ≡ opening_entry (script_rules H.digest_of script.now) script.now.lines id) }
    ensures member { IfOk result
        (λ made. SitsAs made.0
        (opening_member (script_rules H.digest_of script.now) script.now.lines id)) }
    ensures sound { IfOk result (λ made. WorksBy (script_rules H.digest_of script.now) id made.0) }
{
    if is_faulty(faulty, id) {
        return Ok((Place::Faulty, None));
    }
    let disk = MemoryDisk::new(alloc, Vec::new(alloc));
    let (place, out) = restart::<H, W, R, S>(rt, alloc, script, id, disk, strategy)?;
    let entry = Entry {
        line: 0,
        member: Some(id),
        found: None,
        sent: Items::new(alloc),
        handed: out.handed,
    };
    Ok((place, Some(entry)))
}

fn push_entry(entries: &mut Items<Entry>, one: Option<Entry>) -> Result<(), NoMemory>
    ensures { OnOk result (entries.new ≡ entries.old ++ some_of one) }
{
    match one {
        None => Ok(()),
        Some(one) => {
            entries.push(one)?;
            Ok(())
        }
    }
}

/// The entries of an opening and the places of the members: each honest member starts, by number.
pub(crate) fn open_all<H: Hasher<Digest = Digest32>, W: Way, R: Threads + Sync, S: Strategy>(
    rt: &R,
    alloc: Global,
    script: &Script,
    faulty: &[bool],
    strategy: &S,
) -> Result<(Items<Entry>, Vec<Place<LiveNode<H, W>>>), NoMemory>
    requires way { script.now.travel ≡ W.travel }
    requires flags { faulty.now ≡ faulty_marks script.now.lines script.now.committees.total }
    ensures opening { IfOk result
        (λ r. r.0 ≡ opening_entries (script_rules H.digest_of script.now) script.now.lines) }
    ensures members { IfOk result
        (λ r. SitAs r.1.items (opened H.digest_of script.now).members) }
    ensures sound { IfOk result (λ r. WorkBy (script_rules H.digest_of script.now) 0 r.1.items) }
    ensures count { IfOk result (λ r. length r.1.items ≡ script.now.committees.total) }
{
    let mut opening = Items::new(alloc);
    let mut places = Vec::new(alloc);
    for id in 0..script.members() {
        let (place, entry) = open_one::<H, W, R, S>(rt, alloc, script, faulty, id, strategy)?;
        places.push(place)?;
        push_entry(&mut opening, entry)?;
    }
    Ok((opening, places))
}

// Where each honest member stands.
fn standings<H: Hasher<Digest = Digest32>, W: Way>(
    alloc: Global,
    places: &[Place<LiveNode<H, W>>],
) -> Result<Items<Acked>, NoMemory>
    requires { length places.now < 2 ^ 16 }
    ensures { (r : Rules) (w : RulesWorld) → WorkBy r 0 places.now
        → SitAs places.now w.members
        → IfOk result (λ acked. acked ≡ filter_map acked_at (enumerate_from 0 w.members)) }
{
    let mut acked = Items::new(alloc);
    for (index, place) in places.iter().enumerate() {
        push_some(&mut acked, standing_of::<H, W>(index as u16, place))?;
    }
    Ok(acked)
}

fn push_some(acked: &mut Items<Acked>, one: Option<Acked>) -> Result<(), NoMemory>
    ensures { OnOk result (acked.new ≡ acked.old ++ some_of one) }
{
    match one {
        None => Ok(()),
        Some(one) => {
            acked.push(one)?;
            Ok(())
        }
    }
}

fn standing_of<H: Hasher<Digest = Digest32>, W: Way>(
    member: u16,
    place: &Place<LiveNode<H, W>>,
) -> Option<Acked>
    ensures { (r : Rules) (o : Option Member) → WorksBy r member place.now → SitsAs place.now o
        → result ≡ acked_at (member, o) }
{
    match place {
        Place::Faulty => None,
        Place::Live(live_node) => Some(standing(member, true, live_node.node.notes())),
        Place::Stopped(_, notes) => Some(standing(member, false, notes.as_slice())),
    }
}

fn standing(member: u16, live: bool, notes: &[Note]) -> Acked
    ensures { result
        ≡ record {
          member = member;
          live = live;
          height = last_ack notes.now;
          notes = length notes.now;
        } }
{
    Acked {
        member,
        live,
        height: last_ack(notes),
        notes: notes.len() as u64,
    }
}

fn last_ack(notes: &[Note]) -> Option<u64>
    ensures { result ≡ last_ack notes.now }
{
    let mut last = None;
    for note in notes {
        last = acked(note, last);
    }
    last
}

// The height that a note acknowledges, else the one before.
fn acked(note: &Note, last: Option<u64>) -> Option<u64>
    ensures { result ≡ acked_with last note.now }
{
    match note {
        Note::Ack(height) => Some(*height),
        _ => last,
    }
}

pub(crate) fn copy_bytes(alloc: Global, bytes: &[u8]) -> Result<Items<u8>, NoMemory>
    ensures { IfOk result (λ copy. copy ≡ bytes.now) }
{
    Ok(Items::from_vec(Vec::from_slice(alloc, bytes)?))
}

// The bytes of the disks, and the nodes.
fn close_all<H: Hasher<Digest = Digest32>, W: Way>(
    alloc: Global,
    places: Vec<Place<LiveNode<H, W>>>,
) -> Result<(Items<Items<u8>>, Items<Option<MemoryNode<H, W>>>), NoMemory>
    ensures { (r : Rules) (w : RulesWorld) → WorkBy r 0 places.items
        → SitAs places.items w.members
        → IfOk result (λ closed. HoldNotes (honest w) closed.0
        × AreNodesOf r (honest_at w) closed.0 closed.1) }
{
    let mut disks = Items::new(alloc);
    let mut nodes = Items::new(alloc);
    for place in places {
        push_closed(&mut disks, &mut nodes, close(alloc, place)?)?;
    }
    Ok((disks, nodes))
}

fn push_closed<H: Hasher<Digest = Digest32>, W: Way>(
    disks: &mut Items<Items<u8>>,
    nodes: &mut Items<Option<MemoryNode<H, W>>>,
    closed: Option<(Items<u8>, Option<MemoryNode<H, W>>)>,
) -> Result<(), NoMemory>
    ensures disks { OnOk result (disks.new ≡ disks.old ++ map (λ c. c.0) (some_of closed)) }
    ensures nodes { OnOk result (nodes.new ≡ nodes.old ++ map (λ c. c.1) (some_of closed)) }
{
    match closed {
        None => Ok(()),
        Some((bytes, node)) => match disks.push(bytes) {
            Ok(()) => nodes.push(node),
            Err(error) => {
                drop(node);
                Err(error)
            }
        },
    }
}

// The bytes of a member's disk, and its node where it is live.
fn close<H: Hasher<Digest = Digest32>, W: Way>(
    alloc: Global,
    place: Place<LiveNode<H, W>>,
) -> Result<Option<(Items<u8>, Option<MemoryNode<H, W>>)>, NoMemory>
    ensures { IfOk result (λ closed. HandsBack place closed) }
{
    match place {
        Place::Faulty => Ok(None),
        Place::Live(LiveNode { node }) => match copy_bytes(alloc, node.bytes()) {
            Ok(bytes) => Ok(Some((bytes, Some(node)))),
            Err(error) => {
                drop(node);
                Err(error)
            }
        },
        Place::Stopped(disk, _) => Ok(Some((copy_bytes(alloc, disk.bytes())?, None))),
    }
}
