//! Tests of the nodes that come back from a run, from lanes and from a storm. The lines that they
//! expect are those that `tools/oracle/nodes.py` prints, which is written from docs/RULES.md and
//! docs/FORMATS.md alone.

ghost use Rattle.std.specs.Prelude.{true};

use cw_base::{Items, NoGate, Sequential, SumHasher};
use cw_types::{AcceptAll, Event, Handed, Message, Out, StepOut, Verifier, Vote};
use hailstorm::{Acked, Report, World, storm_script};
use node::Node;
use node_disk::MemoryDisk;
use std::alloc::Global;
use std::mem;
use std::sync::Wait;
use std::test::Fail;
use std::thread::Threads;

// Member 3 is faulty, member 0 is stopped, members 2 and 4 reach the second epoch, and member 5
// lacks the block that ends the first.
const FRONT: &str = "epochs 6 1 1 2
members 0 1 2 3
members 1 2 4 5
faulty 3 silent
propose 1 6869
deliver 0 0
deliver 1 0
deliver 4 0
deliver 2 2
deliver 4 2
deliver 8 0
deliver 9 1
deliver 9 2
deliver 5 2
deliver 10 2
deliver 12 2
propose 2 63
deliver 16 4
deliver 16 5
deliver 23 1
deliver 26 4
cut 1 0 0 timeout 0 2
";

// Two lines that may come in either order, and the same in lanes.
const PLAIN: &str = "timeout 4 1\ntimeout 5 1\n";

const LANES: &str = "lane\ntimeout 4 1\nlane\ntimeout 5 1\n";

// Of each honest member the epoch and the view that it is in, its notes, and the bytes of its disk;
// then what it sends and hands out when it is asked for height 9, is given votes of members 0 to 5
// to nullify its view, and has an acknowledgement. So it tells its number, whose votes count and
// how many, and that no more than one block waits for an acknowledgement. The last write of member
// 0 has 19 bytes, which are lost.
const NODES: &str = "0 stopped, 796 bytes
1 in 0/2: 6 notes, 877 bytes; ask 1 9; cert [0, 1, 2]
2 in 1/1: 10 notes, 1542 bytes; ask 2 9; cert [1, 2, 4]; hand 1
4 in 1/1: 4 notes, 551 bytes; ask 4 9; cert [1, 2, 4]; hand 1
5 in 0/2: 1 notes, 136 bytes; ask 5 9; cert [0, 1, 2]
";

// The same after storm 5.
const STORM: &str = "0 in 0/7: 43 notes, 5578 bytes; ask 0 9; cert [0, 1, 2]
1 in 0/7: 45 notes, 5805 bytes; ask 1 9; cert [0, 1, 2]
2 in 0/7: 45 notes, 5805 bytes; ask 2 9; cert [0, 1, 2]
3 in 0/7: 47 notes, 6213 bytes; ask 3 9; cert [0, 1, 2]
";

#[test]
fn nodes_come_back_from_a_run(rt: HostRuntime) -> Result<(), Fail> {
    let alloc = rt.alloc();
    let script = format!(in alloc; "{FRONT}{PLAIN}")?;
    assert_eq!(rt; nodes_after(&rt, alloc, script.as_bytes())?.as_str(), NODES);
    Ok(())
}

#[test]
fn nodes_come_back_from_lanes(rt: HostRuntime) -> Result<(), Fail> {
    let alloc = rt.alloc();
    let script = format!(in alloc; "{FRONT}{LANES}")?;
    assert_eq!(rt;
        nodes_after_lanes(&rt, alloc, script.as_bytes())?.as_str(),
        NODES
    );
    Ok(())
}

#[test]
fn nodes_come_back_from_a_storm(rt: HostRuntime) -> Result<(), Fail> {
    let alloc = rt.alloc();
    let script = storm_script(alloc, 5)?;
    assert_eq!(rt; nodes_after(&rt, alloc, &script)?.as_str(), STORM);
    Ok(())
}

type Member = Node<SumHasher, MemoryDisk, AcceptAll>;

// A line for each honest member behind a run.
fn nodes_after<R: Threads + Sync>(rt: &R, alloc: Global, script: &[u8]) -> Result<String, Fail> {
    match World::run::<SumHasher, _, _>(rt, alloc, script, &Sequential) {
        Ok(report) => lines(rt, alloc, report),
        Err(_) => Err("a report".into()),
    }
}

// The same behind lanes.
fn nodes_after_lanes<R: Threads + Wait + Sync>(
    rt: &R,
    alloc: Global,
    script: &[u8],
) -> Result<String, Fail> {
    match World::run_lanes::<SumHasher, _, _, _>(rt, alloc, script, &Sequential, &NoGate) {
        Ok((_, report)) => lines(rt, alloc, report),
        Err(_) => Err("a report".into()),
    }
}

fn lines<R: Threads + Sync>(
    rt: &R,
    alloc: Global,
    report: Report<SumHasher>,
) -> Result<String, Fail> {
    let mut report = report;
    let mut nodes = mem::replace(&mut report.nodes, Items::new(alloc)).into_vec();
    let acked = report.acked.as_slice();
    let text = lines_of(rt, alloc, acked, report.disks.as_slice(), &mut nodes);
    drop(nodes);
    drop(report);
    text
}

fn lines_of<R: Threads + Sync>(
    rt: &R,
    alloc: Global,
    acked: &[Acked],
    disks: &[Items<u8>],
    nodes: &mut [Option<Member>],
) -> Result<String, Fail> {
    if nodes.len() != acked.len() {
        return Err("a node for each honest member".into());
    }
    let mut text = String::new(alloc);
    for (place, node) in nodes.iter_mut().enumerate() {
        let (Some(acked), Some(disk)) = (acked.get(place), disks.get(place)) else {
            return Err("a disk for each honest member".into());
        };
        push_line(rt, alloc, &mut text, acked, disk.as_slice(), node)?;
    }
    Ok(text)
}

fn push_line<R: Threads + Sync>(
    rt: &R,
    alloc: Global,
    text: &mut String,
    acked: &Acked,
    disk: &[u8],
    node: &mut Option<Member>,
) -> Result<(), Fail> {
    let member = acked.member;
    if acked.live != node.is_some() {
        return Err("a node for each live member".into());
    }
    match node {
        Some(node) => {
            write!(text, "{member}")?;
            push_node(rt, alloc, text, disk, node)?;
        }
        None => write!(text, "{member} stopped, {} bytes", disk.len())?,
    }
    write!(text, "\n")?;
    Ok(())
}

// Its notes are also its marshal's, and its bytes also those of the report.
fn push_node<R: Threads + Sync>(
    rt: &R,
    alloc: Global,
    text: &mut String,
    disk: &[u8],
    node: &mut Member,
) -> Result<(), Fail> {
    if node.bytes() != disk || node.marshal().notes() != node.notes() {
        return Err("one disk and one list of notes".into());
    }
    let (epoch, view) = (node.epoch(), node.view());
    let (notes, bytes) = (node.notes().len(), disk.len());
    write!(text, " in {epoch}/{view}: {notes} notes, {bytes} bytes")?;
    push_answers(rt, alloc, text, node)
}

// What it answers to a height that it doesn't have, to votes to nullify its view, and to an
// acknowledgement.
fn push_answers<R: Threads + Sync>(
    rt: &R,
    alloc: Global,
    text: &mut String,
    node: &mut Member,
) -> Result<(), Fail> {
    let (epoch, view) = (node.epoch(), node.view());
    push_step(rt, alloc, text, node, Event::Hint(9))?;
    for signer in 0..6u16 {
        let vote = Vote::Nullify { epoch, view };
        let event = Event::Deliver(Message::Vote(signer, vote));
        push_step(rt, alloc, text, node, event)?;
    }
    push_step(rt, alloc, text, node, Event::Ack)
}

// By whom every vote is signed.
struct Everybody;

impl Verifier for Everybody {
    ghost signs = { λ _ _ _. true };

    fn signed(&self, _member: u16, _vote: &Vote) -> bool {
        true
    }
}

fn push_step<R: Threads + Sync>(
    rt: &R,
    alloc: Global,
    text: &mut String,
    node: &mut Member,
    event: Event,
) -> Result<(), Fail> {
    let answer = node.step(rt, alloc, &event, &Everybody, &Sequential);
    drop(event);
    let out = answer?;
    let pushed = push_out(text, &out);
    drop(out);
    pushed
}

// What is sent and handed out, each behind a semicolon.
fn push_out(text: &mut String, out: &StepOut) -> Result<(), Fail> {
    push_sent(text, out.sent.as_slice())?;
    push_handed(text, out.handed.as_slice())
}

fn push_sent(text: &mut String, sent: &[Out]) -> Result<(), Fail> {
    for out in sent {
        push_message(text, &out.message)?;
    }
    Ok(())
}

fn push_handed(text: &mut String, handed: &[Handed]) -> Result<(), Fail> {
    for block in handed {
        write!(text, "; hand {}", block.height)?;
    }
    Ok(())
}

fn push_message(text: &mut String, message: &Message) -> Result<(), Fail> {
    match message {
        Message::Shard(_, _) => write!(text, "; shard")?,
        Message::Vote(signer, _) => write!(text, "; vote {signer}")?,
        Message::Cert(cert) => write!(text, "; cert {:?}", cert.signers.as_slice())?,
        Message::Ask(member, _) => write!(text, "; ask {member}")?,
        Message::AskHeight(member, height) => write!(text, "; ask {member} {height}")?,
        Message::Block(_) => write!(text, "; block")?,
        Message::Junk(_) => write!(text, "; junk")?,
    }
    Ok(())
}
