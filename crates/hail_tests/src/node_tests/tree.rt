//! Rows under a tree that are no codeword, as a node takes them.

ghost use Rattle.std.specs.Prelude.{◌≡◌, ◌<◌, IfOk, length};

use crate::disks::{Nobody, start};
use bytes::Bytes;
use cw_base::{Config, Digest32, Hasher, Items, Sequential, Sha256};
use cw_coding::Chunk;
use cw_tree::bmt::{Builder, Tree};
use cw_types::{AcceptAll, Commitment, Committees, Event, Message};
use node::Node;
use node_disk::MemoryDisk;
use std::alloc::Global;
use std::marker::Model;
use std::num::NonZeroU16;
use std::test::Fail;
use std::thread::Threads;

const ROWS: [[u8; 4]; 4] = [[0, 0, 0, 1], [1, 0, 0, 0], [2, 0, 0, 4], [3, 0, 0, 2]];

// The tree over the digests of the rows.
fn tree(alloc: Global) -> Result<Tree<Sha256>, Fail>
    ensures { IfOk result (λ tree. length tree ≡ 4) }
{
    let mut digests = Items::new(alloc);
    digests.push(Sha256::hash(&ROWS[0]))?;
    digests.push(Sha256::hash(&ROWS[1]))?;
    digests.push(Sha256::hash(&ROWS[2]))?;
    digests.push(Sha256::hash(&ROWS[3]))?;
    Ok(Builder::<Sha256>::of(digests).build(alloc)?)
}

// The row of that place, with its way up.
fn row(alloc: Global, tree: &Tree<Sha256>, at: u16) -> Result<Chunk<Digest32>, Fail>
    requires four { length tree.now ≡ 4 }
    requires within { at < 4 }
{
    let shard = Bytes::copy_from_slice(alloc, &ROWS[usize::from(at)])?;
    Ok(Chunk::new(shard, at, tree.proof(alloc, u32::from(at))?))
}

// What names a block that has the tree's root, and is cut in two and two.
fn under(root: Digest32) -> Commitment {
    let two = NonZeroU16::MIN.saturating_add(1);
    Commitment {
        block: Digest32([7; 32]),
        root,
        context: Digest32([8; 32]),
        config: Config {
            minimum_shards: two,
            extra_shards: two,
        },
    }
}

// The row of that place comes.
fn coming(alloc: Global, tree: &Tree<Sha256>, at: u16) -> Result<Event, Fail>
    requires { length tree.now ≡ 4 }
{
    if at >= 4 {
        return Err("a row of the four".into());
    }
    let chunk = row(alloc, tree, at)?;
    Ok(Event::Deliver(Message::Shard(under(tree.root()), chunk)))
}

// The rows of these places come, one after another.
fn all_coming(alloc: Global, rows: &[u16]) -> Result<Vec<Event>, Fail> {
    let tree = tree(alloc)?;
    let mut events = Vec::new(alloc);
    for at in rows {
        events.push(coming(alloc, &tree, *at)?)?;
    }
    Ok(events)
}

/// Member 0 of four. What contracts see of it says nothing.
#[derive(Drop)]
struct First {
    node: Node<Sha256, MemoryDisk, AcceptAll>,
}

impl Model for First {
    ghost Value = { Unit {0} };

    ghost view = { λ _. tt };
}

impl First {
    // Started on a new disk.
    fn new<R: Threads + Sync>(rt: &R, alloc: Global) -> Result<First, Fail> {
        let disk = MemoryDisk::new(alloc, Vec::new(alloc));
        match start(rt, alloc, 0, Committees::single(alloc, 4)?, disk)? {
            Ok((node, _)) => Ok(First { node }),
            Err((_, error)) => Err(Fail::from(error)),
        }
    }

    // How many messages it sends at an event.
    fn count_sent<R: Threads + Sync>(
        &mut self,
        rt: &R,
        alloc: Global,
        event: &Event,
    ) -> Result<usize, Fail> {
        let out = self.node.step(rt, alloc, event, &Nobody, &Sequential)?;
        Ok(out.sent.len())
    }

    fn notes(&self) -> usize {
        self.node.notes().len()
    }
}

// How many messages it sends at each of these events, and how many notes it has at the end.
fn all_sent<R: Threads + Sync>(
    rt: &R,
    alloc: Global,
    member: &mut First,
    events: &[Event],
) -> Result<String, Fail> {
    let mut sent = String::new(alloc);
    for event in events {
        write!(sent, "{}", member.count_sent(rt, alloc, event)?)?;
    }
    write!(sent, ", {} notes", member.notes())?;
    Ok(sent)
}

/// How many messages member 0 of four sends as each of these rows comes, and how many notes it has
/// at the end.
pub(crate) fn sent_for_rows<R: Threads + Sync>(
    rt: &R,
    alloc: Global,
    rows: &[u16],
) -> Result<String, Fail> {
    let events = all_coming(alloc, rows)?;
    let sent = sent_by_new(rt, alloc, &events);
    drop(events);
    sent
}

fn sent_by_new<R: Threads + Sync>(rt: &R, alloc: Global, events: &[Event]) -> Result<String, Fail> {
    let mut member = First::new(rt, alloc)?;
    let sent = all_sent(rt, alloc, &mut member, events);
    drop(member);
    sent
}
