//! Four members in one process: a block is proposed, voted on, finalized and handed out at each.
//! Then one crashes and starts again from its disk, and a second block follows.
#![tactic(auto)]

use anyhow::{Context, Result, ensure};
use cw_base::{Sequential, Sha256};
use cw_types::{AcceptAll, Committees, Event, Payload, StepOut, To, Verifier, Vote};
use marshal::Identifier;
use node::Node;
use node_disk::MemoryDisk;
use std::collections::BTreeMap;

/// The verifier: in one process nobody forges, so whoever is said to have signed a vote has.
struct Everybody;

impl Verifier for Everybody {
    ghost use Rattle.std.specs.Prelude.{true};

    ghost signs = { λ _ _ _. true };

    fn signed(&self, _member: u16, _vote: &Vote) -> bool {
        true
    }
}

/// The members by number, each on a disk in memory, and what is to happen at whom, in order.
#[derive(Drop)]
struct Cluster<'a, R> {
    rt: &'a R,
    alloc: std::alloc::Global,
    members: BTreeMap<u16, Node<Sha256, MemoryDisk, AcceptAll>>,
    due: Vec<(u16, Event)>,
}

impl<R: Print + std::thread::Threads + Sync> Cluster<'_, R> {
    // Starts a member on its disk: an empty one, or what a crash left.
    fn start(&mut self, id: u16, disk: MemoryDisk) -> Result<()> {
        ensure!(id < 4, "no member {id}");
        let (rt, all) = (self.rt, Committees::single(self.alloc, 4)?);
        let started = Node::start(rt, self.alloc, id, all, 3, disk, AcceptAll, &Sequential);
        let (member, out) = started.map_err(|(_disk, error)| error)?;
        drop(self.members.insert(id, member)?);
        self.take(id, &out)
    }

    // Proposes a text at a member, which leads its view, and gives each what is due at it: so many
    // messages and acknowledgements as one block among four takes, and no more than a thousand.
    fn propose(&mut self, id: u16, text: &str) -> Result<()> {
        let bytes = Vec::from_slice(self.alloc, text.as_bytes())?;
        let payload = Payload::new(bytes).ok().context("too long a text")?;
        self.due.push((id, Event::Propose(payload)))?;
        for place in 0..1_000 {
            if let Some(&(id, ref event)) = self.due.get(place) {
                let member = self.members.get_mut(&id).context("no member")?;
                let out = member.step(self.rt, self.alloc, event, &Everybody, &Sequential)?;
                self.take(id, &out)?;
            }
        }
        self.due.clear();
        Ok(())
    }

    // The member answered, so its notes lie on its disk: what it sends may leave it, and what it
    // hands out is its user's, who acknowledges what is kept for good.
    fn take(&mut self, id: u16, out: &StepOut) -> Result<()> {
        for sent in out.sent.as_slice() {
            for to in (0..4).filter(|to| sent.to == To::All || sent.to == To::One(*to)) {
                let message = sent.message.copy(self.alloc)?;
                self.due.push((to, Event::Deliver(message)))?;
            }
        }
        for handed in out.handed.as_slice() {
            let store = self.members.get(&id).context("no member")?.marshal();
            let block = store.get_block(Identifier::Commitment(handed.commitment));
            let text = str::from_utf8(block.context("no block")?.payload().bytes())?;
            println!(self.rt; "member {id}: height {} is {text:?}", handed.height)?;
            self.due.push((id, Event::Ack))?;
        }
        Ok(())
    }
}

fn main(rt: HostRuntime) -> Result<()> {
    let mut cluster = Cluster {
        rt: &rt,
        alloc: rt.alloc(),
        members: BTreeMap::new(rt.alloc()),
        due: Vec::new(rt.alloc()),
    };
    for id in 0..4 {
        cluster.start(id, MemoryDisk::new(rt.alloc(), Vec::new(rt.alloc())))?;
    }
    // Among four, member v leads view v, for the first three views.
    cluster.propose(1, "one")?;
    println!(rt; "member 2 crashes, and starts again on its disk")?;
    let crashed = cluster.members.remove(&2).context("no member")?;
    cluster.start(2, crashed.into_disk().reopen())?;
    cluster.propose(2, "and two")
}
