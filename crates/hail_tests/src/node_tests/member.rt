//! A member alone, over a disk in memory, and what it answers, as text.

use super::blocks::Scene;
use super::calls::event_of;
use super::said::text_of;
use crate::disks::{Started, crashed, start};
use crate::tables::Call;
use cw_base::{Sequential, SumHasher};
use cw_types::{AcceptAll, Event, Note, StepOut};
use node::{Member as Node, NodeError, Way};
use node_disk::MemoryDisk;
use std::alloc::Global;
use std::marker::Model;
use std::mem;
use std::test::Fail;
use std::thread::Threads;

/// A member. What contracts see of it says nothing.
#[derive(Drop)]
pub(crate) struct Member<W: Way> {
    id: u16,
    node: Node<SumHasher, MemoryDisk, AcceptAll, W>,
    // What its start gave.
    opening: StepOut,
}

impl<W: Way> Model for Member<W> {
    ghost Value = { Unit {0} };

    ghost view = { λ _. tt };
}

// What a start of a member gives.
fn started<W: Way, R: Threads + Sync>(
    rt: &R,
    alloc: Global,
    scene: &Scene<W>,
    id: u16,
    disk: MemoryDisk,
) -> Result<Started<SumHasher, W>, Fail> {
    match start(rt, alloc, id, scene.committees(alloc)?, disk)? {
        Ok(started) => Ok(started),
        Err((_, error)) => Err(Fail::from(error)),
    }
}

impl<W: Way> Member<W> {
    /// Started on a new disk.
    pub(crate) fn new<R: Threads + Sync>(
        rt: &R,
        alloc: Global,
        scene: &Scene<W>,
        id: u16,
    ) -> Result<Member<W>, Fail> {
        let disk = MemoryDisk::new(alloc, Vec::new(alloc));
        let (node, opening) = started(rt, alloc, scene, id, disk)?;
        Ok(Member { id, node, opening })
    }

    // Starts it again on what a crash leaves of its disk. Another stands in its place meanwhile.
    fn restart<R: Threads + Sync>(
        &mut self,
        rt: &R,
        alloc: Global,
        scene: &Scene<W>,
    ) -> Result<(), Fail> {
        let other = Member::new(rt, alloc, scene, self.id)?;
        let before = mem::replace(self, other);
        let after = reopened(rt, alloc, scene, before)?;
        drop(mem::replace(self, after));
        Ok(())
    }

    /// How many notes it has.
    pub(crate) fn notes(&self) -> usize {
        self.node.notes().len()
    }

    /// Its notes.
    pub(crate) fn all_notes(&self) -> &[Note] {
        self.node.notes()
    }

    /// What it answers to an event.
    pub(crate) fn take<R: Threads + Sync>(
        &mut self,
        rt: &R,
        alloc: Global,
        scene: &Scene<W>,
        event: &Event,
    ) -> Result<StepOut, NodeError> {
        self.node
            .step(rt, alloc, event, scene.signed(), &Sequential)
    }

    // What it says to an event.
    fn said<R: Threads + Sync>(
        &mut self,
        rt: &R,
        alloc: Global,
        scene: &Scene<W>,
        call: Call,
    ) -> Result<String, Fail> {
        let event = event_of(alloc, scene, call)?;
        let answer = self.take(rt, alloc, scene, &event);
        drop(event);
        said_of(alloc, scene, answer)
    }

    // What its start gives on what a crash leaves of its disk.
    fn said_again<R: Threads + Sync>(
        &mut self,
        rt: &R,
        alloc: Global,
        scene: &Scene<W>,
    ) -> Result<String, Fail> {
        self.restart(rt, alloc, scene)?;
        text_of(alloc, scene, &self.opening)
    }

    /// What it answers to a call.
    pub(crate) fn answer<R: Threads + Sync>(
        &mut self,
        rt: &R,
        alloc: Global,
        scene: &Scene<W>,
        call: Call,
    ) -> Result<String, Fail> {
        let (first, cut, fill) = call.numbers;
        match call.name {
            // Its disk is to stop at a device call from now, behind so many bytes, and fills the
            // rest.
            "stop_at" => {
                self.node.stop_at(first, cut, (fill % 256) as u8);
                Ok(String::new(alloc))
            }
            // It is started on its disk again: what the start gives.
            "restart" => self.said_again(rt, alloc, scene),
            // How many notes it has.
            "notes" => Ok(format!(in alloc; "{}", self.notes())?),
            // The bytes that a read of its disk gives.
            "disk" => Ok(format!(in alloc; "{:?}", self.node.bytes())?),
            _ => self.said(rt, alloc, scene, call),
        }
    }
}

// A member on what a crash leaves of another one's disk.
fn reopened<W: Way, R: Threads + Sync>(
    rt: &R,
    alloc: Global,
    scene: &Scene<W>,
    before: Member<W>,
) -> Result<Member<W>, Fail> {
    let Member { id, node, opening } = before;
    drop(opening);
    let disk = crashed(node.into_disk())?;
    let (node, opening) = started(rt, alloc, scene, id, disk)?;
    Ok(Member { id, node, opening })
}

fn said_of<W: Way>(
    alloc: Global,
    scene: &Scene<W>,
    answer: Result<StepOut, NodeError>,
) -> Result<String, Fail> {
    match answer {
        Ok(out) => {
            let text = text_of(alloc, scene, &out);
            drop(out);
            text
        }
        Err(error) => Ok(format!(in alloc; "{error:?}")?),
    }
}
