//! What happens at a member, and what its step gives.

ghost use Rattle.std.specs.Prelude.{◌≡◌, IfOk};

use crate::commitment::Commitment;
use crate::message::Message;
use crate::payload::Payload;
use crate::vote::Cert;
use cw_base::{Digest32, Items, NoMemory};
use std::alloc::Global;

/// What happens at a member.
#[derive(Debug, Drop, PartialEq, Eq)]
pub enum Event {
    /// It is asked for a block with this payload.
    Propose(Payload),
    /// The view is over.
    Timeout(u64),
    /// A message reaches it.
    Deliver(Message),
    /// The least height that is pending is acknowledged: it was handed out, and lies above the last
    /// acknowledged one and not below the floor.
    Ack,
    /// Blocks below the height are to be hidden: no question finds them any more.
    Prune(u64),
    /// What a finalization finalizes becomes the floor once its block is held.
    Floor(Cert),
    /// The finalized block of the height is asked for, where it isn't there.
    Hint(u64),
    /// A ticket is asked for, which waits for a block of this digest.
    WatchDigest(Digest32),
    /// A ticket is asked for, which waits for the block under this commitment.
    WatchCommitment(Commitment),
    /// The ticket of this number waits no more.
    Cancel(u64),
}

impl Event {
    /// An equal event.
    pub fn copy(&self, alloc: Global) -> Result<Event, NoMemory>
        ensures { IfOk result (λ copy. copy ≡ self.now) }
    {
        match self {
            Event::Propose(payload) => Ok(Event::Propose(payload.copy(alloc)?)),
            Event::Timeout(view) => Ok(Event::Timeout(*view)),
            Event::Deliver(message) => Ok(Event::Deliver(message.copy(alloc)?)),
            Event::Ack => Ok(Event::Ack),
            Event::Prune(height) => Ok(Event::Prune(*height)),
            Event::Floor(cert) => Ok(Event::Floor(cert.copy(alloc)?)),
            Event::Hint(height) => Ok(Event::Hint(*height)),
            Event::WatchDigest(digest) => Ok(Event::WatchDigest(*digest)),
            Event::WatchCommitment(commitment) => Ok(Event::WatchCommitment(*commitment)),
            Event::Cancel(number) => Ok(Event::Cancel(*number)),
        }
    }
}

/// Whom a message goes to.
#[derive(Clone, Copy, Debug, PartialEq, Eq)]
pub enum To {
    /// Every member, its sender too.
    All,
    /// The member of this number.
    One(u16),
}

/// A message to send.
#[derive(Debug, Drop, PartialEq, Eq)]
pub struct Out {
    /// Whom it goes to.
    pub to: To,
    /// What is sent.
    pub message: Message,
}

/// A finalized block that is handed out: its height, and what names it. The member holds the block
/// itself under that commitment.
#[derive(Clone, Copy, Debug, PartialEq, Eq)]
pub struct Handed {
    /// The height of the block.
    pub height: u64,
    /// The commitment that the block is held under.
    pub commitment: Commitment,
    /// The digest of the block's bytes.
    pub digest: Digest32,
}

/// A ticket: given now where it has no commitment, else the block that it waited for is held.
#[derive(Clone, Copy, Debug, PartialEq, Eq)]
pub struct TicketOut {
    /// The number of the ticket, by which it can be cancelled.
    pub number: u64,
    /// The commitment of the block that it waited for; none where the ticket is given now.
    pub commitment: Option<Commitment>,
}

/// What a step gives: the messages to send, the blocks handed out, and tickets, each in order.
#[derive(Debug, Drop, PartialEq, Eq)]
pub struct StepOut {
    /// The messages to send.
    pub sent: Items<Out>,
    /// The blocks handed out.
    pub handed: Items<Handed>,
    /// The tickets that are given, and those whose block is held.
    pub tickets: Items<TicketOut>,
}

impl StepOut {
    /// An equal answer.
    pub fn copy(&self, alloc: Global) -> Result<StepOut, NoMemory>
        ensures { IfOk result (λ copy. copy ≡ self.now) }
    {
        let sent = copy_outs(alloc, self.sent.as_slice())?;
        let handed = Vec::from_slice(alloc, self.handed.as_slice())?;
        let tickets = Vec::from_slice(alloc, self.tickets.as_slice())?;
        Ok(StepOut {
            sent,
            handed: Items::from_vec(handed),
            tickets: Items::from_vec(tickets),
        })
    }
}

// Equal messages to send.
fn copy_outs(alloc: Global, outs: &[Out]) -> Result<Items<Out>, NoMemory>
    ensures { IfOk result (λ copy. copy ≡ outs.now) }
{
    let mut copies = Items::new(alloc);
    for out in outs {
        let message = out.message.copy(alloc)?;
        copies.push(Out {
            to: out.to,
            message,
        })?;
    }
    Ok(copies)
}
