//! The event lines of a script that is run.

ghost use Rattle.std.specs.Prelude.{◌≡◌};
ghost use Rattle.cw_rules.specs.World.{line_member};
ghost use Rattle.hail_script.specs.Events.{ask_of, fault_of, line_of};

use crate::stop::Stop;
use cw_base::Items;
use cw_types::Payload;
use std::marker::Model;

/// What a line asks of a member. Contracts see what the rules call by that name.
#[derive(Debug, Drop)]
pub struct Ask {
    kind: AskKind,
}

/// The kinds of what is asked of a member. A message is named by its number: messages are counted
/// from 0 as they are sent.
#[derive(Debug, Drop)]
pub enum AskKind {
    /// Propose a block with this payload.
    Propose(Payload),
    /// The view is over.
    Timeout(u64),
    /// Take the message with this number.
    Deliver(u64),
    /// Acknowledge the least height that is pending.
    Ack,
    /// Let blocks below the height go.
    Prune(u64),
    /// Make what the finalization with this number finalizes the floor.
    Floor(u64),
    /// Ask for the finalized block of the height.
    Hint(u64),
}

impl Model for Ask {
    ghost use Rattle.cw_rules.specs.World.{Ask};

    ghost Value = { Ask };

    ghost use Rattle.hail_script.specs.Events.{ask_of};

    ghost view = { λ a. ask_of a.kind };
}

impl Ask {
    /// What is asked. Takes no memory.
    pub fn new(kind: AskKind) -> Ask
        ensures { result ≡ ask_of kind }
    {
        Ask { kind }
    }

    /// Its kind, with its parts.
    pub fn kind(&self) -> &AskKind
        ensures { ask_of result.now ≡ self.now }
    {
        &self.kind
    }
}

/// What a faulty member sends. Contracts see what the rules call by that name.
#[derive(Debug, Drop)]
pub struct Fault {
    kind: FaultKind,
}

/// The kinds of what a faulty member sends.
#[derive(Debug, Drop)]
pub enum FaultKind {
    /// Nothing.
    Silent,
    /// A block of this view with this payload, over the first one, and its own vote on it.
    Offer(u64, Payload),
    /// Its vote to notarize what the vote with this number is on.
    Notarize(u64),
    /// Its vote to finalize that.
    Finalize(u64),
    /// Its vote to nullify the view.
    Nullify(u64),
    /// The message that these bytes read as.
    Raw(Items<u8>),
}

impl Model for Fault {
    ghost use Rattle.cw_rules.specs.World.{Fault};

    ghost Value = { Fault };

    ghost use Rattle.hail_script.specs.Events.{fault_of};

    ghost view = { λ f. fault_of f.kind };
}

impl Fault {
    /// What is sent. Takes no memory.
    pub fn new(kind: FaultKind) -> Fault
        ensures { result ≡ fault_of kind }
    {
        Fault { kind }
    }

    /// Its kind, with its parts.
    pub fn kind(&self) -> &FaultKind
        ensures { fault_of result.now ≡ self.now }
    {
        &self.kind
    }
}

/// An event line. Contracts see the rules' own line: by the types of its parts a payload has at
/// most 1,048,576 bytes, a member a number below 2^16, and a stop a device call.
#[derive(Debug, Drop)]
pub struct EventLine {
    kind: LineKind,
}

/// The kinds of event lines.
#[derive(Debug, Drop)]
pub enum LineKind {
    /// The member is asked for something.
    Do(u16, Ask),
    /// The same, with a stop.
    Cut(Stop, u16, Ask),
    /// The stopped member starts on its disk.
    Restart(u16),
    /// The faulty member sends something.
    Faulty(u16, Fault),
}

impl Model for EventLine {
    ghost use Rattle.cw_rules.specs.World.{Line};

    ghost Value = { Line };

    ghost use Rattle.hail_script.specs.Events.{line_of};

    ghost view = { λ l. line_of l.kind };
}

impl EventLine {
    /// A line. Takes no memory.
    pub fn new(kind: LineKind) -> EventLine
        ensures { result ≡ line_of kind }
    {
        EventLine { kind }
    }

    /// Its kind, with its parts.
    pub fn kind(&self) -> &LineKind
        ensures { line_of result.now ≡ self.now }
    {
        &self.kind
    }

    /// The member that it names.
    pub fn member(&self) -> u16
        ensures { result ≡ line_member self.now }
    {
        match &self.kind {
            LineKind::Do(member, _) => *member,
            LineKind::Cut(_, member, _) => *member,
            LineKind::Restart(member) => *member,
            LineKind::Faulty(member, _) => *member,
        }
    }
}
