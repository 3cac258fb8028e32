//! What is reported of a run.

ghost use Rattle.std.specs.Prelude.{◌≡◌, IfOk};

use cw_base::{Items, NoMemory};
use cw_types::{Handed, Message, To};
use std::alloc::Global;
use std::marker::Model;

/// A message that was sent. Messages are numbered from 0 as they are sent.
#[derive(Debug, Drop, PartialEq, Eq)]
pub struct Sent {
    /// Its number, from 0, in the order of sending.
    pub number: u64,
    /// The member that sent it.
    pub from: u16,
    /// Whom it goes to.
    pub to: To,
    /// What was sent.
    pub message: Message,
}

impl Model for Sent {
    ghost use Rattle.cw_rules.specs.World.{Sent};

    ghost Value = { Sent };

    ghost view = { λ s. record {
      number = s.number;
      from = s.from;
      to = s.to;
      message = s.message;
    } };

    ghost inverse = { λ s. record {
      number = s.number;
      from = s.from;
      to = s.to;
      message = s.message;
    } };
}

impl Sent {
    /// An equal value.
    pub fn copy(&self, alloc: Global) -> Result<Sent, NoMemory>
        ensures { IfOk result (λ copy. copy ≡ self.now) }
    {
        Ok(Sent {
            number: self.number,
            from: self.from,
            to: self.to,
            message: self.message.copy(alloc)?,
        })
    }
}

/// What a start or a line of the script gave. The line is 0 in the opening, and the header is line
/// 1.
#[derive(Debug, Drop, PartialEq, Eq)]
pub struct Entry {
    /// The number of the line in the text; 0 in the opening.
    pub line: u64,
    /// The member that the opening or the line names; none for a faulty line.
    pub member: Option<u16>,
    /// How many notes a restart found.
    pub found: Option<u64>,
    /// The messages that were sent, in order.
    pub sent: Items<Sent>,
    /// The blocks that were handed out, in order.
    pub handed: Items<Handed>,
}

impl Model for Entry {
    ghost use Rattle.cw_rules.specs.Report.{Entry};

    ghost Value = { Entry };

    ghost view = { λ e. record {
      line = e.line;
      member = e.member;
      found = e.found;
      sent = e.sent;
      handed = e.handed;
    } };

    ghost inverse = { λ e. record {
      line = e.line;
      member = e.member;
      found = e.found;
      sent = e.sent;
      handed = e.handed;
    } };
}

/// Where an honest member stands at the end of a run.
#[derive(Clone, Copy, Debug, PartialEq, Eq)]
pub struct Acked {
    /// The number of the member.
    pub member: u16,
    /// Whether it runs.
    pub live: bool,
    /// The last acknowledged height.
    pub height: Option<u64>,
    /// How many notes it has.
    pub notes: u64,
}

impl Model for Acked {
    ghost use Rattle.cw_rules.specs.Report.{Acked};

    ghost Value = { Acked };

    ghost view = { λ a. record {
      member = a.member;
      live = a.live;
      height = a.height;
      notes = a.notes;
    } };

    ghost inverse = { λ a. record {
      member = a.member;
      live = a.live;
      height = a.height;
      notes = a.notes;
    } };
}
