//! What each line of a run did.

ghost use Rattle.std.specs.Prelude.{map};

use crate::told::Said;
use cw_base::Items;
use hail_script::EventLine;
use std::marker::Model;

/// A line of the script under its number, how many notes a restart found, what was sent, and the
/// heights that were handed out. Messages are numbered from 0 as they are sent.
#[derive(Debug, Drop)]
pub struct Step<'a> {
    /// The number of the line in the script.
    pub number: u64,
    /// The line.
    pub line: &'a EventLine,
    /// How many notes a start found.
    pub found: Option<u64>,
    /// What the line sent, in order.
    pub sent: Items<Said>,
    /// The heights that it handed out, in order.
    pub handed: Items<u64>,
}

impl<'a> Model for Step<'a> {
    ghost use Rattle.run_picture.specs.Steps.{Step};

    ghost Value = { Step };

    ghost view = { λ s. record {
      number = s.number;
      line = s.line.now;
      found = s.found;
      sent = s.sent;
      handed = s.handed;
    } };
}
