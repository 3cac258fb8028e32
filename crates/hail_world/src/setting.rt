//! What a line is played over.

ghost use Rattle.std.specs.Prelude.{◌≡◌, ◌<◌};
ghost use Rattle.cw_rules.specs.World.{line_member};
ghost use Rattle.hail_world.specs.Places.{table};
ghost use Rattle.hail_report.specs.Pool.{sent_in};

use crate::event::is_faulty;
use cw_types::{Verifier, Vote};
use hail_report::Pool;
use hail_script::{EventLine, Script};

/// What a line is played over: its script, whom that makes faulty, what was sent before, and the
/// line under its number, which names a member of the cluster.
///
/// It is the table of votes: a faulty member signed all, an honest one those that it sent.
#[derive(Clone, Copy)]
pub(crate) struct Setting<'a> {
    pub(crate) script: &'a Script,
    pub(crate) faulty: &'a [bool],
    pub(crate) pool: &'a Pool,
    pub(crate) number: u64,
    pub(crate) line: &'a EventLine,
    ghost known: { line_member line.now < script.now.committees.total },
}

impl Verifier for Setting<'_> {
    ghost signs = { λ setting member vote. table setting.faulty.now
        (sent_in setting.pool.now) member vote };

    fn signed(&self, member: u16, vote: &Vote) -> bool {
        is_faulty(self.faulty, member) || self.pool.has_vote(member, vote)
    }
}
