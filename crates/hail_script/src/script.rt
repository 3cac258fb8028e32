//! A script that is run.

ghost use Rattle.std.specs.Prelude.{◌≡◌, ◌≤◌, ◌<◌, ◌^◌, ◌⊎◌, ◌∷◌, [], Some, None, IfOk, IfErr};
ghost use Rattle.std.specs.Prelude.{IsTrue, drop, length, map};
ghost use Rattle.std.specs.List.{list_all};
ghost use Rattle.cw_types.specs.Epochs.{is_committee, rises_from};
ghost use Rattle.cw_rules.specs.Reached.{IsCluster};
ghost use Rattle.cw_rules.specs.Rules.{Rules};
ghost use Rattle.hail_script.specs.Grammar as grammar;
ghost use Rattle.hail_script.specs.Raw.{raw_line_of};
ghost use Rattle.hail_script.specs.declared.error.RunError.TheVariants as error;
ghost use Rattle.hail_script.specs.declared.headers.Header.TheVariants as header;

use crate::error::RunError;
use crate::event::EventLine;
use crate::headers::{Header, header_by, lists_of};
use crate::parse::{
    are_sized, bears_all, events_of, first_oversize, first_strange, first_unknown, marks_of,
    narrow_all,
};
use crate::pieces::{pieces_of, without_empty_end};
use crate::raw::{RawLine, admitted_lines};
use cw_base::{Items, NoMemory};
use cw_rules::Travel;
use cw_types::Committees;
use cw_types::laws::committees_are_sound;
use std::alloc::Global;
use std::marker::Model;

/// A script that is run: how the blocks of a cluster travel, its committees with its backlog, and
/// event lines.
#[derive(Debug, Drop)]
pub struct Script {
    travel: Travel,
    committees: Committees,
    backlog: u64,
    // the number of the first event line
    first: u64,
    events: Items<EventLine>,
    // of each member, whether some line makes it faulty
    faulty: Vec<bool>,
}

impl Model for Script {
    ghost use Rattle.std.specs.Prelude.{◌≡◌, ◌≤◌};
    ghost use Rattle.hail_script.specs.Scenario.{Scenario};
    ghost use Rattle.hail_script.specs.Grammar.{IsRunnable, faulty_marks, first_event};

    ghost Value = { Scenario };

    ghost view = { λ s. record {
      travel = s.travel;
      committees = s.committees;
      backlog = s.backlog;
      lines = s.events;
    } };

    ghost invariant = { λ s. (1 ≤ s.backlog) × (s.first ≡ first_event s.committees) × (s.first ≤ 66)
        × IsRunnable
        (record {
          travel = s.travel;
          committees = s.committees;
          backlog = s.backlog;
          lines = s.events;
        })
        × (s.faulty.items ≡ faulty_marks s.events s.committees.total) };
}

// The committees with these members.
fn committees_of(
    alloc: Global,
    members: u64,
    span: u64,
    lists: &[Items<u64>],
) -> Result<Committees, NoMemory>
    requires small { members < 2 ^ 16 }
    requires span { 1 ≤ span }
    requires some { 1 ≤ length lists.now }
    requires few { length lists.now ≤ 64 }
    requires committees { IsTrue (list_all (is_committee members) lists.now) }
    ensures { IfOk result
        (λ committees. committees
        ≡ record { total = members; span = Some span; lists = lists.now }) }
{
    let narrowed = narrow_all(alloc, members as u16, lists)?;
    Committees::new(alloc, members as u16, span, &narrowed)
}

// The lines behind the first ones.
fn behind<'a, 'b>(lines: &'b [&'a [u8]], count: usize) -> &'b [&'a [u8]]
    requires { count ≤ length lines.now }
    ensures { map (λ line. line.now) result.now ≡ drop count (map (λ line. line.now) lines.now) }
{
    &lines[count..]
}

impl Script {
    /// The script that a text spells, of blocks that travel in chunks, or the first cause for which
    /// it isn't run.
    pub fn parse(alloc: Global, script: &[u8]) -> Result<Script, RunError>
        ensures ok { IfOk result (λ read. grammar.script_of script.now ≡ Ok read) }
        ensures err { IfErr result (λ e. (e ≡ error.NoMemory)
            ⊎ (grammar.script_of script.now ≡ Err e)) }
    {
        Script::parse_by(alloc, Travel::Chunked, script)
    }

    /// The same, of blocks that travel whole: its header is one epoch's.
    pub fn parse_whole(alloc: Global, script: &[u8]) -> Result<Script, RunError>
        ensures ok { IfOk result (λ read. grammar.whole_script_of script.now ≡ Ok read) }
        ensures err { IfErr result (λ e. (e ≡ error.NoMemory)
            ⊎ (grammar.whole_script_of script.now ≡ Err e)) }
    {
        Script::parse_by(alloc, Travel::Uncut, script)
    }

    /// The script that a text spells, of blocks that travel so, or the first cause for which it
    /// isn't run.
    pub fn parse_by(alloc: Global, travel: Travel, script: &[u8]) -> Result<Script, RunError>
        ensures ok { IfOk result (λ read. grammar.script_by travel script.now ≡ Ok read) }
        ensures err { IfErr result (λ e. (e ≡ error.NoMemory)
            ⊎ (grammar.script_by travel script.now ≡ Err e)) }
        ensures way { IfOk result (λ read. read.travel ≡ travel) }
    {
        let pieces = pieces_of(alloc, script, b'\n')?;
        match Script::read(alloc, travel, without_empty_end(&pieces)) {
            Ok(script) => Ok(script),
            Err(error) => Err(error),
        }
    }

    /// The script that lines make, of blocks that travel so, or the first cause for which it isn't
    /// run.
    pub(crate) fn read(alloc: Global, travel: Travel, lines: &[&[u8]]) -> Result<Script, RunError>
        ensures ok { IfOk result
            (λ read. grammar.if_admitted
            (grammar.spelled_in travel (map (λ line. line.now) lines.now)) ≡ Ok read) }
        ensures err { IfErr result (λ e. (e ≡ error.NoMemory)
            ⊎ (grammar.if_admitted
            (grammar.spelled_in travel (map (λ line. line.now) lines.now)) ≡ Err e)) }
        ensures way { IfOk result (λ read. read.travel ≡ travel) }
    {
        let Some((first, more)) = lines.split_first() else {
            return Err(RunError::Syntax(1));
        };
        let Some(header) = header_by(alloc, travel, first)? else {
            return Err(RunError::Syntax(1));
        };
        match header {
            Header::Cluster(members, backlog) => {
                Script::cluster(alloc, travel, members, backlog, more)
            }
            Header::Several(members, backlog, span, count) => {
                Script::several(alloc, travel, members, backlog, span, count, more)
            }
        }
    }

    // One epoch without end, and the events of the lines behind line 1.
    fn cluster(
        alloc: Global,
        travel: Travel,
        members: u64,
        backlog: u64,
        lines: &[&[u8]],
    ) -> Result<Script, RunError>
        requires { 1 ≤ backlog }
        ensures ok { IfOk result
            (λ read. grammar.if_admitted
            (grammar.behind_header travel (Some (header.Cluster members backlog))
            (map (λ line. line.now) lines.now)) ≡ Ok read) }
        ensures err { IfErr result (λ e. (e ≡ error.NoMemory)
            ⊎ (grammar.if_admitted
            (grammar.behind_header travel (Some (header.Cluster members backlog))
            (map (λ line. line.now) lines.now)) ≡ Err e)) }
        ensures way { IfOk result (λ read. read.travel ≡ travel) }
    {
        let events = match events_of(alloc, 2, lines) {
            Ok(events) => events,
            Err(error) => return Err(error),
        };
        if members < 4 || members > 65535 {
            return Err(RunError::BadCommittee);
        }
        let committees = Committees::single(alloc, members as u16)?;
        Script::admit(alloc, travel, committees, backlog, 2, events)
    }

    // Epochs with their lists behind line 1, and the events of the lines behind these.
    fn several(
        alloc: Global,
        travel: Travel,
        members: u64,
        backlog: u64,
        span: u64,
        count: u64,
        lines: &[&[u8]],
    ) -> Result<Script, RunError>
        requires backlog { 1 ≤ backlog }
        requires span { 1 ≤ span }
        requires some { 1 ≤ count }
        requires few { count ≤ 64 }
        ensures ok { IfOk result
            (λ read. grammar.if_admitted
            (grammar.behind_header travel (Some (header.Several members backlog span count))
            (map (λ line. line.now) lines.now)) ≡ Ok read) }
        ensures err { IfErr result (λ e. (e ≡ error.NoMemory)
            ⊎ (grammar.if_admitted
            (grammar.behind_header travel (Some (header.Several members backlog span count))
            (map (λ line. line.now) lines.now)) ≡ Err e)) }
        ensures way { IfOk result (λ read. read.travel ≡ travel) }
    {
        let lists = match lists_of(alloc, count as usize, lines) {
            Ok(lists) => lists,
            Err(error) => return Err(error),
        };
        let events = match events_of(alloc, count + 2, behind(lines, count as usize)) {
            Ok(events) => events,
            Err(error) => return Err(error),
        };
        Script::admit_epochs(alloc, travel, members, backlog, span, lists, events)
    }

    // Epochs with these lists of members and these events, where they are run.
    fn admit_epochs(
        alloc: Global,
        travel: Travel,
        members: u64,
        backlog: u64,
        span: u64,
        lists: Items<Items<u64>>,
        events: Items<RawLine>,
    ) -> Result<Script, RunError>
        requires backlog { 1 ≤ backlog }
        requires span { 1 ≤ span }
        requires some { 1 ≤ length lists }
        requires few { length lists ≤ 64 }
        requires rise { IsTrue (list_all (rises_from 0) lists) }
        ensures ok { IfOk result
            (λ read. grammar.admitted
            (record {
              travel = travel;
              committees = record { total = members; span = Some span; lists = lists };
              backlog = backlog;
              lines = map raw_line_of events;
            }) ≡ Ok read) }
        ensures err { IfErr result (λ e. (e ≡ error.NoMemory)
            ⊎ (grammar.admitted
            (record {
              travel = travel;
              committees = record { total = members; span = Some span; lists = lists };
              backlog = backlog;
              lines = map raw_line_of events;
            }) ≡ Err e)) }
        ensures way { IfOk result (λ read. read.travel ≡ travel) }
    {
        if !are_sized(members, lists.as_slice()) {
            return Err(RunError::BadCommittee);
        }
        if let Some(line) = first_strange(members, lists.as_slice()) {
            return Err(RunError::UnknownMember(line));
        }
        let count = lists.len() as u64;
        let committees = committees_of(alloc, members, span, lists.as_slice())?;
        Script::admit(alloc, travel, committees, backlog, count + 2, events)
    }

    // A script of the grammar, where it is run. Its first event line has that number.
    fn admit(
        alloc: Global,
        travel: Travel,
        committees: Committees,
        backlog: u64,
        first: u64,
        events: Items<RawLine>,
    ) -> Result<Script, RunError>
        requires backlog { 1 ≤ backlog }
        requires some { 4 ≤ committees.total }
        requires first { first ≡ grammar.first_event committees }
        requires few { first ≤ 66 }
        ensures ok { IfOk result
            (λ read. grammar.admitted
            (record {
              travel = travel;
              committees = committees;
              backlog = backlog;
              lines = map raw_line_of events;
            }) ≡ Ok read) }
        ensures err { IfErr result (λ e. (e ≡ error.NoMemory)
            ⊎ (grammar.admitted
            (record {
              travel = travel;
              committees = committees;
              backlog = backlog;
              lines = map raw_line_of events;
            }) ≡ Err e)) }
        ensures way { IfOk result (λ read. read.travel ≡ travel) }
    {
        let lines = events.as_slice();
        if let Some(line) = first_unknown(committees.total(), first, lines) {
            return Err(RunError::UnknownMember(line));
        }
        let faulty = marks_of(alloc, committees.total(), lines)?;
        if !bears_all(&faulty, &committees) {
            return Err(RunError::TooManyFaulty);
        }
        if let Some(line) = first_oversize(first, lines) {
            return Err(RunError::OversizeBlock(line));
        }
        let events = admitted_lines(alloc, committees.total(), first, events)?;
        Ok(Script {
            travel,
            committees,
            backlog,
            first,
            events,
            faulty,
        })
    }

    /// How blocks travel. Takes no memory.
    pub fn travel(&self) -> Travel
        ensures { result ≡ self.now.travel }
    {
        self.travel
    }

    /// How many members the cluster has. Takes no memory.
    pub fn members(&self) -> u16
        ensures { result ≡ self.now.committees.total }
    {
        self.committees.total()
    }

    /// How many blocks may be pending. Takes no memory.
    pub fn backlog(&self) -> u64
        ensures value { result ≡ self.now.backlog }
        ensures bound { 1 ≤ result }
    {
        self.backlog
    }

    /// The number of event lines. Takes no memory.
    pub fn events(&self) -> u64
        ensures { result ≡ length self.now.lines }
    {
        self.events.len() as u64
    }

    /// The committees of the header.
    pub fn committees(&self, alloc: Global) -> Result<Committees, NoMemory>
        ensures { IfOk result (λ committees. committees ≡ self.now.committees) }
    {
        self.committees.copy(alloc)
    }

    /// The event lines, in order.
    pub fn lines(&self) -> &[EventLine]
        ensures value { result.now ≡ self.now.lines }
        ensures runnable { grammar.IsRunnable self.now }
    {
        self.events.as_slice()
    }

    /// The number of the first event line: a header is line 1, and one line more for each list.
    pub fn first_event(&self) -> u64
        ensures value { result ≡ grammar.first_event self.now.committees }
        ensures few { result ≤ 66 }
    {
        self.first
    }

    /// A law: in a cluster of the script's committees each epoch has members enough, who are there,
    /// and of whom the script makes at most f faulty.
    pub fn is_cluster(&self)
        ensures { (r : Rules) → r.epochs ≡ self.now.committees → IsCluster r self.now.lines }
    {
        let _events = &self.events;
        committees_are_sound(&self.committees);
    }

    /// For each member, whether some line makes it faulty.
    pub fn faulty(&self, alloc: Global) -> Result<Vec<bool>, NoMemory>
        ensures { IfOk result
            (λ marks. marks.items ≡ grammar.faulty_marks self.now.lines self.now.committees.total) }
    {
        Ok(Vec::from_slice(alloc, &self.faulty)?)
    }
}
