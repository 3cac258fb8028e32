//! A script with lanes: events that come before all lanes, and lanes of events that run beside each
//! other.

ghost use Rattle.std.specs.Prelude.{◌≡◌, ◌≤◌, ◌<◌, ◌+◌, ◌-◌, ◌⊎◌, ◌^◌, IfOk, IfErr, drop, length};
ghost use Rattle.std.specs.Prelude.{map};
ghost use Rattle.cw_rules.specs.declared.travel.Travel.TheVariants.{Chunked};
ghost use Rattle.hail_script.specs.Lanes as lanes;
ghost use Rattle.hail_script.specs.declared.error.RunError.TheVariants as error;

use crate::error::RunError;
use crate::headers::{Header, header_of};
use crate::pieces::{pieces_of, without_empty_end};
use crate::script::Script;
use cw_base::{Items, NoMemory};
use cw_rules::Travel;
use std::alloc::Global;
use std::marker::Model;

/// The most lanes of a script.
const MOST: usize = 64;

/// A script with lanes. Its events stand in the order of the text: those before the first lane, and
/// then those of each lane.
#[derive(Debug, Drop)]
pub struct LaneScript {
    script: Script,
    // of each event line, its number in the text
    numbers: Items<u64>,
    // how many events stand before each lane, behind the beginning of the one before it
    sizes: Items<u64>,
}

impl Model for LaneScript {
    ghost use Rattle.std.specs.Prelude.{◌≡◌};
    ghost use Rattle.cw_rules.specs.declared.travel.Travel.TheVariants.{Chunked};
    ghost use Rattle.hail_script.specs.Lanes.{Laned};

    ghost Value = { Laned };

    ghost view = { λ s. record { script = s.script; numbers = s.numbers; sizes = s.sizes } };

    ghost invariant = { λ s. s.script.travel ≡ Chunked };
}

impl LaneScript {
    /// The script with lanes that a text spells, or the first cause for which it isn't run. Lines
    /// are numbered as they stand in the text, those that begin lanes included.
    pub fn parse(alloc: Global, script: &[u8]) -> Result<LaneScript, RunError>
        ensures ok { IfOk result (λ read. lanes.laned_of script.now ≡ Ok read) }
        ensures err { IfErr result (λ e. (e ≡ error.NoMemory)
            ⊎ (lanes.laned_of script.now ≡ Err e)) }
    {
        let pieces = pieces_of(alloc, script, b'\n')?;
        let lines = without_empty_end(&pieces);
        let head = head_in(alloc, lines)?;
        let Parted {
            numbers,
            lines,
            sizes,
        } = part(alloc, lines, head)?;
        match Script::read(alloc, Travel::Chunked, &lines) {
            Ok(script) => Ok(LaneScript {
                script,
                numbers: copied(alloc, behind(&numbers, head as usize))?,
                sizes,
            }),
            Err(error) => Err(told(&numbers, error)),
        }
    }

    /// The script of all events.
    pub fn script(&self) -> &Script
        ensures { result.now ≡ self.now.script }
    {
        &self.script
    }

    /// The script of all events, the number of each event line, and the sizes.
    pub fn into_parts(self) -> (Script, Items<u64>, Items<u64>)
        ensures parts { result ≡ (self.script, self.numbers, self.sizes) }
        ensures way { result.0.travel ≡ Chunked }
    {
        let LaneScript {
            script,
            numbers,
            sizes,
        } = self;
        (script, numbers, sizes)
    }

    /// A law: its blocks travel in chunks.
    pub fn travels_in_chunks(&self)
        ensures { self.now.script.travel ≡ Chunked }
    {
        let _script = &self.script;
    }

    /// The number of each event line in the text.
    pub fn numbers(&self) -> &[u64]
        ensures { result.now ≡ self.now.numbers }
    {
        self.numbers.as_slice()
    }

    /// How many events stand before each lane, behind the beginning of the one before it. The
    /// events that are left are the last lane's.
    pub fn sizes(&self) -> &[u64]
        ensures { result.now ≡ self.now.sizes }
    {
        self.sizes.as_slice()
    }
}

// How many lines stand before the events.
fn head_in(alloc: Global, lines: &[&[u8]]) -> Result<u64, NoMemory>
    ensures { IfOk result (λ head. head ≡ lanes.head_in (map (λ line. line.now) lines.now)) }
{
    let Some((first, _)) = lines.split_first() else {
        return Ok(1);
    };
    match header_of(alloc, first)? {
        Some(Header::Several(_, _, _, count)) => Ok(1 + count),
        _ => Ok(1),
    }
}

fn is_lane(head: u64, begun: usize, number: u64, line: &[u8]) -> bool
    requires { begun ≤ 64 }
    ensures { result ≡ lanes.begins head (64 - begun) number line.now }
{
    number > head && begun < MOST && line == b"lane".as_slice()
}

fn counted(head: u64, number: u64, count: u64) -> u64
    requires { count < number }
    ensures { result ≡ lanes.counted_event head number count }
{
    if number > head { count + 1 } else { count }
}

// Lines without those that begin lanes, with the number of each, and how many events stand before
// each lane, behind the beginning of the one before it.
#[derive(Drop)]
struct Parted<'a> {
    numbers: Vec<u64>,
    lines: Vec<&'a [u8]>,
    sizes: Items<u64>,
}

fn part<'a>(alloc: Global, lines: &[&'a [u8]], head: u64) -> Result<Parted<'a>, NoMemory>
    requires { head ≡ lanes.head_in (map (λ line. line.now) lines.now) }
    ensures numbers { IfOk result
        (λ parted. parted.numbers.items ≡ map (λ row. row.0)
        (lanes.others_in (map (λ line. line.now) lines.now))) }
    ensures lines { IfOk result
        (λ parted. map (λ line. line.now) parted.lines.items ≡ map (λ row. row.1)
        (lanes.others_in (map (λ line. line.now) lines.now))) }
    ensures sizes { IfOk result
        (λ parted. parted.sizes ≡ lanes.sizes_in (map (λ line. line.now) lines.now)) }
{
    let mut numbers = Vec::new(alloc);
    let mut others = Vec::new(alloc);
    let mut sizes = Items::new(alloc);
    let mut count = 0;
    for (index, line) in lines.iter().enumerate() {
        let number = index as u64 + 1;
        if is_lane(head, sizes.len(), number, line) {
            sizes.push(count)?;
            count = 0;
        } else {
            numbers.push(number)?;
            others.push(*line)?;
            count = counted(head, number, count);
        }
    }
    if sizes.is_empty() {
        numbers.push(lines.len() as u64 + 1)?;
        others.push(b"")?;
    }
    Ok(Parted {
        numbers,
        lines: others,
        sizes,
    })
}

// The numbers behind the head's.
fn behind(numbers: &[u64], head: usize) -> &[u64]
    ensures { result.now ≡ drop head numbers.now }
{
    if head >= numbers.len() {
        return &[];
    }
    &numbers[head..]
}

fn copied(alloc: Global, numbers: &[u64]) -> Result<Items<u64>, NoMemory>
    ensures { IfOk result (λ copy. copy ≡ numbers.now) }
{
    Ok(Items::from_vec(Vec::from_slice(alloc, numbers)?))
}

// The number of a line by its place among these.
fn number_at(numbers: &[u64], at: u64) -> u64
    ensures { result ≡ lanes.line_number_at numbers.now at }
{
    match numbers.get(at.saturating_sub(1) as usize) {
        Some(number) => *number,
        None => at,
    }
}

// A cause, with the number of its line in the text.
fn told(numbers: &[u64], error: RunError) -> RunError
    ensures { result ≡ lanes.told numbers.now error }
{
    match error {
        RunError::Syntax(at) => RunError::Syntax(number_at(numbers, at)),
        RunError::UnknownMember(at) => RunError::UnknownMember(number_at(numbers, at)),
        RunError::OversizeBlock(at) => RunError::OversizeBlock(number_at(numbers, at)),
        other => other,
    }
}
