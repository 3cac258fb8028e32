//! The event lines of a text, before it is known whether they are run: a member may be past the
//! last, and a payload too long.

ghost use Rattle.std.specs.Prelude.{◌≡◌, ◌<◌, ◌^◌, IfOk, None, false, map};
ghost use Rattle.cw_rules.specs.World.{line_member};
ghost use Rattle.hail_script.specs.Events.{ask_of, fault_of, line_of};
ghost use Rattle.hail_script.specs.Grammar as grammar;
ghost use Rattle.hail_script.specs.Raw.{raw_ask_of, raw_fault_of, raw_line_of};

use crate::event::{Ask, AskKind, EventLine, Fault, FaultKind, LineKind};
use crate::stop::Stop;
use cw_base::{Items, NoMemory};
use cw_types::Payload;
use std::alloc::Global;

/// What a line asks of a member.
#[derive(Debug, Drop)]
pub(crate) enum RawAsk {
    Propose(Items<u8>),
    Timeout(u64),
    Deliver(u64),
    Ack,
    Prune(u64),
    Floor(u64),
    Hint(u64),
}

/// What a faulty member sends.
#[derive(Debug, Drop)]
pub(crate) enum RawFault {
    Silent,
    Offer(u64, Items<u8>),
    Notarize(u64),
    Finalize(u64),
    Nullify(u64),
    Raw(Items<u8>),
}

/// An event line.
#[derive(Debug, Drop)]
pub(crate) enum RawLine {
    Do(u64, RawAsk),
    Cut(Stop, u64, RawAsk),
    Restart(u64),
    Faulty(u64, RawFault),
}

/// The member that a line names.
pub(crate) fn member_of(line: &RawLine) -> u64
    ensures { result ≡ line_member (raw_line_of line.now) }
{
    match line {
        RawLine::Do(member, _) => *member,
        RawLine::Cut(_, member, _) => *member,
        RawLine::Restart(member) => *member,
        RawLine::Faulty(member, _) => *member,
    }
}

fn is_oversize(payload: &Items<u8>) -> bool
    ensures { result ≡ grammar.is_oversize payload.now }
{
    payload.len() > Payload::MAX
}

fn asks_oversize(ask: &RawAsk) -> bool
    ensures { result ≡ grammar.asks_oversize (raw_ask_of ask.now) }
{
    match ask {
        RawAsk::Propose(payload) => is_oversize(payload),
        _ => false,
    }
}

fn offers_oversize(fault: &RawFault) -> bool
    ensures { result ≡ grammar.offers_oversize (raw_fault_of fault.now) }
{
    match fault {
        RawFault::Offer(_, payload) => is_oversize(payload),
        _ => false,
    }
}

/// Whether a line has a payload that is too long.
pub(crate) fn names_oversize(line: &RawLine) -> bool
    ensures { result ≡ grammar.names_oversize (raw_line_of line.now) }
{
    match line {
        RawLine::Do(_, ask) => asks_oversize(ask),
        RawLine::Cut(_, _, ask) => asks_oversize(ask),
        RawLine::Restart(_) => false,
        RawLine::Faulty(_, fault) => offers_oversize(fault),
    }
}

fn payload_of(bytes: Items<u8>) -> Payload
    requires { grammar.is_oversize bytes ≡ false }
    ensures { result ≡ bytes }
{
    match Payload::new(bytes.into_vec()) {
        Ok(payload) => payload,
        Err(_) => unreachable!(),
    }
}

fn ask_kind_of(ask: RawAsk) -> AskKind
    requires { grammar.asks_oversize (raw_ask_of ask) ≡ false }
    ensures { ask_of result ≡ raw_ask_of ask }
{
    match ask {
        RawAsk::Propose(bytes) => AskKind::Propose(payload_of(bytes)),
        RawAsk::Timeout(view) => AskKind::Timeout(view),
        RawAsk::Deliver(number) => AskKind::Deliver(number),
        RawAsk::Ack => AskKind::Ack,
        RawAsk::Prune(height) => AskKind::Prune(height),
        RawAsk::Floor(number) => AskKind::Floor(number),
        RawAsk::Hint(height) => AskKind::Hint(height),
    }
}

fn fault_kind_of(fault: RawFault) -> FaultKind
    requires { grammar.offers_oversize (raw_fault_of fault) ≡ false }
    ensures { fault_of result ≡ raw_fault_of fault }
{
    match fault {
        RawFault::Silent => FaultKind::Silent,
        RawFault::Offer(view, bytes) => FaultKind::Offer(view, payload_of(bytes)),
        RawFault::Notarize(number) => FaultKind::Notarize(number),
        RawFault::Finalize(number) => FaultKind::Finalize(number),
        RawFault::Nullify(view) => FaultKind::Nullify(view),
        RawFault::Raw(bytes) => FaultKind::Raw(bytes),
    }
}

fn line_kind_of(line: RawLine) -> LineKind
    requires known { line_member (raw_line_of line) < 2 ^ 16 }
    requires short { grammar.names_oversize (raw_line_of line) ≡ false }
    ensures { line_of result ≡ raw_line_of line }
{
    match line {
        RawLine::Do(member, ask) => LineKind::Do(member as u16, Ask::new(ask_kind_of(ask))),
        RawLine::Cut(stop, member, ask) => {
            LineKind::Cut(stop, member as u16, Ask::new(ask_kind_of(ask)))
        }
        RawLine::Restart(member) => LineKind::Restart(member as u16),
        RawLine::Faulty(member, fault) => {
            LineKind::Faulty(member as u16, Fault::new(fault_kind_of(fault)))
        }
    }
}

/// The lines as they are run, where no line names a member past the last, and none has a payload
/// that is too long. No payload is copied.
pub(crate) fn admitted_lines(
    alloc: Global,
    total: u16,
    first: u64,
    lines: Items<RawLine>,
) -> Result<Items<EventLine>, NoMemory>
    requires known { grammar.first_at (grammar.names_stranger total) first (map raw_line_of lines)
        ≡ None }
    requires short { grammar.first_at grammar.names_oversize first (map raw_line_of lines) ≡ None }
    ensures { IfOk result (λ events. events ≡ map raw_line_of lines) }
{
    let mut events = Items::new(alloc);
    for line in lines.into_vec() {
        events.push(EventLine::new(line_kind_of(line)))?;
    }
    Ok(events)
}
