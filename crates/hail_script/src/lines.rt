//! Reading the event lines of a script.

ghost use Rattle.std.specs.Prelude.{◌≡◌, IfOk, Some, map, option_map};
ghost use Rattle.hail_script.specs.Lines as lines;
ghost use Rattle.hail_script.specs.Pieces.{bytes_in, fields, number};
ghost use Rattle.hail_script.specs.Raw.{raw_ask_of, raw_asked_of, raw_fault_of, raw_line_of};
ghost use Rattle.cw_rules.specs.World as rule;

use crate::pieces::{bytes_of, number_of, pieces_of};
use crate::raw::{RawAsk, RawFault, RawLine};
use crate::stop::Stop;
use cw_base::NoMemory;
use std::alloc::Global;

fn asking(member: Option<u64>, ask: Option<RawAsk>) -> Option<(u64, RawAsk)>
    ensures { option_map raw_asked_of result ≡ lines.asking member (option_map raw_ask_of ask) }
{
    let member = member?;
    let ask = ask?;
    Some((member, ask))
}

fn asked_alone(word: &[u8], member: &[u8]) -> Option<(u64, RawAsk)>
    ensures { option_map raw_asked_of result ≡ lines.asked_alone word.now member.now }
{
    if word != b"ack".as_slice() {
        return None;
    }
    asking(number_of(member), Some(RawAsk::Ack))
}

fn proposing(
    alloc: Global,
    member: &[u8],
    payload: &[u8],
) -> Result<Option<(u64, RawAsk)>, NoMemory>
    ensures { IfOk result
        (λ asked. option_map raw_asked_of asked ≡ lines.asking (number member.now)
        (option_map rule.Propose (bytes_in payload.now))) }
{
    let payload = bytes_of(alloc, payload)?;
    Ok(asking(number_of(member), payload.map(RawAsk::Propose)))
}

fn asked_with(
    alloc: Global,
    word: &[u8],
    first: &[u8],
    second: &[u8],
) -> Result<Option<(u64, RawAsk)>, NoMemory>
    ensures { IfOk result
        (λ asked. option_map raw_asked_of asked ≡ lines.asked_with word.now first.now second.now) }
{
    if word == b"propose".as_slice() {
        return proposing(alloc, first, second);
    }
    Ok(asked_number(word, first, second))
}

fn asked_number(word: &[u8], first: &[u8], second: &[u8]) -> Option<(u64, RawAsk)>
    ensures { option_map raw_asked_of result ≡ lines.asked_number word.now first.now second.now }
{
    if word == b"timeout".as_slice() {
        return asking(number_of(first), number_of(second).map(RawAsk::Timeout));
    }
    if word == b"deliver".as_slice() {
        return asking(number_of(second), number_of(first).map(RawAsk::Deliver));
    }
    if word == b"prune".as_slice() {
        return asking(number_of(first), number_of(second).map(RawAsk::Prune));
    }
    if word == b"floor".as_slice() {
        return asking(number_of(first), number_of(second).map(RawAsk::Floor));
    }
    if word == b"hint".as_slice() {
        return asking(number_of(first), number_of(second).map(RawAsk::Hint));
    }
    None
}

fn asked_in(alloc: Global, parts: &[&[u8]]) -> Result<Option<(u64, RawAsk)>, NoMemory>
    ensures { IfOk result
        (λ asked. option_map raw_asked_of asked
        ≡ lines.asked_in (map (λ part. part.now) parts.now)) }
{
    match parts {
        [word, member] => Ok(asked_alone(word, member)),
        [word, first, second] => asked_with(alloc, word, first, second),
        _ => Ok(None),
    }
}

fn cutting(
    call: Option<u64>,
    cut: Option<u64>,
    fill: Option<u64>,
    asked: Option<(u64, RawAsk)>,
) -> Option<RawLine>
    ensures { option_map raw_line_of result ≡ lines.cutting call cut fill
        (option_map raw_asked_of asked) }
{
    let call = call?;
    let cut = cut?;
    let fill = fill?;
    let (member, ask) = asked?;
    if call == 0 || fill > 255 {
        return None;
    }
    let stop = Stop {
        call,
        cut,
        fill: fill as u8,
    };
    Some(RawLine::Cut(stop, member, ask))
}

fn cut_in(alloc: Global, parts: &[&[u8]]) -> Result<Option<RawLine>, NoMemory>
    ensures { IfOk result
        (λ event. option_map raw_line_of event ≡ lines.cut_in (map (λ part. part.now) parts.now)) }
{
    let [call, cut, fill, asked @ ..] = parts else {
        return Ok(None);
    };
    let asked = asked_in(alloc, asked)?;
    Ok(cutting(number_of(call), number_of(cut), number_of(fill), asked))
}

fn offering(alloc: Global, view: &[u8], payload: &[u8]) -> Result<Option<RawFault>, NoMemory>
    ensures { IfOk result
        (λ fault. option_map raw_fault_of fault ≡ lines.offering (number view.now)
        (bytes_in payload.now)) }
{
    let Some(view) = number_of(view) else {
        return Ok(None);
    };
    match bytes_of(alloc, payload)? {
        None => Ok(None),
        Some(payload) => Ok(Some(RawFault::Offer(view, payload))),
    }
}

fn raw(alloc: Global, field: &[u8]) -> Result<Option<RawFault>, NoMemory>
    ensures { IfOk result
        (λ fault. option_map raw_fault_of fault ≡ option_map rule.Raw (bytes_in field.now)) }
{
    let bytes = bytes_of(alloc, field)?;
    Ok(bytes.map(RawFault::Raw))
}

fn fault_with(alloc: Global, word: &[u8], field: &[u8]) -> Result<Option<RawFault>, NoMemory>
    ensures { IfOk result
        (λ fault. option_map raw_fault_of fault ≡ lines.fault_with word.now field.now) }
{
    if word == b"notarize".as_slice() {
        return Ok(number_of(field).map(RawFault::Notarize));
    }
    if word == b"finalize".as_slice() {
        return Ok(number_of(field).map(RawFault::Finalize));
    }
    if word == b"nullify".as_slice() {
        return Ok(number_of(field).map(RawFault::Nullify));
    }
    if word == b"raw".as_slice() {
        return raw(alloc, field);
    }
    Ok(None)
}

fn fault_alone(word: &[u8]) -> Option<RawFault>
    ensures { option_map raw_fault_of result ≡ lines.fault_alone word.now }
{
    if word != b"silent".as_slice() {
        return None;
    }
    Some(RawFault::Silent)
}

fn offer_in(
    alloc: Global,
    word: &[u8],
    view: &[u8],
    payload: &[u8],
) -> Result<Option<RawFault>, NoMemory>
    ensures { IfOk result
        (λ fault. option_map raw_fault_of fault ≡ lines.offer_in word.now view.now payload.now) }
{
    if word != b"offer".as_slice() {
        return Ok(None);
    }
    offering(alloc, view, payload)
}

fn fault_in(alloc: Global, parts: &[&[u8]]) -> Result<Option<RawFault>, NoMemory>
    ensures { IfOk result
        (λ fault. option_map raw_fault_of fault
        ≡ lines.fault_in (map (λ part. part.now) parts.now)) }
{
    match parts {
        [word] => Ok(fault_alone(word)),
        [word, field] => fault_with(alloc, word, field),
        [word, view, payload] => offer_in(alloc, word, view, payload),
        _ => Ok(None),
    }
}

fn faulty_in(alloc: Global, parts: &[&[u8]]) -> Result<Option<RawLine>, NoMemory>
    ensures { IfOk result
        (λ event. option_map raw_line_of event
        ≡ lines.faulty_in (map (λ part. part.now) parts.now)) }
{
    let [member, fault @ ..] = parts else {
        return Ok(None);
    };
    let Some(member) = number_of(member) else {
        return Ok(None);
    };
    match fault_in(alloc, fault)? {
        None => Ok(None),
        Some(fault) => Ok(Some(RawLine::Faulty(member, fault))),
    }
}

fn restart_in(parts: &[&[u8]]) -> Option<RawLine>
    ensures { option_map raw_line_of result ≡ lines.restart_in
        (map (λ part. part.now) parts.now) }
{
    let [member] = parts else {
        return None;
    };
    number_of(member).map(RawLine::Restart)
}

fn do_in(alloc: Global, parts: &[&[u8]]) -> Result<Option<RawLine>, NoMemory>
    ensures { IfOk result
        (λ event. option_map raw_line_of event ≡ lines.do_in (map (λ part. part.now) parts.now)) }
{
    match asked_in(alloc, parts)? {
        None => Ok(None),
        Some((member, ask)) => Ok(Some(RawLine::Do(member, ask))),
    }
}

fn event_in(alloc: Global, parts: &[&[u8]]) -> Result<Option<RawLine>, NoMemory>
    ensures { IfOk result
        (λ event. option_map raw_line_of event
        ≡ lines.event_in (map (λ part. part.now) parts.now)) }
{
    let [word, rest @ ..] = parts else {
        return Ok(None);
    };
    if *word == b"cut".as_slice() {
        return cut_in(alloc, rest);
    }
    if *word == b"restart".as_slice() {
        return Ok(restart_in(rest));
    }
    if *word == b"faulty".as_slice() {
        return faulty_in(alloc, rest);
    }
    do_in(alloc, parts)
}

/// The event of a line.
pub(crate) fn event_of(alloc: Global, line: &[u8]) -> Result<Option<RawLine>, NoMemory>
    ensures { IfOk result
        (λ event. option_map raw_line_of event ≡ lines.event_in (fields line.now)) }
{
    let parts = pieces_of(alloc, line, b' ')?;
    event_in(alloc, &parts)
}
