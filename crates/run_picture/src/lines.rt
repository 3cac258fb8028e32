//! A line of a script, as a picture has it.

ghost use Rattle.std.specs.Prelude.{◌≡◌, IfOk, option_map, string_bytes};
ghost use Rattle.cw_rules.specs.World.{line_member};
ghost use Rattle.run_picture.specs.Lines as spec;

use cw_base::NoMemory;
use hail_script::{Ask, AskKind, EventLine, Fault, FaultKind, LineKind};
use std::alloc::Global;

/// The line as scripts have it, a payload to its sixth byte.
#[tactic(auto, unfolding(crate::specs::Lines::line_text))]
pub(crate) fn line_text(alloc: Global, line: &EventLine) -> Result<String, NoMemory>
    ensures { IfOk result (λ text. string_bytes text ≡ spec.line_text line.now) }
{
    let mut text = String::new(alloc);
    match line.kind() {
        LineKind::Do(member, ask) => return ask_text(alloc, u64::from(*member), ask),
        LineKind::Cut(stop, member, ask) => {
            let call = stop.call;
            let cut = stop.cut;
            let fill = stop.fill;
            let ask = ask_text(alloc, u64::from(*member), ask)?;
            write!(text, "cut {call} {cut} {fill} {ask}")?
        }
        LineKind::Restart(member) => {
            let member = *member;
            write!(text, "restart {member}")?
        }
        LineKind::Faulty(member, fault) => {
            let member = *member;
            let fault = fault_text(alloc, fault)?;
            write!(text, "faulty {member} {fault}")?
        }
    }
    Ok(text)
}

#[tactic(auto, unfolding(crate::specs::Lines::ask_text))]
fn ask_text(alloc: Global, member: u64, ask: &Ask) -> Result<String, NoMemory>
    ensures { IfOk result (λ text. string_bytes text ≡ spec.ask_text member ask.now) }
{
    let mut text = String::new(alloc);
    match ask.kind() {
        AskKind::Propose(payload) => {
            let payload = bytes_text(alloc, payload.bytes())?;
            write!(text, "propose {member} {payload}")?
        }
        AskKind::Timeout(view) => {
            let view = *view;
            write!(text, "timeout {member} {view}")?
        }
        AskKind::Deliver(number) => {
            let number = *number;
            write!(text, "deliver {number} {member}")?
        }
        AskKind::Ack => write!(text, "ack {member}")?,
        AskKind::Prune(height) => {
            let height = *height;
            write!(text, "prune {member} {height}")?
        }
        AskKind::Floor(number) => {
            let number = *number;
            write!(text, "floor {member} {number}")?
        }
        AskKind::Hint(height) => {
            let height = *height;
            write!(text, "hint {member} {height}")?
        }
    }
    Ok(text)
}

#[tactic(auto, unfolding(crate::specs::Lines::fault_text))]
fn fault_text(alloc: Global, fault: &Fault) -> Result<String, NoMemory>
    ensures { IfOk result (λ text. string_bytes text ≡ spec.fault_text fault.now) }
{
    let mut text = String::new(alloc);
    match fault.kind() {
        FaultKind::Silent => text.push_str("silent")?,
        FaultKind::Offer(view, payload) => {
            let view = *view;
            let payload = bytes_text(alloc, payload.bytes())?;
            write!(text, "offer {view} {payload}")?
        }
        FaultKind::Notarize(number) => {
            let number = *number;
            write!(text, "notarize {number}")?
        }
        FaultKind::Finalize(number) => {
            let number = *number;
            write!(text, "finalize {number}")?
        }
        FaultKind::Nullify(view) => {
            let view = *view;
            write!(text, "nullify {view}")?
        }
        FaultKind::Raw(bytes) => {
            let bytes = bytes_text(alloc, bytes.as_slice())?;
            write!(text, "raw {bytes}")?
        }
    }
    Ok(text)
}

#[tactic(auto, unfolding(crate::specs::Lines::bytes_text))]
fn bytes_text(alloc: Global, bytes: &[u8]) -> Result<String, NoMemory>
    ensures { IfOk result (λ text. string_bytes text ≡ spec.bytes_text bytes.now) }
{
    let mut text = String::new(alloc);
    if bytes.is_empty() {
        text.push_str("-")?;
        return Ok(text);
    }
    if bytes.len() <= 6 {
        return Ok(hex::encode(alloc, bytes)?);
    }
    let front = hex::encode(alloc, &bytes[..6])?;
    write!(text, "{front}..")?;
    Ok(text)
}

/// The member that a line names.
pub(crate) fn member_of(line: &EventLine) -> u64
    ensures { result ≡ line_member line.now }
{
    u64::from(line.member())
}

/// What a line asks of a member.
pub(crate) fn asks(line: &EventLine) -> Option<&Ask>
    ensures { option_map (λ ask. ask.now) result ≡ spec.ask_of_line line.now }
{
    match line.kind() {
        LineKind::Do(_, ask) => Some(ask),
        LineKind::Cut(_, _, ask) => Some(ask),
        LineKind::Restart(_) => None,
        LineKind::Faulty(..) => None,
    }
}

/// The number of the message that is asked for.
pub(crate) fn number_in(ask: &Ask) -> Option<u64>
    ensures { result ≡ spec.number_in ask.now }
{
    match ask.kind() {
        AskKind::Deliver(number) => Some(*number),
        AskKind::Floor(number) => Some(*number),
        _ => None,
    }
}

/// Whether it is a line with a stop.
pub(crate) fn is_cut(line: &EventLine) -> bool
    ensures { result ≡ spec.is_cut line.now }
{
    matches!(line.kind(), LineKind::Cut(..))
}

/// Whether it is a line of a faulty member.
pub(crate) fn is_faulty_line(line: &EventLine) -> bool
    ensures { result ≡ spec.is_faulty_line line.now }
{
    matches!(line.kind(), LineKind::Faulty(..))
}

/// The colour of the line's text.
pub(crate) fn line_class(line: &EventLine) -> &'static str
    ensures { result.now ≡ spec.line_class line.now }
{
    match line.kind() {
        LineKind::Do(..) => "ink",
        LineKind::Restart(_) => "ink",
        LineKind::Cut(..) => "bad",
        LineKind::Faulty(..) => "bad",
    }
}
