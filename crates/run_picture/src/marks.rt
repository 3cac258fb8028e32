//! A mark for each line.

ghost use Rattle.std.specs.Prelude.{◌≡◌, ◌≤◌, ◌<◌, ◌^◌, ◌++◌, IfOk, OnOk, length, map, not};
ghost use Rattle.std.specs.Prelude.{string_bytes};
ghost use Rattle.run_picture.specs.Marks as spec;

use crate::elements::put_mark_of;
use crate::flights::{Flight, brought, can_be};
use crate::frame::{x_of, y_of};
use crate::labels::{put_label_begin, put_label_end, put_parts};
use crate::lines::{is_faulty_line, line_text, member_of};
use crate::live::{acts, honest, pass, stops};
use crate::steps::Step;
use crate::told::class_of;
use cw_base::NoMemory;
use hail_script::{Ask, AskKind, EventLine, LineKind};
use std::alloc::Global;

/// A mark for each line at its member's lane, in a picture of so many members.
pub(crate) fn put_marks(
    alloc: Global,
    out: &mut String,
    faulty: &[bool],
    flights: &[Flight],
    steps: &[Step],
) -> Result<(), NoMemory>
    requires { length steps.now ≤ 2000 }
    ensures { OnOk result
        (string_bytes out.new ≡ string_bytes out.old
        ++ spec.marks_from (length faulty.now) flights.now 1 (map not faulty.now) steps.now) }
{
    let total = faulty.len();
    let mut live = honest(alloc, faulty)?;
    for (index, step) in steps.iter().enumerate() {
        let row = index as u16 + 1;
        put_mark_at(alloc, out, total, flights, row, &live, step)?;
        pass(&mut live, flights, row, step);
    }
    Ok(())
}

fn put_mark_at(
    alloc: Global,
    out: &mut String,
    total: usize,
    flights: &[Flight],
    row: u16,
    live: &[bool],
    step: &Step,
) -> Result<(), NoMemory>
    ensures { OnOk result
        (string_bytes out.new ≡ string_bytes out.old
        ++ spec.mark_at total flights.now row live.now step.now) }
{
    let x = x_of(total, member_of(step.line));
    let y = y_of(row);
    let shape = shape_of(flights, row, live, step.line);
    let class = mark_class(flights, row, live, step);
    let title = title_text(alloc, step)?;
    put_mark_of(out, x, y, shape, class, &title)?;
    put_label(alloc, out, x, y, stops(flights, row, live, step.line), step)
}

#[tactic(auto, unfolding(crate::specs::Marks::mark_title))]
fn title_text(alloc: Global, step: &Step) -> Result<String, NoMemory>
    ensures { IfOk result (λ text. string_bytes text ≡ spec.mark_title step.now) }
{
    let mut text = String::new(alloc);
    let number = step.number;
    let words = line_text(alloc, step.line)?;
    write!(text, "line {number}, {words}")?;
    Ok(text)
}

fn put_label(
    alloc: Global,
    out: &mut String,
    x: u64,
    y: u64,
    is_stop: bool,
    step: &Step,
) -> Result<(), NoMemory>
    requires x { x < 2 ^ 32 }
    requires y { y < 2 ^ 32 }
    ensures { OnOk result
        (string_bytes out.new ≡ string_bytes out.old
        ++ spec.label_text x y (spec.parts_text is_stop step.now)) }
{
    put_label_begin(out, x, y)?;
    put_parts(alloc, out, is_stop, step)?;
    put_label_end(out)
}

fn ask_shape(ask: &Ask) -> &'static str
    ensures { result.now ≡ spec.ask_shape ask.now }
{
    match ask.kind() {
        AskKind::Propose(_) => "box",
        AskKind::Deliver(_) => "dot",
        AskKind::Timeout(_) => "gem",
        AskKind::Floor(_) => "tri",
        AskKind::Hint(_) => "tri",
        AskKind::Ack => "ring",
        AskKind::Prune(_) => "ring",
    }
}

fn line_shape(line: &EventLine) -> &'static str
    ensures { result.now ≡ spec.line_shape line.now }
{
    match line.kind() {
        LineKind::Do(_, ask) => ask_shape(ask),
        LineKind::Cut(_, _, ask) => ask_shape(ask),
        LineKind::Restart(_) => "ring",
        LineKind::Faulty(..) => "box",
    }
}

// Whether the line asks for a message that isn't there.
fn is_void(flights: &[Flight], row: u16, line: &EventLine) -> bool
    ensures { result ≡ spec.is_void flights.now row line.now }
{
    match line.kind() {
        LineKind::Do(..) => !can_be(flights, row, line),
        LineKind::Cut(..) => !can_be(flights, row, line),
        LineKind::Restart(_) => false,
        LineKind::Faulty(..) => false,
    }
}

fn shape_of(flights: &[Flight], row: u16, live: &[bool], line: &EventLine) -> &'static str
    ensures { result.now ≡ spec.shape_of flights.now row live.now line.now }
{
    if stops(flights, row, live, line) {
        return "cross";
    }
    if is_void(flights, row, line) {
        return "void";
    }
    line_shape(line)
}

fn ask_class(ask: &Ask) -> &'static str
    ensures { result.now ≡ spec.ask_class ask.now }
{
    match ask.kind() {
        AskKind::Timeout(_) => "x",
        _ => "ink",
    }
}

fn own_class(line: &EventLine) -> &'static str
    ensures { result.now ≡ spec.own_class line.now }
{
    match line.kind() {
        LineKind::Do(_, ask) => ask_class(ask),
        _ => "ink",
    }
}

// The class of a mark.
fn mark_class(flights: &[Flight], row: u16, live: &[bool], step: &Step) -> &'static str
    ensures { result.now ≡ spec.mark_class flights.now row live.now step.now }
{
    if stops(flights, row, live, step.line) || is_faulty_line(step.line) {
        return "bad";
    }
    if acts(flights, row, live, step.line) || step.found.is_some() {
        return match brought(flights, row, step.line) {
            Some(flight) => class_of(&flight.said.says),
            None => own_class(step.line),
        };
    }
    "g"
}
