//! The messages of a run, as arrows and stubs.

ghost use Rattle.std.specs.Prelude.{◌≡◌, ◌≤◌, ◌<◌, ◌^◌, ◌++◌, OnOk, IfOk, length, string_bytes};
ghost use Rattle.std.specs.Prelude.{map, not};
ghost use Rattle.std.specs.List.{list_any};
ghost use Rattle.run_picture.specs.Arrows as spec;

use crate::elements::{bow, put_arrow_of, straight};
use crate::flights::{Flight, brought};
use crate::frame::{x_of, y_of};
use crate::lines::{asks, member_of, number_in};
use crate::live::{honest, is_marked, pass};
use crate::steps::Step;
use crate::told::{class_of, letters_of};
use cw_base::NoMemory;
use std::alloc::Global;

/// An arrow for each message that a line brings.
pub(crate) fn put_arrows(
    alloc: Global,
    out: &mut String,
    faulty: &[bool],
    flights: &[Flight],
    steps: &[Step],
) -> Result<(), NoMemory>
    requires { length steps.now ≤ 2000 }
    ensures { OnOk result
        (string_bytes out.new ≡ string_bytes out.old
        ++ spec.arrows_from faulty.now flights.now 1 (map not faulty.now) steps.now) }
{
    let mut live = honest(alloc, faulty)?;
    for (index, step) in steps.iter().enumerate() {
        let row = index as u16 + 1;
        put_arrow_at(alloc, out, faulty, flights, row, &live, step)?;
        pass(&mut live, flights, row, step);
    }
    Ok(())
}

// The arrow of the message that a line brings.
fn put_arrow_at(
    alloc: Global,
    out: &mut String,
    faulty: &[bool],
    flights: &[Flight],
    row: u16,
    live: &[bool],
    step: &Step,
) -> Result<(), NoMemory>
    ensures { OnOk result
        (string_bytes out.new ≡ string_bytes out.old
        ++ spec.arrow_at faulty.now flights.now row live.now step.now) }
{
    let is_live = is_marked(live, member_of(step.line));
    match brought(flights, row, step.line) {
        Some(flight) => put_arrow(alloc, out, faulty, is_live, row, step, flight),
        None => Ok(()),
    }
}

fn put_arrow(
    alloc: Global,
    out: &mut String,
    faulty: &[bool],
    is_live: bool,
    row: u16,
    step: &Step,
    flight: &Flight,
) -> Result<(), NoMemory>
    ensures { OnOk result
        (string_bytes out.new ≡ string_bytes out.old
        ++ spec.arrow_text faulty.now is_live row step.now flight.now) }
{
    let total = faulty.len();
    let member = member_of(step.line);
    let from = x_of(total, flight.from);
    let way = way_text(
        alloc,
        from,
        y_of(flight.row),
        x_of(total, member),
        y_of(row),
    )?;
    let title = title_text(alloc, step.number, member, flight)?;
    put_arrow_of(
        out,
        &way,
        tone(is_live, flight),
        dashes(faulty, flight),
        &title,
    )
}

// Where an arrow runs.
fn way_text(alloc: Global, from: u64, top: u64, x: u64, y: u64) -> Result<String, NoMemory>
    requires { 20 ≤ x }
    ensures { IfOk result (λ text. string_bytes text ≡ spec.way_text from top x y) }
{
    if from == x {
        return bow(alloc, x, top, x - 20, y);
    }
    straight(alloc, from, top, x, y)
}

// The class of an arrow.
fn tone(is_live: bool, flight: &Flight) -> &'static str
    ensures { result.now ≡ spec.tone is_live flight.now }
{
    if is_live {
        return class_of(&flight.said.says);
    }
    "g"
}

fn dashes(faulty: &[bool], flight: &Flight) -> &'static str
    ensures { result.now ≡ spec.dashes faulty.now flight.now }
{
    if is_marked(faulty, flight.from) {
        return " z";
    }
    ""
}

#[tactic(auto, unfolding(crate::specs::Arrows::arrow_title))]
fn title_text(alloc: Global, number: u64, member: u64, flight: &Flight) -> Result<String, NoMemory>
    ensures { IfOk result (λ text. string_bytes text ≡ spec.arrow_title number member flight.now) }
{
    let mut text = letters_of(alloc, &flight.said.says)?;
    let from = flight.from;
    let line = flight.line;
    write!(text, " from {from} to {member}, lines {line} to {number}")?;
    Ok(text)
}

/// A stub for each message that no line names.
pub(crate) fn put_stubs(
    alloc: Global,
    out: &mut String,
    total: usize,
    flights: &[Flight],
    steps: &[Step],
) -> Result<(), NoMemory>
    ensures { OnOk result
        (string_bytes out.new ≡ string_bytes out.old
        ++ spec.stubs_from total steps.now 0 flights.now) }
{
    for (number, flight) in flights.iter().enumerate() {
        if !is_named(number as u64, steps) {
            put_stub(
                alloc,
                out,
                x_of(total, flight.from),
                y_of(flight.row),
                flight,
            )?;
        }
    }
    Ok(())
}

fn is_named(number: u64, steps: &[Step]) -> bool
    ensures { result ≡ list_any (spec.names number) steps.now }
{
    steps.iter().any(|step| names(number, step))
}

fn names(number: u64, step: &Step) -> bool
    ensures { result ≡ spec.names number step.now }
{
    match asks(step.line) {
        Some(ask) => number_in(ask) == Some(number),
        None => false,
    }
}

fn put_stub(
    alloc: Global,
    out: &mut String,
    x: u64,
    y: u64,
    flight: &Flight,
) -> Result<(), NoMemory>
    requires x { 10 ≤ x }
    requires y { y < 2 ^ 32 }
    ensures { OnOk result
        (string_bytes out.new ≡ string_bytes out.old ++ spec.stub_text x y flight.now) }
{
    let way = straight(alloc, x, y, x - 10, y + 12)?;
    let title = lost_text(alloc, flight)?;
    put_arrow_of(out, &way, class_of(&flight.said.says), " stub", &title)
}

#[tactic(auto, unfolding(crate::specs::Arrows::lost_text))]
fn lost_text(alloc: Global, flight: &Flight) -> Result<String, NoMemory>
    ensures { IfOk result (λ text. string_bytes text ≡ spec.lost_text flight.now) }
{
    let mut text = letters_of(alloc, &flight.said.says)?;
    let from = flight.from;
    let line = flight.line;
    write!(text, " from {from}, line {line}, never delivered")?;
    Ok(text)
}
