//! The messages of a run, and those that lines bring.

ghost use Rattle.std.specs.Prelude.{◌≡◌, ◌≤◌, ◌+◌, ◌++◌, IfOk, OnOk, length, map};
ghost use Rattle.std.specs.Prelude.{option_and_then, option_map, slice_get};
ghost use Rattle.cw_rules.specs.World as rule;
ghost use Rattle.run_picture.specs.Steps as spec;

use crate::lines::{asks, member_of, number_in};
use crate::steps::Step;
use crate::told::{Said, Says, is_finalization};
use cw_base::NoMemory;
use cw_types::To;
use hail_script::{Ask, AskKind, EventLine};
use std::alloc::Global;

/// A message on its way: the row and the line that sent it, its sender, and what it says.
#[derive(Clone, Copy, Debug, PartialEq, Eq)]
pub(crate) struct Flight {
    pub(crate) row: u16,
    pub(crate) line: u64,
    pub(crate) from: u64,
    pub(crate) said: Said,
}

/// All messages in order, of rows from 1 on.
pub(crate) fn flights_of(alloc: Global, steps: &[Step]) -> Result<Vec<Flight>, NoMemory>
    requires { length steps.now ≤ 2000 }
    ensures { IfOk result (λ flights. flights.items ≡ spec.flights_from 1 steps.now) }
{
    let mut flights = Vec::new(alloc);
    for (index, step) in steps.iter().enumerate() {
        put_sent(&mut flights, index as u16 + 1, step)?;
    }
    Ok(flights)
}

fn put_sent(flights: &mut Vec<Flight>, row: u16, step: &Step) -> Result<(), NoMemory>
    ensures { OnOk result (flights.new.items
        ≡ flights.old.items ++ map (spec.flight_of row step.now) step.now.sent) }
{
    let line = step.number;
    let from = member_of(step.line);
    for said in step.sent.as_slice() {
        flights.push(Flight {
            row,
            line,
            from,
            said: *said,
        })?;
    }
    Ok(())
}

/// The message that a line brings.
pub(crate) fn brought<'a>(flights: &'a [Flight], row: u16, line: &EventLine) -> Option<&'a Flight>
    ensures { option_map (λ f. f.now) result ≡ spec.brought flights.now row line.now }
{
    match asks(line) {
        Some(ask) => taken(flights, row, member_of(line), ask),
        None => None,
    }
}

// The message that is asked for, where it reaches the member.
fn taken<'a>(flights: &'a [Flight], row: u16, member: u64, ask: &Ask) -> Option<&'a Flight>
    ensures { option_map (λ f. f.now) result ≡ spec.taken_flight flights.now row member ask.now }
{
    match number_in(ask) {
        Some(number) => reaching(flights, row, member, ask, number),
        None => None,
    }
}

fn reaching<'a>(
    flights: &'a [Flight],
    row: u16,
    member: u64,
    ask: &Ask,
    number: u64,
) -> Option<&'a Flight>
    ensures { option_map (λ f. f.now) result
        ≡ option_and_then (spec.if_reaches row member ask.now)
        (slice_get flights.now number) }
{
    match flights.get(number as usize) {
        Some(flight) => {
            if reaches(row, member, ask, flight) {
                Some(flight)
            } else {
                None
            }
        }
        None => None,
    }
}

fn reaches(row: u16, member: u64, ask: &Ask, flight: &Flight) -> bool
    ensures { result ≡ spec.reaches row member ask.now flight.now }
{
    flight.row < row && (is_to(flight.said.to, member) && serves(ask, &flight.said.says))
}

fn is_to(to: To, member: u64) -> bool
    ensures { result ≡ rule.is_to member to }
{
    match to {
        To::All => true,
        To::One(other) => u64::from(other) == member,
    }
}

fn serves(ask: &Ask, says: &Says) -> bool
    ensures { result ≡ spec.serves ask.now says.now }
{
    match ask.kind() {
        AskKind::Floor(_) => is_finalization(says),
        _ => true,
    }
}

/// Whether what a line asks for is there.
pub(crate) fn can_be(flights: &[Flight], row: u16, line: &EventLine) -> bool
    ensures { result ≡ spec.can_be flights.now row line.now }
{
    match asks(line) {
        Some(ask) => is_there(flights, row, member_of(line), ask),
        None => false,
    }
}

fn is_there(flights: &[Flight], row: u16, member: u64, ask: &Ask) -> bool
    ensures { result ≡ spec.is_there flights.now row member ask.now }
{
    if number_in(ask).is_some() {
        return taken(flights, row, member, ask).is_some();
    }
    true
}
