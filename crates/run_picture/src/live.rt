//! Which members are live.

ghost use Rattle.std.specs.Prelude.{◌≡◌, IfOk, map, not, slice_set};
ghost use Rattle.hail_script.specs.Admission as admission;
ghost use Rattle.run_picture.specs.Steps as spec;

use crate::flights::{Flight, can_be};
use crate::lines::{is_cut, member_of};
use crate::steps::Step;
use cw_base::NoMemory;
use hail_script::EventLine;
use std::alloc::Global;

/// Whether a member is marked.
pub(crate) fn is_marked(marks: &[bool], member: u64) -> bool
    ensures { result ≡ admission.is_marked marks.now member }
{
    let member = member as usize;
    member < marks.len() && marks[member]
}

/// Those that aren't faulty.
pub(crate) fn honest(alloc: Global, faulty: &[bool]) -> Result<Vec<bool>, NoMemory>
    ensures { IfOk result (λ live. live.items ≡ map not faulty.now) }
{
    let mut live = Vec::new(alloc);
    for mark in faulty {
        live.push(!*mark)?;
    }
    Ok(live)
}

/// Whether a line asks a live member for what is there.
pub(crate) fn acts(flights: &[Flight], row: u16, live: &[bool], line: &EventLine) -> bool
    ensures { result ≡ spec.acts flights.now row live.now line.now }
{
    is_marked(live, member_of(line)) && can_be(flights, row, line)
}

/// Whether the member stops at the line.
pub(crate) fn stops(flights: &[Flight], row: u16, live: &[bool], line: &EventLine) -> bool
    ensures { result ≡ spec.stops flights.now row live.now line.now }
{
    is_cut(line) && acts(flights, row, live, line)
}

/// The live members behind a line.
pub(crate) fn pass(live: &mut Vec<bool>, flights: &[Flight], row: u16, step: &Step)
    ensures { live.new.items ≡ spec.live_after flights.now row live.old.items step.now }
{
    let member = member_of(step.line);
    if stops(flights, row, live, step.line) {
        mark(live, member, false);
    } else if step.found.is_some() {
        mark(live, member, true);
    }
}

fn mark(marks: &mut Vec<bool>, member: u64, value: bool)
    ensures { marks.new.items ≡ slice_set marks.old.items member value }
{
    let member = member as usize;
    if member < marks.len() {
        marks[member] = value;
    }
}
