//! A lane for each member.

ghost use Rattle.std.specs.Prelude.{◌≡◌, ◌≤◌, ◌<◌, ◌^◌, ◌+◌, ◌++◌, OnOk, length, string_bytes};
ghost use Rattle.std.specs.Prelude.{map, not, true};
ghost use Rattle.run_picture.specs.Lanes as spec;

use crate::elements::{down, number_text, put_path, put_text};
use crate::flights::Flight;
use crate::frame::{x_of, y_of};
use crate::lines::member_of;
use crate::live::{honest, pass, stops};
use crate::steps::Step;
use cw_base::NoMemory;
use std::alloc::Global;

/// The lanes of all members, down to y.
pub(crate) fn put_lanes(
    alloc: Global,
    out: &mut String,
    y: u64,
    faulty: &[bool],
) -> Result<(), NoMemory>
    ensures { OnOk result
        (string_bytes out.new
        ≡ string_bytes out.old ++ spec.lanes_from (length faulty.now) y 0 faulty.now) }
{
    let total = faulty.len();
    for (member, mark) in faulty.iter().enumerate() {
        put_lane(
            alloc,
            out,
            x_of(total, member as u64),
            y,
            member as u64,
            *mark,
        )?;
    }
    Ok(())
}

fn put_lane(
    alloc: Global,
    out: &mut String,
    x: u64,
    y: u64,
    member: u64,
    is_faulty: bool,
) -> Result<(), NoMemory>
    ensures { OnOk result
        (string_bytes out.new ≡ string_bytes out.old ++ spec.lane_text x y member is_faulty) }
{
    let way = down(alloc, x, 132, y)?;
    let class = if is_faulty { "lane bad" } else { "lane" };
    put_path(out, &way, class)?;
    let number = number_text(alloc, member)?;
    put_text(out, x, 122, "head mid", &number)
}

/// Where members are stopped.
pub(crate) fn put_gaps(
    alloc: Global,
    out: &mut String,
    faulty: &[bool],
    flights: &[Flight],
    steps: &[Step],
) -> Result<(), NoMemory>
    requires { length steps.now ≤ 2000 }
    ensures { OnOk result
        (string_bytes out.new ≡ string_bytes out.old
        ++ spec.gaps_from (length faulty.now) flights.now 1 (map not faulty.now) steps.now) }
{
    let total = faulty.len();
    let mut live = honest(alloc, faulty)?;
    for (index, step) in steps.iter().enumerate() {
        let row = index as u16 + 1;
        if stops(flights, row, &live, step.line) {
            put_gap_at(alloc, out, total, row, step, &steps[index + 1..])?;
        }
        pass(&mut live, flights, row, step);
    }
    Ok(())
}

fn put_gap_at(
    alloc: Global,
    out: &mut String,
    total: usize,
    row: u16,
    step: &Step,
    more: &[Step],
) -> Result<(), NoMemory>
    requires { row + length more.now ≤ 2000 }
    ensures { OnOk result
        (string_bytes out.new
        ≡ string_bytes out.old ++ spec.gap_at total row step.now more.now true) }
{
    let member = member_of(step.line);
    let way = down(
        alloc,
        x_of(total, member),
        y_of(row),
        back_at(member, row + 1, more),
    )?;
    put_path(out, &way, "gap")?;
    put_path(out, &way, "stopped")
}

// Where the member is started again, of lines in rows from one on; else the rows' end.
fn back_at(member: u64, row: u16, steps: &[Step]) -> u64
    requires { row + length steps.now ≤ 2001 }
    ensures { result ≡ spec.back_at member row steps.now }
{
    for (index, step) in steps.iter().enumerate() {
        if is_back(member, step) {
            return y_of(row + index as u16);
        }
    }
    y_of(row + steps.len() as u16) - 10
}

fn is_back(member: u64, step: &Step) -> bool
    ensures { result ≡ spec.is_back member step.now }
{
    member_of(step.line) == member && step.found.is_some()
}
