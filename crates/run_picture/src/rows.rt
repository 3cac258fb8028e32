//! The lines of the script, one below the other.

ghost use Rattle.std.specs.Prelude.{◌≡◌, ◌≤◌, ◌++◌, OnOk, length, string_bytes};
ghost use Rattle.run_picture.specs.Rows as spec;

use crate::elements::{across, number_text, put_path, put_text};
use crate::frame::{x_of, y_of};
use crate::lines::{line_class, line_text, member_of};
use crate::steps::Step;
use cw_base::NoMemory;
use std::alloc::Global;

/// The rows of all lines, in a picture of so many members.
pub(crate) fn put_rows(
    alloc: Global,
    out: &mut String,
    total: usize,
    steps: &[Step],
) -> Result<(), NoMemory>
    requires { length steps.now ≤ 2000 }
    ensures { OnOk result
        (string_bytes out.new ≡ string_bytes out.old ++ spec.rows_from total 1 steps.now) }
{
    for (index, step) in steps.iter().enumerate() {
        put_row(alloc, out, total, index as u16 + 1, step)?;
    }
    Ok(())
}

fn put_row(
    alloc: Global,
    out: &mut String,
    total: usize,
    row: u16,
    step: &Step,
) -> Result<(), NoMemory>
    ensures { OnOk result
        (string_bytes out.new ≡ string_bytes out.old ++ spec.row_text total row step.now) }
{
    let y = y_of(row);
    let number = number_text(alloc, step.number)?;
    put_text(out, 38, y + 4, "dim end", &number)?;
    let words = line_text(alloc, step.line)?;
    put_text(out, 46, y + 4, line_class(step.line), &words)?;
    let way = across(alloc, 240, y, x_of(total, member_of(step.line)))?;
    put_path(out, &way, "guide")
}
