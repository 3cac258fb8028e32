//! The text of a report.

ghost use Rattle.std.specs.Prelude.{◌≡◌, IfOk};
ghost use Rattle.hail_report.specs.Text as spec;
ghost use Rattle.hailstorm.specs.Reports.{shown_report};

use crate::world::Report;
use cw_base::{Digest32, Hasher, NoMemory};
use node::Chunked;
use std::alloc::Global;

/// The whole text of a report, line by line: what each start gave, what each line gave, where each
/// member stands, the chain, and the number of lines. docs/FORMATS.md has each line's form.
pub fn report_text<H: Hasher<Digest = Digest32>>(
    alloc: Global,
    report: &Report<H>,
) -> Result<Vec<u8>, NoMemory>
    ensures { IfOk result
        (λ text. text.items ≡ spec.report_text H.digest_of (shown_report report.now)) }
{
    hail_world::report_text::<H, Chunked>(alloc, report)
}
