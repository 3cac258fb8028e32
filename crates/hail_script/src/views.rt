//! How a view is told.

ghost use Rattle.std.specs.Prelude.{◌≡◌, IfOk, string_bytes};
ghost use Rattle.hail_script.specs.Views as spec;

use cw_base::NoMemory;
use std::alloc::Global;

/// A view V as reports and pictures tell it: `V`, or `E/V` for a view of an epoch E above 0.
#[tactic(auto, unfolding(crate::specs::Views::view_text))]
pub fn view_text(alloc: Global, epoch: u64, view: u64) -> Result<String, NoMemory>
    ensures { IfOk result (λ text. string_bytes text ≡ spec.view_text epoch view) }
{
    let mut text = String::new(alloc);
    if epoch == 0 {
        write!(text, "{view}")?;
        return Ok(text);
    }
    write!(text, "{epoch}/{view}")?;
    Ok(text)
}
