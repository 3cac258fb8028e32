//! The lines of what is shown.

ghost use Rattle.std.specs.Prelude.{◌≡◌, IfOk};
ghost use Rattle.run_light.specs.Telling as spec;

use cw_base::{Digest32, NoMemory};
use std::alloc::Global;

/// `yes H DIGEST`.
#[tactic(auto, unfolding(crate::specs::Telling::yes_line))]
pub(crate) fn yes_text(alloc: Global, height: u64, digest: &Digest32) -> Result<Vec<u8>, NoMemory>
    ensures { IfOk result (λ text. text.items ≡ spec.yes_line height digest.now) }
{
    let mut out = String::new(alloc);
    let digest = hex::encode(alloc, digest.0.as_slice())?;
    write!(out, "yes {height} {digest}\n")?;
    Ok(out.into_bytes())
}

/// `none`.
#[tactic(auto, unfolding(crate::specs::Telling::none_line))]
pub(crate) fn none_text(alloc: Global) -> Result<Vec<u8>, NoMemory>
    ensures { IfOk result (λ text. text.items ≡ spec.none_line) }
{
    let mut out = String::new(alloc);
    write!(out, "none\n")?;
    Ok(out.into_bytes())
}
