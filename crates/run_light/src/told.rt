//! What a light client is told of what was found.

ghost use Rattle.std.specs.Prelude.{◌≡◌, Bool, ℕ, IfOk};
ghost use Rattle.cw_base.specs.declared.hash.Digest32.{Digest32 as DigestValue};
ghost use Rattle.cw_light.specs.Checking.{light_answer};
ghost use Rattle.cw_rules_coded.specs.Coded.{coded};
ghost use Rattle.cw_types.specs.Block.{Block};

use crate::search::Shown;
use cw_base::{Digest32, Hasher, NoMemory, Strategy};
use cw_light::{Answer, light_check};
use cw_types::{Committees, Verifier};
use std::alloc::Global;
use std::thread::Threads;

/// The height and the digest that a light client is told of a finalization and its path.
pub(crate) fn told_of<H: Hasher<Digest = Digest32>, R: Threads + Sync, V: Verifier, S: Strategy>(
    rt: &R,
    alloc: Global,
    committees: &Committees,
    verifier: &V,
    shown: &Shown,
    strategy: &S,
) -> Result<(u64, Digest32), NoMemory>
    requires { (backlog : ℕ) × (accepts : Block → Block → Bool) × (height : ℕ) × (d : DigestValue)
        × (light_answer (coded H.digest_of committees.now backlog accepts) (V.signs verifier.now)
        shown.now.cert shown.now.path ≡ Answer.Yes height d) }
    ensures { (backlog : ℕ) (accepts : Block → Block → Bool) (height : ℕ) (d : DigestValue)
        → light_answer (coded H.digest_of committees.now backlog accepts) (V.signs verifier.now)
        shown.now.cert shown.now.path ≡ Answer.Yes height d
        → IfOk result (λ told. told ≡ (height, d)) }
{
    let path = shown.path.as_slice();
    match light_check::<H, R, V, S>(rt, alloc, committees, &shown.cert, path, verifier, strategy)? {
        Answer::Yes { height, digest } => Ok((height, digest)),
        _ => unreachable!(),
    }
}
