//! Whether a certificate is valid.

ghost use Rattle.std.specs.Prelude.{◌≡◌, ℕ, Bool};
ghost use Rattle.cw_base.specs.declared.hash.Digest32.{Digest32};
ghost use Rattle.cw_rules.specs.Accepted as rule;
ghost use Rattle.cw_rules_coded.specs.Coded.{coded};
ghost use Rattle.cw_types.specs.Block.{Block};
ghost use Rattle.cw_types.specs.Epochs as epochs;
ghost use Rattle.std.specs.Prelude.{List};

use cw_types::{Cert, Committees, Verifier};

/// Whether a quorum of the members of its epoch, in the order of their numbers, signed the
/// certificate's well-formed vote.
pub fn is_valid<V: Verifier>(committees: &Committees, verifier: &V, cert: &Cert) -> bool
    ensures { (hash : List ℕ → Digest32) (backlog : ℕ) (accepts : Block → Block → Bool)
        → result ≡ rule.is_valid (coded hash committees.now backlog accepts)
        (V.signs verifier.now) cert.now }
{
    cw_types::is_valid(committees, verifier, cert)
}
