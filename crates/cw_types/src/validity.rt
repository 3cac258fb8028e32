//! Whether a certificate is valid.

ghost use Rattle.std.specs.Prelude.{◌≡◌, ◌&&◌};
ghost use Rattle.std.specs.List.{list_all};
ghost use Rattle.cw_types.specs.Epochs as epochs;
ghost use Rattle.cw_types.specs.Valid as valid;
ghost use Rattle.cw_types.specs.Votes.{vote_epoch};

use crate::application::Verifier;
use crate::committees::Committees;
use crate::vote::{Cert, Vote, well_formed};

/// Whether a quorum of the members of its epoch, in the order of their numbers, signed the
/// certificate's well-formed vote. Takes no memory.
pub fn is_valid<V: Verifier>(committees: &Committees, verifier: &V, cert: &Cert) -> bool
    ensures { result ≡ valid.is_valid committees.now (V.signs verifier.now) cert.now }
{
    // The dearest test comes last.
    let signers = cert.signers.as_slice();
    well_formed(&cert.vote)
        && committees.is_enough(cert.vote.epoch(), signers.len())
        && rises(0, signers)
        && all_signed(committees, verifier, &cert.vote, signers)
}

// Whether the numbers rise from `low` on.
fn rises(low: u32, numbers: &[u16]) -> bool
    ensures { result ≡ epochs.rises_from low numbers.now }
{
    let mut least = low;
    for number in numbers {
        if u32::from(*number) < least {
            return false;
        }
        least = u32::from(*number) + 1;
    }
    true
}

// Whether each of them is a member of the vote's epoch and signed it.
fn all_signed<V: Verifier>(
    committees: &Committees,
    verifier: &V,
    vote: &Vote,
    signers: &[u16],
) -> bool
    ensures { result ≡ list_all
        (λ i. epochs.is_member committees.now (vote_epoch vote.now) i
        && V.signs verifier.now i vote.now) signers.now }
{
    signers
        .iter()
        .all(|signer| is_signed(committees, verifier, vote, *signer))
}

// Whether the member is one of the vote's epoch and signed it.
fn is_signed<V: Verifier>(committees: &Committees, verifier: &V, vote: &Vote, signer: u16) -> bool
    ensures { result ≡ (epochs.is_member committees.now (vote_epoch vote.now) signer
        && V.signs verifier.now signer vote.now) }
{
    committees.is_member(vote.epoch(), signer) && verifier.signed(signer, vote)
}
