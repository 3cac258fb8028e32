//! Votes and certificates that came.

ghost use Rattle.std.specs.Prelude.{◌≡◌, option_map, slice_get};
ghost use Rattle.cw_rules.specs.Accepted.{Many, Single};
ghost use Rattle.voter.specs.Known.{ballot_signers};

use cw_types::{Cert, Vote};
use std::marker::Model;

/// Which of the two it is.
#[derive(Drop)]
enum Kind {
    Single(u16, Vote),
    Many(Cert),
}

/// A vote or a certificate that came.
#[derive(Drop)]
pub(crate) struct Ballot {
    kind: Kind,
}

impl Model for Ballot {
    ghost use Rattle.cw_rules.specs.Accepted.{Ballot};

    ghost Value = { Ballot };

    ghost use Rattle.voter.specs.Kinds.{ballot_of};

    ghost view = { λ b. ballot_of b.kind };
}

impl Ballot {
    /// The vote of one member.
    pub(crate) fn single(signer: u16, vote: Vote) -> Ballot
        ensures { result ≡ Single signer vote }
    {
        Ballot {
            kind: Kind::Single(signer, vote),
        }
    }

    /// A certificate.
    pub(crate) fn many(cert: Cert) -> Ballot
        ensures { result ≡ Many cert }
    {
        Ballot {
            kind: Kind::Many(cert),
        }
    }

    /// The signers of a certificate; none of a single vote.
    pub(crate) fn signers(&self) -> &[u16]
        ensures { result.now ≡ ballot_signers self.now }
    {
        match &self.kind {
            Kind::Single(_, _) => &[],
            Kind::Many(cert) => cert.signers.as_slice(),
        }
    }
}

/// The one at a place.
pub(crate) fn ballot_at(ballots: &[Ballot], place: usize) -> Option<&Ballot>
    ensures { option_map (λ ballot. ballot.now) result ≡ slice_get ballots.now place }
{
    match ballots.get(place) {
        Some(ballot) => Some(ballot),
        None => None,
    }
}
