//! Whose signatures of a vote a host has checked.

ghost use Rattle.std.specs.Prelude.{◌≡◌, ◌==◌};
ghost use Rattle.std.specs.List.{list_any};
ghost use Rattle.member_lines.specs.Claims.{claims, is_of_vote, no_claim};

use cw_base::Items;
use cw_types::{Verifier, Vote};
use std::alloc::Global;

/// What a host vouches for beside a message: these members signed this vote. Without a vote nobody
/// signed anything.
#[derive(Debug, Drop)]
pub struct Claim {
    /// The vote that was signed.
    pub vote: Option<Vote>,
    /// The members whose signatures of it were checked.
    pub signers: Items<u16>,
}

impl Claim {
    /// A claim of nothing. It takes no memory.
    pub fn nothing(alloc: Global) -> Claim
        ensures { result ≡ no_claim }
    {
        Claim {
            vote: None,
            signers: Items::new(alloc),
        }
    }

    fn is_of(&self, vote: &Vote) -> bool
        ensures { result ≡ is_of_vote self.now.vote vote.now }
    {
        match &self.vote {
            Some(claimed) => claimed.is_same(vote),
            None => false,
        }
    }

    fn has_signer(&self, member: u16) -> bool
        ensures { result ≡ list_any (λ signer. signer == member) self.now.signers }
    {
        self.signers
            .as_slice()
            .iter()
            .any(|signer| *signer == member)
    }
}

/// A message names one vote at most, so a claim of one vote is all that a step asks of who signed
/// what.
impl Verifier for Claim {
    ghost use Rattle.member_lines.specs.Claims.{claims};

    ghost signs = { claims };

    fn signed(&self, member: u16, vote: &Vote) -> bool {
        self.is_of(vote) && self.has_signer(member)
    }
}
