//! What stands beside a member: who signed what, and which blocks may follow which.

ghost use Rattle.std.specs.Prelude.{◌≡◌, ℕ, Bool, true, ⊤};
ghost use Rattle.cw_types.specs.declared.handoff.Handoff.TheVariants.{Wait};
ghost use Rattle.cw_types.specs.declared.vote.Vote.{Vote as VoteValue};
ghost use Rattle.cw_types.specs.Block.{Block};

use crate::block::ChainBlock;
use crate::handoff::Handoff;
use crate::vote::Vote;

/// Knows who signed what: a member's vote is signed only if that member signed it.
pub trait Verifier: Send + Sync {
    /// Whether a member signed a vote.
    ghost signs: { Self → ℕ → VoteValue → Bool };

    /// Whether the member signed the vote.
    fn signed(&self, member: u16, vote: &Vote) -> bool
        ensures { result ≡ signs self.now member vote.now };
}

/// Says which blocks may stand over which. Its answer is a function of the two blocks, so honest
/// members agree on it.
pub trait Application: Send + Sync {
    /// Whether the first block may stand over the second.
    ghost accepts: { Self → Block → Block → Bool };

    /// Where nothing is made ready ahead: always, unless an application says otherwise.
    ghost waits: { Self → Type 0 } = { λ application. ⊤ };

    /// Whether the block may stand over the other, its parent.
    fn verify(&self, block: &ChainBlock, parent: &ChainBlock) -> bool
        ensures { result ≡ accepts self.now block.now parent.now };

    /// Makes the next payload ready ahead. Nothing here asks for it.
    fn prepare(&self) -> Handoff<()>
        ensures { waits self.now → result ≡ Wait }
    {
        Handoff::Wait
    }
}

/// The application that accepts each block.
#[derive(Clone, Copy, Debug)]
pub struct AcceptAll;

impl Application for AcceptAll {
    ghost accepts = { λ _ _ _. true };

    fn verify(&self, _block: &ChainBlock, _parent: &ChainBlock) -> bool {
        true
    }
}
