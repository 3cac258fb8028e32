//! What a light client is told about a certificate and the blocks below it.

ghost use Rattle.std.specs.Prelude.{◌≡◌, ℕ, Bool, IfOk, if◌then◌else◌, None};
ghost use Rattle.cw_rules_coded.specs.Coded.{coded};
ghost use Rattle.cw_types.specs.Block.{Block};
ghost use Rattle.cw_types.specs.Votes as votes;
ghost use Rattle.cw_light.specs.Checking.{light_answer, path_answer};

use crate::path::broken_at;
use crate::signers::is_valid;
use cw_base::{Digest32, Hasher, NoMemory, Strategy};
use cw_types::{Cert, ChainBlock, Commitment, Committees, Proposal, Verifier, Vote, well_formed};
use std::alloc::Global;
use std::thread::Threads;

/// What a light client is told: the first of these that holds.
#[derive(Clone, Copy, Debug, PartialEq, Eq)]
pub enum Answer {
    /// The certificate's vote isn't a well-formed vote to finalize.
    NotFinal,
    /// The certificate isn't valid: its signers don't rise, or are fewer than a quorum of the
    /// epoch, or one of them isn't a member of the epoch or didn't sign the vote.
    BadSigners,
    /// There is no block.
    EmptyPath,
    /// The first place of the path, from 0, where the block isn't the one that is wanted.
    Broken(u64),
    /// The path leads down from what is finalized. Its last block has this height and digest.
    Yes { height: u64, digest: Digest32 },
}

/// Checks a finalization, and a path of blocks that goes from the finalized one down to the one
/// that is asked for.
///
/// At place 0 the block is wanted that the vote's payload names, and at each later place the parent
/// that the block before names, one height lower. Genesis has a commitment of its own; every other
/// block is named by `commit` among the members of its epoch.
///
/// A part of `crates/use_products`, which also has a forged signer refused:
///
/// ```text
/// let told = light_check::<Sha256, _, _, _>(rt, alloc, &all, &cert, &path, &signed, &Sequential)?;
/// if let Answer::Yes { height, digest } = told {
///     println!(rt; "height {height} is {digest}")?;
/// }
/// ```
pub fn light_check<H: Hasher<Digest = Digest32>, R: Threads + Sync, V: Verifier, S: Strategy>(
    rt: &R,
    alloc: Global,
    committees: &Committees,
    cert: &Cert,
    path: &[ChainBlock],
    verifier: &V,
    strategy: &S,
) -> Result<Answer, NoMemory>
    ensures { (backlog : ℕ) (accepts : Block → Block → Bool)
        → IfOk result
        (λ told. told ≡ light_answer (coded H.digest_of committees.now backlog accepts)
        (V.signs verifier.now) cert.now path.now) }
{
    let Some(proposal) = finalized(&cert.vote) else {
        return Ok(Answer::NotFinal);
    };
    if !is_valid(committees, verifier, cert) {
        return Ok(Answer::BadSigners);
    }
    check_path::<H, R, S>(rt, alloc, committees, &proposal.payload, path, strategy)
}

// The proposal of a well-formed vote to finalize.
fn finalized(vote: &Vote) -> Option<Proposal>
    ensures { result ≡ (if votes.well_formed vote.now then votes.finalized vote.now else None) }
{
    if !well_formed(vote) {
        return None;
    }
    match vote {
        Vote::Finalize(proposal) => Some(*proposal),
        _ => None,
    }
}

// What is told about a path whose first block is to be the one that a commitment names.
fn check_path<H: Hasher<Digest = Digest32>, R: Threads + Sync, S: Strategy>(
    rt: &R,
    alloc: Global,
    committees: &Committees,
    commitment: &Commitment,
    path: &[ChainBlock],
    strategy: &S,
) -> Result<Answer, NoMemory>
    ensures { (backlog : ℕ) (accepts : Block → Block → Bool)
        → IfOk result (λ told. told ≡ path_answer (coded H.digest_of committees.now backlog accepts)
        commitment.now path.now) }
{
    let Some(last) = path.last() else {
        return Ok(Answer::EmptyPath);
    };
    match broken_at::<H, R, S>(rt, alloc, committees, commitment, path, strategy)? {
        Some(place) => Ok(Answer::Broken(place)),
        None => Ok(Answer::Yes {
            height: last.height(),
            digest: last.digest::<H>(alloc)?,
        }),
    }
}
