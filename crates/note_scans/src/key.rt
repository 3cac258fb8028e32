//! What names a vote in a map, or something that notes say of a proposal or a view.

ghost use Rattle.std.specs.Prelude.{◌≡◌};
ghost use Rattle.note_scans.specs.Keys.{in_view, key_of, keyed, no_payload};

use cw_base::{Config, Digest, Digest32};
use cw_types::{Commitment, Proposal, Vote};
use std::num::NonZeroU16;

/// The kind of a vote, and what it is on: of one to nullify an epoch and a view. Votes have one key
/// exactly where they are the same. Kinds above 2 are of what notes say otherwise. It stands in the
/// keys of maps, so it is ordered: by its fields, in their order.
#[derive(Clone, Copy, Debug, PartialEq, Eq, PartialOrd, Ord)]
pub struct VoteKey {
    /// 0 to notarize, 1 to nullify, 2 to finalize, above that as its user says.
    pub kind: u8,
    /// The epoch that it is of.
    pub epoch: u64,
    /// The view that it is of.
    pub view: u64,
    /// The view of the proposal's parent, 0 where there is no proposal.
    pub parent: u64,
    /// The proposal's payload, or the commitment of zeros where there is no proposal.
    pub payload: Commitment,
}

// What stands in the key of a vote that is on no payload.
fn no_payload() -> Commitment
    ensures { result ≡ no_payload }
{
    Commitment {
        block: Digest32::EMPTY,
        root: Digest32::EMPTY,
        context: Digest32::EMPTY,
        config: Config {
            minimum_shards: NonZeroU16::MIN,
            extra_shards: NonZeroU16::MIN,
        },
    }
}

impl VoteKey {
    /// What is of this kind of a proposal.
    pub fn on(kind: u8, proposal: &Proposal) -> VoteKey
        ensures { result ≡ keyed kind proposal.now }
    {
        VoteKey {
            kind,
            epoch: proposal.epoch,
            view: proposal.view,
            parent: proposal.parent,
            payload: proposal.payload,
        }
    }

    /// What is of this kind of a view of an epoch.
    pub fn in_view(kind: u8, epoch: u64, view: u64) -> VoteKey
        ensures { result ≡ in_view kind epoch view }
    {
        VoteKey {
            kind,
            epoch,
            view,
            parent: 0,
            payload: no_payload(),
        }
    }

    /// That of a vote.
    pub fn new(vote: &Vote) -> VoteKey
        ensures { result ≡ key_of vote.now }
    {
        match vote {
            Vote::Notarize(proposal) => VoteKey::on(0, proposal),
            Vote::Nullify { epoch, view } => VoteKey::in_view(1, *epoch, *view),
            Vote::Finalize(proposal) => VoteKey::on(2, proposal),
        }
    }
}
