//! The votes and proposals that notes name.

ghost use Rattle.std.specs.Prelude.{◌≡◌, option_map};
ghost use Rattle.cw_rules.specs.Owed as owed;
ghost use Rattle.cw_types.specs.Votes as votes;

use cw_types::{Note, Proposal, Vote};

/// The vote that a note names: the member's own, or that of a certificate.
pub fn vote_of(note: &Note) -> Option<Vote>
    ensures { result ≡ owed.note_vote note.now }
{
    match note {
        Note::Vote(vote) => Some(*vote),
        Note::Cert(cert) => Some(cert.vote),
        _ => None,
    }
}

/// The proposal that a note names, where it stands: that of a vote, of a certificate, or a
/// certified one.
pub fn proposal_of(note: &Note) -> Option<&Proposal>
    ensures { option_map (λ proposal. proposal.now) result ≡ owed.note_proposal note.now }
{
    match note {
        Note::Vote(vote) => voted_proposal(vote),
        Note::Cert(cert) => voted_proposal(&cert.vote),
        Note::Certified(proposal) => Some(proposal),
        _ => None,
    }
}

/// The proposal that a vote is on, where it stands: none of a vote to nullify.
pub fn voted_proposal(vote: &Vote) -> Option<&Proposal>
    ensures { option_map (λ proposal. proposal.now) result ≡ votes.proposal_of vote.now }
{
    match vote {
        Vote::Notarize(proposal) => Some(proposal),
        Vote::Nullify { .. } => None,
        Vote::Finalize(proposal) => Some(proposal),
    }
}
