//! Proposals, votes and certificates.

ghost use Rattle.std.specs.Prelude.{◌≡◌, ◌++◌, ◌<◌, IfOk, OnOk, OnErr, take, length, flat_map};
ghost use Rattle.cw_base.specs.Bytes.{be16};
ghost use Rattle.cw_types.specs.Encoding.{cert_bytes, proposal_bytes, tag_bytes, vote_bytes};
ghost use Rattle.cw_types.specs.Same.{same_cert, same_proposal, same_vote};
ghost use Rattle.cw_types.specs.Reading.{proposal_at, later_epoch_at, later_at, notarize_at};
ghost use Rattle.cw_types.specs.Reading.{nullify_at, finalize_at, vote_at, signers_at, signed_at};
ghost use Rattle.cw_types.specs.Reading.{cert_at, vote_behind};
ghost use Rattle.cw_types.specs.Votes as votes;
ghost use Rattle.cw_base.specs.Ends.{IsEnd};
ghost use Rattle.cw_base.specs.Reading.{IsRead, IsRefused, Gives};

use crate::commitment::Commitment;
use cw_base::{CodecError, Items, NoMemory, Reader, put_be16, put_be64, put_u8, undo_refused};
use std::alloc::Global;

/// A block that is proposed in a view of an epoch, over the block of an earlier view.
#[derive(Clone, Copy, Debug, PartialEq, Eq)]
pub struct Proposal {
    /// The epoch that it is made in.
    pub epoch: u64,
    /// The view that it is made in.
    pub view: u64,
    /// The view of the block that it stands over.
    pub parent: u64,
    /// The commitment of the block.
    pub payload: Commitment,
}

/// What a member votes for.
#[derive(Clone, Copy, Debug, PartialEq, Eq)]
pub enum Vote {
    /// The block is there, and fits.
    Notarize(Proposal),
    /// The view ends without a block.
    Nullify { epoch: u64, view: u64 },
    /// The block stays.
    Finalize(Proposal),
}

/// A vote with the numbers of the members that signed it.
#[derive(Debug, Drop, PartialEq, Eq)]
pub struct Cert {
    /// What is signed.
    pub vote: Vote,
    /// The numbers of the members, in the order in which they are written. Where they don't rise,
    /// each above the one before, the certificate isn't valid.
    pub signers: Items<u16>,
}

impl Proposal {
    /// Whether the two are the same.
    #[tactic(auto, unfolding(crate::specs::Same::same_proposal))]
    pub fn is_same(&self, other: &Proposal) -> bool
        ensures { result ≡ same_proposal self.now other.now }
    {
        self.epoch == other.epoch
            && self.view == other.view
            && self.parent == other.parent
            && self.payload.is_same(&other.payload)
    }

    /// Appends its bytes, without its epoch: 8 of the view, 8 of the parent's, 100 of the payload's
    /// commitment. Where memory is short nothing changes.
    pub fn write(&self, out: &mut Vec<u8>) -> Result<(), NoMemory>
        ensures ok { OnOk result (out.new.items ≡ out.old.items ++ proposal_bytes self.now) }
        ensures err { OnErr result (out.new.items ≡ out.old.items) }
    {
        let start = out.len();
        let written = self.write_parts(out);
        undo_refused(out, start, written)
    }

    // What was written before memory ran short stays.
    #[tactic(auto, unfolding(crate::specs::Encoding::proposal_bytes))]
    fn write_parts(&self, out: &mut Vec<u8>) -> Result<(), NoMemory>
        ensures ok { OnOk result (out.new.items ≡ out.old.items ++ proposal_bytes self.now) }
        ensures err { OnErr result (take (length out.old.items) out.new.items ≡ out.old.items) }
    {
        put_be64(out, self.view)?;
        put_be64(out, self.parent)?;
        self.payload.write(out)?;
        Ok(())
    }

    /// The proposal at the front, of an epoch that is known: `Invalid` for a config with a zero,
    /// `EndOfBuffer` where it is cut.
    ///
    /// Refused, the reader stands behind the parts that were taken, a zero among them.
    #[tactic(auto, using(cw_base::proofs::Ends::end_of_end), unfolding(crate::specs::Reading::proposal_at))]
    pub fn read(reader: &mut Reader, epoch: u64) -> Result<Proposal, CodecError>
        ensures value { IsRead (λ proposal. proposal) result reader.new
            (proposal_at epoch reader.old) }
        ensures place { IsEnd reader.old reader.new }
    {
        let view = reader.be64()?;
        let parent = reader.be64()?;
        let payload = Commitment::read(reader)?;
        Ok(Proposal {
            epoch,
            view,
            parent,
            payload,
        })
    }
}

impl Vote {
    /// Whether the two are the same.
    #[tactic(auto, unfolding(crate::specs::Same::same_vote))]
    pub fn is_same(&self, other: &Vote) -> bool
        ensures { result ≡ same_vote self.now other.now }
    {
        match (self, other) {
            (Vote::Notarize(one), Vote::Notarize(two)) => one.is_same(two),
            (
                Vote::Nullify { epoch, view },
                Vote::Nullify {
                    epoch: other_epoch,
                    view: other_view,
                },
            ) => *epoch == *other_epoch && *view == *other_view,
            (Vote::Finalize(one), Vote::Finalize(two)) => one.is_same(two),
            _ => false,
        }
    }

    /// The epoch that it is cast in.
    pub fn epoch(&self) -> u64
        ensures { result ≡ votes.vote_epoch self.now }
    {
        match self {
            Vote::Notarize(proposal) => proposal.epoch,
            Vote::Nullify { epoch, .. } => *epoch,
            Vote::Finalize(proposal) => proposal.epoch,
        }
    }

    /// The view that it is cast in.
    pub fn view(&self) -> u64
        ensures { result ≡ votes.vote_view self.now }
    {
        match self {
            Vote::Notarize(proposal) => proposal.view,
            Vote::Nullify { view, .. } => *view,
            Vote::Finalize(proposal) => proposal.view,
        }
    }

    /// Appends its bytes: a tag, 8 of the epoch where it isn't 0, and what the vote is on. Where
    /// memory is short nothing changes.
    pub fn write(&self, out: &mut Vec<u8>) -> Result<(), NoMemory>
        ensures ok { OnOk result (out.new.items ≡ out.old.items ++ vote_bytes self.now) }
        ensures err { OnErr result (out.new.items ≡ out.old.items) }
    {
        let start = out.len();
        let written = self.write_parts(out);
        undo_refused(out, start, written)
    }

    // What was written before memory ran short stays.
    #[tactic(auto, unfolding(crate::specs::Encoding::vote_bytes))]
    fn write_parts(&self, out: &mut Vec<u8>) -> Result<(), NoMemory>
        ensures ok { OnOk result (out.new.items ≡ out.old.items ++ vote_bytes self.now) }
        ensures err { OnErr result (take (length out.old.items) out.new.items ≡ out.old.items) }
    {
        match self {
            Vote::Notarize(proposal) => {
                put_tag(out, 0, proposal.epoch)?;
                proposal.write(out)
            }
            Vote::Nullify { epoch, view } => {
                put_tag(out, 1, *epoch)?;
                put_be64(out, *view)
            }
            Vote::Finalize(proposal) => {
                put_tag(out, 2, proposal.epoch)?;
                proposal.write(out)
            }
        }
    }

    /// The vote at the front: `Invalid` for another tag, for a later epoch's tag with an epoch of 0
    /// behind it, and for a config with a zero; `EndOfBuffer` where it is cut.
    ///
    /// Refused, the reader stands behind the parts that were taken, a refused tag or value among
    /// them.
    #[tactic(auto, using(cw_base::proofs::Ends::end_of_end), unfolding(crate::specs::Reading::vote_at))]
    pub fn read(reader: &mut Reader) -> Result<Vote, CodecError>
        ensures value { IsRead (λ vote. vote) result reader.new (vote_at reader.old) }
        ensures place { IsEnd reader.old reader.new }
    {
        match reader.u8()? {
            0 => read_notarize(reader, 0),
            1 => read_nullify(reader, 0),
            2 => read_finalize(reader, 0),
            tag => read_later_vote(reader, tag),
        }
    }
}

// A vote of an epoch above 0, behind its tag.
#[tactic(auto, using(cw_base::proofs::Ends::end_of_end))]
fn read_later_vote(reader: &mut Reader, tag: u8) -> Result<Vote, CodecError>
    requires { 2 < tag }
    ensures value { IsRead (λ vote. vote) result reader.new (vote_behind tag reader.old) }
    ensures place { IsEnd reader.old reader.new }
{
    if tag > 5 {
        return Err(CodecError::Invalid);
    }
    let epoch = read_later_epoch(reader)?;
    match tag {
        3 => read_notarize(reader, epoch),
        4 => read_nullify(reader, epoch),
        _ => read_finalize(reader, epoch),
    }
}

// A vote for a proposal of an epoch.
#[tactic(auto, using(cw_base::proofs::Ends::end_of_end))]
fn read_notarize(reader: &mut Reader, epoch: u64) -> Result<Vote, CodecError>
    ensures value { IsRead (λ vote. vote) result reader.new (notarize_at epoch reader.old) }
    ensures place { IsEnd reader.old reader.new }
{
    Ok(Vote::Notarize(Proposal::read(reader, epoch)?))
}

// A vote to end a view of an epoch.
#[tactic(auto, using(cw_base::proofs::Ends::end_of_end))]
fn read_nullify(reader: &mut Reader, epoch: u64) -> Result<Vote, CodecError>
    ensures value { IsRead (λ vote. vote) result reader.new (nullify_at epoch reader.old) }
    ensures place { IsEnd reader.old reader.new }
{
    let view = reader.be64()?;
    Ok(Vote::Nullify { epoch, view })
}

// A vote to keep a proposal of an epoch.
#[tactic(auto, using(cw_base::proofs::Ends::end_of_end))]
fn read_finalize(reader: &mut Reader, epoch: u64) -> Result<Vote, CodecError>
    ensures value { IsRead (λ vote. vote) result reader.new (finalize_at epoch reader.old) }
    ensures place { IsEnd reader.old reader.new }
{
    Ok(Vote::Finalize(Proposal::read(reader, epoch)?))
}

// An epoch above 0.
#[tactic(auto, using(cw_base::proofs::Ends::end_of_end), unfolding(crate::specs::Reading::later_epoch_at))]
pub(crate) fn read_later_epoch(reader: &mut Reader) -> Result<u64, CodecError>
    ensures value { IsRead (λ epoch. epoch) result reader.new (later_epoch_at reader.old) }
    ensures place { IsEnd reader.old reader.new }
{
    let epoch = reader.be64()?;
    if epoch == 0 {
        return Err(CodecError::Invalid);
    }
    Ok(epoch)
}

impl Cert {
    /// Whether the two are the same.
    #[tactic(auto, unfolding(crate::specs::Same::same_cert))]
    pub fn is_same(&self, other: &Cert) -> bool
        ensures { result ≡ same_cert self.now other.now }
    {
        self.vote.is_same(&other.vote) && self.signers.as_slice() == other.signers.as_slice()
    }

    /// An equal certificate.
    pub fn copy(&self, alloc: Global) -> Result<Cert, NoMemory>
        ensures { IfOk result (λ copy. copy ≡ self.now) }
    {
        let signers = Vec::from_slice(alloc, self.signers.as_slice())?;
        Ok(Cert {
            vote: self.vote,
            signers: Items::from_vec(signers),
        })
    }

    /// Appends its bytes: its vote, 2 of the number of signers, and 2 of each. Where memory is
    /// short nothing changes.
    pub fn write(&self, out: &mut Vec<u8>) -> Result<(), NoMemory>
        ensures ok { OnOk result (out.new.items ≡ out.old.items ++ cert_bytes self.now) }
        ensures err { OnErr result (out.new.items ≡ out.old.items) }
    {
        let start = out.len();
        let written = self.write_parts(out);
        undo_refused(out, start, written)
    }

    // What was written before memory ran short stays.
    #[tactic(auto, unfolding(crate::specs::Encoding::cert_bytes))]
    fn write_parts(&self, out: &mut Vec<u8>) -> Result<(), NoMemory>
        ensures ok { OnOk result (out.new.items ≡ out.old.items ++ cert_bytes self.now) }
        ensures err { OnErr result (take (length out.old.items) out.new.items ≡ out.old.items) }
    {
        self.vote.write(out)?;
        put_be16(out, (self.signers.len() % 65536) as u16)?;
        put_signers(out, self.signers.as_slice())?;
        Ok(())
    }

    /// The certificate at the front: `Invalid` as for its vote, `EndOfBuffer` where it is cut.
    ///
    /// Refused, the reader stands behind the parts that were taken, a refused tag or value among
    /// them. For want of memory it is refused only where a whole certificate stands there, and all
    /// of it is taken.
    #[tactic(auto, using(cw_base::proofs::Ends::end_of_end), unfolding(crate::specs::Reading::cert_at))]
    pub fn read(alloc: Global, reader: &mut Reader) -> Result<Cert, CodecError>
        ensures value { Gives (λ cert. cert) result reader.new (cert_at reader.old) }
        ensures place { IsEnd reader.old reader.new }
    {
        let vote = Vote::read(reader)?;
        match read_signed(alloc, reader, vote) {
            Ok(cert) => Ok(cert),
            Err(error) => Err(error),
        }
    }
}

// The signers of a vote, behind their number.
#[tactic(auto, using(cw_base::proofs::Ends::end_of_end), unfolding(crate::specs::Reading::signed_at))]
pub(crate) fn read_signed(
    alloc: Global,
    reader: &mut Reader,
    vote: Vote,
) -> Result<Cert, CodecError>
    ensures value { Gives (λ cert. cert) result reader.new (signed_at vote reader.old) }
    ensures place { IsEnd reader.old reader.new }
{
    let count = reader.be16()?;
    match read_signers(alloc, reader, count) {
        Ok(signers) => Ok(Cert { vote, signers }),
        Err(error) => Err(error),
    }
}

// So many members' numbers.
#[tactic(auto, using(cw_base::proofs::Ends::ends))]
fn read_signers(alloc: Global, reader: &mut Reader, count: u16) -> Result<Items<u16>, CodecError>
    ensures value { Gives (λ signers. signers) result reader.new (signers_at count reader.old) }
    ensures place { IsEnd reader.old reader.new }
{
    let mut signers = Items::new(alloc);
    for i in 0..count {
        match reader.be16() {
            Ok(signer) => match signers.push(signer) {
                Ok(()) => {}
                Err(NoMemory) => return Err(skip_signers(reader, count - i - 1)),
            },
            Err(error) => return Err(error),
        }
    }
    Ok(signers)
}

// Why so many numbers are not read that there is no memory for: where they are cut, for that.
#[tactic(auto, using(cw_base::proofs::Ends::ends))]
fn skip_signers(reader: &mut Reader, count: u16) -> CodecError
    ensures value { IsRefused result reader.new (signers_at count reader.old) }
    ensures place { IsEnd reader.old reader.new }
{
    for i in 0..count {
        match reader.be16() {
            Ok(_) => {}
            Err(error) => return error,
        }
    }
    CodecError::NoMemory
}

// Two bytes of each.
fn put_signers(out: &mut Vec<u8>, signers: &[u16]) -> Result<(), NoMemory>
    ensures ok { OnOk result (out.new.items ≡ out.old.items ++ flat_map be16 signers.now) }
    ensures err { OnErr result (take (length out.old.items) out.new.items ≡ out.old.items) }
{
    for signer in signers {
        put_be16(out, *signer)?;
    }
    Ok(())
}

// The tag of a vote, and the epoch where it isn't 0.
#[tactic(auto, unfolding(crate::specs::Encoding::tag_bytes))]
fn put_tag(out: &mut Vec<u8>, tag: u8, epoch: u64) -> Result<(), NoMemory>
    requires { tag < 3 }
    ensures ok { OnOk result (out.new.items ≡ out.old.items ++ tag_bytes tag epoch) }
    ensures err { OnErr result (take (length out.old.items) out.new.items ≡ out.old.items) }
{
    if epoch == 0 {
        put_u8(out, tag)?;
        return Ok(());
    }
    put_u8(out, tag + 3)?;
    put_be64(out, epoch)?;
    Ok(())
}

/// Whether a vote may be counted: its view is from 1 to 2^64 - 2, and the view that its proposal
/// stands over is below it.
pub fn well_formed(vote: &Vote) -> bool
    ensures { result ≡ votes.well_formed vote.now }
{
    match vote {
        Vote::Notarize(proposal) => is_ordered(proposal),
        Vote::Nullify { view, .. } => is_view(*view),
        Vote::Finalize(proposal) => is_ordered(proposal),
    }
}

// A view that may be voted in.
fn is_view(view: u64) -> bool
    ensures { result ≡ votes.is_view view }
{
    0 < view && view < u64::MAX
}

// A proposal of such a view, over an earlier one.
pub(crate) fn is_ordered(proposal: &Proposal) -> bool
    ensures { result ≡ votes.is_ordered proposal.now }
{
    is_view(proposal.view) && proposal.parent < proposal.view
}
