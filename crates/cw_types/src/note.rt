//! What a member writes down, and keeps its word by.

ghost use Rattle.std.specs.Prelude.{◌≡◌, ◌∷◌, ◌++◌, ◌<◌, ◌≤◌, IfOk, IfSome, OnOk, OnErr, take};
ghost use Rattle.std.specs.Prelude.{length};
ghost use Rattle.cw_base.specs.Bytes.{be64};
ghost use Rattle.cw_types.specs.Encoding.{epoch_tag_bytes, note_bytes};
ghost use Rattle.cw_types.specs.Reading.{note_behind, block_note_at, certified_at, cert_note_at};
ghost use Rattle.cw_types.specs.Reading.{entered_at, formed_vote_at, note_at, ordered_at};
ghost use Rattle.cw_types.specs.Reading.{verified_at};
ghost use Rattle.cw_base.specs.Ends.{IsEnd};
ghost use Rattle.cw_base.specs.Reading.{IsRead, Gives};

use crate::block::{ChainBlock, read_block, read_height};
use crate::commitment::Commitment;
use crate::vote::{Cert, Proposal, Vote, is_ordered, read_later_epoch, read_signed, well_formed};
use bytes::Bytes;
use cw_base::{CodecError, NoMemory, Reader, put_be64, put_u8, undo_refused};
use std::alloc::Global;

/// A note of a member.
#[derive(Debug, Drop, PartialEq, Eq)]
pub enum Note {
    /// A block, under its commitment.
    Block(Commitment, ChainBlock),
    /// A block that the member proposed: its epoch, its view and its commitment.
    Verified(u64, u64, Commitment),
    /// A notarized proposal whose block fits.
    Certified(Proposal),
    /// A vote of its own.
    Vote(Vote),
    /// Enough members signed a vote.
    Cert(Cert),
    /// The height of a block that was handed out and acknowledged.
    Ack(u64),
    /// Heights below it are given up, unless they were handed out.
    Floor(u64),
    /// Blocks below it, but for the first one, are hidden.
    Prune(u64),
    /// The epoch that it entered, and the commitment of the last block of the epoch before.
    Epoch(u64, Commitment),
}

impl Note {
    /// An equal note.
    pub fn copy(&self, alloc: Global) -> Result<Note, NoMemory>
        ensures { IfOk result (λ copy. copy ≡ self.now) }
    {
        match self {
            Note::Block(commitment, block) => Ok(Note::Block(*commitment, block.copy(alloc)?)),
            Note::Verified(epoch, view, commitment) => {
                Ok(Note::Verified(*epoch, *view, *commitment))
            }
            Note::Certified(proposal) => Ok(Note::Certified(*proposal)),
            Note::Vote(vote) => Ok(Note::Vote(*vote)),
            Note::Cert(cert) => Ok(Note::Cert(cert.copy(alloc)?)),
            Note::Ack(height) => Ok(Note::Ack(*height)),
            Note::Floor(height) => Ok(Note::Floor(*height)),
            Note::Prune(height) => Ok(Note::Prune(*height)),
            Note::Epoch(epoch, commitment) => Ok(Note::Epoch(*epoch, *commitment)),
        }
    }

    /// Appends its bytes: a tag, and its fields. Where memory is short nothing changes.
    pub fn write(&self, out: &mut Vec<u8>) -> Result<(), NoMemory>
        ensures ok { OnOk result (out.new.items ≡ out.old.items ++ note_bytes self.now) }
        ensures err { OnErr result (out.new.items ≡ out.old.items) }
    {
        let start = out.len();
        let written = self.write_parts(out);
        undo_refused(out, start, written)
    }

    // What was written before memory ran short stays.
    #[tactic(auto, unfolding(crate::specs::Encoding::note_bytes))]
    fn write_parts(&self, out: &mut Vec<u8>) -> Result<(), NoMemory>
        ensures ok { OnOk result (out.new.items ≡ out.old.items ++ note_bytes self.now) }
        ensures err { OnErr result (take (length out.old.items) out.new.items ≡ out.old.items) }
    {
        match self {
            Note::Block(commitment, block) => {
                put_u8(out, 0)?;
                commitment.write(out)?;
                block.write(out)
            }
            Note::Verified(epoch, view, commitment) => {
                put_epoch_tag(out, 1, 10, *epoch)?;
                put_be64(out, *view)?;
                commitment.write(out)
            }
            Note::Certified(proposal) => {
                put_epoch_tag(out, 2, 9, proposal.epoch)?;
                proposal.write(out)
            }
            Note::Vote(vote) => {
                put_u8(out, 3)?;
                vote.write(out)
            }
            Note::Cert(cert) => {
                put_u8(out, 4)?;
                cert.write(out)
            }
            Note::Ack(height) => put_number(out, 5, *height),
            Note::Floor(height) => put_number(out, 6, *height),
            Note::Prune(height) => put_number(out, 7, *height),
            Note::Epoch(epoch, commitment) => {
                put_number(out, 8, *epoch)?;
                commitment.write(out)
            }
        }
    }

    /// The note at the front: `Invalid` for another tag, for a later epoch's tag with an epoch of 0
    /// behind it, for a vote or a proposal that isn't well formed, for a height of 2^64 - 1 and for
    /// a config with a zero; `InvalidVarint`, `TooLong` and `EndOfBuffer` as for its block.
    ///
    /// Refused, the reader stands behind the parts that were taken, a refused tag or value among
    /// them. For want of memory it is refused only where a whole note stands there, and all of it
    /// is taken.
    pub fn read(alloc: Global, reader: &mut Reader) -> Result<Note, CodecError>
        ensures value { Gives (λ note. note) result reader.new (note_at reader.old) }
        ensures place { IsEnd reader.old reader.new }
    {
        read_note(alloc, None, reader)
    }

    /// The same, of a reader that stands in a text whose bytes are shared: a block's payload keeps
    /// a part of that text, so none of its bytes is copied.
    pub fn read_shared(alloc: Global, text: &Bytes, reader: &mut Reader) -> Result<Note, CodecError>
        requires { IsEnd text.now reader.old }
        ensures value { Gives (λ note. note) result reader.new (note_at reader.old) }
        ensures place { IsEnd reader.old reader.new }
    {
        read_note(alloc, Some(text), reader)
    }
}

// A note at the front, of a shared text if there is one.
#[tactic(auto, using(cw_base::proofs::Ends::end_of_end), unfolding(crate::specs::Reading::note_at))]
fn read_note(alloc: Global, text: Option<&Bytes>, reader: &mut Reader) -> Result<Note, CodecError>
    requires { IfSome text (λ text. IsEnd text.now reader.old) }
    ensures value { Gives (λ note. note) result reader.new (note_at reader.old) }
    ensures place { IsEnd reader.old reader.new }
{
    match reader.u8()? {
        0 => read_block_note(alloc, text, reader),
        1 => read_verified(reader, 0),
        2 => read_certified(reader, 0),
        3 => Ok(Note::Vote(read_formed_vote(reader)?)),
        4 => read_cert_note(alloc, reader),
        5 => Ok(Note::Ack(read_height(reader)?)),
        6 => Ok(Note::Floor(read_height(reader)?)),
        7 => Ok(Note::Prune(read_height(reader)?)),
        tag => read_later_note(reader, tag),
    }
}

// A note of an epoch above 0, behind its tag.
#[tactic(auto, using(cw_base::proofs::Ends::end_of_end))]
fn read_later_note(reader: &mut Reader, tag: u8) -> Result<Note, CodecError>
    requires { 7 < tag }
    ensures value { IsRead (λ note. note) result reader.new (note_behind tag reader.old) }
    ensures place { IsEnd reader.old reader.new }
{
    if tag > 10 {
        return Err(CodecError::Invalid);
    }
    let epoch = read_later_epoch(reader)?;
    match tag {
        8 => read_entered(reader, epoch),
        9 => read_certified(reader, epoch),
        _ => read_verified(reader, epoch),
    }
}

// A block behind its commitment.
#[tactic(auto, using(cw_base::proofs::Ends::end_of_end))]
fn read_block_note(
    alloc: Global,
    text: Option<&Bytes>,
    reader: &mut Reader,
) -> Result<Note, CodecError>
    requires { IfSome text (λ text. IsEnd text.now reader.old) }
    ensures value { Gives (λ note. note) result reader.new (block_note_at reader.old) }
    ensures place { IsEnd reader.old reader.new }
{
    let commitment = Commitment::read(reader)?;
    let block = read_block(alloc, text, reader)?;
    Ok(Note::Block(commitment, block))
}

// The view and the commitment of a block that was proposed in an epoch.
#[tactic(auto, using(cw_base::proofs::Ends::end_of_end))]
fn read_verified(reader: &mut Reader, epoch: u64) -> Result<Note, CodecError>
    ensures value { IsRead (λ note. note) result reader.new (verified_at epoch reader.old) }
    ensures place { IsEnd reader.old reader.new }
{
    let view = reader.be64()?;
    let commitment = Commitment::read(reader)?;
    Ok(Note::Verified(epoch, view, commitment))
}

// A proposal of an epoch that is well formed.
#[tactic(auto, using(cw_base::proofs::Ends::end_of_end), unfolding(crate::specs::Reading::ordered_at))]
fn read_certified(reader: &mut Reader, epoch: u64) -> Result<Note, CodecError>
    ensures value { IsRead (λ note. note) result reader.new (certified_at epoch reader.old) }
    ensures place { IsEnd reader.old reader.new }
{
    let proposal = Proposal::read(reader, epoch)?;
    if !is_ordered(&proposal) {
        return Err(CodecError::Invalid);
    }
    Ok(Note::Certified(proposal))
}

// The commitment that an epoch is entered over.
#[tactic(auto, using(cw_base::proofs::Ends::end_of_end))]
fn read_entered(reader: &mut Reader, epoch: u64) -> Result<Note, CodecError>
    ensures value { IsRead (λ note. note) result reader.new (entered_at epoch reader.old) }
    ensures place { IsEnd reader.old reader.new }
{
    Ok(Note::Epoch(epoch, Commitment::read(reader)?))
}

// A vote that is well formed.
#[tactic(auto, using(cw_base::proofs::Ends::end_of_end), unfolding(crate::specs::Reading::formed_vote_at))]
fn read_formed_vote(reader: &mut Reader) -> Result<Vote, CodecError>
    ensures value { IsRead (λ vote. vote) result reader.new (formed_vote_at reader.old) }
    ensures place { IsEnd reader.old reader.new }
{
    let vote = Vote::read(reader)?;
    if !well_formed(&vote) {
        return Err(CodecError::Invalid);
    }
    Ok(vote)
}

// A certificate of a vote that is well formed.
#[tactic(auto, using(cw_base::proofs::Ends::end_of_end))]
fn read_cert_note(alloc: Global, reader: &mut Reader) -> Result<Note, CodecError>
    ensures value { Gives (λ note. note) result reader.new (cert_note_at reader.old) }
    ensures place { IsEnd reader.old reader.new }
{
    let vote = read_formed_vote(reader)?;
    let cert = read_signed(alloc, reader, vote)?;
    Ok(Note::Cert(cert))
}

// A tag, and a number of eight bytes.
fn put_number(out: &mut Vec<u8>, tag: u8, number: u64) -> Result<(), NoMemory>
    ensures ok { OnOk result (out.new.items ≡ out.old.items ++ tag ∷ be64 number) }
    ensures err { OnErr result (take (length out.old.items) out.new.items ≡ out.old.items) }
{
    put_u8(out, tag)?;
    put_be64(out, number)?;
    Ok(())
}

// The tag of a note of epoch 0, or another tag and the epoch.
#[tactic(auto, unfolding(crate::specs::Encoding::epoch_tag_bytes))]
fn put_epoch_tag(out: &mut Vec<u8>, first: u8, later: u8, epoch: u64) -> Result<(), NoMemory>
    ensures ok { OnOk result (out.new.items ≡ out.old.items ++ epoch_tag_bytes first later epoch) }
    ensures err { OnErr result (take (length out.old.items) out.new.items ≡ out.old.items) }
{
    if epoch == 0 {
        put_u8(out, first)?;
        return Ok(());
    }
    put_u8(out, later)?;
    put_be64(out, epoch)?;
    Ok(())
}
