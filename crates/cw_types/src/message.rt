//! Messages between members.

ghost use Rattle.std.specs.Prelude.{◌≡◌, [], ◌∷◌, ◌++◌, IfOk, IfErr, IfSome, OnOk, OnErr, Ok};
ghost use Rattle.std.specs.Prelude.{take, length};
ghost use Rattle.cw_base.specs.Bytes.{be16};
ghost use Rattle.cw_base.specs.declared.reader.CodecError.TheVariants as codec;
ghost use Rattle.cw_types.specs.Encoding.{message_bytes};
ghost use Rattle.cw_types.specs.Reading.{block_chunk_at, shard_message_at, vote_message_at, ask_at};
ghost use Rattle.cw_types.specs.Reading.{ask_height_at, tagged_message_at, message_at};
ghost use Rattle.cw_types.specs.Reading.{to_the_end};
ghost use Rattle.cw_types.specs.declared.message.Message.TheVariants as messages;
ghost use Rattle.cw_base.specs.Ends.{IsEnd};
ghost use Rattle.cw_base.specs.Reading.{IsRead, Gives};

use crate::block::{ChainBlock, MAX_BLOCK, read_block};
use crate::commitment::Commitment;
use crate::vote::{Cert, Vote};
use bytes::Bytes;
use cw_base::{
    CodecError, Config, Digest32, Items, NoMemory, Reader, put_be16, put_be64, put_bytes, put_u8,
    undo_refused,
};
use cw_tree::Chunk;
use std::alloc::Global;

/// What a member sends.
#[derive(Debug, Drop, PartialEq, Eq)]
pub enum Message {
    /// A chunk of the block under the commitment.
    Shard(Commitment, Chunk<Digest32>),
    /// The signer, and its vote.
    Vote(u16, Vote),
    /// A certificate.
    Cert(Cert),
    /// A member asks for the block under the commitment.
    Ask(u16, Commitment),
    /// A member asks for the finalized block of the height.
    AskHeight(u16, u64),
    /// A whole block.
    Block(ChainBlock),
    /// Bytes that don't read as a message.
    Junk(Items<u8>),
}

impl Message {
    /// An equal message.
    pub fn copy(&self, alloc: Global) -> Result<Message, NoMemory>
        ensures { IfOk result (λ copy. copy ≡ self.now) }
    {
        match self {
            Message::Shard(commitment, chunk) => {
                Ok(Message::Shard(*commitment, chunk.copy(alloc)?))
            }
            Message::Vote(signer, vote) => Ok(Message::Vote(*signer, *vote)),
            Message::Cert(cert) => Ok(Message::Cert(cert.copy(alloc)?)),
            Message::Ask(from, commitment) => Ok(Message::Ask(*from, *commitment)),
            Message::AskHeight(from, height) => Ok(Message::AskHeight(*from, *height)),
            Message::Block(block) => Ok(Message::Block(block.copy(alloc)?)),
            Message::Junk(bytes) => {
                let bytes = Vec::from_slice(alloc, bytes.as_slice())?;
                Ok(Message::Junk(Items::from_vec(bytes)))
            }
        }
    }

    /// Appends its bytes: a tag, and its fields, or those that are no message. Where memory is
    /// short nothing changes.
    pub fn write(&self, out: &mut Vec<u8>) -> Result<(), NoMemory>
        ensures ok { OnOk result (out.new.items ≡ out.old.items ++ message_bytes self.now) }
        ensures err { OnErr result (out.new.items ≡ out.old.items) }
    {
        let start = out.len();
        let written = self.write_parts(out);
        undo_refused(out, start, written)
    }

    // What was written before memory ran short stays.
    #[tactic(auto, unfolding(crate::specs::Encoding::message_bytes))]
    fn write_parts(&self, out: &mut Vec<u8>) -> Result<(), NoMemory>
        ensures ok { OnOk result (out.new.items ≡ out.old.items ++ message_bytes self.now) }
        ensures err { OnErr result (take (length out.old.items) out.new.items ≡ out.old.items) }
    {
        match self {
            Message::Shard(commitment, chunk) => {
                put_u8(out, 0)?;
                commitment.write(out)?;
                chunk.write(out)
            }
            Message::Vote(signer, vote) => {
                put_from(out, 1, *signer)?;
                vote.write(out)
            }
            Message::Cert(cert) => {
                put_u8(out, 2)?;
                cert.write(out)
            }
            Message::Ask(from, commitment) => {
                put_from(out, 3, *from)?;
                commitment.write(out)
            }
            Message::AskHeight(from, height) => {
                put_from(out, 4, *from)?;
                put_be64(out, *height)
            }
            Message::Block(block) => {
                put_u8(out, 5)?;
                block.write(out)
            }
            Message::Junk(bytes) => put_bytes(out, bytes.as_slice()),
        }
    }

    /// The message that all bytes left are: those that don't read as a message to their end are
    /// junk. The reader is then at its end. The only refusal is `NoMemory`, which leaves it there
    /// too.
    pub fn read(alloc: Global, reader: &mut Reader) -> Result<Message, CodecError>
        ensures value { Gives (λ message. message) result reader.new (message_at reader.old) }
        ensures place { IsEnd reader.old reader.new }
        ensures err { IfErr result (λ e. e ≡ codec.NoMemory) }
    {
        read_all(alloc, None, reader)
    }

    /// The same, of a reader that stands in a text whose bytes are shared: a block's payload keeps
    /// a part of that text, so none of its bytes is copied.
    pub fn read_shared(
        alloc: Global,
        text: &Bytes,
        reader: &mut Reader,
    ) -> Result<Message, CodecError>
        requires { IsEnd text.now reader.old }
        ensures value { Gives (λ message. message) result reader.new (message_at reader.old) }
        ensures place { IsEnd reader.old reader.new }
        ensures err { IfErr result (λ e. e ≡ codec.NoMemory) }
    {
        read_all(alloc, Some(text), reader)
    }
}

// The message that all bytes left are, of a shared text if there is one.
#[tactic(auto, using(cw_base::proofs::Ends::ends))]
fn read_all(alloc: Global, text: Option<&Bytes>, reader: &mut Reader) -> Result<Message, CodecError>
    requires { IfSome text (λ text. IsEnd text.now reader.old) }
    ensures value { Gives (λ message. message) result reader.new (message_at reader.old) }
    ensures place { IsEnd reader.old reader.new }
    ensures err { IfErr result (λ e. e ≡ codec.NoMemory) }
{
    let bytes = reader.rest();
    let whole = read_alone(alloc, text, reader);
    *reader = Reader::new(&[]);
    match whole {
        Ok(Some(message)) => Ok(message),
        Ok(None) => junk_of(alloc, bytes),
        Err(NoMemory) => Err(CodecError::NoMemory),
    }
}

// The message that all bytes left are; none where they don't read as one to their end.
fn read_alone(
    alloc: Global,
    text: Option<&Bytes>,
    reader: &mut Reader,
) -> Result<Option<Message>, NoMemory>
    requires { IfSome text (λ text. IsEnd text.now reader.old) }
    ensures { IfOk result (λ message. message ≡ to_the_end (tagged_message_at reader.old)) }
{
    match read_tagged(alloc, text, reader) {
        Ok(message) => Ok(alone(message, reader.rest())),
        Err(CodecError::NoMemory) => Err(NoMemory),
        Err(_) => Ok(None),
    }
}

// The message, where no bytes are left behind it.
fn alone(message: Message, rest: &[u8]) -> Option<Message>
    ensures { result ≡ to_the_end (Ok (message, rest.now)) }
{
    if rest.is_empty() { Some(message) } else { None }
}

// Bytes that are no message.
fn junk_of(alloc: Global, bytes: &[u8]) -> Result<Message, CodecError>
    ensures value { Gives (λ message. message) result [] (Ok (messages.Junk bytes.now, [])) }
    ensures err { IfErr result (λ e. e ≡ codec.NoMemory) }
{
    let bytes = Vec::from_slice(alloc, bytes)?;
    Ok(Message::Junk(Items::from_vec(bytes)))
}

// A tag, and a member's number.
fn put_from(out: &mut Vec<u8>, tag: u8, from: u16) -> Result<(), NoMemory>
    ensures ok { OnOk result (out.new.items ≡ out.old.items ++ tag ∷ be16 from) }
    ensures err { OnErr result (take (length out.old.items) out.new.items ≡ out.old.items) }
{
    put_u8(out, tag)?;
    put_be16(out, from)?;
    Ok(())
}

// A message at the front.
#[tactic(auto, using(cw_base::proofs::Ends::end_of_end), unfolding(crate::specs::Reading::tagged_message_at))]
fn read_tagged(
    alloc: Global,
    text: Option<&Bytes>,
    reader: &mut Reader,
) -> Result<Message, CodecError>
    requires { IfSome text (λ text. IsEnd text.now reader.old) }
    ensures value { Gives (λ message. message) result reader.new (tagged_message_at reader.old) }
    ensures place { IsEnd reader.old reader.new }
{
    match reader.u8()? {
        0 => read_shard_message(alloc, reader),
        1 => read_vote_message(reader),
        2 => Ok(Message::Cert(Cert::read(alloc, reader)?)),
        3 => read_ask(reader),
        4 => read_ask_height(reader),
        5 => Ok(Message::Block(read_block(alloc, text, reader)?)),
        _ => Err(CodecError::Invalid),
    }
}

// A chunk behind its commitment.
#[tactic(auto, using(cw_base::proofs::Ends::end_of_end))]
fn read_shard_message(alloc: Global, reader: &mut Reader) -> Result<Message, CodecError>
    ensures value { Gives (λ message. message) result reader.new (shard_message_at reader.old) }
    ensures place { IsEnd reader.old reader.new }
{
    let commitment = Commitment::read(reader)?;
    let chunk = read_shard(alloc, reader, &commitment.config)?;
    Ok(Message::Shard(commitment, chunk))
}

// A chunk of a config, of a block of at most `MAX_BLOCK` bytes.
#[tactic(auto, using(cw_base::proofs::Ends::end_of_end), unfolding(crate::specs::Reading::block_chunk_at))]
fn read_shard(
    alloc: Global,
    reader: &mut Reader,
    config: &Config,
) -> Result<Chunk<Digest32>, CodecError>
    ensures value { Gives (λ chunk. chunk) result reader.new
        (block_chunk_at config.now reader.old) }
    ensures place { IsEnd reader.old reader.new }
{
    Chunk::<Digest32>::read(alloc, reader, config, MAX_BLOCK)
}

// A vote behind its signer.
#[tactic(auto, using(cw_base::proofs::Ends::end_of_end))]
fn read_vote_message(reader: &mut Reader) -> Result<Message, CodecError>
    ensures value { IsRead (λ message. message) result reader.new (vote_message_at reader.old) }
    ensures place { IsEnd reader.old reader.new }
{
    let signer = reader.be16()?;
    let vote = Vote::read(reader)?;
    Ok(Message::Vote(signer, vote))
}

// Who asks, and for which commitment.
#[tactic(auto, using(cw_base::proofs::Ends::end_of_end))]
fn read_ask(reader: &mut Reader) -> Result<Message, CodecError>
    ensures value { IsRead (λ message. message) result reader.new (ask_at reader.old) }
    ensures place { IsEnd reader.old reader.new }
{
    let from = reader.be16()?;
    let commitment = Commitment::read(reader)?;
    Ok(Message::Ask(from, commitment))
}

// Who asks, and for which height.
#[tactic(auto, using(cw_base::proofs::Ends::end_of_end))]
fn read_ask_height(reader: &mut Reader) -> Result<Message, CodecError>
    ensures value { IsRead (λ message. message) result reader.new (ask_height_at reader.old) }
    ensures place { IsEnd reader.old reader.new }
{
    let from = reader.be16()?;
    let height = reader.be64()?;
    Ok(Message::AskHeight(from, height))
}
