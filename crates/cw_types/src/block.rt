//! Blocks of the chain, and where they were proposed.

ghost use Rattle.std.specs.Prelude.{◌≡◌, ◌-◌, ◌^◌, ◌<◌, ◌++◌, IfOk, IfSome, OnOk, OnErr, take};
ghost use Rattle.std.specs.Prelude.{length};
ghost use Rattle.cw_types.specs.Encoding.{context_bytes, block_bytes};
ghost use Rattle.cw_types.specs.Same.{same_context, same_block};
ghost use Rattle.cw_types.specs.Reading.{context_at, height_at, block_at};
ghost use Rattle.cw_base.specs.Ends.{IsEnd};
ghost use Rattle.cw_base.specs.Reading.{IsRead, Gives};

use crate::commitment::{Commitment, put_at, read_digest};
use crate::payload::{Payload, read_payload};
use bytes::Bytes;
use cw_base::{
    CodecError, Digest32, Hasher, NoMemory, Reader, put_be16, put_be64, put_bytes, put_varint,
    undo_refused,
};
use std::alloc::Global;
use std::marker::Model;

/// Where a block was proposed: the epoch, the view and its leader, and the view and the commitment
/// of the block that it stands over. In bytes: 8, 8, 2, 8 and 100.
#[derive(Clone, Copy, Debug, PartialEq, Eq)]
pub struct Context {
    /// The epoch that the block was proposed in.
    pub epoch: u64,
    /// The view that it was proposed in.
    pub view: u64,
    /// The member that leads the view.
    pub leader: u16,
    /// The view of the block that it stands over.
    pub parent_view: u64,
    /// The commitment of the block that it stands over.
    pub parent: Commitment,
}

impl Context {
    /// Whether the two are the same.
    #[tactic(auto, unfolding(crate::specs::Same::same_context))]
    pub fn is_same(&self, other: &Context) -> bool
        ensures { result ≡ same_context self.now other.now }
    {
        self.epoch == other.epoch
            && self.view == other.view
            && self.leader == other.leader
            && self.parent_view == other.parent_view
            && self.parent.is_same(&other.parent)
    }

    /// How many bytes a context is written in.
    pub const SIZE: usize = 126;

    /// Its bytes, as [`Context::write`] appends them. Takes no memory.
    pub fn to_bytes(&self) -> [u8; 126]
        ensures { result ≡ context_bytes self.now }
    {
        let mut bytes = [0; 126];
        put_at(&mut bytes, 0, &self.epoch.to_be_bytes());
        put_at(&mut bytes, 8, &self.view.to_be_bytes());
        put_at(&mut bytes, 16, &self.leader.to_be_bytes());
        put_at(&mut bytes, 18, &self.parent_view.to_be_bytes());
        put_at(&mut bytes, 26, &self.parent.to_bytes());
        bytes
    }

    /// Appends its bytes. Where memory is short nothing changes.
    pub fn write(&self, out: &mut Vec<u8>) -> Result<(), NoMemory>
        ensures ok { OnOk result (out.new.items ≡ out.old.items ++ context_bytes self.now) }
        ensures err { OnErr result (out.new.items ≡ out.old.items) }
    {
        let start = out.len();
        let written = self.write_parts(out);
        undo_refused(out, start, written)
    }

    // What was written before memory ran short stays.
    #[tactic(auto, unfolding(crate::specs::Encoding::context_bytes))]
    fn write_parts(&self, out: &mut Vec<u8>) -> Result<(), NoMemory>
        ensures ok { OnOk result (out.new.items ≡ out.old.items ++ context_bytes self.now) }
        ensures err { OnErr result (take (length out.old.items) out.new.items ≡ out.old.items) }
    {
        put_be64(out, self.epoch)?;
        put_be64(out, self.view)?;
        put_be16(out, self.leader)?;
        put_be64(out, self.parent_view)?;
        self.parent.write(out)?;
        Ok(())
    }

    /// The context at the front: `Invalid` for a config with a zero, `EndOfBuffer` where it is cut.
    ///
    /// Refused, the reader stands behind the parts that were taken, a zero among them.
    #[tactic(auto, using(cw_base::proofs::Ends::end_of_end), unfolding(crate::specs::Reading::context_at))]
    pub fn read(reader: &mut Reader) -> Result<Context, CodecError>
        ensures value { IsRead (λ context. context) result reader.new (context_at reader.old) }
        ensures place { IsEnd reader.old reader.new }
    {
        let epoch = reader.be64()?;
        let view = reader.be64()?;
        let leader = reader.be16()?;
        let parent_view = reader.be64()?;
        let parent = Commitment::read(reader)?;
        Ok(Context {
            epoch,
            view,
            leader,
            parent_view,
            parent,
        })
    }
}

// The most bytes of a block: 126 of its context, 32 of its parent's digest, 8 of its height, 3 of
// its payload's length, and the payload.
pub(crate) const MAX_BLOCK: usize = 1_048_745;

/// A block of the chain: its context, the digest of its parent, its height, which is below
/// 2^64 - 1, and its payload. It has at most 1,048,745 bytes.
#[derive(Debug, Drop, PartialEq, Eq)]
pub struct ChainBlock {
    context: Context,
    parent: Digest32,
    height: u64,
    payload: Payload,
}

impl Model for ChainBlock {
    ghost use Rattle.std.specs.Prelude.{◌-◌, ◌^◌, ◌<◌};
    ghost use Rattle.cw_types.specs.Block.{Block};

    ghost Value = { Block };

    ghost view = { λ b. record {
      context = b.context;
      parent = b.parent;
      height = b.height;
      payload = b.payload;
    } };

    ghost invariant = { λ b. b.height < 2 ^ 64 - 1 };

    ghost inverse = { λ b. record {
      context = b.context;
      parent = b.parent;
      height = b.height;
      payload = b.payload;
    } };
}

impl ChainBlock {
    /// A block of these parts. Takes no memory.
    pub fn new(context: Context, parent: Digest32, height: u64, payload: Payload) -> ChainBlock
        requires { height < 2 ^ 64 - 1 }
        ensures { result
            ≡ record { context = context; parent = parent; height = height; payload = payload } }
    {
        ChainBlock {
            context,
            parent,
            height,
            payload,
        }
    }

    /// Where it was proposed.
    pub fn context(&self) -> &Context
        ensures { result.now ≡ self.now.context }
    {
        &self.context
    }

    /// The digest of its parent.
    pub fn parent(&self) -> Digest32
        ensures { result ≡ self.now.parent }
    {
        self.parent
    }

    /// How many blocks it stands over: 0 for the first one.
    pub fn height(&self) -> u64
        ensures value { result ≡ self.now.height }
        ensures bound { result < 2 ^ 64 - 1 }
    {
        self.height
    }

    /// What it carries.
    pub fn payload(&self) -> &Payload
        ensures { result.now ≡ self.now.payload }
    {
        &self.payload
    }

    /// Whether the two are the same.
    #[tactic(auto, unfolding(crate::specs::Same::same_block))]
    pub fn is_same(&self, other: &ChainBlock) -> bool
        ensures { result ≡ same_block self.now other.now }
    {
        self.context().is_same(other.context())
            && self.parent() == other.parent()
            && self.height() == other.height()
            && self.payload().bytes() == other.payload().bytes()
    }

    /// An equal block, whose payload is a copy as [`Payload::copy`] makes it.
    pub fn copy(&self, alloc: Global) -> Result<ChainBlock, NoMemory>
        ensures { IfOk result (λ copy. copy ≡ self.now) }
    {
        Ok(ChainBlock {
            context: self.context,
            parent: self.parent,
            height: self.height,
            payload: self.payload.copy(alloc)?,
        })
    }

    /// Appends its bytes. Where memory is short nothing changes.
    pub fn write(&self, out: &mut Vec<u8>) -> Result<(), NoMemory>
        ensures ok { OnOk result (out.new.items ≡ out.old.items ++ block_bytes self.now) }
        ensures err { OnErr result (out.new.items ≡ out.old.items) }
    {
        let start = out.len();
        let written = self.write_parts(out);
        undo_refused(out, start, written)
    }

    /// The digest of its bytes. Takes memory for them.
    pub fn digest<H: Hasher<Digest = Digest32>>(&self, alloc: Global) -> Result<Digest32, NoMemory>
        ensures { IfOk result (λ digest. digest ≡ H.digest_of (block_bytes self.now)) }
    {
        let mut bytes = Vec::new(alloc);
        self.write(&mut bytes)?;
        Ok(H::hash(&bytes))
    }

    // What was written before memory ran short stays.
    #[tactic(auto, unfolding(crate::specs::Encoding::block_bytes))]
    fn write_parts(&self, out: &mut Vec<u8>) -> Result<(), NoMemory>
        ensures ok { OnOk result (out.new.items ≡ out.old.items ++ block_bytes self.now) }
        ensures err { OnErr result (take (length out.old.items) out.new.items ≡ out.old.items) }
    {
        self.context.write(out)?;
        put_bytes(out, &self.parent.0)?;
        put_be64(out, self.height)?;
        let payload = self.payload.bytes();
        put_varint(out, payload.len() as u32)?;
        put_bytes(out, payload)?;
        Ok(())
    }

    /// The block at the front: `Invalid` for a config with a zero and for a height of 2^64 - 1,
    /// `InvalidVarint` for a payload's length in another form than its shortest, `TooLong` for one
    /// above `Payload::MAX`, `EndOfBuffer` where it is cut.
    ///
    /// Refused, the reader stands behind the parts that were taken, a refused value among them. For
    /// want of memory it is refused only where a whole block stands there, and all of it is taken.
    pub fn read(alloc: Global, reader: &mut Reader) -> Result<ChainBlock, CodecError>
        ensures value { Gives (λ block. block) result reader.new (block_at reader.old) }
        ensures place { IsEnd reader.old reader.new }
    {
        read_block(alloc, None, reader)
    }

    /// The same, of a reader that stands in a text whose bytes are shared: the block's payload
    /// keeps a part of that text, so none of its bytes is copied.
    pub fn read_shared(
        alloc: Global,
        text: &Bytes,
        reader: &mut Reader,
    ) -> Result<ChainBlock, CodecError>
        requires { IsEnd text.now reader.old }
        ensures value { Gives (λ block. block) result reader.new (block_at reader.old) }
        ensures place { IsEnd reader.old reader.new }
    {
        read_block(alloc, Some(text), reader)
    }
}

// A block at the front, of a shared text if there is one.
#[tactic(auto, using(cw_base::proofs::Ends::end_of_end), unfolding(crate::specs::Reading::block_at))]
pub(crate) fn read_block(
    alloc: Global,
    text: Option<&Bytes>,
    reader: &mut Reader,
) -> Result<ChainBlock, CodecError>
    requires { IfSome text (λ text. IsEnd text.now reader.old) }
    ensures value { Gives (λ block. block) result reader.new (block_at reader.old) }
    ensures place { IsEnd reader.old reader.new }
{
    let context = Context::read(reader)?;
    let parent = read_digest(reader)?;
    let height = read_height(reader)?;
    let payload = read_payload(alloc, text, reader)?;
    Ok(ChainBlock {
        context,
        parent,
        height,
        payload,
    })
}

// A height below 2^64 - 1.
#[tactic(auto, using(cw_base::proofs::Ends::end_of_end), unfolding(crate::specs::Reading::height_at))]
pub(crate) fn read_height(reader: &mut Reader) -> Result<u64, CodecError>
    ensures value { IsRead (λ height. height) result reader.new (height_at reader.old) }
    ensures place { IsEnd reader.old reader.new }
    ensures bound { IfOk result (λ height. height < 2 ^ 64 - 1) }
{
    let height = reader.be64()?;
    if height == u64::MAX {
        return Err(CodecError::Invalid);
    }
    Ok(height)
}
