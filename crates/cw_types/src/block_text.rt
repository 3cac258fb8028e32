//! Blocks of whole texts.

ghost use Rattle.std.specs.Prelude.{◌≡◌, IfOk, IfSome, Ok};
ghost use Rattle.cw_types.specs.Encoding.{block_bytes};
ghost use Rattle.cw_types.specs.Reading.{block_in, to_the_end};

use crate::block::{ChainBlock, read_block};
use bytes::Bytes;
use cw_base::{CodecError, NoMemory, Reader};
use std::alloc::Global;

impl ChainBlock {
    /// The block whose bytes these are, all of them. `None` where they are no block's.
    pub fn of_bytes(alloc: Global, bytes: &[u8]) -> Result<Option<ChainBlock>, NoMemory>
        ensures value { IfOk result (λ block. block ≡ block_in bytes.now) }
        ensures bytes { IfOk result
            (λ block. IfSome block (λ block. block_bytes block ≡ bytes.now)) }
    {
        of_text(alloc, None, bytes)
    }

    /// The same, of bytes that are shared: the block's payload keeps a part of them, so none of
    /// them is copied.
    pub fn of_shared(alloc: Global, text: &Bytes) -> Result<Option<ChainBlock>, NoMemory>
        ensures value { IfOk result (λ block. block ≡ block_in text.now) }
        ensures bytes { IfOk result
            (λ block. IfSome block (λ block. block_bytes block ≡ text.now)) }
    {
        of_text(alloc, Some(text), text.as_slice())
    }
}

// The block whose bytes these are, all of them; of a shared text, they are all of it.
fn of_text(
    alloc: Global,
    text: Option<&Bytes>,
    bytes: &[u8],
) -> Result<Option<ChainBlock>, NoMemory>
    requires { IfSome text (λ text. text.now ≡ bytes.now) }
    ensures value { IfOk result (λ block. block ≡ block_in bytes.now) }
    ensures bytes { IfOk result
        (λ block. IfSome block (λ block. block_bytes block ≡ bytes.now)) }
{
    read_whole(alloc, text, bytes)
}

// The same, by what is read.
#[tactic(auto, using(cw_base::proofs::Ends::end_itself), unfolding(crate::specs::Reading::block_in))]
fn read_whole(
    alloc: Global,
    text: Option<&Bytes>,
    bytes: &[u8],
) -> Result<Option<ChainBlock>, NoMemory>
    requires { IfSome text (λ text. text.now ≡ bytes.now) }
    ensures { IfOk result (λ block. block ≡ block_in bytes.now) }
{
    let mut reader = Reader::new(bytes);
    match read_block(alloc, text, &mut reader) {
        Ok(block) => Ok(alone(block, reader.rest())),
        Err(CodecError::NoMemory) => Err(NoMemory),
        Err(_) => Ok(None),
    }
}

// The block, where no bytes are left behind it.
fn alone(block: ChainBlock, rest: &[u8]) -> Option<ChainBlock>
    ensures { result ≡ to_the_end (Ok (block, rest.now)) }
{
    if rest.is_empty() { Some(block) } else { None }
}
