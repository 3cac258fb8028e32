//! Payloads whose copies share their bytes, and those that are parts of a shared text.

use bytes::Bytes;
use cw_base::{Digest32, SumHasher};
use cw_types::{ChainBlock, Context, Payload, genesis_commitment};
use std::alloc::Global;
use std::test::Fail;

// As many bytes as a payload may have.
fn wide(alloc: Global) -> Result<Payload, Fail> {
    match Payload::new(vec![in alloc; 7u8; Payload::MAX]?) {
        Ok(payload) => Ok(payload),
        Err(_) => Err("a payload".into()),
    }
}

// a first copy, which shares its bytes with those that are made of it
fn wide_shared(alloc: Global) -> Result<Payload, Fail> {
    let payload = wide(alloc)?;
    let first = payload.copy(alloc)?;
    if first != payload {
        return Err("a copy of other bytes".into());
    }
    Ok(first)
}

// so many copies of a payload, and whether each has all of its bytes
fn are_wide(alloc: Global, payload: Payload, count: u32) -> Result<bool, Fail> {
    let mut copies = Vec::new(alloc);
    for _ in 0..count {
        copies.push(payload.copy(alloc)?)?;
    }
    drop(payload);
    Ok(copies.iter().all(|copy| copy.bytes().len() == Payload::MAX))
}

// All are held at once. If each had bytes of its own, these would be a tebibyte, which no machine
// that runs the tests has; `tools/memory_held` counts what 10,000 of them take.
#[test]
fn a_million_copies_share_one_mebibyte(rt: HostRuntime) -> Result<(), Fail> {
    let first = wide_shared(rt.alloc())?;
    assert!(rt; are_wide(rt.alloc(), first, 1 << 20)?);
    Ok(())
}

// the bytes of a block of a wide payload, to be shared
fn wide_text(alloc: Global) -> Result<Bytes, Fail> {
    let context = Context {
        epoch: 0,
        view: 1,
        leader: 1,
        parent_view: 0,
        parent: genesis_commitment::<SumHasher>(),
    };
    let block = ChainBlock::new(context, Digest32([2; 32]), 1, wide(alloc)?);
    let mut text = Vec::new(alloc);
    block.write(&mut text)?;
    Ok(Bytes::from_vec(text)?)
}

// the block of a shared text
fn block_of(alloc: Global, text: &Bytes) -> Result<ChainBlock, Fail> {
    match ChainBlock::of_shared(alloc, text)? {
        Some(block) => Ok(block),
        None => Err("no block".into()),
    }
}

// so many blocks that are read of one text, and whether each has all bytes of its payload
fn are_read(alloc: Global, text: Bytes, count: u32) -> Result<bool, Fail> {
    let mut blocks = Vec::new(alloc);
    for _ in 0..count {
        blocks.push(block_of(alloc, &text)?)?;
    }
    drop(text);
    Ok(
        blocks
            .iter()
            .all(|block| block.payload().bytes().len() == Payload::MAX),
    )
}

// All are held at once, and would be 64 GiB.
#[test]
fn blocks_of_a_shared_text_keep_parts_of_it(rt: HostRuntime) -> Result<(), Fail> {
    let text = wide_text(rt.alloc())?;
    assert!(rt; are_read(rt.alloc(), text, 1 << 16)?);
    Ok(())
}
