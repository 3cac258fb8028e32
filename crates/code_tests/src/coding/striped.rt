//! A text whose rows are wide enough for two stripes, coded by any strategy.

use super::{Rs, checked, config, decoded_of, picked};
use crate::gate::FourPieces;
use cw_base::{Digest32, NoGate, Sequential, Sha256, Strategy};
use cw_coding::{Chunk, ReedSolomonError, Scheme};
use rs_code::stripe_count;
use std::alloc::Global;
use std::test::Fail;
use std::thread::Threads;

// 49,188 bytes, which config (3, 2) cuts into rows of 16,398.
fn wide_text(alloc: Global) -> Result<Vec<u8>, ReedSolomonError> {
    let mut text = Vec::new(alloc);
    for i in 0..49188u32 {
        text.push((i.wrapping_mul(11) % 256) as u8)?;
    }
    Ok(text)
}

// The bytes in which all chunks of a text are sent.
fn sent_by<R: Threads + Sync, S: Strategy>(
    rt: &R,
    alloc: Global,
    text: &[u8],
    strategy: &S,
) -> Result<Vec<u8>, ReedSolomonError> {
    let (_, chunks) = Rs::encode(rt, alloc, &config(3, 2), text, strategy)?;
    written(alloc, &chunks)
}

fn written(alloc: Global, chunks: &[Chunk<Digest32>]) -> Result<Vec<u8>, ReedSolomonError> {
    let mut out = Vec::new(alloc);
    for chunk in chunks {
        chunk.write(&mut out)?;
    }
    Ok(out)
}

#[test]
fn stripes_change_no_chunk(rt: HostRuntime) -> Result<(), Fail> {
    let alloc = rt.alloc();
    let text = wide_text(alloc)?;
    assert_eq!(rt; stripe_count(16398, 4), 2);
    let alone = sent_by(&rt, alloc, &text, &Sequential)?;
    let four = sent_by(&rt, alloc, &text, &cw_base::Threads::new(4, NoGate))?;
    assert!(rt; four.as_slice() == alone.as_slice());
    let gate = FourPieces::new();
    let gated = sent_by(&rt, alloc, &text, &gate)?;
    assert!(rt; gated.as_slice() == alone.as_slice());
    // The stripes of the recoveries, and the five rows.
    assert_eq!(rt; gate.passed(), 2);
    Ok(())
}

#[test]
fn stripes_are_decoded_beside_each_other(rt: HostRuntime) -> Result<(), Fail> {
    let alloc = rt.alloc();
    let text = wide_text(alloc)?;
    let config = config(3, 2);
    let (root, chunks) = Rs::encode(&rt, alloc, &config, &text, &Sequential)?;
    let all = checked::<Sha256>(alloc, &config, &root, &chunks)?;
    let given = picked(alloc, &all, &[1, 3, 4])?;
    let alone = decoded_of(&rt, alloc, &config, &root, &given)?;
    assert!(rt; alone.as_slice() == text.as_slice());
    let gate = FourPieces::new();
    let gated = Rs::decode(&rt, alloc, &config, &root, given.iter().copied(), &gate)?;
    assert!(rt; gated.as_slice() == text.as_slice());
    // The stripes of the originals, those of the recoveries, and the rows that weren't given.
    assert_eq!(rt; gate.passed(), 3);
    Ok(())
}
