//! Tests of cw_coding: what is encoded is checked and decoded; beside them refusals, clashes, bytes,
//! planted shards, roots, stripes and commitments, a file each.

mod clashes;
mod commitments;
mod planted;
mod refusals;
mod roots;
mod striped;
mod written;

use crate::gate::FourPieces;
use cw_base::{Hasher, Sequential, Sha256};
use cw_coding::{
    CheckedChunk, Chunk, Config, ReedSolomon, ReedSolomonError, RsError, Scheme, find_clash,
    max_shard_size_fits,
};
use std::alloc::Global;
use std::num::NonZeroU16;
use std::test::Fail;
use std::thread::Threads;

type Rs = ReedSolomon<Sha256>;

// An encoding, and its chunks as they were checked at their indices.
#[derive(Drop)]
struct Coded<H: Hasher> {
    config: Config,
    root: H::Digest,
    chunks: Vec<Chunk<H::Digest>>,
    checked: Vec<CheckedChunk<H>>,
}

// A config, where a zero stands for one.
fn config(minimum: u16, extra: u16) -> Config {
    let one = NonZeroU16::MIN;
    Config {
        minimum_shards: NonZeroU16::new(minimum).unwrap_or(one),
        extra_shards: NonZeroU16::new(extra).unwrap_or(one),
    }
}

// Each chunk checked at its index.
fn checked<H: Hasher>(
    alloc: Global,
    config: &Config,
    root: &H::Digest,
    chunks: &[Chunk<H::Digest>],
) -> Result<Vec<CheckedChunk<H>>, ReedSolomonError> {
    let mut all = Vec::new(alloc);
    for chunk in chunks {
        let one = ReedSolomon::<H>::check(alloc, config, root, chunk.index(), chunk, &Sequential)?;
        all.push(one)?;
    }
    Ok(all)
}

fn encoded<H: Hasher, R: Threads + Sync>(
    rt: &R,
    alloc: Global,
    config: Config,
    input: &[u8],
) -> Result<Coded<H>, ReedSolomonError> {
    let (root, chunks) = ReedSolomon::<H>::encode(rt, alloc, &config, input, &Sequential)?;
    let checked = checked::<H>(alloc, &config, &root, &chunks)?;
    Ok(Coded {
        config,
        root,
        chunks,
        checked,
    })
}

// The chunks at some indices.
fn picked<'a, H: Hasher>(
    alloc: Global,
    chunks: &'a [CheckedChunk<H>],
    indices: &[u16],
) -> Result<Vec<&'a CheckedChunk<H>>, ReedSolomonError> {
    let mut given = Vec::new(alloc);
    for index in indices {
        match chunks.get(usize::from(*index)) {
            Some(chunk) => given.push(chunk)?,
            None => return Err(ReedSolomonError::InvalidIndex(*index)),
        }
    }
    Ok(given)
}

// What these chunks are decoded to.
fn decoded_of<R: Threads + Sync>(
    rt: &R,
    alloc: Global,
    config: &Config,
    root: &<Sha256 as Hasher>::Digest,
    given: &[&CheckedChunk<Sha256>],
) -> Result<Vec<u8>, ReedSolomonError> {
    Rs::decode(rt, alloc, config, root, given.iter().copied(), &Sequential)
}

// What the chunks at some indices are decoded to.
fn decoded<R: Threads + Sync>(
    rt: &R,
    alloc: Global,
    coded: &Coded<Sha256>,
    indices: &[u16],
) -> Result<Vec<u8>, ReedSolomonError> {
    let given = picked(alloc, &coded.checked, indices)?;
    decoded_of(rt, alloc, &coded.config, &coded.root, &given)
}

// What an input's chunks at some indices are decoded to.
fn back_from<R: Threads + Sync>(
    rt: &R,
    alloc: Global,
    config: Config,
    input: &[u8],
    indices: &[u16],
) -> Result<Vec<u8>, ReedSolomonError> {
    let coded = encoded::<Sha256, R>(rt, alloc, config, input)?;
    decoded(rt, alloc, &coded, indices)
}

// How many chunks an input has, and how wide the last one is.
fn shape<R: Threads + Sync>(
    rt: &R,
    alloc: Global,
    config: Config,
    input: &[u8],
) -> Result<(usize, usize), ReedSolomonError> {
    let (_, chunks) = Rs::encode(rt, alloc, &config, input, &Sequential)?;
    let width = match chunks.last() {
        Some(chunk) => chunk.shard().len(),
        None => 0,
    };
    Ok((chunks.len(), width))
}

// The indices below `count`, the last first.
fn downwards(alloc: Global, count: u16) -> Result<Vec<u16>, ReedSolomonError> {
    let mut indices = Vec::new(alloc);
    for i in (0..count).rev() {
        indices.push(i)?;
    }
    Ok(indices)
}

#[test]
fn an_empty_input_is_decoded(rt: HostRuntime) -> Result<(), Fail> {
    assert_eq!(rt; shape(&rt, rt.alloc(), config(30, 70), &[])?, (100, 2));
    let originals = downwards(rt.alloc(), 30)?;
    assert_eq!(rt; originals.len(), 30);
    let back = back_from(&rt, rt.alloc(), config(30, 70), &[], &originals)?;
    assert_eq!(rt; back.len(), 0);
    Ok(())
}

// An original before recoveries, recoveries alone in two orders, and the originals alone, the last
// first.
const PICKED: [[u16; 3]; 4] = [[0, 4, 6], [3, 4, 5], [7, 6, 3], [2, 1, 0]];

#[test]
fn any_chunks_recover_the_input(rt: HostRuntime) -> Result<(), Fail> {
    let text = b"Testing recovery pieces";
    assert_eq!(rt; shape(&rt, rt.alloc(), config(3, 5), text)?, (8, 10));
    for indices in &PICKED {
        let back = back_from(&rt, rt.alloc(), config(3, 5), text, indices)?;
        assert!(rt; back.as_slice() == text.as_slice());
    }
    Ok(())
}

#[test]
fn equal_bytes_are_cut_into_shards(rt: HostRuntime) -> Result<(), Fail> {
    let found = shape(&rt, rt.alloc(), config(8, 17), &[0x67; 65536])?;
    assert_eq!(rt; found, (25, 8194));
    Ok(())
}

// So many bytes, each by 7 above the one before.
fn by_sevens(alloc: Global, count: u16) -> Result<Vec<u8>, ReedSolomonError> {
    let mut input = Vec::new(alloc);
    let mut byte = 0u8;
    for _ in 0..count {
        input.push(byte)?;
        byte = byte.wrapping_add(7);
    }
    Ok(input)
}

#[test]
fn an_input_of_many_bytes_is_recovered(rt: HostRuntime) -> Result<(), Fail> {
    let input = by_sevens(rt.alloc(), 1024)?;
    assert_eq!(rt; shape(&rt, rt.alloc(), config(3, 3), &input)?, (6, 344));
    let back = back_from(&rt, rt.alloc(), config(3, 3), &input, &[0, 3, 4, 5])?;
    assert!(rt; back.as_slice() == input.as_slice());
    Ok(())
}

// Originals, recoveries, bytes, and the first of the chunks that are given, as many as originals:
// none of these is missing, one is, more are; in narrow rows and wide ones. From 512 originals on
// they are rebuilt from the codeword of those that are given.
const GIVEN: [(u16, u16, u16, u16); 8] = [
    (3, 3, 1, 0),
    (3, 3, 1, 1),
    (3, 3, 60000, 0),
    (3, 3, 60000, 1),
    (3, 3, 60000, 3),
    (512, 64, 1100, 0),
    (512, 64, 1100, 1),
    (512, 64, 1100, 64),
];

#[test]
fn originals_are_copied_and_missing_ones_made(rt: HostRuntime) -> Result<(), Fail> {
    for (k, m, count, first) in GIVEN {
        let input = by_sevens(rt.alloc(), count)?;
        let mut indices = Vec::new(rt.alloc());
        for i in 0..k {
            indices.push(first.wrapping_add(i))?;
        }
        let back = back_from(&rt, rt.alloc(), config(k, m), &input, &indices)?;
        assert!(rt;
            back.as_slice() == input.as_slice(),
            "{k} and {m}, from {first}"
        );
    }
    Ok(())
}
