//! Tests of chunks as bytes: how they are written, and what is read back or refused.

use super::*;
use cw_base::{CodecError, Digest32, Reader, SumHasher};

// The four chunks of the byte 01.
fn of_one_byte<R: Threads + Sync>(
    rt: &R,
    alloc: Global,
) -> Result<Coded<SumHasher>, ReedSolomonError> {
    encoded(rt, alloc, config(2, 2), &[1])
}

// A chunk as it is written.
fn bytes_of(alloc: Global, chunk: &Chunk<Digest32>) -> Result<Vec<u8>, CodecError> {
    let mut bytes = Vec::new(alloc);
    chunk.write(&mut bytes)?;
    Ok(bytes)
}

// The first of the chunks as it is written.
fn first_written<R: Threads + Sync>(rt: &R, alloc: Global) -> Result<Vec<u8>, Fail> {
    let four = of_one_byte(rt, alloc)?;
    match four.chunks.first() {
        Some(chunk) => Ok(bytes_of(alloc, chunk)?),
        None => Err(Fail::from("no chunk")),
    }
}

// Twelve bytes, and two digests of equal bytes.
fn is_written(text: &[u8], head: &[u8], first: u8, second: u8) -> bool {
    text.len() == 76
        && &text[..12] == head
        && text[12..44].iter().all(|byte| *byte == first)
        && text[44..].iter().all(|byte| *byte == second)
}

#[test]
fn a_chunk_is_written_in_its_format(rt: HostRuntime) -> Result<(), Fail> {
    let text = first_written(&rt, rt.alloc())?;
    let head = [4, 0, 0, 0, 1, 0, 0, 0, 0, 0, 4, 2];
    assert!(rt; is_written(&text, &head, 0x21, 0xa0));
    Ok(())
}

// Whether a chunk has so many bytes, and reads back as itself from all of them.
fn is_read_back(
    alloc: Global,
    config: &Config,
    chunk: &Chunk<Digest32>,
    size: usize,
) -> Result<bool, CodecError> {
    let bytes = bytes_of(alloc, chunk)?;
    let mut reader = Reader::new(&bytes);
    let read = Chunk::<Digest32>::read(alloc, &mut reader, config, 1)?;
    Ok(chunk.encode_size() == size && read == *chunk && reader.finish() == Ok(()))
}

#[test]
fn written_chunks_read_back(rt: HostRuntime) -> Result<(), Fail> {
    let four = of_one_byte(&rt, rt.alloc())?;
    assert_eq!(rt; four.root, Digest32([4; 32]));
    assert_eq!(rt; four.chunks.len(), 4);
    for chunk in &four.chunks {
        assert!(rt; is_read_back(rt.alloc(), &four.config, chunk, 76)?);
        assert!(rt; chunk.copy(rt.alloc())? == *chunk);
    }
    Ok(())
}

#[test]
fn checked_chunks_are_copied(rt: HostRuntime) -> Result<(), Fail> {
    let four = of_one_byte(&rt, rt.alloc())?;
    assert_eq!(rt; four.checked.len(), 4);
    for chunk in &four.checked {
        assert!(rt; chunk.copy(rt.alloc())? == *chunk);
    }
    Ok(())
}

#[test]
fn chunks_have_a_greatest_size(rt: HostRuntime) {
    let two = config(2, 2);
    assert!(rt; max_shard_size_fits(&two, 1));
    assert_eq!(rt; ReedSolomon::<SumHasher>::max_shard_size(&two, 1), 80);
}

// Why a chunk isn't read where a shard may have no byte, and what the reader gives then.
fn read_without_room(alloc: Global, text: &[u8]) -> (Option<CodecError>, Result<u8, CodecError>) {
    let mut reader = Reader::new(text);
    let answer = Chunk::<Digest32>::read(alloc, &mut reader, &config(2, 2), 0);
    (answer.err(), reader.u8())
}

#[test]
fn a_shard_beyond_a_maximum_of_zero_is_not_read(rt: HostRuntime) -> Result<(), Fail> {
    let text = first_written(&rt, rt.alloc())?;
    let (refused, next) = read_without_room(rt.alloc(), &text);
    assert_eq!(rt; refused, Some(CodecError::TooLong));
    assert_eq!(rt; next, Ok(0));
    Ok(())
}
