//! Tests of what is not decoded, checked or read, and why.

use super::*;
use cw_base::{CodecError, Digest32, Reader};

// Why the chunks of an input at some indices are not decoded.
fn refusal<R: Threads + Sync>(
    rt: &R,
    alloc: Global,
    config: Config,
    input: &[u8],
    indices: &[u16],
) -> Option<ReedSolomonError> {
    back_from(rt, alloc, config, input, indices).err()
}

#[test]
fn chunks_that_do_not_fit_are_not_decoded(rt: HostRuntime) {
    let cases = [
        (
            config(2, 1),
            [].as_slice(),
            ReedSolomonError::NotEnoughChunks,
        ),
        (config(4, 2), &[0, 1], ReedSolomonError::NotEnoughChunks),
        (
            config(3, 2),
            &[0, 0, 1],
            ReedSolomonError::DuplicateIndex(0),
        ),
    ];
    for (config, indices, want) in cases {
        assert_eq!(rt;
            refusal(&rt, rt.alloc(), config, b"some payload", indices),
            Some(want)
        );
    }
}

// What the first chunk of the one and the second of the other are decoded to under the first root.
fn mixed<R: Threads + Sync>(
    rt: &R,
    alloc: Global,
    one: &Coded<Sha256>,
    other: &Coded<Sha256>,
) -> Result<Vec<u8>, ReedSolomonError> {
    let mut given = picked(alloc, &one.checked, &[0])?;
    for chunk in picked(alloc, &other.checked, &[1])? {
        given.push(chunk)?;
    }
    decoded_of(rt, alloc, &one.config, &one.root, &given)
}

#[test]
fn chunks_of_two_roots_are_not_decoded(rt: HostRuntime) -> Result<(), Fail> {
    let alpha = encoded(&rt, rt.alloc(), config(2, 1), b"alpha payload")?;
    let bravo = encoded(&rt, rt.alloc(), config(2, 1), b"bravo payload")?;
    let answer = mixed(&rt, rt.alloc(), &alpha, &bravo);
    assert_eq!(rt; answer.err(), Some(ReedSolomonError::CommitmentMismatch));
    Ok(())
}

// Why a chunk doesn't check at an index.
fn check_refusal(
    alloc: Global,
    coded: &Coded<Sha256>,
    index: u16,
    chunk: &Chunk<Digest32>,
) -> Option<ReedSolomonError> {
    Rs::check(alloc, &coded.config, &coded.root, index, chunk, &Sequential).err()
}

#[test]
fn no_chunk_checks_at_the_next_index(rt: HostRuntime) -> Result<(), Fail> {
    let five = encoded(&rt, rt.alloc(), config(3, 2), b"twice")?;
    assert_eq!(rt; five.chunks.len(), 5);
    for chunk in &five.chunks {
        let next = chunk.index().wrapping_add(1);
        let refused = if next == 5 { 5 } else { chunk.index() };
        let answer = check_refusal(rt.alloc(), &five, next, chunk);
        assert_eq!(rt; answer, Some(ReedSolomonError::InvalidIndex(refused)));
    }
    Ok(())
}

// The chunk that is read from the bytes of another, one of which is changed.
fn changed(
    alloc: Global,
    config: &Config,
    chunk: &Chunk<Digest32>,
    place: usize,
    by: u8,
) -> Result<Chunk<Digest32>, CodecError> {
    let mut bytes = Vec::new(alloc);
    chunk.write(&mut bytes)?;
    if let Some(byte) = bytes.get_mut(place) {
        *byte = byte.wrapping_add(by);
    }
    Chunk::read(alloc, &mut Reader::new(&bytes), config, 1024)
}

// A chunk, the index at which it is checked, and what is changed in it. Behind two bytes of length
// and 344 of the shard come the index and the leaf count.
const CHANGES: [(u16, u16, usize, u8); 5] = [
    (1, 1, 351, 1),
    (0, 0, 0, 0),
    (1, 6, 0, 0),
    (2, 2, 347, 2),
    (3, 3, 2, 255),
];

const WANTS: [Option<ReedSolomonError>; 5] = [
    Some(ReedSolomonError::InvalidProof),
    None,
    Some(ReedSolomonError::InvalidIndex(6)),
    Some(ReedSolomonError::InvalidIndex(4)),
    Some(ReedSolomonError::InvalidProof),
];

// The changed chunks, and the indices at which they are checked.
fn all_changed(
    alloc: Global,
    coded: &Coded<Sha256>,
) -> Result<(Vec<u16>, Vec<Chunk<Digest32>>), Fail> {
    let mut indices = Vec::new(alloc);
    let mut chunks = Vec::new(alloc);
    for (chunk, index, place, by) in CHANGES {
        if let Some(chunk) = coded.chunks.get(usize::from(chunk)) {
            indices.push(index)?;
            chunks.push(changed(alloc, &coded.config, chunk, place, by)?)?;
        }
    }
    Ok((indices, chunks))
}

// Why each of many chunks doesn't check.
fn refusals_of_many<R: Threads + Sync>(
    rt: &R,
    alloc: Global,
    config: &Config,
    root: &Digest32,
    indices: &[u16],
    chunks: &[Chunk<Digest32>],
) -> Result<Vec<Option<ReedSolomonError>>, ReedSolomonError> {
    if indices.len() != chunks.len() {
        return Err(ReedSolomonError::NotEnoughChunks);
    }
    let mut refusals = Vec::new(alloc);
    let answers = Rs::check_many(rt, alloc, config, root, indices, chunks, &Sequential)?;
    for answer in answers {
        refusals.push(answer.err())?;
    }
    Ok(refusals)
}

#[test]
fn many_chunks_are_checked_to_the_last(rt: HostRuntime) -> Result<(), Fail> {
    let input = by_sevens(rt.alloc(), 1024)?;
    let six = encoded(&rt, rt.alloc(), config(3, 3), &input)?;
    let (indices, chunks) = all_changed(rt.alloc(), &six)?;
    let found = refusals_of_many(&rt, rt.alloc(), &six.config, &six.root, &indices, &chunks)?;
    assert!(rt; found.as_slice() == WANTS.as_slice());
    let wide = config(65535, 1);
    let found = refusals_of_many(&rt, rt.alloc(), &wide, &six.root, &indices, &chunks)?;
    let all = [Some(ReedSolomonError::TooManyTotalShards(65536)); 5];
    assert!(rt; found.as_slice() == all.as_slice());
    Ok(())
}

#[test]
fn each_changed_chunk_checks_alone_as_among_many(rt: HostRuntime) -> Result<(), Fail> {
    let input = by_sevens(rt.alloc(), 1024)?;
    let six = encoded(&rt, rt.alloc(), config(3, 3), &input)?;
    let (indices, chunks) = all_changed(rt.alloc(), &six)?;
    assert_eq!(rt; chunks.len(), 5);
    let asked = indices.iter().zip(chunks.iter());
    for ((index, chunk), want) in asked.zip(WANTS.iter()) {
        assert_eq!(rt; check_refusal(rt.alloc(), &six, *index, chunk), *want);
    }
    Ok(())
}

#[test]
fn sizes_that_do_not_fit_are_refused(rt: HostRuntime) {
    assert!(rt; !max_shard_size_fits(&config(65535, 1), 0));
    assert!(rt; !max_shard_size_fits(&config(1, 1), 4_294_967_296));
    let answer = shape(&rt, rt.alloc(), config(65535, 1), &[]);
    assert_eq!(rt;
        answer.err(),
        Some(ReedSolomonError::TooManyTotalShards(65536))
    );
}

// Each error, and what it is told as.
const TEXTS: [(ReedSolomonError, &str); 10] = [
    (
        ReedSolomonError::ReedSolomon(RsError::InvalidShardSize { shard_bytes: 3 }),
        "reed-solomon error: invalid shard size: 3",
    ),
    (ReedSolomonError::Inconsistent, "inconsistent"),
    (ReedSolomonError::InvalidProof, "invalid proof"),
    (ReedSolomonError::NotEnoughChunks, "not enough chunks"),
    (
        ReedSolomonError::DuplicateIndex(4),
        "duplicate chunk index: 4",
    ),
    (
        ReedSolomonError::InvalidDataLength(5),
        "invalid data length: 5",
    ),
    (ReedSolomonError::InvalidIndex(6), "invalid index: 6"),
    (
        ReedSolomonError::TooManyTotalShards(7),
        "too many total shards: 7",
    ),
    (
        ReedSolomonError::CommitmentMismatch,
        "checked shard commitment does not match decode commitment",
    ),
    (ReedSolomonError::NoMemory, "no memory"),
];

#[test]
fn errors_are_told_in_words(rt: HostRuntime) -> Result<(), Fail> {
    for (error, want) in TEXTS {
        let text = format!(in rt.alloc(); "{error}")?;
        assert!(rt; text.as_str() == want);
    }
    Ok(())
}

#[test]
fn an_error_of_the_code_is_wrapped(rt: HostRuntime) {
    let refused = RsError::InvalidShardSize { shard_bytes: 1 };
    let wrapped = ReedSolomonError::from(refused);
    assert_eq!(rt; wrapped, ReedSolomonError::ReedSolomon(refused));
}
