//! Tests of two texts of one digest, which two inputs of one root give.

use super::*;
use cw_base::SumHasher;

// The two texts of one digest that two inputs give.
fn clash<H: Hasher, R: Threads + Sync>(
    rt: &R,
    alloc: Global,
    first: &[u8],
    second: &[u8],
) -> Result<Option<(Vec<u8>, Vec<u8>)>, ReedSolomonError> {
    find_clash::<H, R, Sequential>(rt, alloc, &config(1, 1), first, second, &Sequential)
}

// The same under a hash with many clashes.
fn sum_clash<R: Threads + Sync>(
    rt: &R,
    alloc: Global,
    first: &[u8],
    second: &[u8],
) -> Result<Option<(Vec<u8>, Vec<u8>)>, ReedSolomonError> {
    clash::<SumHasher, R>(rt, alloc, first, second)
}

#[test]
fn shards_of_one_digest_clash(rt: HostRuntime) -> Result<(), Fail> {
    let found = sum_clash(&rt, rt.alloc(), &[1, 2], &[2, 1])?;
    let (one, other) = found.ok_or("no clash")?;
    assert!(rt; one.as_slice() == [0, 0, 0, 2, 1, 2].as_slice());
    assert!(rt; other.as_slice() == [0, 0, 0, 2, 2, 1].as_slice());
    assert!(rt; SumHasher::hash(&one).0 == [5; 32]);
    assert!(rt; SumHasher::hash(&other).0 == [5; 32]);
    Ok(())
}

#[test]
fn one_text_and_texts_of_two_roots_do_not_clash(rt: HostRuntime) -> Result<(), Fail> {
    assert!(rt; sum_clash(&rt, rt.alloc(), &[1, 2], &[1, 2])?.is_none());
    assert!(rt; clash::<Sha256, HostRuntime>(&rt, rt.alloc(), &[1, 2], &[2, 1])?.is_none());
    Ok(())
}
