//! Tests of cw_tree: the ways up a tree over digests of 1s, of 2s and of 3s, what they are written
//! in, and shards that outlive their chunks.

ghost use Rattle.std.specs.Prelude.{◌≡◌, IfOk, length};

use bytes::Bytes;
use cw_base::{CodecError, Digest32, Hasher, Items, Reader, Sha256, SumHasher};
use cw_tree::Chunk;
use cw_tree::bmt::{Builder, Proof, Tree};
use std::alloc::Global;
use std::test::Fail;

fn tree<H: Hasher<Digest = Digest32>>(alloc: Global) -> Result<Tree<H>, Fail>
    ensures { IfOk result (λ tree. length tree ≡ 3) }
{
    let mut digests = Items::new(alloc);
    digests.push(Digest32([1; 32]))?;
    digests.push(Digest32([2; 32]))?;
    digests.push(Digest32([3; 32]))?;
    Ok(Builder::<H>::of(digests).build(alloc)?)
}

// The way up from the last of three, where it has so many siblings. By sums the right one is 32.
fn last_way(alloc: Global, siblings: usize) -> Result<Proof<Digest32>, Fail> {
    Ok(Proof {
        leaf_count: 3,
        siblings: Items::from_vec(vec![in alloc; Digest32([32; 32]); siblings]?),
    })
}

// The root by sums, and whether the last way is that with one sibling.
fn sum_root(alloc: Global) -> Result<(Digest32, bool), Fail> {
    let tree = tree::<SumHasher>(alloc)?;
    let root = tree.root();
    let way = tree.proof(alloc, 2);
    drop(tree);
    Ok((root, way? == last_way(alloc, 1)?))
}

#[test]
fn the_last_of_three_is_paired_with_itself(rt: HostRuntime) -> Result<(), Fail> {
    assert_eq!(rt; sum_root(rt.alloc())?, (Digest32([3; 32]), true));
    Ok(())
}

// The way up from each of the three, then the last one with no sibling and with two; and the root.
fn all_ways(alloc: Global) -> Result<(Vec<Proof<Digest32>>, Digest32), Fail> {
    let tree = tree::<Sha256>(alloc)?;
    let mut ways = Vec::new(alloc);
    for at in 0..3u32 {
        ways.push(tree.proof(alloc, at)?)?;
    }
    ways.push(last_way(alloc, 0)?)?;
    ways.push(last_way(alloc, 2)?)?;
    Ok((ways, tree.root()))
}

// Places, a digest by its byte: each with its own digest and another, and a place past the last.
const TRIED: [(u32, u8); 8] = [
    (0, 1),
    (0, 2),
    (1, 2),
    (1, 3),
    (2, 3),
    (2, 4),
    (3, 3),
    (3, 4),
];

// Which of these each of the ways leads to a root, behind its number.
fn led(
    alloc: Global,
    ways: &[Proof<Digest32>],
    root: &Digest32,
) -> Result<Vec<(usize, u32, u8)>, Fail> {
    let mut led = Vec::new(alloc);
    for (number, way) in ways.iter().enumerate() {
        put_led(&mut led, number, way, root)?;
    }
    Ok(led)
}

fn put_led(
    led: &mut Vec<(usize, u32, u8)>,
    number: usize,
    way: &Proof<Digest32>,
    root: &Digest32,
) -> Result<(), Fail> {
    for (index, byte) in TRIED {
        if way.verify_element_inclusion::<Sha256>(&Digest32([byte; 32]), index, root) {
            led.push((number, index, byte))?;
        }
    }
    Ok(())
}

// That of all the ways, and the root of the tree or another.
fn led_by_all(alloc: Global, other: Option<Digest32>) -> Result<Vec<(usize, u32, u8)>, Fail> {
    let (ways, root) = all_ways(alloc)?;
    let led = led(alloc, &ways, &other.unwrap_or(root));
    drop(ways);
    led
}

#[test]
fn a_way_leads_one_digest_from_one_place_to_one_root(rt: HostRuntime) -> Result<(), Fail> {
    let all = led_by_all(rt.alloc(), None)?;
    assert!(rt; all.as_slice() == [(0, 0, 1), (1, 1, 2), (2, 2, 3)].as_slice());
    assert_eq!(rt; led_by_all(rt.alloc(), Some(Digest32([3; 32])))?.len(), 0);
    Ok(())
}

// What is hashed on the last way, each text in two parts: the leaf with its place, the node with
// itself, its partner and the node, and the number of leaves with the node under the root.
const HASHED: [(&[u8], &[u8]); 4] = [
    (&[0, 0, 0, 2], &[3; 32]),
    (&[98; 32], &[98; 32]),
    (&[32; 32], &[128; 32]),
    (&[0, 0, 0, 3], &[0; 32]),
];

fn are_hashed(texts: &[Items<u8>]) -> bool {
    for (place, (front, back)) in HASHED.iter().enumerate() {
        let Some(text) = texts.get(place) else {
            return false;
        };
        if text.as_slice().strip_prefix(front) != Some(*back) {
            return false;
        }
    }
    texts.len() == HASHED.len()
}

// Whether these are hashed from the digest of 3s; none where no such way is.
fn hashed(alloc: Global, siblings: usize, index: u32) -> Result<Option<bool>, Fail> {
    let way = last_way(alloc, siblings)?;
    let texts = way.hashed_texts::<SumHasher>(alloc, &Digest32([3; 32]), index);
    drop(way);
    match texts? {
        Some(texts) => Ok(Some(are_hashed(&texts))),
        None => Ok(None),
    }
}

#[test]
fn a_way_tells_what_is_hashed(rt: HostRuntime) -> Result<(), Fail> {
    for (siblings, index, want) in [
        (1, 2, Some(true)),
        (2, 0, Some(false)),
        (0, 2, None),
        (2, 2, None),
        (1, 0, None),
        (1, 3, None),
    ] {
        assert_eq!(rt;
            hashed(rt.alloc(), siblings, index)?,
            want,
            "{siblings} {index}"
        );
    }
    Ok(())
}

// Whether a way is written in so many bytes, and read back from them.
fn is_read_back(alloc: Global, way: &Proof<Digest32>, size: usize) -> Result<bool, Fail> {
    let mut out = Vec::new(alloc);
    way.write(&mut out)?;
    let mut reader = Reader::new(&out);
    let read = Proof::<Digest32>::read(alloc, &mut reader)?;
    Ok(out.len() == size && read == *way && reader.finish() == Ok(()))
}

fn is_copied(alloc: Global, way: &Proof<Digest32>) -> Result<bool, Fail> {
    Ok(way.copy(alloc)? == *way)
}

fn is_again(alloc: Global, way: &Proof<Digest32>, size: usize) -> Result<bool, Fail> {
    Ok(is_copied(alloc, way)? && is_read_back(alloc, way, size)?)
}

// Whether the last way with so many siblings has so many bytes, is read back and copied.
fn is_last_again(alloc: Global, siblings: usize, size: usize) -> Result<bool, Fail> {
    let way = last_way(alloc, siblings)?;
    let again = is_again(alloc, &way, size);
    drop(way);
    again
}

#[test]
fn a_way_has_at_most_so_many_bytes(rt: HostRuntime) -> Result<(), Fail> {
    let one = Proof::<Digest32>::max_encode_size(1);
    let most = Proof::<Digest32>::max_encode_size(32);
    let chunk = Chunk::<Digest32>::max_encode_size(4, 2);
    assert_eq!(rt; (one, most, chunk), (37, 1029, 80));
    assert!(rt; is_last_again(rt.alloc(), 1, one)?);
    assert!(rt; is_last_again(rt.alloc(), 32, most)?);
    Ok(())
}

// Whether the last way is written in its number of leaves, its number of siblings, and these.
fn is_spelled(alloc: Global) -> Result<bool, Fail> {
    let mut out = Vec::new(alloc);
    last_way(alloc, 1)?.write(&mut out)?;
    Ok(out.as_slice().strip_prefix(&[0, 0, 0, 3, 1]) == Some([32; 32].as_slice()))
}

// Why bytes are no way, and how many are left then.
fn refusal(alloc: Global, bytes: &[u8]) -> (Option<CodecError>, usize) {
    let mut reader = Reader::new(bytes);
    let read = Proof::<Digest32>::read(alloc, &mut reader);
    (read.err(), reader.rest().len())
}

#[test]
fn a_way_is_written_in_its_format(rt: HostRuntime) -> Result<(), Fail> {
    assert!(rt; is_spelled(rt.alloc())?);
    let cases: [(&[u8], CodecError, usize); 4] = [
        (&[0, 0, 3], CodecError::EndOfBuffer, 3),
        (&[0, 0, 0, 3], CodecError::EndOfBuffer, 0),
        (&[0, 0, 0, 3, 33, 9], CodecError::TooLong, 1),
        (&[0, 0, 0, 3, 1, 9], CodecError::EndOfBuffer, 1),
    ];
    for (bytes, error, left) in cases {
        assert_eq!(rt; refusal(rt.alloc(), bytes), (Some(error), left));
    }
    Ok(())
}

// The bytes of a shard whose chunk is gone.
fn left_over(alloc: Global) -> Result<Bytes, Fail> {
    let shard = Bytes::copy_from_slice(alloc, &[1, 2, 3, 4])?;
    let chunk = Chunk::new(shard, 5, last_way(alloc, 1)?);
    let shared = chunk.shared();
    drop(chunk);
    Ok(shared?)
}

#[test]
fn a_shard_outlives_its_chunk(rt: HostRuntime) -> Result<(), Fail> {
    let shard = left_over(rt.alloc())?;
    assert!(rt; shard.as_slice() == [1, 2, 3, 4].as_slice());
    Ok(())
}
