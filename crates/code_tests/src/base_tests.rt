//! Tests of cw_base: hashers, numbers as bytes, sources and sinks, strategies.

use cw_base::{
    Digest, Digest32, Failed, Gate, Hasher, Items, MemorySink, MemorySource, NoGate, Sequential,
    Sha256, Sink, Source, Strategy, SumHasher, Threads, put_be16, put_be32, put_be64, put_bytes,
    put_u8, put_varint, run_of,
};
use std::alloc::Global;
use std::sync::atomic::{AtomicU64, Ordering};
use std::test::Fail;
use std::thread;

fn digest(byte: u8) -> Digest32 {
    Digest32([byte; 32])
}

const ABC: [u8; 32] = [
    0xba, 0x78, 0x16, 0xbf, 0x8f, 0x01, 0xcf, 0xea, 0x41, 0x41, 0x40, 0xde, 0x5d, 0xae, 0x22, 0x23,
    0xb0, 0x03, 0x61, 0xa3, 0x96, 0x17, 0x7a, 0x9c, 0xb4, 0x10, 0xff, 0x61, 0xf2, 0x00, 0x15, 0xad,
];

#[test]
fn hashers_give_known_digests(rt: HostRuntime) {
    assert_eq!(rt; SumHasher::hash(&[]), digest(0));
    assert_eq!(rt; SumHasher::hash(&[200, 57]), digest(1));
    assert_eq!(rt; SumHasher::hash_pair(&[200], &[57, 2]), digest(3));
    // the digest of "abc" in FIPS 180-4
    let abc = Sha256::hash(b"abc");
    assert_eq!(rt; abc, Digest32(ABC));
    assert!(rt; Sha256::hash_pair(b"a", b"bc").is_same(&abc));
    assert_eq!(rt; Digest32::from_slice(&[7; 32]), Some(digest(7)));
    assert_eq!(rt; Digest32::from_slice(&[7; 31]), None);
    assert_eq!(rt; Digest32::EMPTY, digest(0));
}

#[test]
fn numbers_are_written_in_their_bytes(rt: HostRuntime) -> Result<(), Fail> {
    let mut out = Vec::new(rt.alloc());
    put_u8(&mut out, 5)?;
    put_be16(&mut out, 0x0102)?;
    put_be32(&mut out, 0x0304_0506)?;
    put_be64(&mut out, 7)?;
    put_bytes(&mut out, &[8, 9])?;
    assert!(rt; out.as_slice() == [5, 1, 2, 3, 4, 5, 6, 0, 0, 0, 0, 0, 0, 0, 7, 8, 9].as_slice());
    let mut varints = Vec::new(rt.alloc());
    for value in [127u32, 128, 300, 1_048_576, u32::MAX] {
        put_varint(&mut varints, value)?;
    }
    let want = [
        0x7f, 0x80, 0x01, 0xac, 0x02, 0x80, 0x80, 0x40, 0xff, 0xff, 0xff, 0xff, 0x0f,
    ];
    assert!(rt; varints.as_slice() == want.as_slice());
    Ok(())
}

#[test]
fn a_source_fails_in_the_calls_named(rt: HostRuntime) -> Result<(), Fail> {
    let bytes = [1u8, 2, 3, 4].to_vec(rt.alloc())?;
    let failing = [2u64].to_vec(rt.alloc())?;
    let mut source = MemorySource::new(bytes, 3, failing);
    let mut room = [0u8; 8];
    assert_eq!(rt; source.take(&mut room), Ok(3));
    assert_eq!(rt; source.take(&mut room), Err(Failed));
    assert_eq!(rt; source.take(&mut room), Ok(1));
    assert_eq!(rt; source.take(&mut room), Ok(0));
    Ok(())
}

// What a sink is given, and how many bytes of it are taken.
const PUTS: [(&[u8], Result<usize, Failed>); 5] = [
    (&[7; 1020], Ok(1000)),
    (&[5], Err(Failed)),
    (&[5; 30], Ok(24)),
    (&[5], Err(Failed)),
    (&[], Ok(0)),
];

#[test]
fn a_sink_takes_pieces_within_its_room(rt: HostRuntime) -> Result<(), Fail> {
    let failing = [2u64].to_vec(rt.alloc())?;
    let mut sink = MemorySink::new(rt.alloc(), 1000, failing)?;
    for (bytes, taken) in PUTS {
        assert_eq!(rt; sink.put(bytes), taken);
    }
    sink.reserve(2)?;
    for (bytes, taken) in [([6, 7, 8].as_slice(), Ok(2)), (&[8], Err(Failed))] {
        assert_eq!(rt; sink.put(bytes), taken);
    }
    assert!(rt; sink.bytes().ends_with(&[5, 5, 6, 7]));
    assert_eq!(rt; sink.bytes().len(), 1026);
    Ok(())
}

#[test]
fn a_map_answers_in_the_order_of_the_items(rt: HostRuntime) -> Result<(), Fail> {
    let halves = Sequential.map(&rt, rt.alloc(), &[8u64, 2, 5], &|x: &u64| *x / 2)?;
    assert!(rt; halves.as_slice() == [4, 1, 2].as_slice());
    assert_eq!(rt; Sequential.pieces(), 1);
    Ok(())
}

// Counts how often each piece arrives: a hexadecimal digit a piece.
#[derive(Drop)]
struct Counter {
    arrived: AtomicU64,
}

impl Gate for Counter {
    fn arrive(&self, piece: usize) {
        let place = match piece {
            0 => 0x1,
            1 => 0x10,
            2 => 0x100,
            _ => 0x1000,
        };
        self.arrived.fetch_add(place, Ordering::SeqCst);
    }
}

#[test]
fn each_piece_arrives_once_and_no_more_than_items(rt: HostRuntime) -> Result<(), Fail> {
    let cases: [(&[u64], u64); 5] = [
        (&[1, 2, 3, 4, 5], 0x111),
        (&[1, 2, 3], 0x111),
        (&[1, 2], 0x11),
        (&[1], 0x1),
        (&[], 0),
    ];
    for (items, arrived) in cases {
        let counter = Counter {
            arrived: AtomicU64::new(0),
        };
        let three = Threads::new(3, &counter);
        let same = three.map(&rt, rt.alloc(), items, &|x: &u64| *x)?;
        assert!(rt; same.as_slice() == items);
        assert_eq!(rt; counter.arrived.load(Ordering::SeqCst), arrived);
    }
    Ok(())
}

#[test]
fn runs_are_as_even_as_can_be(rt: HostRuntime) {
    for (piece, first, end) in [(0, 0, 3), (1, 3, 5), (2, 5, 7)] {
        assert_eq!(rt; run_of(7, 3, piece), (first, end));
    }
}

#[test]
fn threads_answer_as_one_thread_does(rt: HostRuntime) -> Result<(), Fail> {
    let items = [3u64, 1, 4, 1, 5, 9, 2, 6];
    for count in [1usize, 3, 64] {
        for len in 0..9usize {
            let threads = Threads::new(count, NoGate);
            let beside = threads.map(&rt, rt.alloc(), &items[..len], &|x: &u64| *x / 2)?;
            let behind = Sequential.map(&rt, rt.alloc(), &items[..len], &|x: &u64| *x / 2)?;
            assert!(rt; beside.as_slice() == behind.as_slice(), "{count} {len}");
        }
    }
    Ok(())
}

// Holds piece 0 until piece 1 arrives, for ten million turns at the most.
#[derive(Drop)]
struct Door {
    open: AtomicU64,
    passed: AtomicU64,
}

impl Gate for Door {
    fn arrive(&self, piece: usize) {
        if piece == 1 {
            self.open.store(1, Ordering::SeqCst);
        }
        if piece == 0 {
            for _ in 0..10_000_000u64 {
                if self.open.load(Ordering::SeqCst) == 1 {
                    self.passed.store(1, Ordering::SeqCst);
                    return;
                }
                thread::yield_now();
            }
        }
    }
}

#[test]
fn pieces_run_beside_each_other(rt: HostRuntime) -> Result<(), Fail> {
    let door = Door {
        open: AtomicU64::new(0),
        passed: AtomicU64::new(0),
    };
    let halves = Threads::new(2, &door).map(&rt, rt.alloc(), &[8u64, 2, 5], &|x: &u64| *x / 2)?;
    assert!(rt; halves.as_slice() == [4, 1, 2].as_slice());
    assert_eq!(rt; door.passed.load(Ordering::SeqCst), 1);
    Ok(())
}

// Whether rows of 128 bytes are hashed by four threads as one behind the other.
fn hash_alike<R: thread::Threads + Sync>(
    rt: &R,
    alloc: Global,
    count: usize,
    counter: &Counter,
) -> Result<bool, Fail> {
    let rows = vec![in alloc; 7u8; 128 * count.min(512)]?;
    if rows.len() % 128 != 0 {
        return Ok(false);
    }
    let four = Threads::new(4, counter);
    let beside = Sha256::hash_many(rt, alloc, &rows, 128, &four)?;
    let behind = Sha256::hash_many(rt, alloc, &rows, 128, &Sequential)?;
    Ok(beside.len() == count && beside.as_slice() == behind.as_slice())
}

#[test]
fn few_rows_are_hashed_on_the_callers_thread(rt: HostRuntime) -> Result<(), Fail> {
    for (count, arrived) in [(0, 0), (1, 0), (255, 0), (256, 0x1111)] {
        let counter = Counter {
            arrived: AtomicU64::new(0),
        };
        let alike = hash_alike(&rt, rt.alloc(), count, &counter)?;
        assert!(rt; alike, "{count}");
        assert_eq!(rt; counter.arrived.load(Ordering::SeqCst), arrived, "{count}");
    }
    Ok(())
}

#[test]
fn items_are_taken_from_the_end(rt: HostRuntime) -> Result<(), Fail> {
    let mut items = Items::from_vec([1u8, 2, 3].to_vec(rt.alloc())?);
    assert_eq!(rt; items.pop(), Some(3));
    items.truncate(1);
    assert!(rt; items.as_slice() == [1].as_slice());
    items.truncate(4);
    assert_eq!(rt; items.pop(), Some(1));
    assert_eq!(rt; items.pop(), None);
    Ok(())
}
