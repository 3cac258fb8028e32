//! Tests of cw_base's readers, and of rows that are hashed.

use cw_base::{CodecError, Config, Digest32, Hasher, Reader, Sequential, Sha256, SumHasher};
use std::test::Fail;

#[test]
fn varints_read_in_their_shortest_form_alone(rt: HostRuntime) {
    let cases: [(&[u8], Result<u32, CodecError>); 16] = [
        (&[0x7f], Ok(127)),
        (&[0x80, 0x01], Ok(128)),
        (&[0xac, 0x02], Ok(300)),
        (&[0x80, 0x80, 0x40], Ok(1_048_576)),
        (&[0xff, 0xff, 0xff, 0xff, 0x0f], Ok(u32::MAX)),
        (&[0x00], Ok(0)),
        (&[0x80, 0x00], Err(CodecError::InvalidVarint)),
        (
            &[0xff, 0xff, 0xff, 0xff, 0x10],
            Err(CodecError::InvalidVarint),
        ),
        (
            &[0x80, 0x80, 0x80, 0x80, 0x80],
            Err(CodecError::InvalidVarint),
        ),
        (
            &[0x80, 0x80, 0x80, 0x80, 0x00],
            Err(CodecError::InvalidVarint),
        ),
        (&[0x80, 0x80, 0x00], Err(CodecError::InvalidVarint)),
        (
            &[0xff, 0xff, 0xff, 0xff, 0xff],
            Err(CodecError::InvalidVarint),
        ),
        (&[], Err(CodecError::EndOfBuffer)),
        (&[0x80], Err(CodecError::EndOfBuffer)),
        (&[0xff, 0x80], Err(CodecError::EndOfBuffer)),
        (&[0x80, 0x80, 0x80, 0x80], Err(CodecError::EndOfBuffer)),
    ];
    for (bytes, want) in cases.iter() {
        let mut reader = Reader::new(bytes);
        assert_eq!(rt; reader.varint(), *want);
    }
}

// A call of a reader.
#[derive(Clone, Copy)]
enum Call {
    Byte,
    Two,
    Four,
    Eight,
    Varint,
    Take(usize),
    Finish,
}

// What a call reads: a number, of `take` how many bytes, and of `finish` 0.
fn answer(reader: &mut Reader, call: Call) -> Result<u64, CodecError> {
    match call {
        Call::Byte => reader.u8().map(u64::from),
        Call::Two => reader.be16().map(u64::from),
        Call::Four => reader.be32().map(u64::from),
        Call::Eight => reader.be64(),
        Call::Varint => reader.varint().map(u64::from),
        Call::Take(count) => reader.take(count).map(|bytes| bytes.len() as u64),
        Call::Finish => reader.finish().map(|()| 0),
    }
}

// Calls of one reader, and what they read.
const CALLS: [(Call, Result<u64, CodecError>); 10] = [
    (Call::Eight, Err(CodecError::EndOfBuffer)),
    (Call::Byte, Ok(1)),
    (Call::Four, Ok(0x0203_0405)),
    (Call::Four, Err(CodecError::EndOfBuffer)),
    (Call::Varint, Err(CodecError::InvalidVarint)),
    (Call::Take(3), Err(CodecError::EndOfBuffer)),
    (Call::Finish, Err(CodecError::Extra)),
    (Call::Two, Ok(0x8000)),
    (Call::Finish, Ok(0)),
    (Call::Byte, Err(CodecError::EndOfBuffer)),
];

#[test]
fn a_reader_that_refused_stands_where_it_stood(rt: HostRuntime) {
    let mut reader = Reader::new(&[1, 2, 3, 4, 5, 0x80, 0]);
    for (call, want) in CALLS {
        assert_eq!(rt; answer(&mut reader, call), want);
    }
    assert_eq!(rt; Reader::new(&[0, 0, 0, 0, 0, 0, 1, 2]).be64(), Ok(258));
}

// What a config is read as, and the bytes behind it.
fn config_and_rest(bytes: &[u8]) -> (Result<[u8; 4], CodecError>, &[u8]) {
    let mut reader = Reader::new(bytes);
    let config = Config::read(&mut reader).map(|config| config.write());
    (config, reader.rest())
}

#[test]
fn configs_are_read_without_zeros(rt: HostRuntime) {
    let cases: [(&[u8], Result<[u8; 4], CodecError>, usize); 4] = [
        (&[0, 2, 1, 0, 9], Ok([0, 2, 1, 0]), 1),
        (&[0, 0, 0, 0], Err(CodecError::Invalid), 2),
        (&[0, 1, 0, 0], Err(CodecError::Invalid), 0),
        (&[0, 1, 7], Err(CodecError::EndOfBuffer), 1),
    ];
    for (bytes, want, left) in cases {
        let (config, rest) = config_and_rest(bytes);
        assert_eq!(rt; config, want);
        assert!(rt; bytes.ends_with(rest));
        assert_eq!(rt; rest.len(), left);
    }
}

#[test]
fn each_row_is_hashed(rt: HostRuntime) -> Result<(), Fail> {
    let hashes = SumHasher::hash_many(&rt, rt.alloc(), &[1, 2, 3, 4, 5, 6], 2, &Sequential)?;
    assert!(rt;
        hashes.as_slice() == [Digest32([3; 32]), Digest32([7; 32]), Digest32([11; 32])].as_slice()
    );
    assert_eq!(rt;
        Sha256::hash_many(&rt, rt.alloc(), &[], 4, &Sequential)?.len(),
        0
    );
    Ok(())
}
