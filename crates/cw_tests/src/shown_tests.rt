//! What errors, digests and configs show, and how commitments are ordered.

use cw_base::{CodecError, Config, Digest32, Failed, NoMemory};
use cw_types::Commitment;
use node_disk::{DiskError, StoreError};
use std::test::Fail;

const CODEC: [(CodecError, &str); 6] = [
    (CodecError::EndOfBuffer, "fewer bytes are left than asked"),
    (
        CodecError::InvalidVarint,
        "a varint that is not in its shortest form, or above 32 bits",
    ),
    (CodecError::TooLong, "a length above its limit"),
    (CodecError::Invalid, "a tag or a value outside its table"),
    (CodecError::Extra, "bytes are left at the end"),
    (CodecError::NoMemory, "memory ran out"),
];

const DISK: [(DiskError, &str); 2] = [
    (DiskError::Failed, "the disk failed"),
    (
        DiskError::NoMemory,
        "memory ran out, and nothing was done to the disk",
    ),
];

const STORE: [(StoreError, &str); 4] = [
    (StoreError::Disk, "the disk failed"),
    (
        StoreError::Failed,
        "an earlier call failed: start again on the disk",
    ),
    (StoreError::NoMemory, "memory ran out"),
    (
        StoreError::Foreign(7),
        "not a file of this log: the frame at byte 7 is cut or no record",
    ),
];

#[test]
fn errors_are_told_in_words(rt: HostRuntime) -> Result<(), Fail> {
    let alloc = rt.alloc();
    for (error, want) in CODEC {
        assert_eq!(rt; format!(in alloc; "{error}")?.as_str(), want);
    }
    for (error, want) in DISK {
        assert_eq!(rt; format!(in alloc; "{error}")?.as_str(), want);
    }
    for (error, want) in STORE {
        assert_eq!(rt; format!(in alloc; "{error}")?.as_str(), want);
    }
    let shared = format!(in alloc; "{}, {}", NoMemory, Failed)?;
    assert_eq!(rt;
        shared.as_str(),
        "memory ran out, a source or a sink failed"
    );
    Ok(())
}

const HEX: &str = "000102030405060708090a0b0c0d0e0f1011121314151617ff80fe7f10203040";

#[test]
fn a_digest_is_shown_in_hex(rt: HostRuntime) -> Result<(), Fail> {
    let digest = Digest32([
        0, 1, 2, 3, 4, 5, 6, 7, 8, 9, 10, 11, 12, 13, 14, 15, 16, 17, 18, 19, 20, 21, 22, 23, 255,
        128, 254, 127, 16, 32, 48, 64,
    ]);
    assert_eq!(rt; format!(in rt.alloc(); "{digest}")?.as_str(), HEX);
    Ok(())
}

#[test]
fn no_number_of_a_config_is_zero(rt: HostRuntime) {
    for (minimum, extra) in [(0, 0), (0, 1), (1, 0)] {
        assert!(rt; Config::new(minimum, extra).is_none());
    }
    for (minimum, extra) in [(1, 1), (2, 3), (65535, 65535)] {
        let numbers = Config::new(minimum, extra).map(|it| (it.minimum(), it.extra()));
        assert_eq!(rt; numbers, Some((minimum, extra)));
    }
}

// Bytes of a digest: the first and the last, zeros between them.
fn digest(first: u8, last: u8) -> Digest32 {
    let mut bytes = [0; 32];
    bytes[0] = first;
    bytes[31] = last;
    Digest32(bytes)
}

fn commitment(digests: [Digest32; 3], minimum: u16, extra: u16) -> Option<Commitment> {
    let [block, root, context] = digests;
    let config = Config::new(minimum, extra)?;
    Some(Commitment {
        block,
        root,
        context,
        config,
    })
}

// Each is below the next; behind the field that decides, the fields fall.
fn rising() -> Option<[Commitment; 7]> {
    let (least, low, high) = (digest(0, 0), digest(0, 9), digest(1, 0));
    Some([
        commitment([least, low, high], 9, 9)?,
        commitment([low, least, high], 9, 9)?,
        commitment([high, least, high], 9, 9)?,
        commitment([high, low, least], 9, 9)?,
        commitment([high, low, low], 2, 9)?,
        commitment([high, low, low], 3, 1)?,
        commitment([high, low, low], 3, 2)?,
    ])
}

#[test]
fn each_field_of_a_commitment_decides_in_turn(rt: HostRuntime) -> Result<(), Fail> {
    let Some(all) = rising() else {
        return Err("configs".into());
    };
    for (i, one) in all.iter().enumerate() {
        for (j, other) in all.iter().enumerate() {
            assert!(rt; one.cmp(other) == i.cmp(&j));
            assert!(rt; (one == other) == one.is_same(other));
        }
    }
    Ok(())
}
