//! Numbers as bytes, at the end of a text. A call that is refused for memory changes nothing.

ghost use Rattle.std.specs.Prelude.{◌≡◌, ◌/◌, ◌%◌, ◌^◌, ◌<◌, ◌≤◌, [], ◌∷◌, ◌++◌, take, OnOk, OnErr};
ghost use Rattle.cw_base.specs.Bytes.{be16, be32, be64, varint};

use crate::error::NoMemory;

/// One byte.
pub fn put_u8(out: &mut Vec<u8>, value: u8) -> Result<(), NoMemory>
    ensures ok { OnOk result (out.new.items ≡ out.old.items ++ value ∷ []) }
    ensures err { OnErr result (out.new.items ≡ out.old.items) }
{
    out.push(value)?;
    Ok(())
}

/// Two bytes, the high one first.
#[tactic(auto, unfolding(crate::specs::Bytes::be16))]
pub fn put_be16(out: &mut Vec<u8>, value: u16) -> Result<(), NoMemory>
    ensures ok { OnOk result (out.new.items ≡ out.old.items ++ be16 value) }
    ensures err { OnErr result (out.new.items ≡ out.old.items) }
{
    put_bytes(out, &value.to_be_bytes())
}

/// Four bytes, the high one first.
#[tactic(auto, unfolding(crate::specs::Bytes::be32))]
pub fn put_be32(out: &mut Vec<u8>, value: u32) -> Result<(), NoMemory>
    ensures ok { OnOk result (out.new.items ≡ out.old.items ++ be32 value) }
    ensures err { OnErr result (out.new.items ≡ out.old.items) }
{
    put_bytes(out, &value.to_be_bytes())
}

/// Eight bytes, the high one first.
#[tactic(auto, unfolding(crate::specs::Bytes::be64))]
pub fn put_be64(out: &mut Vec<u8>, value: u64) -> Result<(), NoMemory>
    ensures ok { OnOk result (out.new.items ≡ out.old.items ++ be64 value) }
    ensures err { OnErr result (out.new.items ≡ out.old.items) }
{
    put_bytes(out, &value.to_be_bytes())
}

/// The bytes as they are.
pub fn put_bytes(out: &mut Vec<u8>, bytes: &[u8]) -> Result<(), NoMemory>
    ensures ok { OnOk result (out.new.items ≡ out.old.items ++ bytes.now) }
    ensures err { OnErr result (out.new.items ≡ out.old.items) }
{
    out.extend_from_slice(bytes)?;
    Ok(())
}

/// Seven bits a byte, the low part first, the top bit set on every byte but the last.
pub fn put_varint(out: &mut Vec<u8>, value: u32) -> Result<(), NoMemory>
    ensures ok { OnOk result (out.new.items ≡ out.old.items ++ varint value) }
    ensures err { OnErr result (out.new.items ≡ out.old.items) }
{
    let (bytes, count) = varint_bytes(value);
    put_bytes(out, &bytes[..count])
}

/// What a writer answers that began where `out` had `start` bytes: refused for memory, `out` gets
/// the bytes back that it had then.
///
/// ```text
/// let start = out.len();
/// let written = self.write_parts(out);
/// undo_refused(out, start, written)
/// ```
pub fn undo_refused(
    out: &mut Vec<u8>,
    start: usize,
    written: Result<(), NoMemory>,
) -> Result<(), NoMemory>
    ensures answer { result ≡ written }
    ensures ok { OnOk result (out.new.items ≡ out.old.items) }
    ensures err { OnErr result (out.new.items ≡ take start out.old.items) }
{
    if written.is_err() {
        out.truncate(start);
    }
    written
}

// The bytes of `value` in front of an array, and how many they are.
#[tactic(auto, unfolding(crate::specs::Bytes::varint))]
fn varint_bytes(value: u32) -> ([u8; 5], usize)
    ensures count { result.1 ≤ 5 }
    ensures bytes { take result.1 result.0 ≡ varint value }
{
    if value < 1 << 7 {
        ([low(value, 0), 0, 0, 0, 0], 1)
    } else if value < 1 << 14 {
        ([low(value, 0) | 0x80, low(value, 7), 0, 0, 0], 2)
    } else if value < 1 << 21 {
        (
            [
                low(value, 0) | 0x80,
                low(value, 7) | 0x80,
                low(value, 14),
                0,
                0,
            ],
            3,
        )
    } else if value < 1 << 28 {
        (
            [
                low(value, 0) | 0x80,
                low(value, 7) | 0x80,
                low(value, 14) | 0x80,
                low(value, 21),
                0,
            ],
            4,
        )
    } else {
        (
            [
                low(value, 0) | 0x80,
                low(value, 7) | 0x80,
                low(value, 14) | 0x80,
                low(value, 21) | 0x80,
                low(value, 28),
            ],
            5,
        )
    }
}

// Seven bits of `value`, from bit `shift` on.
fn low(value: u32, shift: u32) -> u8
    requires { shift < 32 }
    ensures value { result ≡ value / 2 ^ shift % 128 }
    ensures small { result < 128 }
{
    (value >> shift & 0x7f) as u8
}
