//! Reading at the front of a byte slice.

ghost use Rattle.std.specs.Prelude.{◌≡◌, ◌↔◌, ℕ, ◌+◌, ◌*◌, ◌^◌, ◌<◌, ◌≤◌, Bool, List, MatchResult};
ghost use Rattle.std.specs.Prelude.{IfOk, Ok, Err};
ghost use Rattle.cw_base.specs.Ends.{IsEnd};
ghost use Rattle.cw_base.specs.Reading.{IsRead, byte_at, bytes_at, be16_at, be32_at, be64_at};
ghost use Rattle.cw_base.specs.Reading.{varint_at, varint_from, end_at, config_at, nonzero_at};
ghost use Rattle.cw_base.specs.declared.reader.CodecError.TheVariants as codec;

use crate::config::Config;
use crate::error::NoMemory;
use std::alloc::{AllocError, AllocFailed};
use std::marker::Model;
use std::num::NonZeroU16;
use thiserror::Error;

/// Why bytes are not read.
#[derive(Clone, Copy, Debug, PartialEq, Eq, Error)]
pub enum CodecError {
    /// Fewer bytes are left than asked.
    #[error("fewer bytes are left than asked")]
    EndOfBuffer,
    /// A varint that isn't in its shortest form, or whose value is above `u32::MAX`.
    #[error("a varint that is not in its shortest form, or above 32 bits")]
    InvalidVarint,
    /// A length above its stated limit.
    #[error("a length above its limit")]
    TooLong,
    /// A tag or a value outside its table.
    #[error("a tag or a value outside its table")]
    Invalid,
    /// Bytes are left at the end.
    #[error("bytes are left at the end")]
    Extra,
    /// Memory ran out.
    #[error("memory ran out")]
    NoMemory,
}

impl From<NoMemory> for CodecError {
    ghost from_gives = { λ _ e. e ≡ codec.NoMemory };

    fn from(_error: NoMemory) -> CodecError {
        CodecError::NoMemory
    }
}

impl From<AllocError> for CodecError {
    ghost from_gives = { λ _ e. e ≡ codec.NoMemory };

    fn from(_error: AllocError) -> CodecError {
        CodecError::NoMemory
    }
}

impl<T: Drop> From<AllocFailed<T>> for CodecError {
    ghost from_gives = { λ _ e. e ≡ codec.NoMemory };

    fn from(_error: AllocFailed<T>) -> CodecError {
        CodecError::NoMemory
    }
}

/// The bytes that are left to read.
///
/// Each of its own calls takes a value at the front, or refuses and leaves the reader where it
/// stood.
///
/// ```text
/// let mut reader = Reader::new(&[7, 0, 9, 1]);
/// let (tag, number) = (reader.u8()?, reader.be16()?); // 7 and 9
/// assert_eq!(rt; reader.be32(), Err(CodecError::EndOfBuffer)); // one byte is left, and stays
/// ```
#[derive(Debug, Drop)]
pub struct Reader<'a> {
    left: &'a [u8],
}

impl<'a> Model for Reader<'a> {
    ghost use Rattle.std.specs.Prelude.{ℕ, List};

    ghost Value = { List ℕ };

    ghost view = { λ r. r.left.now };
}

impl<'a> Reader<'a> {
    /// A reader in front of these bytes.
    pub fn new(bytes: &'a [u8]) -> Reader<'a>
        ensures { result ≡ bytes.now }
    {
        Reader { left: bytes }
    }

    /// The bytes that are left. None of them is taken.
    pub fn rest(&self) -> &'a [u8]
        ensures { result.now ≡ self.now }
    {
        self.left
    }

    /// The next `count` bytes, or `EndOfBuffer`.
    #[tactic(auto, using(crate::proofs::Ends::ends))]
    pub fn take(&mut self, count: usize) -> Result<&'a [u8], CodecError>
        ensures value { IsRead (λ bytes. bytes.now) result self.new (bytes_at count self.old) }
        ensures place { IsEnd self.old self.new }
    {
        if self.left.len() < count {
            return Err(CodecError::EndOfBuffer);
        }
        let (front, rest) = self.left.split_at(count);
        self.left = rest;
        Ok(front)
    }

    /// The next byte, or `EndOfBuffer`.
    #[tactic(auto, using(crate::proofs::Ends::ends))]
    pub fn u8(&mut self) -> Result<u8, CodecError>
        ensures value { IsRead (λ n. n) result self.new (byte_at self.old) }
        ensures place { IsEnd self.old self.new }
    {
        let Some((first, rest)) = self.left.split_first() else {
            return Err(CodecError::EndOfBuffer);
        };
        self.left = rest;
        Ok(*first)
    }

    /// A number of two bytes, the high byte first, or `EndOfBuffer`.
    #[tactic(auto, using(crate::proofs::Ends::ends), unfolding(crate::specs::Reading::be16_at))]
    pub fn be16(&mut self) -> Result<u16, CodecError>
        ensures value { IsRead (λ n. n) result self.new (be16_at self.old) }
        ensures place { IsEnd self.old self.new }
    {
        let Some((front, rest)) = self.left.split_first_chunk::<2>() else {
            return Err(CodecError::EndOfBuffer);
        };
        self.left = rest;
        Ok(u16::from_be_bytes(*front))
    }

    /// A number of four bytes, the high byte first, or `EndOfBuffer`.
    #[tactic(auto, using(crate::proofs::Ends::ends), unfolding(crate::specs::Reading::be32_at))]
    pub fn be32(&mut self) -> Result<u32, CodecError>
        ensures value { IsRead (λ n. n) result self.new (be32_at self.old) }
        ensures place { IsEnd self.old self.new }
    {
        let Some((front, rest)) = self.left.split_first_chunk::<4>() else {
            return Err(CodecError::EndOfBuffer);
        };
        self.left = rest;
        Ok(u32::from_be_bytes(*front))
    }

    /// A number of eight bytes, the high byte first, or `EndOfBuffer`.
    #[tactic(auto, using(crate::proofs::Ends::ends), unfolding(crate::specs::Reading::be64_at))]
    pub fn be64(&mut self) -> Result<u64, CodecError>
        ensures value { IsRead (λ n. n) result self.new (be64_at self.old) }
        ensures place { IsEnd self.old self.new }
    {
        let Some((front, rest)) = self.left.split_first_chunk::<8>() else {
            return Err(CodecError::EndOfBuffer);
        };
        self.left = rest;
        Ok(u64::from_be_bytes(*front))
    }

    /// A number of seven bits a byte, the low part first, in its shortest form: `EndOfBuffer`
    /// where the bytes end before its last byte, `InvalidVarint` where the fifth byte is above 15,
    /// or the last of several bytes is 0.
    #[tactic(auto, using(crate::proofs::Ends::ends), unfolding(crate::specs::Reading::varint_at))]
    pub fn varint(&mut self) -> Result<u32, CodecError>
        ensures value { IsRead (λ n. n) result self.new (varint_at self.old) }
        ensures place { IsEnd self.old self.new }
    {
        match varint_of(self.left, 4, true) {
            Ok((value, rest)) => {
                self.left = rest;
                Ok(value)
            }
            Err(error) => Err(error),
        }
    }

    /// The end, or `Extra` where bytes are left.
    #[tactic(auto, using(crate::proofs::Ends::ends))]
    pub fn finish(&mut self) -> Result<(), CodecError>
        ensures value { IsRead (λ _. tt) result self.new (end_at self.old) }
        ensures place { IsEnd self.old self.new }
    {
        if !self.left.is_empty() {
            return Err(CodecError::Extra);
        }
        Ok(())
    }
}

// The number that a varint of at most `more + 1` bytes spells, and the bytes after it.
#[tactic(auto, using(crate::proofs::Ends::ends))]
fn varint_of(bytes: &[u8], more: u32, first: bool) -> Result<(u32, &[u8]), CodecError>
    requires { more ≤ 4 }
    ensures value { MatchResult result
        (λ x. varint_from more first bytes.now ≡ Ok (x.0, x.1.now))
        (λ e. varint_from more first bytes.now ≡ Err e) }
    ensures small { IfOk result (λ x. x.0 < 16 * 128 ^ more) }
    ensures place { IfOk result (λ x. IsEnd bytes.now x.1.now) }
{
    let Some((byte, rest)) = bytes.split_first() else {
        return Err(CodecError::EndOfBuffer);
    };
    let byte = u32::from(*byte);
    if more == 0 && byte > 15 {
        return Err(CodecError::InvalidVarint);
    }
    if byte < 128 {
        return if !first && byte == 0 {
            Err(CodecError::InvalidVarint)
        } else {
            Ok((byte, rest))
        };
    }
    match varint_of(rest, more - 1, false) {
        Ok((high, rest)) => Ok((byte - 128 + 128 * high, rest)),
        Err(error) => Err(error),
    }
}

impl Config {
    /// The config at the front: `Invalid` for a number that is zero, which is taken.
    ///
    /// Refused, the reader stands behind the parts that were taken.
    #[tactic(auto, using(crate::proofs::Ends::ends), unfolding(crate::specs::Reading::config_at))]
    pub fn read(reader: &mut Reader) -> Result<Config, CodecError>
        ensures value { IsRead (λ config. config) result reader.new (config_at reader.old) }
        ensures place { IsEnd reader.old reader.new }
    {
        let minimum_shards = nonzero(reader)?;
        let extra_shards = nonzero(reader)?;
        Ok(Config {
            minimum_shards,
            extra_shards,
        })
    }
}

// A number of two bytes that isn't zero.
#[tactic(auto, using(crate::proofs::Ends::ends))]
fn nonzero(reader: &mut Reader) -> Result<NonZeroU16, CodecError>
    ensures value { IsRead (λ n. n.value) result reader.new (nonzero_at reader.old) }
    ensures place { IsEnd reader.old reader.new }
{
    let value = reader.be16()?;
    match NonZeroU16::new(value) {
        Some(number) => Ok(number),
        None => Err(CodecError::Invalid),
    }
}
