//! The lines of a text, the fields of a line, and what a field stands for.

ghost use Rattle.std.specs.Prelude.{◌≡◌, ◌==◌, IfOk, map, ◌++◌, [], ◌∷◌};
ghost use Rattle.std.specs.Char.{is_ascii_digit};
ghost use Rattle.std.specs.List.{list_all, slice_split};
ghost use Rattle.hail_script.specs.Pieces as pieces;

use cw_base::{Items, NoMemory};
use hex::FromHexError;
use std::alloc::{AllocError, Global};
use std::str;

/// The pieces of a text between separators.
pub fn pieces_of(alloc: Global, text: &[u8], separator: u8) -> Result<Vec<&[u8]>, AllocError>
    ensures { IfOk result
        (λ pieces. map (λ piece. piece.now) pieces.items ≡ slice_split
        (λ b. b == separator) text.now) }
{
    text.split(|b| *b == separator).collect(alloc)
}

/// The lines but for an empty one at the end, since a line feed at the end begins no further line.
pub(crate) fn without_empty_end<'a, 'b>(lines: &'b [&'a [u8]]) -> &'b [&'a [u8]]
    ensures { map (λ line. line.now) result.now ≡ pieces.without_empty_end
        (map (λ line. line.now) lines.now) }
{
    match lines {
        [front @ .., last] if last.is_empty() => front,
        _ => lines,
    }
}

fn are_digits(field: &[u8]) -> bool
    ensures { result ≡ list_all is_ascii_digit field.now }
{
    field.iter().all(|b| b.is_ascii_digit())
}

/// The value of one or more digits, below 2^64.
pub fn number_of(field: &[u8]) -> Option<u64>
    ensures { result ≡ pieces.number field.now }
{
    if field.is_empty() {
        return None;
    }
    if !are_digits(field) {
        return None;
    }
    let Ok(digits) = str::from_utf8(field) else {
        return None;
    };
    match digits.parse::<u64>() {
        Ok(value) => Some(value),
        Err(_) => None,
    }
}

/// The bytes of a field in hexadecimal, which is `-` for none.
#[tactic(auto, unfolding(crate::specs::Pieces::bytes_in))]
pub fn bytes_of(alloc: Global, field: &[u8]) -> Result<Option<Items<u8>>, NoMemory>
    ensures { IfOk result (λ bytes. bytes ≡ pieces.bytes_in field.now) }
{
    if field == b"-".as_slice() {
        return Ok(Some(Items::new(alloc)));
    }
    if field.is_empty() {
        return Ok(None);
    }
    match hex::decode(alloc, field) {
        Ok(bytes) => Ok(Some(Items::from_vec(bytes))),
        Err(FromHexError::OutOfMemory) => Err(NoMemory),
        Err(_) => Ok(None),
    }
}

/// The numbers that fields are, if all are.
pub fn numbers_of(alloc: Global, fields: &[&[u8]]) -> Result<Option<Items<u64>>, NoMemory>
    ensures { IfOk result
        (λ numbers. numbers ≡ pieces.numbers (map (λ field. field.now) fields.now)) }
{
    let mut numbers = Items::new(alloc);
    for field in fields {
        match number_of(field) {
            None => return Ok(None),
            Some(number) => numbers.push(number)?,
        }
    }
    Ok(Some(numbers))
}
