//! Tables that stand in texts, a case a line: a name, numbers, and what is wanted, behind `: `.

use std::alloc::Global;
use std::test::Fail;

/// A case of a table.
#[derive(Drop)]
pub(crate) struct Case<'a> {
    pub name: &'a str,
    pub bytes: Vec<u8>,
    pub want: &'a str,
}

/// The case of a line.
pub(crate) fn case_in<'a>(alloc: Global, line: &'a str) -> Result<Case<'a>, Fail> {
    let (name, rest) = two(line)?;
    let (numbers, want) = two(rest)?;
    let bytes = bytes_of(alloc, numbers)?;
    Ok(Case { name, bytes, want })
}

// What stands before and behind the first mark.
fn two<'a>(text: &'a str) -> Result<(&'a str, &'a str), Fail> {
    match text.split_once(": ") {
        Some(parts) => Ok(parts),
        None => Err("a mark in a table".into()),
    }
}

/// The bytes of numbers, among which `2*96` stands for 96 times 2.
pub(crate) fn bytes_of(alloc: Global, numbers: &str) -> Result<Vec<u8>, Fail> {
    let mut bytes = Vec::new(alloc);
    for number in numbers.split_whitespace() {
        push_number(&mut bytes, number)?;
    }
    Ok(bytes)
}

fn push_number(bytes: &mut Vec<u8>, number: &str) -> Result<(), Fail> {
    let (byte, count) = number.split_once("*").unwrap_or((number, "1"));
    let byte = byte.parse::<u8>()?;
    for _ in 0..count.parse::<u8>()? {
        bytes.push(byte)?;
    }
    Ok(())
}
