//! Tables that stand in texts, whose parts begin with `== `.

use std::alloc::Global;
use std::test::Fail;

/// The first line of a text, and what stands behind it.
pub fn head_and_rest<'a>(text: &'a str) -> Result<(&'a str, &'a str), Fail> {
    match text.split_once("\n") {
        Some(parts) => Ok(parts),
        None => Err("a line in a table".into()),
    }
}

/// The numbers of a line.
pub fn numbers_of(alloc: Global, line: &str) -> Result<Vec<u16>, Fail> {
    let mut numbers = Vec::new(alloc);
    for word in line.split_whitespace() {
        numbers.push(word.parse::<u16>()?)?;
    }
    Ok(numbers)
}

// The value of a hexadecimal digit.
fn digit_of(digit: u8) -> u8 {
    if digit.is_ascii_digit() {
        digit.wrapping_sub(b'0')
    } else {
        digit.wrapping_sub(b'a' - 10)
    }
}

/// The bytes of hexadecimal digits, on so many lines.
pub fn bytes_of(alloc: Global, text: &str) -> Result<Vec<u8>, Fail> {
    let mut bytes = Vec::new(alloc);
    for line in text.lines() {
        for pair in line.as_bytes().chunks_exact(2) {
            let mut byte = 0u8;
            for digit in pair {
                byte = byte.wrapping_mul(16).wrapping_add(digit_of(*digit));
            }
            bytes.push(byte)?;
        }
    }
    Ok(bytes)
}
