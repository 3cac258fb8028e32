//! What a program was called with.

use std::env::{self, Env};
use std::io;

/// The words after the program's name. It fails where memory is short, or where a word isn't UTF-8.
/// Which words there are is known outside alone, so there is no clause.
pub fn words_of<R: Env + AllocGlobal>(rt: &R) -> io::Result<Vec<String>> {
    let mut words = Vec::new(rt.alloc());
    for word in env::args(rt)?.skip(1) {
        words.push(word)?;
    }
    Ok(words)
}
