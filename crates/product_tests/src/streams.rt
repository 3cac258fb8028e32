//! Sources and sinks in memory.

ghost use Rattle.std.specs.Prelude.{◌≤◌};

use cw_base::{MemorySink, MemorySource, NoMemory};
use std::alloc::Global;

/// How a script comes in and a text goes out.
#[derive(Clone, Copy)]
pub(crate) struct Ways {
    /// How many bytes the source has, where these are more than the script's: digits fill it up
    /// behind the script's last line.
    pub size: usize,
    /// The call of the source that fails, from 1 on; none at 0. Where one fails, the source gives
    /// three bytes a call.
    pub reading: u64,
    /// The same of the sink, which takes three bytes a call.
    pub writing: u64,
}

/// Nothing fails, and no digits are added.
pub(crate) const PLAIN: Ways = Ways {
    size: 0,
    reading: 0,
    writing: 0,
};

/// A source of a script.
pub(crate) fn source_of(alloc: Global, ways: Ways, script: &str) -> Result<MemorySource, NoMemory> {
    let mut bytes = script.as_bytes().to_vec(alloc)?;
    if bytes.len() < ways.size {
        let _end = bytes.pop();
        bytes.resize(ways.size, b'0')?;
    }
    let failing = vec![in alloc; ways.reading]?;
    Ok(MemorySource::new(bytes, piece_at(ways.reading), failing))
}

/// A sink that takes 65,536 bytes.
pub(crate) fn sink_of(alloc: Global, ways: Ways) -> Result<MemorySink, NoMemory> {
    let failing = vec![in alloc; ways.writing]?;
    let mut sink = MemorySink::new(alloc, piece_at(ways.writing), failing)?;
    sink.reserve(65_536)?;
    Ok(sink)
}

// How many bytes go through a call.
fn piece_at(failing: u64) -> usize
    ensures { 1 ≤ result }
{
    if failing == 0 { 65_536 } else { 3 }
}

/// The words of a text.
pub(crate) fn words_of(alloc: Global, text: &str) -> Result<Vec<String>, NoMemory> {
    let mut words = Vec::new(alloc);
    for word in text.split_whitespace() {
        words.push(String::from_str(alloc, word)?)?;
    }
    Ok(words)
}
