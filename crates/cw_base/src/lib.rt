//! What everything stands on: digests and hashers, strategies, numbers as bytes, and the outside
//! as a source of bytes and a sink for them.
#![tactic(auto)]

mod codec;
mod config;
mod error;
mod hash;
mod items;
mod memory;
mod reader;
mod reading_laws;
mod rows;
mod standard;
mod strategy;
mod stream;
mod threads;

pub use codec::{put_be16, put_be32, put_be64, put_bytes, put_u8, put_varint, undo_refused};
pub use config::Config;
pub use error::{Failed, NoMemory};
pub use hash::{Digest, Digest32, FEW_BYTES, Hasher, Sha256, SumHasher};
pub use items::Items;
pub use memory::{MemorySink, MemorySource};
pub use reader::{CodecError, Reader};
pub use reading_laws::{bytes_fit, numbers_read_back};
pub use standard::{StdSink, StdSource};
pub use strategy::{Sequential, Strategy, run_of};
pub use stream::{Sink, Source};
pub use threads::{Gate, NoGate, Threads};
