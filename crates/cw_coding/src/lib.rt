//! Coding of data into shards that prove their place under one root, and recovery of the data from
//! enough of them.
#![tactic(auto)]

mod checking;
mod clash;
mod decoding;
mod encoding;
mod error;
mod gathering;
mod hashing;
mod laws;
mod layout;
mod recovering;
mod scheme;
mod sizes;

pub use checking::CheckedChunk;
pub use clash::find_clash;
pub use cw_base::Config;
pub use cw_tree::{Chunk, bmt, canonical_shard_len};
pub use error::{ReedSolomonError, RsError};
pub use laws::encodings_decode;
pub use scheme::{ReedSolomon, Scheme};
pub use sizes::max_shard_size_fits;
