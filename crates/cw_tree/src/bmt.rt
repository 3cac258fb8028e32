//! A binary tree over a list of digests, and the proof that a digest stands at its place.
//!
//! Leaf `i` is the hash of `i`, as four bytes, and its digest; a node is the hash of the two below
//! it. A level of odd length pairs its last node with itself, so that each level has half as many
//! nodes, rounded up. The root is the hash of the number of leaves, as four bytes, and the top.

mod node;
mod proof;
mod texts;
mod tree;
mod way;

pub use proof::Proof;
pub use tree::{Builder, Tree};
