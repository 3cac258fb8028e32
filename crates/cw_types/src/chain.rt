//! The first block of the chain, and what names it.

ghost use Rattle.std.specs.Prelude.{◌≡◌};
ghost use Rattle.cw_types.specs.Commit as spec;

use crate::block::{ChainBlock, Context};
use crate::commitment::Commitment;
use crate::payload::Payload;
use cw_base::{Config, Digest, Digest32, Hasher};
use std::alloc::Global;
use std::num::NonZeroU16;

/// The first block: no view, no payload, and the hash of the empty text as its parent's digest.
/// Takes no memory.
pub fn genesis<H: Hasher<Digest = Digest32>>(alloc: Global) -> ChainBlock
    ensures { result ≡ spec.genesis H.digest_of }
{
    ChainBlock::new(first_context(), H::hash(&[]), 0, Payload::empty(alloc))
}

/// What names the first block: its digest, in place of a root too, and its context's. Takes no
/// memory.
pub fn genesis_commitment<H: Hasher<Digest = Digest32>>() -> Commitment
    ensures { result ≡ spec.genesis_commitment H.digest_of }
{
    let context = first_context().to_bytes();
    let digest = H::hash_pair(&context, &genesis_rest_bytes(&H::hash(&[])));
    Commitment {
        block: digest,
        root: digest,
        context: H::hash(&context),
        config: uncut(),
    }
}

// The bytes of the first block behind its context: its parent's digest, and zeros.
#[tactic(auto, unfolding(cw_base::specs::Bytes::be64, cw_base::specs::Bytes::varint))]
fn genesis_rest_bytes(parent: &Digest32) -> [u8; 41]
    ensures { result ≡ spec.first_rest parent.now }
{
    let mut bytes = [0; 41];
    bytes[..32].copy_from_slice(&parent.0);
    bytes
}

// Where the first block stands: in no view.
fn first_context() -> Context
    ensures { result ≡ spec.first_context }
{
    Context {
        epoch: 0,
        view: 0,
        leader: 0,
        parent_view: 0,
        parent: no_commitment(),
    }
}

// The commitment that the first block names as its parent's.
fn no_commitment() -> Commitment
    ensures { result ≡ spec.no_commitment }
{
    Commitment {
        block: Digest32::EMPTY,
        root: Digest32::EMPTY,
        context: Digest32::EMPTY,
        config: uncut(),
    }
}

// One shard holds the text, and one is added.
fn uncut() -> Config
    ensures { result ≡ spec.uncut }
{
    Config {
        minimum_shards: NonZeroU16::MIN,
        extra_shards: NonZeroU16::MIN,
    }
}
