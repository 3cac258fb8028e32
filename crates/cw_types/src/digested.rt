//! What a block is to those who agree on it, and a block with its digest.

ghost use Rattle.std.specs.Prelude.{◌≡◌, ◌≤◌, ℕ, List, Option, Some, IfOk, length};
ghost use Rattle.cw_base.specs.ReadsBack.{IsBytes};
ghost use Rattle.cw_types.specs.Encoding.{block_bytes};

use crate::block::{ChainBlock, Context, MAX_BLOCK};
use crate::laws::block_fits;
use crate::round::{Height, Heightable};
use cw_base::{Digest32, Hasher, NoMemory};
use std::alloc::Global;
use std::marker::{Model, PhantomData};

/// A block of a chain: it has a height, a digest and its parent's digest.
pub trait Block: Heightable {
    /// What a block is known by.
    type Digest;

    /// A block's digest.
    ghost digest_of: { Self → Self.Digest };

    /// The digest of a block's parent.
    ghost parent_of: { Self → Self.Digest };

    /// A block's bytes.
    ghost bytes_of: { Self → List ℕ };

    /// The block that a text is read as, to its end.
    ghost read_as: { List ℕ → Option Self };

    /// Its digest.
    fn digest(&self) -> Self::Digest
        ensures { result ≡ digest_of self.now };

    /// The digest of its parent.
    fn parent(&self) -> Self::Digest
        ensures { result ≡ parent_of self.now };

    /// A law, which takes no work: a block's bytes are read as that block.
    fn is_read_back(&self)
        ensures { read_as (bytes_of self.now) ≡ Some self.now };

    /// A law, which takes no work: bytes that are read as a block are that block's.
    fn read_is_written()
        ensures { (text : List ℕ) (block : Self) → IsBytes text → read_as text ≡ Some block
            → bytes_of block ≡ text };
}

/// A block that says where it was proposed.
pub trait CertifiableBlock: Block {
    /// Where a block is proposed.
    type Context;

    /// Where a block was proposed.
    ghost context_of: { Self → Self.Context };

    /// Where it was proposed.
    fn context(&self) -> Self::Context
        ensures { result ≡ context_of self.now };
}

/// A block whose bytes are bounded.
pub trait BoundedBlock: Block {
    /// The most bytes of a block.
    ghost max_bytes: { ℕ };

    /// The most bytes that a block has.
    fn max_encode_size() -> usize
        ensures { result ≡ max_bytes };

    /// A law, which takes no work: a block has no more bytes.
    fn is_bounded(&self)
        ensures { length (Self.bytes_of self.now) ≤ max_bytes };
}

/// A block with its digest, which is hashed once.
#[derive(Drop)]
#[derive_where(Debug)]
pub struct Digested<H: Hasher<Digest = Digest32>> {
    block: ChainBlock,
    digest: Digest32,
    #[derive_where(skip)]
    hasher: PhantomData<H>,
}

impl<H: Hasher<Digest = Digest32>> Model for Digested<H> {
    ghost use Rattle.std.specs.Prelude.{◌≡◌};
    ghost use Rattle.cw_types.specs.Block.{Block};
    ghost use Rattle.cw_types.specs.Encoding.{block_bytes};

    ghost Value = { Block };

    ghost view = { λ d. d.block };

    ghost invariant = { λ d. d.digest ≡ H.digest_of (block_bytes d.block) };
}

impl<H: Hasher<Digest = Digest32>> Digested<H> {
    /// The block with its digest. Takes memory for its bytes.
    pub fn new(alloc: Global, block: ChainBlock) -> Result<Digested<H>, NoMemory>
        ensures { IfOk result (λ digested. digested ≡ block) }
    {
        let digest = block.digest::<H>(alloc)?;
        Ok(Digested {
            digest,
            block,
            hasher: PhantomData,
        })
    }

    /// The block alone.
    pub fn inner(&self) -> &ChainBlock
        ensures { result.now ≡ self.now }
    {
        &self.block
    }
}

impl<H: Hasher<Digest = Digest32>> Heightable for Digested<H> {
    ghost height_of = { λ block. block.height };

    fn height(&self) -> Height {
        Height::new(self.block.height())
    }
}

impl<H: Hasher<Digest = Digest32>> Block for Digested<H> {
    type Digest = Digest32;

    ghost use Rattle.cw_types.specs.Encoding.{block_bytes};
    ghost use Rattle.cw_types.specs.Reading.{block_in};

    ghost digest_of = { λ block. H.digest_of (block_bytes block) };

    ghost parent_of = { λ block. block.parent };

    ghost bytes_of = { block_bytes };

    ghost read_as = { block_in };

    fn digest(&self) -> Digest32 {
        self.digest
    }

    fn parent(&self) -> Digest32 {
        self.block.parent()
    }

    fn is_read_back(&self) {
        block_fits(&self.block);
    }

    fn read_is_written() {}
}

impl<H: Hasher<Digest = Digest32>> CertifiableBlock for Digested<H> {
    type Context = Context;

    ghost context_of = { λ block. block.context };

    fn context(&self) -> Context {
        *self.block.context()
    }
}

impl<H: Hasher<Digest = Digest32>> BoundedBlock for Digested<H> {
    ghost max_bytes = { 1048745 };

    fn max_encode_size() -> usize {
        MAX_BLOCK
    }

    fn is_bounded(&self) {
        block_fits(&self.block);
    }
}
