//! What names a block, and the chunks that it is cut into.

ghost use Rattle.std.specs.Prelude.{◌≡◌, ◌≤◌, IfOk, length};
ghost use Rattle.cw_coding.specs.Encoding.{IsEncodable, IsEncoding, IsEncodingRoot};
ghost use Rattle.cw_types.specs.Commit as spec;
ghost use Rattle.cw_types.specs.Encoding.{block_bytes, context_bytes};
ghost use Rattle.cw_types.specs.Numbers as numbers;

use crate::block::ChainBlock;
use crate::commitment::Commitment;
use crate::laws::block_fits;
use crate::numbers::config_for;
use cw_base::{Config, Digest32, Hasher, NoMemory, Strategy};
use cw_coding::{Chunk, ReedSolomon, ReedSolomonError, Scheme};
use std::alloc::Global;
use std::thread::Threads;

/// What names a block whose epoch has `n` members: the digest of its bytes, the root of the
/// codeword of its bytes, the digest of its context, and how it is cut, which is [`config_for`] of
/// `n`.
///
/// The first block of the chain is named by [`genesis_commitment`](crate::genesis_commitment), and
/// not by this.
///
/// ```text
/// let named = commit::<Sha256, _, _>(&rt, alloc, 4, &block, &Sequential)?;
/// let cut = commit_with_chunks::<Sha256, _, _>(&rt, alloc, 4, &block, &Sequential)?;
/// assert_eq!(rt; cut.0, named);
/// ```
pub fn commit<H: Hasher<Digest = Digest32>, R: Threads + Sync, S: Strategy>(
    rt: &R,
    alloc: Global,
    n: u16,
    block: &ChainBlock,
    strategy: &S,
) -> Result<Commitment, NoMemory>
    requires { 4 ≤ n }
    ensures { IfOk result (λ commitment. commitment ≡ spec.commit H.digest_of n block.now) }
{
    let (config, bytes) = text_of(alloc, n, block)?;
    let text = bytes.as_slice();
    let root = rooted::<H, R, S>(rt, alloc, &config, text, strategy)?;
    Ok(named::<H>(block, text, root, config))
}

/// What [`commit`] gives, and the `n` chunks of the block, in the order of their indices. They
/// share one buffer.
pub fn commit_with_chunks<H: Hasher<Digest = Digest32>, R: Threads + Sync, S: Strategy>(
    rt: &R,
    alloc: Global,
    n: u16,
    block: &ChainBlock,
    strategy: &S,
) -> Result<(Commitment, Vec<Chunk<Digest32>>), NoMemory>
    requires { 4 ≤ n }
    ensures commitment { IfOk result (λ made. made.0 ≡ spec.commit H.digest_of n block.now) }
    ensures chunks { IfOk result
        (λ made. made.1.items ≡ spec.block_chunks H.digest_of n block.now) }
{
    let (config, bytes) = text_of(alloc, n, block)?;
    let text = bytes.as_slice();
    let (root, chunks) = encoded::<H, R, S>(rt, alloc, &config, text, strategy)?;
    Ok((named::<H>(block, text, root, config), chunks))
}

// How the members cut a block, and its bytes, which are short enough to be cut so.
fn text_of(alloc: Global, n: u16, block: &ChainBlock) -> Result<(Config, Vec<u8>), NoMemory>
    requires { 4 ≤ n }
    ensures config { IfOk result (λ made. made.0 ≡ numbers.config_for n) }
    ensures bytes { IfOk result (λ made. made.1.items ≡ block_bytes block.now) }
    ensures short { IfOk result (λ made. IsEncodable made.0 (length made.1.items)) }
{
    block_fits(block);
    let config = config_for(n);
    let mut text = Vec::new(alloc);
    block.write(&mut text)?;
    Ok((config, text))
}

// What names a block of this text and this root.
fn named<H: Hasher<Digest = Digest32>>(
    block: &ChainBlock,
    text: &[u8],
    root: Digest32,
    config: Config,
) -> Commitment
    ensures { result
        ≡ record {
          block = H.digest_of text.now;
          root = root;
          context = H.digest_of (context_bytes block.now.context);
          config = config;
        } }
{
    Commitment {
        block: H::hash(text),
        root,
        context: H::hash(&block.context().to_bytes()),
        config,
    }
}

// The root of a text that is short enough.
fn rooted<H: Hasher<Digest = Digest32>, R: Threads + Sync, S: Strategy>(
    rt: &R,
    alloc: Global,
    config: &Config,
    text: &[u8],
    strategy: &S,
) -> Result<Digest32, NoMemory>
    requires { IsEncodable config.now (length text.now) }
    ensures { IfOk result
        (λ root. IsEncodingRoot H.digest_of spec.digest_bytes config.now text.now root) }
{
    match ReedSolomon::<H>::commitment(rt, alloc, config, text, strategy) {
        Ok(root) => Ok(root),
        Err(ReedSolomonError::NoMemory) => Err(NoMemory),
        Err(_) => unreachable!(),
    }
}

// The root of a text that is short enough, and its chunks.
fn encoded<H: Hasher<Digest = Digest32>, R: Threads + Sync, S: Strategy>(
    rt: &R,
    alloc: Global,
    config: &Config,
    text: &[u8],
    strategy: &S,
) -> Result<(Digest32, Vec<Chunk<Digest32>>), NoMemory>
    requires { IsEncodable config.now (length text.now) }
    ensures { IfOk result
        (λ made. IsEncoding H.digest_of spec.digest_bytes config.now text.now made.0 made.1.items) }
{
    match ReedSolomon::<H>::encode(rt, alloc, config, text, strategy) {
        Ok(made) => Ok(made),
        Err(ReedSolomonError::NoMemory) => Err(NoMemory),
        Err(_) => unreachable!(),
    }
}
