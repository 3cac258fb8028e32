//! From data to chunks.

ghost use Rattle.std.specs.Prelude.{◌≡◌, ℕ, ◌+◌, ◌-◌, ◌*◌, ◌^◌, ◌<◌, ◌≤◌, ◌↔◌, List, length, IfOk};
ghost use Rattle.std.specs.Prelude.{slice_index, IfErr, IsTrue, MatchResult};
ghost use Rattle.cw_base.specs.Rows.{row_of};
ghost use Rattle.cw_base.specs.Rows.{listed, row_hashes};
ghost use Rattle.rs_code.specs.Rows.{joined};
ghost use Rattle.cw_tree.specs.Tree.{path_of};
ghost use Rattle.cw_tree.specs.Widths.{shard_len};
ghost use Rattle.cw_coding.specs.Totals.{total_of};
ghost use Rattle.cw_coding.specs.Layout.{row_at, row_digests};
ghost use Rattle.cw_coding.specs.Encoding.{IsCodable, IsEncodable, IsEncodeRefusal, IsEncoding};
ghost use Rattle.cw_coding.specs.Encoding.{IsEncodingRoot};

use crate::error::ReedSolomonError;
use crate::hashing::hash_each;
use crate::layout::{rows_of_text, rows_of_text_here};
use bytes::Bytes;
use cw_base::{Config, Hasher, Items, NoMemory, Strategy};
use cw_tree::bmt::{Builder, Tree};
use cw_tree::{Chunk, canonical_shard_len};
use std::alloc::Global;
use std::thread::Threads;

// The root of a text, and its chunks in the order of their indices.
pub(crate) fn encode_text<H: Hasher, R: Threads + Sync, S: Strategy>(
    rt: &R,
    alloc: Global,
    config: &Config,
    input: &[u8],
    strategy: &S,
) -> Result<(H::Digest, Vec<Chunk<H::Digest>>), ReedSolomonError>
    ensures encoded { IfOk result
        (λ r. IsEncoding H.digest_of H.Digest.content config.now input.now r.0 r.1.items) }
    ensures refused { IfErr result (λ e. IsEncodeRefusal config.now (length input.now) e) }
    ensures some { IfOk result (λ _. 1 ≤ config.now.minimum) }
{
    if let Err(error) = encodable(config, input.len()) {
        return Err(error);
    }
    let coded = coded_text::<H, R, S>(rt, alloc, config, input, strategy)?;
    match encoded::<H>(alloc, config, input, coded) {
        Ok(encoded) => Ok(encoded),
        Err(_) => Err(ReedSolomonError::NoMemory),
    }
}

// The same on the caller's thread.
pub(crate) fn encode_text_here<H: Hasher>(
    alloc: Global,
    config: &Config,
    input: &[u8],
) -> Result<(H::Digest, Vec<Chunk<H::Digest>>), ReedSolomonError>
    ensures encoded { IfOk result
        (λ r. IsEncoding H.digest_of H.Digest.content config.now input.now r.0 r.1.items) }
    ensures refused { IfErr result (λ e. IsEncodeRefusal config.now (length input.now) e) }
{
    if let Err(error) = encodable(config, input.len()) {
        return Err(error);
    }
    let coded = coded_text_here::<H>(alloc, config, input)?;
    match encoded::<H>(alloc, config, input, coded) {
        Ok(encoded) => Ok(encoded),
        Err(_) => Err(ReedSolomonError::NoMemory),
    }
}

// The root of a text, without its chunks.
pub(crate) fn commit_text<H: Hasher, R: Threads + Sync, S: Strategy>(
    rt: &R,
    alloc: Global,
    config: &Config,
    input: &[u8],
    strategy: &S,
) -> Result<H::Digest, ReedSolomonError>
    ensures committed { IfOk result
        (λ root. IsEncodingRoot H.digest_of H.Digest.content config.now input.now root) }
    ensures refused { IfErr result (λ e. IsEncodeRefusal config.now (length input.now) e) }
{
    if let Err(error) = encodable(config, input.len()) {
        return Err(error);
    }
    let coded = coded_text::<H, R, S>(rt, alloc, config, input, strategy)?;
    Ok(coded.tree.root())
}

// The rows of a text, end to end, and the tree over their digests.
#[derive(Drop)]
pub(crate) struct CodedText<H: Hasher> {
    pub(crate) rows: Vec<u8>,
    pub(crate) tree: Tree<H>,
}

pub(crate) fn coded_text<H: Hasher, R: Threads + Sync, S: Strategy>(
    rt: &R,
    alloc: Global,
    config: &Config,
    text: &[u8],
    strategy: &S,
) -> Result<CodedText<H>, NoMemory>
    requires total { total_of config.now ≤ 65535 }
    requires short { length text.now ≤ 2 ^ 32 - 1 }
    ensures rows { IfOk result (λ coded. coded.rows.items
        ≡ joined (total_of config.now) (row_at config.now.minimum text.now)) }
    ensures digests { IfOk result (λ coded. coded.tree
        ≡ row_digests H.digest_of config.now.minimum config.now.extra text.now) }
    ensures bytes { (i : ℕ) → slice_index text.now i < 256 }
{
    let k = config.minimum();
    let rows = rows_of_text(rt, alloc, k, config.extra(), text, strategy)?;
    let width = canonical_shard_len(text.len(), k);
    let digests = H::hash_many(rt, alloc, &rows, width, strategy)?;
    with_tree::<H>(alloc, config, text, rows, digests)
}

// The same on the caller's thread.
pub(crate) fn coded_text_here<H: Hasher>(
    alloc: Global,
    config: &Config,
    text: &[u8],
) -> Result<CodedText<H>, NoMemory>
    requires total { total_of config.now ≤ 65535 }
    requires short { length text.now ≤ 2 ^ 32 - 1 }
    ensures rows { IfOk result (λ coded. coded.rows.items
        ≡ joined (total_of config.now) (row_at config.now.minimum text.now)) }
    ensures digests { IfOk result (λ coded. coded.tree
        ≡ row_digests H.digest_of config.now.minimum config.now.extra text.now) }
    ensures bytes { (i : ℕ) → slice_index text.now i < 256 }
{
    let k = config.minimum();
    let rows = rows_of_text_here(alloc, k, config.extra(), text)?;
    let width = canonical_shard_len(text.len(), k);
    let digests = hash_each::<H>(alloc, &rows, width)?;
    with_tree::<H>(alloc, config, text, rows, digests)
}

// Whether data of so many bytes is encoded.
pub(crate) fn is_codable(config: &Config, length: usize) -> bool
    requires total { total_of config.now ≤ 65535 }
    ensures { IsTrue result ↔ IsCodable config.now length }
{
    if length > 0xffff_ffff {
        return false;
    }
    let width = canonical_shard_len(length, config.minimum());
    width <= 0xffff_ffff && config.total_shards() as usize * width <= isize::MAX as usize
}

// Refuses data of so many bytes where it isn't encoded.
fn encodable(config: &Config, length: usize) -> Result<(), ReedSolomonError>
    ensures { MatchResult result
        (λ _. IsEncodable config.now length)
        (λ e. IsEncodeRefusal config.now length e) }
{
    let total = config.total_shards();
    if total > 65535 {
        return Err(ReedSolomonError::TooManyTotalShards(total));
    }
    if !is_codable(config, length) {
        return Err(ReedSolomonError::InvalidDataLength(length));
    }
    Ok(())
}

// A text's rows with the tree over the digests of them.
fn with_tree<H: Hasher>(
    alloc: Global,
    config: &Config,
    text: &[u8],
    rows: Vec<u8>,
    digests: Vec<H::Digest>,
) -> Result<CodedText<H>, NoMemory>
    requires total { total_of config.now ≤ 65535 }
    requires some { 1 ≤ config.now.minimum }
    requires rows { rows.items ≡ joined (total_of config.now) (row_at config.now.minimum text.now) }
    requires digests { digests.items
        ≡ row_hashes H.digest_of (shard_len (length text.now) config.now.minimum) rows.items }
    ensures rows { IfOk result (λ coded. coded.rows.items ≡ rows.items) }
    ensures digests { IfOk result (λ coded. coded.tree
        ≡ row_digests H.digest_of config.now.minimum config.now.extra text.now) }
{
    let tree = tree_of::<H>(alloc, digests)?;
    Ok(CodedText { rows, tree })
}

// The tree over digests.
pub(crate) fn tree_of<H: Hasher>(
    alloc: Global,
    digests: Vec<H::Digest>,
) -> Result<Tree<H>, NoMemory>
    requires some { 1 ≤ length digests.items }
    requires few { length digests.items ≤ 65535 }
    ensures { IfOk result (λ tree. tree ≡ digests.items) }
{
    let tree = Builder::<H>::of(Items::from_vec(digests)).build(alloc)?;
    Ok(tree)
}

// The root of a text that is coded, and its chunks in the order of their indices.
fn encoded<H: Hasher>(
    alloc: Global,
    config: &Config,
    text: &[u8],
    coded: CodedText<H>,
) -> Result<(H::Digest, Vec<Chunk<H::Digest>>), NoMemory>
    requires encodable { IsEncodable config.now (length text.now) }
    requires rows { coded.rows.items
        ≡ joined (total_of config.now) (row_at config.now.minimum text.now) }
    requires digests { coded.tree
        ≡ row_digests H.digest_of config.now.minimum config.now.extra text.now }
    ensures encoded { IfOk result
        (λ r. IsEncoding H.digest_of H.Digest.content config.now text.now r.0 r.1.items) }
    ensures some { IfOk result (λ _. 1 ≤ config.now.minimum) }
{
    let k = config.minimum();
    let width = canonical_shard_len(text.len(), k);
    let root = coded.tree.root();
    let chunks = cut_rows::<H>(alloc, coded.tree, coded.rows, width, k + config.extra())?;
    Ok((root, chunks))
}

// The chunks of rows, which keep the bytes of the rows.
fn cut_rows<H: Hasher>(
    alloc: Global,
    tree: Tree<H>,
    rows: Vec<u8>,
    width: usize,
    count: u16,
) -> Result<Vec<Chunk<H::Digest>>, NoMemory>
    requires leaves { length tree ≡ count }
    requires rows { length rows.items ≡ count * width }
    requires room { count * width ≤ 2 ^ 63 - 1 }
    ensures { IfOk result (λ chunks. chunks.items ≡ listed count (λ i. record {
      shard = row_of rows.items width i;
      index = i;
      leaf_count = length tree;
      siblings = path_of H.digest_of H.Digest.content i tree;
    })) }
{
    let shared = Bytes::from_vec(rows)?;
    let chunks = cut::<H>(alloc, &tree, &shared, width, count)?;
    Ok(chunks)
}

// The chunks of rows, which share the bytes of the rows.
fn cut<H: Hasher>(
    alloc: Global,
    tree: &Tree<H>,
    rows: &Bytes,
    width: usize,
    count: u16,
) -> Result<Vec<Chunk<H::Digest>>, NoMemory>
    requires leaves { length tree.now ≡ count }
    requires rows { length rows.now ≡ count * width }
    requires room { count * width ≤ 2 ^ 63 - 1 }
    ensures { IfOk result (λ chunks. chunks.items ≡ listed count (λ i. record {
      shard = row_of rows.now width i;
      index = i;
      leaf_count = length tree.now;
      siblings = path_of H.digest_of H.Digest.content i tree.now;
    })) }
{
    let mut chunks = Vec::new(alloc);
    for i in 0..count {
        let chunk = cut_one::<H>(alloc, tree, rows, width, i)?;
        chunks.push(chunk)?;
    }
    Ok(chunks)
}

// The chunk of one row.
fn cut_one<H: Hasher>(
    alloc: Global,
    tree: &Tree<H>,
    rows: &Bytes,
    width: usize,
    i: u16,
) -> Result<Chunk<H::Digest>, NoMemory>
    requires leaf { i < length tree.now }
    requires row { i * width + width ≤ length rows.now }
    requires room { length rows.now ≤ 2 ^ 63 - 1 }
    ensures { IfOk result (λ chunk. chunk ≡ record {
      shard = row_of rows.now width i;
      index = i;
      leaf_count = length tree.now;
      siblings = path_of H.digest_of H.Digest.content i tree.now;
    }) }
{
    let start = usize::from(i) * width;
    let shard = rows.slice(start..start + width)?;
    let proof = tree.proof(alloc, u32::from(i))?;
    Ok(Chunk::new(shard, i, proof))
}
