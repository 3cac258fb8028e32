//! The coding scheme as its users call it.

ghost use Rattle.std.specs.Prelude.{◌≡◌, ◌⊎◌, ℕ, ◌+◌, ◌*◌, ◌^◌, ◌<◌, List, length, map, IfOk};
ghost use Rattle.std.specs.Prelude.{IfErr};
ghost use Rattle.std.specs.Iterator.{IsFinite, Drains};
ghost use Rattle.cw_tree.specs.Sizes.{IsHeight};
ghost use Rattle.cw_tree.specs.Widths.{shard_len};
ghost use Rattle.cw_coding.specs.Totals.{total_of};
ghost use Rattle.cw_coding.specs.Encoding.{IsEncodable, IsEncodeRefusal, IsEncoding};
ghost use Rattle.cw_coding.specs.Encoding.{IsEncodingRoot};
ghost use Rattle.cw_coding.specs.Checking.{Checks, AllCheck};
ghost use Rattle.cw_coding.specs.Decoding.{AreDecodable, IsDecoding, IsDecodeRefusal};

use crate::checking::{CheckedChunk, check_all, check_chunk};
use crate::decoding::{decode_chunks_here, decode_text};
use crate::encoding::{commit_text, encode_text, encode_text_here};
use crate::error::ReedSolomonError;
use crate::sizes::height_of;
use cw_base::{Config, Digest, Hasher, Strategy};
use cw_tree::{Chunk, canonical_shard_len};
use std::alloc::Global;
use std::marker::PhantomData;
use std::thread::Threads;

/// A scheme that encodes data into shards, of which any `minimum_shards` give the data back.
///
/// A commitment binds the data: what `decode` answers encodes to the commitment, whatever chunks it
/// was given, with nothing assumed of the hash.
///
/// ```text
/// type Rs = ReedSolomon<Sha256>;
/// let (root, chunks) = Rs::encode(&rt, alloc, &config, b"some data", &Sequential)?;
/// let mut checked = Vec::new(alloc);
/// for chunk in chunks.iter().skip(1) {
///     checked.push(Rs::check(alloc, &config, &root, chunk.index(), chunk, &Sequential)?)?;
/// }
/// let data = Rs::decode(&rt, alloc, &config, &root, checked.iter(), &Sequential)?;
/// assert_eq!(rt; data.as_slice(), b"some data".as_slice()); // with a shard to spare
/// ```
///
/// `crates/use_coding` is a whole program.
pub trait Scheme {
    /// The hash function of the commitments.
    type Hasher: Hasher;

    /// As many bytes as any chunk is written in that [`Scheme::encode`] gives for data of at most
    /// `length` bytes, or more.
    final fn max_shard_size(config: &Config, length: usize) -> usize
        requires fits { IsEncodable config.now length }
        requires digests { Self.Hasher.Digest.SIZE < 2 ^ 32 }
        ensures { (levels : ℕ) × IsHeight (total_of config.now) levels
            × (result
            ≡ 12 + shard_len length config.now.minimum + Self.Hasher.Digest.SIZE * levels) }
    {
        let width = canonical_shard_len(length, config.minimum());
        let levels = height_of(config.total_shards());
        Chunk::<<Self::Hasher as Hasher>::Digest>::max_encode_size(width, levels)
    }

    /// The commitment of `input`, and its chunks in the order of their indices, which share one
    /// buffer.
    ///
    /// Refused, in this order: `TooManyTotalShards` above 65,535 shards; `InvalidDataLength` where
    /// the input or its shards have more than `u32::MAX` bytes, or all shards together more than
    /// `isize::MAX`. `NoMemory` may come at any point.
    final fn encode<R: Threads + Sync, S: Strategy>(
        rt: &R,
        alloc: Global,
        config: &Config,
        input: &[u8],
        strategy: &S,
    ) -> Result<
        (
            <Self::Hasher as Hasher>::Digest,
            Vec<Chunk<<Self::Hasher as Hasher>::Digest>>,
        ),
        ReedSolomonError,
    >
        ensures encoded { IfOk result
            (λ r. IsEncoding Self.Hasher.digest_of Self.Hasher.Digest.content config.now input.now
            r.0 r.1.items) }
        ensures refused { IfErr result (λ e. IsEncodeRefusal config.now (length input.now) e) }
    {
        encode_text::<Self::Hasher, R, S>(rt, alloc, config, input, strategy)
    }

    /// What [`Scheme::encode`] answers, by the caller's thread alone: it takes no runtime.
    final fn encode_here(
        alloc: Global,
        config: &Config,
        input: &[u8],
    ) -> Result<
        (
            <Self::Hasher as Hasher>::Digest,
            Vec<Chunk<<Self::Hasher as Hasher>::Digest>>,
        ),
        ReedSolomonError,
    >
        ensures encoded { IfOk result
            (λ r. IsEncoding Self.Hasher.digest_of Self.Hasher.Digest.content config.now input.now
            r.0 r.1.items) }
        ensures refused { IfErr result (λ e. IsEncodeRefusal config.now (length input.now) e) }
    {
        encode_text_here::<Self::Hasher>(alloc, config, input)
    }

    /// The commitment that [`Scheme::encode`] gives `input`; its chunks and their proofs are not
    /// made. Refused as `encode` is.
    final fn commitment<R: Threads + Sync, S: Strategy>(
        rt: &R,
        alloc: Global,
        config: &Config,
        input: &[u8],
        strategy: &S,
    ) -> Result<<Self::Hasher as Hasher>::Digest, ReedSolomonError>
        ensures committed { IfOk result
            (λ root. IsEncodingRoot Self.Hasher.digest_of Self.Hasher.Digest.content config.now
            input.now root) }
        ensures refused { IfErr result (λ e. IsEncodeRefusal config.now (length input.now) e) }
    {
        commit_text::<Self::Hasher, R, S>(rt, alloc, config, input, strategy)
    }

    /// The chunk, if it stands under the commitment at `index`.
    ///
    /// Refused, in this order: `TooManyTotalShards`; `InvalidIndex(index)` where it isn't one of
    /// the config; `ReedSolomon(InvalidShardSize)` where the shard is empty or of odd length;
    /// `InvalidProof` where the proof is of another number of leaves; `InvalidIndex` of the chunk's
    /// own index where that is another; `InvalidProof` where the proof doesn't lead to the
    /// commitment. Nothing is hashed before the last test. `NoMemory` may come at any point.
    final fn check<S: Strategy>(
        _alloc: Global,
        config: &Config,
        commitment: &<Self::Hasher as Hasher>::Digest,
        index: u16,
        shard: &Chunk<<Self::Hasher as Hasher>::Digest>,
        _strategy: &S,
    ) -> Result<CheckedChunk<Self::Hasher>, ReedSolomonError>
        ensures { Checks Self.Hasher.digest_of Self.Hasher.Digest.content config.now commitment.now
            index shard.now result }
    {
        check_chunk::<Self::Hasher>(config, commitment, index, shard)
    }

    /// What [`Scheme::check`] answers to each chunk at its index, in their order.
    ///
    /// The outer error is `NoMemory` alone, which no inner error is.
    final fn check_many<R: Threads + Sync, S: Strategy>(
        rt: &R,
        alloc: Global,
        config: &Config,
        commitment: &<Self::Hasher as Hasher>::Digest,
        indices: &[u16],
        shards: &[Chunk<<Self::Hasher as Hasher>::Digest>],
        strategy: &S,
    ) -> Result<Vec<Result<CheckedChunk<Self::Hasher>, ReedSolomonError>>, ReedSolomonError>
        requires lengths { length indices.now ≡ length shards.now }
        ensures each { IfOk result
            (λ answers. AllCheck Self.Hasher.digest_of Self.Hasher.Digest.content config.now
            commitment.now indices.now shards.now answers.items) }
        ensures memory { IfErr result (λ e. e ≡ ReedSolomonError.NoMemory) }
    {
        check_all::<Self::Hasher, R, S>(rt, alloc, config, commitment, indices, shards, strategy)
    }

    /// The data that the chunks come of.
    ///
    /// Refused, in this order: `TooManyTotalShards`; `NotEnoughChunks` where there is none;
    /// `ReedSolomon(InvalidShardSize)` where the first chunk is wider than shards are; at the first
    /// chunk where one of these holds, the first of them: `CommitmentMismatch` where it was checked
    /// under another commitment, `Inconsistent` where it has another width than the first,
    /// `InvalidIndex` where its index isn't one of the config, `DuplicateIndex` where that index
    /// was given before; `NotEnoughChunks` below `minimum_shards`; `Inconsistent` where no data has
    /// these chunks and this commitment. `NoMemory` may come at any point.
    ///
    /// Where an original is missing, the originals given and the first recoveries in the order in
    /// which they were given are used, and the others count by the commitment alone.
    final fn decode<
        'a,
        I: Iterator<Item = &'a CheckedChunk<Self::Hasher>> + Drop,
        R: Threads + Sync,
        S: Strategy,
    >(
        rt: &R,
        alloc: Global,
        config: &Config,
        commitment: &<Self::Hasher as Hasher>::Digest,
        shards: I,
        strategy: &S,
    ) -> Result<Vec<u8>, ReedSolomonError>
    where
        Self: 'a,
        Self::Hasher: 'a,
        requires can { I.can_next shards }
        requires ends { IsFinite (I.remaining shards) }
        ensures decoded { IfOk result (λ text. (given : _) × Drains I.next_gives shards given
            × AreDecodable config.now commitment.now (map (λ chunk. chunk.now) given)
            × IsDecoding Self.Hasher.digest_of Self.Hasher.Digest.content config.now commitment.now
            (map (λ chunk. chunk.now) given) text.items) }
        ensures refused { IfErr result (λ e. (e ≡ ReedSolomonError.NoMemory)
            ⊎ ((given : _) × Drains I.next_gives shards given
            × IsDecodeRefusal Self.Hasher.digest_of Self.Hasher.Digest.content config.now
            commitment.now (map (λ chunk. chunk.now) given) e)) }
    {
        decode_text::<Self::Hasher, I, R, S>(rt, alloc, config, commitment, shards, strategy)
    }

    /// What [`Scheme::decode`] answers, by the caller's thread alone: it takes no runtime.
    final fn decode_here(
        alloc: Global,
        config: &Config,
        commitment: &<Self::Hasher as Hasher>::Digest,
        shards: &[CheckedChunk<Self::Hasher>],
    ) -> Result<Vec<u8>, ReedSolomonError>
        ensures decoded { IfOk result (λ text. AreDecodable config.now commitment.now shards.now
            × IsDecoding Self.Hasher.digest_of Self.Hasher.Digest.content config.now commitment.now
            shards.now text.items) }
        ensures refused { IfErr result
            (λ e. IsDecodeRefusal Self.Hasher.digest_of Self.Hasher.Digest.content config.now
            commitment.now shards.now e) }
    {
        decode_chunks_here::<Self::Hasher>(alloc, config, commitment, shards)
    }
}

/// The Reed-Solomon code over a field of 65,536 elements, with chunks that are proved against a
/// binary tree of their digests.
///
/// The coded text is the length of the data as four big-endian bytes, the data, and zeros up to
/// `minimum_shards` shards of one even width. The recovery shards are the other values of the one
/// polynomial through them, in each column of two bytes.
#[derive(Clone, Copy, Debug)]
pub struct ReedSolomon<H> {
    hasher: PhantomData<H>,
}

impl<H: Hasher> Scheme for ReedSolomon<H> {
    type Hasher = H;
}
