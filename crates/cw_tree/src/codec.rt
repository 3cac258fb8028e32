//! The bytes of proofs and chunks.

ghost use Rattle.std.specs.Prelude.{◌≡◌, ℕ, ◌+◌, ◌*◌, ◌-◌, ◌^◌, ◌<◌, ◌≤◌, ◌%◌, min, [], ◌∷◌, ◌++◌};
ghost use Rattle.std.specs.Prelude.{List, length, map, take, IfOk, OnOk, OnErr};
ghost use Rattle.std.specs.List.{flat_map};
ghost use Rattle.cw_base.specs.Ends.{IsEnd};
ghost use Rattle.cw_base.specs.Reading.{IsRead, IsRefused, Gives, bytes_at};
ghost use Rattle.cw_tree.specs.Formats.{proof_bytes, chunk_bytes, digests_at, siblings_at};
ghost use Rattle.cw_tree.specs.Formats.{proof_at, shard_at, chunk_at, widest, piece_of_bytes};

use crate::bmt::Proof;
use crate::chunk::Chunk;
use crate::width::canonical_shard_len;
use bytes::Bytes;
use cw_base::{
    CodecError, Config, Digest, Items, NoMemory, Reader, put_be16, put_be32, put_bytes, put_u8,
    put_varint, undo_refused,
};
use std::alloc::Global;

impl<D: Digest> Proof<D> {
    /// Adds the bytes of the proof: four of the leaf count, one for the number of siblings, and the
    /// siblings. Where memory is short nothing changes.
    pub fn write(&self, out: &mut Vec<u8>) -> Result<(), NoMemory>
        ensures ok { OnOk result
            (out.new.items ≡ out.old.items
            ++ proof_bytes D.content self.now.leaf_count self.now.siblings) }
        ensures err { OnErr result (out.new.items ≡ out.old.items) }
    {
        let start = out.len();
        let written = self.write_parts(out);
        undo_refused(out, start, written)
    }

    // The parts of a proof, of which some may stay where memory is short.
    #[tactic(auto, unfolding(crate::specs::Formats::proof_bytes))]
    fn write_parts(&self, out: &mut Vec<u8>) -> Result<(), NoMemory>
        ensures ok { OnOk result
            (out.new.items ≡ out.old.items
            ++ proof_bytes D.content self.now.leaf_count self.now.siblings) }
        ensures err { OnErr result (take (length out.old.items) out.new.items ≡ out.old.items) }
    {
        put_be32(out, self.leaf_count)?;
        put_u8(out, (self.siblings.len() % 256) as u8)?;
        match put_digests(out, self.siblings.as_slice()) {
            Ok(()) => Ok(()),
            Err(NoMemory) => Err(NoMemory),
        }
    }
}

impl<D: Digest> Chunk<D> {
    /// Adds the bytes of the chunk: the shard's length, the shard, the index and the proof. Where
    /// memory is short nothing changes.
    pub fn write(&self, out: &mut Vec<u8>) -> Result<(), NoMemory>
        ensures ok { OnOk result (out.new.items ≡ out.old.items ++ chunk_bytes D.content self.now) }
        ensures err { OnErr result (out.new.items ≡ out.old.items) }
    {
        let start = out.len();
        let written = self.write_parts(out);
        undo_refused(out, start, written)
    }

    // The parts of a chunk, of which some may stay where memory is short.
    #[tactic(auto, unfolding(crate::specs::Formats::chunk_bytes))]
    fn write_parts(&self, out: &mut Vec<u8>) -> Result<(), NoMemory>
        ensures ok { OnOk result (out.new.items ≡ out.old.items ++ chunk_bytes D.content self.now) }
        ensures err { OnErr result (take (length out.old.items) out.new.items ≡ out.old.items) }
    {
        put_varint(out, (self.shard().len() % (1 << 32)) as u32)?;
        put_bytes(out, self.shard())?;
        put_be16(out, self.index())?;
        self.proof().write(out)?;
        Ok(())
    }
}

// Adds the bytes of digests.
fn put_digests<D: Digest>(out: &mut Vec<u8>, digests: &[D]) -> Result<(), NoMemory>
    ensures ok { OnOk result (out.new.items ≡ out.old.items ++ flat_map D.content digests.now) }
    ensures err { OnErr result (take (length out.old.items) out.new.items ≡ out.old.items) }
{
    for digest in digests {
        put_bytes(out, digest.as_bytes())?;
    }
    Ok(())
}

// The digest at the front.
#[tactic(auto, using(cw_base::proofs::Ends::ends))]
fn read_digest<D: Digest>(reader: &mut Reader) -> Result<D, CodecError>
    ensures value { IsRead D.content result reader.new (bytes_at D.SIZE reader.old) }
    ensures place { IsEnd reader.old reader.new }
{
    let bytes = reader.take(D::SIZE)?;
    match D::from_slice(bytes) {
        Some(digest) => Ok(digest),
        None => Err(CodecError::Invalid),
    }
}

// So many digests, one behind the other.
#[tactic(auto, using(cw_base::proofs::Ends::ends))]
fn read_digests<D: Digest>(
    alloc: Global,
    reader: &mut Reader,
    count: u8,
) -> Result<Items<D>, CodecError>
    ensures value { Gives (λ digests. map D.content digests) result reader.new
        (digests_at D.SIZE count reader.old) }
    ensures place { IsEnd reader.old reader.new }
{
    let mut digests = Items::new(alloc);
    for i in 0..count {
        match read_digest::<D>(reader) {
            Ok(digest) => match digests.push(digest) {
                Ok(()) => {}
                Err(NoMemory) => return Err(skip_digests::<D>(reader, count - i - 1)),
            },
            Err(error) => return Err(error),
        }
    }
    Ok(digests)
}

// Why so many digests are not read that there is no memory for: where they are cut, for that.
#[tactic(auto, using(cw_base::proofs::Ends::ends))]
fn skip_digests<D: Digest>(reader: &mut Reader, count: u8) -> CodecError
    ensures value { IsRefused result reader.new (digests_at D.SIZE count reader.old) }
    ensures place { IsEnd reader.old reader.new }
{
    for i in 0..count {
        match read_digest::<D>(reader) {
            Ok(_) => {}
            Err(error) => return error,
        }
    }
    CodecError::NoMemory
}

// At most 32 digests, behind their number.
#[tactic(auto, using(cw_base::proofs::Ends::ends), unfolding(crate::specs::Formats::siblings_at))]
fn read_siblings<D: Digest>(alloc: Global, reader: &mut Reader) -> Result<Items<D>, CodecError>
    ensures value { Gives (λ digests. map D.content digests) result reader.new
        (siblings_at D.SIZE reader.old) }
    ensures place { IsEnd reader.old reader.new }
{
    let count = reader.u8()?;
    if count > 32 {
        return Err(CodecError::TooLong);
    }
    match read_digests::<D>(alloc, reader, count) {
        Ok(digests) => Ok(digests),
        Err(error) => Err(error),
    }
}

impl<D: Digest> Proof<D> {
    /// The proof at the front: `TooLong` above 32 siblings, `EndOfBuffer` where it is cut.
    ///
    /// Refused, the reader stands behind the parts that were taken, a refused number among them.
    /// For want of memory it is refused only where a whole proof stands there, and all of it is
    /// taken.
    #[tactic(auto, using(cw_base::proofs::Ends::ends), unfolding(crate::specs::Formats::proof_at))]
    pub fn read(alloc: Global, reader: &mut Reader) -> Result<Proof<D>, CodecError>
        ensures value { Gives
            (λ proof. (proof.leaf_count, map D.content proof.siblings)) result reader.new
            (proof_at D.SIZE reader.old) }
        ensures place { IsEnd reader.old reader.new }
    {
        let leaf_count = reader.be32()?;
        let siblings = read_siblings::<D>(alloc, reader)?;
        Ok(Proof {
            leaf_count,
            siblings,
        })
    }
}

// How wide the shards of data of `maximum` bytes are, or of `u32::MAX` bytes if that is less.
fn widest_shard(config: &Config, maximum: usize) -> usize
    ensures { result ≡ widest config.now.minimum maximum }
{
    canonical_shard_len(maximum.min(0xffff_ffff), config.minimum())
}

// A shard of at most so many bytes, behind its length.
#[tactic(auto, using(cw_base::proofs::Ends::ends), unfolding(crate::specs::Formats::shard_at))]
fn read_shard<'a>(reader: &mut Reader<'a>, bound: usize) -> Result<&'a [u8], CodecError>
    ensures value { IsRead (λ bytes. bytes.now) result reader.new (shard_at bound reader.old) }
    ensures place { IsEnd reader.old reader.new }
{
    let length = reader.varint()? as usize;
    if length > bound {
        return Err(CodecError::TooLong);
    }
    match reader.take(length) {
        Ok(bytes) => Ok(bytes),
        Err(error) => Err(error),
    }
}

impl<D: Digest> Chunk<D> {
    /// The chunk at the front, of a config and of data of at most `maximum` bytes: `TooLong` where
    /// its shard is wider than the shards of data of `maximum` bytes, or of `u32::MAX` bytes if
    /// that is less, and above 32 siblings; `InvalidVarint` for a length that isn't in its shortest
    /// form, or is above `u32::MAX`; `EndOfBuffer` where it is cut.
    ///
    /// Refused, the reader stands behind the parts that were taken, a refused number among them.
    /// For want of memory it is refused only where a whole chunk stands there, and all of it is
    /// taken.
    #[tactic(auto, using(cw_base::proofs::Ends::ends), unfolding(crate::specs::Formats::chunk_at))]
    pub fn read(
        alloc: Global,
        reader: &mut Reader,
        config: &Config,
        maximum: usize,
    ) -> Result<Chunk<D>, CodecError>
        ensures value { Gives (λ chunk. piece_of_bytes D.content chunk) result reader.new
            (chunk_at D.SIZE (widest config.now.minimum maximum) reader.old) }
        ensures place { IsEnd reader.old reader.new }
    {
        let bound = widest_shard(config, maximum);
        let shard = read_shard(reader, bound)?;
        let index = reader.be16()?;
        let proof = Proof::<D>::read(alloc, reader)?;
        let shard = Bytes::copy_from_slice(alloc, shard)?;
        Ok(Chunk::new(shard, index, proof))
    }
}
