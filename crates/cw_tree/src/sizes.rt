//! How many bytes proofs and chunks have.

ghost use Rattle.std.specs.Prelude.{◌≡◌, ℕ, ◌+◌, ◌*◌, ◌-◌, ◌^◌, ◌<◌, ◌≤◌, min, length};
ghost use Rattle.std.specs.List.{flat_map};
ghost use Rattle.cw_base.specs.Bytes.{varint};
ghost use Rattle.cw_tree.specs.Formats.{proof_bytes, chunk_bytes};

use crate::bmt::Proof;
use crate::chunk::Chunk;
use cw_base::Digest;

impl<D: Digest> Proof<D> {
    /// As many bytes as a proof of at most so many siblings is written in, or more: four of the
    /// leaf count, one of the number of siblings, and the siblings.
    pub fn max_encode_size(siblings: usize) -> usize
        requires { 5 + D.SIZE * siblings < 2 ^ 64 }
        ensures { result ≡ 5 + D.SIZE * siblings }
    {
        5 + D::SIZE * siblings
    }
}

impl<D: Digest> Chunk<D> {
    /// As many bytes as a chunk is written in whose shard has at most `shard` bytes, and its proof
    /// at most so many siblings, or more: at most five of the shard's length, the shard, two of the
    /// index, and the proof.
    pub fn max_encode_size(shard: usize, siblings: usize) -> usize
        requires { 12 + shard + D.SIZE * siblings < 2 ^ 64 }
        ensures { result ≡ 12 + shard + D.SIZE * siblings }
    {
        12 + shard + D::SIZE * siblings
    }

    /// The number of bytes that the chunk is written in, or `usize::MAX` if there are more.
    pub fn encode_size(&self) -> usize
        ensures { result ≡ min (length (chunk_bytes D.content self.now)) (2 ^ 64 - 1) }
    {
        let width = self.shard().len();
        let front = varint_size((width % (1 << 32)) as u32) + 2 + 5;
        digests_size(self.proof().siblings.as_slice())
            .saturating_add(width)
            .saturating_add(front)
    }
}

// The number of bytes of a varint.
#[tactic(auto, unfolding(cw_base::specs::Bytes::varint))]
fn varint_size(value: u32) -> usize
    ensures size { result ≡ length (varint value) }
    ensures few { result ≤ 5 }
{
    if value < 1 << 7 {
        1
    } else if value < 1 << 14 {
        2
    } else if value < 1 << 21 {
        3
    } else if value < 1 << 28 {
        4
    } else {
        5
    }
}

// The number of bytes of some digests.
fn digests_size<D: Digest>(digests: &[D]) -> usize
    ensures { result ≡ min (length (flat_map D.content digests.now)) (2 ^ 64 - 1) }
{
    let mut size: usize = 0;
    for digest in digests {
        size = size.saturating_add(digest.as_bytes().len());
    }
    size
}
