//! Laws of the formats, which take no work.

ghost use Rattle.std.specs.Prelude.{◌≡◌, ◌++◌, ◌+◌, ◌*◌, ◌<◌, ◌≤◌, ℕ, List, length, Ok, Some};
ghost use Rattle.std.specs.Prelude.{slice_get};
ghost use Rattle.cw_tree.specs.Tree.{root_of, root_by, path_of};
ghost use Rattle.cw_base.specs.ReadsBack.{ReadsBack};
ghost use Rattle.cw_tree.specs.Chunks.{Piece};
ghost use Rattle.cw_tree.specs.Formats.{proof_bytes, proof_at, chunk_bytes, chunk_at};
ghost use Rattle.cw_tree.specs.Formats.{piece_of_bytes};
ghost use Rattle.cw_tree.specs.Fits.{FitsProof, FitsChunk};
ghost use Rattle.cw_tree.specs.Sizes.{AreSized, IsHeight};

use cw_base::{Digest, Hasher};

/// What a proof or a chunk is read from is in its format, and what is in the format is read as
/// itself, whatever follows it. Here siblings are the bytes of digests.
pub fn chunks_read_back()
    ensures proof { (size : ℕ)
        → ReadsBack (λ p. proof_bytes (λ sibling. sibling) p.0 p.1) (FitsProof size)
        (proof_at size) }
    ensures chunk { (size bound : ℕ)
        → ReadsBack (chunk_bytes (λ sibling. sibling)) (FitsChunk size bound)
        (chunk_at size bound) }
{}

/// A chunk with digests of a type reads back as itself: its bytes are read as a chunk of the same
/// shard, index and proof.
pub fn chunks_with_digests_read_back<D: Digest>()
    ensures again { (bound : ℕ) (p : Piece D) (rest : List ℕ)
        → FitsChunk D.SIZE bound (piece_of_bytes D.content p) →
        chunk_at D.SIZE bound (chunk_bytes D.content p ++ rest) ≡ Ok
        (piece_of_bytes D.content p, rest) }
    ensures told { (p q : Piece D) → piece_of_bytes D.content p ≡ piece_of_bytes D.content q
        → p ≡ q }
{}

/// No proof has more bytes than `Proof::max_encode_size` says of its siblings, and no chunk more
/// than `Chunk::max_encode_size` says of its shard and siblings. Digests have `D::SIZE` bytes each,
/// as `Digest::as_bytes` says.
pub fn chunks_are_bounded<D: Digest>()
    ensures proof { (leaf_count most : ℕ) (siblings : List D) → AreSized D.content D.SIZE siblings
        → length siblings ≤ most →
        length (proof_bytes D.content leaf_count siblings) ≤ 5 + D.SIZE * most }
    ensures chunk { (shard most : ℕ) (p : Piece D) → AreSized D.content D.SIZE p.siblings
        → length p.shard ≤ shard → length p.siblings ≤ most →
        length (chunk_bytes D.content p) ≤ 12 + shard + D.SIZE * most }
{}

/// Each digest of a tree leads to the root by the siblings of its proof, of which there is at most
/// one for each level above the leaves; and a chunk with such a proof has no more bytes than
/// `Chunk::max_encode_size` says.
pub fn paths_lead_to_the_root<H: Hasher>()
    ensures leads { (digests : List H.Digest) (i : ℕ) (d : H.Digest)
        → slice_get digests i ≡ Some d →
        root_by H.digest_of H.Digest.content (length digests)
        (path_of H.digest_of H.Digest.content i digests) i d
        ≡ root_of H.digest_of H.Digest.content digests }
    ensures short { (digests : List H.Digest) (i height : ℕ) → i < length digests
        → IsHeight (length digests) height →
        length (path_of H.digest_of H.Digest.content i digests) ≤ height }
    ensures size { (digests : List H.Digest) (i height : ℕ) (p : Piece H.Digest)
        → length p.siblings ≤ height →
        p.siblings ≡ path_of H.digest_of H.Digest.content i digests →
        length (chunk_bytes H.Digest.content p) ≤ 12 + length p.shard + H.Digest.SIZE * height }
{}
