//! Laws of encodings, which take no work: their contracts are what is proved.

ghost use Rattle.cw_coding.specs.Laws.{EncodingsCheck, EncodingsFit, EncodingsReadBack};
ghost use Rattle.cw_coding.specs.Laws.{AnyEnoughDecode};

use cw_base::{Digest, Hasher};
use cw_tree::chunks_with_digests_read_back;
use rs_code::laws::prove_rows;

/// Each chunk of an encoding checks at its index, and has no more bytes than `max_shard_size` says.
/// Read with a maximum of at least the data's length, its bytes are read as the chunk, and what
/// follows them is left. Any chunks of different indices of one encoding, at least as many as the
/// minimum, are decoded to its data and to nothing else.
pub fn encodings_decode<H: Hasher>()
    ensures checks { EncodingsCheck H.digest_of H.Digest.content }
    ensures fits { EncodingsFit H.digest_of H.Digest.content H.Digest.SIZE }
    ensures read_back { EncodingsReadBack H.digest_of H.Digest.content H.Digest.SIZE }
    ensures any_enough { AnyEnoughDecode H.digest_of H.Digest.content }
{
    prove_rows();
    chunks_with_digests_read_back::<H::Digest>();
}
