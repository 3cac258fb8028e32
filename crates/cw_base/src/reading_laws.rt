//! Laws of bytes and of the formats, which take no work: numbers and configs read back as they were
//! written.

ghost use Rattle.std.specs.Prelude.{[], ℕ, ◌<◌, ◌^◌, ◌∷◌, ◌≡◌, List, length, slice_index};
ghost use Rattle.cw_base.specs.Bytes.{be16, be32, be64, varint};
ghost use Rattle.cw_base.specs.Reading.{byte_at, bytes_at, be16_at, be32_at, be64_at, varint_at};
ghost use Rattle.cw_base.specs.Reading.{config_at};
ghost use Rattle.cw_base.specs.Config.{config_bytes};
ghost use Rattle.cw_base.specs.ReadsBack.{ReadsBack, IsConfig};

/// What the calls of a reader take is in the format of its number, and what is in that format is
/// read as itself.
pub fn numbers_read_back()
    ensures bytes { (n : ℕ) → ReadsBack (λ bytes. bytes) (λ bytes. length bytes ≡ n) (bytes_at n) }
    ensures byte { ReadsBack (λ n. n ∷ []) (λ n. n < 256) byte_at }
    ensures two { ReadsBack be16 (λ n. n < 2 ^ 16) be16_at }
    ensures four { ReadsBack be32 (λ n. n < 2 ^ 32) be32_at }
    ensures eight { ReadsBack be64 (λ n. n < 2 ^ 64) be64_at }
    ensures short_form { ReadsBack varint (λ n. n < 2 ^ 32) varint_at }
    ensures config { ReadsBack config_bytes IsConfig config_at }
{}

/// Each byte is below 256, as its type says.
pub fn bytes_fit(bytes: &[u8])
    ensures { (i : ℕ) → slice_index bytes.now i < 256 }
{}
