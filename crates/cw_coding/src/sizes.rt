//! How large encodings are.

ghost use Rattle.std.specs.Prelude.{◌≡◌, ℕ, ◌+◌, ◌-◌, ◌*◌, ◌^◌, ◌<◌, ◌≤◌, ◌↔◌, IsTrue};
ghost use Rattle.cw_tree.specs.Sizes.{IsHeight};
ghost use Rattle.cw_tree.specs.Widths.{shard_len};
ghost use Rattle.cw_coding.specs.Totals.{total_of};
ghost use Rattle.cw_coding.specs.Encoding.{IsEncodable};

use crate::encoding::is_codable;
use cw_base::Config;
use cw_tree::canonical_shard_len;

/// Whether `encode` takes data of `length` bytes under this config: the config has at most 65,535
/// shards, the data and its shards have at most `u32::MAX` bytes, and all shards together at most
/// `isize::MAX`.
pub fn max_shard_size_fits(config: &Config, length: usize) -> bool
    ensures { IsTrue result ↔ IsEncodable config.now length }
{
    config.total_shards() <= 65535 && is_codable(config, length)
}

// The height of a tree of so many leaves.
pub(crate) fn height_of(leaves: u32) -> usize
    requires some { 1 ≤ leaves }
    requires few { leaves ≤ 65535 }
    ensures height { IsHeight leaves result }
    ensures low { result ≤ 16 }
{
    let mut height = 0;
    let mut room: u32 = 1;
    'up: while room < leaves {
        room *= 2;
        height += 1;
    }
    height
}
