//! How wide shards are.

ghost use Rattle.std.specs.Prelude.{◌≡◌, ℕ, ◌+◌, ◌-◌, ◌*◌, ◌/◌, ◌%◌, ◌^◌, ◌<◌, ◌≤◌};
ghost use Rattle.cw_tree.specs.Widths.{shard_len};

/// The width of the `k` shards that hold data of `length` bytes behind its length: the least even
/// number that gives room.
pub fn canonical_shard_len(length: usize, k: u16) -> usize
    requires length { length ≤ 2 ^ 32 - 1 }
    requires some { 1 ≤ k }
    ensures value { result ≡ shard_len length k }
    ensures even { result % 2 ≡ 0 }
    ensures positive { 0 < result }
    ensures narrow { result ≤ 2 ^ 32 + 4 }
    ensures covers { length + 4 ≤ k * result }
    ensures fits { k * result < 2 ^ 63 }
{
    shard_len_of(length, k)
}

#[tactic(auto, unfolding(crate::specs::Widths::shard_len))]
fn shard_len_of(length: usize, k: u16) -> usize
    requires length { length ≤ 2 ^ 32 - 1 }
    requires some { 1 ≤ k }
    ensures { result ≡ shard_len length k }
{
    let width = (length + 4 + (usize::from(k) - 1)) / usize::from(k);
    width + width % 2
}
