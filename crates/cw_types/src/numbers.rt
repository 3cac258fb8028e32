//! The numbers of a cluster of `n` members.

ghost use Rattle.std.specs.Prelude.{◌≡◌, ◌≤◌};
ghost use Rattle.cw_coding.specs.Totals.{total_of};
ghost use Rattle.cw_types.specs.Numbers as numbers;

use cw_base::Config;
use std::num::NonZeroU16;

/// The most faulty members that `n` members bear: a third of the others, rounded down.
pub fn max_faults(n: u16) -> u16
    requires { 4 ≤ n }
    ensures { result ≡ numbers.max_faults n }
{
    (n - 1) / 3
}

/// How many members decide: all but the most that may be faulty. Two quorums share an honest
/// member.
pub fn quorum(n: u16) -> u16
    requires { 4 ≤ n }
    ensures { result ≡ numbers.quorum n }
{
    n - max_faults(n)
}

/// In how many chunks `n` members cut a block: one for each of them, of which any `f + 1` show it,
/// so that as many members as may be faulty don't have enough.
pub fn config_for(n: u16) -> Config
    requires { 4 ≤ n }
    ensures value { result ≡ numbers.config_for n }
    ensures some { 2 ≤ result.minimum }
    ensures total { total_of result ≡ n }
{
    let minimum = max_faults(n) + 1;
    Config {
        minimum_shards: positive(minimum),
        extra_shards: positive(n - minimum),
    }
}

fn positive(n: u16) -> NonZeroU16
    requires { 1 ≤ n }
    ensures { result.value ≡ n }
{
    match NonZeroU16::new(n) {
        Some(n) => n,
        None => unreachable!(),
    }
}
