//! Into how many shards a text is cut.

ghost use Rattle.std.specs.Prelude.{◌≡◌, ◌↔◌, ◌+◌, ◌≤◌, IfSome, IsSome};
ghost use Rattle.cw_base.specs.Config.{config_bytes, same_counts};

use std::marker::Model;
use std::num::NonZeroU16;

/// How many shards a text is cut into: any `minimum_shards` of the `total_shards` give it back.
#[derive(Clone, Copy, Debug, PartialEq, Eq, PartialOrd, Ord, Hash)]
pub struct Config {
    /// How many shards hold the text, and give it back.
    pub minimum_shards: NonZeroU16,
    /// How many are added.
    pub extra_shards: NonZeroU16,
}

impl Model for Config {
    ghost use Rattle.cw_base.specs.Counts.{Counts};

    ghost Value = { Counts };

    ghost use Rattle.cw_base.specs.Counts.{positive};
    ghost use Rattle.cw_base.specs.CountsLaw.{from_values};

    ghost view = { λ c. record { minimum = c.minimum_shards.value; extra = c.extra_shards.value } };

    ghost inverse = { λ s. record {
      minimum_shards = positive s.minimum;
      extra_shards = positive s.extra;
    } };

    ghost inverse_ok = { λ a h. from_values
        (λ m e. record { minimum_shards = m; extra_shards = e }) a.minimum_shards a.extra_shards };
}

impl Config {
    /// How many bytes a config is written in.
    pub const SIZE: usize = 4;

    /// The config of these two numbers; `None` exactly where one of them is zero.
    pub fn new(minimum: u16, extra: u16) -> Option<Config>
        ensures exact { IsSome result ↔ (1 ≤ minimum × 1 ≤ extra) }
        ensures minimum { IfSome result (λ config. config.minimum ≡ minimum) }
        ensures extra { IfSome result (λ config. config.extra ≡ extra) }
    {
        Some(Config {
            minimum_shards: NonZeroU16::new(minimum)?,
            extra_shards: NonZeroU16::new(extra)?,
        })
    }

    /// How many shards hold the text and give it back, as a number.
    pub fn minimum(&self) -> u16
        ensures value { result ≡ self.now.minimum }
        ensures some { 1 ≤ result }
    {
        self.minimum_shards.get()
    }

    /// How many shards are added, as a number.
    pub fn extra(&self) -> u16
        ensures value { result ≡ self.now.extra }
        ensures some { 1 ≤ result }
    {
        self.extra_shards.get()
    }

    /// The shards that hold the text and those that are added.
    pub fn total_shards(&self) -> u32
        ensures { result ≡ self.now.minimum + self.now.extra }
    {
        u32::from(self.minimum_shards.get()) + u32::from(self.extra_shards.get())
    }

    /// Whether the two have the same numbers.
    pub fn is_same(&self, other: &Config) -> bool
        ensures { result ≡ same_counts self.now other.now }
    {
        self.minimum_shards.get() == other.minimum_shards.get()
            && self.extra_shards.get() == other.extra_shards.get()
    }

    /// Both numbers, the minimum first, each in two big-endian bytes.
    #[tactic(auto, unfolding(crate::specs::Config::config_bytes, crate::specs::Bytes::be16))]
    pub fn write(&self) -> [u8; 4]
        ensures { result ≡ config_bytes self.now }
    {
        let [a, b] = self.minimum_shards.get().to_be_bytes();
        let [c, d] = self.extra_shards.get().to_be_bytes();
        [a, b, c, d]
    }
}
