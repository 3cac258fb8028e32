//! In how many chunks the blocks of an epoch are cut.

ghost use Rattle.std.specs.Prelude.{◌≡◌, ◌≤◌, IsTrue, length};
ghost use Rattle.std.specs.List.{list_any};
ghost use Rattle.cw_base.specs.Config.{same_counts};
ghost use Rattle.cw_coding.specs.Totals.{total_of};
ghost use Rattle.cw_types.specs.Numbers.{config_for};

use cw_base::Config;
use cw_types::Committees;

/// Whether a config is that of some epoch.
pub(crate) fn has_config(committees: &Committees, config: &Config) -> bool
    ensures value { result
        ≡ list_any (λ list. same_counts config.now (config_for (length list)))
        committees.now.lists }
    ensures some { IsTrue result → 2 ≤ config.now.minimum }
    ensures few { IsTrue result → total_of config.now ≤ 65535 }
{
    for epoch in 0..committees.lists().len() {
        if config.is_same(&committees.config(epoch as u64)) {
            return true;
        }
    }
    false
}
