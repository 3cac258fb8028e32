//! Maps that say something of keys.

ghost use Rattle.std.specs.Prelude.{◌≡◌, IsSome, None, OnErr, OnOk, Some, if◌then◌else◌};
ghost use Rattle.std.specs.BTreeMap.{IsUnchanged, get};
ghost use Rattle.std.specs.Option.{is_some, option_or};
ghost use Rattle.std.specs.Ordering.{is_eq};

use cw_base::NoMemory;
use std::collections::BTreeMap;

/// Keeps a value at a key that has none. Where memory is short nothing changes.
pub(crate) fn put_first<K: Ord + Drop, V: Drop>(
    map: &mut BTreeMap<K, V>,
    key: K,
    value: V,
) -> Result<(), NoMemory>
    ensures ok { (q : K) → OnOk result (get K.cmp map.new q
        ≡ option_or (get K.cmp map.old q) (if is_eq (K.cmp q key) then Some value else None)) }
    ensures err { OnErr result (IsUnchanged map.old map.new) }
{
    if map.contains_key(&key) {
        return Ok(());
    }
    map.insert(key, value)?;
    Ok(())
}

/// Changes the value at a key that has one, which takes no memory.
pub(crate) fn put_there<K: Ord + Drop, V: Drop>(map: &mut BTreeMap<K, V>, key: K, value: V)
    ensures { IsSome (get K.cmp map.old key) → (q : K) → get K.cmp map.new q
        ≡ (if is_eq (K.cmp key q) then Some value else get K.cmp map.old q) }
{
    match map.insert(key, value) {
        Ok(_) => {}
        Err(_) => {}
    }
}
