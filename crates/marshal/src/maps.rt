//! Maps by keys: where what is of a key stands first, and values that change.

ghost use Rattle.std.specs.Prelude.{◌≡◌, IsSome, OnErr, OnOk, Some, if◌then◌else◌};
ghost use Rattle.std.specs.BTreeMap.{get};
ghost use Rattle.std.specs.Ordering.{is_eq};
ghost use Rattle.marshal.specs.Placed.{KeepsFirst, LetsGo};

use cw_base::NoMemory;
use std::collections::BTreeMap;

/// Keeps a place at a key that has none. Where memory is short nothing changes.
pub(crate) fn put_first<K: Ord + Drop>(
    map: &mut BTreeMap<K, u64>,
    key: K,
    place: u64,
) -> Result<(), NoMemory>
    ensures ok { OnOk result (KeepsFirst (λ a b. is_eq (K.cmp a b)) key place
        map.old.entries map.new.entries) }
    ensures err { OnErr result (map.new.entries ≡ map.old.entries) }
{
    if map.contains_key(&key) {
        return Ok(());
    }
    map.insert(key, place)?;
    Ok(())
}

/// Lets a place go, where it is the one at that key.
pub(crate) fn take_last<K: Ord + Drop>(map: &mut BTreeMap<K, u64>, key: &K, place: u64)
    ensures { LetsGo (λ a b. is_eq (K.cmp a b)) key.now place map.old.entries map.new.entries }
{
    let is_last = match map.get(key) {
        Some(found) => *found == place,
        None => false,
    };
    if is_last {
        let _ = map.remove(key);
    }
}

/// Changes the value at a key that has one, which takes no memory.
pub(crate) fn put_there<K: Ord + Drop, V: Drop>(map: &mut BTreeMap<K, V>, key: K, value: V)
    ensures { IsSome (get K.cmp map.old key) → (q : K) → get K.cmp map.new q
        ≡ (if is_eq (K.cmp key q) then Some value else get K.cmp map.old q) }
{
    match map.insert(key, value) {
        Ok(_) => {}
        Err(_) => {}
    }
}
