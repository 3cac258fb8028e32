//! What each account has, in a map by account.

ghost use Rattle.std.specs.Prelude.{◌≡◌, ◌⊎◌, ℕ, true, false, IfOk, OnErr, OnOk};
ghost use Rattle.std.specs.List.Sorted.{IsStrictlySortedBy};
ghost use Rattle.std.specs.Map.{keys_of};
ghost use Rattle.std.specs.Ordering.{nat_cmp};
ghost use Rattle.cw_ledger.specs.Kept.{HasRoom, IsSet, amount_in, has_entry};
ghost use Rattle.cw_ledger.specs.Transfers.{first_balance, holdings, moved, moved_all};

use crate::transfer::Transfer;
use cw_base::NoMemory;
use std::alloc::Global;
use std::collections::BTreeMap;
use std::marker::Model;

/// What an account holds, which is above 0.
#[derive(Clone, Copy, Debug, PartialEq, Eq)]
pub struct Holding {
    /// The number of the account.
    pub account: u32,
    /// What it has, never 0.
    pub amount: u64,
}

/// The balances, by account. Contracts see the entries of the map, in order of the accounts. An
/// account without an entry has nothing.
#[derive(Drop)]
pub(crate) struct Balances {
    map: BTreeMap<u32, u64>,
}

impl Model for Balances {
    ghost use Rattle.std.specs.Prelude.{List, ℕ};
    ghost use Rattle.cw_ledger.specs.Kept.{AreBalances};

    ghost Value = { List (ℕ × ℕ) };

    ghost view = { λ b. b.map.entries };

    ghost invariant = { λ b. AreBalances b.map.entries };
}

impl Balances {
    /// The balances of the beginning: account 0 has all that there is.
    pub(crate) fn new(alloc: Global) -> Result<Balances, NoMemory>
        ensures { IfOk result (λ balances. (account : ℕ)
            → amount_in balances account ≡ first_balance account) }
    {
        let mut map = BTreeMap::new(alloc);
        map.insert(0, 1_000_000_000)?;
        Ok(Balances { map })
    }

    /// What an account has.
    pub(crate) fn amount(&self, account: u32) -> u64
        ensures { result ≡ amount_in self.now account }
    {
        amount_of(&self.map, account)
    }

    /// Makes room for what these transfers give, so that they pass without memory. What each
    /// account has stays, also where memory is short.
    pub(crate) fn make_room(&mut self, transfers: &[Transfer]) -> Result<(), NoMemory>
        ensures room { OnOk result (HasRoom self.new transfers.now) }
        ensures same { (account : ℕ) → amount_in self.new account ≡ amount_in self.old account }
    {
        for transfer in transfers {
            self.make_entry(transfer.to)?;
        }
        Ok(())
    }

    // Sees to it that an account has an entry. What each account has stays.
    fn make_entry(&mut self, account: u32) -> Result<(), NoMemory>
        ensures there { OnOk result (has_entry self.new account ≡ true) }
        ensures same { (other : ℕ) → amount_in self.new other ≡ amount_in self.old other }
        ensures stays { (other : ℕ) → has_entry self.old other ≡ true
            → has_entry self.new other ≡ true }
    {
        if self.map.contains_key(&account) {
            return Ok(());
        }
        put(&mut self.map, account, 0)
    }

    /// Passes these transfers, one behind the other.
    pub(crate) fn pass_all(&mut self, transfers: &[Transfer])
        requires { HasRoom self.old transfers.now }
        ensures { (account : ℕ)
            → amount_in self.new account ≡ moved_all (amount_in self.old) transfers.now account }
    {
        for transfer in transfers {
            self.pass(transfer);
        }
    }

    // Passes a transfer, where the balance is there and goes to another account.
    fn pass(&mut self, transfer: &Transfer)
        requires { has_entry self.old transfer.now.to ≡ true }
        ensures moved { (account : ℕ)
            → amount_in self.new account ≡ moved (amount_in self.old) transfer.now account }
        ensures stays { (other : ℕ) → has_entry self.old other ≡ true
            → has_entry self.new other ≡ true }
    {
        let from = amount_of(&self.map, transfer.from);
        if from < transfer.amount {
            return;
        }
        if transfer.from == transfer.to {
            return;
        }
        set_amount(&mut self.map, transfer.from, from - transfer.amount);
        let to = amount_of(&self.map, transfer.to);
        set_amount(&mut self.map, transfer.to, to + transfer.amount);
    }

    /// The accounts that hold something, by number.
    pub(crate) fn holdings(&self, alloc: Global) -> Result<Vec<Holding>, NoMemory>
        ensures { IfOk result (λ found. found.items ≡ holdings (amount_in self.now)) }
    {
        let mut found = Vec::new(alloc);
        for (account, amount) in &self.map {
            if *amount > 0 {
                found.push(Holding {
                    account: *account,
                    amount: *amount,
                })?;
            }
        }
        Ok(found)
    }
}

// What an account has.
fn amount_of(map: &BTreeMap<u32, u64>, account: u32) -> u64
    ensures { result ≡ amount_in map.now.entries account }
{
    match map.get(&account) {
        Some(amount) => *amount,
        None => 0,
    }
}

// Sets what an account has, by an entry. Only a new entry takes memory.
fn put(map: &mut BTreeMap<u32, u64>, account: u32, amount: u64) -> Result<(), NoMemory>
    ensures ok { OnOk result (IsSet account amount map.old.entries map.new.entries) }
    ensures there { OnOk result (has_entry map.new.entries account ≡ true) }
    ensures err { OnErr result (map.new.entries ≡ map.old.entries) }
    ensures absent { OnErr result (has_entry map.old.entries account ≡ false) }
    ensures was_sorted { IsStrictlySortedBy nat_cmp (keys_of map.old.entries) }
{
    map.insert(account, amount)?;
    Ok(())
}

// Sets what an account has, where it has an entry, or nothing before and after.
fn set_amount(map: &mut BTreeMap<u32, u64>, account: u32, amount: u64)
    requires { (amount ≡ 0) ⊎ (has_entry map.old.entries account ≡ true) }
    ensures { IsSet account amount map.old.entries map.new.entries }
{
    match put(map, account, amount) {
        Ok(()) => {}
        Err(NoMemory) => {}
    }
}
