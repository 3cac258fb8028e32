//! Who the members are, epoch by epoch.

ghost use Rattle.std.specs.Prelude.{◌≡◌, ◌+◌, ◌*◌, ◌≤◌, ◌==◌, Some, map, length, position, IfOk};
ghost use Rattle.std.specs.Prelude.{IsTrue};
ghost use Rattle.std.specs.List.{list_all};
ghost use Rattle.cw_coding.specs.Totals.{total_of};
ghost use Rattle.cw_types.specs.Epochs as epochs;

use crate::numbers::{config_for, quorum};
use cw_base::{Config, Items, NoMemory};
use std::alloc::Global;
use std::marker::Model;
use std::sync::Arc;

/// The committees of a cluster, which are known to all: how many members there are, how many
/// heights an epoch covers, and the members of each epoch. There are 1 to 64 lists, the last of
/// which serves for all later epochs. Each has at least four members, which rise.
///
/// ```text
/// let committees = Committees::single(alloc, 4)?;
/// let config = committees.config(0); // two shards give a block back, two more are sent
/// assert_eq!(rt; leader(&committees, 0, 6), 2); // the third member leads view 6
/// ```
#[derive(Debug, Drop)]
pub struct Committees {
    total: u16,
    // none: the first epoch has no end
    span: Option<u64>,
    // all copies share them
    lists: Arc<Items<Items<u16>>, Global>,
}

impl Model for Committees {
    ghost use Rattle.std.specs.Prelude.{IsTrue};
    ghost use Rattle.std.specs.Arc.{arc_value};
    ghost use Rattle.cw_types.specs.Epochs.{Epochs, is_sound};

    ghost Value = { Epochs };

    ghost view = { λ c. record { total = c.total; span = c.span; lists = arc_value c.lists } };

    ghost invariant = { λ c. IsTrue
        (is_sound (record { total = c.total; span = c.span; lists = arc_value c.lists })) };
}

impl Committees {
    /// One epoch without end, of the members 0 to `n - 1`.
    pub fn single(alloc: Global, n: u16) -> Result<Committees, NoMemory>
        requires { 4 ≤ n }
        ensures { IfOk result (λ committees. committees ≡ epochs.single n) }
    {
        let mut members = Vec::new(alloc);
        for member in 0..n {
            members.push(member)?;
        }
        let mut lists = Items::new(alloc);
        lists.push(Items::from_vec(members))?;
        Ok(Committees {
            total: n,
            span: None,
            lists: Arc::new(alloc, lists)?,
        })
    }

    /// Epochs of `span` heights each, with the members in these lists.
    pub fn new(
        alloc: Global,
        total: u16,
        span: u64,
        lists: &[Vec<u16>],
    ) -> Result<Committees, NoMemory>
        requires covers { 1 ≤ span }
        requires some { 1 ≤ length lists.now }
        requires few { length lists.now ≤ 64 }
        requires committees { IsTrue
            (list_all (epochs.is_committee total) (map (λ list. list.items) lists.now)) }
        ensures { IfOk result
            (λ committees. committees
            ≡ record {
              total = total;
              span = Some span;
              lists = map (λ list. list.items) lists.now;
            }) }
    {
        let mut copies = Items::new(alloc);
        for list in lists {
            copies.push(Items::from_vec(Vec::from_slice(alloc, list)?))?;
        }
        Ok(Committees {
            total,
            span: Some(span),
            lists: Arc::new(alloc, copies)?,
        })
    }

    /// An equal value, which shares the lists and takes no memory. It is refused only where as many
    /// copies are held as can be counted.
    pub fn copy(&self, _alloc: Global) -> Result<Committees, NoMemory>
        ensures { IfOk result (λ copy. copy ≡ self.now) }
    {
        Ok(Committees {
            total: self.total,
            span: self.span,
            lists: Arc::try_clone(&self.lists)?,
        })
    }

    /// How many members there are in all. Takes no memory.
    pub fn total(&self) -> u16
        ensures { result ≡ self.now.total }
    {
        self.total
    }

    /// How many heights an epoch covers; none where the first one has no end. Takes no memory.
    pub fn span(&self) -> Option<u64>
        ensures { result ≡ self.now.span }
    {
        self.span
    }

    /// The members of each committee, by epoch; the last one serves for later epochs too. Takes no
    /// memory.
    pub fn lists(&self) -> &[Items<u16>]
        ensures value { result.now ≡ self.now.lists }
        ensures sound { IsTrue (epochs.is_sound self.now) }
    {
        self.lists.as_slice()
    }

    /// The members of an epoch, rising: those of the last list for epochs past it. Takes no memory.
    pub fn members(&self, epoch: u64) -> &[u16]
        ensures value { result.now ≡ epochs.members_in self.now epoch }
        ensures committee { IsTrue (epochs.is_committee self.now.total result.now) }
    {
        members_of(self.lists(), epoch as usize)
    }

    /// How many members an epoch has. Takes no memory.
    pub fn size(&self, epoch: u64) -> u16
        ensures value { result ≡ epochs.size self.now epoch }
        ensures enough { 4 ≤ result }
    {
        // No committee has more members than there are, so their number fits.
        let _total = self.total();
        let members = self.members(epoch);
        members.len() as u16
    }

    /// Whether so many members are a [`quorum`] of an epoch. Takes no memory.
    pub fn is_enough(&self, epoch: u64, count: usize) -> bool
        ensures { result ≡ epochs.is_enough self.now epoch count }
    {
        usize::from(quorum(self.size(epoch))) <= count
    }

    /// In how many chunks the blocks of an epoch are cut, as [`config_for`] says. Takes no memory.
    pub fn config(&self, epoch: u64) -> Config
        ensures value { result ≡ epochs.config_in self.now epoch }
        ensures some { 2 ≤ result.minimum }
        ensures few { total_of result ≤ 65535 }
    {
        config_for(self.size(epoch))
    }

    /// Whether a member is one of an epoch's. Takes no memory.
    pub fn is_member(&self, epoch: u64, member: u16) -> bool
        ensures { result ≡ epochs.is_member self.now epoch member }
    {
        self.members(epoch).binary_search(&member).is_ok()
    }

    /// The place of a member in the list of an epoch; none for one that isn't in it. Takes no
    /// memory.
    pub fn place(&self, epoch: u64, member: u16) -> Option<u16>
        ensures { result ≡ epochs.place self.now epoch member }
    {
        // No committee has more members than there are, so a place fits.
        let _total = self.total();
        match place_in(self.members(epoch), member) {
            Some(place) => Some(place as u16),
            None => None,
        }
    }

    /// The last height of an epoch; none where it has no end, or where no block can be that high.
    /// Takes no memory.
    pub fn last_height(&self, epoch: u64) -> Option<u64>
        ensures { result ≡ epochs.last_block_height self.now epoch }
    {
        match self.span {
            Some(span) => last_of(span, epoch),
            None => None,
        }
    }
}

// Where a member stands among numbers that rise.
fn place_in(members: &[u16], member: u16) -> Option<usize>
    requires rising { IsTrue (epochs.rises_from 0 members.now) }
    ensures { result ≡ position (λ other. other == member) members.now }
{
    members.binary_search(&member).ok()
}

// The last height of an epoch of this many heights, where a block can be so high.
fn last_of(span: u64, epoch: u64) -> Option<u64>
    requires { 1 ≤ span }
    ensures { result ≡ epochs.height_of_block ((epoch + 1) * span) }
{
    match epoch.checked_add(1) {
        Some(count) => match count.checked_mul(span) {
            Some(last) if last < u64::MAX => Some(last),
            _ => None,
        },
        None => None,
    }
}

// The list of that number, else the last one.
fn members_of(lists: &[Items<u16>], epoch: usize) -> &[u16]
    ensures { result.now ≡ epochs.list_of lists.now epoch }
{
    let found = match lists.get(epoch) {
        Some(list) => Some(list),
        None => lists.last(),
    };
    match found {
        Some(list) => list.as_slice(),
        None => &[],
    }
}

/// The member that leads a view of an epoch: each in turn. Takes no memory.
pub fn leader(committees: &Committees, epoch: u64, view: u64) -> u16
    ensures { result ≡ epochs.leader committees.now epoch view }
{
    let members = committees.members(epoch);
    members[(view % members.len() as u64) as usize]
}
