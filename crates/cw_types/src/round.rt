//! Numbers of a chain: epochs, views, heights, and rounds, and what has them.

ghost use Rattle.std.specs.Prelude.{◌≡◌, ℕ};

use crate::block::Context;
use std::marker::Model;

/// The number of an epoch: a run of heights with one committee.
#[derive(Clone, Copy, Debug, Default, PartialEq, Eq, PartialOrd, Ord, Hash)]
pub struct Epoch {
    value: u64,
}

impl Model for Epoch {
    ghost use Rattle.std.specs.Prelude.{ℕ};

    ghost Value = { ℕ };

    ghost view = { λ n. n.value };

    ghost inverse = { λ n. record { value = n } };
}

impl Epoch {
    /// The epoch of this number.
    pub fn new(value: u64) -> Epoch
        ensures { result ≡ value }
    {
        Epoch { value }
    }

    /// Its number.
    pub fn get(self) -> u64
        ensures { result ≡ self }
    {
        self.value
    }

    /// The first epoch.
    pub fn zero() -> Epoch
        ensures { result ≡ 0 }
    {
        Epoch::new(0)
    }
}

/// The number of a view: one try to agree on a block, with one leader.
#[derive(Clone, Copy, Debug, Default, PartialEq, Eq, PartialOrd, Ord, Hash)]
pub struct View {
    value: u64,
}

impl Model for View {
    ghost use Rattle.std.specs.Prelude.{ℕ};

    ghost Value = { ℕ };

    ghost view = { λ n. n.value };

    ghost inverse = { λ n. record { value = n } };
}

impl View {
    /// The view of this number.
    pub fn new(value: u64) -> View
        ensures { result ≡ value }
    {
        View { value }
    }

    /// Its number.
    pub fn get(self) -> u64
        ensures { result ≡ self }
    {
        self.value
    }

    /// View 0, which comes before all views that are voted in.
    pub fn zero() -> View
        ensures { result ≡ 0 }
    {
        View::new(0)
    }
}

/// How many blocks a block stands over.
#[derive(Clone, Copy, Debug, Default, PartialEq, Eq, PartialOrd, Ord, Hash)]
pub struct Height {
    value: u64,
}

impl Model for Height {
    ghost use Rattle.std.specs.Prelude.{ℕ};

    ghost Value = { ℕ };

    ghost view = { λ n. n.value };

    ghost inverse = { λ n. record { value = n } };
}

impl Height {
    /// The height of this number.
    pub fn new(value: u64) -> Height
        ensures { result ≡ value }
    {
        Height { value }
    }

    /// Its number.
    pub fn get(self) -> u64
        ensures { result ≡ self }
    {
        self.value
    }

    /// The height of the first block.
    pub fn zero() -> Height
        ensures { result ≡ 0 }
    {
        Height::new(0)
    }
}

/// A view of an epoch.
#[derive(Clone, Copy, Debug, Default, PartialEq, Eq, PartialOrd, Ord, Hash)]
pub struct Round {
    /// The epoch of the view.
    pub epoch: Epoch,
    /// The view.
    pub view: View,
}

impl Round {
    /// That view of that epoch.
    pub fn new(epoch: Epoch, view: View) -> Round
        ensures { result ≡ record { epoch = epoch; view = view } }
    {
        Round { epoch, view }
    }

    /// View 0 of epoch 0: that of the first block.
    pub fn zero() -> Round
        ensures { result ≡ record { epoch = 0; view = 0 } }
    {
        Round::new(Epoch::zero(), View::zero())
    }
}

/// What is of an epoch.
pub trait Epochable {
    /// The number of its epoch.
    ghost epoch_of: { Self → ℕ };

    /// Its epoch.
    fn epoch(&self) -> Epoch
        ensures { result ≡ epoch_of self.now };
}

/// What is of a view.
pub trait Viewable {
    /// The number of its view.
    ghost view_of: { Self → ℕ };

    /// Its view.
    fn view(&self) -> View
        ensures { result ≡ view_of self.now };
}

/// What is of a view of an epoch.
pub trait Roundable: Epochable + Viewable {
    /// Its view with its epoch.
    fn round(&self) -> Round
        ensures epoch { result.epoch ≡ Self.epoch_of self.now }
        ensures view { result.view ≡ Self.view_of self.now }
    {
        Round::new(self.epoch(), self.view())
    }
}

/// What has a height.
pub trait Heightable {
    /// The number of blocks below it.
    ghost height_of: { Self → ℕ };

    /// Its height.
    fn height(&self) -> Height
        ensures { result ≡ height_of self.now };
}

impl Epochable for Round {
    ghost epoch_of = { λ round. round.epoch };

    fn epoch(&self) -> Epoch {
        self.epoch
    }
}

impl Viewable for Round {
    ghost view_of = { λ round. round.view };

    fn view(&self) -> View {
        self.view
    }
}

impl Roundable for Round {}

impl Epochable for Context {
    ghost epoch_of = { λ context. context.epoch };

    fn epoch(&self) -> Epoch {
        Epoch::new(self.epoch)
    }
}

impl Viewable for Context {
    ghost view_of = { λ context. context.view };

    fn view(&self) -> View {
        View::new(self.view)
    }
}

impl Roundable for Context {}
