//! The two ways in which blocks travel, as types.

ghost use Rattle.std.specs.Prelude.{◌≡◌};
ghost use Rattle.cw_rules.specs.declared.travel.Travel.{Travel as TravelValue};

use cw_rules::Travel;

/// How the blocks of a member travel, by its type: [`Chunked`] or [`Uncut`].
pub trait Way {
    /// What contracts say of it.
    ghost travel: { TravelValue };

    /// The same as a value.
    fn travel() -> Travel
        ensures { result ≡ Self.travel };
}

/// In chunks: each member is sent one of its own, and votes for the block of which it came.
#[derive(Drop)]
pub struct Chunked;

impl Way for Chunked {
    ghost use Rattle.cw_rules.specs.declared.travel.Travel.TheVariants as way;

    ghost travel = { way.Chunked };

    fn travel() -> Travel {
        Travel::Chunked
    }
}

/// Whole: each member is sent the block, and votes for what it saw.
#[derive(Drop)]
pub struct Uncut;

impl Way for Uncut {
    ghost use Rattle.cw_rules.specs.declared.travel.Travel.TheVariants as way;

    ghost travel = { way.Uncut };

    fn travel() -> Travel {
        Travel::Uncut
    }
}
