//! Where numbers begin, and how they are ordered: epochs, views, heights, rounds and configs.

use cw_base::Config;
use cw_types::{Epoch, Height, Round, View};
use std::cmp::Ordering;

#[test]
fn each_number_begins_at_zero(rt: HostRuntime) {
    let first = (
        Epoch::default().get(),
        View::default().get(),
        Height::default().get(),
    );
    assert_eq!(rt; first, (0, 0, 0));
    assert_eq!(rt; Round::default(), round((0, 0)));
}

fn round((epoch, view): (u16, u16)) -> Round {
    Round::new(Epoch::new(u64::from(epoch)), View::new(u64::from(view)))
}

// how two numbers compare as epochs, as views and as heights
fn compared(one: u64, other: u64) -> [Ordering; 3] {
    [
        Epoch::new(one).cmp(&Epoch::new(other)),
        View::new(one).cmp(&View::new(other)),
        Height::new(one).cmp(&Height::new(other)),
    ]
}

#[test]
fn numbers_are_ordered_as_numbers(rt: HostRuntime) {
    for (one, other) in [(0u64, 0u64), (1, 2), (u64::MAX, 1)] {
        assert_eq!(rt; compared(one, other), [one.cmp(&other); 3]);
    }
}

// how two pairs compare as rounds, and as configs where no number is zero
fn pairs_compared(one: (u16, u16), other: (u16, u16)) -> (Ordering, Option<Ordering>) {
    let rounds = round(one).cmp(&round(other));
    match (Config::new(one.0, one.1), Config::new(other.0, other.1)) {
        (Some(first), Some(second)) => (rounds, Some(first.cmp(&second))),
        _ => (rounds, None),
    }
}

// each is below the next
const RISING: [(u16, u16); 4] = [(1, 9), (2, 1), (2, 2), (3, 1)];

#[test]
fn the_first_of_two_fields_decides_before_the_second(rt: HostRuntime) {
    for (i, one) in RISING.iter().enumerate() {
        for (j, other) in RISING.iter().enumerate() {
            let order = i.cmp(&j);
            assert_eq!(rt; pairs_compared(*one, *other), (order, Some(order)));
        }
    }
}
