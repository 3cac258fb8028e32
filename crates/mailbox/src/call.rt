//! Calls that were made.

use crate::turn::Turn;

/// A call that was made: the place of its entry in the history, counted from 0, its event, and the
/// reply that its caller was given.
#[derive(Drop)]
pub struct Call<T: Turn> {
    /// Its place in the history, from 0.
    pub place: u64,
    /// What was asked.
    pub event: T::Event,
    /// What was answered.
    pub reply: T::Reply,
}
