//! Whether the calls of several lists are the entries of one history, in one pass over the lists.

ghost use Rattle.std.specs.Prelude.{◌≡◌, ◌<◌, ℕ, ◌&&◌, length, map, true, false, MatchOption, Some};
ghost use Rattle.std.specs.Prelude.{get_or, slice_get};
ghost use Rattle.mailbox.specs.Calls.{IsFirstFault, is_entry, place_holds};
ghost use Rattle.mailbox.specs.Marks.{is_empty, is_filled, mark_behind, marked_by, next_mark};

use crate::call::Call;
use crate::turn::Turn;

/// What was found of a place of the history so far.
#[derive(Clone, Copy, Debug, PartialEq, Eq)]
pub(crate) enum Mark {
    /// No call has it.
    Empty,
    /// One call has it, is the entry, and stands behind none of a greater place in its list.
    Filled,
    /// It fails.
    Failed,
}

impl Mark {
    fn is_empty(self) -> bool
        ensures { result ≡ is_empty self }
    {
        match self {
            Mark::Empty => true,
            Mark::Filled | Mark::Failed => false,
        }
    }

    fn is_filled(self) -> bool
        ensures { result ≡ is_filled self }
    {
        match self {
            Mark::Filled => true,
            Mark::Empty | Mark::Failed => false,
        }
    }
}

/// The least place of the history that fails, if one does. There is a mark for each entry.
pub(crate) fn first_fault<T: Turn>(
    history: &[(T::Event, T::Reply)],
    lists: &[Vec<Call<T>>],
    marks: &mut [Mark],
) -> Option<u64>
    requires empty { marks.old ≡ map (λ x. Mark.Empty) history.now }
    ensures { MatchOption result
        ((k : ℕ) → k < length history.now
        → place_holds (is_entry T.Event.eq T.Reply.eq) history.now (map (λ v. v.items) lists.now) k
        ≡ true)
        (λ place. IsFirstFault (is_entry T.Event.eq T.Reply.eq) history.now
        (map (λ v. v.items) lists.now) place) }
{
    for list in lists {
        mark_list(history, list.as_slice(), marks);
    }
    first_unfilled(marks)
}

// Marks the places of the calls of one list.
fn mark_list<T: Turn>(history: &[(T::Event, T::Reply)], list: &[Call<T>], marks: &mut [Mark])
    requires { length marks.old ≡ length history.now }
    ensures { (k : ℕ) (x : _) → slice_get history.now k ≡ Some x
        → get_or marks.new k Mark.Empty
        ≡ marked_by (is_entry T.Event.eq T.Reply.eq x) k
        (get_or marks.old k Mark.Empty) 0 list.now }
{
    let mut top = 0;
    for call in list {
        mark_call(history, call, top, marks);
        top = top.max(call.place);
    }
}

// Marks the place of one call, where those before it in its list have places of at most `top`.
fn mark_call<T: Turn>(
    history: &[(T::Event, T::Reply)],
    call: &Call<T>,
    top: u64,
    marks: &mut [Mark],
)
    requires { length marks.old ≡ length history.now }
    ensures { (k : ℕ) (x : _) → slice_get history.now k ≡ Some x
        → get_or marks.new k Mark.Empty
        ≡ mark_behind (is_entry T.Event.eq T.Reply.eq x) k (get_or marks.old k Mark.Empty) top
        call.now }
{
    if call.place < history.len() as u64 {
        let place = call.place as usize;
        marks[place] = next_mark(marks[place], top, call, &history[place]);
    }
}

// The mark of the call's own place behind it.
fn next_mark<T: Turn>(mark: Mark, top: u64, call: &Call<T>, entry: &(T::Event, T::Reply)) -> Mark
    ensures { result ≡ next_mark (is_entry T.Event.eq T.Reply.eq entry.now) mark top call.now }
{
    if mark.is_empty() && top <= call.place && is_entry(call, entry) {
        Mark::Filled
    } else {
        Mark::Failed
    }
}

fn is_entry<T: Turn>(call: &Call<T>, entry: &(T::Event, T::Reply)) -> bool
    ensures { result ≡ is_entry T.Event.eq T.Reply.eq entry.now call.now }
{
    entry.0 == call.event && entry.1 == call.reply
}

// The first place whose mark isn't Filled.
fn first_unfilled(marks: &[Mark]) -> Option<u64>
    ensures { MatchOption result
        ((k : ℕ) → k < length marks.now → is_filled (get_or marks.now k Mark.Empty) ≡ true)
        (λ place. (place < length marks.now)
        × (is_filled (get_or marks.now place Mark.Empty) ≡ false)
        × ((k : ℕ) → k < place → is_filled (get_or marks.now k Mark.Empty) ≡ true)) }
{
    for i in 0..marks.len() {
        if !marks[i].is_filled() {
            return Some(i as u64);
        }
    }
    None
}
