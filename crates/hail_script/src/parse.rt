//! Reading the lines behind a header, and whether they are run.

ghost use Rattle.std.specs.Prelude.{◌≡◌, ◌≤◌, ◌<◌, ◌^◌, ◌⊎◌, IfOk, IfErr, IsTrue, map, nat_le};
ghost use Rattle.std.specs.Prelude.{nat_lt, ◌&&◌, [], length, count_by};
ghost use Rattle.std.specs.List.{list_all};
ghost use Rattle.cw_types.specs.Epochs.{is_committee, rises_from};
ghost use Rattle.hail_script.specs.Admission as admission;
ghost use Rattle.hail_script.specs.Grammar as grammar;
ghost use Rattle.hail_script.specs.Raw.{raw_line_of};
ghost use Rattle.hail_script.specs.declared.error.RunError.TheVariants as error;

use crate::error::RunError;
use crate::lines::event_of;
use crate::raw::{RawLine, member_of, names_oversize};
use cw_base::{Items, NoMemory};
use cw_types::Committees;
use std::alloc::Global;

/// The events of lines, of which the first has that number.
pub(crate) fn events_of(
    alloc: Global,
    first: u64,
    lines: &[&[u8]],
) -> Result<Items<RawLine>, RunError>
    requires { first ≤ 66 }
    ensures ok { IfOk result
        (λ events. grammar.events_from first (map (λ line. line.now) lines.now) ≡ Ok
        (map raw_line_of events)) }
    ensures err { IfErr result (λ e. (e ≡ error.NoMemory)
        ⊎ (grammar.events_from first (map (λ line. line.now) lines.now) ≡ Err e)) }
{
    let mut events = Items::new(alloc);
    for (index, line) in lines.iter().enumerate() {
        match event_of(alloc, line)? {
            None => return Err(RunError::Syntax(index as u64 + first)),
            Some(event) => events.push(event)?,
        }
    }
    Ok(events)
}

/// The first event line that names a member past the last.
pub(crate) fn first_unknown(total: u16, first: u64, events: &[RawLine]) -> Option<u64>
    requires { first ≤ 66 }
    ensures { result ≡ grammar.first_at (grammar.names_stranger total) first
        (map raw_line_of events.now) }
{
    for (index, event) in events.iter().enumerate() {
        if member_of(event) >= u64::from(total) {
            return Some(index as u64 + first);
        }
    }
    None
}

/// The first event line with a payload that is too long.
pub(crate) fn first_oversize(first: u64, events: &[RawLine]) -> Option<u64>
    requires { first ≤ 66 }
    ensures { result ≡ grammar.first_at grammar.names_oversize first (map raw_line_of events.now) }
{
    for (index, event) in events.iter().enumerate() {
        if names_oversize(event) {
            return Some(index as u64 + first);
        }
    }
    None
}

/// For each member, whether some line makes it faulty.
pub(crate) fn marks_of(alloc: Global, total: u16, events: &[RawLine]) -> Result<Vec<bool>, NoMemory>
    ensures { IfOk result
        (λ marks. marks.items ≡ grammar.faulty_marks (map raw_line_of events.now) total) }
{
    let mut marks = unmarked(alloc, total)?;
    for event in events {
        mark(&mut marks, event);
    }
    Ok(marks)
}

fn unmarked(alloc: Global, total: u16) -> Result<Vec<bool>, NoMemory>
    ensures { IfOk result (λ marks. marks.items ≡ grammar.faulty_marks [] total) }
{
    let mut marks = Vec::new(alloc);
    for _member in 0..total {
        marks.push(false)?;
    }
    Ok(marks)
}

// Marks the member that a line makes faulty.
fn mark(marks: &mut Vec<bool>, line: &RawLine)
    ensures { marks.new.items ≡ admission.with_faulty marks.old.items (raw_line_of line.now) }
{
    if let RawLine::Faulty(member, _) = line {
        let member = *member as usize;
        if member < marks.len() {
            marks[member] = true;
        }
    }
}

fn is_marked(marks: &[bool], member: u16) -> bool
    ensures { result ≡ admission.is_marked marks.now member }
{
    let member = usize::from(member);
    member < marks.len() && marks[member]
}

fn count_marked(marks: &[bool], list: &[u16]) -> usize
    ensures { result ≡ count_by (admission.is_marked marks.now) list.now }
{
    let mut count = 0;
    for member in list {
        if is_marked(marks, *member) {
            count += 1;
        }
    }
    count
}

fn marks_bear(marks: &[bool], list: &[u16]) -> bool
    ensures { result ≡ admission.marks_bear marks.now list.now }
{
    count_marked(marks, list) <= list.len().saturating_sub(1) / 3
}

/// Whether at most f members of each list are marked.
pub(crate) fn bears_all(marks: &[bool], committees: &Committees) -> bool
    ensures { result ≡ list_all (admission.marks_bear marks.now) committees.now.lists }
{
    for list in committees.lists() {
        if !marks_bear(marks, list.as_slice()) {
            return false;
        }
    }
    true
}

fn are_long(lists: &[Items<u64>]) -> bool
    ensures { result ≡ list_all (λ list. nat_le 4 (length list)) lists.now }
{
    lists.iter().all(|list| list.len() >= 4)
}

/// Whether there are 4 to 65,535 members, and at least four in each list.
pub(crate) fn are_sized(total: u64, lists: &[Items<u64>]) -> bool
    ensures { result
        ≡ (nat_le 4 total &&
        (nat_lt total (2 ^ 16) && list_all (λ list. nat_le 4 (length list)) lists.now)) }
{
    if total < 4 || total > 65535 {
        return false;
    }
    are_long(lists)
}

fn are_there(total: u64, list: &[u64]) -> bool
    ensures { result ≡ list_all (λ i. nat_lt i total) list.now }
{
    list.iter().all(|member| *member < total)
}

fn has_stranger(total: u64, list: &[u64]) -> bool
    ensures { result ≡ grammar.has_stranger total list.now }
{
    !are_there(total, list)
}

/// The first list, of which the first is line 2, that has a member past the last.
pub(crate) fn first_strange(total: u64, lists: &[Items<u64>]) -> Option<u64>
    ensures { result ≡ grammar.first_at (grammar.has_stranger total) 2 lists.now }
{
    for (index, list) in lists.iter().enumerate() {
        if has_stranger(total, list.as_slice()) {
            return Some(index as u64 + 2);
        }
    }
    None
}

// The numbers of members.
fn narrow(alloc: Global, list: &[u64]) -> Result<Vec<u16>, NoMemory>
    requires { IsTrue (list_all (λ i. nat_lt i (2 ^ 16)) list.now) }
    ensures { IfOk result (λ members. members.items ≡ list.now) }
{
    let mut members = Vec::new(alloc);
    for member in list {
        members.push(*member as u16)?;
    }
    Ok(members)
}

/// Lists of members.
pub(crate) fn narrow_all(
    alloc: Global,
    total: u16,
    lists: &[Items<u64>],
) -> Result<Vec<Vec<u16>>, NoMemory>
    requires { IsTrue (list_all (is_committee total) lists.now) }
    ensures { IfOk result (λ narrowed. map (λ list. list.items) narrowed.items ≡ lists.now) }
{
    let mut narrowed = Vec::new(alloc);
    for list in lists {
        narrowed.push(narrow(alloc, list.as_slice())?)?;
    }
    Ok(narrowed)
}
