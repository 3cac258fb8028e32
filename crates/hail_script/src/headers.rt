//! Reading the header of a script.

ghost use Rattle.std.specs.Prelude.{◌≡◌, ◌≤◌, ◌⊎◌, IfOk, IfErr, OnOk, IfSome, map, length, take};
ghost use Rattle.std.specs.Prelude.{IsTrue};
ghost use Rattle.std.specs.List.{list_all};
ghost use Rattle.cw_types.specs.Epochs.{rises_from};
ghost use Rattle.hail_script.specs.Headers as headers;
ghost use Rattle.hail_script.specs.Pieces.{fields};
ghost use Rattle.hail_script.specs.declared.error.RunError.TheVariants as error;

use crate::error::RunError;
use crate::pieces::{number_of, numbers_of, pieces_of};
use cw_base::{Items, NoMemory};
use cw_rules::Travel;
use std::alloc::Global;

/// Line 1 of a script.
#[derive(Clone, Copy, Debug, PartialEq, Eq)]
pub enum Header {
    /// The number of members, and the backlog.
    Cluster(u64, u64),
    /// The same, how many heights an epoch covers, and how many lists of members follow.
    Several(u64, u64, u64, u64),
}

fn cluster_of(members: Option<u64>, backlog: Option<u64>) -> Option<Header>
    ensures value { result ≡ headers.cluster_of members backlog }
    ensures sound { IfSome result headers.IsHeader }
{
    let members = members?;
    let backlog = backlog?;
    if backlog == 0 {
        return None;
    }
    Some(Header::Cluster(members, backlog))
}

fn several_of(
    members: Option<u64>,
    backlog: Option<u64>,
    span: Option<u64>,
    count: Option<u64>,
) -> Option<Header>
    ensures value { result ≡ headers.several_of members backlog span count }
    ensures sound { IfSome result headers.IsHeader }
{
    let members = members?;
    let backlog = backlog?;
    let span = span?;
    let count = count?;
    if backlog == 0 || span == 0 || count == 0 || count > 64 {
        return None;
    }
    Some(Header::Several(members, backlog, span, count))
}

fn header_in(parts: &[&[u8]]) -> Option<Header>
    ensures value { result ≡ headers.header_in (map (λ part. part.now) parts.now) }
    ensures sound { IfSome result headers.IsHeader }
{
    match parts {
        [word, members, backlog] if *word == b"cluster".as_slice() => {
            cluster_of(number_of(members), number_of(backlog))
        }
        [word, members, backlog, span, count] if *word == b"epochs".as_slice() => several_of(
            number_of(members),
            number_of(backlog),
            number_of(span),
            number_of(count),
        ),
        _ => None,
    }
}

/// The header that a line is.
pub(crate) fn header_of(alloc: Global, line: &[u8]) -> Result<Option<Header>, NoMemory>
    ensures value { IfOk result (λ header. header ≡ headers.header_in (fields line.now)) }
    ensures sound { IfOk result (λ header. IfSome header headers.IsHeader) }
{
    let parts = pieces_of(alloc, line, b' ')?;
    Ok(header_in(&parts))
}

fn one_epoch(header: Option<Header>) -> Option<Header>
    ensures value { result ≡ headers.one_epoch header }
    ensures sound { IfSome header headers.IsHeader → IfSome result headers.IsHeader }
{
    match header {
        Some(Header::Cluster(members, backlog)) => Some(Header::Cluster(members, backlog)),
        _ => None,
    }
}

/// The header that a line is, where blocks travel so.
pub(crate) fn header_by(
    alloc: Global,
    travel: Travel,
    line: &[u8],
) -> Result<Option<Header>, NoMemory>
    ensures value { IfOk result (λ header. header ≡ headers.header_by travel (fields line.now)) }
    ensures sound { IfOk result (λ header. IfSome header headers.IsHeader) }
{
    let header = header_of(alloc, line)?;
    match travel {
        Travel::Chunked => Ok(header),
        Travel::Uncut => Ok(one_epoch(header)),
    }
}

// Whether numbers rise.
fn rises(list: &[u64]) -> bool
    ensures { result ≡ rises_from 0 list.now }
{
    let mut last: Option<u64> = None;
    for number in list {
        if let Some(last) = last
            && *number <= last
        {
            return false;
        }
        last = Some(*number);
    }
    true
}

fn rising(list: Items<u64>) -> Option<Items<u64>>
    ensures value { result ≡ headers.rising (Some list) }
    ensures rises { IfSome result (λ list. IsTrue (rises_from 0 list)) }
{
    if list.is_empty() {
        return None;
    }
    if !rises(list.as_slice()) {
        return None;
    }
    Some(list)
}

fn list_in(alloc: Global, parts: &[&[u8]]) -> Result<Option<Items<u64>>, NoMemory>
    ensures value { IfOk result
        (λ list. list ≡ headers.list_in (map (λ part. part.now) parts.now)) }
    ensures rises { IfOk result (λ list. IfSome list (λ list. IsTrue (rises_from 0 list))) }
{
    let [word, members @ ..] = parts else {
        return Ok(None);
    };
    if *word != b"members".as_slice() {
        return Ok(None);
    }
    match numbers_of(alloc, members)? {
        None => Ok(None),
        Some(list) => Ok(rising(list)),
    }
}

fn list_of(alloc: Global, line: &[u8]) -> Result<Option<Items<u64>>, NoMemory>
    ensures value { IfOk result (λ list. list ≡ headers.list_in (fields line.now)) }
    ensures rises { IfOk result (λ list. IfSome list (λ list. IsTrue (rises_from 0 list))) }
{
    let parts = pieces_of(alloc, line, b' ')?;
    list_in(alloc, &parts)
}

// The lists of lines, of which the first is line 2.
fn lists_from(alloc: Global, lines: &[&[u8]]) -> Result<Items<Items<u64>>, RunError>
    ensures ok { IfOk result
        (λ lists. headers.lists_from 2 (map (λ line. line.now) lines.now) ≡ Ok lists) }
    ensures err { IfErr result (λ e. (e ≡ error.NoMemory)
        ⊎ (headers.lists_from 2 (map (λ line. line.now) lines.now) ≡ Err e)) }
    ensures rise { IfOk result (λ lists. IsTrue (list_all (rises_from 0) lists)) }
    ensures count { IfOk result (λ lists. length lists ≡ length lines.now) }
{
    let mut lists = Items::new(alloc);
    for (index, line) in lines.iter().enumerate() {
        match list_of(alloc, line)? {
            None => return Err(RunError::Syntax(index as u64 + 2)),
            Some(list) => lists.push(list)?,
        }
    }
    Ok(lists)
}

// The first lines, as many or all that there are.
#[tactic(auto, using(std::proofs::lemmas::List::take_all))]
fn front<'a, 'b>(lines: &'b [&'a [u8]], count: usize) -> &'b [&'a [u8]]
    ensures value { map (λ line. line.now) result.now ≡ take count
        (map (λ line. line.now) lines.now) }
    ensures count { length result.now ≤ count }
    ensures whole { count ≤ length lines.now → length result.now ≡ count }
{
    if lines.len() < count {
        return lines;
    }
    &lines[..count]
}

/// So many lists behind line 1.
pub(crate) fn lists_of(
    alloc: Global,
    count: usize,
    lines: &[&[u8]],
) -> Result<Items<Items<u64>>, RunError>
    ensures ok { IfOk result
        (λ lists. headers.lists_in count (map (λ line. line.now) lines.now) ≡ Ok lists) }
    ensures err { IfErr result (λ e. (e ≡ error.NoMemory)
        ⊎ (headers.lists_in count (map (λ line. line.now) lines.now) ≡ Err e)) }
    ensures rise { IfOk result (λ lists. IsTrue (list_all (rises_from 0) lists)) }
    ensures count { IfOk result (λ lists. length lists ≡ count) }
    ensures there { OnOk result (count ≤ length lines.now) }
{
    let lists = match lists_from(alloc, front(lines, count)) {
        Ok(lists) => lists,
        Err(error) => return Err(error),
    };
    if lines.len() < count {
        return Err(RunError::Syntax(lines.len() as u64 + 2));
    }
    Ok(lists)
}
