//! The entry of a line.

ghost use Rattle.std.specs.Prelude.{◌≡◌, ◌<◌, ◌^◌, [], Some, None, length, IfOk};
ghost use Rattle.std.specs.Option.{option_map_or};
ghost use Rattle.cw_rules.specs.World.{sent_from};
ghost use Rattle.hail_report.specs.Pool.{sent_in};

use crate::pool::Pool;
use crate::report::{Entry, Sent};
use cw_base::{Items, NoMemory};
use cw_types::{Handed, Out, StepOut};
use std::alloc::Global;

// What a member sends, numbered from a number on.
fn number(alloc: Global, first: usize, from: u16, outs: Vec<Out>) -> Result<Vec<Sent>, NoMemory>
    requires { first < 2 ^ 63 }
    ensures { IfOk result (λ sent. sent.items ≡ sent_from first from outs.items) }
{
    let mut sent = Vec::new(alloc);
    for out in outs {
        let number = first as u64 + sent.len() as u64;
        sent.push(Sent {
            number,
            from,
            to: out.to,
            message: out.message,
        })?;
    }
    Ok(sent)
}

/// The entry of a faulty member's line, whose messages are numbered behind those sent so far.
pub fn enter_sent(
    alloc: Global,
    pool: &Pool,
    line: u64,
    from: u16,
    outs: Items<Out>,
) -> Result<Entry, NoMemory>
    ensures { IfOk result
        (λ entry. entry
        ≡ record {
          line = line;
          member = None;
          found = None;
          sent = sent_from (length (sent_in pool.now)) from outs;
          handed = [];
        }) }
{
    let sent = number(alloc, pool.count(), from, outs.into_vec())?;
    Ok(Entry {
        line,
        member: None,
        found: None,
        sent: Items::from_vec(sent),
        handed: Items::new(alloc),
    })
}

/// The entry of a member's line, whose messages are numbered behind those sent so far: empty where
/// nothing was done.
pub fn enter_done(
    alloc: Global,
    pool: &Pool,
    line: u64,
    member: u16,
    found: Option<u64>,
    done: Option<StepOut>,
) -> Result<Entry, NoMemory>
    ensures { let sent = sent_from (length (sent_in pool.now)) member
        (option_map_or (λ out. out.sent) done []) in
        IfOk result
        (λ entry. entry
        ≡ record {
          line = line;
          member = Some member;
          found = found;
          sent = sent;
          handed = option_map_or (λ out. out.handed) done [];
        }) }
{
    let (outs, handed) = parts_of(alloc, done);
    let sent = number(alloc, pool.count(), member, outs.into_vec())?;
    Ok(Entry {
        line,
        member: Some(member),
        found,
        sent: Items::from_vec(sent),
        handed,
    })
}

// What was sent and handed out, where something was done.
fn parts_of(alloc: Global, done: Option<StepOut>) -> (Items<Out>, Items<Handed>)
    ensures sent { result.0 ≡ option_map_or (λ out. out.sent) done [] }
    ensures handed { result.1 ≡ option_map_or (λ out. out.handed) done [] }
{
    match done {
        None => (Items::new(alloc), Items::new(alloc)),
        Some(
            StepOut {
                sent,
                handed,
                tickets: _,
            },
        ) => (sent, handed),
    }
}
