//! One line of a script: what becomes of the cluster.

ghost use Rattle.std.specs.Prelude.{◌≡◌, ◌++◌, [], None, List, Option, map};
ghost use Rattle.std.specs.Prelude.{is_none, length, IfOk};
ghost use Rattle.cw_rules.specs.World.{World, fault_sends, line_member, sent_from};
ghost use Rattle.hail_world.specs.Honest.{IsHonest, IsPlaced};
ghost use Rattle.hail_world.specs.Places.{SitAs, WorkBy, IsTurn, world_of_pool, script_rules};
ghost use Rattle.hail_report.specs.Pool.{sent_in};

use crate::fault;
use crate::live_node::LiveNode;
use crate::place::Place;
use crate::setting::Setting;
use crate::turn::{found_at, take_turn};
use cw_base::{Digest32, Hasher, NoMemory, Strategy};
use cw_types::StepOut;
use hail_report::{Entry, enter_done, enter_sent};
use hail_script::{Fault, LineKind};
use node::Way;
use std::alloc::Global;
use std::mem;
use std::thread::Threads;

// What a member's line makes of its place.
fn turn_place<H: Hasher<Digest = Digest32>, W: Way, R: Threads + Sync, S: Strategy>(
    rt: &R,
    alloc: Global,
    setting: &Setting<'_>,
    places: &mut [Place<LiveNode<H, W>>],
    strategy: &S,
) -> Result<(Option<u64>, Option<StepOut>), NoMemory>
    requires way { setting.now.script.now.travel ≡ W.travel }
    requires count { length places.old ≡ setting.now.script.now.committees.total }
    requires sound { WorkBy (script_rules H.digest_of setting.now.script.now) 0 places.old }
    ensures turned { IfOk result
        (λ r. IsPlaced (script_rules H.digest_of setting.now.script.now) setting.now.faulty.now
        (sent_in setting.now.pool.now) setting.now.line.now places.old places.new r.0 r.1) }
    ensures sound { IfOk result
        (λ _. WorkBy (script_rules H.digest_of setting.now.script.now) 0 places.new) }
{
    let id = setting.line.member();
    let place = mem::replace(&mut places[usize::from(id)], Place::Faulty);
    let (place, done) = take_turn(rt, alloc, setting, id, place, strategy)?;
    let found = found_at::<H, W>(setting.line, &place, &done);
    places[usize::from(id)] = place;
    Ok((found, done))
}

/// A line of an honest member.
pub(crate) fn play_member<H: Hasher<Digest = Digest32>, W: Way, R: Threads + Sync, S: Strategy>(
    rt: &R,
    alloc: Global,
    setting: &Setting<'_>,
    places: &mut [Place<LiveNode<H, W>>],
    strategy: &S,
) -> Result<Entry, NoMemory>
    requires honest { IsHonest setting.now.line.now }
    requires way { setting.now.script.now.travel ≡ W.travel }
    requires count { length places.old ≡ setting.now.script.now.committees.total }
    requires sound { WorkBy (script_rules H.digest_of setting.now.script.now) 0 places.old }
    ensures turn { (w : World) → SitAs places.old w.members
        → sent_in setting.now.pool.now ≡ w.pool
        → setting.now.faulty.now ≡ map is_none w.members
        → IfOk result
        (λ entry. IsTurn (script_rules H.digest_of setting.now.script.now) w setting.now.number
        setting.now.line.now places.new (sent_in setting.now.pool.now ++ entry.sent) entry) }
    ensures sound { IfOk result
        (λ _. WorkBy (script_rules H.digest_of setting.now.script.now) 0 places.new) }
{
    let (found, done) = turn_place(rt, alloc, setting, places, strategy)?;
    let member = setting.line.member();
    let entry = enter_done(alloc, setting.pool, setting.number, member, found, done)?;
    Ok(entry)
}

// A line of a faulty member.
fn play_fault<H: Hasher<Digest = Digest32>, R: Threads + Sync, S: Strategy>(
    rt: &R,
    alloc: Global,
    setting: &Setting<'_>,
    member: u16,
    fault: &Fault,
    strategy: &S,
) -> Result<Entry, NoMemory>
    ensures { let outs = fault_sends (script_rules H.digest_of setting.now.script.now)
        (world_of_pool (sent_in setting.now.pool.now)) member fault.now in
        IfOk result
        (λ entry. entry
        ≡ record {
          line = setting.now.number;
          member = None;
          found = None;
          sent = sent_from (length (sent_in setting.now.pool.now)) member outs;
          handed = [];
        }) }
{
    let script = setting.script;
    let outs = fault::fault_sends::<H, R, S>(
        rt,
        alloc,
        script,
        setting.pool,
        member,
        fault,
        strategy,
    )?;
    enter_sent(alloc, setting.pool, setting.number, member, outs)
}

/// A line of a script: the cluster after it, and its entry.
pub(crate) fn play<H: Hasher<Digest = Digest32>, W: Way, R: Threads + Sync, S: Strategy>(
    rt: &R,
    alloc: Global,
    setting: &Setting<'_>,
    places: &mut [Place<LiveNode<H, W>>],
    strategy: &S,
) -> Result<Entry, NoMemory>
    requires way { setting.now.script.now.travel ≡ W.travel }
    requires count { length places.old ≡ setting.now.script.now.committees.total }
    requires sound { WorkBy (script_rules H.digest_of setting.now.script.now) 0 places.old }
    ensures turn { (w : World) → SitAs places.old w.members
        → sent_in setting.now.pool.now ≡ w.pool
        → setting.now.faulty.now ≡ map is_none w.members
        → IfOk result
        (λ entry. IsTurn (script_rules H.digest_of setting.now.script.now) w setting.now.number
        setting.now.line.now places.new (sent_in setting.now.pool.now ++ entry.sent) entry) }
    ensures sound { IfOk result
        (λ _. WorkBy (script_rules H.digest_of setting.now.script.now) 0 places.new) }
{
    match setting.line.kind() {
        LineKind::Faulty(member, fault) => {
            let entry = play_fault::<H, R, S>(rt, alloc, setting, *member, fault, strategy)?;
            Ok(entry)
        }
        _ => play_member(rt, alloc, setting, places, strategy),
    }
}
