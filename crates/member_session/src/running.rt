//! A member at work: events, and what is told of them.

ghost use Rattle.std.specs.Prelude.{◌≡◌, ◌++◌, IfOk, OnOk, [], string_bytes, true};
ghost use Rattle.cw_rules.specs.Step.{member_notes};
ghost use Rattle.node.specs.State.{IsAtWork, stepped};
ghost use Rattle.node_disk.specs.Host.{host_state};
ghost use Rattle.node_disk.specs.Memory.{memory_state};
ghost use Rattle.marshal.specs.Finding.{identified};
ghost use Rattle.member_lines.specs.Claims.{claims};
ghost use Rattle.member_session.specs.Serving.{IsServing, serving_of, serving_rules};
ghost use Rattle.member_session.specs.Talk as talk;
ghost use Rattle.member_session.specs.Told as told;

use crate::session::{Session, done, refused};
use crate::telling::{put_all_handed, put_calls, put_sends, put_tickets};
use cw_base::{Digest32, Hasher, NoMemory, Strategy};
use cw_types::{AcceptAll, Commitment, Committees, Event, Message, StepOut, leader};
use marshal::Identifier;
use member_lines::{
    Claim, HostLine, Question, Refusal, put_block, put_final, put_names, put_place,
};
use node::{Member, Way};
use node_disk::{HostDisk, MemoryDisk};
use std::alloc::Global;
use std::marker::Model;
use std::thread::Threads;

/// A member over a disk whose calls its host makes.
pub(crate) type Hosted<H, W> = Member<H, HostDisk<MemoryDisk>, AcceptAll, W>;

/// A member that takes events, and its committees. Each of its device calls was told.
#[derive(Drop)]
pub struct Running<H: Hasher<Digest = Digest32>, W: Way> {
    committees: Committees,
    member: Hosted<H, W>,
}

impl<H: Hasher<Digest = Digest32>, W: Way> Model for Running<H, W> {
    ghost use Rattle.member_session.specs.Serving.{IsServing, Serving, serving_of};

    ghost Value = { Serving };

    ghost view = { λ r. serving_of r.member };

    ghost invariant = { λ r. IsServing W.travel r.committees r.member };
}

impl<H: Hasher<Digest = Digest32>, W: Way> Running<H, W> {
    /// Tells what a start gave, and where the member stands.
    pub(crate) fn started(
        alloc: Global,
        committees: Committees,
        mut member: Hosted<H, W>,
        step: &StepOut,
        out: &mut String,
    ) -> Result<Running<H, W>, NoMemory>
        requires travels { member.travel ≡ W.travel }
        requires among { member.epochs ≡ committees }
        requires works { IsAtWork (host_state memory_state) member }
        ensures left { IfOk result (λ running. running ≡ serving_of member) }
        ensures told { OnOk result (string_bytes out.new
            ≡ (string_bytes out.old
            ++ told.given_text (serving_rules H.digest_of W.travel (serving_of member))
            member.log.disk.waiting (stepped member.member step.now))
            ++ told.view_line member.epochs (member_notes member.member)) }
    {
        match tell_start(alloc, &committees, &mut member, step, out) {
            Ok(()) => Ok(Running { committees, member }),
            Err(NoMemory) => {
                drop(member);
                Err(NoMemory)
            }
        }
    }

    /// Takes a line that isn't one of the header.
    pub(crate) fn take<R: Threads + Sync, S: Strategy>(
        self,
        rt: &R,
        alloc: Global,
        asked: &HostLine,
        strategy: &S,
        out: &mut String,
    ) -> Result<Session<Running<H, W>>, NoMemory>
        ensures { IfOk result
            (λ left. talk.Answers (talk.answered_run H.digest_of W.travel self asked.now)
            (string_bytes out.old) (string_bytes out.new) left) }
    {
        match asked {
            HostLine::Disk(_) => refused(Session::Running(self), out, &Refusal::TooLate),
            HostLine::Start => refused(Session::Running(self), out, &Refusal::TooLate),
            HostLine::Take(event, claim) => {
                let left = self.turn(rt, alloc, event, claim, strategy, out)?;
                done(Session::Running(left), out)
            }
            HostLine::Ask(question) => self.ask(alloc, question, out),
        }
    }

    // Takes an event, and tells what the step gave, and where the member came to if it moved.
    fn turn<R: Threads + Sync, S: Strategy>(
        self,
        rt: &R,
        alloc: Global,
        event: &Event,
        claim: &Claim,
        strategy: &S,
        out: &mut String,
    ) -> Result<Running<H, W>, NoMemory>
        ensures { IfOk result (λ left. told.Turns (serving_rules H.digest_of W.travel self) self
            (record { signed = claims claim.now; event = event.now }) (string_bytes out.old)
            (string_bytes out.new) left) }
    {
        let Running {
            committees,
            mut member,
        } = self;
        match take_event(
            rt,
            alloc,
            &committees,
            &mut member,
            event,
            claim,
            strategy,
            out,
        ) {
            Ok(()) => Ok(Running { committees, member }),
            Err(NoMemory) => {
                drop(member);
                Err(NoMemory)
            }
        }
    }
}

// Takes an event, and tells what the step gave, and where the member came to if it moved.
fn take_event<H: Hasher<Digest = Digest32>, W: Way, R: Threads + Sync, S: Strategy>(
    rt: &R,
    alloc: Global,
    committees: &Committees,
    member: &mut Hosted<H, W>,
    event: &Event,
    claim: &Claim,
    strategy: &S,
    out: &mut String,
) -> Result<(), NoMemory>
    requires { IsServing W.travel committees.now member.old }
    ensures turns { OnOk result (told.Turns
        (serving_rules H.digest_of W.travel (serving_of member.old)) (serving_of member.old)
        (record { signed = claims claim.now; event = event.now }) (string_bytes out.old)
        (string_bytes out.new) (serving_of member.new)) }
    ensures serves { OnOk result (IsServing W.travel committees.now member.new) }
{
    let place = (member.epoch(), member.view());
    match member.step(rt, alloc, event, claim, strategy) {
        Ok(step) => {
            let told = tell_turn(alloc, committees, place, member, &step, out);
            drop(step);
            told
        }
        Err(_) => Err(NoMemory),
    }
}

// Tells what a step gave, and where the member came to unless it is this epoch and this view.
fn tell_turn<H: Hasher<Digest = Digest32>, W: Way>(
    alloc: Global,
    committees: &Committees,
    place: (u64, u64),
    member: &mut Hosted<H, W>,
    step: &StepOut,
    out: &mut String,
) -> Result<(), NoMemory>
    requires live { member.old.member.live ≡ true }
    ensures told { OnOk result (string_bytes out.new
        ≡ (string_bytes out.old
        ++ told.given_text (serving_rules H.digest_of member.old.travel (serving_of member.old))
        member.old.log.disk.waiting (stepped member.old.member step.now))
        ++ told.moved_from place committees.now (member_notes member.old.member)) }
    ensures rest { member.new
        ≡ record member.old {
          log = record member.old.log { disk = record member.old.log.disk { waiting = [] } };
        } }
{
    tell(alloc, member, step, out)?;
    put_moved(committees, place, member, out)
}

// Tells what a start gave, and where the member stands.
fn tell_start<H: Hasher<Digest = Digest32>, W: Way>(
    alloc: Global,
    committees: &Committees,
    member: &mut Hosted<H, W>,
    step: &StepOut,
    out: &mut String,
) -> Result<(), NoMemory>
    requires live { member.old.member.live ≡ true }
    ensures told { OnOk result (string_bytes out.new
        ≡ (string_bytes out.old
        ++ told.given_text (serving_rules H.digest_of member.old.travel (serving_of member.old))
        member.old.log.disk.waiting (stepped member.old.member step.now))
        ++ told.view_line committees.now (member_notes member.old.member)) }
    ensures rest { member.new
        ≡ record member.old {
          log = record member.old.log { disk = record member.old.log.disk { waiting = [] } };
        } }
{
    tell(alloc, member, step, out)?;
    put_place_of(committees, member, out)
}

// Tells what a step gave: the device calls that wait first, none of which waits then; and what it
// sends, hands out and says of tickets.
fn tell<H: Hasher<Digest = Digest32>, W: Way>(
    alloc: Global,
    member: &mut Hosted<H, W>,
    step: &StepOut,
    out: &mut String,
) -> Result<(), NoMemory>
    requires live { member.old.member.live ≡ true }
    ensures told { OnOk result (string_bytes out.new
        ≡ string_bytes out.old
        ++ told.given_text (serving_rules H.digest_of member.old.travel (serving_of member.old))
        member.old.log.disk.waiting (stepped member.old.member step.now)) }
    ensures rest { member.new
        ≡ record member.old {
          log = record member.old.log { disk = record member.old.log.disk { waiting = [] } };
        } }
{
    let calls = member.take_calls();
    put_calls(alloc, out, calls.as_slice())?;
    put_sends(alloc, out, step.sent.as_slice())?;
    put_all_handed(alloc, out, member.marshal(), step.handed.as_slice())?;
    put_tickets(alloc, out, step.tickets.as_slice())
}

// Tells where the member came to, unless it is this epoch and this view.
fn put_moved<H: Hasher<Digest = Digest32>, W: Way>(
    committees: &Committees,
    place: (u64, u64),
    member: &Hosted<H, W>,
    out: &mut String,
) -> Result<(), NoMemory>
    requires live { member.now.member.live ≡ true }
    ensures { OnOk result (string_bytes out.new
        ≡ string_bytes out.old
        ++ told.moved_from place committees.now (member_notes member.now.member)) }
{
    if place.0 == member.epoch() && place.1 == member.view() {
        return Ok(());
    }
    put_place_of(committees, member, out)
}

// Tells where the member stands, and who leads there.
fn put_place_of<H: Hasher<Digest = Digest32>, W: Way>(
    committees: &Committees,
    member: &Hosted<H, W>,
    out: &mut String,
) -> Result<(), NoMemory>
    requires live { member.now.member.live ≡ true }
    ensures { OnOk result (string_bytes out.new
        ≡ string_bytes out.old
        ++ told.view_line committees.now (member_notes member.now.member)) }
{
    let epoch = member.epoch();
    let view = member.view();
    put_place(out, epoch, view, leader(committees, epoch, view))
}

impl<H: Hasher<Digest = Digest32>, W: Way> Running<H, W> {
    /// Answers a question.
    fn ask(
        self,
        alloc: Global,
        question: &Question,
        out: &mut String,
    ) -> Result<Session<Running<H, W>>, NoMemory>
        ensures { IfOk result
            (λ left. talk.Answers (talk.answered_question H.digest_of W.travel self question.now)
            (string_bytes out.old) (string_bytes out.new) left) }
    {
        match self.tells(alloc, question, out) {
            Ok(true) => done(Session::Running(self), out),
            Ok(false) => refused(Session::Running(self), out, &Refusal::NoBlock),
            Err(NoMemory) => {
                drop(self);
                Err(NoMemory)
            }
        }
    }

    // Tells what is asked for, if it is there.
    fn tells(&self, alloc: Global, question: &Question, out: &mut String) -> Result<bool, NoMemory>
        ensures { IfOk result (λ there. talk.TellsFound
            (talk.told_to (serving_rules H.digest_of W.travel self.now) self.now
            (member_notes self.now.member) question.now)
            (string_bytes out.old) (string_bytes out.new) there) }
    {
        match question {
            Question::At(height) => self.block_at(alloc, *height, out),
            Question::OfDigest(digest) => self.block(
                alloc,
                &Identifier::Digest(*digest),
                None,
                out,
            ),
            Question::Under(name) => {
                self.block(alloc, &Identifier::Commitment(*name), Some(*name), out)
            }
            Question::Final(height) => self.finalization(alloc, *height, out),
            Question::View => {
                put_place_of(&self.committees, &self.member, out)?;
                Ok(true)
            }
            Question::Names(message) => {
                put_names(alloc, out, message)?;
                Ok(true)
            }
        }
    }

    fn block_at(&self, alloc: Global, height: u64, out: &mut String) -> Result<bool, NoMemory>
        ensures { IfOk result (λ there. talk.TellsFound
            (talk.told_to (serving_rules H.digest_of W.travel self.now) self.now
            (member_notes self.now.member) (Question.At height))
            (string_bytes out.old) (string_bytes out.new) there) }
    {
        let commitment = self.member.marshal().commitment_at(height);
        self.block(alloc, &Identifier::Height(height), commitment, out)
    }

    fn block(
        &self,
        alloc: Global,
        id: &Identifier,
        commitment: Option<Commitment>,
        out: &mut String,
    ) -> Result<bool, NoMemory>
        ensures { IfOk result (λ there. talk.TellsFound
            (talk.block_told (serving_rules H.digest_of W.travel self.now) commitment
            (identified (serving_rules H.digest_of W.travel self.now)
            (member_notes self.now.member) id.now))
            (string_bytes out.old) (string_bytes out.new) there) }
    {
        let marshal = self.member.marshal();
        let Some((_, digest)) = marshal.get_info(*id) else {
            return Ok(false);
        };
        let Some(block) = marshal.get_block(*id) else {
            return Ok(false);
        };
        let payload = block.payload().bytes();
        put_block(alloc, out, block.height(), &digest, commitment, payload)?;
        Ok(true)
    }

    fn finalization(&self, alloc: Global, height: u64, out: &mut String) -> Result<bool, NoMemory>
        ensures { IfOk result (λ there. talk.TellsFound
            (talk.told_to (serving_rules H.digest_of W.travel self.now) self.now
            (member_notes self.now.member) (Question.Final height))
            (string_bytes out.old) (string_bytes out.new) there) }
    {
        let Some(cert) = self.member.marshal().get_finalization(height) else {
            return Ok(false);
        };
        let message = Message::Cert(cert.copy(alloc)?);
        put_final(alloc, out, height, &message)?;
        Ok(true)
    }
}
