//! Each trait of the surface at a type of its own, and generic code over its bounds.

use crate::types_tests::first_block;
use cw_base::{NoMemory, SumHasher};
use cw_types::{
    AcceptAll, Application, Automaton, CertifiableAutomaton, ChainBlock, Context, Feedback,
    Handoff, Monitor, Relay, Reporter, Round, To, Vote, genesis,
};
use std::alloc::Global;
use std::test::Fail;

// proposes the next number of each context, and takes those above it
#[derive(Drop)]
struct Counter {
    last: u64,
}

impl Automaton for Counter {
    type Context = u64;

    type Digest = u64;

    ghost use Rattle.std.specs.Prelude.{◌≡◌, Some, nat_lt};

    ghost proposes = { λ counter context payload. payload ≡ Some context };

    ghost verifies = { λ counter context payload. nat_lt context payload };

    fn propose(&mut self, _alloc: Global, context: u64) -> Result<Option<u64>, NoMemory> {
        self.last = context;
        Ok(Some(context))
    }

    fn verify(&mut self, context: u64, payload: u64) -> bool {
        context < payload
    }
}

impl CertifiableAutomaton for Counter {}

// stages what it is asked for, and certifies nothing
#[derive(Drop)]
struct Stager;

impl Automaton for Stager {
    type Context = u64;

    type Digest = u64;

    ghost use Rattle.std.specs.Prelude.{◌≡◌, None, false};

    ghost proposes = { λ stager context payload. payload ≡ None };

    ghost verifies = { λ stager context payload. false };

    fn propose(&mut self, _alloc: Global, _context: u64) -> Result<Option<u64>, NoMemory> {
        Ok(None)
    }

    fn verify(&mut self, _context: u64, _payload: u64) -> bool {
        false
    }
}

impl CertifiableAutomaton for Stager {
    ghost waits = { λ stager context. ⊥ };

    ghost certifies = { λ stager round payload. ⊥ };

    fn prepare(&mut self, context: u64) -> Handoff<u64> {
        Handoff::Stage(context)
    }

    fn certify(&mut self, _round: Round, _payload: u64) -> bool {
        false
    }
}

fn is_made_ready<A: CertifiableAutomaton<Context = u64, Digest = u64>>(automaton: &mut A) -> bool {
    !automaton.prepare(7).is_wait() || !automaton.certify(Round::zero(), 7)
}

#[test]
fn an_automaton_waits_and_certifies_unless_it_says_otherwise(rt: HostRuntime) -> Result<(), Fail> {
    let mut counter = Counter { last: 0 };
    assert_eq!(rt; counter.propose(rt.alloc(), 7)?, Some(7));
    let verified = counter.verify(7, 8);
    let prepared = counter.prepare(7);
    let certified = counter.certify(Round::zero(), 7);
    let seen = (counter.last, verified, prepared, certified);
    assert_eq!(rt; seen, (7, true, Handoff::Wait, true));
    let ready = (is_made_ready(&mut counter), is_made_ready(&mut Stager));
    assert_eq!(rt; ready, (false, true));
    Ok(())
}

// lets no block stand, and has one made ready
struct Refuser;

impl Application for Refuser {
    ghost use Rattle.std.specs.Prelude.{false};

    ghost accepts = { λ refuser block parent. false };

    ghost waits = { λ refuser. ⊥ };

    fn verify(&self, _block: &ChainBlock, _parent: &ChainBlock) -> bool {
        false
    }

    fn prepare(&self) -> Handoff<()> {
        Handoff::Stage(())
    }
}

#[test]
fn an_application_waits_unless_it_says_otherwise(rt: HostRuntime) {
    let prepared = (AcceptAll.prepare(), Refuser.prepare());
    assert_eq!(rt; prepared, (Handoff::Wait, Handoff::Stage(())));
}

// no payload is shorter than the one below
#[derive(Clone, Copy)]
struct Rising;

impl Application for Rising {
    ghost use Rattle.std.specs.Prelude.{length, nat_le};

    ghost accepts = { λ _ block parent. nat_le (length parent.payload) (length block.payload) };

    fn verify(&self, block: &ChainBlock, parent: &ChainBlock) -> bool {
        parent.payload().bytes().len() <= block.payload().bytes().len()
    }
}

fn stand<A: Application>(app: &A, block: &ChainBlock, parent: &ChainBlock) -> [bool; 3] {
    [
        app.verify(block, parent),
        app.verify(block, block),
        app.verify(parent, block),
    ]
}

#[test]
fn an_application_says_which_block_may_stand_over_which(rt: HostRuntime) -> Result<(), Fail> {
    let (block, parent) = (first_block(rt.alloc())?, genesis::<SumHasher>(rt.alloc()));
    assert!(rt; stand(&Rising, &block, &parent) == [true, true, false]);
    assert!(rt; stand(&AcceptAll, &block, &parent) == [true, true, true]);
    assert!(rt; stand(&Refuser, &block, &parent) == [false, false, false]);
    Ok(())
}

// takes so many, and is then closed
#[derive(Drop)]
struct Inbox {
    room: u64,
    taken: u64,
}

impl Inbox {
    fn take(&mut self) -> Feedback {
        if self.room == self.taken {
            return Feedback::Closed;
        }
        if self.taken < u64::MAX {
            self.taken += 1;
        }
        Feedback::Ok
    }
}

impl Relay for Inbox {
    type Digest = u64;

    type PublicKey = u16;

    type Plan = To;

    fn broadcast(&mut self, _payload: u64, _plan: To) -> Feedback {
        self.take()
    }
}

impl Reporter for Inbox {
    type Activity = Vote;

    fn report(&mut self, _activity: Vote) -> Feedback {
        self.take()
    }
}

impl Monitor for Inbox {
    type Index = u64;

    ghost latest = { λ inbox. inbox.taken };

    fn subscribe(&mut self) -> u64 {
        self.taken
    }
}

fn told<R: Relay<Digest = u64, Plan = To> + Reporter<Activity = Vote>>(
    all: &mut R,
) -> [Feedback; 2] {
    [
        all.broadcast(1, To::All),
        all.report(Vote::Nullify { epoch: 0, view: 1 }),
    ]
}

#[test]
fn what_is_handed_over_is_taken_until_the_end(rt: HostRuntime) {
    let mut inbox = Inbox { room: 1, taken: 0 };
    let told = told(&mut inbox);
    assert!(rt; told == [Feedback::Ok, Feedback::Closed] && inbox.subscribe() == 1);
}

#[test]
fn a_payload_is_mapped_in_its_place(rt: HostRuntime) {
    let cases = [
        (Handoff::Vote(1u8), Handoff::Vote(2u8)),
        (Handoff::Stage(1), Handoff::Stage(2)),
        (Handoff::Wait, Handoff::Wait),
    ];
    for (before, after) in cases {
        assert!(rt; before.map(|x: u8| x.wrapping_add(1)) == after);
    }
}
