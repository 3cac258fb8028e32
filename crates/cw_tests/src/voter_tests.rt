//! Tests of a tally: what a member owes, what is settled, and over what it proposes.

ghost use Rattle.std.specs.Prelude.{◌≡◌, ◌<◌, ◌-◌, ◌^◌, IfOk, IsTrue, OnOk};
ghost use Rattle.cw_types.specs.Epochs.{single};
ghost use Rattle.cw_types.specs.declared.vote.Vote.TheVariants.{Nullify};
ghost use Rattle.note_scans.specs.Countable.{is_countable};
ghost use Rattle.voter.specs.Standing.{are_signers};

use crate::tables::case_in;
use cw_base::{Config, Digest32, Items, SumHasher};
use cw_types::{
    Cert, ChainBlock, Commitment, Committees, Context, Note, Payload, Proposal, Vote,
    genesis_commitment, well_formed,
};
use std::alloc::Global;
use std::num::NonZeroU16;
use std::test::Fail;
use voter::Tally;

const NULLIFY: Vote = Vote::Nullify { epoch: 0, view: 1 };

// a member of a cluster of four
fn tally(alloc: Global, id: u16) -> Result<Tally<SumHasher>, Fail>
    requires { id < 4 }
    ensures { IfOk result (λ tally. tally.epochs ≡ single 4) }
{
    Ok(Tally::new(alloc, Committees::single(alloc, 4)?, id))
}

fn take_vote(tally: &mut Tally<SumHasher>, signer: u16, vote: &Vote) -> Result<bool, Fail> {
    if !well_formed(vote) {
        return Err("a vote that may be counted".into());
    }
    Ok(tally.take_vote(signer, vote)?)
}

// a certificate of these members of a cluster of four, that they nullified view 1; true exactly
// where it wasn't there
fn take_cert(alloc: Global, tally: &mut Tally<SumHasher>, signers: &[u16]) -> Result<bool, Fail>
    requires four { tally.old.epochs ≡ single 4 }
    requires signed { IsTrue (are_signers (single 4) (Nullify 0 1) signers.now) }
    ensures { OnOk result (tally.new.epochs ≡ single 4) }
{
    let fresh = tally.take_cert(&cert(alloc, NULLIFY, signers)?)?;
    Ok(fresh)
}

// whether the votes of a note, and its proposals, may be counted
fn is_countable(note: &Note) -> bool
    ensures { result ≡ is_countable note.now }
{
    match note {
        Note::Vote(vote) => well_formed(vote),
        Note::Cert(cert) => well_formed(&cert.vote),
        Note::Certified(proposal) => well_formed(&Vote::Notarize(*proposal)),
        _ => true,
    }
}

fn take_note(tally: &mut Tally<SumHasher>, note: Note) -> Result<(), Fail> {
    if !is_countable(&note) {
        return Err("a note that may be counted".into());
    }
    tally.take_note(&note)?;
    Ok(())
}

// a member to which a note came
fn with_note(tally: Tally<SumHasher>, note: Note) -> Result<Tally<SumHasher>, Fail> {
    let mut tally = tally;
    take_note(&mut tally, note)?;
    Ok(tally)
}

// a member to which a vote of another came
fn with_vote(tally: Tally<SumHasher>, signer: u16, vote: Vote) -> Result<Tally<SumHasher>, Fail> {
    let mut tally = tally;
    take_vote(&mut tally, signer, &vote)?;
    Ok(tally)
}

// a member to which the nullifications of these members came
fn with_votes(tally: Tally<SumHasher>, signers: &[u16]) -> Result<Tally<SumHasher>, Fail> {
    let mut tally = tally;
    for signer in signers {
        take_vote(&mut tally, *signer, &NULLIFY)?;
    }
    Ok(tally)
}

fn cert(alloc: Global, vote: Vote, signers: &[u16]) -> Result<Cert, Fail>
    ensures { IfOk result (λ cert. cert ≡ record { vote = vote; signers = signers.now }) }
{
    let signers = Items::from_vec(Vec::from_slice(alloc, signers)?);
    Ok(Cert { vote, signers })
}

// a member that noted a certificate of the members 0 to 2
fn with_cert(alloc: Global, tally: Tally<SumHasher>, vote: Vote) -> Result<Tally<SumHasher>, Fail> {
    with_note(tally, Note::Cert(cert(alloc, vote, &[0, 1, 2])?))
}

// whether member 2 owes a certificate with these signers, none where there are none, after these
// members voted so
fn owes(alloc: Global, signers: &[u16], own: bool, want: &[u16]) -> Result<bool, Fail> {
    let mut tally = with_votes(tally(alloc, 2)?, signers)?;
    if own {
        tally = with_note(tally, Note::Vote(NULLIFY))?;
    }
    has_signers(alloc, &tally, want)
}

fn has_signers(alloc: Global, tally: &Tally<SumHasher>, want: &[u16]) -> Result<bool, Fail> {
    match tally.owed_cert(alloc)? {
        Some(cert) => Ok(cert.signers.as_slice() == want),
        None => Ok(want.is_empty()),
    }
}

#[test]
fn three_members_owe_a_certificate_and_two_owe_none(rt: HostRuntime) -> Result<(), Fail> {
    let cases: [(&[u16], bool, &[u16]); 5] = [
        (&[0, 1], false, &[]),
        (&[0, 1, 9], false, &[]),
        (&[0, 0], true, &[]),
        (&[3, 1, 0], false, &[0, 1, 3]),
        (&[0, 1], true, &[0, 1, 2]),
    ];
    for (signers, own, want) in cases {
        assert!(rt; owes(rt.alloc(), signers, own, want)?);
    }
    Ok(())
}

// whether these are the members that are known to have nullified the view, and some are
fn have_nullified(
    alloc: Global,
    tally: &Tally<SumHasher>,
    view: u64,
    want: &[u16],
) -> Result<bool, Fail> {
    match tally.signers(&Vote::Nullify { epoch: 0, view }) {
        Some(signers) => {
            let signers: Vec<u16> = signers.iter().copied().collect(alloc)?;
            Ok(!want.is_empty() && signers.as_slice() == want)
        }
        None => Ok(false),
    }
}

#[test]
fn the_signers_of_a_vote_are_the_members_that_are_known(rt: HostRuntime) -> Result<(), Fail> {
    let tally = with_votes(tally(rt.alloc(), 0)?, &[3, 9, 1])?;
    assert!(rt; have_nullified(rt.alloc(), &tally, 1, &[1, 3])?);
    assert!(rt;
        tally
            .signers(&Vote::Nullify { epoch: 0, view: 2 })
            .is_none()
    );
    let tally = with_note(tally, Note::Vote(NULLIFY))?;
    assert!(rt; have_nullified(rt.alloc(), &tally, 1, &[0, 1, 3])?);
    Ok(())
}

// a certificate came, and then three votes of the same
fn with_certificate(alloc: Global) -> Result<Tally<SumHasher>, Fail> {
    let mut tally = tally(alloc, 0)?;
    take_cert(alloc, &mut tally, &[1, 2, 3])?;
    with_votes(tally, &[0, 1, 2])
}

// whether it is owed then, and one more vote of the same is not counted
fn is_kept(alloc: Global) -> Result<bool, Fail> {
    let mut tally = with_certificate(alloc)?;
    Ok(has_signers(alloc, &tally, &[1, 2, 3])? && !take_vote(&mut tally, 1, &NULLIFY)?)
}

// the certificate of this number
fn take_numbered(alloc: Global, tally: &mut Tally<SumHasher>, number: u8) -> Result<bool, Fail>
    requires { tally.old.epochs ≡ single 4 }
    ensures { OnOk result (tally.new.epochs ≡ single 4) }
{
    match number {
        0 => take_cert(alloc, tally, &[1, 2, 3]),
        1 => take_cert(alloc, tally, &[0, 1, 2]),
        2 => take_cert(alloc, tally, &[0, 1, 3]),
        3 => take_cert(alloc, tally, &[0, 2, 3]),
        _ => take_cert(alloc, tally, &[0, 1, 2, 3]),
    }
}

// which of the certificates of these numbers were not there, and the signers of the one that is
// owed then
fn told_of(alloc: Global, numbers: &[u8]) -> Result<String, Fail> {
    let mut tally = tally(alloc, 0)?;
    let mut fresh = Vec::new(alloc);
    for number in numbers {
        fresh.push(take_numbered(alloc, &mut tally, *number)?)?;
    }
    match tally.owed_cert(alloc)? {
        Some(cert) => {
            let signers = cert.signers.as_slice();
            Ok(format!(in alloc; "{:?} {signers:?}", fresh.as_slice())?)
        }
        None => Err("a certificate that is owed".into()),
    }
}

// Certificates of one vote, by number, of which the first is owed.
const CERTIFICATES: &str = "\
one: 0: [true] [1, 2, 3]
the same again: 0 0: [true, false] [1, 2, 3]
other signers: 1 0 2: [true, true, true] [0, 1, 2]
others between: 0 1 0 2 1: [true, true, false, true, false] [1, 2, 3]
all that there are: 4 3 2 1 0: [true, true, true, true, true] [0, 1, 2, 3]
all, and all again: 2 0 4 1 3 3 1 4 0 2: \
[true, true, true, true, true, false, false, false, false, false] [0, 1, 3]
";

// whether that is told of a line of the table
fn is_told_of(alloc: Global, line: &str) -> Result<bool, Fail> {
    let case = case_in(alloc, line)?;
    let told = told_of(alloc, &case.bytes)?;
    Ok(told.as_str() == case.want)
}

#[test]
fn certificates_of_one_vote_are_told_apart_by_their_signers(rt: HostRuntime) -> Result<(), Fail> {
    let mut count = 0u8;
    for line in CERTIFICATES.lines() {
        assert!(rt; is_told_of(rt.alloc(), line)?, "{line}");
        count = count.wrapping_add(1);
    }
    assert_eq!(rt; count, 6);
    Ok(())
}

#[test]
fn a_certificate_that_came_goes_before_what_is_known(rt: HostRuntime) -> Result<(), Fail> {
    assert!(rt; is_kept(rt.alloc())?);
    Ok(())
}

fn proposal(view: u64, payload: Commitment) -> Proposal {
    Proposal {
        epoch: 0,
        view,
        parent: 0,
        payload,
    }
}

// a proposal of view 1
fn first() -> Proposal {
    proposal(1, genesis_commitment::<SumHasher>())
}

// a proposal of view 2 over the first block, of a payload that is cut in two and two. The bytes of
// its context are zeros but for a view and a leader of 2, a commitment of 96 bytes of 2, and two
// of 1
fn second() -> Proposal {
    let two = NonZeroU16::MIN.saturating_add(1);
    let payload = Commitment {
        block: Digest32([7; 32]),
        root: Digest32([8; 32]),
        context: Digest32([198; 32]),
        config: Config {
            minimum_shards: two,
            extra_shards: two,
        },
    };
    proposal(2, payload)
}

// the vote that member 0 owes when a certificate of this vote was noted, the leader of view 2
// proposed, and the chunk at place 0 came
fn vote_after(alloc: Global, vote: Vote) -> Result<Option<Vote>, Fail> {
    let tally = with_cert(alloc, tally(alloc, 0)?, vote)?;
    let mut tally = with_vote(tally, 2, Vote::Notarize(second()))?;
    tally.take_own_chunk(&second().payload, 0)?;
    Ok(tally.owed_vote())
}

#[test]
fn a_proposal_over_a_view_that_is_not_nullified_is_not_voted_for(
    rt: HostRuntime,
) -> Result<(), Fail> {
    let nullified = vote_after(rt.alloc(), NULLIFY)?;
    let skipped = vote_after(rt.alloc(), Vote::Finalize(first()))?;
    assert_eq!(rt;
        (nullified, skipped),
        (Some(Vote::Notarize(second())), None)
    );
    Ok(())
}

// the vote that member 0 owes after it voted so and then certified the proposal of view 1
fn vote_after_own(alloc: Global, own: Vote) -> Result<Option<Vote>, Fail> {
    let tally = with_note(tally(alloc, 0)?, Note::Vote(own))?;
    let tally = with_note(tally, Note::Certified(first()))?;
    Ok(tally.owed_vote())
}

#[test]
fn a_certified_proposal_is_finalized_in_a_view_that_is_not_closed(
    rt: HostRuntime,
) -> Result<(), Fail> {
    let voted = vote_after_own(rt.alloc(), Vote::Notarize(first()))?;
    let closed = vote_after_own(rt.alloc(), NULLIFY)?;
    assert_eq!(rt; (voted, closed), (Some(Vote::Finalize(first())), None));
    Ok(())
}

// the proposals of two notarizations, of which the second one's was named first
fn uncertified(alloc: Global) -> Result<[Option<Proposal>; 3], Fail> {
    let tally = with_cert(alloc, tally(alloc, 0)?, Vote::Notarize(first()))?;
    let tally = with_cert(alloc, tally, Vote::Notarize(second()))?;
    let tally = with_vote(tally, 3, Vote::Notarize(second()))?;
    let (begin, next) = (tally.uncertified(0).copied(), tally.uncertified(1).copied());
    Ok([begin, next, tally.uncertified(2).copied()])
}

#[test]
fn notarized_proposals_are_given_once(rt: HostRuntime) -> Result<(), Fail> {
    let want = [Some(second()), Some(first()), None];
    assert!(rt; uncertified(rt.alloc())? == want);
    Ok(())
}

// the view of the certificate that is owed, 0 where none is
fn owed_view(alloc: Global, tally: &Tally<SumHasher>) -> Result<u64, Fail> {
    match tally.owed_cert(alloc)? {
        Some(cert) => Ok(cert.vote.view()),
        None => Ok(0),
    }
}

// the views whose nullification member 0 owes while votes of these members come, a digit each, for
// view 5 or behind a bar for view 6, and once more after the first is noted
fn owed_views(alloc: Global, votes: &str) -> Result<[u64; 3], Fail> {
    let mut tally = tally(alloc, 0)?;
    let mut view = 5;
    let mut before = 0;
    for letter in votes.bytes() {
        if letter == b'|' {
            view = if view == 5 { 6 } else { 5 };
        } else {
            before = owed_view(alloc, &tally)?;
            let signer = (letter % 4) as u16;
            take_vote(&mut tally, signer, &Vote::Nullify { epoch: 0, view })?;
        }
    }
    let first = owed_view(alloc, &tally)?;
    let tally = with_cert(
        alloc,
        tally,
        Vote::Nullify {
            epoch: 0,
            view: first.max(1),
        },
    )?;
    Ok([before, first, owed_view(alloc, &tally)?])
}

#[test]
fn of_two_owed_certificates_that_of_the_vote_named_first_goes_first(
    rt: HostRuntime,
) -> Result<(), Fail> {
    let cases = [
        ("1|123|23", [6, 5, 6]),
        ("123|123", [5, 5, 6]),
        ("|1|123|23", [5, 6, 5]),
        ("12|123|", [0, 6, 0]),
        ("12|12", [0, 0, 0]),
    ];
    for (votes, want) in cases {
        assert_eq!(rt; owed_views(rt.alloc(), votes)?, want);
    }
    Ok(())
}

// two proposals of view 2, which another member names in this order, and the leader in the other;
// what can be voted for in view 2, and what in view 3
fn votable(alloc: Global) -> Result<[Option<Proposal>; 4], Fail> {
    let other = proposal(2, genesis_commitment::<SumHasher>());
    let tally = with_cert(alloc, tally(alloc, 0)?, NULLIFY)?;
    let tally = with_vote(tally, 3, Vote::Notarize(second()))?;
    let tally = with_vote(tally, 2, Vote::Notarize(other))?;
    let alone = tally.votable(0);
    let tally = with_vote(tally, 2, Vote::Notarize(second()))?;
    let (begin, next) = (tally.votable(0), tally.votable(1));
    let tally = with_cert(alloc, tally, Vote::Nullify { epoch: 0, view: 2 })?;
    Ok([alone, begin, next, tally.votable(0)])
}

#[test]
fn the_proposals_of_a_view_stand_in_the_order_in_which_they_are_named(
    rt: HostRuntime,
) -> Result<(), Fail> {
    let other = proposal(2, genesis_commitment::<SumHasher>());
    let want = [Some(other), Some(second()), Some(other), None];
    assert!(rt; votable(rt.alloc())? == want);
    Ok(())
}

// the votes to finalize that are owed while two proposals are certified, and while the member
// closes first one view and then the other
fn finalizing(alloc: Global) -> Result<[Option<Vote>; 4], Fail> {
    let tally = with_note(tally(alloc, 0)?, Note::Certified(second()))?;
    let tally = with_vote(tally, 3, Vote::Notarize(first()))?;
    let alone = tally.owed_finalize();
    let tally = with_note(tally, Note::Certified(first()))?;
    let both = tally.owed_finalize();
    let tally = with_note(tally, Note::Vote(NULLIFY))?;
    let left = tally.owed_finalize();
    let tally = with_note(tally, Note::Vote(Vote::Finalize(second())))?;
    Ok([alone, both, left, tally.owed_finalize()])
}

#[test]
fn a_vote_to_finalize_is_owed_until_its_view_is_closed(rt: HostRuntime) -> Result<(), Fail> {
    let (one, two) = (
        Some(Vote::Finalize(first())),
        Some(Vote::Finalize(second())),
    );
    assert!(rt; finalizing(rt.alloc())? == [two, one, two, None]);
    Ok(())
}

// where view 1 is finalized and view 2 is nullified: what is settled, and what is nullified in
// both; the view, and whether the payload of view 1 is the parent in view 3 and none is in view 1
fn third_view(alloc: Global) -> Result<([bool; 2], [bool; 2], u64, [bool; 2]), Fail> {
    let tally = with_cert(alloc, tally(alloc, 0)?, Vote::Finalize(first()))?;
    let tally = with_cert(alloc, tally, Vote::Nullify { epoch: 0, view: 2 })?;
    let payload = first().payload;
    let settled = [
        tally.settled(0, 1) == Some(payload),
        tally.settled(0, 2).is_some(),
    ];
    let nullified = [tally.nullified(0, 1), tally.nullified(0, 2)];
    let parent = tally.propose_parent(0, 3) == Some((1, payload));
    let none = tally.propose_parent(0, 1).is_none();
    Ok((settled, nullified, tally.view(0), [parent, none]))
}

#[test]
fn a_parent_is_settled_and_followed_by_nullified_views(rt: HostRuntime) -> Result<(), Fail> {
    let want = ([true, false], [false, true], 3, [true, true]);
    assert_eq!(rt; third_view(rt.alloc())?, want);
    Ok(())
}

// the nullification of view `number`, or from 100 on that the proposal of that view less 100 is
// certified
fn numbered_note(alloc: Global, number: u8) -> Result<Note, Fail> {
    if number < 100 {
        let view = u64::from(number);
        return Ok(Note::Cert(cert(alloc, Vote::Nullify { epoch: 0, view }, &[0, 1, 2])?));
    }
    let payload = genesis_commitment::<SumHasher>();
    Ok(Note::Certified(proposal(u64::from(number - 100), payload)))
}

// the views over which a member may propose that noted these, each asked below the one before
fn parents_after(alloc: Global, numbers: &[u8]) -> Result<Vec<u64>, Fail> {
    let mut tally = tally(alloc, 0)?;
    for number in numbers {
        take_note(&mut tally, numbered_note(alloc, *number)?)?;
    }
    let mut parents = Vec::new(alloc);
    let mut below = u64::MAX;
    for _ in 0..3 {
        if let Some((view, _)) = tally.propose_parent(0, below) {
            parents.push(view)?;
            below = view;
        }
    }
    Ok(parents)
}

// Views that are nullified in this order, those that are certified among them as 100 more, and the
// parents of a proposal in the view behind all of them. A parent that is itself nullified has
// others below it.
const RUNS: &str = "\
one after the other: 1 2 3: [0]
the last one first: 3 2 1: [0]
the one between at last: 1 3 2: [0]
the one between at first: 2 3 1: [0]
two runs that join: 1 2 4 5 3: [0]
three runs that join: 5 1 3 2 4: [0]
three runs, the upper two first: 1 3 5 4 2: [0]
some again: 1 2 1 3 2: [0]
a view between isn't: 1 3: []
the first isn't: 2 3 4: []
one of two between isn't: 1 5 3 2: []
over a certified view: 101 2 3: [1]
a certified view at last: 3 2 101: [1]
a certified view with a gap behind it: 101 3: []
a certified view that is nullified: 2 1 102 3: [2, 0]
two certified views that are nullified: 3 102 1 103 2: [3, 2, 0]
a certified view over one that isn't: 103 4: [3]
nothing behind a certified view: 1 102: [2]
";

// whether these are the parents of a line of the table
fn has_parents(alloc: Global, line: &str) -> Result<bool, Fail> {
    let case = case_in(alloc, line)?;
    let parents = parents_after(alloc, &case.bytes)?;
    let told = format!(in alloc; "{:?}", parents.as_slice())?;
    Ok(told.as_str() == case.want)
}

#[test]
fn nullified_views_join_in_whatever_order_they_come(rt: HostRuntime) -> Result<(), Fail> {
    let mut count = 0u8;
    for line in RUNS.lines() {
        assert!(rt; has_parents(rt.alloc(), line)?, "{line}");
        count = count.wrapping_add(1);
    }
    assert_eq!(rt; count, 18);
    Ok(())
}

// a member of two committees, 0 to 3 and then 1 to 4, for epochs of one height each
fn in_two_committees(alloc: Global, id: u16) -> Result<Tally<SumHasher>, Fail>
    requires { id < 5 }
{
    let mut lists = Vec::new(alloc);
    lists.push([0u16, 1, 2, 3].to_vec(alloc)?)?;
    lists.push([1u16, 2, 3, 4].to_vec(alloc)?)?;
    Ok(Tally::new(alloc, Committees::new(alloc, 5, 1, &lists)?, id))
}

// a block of that height
fn block(alloc: Global, height: u64) -> ChainBlock
    requires { height < 2 ^ 64 - 1 }
{
    let context = Context {
        epoch: 0,
        view: 1,
        leader: 1,
        parent_view: 0,
        parent: genesis_commitment::<SumHasher>(),
    };
    ChainBlock::new(context, Digest32([0; 32]), height, Payload::empty(alloc))
}

// the payload of view 1 again, in view 2
fn again() -> Proposal {
    Proposal {
        parent: 1,
        ..second()
    }
}

// the vote that member 0 owes when a block of that height was certified in view 1, and the leader
// of view 2 proposed it again
fn vote_again(alloc: Global, height: u64) -> Result<Option<Vote>, Fail>
    requires { height < 2 ^ 64 - 1 }
{
    let tally = in_two_committees(alloc, 0)?;
    let tally = with_note(tally, Note::Block(second().payload, block(alloc, height)))?;
    let tally = with_note(tally, Note::Certified(proposal(1, second().payload)))?;
    let tally = with_vote(tally, 2, Vote::Notarize(again()))?;
    Ok(tally.owed_vote())
}

#[test]
fn the_last_block_of_an_epoch_is_voted_for_again(rt: HostRuntime) -> Result<(), Fail> {
    let last = vote_again(rt.alloc(), 1)?;
    let past = vote_again(rt.alloc(), 2)?;
    let finalize = Vote::Finalize(proposal(1, second().payload));
    assert_eq!(rt;
        (last, past),
        (Some(Vote::Notarize(again())), Some(finalize))
    );
    Ok(())
}

// whether a member of two committees, in epoch 1 where a proposal is certified, owes a vote
fn votes_in_second_epoch(alloc: Global, id: u16) -> Result<bool, Fail>
    requires { id < 5 }
{
    let tally = in_two_committees(alloc, id)?;
    let tally = with_note(tally, Note::Epoch(1, second().payload))?;
    let certified = Proposal {
        epoch: 1,
        ..first()
    };
    let tally = with_note(tally, Note::Certified(certified))?;
    if tally.epoch() != 1 {
        return Err("an epoch that is entered".into());
    }
    Ok(tally.owed_vote().is_some())
}

#[test]
fn only_members_of_an_epoch_vote_in_it(rt: HostRuntime) -> Result<(), Fail> {
    let outside = votes_in_second_epoch(rt.alloc(), 0)?;
    assert!(rt; !outside && votes_in_second_epoch(rt.alloc(), 4)?);
    Ok(())
}
