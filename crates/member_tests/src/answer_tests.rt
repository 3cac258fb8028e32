//! Tests of the lines of an answer.

use cw_base::{Config, Digest32, Items};
use cw_types::{Cert, Commitment, Handed, Message, Out, Proposal, TicketOut, To, Vote};
use member_lines::{
    Refusal, put_block, put_final, put_handed, put_names, put_no, put_ok, put_place, put_send,
    put_sync, put_ticket, put_write,
};
use std::alloc::Global;
use std::test::Fail;

// A commitment of the test.
fn commitment() -> Result<Commitment, Fail> {
    Ok(Commitment {
        block: Digest32([0x11; 32]),
        root: Digest32([0x22; 32]),
        context: Digest32([0x33; 32]),
        config: Config::new(2, 2).ok_or("a config")?,
    })
}

fn nullify() -> Vote {
    Vote::Nullify { epoch: 1, view: 3 }
}

fn finalization(alloc: Global) -> Result<Message, Fail> {
    let proposal = Proposal {
        epoch: 0,
        view: 2,
        parent: 1,
        payload: commitment()?,
    };
    Ok(Message::Cert(Cert {
        vote: Vote::Finalize(proposal),
        signers: Items::from_vec(vec![in alloc; 0u16, 1, 3]?),
    }))
}

const WRITES: &str = "write 0 -
write 18446744073709551615 00ff
sync
";

#[test]
fn writes_come_with_their_places(rt: HostRuntime) -> Result<(), Fail> {
    let mut text = String::new(rt.alloc());
    put_write(rt.alloc(), &mut text, 0, &[])?;
    put_write(rt.alloc(), &mut text, u64::MAX, &[0, 255])?;
    put_sync(&mut text)?;
    assert_eq!(rt; text.as_str(), WRITES);
    Ok(())
}

const SENDS: &str =
    "send all 0100020400000000000000010000000000000003 0400000000000000010000000000000003 2
send 65535 020200000000000000020000000000000001111111111111111111111111111111111111111111111111111111111111111122222222222222222222222222222222222222222222222222222222222222223333333333333333333333333333333333333333333333333333333333333333000200020003000000010003 020000000000000002000000000000000111111111111111111111111111111111111111111111111111111111111111112222222222222222222222222222222222222222222222222222222222222222333333333333333333333333333333333333333333333333333333333333333300020002 0 1 3
send all -
send 0 03000111111111111111111111111111111111111111111111111111111111111111112222222222222222222222222222222222222222222222222222222222222222333333333333333333333333333333333333333333333333333333333333333300020002
";

#[test]
fn a_message_comes_with_its_vote_and_signers(rt: HostRuntime) -> Result<(), Fail> {
    let alloc = rt.alloc();
    let mut text = String::new(alloc);
    let sent = [
        (To::All, Message::Vote(2, nullify())),
        (To::One(65535), finalization(alloc)?),
        (To::All, Message::Junk(Items::new(alloc))),
        (To::One(0), Message::Ask(1, commitment()?)),
    ];
    for (to, message) in sent {
        put_send(alloc, &mut text, &Out { to, message })?;
    }
    assert_eq!(rt; text.as_str(), SENDS);
    Ok(())
}

const GIVEN: &str =
    "hand 7 4444444444444444444444444444444444444444444444444444444444444444 11111111111111111111111111111111111111111111111111111111111111112222222222222222222222222222222222222222222222222222222222222222333333333333333333333333333333333333333333333333333333333333333300020002 6869
hand 7 4444444444444444444444444444444444444444444444444444444444444444 11111111111111111111111111111111111111111111111111111111111111112222222222222222222222222222222222222222222222222222222222222222333333333333333333333333333333333333333333333333333333333333333300020002 -
told 4
told 5 11111111111111111111111111111111111111111111111111111111111111112222222222222222222222222222222222222222222222222222222222222222333333333333333333333333333333333333333333333333333333333333333300020002
view 1 2 3
";

#[test]
fn blocks_tickets_and_views_are_told(rt: HostRuntime) -> Result<(), Fail> {
    let alloc = rt.alloc();
    let mut text = String::new(alloc);
    let handed = Handed {
        height: 7,
        commitment: commitment()?,
        digest: Digest32([0x44; 32]),
    };
    put_handed(alloc, &mut text, &handed, b"hi")?;
    put_handed(alloc, &mut text, &handed, b"")?;
    for (number, commitment) in [(4, None), (5, Some(commitment()?))] {
        put_ticket(alloc, &mut text, &TicketOut { number, commitment })?;
    }
    put_place(&mut text, 1, 2, 3)?;
    assert_eq!(rt; text.as_str(), GIVEN);
    Ok(())
}

const ASKED: &str =
    "block 7 4444444444444444444444444444444444444444444444444444444444444444 11111111111111111111111111111111111111111111111111111111111111112222222222222222222222222222222222222222222222222222222222222222333333333333333333333333333333333333333333333333333333333333333300020002 6869
block 7 4444444444444444444444444444444444444444444444444444444444444444 - -
final 7 020200000000000000020000000000000001111111111111111111111111111111111111111111111111111111111111111122222222222222222222222222222222222222222222222222222222222222223333333333333333333333333333333333333333333333333333333333333333000200020003000000010003 020000000000000002000000000000000111111111111111111111111111111111111111111111111111111111111111112222222222222222222222222222222222222222222222222222222222222222333333333333333333333333333333333333333333333333333333333333333300020002 0 1 3
names 0400000000000000010000000000000003 2
names
";

#[test]
fn questions_are_answered(rt: HostRuntime) -> Result<(), Fail> {
    let alloc = rt.alloc();
    let mut text = String::new(alloc);
    let digest = Digest32([0x44; 32]);
    put_block(alloc, &mut text, 7, &digest, Some(commitment()?), b"hi")?;
    put_block(alloc, &mut text, 7, &digest, None, b"")?;
    put_final(alloc, &mut text, 7, &finalization(alloc)?)?;
    put_names(alloc, &mut text, &Message::Vote(2, nullify()))?;
    put_names(alloc, &mut text, &Message::AskHeight(1, 2))?;
    assert_eq!(rt; text.as_str(), ASKED);
    Ok(())
}

const ENDS: &str = "ok
no Syntax
no TooLong
no TooEarly
no TooLate
no BadCommittee
no UnknownMember
no OversizeBlock
no NoFinalization
no NoBlock
no Foreign 18446744073709551615
";

#[test]
fn an_answer_ends_with_ok_or_a_reason(rt: HostRuntime) -> Result<(), Fail> {
    let mut text = String::new(rt.alloc());
    put_ok(&mut text)?;
    for refusal in [
        Refusal::Syntax,
        Refusal::TooLong,
        Refusal::TooEarly,
        Refusal::TooLate,
        Refusal::BadCommittee,
        Refusal::UnknownMember,
        Refusal::OversizeBlock,
        Refusal::NoFinalization,
        Refusal::NoBlock,
        Refusal::Foreign(u64::MAX),
    ] {
        put_no(&mut text, &refusal)?;
    }
    assert_eq!(rt; text.as_str(), ENDS);
    Ok(())
}
