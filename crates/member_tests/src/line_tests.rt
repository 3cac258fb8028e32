//! Tests of what a line asks for, and of claims.

use cw_types::{Event, Verifier, Vote};
use member_lines::{Claim, HostLine, Question, Refusal, put_no};
use std::alloc::Global;
use std::test::Fail;

// Lines behind the header, each with what it asks for, or why it is refused.
const LINES: &str = "start = start
ack = ack
view = view
timeout 18446744073709551615 = timeout 18446744073709551615
prune 7 = prune 7
hint 0 = hint 0
cancel 3 = cancel 3
at 5 = at 5
final 06 = final 6
disk 00fF = disk 2
disk - = disk 0
propose 686921 = propose 3
propose - = propose 0
names 00 = names
watch 1111111111111111111111111111111111111111111111111111111111111111 = watch digest
watch 11111111111111111111111111111111111111111111111111111111111111112222222222222222222222222222222222222222222222222222222222222222333333333333333333333333333333333333333333333333333333333333333300020002 = watch commitment
block 1111111111111111111111111111111111111111111111111111111111111111 = block digest
block 11111111111111111111111111111111111111111111111111111111111111112222222222222222222222222222222222222222222222222222222222222222333333333333333333333333333333333333333333333333333333333333333300020002 = block commitment
deliver 00 = deliver, nobody
deliver - - 1 = deliver, no vote of 1
deliver 010002010000000000000003 010000000000000003 2 = deliver, a vote of 1
deliver 00 010000000000000003 = deliver, a vote of 0
deliver 00 01000000000000000300 1 2 = deliver, no vote of 2
deliver 020200000000000000020000000000000001111111111111111111111111111111111111111111111111111111111111111122222222222222222222222222222222222222222222222222222222222222223333333333333333333333333333333333333333333333333333333333333333000200020003000000010003 020000000000000002000000000000000111111111111111111111111111111111111111111111111111111111111111112222222222222222222222222222222222222222222222222222222222222222333333333333333333333333333333333333333333333333333333333333333300020002 0 1 65535 = deliver, a vote of 3
floor 020200000000000000020000000000000001111111111111111111111111111111111111111111111111111111111111111122222222222222222222222222222222222222222222222222222222222222223333333333333333333333333333333333333333333333333333333333333333000200020003000000010003 020000000000000002000000000000000111111111111111111111111111111111111111111111111111111111111111112222222222222222222222222222222222222222222222222222222222222222333333333333333333333333333333333333333333333333333333333333333300020002 0 1 3 = floor, a vote of 3
floor 020200000000000000020000000000000001111111111111111111111111111111111111111111111111111111111111111122222222222222222222222222222222222222222222222222222222222222223333333333333333333333333333333333333333333333333333333333333333000200020003000000010003 = floor, nobody
floor 0201000000000000000300010002 010000000000000003 2 = no NoFinalization
floor 00 = no NoFinalization
floor = no Syntax
deliver = no Syntax
 = no Syntax
 start = no Syntax
start  = no Syntax
Start = no Syntax
begin = no Syntax
ack 1 = no Syntax
timeout = no Syntax
timeout -1 = no Syntax
timeout 18446744073709551616 = no Syntax
timeout 1 1 = no Syntax
disk = no Syntax
disk 0 = no Syntax
disk 0g = no Syntax
disk 00 00 = no Syntax
propose = no Syntax
watch 00 = no Syntax
watch - = no Syntax
block 111111111111111111111111111111111111111111111111111111111111111111 = no Syntax
watch 11111111111111111111111111111111111111111111111111111111111111112222222222222222222222222222222222222222222222222222222222222222333333333333333333333333333333333333333333333333333333333333333300000002 = no Syntax
deliver 0 = no Syntax
deliver 00 0 = no Syntax
deliver 00 - x = no Syntax
deliver 00 - 65536 = no Syntax
deliver 00 -  1 = no Syntax
signed 1 00 = no Syntax
cluster 4 3 = no Syntax
";

#[test]
fn each_line_asks_for_what_it_says(rt: HostRuntime) -> Result<(), Fail> {
    for row in LINES.lines() {
        let (line, want) = row.split_once(" = ").ok_or("a line and what it asks for")?;
        let told = told_of(rt.alloc(), line.as_bytes())?;
        assert_eq!(rt; told.as_str(), want);
    }
    Ok(())
}

fn told_of(alloc: Global, line: &[u8]) -> Result<String, Fail> {
    match HostLine::read(alloc, line)? {
        Ok(HostLine::Disk(bytes)) => told_number(alloc, "disk", bytes.len() as u64),
        Ok(HostLine::Start) => told_word(alloc, "start"),
        Ok(HostLine::Take(event, claim)) => told_event(alloc, &event, &claim),
        Ok(HostLine::Ask(question)) => told_question(alloc, &question),
        Err(refusal) => told_refusal(alloc, &refusal),
    }
}

fn told_word(alloc: Global, word: &str) -> Result<String, Fail> {
    let mut told = String::new(alloc);
    told.push_str(word)?;
    Ok(told)
}

fn told_number(alloc: Global, word: &str, number: u64) -> Result<String, Fail> {
    let mut told = String::new(alloc);
    write!(told, "{word} {number}")?;
    Ok(told)
}

fn told_refusal(alloc: Global, refusal: &Refusal) -> Result<String, Fail> {
    let mut told = String::new(alloc);
    put_no(&mut told, refusal)?;
    let told = told.as_str().trim_end();
    told_word(alloc, told)
}

fn told_event(alloc: Global, event: &Event, claim: &Claim) -> Result<String, Fail> {
    match event {
        Event::Propose(payload) => told_number(alloc, "propose", payload.bytes().len() as u64),
        Event::Timeout(view) => told_number(alloc, "timeout", *view),
        Event::Deliver(_) => told_claim(alloc, "deliver", claim),
        Event::Ack => told_word(alloc, "ack"),
        Event::Prune(height) => told_number(alloc, "prune", *height),
        Event::Floor(_) => told_claim(alloc, "floor", claim),
        Event::Hint(height) => told_number(alloc, "hint", *height),
        Event::WatchDigest(_) => told_word(alloc, "watch digest"),
        Event::WatchCommitment(_) => told_word(alloc, "watch commitment"),
        Event::Cancel(number) => told_number(alloc, "cancel", *number),
    }
}

fn told_claim(alloc: Global, word: &str, claim: &Claim) -> Result<String, Fail> {
    let mut told = String::new(alloc);
    let count = claim.signers.len();
    match (&claim.vote, count) {
        (None, 0) => write!(told, "{word}, nobody")?,
        (None, _) => write!(told, "{word}, no vote of {count}")?,
        (Some(_), _) => write!(told, "{word}, a vote of {count}")?,
    }
    Ok(told)
}

fn told_question(alloc: Global, question: &Question) -> Result<String, Fail> {
    match question {
        Question::At(height) => told_number(alloc, "at", *height),
        Question::OfDigest(_) => told_word(alloc, "block digest"),
        Question::Under(_) => told_word(alloc, "block commitment"),
        Question::Final(height) => told_number(alloc, "final", *height),
        Question::View => told_word(alloc, "view"),
        Question::Names(_) => told_word(alloc, "names"),
    }
}

fn nullify(view: u64) -> Vote {
    Vote::Nullify { epoch: 0, view }
}

#[test]
fn a_claim_is_of_its_vote_and_its_signers_alone(rt: HostRuntime) -> Result<(), Fail> {
    let line = b"deliver 00 010000000000000003 1 3";
    let Ok(HostLine::Take(_, claim)) = HostLine::read(rt.alloc(), line)? else {
        return Err("an event".into());
    };
    assert!(rt; claim.signed(1, &nullify(3)));
    assert!(rt; claim.signed(3, &nullify(3)));
    assert!(rt; !claim.signed(2, &nullify(3)));
    assert!(rt; !claim.signed(1, &nullify(4)));
    assert!(rt; !Claim::nothing(rt.alloc()).signed(1, &nullify(3)));
    Ok(())
}
