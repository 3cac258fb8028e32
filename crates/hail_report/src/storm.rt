//! The script of a storm, and the summary of its run.

ghost use Rattle.std.specs.Prelude.{◌≡◌, ◌<◌, ◌≤◌, ◌*◌, ◌^◌, ◌++◌, List, length, IfOk, OnOk};
ghost use Rattle.std.specs.Prelude.{string_bytes};
ghost use Rattle.cw_base.specs.Bytes.{be32};
ghost use Rattle.hex.specs.Hex.{encode_lower};
ghost use Rattle.cw_rules.specs.Report.{Acked};
ghost use Rattle.hail_report.specs.Storm as spec;
ghost use Rattle.hail_report.specs.Text as text;

use crate::report::Entry;
use cw_base::{Digest32, Hasher, NoMemory};
use cw_types::ChainBlock;
use std::alloc::Global;

// A text so far, and the state behind it.
#[derive(Drop)]
struct Drawn {
    text: String,
    state: u64,
}

fn next_state(state: u64) -> u64
    ensures { result ≡ spec.next_state state }
{
    state
        .wrapping_mul(6364136223846793005)
        .wrapping_add(1442695040888963407)
}

fn word_of(state: u64) -> u64
    ensures value { result ≡ spec.word_of state }
    ensures bound { result < 2 ^ 31 }
{
    state >> 33
}

// A word in eight hexadecimal digits.
#[tactic(auto, unfolding(cw_base::specs::Bytes::be32))]
fn digits(alloc: Global, word: u64) -> Result<String, NoMemory>
    requires { word < 2 ^ 31 }
    ensures { IfOk result (λ text. string_bytes text ≡ encode_lower (be32 word)) }
{
    Ok(hex::encode(alloc, (word as u32).to_be_bytes().as_slice())?)
}

#[tactic(auto, unfolding(crate::specs::Storm::propose_text))]
fn put_propose(text: &mut String, member: u64, payload: &String) -> Result<(), NoMemory>
    ensures { OnOk result
        (string_bytes text.new ≡ string_bytes text.old ++ spec.propose_text member
        (string_bytes payload.now)) }
{
    write!(text, "propose {member} {payload}\n")?;
    Ok(())
}

#[tactic(auto, unfolding(crate::specs::Storm::cut_line))]
fn put_stop(text: &mut String, call: u64, cut: u64, fill: u64, member: u64) -> Result<(), NoMemory>
    ensures { OnOk result
        (string_bytes text.new ≡ string_bytes text.old ++ spec.cut_line call cut fill member) }
{
    write!(text, "cut {call} {cut} {fill} ack {member}\n")?;
    Ok(())
}

#[tactic(auto, unfolding(crate::specs::Storm::restart_line))]
fn put_restart(text: &mut String, member: u64) -> Result<(), NoMemory>
    ensures { OnOk result
        (string_bytes text.new ≡ string_bytes text.old ++ spec.restart_line member) }
{
    write!(text, "restart {member}\n")?;
    Ok(())
}

fn put_cut(text: &mut String, call: u64, cut: u64, fill: u64, member: u64) -> Result<(), NoMemory>
    ensures { OnOk result
        (string_bytes text.new ≡ string_bytes text.old ++ spec.cut_text call cut fill member) }
{
    put_stop(text, call, cut, fill, member)?;
    put_restart(text, member)?;
    Ok(())
}

impl Drawn {
    // The word of the next state.
    fn draw(&mut self) -> u64
        ensures word { result ≡ spec.word_of (spec.next_state self.old.state) }
        ensures bound { result < 2 ^ 31 }
        ensures state { self.new.state ≡ spec.next_state self.old.state }
        ensures text { string_bytes self.new.text ≡ string_bytes self.old.text }
    {
        self.state = next_state(self.state);
        word_of(self.state)
    }

    fn propose(&mut self, alloc: Global, round: u64) -> Result<(), NoMemory>
        ensures { OnOk result
            (spec.shown_draw self.new.state (string_bytes self.new.text)
            (spec.draw (spec.propose_line round)
            (spec.drawn (string_bytes self.old.text) self.old.state))) }
    {
        let word = self.draw();
        let payload = digits(alloc, word)?;
        put_propose(&mut self.text, round % 4, &payload)
    }

    #[tactic(auto, unfolding(crate::specs::Storm::deliver_line))]
    fn deliver(&mut self, number: u64, member: u64) -> Result<(), NoMemory>
        ensures { OnOk result
            (spec.shown_draw self.new.state (string_bytes self.new.text)
            (spec.draw (spec.deliver_line number member)
            (spec.drawn (string_bytes self.old.text) self.old.state))) }
    {
        let word = self.draw();
        if word % 8 == 0 {
            return Ok(());
        }
        write!(self.text, "deliver {number} {member}\n")?;
        Ok(())
    }

    fn deliver_all(&mut self, number: u64) -> Result<(), NoMemory>
        ensures { OnOk result
            (spec.shown_draw self.new.state (string_bytes self.new.text)
            (spec.deliver_all number (spec.drawn (string_bytes self.old.text) self.old.state))) }
    {
        self.deliver(number, 0)?;
        self.deliver(number, 1)?;
        self.deliver(number, 2)?;
        self.deliver(number, 3)?;
        Ok(())
    }

    fn deliver_from(&mut self, count: u64, first: u64) -> Result<(), NoMemory>
        requires low { first ≤ 2 ^ 32 }
        requires few { count ≤ 2 ^ 32 }
        ensures { OnOk result
            (spec.shown_draw self.new.state (string_bytes self.new.text)
            (spec.deliver_from count first
            (spec.drawn (string_bytes self.old.text) self.old.state))) }
    {
        for step in 0..count {
            self.deliver_all(first + step)?;
        }
        Ok(())
    }

    #[tactic(auto, unfolding(crate::specs::Storm::acks))]
    fn ack(&mut self) -> Result<(), NoMemory>
        ensures text { OnOk result
            (string_bytes self.new.text ≡ string_bytes self.old.text ++ spec.acks) }
        ensures state { self.new.state ≡ self.old.state }
    {
        self.text.push_str("ack 0\nack 1\nack 2\nack 3\n")?;
        Ok(())
    }

    fn cut(&mut self) -> Result<(), NoMemory>
        ensures { OnOk result
            (spec.shown_draw self.new.state (string_bytes self.new.text)
            (spec.cut_round (spec.drawn (string_bytes self.old.text) self.old.state))) }
    {
        let member = self.draw() % 4;
        let call = 1 + self.draw() % 5;
        let cut = self.draw() % 4;
        let fill = self.draw() % 2;
        put_cut(&mut self.text, call, cut, fill, member)
    }

    fn round(&mut self, alloc: Global, round: u64) -> Result<(), NoMemory>
        requires low { 1 ≤ round }
        requires high { round ≤ 32 }
        ensures { OnOk result
            (spec.shown_draw self.new.state (string_bytes self.new.text)
            (spec.round round (spec.drawn (string_bytes self.old.text) self.old.state))) }
    {
        self.propose(alloc, round)?;
        self.deliver_from(48, 24 * (round - 1))?;
        self.ack()?;
        if round % 8 == 0 {
            self.cut()?;
        }
        Ok(())
    }

    fn rounds(&mut self, alloc: Global, count: u64) -> Result<(), NoMemory>
        requires { count ≤ 32 }
        ensures { OnOk result
            (spec.shown_draw self.new.state (string_bytes self.new.text)
            (spec.rounds count 1 (spec.drawn (string_bytes self.old.text) self.old.state))) }
    {
        for step in 0..count {
            self.round(alloc, 1 + step)?;
        }
        Ok(())
    }
}

/// The script of the storm of a number.
pub fn storm_script(alloc: Global, number: u64) -> Result<Vec<u8>, NoMemory>
    ensures { IfOk result (λ script. script.items ≡ spec.storm_script number) }
{
    let mut drawn = Drawn {
        text: String::new(alloc),
        state: number,
    };
    drawn.text.push_str("cluster 4 8\n")?;
    drawn.rounds(alloc, 32)?;
    Ok(drawn.text.into_bytes())
}

fn sent_count(entries: &[Entry]) -> u128
    ensures value { result ≡ text.sent_count entries.now }
    ensures bound { result ≤ 2 ^ 64 * length entries.now }
{
    let mut count: u128 = 0;
    for entry in entries {
        count += entry.sent.len() as u128;
    }
    count
}

fn handed_count(entries: &[Entry]) -> u128
    ensures value { result ≡ text.handed_count entries.now }
    ensures bound { result ≤ 2 ^ 64 * length entries.now }
{
    let mut count: u128 = 0;
    for entry in entries {
        count += entry.handed.len() as u128;
    }
    count
}

fn sent_in(opening: &[Entry], steps: &[Entry]) -> u128
    ensures { result ≡ text.sent_count (opening.now ++ steps.now) }
{
    sent_count(opening) + sent_count(steps)
}

fn handed_in(opening: &[Entry], steps: &[Entry]) -> u128
    ensures { result ≡ text.handed_count (opening.now ++ steps.now) }
{
    handed_count(opening) + handed_count(steps)
}

/// The summary of the run of a storm's script.
pub fn summary_of_parts<H: Hasher<Digest = Digest32>>(
    alloc: Global,
    number: u64,
    opening: &[Entry],
    steps: &[Entry],
    chain: &[ChainBlock],
) -> Result<Vec<u8>, NoMemory>
    ensures { (acked : List Acked)
        → IfOk result
        (λ made. made.items
        ≡ text.summary_text H.digest_of number
        (record {
          opening = opening.now;
          steps = steps.now;
          acked = acked;
          chain = chain.now;
        })) }
{
    let mut out = String::new(alloc);
    put_number(&mut out, number)?;
    put_events(&mut out, steps.len())?;
    put_messages(&mut out, sent_in(opening, steps))?;
    put_handed(&mut out, handed_in(opening, steps))?;
    put_chain::<H>(alloc, &mut out, chain)?;
    Ok(out.into_bytes())
}

fn put_number(out: &mut String, number: u64) -> Result<(), NoMemory>
    ensures { OnOk result (string_bytes out.new ≡ string_bytes out.old ++ text.number_line number) }
{
    write!(out, "storm {number}\n")?;
    Ok(())
}

fn put_events(out: &mut String, events: usize) -> Result<(), NoMemory>
    ensures { OnOk result (string_bytes out.new ≡ string_bytes out.old ++ text.events_line events) }
{
    write!(out, "events {events}\n")?;
    Ok(())
}

fn put_messages(out: &mut String, messages: u128) -> Result<(), NoMemory>
    ensures { OnOk result
        (string_bytes out.new ≡ string_bytes out.old ++ text.messages_line messages) }
{
    write!(out, "messages {messages}\n")?;
    Ok(())
}

fn put_handed(out: &mut String, handed: u128) -> Result<(), NoMemory>
    ensures { OnOk result (string_bytes out.new ≡ string_bytes out.old ++ text.handed_line handed) }
{
    write!(out, "handed {handed}\n")?;
    Ok(())
}

fn put_chain<H: Hasher<Digest = Digest32>>(
    alloc: Global,
    out: &mut String,
    links: &[ChainBlock],
) -> Result<(), NoMemory>
    ensures { OnOk result
        (string_bytes out.new ≡ string_bytes out.old ++ text.top_text H.digest_of links.now) }
{
    match links.last() {
        Some(top) => put_top::<H>(alloc, out, top),
        None => Ok(()),
    }
}

fn put_top<H: Hasher<Digest = Digest32>>(
    alloc: Global,
    out: &mut String,
    top: &ChainBlock,
) -> Result<(), NoMemory>
    ensures { OnOk result
        (string_bytes out.new ≡ string_bytes out.old ++ text.top_lines H.digest_of top.now) }
{
    let mut bytes = Vec::new(alloc);
    top.write(&mut bytes)?;
    let digest = hex::encode(alloc, H::hash(&bytes).0.as_slice())?;
    let height = top.height();
    write!(out, "top {height}\nchain {digest}\n")?;
    Ok(())
}
