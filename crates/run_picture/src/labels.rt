//! What stands beside a mark.

ghost use Rattle.std.specs.Prelude.{◌≡◌, ◌<◌, ◌^◌, ◌++◌, [], IfOk, OnOk, string_bytes};
ghost use Rattle.run_picture.specs.Marks as spec;
ghost use Rattle.run_picture.specs.Told as told;

use crate::steps::Step;
use crate::told::{Said, class_of, letters_of};
use cw_base::NoMemory;
use std::alloc::Global;

/// All parts of a line's label.
pub(crate) fn put_parts(
    alloc: Global,
    out: &mut String,
    is_stop: bool,
    step: &Step,
) -> Result<(), NoMemory>
    ensures { OnOk result
        (string_bytes out.new ≡ string_bytes out.old ++ spec.parts_text is_stop step.now) }
{
    put_badge(alloc, out, step.handed.as_slice())?;
    put_cut(out, is_stop)?;
    put_found(alloc, out, step.found)?;
    put_sent(alloc, out, step.sent.as_slice())?;
    Ok(())
}

/// Where a label begins, beside x and y.
#[tactic(auto, unfolding(crate::specs::Marks::label_begin))]
pub(crate) fn put_label_begin(out: &mut String, x: u64, y: u64) -> Result<(), NoMemory>
    requires x { x < 2 ^ 32 }
    requires y { y < 2 ^ 32 }
    ensures { OnOk result (string_bytes out.new ≡ string_bytes out.old ++ spec.label_begin x y) }
{
    let side = x + 14;
    let base = y + 4;
    write!(out, "<text x='{side}' y='{base}' class='label'>")?;
    Ok(())
}

/// Where it ends.
#[tactic(auto, unfolding(crate::specs::Marks::label_end))]
pub(crate) fn put_label_end(out: &mut String) -> Result<(), NoMemory>
    ensures { OnOk result (string_bytes out.new ≡ string_bytes out.old ++ spec.label_end) }
{
    out.push_str("</text>\n")?;
    Ok(())
}

/// A part of a label, in the colour of its class.
#[tactic(auto, unfolding(crate::specs::Marks::part_text))]
pub(crate) fn put_part(out: &mut String, class: &str, text: &str) -> Result<(), NoMemory>
    ensures { OnOk result
        (string_bytes out.new ≡ string_bytes out.old ++ spec.part_text class.now text.now) }
{
    write!(out, "<tspan class='t{class}'>{text}</tspan> ")?;
    Ok(())
}

// The heights that were handed out.
fn put_badge(alloc: Global, out: &mut String, handed: &[u64]) -> Result<(), NoMemory>
    ensures { OnOk result
        (string_bytes out.new ≡ string_bytes out.old ++ spec.badge_text handed.now) }
{
    match (handed.first(), handed.last()) {
        (Some(first), Some(last)) => {
            let heights = heights_text(alloc, *first, *last)?;
            put_part(out, "badge", &heights)
        }
        _ => Ok(()),
    }
}

#[tactic(auto, unfolding(crate::specs::Marks::heights_text))]
fn heights_text(alloc: Global, first: u64, last: u64) -> Result<String, NoMemory>
    ensures { IfOk result (λ text. string_bytes text ≡ spec.heights_text first last) }
{
    let mut text = String::new(alloc);
    if first == last {
        write!(text, "{first}")?;
        return Ok(text);
    }
    write!(text, "{first}-{last}")?;
    Ok(text)
}

fn put_cut(out: &mut String, is_stop: bool) -> Result<(), NoMemory>
    ensures { OnOk result (string_bytes out.new ≡ string_bytes out.old ++ spec.cut_part is_stop) }
{
    if is_stop {
        return put_part(out, "bad", "cut");
    }
    Ok(())
}

// How many notes a restart found.
fn put_found(alloc: Global, out: &mut String, found: Option<u64>) -> Result<(), NoMemory>
    ensures { OnOk result (string_bytes out.new ≡ string_bytes out.old ++ spec.found_part found) }
{
    let Some(notes) = found else {
        return Ok(());
    };
    let mut text = String::new(alloc);
    write!(text, "found {notes}")?;
    put_part(out, "ink", &text)
}

// The messages that were sent.
fn put_sent(alloc: Global, out: &mut String, sent: &[Said]) -> Result<(), NoMemory>
    ensures { OnOk result
        (string_bytes out.new ≡ string_bytes out.old ++ spec.sent_text [] sent.now) }
{
    let mut before = String::new(alloc);
    for said in sent {
        let letters = letters_of(alloc, &said.says)?;
        put_said(out, &before, &letters, said)?;
        before = letters;
    }
    Ok(())
}

// A message, but not once more behind one of the same letters.
fn put_said(out: &mut String, before: &str, letters: &str, said: &Said) -> Result<(), NoMemory>
    requires { letters.now ≡ told.letters said.now.says }
    ensures { OnOk result
        (string_bytes out.new ≡ string_bytes out.old ++ spec.said_text before.now said.now) }
{
    if letters.as_bytes() == before.as_bytes() {
        return Ok(());
    }
    put_part(out, class_of(&said.says), letters)
}
