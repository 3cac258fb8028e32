//! The picture of a run.

ghost use Rattle.std.specs.Prelude.{◌≡◌, ◌≤◌, ◌++◌, IfOk, OnOk, length, take, string_bytes};
ghost use Rattle.run_picture.specs.Picture as spec;

use crate::arrows::{put_arrows, put_stubs};
use crate::elements::put_text;
use crate::flights::{Flight, flights_of};
use crate::frame::{MOST_ROWS, width, y_of};
use crate::keys::put_keys;
use crate::lanes::{put_gaps, put_lanes};
use crate::links::put_chain;
use crate::marks::put_marks;
use crate::rows::put_rows;
use crate::steps::Step;
use crate::style::put_style;
use cw_base::{Digest32, NoMemory};
use std::alloc::Global;

/// The picture of a run, whose members are faulty or not, from what each line did and the digests
/// of its chain, as SVG: a row for each line, a lane for each member, an arrow for each message
/// that a line brings. Of the lines the first 2,000 are drawn.
pub fn picture(
    alloc: Global,
    faulty: &[bool],
    steps: &[Step],
    chain: &[Digest32],
) -> Result<Vec<u8>, NoMemory>
    ensures { IfOk result (λ text. text.items ≡ spec.picture faulty.now steps.now chain.now) }
{
    let drawn = front(steps);
    let flights = flights_of(alloc, drawn)?;
    let mut out = String::new(alloc);
    let counts = Counts {
        lines: steps.len(),
        messages: flights.len(),
        blocks: chain.len(),
    };
    put_heading(alloc, &mut out, faulty.len(), drawn.len() as u16, counts)?;
    put_drawing(alloc, &mut out, faulty, &flights, drawn)?;
    put_foot(alloc, &mut out, drawn, chain)?;
    Ok(out.into_bytes())
}

// How many lines, messages and blocks there are.
#[derive(Clone, Copy)]
struct Counts {
    lines: usize,
    messages: usize,
    blocks: usize,
}

// The steps that are drawn.
fn front<'a, 'b>(steps: &'b [Step<'a>]) -> &'b [Step<'a>]
    ensures value { result.now ≡ take 2000 steps.now }
    ensures few { length result.now ≤ 2000 }
{
    if steps.len() <= MOST_ROWS {
        return steps;
    }
    &steps[..MOST_ROWS]
}

// A page of so many members and rows, with its title and the meaning of its marks.
fn put_heading(
    alloc: Global,
    out: &mut String,
    total: usize,
    rows: u16,
    counts: Counts,
) -> Result<(), NoMemory>
    ensures { OnOk result
        (string_bytes out.new ≡ string_bytes out.old
        ++ spec.heading total counts.lines rows counts.messages counts.blocks) }
{
    put_sheet(out, width(total), y_of(rows) + 110)?;
    put_titles(alloc, out, total, rows, counts)
}

// An empty page.
fn put_sheet(out: &mut String, width: u64, height: u64) -> Result<(), NoMemory>
    ensures { OnOk result
        (string_bytes out.new ≡ string_bytes out.old ++ spec.sheet width height) }
{
    put_svg(out, width, height)?;
    put_page(out, width, height)?;
    put_style(out)
}

// Its title, and the meaning of its marks.
fn put_titles(
    alloc: Global,
    out: &mut String,
    total: usize,
    rows: u16,
    counts: Counts,
) -> Result<(), NoMemory>
    ensures { OnOk result
        (string_bytes out.new ≡ string_bytes out.old
        ++ spec.titles total counts.lines rows counts.messages counts.blocks) }
{
    let title = title_words(alloc, total, rows, counts)?;
    put_text(out, 14, 26, "big", &title)?;
    put_text(out, 240, 122, "dim end", "member")?;
    put_keys(alloc, out)
}

#[tactic(auto, unfolding(crate::specs::Picture::svg_text))]
fn put_svg(out: &mut String, width: u64, height: u64) -> Result<(), NoMemory>
    ensures { OnOk result
        (string_bytes out.new ≡ string_bytes out.old ++ spec.svg_text width height) }
{
    write!(
        out,
        "<svg xmlns='http://www.w3.org/2000/svg' width='{width}' height='{height}' \
         viewBox='0 0 {width} {height}'>\n"
    )?;
    Ok(())
}

#[tactic(auto, unfolding(crate::specs::Picture::page_text))]
fn put_page(out: &mut String, width: u64, height: u64) -> Result<(), NoMemory>
    ensures { OnOk result
        (string_bytes out.new ≡ string_bytes out.old ++ spec.page_text width height) }
{
    write!(
        out,
        "<rect width='{width}' height='{height}' class='page'/>\n"
    )?;
    Ok(())
}

// How many lines there are, and of those that are drawn.
#[tactic(auto, unfolding(crate::specs::Picture::lines_words))]
fn lines_words(alloc: Global, lines: usize, drawn: u16) -> Result<String, NoMemory>
    ensures { IfOk result (λ text. string_bytes text ≡ spec.lines_words lines drawn) }
{
    let mut text = String::new(alloc);
    if usize::from(drawn) < lines {
        write!(text, "{drawn} of {lines} lines")?;
        return Ok(text);
    }
    write!(text, "{lines} lines")?;
    Ok(text)
}

#[tactic(auto, unfolding(crate::specs::Picture::title_words))]
fn title_words(alloc: Global, total: usize, rows: u16, counts: Counts) -> Result<String, NoMemory>
    ensures { IfOk result
        (λ text. string_bytes text
        ≡ spec.title_words total counts.lines rows counts.messages counts.blocks) }
{
    let mut text = String::new(alloc);
    let lines = lines_words(alloc, counts.lines, rows)?;
    let messages = counts.messages;
    let blocks = counts.blocks;
    write!(
        text,
        "cluster of {total}, {lines}, {messages} messages, a chain of {blocks} with genesis"
    )?;
    Ok(text)
}

// All that is drawn of steps and their messages.
fn put_drawing(
    alloc: Global,
    out: &mut String,
    faulty: &[bool],
    flights: &[Flight],
    steps: &[Step],
) -> Result<(), NoMemory>
    requires { length steps.now ≤ 2000 }
    ensures { OnOk result
        (string_bytes out.new ≡ string_bytes out.old
        ++ spec.drawing faulty.now flights.now steps.now) }
{
    let total = faulty.len();
    put_rows(alloc, out, total, steps)?;
    put_lanes(alloc, out, y_of(steps.len() as u16) + 10, faulty)?;
    put_gaps(alloc, out, faulty, flights, steps)?;
    put_stubs(alloc, out, total, flights, steps)?;
    put_arrows(alloc, out, faulty, flights, steps)?;
    put_marks(alloc, out, faulty, flights, steps)?;
    Ok(())
}

// The chain, below the rows, and the end.
fn put_foot(
    alloc: Global,
    out: &mut String,
    steps: &[Step],
    chain: &[Digest32],
) -> Result<(), NoMemory>
    requires { length steps.now ≤ 2000 }
    ensures { OnOk result
        (string_bytes out.new ≡ string_bytes out.old
        ++ spec.foot (length steps.now) chain.now) }
{
    let y = y_of(steps.len() as u16);
    put_text(out, 14, y + 50, "big", "chain")?;
    put_chain(alloc, out, y + 62, chain)?;
    put_end(out)
}

#[tactic(auto, unfolding(crate::specs::Picture::svg_end))]
fn put_end(out: &mut String) -> Result<(), NoMemory>
    ensures { OnOk result (string_bytes out.new ≡ string_bytes out.old ++ spec.svg_end) }
{
    out.push_str("</svg>\n")?;
    Ok(())
}
