//! The elements of a picture.

ghost use Rattle.std.specs.Fmt.{decimal};
ghost use Rattle.std.specs.Prelude.{◌≡◌, ◌++◌, IfOk, OnOk, string_bytes};
ghost use Rattle.run_picture.specs.Elements as spec;

use cw_base::NoMemory;
use std::alloc::Global;

/// A number as a text.
pub(crate) fn number_text(alloc: Global, number: u64) -> Result<String, NoMemory>
    ensures { IfOk result (λ text. string_bytes text ≡ decimal number) }
{
    let mut text = String::new(alloc);
    write!(text, "{number}")?;
    Ok(text)
}

/// Words at a place.
#[tactic(auto, unfolding(crate::specs::Elements::text_at))]
pub(crate) fn put_text(
    out: &mut String,
    x: u64,
    y: u64,
    class: &str,
    words: &str,
) -> Result<(), NoMemory>
    ensures { OnOk result
        (string_bytes out.new ≡ string_bytes out.old ++ spec.text_at x y class.now words.now) }
{
    write!(
        out,
        "<text x='{x}' y='{y}' class='{class}'>{words}</text>\n"
    )?;
    Ok(())
}

/// A line along a way.
#[tactic(auto, unfolding(crate::specs::Elements::line_along))]
pub(crate) fn put_path(out: &mut String, way: &str, class: &str) -> Result<(), NoMemory>
    ensures { OnOk result
        (string_bytes out.new ≡ string_bytes out.old ++ spec.line_along way.now class.now) }
{
    write!(out, "<path d='{way}' class='{class}'/>\n")?;
    Ok(())
}

/// A line along a way for a message, with what is told of it.
#[tactic(auto, unfolding(crate::specs::Elements::arrow_of))]
pub(crate) fn put_arrow_of(
    out: &mut String,
    way: &str,
    class: &str,
    more: &str,
    title: &str,
) -> Result<(), NoMemory>
    ensures { OnOk result
        (string_bytes out.new
        ≡ string_bytes out.old ++ spec.arrow_of way.now class.now more.now title.now) }
{
    write!(
        out,
        "<path d='{way}' class='arrow {class}{more}'><title>{title}</title></path>\n"
    )?;
    Ok(())
}

/// A mark of a shape at a place, with what is told of it.
#[tactic(auto, unfolding(crate::specs::Elements::mark_of))]
pub(crate) fn put_mark_of(
    out: &mut String,
    x: u64,
    y: u64,
    shape: &str,
    class: &str,
    title: &str,
) -> Result<(), NoMemory>
    ensures { OnOk result
        (string_bytes out.new
        ≡ string_bytes out.old ++ spec.mark_of x y shape.now class.now title.now) }
{
    write!(
        out,
        "<use href='#{shape}' x='{x}' y='{y}' class='mark {class}'><title>{title}</title></use>\n"
    )?;
    Ok(())
}

/// A box for a block.
#[tactic(auto, unfolding(crate::specs::Elements::box_at))]
pub(crate) fn put_box_at(out: &mut String, x: u64, y: u64) -> Result<(), NoMemory>
    ensures { OnOk result (string_bytes out.new ≡ string_bytes out.old ++ spec.box_at x y) }
{
    write!(
        out,
        "<rect x='{x}' y='{y}' width='56' height='30' rx='4' class='block'/>\n"
    )?;
    Ok(())
}

/// Down to y.
#[tactic(auto, unfolding(crate::specs::Elements::down))]
pub(crate) fn down(alloc: Global, x: u64, from: u64, y: u64) -> Result<String, NoMemory>
    ensures { IfOk result (λ text. string_bytes text ≡ spec.down x from y) }
{
    let mut text = String::new(alloc);
    write!(text, "M{x} {from}V{y}")?;
    Ok(text)
}

/// Across to x.
#[tactic(auto, unfolding(crate::specs::Elements::across))]
pub(crate) fn across(alloc: Global, from: u64, y: u64, x: u64) -> Result<String, NoMemory>
    ensures { IfOk result (λ text. string_bytes text ≡ spec.across from y x) }
{
    let mut text = String::new(alloc);
    write!(text, "M{from} {y}H{x}")?;
    Ok(text)
}

/// Straight to another place.
#[tactic(auto, unfolding(crate::specs::Elements::straight))]
pub(crate) fn straight(
    alloc: Global,
    from: u64,
    top: u64,
    x: u64,
    y: u64,
) -> Result<String, NoMemory>
    ensures { IfOk result (λ text. string_bytes text ≡ spec.straight from top x y) }
{
    let mut text = String::new(alloc);
    write!(text, "M{from} {top}L{x} {y}")?;
    Ok(text)
}

/// Down in a bow by way of another x.
#[tactic(auto, unfolding(crate::specs::Elements::bow))]
pub(crate) fn bow(alloc: Global, x: u64, top: u64, side: u64, y: u64) -> Result<String, NoMemory>
    ensures { IfOk result (λ text. string_bytes text ≡ spec.bow x top side y) }
{
    let mut text = String::new(alloc);
    write!(text, "M{x} {top}C{side} {top} {side} {y} {x} {y}")?;
    Ok(text)
}
