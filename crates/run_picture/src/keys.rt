//! What lines and marks mean.

ghost use Rattle.std.specs.Prelude.{◌≡◌, ◌<◌, ◌^◌, ◌++◌, OnOk, string_bytes};
ghost use Rattle.run_picture.specs.Style as spec;

use crate::elements::{across, put_arrow_of, put_mark_of, put_text};
use crate::labels::{put_label_begin, put_label_end, put_part};
use cw_base::NoMemory;
use std::alloc::Global;

/// What the lines and marks of every picture mean.
#[tactic(auto, unfolding(crate::specs::Style::keys))]
pub(crate) fn put_keys(alloc: Global, out: &mut String) -> Result<(), NoMemory>
    ensures { OnOk result (string_bytes out.new ≡ string_bytes out.old ++ spec.keys) }
{
    put_message_keys(alloc, out)?;
    put_fate_keys(alloc, out)?;
    put_badge_key(out)?;
    put_signs(out)
}

fn put_message_keys(alloc: Global, out: &mut String) -> Result<(), NoMemory>
    ensures { OnOk result (string_bytes out.new ≡ string_bytes out.old ++ spec.message_keys) }
{
    put_key(alloc, out, 14, 48, "b", "shard S")?;
    put_key(alloc, out, 104, 48, "b c", "block B")?;
    put_key(alloc, out, 194, 48, "n", "notarize N")?;
    put_key(alloc, out, 302, 48, "x", "nullify X")?;
    put_key(alloc, out, 404, 48, "f", "finalize F")?;
    put_key(alloc, out, 512, 48, "n c", "certificate [N]")?;
    put_key(alloc, out, 650, 48, "a", "ask")
}

fn put_fate_keys(alloc: Global, out: &mut String) -> Result<(), NoMemory>
    ensures { OnOk result (string_bytes out.new ≡ string_bytes out.old ++ spec.fate_keys) }
{
    put_key(alloc, out, 14, 68, "g", "no effect")?;
    put_key(alloc, out, 164, 68, "j z", "faulty one")?;
    put_key(alloc, out, 314, 68, "j stub", "lost")
}

fn put_badge_key(out: &mut String) -> Result<(), NoMemory>
    ensures { OnOk result (string_bytes out.new ≡ string_bytes out.old ++ spec.badge_key) }
{
    put_label_begin(out, 450, 68)?;
    put_part(out, "badge", "3")?;
    put_part(out, "ink", "handed out")?;
    put_label_end(out)
}

// A line of a class, and its meaning.
fn put_key(
    alloc: Global,
    out: &mut String,
    x: u64,
    y: u64,
    class: &str,
    name: &str,
) -> Result<(), NoMemory>
    requires x { x < 2 ^ 32 }
    requires y { y < 2 ^ 32 }
    ensures { OnOk result
        (string_bytes out.new ≡ string_bytes out.old ++ spec.key_text x y class.now name.now) }
{
    let way = across(alloc, x, y, x + 24)?;
    put_arrow_of(out, &way, class, "", name)?;
    put_text(out, x + 30, y + 4, "small", name)
}

fn put_signs(out: &mut String) -> Result<(), NoMemory>
    ensures { OnOk result (string_bytes out.new ≡ string_bytes out.old ++ spec.signs) }
{
    put_sign(out, 20, "box", "propose")?;
    put_sign(out, 110, "dot", "deliver")?;
    put_sign(out, 200, "gem", "timeout")?;
    put_sign(out, 290, "tri", "floor, hint")?;
    put_sign(out, 404, "ring", "ack, restart")?;
    put_sign(out, 524, "cross", "stop")?;
    put_sign(out, 590, "void", "no such message")
}

// A mark, and its meaning.
fn put_sign(out: &mut String, x: u64, shape: &str, name: &str) -> Result<(), NoMemory>
    requires { x < 2 ^ 32 }
    ensures { OnOk result
        (string_bytes out.new ≡ string_bytes out.old ++ spec.sign_text x shape.now name.now) }
{
    put_mark_of(out, x, 88, shape, "ink", name)?;
    put_text(out, x + 10, 92, "small", name)
}
