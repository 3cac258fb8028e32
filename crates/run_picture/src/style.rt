//! What is the same in every picture.

ghost use Rattle.std.specs.Prelude.{◌≡◌, ◌++◌, OnOk, string_bytes};
ghost use Rattle.run_picture.specs.Style as spec;

use cw_base::NoMemory;

/// Colours and shapes.
#[tactic(auto, unfolding(crate::specs::Style::style))]
pub(crate) fn put_style(out: &mut String) -> Result<(), NoMemory>
    ensures { OnOk result (string_bytes out.new ≡ string_bytes out.old ++ spec.style) }
{
    put_begin(out)?;
    put_text_styles(out)?;
    put_line_styles(out)?;
    put_colours(out)?;
    put_middle(out)?;
    put_tips(out)?;
    put_shapes(out)?;
    put_end(out)
}

#[tactic(auto, unfolding(crate::specs::Style::begin))]
fn put_begin(out: &mut String) -> Result<(), NoMemory>
    ensures { OnOk result (string_bytes out.new ≡ string_bytes out.old ++ spec.begin) }
{
    out.push_str("<style>\n")?;
    Ok(())
}

#[tactic(auto, unfolding(crate::specs::Style::middle))]
fn put_middle(out: &mut String) -> Result<(), NoMemory>
    ensures { OnOk result (string_bytes out.new ≡ string_bytes out.old ++ spec.middle) }
{
    out.push_str("</style><defs>\n")?;
    Ok(())
}

#[tactic(auto, unfolding(crate::specs::Style::defs_end))]
fn put_end(out: &mut String) -> Result<(), NoMemory>
    ensures { OnOk result (string_bytes out.new ≡ string_bytes out.old ++ spec.defs_end) }
{
    out.push_str("</defs>\n")?;
    Ok(())
}

#[tactic(auto, unfolding(crate::specs::Style::text_styles))]
fn put_text_styles(out: &mut String) -> Result<(), NoMemory>
    ensures { OnOk result (string_bytes out.new ≡ string_bytes out.old ++ spec.text_styles) }
{
    let text = "text{font:11px ui-monospace,Menlo,Consolas,'DejaVu Sans Mono',monospace}\n\
        text{fill:#1d2127}.end{text-anchor:end}.mid{text-anchor:middle}\n\
        .big,.head{font-weight:bold}.big{font-size:13px}.head{font-size:14px}\n\
        .full,tspan.c{font-weight:bold}.small{font-size:10px}.tiny{font-size:9px}\n\
        .dim,.tiny{fill:#6a717c}.bad,.tbad{fill:#c2371c}\n\
        .label tspan{paint-order:stroke;stroke:#fff;stroke-width:3}\n\
        .label .tbadge{font-weight:bold;fill:#fff;stroke:#1d2127;stroke-width:9}\n\
        tspan{stroke-linejoin:round}\n";
    out.push_str(text)?;
    Ok(())
}

#[tactic(auto, unfolding(crate::specs::Style::line_styles))]
fn put_line_styles(out: &mut String) -> Result<(), NoMemory>
    ensures { OnOk result (string_bytes out.new ≡ string_bytes out.old ++ spec.line_styles) }
{
    let text = "path{fill:none}.page{fill:#fff}.guide{stroke:#d0d5dc;stroke-dasharray:1 3}\n\
        .lane{stroke:#c3cfe2;stroke-width:6}.gap{stroke:#fff;stroke-width:8}\n\
        .lane.bad{stroke:#c2371c;stroke-width:2;stroke-dasharray:6 4}\n\
        .stopped{stroke:#c2371c;stroke-width:2;stroke-dasharray:2 4}\n\
        .link,.block{stroke:#1d2127}.link{stroke-width:2}.block{fill:#eef2f8}\n\
        .mark,.arrow{stroke-width:1.4}.arrow.c{stroke-width:2.8}\n\
        .arrow.z{stroke-dasharray:6 3}.arrow.arrow.stub{marker-end:url(#end)}\n\
        .mark.ink{stroke:#1d2127;fill:#1d2127}.mark.bad{stroke:#c2371c;fill:#fff}\n";
    out.push_str(text)?;
    Ok(())
}

fn put_colours(out: &mut String) -> Result<(), NoMemory>
    ensures { OnOk result (string_bytes out.new ≡ string_bytes out.old ++ spec.colours) }
{
    put_class(out, "b", "#2c58f9")?;
    put_class(out, "n", "#137a5a")?;
    put_class(out, "x", "#ed620d")?;
    put_class(out, "f", "#914fa5")?;
    put_class(out, "a", "#766638")?;
    put_class(out, "j", "#868b94")?;
    put_class(out, "g", "#9aa0a8")?;
    Ok(())
}

fn put_class(out: &mut String, class: &str, colour: &str) -> Result<(), NoMemory>
    ensures { OnOk result
        (string_bytes out.new ≡ string_bytes out.old ++ spec.class_text class.now colour.now) }
{
    put_colour(out, class, colour)?;
    put_head(out, class)
}

#[tactic(auto, unfolding(crate::specs::Style::colour_text))]
fn put_colour(out: &mut String, class: &str, colour: &str) -> Result<(), NoMemory>
    ensures { OnOk result
        (string_bytes out.new ≡ string_bytes out.old ++ spec.colour_text class.now colour.now) }
{
    write!(
        out,
        ".arrow.{class},.mark.{class}{{stroke:{colour}}}.mark.{class},.t{class}{{fill:{colour}}}\n"
    )?;
    Ok(())
}

#[tactic(auto, unfolding(crate::specs::Style::head_text))]
fn put_head(out: &mut String, class: &str) -> Result<(), NoMemory>
    ensures { OnOk result
        (string_bytes out.new ≡ string_bytes out.old ++ spec.head_text class.now) }
{
    write!(out, ".arrow.{class}{{marker-end:url(#m{class})}}\n")?;
    Ok(())
}

fn put_tips(out: &mut String) -> Result<(), NoMemory>
    ensures { OnOk result (string_bytes out.new ≡ string_bytes out.old ++ spec.tips) }
{
    put_tip(out, "b")?;
    put_tip(out, "n")?;
    put_tip(out, "x")?;
    put_tip(out, "f")?;
    put_tip(out, "a")?;
    put_tip(out, "j")?;
    put_tip(out, "g")?;
    Ok(())
}

#[tactic(auto, unfolding(crate::specs::Style::tip_text))]
fn put_tip(out: &mut String, class: &str) -> Result<(), NoMemory>
    ensures { OnOk result
        (string_bytes out.new ≡ string_bytes out.old ++ spec.tip_text class.now) }
{
    write!(
        out,
        "<marker id='m{class}' viewBox='0 0 10 10' refX='13' refY='5' \
         markerWidth='8' markerHeight='8' markerUnits='userSpaceOnUse' orient='auto'>\
         <path d='M0 1L10 5L0 9z' class='mark {class}'/></marker>\n"
    )?;
    Ok(())
}

#[tactic(auto, unfolding(crate::specs::Style::shapes))]
fn put_shapes(out: &mut String) -> Result<(), NoMemory>
    ensures { OnOk result (string_bytes out.new ≡ string_bytes out.old ++ spec.shapes) }
{
    let text = "<marker id='end' viewBox='0 0 6 6' refX='3' refY='3' markerWidth='6'\n\
        markerHeight='6' markerUnits='userSpaceOnUse'>\n\
        <circle cx='3' cy='3' r='2' class='mark g'/></marker>\n\
        <circle id='dot' r='4'/><circle id='ring' r='4' fill-opacity='0'/>\n\
        <rect id='box' x='-5' y='-5' width='10' height='10'/>\n\
        <path id='gem' d='M0 -6L6 0L0 6L-6 0z' style='fill:inherit'/>\n\
        <path id='tri' d='M-5 4L5 4L0 -5z' style='fill:inherit'/>\n\
        <path id='cross' d='M-6 -6L6 6M-6 6L6 -6' stroke-width='3'/>\n\
        <path id='void' d='M-3 -3L3 3M-3 3L3 -3'/>\n";
    out.push_str(text)?;
    Ok(())
}
