//! The text of a whole picture.

ghost use Rattle.std.specs.Prelude.{◌≡◌, ◌++◌, IfOk, OnOk, string_bytes};
ghost use Rattle.std.specs.List.{flat_map};
ghost use Rattle.om_svg.specs.PictureText.{head_text, key_text, layers_text, legend_text, open_text, picture_text, styles_text, summary_text};
ghost use Rattle.om_svg.specs.steps.Sheets.{failed_text, failure_count, ground_height, ground_text, ground_width, moved_text, outputs_text, refused_count, resent_count, sent_count, sent_text, shown_count, shown_text, size_text, svg_height, svg_width, taken_count, taken_text, view_text};
ghost use Rattle.om_svg.specs.ShapeText.{band_text, crossing_text, segment_text, shape_text, message_line_text};
ghost use Rattle.om_svg.specs.WordText.{sheet_word_text};

use crate::shape_text::{push_band, push_crossing, push_message_line, push_segment, push_shape};
use crate::word_text::push_word;
use om_scripts::Programs;
use om_sheet::{Band, Counts, Crossing, Drawn, LaneSegment, MessageLine, Shape, Sheet, Word};
use std::alloc::{AllocError, Global};
use std::fmt::Write;

/// How the classes of marks look.
pub const STYLE: &str = "\
<style>
text{font:10px monospace;fill:#222;paint-order:stroke;stroke:#fff;stroke-width:3px;stroke-linejoin:round}
path{fill:none}
.t{font:bold 12px monospace}
.s{font-size:9px;fill:#444}
.y{font-size:9px;fill:#767676}
.p{font-size:9px;fill:#767676;text-anchor:middle}
.b{fill:#f0ece2;stroke:#b9ad90}
.u0{stroke:#222;stroke-width:3}
.u1{stroke:#0072b2;stroke-width:3}
.u2{stroke:#d98c00;stroke-width:3}
.w{stroke:#222}
.d{stroke:#767676;stroke-width:2;stroke-dasharray:1 4;stroke-linecap:round}
.c{stroke:#aaa;stroke-width:3;stroke-dasharray:5 3}
.m{stroke:#444;marker-end:url(#a)}
.n{stroke:#444;stroke-dasharray:6 3;marker-end:url(#a)}
.mx{stroke:#aaa;marker-end:url(#g)}
.nx{stroke:#aaa;stroke-dasharray:6 3;marker-end:url(#g)}
.o{stroke:#999;stroke-dasharray:1 3}
.q{stroke:#767676}
.l{fill:#222;stroke:#222}
.v{fill:#fff;stroke:#222;stroke-width:1.5}
.lx{fill:#aaa;stroke:#aaa}
.vx{fill:#fff;stroke:#aaa;stroke-width:1.5}
.h{fill:#fff;stroke:#555}
.f{stroke:#b00020;stroke-width:4}
.k{stroke:#222;stroke-width:2}
.kx{stroke:#aaa;stroke-width:2}
.i{stroke:#222}
.r{stroke:#b00020;stroke-width:2;stroke-dasharray:9 3 2 3;stroke-linejoin:round}
.j{stroke:#007a5e;stroke-width:2;stroke-dasharray:3 3;stroke-linejoin:round}
</style>
<defs>
<marker id=\"a\" viewBox=\"0 0 8 8\" refX=\"13\" refY=\"4\" markerWidth=\"8\" markerHeight=\"8\" orient=\"auto\" \
markerUnits=\"userSpaceOnUse\"><path d=\"M0 0L8 4 0 8z\" style=\"fill:#444\"/></marker>
<marker id=\"g\" viewBox=\"0 0 8 8\" refX=\"13\" refY=\"4\" markerWidth=\"8\" markerHeight=\"8\" orient=\"auto\" \
markerUnits=\"userSpaceOnUse\"><path d=\"M0 0L8 4 0 8z\" style=\"fill:#aaa\"/></marker>
</defs>
";

/// What the marks mean.
pub const LEGEND: &str = "\
<text class=\"t\" x=\"0\" y=\"0\">Legend</text>
<path class=\"u0\" d=\"M0 18H14\"/><path class=\"u1\" d=\"M14 18H28\"/><path class=\"u2\" d=\"M28 18H42\"/>\
<text x=\"52\" y=\"21\">up, by incarnation</text>
<path class=\"w\" d=\"M0 36H42\"/><text x=\"52\" y=\"39\">joined, waits for the round</text>
<path class=\"d\" d=\"M0 54H42\"/><text x=\"52\" y=\"57\">down</text>
<path class=\"c\" d=\"M0 72H42\"/><circle class=\"vx\" cx=\"12\" cy=\"72\" r=\"4\"/><circle class=\"lx\" cx=\"31\" cy=\"72\" r=\"4\"/>\
<text x=\"52\" y=\"75\">cut by a round: lost, orphan</text>
<path class=\"u0\" d=\"M0 90H42\"/><path class=\"l\" d=\"M17 84l10 6-10 6z\"/><text x=\"52\" y=\"93\">back, in a new incarnation</text>
<path class=\"u0\" d=\"M0 108H42\"/><path class=\"v\" d=\"M17 102l10 6-10 6z\"/><text x=\"52\" y=\"111\">goes on as it was</text>
<path class=\"u0\" d=\"M270 18H312\"/><circle class=\"v\" cx=\"291\" cy=\"18\" r=\"4\"/><text x=\"296\" y=\"13\">1</text>\
<text x=\"322\" y=\"21\">receipt, in memory only; its interval</text>
<path class=\"u0\" d=\"M270 36H312\"/><circle class=\"l\" cx=\"291\" cy=\"36\" r=\"4\"/><text x=\"322\" y=\"39\">receipt, stored</text>
<path class=\"u0\" d=\"M270 52H312\"/><path class=\"i\" d=\"M280 58v3H302v-3\"/>\
<text x=\"322\" y=\"57\">a flush stores the receipts since</text>
<path class=\"u0\" d=\"M270 72H312\"/><rect class=\"l\" x=\"286\" y=\"67\" width=\"10\" height=\"10\"/>\
<text x=\"322\" y=\"75\">checkpoint</text>
<path class=\"f\" d=\"M285 84l12 12m0-12l-12 12\"/><text x=\"322\" y=\"93\">fails</text>
<path class=\"u0\" d=\"M270 108H312\"/><path class=\"k\" d=\"M291 101v14\"/><text x=\"322\" y=\"111\">joins, or its program ends</text>
<path class=\"m\" d=\"M560 14L614 20\"/><text x=\"622\" y=\"21\">message</text>
<path class=\"n\" d=\"M560 32L614 38\"/><text x=\"622\" y=\"39\">message that was sent again</text>
<path class=\"q\" d=\"M583 58l8-11m-3-2l6 4\"/><text x=\"622\" y=\"57\">never given; how many, if more</text>
<path class=\"o\" d=\"M560 70L587 72\"/><path class=\"h\" d=\"M587 67l5 5-5 5-5-5z\"/><text x=\"622\" y=\"75\">refused, and why</text>
<path class=\"k\" d=\"M568 97v-13\"/><path class=\"v\" d=\"M564 84l4-6 4 6z\"/><path class=\"o\" d=\"M573 81H587\"/>\
<path class=\"l\" d=\"M586 84l4-6 4 6z\"/><path class=\"k\" d=\"M608 97v-13m-4 0h8\"/>\
<text x=\"622\" y=\"93\">output: held, released; made again</text>
<rect class=\"b\" x=\"560\" y=\"100\" width=\"18\" height=\"15\"/><path class=\"r\" d=\"M587 99l4 18\"/>\
<path class=\"j\" d=\"M602 99l4 18\"/><text x=\"622\" y=\"111\">round; recovery line of it, of the end</text>
";

#[tactic(auto, unfolding(crate::specs::PictureText::styles_text))]
fn style() -> &'static str
    ensures { result.now ≡ styles_text }
{
    STYLE
}

#[tactic(auto, unfolding(crate::specs::PictureText::key_text))]
fn key() -> &'static str
    ensures { result.now ≡ key_text }
{
    LEGEND
}

/// Makes the text of a picture.
#[tactic(auto, unfolding(crate::specs::PictureText::picture_text))]
pub fn picture_text(alloc: Global, programs: &Programs, drawn: &Drawn) -> Result<String, AllocError>
    ensures { IfOk result (λ text. string_bytes text ≡ picture_text programs.now drawn.now) }
{
    let mut text = String::new(alloc);
    push_open(&mut text, drawn)?;
    push_layers(&mut text, &drawn.sheet, drawn.bottom)?;
    push_shapes(&mut text, &drawn.marks)?;
    push_head(&mut text, drawn)?;
    push_words(alloc, &mut text, programs, &drawn.sheet.text)?;
    push_legend(&mut text, drawn)?;
    Ok(text)
}

fn push_open(text: &mut String, drawn: &Drawn) -> Result<(), AllocError>
    ensures { OnOk result (string_bytes text.new ≡ string_bytes text.old ++ open_text drawn.now) }
{
    push_size(text, drawn)?;
    push_view(text, drawn)?;
    push_summary(text, drawn)?;
    text.push_str("</title>\n")?;
    text.push_str(style())?;
    push_ground(text, drawn)
}

fn push_size(text: &mut String, drawn: &Drawn) -> Result<(), AllocError>
    ensures { OnOk result (string_bytes text.new ≡ string_bytes text.old ++ size_text drawn.now) }
{
    push_svg_width(text, drawn.width)?;
    push_svg_height(text, drawn.height)
}

#[tactic(auto, unfolding(crate::specs::steps::Sheets::svg_width))]
fn push_svg_width(text: &mut String, wide: u32) -> Result<(), AllocError>
    ensures { OnOk result (string_bytes text.new ≡ string_bytes text.old ++ svg_width wide) }
{
    write!(
        text,
        "<svg xmlns=\"http://www.w3.org/2000/svg\" width=\"{wide}"
    )
}

#[tactic(auto, unfolding(crate::specs::steps::Sheets::svg_height))]
fn push_svg_height(text: &mut String, high: u32) -> Result<(), AllocError>
    ensures { OnOk result (string_bytes text.new ≡ string_bytes text.old ++ svg_height high) }
{
    write!(text, "\" height=\"{high}")
}

#[tactic(auto, unfolding(crate::specs::steps::Sheets::view_text))]
fn push_view(text: &mut String, drawn: &Drawn) -> Result<(), AllocError>
    ensures { OnOk result (string_bytes text.new ≡ string_bytes text.old ++ view_text drawn.now) }
{
    let wide = drawn.width;
    let high = drawn.height;
    write!(text, "\" viewBox=\"0 0 {wide} {high}\">\n<title>")
}

#[tactic(auto, unfolding(crate::specs::PictureText::summary_text))]
fn push_summary(text: &mut String, drawn: &Drawn) -> Result<(), AllocError>
    ensures { OnOk result (string_bytes text.new ≡ string_bytes text.old ++ summary_text drawn.now) }
{
    let n = drawn.lanes;
    let events = drawn.counts.events;
    let rounds = drawn.counts.rounds;
    write!(
        text,
        "omlog sim: processes {n}, events {events}, rounds {rounds}"
    )
}

fn push_ground(text: &mut String, drawn: &Drawn) -> Result<(), AllocError>
    ensures { OnOk result (string_bytes text.new ≡ string_bytes text.old ++ ground_text drawn.now) }
{
    push_ground_width(text, drawn.width)?;
    push_ground_height(text, drawn.height)
}

#[tactic(auto, unfolding(crate::specs::steps::Sheets::ground_width))]
fn push_ground_width(text: &mut String, wide: u32) -> Result<(), AllocError>
    ensures { OnOk result (string_bytes text.new ≡ string_bytes text.old ++ ground_width wide) }
{
    write!(text, "<rect width=\"{wide}")
}

#[tactic(auto, unfolding(crate::specs::steps::Sheets::ground_height))]
fn push_ground_height(text: &mut String, high: u32) -> Result<(), AllocError>
    ensures { OnOk result (string_bytes text.new ≡ string_bytes text.old ++ ground_height high) }
{
    write!(text, "\" height=\"{high}\" fill=\"#fff\"/>\n")
}

fn push_head(text: &mut String, drawn: &Drawn) -> Result<(), AllocError>
    ensures { OnOk result (string_bytes text.new ≡ string_bytes text.old ++ head_text drawn.now) }
{
    text.push_str("<text class=\"t\" x=\"16\" y=\"20\">")?;
    push_summary(text, drawn)?;
    text.push_str("</text>\n<text class=\"s\" x=\"16\" y=\"34\">")?;
    push_sent(text, &drawn.counts)?;
    push_failed(text, &drawn.counts)?;
    push_outputs(text, &drawn.counts)?;
    text.push_str("</text>\n")
}

fn push_sent(text: &mut String, counts: &Counts) -> Result<(), AllocError>
    ensures { OnOk result (string_bytes text.new ≡ string_bytes text.old ++ sent_text counts.now) }
{
    push_shown(text, counts)?;
    push_taken(text, counts)
}

fn push_shown(text: &mut String, counts: &Counts) -> Result<(), AllocError>
    ensures { OnOk result (string_bytes text.new ≡ string_bytes text.old ++ shown_text counts.now) }
{
    push_shown_count(text, counts)?;
    push_sent_count(text, counts)
}

#[tactic(auto, unfolding(crate::specs::steps::Sheets::shown_count))]
fn push_shown_count(text: &mut String, counts: &Counts) -> Result<(), AllocError>
    ensures { OnOk result (string_bytes text.new ≡ string_bytes text.old ++ shown_count counts.now) }
{
    let shown = counts.shown;
    write!(text, "events shown {shown}")
}

#[tactic(auto, unfolding(crate::specs::steps::Sheets::sent_count))]
fn push_sent_count(text: &mut String, counts: &Counts) -> Result<(), AllocError>
    ensures { OnOk result (string_bytes text.new ≡ string_bytes text.old ++ sent_count counts.now) }
{
    let sent = counts.sent;
    write!(text, "; messages sent {sent}")
}

fn push_taken(text: &mut String, counts: &Counts) -> Result<(), AllocError>
    ensures { OnOk result (string_bytes text.new ≡ string_bytes text.old ++ taken_text counts.now) }
{
    push_resent_count(text, counts)?;
    push_taken_count(text, counts)
}

#[tactic(auto, unfolding(crate::specs::steps::Sheets::resent_count))]
fn push_resent_count(text: &mut String, counts: &Counts) -> Result<(), AllocError>
    ensures { OnOk result (string_bytes text.new ≡ string_bytes text.old ++ resent_count counts.now) }
{
    let resent = counts.resent;
    write!(text, ", sent again {resent}")
}

#[tactic(auto, unfolding(crate::specs::steps::Sheets::taken_count))]
fn push_taken_count(text: &mut String, counts: &Counts) -> Result<(), AllocError>
    ensures { OnOk result (string_bytes text.new ≡ string_bytes text.old ++ taken_count counts.now) }
{
    let taken = counts.taken;
    write!(text, ", taken {taken}")
}

fn push_failed(text: &mut String, counts: &Counts) -> Result<(), AllocError>
    ensures { OnOk result (string_bytes text.new ≡ string_bytes text.old ++ failed_text counts.now) }
{
    push_refused_count(text, counts)?;
    push_failure_count(text, counts)
}

#[tactic(auto, unfolding(crate::specs::steps::Sheets::refused_count))]
fn push_refused_count(text: &mut String, counts: &Counts) -> Result<(), AllocError>
    ensures { OnOk result (string_bytes text.new ≡ string_bytes text.old ++ refused_count counts.now) }
{
    let refused = counts.refused;
    write!(text, ", refused {refused}")
}

#[tactic(auto, unfolding(crate::specs::steps::Sheets::failure_count))]
fn push_failure_count(text: &mut String, counts: &Counts) -> Result<(), AllocError>
    ensures { OnOk result (string_bytes text.new ≡ string_bytes text.old ++ failure_count counts.now) }
{
    let failures = counts.failures;
    write!(text, "; failures {failures}")
}

#[tactic(auto, unfolding(crate::specs::steps::Sheets::outputs_text))]
fn push_outputs(text: &mut String, counts: &Counts) -> Result<(), AllocError>
    ensures { OnOk result (string_bytes text.new ≡ string_bytes text.old ++ outputs_text counts.now) }
{
    let made = counts.made;
    let released = counts.released;
    let cut = counts.cut;
    write!(text, "; outputs {made}, released {released}, cut {cut}")
}

fn push_legend(text: &mut String, drawn: &Drawn) -> Result<(), AllocError>
    ensures { OnOk result (string_bytes text.new ≡ string_bytes text.old ++ legend_text drawn.now) }
{
    push_moved(text, drawn.legend)?;
    text.push_str(key())?;
    text.push_str("</g>\n</svg>\n")
}

#[tactic(auto, unfolding(crate::specs::steps::Sheets::moved_text))]
fn push_moved(text: &mut String, y: u32) -> Result<(), AllocError>
    ensures { OnOk result (string_bytes text.new ≡ string_bytes text.old ++ moved_text y) }
{
    write!(text, "<g transform=\"translate(16 {y})\">\n")
}

// Writes the layers below the marks, each before the next.
#[tactic(auto, unfolding(crate::specs::PictureText::layers_text))]
fn push_layers(text: &mut String, sheet: &Sheet, bottom: u32) -> Result<(), AllocError>
    ensures { OnOk result (string_bytes text.new ≡ string_bytes text.old ++ layers_text bottom sheet.now) }
{
    push_bands(text, &sheet.back, bottom)?;
    push_segments(text, &sheet.segment)?;
    push_message_lines(text, &sheet.send)?;
    push_crossings(text, &sheet.line)
}

fn push_bands(text: &mut String, bands: &[Band], bottom: u32) -> Result<(), AllocError>
    ensures { OnOk result (string_bytes text.new ≡ string_bytes text.old ++ flat_map (band_text bottom) bands.now) }
{
    for band in bands {
        push_band(text, *band, bottom)?;
    }
    Ok(())
}

fn push_segments(text: &mut String, segments: &[LaneSegment]) -> Result<(), AllocError>
    ensures { OnOk result (string_bytes text.new ≡ string_bytes text.old ++ flat_map segment_text segments.now) }
{
    for segment in segments {
        push_segment(text, *segment)?;
    }
    Ok(())
}

fn push_message_lines(text: &mut String, message_lines: &[MessageLine]) -> Result<(), AllocError>
    ensures { OnOk result (string_bytes text.new ≡ string_bytes text.old ++ flat_map message_line_text message_lines.now) }
{
    for message_line in message_lines {
        push_message_line(text, *message_line)?;
    }
    Ok(())
}

fn push_crossings(text: &mut String, crossings: &[Crossing]) -> Result<(), AllocError>
    ensures { OnOk result (string_bytes text.new ≡ string_bytes text.old ++ flat_map crossing_text crossings.now) }
{
    for crossing in crossings {
        push_crossing(text, crossing)?;
    }
    Ok(())
}

fn push_shapes(text: &mut String, shapes: &[Shape]) -> Result<(), AllocError>
    ensures { OnOk result (string_bytes text.new ≡ string_bytes text.old ++ flat_map shape_text shapes.now) }
{
    for shape in shapes {
        push_shape(text, shape)?;
    }
    Ok(())
}

fn push_words(
    alloc: Global,
    text: &mut String,
    programs: &Programs,
    words: &[Word],
) -> Result<(), AllocError>
    ensures { OnOk result (string_bytes text.new ≡ string_bytes text.old ++ flat_map (sheet_word_text programs.now) words.now) }
{
    for word in words {
        push_word(alloc, text, programs, word)?;
    }
    Ok(())
}
