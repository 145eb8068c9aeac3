//! The text of words.

ghost use Rattle.std.specs.Prelude.{◌≡◌, [], ◌++◌, OnOk, string_bytes};
ghost use Rattle.std.specs.Option.{option_map, unwrap_or};
ghost use Rattle.om_svg.specs.WordText.{bytes_text, label_text, end_state_text, style_text, content_text, sheet_word_text};

use crate::answer_text::{push_recovery, why_word};
use om_event_text::push_status;
use om_scripts::Programs;
use om_sheet::{EndState, LABEL_BYTES, Label, LabelContent, Style, Word};
use std::alloc::{AllocError, Global};
use std::fmt::Write;

fn style_text(style: Style) -> &'static str
    ensures { result.now ≡ style_text style }
{
    match style {
        Style::Plain => "",
        Style::Small => " class=\"s\"",
        Style::Grey => " class=\"y\"",
        Style::Middle => " class=\"p\"",
    }
}

/// Writes a word.
pub fn push_word(
    alloc: Global,
    text: &mut String,
    programs: &Programs,
    word: &Word,
) -> Result<(), AllocError>
    ensures { OnOk result (string_bytes text.new ≡ string_bytes text.old ++ sheet_word_text programs.now word.now) }
{
    let style = style_text(word.style);
    let x = word.x;
    let y = word.y;
    write!(text, "<text{style} x=\"{x}\" y=\"{y}\">")?;
    push_what(alloc, text, programs, word.what)?;
    text.push_str("</text>\n")
}

fn push_what(
    alloc: Global,
    text: &mut String,
    programs: &Programs,
    what: LabelContent,
) -> Result<(), AllocError>
    ensures { OnOk result (string_bytes text.new ≡ string_bytes text.old ++ content_text programs.now what) }
{
    match what {
        LabelContent::Number(number) => write!(text, "{number}"),
        LabelContent::Inc(inc) => write!(text, "inc {inc}"),
        LabelContent::Round(round) => write!(text, "round {round}"),
        LabelContent::Gathering => text.push_str("gathering"),
        LabelContent::Recovery(state) => push_recovery(text, state.as_slice()),
        LabelContent::Place(place) => write!(text, "recovery {place}"),
        LabelContent::Output { label, more } => push_label(alloc, text, label, more),
        LabelContent::End(status) => push_status(text, status),
        LabelContent::Why(answer) => text.push_str(why_word(answer)),
        LabelContent::EndState(end_state) => push_end_state(text, end_state),
        LabelContent::Name(p) => push_name(text, programs.name(p)),
        LabelContent::Program(p) => push_name(text, programs.program_of(p)),
        LabelContent::Line => text.push_str("line"),
    }
}

// Writes a name, if there is one.
fn push_name(text: &mut String, name: Option<&str>) -> Result<(), AllocError>
    ensures { OnOk result (string_bytes text.new ≡ string_bytes text.old ++ unwrap_or (option_map (λ name. name.now) name.entry) []) }
{
    match name {
        Some(name) => text.push_str(name),
        None => Ok(()),
    }
}

// Writes the label of an output, and how many more there are.
fn push_label(alloc: Global, text: &mut String, label: Label, more: u64) -> Result<(), AllocError>
    ensures { OnOk result (string_bytes text.new ≡ string_bytes text.old ++ label_text label more) }
{
    push_bytes(alloc, text, label)?;
    if more == 0 {
        return Ok(());
    }
    write!(text, "+{more}")
}

// Writes the first bytes of an output in hexadecimal.
fn push_bytes(alloc: Global, text: &mut String, label: Label) -> Result<(), AllocError>
    ensures { OnOk result (string_bytes text.new ≡ string_bytes text.old ++ bytes_text label) }
{
    if label.size == 0 {
        return text.push('-');
    }
    if label.size <= LABEL_BYTES {
        return text.push_str(&hex::encode(alloc, &label.bytes[..label.size])?);
    }
    text.push_str(&hex::encode(alloc, &label.bytes[..LABEL_BYTES - 1])?)?;
    text.push_str("..")
}

fn push_end_state(text: &mut String, end_state: Option<EndState>) -> Result<(), AllocError>
    ensures { OnOk result (string_bytes text.new ≡ string_bytes text.old ++ end_state_text end_state) }
{
    let Some(now) = end_state else {
        return text.push_str("down");
    };
    let inc = now.inc;
    let interval = now.interval;
    write!(text, "inc {inc} interval {interval} ")?;
    push_status(text, now.status)
}
