//! Intervals as ranges.

ghost use Rattle.std.specs.Prelude.{◌≡◌, ◌↔◌, ◌++◌, ℕ, IfOk, OnOk, string_bytes};
ghost use Rattle.om_look.specs.Spans.{AreApart, IsCovered, spans_text};
ghost use Rattle.om_look.specs.steps.Ranges.{span_line};
ghost use Rattle.om_look.specs.steps.Adding.{Adds};
ghost use Rattle.om_look.specs.steps.Found.{AreOrdered, LiesBehindOne};

use crate::gathering::Found;
use std::alloc::{AllocError, Global};
use std::fmt::Write;

/// The intervals from `first` to the one before `stop`.
#[derive(Clone, Copy, Debug, PartialEq, Eq)]
pub struct Span {
    pub first: u64,
    pub stop: u64,
}

// Returns the ranges of the intervals that lie behind one of these checkpoints.
pub(crate) fn spans_of(alloc: Global, found: &[Found]) -> Result<Vec<Span>, AllocError>
    ensures apart { AreOrdered 0 found.now → IfOk result (λ spans. AreApart 0 spans.items) }
    ensures covered { AreOrdered 0 found.now
        → IfOk result (λ spans. (y : ℕ) → IsCovered spans.items y ↔ LiesBehindOne found.now y) }
{
    let mut spans = Vec::new(alloc);
    for f in found {
        add(&mut spans, u64::from(f.interval), f.stop)?;
    }
    Ok(spans)
}

// Adds the intervals from `first` to the one before `stop`, if there are any.
fn add(spans: &mut Vec<Span>, first: u64, stop: u64) -> Result<(), AllocError>
    ensures { OnOk result (Adds spans.old.items first stop spans.new.items) }
{
    if stop <= first {
        return Ok(());
    }
    let Some(last) = spans.pop() else {
        spans.push(Span { first, stop })?;
        return Ok(());
    };
    if last.stop == first {
        spans.push(Span {
            first: last.first,
            stop,
        })?;
        return Ok(());
    }
    spans.push(last)?;
    spans.push(Span { first, stop })?;
    Ok(())
}

// Writes a line for each range.
pub(crate) fn push_spans(text: &mut String, spans: &[Span]) -> Result<(), AllocError>
    ensures { OnOk result (string_bytes text.new ≡ string_bytes text.old ++ spans_text spans.now) }
{
    for span in spans {
        push_span(text, *span)?;
    }
    Ok(())
}

fn push_span(text: &mut String, span: Span) -> Result<(), AllocError>
    ensures { OnOk result (string_bytes text.new ≡ string_bytes text.old ++ span_line span) }
{
    let first = span.first;
    let last = span.stop.saturating_sub(1);
    write!(text, "replay {first} to {last}\n")
}
