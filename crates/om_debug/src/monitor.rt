//! What commands of the user are told.

ghost use Rattle.std.specs.Prelude.{◌≡◌, ◌++◌, ◌-◌, IfOk, OnOk, Some, slice_get, string_bytes};
ghost use Rattle.std.specs.List.{flat_map, range_with_len};
ghost use Rattle.om_debug.specs.Monitor.{doing_text, done_text, event_if, event_line, events_text, mark, process_line, time_line, where_text};

use crate::debugger::Debugger;
use om_event_text::push_event;
use om_world::Event;
use std::alloc::AllocError;

/// What `monitor help` is told.
pub const HELP: &str =
    "where            the event, and how the process stands\nevents           the events around here\ngoto EVENT       go to before an event; then: maintenance flush register-cache\nhelp             this\n";

// How many events are told before the next one, and how many from it on.
const EVENTS_BEFORE: usize = 5;

const EVENTS_FROM: usize = 6;

// Returns how an event is marked.
fn mark(is_next: bool) -> &'static str
    ensures { result.now ≡ mark is_next }
{
    if is_next { "=> " } else { "   " }
}

// Writes the event of a number, if there is one.
fn push_event_at(out: &mut String, events: &[Event], event: usize) -> Result<(), AllocError>
    ensures { OnOk result (string_bytes out.new ≡ string_bytes out.old ++ event_if (slice_get events.now event)) }
{
    match events.get(event) {
        Some(event) => push_event(out, *event),
        None => Ok(()),
    }
}

// Writes the line of an event, which is marked where it is the next one.
fn push_line(
    out: &mut String,
    events: &[Event],
    next: usize,
    event: usize,
) -> Result<(), AllocError>
    ensures { OnOk result (string_bytes out.new ≡ string_bytes out.old ++ event_line events.now next event) }
{
    out.push_str(mark(event == next))?;
    write!(out, "{event} ")?;
    push_event_at(out, events, event)?;
    out.push_str("\n")
}

// Writes the lines of the events from one on, up to before another.
fn push_lines(
    out: &mut String,
    events: &[Event],
    next: usize,
    first: usize,
    end: usize,
) -> Result<(), AllocError>
    ensures { OnOk result (string_bytes out.new ≡ string_bytes out.old ++ flat_map (event_line events.now next) (range_with_len first (end - first))) }
{
    for event in first..end {
        push_line(out, events, next, event)?;
    }
    Ok(())
}

fn push_done(out: &mut String, turns: u64) -> Result<(), AllocError>
    ensures { OnOk result (string_bytes out.new ≡ string_bytes out.old ++ done_text turns) }
{
    write!(out, ", {turns} instructions done")
}

// Writes an event, and how many of its instructions are done.
fn push_doing(out: &mut String, event: Event, turns: u64) -> Result<(), AllocError>
    ensures { OnOk result (string_bytes out.new ≡ string_bytes out.old ++ doing_text turns (Some event)) }
{
    out.push_str(": ")?;
    push_event(out, event)?;
    push_done(out, turns)
}

// Writes the event of a number, if there is one, and how many of its instructions are done.
fn push_next(out: &mut String, events: &[Event], event: usize, turns: u64) -> Result<(), AllocError>
    ensures { OnOk result (string_bytes out.new ≡ string_bytes out.old ++ doing_text turns (slice_get events.now event)) }
{
    match events.get(event) {
        Some(event) => push_doing(out, *event, turns),
        None => Ok(()),
    }
}

impl Debugger {
    // Returns where time and the process stand.
    pub(crate) fn told_where(&self) -> Result<String, AllocError>
        ensures { IfOk result (λ said. string_bytes said ≡ where_text self.now) }
    {
        let mut said = String::new(self.alloc);
        self.push_event_here(&mut said)?;
        self.push_standing(&mut said)?;
        Ok(said)
    }

    /// Writes a line of the next event, and how many of its instructions are done. Refused only where memory ran out.
    pub fn push_event_here(&self, said: &mut String) -> Result<(), AllocError>
        ensures { OnOk result (string_bytes said.new ≡ string_bytes said.old ++ time_line self.now.timeline) }
    {
        let at = self.timeline.position();
        let events = self.timeline.events();
        let (event, count) = (at.event, events.len());
        write!(said, "event {event} of {count}")?;
        push_next(said, events, event, at.turns)?;
        said.push_str("\n")
    }

    /// Writes a line of how the process stands, and how many instructions it has finished. Refused only where memory ran out.
    pub fn push_standing(&self, said: &mut String) -> Result<(), AllocError>
        ensures { OnOk result (string_bytes said.new ≡ string_bytes said.old ++ process_line self.now) }
    {
        said.push_str(&self.name)?;
        said.push_str(": ")?;
        said.push_str(&self.standing_text()?)?;
        let done = self.timeline.machine().count();
        write!(said, ", {done} instructions\n")
    }

    /// Tells the events around here, of which the next is marked. Refused only where memory ran out.
    pub fn told_events(&self) -> Result<String, AllocError>
        ensures { IfOk result (λ said. string_bytes said ≡ events_text self.now.timeline) }
    {
        let events = self.timeline.events();
        let here = self.timeline.position().event;
        let first = here.saturating_sub(EVENTS_BEFORE);
        let end = events.len().min(here.saturating_add(EVENTS_FROM));
        let mut said = String::new(self.alloc);
        push_lines(&mut said, events, here, first, end)?;
        Ok(said)
    }
}
