//! The text of events: lines of a script of `sim`.

ghost use Rattle.std.specs.Prelude.{◌≡◌, ◌++◌, ◌∷◌, [], IfOk, OnOk, string_bytes};
ghost use Rattle.om_run_commands.specs.EventText.{events_text};
ghost use Rattle.om_world.specs.Texts.{event_text};

use om_event_text::push_event;
use om_world::Event;
use std::alloc::{AllocError, Global};

// Writes the line of an event.
pub(crate) fn push_line(text: &mut String, event: Event) -> Result<(), AllocError>
    ensures { OnOk result (string_bytes text.new ≡ string_bytes text.old ++ event_text event ++ 10 ∷ []) }
{
    push_event(text, event)?;
    text.push('\n')
}

/// Returns the lines of a script of `sim` that tell what is to happen, one for each event.
pub fn events_text(alloc: Global, events: &[Event]) -> Result<String, AllocError>
    ensures { IfOk result (λ text. string_bytes text ≡ events_text events.now) }
{
    let mut text = String::new(alloc);
    push_events(&mut text, events)?;
    Ok(text)
}

// Writes a line for each event.
fn push_events(text: &mut String, events: &[Event]) -> Result<(), AllocError>
    ensures { OnOk result (string_bytes text.new ≡ string_bytes text.old ++ events_text events.now) }
{
    for event in events {
        push_line(text, *event)?;
    }
    Ok(())
}
