//! The text of events.

ghost use Rattle.std.specs.Prelude.{◌≡◌, ◌++◌, OnOk, string_bytes};
ghost use Rattle.om_world.specs.Texts.{event_text};

use om_world::Event;
use std::alloc::AllocError;
use std::fmt::Write;

/// Writes an event, as a line of a script of `sim` without its end. Refused only where memory runs out.
pub fn push_event(text: &mut String, event: Event) -> Result<(), AllocError>
    ensures { OnOk result (string_bytes text.new ≡ string_bytes text.old ++ event_text event) }
{
    match event {
        Event::Run { process, fuel } => write!(text, "run {process} {fuel}"),
        Event::Give { process, frame } => write!(text, "give {process} {frame}"),
        Event::Flush { process } => write!(text, "flush {process}"),
        Event::FlushFirst { process, count } => write!(text, "flush {process} {count}"),
        Event::Checkpoint { process } => write!(text, "checkpoint {process}"),
        Event::Spell { process } => write!(text, "spell {process}"),
        Event::Resend { process } => write!(text, "resend {process}"),
        Event::Trim { process } => write!(text, "trim {process}"),
        Event::Fail { process } => write!(text, "fail {process}"),
        Event::Join { process } => write!(text, "join {process}"),
        Event::Resume { process } => write!(text, "resume {process}"),
        Event::Prune => text.push_str("prune"),
        Event::Restart => text.push_str("restart"),
    }
}
