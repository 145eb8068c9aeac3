//! Which processes of a run have ended, for whoever is told that it came to no end.

ghost use Rattle.std.specs.Prelude.{◌≡◌, ◌++◌, IfOk, OnOk, string_bytes};
ghost use Rattle.om_reasons.specs.Ends.{doing_line, ends_text, status_line};

use om_commands::name_of;
use om_observers::{Doing, Sight};
use om_process::Status;
use om_scripts::Programs;
use std::alloc::{AllocError, Global};
use std::fmt::Write;

/// Says which of these processes have ended, by what was seen of each last: a line for each, with its name and its code. Refused
/// where memory ran out.
pub fn ends_text(alloc: Global, programs: &Programs, sights: &[Sight]) -> Result<String, AllocError>
    ensures { IfOk result (λ text. string_bytes text ≡ ends_text programs.now sights.now) }
{
    let mut text = String::new(alloc);
    push_ends(&mut text, programs, sights)?;
    Ok(text)
}

// Writes a line for each process that has ended.
fn push_ends(text: &mut String, programs: &Programs, sights: &[Sight]) -> Result<(), AllocError>
    ensures { OnOk result (string_bytes text.new ≡ string_bytes text.old ++ ends_text programs.now sights.now) }
{
    for p in 0..sights.len() {
        push_end(text, name_of(programs, p), sights[p].doing)?;
    }
    Ok(())
}

// Writes the line of a process, where it has ended.
fn push_end(text: &mut String, name: &str, doing: Doing) -> Result<(), AllocError>
    ensures { OnOk result (string_bytes text.new ≡ string_bytes text.old ++ doing_line name.now doing) }
{
    match doing {
        Doing::Up(status) => push_status(text, name, status),
        _ => Ok(()),
    }
}

// Writes the line of a process with this status, where it has ended.
fn push_status(text: &mut String, name: &str, status: Status) -> Result<(), AllocError>
    ensures { OnOk result (string_bytes text.new ≡ string_bytes text.old ++ status_line name.now status) }
{
    match status {
        Status::Ended(code) => write!(text, "{name}: ended {code}\n"),
        _ => Ok(()),
    }
}
