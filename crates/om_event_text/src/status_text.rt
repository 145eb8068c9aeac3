//! The text of what a process is about to do.

ghost use Rattle.std.specs.Prelude.{◌≡◌, ◌++◌, OnOk, string_bytes};
ghost use Rattle.om_world.specs.Texts.{status_text};

use om_process::Status;
use std::alloc::AllocError;
use std::fmt::Write;

/// Writes what a process is about to do: `ready`, `waiting`, `ended CODE` or `trapped CAUSE`. Refused only where memory runs out.
pub fn push_status(text: &mut String, status: Status) -> Result<(), AllocError>
    ensures { OnOk result (string_bytes text.new ≡ string_bytes text.old ++ status_text status) }
{
    match status {
        Status::Ready => text.push_str("ready"),
        Status::Waiting => text.push_str("waiting"),
        Status::Ended(code) => write!(text, "ended {code}"),
        Status::Trapped(cause) => {
            let number = cause.number();
            write!(text, "trapped {number}")
        }
    }
}
