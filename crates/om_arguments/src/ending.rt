//! The status that a command ends with, and the line that tells why it was refused.

ghost use Rattle.std.specs.Prelude.{◌≡◌, ◌≢◌, IsErr, IsOk};
ghost use Rattle.clap.specs.Values.{kind_of};
ghost use Rattle.std.specs.Process.{exit_status};

use clap::Error;
use clap::error::ErrorKind;
use std::fmt::Display;
use std::io;
use std::process::ExitCode;

const NO_MEMORY: &str = "no memory";

const CANNOT_WRITE: &str = "cannot write";

/// Ends a command: with 0 where it is done, and 1 where it was refused. An error goes to standard error as one line; where
/// that cannot be written, the status tells it alone.
pub fn end<R: Eprint, E: Display + Drop>(rt: &R, outcome: Result<(), E>) -> ExitCode
    ensures done { IsOk outcome → exit_status result ≡ 0 }
    ensures refused { IsErr outcome → exit_status result ≡ 1 }
{
    match outcome {
        Ok(()) => ExitCode::SUCCESS,
        Err(error) => {
            let _ = rt.eprintln(error);
            ExitCode::FAILURE
        }
    }
}

/// Ends where the words of the command line ask for nothing: a mistake goes to standard error, with 2. A help text or the version
/// that was asked for goes to standard output, with 0 where it could be written.
pub fn end_unasked<R: Print + Eprint>(rt: &R, error: &Error) -> ExitCode
    ensures memory { kind_of error.now ≡ ErrorKind.OutOfMemory → exit_status result ≡ 1 }
    ensures mistake { kind_of error.now ≢ ErrorKind.OutOfMemory → kind_of error.now ≢ ErrorKind.DisplayHelp
        → kind_of error.now ≢ ErrorKind.DisplayVersion → exit_status result ≡ 2 }
{
    if error.kind() == ErrorKind::OutOfMemory {
        return end(rt, Err(NO_MEMORY));
    }
    let printed = error.print(rt);
    if error.use_stderr() {
        return ExitCode::from(2);
    }
    end(rt, printed.map_err(|_| CANNOT_WRITE))
}

/// Ends where the words of the command line cannot be had: with 2 where they are no text.
pub fn end_unread<R: Eprint>(rt: &R, error: &io::Error) -> ExitCode {
    if error.kind() == io::ErrorKind::OutOfMemory {
        return end(rt, Err(NO_MEMORY));
    }
    let _ = rt.eprintln("error: the arguments are not text");
    ExitCode::from(2)
}
