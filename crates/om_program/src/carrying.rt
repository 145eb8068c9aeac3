//! What the words of the command line ask for is carried out.

ghost use Rattle.std.specs.Prelude.{◌≡◌};
ghost use Rattle.std.specs.Process.{exit_status};
ghost use Rattle.om_program.specs.steps.Ends.{status_of};

use crate::answering::answer;
use om_arguments::{Asked, Request, end, end_unasked, end_unread, parse};
use om_commands::CommandError;
use om_debug_command::DebugError;
use om_image::{ImageError, image};
use om_outcomes::{Failure, Reasons, source_of};
use om_reasons::{advice_on, rule_of};
use om_text::LineError;
use std::convert::AsStr;
use std::process::ExitCode;
use std::rt::Runtime;
use std::sync::Wait;
use std::thread::Threads;
use std::time::Clock;
use std::{env, io};

// The status of a program whose standard output was closed: that of one that the signal 13, SIGPIPE, ended.
const CLOSED_PIPE: u8 = 128 + 13;

/// Runs the program on its arguments and standard streams: the status is 0 where it is done, 1 where a command was refused, 2 where the
/// arguments were, and 141 where whoever reads standard output has closed it.
///
/// `threads` is the same runtime, which only `main` may have start threads and wait.
pub fn run<R: Threads + Wait + Clock + Eprint + Copy + Send + Sync + 'static>(
    rt: &HostRuntime,
    threads: &R,
) -> ExitCode {
    let words = match words(rt) {
        Ok(words) => words,
        Err(error) => return end_unread(rt, &error),
    };
    run_words(rt, threads, &words)
}

/// Runs the program on these words, of which the first is its name, and on its standard streams, with the statuses of [`run`].
pub fn run_words<R: Threads + Wait + Clock + Eprint + Copy + Send + Sync + 'static, S: AsStr>(
    rt: &HostRuntime,
    threads: &R,
    words: &[S],
) -> ExitCode {
    match parse(rt.alloc(), words) {
        Ok(asked) => {
            let mut reasons = Reasons::new(rt, asked.verbose);
            let status = ended(rt, threads, &asked, &mut reasons);
            reasons.say(rt);
            status
        }
        Err(error) => end_unasked(rt, &error),
    }
}

// Carries out what is asked, and ends it.
fn ended<R: Threads + Wait + Clock + Eprint + Copy + Send + Sync + 'static>(
    rt: &HostRuntime,
    threads: &R,
    asked: &Asked<'_>,
    reasons: &mut Reasons,
) -> ExitCode {
    match asked.request {
        Request::Image { ext, name, size } => {
            let (name, size) = (name.as_bytes(), size.as_bytes());
            let (reader, writer) = (&mut rt.reader(), &mut io::writer(rt));
            end_image(
                rt,
                image(rt.alloc(), ext, name, size, reader, writer),
                reasons,
            )
        }
        _ => {
            let outcome = carry_out(rt, threads, asked, reasons);
            if let Err(Failure::Strict) = outcome {
                reasons.advise("--strict: a process trapped, or a line kill did not come");
            }
            end_carried(rt, outcome)
        }
    }
}

// Ends a command. Whoever has closed standard output is told nothing.
fn end_carried(rt: &HostRuntime, outcome: Result<(), Failure>) -> ExitCode
    ensures { exit_status result ≡ status_of outcome }
{
    match outcome {
        Ok(()) => ExitCode::SUCCESS,
        Err(Failure::Refused(error)) => end(rt, Err(error)),
        Err(Failure::Unread) => ExitCode::from(CLOSED_PIPE),
        Err(Failure::Strict) => ExitCode::FAILURE,
        Err(Failure::NoSuchName) => end(rt, Err(DebugError::NoSuchName)),
    }
}

// Ends the line of an image. What is wrong with the name or the size is a mistake in the arguments.
fn end_image(rt: &HostRuntime, outcome: Result<(), ImageError>, reasons: &mut Reasons) -> ExitCode {
    let status = end(rt, outcome);
    let Err(ImageError::Line(error)) = outcome else {
        return status;
    };
    reasons.advise(rule_of(error));
    match error {
        LineError::BadNumber | LineError::BadName | LineError::BadSize => ExitCode::from(2),
        _ => status,
    }
}

fn words<R: Runtime + AllocGlobal>(rt: &R) -> io::Result<Vec<String>> {
    Ok(env::args(rt)?.collect(rt.alloc())?)
}

// Carries out what is asked, over the file that is named, or the standard streams, and tells reasons.
fn carry_out<R: Threads + Wait + Clock + Eprint + Copy + Send + Sync + 'static>(
    rt: &HostRuntime,
    threads: &R,
    asked: &Asked<'_>,
    reasons: &mut Reasons,
) -> Result<(), Failure> {
    let reader = &mut source_of(rt, asked.input, reasons)?;
    let (outcome, _) = answer(rt, threads, asked, reader, io::writer(rt), reasons);
    if let Err(Failure::Refused(error)) = outcome {
        if let Some(refusal) = reader.refusal {
            reasons.add(asked.input.unwrap_or("standard input"), refusal);
        }
        advise(reasons, error);
    }
    outcome
}

// Advises what may be done about a fault. Of a stream, a file or a store that is named already nothing else is said.
fn advise(reasons: &mut Reasons, error: CommandError) {
    let is_named = matches!(
        error,
        CommandError::CannotRead | CommandError::CannotWrite | CommandError::StoreFault
    );
    if is_named && !reasons.is_empty() {
        return;
    }
    if let Some(advice) = advice_on(error) {
        reasons.advise(advice);
    }
}
