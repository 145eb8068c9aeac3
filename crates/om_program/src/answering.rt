//! What is asked for is answered, over a reader and a writer.

ghost use Rattle.std.specs.Prelude.{◌≡◌, ℕ, List, IfErr, IfSome, IsTrue, OnOk};
ghost use Rattle.std.specs.Io.KnownBytes.{Keeps};
ghost use Rattle.om_commands.specs.Command.{IsSilent};
ghost use Rattle.om_run_request.specs.Asked.{WhereRefused};
ghost use Rattle.om_program.specs.Answers.{IsAnswerTo, IsErrorOfRequest, IsRefusedAnswer, IsWrittenAlong, IsWrittenAtOnce};
ghost use Rattle.om_program.specs.Refusals.{IsRefusal, WhereAnswered, WhereNoAnswer};
ghost use Rattle.om_program.specs.steps.Ends.{IsEnd, IsSilentRefusal};
ghost use Rattle.om_program.specs.steps.Requests.{IsRunRequest, reads_text};

use crate::debugging::{debug_file, debug_over};
use crate::exploring::explore_over;
use crate::looking::look_into;
use om_arguments::{Asked, Lines, Request};
use om_commands::CommandError;
use om_commands::decode::decode;
use om_commands::frontier::frontier;
use om_commands::sim::sim;
use om_debug_command::DebugError;
use om_draw_command::draw::{Window, draw};
use om_outcomes::{Failure, Output, Reasons};
use om_run_request::{form_of, run_request};
use om_text::read_text;
use std::io::{Read, Write};
use std::sync::Wait;
use std::thread::Threads;
use std::time::Clock;

/// Answers what is asked for, but the line of an image: `reader` is the input, or stands for it, `writer` is standard output. Files are those
/// of the system: stores, witnesses, records. Where reasons are heard, the whole text of an input is read first, so that its faulty line can
/// be shown. `Unread` where whoever reads standard output has closed it; `Strict` where it is asked for, and a process trapped or a line
/// `kill` did not come: then the text is written; `NoSuchName` where a file is given for a program that no process of the record runs.
/// Refused, nothing is written, unless it was the writer that refused; of a run that is followed what was released by then, and to gdb what
/// was answered.
pub fn answer<
    R: Threads + Wait + Clock + Eprint + Copy + Send + Sync + 'static,
    I: Read,
    W: Write + Drop,
>(
    rt: &HostRuntime,
    threads: &R,
    asked: &Asked<'_>,
    reader: &mut I,
    writer: W,
    reasons: &mut Reasons,
) -> (Result<(), Failure>, W)
    ensures text { IfSome (I.remaining reader.old) (λ bytes. WhereAnswered result.0
        (IsAnswerTo asked.now.request bytes (W.contents writer) (W.contents result.1))) }
    ensures error { IfSome (I.remaining reader.old) (λ bytes. WhereNoAnswer result.0 (IsRefusal asked.now.request asked.now.symbols.items bytes)) }
    ensures silent { IsWrittenAtOnce asked.now.request
        → WhereRefused result.0 (λ error. IsSilent error (Keeps (W.contents writer) (W.contents result.1))) }
    ensures partly { IsWrittenAlong asked.now.request → IfSome (I.remaining reader.old) (λ bytes. WhereRefused result.0
        (IsRefusedAnswer asked.now.request bytes (W.contents writer) (W.contents result.1))) }
{
    if reasons.are_heard && reads_text(asked.request) {
        answer_over(rt, threads, asked, reader, writer, reasons)
    } else {
        answer_from(rt, threads, asked, reader, writer, reasons)
    }
}

fn reads_text(request: Request<'_>) -> bool
    ensures { result ≡ reads_text request.entry }
{
    match request {
        Request::Decode(_)
        | Request::Frontier
        | Request::Sim(_)
        | Request::Draw(_)
        | Request::Run(_)
        | Request::Explore(_)
        | Request::Debug { .. } => true,
        Request::DebugStore { .. } | Request::Look(_) | Request::Image { .. } => false,
    }
}

// Answers a request over the whole text of an input, which is read first.
fn answer_over<
    R: Threads + Wait + Clock + Eprint + Copy + Send + Sync + 'static,
    I: Read,
    W: Write + Drop,
>(
    rt: &HostRuntime,
    threads: &R,
    asked: &Asked<'_>,
    reader: &mut I,
    writer: W,
    reasons: &mut Reasons,
) -> (Result<(), Failure>, W)
    requires { IsTrue (reads_text asked.now.request) }
    ensures text { IfSome (I.remaining reader.old) (λ bytes. WhereAnswered result.0
        (IsAnswerTo asked.now.request bytes (W.contents writer) (W.contents result.1))) }
    ensures error { IfSome (I.remaining reader.old) (λ bytes. WhereNoAnswer result.0 (IsRefusal asked.now.request asked.now.symbols.items bytes)) }
    ensures silent { IsWrittenAtOnce asked.now.request
        → WhereRefused result.0 (λ error. IsSilent error (Keeps (W.contents writer) (W.contents result.1))) }
    ensures partly { IsWrittenAlong asked.now.request → IfSome (I.remaining reader.old) (λ bytes. WhereRefused result.0
        (IsRefusedAnswer asked.now.request bytes (W.contents writer) (W.contents result.1))) }
{
    let bytes = match read_text(rt.alloc(), reader) {
        Ok(bytes) => bytes,
        Err(error) => return (Err(Failure::from(CommandError::from(error))), writer),
    };
    let told = answer_from(rt, threads, asked, &mut bytes.as_slice(), writer, reasons);
    if let Err(Failure::Refused(CommandError::Script(refused))) = told.0 {
        reasons.add_line(asked.input.unwrap_or("standard input"), &bytes, refused);
    }
    told
}

fn answer_from<
    R: Threads + Wait + Clock + Eprint + Copy + Send + Sync + 'static,
    I: Read,
    W: Write + Drop,
>(
    rt: &HostRuntime,
    threads: &R,
    asked: &Asked<'_>,
    reader: &mut I,
    writer: W,
    reasons: &mut Reasons,
) -> (Result<(), Failure>, W)
    ensures text { IfSome (I.remaining reader.old) (λ bytes. WhereAnswered result.0
        (IsAnswerTo asked.now.request bytes (W.contents writer) (W.contents result.1))) }
    ensures error { IfSome (I.remaining reader.old) (λ bytes. WhereNoAnswer result.0 (IsRefusal asked.now.request asked.now.symbols.items bytes)) }
    ensures silent { IsWrittenAtOnce asked.now.request
        → WhereRefused result.0 (λ error. IsSilent error (Keeps (W.contents writer) (W.contents result.1))) }
    ensures partly { IsWrittenAlong asked.now.request → IfSome (I.remaining reader.old) (λ bytes. WhereRefused result.0
        (IsRefusedAnswer asked.now.request bytes (W.contents writer) (W.contents result.1))) }
{
    if let Request::Run(running) = asked.request {
        return run_request(rt, threads, running, asked.input, reader, writer, reasons);
    }
    let mut output = Output::new(writer);
    let outcome = answer_with(rt, threads, asked, reader, &mut output, reasons);
    output.tell_refusal(reasons);
    (ended(&output, outcome), output.to)
}

// Returns how an answer ended that was written to it.
fn ended<W>(output: &Output<W>, outcome: Result<(), DebugError>) -> Result<(), Failure>
    ensures { IsEnd outcome result }
{
    match outcome {
        Ok(()) => Ok(()),
        Err(DebugError::Refused(error)) => output.ended(Err(error)),
        Err(DebugError::NoSuchName) => Err(Failure::NoSuchName),
    }
}

// Answers a request that is none for a run, with the files that are given for programs.
fn answer_with<R: Threads + Wait + Clock + Copy + Send + Sync + 'static, I: Read, W: Write>(
    rt: &HostRuntime,
    threads: &R,
    asked: &Asked<'_>,
    reader: &mut I,
    writer: &mut W,
    reasons: &mut Reasons,
) -> Result<(), DebugError>
    ensures text { (IsRunRequest asked.now.request → ⊥) → IfSome (I.remaining reader.old) (λ bytes. OnOk result
        (IsAnswerTo asked.now.request bytes (W.contents writer.old) (W.contents writer.new))) }
    ensures error { IfSome (I.remaining reader.old) (λ bytes. IfErr result (IsRefusal asked.now.request asked.now.symbols.items bytes)) }
    ensures silent { IsWrittenAtOnce asked.now.request
        → IfErr result (λ error. IsSilentRefusal error (Keeps (W.contents writer.old) (W.contents writer.new))) }
{
    if let Request::Debug { process } = asked.request {
        return debug_over(
            rt,
            threads,
            process,
            &asked.symbols,
            reader,
            writer,
            reasons,
        );
    }
    match answer_to(rt, threads, asked.request, reader, writer, reasons) {
        Ok(()) => Ok(()),
        Err(error) => Err(DebugError::Refused(error)),
    }
}

// Answers a request that is none for a run or a debugger.
fn answer_to<R: Threads + Wait + Clock + Copy + Send + Sync + 'static, I: Read, W: Write>(
    rt: &HostRuntime,
    threads: &R,
    request: Request<'_>,
    reader: &mut I,
    writer: &mut W,
    reasons: &mut Reasons,
) -> Result<(), CommandError>
    ensures text { (IsRunRequest request.entry → ⊥) → IfSome (I.remaining reader.old) (λ bytes. OnOk result
        (IsAnswerTo request.entry bytes (W.contents writer.old) (W.contents writer.new))) }
    ensures error { IfSome (I.remaining reader.old) (λ bytes. IfErr result (IsErrorOfRequest request.entry bytes)) }
    ensures silent { IsWrittenAtOnce request.entry
        → IfErr result (λ error. IsSilent error (Keeps (W.contents writer.old) (W.contents writer.new))) }
{
    match request {
        Request::Decode(ext) => decode(rt.alloc(), ext, reader, writer),
        Request::Frontier => frontier(rt.alloc(), reader, writer),
        Request::Sim(form) => sim(rt.alloc(), form_of(form), reader, writer),
        Request::Draw(lines) => draw(rt.alloc(), reader, writer, window_of(lines)),
        Request::Explore(exploring) => explore_over(
            rt, threads, exploring, reader, writer, reasons,
        ),
        Request::DebugStore { file, interval } => {
            debug_file(rt, threads, file, interval, writer, reasons)
        }
        Request::Look(look) => look_into(rt, look, writer, reasons),
        // These have ends of their own.
        Request::Run(_) | Request::Debug { .. } | Request::Image { .. } => Ok(()),
    }
}

fn window_of(lines: Lines) -> Window
    ensures { (result.from ≡ lines.from) × (result.to ≡ lines.to) }
{
    Window {
        from: lines.from,
        to: lines.to,
    }
}
