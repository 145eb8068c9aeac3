//! A stop of one of several processes, as it is told.

ghost use Rattle.std.specs.Prelude.{◌≡◌, IfOk, string_bytes};
ghost use Rattle.om_inferiors.specs.Told.{group_stop_text, reason_text, signal_text, trap_signal};
ghost use Rattle.om_debug.specs.Stops.{watch_word};

use om_debug::Stop;
use om_machine::Cause;
use om_requests::{Watch, Watched};
use std::alloc::{AllocError, Global};

// Returns the signal of a trap: SIGSEGV for an address outside memory, SIGBUS for one that is not aligned, SIGTRAP for
// EBREAK, and SIGILL for the rest.
fn trap_signal(cause: Cause) -> &'static str
    ensures { result.now ≡ trap_signal cause }
{
    match cause {
        Cause::FetchOutside => "T0b",
        Cause::DataOutside => "T0b",
        Cause::BufferOutside => "T0b",
        Cause::TargetMisaligned => "T0a",
        Cause::DataMisaligned => "T0a",
        Cause::Break => "T05",
        Cause::Illegal => "T04",
        Cause::UnknownCall => "T04",
        Cause::CountFull => "T04",
    }
}

// Returns the signal of a stop: SIGPWR for a failure, SIGINT for a pause, the signal of a trap, and SIGTRAP for all else.
fn signal_text(stop: Stop) -> &'static str
    ensures { result.now ≡ signal_text stop }
{
    match stop {
        Stop::Failed => "T20",
        Stop::Paused => "T02",
        Stop::Trapped(cause) => trap_signal(cause),
        Stop::Here => "T05",
        Stop::Stepped => "T05",
        Stop::Break => "T05",
        Stop::Watched(_) => "T05",
        Stop::Begin => "T05",
        Stop::End => "T05",
    }
}

fn watch_word(kind: Watched) -> &'static str
    ensures { result.now ≡ watch_word kind }
{
    match kind {
        Watched::Writes => "watch",
        Watched::Reads => "rwatch",
        Watched::Both => "awatch",
    }
}

fn watch_text(alloc: Global, watch: Watch) -> Result<String, AllocError>
    ensures { IfOk result (λ text. string_bytes text ≡ reason_text (Stop.Watched watch)) }
{
    let (word, address) = (watch_word(watch.kind), watch.address);
    format!(in alloc; "{word}:{address:x};")
}

// Returns what more is known of a stop.
fn reason_text(alloc: Global, stop: Stop) -> Result<String, AllocError>
    ensures { IfOk result (λ text. string_bytes text ≡ reason_text stop) }
{
    let text = match stop {
        Stop::Break => "swbreak:;",
        Stop::Watched(watch) => return watch_text(alloc, watch),
        Stop::Begin => "replaylog:begin;",
        Stop::End => "replaylog:end;",
        Stop::Here => "",
        Stop::Stepped => "",
        Stop::Failed => "",
        Stop::Trapped(_) => "",
        Stop::Paused => "",
    };
    String::from_str(alloc, text)
}

// Returns what a stop of the process of a number is told as. Refused only where memory ran out.
pub(crate) fn group_stop_text(alloc: Global, number: u32, stop: Stop) -> Result<String, AllocError>
    ensures { IfOk result (λ text. string_bytes text ≡ group_stop_text number stop) }
{
    let signal = signal_text(stop);
    let mut text = format!(in alloc; "{signal}thread:p{number:x}.1;")?;
    text.push_str(&reason_text(alloc, stop)?)?;
    Ok(text)
}
