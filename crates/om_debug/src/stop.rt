//! Why a process stands, and what a debugger is told of it.

ghost use Rattle.std.specs.Prelude.{◌≡◌, IfOk, string_bytes};
ghost use Rattle.om_debug.specs.Stops.{stop_text, trap_text, watch_word};

use om_machine::Cause;
use om_requests::{Watch, Watched};
use std::alloc::{AllocError, Global};

/// Why a process stands.
#[derive(Clone, Copy, Debug, PartialEq, Eq)]
pub enum Stop {
    /// It is shown where it stands.
    Here,
    /// The next instruction has a breakpoint.
    Break,
    /// What comes next accesses bytes that are watched.
    Watched(Watch),
    /// What was asked for is done.
    Stepped,
    /// The process has failed.
    Failed,
    /// The process cannot go on.
    Trapped(Cause),
    /// Nothing stopped it for very long.
    Paused,
    /// The record begins here.
    Begin,
    /// The record ends here.
    End,
}

// Returns the answer for a process that cannot go on: SIGSEGV for an address outside memory, SIGBUS for one that is not aligned,
// SIGTRAP for EBREAK, and SIGILL for the rest.
fn trap_text(cause: Cause) -> &'static str
    ensures { result.now ≡ trap_text cause }
{
    match cause {
        Cause::FetchOutside => "T0bthread:1;",
        Cause::DataOutside => "T0bthread:1;",
        Cause::BufferOutside => "T0bthread:1;",
        Cause::TargetMisaligned => "T0athread:1;",
        Cause::DataMisaligned => "T0athread:1;",
        Cause::Break => "T05thread:1;",
        Cause::Illegal => "T04thread:1;",
        Cause::UnknownCall => "T04thread:1;",
        Cause::CountFull => "T04thread:1;",
    }
}

fn watch_word(kind: Watched) -> &'static str
    ensures { result.now ≡ watch_word kind }
{
    match kind {
        Watched::Writes => "watch",
        Watched::Reads => "rwatch",
        Watched::Both => "awatch",
    }
}

fn watch_text(alloc: Global, watch: Watch) -> Result<String, AllocError>
    ensures { IfOk result (λ text. string_bytes text ≡ stop_text (Stop.Watched watch)) }
{
    let (word, address) = (watch_word(watch.kind), watch.address);
    format!(in alloc; "T05thread:1;{word}:{address:x};")
}

/// Returns what a stop is told as: SIGTRAP, SIGPWR for a failure, SIGINT for a pause, or the signal of a trap, and what more is
/// known. Refused only where memory ran out.
pub fn stop_text(alloc: Global, stop: Stop) -> Result<String, AllocError>
    ensures { IfOk result (λ text. string_bytes text ≡ stop_text stop) }
{
    let text = match stop {
        Stop::Here => "T05thread:1;",
        Stop::Stepped => "T05thread:1;",
        Stop::Break => "T05thread:1;swbreak:;",
        Stop::Watched(watch) => return watch_text(alloc, watch),
        Stop::Failed => "T20thread:1;",
        Stop::Trapped(cause) => trap_text(cause),
        Stop::Paused => "T02thread:1;",
        Stop::Begin => "T05thread:1;replaylog:begin;",
        Stop::End => "T05thread:1;replaylog:end;",
    };
    String::from_str(alloc, text)
}
