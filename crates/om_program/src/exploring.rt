//! Runs that are explored: what an exploration has beside its input and its text.

ghost use Rattle.std.specs.Prelude.{◌≡◌, ℕ, List, IfErr, IfSome, OnOk};
ghost use Rattle.std.specs.Io.KnownBytes.{Keeps};
ghost use Rattle.om_commands.specs.Command.{IsSilent};
ghost use Rattle.om_explore_command.specs.Request.{IsExploredFile};
ghost use Rattle.om_program.specs.Answers.{Writes};
ghost use Rattle.om_run_commands.specs.Run.{IsErrorOfRun};
ghost use Rattle.om_run_request.specs.Asked.{form_of};

use om_arguments::Exploring;
use om_commands::CommandError;
use om_explore_command::{ExploreContext, Options, explore_file};
use om_outcomes::Reasons;
use om_run_request::form_of;
use std::cell::Cell;
use std::fs::OpenOptions;
use std::io::{IsTerminal, Read, Write};
use std::os::unix::fs::OpenOptionsExt;
use std::time::{Clock, Duration};
use std::{fs, io};

// How many seconds after a line of progress the next comes.
const PERIOD: u64 = 1;

// What an exploration has beside: files for its witnesses, and a terminal that is told how far it has come.
#[derive(Drop)]
struct Beside<'a, 'r, R> {
    rt: &'a HostRuntime,
    clock: &'a R,
    prefix: Option<&'a str>,
    reasons: &'r mut Reasons,
    is_told: bool,
    // When the next line of progress comes, by the clock.
    next: Cell<Duration>,
    // What is told of a process that came to its limit.
    spent: Cell<Option<String>>,
}

impl<'a, 'r, R: Clock> ExploreContext for Beside<'a, 'r, R> {
    fn tell(&self, runs: u64, texts: usize) {
        if !self.is_told {
            return;
        }
        let Ok(now) = self.clock.monotonic() else {
            return;
        };
        if now < self.next.get() {
            return;
        }
        self.next
            .set(now.saturating_add(Duration::from_secs(PERIOD)));
        if let Ok(line) = format!(in self.rt.alloc(); "{runs} runs, {texts} texts") {
            let _ = self.rt.eprintln(line.as_str());
        }
    }

    fn tell_spent(&self, process: &str) {
        let line = format!(in self.rt.alloc();
            "{process}: did not come to rest within its turns: it computes for ever, or needs more --turns"
        );
        if let Ok(line) = line {
            let _ = self.spent.replace(Some(line));
        }
    }

    fn wants_witnesses(&self) -> bool {
        self.prefix.is_some()
    }

    fn write_witness(&mut self, number: usize, script: &[u8]) -> Result<(), CommandError> {
        let prefix = self.prefix.unwrap_or("");
        let Ok(path) = format!(in self.rt.alloc(); "{prefix}{number}") else {
            return Err(CommandError::CannotWrite);
        };
        match write_new(self.rt, path.as_str(), script) {
            Ok(()) => Ok(()),
            Err(error) => {
                self.reasons.add(path.as_str(), error);
                Err(CommandError::CannotWrite)
            }
        }
    }
}

impl<'a, 'r, R> Beside<'a, 'r, R> {
    // Tells of the process that came to its limit, where one did.
    fn say_spent(&mut self) {
        if let Some(line) = self.spent.replace(None) {
            self.reasons.advise(line);
        }
    }
}

// Writes a file at a name that nothing has. Its descriptor is none of the standard streams', which may be closed.
fn write_new(rt: &HostRuntime, path: &str, bytes: &[u8]) -> io::Result<()> {
    let mut options = OpenOptions::new();
    options.write(true).create_new(true).mode(0o644);
    let mut file = options.open(rt, path)?.try_clone()?;
    file.write_all(bytes)
}

// Refuses where something has the name of the first witness: what comes of a long exploration is not refused at
// its end.
fn refuse_taken(rt: &HostRuntime, prefix: &str, reasons: &mut Reasons) -> Result<(), CommandError>
    ensures { IfErr result (λ error. error ≡ CommandError.CannotWrite) }
{
    let Ok(path) = format!(in rt.alloc(); "{prefix}1") else {
        return Err(CommandError::CannotWrite);
    };
    if fs::symlink_metadata(rt, path.as_str()).is_ok() {
        reasons.add(path.as_str(), "is there already");
        return Err(CommandError::CannotWrite);
    }
    Ok(())
}

// Explores the cluster of an input as it is asked for.
pub(crate) fn explore_over<R: Clock, I: Read, W: Write>(
    rt: &HostRuntime,
    clock: &R,
    exploring: Exploring<'_>,
    reader: &mut I,
    writer: &mut W,
    reasons: &mut Reasons,
) -> Result<(), CommandError>
    ensures error { IfSome (I.remaining reader.old) (λ bytes. IfErr result (IsErrorOfRun bytes)) }
    ensures text { IfSome (I.remaining reader.old) (λ bytes. OnOk result
        (Writes (IsExploredFile (form_of exploring.entry.form) exploring.entry.all bytes) (W.contents writer.old) (W.contents writer.new))) }
    ensures silent { IfErr result (λ error. IsSilent error (Keeps (W.contents writer.old) (W.contents writer.new))) }
{
    if let Some(prefix) = exploring.witnesses {
        refuse_taken(rt, prefix, reasons)?;
    }
    let mut beside = Beside {
        rt,
        clock,
        prefix: exploring.witnesses,
        reasons,
        is_told: rt.stderr().is_terminal(),
        next: Cell::new(Duration::ZERO),
        spent: Cell::new(None),
    };
    let options = options_of(exploring);
    let outcome = explore_file(rt.alloc(), &options, &mut beside, reader, writer);
    beside.say_spent();
    outcome
}

// Returns how far an exploration is to go that is asked for so.
fn options_of(exploring: Exploring<'_>) -> Options
    ensures runs { result.runs ≡ exploring.entry.runs }
    ensures seed { result.seed ≡ exploring.entry.seed }
    ensures all { result.is_all ≡ exploring.entry.all }
    ensures turns { result.turns ≡ exploring.entry.turns }
    ensures form { result.form ≡ form_of exploring.entry.form }
{
    Options {
        runs: exploring.runs,
        seed: exploring.seed,
        is_all: exploring.all,
        turns: exploring.turns,
        form: form_of(exploring.form),
    }
}
