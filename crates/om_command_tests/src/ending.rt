//! How commands end: the status, and the line on standard error.

use om_arguments::end;
use om_commands::CommandError;
use om_text::{LineError, ScriptError};
use std::alloc::Global;
use std::cell::RefCell;
use std::fmt::Display;
use std::io;
use std::process::{Abort, ExitCode};

// Standard error that is kept.
#[derive(Drop)]
struct Told {
    text: RefCell<String>,
}

impl Told {
    fn add<D: Display + Drop>(&self, value: D, end: &str) -> io::Result<()> {
        match self.text.try_borrow_mut() {
            Ok(mut text) => {
                write!(text, "{value}{end}")?;
                Ok(())
            }
            Err(_) => Err(io::Error::from(io::ErrorKind::Other)),
        }
    }
}

impl Eprint for Told {
    fn eprint<D: Display + Drop>(&self, value: D) -> io::Result<()> {
        self.add(value, "")
    }

    fn eprintln<D: Display + Drop>(&self, value: D) -> io::Result<()> {
        self.add(value, "\n")
    }
}

/// Compares how a command ends that answered so: with 1 and this line on standard error, or with 0 and nothing there.
pub fn check_end(
    rt: &impl Abort,
    alloc: Global,
    answer: Result<(), CommandError>,
    wanted: Option<&str>,
) {
    let (status, line) = match wanted {
        None => (0, String::new(alloc)),
        Some(line) => (1, format!(in alloc; "{line}\n").expect(rt, "memory")),
    };
    let told = Told {
        text: RefCell::new(String::new(alloc)),
    };
    assert_eq!(rt; end(&told, answer), ExitCode::from(status), "{line}");
    match told.text.try_borrow_mut() {
        Ok(text) => assert_eq!(rt; text.as_str(), line.as_str()),
        Err(_) => panic!(rt; "in use"),
    }
}

static LINES: [(CommandError, &str); 19] = [
    (CommandError::TooLong, "too long"),
    (CommandError::CannotRead, "cannot read"),
    (CommandError::CannotWrite, "cannot write"),
    (CommandError::NoMemory, "no memory"),
    (CommandError::EmptyScript, "empty script"),
    (
        CommandError::Script(ScriptError {
            line: 2,
            error: LineError::WrongCount,
        }),
        "line 2: wrong count of words",
    ),
    (CommandError::NoCheckpoint, "no checkpoint"),
    (CommandError::Damaged(7), "damaged 7"),
    (CommandError::MissingReceipt(8), "missing receipt 8"),
    (CommandError::Mismatch(9), "mismatch 9"),
    (CommandError::StoreFault, "store fault"),
    (CommandError::OutOfTurns, "out of turns"),
    (CommandError::GateShut, "gate shut"),
    (CommandError::NoThread, "no thread"),
    (CommandError::StoreInUse(3), "store in use"),
    (CommandError::AnotherCluster(3), "another cluster"),
    (CommandError::StoreMissing(3), "store missing"),
    (CommandError::Unlike, "unlike its check"),
    (CommandError::NoSuchProcess, "no such process"),
];

#[test]
fn every_refusal_has_its_line(rt: HostRuntime) {
    for (error, line) in &LINES {
        check_end(&rt, rt.alloc(), Err(*error), Some(line));
    }
    check_end(&rt, rt.alloc(), Ok(()), None);
}
