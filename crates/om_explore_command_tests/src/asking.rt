//! What is asked of the command, and what it answers.

ghost use Rattle.std.specs.Prelude.{◌≡◌};

use om_commands::sim::sim;
use om_commands::{BytesForm, CommandError};
use om_explore_command::{ExploreContext, Options, explore_file};
use std::alloc::Global;
use std::cell::RefCell;
use std::process::Abort;

// Keeps the scripts that it is given, and the names of processes that came to their limits.
#[derive(Drop)]
pub(crate) struct Beside {
    alloc: Global,
    wants: bool,
    pub(crate) witnesses: Vec<Vec<u8>>,
    spent: RefCell<String>,
}

impl Beside {
    // Exactly these processes came to their limits, each name behind a space.
    pub(crate) fn check_spent(&self, rt: &impl Abort, names: &str) {
        match self.spent.try_borrow_mut() {
            Ok(spent) => assert_eq!(rt; spent.as_str(), names),
            Err(_) => panic!(rt; "in use"),
        }
    }
}

impl ExploreContext for Beside {
    fn tell(&self, _runs: u64, _texts: usize) {}

    fn tell_spent(&self, process: &str) {
        if let Ok(mut spent) = self.spent.try_borrow_mut() {
            let _ = spent.push(' ');
            let _ = spent.push_str(process);
        }
    }

    fn wants_witnesses(&self) -> bool {
        self.wants
    }

    fn write_witness(&mut self, number: usize, script: &[u8]) -> Result<(), CommandError> {
        if self.witnesses.len().saturating_add(1) != number {
            return Err(CommandError::CannotWrite);
        }
        let Ok(script) = Vec::from_slice(self.alloc, script) else {
            return Err(CommandError::CannotWrite);
        };
        match self.witnesses.push(script) {
            Ok(_) => Ok(()),
            Err(_) => Err(CommandError::CannotWrite),
        }
    }
}

pub(crate) fn make_beside(alloc: Global, wants: bool) -> Beside {
    Beside {
        alloc,
        wants,
        witnesses: Vec::new(alloc),
        spent: RefCell::new(String::new(alloc)),
    }
}

// More than any of these runs takes.
const TURNS: u64 = 1_000;

pub(crate) fn options(is_all: bool, runs: u64) -> Options {
    Options {
        runs,
        seed: 1,
        is_all,
        turns: TURNS,
        form: BytesForm::Hex,
    }
}

// Returns what is written of an input, or the line of its error.
pub(crate) fn written(rt: &impl Abort, alloc: Global, options: &Options, input: &str) -> String {
    let mut context = make_beside(alloc, false);
    told(rt, alloc, options, input, &mut context)
}

pub(crate) fn told(
    rt: &impl Abort,
    alloc: Global,
    options: &Options,
    input: &str,
    context: &mut Beside,
) -> String {
    let mut reader = input.as_bytes();
    let mut writer = Vec::new(alloc);
    match explore_file(alloc, options, context, &mut reader, &mut writer) {
        Ok(()) => String::from_utf8(writer).ok().expect(rt, "text"),
        Err(error) => format!(in alloc; "{error}").expect(rt, "memory"),
    }
}

// Returns what `sim` writes of a script.
pub(crate) fn played(rt: &impl Abort, alloc: Global, script: &[u8]) -> String {
    let mut reader = script;
    let mut writer = Vec::new(alloc);
    sim(alloc, BytesForm::Hex, &mut reader, &mut writer).expect(rt, "a script");
    String::from_utf8(writer).ok().expect(rt, "text")
}
