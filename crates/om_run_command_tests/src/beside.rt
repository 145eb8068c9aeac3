//! What a test has beside a run.

ghost use Rattle.std.specs.Prelude.{◌≡◌};

use om_commands::CommandError;
use om_process::Status;
use om_run_commands::{ClusterScript, RunContext};
use std::alloc::Global;

/// Keeps what is written to the file of a witness or a record, and what is told of the run.
#[derive(Drop)]
pub struct Beside {
    pub file: Vec<u8>,
    /// As many writes are taken.
    pub writes: u32,
    /// Whether nothing can be made ready.
    pub refuses: bool,
    /// How often it was to make ready, and for how many processes the last time.
    pub begun: u32,
    pub processes: usize,
    /// How the run ended that it made ready, and how often it was told.
    pub outcome: Option<Result<(), CommandError>>,
    pub ended: u32,
}

impl Beside {
    pub fn new(alloc: Global) -> Beside {
        Beside {
            file: Vec::new(alloc),
            writes: u32::MAX,
            refuses: false,
            begun: 0,
            processes: 0,
            outcome: None,
            ended: 0,
        }
    }
}

impl RunContext for Beside {
    fn begin(&mut self, script: &ClusterScript) -> Result<(), CommandError> {
        self.begun = self.begun.saturating_add(1);
        self.processes = script.programs().n();
        if self.refuses {
            return Err(CommandError::StoreFault);
        }
        Ok(())
    }

    fn write(&mut self, text: &[u8]) -> Result<(), CommandError> {
        if self.writes == 0 || self.file.extend_from_slice(text).is_err() {
            return Err(CommandError::CannotWrite);
        }
        self.writes -= 1;
        Ok(())
    }

    fn end(&mut self, _script: &ClusterScript, outcome: Result<&[Status], CommandError>) {
        self.outcome = Some(match outcome {
            Ok(_) => Ok(()),
            Err(error) => Err(error),
        });
        self.ended = self.ended.saturating_add(1);
    }
}
