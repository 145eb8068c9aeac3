//! What a run has beside its input and its text.

ghost use Rattle.std.specs.Prelude.{◌≡◌, IfErr};
ghost use Rattle.om_run_commands.specs.Modes.{IsErrorOfContext};

use crate::cluster_script::ClusterScript;
use crate::random_kills::RandomKills;
use om_commands::CommandError;
use om_process::Status;

/// What a run has beside its input and its text: what is made for it before it starts, and a file for a script.
pub trait RunContext {
    /// The kills that are drawn in place of those of the cluster file, if any are.
    fn random_kills(&self) -> Option<RandomKills> {
        None
    }

    /// Makes ready what the run of this cluster needs, before it starts. Refused, the cluster is not run.
    fn begin(&mut self, script: &ClusterScript) -> Result<(), CommandError>
        ensures { IfErr result IsErrorOfContext };

    /// Adds to the file that the script of a witness or a record is written to; refused with `CannotWrite`.
    fn write(&mut self, text: &[u8]) -> Result<(), CommandError>
        ensures { IfErr result (λ error. error ≡ CommandError.CannotWrite) };

    /// Learns how the run ended that it made ready: by process, how it ended; or why the run was refused.
    fn end(&mut self, script: &ClusterScript, outcome: Result<&[Status], CommandError>);
}

// Writes a script of `sim`: the lines of programs and processes, and then these of what happens.
pub(crate) fn write_script<C: RunContext>(
    context: &mut C,
    script: &ClusterScript,
    events: &str,
) -> Result<(), CommandError>
    ensures { IfErr result (λ error. error ≡ CommandError.CannotWrite) }
{
    context.write(script.lines())?;
    context.write(events.as_bytes())
}
