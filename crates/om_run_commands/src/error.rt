//! The errors of a run, as a command tells them.

ghost use Rattle.std.specs.Prelude.{◌≡◌};
ghost use Rattle.om_run_commands.specs.steps.Errors.{error_of_play, error_of_run};

use om_check::PlayFault;
use om_commands::CommandError;
use om_runner::RunFault;

// Returns why the run of a cluster came to no end.
pub(crate) fn error_of_run(fault: RunFault) -> CommandError
    ensures { result ≡ error_of_run fault }
{
    match fault {
        RunFault::Turns(_) => CommandError::OutOfTurns,
        RunFault::GateShut(_) => CommandError::GateShut,
        RunFault::Memory => CommandError::NoMemory,
        RunFault::Fault(_) | RunFault::Load(_) => CommandError::StoreFault,
        RunFault::StoreInUse(pid) => CommandError::StoreInUse(pid.index()),
        RunFault::AnotherCluster(pid) => CommandError::AnotherCluster(pid.index()),
        RunFault::StoreMissing(pid) => CommandError::StoreMissing(pid.index()),
        RunFault::NoThread => CommandError::NoThread,
    }
}

// Returns why the run without failures was not played.
pub(crate) fn error_of_play(fault: PlayFault) -> CommandError
    ensures { result ≡ error_of_play fault }
{
    match fault {
        PlayFault::Memory => CommandError::NoMemory,
        PlayFault::NotSent(_)
        | PlayFault::NotWaiting(_)
        | PlayFault::Spent(_)
        | PlayFault::NotEnded(_) => CommandError::Unlike,
    }
}
