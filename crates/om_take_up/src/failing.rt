//! The round of a manager that starts anew, in which each process failed.

ghost use Rattle.std.specs.Prelude.{◌≡◌, ◌<◌, IfErr, OnOk};
ghost use Rattle.om_manager.specs.Sound.{IsManager};
ghost use Rattle.om_manager.specs.State.{process_count};
ghost use Rattle.om_manager.specs.declared.answers.FailError.{FailError};
ghost use Rattle.om_take_up.specs.Anew.{EachFailed, IsBefore};
ghost use Rattle.om_take_up.specs.steps.Failing.{AreFailed};

use om_interval::Pid;
use om_manager::{FailError, Manager};
use std::alloc::Global;

// Declares the failures of the first few processes, not of all.
fn fail_first(manager: &mut Manager, alloc: Global, count: usize) -> Result<(), FailError>
    requires few { count < process_count manager.old }
    requires before { IsBefore manager.old }
    ensures failed { OnOk result (AreFailed manager.old count manager.new) }
    ensures memory { IfErr result (λ fault. fault ≡ FailError.Memory) }
{
    // The look tells what holds of every manager.
    let _ = manager.recovery();
    for p in 0..count {
        manager.fail(alloc, Pid::at(p), 0)?;
    }
    Ok(())
}

/// Declares that each process failed, to a manager that no process has joined and that has finished no round: the round is finished.
///
/// Refused with `Memory` alone; the manager may have a gathering open then.
pub fn fail_all(manager: &mut Manager, alloc: Global) -> Result<(), FailError>
    requires before { IsBefore manager.old }
    ensures failed { OnOk result (EachFailed manager.old manager.new) }
    ensures sound { OnOk result (IsManager manager.new) }
    ensures memory { IfErr result (λ fault. fault ≡ FailError.Memory) }
{
    let last = manager.recovery().n() - 1;
    fail_first(manager, alloc, last)?;
    manager.fail(alloc, Pid::at(last), 0)?;
    Ok(())
}
