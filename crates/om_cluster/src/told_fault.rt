//! What a run's caller is told of a process that does not start, or whose worker cannot go on.

ghost use Rattle.std.specs.Prelude.{◌≡◌};
ghost use Rattle.om_report.specs.Faults.{IsFaultBy};
ghost use Rattle.om_cluster.specs.Refusals.{refusal_of_opening, refusal_of_start, refusal_of_worker};

use crate::opener::OpenFault;
use om_interval::Pid;
use om_node::WorkerFault;
use om_process::StartFault;
use om_report::RunFault;

/// Returns the fault that the run's caller is told where the worker of a process cannot go on.
pub fn run_fault(fault: WorkerFault, pid: Pid) -> RunFault
    ensures named { result ≡ refusal_of_worker fault pid }
    ensures fault { IsFaultBy pid result }
{
    match fault {
        WorkerFault::Memory => RunFault::Memory,
        WorkerFault::Refused => RunFault::Fault(pid),
    }
}

/// Returns the fault that the run's caller is told where a process was not started.
pub fn load_fault(fault: StartFault, pid: Pid) -> RunFault
    ensures named { result ≡ refusal_of_start fault pid }
    ensures fault { IsFaultBy pid result }
{
    match fault {
        StartFault::Memory => RunFault::Memory,
        StartFault::Fault => RunFault::Fault(pid),
        _ => RunFault::Load(pid),
    }
}

/// Returns the fault that the run's caller is told where the store of a process was not made.
pub fn open_fault(fault: OpenFault, pid: Pid) -> RunFault
    ensures named { result ≡ refusal_of_opening fault pid }
    ensures fault { IsFaultBy pid result }
{
    match fault {
        OpenFault::Memory => RunFault::Memory,
        OpenFault::Refused => RunFault::Load(pid),
        OpenFault::InUse => RunFault::StoreInUse(pid),
    }
}
