//! Why a run of a cluster came to no end.

use om_interval::Pid;

/// Why a run of a cluster came to no end. Where several workers end with a fault, that of the least process is told, and
/// `Turns` only where there is no other. It has no text: whoever runs a cluster says it in words of its own.
#[derive(Clone, Copy, Debug, PartialEq, Eq)]
pub enum RunFault {
    /// The process's worker took all its turns, or was stopped before.
    Turns(Pid),
    /// The gate never let the process start.
    GateShut(Pid),
    /// Memory ran out.
    Memory,
    /// The process's store, a replay or the manager refused a call.
    Fault(Pid),
    /// The process was not started, for another cause than a failure of its store: its image, or its store was refused.
    Load(Pid),
    /// Another program has the process's store.
    StoreInUse(Pid),
    /// The process's store is of another process, number of processes or program.
    AnotherCluster(Pid),
    /// The process's store holds nothing, while another holds more than its start.
    StoreMissing(Pid),
    /// A thread could not be made. This is told before any other.
    NoThread,
}
