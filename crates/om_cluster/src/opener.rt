//! When a process may start, and how its store is made.

ghost use Rattle.std.specs.Prelude.{◌≡◌, IfOk, IsTrue};
ghost use Rattle.om_stable.specs.Content.{nothing};
ghost use Rattle.om_node.specs.Stores.{AreNeverClean};

use om_interval::Pid;
use om_observers::Watch;
use om_stable::Ledger;
use std::alloc::Global;
use thiserror::Error;

/// Says when a process may start.
pub trait Gate {
    /// Returns whether the process may start. Its worker asks before it makes the process, until the answer is true.
    fn may_start(&self, pid: Pid) -> bool;
}

/// Why a store was not made.
#[derive(Clone, Copy, Debug, PartialEq, Eq, Error)]
pub enum OpenFault {
    /// Memory ran out.
    #[error("no memory")]
    Memory,
    /// The store could not be opened, or there was one already.
    #[error("the store was refused")]
    Refused,
    /// Another program has the store.
    #[error("the store is in use")]
    InUse,
}

/// Makes the store of each process, in the thread that owns it, and says who watches them.
pub trait Opener<R> {
    type Store: Ledger + Send;

    /// A store for the process that holds nothing yet; or, where the opener resumes, what an earlier run left of one.
    fn make(&self, rt: &R, alloc: Global, pid: Pid) -> Result<Self::Store, OpenFault>
        ensures sound { IfOk result (λ store. IsTrue (Self.Store.is_clean store) → Self.Store.IsSound store) }
        ensures empty { IfOk result (λ store. IsTrue (Self.Store.is_clean store) → Self.Store.content store ≡ nothing) };

    /// Returns whether its stores may hold what an earlier run left, which is taken up. Such a store never says that it is clean.
    fn resumes(&self) -> bool
        ensures unsure { IsTrue result → AreNeverClean Self.Store.is_clean }
    {
        false
    }

    /// Returns whether its stores take long to store something, as on a disk. Then each process has a thread beside its own
    /// that writes its store, and goes on meanwhile.
    fn is_slow(&self) -> bool {
        false
    }

    /// Returns who sees what the processes do while they run, if anybody does.
    fn watch(&self) -> Option<&Watch> {
        None
    }
}
