//! How the thread of a process comes to its store.

ghost use Rattle.std.specs.Prelude.{◌≡◌, IfOk, IsTrue};
ghost use Rattle.om_stable.specs.Content.{nothing};
ghost use Rattle.om_node.specs.Stores.{AreNeverClean};

use crate::opener::{OpenFault, Opener};
use om_interval::Pid;
use om_stable::Ledger;
use std::alloc::Global;

/// Makes the store of a process, in its own thread. It is what a worker needs of an [`Opener`], and does not say that a store
/// can be sent to another thread.
pub trait StoreMaker<R> {
    type Store: Ledger;

    /// Makes the store of the process, as [`Opener::make`] does.
    fn make_store(&self, rt: &R, alloc: Global, pid: Pid) -> Result<Self::Store, OpenFault>
        ensures sound { IfOk result (λ store. IsTrue (Self.Store.is_clean store) → Self.Store.IsSound store) }
        ensures empty { IfOk result (λ store. IsTrue (Self.Store.is_clean store) → Self.Store.content store ≡ nothing) };

    /// Returns whether its stores may hold what an earlier run left, as [`Opener::resumes`] does.
    fn takes_up(&self) -> bool
        ensures unsure { IsTrue result → AreNeverClean Self.Store.is_clean };
}

impl<R, O: Opener<R>> StoreMaker<R> for O {
    type Store = O::Store;

    fn make_store(&self, rt: &R, alloc: Global, pid: Pid) -> Result<O::Store, OpenFault> {
        self.make(rt, alloc, pid)
    }

    fn takes_up(&self) -> bool {
        self.resumes()
    }
}
