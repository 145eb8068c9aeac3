//! Stores in memory, for a run.

use om_cluster::{OpenFault, Opener};
use om_interval::Pid;
use om_stable::MemStable;
use std::alloc::Global;

/// Makes stores in memory, which are gone when the run is.
#[derive(Debug, Drop)]
pub struct InMemory;

impl<R> Opener<R> for InMemory {
    type Store = MemStable;

    fn make(&self, _rt: &R, alloc: Global, _pid: Pid) -> Result<MemStable, OpenFault> {
        Ok(MemStable::new(alloc))
    }
}
