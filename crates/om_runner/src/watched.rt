//! Stores of a cluster that is watched.

use om_cluster::{OpenFault, Opener};
use om_interval::Pid;
use om_observers::Watch;
use std::alloc::Global;

/// Makes the stores that `opener` makes, for processes that are watched, where they are to be.
#[derive(Clone, Copy)]
pub struct Watched<'a, O> {
    pub opener: &'a O,
    pub watch: Option<&'a Watch>,
}

impl<'a, R, O: Opener<R>> Opener<R> for Watched<'a, O> {
    type Store = O::Store;

    fn make(&self, rt: &R, alloc: Global, pid: Pid) -> Result<O::Store, OpenFault> {
        self.opener.make(rt, alloc, pid)
    }

    fn resumes(&self) -> bool {
        self.opener.resumes()
    }

    fn is_slow(&self) -> bool {
        self.opener.is_slow()
    }

    fn watch(&self) -> Option<&Watch> {
        self.watch
    }
}
