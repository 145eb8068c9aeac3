//! Who sees what the processes of a cluster do.

ghost use Rattle.std.specs.Prelude.{◌≡◌, IfOk, length};

use crate::sight::Sight;
use om_interval::Pid;
use std::alloc::{AllocError, Global};
use std::marker::Model;
use std::sync::{Mutex, Wait};

/// Sees what the processes of a cluster do while it runs. Each worker shows its process at the end of each turn.
#[derive(Drop)]
pub struct Watch {
    // By process.
    sights: Vec<Mutex<Sight>>,
    // By failure, in order, the process and the interval that it had just begun.
    failures: Mutex<Vec<(Pid, u32)>>,
}

// Of how many processes it is.
impl Model for Watch {
    ghost use Rattle.std.specs.Prelude.{ℕ, vec_len};
    ghost use Rattle.std.specs.Coded.{coded_ℕ};

    ghost Value = { ℕ };

    ghost coded = { coded_ℕ };

    ghost view = { λ w. vec_len w.sights };
}

impl Watch {
    /// Makes the watch of a cluster of so many processes that is to be run.
    pub fn new(alloc: Global, n: usize) -> Result<Watch, AllocError>
        ensures many { IfOk result (λ watch. watch ≡ n) }
    {
        let mut sights = Vec::with_capacity(alloc, n)?;
        for _ in 0..n {
            sights.push(Mutex::new(Sight::new()))?;
        }
        Ok(Watch {
            sights,
            failures: Mutex::new(Vec::new(alloc)),
        })
    }

    /// Returns what was seen last of each process, by number.
    pub fn sights<R: Wait>(&self, rt: &R, alloc: Global) -> Result<Vec<Sight>, AllocError>
        ensures each { IfOk result (λ sights. length sights.items ≡ self.now) }
    {
        let mut sights = Vec::with_capacity(alloc, self.sights.len())?;
        for place in &self.sights {
            let sight = *place.lock(rt);
            sights.push(sight)?;
        }
        Ok(sights)
    }

    /// Returns what was seen of a process last.
    pub fn sight<R: Wait>(&self, rt: &R, pid: Pid) -> Option<Sight> {
        let place = self.sights.get(pid.index())?;
        let sight = *place.lock(rt);
        Some(sight)
    }

    /// Takes in what is seen of a process.
    pub fn show<R: Wait>(&self, rt: &R, pid: Pid, sight: Sight) {
        if let Some(place) = self.sights.get(pid.index()) {
            *place.lock(rt) = sight;
        }
    }

    /// Takes in that a process failed right after it began an interval. Refused where memory ran out.
    pub fn fail<R: Wait>(&self, rt: &R, pid: Pid, interval: u32) -> Result<(), AllocError> {
        self.failures.lock(rt).push((pid, interval))?;
        Ok(())
    }

    /// Returns the failures so far, in order: by failure, the process and the interval that it had just begun. Refused where memory
    /// ran out.
    pub fn failures<R: Wait>(&self, rt: &R, alloc: Global) -> Result<Vec<(Pid, u32)>, AllocError> {
        self.failures.lock(rt).to_vec(alloc)
    }
}
