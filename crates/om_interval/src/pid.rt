//! The numbers of processes, and their limit.

ghost use Rattle.std.specs.Prelude.{◌≡◌, ℕ, ◌<◌, ◌↔◌, IsSome, IfSome};
ghost use Rattle.om_interval.specs.declared.pid.TheConstants.{MAX_PROCESSES};

use std::marker::Model;

/// The greatest number of processes in one cluster.
pub const MAX_PROCESSES: usize = 16;

/// The number of a process: from 0, below the limit of processes.
#[derive(Clone, Copy, Debug, PartialEq, Eq, Hash, PartialOrd, Ord)]
pub struct Pid {
    // A byte, since each message has two of them.
    index: u8,
}

impl Model for Pid {
    ghost Value = { ℕ };

    ghost view = { λ p. p.index };

    ghost invariant = { λ p. p.index < MAX_PROCESSES };

    ghost inverse = { λ n. record { index = n } };
}

impl Pid {
    /// Returns the process of that number, or `None` where no cluster has so many processes.
    pub fn new(number: u32) -> Option<Pid>
        ensures in_range { IsSome result ↔ (number < MAX_PROCESSES) }
        ensures number { IfSome result (λ pid. pid ≡ number) }
    {
        let index = number as usize;
        if index < MAX_PROCESSES {
            Some(Pid { index: index as u8 })
        } else {
            None
        }
    }

    /// Returns the process at a place of a vector.
    pub fn at(index: usize) -> Pid
        requires { index < MAX_PROCESSES }
        ensures { result ≡ index }
    {
        Self { index: index as u8 }
    }

    /// Returns the place of this process in vectors.
    pub fn index(self) -> usize
        ensures place { result ≡ self }
        ensures in_range { result < MAX_PROCESSES }
    {
        self.index as usize
    }
}
