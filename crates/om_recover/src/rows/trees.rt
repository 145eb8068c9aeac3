//! Where the rows stand: checkpoints, and logs in runs and in a tree.

use crate::rows::run_logs::RunLogs;
use om_interval::{DepVec, Pid};
use std::collections::BTreeMap;

/// The vectors of an interval.
#[derive(Clone, Copy, Debug, PartialEq, Eq)]
pub struct Vectors {
    pub vec: DepVec,
    pub got: DepVec,
}

/// A checkpoint.
#[derive(Clone, Copy, Debug)]
pub struct Base {
    pub vectors: Vectors,
    /// Below the next checkpoint, the intervals from this one on are stable up to here.
    pub last: u32,
}

/// The newest checkpoint of a process.
#[derive(Clone, Copy, Debug)]
pub struct Newest {
    pub interval: u32,
    pub base: Base,
}

/// Checkpoints: of each process the newest, and the others by process and interval.
#[derive(Debug, Drop)]
pub struct Bases {
    pub newest: Vec<Option<Newest>>,
    pub others: BTreeMap<(Pid, u32), Base>,
}

/// Logs of a process that follow on one another, as most of them come.
#[derive(Debug, Drop)]
pub struct Run {
    /// The interval of the first.
    pub first: u32,
    pub logs: RunLogs,
}

/// Logs: of each process a run, and the others by process and interval.
#[derive(Debug, Drop)]
pub struct Logs {
    pub runs: Vec<Run>,
    pub others: BTreeMap<(Pid, u32), Vectors>,
}

/// Rows by process and interval.
#[derive(Debug, Drop)]
pub struct Trees {
    pub logs: Logs,
    pub bases: Bases,
}
