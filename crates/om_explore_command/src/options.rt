//! What is asked of an exploration.

use om_commands::BytesForm;

/// How far an exploration is to go, and how it is told.
#[derive(Clone, Copy, Debug, PartialEq, Eq)]
pub struct Options {
    /// How many runs are played; of an exploration of all runs, how many walks are made at most.
    pub runs: u64,
    /// Determines which orders are drawn. An exploration of all runs draws none.
    pub seed: u64,
    /// Whether each run is played that there can be, up to the order of receipts of different processes.
    pub is_all: bool,
    /// How many turns, each of as many instructions as the cluster file says, a process takes at most.
    pub turns: u64,
    /// How the bytes of outputs are written in which texts differ.
    pub form: BytesForm,
}
