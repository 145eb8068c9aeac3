//! What a cluster runs, and how.

use om_interval::Pid;
use om_process::Image;

/// What a cluster runs, and how.
#[derive(Debug, Drop)]
pub struct Config {
    /// The program of each process, by its number.
    pub images: Vec<Image>,
    /// A process fails right after it began the interval. Each comes about once in the whole run, if at all.
    pub kills: Vec<(Pid, u32)>,
    /// A process stores its volatile log after each so many receipts; with 0, never before it ends or joins.
    pub flush: u32,
    /// A process stores a checkpoint after each so many receipts; with 0, never.
    pub checkpoint: u32,
    /// The most instructions that a process runs in one turn of its worker.
    pub fuel: u64,
    /// The most turns that a worker takes.
    pub turns: u64,
    /// How often a worker asks the gate at most.
    pub gate_turns: u64,
}
