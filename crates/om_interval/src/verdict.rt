//! What a finished round says to a process.

/// What a finished round of recovery says to one process.
#[derive(Clone, Copy, Debug, PartialEq, Eq, Hash)]
pub struct Verdict {
    /// The number of the round: 0 before any, and one more for each that finishes.
    pub round: u32,
    /// The incarnation that the process has from now on.
    pub inc: u32,
    /// The process's place in the recovery state: its last interval that stays.
    pub r: u32,
    /// Whether the process rolls back to that interval and begins the incarnation there.
    pub back: bool,
}
