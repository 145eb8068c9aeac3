//! What a process stores at once.

/// What a process stores at once of what it keeps.
#[derive(Clone, Copy, Debug, PartialEq, Eq)]
pub enum Batch {
    /// The whole log.
    Log,
    /// So many receipts from the front of the log, or all where it is shorter.
    First(usize),
    /// A checkpoint of now.
    Checkpoint,
}
