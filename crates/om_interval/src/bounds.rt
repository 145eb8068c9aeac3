//! What a process need not keep any longer.

use crate::dep_vec::DepVec;

/// What a process need not keep any longer.
#[derive(Clone, Copy, Debug, PartialEq, Eq)]
pub struct Bounds {
    /// By receiver: the number of messages from this process that it got in the recovery state. Messages numbered below
    /// it are never sent again.
    pub got: DepVec,
    /// The number of this process's outputs that were released. Outputs numbered below it are kept elsewhere for good.
    pub released: u64,
}
