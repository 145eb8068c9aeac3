//! The versions of a checkpoint.

/// The versions of a checkpoint. Each is read, and the last one is written.
#[derive(Clone, Copy, Debug, PartialEq, Eq)]
pub enum Version {
    /// At most 8 processes, and every byte of the memory.
    V1,
    /// At most 16 processes, and the pages of the memory that are not all zero.
    V2,
}
