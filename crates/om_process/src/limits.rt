//! Limits of processes.

/// What a process finds in x10 where a send or an output was refused.
pub const REFUSED: u32 = 0xFFFF_FFFF;

/// The number of messages to one process at which no more can be sent.
pub const LAST_NUMBER: u32 = 0xFFFF_FFFF;

/// The last interval of a process.
pub const LAST_INTERVAL: u32 = 0xFFFF_FFFF;

/// The number of outputs at which no more can be made. It is not reached: each output counts as an instruction, and no
/// process finishes so many.
pub const LAST_OUTPUT: u64 = u64::MAX;
