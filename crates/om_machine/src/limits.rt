//! The last count of a machine, and the registers of its calls.

/// The last value of the count of finished instructions. A machine that has reached it goes no further.
pub const LAST_COUNT: u64 = u64::MAX;

// The registers of an environment call: the arguments and results x10 to x12, and the call's number x17.
pub const A0: usize = 10;

pub const A1: usize = 11;

pub const A2: usize = 12;

pub const A7: usize = 17;
