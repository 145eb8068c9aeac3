//! The numbers of registers.

/// The number of registers, x0 among them.
pub const REGISTERS: usize = 32;

/// The number of registers that can be written, x1 to x31.
pub const WRITABLE_REGISTERS: usize = REGISTERS - 1;
