//! Kinds, versions and limits of records.

/// The greatest number of bytes in a body.
pub const MAX_BODY: usize = 256;

/// The first byte of a receipt.
pub const RECEIPT_KIND: u8 = 0x52;

/// The second byte of a receipt.
pub const RECEIPT_VERSION: u8 = 1;

/// The first byte of a checkpoint of a program without multiplication and division.
pub const CHECKPOINT_KIND: u8 = 0x43;

/// The first byte of a checkpoint of a program with them.
pub const CHECKPOINT_KIND_M: u8 = 0x4D;

/// The second byte of a checkpoint of version 1.
pub const CHECKPOINT_VERSION_1: u8 = 1;

/// The second byte of a checkpoint of version 2.
pub const CHECKPOINT_VERSION_2: u8 = 2;

/// The greatest number of processes in a checkpoint of version 1.
pub const MAX_PROCESSES_OF_VERSION_1: usize = 8;
