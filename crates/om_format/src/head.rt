//! What a checkpoint says before its memory.

use om_interval::{DepVec, Pid};
use om_isa::{Ext, WRITABLE_REGISTERS};

/// What a checkpoint says before its memory. There are as many processes as each vector has places.
#[derive(Clone, Copy, Debug)]
pub struct Head {
    /// The instructions that the program may use.
    pub ext: Ext,
    pub pid: Pid,
    pub interval: u32,
    /// How many instructions were finished.
    pub count: u64,
    pub pc: u32,
    /// The registers x1 to x31.
    pub regs: [u32; WRITABLE_REGISTERS],
    /// The direct dependency vector.
    pub vec: DepVec,
    /// How many messages were received, by sender.
    pub got: DepVec,
    /// How many messages were sent, by receiver.
    pub sent: DepVec,
    /// How many outputs were made.
    pub made: u64,
}
