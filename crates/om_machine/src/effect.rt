//! What an instruction does to a machine.

use crate::event::Cause;
use om_isa::Reg;

/// What an instruction does to a machine, once its operands are read and the tests for its traps are made.
///
/// The call at which a machine stands is read where it is answered: an effect that held it would have its bytes where the
/// numbers of the others lie, and these would be put together from bytes at each step.
#[derive(Clone, Copy)]
pub enum EffectNow {
    /// A number goes into a register.
    Put { rd: Reg, value: u32 },
    /// A branch is taken.
    Go { target: u32 },
    /// A jump is taken, and rd gets the address of the instruction behind it.
    Jump { rd: Reg, target: u32 },
    /// The low byte of a number goes to memory.
    StoreByte { address: u32, value: u32 },
    /// The low 2 bytes of a number go to memory.
    StoreHalf { address: u32, value: u32 },
    /// The 4 bytes of a number go to memory.
    StoreWord { address: u32, value: u32 },
    /// Nothing but pc changes.
    Nothing,
    /// The machine stands still at the environment call that x17 numbers, or has none of that number.
    Call,
    /// The machine stands still at a trap.
    Trap(Cause),
}
