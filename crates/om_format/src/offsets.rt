//! Where the parts of a checkpoint of n processes begin. Each place is said once, and by the part before it.

ghost use Rattle.std.specs.Prelude.{◌≡◌, ◌<◌, ◌^◌};
ghost use Rattle.om_format.specs.steps.Offsets.{got_offset, made_offset, size_offset, memory_offset};

use om_isa::WRITABLE_REGISTERS;

/// The number of processes.
pub const CLUSTER: usize = 2;

/// Which process it is.
pub const OWN: usize = CLUSTER + 1;

/// How many instructions it had finished, behind its interval.
pub const COUNT: usize = OWN + 1 + 4;

/// The address of the next one.
pub const PC: usize = COUNT + 8;

/// The dependency vector, behind the registers.
pub const VECTOR: usize = PC + 4 + 4 * WRITABLE_REGISTERS;

// Returns the offset of the numbers of messages got.
pub(crate) fn got_offset(n: usize) -> usize
    requires { got_offset n < 2 ^ 64 }
    ensures { result ≡ got_offset n }
{
    VECTOR + 4 * n
}

// Returns the offset of the number of outputs made, behind the numbers of messages got and of messages sent.
pub(crate) fn made_offset(n: usize) -> usize
    requires { made_offset n < 2 ^ 64 }
    ensures { result ≡ made_offset n }
{
    got_offset(n) + 8 * n
}

// Returns the offset of the size of the memory.
pub(crate) fn size_offset(n: usize) -> usize
    requires { size_offset n < 2 ^ 64 }
    ensures { result ≡ size_offset n }
{
    made_offset(n) + 8
}

// Returns the offset of the memory.
pub(crate) fn memory_offset(n: usize) -> usize
    requires { memory_offset n < 2 ^ 64 }
    ensures { result ≡ memory_offset n }
{
    size_offset(n) + 4
}
