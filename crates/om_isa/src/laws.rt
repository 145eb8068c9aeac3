//! What holds of the definitions alone.

ghost use Rattle.std.specs.Prelude.{◌≡◌};
ghost use Rattle.om_isa.specs.declared.memory.TheConstants.{MAX_MEMORY, MIN_MEMORY};
ghost use Rattle.om_isa.specs.declared.registers.TheConstants.{REGISTERS, WRITABLE_REGISTERS};

/// Proves that the limits of memories, in bytes, and the numbers of registers are these.
pub fn limits()
    ensures least_memory { MIN_MEMORY ≡ 4 }
    ensures greatest_memory { MAX_MEMORY ≡ 65536 }
    ensures registers { REGISTERS ≡ 32 }
    ensures writable_registers { WRITABLE_REGISTERS ≡ 31 }
{}
