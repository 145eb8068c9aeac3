//! What instructions write.

ghost use Rattle.std.specs.Prelude.{◌≡◌, ◌≤◌};
ghost use Rattle.om_look.specs.steps.Writes.{address_in, width_in, writes_of};

use om_isa::{Imm12, Inst, Reg, rows, shape};
use om_machine::Machine;

/// How many bytes a store writes.
#[derive(Clone, Copy)]
pub enum Width {
    Byte,
    Half,
    Word,
}

/// What an instruction writes beside pc.
#[derive(Clone, Copy)]
pub enum Written {
    Nothing,
    Register(Reg),
    /// Bytes of memory, at the sum of a register and an immediate.
    Bytes { base: Reg, imm: Imm12, width: Width },
}

// What a row writes, by its form, and where it is a store by its effect.
macro_rules! written {
    (u $effect:tt $a:ident $b:ident $c:ident) => {
        Written::Register($a)
    };
    (j $effect:tt $a:ident $b:ident $c:ident) => {
        Written::Register($a)
    };
    (i $effect:tt $a:ident $b:ident $c:ident) => {
        Written::Register($a)
    };
    (shift $effect:tt $a:ident $b:ident $c:ident) => {
        Written::Register($a)
    };
    (r $effect:tt $a:ident $b:ident $c:ident) => {
        Written::Register($a)
    };
    (s (access store_byte) $a:ident $b:ident $c:ident) => {
        Written::Bytes { base: $a, imm: $c, width: Width::Byte }
    };
    (s (access store_half) $a:ident $b:ident $c:ident) => {
        Written::Bytes { base: $a, imm: $c, width: Width::Half }
    };
    (s (access store_word) $a:ident $b:ident $c:ident) => {
        Written::Bytes { base: $a, imm: $c, width: Width::Word }
    };
    ($form:ident $effect:tt $a:ident $b:ident $c:ident) => {
        Written::Nothing
    };
}

macro_rules! written_rows {
    ([$inst:ident] $($name:ident $ext:ident $text:tt $form:ident $codes:tt $effect:tt,)*) => {
        match *$inst {
            $(shape!($name $form a b c) => written!($form $effect a b c),)*
        }
    };
}

// Returns what an instruction writes.
pub(crate) fn what_it_writes(inst: &Inst) -> Written
    ensures { result ≡ writes_of inst.now }
{
    rows!(written_rows!(inst))
}

impl Width {
    pub(crate) fn bytes(self) -> usize
        ensures bytes { result ≡ width_in self }
        ensures few { result ≤ 4 }
    {
        match self {
            Width::Byte => 1,
            Width::Half => 2,
            Width::Word => 4,
        }
    }
}

impl Written {
    // Returns the address of the bytes, or 0 where none are written.
    pub(crate) fn address(self, machine: &Machine) -> u32
        ensures { result ≡ address_in machine.now self }
    {
        match self {
            Written::Bytes { base, imm, .. } => {
                let base = machine.reg(base);
                base.wrapping_add(imm.value().cast_unsigned())
            }
            Written::Nothing | Written::Register(_) => 0,
        }
    }
}
