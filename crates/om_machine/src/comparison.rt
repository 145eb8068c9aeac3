//! Machines are equal where their states are.

ghost use Rattle.std.specs.Prelude.{◌&&◌, nat_eq};
ghost use Rattle.om_machine.specs.State.{number_of_ext};
ghost use Rattle.std.specs.Cmp.Lexicographic.{pointwise};
ghost use Rattle.std.specs.Cmp.Rules.{comparing};
ghost use Rattle.std.proofs.Common.{rules};

use crate::machine::Machine;
use om_isa::REGISTERS;

impl PartialEq for Machine {
    ghost eq = { λ m n. pointwise nat_eq m.regs n.regs && pointwise nat_eq m.memory n.memory
        && nat_eq m.pc n.pc && nat_eq m.count n.count && nat_eq (number_of_ext m.ext) (number_of_ext n.ext) };

    ghost laws = { Prim.search (comparing, rules) };

    fn eq(&self, other: &Machine) -> bool {
        self.regs[..REGISTERS] == other.regs[..REGISTERS]
            && self.memory == other.memory
            && self.pc == other.pc
            && self.count == other.count
            && self.ext == other.ext
    }
}

impl Eq for Machine {
    ghost laws = { Prim.search (comparing, rules) };
}
