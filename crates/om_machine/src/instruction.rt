//! What instructions do: one expansion of the list of rows, at the registers, pc and memory as they are.

ghost use Rattle.std.specs.Prelude.{◌≡◌, ◌+◌, ◌%◌, ◌<◌, ◌≤◌, IfNone, length};
ghost use Rattle.std.specs.Int.{w8, w16};
ghost use Rattle.om_machine.specs.State.{reg, byte_at, half_at, word_at};
ghost use Rattle.om_machine.specs.Effects.{branch_effect, address_of, jump_effect, access_fault, signed_at, load_effect, store_effect, call_effect, effect_of, applied};
ghost use Rattle.om_machine.specs.steps.Told.{told, CanHave, event_of};

use crate::effect::EffectNow;
use crate::event::{Cause, EnvCall, Event};
use crate::limits::{A0, A1, A2, A7};
use crate::machine::Machine;
use crate::memory::{read_half, read_word};
use crate::products::{
    divide, divide_unsigned, multiply, multiply_high, multiply_high_signed_unsigned,
    multiply_high_unsigned, remainder, remainder_unsigned,
};
use crate::values::{
    add, and, at_least, at_least_unsigned, clear_bit_0, equal, extend_byte, extend_half, less_than,
    less_than_unsigned, not_equal, or, set_less_than, set_less_than_unsigned, shift_left_logical,
    shift_right_arithmetic, shift_right_logical, subtract, xor,
};
use om_isa::{Imm12, Inst, Off13, Reg, rows, shape};

// The effect of a row, with the fields of its form in their order.
macro_rules! effect {
    ($m:ident (load_upper) u $a:ident $b:ident $c:ident) => {
        EffectNow::Put { rd: $a, value: 4096 * $b.value() }
    };
    ($m:ident (add_upper_to_pc) u $a:ident $b:ident $c:ident) => {
        EffectNow::Put { rd: $a, value: add($m.pc, 4096 * $b.value()) }
    };
    ($m:ident (jump) j $a:ident $b:ident $c:ident) => {
        $m.jump($a, add($m.pc, $b.value().cast_unsigned()))
    };
    ($m:ident (jump_register) i $a:ident $b:ident $c:ident) => {
        $m.jump($a, clear_bit_0($m.address($b, $c)))
    };
    ($m:ident (branch $holds:ident) b $a:ident $b:ident $c:ident) => {
        $m.branch($holds($m.operand($a), $m.operand($b)), $c)
    };
    ($m:ident (access $load:ident) i $a:ident $b:ident $c:ident) => {
        $m.$load($a, $m.address($b, $c))
    };
    ($m:ident (access $store:ident) s $a:ident $b:ident $c:ident) => {
        $m.$store($b, $m.address($a, $c))
    };
    ($m:ident (put $value:ident) i $a:ident $b:ident $c:ident) => {
        EffectNow::Put { rd: $a, value: $value($m.operand($b), $c.value().cast_unsigned()) }
    };
    ($m:ident (put $value:ident) shift $a:ident $b:ident $c:ident) => {
        EffectNow::Put { rd: $a, value: $value($m.operand($b), u32::from($c.value())) }
    };
    ($m:ident (put $value:ident) r $a:ident $b:ident $c:ident) => {
        EffectNow::Put { rd: $a, value: $value($m.operand($b), $m.operand($c)) }
    };
    ($m:ident (nothing) fence $a:ident $b:ident $c:ident) => {
        EffectNow::Nothing
    };
    ($m:ident (environment_call) whole $a:ident $b:ident $c:ident) => {
        EffectNow::Call
    };
    ($m:ident (breakpoint) whole $a:ident $b:ident $c:ident) => {
        EffectNow::Trap(Cause::Break)
    };
}

macro_rules! effect_rows {
    ([$m:ident $inst:ident] $($name:ident $ext:ident $text:tt $form:ident $codes:tt $effect:tt,)*) => {
        match *$inst {
            $(shape!($name $form a b c) => effect!($m $effect $form a b c),)*
        }
    };
}

impl Machine {
    // Returns what an instruction does now.
    #[inline(always)]
    pub(crate) fn effect(&self, inst: &Inst) -> EffectNow
        ensures effect { told self.now result ≡ effect_of self.now inst.now }
        ensures can { CanHave self.now result }
    {
        rows!(effect_rows!(self inst))
    }

    // Returns the number of a register.
    fn operand(&self, r: Reg) -> u32
        ensures { result ≡ reg self.now r }
    {
        self.number(r.value() as usize)
    }

    // Returns the sum of a register and an immediate.
    fn address(&self, base: Reg, imm: Imm12) -> u32
        ensures { result ≡ address_of self.now base imm }
    {
        add(self.operand(base), imm.value().cast_unsigned())
    }

    // Returns the effect of a branch to an offset from its own address.
    #[tactic(auto, unfolding(crate::specs::Effects::branch_effect))]
    fn branch(&self, holds: bool, offset: Off13) -> EffectNow
        ensures effect { told self.now result ≡ branch_effect self.now holds offset }
        ensures can { CanHave self.now result }
    {
        if !holds {
            return EffectNow::Nothing;
        }
        let target = add(self.pc, offset.value().cast_unsigned());
        if target % 4 == 0 {
            EffectNow::Go { target }
        } else {
            EffectNow::Trap(Cause::TargetMisaligned)
        }
    }

    // Returns the effect of a jump: the trap where the target is misaligned.
    #[tactic(auto, unfolding(crate::specs::Effects::jump_effect))]
    fn jump(&self, rd: Reg, target: u32) -> EffectNow
        ensures effect { told self.now result ≡ jump_effect rd target }
        ensures can { CanHave self.now result }
    {
        if target % 4 == 0 {
            EffectNow::Jump { rd, target }
        } else {
            EffectNow::Trap(Cause::TargetMisaligned)
        }
    }

    // Returns why so many bytes may not be accessed at an address, if there is a cause.
    #[tactic(auto, unfolding(crate::specs::Effects::access_fault))]
    fn access_fault(&self, width: u32, address: u32) -> Option<Cause>
        requires { 0 < width }
        ensures cause { result ≡ access_fault self.now width address }
        ensures inside { IfNone result (address + width ≤ length self.now.memory) }
        ensures aligned { IfNone result (address % width ≡ 0) }
    {
        if address % width != 0 {
            Some(Cause::DataMisaligned)
        } else if address as usize + width as usize > self.memory.len() {
            Some(Cause::DataOutside)
        } else {
            None
        }
    }

    #[tactic(auto, unfolding(crate::specs::Effects::access_effect))]
    fn load_byte(&self, rd: Reg, address: u32) -> EffectNow
        ensures effect { told self.now result ≡ load_effect self.now rd 1 (signed_at w8 byte_at) address }
        ensures can { CanHave self.now result }
    {
        match self.access_fault(1, address) {
            Some(cause) => EffectNow::Trap(cause),
            None => EffectNow::Put {
                rd,
                value: extend_byte(self.memory[address as usize]),
            },
        }
    }

    #[tactic(auto, unfolding(crate::specs::Effects::access_effect))]
    fn load_half(&self, rd: Reg, address: u32) -> EffectNow
        ensures effect { told self.now result ≡ load_effect self.now rd 2 (signed_at w16 half_at) address }
        ensures can { CanHave self.now result }
    {
        match self.access_fault(2, address) {
            Some(cause) => EffectNow::Trap(cause),
            None => EffectNow::Put {
                rd,
                value: extend_half(read_half(&self.memory, address as usize)),
            },
        }
    }

    #[tactic(auto, unfolding(crate::specs::Effects::access_effect))]
    fn load_word(&self, rd: Reg, address: u32) -> EffectNow
        ensures effect { told self.now result ≡ load_effect self.now rd 4 word_at address }
        ensures can { CanHave self.now result }
    {
        match self.access_fault(4, address) {
            Some(cause) => EffectNow::Trap(cause),
            None => EffectNow::Put {
                rd,
                value: read_word(&self.memory, address as usize),
            },
        }
    }

    #[tactic(auto, unfolding(crate::specs::Effects::access_effect))]
    fn load_byte_unsigned(&self, rd: Reg, address: u32) -> EffectNow
        ensures effect { told self.now result ≡ load_effect self.now rd 1 byte_at address }
        ensures can { CanHave self.now result }
    {
        match self.access_fault(1, address) {
            Some(cause) => EffectNow::Trap(cause),
            None => EffectNow::Put {
                rd,
                value: u32::from(self.memory[address as usize]),
            },
        }
    }

    #[tactic(auto, unfolding(crate::specs::Effects::access_effect))]
    fn load_half_unsigned(&self, rd: Reg, address: u32) -> EffectNow
        ensures effect { told self.now result ≡ load_effect self.now rd 2 half_at address }
        ensures can { CanHave self.now result }
    {
        match self.access_fault(2, address) {
            Some(cause) => EffectNow::Trap(cause),
            None => EffectNow::Put {
                rd,
                value: u32::from(read_half(&self.memory, address as usize)),
            },
        }
    }

    #[tactic(auto, unfolding(crate::specs::Effects::access_effect))]
    fn store_byte(&self, source: Reg, address: u32) -> EffectNow
        ensures effect { told self.now result ≡ store_effect self.now source 1 address }
        ensures can { CanHave self.now result }
    {
        match self.access_fault(1, address) {
            Some(cause) => EffectNow::Trap(cause),
            None => EffectNow::StoreByte {
                address,
                value: self.operand(source),
            },
        }
    }

    #[tactic(auto, unfolding(crate::specs::Effects::access_effect))]
    fn store_half(&self, source: Reg, address: u32) -> EffectNow
        ensures effect { told self.now result ≡ store_effect self.now source 2 address }
        ensures can { CanHave self.now result }
    {
        match self.access_fault(2, address) {
            Some(cause) => EffectNow::Trap(cause),
            None => EffectNow::StoreHalf {
                address,
                value: self.operand(source),
            },
        }
    }

    #[tactic(auto, unfolding(crate::specs::Effects::access_effect))]
    fn store_word(&self, source: Reg, address: u32) -> EffectNow
        ensures effect { told self.now result ≡ store_effect self.now source 4 address }
        ensures can { CanHave self.now result }
    {
        match self.access_fault(4, address) {
            Some(cause) => EffectNow::Trap(cause),
            None => EffectNow::StoreWord {
                address,
                value: self.operand(source),
            },
        }
    }

    // Returns the environment call that x17 numbers, or the trap where there is none.
    #[tactic(auto, unfolding(crate::specs::Effects::call_effect))]
    pub(crate) fn call(&self) -> Event
        ensures event { result ≡ event_of (call_effect self.now) }
        ensures applied { applied self.now (call_effect self.now) ≡ (result, self.now) }
    {
        let (first, second) = (self.number(A0), self.number(A1));
        let call = match self.number(A7) {
            0 => EnvCall::Exit { code: first },
            1 => EnvCall::Send {
                to: first,
                addr: second,
                len: self.number(A2),
            },
            2 => EnvCall::Receive {
                addr: first,
                cap: second,
            },
            3 => EnvCall::Output {
                addr: first,
                len: second,
            },
            4 => EnvCall::Who,
            _ => return Event::Trap(Cause::UnknownCall),
        };
        Event::Call(call)
    }

    // Returns what a step is that has this effect.
    pub(crate) fn event(&self, effect: EffectNow) -> Event
        ensures { result ≡ event_of (told self.now effect) }
    {
        match effect {
            EffectNow::Call => self.call(),
            EffectNow::Trap(cause) => Event::Trap(cause),
            _ => Event::Went,
        }
    }
}
