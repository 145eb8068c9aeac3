//! Single steps: each line has a word, its name, pc, the numbers of x1 to x31 (eight digits each, joined), 64 bytes of
//! memory, pc after the step, the register that changed as `xN=VALUE` or `-`, and the bytes of memory that changed as
//! `ADDRESS=BYTES` or `-`; numbers in hexadecimal, but N.
//!
//! Memory has 65,536 bytes: the word 00100073 all over, then the line's 64 bytes from 00008000 on, then the line's word at
//! pc. The steps were executed by qemu-riscv32 7.2: 1,202 of 38 instructions, all but ecall and ebreak, and in a second
//! file 304 of RV32M, 38 of each instruction. None of them traps.

ghost use Rattle.std.specs.Prelude.{◌≡◌, ◌↔◌, length, IfSome, true};
ghost use Rattle.om_isa.specs.Memory.{IsMemorySize};
ghost use Rattle.om_machine.specs.derived.NextStep.{next_of};

use om_isa::{Ext, WRITABLE_REGISTERS};
use om_machine::{Cause, Event, Machine};
use std::alloc::{AllocError, Global};

const FILLER: u32 = 0x0010_0073;

const MEMORY_BYTES: usize = 65_536;

// Where a line's bytes of memory begin.
const DATA: usize = 0x8000;

// How many digits a number of 32 bits has.
const DIGITS: usize = 8;

// The count before each step, so that the one after it takes more than 32 bits.
const COUNT: u64 = 0xFFFF_FFFF;

// The state of a machine as a line tells it.
#[derive(Drop)]
struct Values {
    regs: [u32; WRITABLE_REGISTERS],
    pc: u32,
    memory: Vec<u8>,
}

/// Returns whether a line's step leads to what the line says in a program of RV32I. A line of another form does not agree.
pub fn agrees(alloc: Global, line: &str) -> Result<bool, AllocError> {
    match machines(alloc, line, Ext::I)? {
        Some((before, after)) => Ok(goes_to(before, &after)),
        None => Ok(false),
    }
}

/// Returns whether a line's step leads to what the line says in a program of RV32IM, and traps in one of RV32I, as it is no
/// instruction there.
pub fn agrees_with_m_alone(alloc: Global, line: &str) -> Result<bool, AllocError> {
    let goes = match machines(alloc, line, Ext::Im)? {
        Some((before, after)) => goes_to(before, &after),
        None => false,
    };
    let traps = match (
        machines(alloc, line, Ext::I)?,
        machines(alloc, line, Ext::I)?,
    ) {
        (Some((machine, _)), Some((before, _))) => is_illegal(machine, &before),
        _ => false,
    };
    Ok(goes && traps)
}

// Reads the machines before and after a line's step, or `None` where the line has another form.
fn machines(alloc: Global, line: &str, ext: Ext) -> Result<Option<(Machine, Machine)>, AllocError> {
    let fields: Vec<&str> = line.split(' ').collect(alloc)?;
    let [word, _, pc, regs, data, next_pc, reg, bytes] = fields.as_slice() else {
        return Ok(None);
    };
    let mut values = Values::filled(alloc)?;
    if values.begin(word, pc, regs, data).is_none() {
        return Ok(None);
    }
    let before = values.machine(alloc, COUNT, ext)?;
    if values.end(next_pc, reg, bytes).is_none() {
        return Ok(None);
    }
    let after = values.machine(alloc, COUNT + 1, ext)?;
    match (before, after) {
        (Some(before), Some(after)) => Ok(Some((before, after))),
        _ => Ok(None),
    }
}

// Returns whether one step leads from a machine to another, and goes.
fn goes_to(before: Machine, after: &Machine) -> bool
    ensures { (result ≡ true) ↔ (next_of before ≡ (Event.Went, after.now)) }
{
    let mut machine = before;
    machine.step() == Event::Went && machine == *after
}

// Returns whether a step finds no instruction, and leaves the machine as it was.
fn is_illegal(machine: Machine, before: &Machine) -> bool
    ensures { (result ≡ true) → (next_of machine ≡ (Event.Trap Cause.Illegal, before.now)) }
{
    let mut machine = machine;
    machine.step() == Event::Trap(Cause::Illegal) && machine == *before
}

impl Values {
    fn filled(alloc: Global) -> Result<Values, AllocError> {
        Ok(Values {
            regs: [0; WRITABLE_REGISTERS],
            pc: 0,
            memory: FILLER.to_le_bytes().repeat(alloc, MEMORY_BYTES / 4)?,
        })
    }

    // Reads the state before the step.
    fn begin(&mut self, word: &str, pc: &str, regs: &str, data: &str) -> Option<()> {
        for (k, reg) in self.regs.iter_mut().enumerate() {
            *reg = number(regs.get(k * DIGITS..(k + 1) * DIGITS)?)?;
        }
        self.pc = number(pc)?;
        hex::decode_to_slice(data, self.bytes(DATA, data.len() / 2)?).ok()?;
        let word = number(word)?.to_le_bytes();
        self.bytes(self.pc as usize, word.len())?
            .copy_from_slice(&word);
        Some(())
    }

    // Reads the state after the step: pc, the register that changed, and the bytes of memory that changed.
    fn end(&mut self, pc: &str, reg: &str, bytes: &str) -> Option<()> {
        self.pc = number(pc)?;
        if let Some((name, value)) = reg.split_once('=') {
            let place = name.strip_prefix('x')?.parse::<usize>().ok()?;
            *self.regs.get_mut(place.checked_sub(1)?)? = number(value)?;
        }
        if let Some((address, bytes)) = bytes.split_once('=') {
            let place = self.bytes(number(address)? as usize, bytes.len() / 2)?;
            hex::decode_to_slice(bytes, place).ok()?;
        }
        Some(())
    }

    // Returns the bytes of memory from an address on, or `None` where they don't lie in it.
    fn bytes(&mut self, address: usize, len: usize) -> Option<&mut [u8]>
        ensures { IfSome result (λ bytes. length bytes.now ≡ len) }
    {
        let end = address.checked_add(len)?;
        if end > self.memory.len() {
            return None;
        }
        Some(&mut self.memory[address..end])
    }

    // Makes a machine in this state, or `None` where no machine has it.
    fn machine(&self, alloc: Global, count: u64, ext: Ext) -> Result<Option<Machine>, AllocError> {
        if self.pc % 4 != 0 || self.memory.len() != MEMORY_BYTES {
            return Ok(None);
        }
        match Machine::restore(alloc, &self.regs, self.pc, count, &self.memory, ext) {
            Ok(machine) => Ok(Some(machine)),
            Err(_) => Err(AllocError),
        }
    }
}

// Reads the number that hexadecimal digits tell.
fn number(digits: &str) -> Option<u32> {
    u32::from_str_radix(digits, 16).ok()
}
