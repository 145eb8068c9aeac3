//! The text of a process as it stands in an interval.

ghost use Rattle.std.specs.Prelude.{◌≡◌, ◌++◌, ◌∷◌, ◌≤◌, [], length, slice_index, IfOk, OnOk, string_bytes};
ghost use Rattle.om_isa.specs.declared.memory.TheConstants.{MAX_MEMORY};
ghost use Rattle.om_look.specs.Trace.{word_text};
ghost use Rattle.om_commands.specs.steps.Lines.{head_text, memory_line, memory_text, register_line, registers_text, written_state};

use om_event_text::push_status;
use om_isa::REGISTERS;
use om_machine::Machine;
use om_process::ProcCore;
use std::alloc::{AllocError, Global};
use std::fmt::Write;

/// The bytes of memory on one line.
pub const ROW_BYTES: usize = 16;

/// Makes the text of a process: its interval, its count of instructions, pc, registers and memory, and what it is about
/// to do.
pub fn state_text(alloc: Global, core: &ProcCore) -> Result<String, AllocError>
    ensures { IfOk result (λ text. string_bytes text ≡ written_state core.now) }
{
    let mut text = String::new(alloc);
    push_head(alloc, &mut text, core)?;
    push_registers(alloc, &mut text, &registers_of(core.machine()))?;
    push_memory(alloc, &mut text, core.machine().memory())?;
    text.push_str("status ")?;
    push_status(&mut text, core.status())?;
    text.push('\n')?;
    Ok(text)
}

// Writes the interval, the count and pc.
fn push_head(alloc: Global, text: &mut String, core: &ProcCore) -> Result<(), AllocError>
    ensures { OnOk result (string_bytes text.new ≡ string_bytes text.old ++ head_text core.now.now) }
{
    let interval = core.interval();
    let count = core.machine().count();
    write!(text, "interval {interval}\ncount {count}\npc ")?;
    push_word(alloc, text, core.machine().pc())?;
    text.push('\n')
}

// Writes a number in eight hexadecimal digits.
fn push_word(alloc: Global, text: &mut String, word: u32) -> Result<(), AllocError>
    ensures { OnOk result (string_bytes text.new ≡ string_bytes text.old ++ word_text word) }
{
    text.push_str(&hex::encode(alloc, word.to_be_bytes())?)
}

// Writes a line for each register.
fn push_registers(alloc: Global, text: &mut String, regs: &[u32]) -> Result<(), AllocError>
    ensures { OnOk result (string_bytes text.new ≡ string_bytes text.old ++ registers_text regs.now) }
{
    for r in 0..regs.len() {
        push_register(alloc, text, r, regs[r])?;
    }
    Ok(())
}

// Returns the numbers of x0 to x31.
fn registers_of(machine: &Machine) -> [u32; REGISTERS]
    ensures { result ≡ machine.now.regs }
{
    let mut regs = [0; REGISTERS];
    regs[1..].copy_from_slice(&machine.regs());
    regs
}

// Writes the line of a register.
fn push_register(alloc: Global, text: &mut String, r: usize, value: u32) -> Result<(), AllocError>
    ensures { OnOk result (string_bytes text.new ≡ string_bytes text.old ++ register_line r value) }
{
    write!(text, "x{r} ")?;
    push_word(alloc, text, value)?;
    text.push('\n')
}

// Writes the memory in lines.
fn push_memory(alloc: Global, text: &mut String, memory: &[u8]) -> Result<(), AllocError>
    requires size { length memory.now ≤ MAX_MEMORY }
    ensures { OnOk result (string_bytes text.new ≡ string_bytes text.old ++ memory_text memory.now) }
{
    for row in 0..memory.len().div_ceil(ROW_BYTES) {
        push_row(alloc, text, memory, row * ROW_BYTES)?;
    }
    Ok(())
}

// Writes the line of the memory from an address on.
fn push_row(
    alloc: Global,
    text: &mut String,
    memory: &[u8],
    address: usize,
) -> Result<(), AllocError>
    requires within { address ≤ length memory.now }
    requires size { length memory.now ≤ MAX_MEMORY }
    ensures { OnOk result (string_bytes text.new ≡ string_bytes text.old ++ memory_line memory.now address) }
{
    let end = memory.len().min(address + ROW_BYTES);
    push_word(alloc, text, address as u32)?;
    text.push(' ')?;
    text.push_str(&hex::encode(alloc, &memory[address..end])?)?;
    text.push('\n')
}
