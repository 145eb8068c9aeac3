//! The texts of answers.

ghost use Rattle.std.specs.Prelude.{◌≡◌, IfOk, string_bytes};
ghost use Rattle.om_requests.specs.Answers.{memory_text, piece_text, registers_text, target_text, word_bytes};

use om_isa::REGISTERS;
use om_machine::Machine;
use std::alloc::{AllocError, Global};

/// What is answered where what is asked is not there, or is refused.
pub const ERROR: &str = "E01";

const TARGET: &str =
    "<?xml version=\"1.0\"?><!DOCTYPE target SYSTEM \"gdb-target.dtd\"><target version=\"1.0\"><architecture>riscv:rv32</architecture><osabi>none</osabi><feature name=\"org.gnu.gdb.riscv.cpu\"><reg name=\"zero\" bitsize=\"32\" regnum=\"0\" type=\"int\"/><reg name=\"ra\" bitsize=\"32\" regnum=\"1\" type=\"code_ptr\"/><reg name=\"sp\" bitsize=\"32\" regnum=\"2\" type=\"data_ptr\"/><reg name=\"gp\" bitsize=\"32\" regnum=\"3\" type=\"data_ptr\"/><reg name=\"tp\" bitsize=\"32\" regnum=\"4\" type=\"data_ptr\"/><reg name=\"t0\" bitsize=\"32\" regnum=\"5\" type=\"int\"/><reg name=\"t1\" bitsize=\"32\" regnum=\"6\" type=\"int\"/><reg name=\"t2\" bitsize=\"32\" regnum=\"7\" type=\"int\"/><reg name=\"fp\" bitsize=\"32\" regnum=\"8\" type=\"data_ptr\"/><reg name=\"s1\" bitsize=\"32\" regnum=\"9\" type=\"int\"/><reg name=\"a0\" bitsize=\"32\" regnum=\"10\" type=\"int\"/><reg name=\"a1\" bitsize=\"32\" regnum=\"11\" type=\"int\"/><reg name=\"a2\" bitsize=\"32\" regnum=\"12\" type=\"int\"/><reg name=\"a3\" bitsize=\"32\" regnum=\"13\" type=\"int\"/><reg name=\"a4\" bitsize=\"32\" regnum=\"14\" type=\"int\"/><reg name=\"a5\" bitsize=\"32\" regnum=\"15\" type=\"int\"/><reg name=\"a6\" bitsize=\"32\" regnum=\"16\" type=\"int\"/><reg name=\"a7\" bitsize=\"32\" regnum=\"17\" type=\"int\"/><reg name=\"s2\" bitsize=\"32\" regnum=\"18\" type=\"int\"/><reg name=\"s3\" bitsize=\"32\" regnum=\"19\" type=\"int\"/><reg name=\"s4\" bitsize=\"32\" regnum=\"20\" type=\"int\"/><reg name=\"s5\" bitsize=\"32\" regnum=\"21\" type=\"int\"/><reg name=\"s6\" bitsize=\"32\" regnum=\"22\" type=\"int\"/><reg name=\"s7\" bitsize=\"32\" regnum=\"23\" type=\"int\"/><reg name=\"s8\" bitsize=\"32\" regnum=\"24\" type=\"int\"/><reg name=\"s9\" bitsize=\"32\" regnum=\"25\" type=\"int\"/><reg name=\"s10\" bitsize=\"32\" regnum=\"26\" type=\"int\"/><reg name=\"s11\" bitsize=\"32\" regnum=\"27\" type=\"int\"/><reg name=\"t3\" bitsize=\"32\" regnum=\"28\" type=\"int\"/><reg name=\"t4\" bitsize=\"32\" regnum=\"29\" type=\"int\"/><reg name=\"t5\" bitsize=\"32\" regnum=\"30\" type=\"int\"/><reg name=\"t6\" bitsize=\"32\" regnum=\"31\" type=\"int\"/><reg name=\"pc\" bitsize=\"32\" regnum=\"32\" type=\"code_ptr\"/></feature></target>";

// Returns the numbers of x0 to x31.
fn registers_of(machine: &Machine) -> [u32; REGISTERS]
    ensures { result ≡ machine.now.regs }
{
    let mut regs = [0; REGISTERS];
    regs[1..].copy_from_slice(&machine.regs());
    regs
}

// Returns words as their bytes.
fn word_bytes(alloc: Global, words: &[u32]) -> Result<Vec<u8>, AllocError>
    ensures { IfOk result (λ bytes. bytes.items ≡ word_bytes words.now) }
{
    let mut bytes = Vec::new(alloc);
    for word in words {
        bytes.extend_from_slice(&word.to_le_bytes())?;
    }
    Ok(bytes)
}

/// Returns x0 to x31 and pc of a machine as the packet `g` is answered: each 8 hexadecimal digits, its lowest byte first. Refused
/// only where memory ran out.
pub fn registers_text(alloc: Global, machine: &Machine) -> Result<String, AllocError>
    ensures { IfOk result (λ text. string_bytes text ≡ registers_text machine.now) }
{
    let mut bytes = word_bytes(alloc, &registers_of(machine))?;
    bytes.extend_from_slice(&machine.pc().to_le_bytes())?;
    hex::encode(alloc, bytes)
}

/// Returns so many bytes of the memory of a machine from an address on as the packet `m` is answered: 2 hexadecimal digits
/// each, fewer bytes at the end of memory, and an error where the address lies behind it. Refused only where memory ran out.
pub fn memory_text(
    alloc: Global,
    machine: &Machine,
    address: u32,
    count: u32,
) -> Result<String, AllocError>
    ensures { IfOk result (λ text. string_bytes text ≡ memory_text machine.now address count) }
{
    let memory = machine.memory();
    let start = address as usize;
    if start >= memory.len() {
        return String::from_str(alloc, ERROR);
    }
    let end = memory.len().min(start.saturating_add(count as usize));
    hex::encode(alloc, &memory[start..end])
}

/// Returns the description of the machine as gdb wants it: RV32 with no system below the program, x0 to x31 by the names of its
/// calling convention, and pc.
pub fn target_text() -> &'static str
    ensures { result.now ≡ target_text }
{
    TARGET
}

/// Returns a piece of a text as the packets `qXfer` are answered: `m`, where more of the text comes behind it, and `l` where none
/// does, and at most so many bytes from an offset on. Refused only where memory ran out.
pub fn piece_text(
    alloc: Global,
    whole: &[u8],
    offset: u32,
    count: u32,
) -> Result<Vec<u8>, AllocError>
    ensures { IfOk result (λ piece. piece.items ≡ piece_text whole.now offset count) }
{
    let start = offset as usize;
    let mut piece = Vec::new(alloc);
    if start >= whole.len() {
        piece.push(b'l')?;
        return Ok(piece);
    }
    let rest = &whole[start..];
    if (count as usize) < rest.len() {
        piece.push(b'm')?;
        piece.extend_from_slice(&rest[..count as usize])?;
        return Ok(piece);
    }
    piece.push(b'l')?;
    piece.extend_from_slice(rest)?;
    Ok(piece)
}
