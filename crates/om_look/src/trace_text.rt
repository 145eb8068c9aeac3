//! The lines of a trace.

ghost use Rattle.std.specs.Prelude.{◌≡◌, ◌++◌, ◌<◌, ◌≤◌, ◌∷◌, [], OnOk, codes, decimal, drop, length, take};
ghost use Rattle.hex.specs.Hex.{encode_lower};
ghost use Rattle.om_isa.specs.Text.{text_of};
ghost use Rattle.om_look.specs.Trace.{answer_text, body_text, gained_text, register_text, word_text};
ghost use Rattle.om_look.specs.steps.Emitted.{kept_in, made_text, place_of};
ghost use Rattle.om_look.specs.steps.Writes.{line_text, written_text};
ghost use Rattle.om_machine.specs.declared.event.Event.{Event};
ghost use Rattle.om_process.specs.Core.{cluster_size};
ghost use Rattle.om_process.specs.Kept.{queue_at};

use crate::tracing::Before;
use crate::writes::{Written, what_it_writes};
use om_interval::Pid;
use om_isa::Inst;
use om_machine::{EnvCall, Event, Machine};
use om_process::ProcCore;
use std::alloc::{AllocError, Global};
use std::io::Write;

// Writes the line of an instruction that was carried out.
#[tactic(auto, unfolding(crate::specs::steps::Writes::line_text))]
pub(crate) fn push_line(
    text: &mut Vec<u8>,
    before: &Before,
    after: &Machine,
) -> Result<(), AllocError>
    ensures { OnOk result (text.new.items ≡ text.old.items ++ line_text before.now.count before.now.pc before.now.word
        before.now.inst before.now.address before.now.event after.now) }
{
    push_fetched(text, before)?;
    push_written(text, what_it_writes(&before.inst), before.address, after)?;
    push_answer(text, before.event, after)?;
    text.push(b'\n')?;
    Ok(())
}

// Writes the count, pc, the word and its text.
fn push_fetched(text: &mut Vec<u8>, before: &Before) -> Result<(), AllocError>
    ensures { OnOk result (text.new.items ≡ text.old.items ++ decimal before.now.count ++ 32 ∷ word_text before.now.pc
        ++ 32 ∷ word_text before.now.word ++ 32 ∷ text_of before.now.inst) }
{
    let count = before.count;
    write!(text, "{count} ").map_err(|_| AllocError)?;
    push_word(text, before.pc)?;
    text.push(b' ')?;
    push_word(text, before.word)?;
    text.push(b' ')?;
    push_instruction(text, &before.inst)
}

fn push_instruction(text: &mut Vec<u8>, inst: &Inst) -> Result<(), AllocError>
    ensures { OnOk result (text.new.items ≡ text.old.items ++ text_of inst.now) }
{
    inst.write_text(text).map_err(|_| AllocError)
}

// Writes a number in eight hexadecimal digits.
fn push_word(text: &mut Vec<u8>, word: u32) -> Result<(), AllocError>
    ensures { OnOk result (text.new.items ≡ text.old.items ++ word_text word) }
{
    let mut digits = [0; 8];
    let _fits = hex::encode_to_slice(word.to_be_bytes(), &mut digits);
    text.extend_from_slice(&digits)
}

// Writes what the instruction wrote.
fn push_written(
    text: &mut Vec<u8>,
    what: Written,
    address: u32,
    after: &Machine,
) -> Result<(), AllocError>
    ensures { OnOk result (text.new.items ≡ text.old.items ++ written_text what address after.now) }
{
    match what {
        Written::Nothing => Ok(()),
        Written::Register(rd) => {
            let r = rd.value();
            if r == 0 {
                return Ok(());
            }
            push_register(text, r, after.reg(rd))
        }
        Written::Bytes { width, .. } => push_bytes(text, address, width.bytes(), after.memory()),
    }
}

// Writes a register with its number.
fn push_register(text: &mut Vec<u8>, r: u8, value: u32) -> Result<(), AllocError>
    ensures { OnOk result (text.new.items ≡ text.old.items ++ codes "; x" ++ decimal r ++ codes " = " ++ word_text value) }
{
    write!(text, "; x{r} = ").map_err(|_| AllocError)?;
    push_word(text, value)
}

// Writes an address, and so many bytes of memory from there on.
fn push_bytes(
    text: &mut Vec<u8>,
    address: u32,
    width: usize,
    memory: &[u8],
) -> Result<(), AllocError>
    requires { width ≤ 4 }
    ensures { OnOk result (text.new.items
        ≡ text.old.items ++ codes "; " ++ word_text address ++ 32 ∷ encode_lower (take width (drop address memory.now))) }
{
    text.extend_from_slice(b"; ")?;
    push_word(text, address)?;
    text.push(b' ')?;
    let start = memory.len().min(address as usize);
    let bytes = &memory[start..];
    push_few(text, &bytes[..width.min(bytes.len())])
}

// Writes up to 4 bytes in hexadecimal.
fn push_few(text: &mut Vec<u8>, bytes: &[u8]) -> Result<(), AllocError>
    requires { length bytes.now ≤ 4 }
    ensures { OnOk result (text.new.items ≡ text.old.items ++ encode_lower bytes.now) }
{
    let mut digits = [0; 8];
    let digits = &mut digits[..2 * bytes.len()];
    let _fits = hex::encode_to_slice(bytes, digits);
    text.extend_from_slice(digits)
}

// Writes what the answer to an environment call wrote.
fn push_answer(text: &mut Vec<u8>, event: Event, after: &Machine) -> Result<(), AllocError>
    ensures { OnOk result (text.new.items ≡ text.old.items ++ answer_text event after.now) }
{
    match event {
        Event::Call(EnvCall::Send { .. }) => push_first(text, after),
        Event::Call(EnvCall::Output { .. }) => push_first(text, after),
        Event::Call(EnvCall::Who) => {
            push_first(text, after)?;
            push_register(text, 11, after.regs()[10])
        }
        _ => Ok(()),
    }
}

// Writes x10.
fn push_first(text: &mut Vec<u8>, after: &Machine) -> Result<(), AllocError>
    ensures { OnOk result (text.new.items ≡ text.old.items ++ register_text 10 after.now) }
{
    push_register(text, 10, after.regs()[9])
}

// Returns how many entries the queue has that a call may add to.
pub(crate) fn kept_of(core: &ProcCore, event: Event) -> usize
    ensures { result ≡ kept_in core.now.now.queues (place_of (cluster_size core.now.now) event) }
{
    match event {
        Event::Call(call) => kept_at(core, call),
        Event::Went | Event::Trap(_) => 0,
    }
}

fn kept_at(core: &ProcCore, call: EnvCall) -> usize
    ensures { result ≡ kept_in core.now.now.queues (place_of (cluster_size core.now.now) (Event.Call call)) }
{
    match call {
        EnvCall::Send { to, .. } => {
            if to as usize >= core.vec().n() {
                return 0;
            }
            core.outbox(Pid::at(to as usize)).len()
        }
        EnvCall::Output { .. } => core.outputs_from(0).len(),
        EnvCall::Exit { .. } | EnvCall::Receive { .. } | EnvCall::Who => 0,
    }
}

// Writes the line of the message or the output that was made, if one was.
pub(crate) fn push_made(
    alloc: Global,
    text: &mut Vec<u8>,
    event: Event,
    kept: usize,
    core: &ProcCore,
) -> Result<(), AllocError>
    ensures { OnOk result (text.new.items
        ≡ text.old.items ++ made_text event (place_of (cluster_size core.now.now) event) kept core.now.now.queues) }
{
    match event {
        Event::Call(EnvCall::Send { to, .. }) => {
            if to as usize >= core.vec().n() {
                return Ok(());
            }
            push_sent(alloc, text, Pid::at(to as usize), kept, core)
        }
        Event::Call(EnvCall::Output { .. }) => push_output(alloc, text, kept, core),
        _ => Ok(()),
    }
}

fn push_sent(
    alloc: Global,
    text: &mut Vec<u8>,
    to: Pid,
    kept: usize,
    core: &ProcCore,
) -> Result<(), AllocError>
    requires { to < cluster_size core.now.now }
    ensures { OnOk result (text.new.items
        ≡ text.old.items ++ gained_text (codes "send " ++ decimal to) kept (queue_at core.now.now.queues to)) }
{
    let sent = core.outbox(to);
    if kept >= sent.len() {
        return Ok(());
    }
    let sent = &sent[kept];
    push_receiver(text, to)?;
    push_entry(alloc, text, u64::from(sent.ssn), sent.body.as_slice())
}

fn push_output(
    alloc: Global,
    text: &mut Vec<u8>,
    kept: usize,
    core: &ProcCore,
) -> Result<(), AllocError>
    ensures { OnOk result (text.new.items
        ≡ text.old.items ++ gained_text (codes "out") kept (queue_at core.now.now.queues (cluster_size core.now.now))) }
{
    let outputs = core.outputs_from(0);
    if kept >= outputs.len() {
        return Ok(());
    }
    let made = &outputs[kept];
    text.extend_from_slice(b"out")?;
    push_entry(alloc, text, made.seq, made.bytes.as_slice())
}

fn push_receiver(text: &mut Vec<u8>, to: Pid) -> Result<(), AllocError>
    ensures { OnOk result (text.new.items ≡ text.old.items ++ codes "send " ++ decimal to) }
{
    let to = to.index();
    write!(text, "send {to}").map_err(|_| AllocError)
}

// Writes a number, and the bytes of a message or an output in hexadecimal, or `-` where there are none; and ends the line.
fn push_entry(
    alloc: Global,
    text: &mut Vec<u8>,
    number: u64,
    bytes: &[u8],
) -> Result<(), AllocError>
    ensures { OnOk result (text.new.items
        ≡ text.old.items ++ 32 ∷ decimal number ++ 32 ∷ body_text bytes.now ++ 10 ∷ []) }
{
    write!(text, " {number} ").map_err(|_| AllocError)?;
    if bytes.is_empty() {
        text.push(b'-')?;
    } else {
        text.extend_from_slice(hex::encode(alloc, bytes)?.as_bytes())?;
    }
    text.push(b'\n')?;
    Ok(())
}
