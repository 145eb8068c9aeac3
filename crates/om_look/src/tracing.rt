//! A process that goes on, with a line for each instruction.

ghost use Rattle.std.specs.Prelude.{◌≡◌, ◌+◌, ◌++◌, ◌<◌, ◌≤◌, ℕ, List, None, IfNone, IfOk, IfSome, length, false, true};
ghost use Rattle.om_look.specs.Trace.{IsTrace};
ghost use Rattle.om_look.specs.steps.Before.{IsBefore};
ghost use Rattle.om_machine.specs.State.{word_at};
ghost use Rattle.om_machine.specs.derived.NextStep.{next_of};
ghost use Rattle.om_machine.specs.declared.event.Cause.{Cause};
ghost use Rattle.om_machine.specs.declared.event.Event.{Event};
ghost use Rattle.om_process.specs.Core.{CoreTurns, cluster_size, core_turn, move_of, status_of, with_now};

use crate::trace_text::{kept_of, push_line, push_made};
use crate::writes::what_it_writes;
use om_isa::{Inst, decode};
use om_machine::{Event, Machine};
use om_process::{ProcCore, Status};
use std::alloc::{AllocError, Global};

/// An instruction before it is carried out.
#[derive(Clone, Copy)]
pub struct Before {
    pub count: u64,
    pub pc: u32,
    pub word: u32,
    pub inst: Inst,
    /// Where it writes bytes.
    pub address: u32,
    pub event: Event,
}

/// How a trace ended.
#[derive(Clone, Copy, Debug, PartialEq, Eq)]
pub struct Traced {
    /// The number of instructions that were finished.
    pub steps: u64,
    /// What the process is about to do.
    pub status: Status,
}

/// Runs the process, at most `fuel` instructions, and writes a line for each to the text, one for each message that is sent,
/// and one for each output that is made. Where memory runs out some turns may be taken, and some lines written.
pub fn trace(
    alloc: Global,
    core: &mut ProcCore,
    fuel: u64,
    text: &mut Vec<u8>,
) -> Result<Traced, AllocError>
    ensures lines { IfOk result (λ traced. (lines : List ℕ)
        × IsTrace core.old.own (cluster_size core.old.now) traced.steps core.old.now core.new.now lines
        × (text.new.items ≡ text.old.items ++ lines)) }
    ensures turns { IfOk result (λ traced. CoreTurns traced.steps core.old core.new) }
    ensures within { IfOk result (λ traced. traced.steps ≤ fuel) }
    ensures status { IfOk result (λ traced. traced.status ≡ status_of (move_of core.new)) }
    ensures no_more { IfOk result (λ traced. traced.steps < fuel → core_turn core.new ≡ None) }
    ensures at_most { (k : ℕ) × (k ≤ fuel) × CoreTurns k core.old core.new }
    ensures rest { core.new ≡ with_now core.old core.new.now }
    ensures size { cluster_size core.new.now ≡ cluster_size core.old.now }
{
    let mut steps = 0;
    while steps < fuel {
        if !turn(alloc, core, text)? {
            return Ok(Traced {
                steps,
                status: core.status(),
            });
        }
        steps += 1;
    }
    Ok(Traced {
        steps,
        status: core.status(),
    })
}

// Takes one turn and writes its lines, if there is one.
fn turn(alloc: Global, core: &mut ProcCore, text: &mut Vec<u8>) -> Result<bool, AllocError>
    ensures turn { IfOk result (λ went. went ≡ true → (lines : List ℕ)
        × IsTrace core.old.own (cluster_size core.old.now) 1 core.old.now core.new.now lines
        × (text.new.items ≡ text.old.items ++ lines)) }
    ensures stands { IfOk result (λ went. went ≡ false
        → (core_turn core.new ≡ None) × (core.new.now ≡ core.old.now) × (text.new.items ≡ text.old.items)) }
    ensures at_most { (k : ℕ) × (k ≤ 1) × CoreTurns k core.old core.new }
    ensures rest { core.new ≡ with_now core.old core.new.now }
    ensures size { cluster_size core.new.now ≡ cluster_size core.old.now }
{
    let Some(before) = about_to_do(core.machine()) else {
        return Ok(false);
    };
    let kept = kept_of(core, before.event);
    let ran = core.run(alloc, 1)?;
    if ran.steps == 0 {
        return Ok(false);
    }
    push_line(text, &before, core.machine())?;
    push_made(alloc, text, before.event, kept, core)?;
    Ok(true)
}

// Returns the instruction that the machine is to carry out, if there is one at pc.
fn about_to_do(machine: &Machine) -> Option<Before>
    ensures before { IfSome result (IsBefore machine.now) }
    ensures none { IfNone result ((cause : Cause) × ((next_of machine.now).0 ≡ Event.Trap cause)) }
{
    let event = machine.peek();
    let word = word_of(machine)?;
    let inst = decode(word, machine.ext())?;
    Some(Before {
        count: machine.count(),
        pc: machine.pc(),
        word,
        inst,
        address: what_it_writes(&inst).address(machine),
        event,
    })
}

// Returns the word at pc, if it lies in memory.
fn word_of(machine: &Machine) -> Option<u32>
    ensures word { IfSome result (λ word. word ≡ word_at machine.now.memory machine.now.pc) }
    ensures outside { IfNone result (length machine.now.memory < machine.now.pc + 4) }
{
    let memory = machine.memory();
    let pc = machine.pc() as usize;
    if pc + 4 > memory.len() {
        return None;
    }
    let mut bytes = [0; 4];
    bytes.copy_from_slice(&memory[pc..pc + 4]);
    Some(u32::from_le_bytes(bytes))
}
