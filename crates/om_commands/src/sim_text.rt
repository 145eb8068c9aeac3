//! The text of a world: the answer to each event, and how it stands in the end.

ghost use Rattle.std.specs.Prelude.{◌≡◌, ◌++◌, ◌∷◌, ◌<◌, ◌≤◌, [], length, map, slice_get, IfOk, OnOk, Some, string_bytes};
ghost use Rattle.std.specs.List.{flat_map, range_with_len};
ghost use Rattle.om_interval.specs.declared.pid.TheConstants.{MAX_PROCESSES};
ghost use Rattle.om_manager.specs.Outputs.{held_of};
ghost use Rattle.om_manager.specs.State.{process_count};
ghost use Rattle.om_commands.specs.SimText.{answer_line, core_text, name_at, output_line, outputs_text};
ghost use Rattle.om_commands.specs.steps.Lines.{answers_text, process_line, released_text, written_end};

use crate::bytes_text::{BytesForm, push_bytes_in};
use crate::report::push_state;
use om_event_text::{push_answer, push_status};
use om_interval::{DepVec, Pid};
use om_manager::{Manager, Output};
use om_process::ProcCore;
use om_scripts::Programs;
use om_stable::Stable;
use om_world::{Answer, World};
use std::alloc::{AllocError, Global};
use std::fmt::Write;

// Writes the line of an answer, behind which this is the recovery state.
fn push_line(text: &mut String, answer: Answer, state: &DepVec) -> Result<(), AllocError>
    ensures { OnOk result (string_bytes text.new ≡ string_bytes text.old ++ answer_line answer state.now) }
{
    push_answer(text, answer)?;
    match answer {
        Answer::Restarted => push_state(text, state),
        _ => text.push('\n'),
    }
}

/// Writes a line for each answer to events of which a restart can only be the last, behind which this is the recovery state.
pub(crate) fn push_answers(
    text: &mut String,
    answers: &[Answer],
    state: &DepVec,
) -> Result<(), AllocError>
    ensures { OnOk result (string_bytes text.new ≡ string_bytes text.old ++ answers_text state.now answers.now) }
{
    for answer in answers {
        push_line(text, *answer, state)?;
    }
    Ok(())
}

/// Returns the name of a process, and an empty one where there is no such process.
pub fn name_of(programs: &Programs, p: usize) -> &str
    ensures { result.now ≡ name_at programs.now p }
{
    match programs.name(p) {
        Some(name) => name,
        None => "",
    }
}

// Writes where a process that is up or in stands.
fn push_core(text: &mut String, core: &ProcCore) -> Result<(), AllocError>
    ensures { OnOk result (string_bytes text.new ≡ string_bytes text.old ++ core_text (Some (Some core.now))) }
{
    let inc = core.inc();
    let interval = core.interval();
    write!(text, "inc {inc} interval {interval} ")?;
    push_status(text, core.status())
}

// Writes where a process stands.
fn push_place<S: Stable>(text: &mut String, world: &World<S>, p: usize) -> Result<(), AllocError>
    requires { p < MAX_PROCESSES }
    ensures { OnOk result (string_bytes text.new ≡ string_bytes text.old ++ core_text (slice_get world.now.cores p)) }
{
    match world.core(Pid::at(p)) {
        Some(core) => push_core(text, core),
        None => text.push_str("down"),
    }
}

// Writes the line of a process.
fn push_process<S: Stable>(
    text: &mut String,
    programs: &Programs,
    world: &World<S>,
    p: usize,
) -> Result<(), AllocError>
    requires process { p < length programs.now.processes }
    requires few { p < MAX_PROCESSES }
    ensures { OnOk result (string_bytes text.new ≡ string_bytes text.old ++ process_line programs.now world.now.cores p) }
{
    let name = name_of(programs, p);
    write!(text, "proc {name} ")?;
    push_place(text, world, p)?;
    text.push('\n')
}

// Writes the lines of the first few processes.
fn push_processes<S: Stable>(
    text: &mut String,
    programs: &Programs,
    world: &World<S>,
    n: usize,
) -> Result<(), AllocError>
    requires processes { n ≤ length programs.now.processes }
    requires few { n ≤ MAX_PROCESSES }
    ensures { OnOk result (string_bytes text.new ≡ string_bytes text.old
        ++ flat_map (process_line programs.now world.now.cores) (range_with_len 0 n)) }
{
    for p in 0..n {
        push_process(text, programs, world, p)?;
    }
    Ok(())
}

/// Writes the line of an output: the name of its process, its number, and its bytes.
pub fn push_output(
    alloc: Global,
    text: &mut String,
    form: BytesForm,
    name: &str,
    number: u64,
    bytes: &[u8],
) -> Result<(), AllocError>
    ensures { OnOk result (string_bytes text.new ≡ string_bytes text.old ++ output_line form name.now number bytes.now) }
{
    write!(text, "out {name} {number} ")?;
    push_bytes_in(alloc, text, form, bytes)?;
    text.push('\n')
}

/// Writes a line for each output of a process, numbered from 0.
pub fn push_outputs(
    alloc: Global,
    text: &mut String,
    form: BytesForm,
    name: &str,
    outputs: &[Output],
) -> Result<(), AllocError>
    ensures { OnOk result (string_bytes text.new ≡ string_bytes text.old ++ outputs_text form name.now (map held_of outputs.now)) }
{
    for number in 0..outputs.len() {
        push_output(
            alloc,
            text,
            form,
            name,
            number as u64,
            outputs[number].bytes.as_slice(),
        )?;
    }
    Ok(())
}

// Writes what is released of the first few processes.
fn push_released(
    alloc: Global,
    text: &mut String,
    form: BytesForm,
    programs: &Programs,
    manager: &Manager,
    n: usize,
) -> Result<(), AllocError>
    requires processes { n ≤ length programs.now.processes }
    requires few { n ≤ MAX_PROCESSES }
    requires managed { n ≤ process_count manager.now }
    ensures { OnOk result (string_bytes text.new ≡ string_bytes text.old
        ++ flat_map (released_text form programs.now manager.now) (range_with_len 0 n)) }
{
    for p in 0..n {
        let name = name_of(programs, p);
        push_outputs(alloc, text, form, name, manager.released(Pid::at(p)))?;
    }
    Ok(())
}

/// Writes how a world of so many processes stands.
pub(crate) fn push_end<S: Stable>(
    alloc: Global,
    text: &mut String,
    form: BytesForm,
    programs: &Programs,
    world: &World<S>,
    n: usize,
) -> Result<(), AllocError>
    requires processes { n ≤ length programs.now.processes }
    requires few { n ≤ MAX_PROCESSES }
    requires managed { n ≤ process_count world.now.manager }
    ensures { OnOk result (string_bytes text.new ≡ string_bytes text.old ++ written_end form programs.now n world.now) }
{
    text.push_str("recovery")?;
    push_state(text, &world.manager().recovery())?;
    push_processes(text, programs, world, n)?;
    push_released(alloc, text, form, programs, world.manager(), n)
}
