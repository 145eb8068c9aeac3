//! The text of a run of a cluster: what each process put out, and how it ended.

ghost use Rattle.std.specs.Prelude.{◌≡◌, ◌++◌, ◌≤◌, [], length, map, IfOk, OnOk, string_bytes, if◌then◌else◌};
ghost use Rattle.std.specs.Str.{bytes_eq};
ghost use Rattle.om_manager.specs.Outputs.{held_of};
ghost use Rattle.om_scripts.specs.Programs.{programs_of};
ghost use Rattle.om_run_commands.specs.Run.{outputs_of};
ghost use Rattle.om_run_commands.specs.RunText.{bytes_of, ends_text, raw_text, run_text_in};
ghost use Rattle.om_run_commands.specs.steps.Lines.{released_text};
ghost use Rattle.om_run_commands.specs.steps.Lines.{end_line};

use om_commands::{BytesForm, name_of, push_outputs};
use om_event_text::push_status;
use om_manager::Output;
use om_process::Status;
use om_runner::Report;
use om_scripts::Programs;
use std::alloc::{AllocError, Global};
use std::fmt::Write;

// Writes a line for each output of each process.
fn push_released(
    alloc: Global,
    text: &mut String,
    form: BytesForm,
    programs: &Programs,
    released: &[Vec<Output>],
) -> Result<(), AllocError>
    requires { length released.now ≤ length programs.now.processes }
    ensures { OnOk result (string_bytes text.new ≡ string_bytes text.old
        ++ released_text form programs.now (map (λ outputs. map held_of outputs.items) released.now)) }
{
    for p in 0..released.len() {
        push_outputs(alloc, text, form, name_of(programs, p), &released[p])?;
    }
    Ok(())
}

// Writes the line of how a process ended.
fn push_end(text: &mut String, name: &str, status: Status) -> Result<(), AllocError>
    ensures { OnOk result (string_bytes text.new ≡ string_bytes text.old ++ end_line name.now status) }
{
    write!(text, "end {name} ")?;
    push_status(text, status)?;
    text.push('\n')
}

// Writes a line for each process.
pub(crate) fn push_ends(
    text: &mut String,
    programs: &Programs,
    statuses: &[Status],
) -> Result<(), AllocError>
    requires { length statuses.now ≤ length programs.now.processes }
    ensures { OnOk result (string_bytes text.new ≡ string_bytes text.old ++ ends_text programs.now statuses.now) }
{
    for p in 0..statuses.len() {
        push_end(text, name_of(programs, p), statuses[p])?;
    }
    Ok(())
}

// Returns the text of a run of these processes: by process what it put out and is released, and how it ended.
pub(crate) fn run_text(
    alloc: Global,
    form: BytesForm,
    programs: &Programs,
    released: &[Vec<Output>],
    statuses: &[Status],
) -> Result<String, AllocError>
    requires released { length released.now ≤ length programs.now.processes }
    requires statuses { length statuses.now ≤ length programs.now.processes }
    ensures { IfOk result (λ text. string_bytes text
        ≡ run_text_in form programs.now (map (λ outputs. map held_of outputs.items) released.now) statuses.now) }
{
    let mut text = String::new(alloc);
    push_released(alloc, &mut text, form, programs, released)?;
    push_ends(&mut text, programs, statuses)?;
    Ok(text)
}

/// Returns the text of what a run of these processes ends with: by process what it put out and is released, and then how
/// each ended.
pub fn report_text(
    alloc: Global,
    form: BytesForm,
    programs: &Programs,
    report: &Report,
) -> Result<String, AllocError>
    requires released { length report.now.released.items ≡ length (programs_of programs.now) }
    requires statuses { length report.now.statuses.items ≡ length (programs_of programs.now) }
    ensures { IfOk result (λ text. string_bytes text ≡ run_text_in form programs.now (outputs_of report.now) report.now.statuses.items) }
{
    run_text(alloc, form, programs, &report.released, &report.statuses)
}

// Adds the bytes of outputs, one behind the other.
fn add_bytes(bytes: &mut Vec<u8>, outputs: &[Output]) -> Result<(), AllocError>
    ensures { OnOk result (bytes.new.items ≡ bytes.old.items ++ bytes_of (map held_of outputs.now)) }
{
    for output in outputs {
        bytes.extend_from_slice(output.bytes.as_slice())?;
    }
    Ok(())
}

// Adds the bytes of the outputs of a process, where its name is the one that is wanted.
fn add_named(
    bytes: &mut Vec<u8>,
    name: &str,
    wanted: &str,
    outputs: &[Output],
) -> Result<(), AllocError>
    ensures { OnOk result (bytes.new.items ≡ bytes.old.items
        ++ (if bytes_eq name.now wanted.now then bytes_of (map held_of outputs.now) else [])) }
{
    if name == wanted {
        add_bytes(bytes, outputs)?;
    }
    Ok(())
}

// Returns the bytes that the process of a name put out and are released.
pub(crate) fn raw_text(
    alloc: Global,
    name: &str,
    programs: &Programs,
    released: &[Vec<Output>],
) -> Result<Vec<u8>, AllocError>
    requires { length released.now ≤ length programs.now.processes }
    ensures { IfOk result (λ bytes. bytes.items
        ≡ raw_text name.now programs.now (map (λ outputs. map held_of outputs.items) released.now)) }
{
    let mut bytes = Vec::new(alloc);
    for p in 0..released.len() {
        add_named(&mut bytes, name_of(programs, p), name, &released[p])?;
    }
    Ok(bytes)
}
