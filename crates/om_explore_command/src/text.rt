//! The text of an exploration.

ghost use Rattle.std.specs.Prelude.{◌≡◌, ◌++◌, ◌∷◌, ◌+◌, [], All, None, Some, IfOk, OnOk, decimal, length, map, slice_get, slice_index_or, string_bytes, codes};
ghost use Rattle.std.specs.List.{flat_map, list_any, range_with_len};
ghost use Rattle.std.specs.Option.{option_map};
ghost use Rattle.om_manager.specs.Outputs.{held_of};
ghost use Rattle.om_process.specs.declared.status.Status.TheVariants.{Ready};
ghost use Rattle.om_run_commands.specs.Run.{outputs_of};
ghost use Rattle.om_explore_command.specs.ExplorationText.{ArePlaces, IsExplorationText, difference_text, found_line, found_text, is_waiting, output_text, place_text, runs_text, texts_text, waiter_text, waiting_text};
ghost use Rattle.om_explore_command.specs.steps.{AreOf, OfCluster};

use crate::difference::{TextPosition, first_difference};
use crate::exploration::Exploration;
use crate::tally::Found;
use om_commands::{BytesForm, name_of, push_bytes_in};
use om_event_text::push_status;
use om_manager::Output;
use om_process::Status;
use om_runner::Report;
use om_scripts::Programs;
use sha2::{Digest, Sha256};
use std::alloc::{AllocError, Global};
use std::fmt::Write;

// Returns whether a process waits.
fn waits(status: Status) -> bool
    ensures { result ≡ is_waiting status }
{
    match status {
        Status::Waiting => true,
        Status::Ready | Status::Ended(_) | Status::Trapped(_) => false,
    }
}

// Returns whether one of them waits.
fn any_waits(statuses: &[Status]) -> bool
    ensures { result ≡ list_any is_waiting statuses.now }
{
    statuses.iter().any(|status| waits(*status))
}

// Writes the name of a process, if it waits.
fn push_waiter(
    text: &mut String,
    programs: &Programs,
    process: usize,
    status: Status,
) -> Result<(), AllocError>
    ensures { OnOk result (string_bytes text.new ≡ string_bytes text.old ++ waiter_text programs.now process status) }
{
    match status {
        Status::Waiting => {
            text.push(' ')?;
            text.push_str(name_of(programs, process))
        }
        Status::Ready | Status::Ended(_) | Status::Trapped(_) => Ok(()),
    }
}

// Writes the names of those that wait.
fn push_waiters(
    text: &mut String,
    programs: &Programs,
    statuses: &[Status],
) -> Result<(), AllocError>
    ensures { OnOk result (string_bytes text.new ≡ string_bytes text.old
        ++ flat_map (λ p. waiter_text programs.now p (slice_index_or statuses.now p Ready)) (range_with_len 0 (length statuses.now))) }
{
    for p in 0..statuses.len() {
        push_waiter(text, programs, p, statuses[p])?;
    }
    Ok(())
}

// Writes who waits, if somebody does.
fn push_waiting(
    text: &mut String,
    programs: &Programs,
    statuses: &[Status],
) -> Result<(), AllocError>
    ensures { OnOk result (string_bytes text.new ≡ string_bytes text.old ++ waiting_text programs.now statuses.now) }
{
    if !any_waits(statuses) {
        return Ok(());
    }
    text.push_str(" waiting")?;
    push_waiters(text, programs, statuses)
}

// Writes the line of a text, by its number.
fn push_found(
    alloc: Global,
    text: &mut String,
    programs: &Programs,
    number: usize,
    found: &Found,
) -> Result<(), AllocError>
    ensures { OnOk result (string_bytes text.new ≡ string_bytes text.old ++ found_line programs.now number found.now) }
{
    let runs = found.runs;
    let digest = hex::encode(alloc, Sha256::digest(found.outcome.text.as_bytes()))?;
    write!(text, "text {number} runs {runs} sha256 {digest}")?;
    push_waiting(text, programs, &found.outcome.report.statuses)?;
    text.push('\n')
}

// Writes a line for each text.
fn push_all(
    alloc: Global,
    text: &mut String,
    programs: &Programs,
    found: &[Found],
) -> Result<(), AllocError>
    ensures { OnOk result (string_bytes text.new ≡ string_bytes text.old
        ++ flat_map (λ k. found_text programs.now (k + 1) (slice_get found.now k)) (range_with_len 0 (length found.now))) }
{
    for k in 0..found.len() {
        push_found(alloc, text, programs, k + 1, &found[k])?;
    }
    Ok(())
}

// Returns the output of a number of a process, if there is one.
fn output_at(report: &Report, process: usize, number: usize) -> Option<&Output>
    ensures { option_map (λ output. held_of output.now) result ≡ slice_get (slice_index_or (outputs_of report.now) process []) number }
{
    match report.released.get(process) {
        Some(outputs) => outputs.get(number),
        None => None,
    }
}

// Writes an output, its bytes in a form, and where it was made.
fn push_made(
    alloc: Global,
    text: &mut String,
    form: BytesForm,
    output: &Output,
) -> Result<(), AllocError>
    ensures { OnOk result (string_bytes text.new ≡ string_bytes text.old ++ output_text form (Some (held_of output.now))) }
{
    let interval = output.interval;
    push_bytes_in(alloc, text, form, output.bytes.as_slice())?;
    write!(text, " in interval {interval}")
}

// Writes the output of a number of a process, if there is one.
fn push_output(
    alloc: Global,
    text: &mut String,
    form: BytesForm,
    report: &Report,
    process: usize,
    number: usize,
) -> Result<(), AllocError>
    ensures { OnOk result (string_bytes text.new ≡ string_bytes text.old
        ++ output_text form (slice_get (slice_index_or (outputs_of report.now) process []) number)) }
{
    match output_at(report, process, number) {
        Some(output) => push_made(alloc, text, form, output),
        None => text.push_str("none"),
    }
}

// Returns how a process ended.
fn status_at(report: &Report, process: usize) -> Status
    ensures { result ≡ slice_index_or report.now.statuses.items process Ready }
{
    match report.statuses.get(process) {
        Some(status) => *status,
        None => Status::Ready,
    }
}

// Writes what two runs put out there.
fn push_outputs(
    alloc: Global,
    text: &mut String,
    form: BytesForm,
    programs: &Programs,
    process: usize,
    number: usize,
    one: &Report,
    other: &Report,
) -> Result<(), AllocError>
    ensures { OnOk result (string_bytes text.new ≡ string_bytes text.old ++ place_text form programs.now one.now other.now (TextPosition.Output process number)) }
{
    let name = name_of(programs, process);
    write!(text, "output {number} of {name}: ")?;
    push_output(alloc, text, form, one, process, number)?;
    text.push_str(", ")?;
    push_output(alloc, text, form, other, process, number)
}

// Writes how a process ended in two runs.
fn push_ends(
    text: &mut String,
    programs: &Programs,
    process: usize,
    one: &Report,
    other: &Report,
) -> Result<(), AllocError>
    ensures { OnOk result (string_bytes text.new ≡ string_bytes text.old ++ place_text BytesForm.Hex programs.now one.now other.now (TextPosition.End process)) }
{
    let name = name_of(programs, process);
    write!(text, "the end of {name}: ")?;
    push_status(text, status_at(one, process))?;
    text.push_str(", ")?;
    push_status(text, status_at(other, process))
}

// Writes what stands at a place in two runs.
fn push_place(
    alloc: Global,
    text: &mut String,
    form: BytesForm,
    programs: &Programs,
    place: TextPosition,
    one: &Report,
    other: &Report,
) -> Result<(), AllocError>
    ensures { OnOk result (string_bytes text.new ≡ string_bytes text.old ++ place_text form programs.now one.now other.now place) }
{
    match place {
        TextPosition::Output { process, number } => {
            push_outputs(alloc, text, form, programs, process, number, one, other)
        }
        TextPosition::End { process } => push_ends(text, programs, process, one, other),
    }
}

// Writes that the first text and that of a number differ first at a place.
fn push_difference(
    alloc: Global,
    text: &mut String,
    form: BytesForm,
    programs: &Programs,
    number: usize,
    one: &Found,
    other: &Found,
    place: TextPosition,
) -> Result<(), AllocError>
    ensures { OnOk result (string_bytes text.new ≡ string_bytes text.old
        ++ difference_text form programs.now number (Some one.now) (Some other.now) (Some (Some place))) }
{
    write!(text, "texts 1 and {number} differ at ")?;
    push_place(
        alloc,
        text,
        form,
        programs,
        place,
        &one.outcome.report,
        &other.outcome.report,
    )?;
    text.push('\n')
}

// Writes where the first text and that of a number differ first, if they do.
fn push_first(
    alloc: Global,
    text: &mut String,
    form: BytesForm,
    programs: &Programs,
    number: usize,
    one: &Found,
    other: &Found,
    place: Option<TextPosition>,
) -> Result<(), AllocError>
    ensures { OnOk result (string_bytes text.new ≡ string_bytes text.old
        ++ difference_text form programs.now number (Some one.now) (Some other.now) (Some place)) }
{
    match place {
        Some(place) => push_difference(alloc, text, form, programs, number, one, other, place),
        None => Ok(()),
    }
}

// Writes where the first text and each other differ first.
fn push_differences(
    alloc: Global,
    text: &mut String,
    form: BytesForm,
    programs: &Programs,
    found: &[Found],
    places: &[Option<TextPosition>],
) -> Result<(), AllocError>
    requires { length places.now ≡ length found.now }
    ensures { OnOk result (string_bytes text.new ≡ string_bytes text.old
        ++ flat_map (λ k. difference_text form programs.now (k + 1) (slice_get found.now 0) (slice_get found.now k) (slice_get places.now k))
        (range_with_len 0 (length found.now))) }
{
    for k in 0..found.len() {
        push_first(
            alloc,
            text,
            form,
            programs,
            k + 1,
            &found[0],
            &found[k],
            places[k],
        )?;
    }
    Ok(())
}

// Writes how many texts there are.
fn push_texts(text: &mut String, count: usize) -> Result<(), AllocError>
    ensures { OnOk result (string_bytes text.new ≡ string_bytes text.old ++ texts_text count) }
{
    if count == 1 {
        return text.push_str("one text");
    }
    write!(text, "{count} texts")
}

// Writes how many runs there were.
fn push_runs(text: &mut String, is_asked: bool, is_all: bool, runs: u64) -> Result<(), AllocError>
    ensures { OnOk result (string_bytes text.new ≡ string_bytes text.old ++ runs_text is_asked is_all runs) }
{
    match (is_asked, is_all) {
        (_, true) => write!(text, "all {runs} runs"),
        (true, false) => write!(text, "{runs} runs, not all"),
        (false, false) => write!(text, "{runs} runs"),
    }
}

// Returns where the first of what was found and each differ first, of so many processes.
fn places_of(
    alloc: Global,
    found: &[Found],
    n: usize,
) -> Result<Vec<Option<TextPosition>>, AllocError>
    requires { All (OfCluster n) found.now }
    ensures { IfOk result (λ places. ArePlaces n found.now places.items) }
{
    let mut places = Vec::with_capacity(alloc, found.len())?;
    for k in 0..found.len() {
        places.push(first_difference(&found[0].outcome.report, &found[k].outcome.report, n))?;
    }
    Ok(places)
}

// Makes the text of an exploration of these programs, of which it is said whether all runs were asked for: a line for each text
// that runs came to; one for each that differs from the first, where that is first, with bytes in a form; and how many there are.
pub(crate) fn exploration_text(
    alloc: Global,
    form: BytesForm,
    programs: &Programs,
    exploration: &Exploration,
    is_asked: bool,
) -> Result<String, AllocError>
    requires { All (OfCluster (length programs.now.processes)) exploration.now.found.items }
    ensures { IfOk result (λ text. IsExplorationText form programs.now is_asked exploration.now (string_bytes text)) }
{
    let places = places_of(alloc, &exploration.found, programs.n())?;
    let mut text = String::new(alloc);
    push_all(alloc, &mut text, programs, &exploration.found)?;
    push_differences(
        alloc,
        &mut text,
        form,
        programs,
        &exploration.found,
        &places,
    )?;
    push_texts(&mut text, exploration.found.len())?;
    text.push_str(" in ")?;
    push_runs(&mut text, is_asked, exploration.is_all, exploration.runs)?;
    text.push('\n')?;
    Ok(text)
}
