//! What threads report, compared with the run without failures that it comes to.

ghost use Rattle.std.specs.Prelude.{◌≡◌, ◌⊎◌, ◌≤◌, ◌<◌, ℕ, IfErr, IfOk, Some, length, map, slice_get, string_bytes};
ghost use Rattle.om_check.specs.Whole.{AreStatusesOf, IsDone, IsWhole};
ghost use Rattle.om_interval.specs.declared.pid.TheConstants.{MAX_PROCESSES};
ghost use Rattle.om_scripts.specs.Programs.{programs_of};
ghost use Rattle.om_process.specs.Core.{CoreState, move_of, status_of};
ghost use Rattle.om_run_commands.specs.Check.{IsFailureFreeIn};
ghost use Rattle.om_run_commands.specs.Run.{outputs_of};
ghost use Rattle.om_run_commands.specs.RunText.{run_text_in};

use crate::error::error_of_play;
use crate::run_text::run_text;
use om_check::{play, play_and_keep_events};
use om_commands::{BytesForm, CommandError};
use om_interval::{MAX_PROCESSES, Pid};
use om_process::{Status, Witness};
use om_runner::Report;
use om_scripts::Programs;
use om_stable::MemStable;
use om_world::{Event, World};
use std::alloc::{AllocError, Global};

// Returns how so many processes of a world in its end have ended.
fn statuses_of(alloc: Global, world: &World<MemStable>, n: usize) -> Result<Vec<Status>, AllocError>
    requires few { n ≤ MAX_PROCESSES }
    requires done { (p : ℕ) → p < n → IsDone world.now p }
    ensures number { IfOk result (λ statuses. length statuses.items ≡ n) }
    ensures statuses { IfOk result (λ statuses. AreStatusesOf world.now statuses.items) }
{
    let mut statuses = Vec::new(alloc);
    for p in 0..n {
        statuses.push(status_of(world, Pid::at(p)))?;
    }
    Ok(statuses)
}

// Returns how a process of a world in its end has ended.
fn status_of(world: &World<MemStable>, pid: Pid) -> Status
    requires { IsDone world.now pid }
    ensures { (c : CoreState) × (slice_get world.now.cores pid ≡ Some (Some c)) × (result ≡ status_of (move_of c)) }
{
    match world.core(pid) {
        Some(core) => core.status(),
        None => unreachable!(),
    }
}

// Returns the text of the run without failures of a world in its end.
fn text_of(
    alloc: Global,
    form: BytesForm,
    programs: &Programs,
    world: &World<MemStable>,
) -> Result<String, AllocError>
    requires { IsWhole (programs_of programs.now) world.now }
    ensures { IfOk result (λ text. IsFailureFreeIn form programs.now (string_bytes text)) }
{
    let statuses = statuses_of(alloc, world, programs.n())?;
    let report = Report::of(alloc, world.manager(), statuses)?;
    run_text(alloc, form, programs, &report.released, &report.statuses)
}

// Returns the text of the run without failures of a world in its end, where it is that of the report.
fn compared(
    alloc: Global,
    form: BytesForm,
    programs: &Programs,
    report: &Report,
    world: &World<MemStable>,
) -> Result<String, CommandError>
    requires { IsWhole (programs_of programs.now) world.now }
    ensures text { IfOk result (λ text. IsFailureFreeIn form programs.now (string_bytes text)) }
    ensures same { IfOk result (λ text. string_bytes text ≡ run_text_in form programs.now (outputs_of report.now) report.now.statuses.items) }
    ensures error { IfErr result (λ error. (error ≡ CommandError.Unlike) ⊎ (error ≡ CommandError.NoMemory)) }
{
    let n = programs.n();
    if report.released.len() > n || report.statuses.len() > n {
        return Err(CommandError::Unlike);
    }
    let told = run_text(alloc, form, programs, &report.released, &report.statuses)?;
    let text = text_of(alloc, form, programs, world)?;
    if text.as_bytes() != told.as_bytes() {
        return Err(CommandError::Unlike);
    }
    Ok(text)
}

/// Returns the text of what threads report of these programs, with the bytes of outputs in a form, where it is, to the byte, that of the
/// run without failures that the witnesses name.
///
/// Refused with `Unlike` where they name none, or its text is another; with `NoMemory` where memory ran out.
pub fn checked_text(
    alloc: Global,
    form: BytesForm,
    programs: &Programs,
    report: &Report,
    witnesses: &[Witness],
) -> Result<String, CommandError>
    requires { 1 ≤ length programs.now.processes }
    ensures text { IfOk result (λ text. IsFailureFreeIn form programs.now (string_bytes text)) }
    ensures same { IfOk result (λ text. string_bytes text ≡ run_text_in form programs.now (outputs_of report.now) report.now.statuses.items) }
    ensures error { IfErr result (λ error. (error ≡ CommandError.Unlike) ⊎ (error ≡ CommandError.NoMemory)) }
{
    let images = programs.images(alloc)?;
    let n = programs.n();
    prove!(n <= MAX_PROCESSES);
    let world = play(alloc, &images, witnesses).map_err(error_of_play)?;
    compared(alloc, form, programs, report, &world)
}

/// Returns the text as [`checked_text`] does, and beside it the events of that run, in order: each process runs, is given its frames, and
/// stores what it received once at the end.
pub fn checked_events(
    alloc: Global,
    form: BytesForm,
    programs: &Programs,
    report: &Report,
    witnesses: &[Witness],
) -> Result<(String, Vec<Event>), CommandError>
    requires { 1 ≤ length programs.now.processes }
    ensures text { IfOk result (λ r. IsFailureFreeIn form programs.now (string_bytes r.0)) }
    ensures same { IfOk result (λ r. string_bytes r.0 ≡ run_text_in form programs.now (outputs_of report.now) report.now.statuses.items) }
    ensures error { IfErr result (λ error. (error ≡ CommandError.Unlike) ⊎ (error ≡ CommandError.NoMemory)) }
{
    let images = programs.images(alloc)?;
    let n = programs.n();
    prove!(n <= MAX_PROCESSES);
    let (world, events) = play_and_keep_events(alloc, &images, witnesses).map_err(error_of_play)?;
    let text = compared(alloc, form, programs, report, &world)?;
    Ok((text, events))
}
