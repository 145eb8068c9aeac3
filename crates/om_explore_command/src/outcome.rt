//! What a run without failures comes to.

ghost use Rattle.std.specs.Prelude.{◌≡◌, ◌≤◌, ◌<◌, ℕ, IfOk, Some, length, slice_get};
ghost use Rattle.om_interval.specs.declared.pid.TheConstants.{MAX_PROCESSES};
ghost use Rattle.om_process.specs.Core.{CoreState, move_of, status_of};
ghost use Rattle.om_scripts.specs.Programs.{programs_of};
ghost use Rattle.om_check.specs.Explored.{IsExplored};
ghost use Rattle.om_check.specs.Whole.{AreStatusesOf};
ghost use Rattle.om_explore_command.specs.Outcomes.{IsOutcome};
ghost use Rattle.om_explore_command.specs.steps.{HasCore};

use om_check::Explored;
use om_commands::BytesForm;
use om_interval::{MAX_PROCESSES, Pid};
use om_process::Status;
use om_run_commands::report_text;
use om_runner::Report;
use om_scripts::Programs;
use om_stable::MemStable;
use om_world::{Event, World};
use std::alloc::{AllocError, Global};

/// What a run without failures comes to, and a way there.
#[derive(Drop)]
pub struct Outcome {
    /// What the processes put out and how each ended or that it waits, as it is written of a run.
    pub text: String,
    /// The report of that, by process.
    pub report: Report,
    /// What happened, in order.
    pub events: Vec<Event>,
}

// Returns how a process of a world at its end stands.
fn status_of(world: &World<MemStable>, pid: Pid) -> Status
    requires { HasCore world.now pid }
    ensures { (c : CoreState) × (slice_get world.now.cores pid ≡ Some (Some c)) × (result ≡ status_of (move_of c)) }
{
    match world.core(pid) {
        Some(core) => core.status(),
        None => unreachable!(),
    }
}

// Returns how so many processes of a world at its end stand.
fn statuses_of(alloc: Global, world: &World<MemStable>, n: usize) -> Result<Vec<Status>, AllocError>
    requires few { n ≤ MAX_PROCESSES }
    requires cores { (p : ℕ) → p < n → HasCore world.now p }
    ensures number { IfOk result (λ statuses. length statuses.items ≡ n) }
    ensures statuses { IfOk result (λ statuses. AreStatusesOf world.now statuses.items) }
{
    let mut statuses = Vec::new(alloc);
    for p in 0..n {
        statuses.push(status_of(world, Pid::at(p)))?;
    }
    Ok(statuses)
}

// Returns what a run of these programs comes to.
pub(crate) fn outcome_of(
    alloc: Global,
    programs: &Programs,
    run: Explored,
) -> Result<Outcome, AllocError>
    requires { IsExplored (programs_of programs.now) run }
    ensures { IfOk result (IsOutcome programs.now run.world.live) }
{
    let Explored { world, events, .. } = run;
    let statuses = statuses_of(alloc, &world, programs.n())?;
    let report = Report::of(alloc, world.manager(), statuses)?;
    let text = report_text(alloc, BytesForm::Hex, programs, &report)?;
    Ok(Outcome {
        text,
        report,
        events,
    })
}
