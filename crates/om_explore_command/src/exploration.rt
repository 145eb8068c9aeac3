//! Explores the runs without failures of a cluster.

ghost use Rattle.std.specs.Prelude.{◌≡◌, ◌≤◌, ◌⊎◌, [], List, IfErr, IfOk, IsTrue, OnOk, length, map};
ghost use Rattle.om_interval.specs.declared.pid.TheConstants.{MAX_PROCESSES};
ghost use Rattle.om_process.specs.Images.{program_of};
ghost use Rattle.om_scripts.specs.Programs.{programs_of};
ghost use Rattle.om_world.specs.declared.entry.Entry.{Entry};
ghost use Rattle.om_check.specs.Orders.{HasAll};
ghost use Rattle.om_explore_command.specs.Explorations.{IsExploration};
ghost use Rattle.om_explore_command.specs.Tallies.{IsTally};
ghost use Rattle.om_explore_command.specs.steps.{error_of};

use crate::context::ExploreContext;
use crate::gathering::{Gathering, Subject};
use crate::options::Options;
use crate::random::Draws;
use crate::tally::{Found, Tally};
use om_check::{PlayFault, Visitor, explore, explore_all};
use om_commands::CommandError;
use om_interval::{MAX_PROCESSES, Pid};
use om_process::Image;
use om_scripts::Programs;
use std::alloc::Global;
use std::marker::{Brand, PhantomData};

/// What was explored.
#[derive(Drop)]
pub struct Exploration {
    /// Each text that runs came to, once, in the order in which they came to it first.
    pub found: Vec<Found>,
    /// How many runs were played.
    pub runs: u64,
    /// Whether these are all runs that there can be, up to the order of receipts of different processes.
    pub is_all: bool,
}

// Tells that a process came to its limit.
fn tell_spent<C: ExploreContext>(context: &C, programs: &Programs, pid: Pid) {
    if let Some(process) = programs.name(pid.index()) {
        context.tell_spent(process);
    }
}

// Returns why a run was not played; the context learns of a process that came to its limit.
fn refusal_of<C: ExploreContext>(context: &C, programs: &Programs, fault: PlayFault) -> CommandError
    ensures { result ≡ error_of fault }
{
    match fault {
        PlayFault::Memory => CommandError::NoMemory,
        PlayFault::Spent(pid) => {
            tell_spent(context, programs, pid);
            CommandError::OutOfTurns
        }
        PlayFault::NotSent(_) | PlayFault::NotWaiting(_) | PlayFault::NotEnded(_) => {
            CommandError::OutOfTurns
        }
    }
}

// Plays so many runs in orders that are drawn.
fn draw_runs<J: Subject, C: ExploreContext>(
    alloc: Global,
    images: &[Image],
    gathering: &mut Gathering<J, C>,
    options: &Options,
    limit: u64,
) -> Result<(), PlayFault>
    requires some { 1 ≤ length images.now }
    requires few { length images.now ≤ MAX_PROCESSES }
    requires programs { programs_of J.cluster ≡ map program_of images.now }
    requires new { IsTally J.cluster gathering.old.tally.found.items [] }
    ensures { OnOk result ((runs : List (List Entry)) × IsTally J.cluster gathering.new.tally.found.items runs) }
{
    let mut draws = Draws::new(alloc, options.seed)?;
    for _ in 0..options.runs {
        draws.deal();
        if let Some(run) = explore(alloc, images, &mut draws, limit)? {
            gathering.visit(run)?;
        }
    }
    Ok(())
}

// Plays runs as it is asked for, and says whether they are all.
fn play_runs<J: Subject, C: ExploreContext>(
    alloc: Global,
    images: &[Image],
    gathering: &mut Gathering<J, C>,
    options: &Options,
    limit: u64,
) -> Result<bool, PlayFault>
    requires some { 1 ≤ length images.now }
    requires few { length images.now ≤ MAX_PROCESSES }
    requires programs { programs_of J.cluster ≡ map program_of images.now }
    requires new { IsTally J.cluster gathering.old.tally.found.items [] }
    ensures { IfOk result (λ all. (runs : List (List Entry)) × IsTally J.cluster gathering.new.tally.found.items runs
        × (IsTrue all → HasAll (map program_of images.now) runs)) }
{
    if options.is_all {
        return explore_all(alloc, images, gathering, limit, options.runs);
    }
    draw_runs(alloc, images, gathering, options, limit)?;
    Ok(false)
}

// Explores the runs of the cluster that these programs are.
fn explored_of<'a, J: Subject, C: ExploreContext>(
    alloc: Global,
    programs: &'a Programs,
    options: &Options,
    limit: u64,
    context: &'a C,
) -> Result<Exploration, CommandError>
    requires some { 1 ≤ length programs.now.processes }
    requires named { programs.now ≡ J.cluster }
    ensures found { IfOk result (IsExploration J.cluster) }
    ensures error { IfErr result (λ error. (error ≡ CommandError.OutOfTurns) ⊎ (error ≡ CommandError.NoMemory)) }
{
    let images = programs.images(alloc)?;
    let n = programs.n();
    prove!(n <= MAX_PROCESSES);
    let mut gathering: Gathering<J, C> = Gathering {
        alloc,
        context,
        programs,
        tally: Tally::new(alloc),
        of: PhantomData,
    };
    let played = play_runs(alloc, &images, &mut gathering, options, limit);
    let Gathering { tally, .. } = gathering;
    let Tally { found, runs, .. } = tally;
    match played {
        Ok(is_all) => Ok(Exploration {
            found,
            runs,
            is_all,
        }),
        Err(fault) => Err(refusal_of(context, programs, fault)),
    }
}

/// Plays runs without failures of these programs in different orders of receipts, and counts the texts that they come to. Each
/// process finishes at most `limit` instructions in a run.
///
/// Refused with `OutOfTurns` where one comes to its limit, of which the context learns, and with `NoMemory`.
pub fn explored<C: ExploreContext>(
    alloc: Global,
    programs: &Programs,
    options: &Options,
    limit: u64,
    context: &C,
) -> Result<Exploration, CommandError>
    requires { 1 ≤ length programs.now.processes }
    ensures found { IfOk result (IsExploration programs.now) }
    ensures error { IfErr result (λ error. (error ≡ CommandError.OutOfTurns) ⊎ (error ≡ CommandError.NoMemory)) }
{
    explored_of::<Brand, C>(alloc, programs, options, limit, context)
}
