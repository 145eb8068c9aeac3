//! What a run of a cluster ends with.

ghost use Rattle.std.specs.Prelude.{◌≡◌, ◌<◌, ℕ, IfOk, List, length};
ghost use Rattle.om_board.specs.Fronts.{front_of};
ghost use Rattle.om_board.specs.Made.{HoldsMade};
ghost use Rattle.om_manager.specs.State.{process_count};
ghost use Rattle.om_process.specs.Process.{Program};
ghost use Rattle.om_report.specs.Released.{AreAllMade, AreAllReleased, AreReleasedBy};

use crate::released::released_of;
use om_board::Front;
use om_interval::Pid;
use om_manager::{Manager, Output};
use om_process::Status;
use std::alloc::{AllocError, Global};

/// What a run of a cluster ended with.
#[derive(Debug, Drop)]
pub struct Report {
    /// By process, its released outputs in order.
    pub released: Vec<Vec<Output>>,
    /// By process, how it ended.
    pub statuses: Vec<Status>,
    /// The front of the manager at the end.
    pub front: Front,
}

/// What a run of a cluster ended with whose outputs were told as they were released.
#[derive(Debug, Drop)]
pub struct FollowedReport {
    /// By process, how it ended.
    pub statuses: Vec<Status>,
    /// The last front of the manager that was read.
    pub front: Front,
}

// Returns the released outputs of each process.
fn released_by(alloc: Global, manager: &Manager) -> Result<Vec<Vec<Output>>, AllocError>
    ensures long { IfOk result (λ released. length released.items ≡ process_count manager.now) }
    ensures released { IfOk result (λ released. AreReleasedBy manager.now released.items) }
{
    let n = manager.recovery().n();
    let mut released = Vec::with_capacity(alloc, n)?;
    for p in 0..n {
        released.push(released_of(alloc, manager, Pid::at(p))?)?;
    }
    Ok(released)
}

impl Report {
    /// Makes a report of the released outputs and the front of a manager, with how the processes ended.
    pub fn of(alloc: Global, manager: &Manager, statuses: Vec<Status>) -> Result<Report, AllocError>
        ensures outputs { IfOk result (λ report. AreReleasedBy manager.now report.released.items) }
        ensures processes { IfOk result (λ report. length report.released.items ≡ process_count manager.now) }
        ensures statuses { IfOk result (λ report. report.statuses ≡ statuses) }
        ensures front { IfOk result (λ report. report.front ≡ front_of manager.now) }
        ensures released { IfOk result (λ report. AreAllReleased report.front.vec report.released.items) }
        ensures made { (programs : List Program) (n : ℕ) → HoldsMade programs n manager.now
            → IfOk result (λ report. AreAllMade programs n report.released.items) }
    {
        Ok(Report {
            released: released_by(alloc, manager)?,
            statuses,
            front: Front::of(manager),
        })
    }
}
