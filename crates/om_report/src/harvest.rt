//! What a process leaves when its run is over.

ghost use Rattle.std.specs.Prelude.{◌≡◌, ◌<◌, IfOk, slice_index};
ghost use Rattle.om_board.specs.Boards.{IsBoard};
ghost use Rattle.om_board.specs.Fronts.{EndsWith, front_of};
ghost use Rattle.om_board.specs.Made.{HoldsMade};
ghost use Rattle.om_manager.specs.State.{process_count};
ghost use Rattle.om_report.specs.Released.{AreAllMade, AreAllReleased, AreMade, AreReleased};
ghost use Rattle.om_report.specs.Harvests.{AreAllOf, AreOwn, harvested};
ghost use Rattle.om_report.specs.Locks.{UnderLock};

use crate::released::released_of;
use om_board::{Board, Front, Frontier, Naming, Pass, Shared};
use om_interval::Pid;
use om_manager::{Manager, Output};
use std::alloc::{AllocError, Global};
use std::marker::Model;
use std::sync::Wait;

/// Holds the released outputs of a process whose run is over, and a pass that has seen all fronts up to when they were copied.
#[derive(Drop)]
pub struct Harvest<K: Naming> {
    pid: Pid,
    outputs: Vec<Output>,
    pass: Pass<K>,
}

impl<K: Naming> Model for Harvest<K> {
    ghost use Rattle.om_report.specs.Harvests.{HarvestState, IsHarvest};

    ghost Value = { HarvestState };

    ghost view = { λ h. record { own = h.pid; outputs = h.outputs; seen = h.pass } };

    ghost invariant = { λ h. IsHarvest K.programs K.cell.n K.OverClean (record { own = h.pid; outputs = h.outputs; seen = h.pass }) };
}

impl<K: Naming> Harvest<K> {
    /// Copies all that the manager has released of a process, with a pass that has seen all that was posted. Refused where memory
    /// runs out.
    pub fn of(
        alloc: Global,
        manager: &Manager,
        pid: Pid,
        pass: Pass<K>,
    ) -> Result<Harvest<K>, AllocError>
        requires known { pid < process_count manager.now }
        requires seen { EndsWith pass (front_of manager.now) }
        requires made { K.OverClean → HoldsMade K.programs K.cell.n manager.now }
        ensures own { IfOk result (λ h. h.own ≡ pid) }
        ensures all { IfOk result (λ h. AreAllOf manager.now pid h.outputs.items) }
    {
        // The read tells what holds of every manager.
        let _ = manager.recovery();
        let outputs = released_of(alloc, manager, pid)?;
        Ok(Harvest { pid, outputs, pass })
    }

    // Returns the outputs, which are still within the process's place of the board's front.
    fn met<R: Wait>(self, rt: &R, frontier: &Frontier<K>, board: &mut Board<K>) -> Vec<Output>
        requires { IsBoard K.cell.n board.old }
        ensures outputs { result ≡ self.outputs }
        ensures same { board.new ≡ board.old }
        ensures released { AreReleased (slice_index board.old.manager.recovery self.own) result.items }
        ensures made { K.OverClean → AreMade K.programs K.cell.n self.own result.items }
    {
        let Harvest { outputs, pass, .. } = self;
        frontier.meet(rt, board, pass);
        outputs
    }
}

/// Returns the outputs of each process, which are within the board's front. Refused where memory runs out.
pub fn all_met<K: Naming, R: Wait>(
    rt: &R,
    alloc: Global,
    frontier: &Frontier<K>,
    board: &mut Board<K>,
    harvests: Vec<Harvest<K>>,
) -> Result<Vec<Vec<Output>>, AllocError>
    requires own { AreOwn harvests.items }
    requires sound { IsBoard K.cell.n board.old }
    ensures same { board.new ≡ board.old }
    ensures outputs { IfOk result (λ all. all.items ≡ harvested harvests.items) }
    ensures released { IfOk result (λ all. AreAllReleased board.old.manager.recovery all.items) }
    ensures made { K.OverClean → IfOk result (λ all. AreAllMade K.programs K.cell.n all.items) }
{
    let mut all = Vec::with_capacity(alloc, harvests.len())?;
    for harvest in harvests {
        all.push_reserved(harvest.met(rt, frontier, board));
    }
    Ok(all)
}

/// Returns the outputs of each process, and the last front, which they are within. Refused where memory runs out.
pub fn gathered_in<K: Naming, R: Wait>(
    rt: &R,
    alloc: Global,
    shared: &Shared<K>,
    harvests: Vec<Harvest<K>>,
) -> Result<(Vec<Vec<Output>>, Front), AllocError>
    requires { AreOwn harvests.items }
    ensures outputs { IfOk result (λ r. r.0.items ≡ harvested harvests.items) }
    ensures released { IfOk result (λ r. AreAllReleased r.1.vec r.0.items) }
    ensures made { K.OverClean → IfOk result (λ r. AreAllMade K.programs K.cell.n r.0.items) }
    ensures last { IfOk result (λ r. UnderLock K.cell.n (λ before after. (r.1 ≡ front_of before.manager) × (after ≡ before))) }
{
    let mut guard = shared.board.lock(rt);
    let board = &mut *guard;
    // The look tells what holds of every board.
    let _ = board.manager();
    let released = all_met(rt, alloc, &shared.frontier, board, harvests)?;
    let pass = board.pass(&shared.frontier);
    let (front, _) = shared.frontier.meet(rt, board, pass);
    Ok((released, front))
}
