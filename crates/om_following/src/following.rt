//! A follower while the cluster runs.

ghost use Rattle.std.specs.Prelude.{◌≡◌, ◌≢◌, ◌≤◌, ◌↔◌, ℕ, List, [], None, Some, IfErr, IfOk, IsOk, IsTrue, OnOk, length, map, slice_get, vec_len};
ghost use Rattle.om_board.specs.Boards.{IsBoard};
ghost use Rattle.om_board.specs.Made.{HoldsMade};
ghost use Rattle.om_interval.specs.declared.pid.TheConstants.{MAX_PROCESSES};
ghost use Rattle.om_manager.specs.Outputs.{AreNumbered, held_of};
ghost use Rattle.om_manager.specs.State.{process_count, released_by};
ghost use Rattle.om_report.specs.Released.{AreAllMade, AreAllReleased};
ghost use Rattle.om_report.specs.Telling.{AreInOrder, AreToldMade, Told};
ghost use Rattle.om_following.specs.declared.follower.FollowFault.TheVariants.{Unwanted};
ghost use Rattle.om_following.specs.Following.{AreAllCopied, AreEmpty, AreTold, IsEmpty, IsFollowed, StaysFollowed};
ghost use Rattle.om_following.specs.steps.Lanes.{AreMore, HasTold, HaveMore, IsBehind, IsMore, held_in, KeepsCopied, HaveToldIf};
ghost use Rattle.om_report.specs.Harvests.{AreOwn, harvested};

use crate::followed_outputs::FollowedOutputs;
use crate::follower::{FollowFault, Follower};
use om_board::{Board, Front, Frontier, Naming, Pass, Shared};
use om_interval::{MAX_PROCESSES, Pid};
use om_manager::{Manager, Output};
use om_observers::{Herald, Release};
use om_process::Status;
use om_report::{FollowedReport, Harvest, RunFault, all_met, copy_of};
use std::alloc::{AllocError, Global};
use std::collections::VecDeque;
use std::sync::Wait;

/// Holds a follower, and what is released and still to be told, as far as it looked.
#[derive(Drop)]
pub struct Following<'a, K: Naming, F: Follower> {
    herald: &'a Herald,
    /// The follower, as it is by now.
    pub follower: F,
    /// By process, its outputs.
    pub lanes: Vec<FollowedOutputs>,
    /// Why the run is to come to no end.
    pub fault: Option<FollowFault>,
    /// The front that it read last.
    pub front: Front,
    pass: Pass<K>,
    ghost many: { vec_len lanes ≡ K.cell.n },
    ghost few: { K.cell.n ≤ MAX_PROCESSES },
    ghost behind: { IsBehind pass front },
}

// Makes a lane without an output.
fn empty_lane(alloc: Global) -> FollowedOutputs
    ensures { IsEmpty result }
{
    FollowedOutputs {
        copied: 0,
        fresh: VecDeque::new(alloc),
    }
}

// Makes `n` lanes without an output.
fn empty_lanes(alloc: Global, n: usize) -> Result<Vec<FollowedOutputs>, AllocError>
    ensures many { IfOk result (λ lanes. vec_len lanes ≡ n) }
    ensures empty { IfOk result (λ lanes. AreEmpty lanes.items) }
{
    let mut lanes = Vec::with_capacity(alloc, n)?;
    for _ in 0..n {
        lanes.push_reserved(empty_lane(alloc));
    }
    Ok(lanes)
}

// Copies what is released of a process and was not copied yet.
fn add_new(alloc: Global, lane: &mut FollowedOutputs, released: &[Output]) -> Result<(), AllocError>
    requires { AreNumbered released.now }
    ensures more { IsMore (map held_of released.now) lane.old lane.new }
    ensures all { OnOk result (length released.now ≤ lane.new.copied) }
{
    for i in lane.copied..released.len() {
        lane.fresh.push_back(copy_of(alloc, &released[i])?)?;
        lane.copied = i + 1;
    }
    Ok(())
}

// Copies what the manager has released and was not copied yet.
fn add_all(
    alloc: Global,
    lanes: &mut Vec<FollowedOutputs>,
    manager: &Manager,
) -> Result<(), AllocError>
    requires { vec_len lanes.old ≡ process_count manager.now }
    ensures many { vec_len lanes.new ≡ vec_len lanes.old }
    ensures more { AreMore (released_by manager.now) lanes.old.items lanes.new.items }
{
    for p in 0..manager.recovery().n() {
        add_new(alloc, &mut lanes[p], manager.released(Pid::at(p)))?;
    }
    Ok(())
}

// Copies of these outputs those that were not copied yet.
fn add_brought(
    alloc: Global,
    lanes: &mut Vec<FollowedOutputs>,
    brought: &[Vec<Output>],
) -> Result<(), AllocError>
    requires many { length brought.now ≡ vec_len lanes.old }
    requires numbered { (p : ℕ) (outputs : _) → slice_get brought.now p ≡ Some outputs → AreNumbered outputs.items }
    ensures many { vec_len lanes.new ≡ vec_len lanes.old }
    ensures more { AreMore (held_in brought.now) lanes.old.items lanes.new.items }
    ensures all { OnOk result (AreAllCopied brought.now lanes.new.items) }
{
    for p in 0..brought.len() {
        add_new(alloc, &mut lanes[p], &brought[p])?;
    }
    Ok(())
}

// Copies of what the workers brought back what was not copied yet.
fn add_harvests<K: Naming, R: Wait>(
    rt: &R,
    alloc: Global,
    frontier: &Frontier<K>,
    board: &mut Board<K>,
    harvests: Vec<Harvest<K>>,
    lanes: &mut Vec<FollowedOutputs>,
) -> Result<(), AllocError>
    requires own { AreOwn harvests.items }
    requires sound { IsBoard K.cell.n board.old }
    requires each { length harvests.items ≡ vec_len lanes.old }
    ensures board { board.new ≡ board.old }
    ensures many { vec_len lanes.new ≡ vec_len lanes.old }
    ensures more { HaveMore K.programs K.cell.n K.OverClean board.old.manager.recovery lanes.old.items lanes.new.items }
    ensures all { OnOk result (AreAllCopied (harvested harvests.items) lanes.new.items) }
{
    let brought = all_met(rt, alloc, frontier, board, harvests)?;
    add_brought(alloc, lanes, &brought)
}

// Tells of the outputs of a process below a number, those that are still to be told.
fn tell_below<F: Follower>(
    follower: &mut F,
    lane: &mut FollowedOutputs,
    pid: Pid,
    below: usize,
) -> bool
    ensures copied { lane.new.copied ≡ lane.old.copied }
    ensures told { IsTrue result → HasTold F.Tells pid lane.old follower.old lane.new follower.new }
    ensures all { IsTrue result → lane.old.copied ≤ below → lane.new.fresh.items ≡ [] }
{
    let told = lane.copied - lane.fresh.len();
    for _ in told..below {
        let Some(output) = lane.fresh.pop_front() else {
            return true;
        };
        if !follower.tell(pid, &output) {
            return false;
        }
    }
    true
}

// Tells of the outputs of a process below a number, if there is such a process.
fn tell_release<F: Follower>(
    follower: &mut F,
    lanes: &mut Vec<FollowedOutputs>,
    release: Release,
) -> bool
    ensures many { vec_len lanes.new ≡ vec_len lanes.old }
    ensures copied { KeepsCopied lanes.old.items lanes.new.items }
    ensures told { HaveToldIf F.Tells result lanes.old.items follower.old lanes.new.items follower.new }
{
    let Release { process, below } = release;
    let p = process.index();
    if p >= lanes.len() {
        return true;
    }
    tell_below(follower, &mut lanes[p], process, below)
}

// Tells of what was released, in order.
fn tell_in_order<F: Follower>(
    follower: &mut F,
    lanes: &mut Vec<FollowedOutputs>,
    releases: &[Release],
) -> bool
    ensures many { vec_len lanes.new ≡ vec_len lanes.old }
    ensures copied { KeepsCopied lanes.old.items lanes.new.items }
    ensures told { HaveToldIf F.Tells result lanes.old.items follower.old lanes.new.items follower.new }
{
    for release in releases {
        if !tell_release(follower, lanes, *release) {
            return false;
        }
    }
    true
}

// Tells of all that is still to be told.
fn tell_rest<F: Follower>(follower: &mut F, lanes: &mut Vec<FollowedOutputs>) -> bool
    requires { vec_len lanes.old ≤ MAX_PROCESSES }
    ensures many { vec_len lanes.new ≡ vec_len lanes.old }
    ensures copied { KeepsCopied lanes.old.items lanes.new.items }
    ensures told { HaveToldIf F.Tells result lanes.old.items follower.old lanes.new.items follower.new }
    ensures all { IsTrue result → AreTold lanes.new.items }
{
    for p in 0..lanes.len() {
        let copied = lanes[p].copied;
        if !tell_below(follower, &mut lanes[p], Pid::at(p), copied) {
            return false;
        }
    }
    true
}

// Tells of all that is still to be told: in the order of its release, as far as that is known.
fn tell_all<F: Follower>(
    follower: &mut F,
    lanes: &mut Vec<FollowedOutputs>,
    releases: &[Release],
) -> bool
    requires { vec_len lanes.old ≤ MAX_PROCESSES }
    ensures many { vec_len lanes.new ≡ vec_len lanes.old }
    ensures copied { KeepsCopied lanes.old.items lanes.new.items }
    ensures told { HaveToldIf F.Tells result lanes.old.items follower.old lanes.new.items follower.new }
    ensures all { IsTrue result → AreTold lanes.new.items }
{
    if !tell_in_order(follower, lanes, releases) {
        return false;
    }
    if !tell_rest(follower, lanes) {
        return false;
    }
    follower.pause()
}

// Returns why the run is to come to no end, after outputs were copied: the first cause stays.
fn fault_of_copy(fault: Option<FollowFault>, copied: Result<(), AllocError>) -> Option<FollowFault>
    ensures unwanted { fault ≡ Some Unwanted → result ≡ Some Unwanted }
    ensures none { result ≡ None → IsOk copied }
{
    match copied {
        Ok(()) => fault,
        Err(_) => fault.or(Some(FollowFault::Run(RunFault::Memory))),
    }
}

// Returns why the run is to come to no end, after the follower was told: it may want no more.
fn fault_of_wish(fault: Option<FollowFault>, goes_on: bool) -> Option<FollowFault>
    ensures on { result ≢ Some Unwanted → IsTrue goes_on }
    ensures same { result ≢ Some Unwanted → result ≡ fault }
{
    if goes_on {
        fault
    } else {
        Some(FollowFault::Unwanted)
    }
}

impl<'a, K: Naming, F: Follower> Following<'a, K, F> {
    /// Makes the following of a cluster that is to run. The follower comes back where memory runs out.
    pub fn new<R: Wait>(
        rt: &R,
        alloc: Global,
        shared: &Shared<K>,
        herald: &'a Herald,
        follower: F,
    ) -> Result<Following<'a, K, F>, F>
        ensures follower { IfOk result (λ f. f.follower ≡ follower) }
        ensures none { IfOk result (λ f. AreEmpty f.lanes.items) }
        ensures back { IfErr result (λ f. f ≡ follower) }
    {
        let mut guard = shared.board.lock(rt);
        let board = &mut *guard;
        let pass = board.pass(&shared.frontier);
        let (front, pass) = shared.frontier.meet(rt, board, pass);
        // The look tells what holds of every board.
        let manager = board.manager();
        let Ok(lanes) = empty_lanes(alloc, manager.recovery().n()) else {
            return Err(follower);
        };
        let following = Following {
            herald,
            follower,
            lanes,
            fault: None,
            front,
            pass,
        };
        Ok(following)
    }

    // Copies what is released by now, and gives the order in which it was, as far as that is known.
    fn take_in<R: Wait>(
        self,
        rt: &R,
        alloc: Global,
        shared: &Shared<K>,
    ) -> (Following<'a, K, F>, Vec<Release>)
        ensures followed { StaysFollowed F.Tells K.OverClean K.programs K.cell.n self.entry.front.vec self.entry.lanes.items self.entry.fault self.entry.follower
            result.0.front.vec result.0.lanes.items result.0.fault result.0.follower }
    {
        let Following {
            herald,
            follower,
            mut lanes,
            fault,
            pass,
            ..
        } = self;
        let mut guard = shared.board.lock(rt);
        let board = &mut *guard;
        let (front, pass) = shared.frontier.meet(rt, board, pass);
        let releases = herald.releases(rt);
        let copied = add_all(alloc, &mut lanes, board.manager());
        let following = Following {
            herald,
            follower,
            lanes,
            fault: fault_of_copy(fault, copied),
            front,
            pass,
        };
        (following, releases)
    }

    // Tells of all that is there.
    fn tell(self, releases: &[Release]) -> Following<'a, K, F>
        ensures followed { StaysFollowed F.Tells K.OverClean K.programs K.cell.n self.entry.front.vec self.entry.lanes.items self.entry.fault self.entry.follower
            result.front.vec result.lanes.items result.fault result.follower }
        ensures all { result.fault ≡ None → AreTold result.lanes.items }
        ensures copied { map (λ lane. lane.copied) result.lanes.items ≡ map (λ lane. lane.copied) self.entry.lanes.items }
        ensures fault { result.fault ≡ None → self.entry.fault ≡ None }
    {
        let Following {
            herald,
            mut follower,
            mut lanes,
            fault,
            front,
            pass,
            ..
        } = self;
        let goes_on = tell_all(&mut follower, &mut lanes, releases);
        Following {
            herald,
            follower,
            lanes,
            fault: fault_of_wish(fault, goes_on),
            front,
            pass,
        }
    }

    /// Tells of what was released by now, in the order in which it was. The lock is held only to copy what is new.
    pub fn look<R: Wait>(self, rt: &R, alloc: Global, shared: &Shared<K>) -> Following<'a, K, F>
        ensures followed { StaysFollowed F.Tells K.OverClean K.programs K.cell.n self.entry.front.vec self.entry.lanes.items self.entry.fault self.entry.follower
            result.front.vec result.lanes.items result.fault result.follower }
        ensures all { result.fault ≡ None → AreTold result.lanes.items }
    {
        if self.fault == Some(FollowFault::Unwanted) {
            return self;
        }
        let (following, releases) = self.take_in(rt, alloc, shared);
        following.tell(&releases)
    }

    // Adds what the workers brought back, and gives the order in which it was released, as far as that is known.
    fn take_back<R: Wait>(
        self,
        rt: &R,
        alloc: Global,
        shared: &Shared<K>,
        harvests: Vec<Harvest<K>>,
    ) -> (Following<'a, K, F>, Vec<Release>)
        requires own { AreOwn harvests.items }
        requires each { length harvests.items ≡ K.cell.n }
        ensures followed { StaysFollowed F.Tells K.OverClean K.programs K.cell.n self.entry.front.vec self.entry.lanes.items self.entry.fault self.entry.follower
            result.0.front.vec result.0.lanes.items result.0.fault result.0.follower }
        ensures all { result.0.fault ≡ None → AreAllCopied (harvested harvests.items) result.0.lanes.items }
    {
        let Following {
            herald,
            follower,
            mut lanes,
            fault,
            pass,
            ..
        } = self;
        let mut guard = shared.board.lock(rt);
        let board = &mut *guard;
        let (front, pass) = shared.frontier.meet(rt, board, pass);
        let releases = herald.releases(rt);
        // The look tells what holds of every board.
        let _ = board.manager();
        let copied = add_harvests(rt, alloc, &shared.frontier, board, harvests, &mut lanes);
        let following = Following {
            herald,
            follower,
            lanes,
            fault: fault_of_copy(fault, copied),
            front,
            pass,
        };
        (following, releases)
    }

    /// Tells of all that the workers brought back when each had ended well, in the order in which it was released.
    pub fn complete<R: Wait>(
        self,
        rt: &R,
        alloc: Global,
        shared: &Shared<K>,
        harvests: Vec<Harvest<K>>,
    ) -> Following<'a, K, F>
        requires own { AreOwn harvests.items }
        requires each { length harvests.items ≡ K.cell.n }
        ensures followed { StaysFollowed F.Tells K.OverClean K.programs K.cell.n self.entry.front.vec self.entry.lanes.items self.entry.fault self.entry.follower
            result.front.vec result.lanes.items result.fault result.follower }
        ensures all { result.fault ≡ None → AreTold result.lanes.items }
        ensures brought { result.fault ≡ None → AreAllCopied (harvested harvests.items) result.lanes.items }
    {
        if self.fault == Some(FollowFault::Unwanted) {
            return self;
        }
        let (following, releases) = self.take_back(rt, alloc, shared, harvests);
        following.tell(&releases)
    }

    /// Tells of what is released until so many workers have ended, or the run is to come to no end.
    pub fn follow<R: Wait>(
        self,
        rt: &R,
        alloc: Global,
        shared: &Shared<K>,
        n: usize,
    ) -> Following<'a, K, F>
        ensures { StaysFollowed F.Tells K.OverClean K.programs K.cell.n self.entry.front.vec self.entry.lanes.items self.entry.fault self.entry.follower
            result.front.vec result.lanes.items result.fault result.follower }
    {
        let mut following = self;
        for _ in rt.forever() {
            following = following.look(rt, alloc, shared);
            if following.is_over() || following.herald.have_ended(n) {
                break;
            }
            following.herald.sleep(rt);
        }
        following
    }

    /// Returns whether the run is to come to no end.
    pub fn is_over(&self) -> bool
        ensures { IsTrue result ↔ self.now.fault ≢ None }
    {
        self.fault.is_some()
    }

    /// Returns why the run came to no end, where the workers came to none, and the follower.
    pub fn into_fault(self, fault: RunFault) -> (FollowFault, F)
        ensures follower { result.1 ≡ self.entry.follower }
        ensures partly { (start : F) → IsFollowed F.Tells K.OverClean K.programs K.cell.n self.entry.front.vec start self.entry.lanes.items self.entry.fault self.entry.follower
            → result.0 ≢ Unwanted → (told : List Told) × F.Tells start result.1 told × AreInOrder told
            × (K.OverClean → AreToldMade K.programs K.cell.n told) }
    {
        let Following {
            follower,
            fault: own,
            ..
        } = self;
        (own.unwrap_or(FollowFault::Run(fault)), follower)
    }

    /// Returns how the run ended and the follower, or why there is no end. Refused where the run is to come to none.
    pub fn into_report(self, statuses: Vec<Status>) -> (Result<FollowedReport, FollowFault>, F)
        ensures statuses { IfOk result.0 (λ r. r.statuses ≡ statuses) }
        ensures front { IfOk result.0 (λ r. r.front ≡ self.entry.front) }
        ensures unless { IfOk result.0 (λ r. self.entry.fault ≡ None) }
        ensures follower { result.1 ≡ self.entry.follower }
        ensures partly { (start : F) → IsFollowed F.Tells K.OverClean K.programs K.cell.n self.entry.front.vec start self.entry.lanes.items self.entry.fault self.entry.follower
            → IfErr result.0 (λ fault. fault ≢ Unwanted → (told : List Told) × F.Tells start result.1 told × AreInOrder told
            × (K.OverClean → AreToldMade K.programs K.cell.n told)) }
    {
        let Following {
            follower,
            fault,
            front,
            ..
        } = self;
        match fault {
            Some(fault) => (Err(fault), follower),
            None => (Ok(FollowedReport { statuses, front }), follower),
        }
    }
}
