//! A run without failures as it goes on, with all that happened.

ghost use Rattle.std.specs.Prelude.{◌≡◌, ◌≤◌, [], IfOk, OnOk, length, map};
ghost use Rattle.om_interval.specs.declared.pid.TheConstants.{MAX_PROCESSES};
ghost use Rattle.om_process.specs.Images.{program_of};
ghost use Rattle.om_check.specs.Explored.{LeadTo};
ghost use Rattle.om_check.specs.Whole.{IsUnderWay};
ghost use Rattle.om_check.specs.steps.Playing.{HasDelivered, HasReceived, IsOf, KeepsLive, StaysARun};

use crate::events::{checkpoint, flush, give, prune, run, trim};
use crate::fault::PlayFault;
use crate::playing::begin;
use crate::stage::{RECEIPTS_KEPT, Stage};
use om_interval::{MAX_PROCESSES, Pid};
use om_process::{Image, Status};
use om_world::Event;
use std::alloc::Global;

// A world, and the events that led to it.
#[derive(Drop)]
pub(crate) struct Trail {
    pub(crate) stage: Stage,
    pub(crate) events: Vec<Event>,
    // How many receipts there were since the world dropped what it need not keep.
    pub(crate) receipts: usize,
}

// The world of these images at its start, to which nothing led.
fn at_start(alloc: Global, images: &[Image]) -> Result<Trail, PlayFault>
    requires some { 1 ≤ length images.now }
    requires few { length images.now ≤ MAX_PROCESSES }
    ensures way { IfOk result (λ trail. IsUnderWay (map program_of images.now) trail.stage.world) }
    ensures led { IfOk result (λ trail. LeadTo (map program_of images.now) trail.events.items trail.stage.world) }
    ensures live { IfOk result (λ trail. trail.stage.world.live ≡ []) }
{
    let world = begin(alloc, images)?;
    Ok(Trail {
        stage: Stage::new(alloc, world, images.len())?,
        events: Vec::new(alloc),
        receipts: 0,
    })
}

// The same, where each process has run until it waits or has ended. Who owns a world gives it up by a call at a fault: at the end of a
// scope each of its parts would be dropped, which the prover goes through one by one.
pub(crate) fn begun(alloc: Global, images: &[Image], limit: u64) -> Result<Trail, PlayFault>
    requires some { 1 ≤ length images.now }
    requires few { length images.now ≤ MAX_PROCESSES }
    ensures way { IfOk result (λ trail. IsUnderWay (map program_of images.now) trail.stage.world) }
    ensures led { IfOk result (λ trail. LeadTo (map program_of images.now) trail.events.items trail.stage.world) }
    ensures live { IfOk result (λ trail. trail.stage.world.live ≡ []) }
{
    let mut trail = at_start(alloc, images)?;
    match trail.run_all(images.len(), limit) {
        Ok(()) => Ok(trail),
        Err(fault) => {
            drop(trail);
            Err(fault)
        }
    }
}

impl Trail {
    // Returns whether a process waits for a message.
    pub(crate) fn waits(&self, pid: Pid) -> bool {
        match self.stage.world.core(pid) {
            Some(core) => core.status() == Status::Waiting,
            None => false,
        }
    }

    // Returns whether a message of the one to the other was sent and not received.
    pub(crate) fn is_under_way(&self, from: Pid, to: Pid) -> bool {
        self.stage.lines.has(from.index(), to.index())
    }

    // Runs a process until it waits or has ended, up to so many instructions since its start.
    fn go(&mut self, pid: Pid, limit: u64) -> Result<(), PlayFault>
        ensures run { OnOk result (StaysARun self.old.events.items self.old.stage.world self.new.events.items self.new.stage.world) }
        ensures live { OnOk result (KeepsLive self.old.stage.world self.new.stage.world) }
    {
        let fuel = self.stage.left(pid, limit);
        let process = pid.index();
        self.events.try_reserve(1)?;
        run(&mut self.stage.world, self.stage.alloc, pid, fuel)?;
        self.events.push_reserved(Event::Run { process, fuel });
        Ok(())
    }

    // Runs a process, of so many, and numbers what it sent.
    pub(crate) fn run(&mut self, pid: Pid, n: usize, limit: u64) -> Result<(), PlayFault>
        ensures run { OnOk result (StaysARun self.old.events.items self.old.stage.world self.new.events.items self.new.stage.world) }
        ensures live { OnOk result (KeepsLive self.old.stage.world self.new.stage.world) }
    {
        self.go(pid, limit)?;
        self.stage.number(n, pid)?;
        Ok(())
    }

    // Gives a process a frame.
    fn give(&mut self, pid: Pid, frame: usize) -> Result<(), PlayFault>
        ensures run { OnOk result (StaysARun self.old.events.items self.old.stage.world self.new.events.items self.new.stage.world) }
        ensures live { OnOk result (HasReceived self.old.stage.world frame self.new.stage.world) }
    {
        let process = pid.index();
        self.events.try_reserve(1)?;
        give(&mut self.stage.world, self.stage.alloc, pid, frame)?;
        self.events.push_reserved(Event::Give { process, frame });
        Ok(())
    }

    // Refuses where a frame is not of these two.
    fn is_of(&self, frame: usize, from: Pid, to: Pid) -> Result<(), PlayFault>
        ensures { OnOk result (IsOf self.now.stage.world frame from to) }
    {
        match self.stage.world.frames().get(frame) {
            Some(message) if message.from == from && message.to == to => Ok(()),
            _ => Err(PlayFault::NotSent(to)),
        }
    }

    // Releases what a process put out.
    fn release(&mut self, pid: Pid) -> Result<(), PlayFault>
        ensures run { OnOk result (StaysARun self.old.events.items self.old.stage.world self.new.events.items self.new.stage.world) }
        ensures live { OnOk result (KeepsLive self.old.stage.world self.new.stage.world) }
    {
        let process = pid.index();
        self.events.try_reserve(1)?;
        flush(&mut self.stage.world, self.stage.alloc, pid)?;
        self.events.push_reserved(Event::Flush { process });
        Ok(())
    }

    // Stores the state of a process.
    fn save(&mut self, pid: Pid) -> Result<(), PlayFault>
        ensures run { OnOk result (StaysARun self.old.events.items self.old.stage.world self.new.events.items self.new.stage.world) }
        ensures live { OnOk result (KeepsLive self.old.stage.world self.new.stage.world) }
    {
        let process = pid.index();
        self.events.try_reserve(1)?;
        checkpoint(&mut self.stage.world, self.stage.alloc, pid)?;
        self.events.push_reserved(Event::Checkpoint { process });
        Ok(())
    }

    // Drops what the manager and the stores need not keep.
    fn prune(&mut self) -> Result<(), PlayFault>
        ensures run { OnOk result (StaysARun self.old.events.items self.old.stage.world self.new.events.items self.new.stage.world) }
        ensures live { OnOk result (KeepsLive self.old.stage.world self.new.stage.world) }
    {
        self.events.try_reserve(1)?;
        prune(&mut self.stage.world, self.stage.alloc)?;
        self.events.push_reserved(Event::Prune);
        Ok(())
    }

    // Drops what a process need not keep.
    fn drop_kept(&mut self, pid: Pid) -> Result<(), PlayFault>
        ensures run { OnOk result (StaysARun self.old.events.items self.old.stage.world self.new.events.items self.new.stage.world) }
        ensures live { OnOk result (KeepsLive self.old.stage.world self.new.stage.world) }
    {
        let process = pid.index();
        self.events.try_reserve(1)?;
        trim(&mut self.stage.world, self.stage.alloc, pid)?;
        self.events.push_reserved(Event::Trim { process });
        Ok(())
    }

    // Drops what a process, of so many, need not keep, and numbers what it keeps.
    fn trim(&mut self, pid: Pid, n: usize) -> Result<(), PlayFault>
        ensures run { OnOk result (StaysARun self.old.events.items self.old.stage.world self.new.events.items self.new.stage.world) }
        ensures live { OnOk result (KeepsLive self.old.stage.world self.new.stage.world) }
    {
        self.drop_kept(pid)?;
        self.stage.number(n, pid)?;
        Ok(())
    }
}

impl Trail {
    // Delivers the next message of the one to the other, of so many, which was sent, and runs the receiver.
    pub(crate) fn deliver(
        &mut self,
        from: Pid,
        to: Pid,
        n: usize,
        limit: u64,
    ) -> Result<(), PlayFault>
        requires { n ≤ MAX_PROCESSES }
        ensures run { OnOk result (StaysARun self.old.events.items self.old.stage.world self.new.events.items self.new.stage.world) }
        ensures live { OnOk result (HasDelivered self.old.stage.world self.new.stage.world from to) }
    {
        self.receive(from, to)?;
        self.run(to, n, limit)?;
        self.tidy_in_time(n)?;
        Ok(())
    }

    // Gives the one process the next message of the other.
    fn receive(&mut self, from: Pid, to: Pid) -> Result<(), PlayFault>
        ensures run { OnOk result (StaysARun self.old.events.items self.old.stage.world self.new.events.items self.new.stage.world) }
        ensures live { OnOk result (HasDelivered self.old.stage.world self.new.stage.world from to) }
    {
        let Some(frame) = self.stage.lines.take(from.index(), to.index()) else {
            return Err(PlayFault::NotSent(to));
        };
        self.is_of(frame, from, to)?;
        self.give(to, frame)?;
        Ok(())
    }

    // Counts a receipt, and drops what need not be kept once there were so many.
    fn tidy_in_time(&mut self, n: usize) -> Result<(), PlayFault>
        requires { n ≤ MAX_PROCESSES }
        ensures run { OnOk result (StaysARun self.old.events.items self.old.stage.world self.new.events.items self.new.stage.world) }
        ensures live { OnOk result (KeepsLive self.old.stage.world self.new.stage.world) }
    {
        self.receipts = self.receipts.saturating_add(1);
        if self.receipts < RECEIPTS_KEPT {
            return Ok(());
        }
        self.tidy(n)?;
        Ok(())
    }

    // Stores the state of each of so many processes, and drops what need not be kept then.
    fn tidy(&mut self, n: usize) -> Result<(), PlayFault>
        requires { n ≤ MAX_PROCESSES }
        ensures run { OnOk result (StaysARun self.old.events.items self.old.stage.world self.new.events.items self.new.stage.world) }
        ensures live { OnOk result (KeepsLive self.old.stage.world self.new.stage.world) }
    {
        self.store_all(n)?;
        self.prune()?;
        self.trim_all(n)?;
        self.receipts = 0;
        Ok(())
    }

    // Runs each of so many processes until it waits or has ended.
    pub(crate) fn run_all(&mut self, n: usize, limit: u64) -> Result<(), PlayFault>
        requires { n ≤ MAX_PROCESSES }
        ensures run { OnOk result (StaysARun self.old.events.items self.old.stage.world self.new.events.items self.new.stage.world) }
        ensures live { OnOk result (KeepsLive self.old.stage.world self.new.stage.world) }
    {
        for p in 0..n {
            self.run(Pid::at(p), n, limit)?;
        }
        Ok(())
    }

    // Releases what each of so many processes put out.
    pub(crate) fn release_all(&mut self, n: usize) -> Result<(), PlayFault>
        requires { n ≤ MAX_PROCESSES }
        ensures run { OnOk result (StaysARun self.old.events.items self.old.stage.world self.new.events.items self.new.stage.world) }
        ensures live { OnOk result (KeepsLive self.old.stage.world self.new.stage.world) }
    {
        for p in 0..n {
            self.release(Pid::at(p))?;
        }
        Ok(())
    }

    // Stores what each of so many processes received, and its state.
    fn store_all(&mut self, n: usize) -> Result<(), PlayFault>
        requires { n ≤ MAX_PROCESSES }
        ensures run { OnOk result (StaysARun self.old.events.items self.old.stage.world self.new.events.items self.new.stage.world) }
        ensures live { OnOk result (KeepsLive self.old.stage.world self.new.stage.world) }
    {
        for p in 0..n {
            self.release(Pid::at(p))?;
            self.save(Pid::at(p))?;
        }
        Ok(())
    }

    // Drops what each of so many processes need not keep.
    fn trim_all(&mut self, n: usize) -> Result<(), PlayFault>
        requires { n ≤ MAX_PROCESSES }
        ensures run { OnOk result (StaysARun self.old.events.items self.old.stage.world self.new.events.items self.new.stage.world) }
        ensures live { OnOk result (KeepsLive self.old.stage.world self.new.stage.world) }
    {
        for p in 0..n {
            self.trim(Pid::at(p), n)?;
        }
        Ok(())
    }
}
