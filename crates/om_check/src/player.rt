//! Plays what witnesses say: each process receives its next message as soon as it was sent.

ghost use Rattle.std.specs.Prelude.{◌≡◌, ◌≤◌, OnOk};
ghost use Rattle.om_interval.specs.declared.pid.TheConstants.{MAX_PROCESSES};
ghost use Rattle.om_check.specs.steps.Playing.{StaysUnderWay};

use crate::events::{checkpoint, flush, give, prune, run, trim};
use crate::fault::PlayFault;
use crate::stage::{RECEIPTS_KEPT, Stage};
use om_interval::{MAX_PROCESSES, Pid};
use om_process::Witness;
use om_world::Event;
use std::alloc::AllocError;

// A world, and what is still to happen.
#[derive(Drop)]
pub(crate) struct Player<'a> {
    pub(crate) stage: Stage,
    // By process.
    pub(crate) witnesses: &'a [Witness],
    // How many receipts there were since the world dropped what it need not keep.
    pub(crate) receipts: usize,
    // Whether what happens is to be kept, and what happened where it is.
    pub(crate) keeps: bool,
    pub(crate) events: Vec<Event>,
}

impl<'a> Player<'a> {
    // Keeps an event, where that is asked for.
    fn keep(&mut self, event: Event) -> Result<(), AllocError>
        ensures { self.new.stage.world ≡ self.old.stage.world }
    {
        if self.keeps {
            self.events.push(event)?;
        }
        Ok(())
    }

    // Returns how many instructions a process is still to finish.
    fn left(&self, pid: Pid) -> u64 {
        match self.witnesses.get(pid.index()) {
            Some(witness) => self.stage.left(pid, witness.count),
            None => 0,
        }
    }

    // Runs a process until it waits or has ended.
    fn go(&mut self, pid: Pid) -> Result<(), PlayFault>
        ensures { OnOk result (StaysUnderWay self.old.stage.world self.new.stage.world) }
    {
        let fuel = self.left(pid);
        let process = pid.index();
        self.keep(Event::Run { process, fuel })?;
        let sent = run(&mut self.stage.world, self.stage.alloc, pid, fuel)?;
        if sent > 0 {
            self.stage.number(self.witnesses.len(), pid)?;
        }
        Ok(())
    }

    // Returns from whom a process is to receive next, if it is.
    fn sender(&self, pid: Pid) -> Option<u8> {
        let core = self.stage.world.core(pid)?;
        let witness = self.witnesses.get(pid.index())?;
        Some(*witness.senders.get(core.interval() as usize)?)
    }

    // Gives a process the message that it is to receive next, if that was sent, and says whether it was.
    fn receive(&mut self, pid: Pid) -> Result<bool, PlayFault>
        ensures { OnOk result (StaysUnderWay self.old.stage.world self.new.stage.world) }
    {
        let Some(from) = self.sender(pid) else {
            return Ok(false);
        };
        let process = pid.index();
        let Some(frame) = self.stage.lines.take(from as usize, process) else {
            return Ok(false);
        };
        self.keep(Event::Give { process, frame })?;
        give(&mut self.stage.world, self.stage.alloc, pid, frame)?;
        self.receipts = self.receipts.saturating_add(1);
        self.go(pid)?;
        Ok(true)
    }

    // Gives a process what it is to receive and was sent, up to so many that the world drops what it need not keep; and says
    // whether something was.
    fn receive_all(&mut self, pid: Pid) -> Result<bool, PlayFault>
        ensures { OnOk result (StaysUnderWay self.old.stage.world self.new.stage.world) }
    {
        for k in 0..RECEIPTS_KEPT {
            if !self.receive(pid)? {
                return Ok(k > 0);
            }
        }
        Ok(true)
    }

    // Stores all that a process received, and its state.
    fn store(&mut self, pid: Pid) -> Result<(), PlayFault>
        ensures { OnOk result (StaysUnderWay self.old.stage.world self.new.stage.world) }
    {
        flush(&mut self.stage.world, self.stage.alloc, pid)?;
        checkpoint(&mut self.stage.world, self.stage.alloc, pid)
    }

    // Drops what a process need not keep.
    fn trim(&mut self, pid: Pid) -> Result<(), PlayFault>
        ensures { OnOk result (StaysUnderWay self.old.stage.world self.new.stage.world) }
    {
        trim(&mut self.stage.world, self.stage.alloc, pid)?;
        self.stage.number(self.witnesses.len(), pid)?;
        Ok(())
    }

    // Releases what a process put out.
    fn release(&mut self, pid: Pid) -> Result<(), PlayFault>
        ensures { OnOk result (StaysUnderWay self.old.stage.world self.new.stage.world) }
    {
        let process = pid.index();
        self.keep(Event::Flush { process })?;
        flush(&mut self.stage.world, self.stage.alloc, pid)
    }

    // Returns how many receipts there are to be.
    fn total(&self) -> usize {
        let mut total: usize = 0;
        for witness in self.witnesses {
            total = total.saturating_add(witness.senders.len());
        }
        total
    }
}

impl<'a> Player<'a> {
    // Stores the state of each of so many processes, and drops what need not be kept then.
    fn tidy(&mut self, n: usize) -> Result<(), PlayFault>
        requires { n ≤ MAX_PROCESSES }
        ensures { OnOk result (StaysUnderWay self.old.stage.world self.new.stage.world) }
    {
        for p in 0..n {
            self.store(Pid::at(p))?;
        }
        prune(&mut self.stage.world, self.stage.alloc)?;
        for p in 0..n {
            self.trim(Pid::at(p))?;
        }
        self.receipts = 0;
        Ok(())
    }

    // Goes once round the processes, and says whether one received something.
    fn round(&mut self, n: usize) -> Result<bool, PlayFault>
        requires { n ≤ MAX_PROCESSES }
        ensures { OnOk result (StaysUnderWay self.old.stage.world self.new.stage.world) }
    {
        let mut went = false;
        for p in 0..n {
            if self.receive_all(Pid::at(p))? {
                went = true;
            }
            if self.receipts >= RECEIPTS_KEPT {
                self.tidy(n)?;
            }
        }
        Ok(went)
    }

    // Goes round the processes for as long as one receives something.
    fn rounds(&mut self, n: usize) -> Result<(), PlayFault>
        requires { n ≤ MAX_PROCESSES }
        ensures { OnOk result (StaysUnderWay self.old.stage.world self.new.stage.world) }
    {
        for _ in 0..self.total() {
            if !self.round(n)? {
                return Ok(());
            }
        }
        Ok(())
    }

    // Refuses where a process, of so many, is still to receive something.
    fn all_received(&self, n: usize) -> Result<(), PlayFault>
        requires { n ≤ MAX_PROCESSES }
    {
        for p in 0..n {
            let pid = Pid::at(p);
            if self.sender(pid).is_some() {
                return Err(PlayFault::NotSent(pid));
            }
        }
        Ok(())
    }

    // Plays all, of so many processes.
    pub(crate) fn play(&mut self, n: usize) -> Result<(), PlayFault>
        requires { n ≤ MAX_PROCESSES }
        ensures { OnOk result (StaysUnderWay self.old.stage.world self.new.stage.world) }
    {
        for p in 0..n {
            self.go(Pid::at(p))?;
        }
        self.rounds(n)?;
        self.all_received(n)?;
        for p in 0..n {
            self.release(Pid::at(p))?;
        }
        Ok(())
    }
}
