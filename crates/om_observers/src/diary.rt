//! What a worker tells the recorder of a run, the herald of its outputs, and whoever watches its failures.

ghost use Rattle.std.specs.Prelude.{◌<◌};
ghost use Rattle.om_process.specs.Core.{cluster_size};

use crate::herald::Herald;
use crate::observers::Observers;
use crate::recorder::{Act, Letter, Recorder};
use crate::watch::Watch;
use om_board::Front;
use om_format::Message;
use om_interval::{MAX_PROCESSES, Pid, Verdict};
use om_manager::Manager;
use om_process::{Accept, ProcCore, RunEnd, Status};
use std::alloc::{AllocError, Global};
use std::sync::Wait;

/// Tells what the worker of a process did, to whoever observes the run. Without observers it keeps numbers alone.
#[derive(Drop)]
pub struct Diary<'a> {
    alloc: Global,
    own: Pid,
    recorder: Option<&'a Recorder>,
    herald: Option<&'a Herald>,
    watch: Option<&'a Watch>,
    // The instructions that the process finished, and that are not told yet: they have sent nothing.
    steps: u64,
    // By receiver, the number from which on messages are not told yet.
    next: [u32; MAX_PROCESSES],
    // The interval of the process.
    interval: u32,
    // How many of its sends were refused.
    refused: u64,
    // Whether a checkpoint is told that is not noted.
    is_spelled: bool,
    // How many receipts a flight carried that has landed and is not noted.
    landed: Option<usize>,
}

// Returns whether the process keeps a message that is not told yet.
fn has_sent(core: &ProcCore, next: &[u32; MAX_PROCESSES]) -> bool {
    for to in 0..core.vec().n() {
        if let Some(last) = core.outbox(Pid::at(to)).last() {
            if last.ssn >= next[to] {
                return true;
            }
        }
    }
    false
}

// Adds the messages that are kept and not told yet.
fn add_messages(
    acts: &mut Vec<Act>,
    own: Pid,
    core: &ProcCore,
    next: &mut [u32; MAX_PROCESSES],
) -> Result<(), AllocError> {
    for to in 0..core.vec().n() {
        next[to] = add_messages_to(acts, own, core, Pid::at(to), next[to])?;
    }
    Ok(())
}

// Adds an act for each message that the process keeps for another from the number `next` on, and returns the number behind the last.
fn add_messages_to(
    acts: &mut Vec<Act>,
    own: Pid,
    core: &ProcCore,
    to: Pid,
    next: u32,
) -> Result<u32, AllocError>
    requires { to < cluster_size core.now.now }
{
    let outbox = core.outbox(to);
    let Some(oldest) = outbox.first() else {
        return Ok(next);
    };
    let mut after = next;
    let first = next.saturating_sub(oldest.ssn) as usize;
    for k in first..outbox.len() {
        let ssn = outbox[k].ssn;
        let letter = Letter {
            from: own,
            to,
            inc: core.inc(),
            ssn,
        };
        let kept = oldest.ssn;
        acts.push(Act::Send { letter, kept })?;
        after = ssn.saturating_add(1);
    }
    Ok(after)
}

impl<'a> Diary<'a> {
    /// Begins for a process at its start.
    pub fn new(alloc: Global, own: Pid, observers: Observers<'a>) -> Diary<'a> {
        let Observers {
            recorder,
            herald,
            watch,
            ..
        } = observers;
        Diary {
            alloc,
            own,
            recorder,
            herald,
            watch,
            steps: 0,
            next: [0; MAX_PROCESSES],
            interval: 0,
            refused: 0,
            is_spelled: false,
            landed: None,
        }
    }

    /// Returns how many sends of the process were refused, of all that was told here.
    pub fn refused(&self) -> u64 {
        self.refused
    }

    /// Tells whether the run is recorded.
    pub fn is_kept(&self) -> bool {
        self.recorder.is_some()
    }

    // Tells what the process did, behind the instructions that are not told yet.
    fn tell<R: Wait>(&mut self, rt: &R, acts: &[Act]) -> Result<(), AllocError> {
        let Some(recorder) = self.recorder else {
            return Ok(());
        };
        self.tell_run(rt)?;
        recorder.enter(rt, acts)
    }

    // Tells the instructions that are not told yet.
    fn tell_run<R: Wait>(&mut self, rt: &R) -> Result<(), AllocError> {
        let Some(recorder) = self.recorder else {
            return Ok(());
        };
        if self.steps > 0 {
            let run = Act::Run {
                process: self.own,
                steps: self.steps,
            };
            recorder.enter(rt, &[run])?;
            self.steps = 0;
        }
        Ok(())
    }

    /// Tells that the process ran, before others can see what it sent; where it sent nothing and goes on, it is told later.
    pub fn ran<R: Wait>(&mut self, rt: &R, core: &ProcCore, ran: RunEnd) -> Result<(), AllocError> {
        self.refused = self.refused.saturating_add(ran.refused);
        let Some(recorder) = self.recorder else {
            return Ok(());
        };
        self.steps = self.steps.saturating_add(ran.steps);
        if !has_sent(core, &self.next) {
            if ran.status == Status::Ready {
                return Ok(());
            }
            return self.tell_run(rt);
        }
        let mut acts = Vec::new(self.alloc);
        acts.push(Act::Run {
            process: self.own,
            steps: self.steps,
        })?;
        self.steps = 0;
        add_messages(&mut acts, self.own, core, &mut self.next)?;
        recorder.enter(rt, &acts)
    }

    /// Tells how the process answered to a message, but not of one that it had received before.
    pub fn gave<R: Wait>(
        &mut self,
        rt: &R,
        message: &Message,
        answer: Accept,
    ) -> Result<(), AllocError> {
        let interval = match answer {
            Accept::Repeat | Accept::Memory => return Ok(()),
            Accept::Taken(x) => {
                self.interval = x;
                Some(x)
            }
            _ => None,
        };
        let letter = Letter {
            from: message.from,
            to: message.to,
            inc: message.tag.inc,
            ssn: message.ssn,
        };
        self.tell(rt, &[Act::Give { letter, interval }])
    }

    /// Tells the herald of what the manager has released, under the board's lock.
    pub fn announce<R: Wait>(&self, rt: &R, manager: &Manager) -> Result<(), AllocError> {
        match self.herald {
            Some(herald) => herald.announce(rt, manager),
            None => Ok(()),
        }
    }

    /// Tells that the process handed over a checkpoint of now to be stored. Its row is noted later.
    pub fn spelled<R: Wait>(&mut self, rt: &R) -> Result<(), AllocError> {
        self.is_spelled = true;
        self.tell(rt, &[Act::Spell { process: self.own }])
    }

    /// Takes in that so many receipts that the process handed over are stored. Their rows are noted next.
    pub fn landed(&mut self, count: usize) {
        self.landed = Some(count);
    }

    /// Takes in that the process stored all of its volatile log. The rows are noted next.
    pub fn stored_all(&mut self) {
        self.landed = None;
    }

    // Returns what the process stored whose rows are noted, but for a checkpoint that is told by itself. One that is spelled is
    // noted with the receipts, once it has landed.
    fn flush_of(&mut self, has_receipt: bool, has_checkpoint: bool) -> Option<Act> {
        let process = self.own;
        match self.landed.take() {
            Some(count) => Some(Act::FlushFirst { process, count }),
            None if has_receipt || has_checkpoint && self.is_spelled => {
                Some(Act::Flush { process })
            }
            None => None,
        }
    }

    /// Tells that pending rows are noted, under the board's lock: of receipts, and then of a checkpoint.
    // After a checkpoint the manager is pruned, and the process drops what it need not keep.
    pub fn noted<R: Wait>(
        &mut self,
        rt: &R,
        has_receipt: bool,
        has_checkpoint: bool,
    ) -> Result<(), AllocError> {
        let process = self.own;
        if let Some(flush) = self.flush_of(has_receipt, has_checkpoint) {
            self.tell(rt, &[flush])?;
        }
        if has_checkpoint {
            if !self.is_spelled {
                self.tell(rt, &[Act::Checkpoint { process }])?;
            }
            self.is_spelled = false;
            self.tell(rt, &[Act::Prune, Act::Trim { process }])?;
        }
        Ok(())
    }

    /// Tells that the failure of the process is declared, under the board's lock; it may have finished the round.
    pub fn failed<R: Wait>(
        &mut self,
        rt: &R,
        front: &Front,
        is_finished: bool,
    ) -> Result<(), AllocError> {
        let (process, interval) = (self.own, self.interval);
        self.forget();
        self.tell(rt, &[Act::Fail { process, interval }])?;
        self.show_failure(rt)?;
        self.finished(rt, front, is_finished)
    }

    // Forgets what the process stored: it is noted or lost.
    fn forget(&mut self) {
        self.is_spelled = false;
        self.landed = None;
    }

    // Shows whoever watches that the process failed after a receipt. One that is taken up failed before it received.
    fn show_failure<R: Wait>(&self, rt: &R) -> Result<(), AllocError> {
        match self.watch {
            Some(watch) if self.interval > 0 => watch.fail(rt, self.own, self.interval),
            _ => Ok(()),
        }
    }

    /// Tells that the process has joined, under the board's lock; it may have finished the round.
    pub fn joined<R: Wait>(
        &mut self,
        rt: &R,
        front: &Front,
        is_finished: bool,
    ) -> Result<(), AllocError> {
        let process = self.own;
        self.forget();
        self.tell(rt, &[Act::Join { process }])?;
        self.finished(rt, front, is_finished)
    }

    // Tells the recorder that the round is finished, if it is.
    fn finished<R: Wait>(
        &self,
        rt: &R,
        front: &Front,
        is_finished: bool,
    ) -> Result<(), AllocError> {
        match self.recorder {
            Some(recorder) if is_finished => recorder.finish(rt, front.round, front.vec),
            _ => Ok(()),
        }
    }

    // Returns what the process did after a round: it went on, or was rolled back.
    fn return_of(&mut self, verdict: &Verdict, is_back: bool) -> Act {
        let process = self.own;
        if !is_back {
            return Act::GoOn { process };
        }
        self.interval = verdict.r;
        Act::Back {
            process,
            interval: verdict.r,
            inc: verdict.inc,
        }
    }

    /// Tells that the process is up again after a round, and sends all that it keeps once more.
    pub fn returned<R: Wait>(
        &mut self,
        rt: &R,
        core: &ProcCore,
        verdict: &Verdict,
        is_back: bool,
    ) -> Result<(), AllocError> {
        let Some(recorder) = self.recorder else {
            return Ok(());
        };
        let process = self.own;
        let mut acts = Vec::new(self.alloc);
        acts.push(self.return_of(verdict, is_back))?;
        self.next = [0; MAX_PROCESSES];
        if has_sent(core, &self.next) {
            acts.push(Act::Resend { process })?;
            add_messages(&mut acts, process, core, &mut self.next)?;
        }
        recorder.enter(rt, &acts)
    }
}
