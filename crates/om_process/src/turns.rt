//! Turns of a process.

ghost use Rattle.std.specs.Prelude.{ℕ, ◌≡◌, ◌≢◌, ◌+◌, ◌<◌, ◌≤◌, length, slice_index, slice_range, Option, None, Some, IfOk, OnOk, OnErr, IfSome, List};
ghost use Rattle.om_machine.specs.derived.NextStep.{next_of};
ghost use Rattle.om_machine.specs.Finishing.{TakesWord, finished_who, finished_word};
ghost use Rattle.om_process.specs.Core.{CoreTurns, cluster_size, core_refuses, core_turn, move_of, status_of, with_now};
ghost use Rattle.om_process.specs.Turns.{is_refused_send};
ghost use Rattle.om_process.specs.steps.Planned.{IsBuffer, with_bytes_emitted};
ghost use Rattle.om_process.specs.Process.{Process, Emits, emitted, made};
ghost use Rattle.om_process.specs.steps.Pieces.{with_machine, ChangesProcessAlone, KeepsClusterSize};
ghost use Rattle.om_format.specs.declared.limits.TheConstants.{MAX_BODY};
ghost use Rattle.om_process.specs.declared.limits.TheConstants.{LAST_NUMBER};
ghost use Rattle.om_machine.specs.State.{State};

use crate::limits::REFUSED;
use crate::plan::{Plan, may_not_send, plan_at};
use crate::proc_core::ProcCore;
use crate::queues::Messages;
use crate::status::Status;
use om_format::Body;
use om_interval::Pid;
use om_machine::{EnvCall, Event, Machine};
use std::alloc::{AllocError, Global};

/// How a run of a process ended.
#[derive(Clone, Copy, Debug, PartialEq, Eq)]
pub struct RunEnd {
    /// The number of instructions that were finished.
    pub steps: u64,
    /// What the process is about to do.
    pub status: Status,
    /// How many of the instructions were sends that are refused: to no process, too long, or with no number left.
    pub refused: u64,
}

// Copies bytes of memory into a body.
fn copied(alloc: Global, machine: &Machine, addr: u32, len: u32) -> Result<Body, AllocError>
    requires { IsBuffer machine.now addr len }
    ensures bytes { IfOk result (λ body. body ≡ slice_range machine.now.memory addr (addr + len)) }
    ensures short { IfOk result (λ body. length body ≤ MAX_BODY) }
{
    let Some(bytes) = machine.bytes(addr, len) else {
        unreachable!()
    };
    Body::from_slice(alloc, bytes)
}

// Adds a message to the queue at a place.
fn push_at(
    outbox: &mut Vec<Messages>,
    place: usize,
    interval: u32,
    body: Body,
) -> Result<(), AllocError>
    requires place { place < length outbox.old.items }
    requires room { slice_index (made outbox.old.items) place < LAST_NUMBER }
    ensures ok { OnOk result (outbox.new.items ≡ emitted place (record { interval = interval; body = body }) outbox.old.items) }
    ensures err { OnErr result (outbox.new.items ≡ outbox.old.items) }
{
    let messages = &mut outbox[place];
    messages.push(interval, body)
}

impl ProcCore {
    // Runs the machine alone, until it stands or the fuel is used up.
    fn go(&mut self, fuel: u64) -> om_machine::Ran
        ensures turns { CoreTurns result.steps self.old self.new }
        ensures none_refused { core_refuses result.steps self.old ≡ 0 }
        ensures rest { ChangesProcessAlone self.old self.new }
        ensures size { KeepsClusterSize self.old self.new }
        ensures within { result.steps ≤ fuel }
        ensures stands { result.steps < fuel → (next_of self.new.now.machine).0 ≡ result.event }
        ensures stopped { result.steps < fuel → result.event ≢ Event.Went }
    {
        self.machine.run(fuel)
    }

    // Sends bytes of memory.
    fn send(&mut self, alloc: Global, to: Pid, addr: u32, len: u32) -> Result<(), AllocError>
        requires word { TakesWord (next_of self.old.now.machine).0 }
        requires buffer { IsBuffer self.old.now.machine addr len }
        requires place { to < cluster_size self.old.now }
        requires room { slice_index (made self.old.now.queues) to < LAST_NUMBER }
        ensures ok { OnOk result (with_bytes_emitted self.old.now to addr len ≡ Some self.new.now) }
        ensures rest { ChangesProcessAlone self.old self.new }
        ensures size { KeepsClusterSize self.old self.new }
        ensures err { OnErr result (self.new ≡ self.old) }
    {
        let body = copied(alloc, &self.machine, addr, len)?;
        push_at(&mut self.outbox, to.index(), self.interval, body)?;
        self.sent.set(to, self.sent.get(to) + 1);
        self.machine.finish_word(0);
        Ok(())
    }

    // Puts bytes of memory out.
    fn put_out(&mut self, alloc: Global, addr: u32, len: u32) -> Result<(), AllocError>
        requires word { TakesWord (next_of self.old.now.machine).0 }
        requires buffer { IsBuffer self.old.now.machine addr len }
        ensures ok { OnOk result (with_bytes_emitted self.old.now (cluster_size self.old.now) addr len ≡ Some self.new.now) }
        ensures rest { ChangesProcessAlone self.old self.new }
        ensures size { KeepsClusterSize self.old self.new }
        ensures err { OnErr result (self.new ≡ self.old) }
    {
        let body = copied(alloc, &self.machine, addr, len)?;
        self.outputs.push(self.interval, body)?;
        self.machine.finish_word(0);
        self.made += 1;
        Ok(())
    }

    // Finishes a send or an output.
    fn finish(&mut self, v: u32)
        requires { TakesWord (next_of self.old.now.machine).0 }
        ensures { self.new ≡ with_now self.old (with_machine self.old.now (finished_word v self.old.now.machine)) }
    {
        self.machine.finish_word(v);
    }

    // Tells the process its number.
    fn tell(&mut self)
        requires { (next_of self.old.now.machine).0 ≡ Event.Call EnvCall.Who }
        ensures { self.new ≡ with_now self.old
            (with_machine self.old.now (finished_who self.old.own (cluster_size self.old.now) self.old.now.machine)) }
    {
        let n = self.vec.n() as u32;
        self.machine.finish_who(self.pid.index() as u32, n);
    }

    // Returns whether the event is a send that is refused.
    fn refuses(&self, event: Event) -> bool
        ensures { result ≡ is_refused_send (cluster_size self.now.now) (made self.now.now.queues) event }
    {
        match event {
            Event::Call(EnvCall::Send { to, len, .. }) => may_not_send(&self.sent, to, len),
            _ => false,
        }
    }

    // Takes one turn at this event of the machine, or returns what it is about to do where there is none.
    fn turn(&mut self, alloc: Global, event: Event) -> Result<Option<Status>, AllocError>
        requires at { (next_of self.old.now.machine).0 ≡ event }
        requires stands { event ≢ Event.Went }
        ensures turn { IfOk result (λ stop. stop ≡ None → core_turn self.old ≡ Some self.new.now) }
        ensures not_ready { IfOk result (λ stop. IfSome stop (λ status. status ≢ Status.Ready)) }
        ensures stop { IfOk result (λ stop. IfSome stop (λ status.
            (status ≡ status_of (move_of self.old)) × (self.new ≡ self.old))) }
        ensures rest { ChangesProcessAlone self.old self.new }
        ensures size { KeepsClusterSize self.old self.new }
        ensures err { OnErr result (self.new ≡ self.old) }
        ensures due { OnErr result ((p : Process) × (core_turn self.old ≡ Some p)) }
        ensures adds { OnErr result ((place : ℕ) × (body : List ℕ) × (next : State) × (move_of self.old ≡ Emits place body next)) }
    {
        match plan_at(&self.machine, &self.sent, event) {
            Plan::Go => unreachable!(),
            Plan::Refuse => self.finish(REFUSED),
            Plan::Send { to, addr, len } => self.send(alloc, to, addr, len)?,
            Plan::Output { addr, len } => self.put_out(alloc, addr, len)?,
            Plan::Tell => self.tell(),
            Plan::Stop(status) => return Ok(Some(status)),
        }
        Ok(None)
    }

    /// Runs the process, at most `fuel` instructions. Where memory runs out the instructions before stand, and the send or
    /// output that was refused is still to come.
    pub fn run(&mut self, alloc: Global, fuel: u64) -> Result<RunEnd, AllocError>
        ensures turns { IfOk result (λ ran. CoreTurns ran.steps self.old self.new) }
        ensures within { IfOk result (λ ran. ran.steps ≤ fuel) }
        ensures status { IfOk result (λ ran. ran.status ≡ status_of (move_of self.new)) }
        ensures refused { IfOk result (λ ran. ran.refused ≡ core_refuses ran.steps self.old) }
        ensures stops { IfOk result (λ ran. ran.steps < fuel → ran.status ≢ Status.Ready) }
        ensures no_more { IfOk result (λ ran. ran.steps < fuel → core_turn self.new ≡ None) }
        ensures due { OnErr result ((p : Process) × (core_turn self.new ≡ Some p)) }
        ensures adds { OnErr result ((place : ℕ) × (body : List ℕ) × (next : State) × (move_of self.new ≡ Emits place body next)) }
        ensures at_most { (k : ℕ) × (k ≤ fuel) × CoreTurns k self.old self.new }
        ensures rest { ChangesProcessAlone self.old self.new }
        ensures size { KeepsClusterSize self.old self.new }
    {
        let mut steps = 0;
        let mut refused = 0;
        while steps < fuel {
            let ran = self.go(fuel - steps);
            steps += ran.steps;
            if steps < fuel {
                let is_refused = self.refuses(ran.event);
                if let Some(status) = self.turn(alloc, ran.event)? {
                    return Ok(RunEnd {
                        steps,
                        status,
                        refused,
                    });
                }
                steps += 1;
                refused += u64::from(is_refused);
            }
        }
        Ok(RunEnd {
            steps,
            status: self.status(),
            refused,
        })
    }
}
