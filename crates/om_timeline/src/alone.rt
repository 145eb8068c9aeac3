//! The machine of one process, run again without the process around it.

ghost use Rattle.std.specs.Prelude.{ℕ, ◌≡◌, ◌≢◌, ◌<◌, ◌≤◌, IfOk, OnErr, OnOk, Some, None, false, true};
ghost use Rattle.om_machine.specs.Finishing.{TakesWord};
ghost use Rattle.om_machine.specs.State.{State};
ghost use Rattle.om_machine.specs.derived.NextStep.{next_of};
ghost use Rattle.om_process.specs.Core.{status_of};
ghost use Rattle.om_process.specs.Turns.{emits};
ghost use Rattle.om_timeline.specs.Deeds.{after_deed, turns_in};
ghost use Rattle.om_timeline.specs.steps.Parts.{GoesAlone, IsGoing};
ghost use Rattle.om_timeline.specs.Alone.{HasTurns, machine_moved, move_alone, received_alone, turn_alone, turns_alone};

use crate::deed::Deed;
use om_format::MAX_BODY;
use om_machine::{Cause, EnvCall, Event, LoadFault, Machine};
use om_process::{REFUSED, Status};
use std::alloc::{AllocError, Global};

/// A machine of process `own` of `n`.
#[derive(Debug, Drop)]
pub struct Alone {
    pub machine: Machine,
    pub own: u32,
    pub n: u32,
}

/// Makes a machine as another is. Refused where memory ran out.
pub fn copy_of(alloc: Global, machine: &Machine) -> Result<Machine, AllocError>
    ensures { IfOk result (λ copy. copy ≡ machine.now) }
{
    let regs = machine.regs();
    let (pc, count, ext) = (machine.pc(), machine.count(), machine.ext());
    match Machine::restore(alloc, &regs, pc, count, machine.memory(), ext) {
        Ok(copy) => Ok(copy),
        Err(_) => Err(AllocError),
    }
}

impl Alone {
    // Finishes a send or an output, whose bytes are these; tells whether it could be.
    #[tactic(auto, using(crate::proofs::Finishing::emits_inside, crate::proofs::Finishing::emits_outside))]
    fn emit(&mut self, addr: u32, len: u32) -> bool
        requires { TakesWord (next_of self.old.machine).0 }
        ensures went { (place : ℕ) → result ≡ true
            → machine_moved (emits place addr len self.old.machine) ≡ Some self.new.machine }
        ensures stood { (place : ℕ) → result ≡ false → machine_moved (emits place addr len self.old.machine) ≡ None }
        ensures same { result ≡ false → self.new ≡ self.old }
        ensures own { self.new.own ≡ self.old.own }
        ensures n { self.new.n ≡ self.old.n }
    {
        let is_inside = self.machine.bytes(addr, len).is_some();
        if is_inside {
            self.machine.finish_word(0);
        }
        is_inside
    }

    // Takes one turn at this event of the machine, if there is one.
    #[tactic(auto, using(crate::proofs::Finishing::sends_as, crate::proofs::Finishing::refuses_send, crate::proofs::Finishing::puts_out_as, crate::proofs::Finishing::refuses_output, crate::proofs::Finishing::tells, crate::proofs::Finishing::ended, crate::proofs::Finishing::trapped, crate::proofs::Finishing::waits))]
    fn turn(&mut self, event: Event) -> bool
        requires at { (next_of self.old.machine).0 ≡ event }
        requires stands { event ≢ Event.Went }
        ensures went { result ≡ true → turn_alone self.old.own self.old.n self.old.machine ≡ Some self.new.machine }
        ensures stood { result ≡ false → turn_alone self.old.own self.old.n self.old.machine ≡ None }
        ensures same { result ≡ false → self.new ≡ self.old }
        ensures own { self.new.own ≡ self.old.own }
        ensures n { self.new.n ≡ self.old.n }
    {
        match event {
            Event::Went => unreachable!(),
            Event::Call(EnvCall::Send { to, addr, len }) => {
                if to < self.n && len as usize <= MAX_BODY {
                    return self.emit(addr, len);
                }
                self.machine.finish_word(REFUSED);
                true
            }
            Event::Call(EnvCall::Output { addr, len }) => {
                if len as usize <= MAX_BODY {
                    return self.emit(addr, len);
                }
                self.machine.finish_word(REFUSED);
                true
            }
            Event::Call(EnvCall::Who) => {
                self.machine.finish_who(self.own, self.n);
                true
            }
            Event::Call(EnvCall::Exit { .. }) => false,
            Event::Call(EnvCall::Receive { .. }) => false,
            Event::Trap(_) => false,
        }
    }

    // Returns what the process is about to do with a send or an output of these bytes.
    #[tactic(auto, using(crate::proofs::Finishing::emits_told_inside, crate::proofs::Finishing::emits_told_outside))]
    fn status_at(&self, addr: u32, len: u32) -> Status
        ensures { (place : ℕ) → status_of (emits place addr len self.now.machine) ≡ result }
    {
        if self.machine.bytes(addr, len).is_some() {
            Status::Ready
        } else {
            Status::Trapped(Cause::BufferOutside)
        }
    }

    /// Returns what the process is about to do.
    #[tactic(auto, using(crate::proofs::Finishing::goes_told, crate::proofs::Finishing::who_told, crate::proofs::Finishing::exit_told, crate::proofs::Finishing::trap_told, crate::proofs::Finishing::receive_told, crate::proofs::Finishing::receive_trap_told, crate::proofs::Finishing::send_told, crate::proofs::Finishing::send_refused_told, crate::proofs::Finishing::output_told, crate::proofs::Finishing::output_refused_told))]
    pub fn status(&self) -> Status
        ensures { status_of (move_alone self.now.own self.now.n self.now.machine) ≡ result }
    {
        match self.machine.peek() {
            Event::Went => Status::Ready,
            Event::Trap(cause) => Status::Trapped(cause),
            Event::Call(EnvCall::Exit { code }) => Status::Ended(code),
            Event::Call(EnvCall::Who) => Status::Ready,
            Event::Call(EnvCall::Receive { addr, cap }) => {
                if self.machine.bytes(addr, cap).is_some() {
                    Status::Waiting
                } else {
                    Status::Trapped(Cause::BufferOutside)
                }
            }
            Event::Call(EnvCall::Send { to, addr, len }) => {
                if to < self.n && len as usize <= MAX_BODY {
                    self.status_at(addr, len)
                } else {
                    Status::Ready
                }
            }
            Event::Call(EnvCall::Output { addr, len }) => {
                if len as usize <= MAX_BODY {
                    self.status_at(addr, len)
                } else {
                    Status::Ready
                }
            }
        }
    }

    // Takes so many turns, or as many as there are.
    #[tactic(auto, using(crate::proofs::Turning::gone_on, crate::proofs::Turning::turned_on, crate::proofs::Turning::stood_still))]
    pub(crate) fn go(&mut self, turns: u64)
        ensures turns { self.new.machine ≡ turns_alone self.old.own self.old.n turns self.old.machine }
        ensures own { self.new.own ≡ self.old.own }
        ensures n { self.new.n ≡ self.old.n }
    {
        let mut done = 0;
        while done < turns {
            let ran = self.machine.run(turns - done);
            done += ran.steps;
            if done < turns {
                if !self.turn(ran.event) {
                    return;
                }
                done += 1;
            }
        }
    }

    /// Takes turns as long as there is one, at most so many, and returns how many it took.
    #[tactic(auto, using(crate::proofs::Turning::gone_on, crate::proofs::Turning::turned_on, crate::proofs::Turning::has_none, crate::proofs::Turning::has_ran, crate::proofs::Turning::has_turn))]
    pub fn go_while(&mut self, most: u64) -> u64
        ensures turns { self.new.machine ≡ turns_alone self.old.own self.old.n result self.old.machine }
        ensures taken { HasTurns self.old.own self.old.n result self.old.machine }
        ensures within { result ≤ most }
        ensures no_more { result < most → turn_alone self.old.own self.old.n self.new.machine ≡ None }
        ensures own { self.new.own ≡ self.old.own }
        ensures n { self.new.n ≡ self.old.n }
    {
        let mut done = 0;
        while done < most {
            let ran = self.machine.run(most - done);
            done += ran.steps;
            if done < most {
                if !self.turn(ran.event) {
                    return done;
                }
                done += 1;
            }
        }
        done
    }

    // Answers an event of the machine that asks who the process is, and tells whether it does.
    #[tactic(auto, using(crate::proofs::Parting::who_goes))]
    fn tell(&mut self, event: Event) -> bool
        requires { (next_of self.old.machine).0 ≡ event }
        ensures told { result ≡ true → GoesAlone self.old.own self.old.n self.old.machine self.new.machine }
        ensures own { self.new.own ≡ self.old.own }
        ensures n { self.new.n ≡ self.old.n }
    {
        match event {
            Event::Call(EnvCall::Who) => {
                self.machine.finish_who(self.own, self.n);
                true
            }
            _ => false,
        }
    }

    // Takes so many turns, as far as the process makes nothing in them, and tells whether it took them all.
    #[tactic(auto, using(crate::proofs::Parting::going_none, crate::proofs::Parting::going_on, crate::proofs::Parting::going_told))]
    pub(crate) fn go_silently(&mut self, turns: u64) -> bool
        ensures going { result ≡ true → IsGoing self.old.own self.old.n turns self.old.machine self.new.machine }
        ensures own { self.new.own ≡ self.old.own }
        ensures n { self.new.n ≡ self.old.n }
    {
        let mut done = 0;
        'silent: while done < turns {
            let ran = self.machine.run(turns - done);
            done += ran.steps;
            if done < turns {
                if !self.tell(ran.event) {
                    return false;
                }
                done += 1;
            }
        }
        true
    }

    /// Takes a message in, where the process waits for one: else it stays.
    #[tactic(auto, using(crate::proofs::Finishing::receives, crate::proofs::Finishing::stands_away))]
    pub fn receive(&mut self, from: u32, body: &[u8])
        ensures received { self.new.machine ≡ received_alone self.old.own self.old.n from body.now self.old.machine }
        ensures own { self.new.own ≡ self.old.own }
        ensures n { self.new.n ≡ self.old.n }
    {
        if let Event::Call(EnvCall::Receive { addr, cap }) = self.machine.peek()
            && self.machine.bytes(addr, cap).is_some()
        {
            self.machine.finish_receive(from, body);
        }
    }

    // Takes what is left of a deed, of which so many turns were taken. Refused where memory ran out, with the machine as it was.
    #[tactic(auto, using(crate::proofs::Turning::rest_of))]
    pub(crate) fn finish(&mut self, alloc: Global, deed: &Deed, done: u64) -> Result<(), AllocError>
        requires { done ≤ turns_in deed.now }
        ensures finished { OnOk result ((m : State) → self.old.machine ≡ turns_alone self.old.own self.old.n done m
            → self.new.machine ≡ after_deed self.old.own self.old.n m deed.now) }
        ensures own { self.new.own ≡ self.old.own }
        ensures n { self.new.n ≡ self.old.n }
        ensures refused { OnErr result (self.new ≡ self.old) }
    {
        match deed {
            Deed::Nothing => {}
            Deed::Fell => {}
            Deed::Ran(turns) => self.go(*turns - done),
            Deed::Took(from, body) => self.receive(*from, body.as_slice()),
            Deed::Back(machine) => self.machine = copy_of(alloc, machine)?,
        }
        Ok(())
    }
}
