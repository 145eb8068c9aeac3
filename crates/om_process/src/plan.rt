//! What a process does at an event of its machine.

ghost use Rattle.std.specs.Prelude.{◌≡◌, ◌≤◌, ◌<◌, ℕ, ◌++◌, ◌∷◌, [], false, length, slice_index};
ghost use Rattle.om_format.specs.declared.limits.TheConstants.{MAX_BODY};
ghost use Rattle.om_interval.specs.declared.pid.TheConstants.{MAX_PROCESSES};
ghost use Rattle.om_process.specs.declared.limits.TheConstants.{LAST_NUMBER};
ghost use Rattle.om_machine.specs.State.{State};
ghost use Rattle.om_process.specs.Turns.{after_event, may_not_send};
ghost use Rattle.om_process.specs.Core.{status_of};
ghost use Rattle.om_process.specs.steps.Planned.{planned, Fits};

use crate::limits::LAST_NUMBER;
use crate::status::Status;
use om_format::MAX_BODY;
use om_interval::{DepVec, Pid};
use om_machine::{Cause, EnvCall, Event, Machine};

/// What a process does next.
#[derive(Clone, Copy)]
pub enum Plan {
    /// The machine goes one step.
    Go,
    /// A send or an output is refused.
    Refuse,
    /// Bytes of memory are sent to a process.
    Send { to: Pid, addr: u32, len: u32 },
    /// Bytes of memory are put out.
    Output { addr: u32, len: u32 },
    /// The process is told its number.
    Tell,
    /// It does not go on.
    Stop(Status),
}

/// Returns what a process of as many as `sent` has places does at this event.
pub fn plan_at(machine: &Machine, sent: &DepVec, event: Event) -> Plan
    ensures planned { (own made : ℕ) (next : State) → planned own (length sent.now) machine.now next result
        ≡ after_event own (length sent.now) machine.now (sent.now ++ made ∷ []) event next }
    ensures fits { Fits sent.now machine.now event result }
{
    match event {
        Event::Went => Plan::Go,
        Event::Trap(cause) => Plan::Stop(Status::Trapped(cause)),
        Event::Call(EnvCall::Exit { code }) => Plan::Stop(Status::Ended(code)),
        Event::Call(EnvCall::Send { to, addr, len }) => send_at(machine, sent, to, addr, len),
        Event::Call(EnvCall::Receive { addr, cap }) => {
            if machine.bytes(addr, cap).is_some() {
                Plan::Stop(Status::Waiting)
            } else {
                Plan::Stop(Status::Trapped(Cause::BufferOutside))
            }
        }
        Event::Call(EnvCall::Output { addr, len }) => {
            if len as usize > MAX_BODY {
                Plan::Refuse
            } else if machine.bytes(addr, len).is_some() {
                Plan::Output { addr, len }
            } else {
                Plan::Stop(Status::Trapped(Cause::BufferOutside))
            }
        }
        Event::Call(EnvCall::Who) => Plan::Tell,
    }
}

/// Returns whether a process, which sent so many messages, may not send so many bytes to this one: there is none, they are too
/// many, or the numbers of its messages are used up.
pub fn may_not_send(sent: &DepVec, to: u32, len: u32) -> bool
    ensures told { (made : ℕ) → result ≡ may_not_send (length sent.now) (sent.now ++ made ∷ []) to len }
    ensures there { result ≡ false → (to < length sent.now) × (to < MAX_PROCESSES) }
    ensures short { result ≡ false → len ≤ MAX_BODY }
    ensures numbered { result ≡ false → slice_index sent.now to < LAST_NUMBER }
{
    to as usize >= sent.n()
        || len as usize > MAX_BODY
        || sent.get(Pid::at(to as usize)) >= LAST_NUMBER
}

fn send_at(machine: &Machine, sent: &DepVec, to: u32, addr: u32, len: u32) -> Plan
    ensures planned { (own made : ℕ) (next : State) → planned own (length sent.now) machine.now next result
        ≡ after_event own (length sent.now) machine.now (sent.now ++ made ∷ []) (Event.Call (EnvCall.Send to addr len)) next }
    ensures fits { Fits sent.now machine.now (Event.Call (EnvCall.Send to addr len)) result }
{
    if may_not_send(sent, to, len) {
        Plan::Refuse
    } else if machine.bytes(addr, len).is_some() {
        Plan::Send {
            to: Pid::at(to as usize),
            addr,
            len,
        }
    } else {
        Plan::Stop(Status::Trapped(Cause::BufferOutside))
    }
}

impl Plan {
    /// Returns what a process with this plan is told to be.
    pub fn status(self) -> Status
        ensures { (own n : ℕ) (m next : State) → result ≡ status_of (planned own n m next self) }
    {
        match self {
            Plan::Stop(status) => status,
            _ => Status::Ready,
        }
    }
}
