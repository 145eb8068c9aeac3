//! The end of a world.

ghost use Rattle.std.specs.Prelude.{◌≡◌, ◌<◌, IfOk, List, length, map};
ghost use Rattle.om_manager.specs.Outputs.{AreNumbered, held_of};
ghost use Rattle.om_manager.specs.State.{process_count, released_by as held_within};
ghost use Rattle.om_world.specs.Disk.{IsOnDisk, IsSettled};
ghost use Rattle.om_world.specs.Stopped.{AreCurrent, IsLeft, along, stopped};
ghost use Rattle.om_world.specs.World.{IsKnown};
ghost use Rattle.om_world.specs.declared.entry.Entry.{Entry};
ghost use Rattle.om_world.specs.steps.Members.{store_in};
ghost use Rattle.om_world.specs.steps.Stopping.{AreReleasedBy, halted};

use crate::stopped::Stopped;
use crate::world::World;
use om_interval::Pid;
use om_manager::{Manager, Output};
use om_member::{Member, MemberState};
use om_stable::Stable;
use std::alloc::{AllocError, Global};
use std::snapshot::Snapshot;

// Takes the stores of members, in order.
pub(crate) fn stores_of<S: Stable>(
    alloc: Global,
    members: Vec<Member<S>>,
) -> Result<Vec<S>, AllocError>
    ensures { IfOk result (λ stores. stores.items ≡ map store_in members.items) }
{
    let mut stores = Vec::new(alloc);
    for member in members {
        let Member { store, .. } = member;
        stores.push(store)?;
    }
    Ok(stores)
}

// Takes each process down.
fn end_all<S: Stable>(members: &mut Vec<Member<S>>)
    ensures { members.new.items ≡ map halted members.old.items }
{
    for p in 0..members.len() {
        let member = &mut members[p];
        member.standing = MemberState::Down { declared: true };
    }
}

// Copies an output.
fn copy_of(alloc: Global, output: &Output) -> Result<Output, AllocError>
    ensures held { IfOk result (λ copy. held_of copy ≡ held_of output.now) }
    ensures seq { IfOk result (λ copy. copy.seq ≡ output.now.seq) }
{
    Ok(Output {
        seq: output.seq,
        interval: output.interval,
        bytes: output.bytes.copy(alloc)?,
    })
}

// Copies outputs.
fn copies_of(alloc: Global, outputs: &[Output]) -> Result<Vec<Output>, AllocError>
    ensures held { IfOk result (λ copies. map held_of copies.items ≡ map held_of outputs.now) }
    ensures numbers { IfOk result (λ copies. map (λ o. o.seq) copies.items ≡ map (λ o. o.seq) outputs.now) }
{
    let mut copies = Vec::with_capacity(alloc, outputs.len())?;
    for output in outputs {
        copies.push(copy_of(alloc, output)?)?;
    }
    Ok(copies)
}

// Returns the released outputs of a process.
fn released_of(alloc: Global, manager: &Manager, pid: Pid) -> Result<Vec<Output>, AllocError>
    requires { pid < process_count manager.now }
    ensures held { IfOk result (λ outputs. map held_of outputs.items ≡ held_within manager.now pid) }
    ensures numbered { IfOk result (λ outputs. AreNumbered outputs.items) }
{
    copies_of(alloc, manager.released(pid))
}

// Returns the released outputs of each process.
fn released_by(alloc: Global, manager: &Manager) -> Result<Vec<Vec<Output>>, AllocError>
    ensures long { IfOk result (λ released. length released.items ≡ process_count manager.now) }
    ensures released { IfOk result (λ released. AreReleasedBy manager.now released.items) }
{
    let n = manager.recovery().n();
    let mut released = Vec::with_capacity(alloc, n)?;
    for p in 0..n {
        released.push(released_of(alloc, manager, Pid::at(p))?)?;
    }
    Ok(released)
}

impl<S: Stable> World<S> {
    /// Ends the world: of all that ran only the stores are left, and what was released. Where each process is up or knows the last
    /// finished round, what stands in the stores is true of what was received, and serves what was recovered; and where none has stored
    /// since that round, of what had been received when it finished. Refused for memory, the stores are dropped as they are.
    pub fn stop(self, alloc: Global) -> Result<Stopped<S>, AllocError>
        ensures left { IfOk result (λ left. left ≡ stopped self) }
        ensures current { AreCurrent self → IfOk result AreCurrent }
        ensures whole { (run : List Entry) → IsLeft self run → IfOk result (λ left. IsLeft left run) }
        ensures disk { IfOk result (λ left. IsKnown left → IsSettled self → IsOnDisk left) }
        ensures between { IfOk result (λ left. IsKnown left → (run : List Entry) → IsLeft left run → IsOnDisk (along left run)) }
    {
        let released = released_by(alloc, &self.manager)?;
        let manager = Snapshot::of(&self.manager);
        let current = self.is_current();
        let World {
            images,
            live,
            mut members,
            origins,
            since,
            ..
        } = self;
        end_all(&mut members);
        Ok(Stopped {
            images,
            members,
            released,
            current,
            since,
            live,
            manager,
            origins,
        })
    }
}
