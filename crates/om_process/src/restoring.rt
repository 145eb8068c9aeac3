//! Processes from their checkpoints.

ghost use Rattle.std.specs.Prelude.{◌≡◌, ◌∷◌, [], IfOk, map, replicate};
ghost use Rattle.om_format.specs.CheckpointViews.{checkpoint_record};
ghost use Rattle.om_format.specs.Queues.{queue_end, queue_record};
ghost use Rattle.om_process.specs.Core.{cluster_size};
ghost use Rattle.om_process.specs.Replays.{process_of_checkpoint};

use crate::proc_core::ProcCore;
use crate::queues::{Messages, Outputs};
use om_format::{Checkpoint, Queue};
use om_interval::Starts;
use om_machine::Machine;
use std::alloc::{AllocError, Global};

impl ProcCore {
    // Makes the process of a checkpoint, which knows of no failure.
    pub(crate) fn restored(alloc: Global, checkpoint: Checkpoint) -> Result<ProcCore, AllocError>
        ensures own { IfOk result (λ core. core.own ≡ checkpoint.head.pid) }
        ensures now { IfOk result (λ core. core.now ≡ process_of_checkpoint (checkpoint_record checkpoint)) }
        ensures log { IfOk result (λ core. core.log ≡ []) }
        ensures pending { IfOk result (λ core. core.pending ≡ []) }
        ensures inc { IfOk result (λ core. core.inc ≡ 0) }
        ensures round { IfOk result (λ core. core.round ≡ 0) }
        ensures starts { IfOk result (λ core. core.starts ≡ replicate (cluster_size core.now) (0 ∷ [])) }
    {
        let machine = machine_of(alloc, &checkpoint)?;
        let head = checkpoint.head;
        let starts = Starts::new(alloc, head.vec.n())?;
        Ok(ProcCore {
            pid: head.pid,
            machine,
            interval: head.interval,
            vec: head.vec,
            got: head.got,
            sent: head.sent,
            made: head.made,
            outbox: outbox_of(alloc, checkpoint.kept, head.sent.as_slice())?,
            outputs: Outputs::of(alloc, checkpoint.outputs)?,
            log: Vec::new(alloc),
            pending: Vec::new(alloc),
            inc: 0,
            round: 0,
            starts,
        })
    }
}

// Makes the machine of a checkpoint.
fn machine_of(alloc: Global, checkpoint: &Checkpoint) -> Result<Machine, AllocError>
    ensures { IfOk result (λ machine. machine ≡ (process_of_checkpoint (checkpoint_record checkpoint.now)).machine) }
{
    let head = &checkpoint.head;
    let memory = checkpoint.memory.as_slice();
    match Machine::restore(alloc, &head.regs, head.pc, head.count, memory, head.ext) {
        Ok(machine) => Ok(machine),
        Err(_) => Err(AllocError),
    }
}

// Makes messages of the queues of a checkpoint, which end at these numbers.
fn outbox_of(alloc: Global, kept: Vec<Queue>, stops: &[u32]) -> Result<Vec<Messages>, AllocError>
    requires { map queue_end (map queue_record kept.items) ≡ stops.now }
    ensures { IfOk result (λ outbox. outbox.items ≡ map queue_record kept.items) }
{
    let mut outbox = Vec::with_capacity(alloc, kept.len())?;
    for queue in kept {
        let stop = stops[outbox.len()];
        outbox.push(Messages::of(alloc, queue, stop)?)?;
    }
    Ok(outbox)
}
