//! The released outputs of a process, copied.

ghost use Rattle.std.specs.Prelude.{◌≡◌, ◌<◌, IfOk, map};
ghost use Rattle.om_manager.specs.Outputs.{AreNumbered, held_of};
ghost use Rattle.om_manager.specs.State.{process_count, released_by as held_within};

use om_interval::Pid;
use om_manager::{Manager, Output};
use std::alloc::{AllocError, Global};

/// Copies an output. Refused where memory runs out.
pub fn copy_of(alloc: Global, output: &Output) -> Result<Output, AllocError>
    ensures held { IfOk result (λ copy. held_of copy ≡ held_of output.now) }
    ensures seq { IfOk result (λ copy. copy.seq ≡ output.now.seq) }
{
    Ok(Output {
        seq: output.seq,
        interval: output.interval,
        bytes: output.bytes.copy(alloc)?,
    })
}

// Copies outputs.
fn copies_of(alloc: Global, outputs: &[Output]) -> Result<Vec<Output>, AllocError>
    ensures held { IfOk result (λ copies. map held_of copies.items ≡ map held_of outputs.now) }
    ensures numbers { IfOk result (λ copies. map (λ o. o.seq) copies.items ≡ map (λ o. o.seq) outputs.now) }
{
    let mut copies = Vec::with_capacity(alloc, outputs.len())?;
    for output in outputs {
        copies.push(copy_of(alloc, output)?)?;
    }
    Ok(copies)
}

/// Copies the released outputs of a process. Refused where memory runs out.
pub fn released_of(alloc: Global, manager: &Manager, pid: Pid) -> Result<Vec<Output>, AllocError>
    requires { pid < process_count manager.now }
    ensures held { IfOk result (λ outputs. map held_of outputs.items ≡ held_within manager.now pid) }
    ensures numbered { IfOk result (λ outputs. AreNumbered outputs.items) }
{
    copies_of(alloc, manager.released(pid))
}
