//! Processes at their start.

ghost use Rattle.std.specs.Prelude.{◌≡◌, ◌≢◌, ◌<◌, ◌≤◌, ◌↔◌, ◌++◌, ◌∷◌, [], IfOk, IsErrOf, IsSome, None, OnOk, length, map, replicate};
ghost use Rattle.std.specs.FinMap.{get};
ghost use Rattle.om_isa.specs.Memory.{IsMemorySize};
ghost use Rattle.om_stable.specs.Calls.{IsCleanCall, UsesStore, LeavesRefused};
ghost use Rattle.om_stable.specs.declared.error.StoreError.{StoreError};
ghost use Rattle.om_process.specs.Process.{empty_queue};
ghost use Rattle.om_process.specs.steps.Pieces.{started_with};
ghost use Rattle.om_process.specs.Starting.{IsPlace, started_core};
ghost use Rattle.om_process.specs.steps.Faults.{fault_of_loading, fault_of_storing};
ghost use Rattle.om_process.specs.Stores.{HasGainedCheckpoint};
ghost use Rattle.om_process.specs.Turns.{Along};

use crate::proc_core::ProcCore;
use crate::queues::{Messages, Outputs};
use om_interval::{DepVec, MAX_PROCESSES, Pid, Starts};
use om_isa::Ext;
use om_machine::{LoadFault, Machine};
use om_stable::{Stable, StoreError};
use std::alloc::{AllocError, Global};
use thiserror::Error;

/// Why a process was not started.
#[derive(Clone, Copy, Debug, PartialEq, Eq, Error)]
pub enum StartFault {
    /// No cluster of so many processes has one of that number.
    #[error("no such process")]
    BadPlace,
    /// No memory has that size.
    #[error("no memory has that size")]
    BadSize,
    /// The image is longer than the memory.
    #[error("the image is longer than the memory")]
    ImageTooLong,
    /// The store has a checkpoint of interval 0 already.
    #[error("a record is already there")]
    Present,
    /// The store failed, and its count of failures rose.
    #[error("the store failed")]
    Fault,
    /// Memory ran out.
    #[error("no memory")]
    Memory,
}

impl From<LoadFault> for StartFault {
    ghost from_gives = { λ error fault. fault ≡ fault_of_loading error };

    fn from(error: LoadFault) -> StartFault {
        match error {
            LoadFault::ImageTooLong => StartFault::ImageTooLong,
            LoadFault::BadSize => StartFault::BadSize,
            LoadFault::Memory => StartFault::Memory,
        }
    }
}

impl From<StoreError> for StartFault {
    ghost from_gives = { λ error fault. fault ≡ fault_of_storing error };

    fn from(error: StoreError) -> StartFault {
        match error {
            StoreError::Present => StartFault::Present,
            StoreError::Fault => StartFault::Fault,
            StoreError::Memory => StartFault::Memory,
        }
    }
}

impl From<AllocError> for StartFault {
    ghost use Rattle.om_process.specs.declared.start.StartFault.TheVariants.{Memory};

    ghost from_gives = { λ _ fault. fault ≡ Memory };

    fn from(_e: AllocError) -> StartFault {
        StartFault::Memory
    }
}

impl ProcCore {
    /// Starts process `pid` of `n`: the image at the start of a memory of `size` bytes, as a program that may use the
    /// instructions of `ext`. Its checkpoint of interval 0 is stored.
    ///
    /// Refused with `BadPlace` where `n` is 0 or too great or `pid` is not below it, with `BadSize` and `ImageTooLong` as
    /// the machine is, and then with what the store answers, or with `Memory`. A refusal leaves the store's content.
    pub fn start<S: Stable>(
        alloc: Global,
        image: &[u8],
        size: u32,
        ext: Ext,
        pid: Pid,
        n: usize,
        store: &mut S,
    ) -> Result<ProcCore, StartFault>
        ensures started { IfOk result (λ core. core ≡ started_core (record { image = image.now; size = size; ext = ext }) pid n) }
        ensures along { IfOk result (λ core. Along (record { image = image.now; size = size; ext = ext }) pid n [] 0 core.now) }
        ensures stored { IsCleanCall S.is_clean S.IsSound store.old store.new
            → IfOk result (λ core. HasGainedCheckpoint core (S.content store.old) (S.content store.new)) }
        ensures bad_place { (result ≡ Err StartFault.BadPlace) ↔ ¬ IsPlace pid n }
        ensures bad_size { (result ≡ Err StartFault.BadSize) ↔ (IsPlace pid n × ¬ IsMemorySize size) }
        ensures too_long { (result ≡ Err StartFault.ImageTooLong) ↔ (IsPlace pid n × IsMemorySize size × (size < length image.now)) }
        ensures free { IsCleanCall S.is_clean S.IsSound store.old store.new
            → OnOk result (get (S.content store.old).checkpoints 0 ≡ None) }
        ensures present { IsCleanCall S.is_clean S.IsSound store.old store.new
            → IsErrOf result StartFault.Present → IsSome (get (S.content store.old).checkpoints 0) }
        ensures refused { LeavesRefused S.content S.is_clean S.IsSound store.old result store.new }
        ensures used { UsesStore S.failed S.is_clean S.IsSound store.old (IsErrOf result StartFault.Fault) store.new }
    {
        let core = ProcCore::at_start(alloc, image, size, ext, pid, n)?;
        core.store_checkpoint(alloc, store)?;
        Ok(core)
    }

    // Makes the process at its start, which nothing is stored of.
    fn at_start(
        alloc: Global,
        image: &[u8],
        size: u32,
        ext: Ext,
        pid: Pid,
        n: usize,
    ) -> Result<ProcCore, StartFault>
        ensures started { IfOk result (λ core. core ≡ started_core (record { image = image.now; size = size; ext = ext }) pid n) }
        ensures bad_place { (result ≡ Err StartFault.BadPlace) ↔ ¬ IsPlace pid n }
        ensures bad_size { (result ≡ Err StartFault.BadSize) ↔ (IsPlace pid n × ¬ IsMemorySize size) }
        ensures too_long { (result ≡ Err StartFault.ImageTooLong) ↔ (IsPlace pid n × IsMemorySize size × (size < length image.now)) }
        ensures not_present { result ≢ Err StartFault.Present }
        ensures no_fault { result ≢ Err StartFault.Fault }
    {
        if n > MAX_PROCESSES || pid.index() >= n {
            return Err(StartFault::BadPlace);
        }
        let machine = Machine::load(alloc, image, size, ext)?;
        Ok(ProcCore::fresh(alloc, machine, pid, n)?)
    }

    // Makes a process with this machine that has received nothing.
    fn fresh(alloc: Global, machine: Machine, pid: Pid, n: usize) -> Result<ProcCore, AllocError>
        requires place { pid < n }
        requires size { n ≤ MAX_PROCESSES }
        ensures own { IfOk result (λ core. core.own ≡ pid) }
        ensures now { IfOk result (λ core. core.now ≡ started_with machine n) }
        ensures log { IfOk result (λ core. core.log ≡ []) }
        ensures pending { IfOk result (λ core. core.pending ≡ []) }
        ensures inc { IfOk result (λ core. core.inc ≡ 0) }
        ensures round { IfOk result (λ core. core.round ≡ 0) }
        ensures starts { IfOk result (λ core. core.starts ≡ replicate n (0 ∷ [])) }
    {
        let Some(zeros) = DepVec::zeros(n) else {
            unreachable!()
        };
        Ok(ProcCore {
            pid,
            machine,
            interval: 0,
            vec: zeros,
            got: zeros,
            sent: zeros,
            made: 0,
            outbox: empty_outbox(alloc, n)?,
            outputs: Outputs::new(alloc),
            log: Vec::new(alloc),
            pending: Vec::new(alloc),
            inc: 0,
            round: 0,
            starts: Starts::new(alloc, n)?,
        })
    }
}

// Makes `n` queues of no messages.
fn empty_outbox(alloc: Global, n: usize) -> Result<Vec<Messages>, AllocError>
    ensures { IfOk result (λ outbox. outbox.items ≡ replicate n empty_queue) }
{
    let mut outbox = Vec::with_capacity(alloc, n)?;
    for made in 0..n {
        // The proof counts by it.
        let _ = made;
        outbox.push(Messages::new(alloc))?;
    }
    Ok(outbox)
}
