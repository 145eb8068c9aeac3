//! Replays: a process as it was right after a receipt, from what its store holds.

ghost use Rattle.std.specs.Prelude.{◌≡◌, ◌≢◌, ◌≤◌, ◌∷◌, [], IfErr, IfOk, IsErrOf, length, replicate};
ghost use Rattle.om_format.specs.CheckpointViews.{checkpoint_record};
ghost use Rattle.om_format.specs.Checkpoints.{IsSpelled};
ghost use Rattle.om_stable.specs.Calls.{IsCleanCall, UsesStore, LeavesContent};
ghost use Rattle.om_stable.specs.declared.error.StoreError.{StoreError};
ghost use Rattle.om_process.specs.Core.{cluster_size};
ghost use Rattle.om_process.specs.Stored.{anyone, BeginsWith, CanReplay, IsNoMatterOfContent, IsReplay, Refuses};
ghost use Rattle.om_process.specs.steps.Rows.{IsReplayFrom, RefusesCheckpoint, RefusesFrom, RefusesStart, damage};

use crate::proc_core::ProcCore;
use crate::repeating::missing;
use om_format::{Checkpoint, DecodeError, decode_checkpoint};
use om_stable::{Stable, StoreError};
use std::alloc::{AllocError, Global};
use thiserror::Error;

/// Why a process was not replayed.
#[derive(Clone, Copy, Debug, PartialEq, Eq, Error)]
pub enum ReplayFault {
    /// The store has no checkpoint at the interval or below.
    #[error("no checkpoint")]
    NoCheckpoint,
    /// The checkpoint or the receipt of this interval does not decode, or names another interval; or the checkpoint is of
    /// another process than the one that failed, or of another number of processes.
    #[error("damaged {0}")]
    Damaged(u32),
    /// The store has no receipt of this interval, the least that is missing.
    #[error("missing receipt {0}")]
    MissingReceipt(u32),
    /// The receipt of this interval is another receiver's, of a sender that is not there, or not the next of its sender, or
    /// the process does not wait at its count.
    #[error("mismatch {0}")]
    Mismatch(u32),
    /// The store failed, and its count of failures rose.
    #[error("the store failed")]
    Fault,
    /// Memory ran out.
    #[error("no memory")]
    Memory,
}

impl From<AllocError> for ReplayFault {
    ghost use Rattle.om_process.specs.declared.replay.ReplayFault.TheVariants.{Memory};

    ghost from_gives = { λ _ fault. fault ≡ Memory };

    fn from(_e: AllocError) -> ReplayFault {
        ReplayFault::Memory
    }
}

// Returns why a store that read or cut refused to; neither answers `Present`.
pub(crate) fn fault_of(error: StoreError) -> ReplayFault
    requires { error ≢ StoreError.Present }
    ensures no_matter { IsNoMatterOfContent result }
    ensures fault { result ≡ ReplayFault.Fault → error ≡ StoreError.Fault }
{
    match error {
        StoreError::Present => unreachable!(),
        StoreError::Fault => ReplayFault::Fault,
        StoreError::Memory => ReplayFault::Memory,
    }
}

// Returns why bytes of interval `y` that were not decoded are refused.
pub(crate) fn damaged(y: u32, error: DecodeError) -> ReplayFault
    ensures { result ≡ damage y error }
{
    match error {
        DecodeError::Memory => ReplayFault::Memory,
        _ => ReplayFault::Damaged(y),
    }
}

// Reads the checkpoint of interval `c` that these bytes spell.
fn checkpoint_at(alloc: Global, c: u32, bytes: &[u8]) -> Result<Checkpoint, ReplayFault>
    ensures found { IfOk result (λ checkpoint. IsSpelled (checkpoint_record checkpoint) bytes.now) }
    ensures named { IfOk result (λ checkpoint. checkpoint.head.interval ≡ c) }
    ensures refused { IfErr result (λ fault. RefusesCheckpoint c bytes.now fault) }
{
    let checkpoint = match decode_checkpoint(alloc, bytes) {
        Ok(checkpoint) => checkpoint,
        Err(error) => return Err(damaged(c, error)),
    };
    if checkpoint.head.interval == c {
        Ok(checkpoint)
    } else {
        Err(ReplayFault::Damaged(c))
    }
}

// Reads the checkpoint with which a replay to `x` begins.
pub(crate) fn beginning<S: Stable>(
    alloc: Global,
    store: &mut S,
    x: u32,
) -> Result<Checkpoint, ReplayFault>
    ensures begins { IsCleanCall S.is_clean S.IsSound store.old store.new
        → IfOk result (λ checkpoint. BeginsWith anyone (S.content store.old) x (checkpoint_record checkpoint)) }
    ensures refused { IsCleanCall S.is_clean S.IsSound store.old store.new
        → IfErr result (λ fault. RefusesStart (S.content store.old) x fault) }
    ensures same { LeavesContent S.content S.is_clean S.IsSound store.old store.new }
    ensures used { UsesStore S.failed S.is_clean S.IsSound store.old (IsErrOf result ReplayFault.Fault) store.new }
{
    match store.effective(alloc, x) {
        Ok(Some((c, bytes))) => checkpoint_at(alloc, c, &bytes),
        Ok(None) => Err(ReplayFault::NoCheckpoint),
        Err(error) => Err(fault_of(error)),
    }
}

impl ProcCore {
    // Replays the process from this checkpoint to what it was right after receipt `x`.
    pub(crate) fn replay_from<S: Stable>(
        alloc: Global,
        store: &mut S,
        x: u32,
        checkpoint: Checkpoint,
    ) -> Result<ProcCore, ReplayFault>
        ensures replayed { IsCleanCall S.is_clean S.IsSound store.old store.new → checkpoint.head.interval ≤ x
            → IfOk result (λ core. IsReplayFrom (S.content store.old) x (checkpoint_record checkpoint) core) }
        ensures refused { IsCleanCall S.is_clean S.IsSound store.old store.new → checkpoint.head.interval ≤ x
            → IfErr result (λ fault. RefusesFrom (S.content store.old) x (checkpoint_record checkpoint) fault) }
        ensures own { IfOk result (λ core. core.own ≡ checkpoint.head.pid) }
        ensures size { IfOk result (λ core. cluster_size core.now ≡ length checkpoint.head.vec) }
        ensures log { IfOk result (λ core. core.log ≡ []) }
        ensures pending { IfOk result (λ core. core.pending ≡ []) }
        ensures inc { IfOk result (λ core. core.inc ≡ 0) }
        ensures round { IfOk result (λ core. core.round ≡ 0) }
        ensures starts { IfOk result (λ core. core.starts ≡ replicate (cluster_size core.now) (0 ∷ [])) }
        ensures same { LeavesContent S.content S.is_clean S.IsSound store.old store.new }
        ensures used { UsesStore S.failed S.is_clean S.IsSound store.old (IsErrOf result ReplayFault.Fault) store.new }
    {
        let found = match store.receipts(alloc, checkpoint.head.interval, x) {
            Ok(found) => found,
            Err(error) => return Err(fault_of(error)),
        };
        if let Some(y) = missing(checkpoint.head.interval, x, &found) {
            return Err(ReplayFault::MissingReceipt(y));
        }
        let mut core = ProcCore::restored(alloc, checkpoint)?;
        core.repeat_all(alloc, &found)?;
        Ok(core)
    }

    /// Replays the process to what it was right after receipt `x`, from the effective checkpoint of `x` and the receipts
    /// after it; where the checkpoint is that of `x`, it is as the checkpoint says. Its incarnation and its round are 0.
    ///
    /// Refused, in this order, with `NoCheckpoint`, with `Damaged` for the checkpoint, with the least `MissingReceipt`, and
    /// then for each receipt ascending with `Damaged` and `Mismatch`; with `Fault` and `Memory` where they arise. The
    /// store's content stays in any case.
    pub fn replay<S: Stable>(alloc: Global, store: &mut S, x: u32) -> Result<ProcCore, ReplayFault>
        ensures replayed { IsCleanCall S.is_clean S.IsSound store.old store.new
            → IfOk result (λ core. IsReplay (S.content store.old) x core) }
        ensures refused { IsCleanCall S.is_clean S.IsSound store.old store.new
            → IfErr result (λ fault. Refuses anyone (S.content store.old) x fault) }
        ensures only { IsCleanCall S.is_clean S.IsSound store.old store.new → CanReplay anyone (S.content store.old) x
            → IfErr result (λ fault. IsNoMatterOfContent fault) }
        ensures log { IfOk result (λ core. core.log ≡ []) }
        ensures pending { IfOk result (λ core. core.pending ≡ []) }
        ensures inc { IfOk result (λ core. core.inc ≡ 0) }
        ensures round { IfOk result (λ core. core.round ≡ 0) }
        ensures starts { IfOk result (λ core. core.starts ≡ replicate (cluster_size core.now) (0 ∷ [])) }
        ensures same { LeavesContent S.content S.is_clean S.IsSound store.old store.new }
        ensures used { UsesStore S.failed S.is_clean S.IsSound store.old (IsErrOf result ReplayFault.Fault) store.new }
    {
        let checkpoint = beginning(alloc, store, x)?;
        ProcCore::replay_from(alloc, store, x, checkpoint)
    }
}
