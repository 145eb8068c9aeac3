//! What is read of a store.

ghost use Rattle.std.specs.Prelude.{◌≡◌, ◌≢◌, IfErr, IfOk, IsErrOf};
ghost use Rattle.om_format.specs.CheckpointViews.{checkpoint_record};
ghost use Rattle.om_format.specs.Checkpoints.{IsSpelled};
ghost use Rattle.om_process.specs.Stored.{anyone, BeginsWith, IsNoMatterOfContent};
ghost use Rattle.om_process.specs.declared.limits.TheConstants.{LAST_INTERVAL};
ghost use Rattle.om_process.specs.declared.replay.ReplayFault.{ReplayFault};
ghost use Rattle.om_process.specs.steps.Rows.{RefusesCheckpoint, RefusesStart, damage};
ghost use Rattle.om_stable.specs.Calls.{IsCleanCall, UsesStore, LeavesContent};
ghost use Rattle.om_stable.specs.Content.{between, rows_of};
ghost use Rattle.om_stable.specs.declared.error.StoreError.{StoreError};

use om_format::{Checkpoint, DecodeError, decode_checkpoint};
use om_process::{LAST_INTERVAL, ReplayFault};
use om_stable::{Stable, StoreError};
use std::alloc::Global;

// Returns why a store that was read refused to; it never answers `Present`.
fn fault_of(error: StoreError) -> ReplayFault
    requires { error ≢ StoreError.Present }
    ensures no_matter { IsNoMatterOfContent result }
    ensures fault { result ≡ ReplayFault.Fault → error ≡ StoreError.Fault }
{
    match error {
        StoreError::Present => unreachable!(),
        StoreError::Fault => ReplayFault::Fault,
        StoreError::Memory => ReplayFault::Memory,
    }
}

// Returns why bytes of interval `y` that were not decoded are refused.
fn damaged(y: u32, error: DecodeError) -> ReplayFault
    ensures { result ≡ damage y error }
{
    match error {
        DecodeError::Memory => ReplayFault::Memory,
        _ => ReplayFault::Damaged(y),
    }
}

// Reads the checkpoint of interval `c` that these bytes spell.
fn checkpoint_at(alloc: Global, c: u32, bytes: &[u8]) -> Result<Checkpoint, ReplayFault>
    ensures found { IfOk result (λ checkpoint. IsSpelled (checkpoint_record checkpoint) bytes.now) }
    ensures named { IfOk result (λ checkpoint. checkpoint.head.interval ≡ c) }
    ensures refused { IfErr result (λ fault. RefusesCheckpoint c bytes.now fault) }
{
    let checkpoint = match decode_checkpoint(alloc, bytes) {
        Ok(checkpoint) => checkpoint,
        Err(error) => return Err(damaged(c, error)),
    };
    if checkpoint.head.interval == c {
        Ok(checkpoint)
    } else {
        Err(ReplayFault::Damaged(c))
    }
}

// Reads the checkpoint with which a replay to `x` begins.
pub(crate) fn beginning<S: Stable>(
    alloc: Global,
    store: &mut S,
    x: u32,
) -> Result<Checkpoint, ReplayFault>
    ensures begins { IsCleanCall S.is_clean S.IsSound store.old store.new
        → IfOk result (λ checkpoint. BeginsWith anyone (S.content store.old) x (checkpoint_record checkpoint)) }
    ensures refused { IsCleanCall S.is_clean S.IsSound store.old store.new
        → IfErr result (λ fault. RefusesStart (S.content store.old) x fault) }
    ensures same { LeavesContent S.content S.is_clean S.IsSound store.old store.new }
    ensures used { UsesStore S.failed S.is_clean S.IsSound store.old (IsErrOf result ReplayFault.Fault) store.new }
{
    match store.effective(alloc, x) {
        Ok(Some((c, bytes))) => checkpoint_at(alloc, c, &bytes),
        Ok(None) => Err(ReplayFault::NoCheckpoint),
        Err(error) => Err(fault_of(error)),
    }
}

// Reads all receipts behind interval `c`.
pub(crate) fn receipts_behind<S: Stable>(
    alloc: Global,
    store: &mut S,
    c: u32,
) -> Result<Vec<(u32, Vec<u8>)>, ReplayFault>
    ensures found { IsCleanCall S.is_clean S.IsSound store.old store.new
        → IfOk result (λ found. rows_of found.items ≡ between (S.content store.old).receipts c LAST_INTERVAL) }
    ensures refused { IfErr result IsNoMatterOfContent }
    ensures same { LeavesContent S.content S.is_clean S.IsSound store.old store.new }
    ensures used { UsesStore S.failed S.is_clean S.IsSound store.old (IsErrOf result ReplayFault.Fault) store.new }
{
    match store.receipts(alloc, c, LAST_INTERVAL) {
        Ok(found) => Ok(found),
        Err(error) => Err(fault_of(error)),
    }
}
