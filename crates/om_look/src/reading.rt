//! What is read of a store.

ghost use Rattle.std.specs.Prelude.{◌≡◌, ◌+◌, IfNone, IfOk, IfSome, IsErrOf};
ghost use Rattle.std.specs.FinMap as map;
ghost use Rattle.om_look.specs.declared.fault.LookFault.{LookFault};
ghost use Rattle.om_look.specs.steps.Reading.{IsReading};
ghost use Rattle.om_process.specs.declared.limits.TheConstants.{LAST_INTERVAL};
ghost use Rattle.om_stable.specs.Calls.{IsCleanCall};
ghost use Rattle.om_stable.specs.Content.{IsEffective, IsFree, between, rows_of};

use crate::fault::{LookFault, fault_of};
use om_process::LAST_INTERVAL;
use om_stable::Stable;
use std::alloc::Global;

// Reads the effective checkpoint of `x`.
pub(crate) fn effective_of<S: Stable>(
    alloc: Global,
    store: &mut S,
    x: u32,
) -> Result<Option<(u32, Vec<u8>)>, LookFault>
    ensures effective { IsCleanCall S.is_clean S.IsSound store.old store.new
        → IfOk result (λ found. IfSome found (λ e. IsEffective (S.content store.old).checkpoints x e.0)) }
    ensures bytes { IsCleanCall S.is_clean S.IsSound store.old store.new
        → IfOk result (λ found. IfSome found (λ e. map.get (S.content store.old).checkpoints e.0 ≡ Some e.1.items)) }
    ensures none { IsCleanCall S.is_clean S.IsSound store.old store.new
        → IfOk result (λ found. IfNone found (IsFree (S.content store.old).checkpoints 0 (x + 1))) }
    ensures reads { IsReading S.content S.failed S.is_clean S.IsSound store.old (IsErrOf result LookFault.Fault) store.new }
{
    match store.effective(alloc, x) {
        Ok(found) => Ok(found),
        Err(error) => Err(fault_of(error)),
    }
}

// Reads all receipts.
pub(crate) fn receipts_of<S: Stable>(
    alloc: Global,
    store: &mut S,
) -> Result<Vec<(u32, Vec<u8>)>, LookFault>
    ensures found { IsCleanCall S.is_clean S.IsSound store.old store.new
        → IfOk result (λ found. rows_of found.items ≡ between (S.content store.old).receipts 0 LAST_INTERVAL) }
    ensures reads { IsReading S.content S.failed S.is_clean S.IsSound store.old (IsErrOf result LookFault.Fault) store.new }
{
    match store.receipts(alloc, 0, LAST_INTERVAL) {
        Ok(found) => Ok(found),
        Err(error) => Err(fault_of(error)),
    }
}
