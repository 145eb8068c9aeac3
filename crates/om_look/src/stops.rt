//! To where a process can be replayed from its checkpoint.

ghost use Rattle.std.specs.Prelude.{◌≡◌, ◌-◌, ◌<◌, ℕ, IfOk, IsErrOf};
ghost use Rattle.om_look.specs.declared.fault.LookFault.{LookFault};
ghost use Rattle.om_look.specs.steps.Stops.{StopsAt};
ghost use Rattle.om_look.specs.steps.Reading.{IsReading};
ghost use Rattle.om_look.specs.steps.Told.{NoneMissing, stop_told};
ghost use Rattle.om_stable.specs.Calls.{IsCleanCall};
ghost use Rattle.om_stable.specs.Content.{IsEffective};

use crate::fault::LookFault;
use om_process::{ProcCore, ReplayFault};
use om_stable::Stable;
use std::alloc::Global;

// Returns the first interval up to `x` to which the process is not replayed, from its effective checkpoint of `x` on; where
// it is to each, the one behind `x`. It is replayed once, or where a receipt is missing once more, up to there.
pub(crate) fn stop_of<S: Stable>(alloc: Global, store: &mut S, x: u32) -> Result<u64, LookFault>
    ensures stops { IsCleanCall S.is_clean S.IsSound store.old store.new → (c : ℕ)
        → IsEffective (S.content store.old).checkpoints x c → IfOk result (StopsAt (S.content store.old) c x) }
    ensures reads { IsReading S.content S.failed S.is_clean S.IsSound store.old (IsErrOf result LookFault.Fault) store.new }
{
    let Err(fault) = ProcCore::replay(alloc, store, x) else {
        return Ok(u64::from(x) + 1);
    };
    match fault {
        ReplayFault::MissingReceipt(y) => stop_below(alloc, store, y),
        _ => stop_at(fault),
    }
}

// Returns the first interval below `y` to which the process is not replayed, where no receipt below `y` is missing; where it
// is to each, `y`.
fn stop_below<S: Stable>(alloc: Global, store: &mut S, y: u32) -> Result<u64, LookFault>
    ensures stops { IsCleanCall S.is_clean S.IsSound store.old store.new → (c : ℕ) → c < y
        → IsEffective (S.content store.old).checkpoints (y - 1) c → NoneMissing (S.content store.old) c (y - 1)
        → IfOk result (StopsAt (S.content store.old) c (y - 1)) }
    ensures reads { IsReading S.content S.failed S.is_clean S.IsSound store.old (IsErrOf result LookFault.Fault) store.new }
{
    // A store of which nothing is known may name any interval as missing.
    let Err(fault) = ProcCore::replay(alloc, store, y.saturating_sub(1)) else {
        return Ok(u64::from(y));
    };
    stop_at(fault)
}

// Returns where a refused replay stopped.
fn stop_at(fault: ReplayFault) -> Result<u64, LookFault>
    ensures { result ≡ stop_told fault }
{
    match fault {
        ReplayFault::NoCheckpoint => Ok(0),
        ReplayFault::Damaged(y) | ReplayFault::MissingReceipt(y) | ReplayFault::Mismatch(y) => {
            Ok(u64::from(y))
        }
        ReplayFault::Fault => Err(LookFault::Fault),
        ReplayFault::Memory => Err(LookFault::Memory),
    }
}
