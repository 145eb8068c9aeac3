//! The checkpoints of a store, each with its line, and how far replays go from there.

ghost use Rattle.std.specs.Prelude.{◌≡◌, ◌<◌, ◌≤◌, ℕ, IfOk, IfSome, IsErrOf, string_bytes};
ghost use Rattle.om_look.specs.declared.fault.LookFault.{LookFault};
ghost use Rattle.om_look.specs.Lines.{IsCheckpointLine};
ghost use Rattle.om_look.specs.steps.Stops.{StopsAt};
ghost use Rattle.om_look.specs.steps.Found.{AreFound, Finds, before};
ghost use Rattle.om_look.specs.steps.Reading.{IsReading};
ghost use Rattle.om_process.specs.declared.limits.TheConstants.{LAST_INTERVAL};
ghost use Rattle.om_stable.specs.Calls.{IsCleanCall};
ghost use Rattle.om_stable.specs.Content.{IsEffective};

use crate::fault::LookFault;
use crate::lines::push_checkpoint;
use crate::reading::effective_of;
use crate::stops::stop_of;
use om_process::LAST_INTERVAL;
use om_stable::Stable;
use std::alloc::Global;

/// A checkpoint.
#[derive(Debug, Drop)]
pub struct Found {
    pub interval: u32,
    pub line: String,
    /// The first interval from its own on to which no replay goes, before the next checkpoint.
    pub stop: u64,
}

// Gathers the checkpoints, ascending. One is kept as its line, since its bytes may be many.
pub(crate) fn gather<S: Stable>(alloc: Global, store: &mut S) -> Result<Vec<Found>, LookFault>
    ensures all { IsCleanCall S.is_clean S.IsSound store.old store.new
        → IfOk result (λ found. AreFound (S.content store.old) None found.items) }
    ensures reads { IsReading S.content S.failed S.is_clean S.IsSound store.old (IsErrOf result LookFault.Fault) store.new }
{
    let mut found = Vec::new(alloc);
    let mut next = Some(LAST_INTERVAL);
    while let Some(to) = next {
        next = find(alloc, store, to, &mut found)?;
    }
    found.reverse();
    Ok(found)
}

// Adds the effective checkpoint of `to`, and answers the interval before it, if there is one.
fn find<S: Stable>(
    alloc: Global,
    store: &mut S,
    to: u32,
    found: &mut Vec<Found>,
) -> Result<Option<u32>, LookFault>
    ensures below { IfOk result (λ next. IfSome next (λ y. y < to)) }
    ensures finds { IsCleanCall S.is_clean S.IsSound store.old store.new
        → IfOk result (λ next. Finds (S.content store.old) to found.old.items next found.new.items) }
    ensures reads { IsReading S.content S.failed S.is_clean S.IsSound store.old (IsErrOf result LookFault.Fault) store.new }
{
    let Some((x, bytes)) = effective_of(alloc, store, to)? else {
        return Ok(None);
    };
    found.push(found_at(alloc, store, x, &bytes, to)?)?;
    Ok(below(x, to))
}

// Returns the interval before `x`; a store of which nothing is known may have found one that is not at most
// `to`.
pub(crate) fn below(x: u32, to: u32) -> Option<u32>
    ensures below { IfSome result (λ y. y < to) }
    ensures before { x ≤ to → result ≡ before x }
{
    match x.checked_sub(1) {
        Some(y) if y < to => Some(y),
        _ => None,
    }
}

// Returns the checkpoint of `x`, which is effective for `to`.
fn found_at<S: Stable>(
    alloc: Global,
    store: &mut S,
    x: u32,
    bytes: &[u8],
    to: u32,
) -> Result<Found, LookFault>
    ensures interval { IfOk result (λ f. f.interval ≡ x) }
    ensures line { IfOk result (λ f. IsCheckpointLine (x, bytes.now) (string_bytes f.line)) }
    ensures stops { IsCleanCall S.is_clean S.IsSound store.old store.new → (c : ℕ)
        → IsEffective (S.content store.old).checkpoints to c → IfOk result (λ f. StopsAt (S.content store.old) c to f.stop) }
    ensures reads { IsReading S.content S.failed S.is_clean S.IsSound store.old (IsErrOf result LookFault.Fault) store.new }
{
    let mut line = String::new(alloc);
    push_checkpoint(alloc, &mut line, x, bytes)?;
    let stop = stop_of(alloc, store, to)?;
    Ok(Found {
        interval: x,
        line,
        stop,
    })
}
