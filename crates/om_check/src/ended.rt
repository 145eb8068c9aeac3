//! Runs at their end.

ghost use Rattle.std.specs.Prelude.{◌≡◌, ◌≤◌, None, Ok, length, IfOk, IfSome};
ghost use Rattle.om_interval.specs.declared.pid.TheConstants.{MAX_PROCESSES};
ghost use Rattle.om_manager.specs.State.{process_count};
ghost use Rattle.om_check.specs.steps.Playing.{IsGoingOn, StandsIn};

use crate::exploring::Explored;
use crate::fault::PlayFault;
use crate::resting::end_of;
use crate::stage::Stage;
use crate::trail::Trail;
use om_interval::MAX_PROCESSES;

// Returns the run of so many processes at its end, of which all that was put out is released: none where a process can receive
// something.
pub(crate) fn ended(trail: Trail, n: usize) -> Result<Option<Explored>, PlayFault>
    requires few { n ≤ MAX_PROCESSES }
    requires all { n ≡ length trail.stage.world.programs }
    requires managed { n ≤ process_count trail.stage.world.manager }
    ensures world { IfOk result (λ run. IfSome run (λ run. run.world ≡ trail.stage.world)) }
    ensures events { IfOk result (λ run. IfSome run (λ run. run.events ≡ trail.events)) }
    ensures stands { IfOk result (λ run. IfSome run (λ run. StandsIn trail.stage.world run.end n)) }
    ensures none { result ≡ Ok None → IsGoingOn trail.stage.world n }
{
    let Trail { stage, events, .. } = trail;
    let Stage { world, .. } = stage;
    match end_of(&world, n)? {
        Some(end) => Ok(Some(Explored { world, events, end })),
        None => Ok(None),
    }
}
