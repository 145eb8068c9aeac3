//! What a world in its end says of its run.

ghost use Rattle.std.specs.Prelude.{◌≡◌, List, length};
ghost use Rattle.om_process.specs.Process.{Program};
ghost use Rattle.om_process.specs.declared.status.Status.{Status};
ghost use Rattle.om_manager.specs.Outputs.{HeldOutput};
ghost use Rattle.om_world.specs.World.{WorldState};
ghost use Rattle.om_world.specs.declared.entry.Entry.{Entry};
ghost use Rattle.om_check.specs.FailureFree.{IsRestBy, IsRunBy, IsStuckBy};
ghost use Rattle.om_check.specs.Orders.{IsOver, IsSameRun};
ghost use Rattle.om_check.specs.Whole.{AreReleasedIn, AreStatusesOf, IsStuck, IsWhole};

/// Proves that in the end of a world, what is released of its processes, and their statuses, are what its run without failures
/// comes to.
pub fn whole_run()
    ensures { (programs : List Program) (w : WorldState) (outputs : List (List HeldOutput)) (statuses : List Status)
        → IsWhole programs w → length outputs ≡ length programs → length statuses ≡ length programs
        → AreReleasedIn w outputs → AreStatusesOf w statuses → IsRunBy programs w.live outputs statuses }
{}

/// Proves that in a world in which nothing is left to happen, what is released of its processes, and their statuses, are those of a
/// run without failures in which each has ended, or waits and has received all that was sent to it.
pub fn stuck_run()
    ensures { (programs : List Program) (w : WorldState) (outputs : List (List HeldOutput)) (statuses : List Status)
        → IsStuck programs w → length outputs ≡ length programs → length statuses ≡ length programs
        → AreReleasedIn w outputs → AreStatusesOf w statuses → IsStuckBy programs w.live outputs statuses }
{}

/// Proves that what was received in a run without failures determines what its processes put out, and how they end.
pub fn one_run()
    ensures { (programs : List Program) (live : List Entry) (outputs others : List (List HeldOutput)) (statuses ends : List Status)
        → IsRunBy programs live outputs statuses → IsRunBy programs live others ends → (outputs ≡ others) × (statuses ≡ ends) }
{}

/// Proves that in a run without failures in which each process has ended, and in one that is stuck, nothing can be received any
/// more.
pub fn runs_end_over()
    ensures whole { (programs : List Program) (live : List Entry) (outputs : List (List HeldOutput)) (statuses : List Status)
        → IsRunBy programs live outputs statuses → IsOver programs live }
    ensures stuck { (programs : List Program) (live : List Entry) (outputs : List (List HeldOutput)) (statuses : List Status)
        → IsStuckBy programs live outputs statuses → IsOver programs live }
{}

/// Proves that where each process has ended, and where nothing is left to happen, each is at rest.
pub fn runs_rest()
    ensures whole { (programs : List Program) (live : List Entry) (outputs : List (List HeldOutput)) (statuses : List Status)
        → IsRunBy programs live outputs statuses → IsRestBy programs live outputs statuses }
    ensures stuck { (programs : List Program) (live : List Entry) (outputs : List (List HeldOutput)) (statuses : List Status)
        → IsStuckBy programs live outputs statuses → IsRestBy programs live outputs statuses }
{}

/// Proves that two runs without failures in which each process receives the same put out the same, and stand the same once they are
/// at rest.
pub fn one_rest()
    ensures { (programs : List Program) (live other : List Entry) (outputs others : List (List HeldOutput)) (statuses ends : List Status)
        → IsRestBy programs live outputs statuses → IsRestBy programs other others ends → IsSameRun live other
        → (outputs ≡ others) × (statuses ≡ ends) }
{}
