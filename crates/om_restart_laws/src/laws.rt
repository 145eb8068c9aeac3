//! What a start finds, as theorems over the definitions alone: each function stands for one.

ghost use Rattle.std.specs.Prelude.{◌≡◌, ℕ, ◌<◌, ◌≤◌, List, Some, length, map, slice_get, slice_index};
ghost use Rattle.om_format.specs.declared.queue.QueueEntry.{QueueEntry};
ghost use Rattle.om_interval.specs.Vectors.{IsBelow};
ghost use Rattle.om_manager.specs.Outputs.{HeldOutput};
ghost use Rattle.om_look.specs.Rows.{AreRowsOf};
ghost use Rattle.om_manager.specs.Sound.{IsManager, KeepsReleased};
ghost use Rattle.om_manager.specs.State.{ManagerState, released_by};
ghost use Rattle.om_member.specs.Handed.{held_as};
ghost use Rattle.om_process.specs.Claims.{AtInterval, CheckpointOf, Makes, RowOf};
ghost use Rattle.om_process.specs.Core.{CoreState, cluster_size};
ghost use Rattle.om_process.specs.Process.{Program};
ghost use Rattle.om_process.specs.Stored.{IsReplay};
ghost use Rattle.om_process.specs.declared.limits.TheConstants.{LAST_INTERVAL};
ghost use Rattle.om_process.specs.declared.queues.Made.{Made};
ghost use Rattle.om_process.specs.declared.row.PendingRow.{PendingRow};
ghost use Rattle.om_recover.specs.Recoverable.{IsGreatest, IsRecoverable};
ghost use Rattle.om_recover.specs.Rows.{HasRow, Rows};
ghost use Rattle.om_recover.specs.declared.row.Row.{Row};
ghost use Rattle.om_stable.specs.Content.{Content, kept_by_cut};
ghost use Rattle.om_world.specs.Live.{Legal, cut_list, program_at, received};
ghost use Rattle.om_world.specs.declared.entry.Entry.{Entry};
ghost use Rattle.om_world.specs.Holds.{Holds};
ghost use Rattle.om_world.specs.Disk.{AreTrue, CanServe, DependsWithin, IsOnDisk, held_in};
ghost use Rattle.om_world.specs.World.{WorldState};
ghost use Rattle.om_world.specs.Restarted.{HasRestarted};
ghost use Rattle.om_world.specs.Stopped.{AreCurrent, along};
ghost use Rattle.om_restart_laws.specs.Alone.{AreLeft, StandsOver, content_of};
ghost use Rattle.om_restart_laws.specs.Chains.{GoesOnFrom, IsChain, IsSaid, Start};
ghost use Rattle.om_restart_laws.specs.Runs.{AreRuns, Stop};
ghost use Rattle.om_take_up.specs.Anew.{IsNew};
ghost use Rattle.om_take_up.specs.Orders.{Act, AreOfEach, ComeInTurn, StartsOver};
ghost use Rattle.om_take_up.specs.TakenUp.{RiseFrom};
ghost use Rattle.om_take_up.specs.StoreRows.{HasRowsOf};
ghost use Rattle.om_restart_laws.specs.Worlds.{IsTakenUpAt};

/// Proves that where the records of the stores are true of a run, so are the rows that they stand for: each row's vectors are the
/// dependencies and the counts of its process's first receipts.
pub fn rows_are_true()
    ensures { (programs : List Program) (live : List Entry) (held : ℕ → Content) (rows : Rows) (row : Row)
        → AreTrue programs live held → HasRowsOf (length programs) held rows → HasRow rows row
        → AtInterval (received row.pid live) row.interval (RowOf row.pid (length programs) row.vec row.got) }
{}

/// Proves that what a recoverable state of these rows leaves of the run is a run without failures, of which the stores, cut to that
/// state, are true again: so the next start finds what this one found.
pub fn taken_up()
    ensures legal { (programs : List Program) (live : List Entry) (held : ℕ → Content) (rows : Rows) (state : List ℕ)
        → Legal programs live → AreTrue programs live held → HasRowsOf (length programs) held rows
        → IsRecoverable (length programs) rows state → Legal programs (cut_list state live) }
    ensures kept { (programs : List Program) (live : List Entry) (held : ℕ → Content) (state : List ℕ)
        → AreTrue programs live held
        → AreTrue programs (cut_list state live) (λ p. kept_by_cut (held p) (slice_index state p)) }
    ensures stands { (programs : List Program) (live : List Entry) (held : ℕ → Content) (state : List ℕ) (p : ℕ) (core : CoreState)
        → AreTrue programs live held → p < length programs → core.own ≡ p → cluster_size core.now ≡ length programs
        → IsReplay (held p) (slice_index state p) core
        → CheckpointOf (program_at programs p) p (length programs) core.now (received p (cut_list state live)) }
    ensures said { (programs : List Program) (live : List Entry) (state : List ℕ) (p number : ℕ) (output : QueueEntry)
        → AtInterval (received p live) output.interval
        (Makes (program_at programs p) p (length programs) (length programs) number output)
        → output.interval ≤ slice_index state p
        → AtInterval (received p (cut_list state live)) output.interval
        (Makes (program_at programs p) p (length programs) (length programs) number output) }
{}

/// Proves that nothing is lost that the stores could serve: each state whose intervals they can serve, and that depends on nothing
/// outside it, is below the greatest recoverable one of these rows.
pub fn not_lost()
    ensures { (programs : List Program) (live : List Entry) (held : ℕ → Content) (rows : Rows) (old state : List ℕ)
        → AreTrue programs live held → HasRowsOf (length programs) held rows → IsGreatest (length programs) rows state
        → length old ≡ length programs → ((p : ℕ) → p < length programs → slice_index old p ≤ LAST_INTERVAL)
        → ((p : ℕ) → p < length programs → CanServe (held p) (slice_index old p)) → DependsWithin live (slice_index old)
        → IsBelow old state }
{}

/// Proves that, whatever was lost, refused or failed in a world that left this on its disk, a start over its stores goes on at a point
/// of the same run without failures, which has all that was recovered and all that was released.
pub fn a_start_goes_on()
    ensures { (w : WorldState) (rows : Rows) (state : List ℕ) → IsOnDisk w → HasRowsOf (length w.programs) (held_in w) rows
        → IsGreatest (length w.programs) rows state → IsTakenUpAt w state }
{}

/// Proves that the event of a restart is a start over the stores of its world, and over the run that they are of: the world behind it
/// stands at the recovery state of its manager, and goes on from there. Where each process knows the last finished round, that run is
/// all that was received.
pub fn a_restart_is_a_start()
    ensures at { (old new : WorldState) (r : HasRestarted old new) → IsOnDisk (along old r.run)
        → IsTakenUpAt (along old r.run) new.manager.recovery }
    ensures on { (old new : WorldState) (r : HasRestarted old new) → GoesOnFrom (along old r.run) new.manager.recovery new }
    ensures settled { (old new : WorldState) (r : HasRestarted old new) → AreCurrent old → r.run ≡ old.live }
{}

/// Proves that, however often a world ends and is taken up again, all is one run: what the last world received is a run without
/// failures, along which each output that was ever released is made under its number, within what is recovered.
pub fn a_chain_is_one_run()
    ensures one { (first last : WorldState) (starts : List Start) → IsChain first starts last → IsOnDisk last
        → Legal last.programs last.live }
    ensures said { (first last : WorldState) (starts : List Start) (p number : ℕ) (output : HeldOutput)
        → IsChain first starts last → p < length first.programs → IsSaid first p number output → IsSaid last p number output }
    ensures released { (w : WorldState) (p number : ℕ) (output : HeldOutput) → IsOnDisk w → p < length w.programs
        → slice_get (released_by w.manager p) number ≡ Some output → IsSaid w p number output }
{}

/// Proves that stores alone suffice for a start, whatever left them: over stores whose records are true of a run without failures and
/// can serve a state, with what was put out, a start comes to a point of that run, which has all of the state and releases just what was
/// put out. A world that ends leaves such stores, and the event of a restart is such a start.
pub fn stores_alone()
    ensures stands { (programs : List Program) (live : List Entry) (state : List ℕ) (contents : List Content)
        (outputs : ℕ → List HeldOutput) (m : ManagerState) → AreLeft programs live state contents outputs
        → StartsOver (length programs) (content_of contents) outputs m → StandsOver programs live state contents outputs m }
    ensures left { (w : WorldState) → IsOnDisk w
        → AreLeft w.programs w.live w.manager.recovery w.contents (released_by w.manager) }
    ensures event { (old new : WorldState) → HasRestarted old new
        → StartsOver (length old.programs) (held_in old) (released_by old.manager) new.manager }
{}

/// Proves that a start in which each process reaches the manager by itself, in any order, comes to a point of the run that was left.
pub fn a_start_in_any_order()
    ensures { (programs : List Program) (live : List Entry) (state : List ℕ) (contents : List Content)
        (rows : ℕ → List PendingRow) (outputs : ℕ → List Made) (acts : List Act) (first last : ManagerState)
        → AreLeft programs live state contents (λ p. map held_as (outputs p)) → IsNew (length programs) first → IsManager first
        → ((p : ℕ) → p < length programs → AreRowsOf p (length programs) (content_of contents p) (rows p))
        → ((p : ℕ) → p < length programs → RiseFrom 0 (outputs p)) → AreOfEach (length programs) rows outputs acts
        → ComeInTurn first acts last → StandsOver programs live state contents (λ p. map held_as (outputs p)) last }
{}

/// Proves that, however often a world is played, ends and is taken up again from what it left, the last world is then a point of a run
/// without failures, and whatever was released at any time still is, under its number.
pub fn runs_are_one()
    ensures holds { (first last : WorldState) (stops : List Stop) → Holds first → AreRuns first stops last → Holds last }
    ensures released { (first last : WorldState) (stops : List Stop) → AreRuns first stops last
        → KeepsReleased first.manager last.manager }
{}
