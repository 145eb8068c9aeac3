//! What holds of runs without failures, as theorems over the definitions alone: each function stands for one.

ghost use Rattle.std.specs.Prelude.{◌≡◌, ◌≢◌, ◌⊎◌, ℕ, ◌+◌, ◌<◌, ◌≤◌, List, [], ◌∷◌, ◌++◌, length, take, slice_get, slice_index, Bool, false, Some};
ghost use Rattle.om_interval.specs.Starts.{BeginIncarnations, IsOrphan, is_named, newest_of, starts_of};
ghost use Rattle.om_format.specs.declared.queue.QueueEntry.{QueueEntry};
ghost use Rattle.om_process.specs.Claims.{AtInterval, HasEntry, Makes};
ghost use Rattle.om_process.specs.Dependencies.{greatest_from};
ghost use Rattle.om_process.specs.Process.{Process, Program, Received};
ghost use Rattle.om_process.specs.Turns.{Reaches};
ghost use Rattle.om_world.specs.Live.{Closed, Legal, MayFollow, cut_list, program_at, received};
ghost use Rattle.om_world.specs.declared.entry.Entry.{Entry};

/// Proves that an entry that may follow makes a longer legal list.
pub fn one_more()
    ensures { (programs : List Program) (es : List Entry) (e : Entry)
        → Legal programs es → MayFollow programs es e → Legal programs (es ++ e ∷ []) }
{}

/// Proves that a cut leaves each process its first receipts; where it is closed, what is left of a legal list
/// is legal.
pub fn cut()
    ensures first { (s : List ℕ) (es : List Entry) (p : ℕ) → received p (cut_list s es) ≡ take (slice_index s p) (received p es) }
    ensures legal { (programs : List Program) (s : List ℕ) (es : List Entry)
        → Legal programs es → Closed s es → Legal programs (cut_list s es) }
{}

/// Proves that a state that the dependencies of the receipts within it do not pass is closed.
pub fn closed()
    ensures { (programs : List Program) (s : List ℕ) (es : List Entry) → Legal programs es
        → ((p q : ℕ) → q ≢ p → greatest_from q (take (slice_index s p) (received p es)) ≤ slice_index s q) → Closed s es }
{}

/// Proves that outputs that are each made at their interval are the first outputs of one state.
pub fn released_first()
    ensures { (programs : List Program) (p : ℕ) (es : List Entry) (outputs : List QueueEntry) → Legal programs es
        → ((i : ℕ) (e : QueueEntry) → slice_get outputs i ≡ Some e
        → AtInterval (received p es) e.interval (Makes (program_at programs p) p (length programs) (length programs) i e))
        → (s : Process) × Reaches (program_at programs p) p (length programs) (received p es) s
        × ((i : ℕ) (e : QueueEntry) → slice_get outputs i ≡ Some e → HasEntry s.queues (length programs) i e) }
{}

/// Proves that after a finished round a message that is no orphan was sent within the recovery state.
pub fn frames_cut()
    ensures { (who : List Bool) (state : List ℕ) (old new : List (List ℕ)) (program : Program) (q n inc y place number : ℕ)
        (h : List Received) (e : QueueEntry)
        → BeginIncarnations who state old new → q < length old → 0 < length (starts_of old q) → inc ≤ newest_of old q
        → ((i : ℕ) → i < length (starts_of old q) → slice_index (starts_of old q) i ≤ slice_index state q + 1)
        → (is_named who q ≡ false → length h ≤ slice_index state q)
        → IsOrphan old q inc y ⊎ AtInterval h y (Makes program q n place number e)
        → IsOrphan new q inc y ⊎ AtInterval (take (slice_index state q) h) y (Makes program q n place number e) }
{}
