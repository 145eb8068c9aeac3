//! What holds of every process, as theorems over the definitions alone: each function stands for one.

ghost use Rattle.om_process.specs.declared.limits.TheConstants.{LAST_INTERVAL, LAST_NUMBER, LAST_OUTPUT, REFUSED};
ghost use Rattle.std.specs.Prelude.{◌≡◌, ◌↔◌, ◌++◌, ◌+◌, ◌<◌, ◌≤◌, ◌∷◌, [], Bool, List, ℕ, Some, length, map, slice_index, take};
ghost use Rattle.om_format.specs.declared.queue.QueueEntry.{QueueEntry};
ghost use Rattle.om_format.specs.Receipts.{ReceiptRecord};
ghost use Rattle.om_format.specs.declared.message.Message.{Message};
ghost use Rattle.om_stable.specs.Content.{Content, bytes_of, with_receipts};
ghost use Rattle.om_process.specs.Accepts.{taken};
ghost use Rattle.om_process.specs.Claims.{AtInterval, CheckpointOf, HasEntry, Makes, RecordsAlong, RowOf};
ghost use Rattle.om_process.specs.Core.{CoreState, with_now, with_pending};
ghost use Rattle.om_process.specs.Flights.{Carries, StillFirst};
ghost use Rattle.om_process.specs.Parts.{Grow, IsTrimmed};
ghost use Rattle.om_process.specs.Process.{Process, Program, Received, delivered, started};
ghost use Rattle.om_process.specs.Replays.{FitsReceipt, Replayed, received_of};
ghost use Rattle.om_process.specs.Stores.{HasGainedFirst, HasGainedLog, flushed, flushed_first};
ghost use Rattle.om_process.specs.Trims.{trimmed};
ghost use Rattle.om_process.specs.declared.flight.Flight.{Flight};
ghost use Rattle.om_process.specs.declared.row.PendingRow.{PendingRow};
ghost use Rattle.om_process.specs.Turns.{Along, IsWaiting, Leads, Reaches, Turns, next_turn};

/// Proves of a turn: at a wait there is none; it counts one; it leaves interval, vector and counts, and what it makes is of
/// its interval; a process that keeps fewer entries takes the same.
pub fn one_turn()
    ensures no_turn { (own n : ℕ) (s t : Process) → IsWaiting own n s → next_turn own n s ≡ Some t → ⊥ }
    ensures counts { (own n : ℕ) (s t : Process) → next_turn own n s ≡ Some t → t.machine.count ≡ s.machine.count + 1 }
    ensures stays { (own n : ℕ) (s t : Process) → next_turn own n s ≡ Some t
        → (t.interval ≡ s.interval) × (t.vec ≡ s.vec) × (t.got ≡ s.got) }
    ensures grows { (own n : ℕ) (s t : Process) → next_turn own n s ≡ Some t → Grow s.interval s.queues t.queues }
    ensures part { (own n : ℕ) (whole part next : Process) → IsTrimmed whole part → next_turn own n part ≡ Some next
        → (w : Process) × (next_turn own n whole ≡ Some w) × IsTrimmed w next }
{}

/// Proves that given receipts and a given number of turns lead to one state at most.
pub fn at_most_one()
    ensures { (program : Program) (own n : ℕ) (h : List Received) (k : ℕ) (s t : Process)
        → Along program own n h k s → Along program own n h k t → s ≡ t }
{}

/// Proves that from a state there is one wait at most, however many turns lead to it, and each state on the way goes on to
/// it.
pub fn waits_once()
    ensures one { (own n j k : ℕ) (s t u : Process)
        → Turns own n j s t → IsWaiting own n t → Turns own n k s u → IsWaiting own n u → t ≡ u }
    ensures on_the_way { (own n j k : ℕ) (a w c : Process)
        → Turns own n j a w → IsWaiting own n w → Turns own n k a c → (i : ℕ) × Turns own n i c w }
{}

/// Proves that of two states that turns lead to, the one of more turns comes after the other.
pub fn turns_in_order()
    ensures { (own n j k : ℕ) (s t u : Process)
        → Turns own n j s t → Turns own n k s u → j ≤ k → (i : ℕ) × Turns own n i t u }
{}

/// Proves that runs join, and part where a list of receipts does; a wait takes one delivery more.
pub fn runs_join_and_part()
    ensures joined { (own n : ℕ) (g h : List Received) (s m t : Process)
        → Leads own n g s m → Leads own n h m t → Leads own n (g ++ h) s t }
    ensures apart { (own n : ℕ) (g h : List Received) (s t : Process)
        → Leads own n (g ++ h) s t → (m : Process) × Leads own n g s m × Leads own n h m t }
    ensures one_more { (program : Program) (own n : ℕ) (h : List Received) (r : Received) (w : Process)
        → Reaches program own n h w → IsWaiting own n w → Along program own n (h ++ r ∷ []) 0 (delivered own w r) }
{}

/// Proves that where a checkpoint is a state along the way, what is replayed from it is along it with the longer receipts.
pub fn going_on()
    ensures { (program : Program) (own n : ℕ) (c t : Process) (h : List Received) (k : ℕ) (rs : List ReceiptRecord)
        → Along program own n h k c → Replayed own n c rs t
        → (j : ℕ) × Along program own n (h ++ map received_of rs) j t }
{}

/// Proves that what is replayed from a checkpoint along the way stands along the longer receipts, with fewer entries kept.
pub fn replayed_along()
    ensures { (program : Program) (own n : ℕ) (c t : Process) (h : List Received) (rs : List ReceiptRecord)
        → CheckpointOf program own n c h → Replayed own n c rs t
        → CheckpointOf program own n t (h ++ map received_of rs) }
{}

/// Proves that what is replayed keeps what the checkpoint kept, and behind it what was made since.
pub fn replayed_grows()
    ensures { (own n : ℕ) (c t : Process) (rs : List ReceiptRecord)
        → Replayed own n c rs t → Grow c.interval c.queues t.queues }
{}

/// Proves that from a checkpoint along the way, true records are replayed to their end.
pub fn replays()
    ensures { (program : Program) (own n : ℕ) (c : Process) (h : List Received) (rs : List ReceiptRecord)
        → CheckpointOf program own n c h → RecordsAlong program own n h rs
        → (t : Process) × Replayed own n c rs t }
{}

/// Proves that before a later receipt there stands a wait along the earlier ones, with all that was made before that
/// receipt.
pub fn said_before()
    ensures { (program : Program) (own n : ℕ) (g h : List Received) (r : Received) (k : ℕ) (t : Process)
        → Along program own n (g ++ r ∷ h) k t
        → (j : ℕ) × (w : Process) × Along program own n g j w × IsWaiting own n w × Grow (length g + 1) w.queues t.queues }
{}

/// Proves that no entry is of a later interval than the receipts.
pub fn below_along()
    ensures { (program : Program) (own n place number : ℕ) (h : List Received) (t : Process) (e : QueueEntry)
        → Reaches program own n h t → HasEntry t.queues place number e → e.interval ≤ length h }
{}

/// Proves that what is made along some receipts is made along those up to its interval.
pub fn made_at()
    ensures { (program : Program) (own n place number : ℕ) (h : List Received) (e : QueueEntry)
        → Makes program own n place number e h → AtInterval h e.interval (Makes program own n place number e) }
{}

/// Proves that under one number one entry is made.
pub fn same_entry()
    ensures { (program : Program) (own n place number x y : ℕ) (h : List Received) (a b : QueueEntry)
        → x ≤ length h → y ≤ length h → b.interval ≤ x → a.interval ≤ y
        → Makes program own n place number a (take x h) → Makes program own n place number b (take y h) → a ≡ b }
{}

/// Proves that a process that keeps fewer entries takes the turns of the whole one, the whole one those of the part, and
/// both the deliveries.
pub fn parts_go_on()
    ensures of_the_part { (own n k : ℕ) (whole part next : Process)
        → IsTrimmed whole part → Turns own n k part next → (w : Process) × Turns own n k whole w × IsTrimmed w next }
    ensures of_the_whole { (own n k : ℕ) (whole part next : Process)
        → IsTrimmed whole part → Turns own n k whole next → (p : Process) × Turns own n k part p × IsTrimmed next p }
    ensures waits { (own n : ℕ) (whole part : Process) → IsTrimmed whole part → IsWaiting own n part ↔ IsWaiting own n whole }
    ensures delivery { (own : ℕ) (whole part : Process) (r : Received)
        → IsTrimmed whole part → IsTrimmed (delivered own whole r) (delivered own part r) }
    ensures trimming { (bounds : List ℕ) (whole part : Process) → IsTrimmed whole part → IsTrimmed whole (trimmed bounds part) }
{}

/// Proves that turns count one each.
pub fn turns_count()
    ensures { (own n k : ℕ) (s t : Process) → Turns own n k s t → t.machine.count ≡ s.machine.count + k }
{}

/// Proves that the vector and the numbers got are the dependencies and the counts of the receipts.
pub fn row_along()
    ensures { (program : Program) (own n : ℕ) (h : List Received) (t : Process)
        → Reaches program own n h t → RowOf own n t.vec t.got h }
{}

/// Proves that a receipt of this process, of a sender that is there, the next of that sender and of this process, fits where
/// the process waits at its count.
pub fn fits_at_its_count()
    ensures { (own n k : ℕ) (s w : Process) (r : ReceiptRecord)
        → r.to ≡ own → r.from < n → r.ssn ≡ slice_index s.got r.from → r.interval ≡ s.interval + 1
        → Turns own n k s w → IsWaiting own n w → w.machine.count ≡ r.count → FitsReceipt own n w r }
{}

/// Proves that what a process hands over stands first in its log while it goes on, whatever it does but give its log away;
/// and what a store has gained of the earlier log it has gained of the later one.
pub fn flights()
    ensures takes { (k : ℕ) (c : CoreState) (m : Message) → k ≤ length c.log → StillFirst k c (taken c m) }
    ensures goes_on { (k : ℕ) (c : CoreState) (p : Process) → p.interval ≡ c.now.interval → StillFirst k c (with_now c p) }
    ensures notes { (k : ℕ) (c : CoreState) (rows : List PendingRow) → StillFirst k c (with_pending c rows) }
    ensures along { (k : ℕ) (c d e : CoreState) → StillFirst k c d → StillFirst k d e → StillFirst k c e }
    ensures carried { (k : ℕ) (due : Bool) (c : CoreState) (f : Flight) → Carries k due c f
        → take (length f.receipts.items) c.log ≡ take k c.log }
    ensures gained { (k : ℕ) (due : Bool) (c d : CoreState) (f : Flight) (held : Content) → Carries k due c f
        → StillFirst (length f.receipts.items) c d
        → HasGainedFirst (length f.receipts.items) d held (with_receipts held f.first (bytes_of f.receipts.items)) }
    ensures whole { (c : CoreState) (old new : Content) → HasGainedFirst (length c.log) c old new ↔ HasGainedLog c old new }
    ensures whole_core { (c : CoreState) → flushed_first (length c.log) c ≡ flushed c }
{}

/// Proves that the word of a refusal, and the last numbers of messages, intervals and outputs, are these.
pub fn limits()
    ensures refused { REFUSED ≡ 4294967295 }
    ensures last_number { LAST_NUMBER ≡ 4294967295 }
    ensures last_interval { LAST_INTERVAL ≡ 4294967295 }
    ensures last_output { LAST_OUTPUT ≡ 18446744073709551615 }
{}
