//! What the store of a process is given, and when.

ghost use Rattle.std.specs.Prelude.{◌≡◌, ◌&&◌, ◌||◌, ◌++◌, ◌∷◌, [], IfNone, IfSome, IsSome, None, OnOk, Some, false, is_some, length};
ghost use Rattle.om_process.specs.Flights.{landed};
ghost use Rattle.om_process.specs.Stores.{flushed};
ghost use Rattle.om_process.specs.Trims.{trimmed};
ghost use Rattle.om_node.specs.Storing.{HasStored};
ghost use Rattle.om_storing.specs.Receipts.{HasStoredBy, is_multiple_of};
ghost use Rattle.om_node.specs.Nodes.{KeepsMember, LeavesCore};

use crate::kept::Kept;
use om_node::{Deposit, Due, Landing, Limits, Node, Transaction, WorkerFault};
use om_observers::Diary;
use om_process::PendingRow;
use om_stable::{Ledger, Stable};
use om_tickets::Series;
use std::alloc::Global;
use std::sync::Wait;

// How many receipts of a log are stored where all are.
const ALL_RECEIPTS: usize = usize::MAX;

/// Holds what the store of a process is to be given, and how far it has come.
#[derive(Drop)]
pub struct Storing {
    /// How much of what the process did stands in the store, where a run may take it up.
    pub kept: Option<Kept>,
    /// What the store is to be given and to drop with what is stored next.
    pub due: Option<Due>,
    /// Whether a flight is under way.
    pub is_away: bool,
    // How far the process has handed over what it received.
    handed: Handed,
}

// How far a process whose store is slow has handed over what it received, and its checkpoints.
#[derive(Clone, Copy, Drop)]
struct Handed {
    // The last interval whose receipt was handed over, or stored otherwise.
    receipts: u32,
    // The interval of the last checkpoint.
    checkpoint: u32,
}

impl Handed {
    // Makes what a process at its start has handed over: its checkpoint is stored.
    fn new() -> Handed {
        Handed {
            receipts: 0,
            checkpoint: 0,
        }
    }

    // Notes that the process was rolled back to interval `r`.
    fn cut(&mut self, r: u32) {
        self.receipts = r;
        self.checkpoint = self.checkpoint.min(r);
    }
}

// Returns the interval of the last checkpoint among these rows, 0 where there is none.
fn last_checkpoint(rows: &[PendingRow]) -> u32 {
    let mut last = 0;
    for row in rows {
        if row.ckpt {
            last = last.max(row.x);
        }
    }
    last
}

// Returns whether k receipts or more came after interval `last` up to x; never of 0.
fn is_reached(x: u32, last: u32, k: u32) -> bool {
    k != 0 && x.saturating_sub(last) >= k
}

// Returns whether x receipts are a multiple of k; none are of 0.
fn is_multiple(x: u32, k: u32) -> bool
    ensures { result ≡ is_multiple_of x k }
{
    k != 0 && x % k == 0
}

// Returns whether the log is stored. The senders of the receipts before a checkpoint are read from their records, where a run
// may take the store up.
fn is_log_due(is_flush_due: bool, is_checkpoint_due: bool, is_kept: bool) -> bool
    ensures { result ≡ (is_flush_due || (is_kept && is_checkpoint_due)) }
{
    is_flush_due || (is_kept && is_checkpoint_due)
}

impl Storing {
    /// Makes what the store of a process at its start is to be given: nothing.
    pub fn new() -> Storing
        ensures kept { result.kept ≡ None }
        ensures due { result.due ≡ None }
        ensures away { result.is_away ≡ false }
    {
        Storing {
            kept: None,
            due: None,
            is_away: false,
            handed: Handed::new(),
        }
    }

    /// Goes on from what was found in the store: how much it keeps for a run that takes it up, and its rows.
    pub fn take_up(&mut self, kept: Kept, rows: &[PendingRow])
        ensures kept { self.new.kept ≡ Some kept }
        ensures due { self.new.due ≡ self.old.due }
    {
        self.kept = Some(kept);
        self.handed.checkpoint = last_checkpoint(rows);
    }

    /// Notes that the process was rolled back to interval `r`.
    pub fn cut(&mut self, r: u32)
        ensures kept { self.new.kept ≡ self.old.kept }
        ensures due { self.new.due ≡ self.old.due }
    {
        self.handed.cut(r);
    }

    /// Stores the whole log at once, as [`Node::flush`] does.
    pub fn flush<J: Series, S: Stable>(
        &mut self,
        alloc: Global,
        node: &mut Node<'_, J, S>,
    ) -> Result<(), WorkerFault>
        requires here { node.old.away ≡ false }
        ensures member { KeepsMember node.old node.new }
        ensures away { node.new.away ≡ false }
        ensures stored { OnOk result (node.new.core ≡ flushed node.old.core) }
        ensures refused { LeavesCore node.old result node.new }
    {
        node.flush(alloc)?;
        self.handed.receipts = node.core().interval();
        Ok(())
    }

    /// Stores what is due after receipt `x`, by its number: the log with each `flush` receipts, a checkpoint with each `checkpoint`.
    pub fn store_by<J: Series, S: Ledger>(
        &mut self,
        alloc: Global,
        node: &mut Node<'_, J, S>,
        x: u32,
        flush: u32,
        checkpoint: u32,
    ) -> Result<(), WorkerFault>
        ensures member { KeepsMember node.old node.new }
        ensures now { node.new.core.now ≡ node.old.core.now }
        ensures stored { OnOk result (HasStoredBy x flush checkpoint (is_some self.old.kept) node.old.core node.new.core) }
    {
        let is_flush_due = is_multiple(x, flush);
        let is_checkpoint_due = is_multiple(x, checkpoint);
        if is_log_due(is_flush_due, is_checkpoint_due, self.kept.is_some()) {
            self.store(alloc, node, ALL_RECEIPTS, is_checkpoint_due)?;
            return Ok(());
        }
        if is_checkpoint_due {
            self.store(alloc, node, 0, true)?;
            return Ok(());
        }
        Ok(())
    }

    /// Applies the limits that were read, where there are some, with the senders of all that the process received; of a process that
    /// has ended nothing stays due.
    pub fn apply_limits<J: Series, S: Ledger>(
        &mut self,
        alloc: Global,
        node: &mut Node<'_, J, S>,
        limits: Option<Limits>,
        ended: bool,
        senders: &[u8],
    ) -> Result<(), WorkerFault>
        requires { IfSome limits (λ l. length l.bounds.got ≡ node.old.member.n) }
        ensures member { KeepsMember node.old node.new }
        ensures trimmed { OnOk result (IfSome limits (λ l. node.new.core.now
            ≡ trimmed (l.bounds.got ++ l.bounds.released ∷ []) node.old.core.now)) }
        ensures untrimmed { IfNone limits (node.new.core.now ≡ node.old.core.now) }
    {
        if let Some(limits) = limits {
            self.trim_to_limits(alloc, node, &limits, senders)?;
        }
        if ended {
            self.store_due(alloc, node)?;
        }
        Ok(())
    }

    // Trims the process by its limits. What its store need not keep any longer goes with what is stored next.
    fn trim_to_limits<J: Series, S: Ledger>(
        &mut self,
        alloc: Global,
        node: &mut Node<'_, J, S>,
        limits: &Limits,
        senders: &[u8],
    ) -> Result<(), WorkerFault>
        requires { length limits.now.bounds.got ≡ node.old.member.n }
        ensures member { KeepsMember node.old node.new }
        ensures due { OnOk result (IfSome self.new.due (λ due. due.checkpoint ≡ limits.now.checkpoint)) }
        ensures owed { OnOk result (IsSome self.new.due) }
        ensures trimmed { OnOk result (node.new.core.now
            ≡ trimmed (limits.now.bounds.got ++ limits.now.bounds.released ∷ []) node.old.core.now) }
    {
        self.store_due(alloc, node)?;
        let deposit = match &self.kept {
            Some(kept) => kept.deposit(alloc, node.core(), limits, senders)?,
            None => Deposit::none(alloc),
        };
        node.trim(&limits.bounds);
        self.due = Some(Due {
            checkpoint: limits.checkpoint,
            deposit,
        });
        Ok(())
    }

    // Stores what the store of the process has to hold beside its records, where something is due.
    fn store_due<J: Series, S: Ledger>(
        &mut self,
        alloc: Global,
        node: &mut Node<'_, J, S>,
    ) -> Result<(), WorkerFault>
        ensures member { KeepsMember node.old node.new }
        ensures now { node.new.core.now ≡ node.old.core.now }
        ensures settled { OnOk result (self.new.due ≡ None) }
    {
        if self.due.is_some() {
            self.store(alloc, node, 0, false)?;
        }
        Ok(())
    }

    // Stores the first k receipts of the log, a checkpoint where one is due, and whatever else is due, in one transaction.
    fn store<J: Series, S: Ledger>(
        &mut self,
        alloc: Global,
        node: &mut Node<'_, J, S>,
        k: usize,
        is_checkpoint_due: bool,
    ) -> Result<(), WorkerFault>
        ensures member { KeepsMember node.old node.new }
        ensures now { node.new.core.now ≡ node.old.core.now }
        ensures stored { OnOk result (HasStored k is_checkpoint_due node.old.core node.new.core) }
        ensures refused { LeavesCore node.old result node.new }
        ensures settled { OnOk result (self.new.due ≡ None) }
    {
        let Some(due) = self.due.take() else {
            return node.store(alloc, k, is_checkpoint_due, &Deposit::none(alloc), None);
        };
        let stored = self.store_with(alloc, node, k, is_checkpoint_due, &due);
        // Dropped by one call: at the end of the scope each of its parts would be.
        drop(due);
        stored
    }

    // Stores the first k receipts of the log, a checkpoint where one is due, and this, in one transaction.
    fn store_with<J: Series, S: Ledger>(
        &mut self,
        alloc: Global,
        node: &mut Node<'_, J, S>,
        k: usize,
        is_checkpoint_due: bool,
        due: &Due,
    ) -> Result<(), WorkerFault>
        ensures member { KeepsMember node.old node.new }
        ensures now { node.new.core.now ≡ node.old.core.now }
        ensures stored { OnOk result (HasStored k is_checkpoint_due node.old.core node.new.core) }
        ensures refused { LeavesCore node.old result node.new }
        ensures due { self.new.due ≡ self.old.due }
    {
        let prune_to = Some(due.checkpoint);
        node.store(alloc, k, is_checkpoint_due, &due.deposit, prune_to)?;
        self.keep(due);
        Ok(())
    }

    // Counts what the store was given beside its records, where a run may take it up.
    fn keep(&mut self, due: &Due)
        ensures due { self.new.due ≡ self.old.due }
    {
        if let Some(kept) = &mut self.kept {
            kept.add(&due.deposit);
        }
    }

    /// Begins a flight where the store is slow, none is under way, what landed is noted, and `flush` receipts are in the log, or
    /// `checkpoint` came since the last checkpoint; never by a number that is 0. Refused as [`Node::launch`] and [`Node::land`] are.
    pub fn launch<J: Series, S: Ledger, R: Wait>(
        &mut self,
        rt: &R,
        alloc: Global,
        node: &mut Node<'_, J, S>,
        diary: &mut Diary<'_>,
        flush: u32,
        checkpoint: u32,
    ) -> Result<(), WorkerFault>
        ensures member { KeepsMember node.old node.new }
        ensures now { node.new.core.now ≡ node.old.core.now }
    {
        if !node.is_slow() || node.is_away() || !node.core().pending().is_empty() {
            return Ok(());
        }
        let x = node.core().interval();
        let is_flush_due = is_reached(x, self.handed.receipts, flush);
        let is_checkpoint_due = is_reached(x, self.handed.checkpoint, checkpoint);
        if is_flush_due || is_checkpoint_due {
            // A checkpoint takes the log with it: so no commit is for one alone. Where a run may take the store up, the senders of
            // the receipts before it are read from their records, whether they are flushed or not.
            let is_log_due = flush != 0 || self.kept.is_some();
            self.send_off(rt, alloc, node, diary, is_log_due, is_checkpoint_due)?;
        }
        Ok(())
    }

    // Begins a flight with the whole log where that is due, and a checkpoint where one is.
    fn send_off<J: Series, S: Ledger, R: Wait>(
        &mut self,
        rt: &R,
        alloc: Global,
        node: &mut Node<'_, J, S>,
        diary: &mut Diary<'_>,
        is_log_due: bool,
        is_checkpoint_due: bool,
    ) -> Result<(), WorkerFault>
        ensures member { KeepsMember node.old node.new }
        ensures now { node.new.core.now ≡ node.old.core.now }
    {
        let x = node.core().interval();
        let mut k = 0;
        if is_log_due {
            k = ALL_RECEIPTS;
            self.handed.receipts = x;
        }
        if is_checkpoint_due {
            self.handed.checkpoint = x;
            diary.spelled(rt)?;
        }
        self.is_away = true;
        let due = self.due.take();
        match node.launch(rt, alloc, k, is_checkpoint_due, due)? {
            Some(landing) => self.land(node, diary, landing),
            None => Ok(()),
        }
    }

    /// Takes in the flight that is under way, if it has landed. Refused as [`Node::land`] is.
    pub fn look<J: Series, S: Ledger, R: Wait>(
        &mut self,
        rt: &R,
        node: &mut Node<'_, J, S>,
        diary: &mut Diary<'_>,
    ) -> Result<(), WorkerFault>
        ensures member { KeepsMember node.old node.new }
        ensures now { node.new.core.now ≡ node.old.core.now }
    {
        if !self.is_away {
            return Ok(());
        }
        match node.look(rt) {
            Some(landing) => self.land(node, diary, landing),
            None => Ok(()),
        }
    }

    /// Waits for the flight that is under way, if there is one. Refused as [`Node::land`] is, and where nothing comes back.
    pub fn recall<J: Series, S: Stable, R: Wait>(
        &mut self,
        rt: &R,
        node: &mut Node<'_, J, S>,
        diary: &mut Diary<'_>,
    ) -> Result<(), WorkerFault>
        ensures member { KeepsMember node.old node.new }
        ensures landed { OnOk result (node.new.away ≡ false) }
        ensures now { node.new.core.now ≡ node.old.core.now }
    {
        if !node.is_away() {
            return Ok(());
        }
        match node.wait(rt) {
            Some(landing) => self.land(node, diary, landing),
            None => Err(WorkerFault::Refused),
        }
    }

    // Takes in a flight that has landed: what it carried is stored, and to be noted.
    fn land<J: Series, S: Stable>(
        &mut self,
        node: &mut Node<'_, J, S>,
        diary: &mut Diary<'_>,
        landing: Landing<J, S>,
    ) -> Result<(), WorkerFault>
        ensures member { KeepsMember node.old node.new }
        ensures here { OnOk result (node.new.away ≡ false) }
        ensures now { node.new.core.now ≡ node.old.core.now }
        ensures landed { OnOk result (node.new.core ≡ landed landing.transaction.flight node.old.core) }
        ensures refused { LeavesCore node.old result node.new }
    {
        self.is_away = false;
        let transaction = node.land(landing)?;
        self.note_landed(diary, transaction);
        Ok(())
    }

    // Notes that what a flight carried is stored.
    fn note_landed(&mut self, diary: &mut Diary<'_>, transaction: Transaction) {
        diary.landed(transaction.flight.receipts.len());
        if let Some(due) = &transaction.due {
            self.keep(due);
        }
    }
}
