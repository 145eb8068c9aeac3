//! What a process puts into its store.

ghost use Rattle.std.specs.Prelude.{◌≡◌, ◌+◌, ◌≤◌, ◌++◌, ℕ, IfOk, IsErrOf, IsSome, None, OnErr, OnOk, Some, drop, length, map, slice_get, take, vec_capacity, vec_len};
ghost use Rattle.std.specs.FinMap.{get};
ghost use Rattle.om_format.specs.Queues.{queue_record};
ghost use Rattle.om_stable.specs.Calls.{IsCleanCall, UsesStore, LeavesRefused};
ghost use Rattle.om_stable.specs.Content.{IsFree, IsTaken, bytes_of};
ghost use Rattle.om_process.specs.Core.{LoggedRecord};
ghost use Rattle.om_process.specs.Stored.{IsReceiptAt};
ghost use Rattle.om_process.specs.Stores.{HasGainedCheckpoint, HasGainedFirst, HasGainedLog, IsOf, checkpoint_row, checkpointed, first_logged, flushed, flushed_first, log_row};
ghost use Rattle.om_process.specs.Flights.{IsCheckpointOf};
ghost use Rattle.om_process.specs.steps.Pieces.{IsSpelledNow, SpellLog};
ghost use Rattle.om_process.specs.steps.Views.{logged_record};

use crate::flight::Spelled;
use crate::log::Logged;
use crate::proc_core::ProcCore;
use crate::queues::Messages;
use crate::row::PendingRow;
use om_format::{Head, Queue, encode_parts, encode_receipt};
use om_stable::{Stable, StoreError};
use std::alloc::{AllocError, Global};

impl ProcCore {
    /// Stores the whole volatile log, or nothing of it. Stored, its receipts are pending rows, and the log is empty.
    ///
    /// Refused with what the store answers, or with `Memory`. A refusal leaves the process, and the store's content.
    pub fn flush<S: Stable>(&mut self, alloc: Global, store: &mut S) -> Result<(), StoreError>
        ensures core { OnOk result (self.new ≡ flushed self.old) }
        ensures same { OnErr result (self.new ≡ self.old) }
        ensures stored { IsCleanCall S.is_clean S.IsSound store.old store.new
            → OnOk result (HasGainedLog self.old (S.content store.old) (S.content store.new)) }
        ensures each { IsCleanCall S.is_clean S.IsSound store.old store.new
            → OnOk result ((i : ℕ) (l : LoggedRecord) → slice_get self.old.log i ≡ Some l
            → IsReceiptAt (S.content store.new).receipts l.receipt.interval l.receipt) }
        ensures free { IsCleanCall S.is_clean S.IsSound store.old store.new
            → OnOk result (IsFree (S.content store.old).receipts (first_logged self.old) (length self.old.log)) }
        ensures present { IsCleanCall S.is_clean S.IsSound store.old store.new → IsErrOf result StoreError.Present
            → IsTaken (S.content store.old).receipts (first_logged self.old) (length self.old.log) }
        ensures refused { LeavesRefused S.content S.is_clean S.IsSound store.old result store.new }
        ensures used { UsesStore S.failed S.is_clean S.IsSound store.old (IsErrOf result StoreError.Fault) store.new }
    {
        let count = self.log.len();
        self.flush_first(alloc, store, count)
    }

    /// Stores the first `k` receipts of the volatile log, all where it is shorter, or nothing of it. Stored, they are pending rows,
    /// and the log is what comes behind them.
    ///
    /// Refused with what the store answers, or with `Memory`. A refusal leaves the process, and the store's content.
    pub fn flush_first<S: Stable>(
        &mut self,
        alloc: Global,
        store: &mut S,
        k: usize,
    ) -> Result<(), StoreError>
        ensures core { OnOk result (self.new ≡ flushed_first k self.old) }
        ensures same { OnErr result (self.new ≡ self.old) }
        ensures stored { IsCleanCall S.is_clean S.IsSound store.old store.new
            → OnOk result (HasGainedFirst k self.old (S.content store.old) (S.content store.new)) }
        ensures each { IsCleanCall S.is_clean S.IsSound store.old store.new
            → OnOk result ((i : ℕ) (l : LoggedRecord) → slice_get (take k self.old.log) i ≡ Some l
            → IsReceiptAt (S.content store.new).receipts l.receipt.interval l.receipt) }
        ensures free { IsCleanCall S.is_clean S.IsSound store.old store.new
            → OnOk result (IsFree (S.content store.old).receipts (first_logged self.old) (length (take k self.old.log))) }
        ensures present { IsCleanCall S.is_clean S.IsSound store.old store.new → IsErrOf result StoreError.Present
            → IsTaken (S.content store.old).receipts (first_logged self.old) (length (take k self.old.log)) }
        ensures refused { LeavesRefused S.content S.is_clean S.IsSound store.old result store.new }
        ensures used { UsesStore S.failed S.is_clean S.IsSound store.old (IsErrOf result StoreError.Fault) store.new }
    {
        let due = first_of(&self.log, k);
        let Some(oldest) = due.first() else {
            return Ok(());
        };
        let first = oldest.receipt.interval;
        let count = due.len();
        let bytes = spelled(alloc, due)?;
        self.pending.try_reserve(count)?;
        store.put_receipts(alloc, first, &bytes)?;
        move_rows(&mut self.pending, &mut self.log, count);
        Ok(())
    }

    /// Stores a checkpoint of now. Stored, it is a pending row.
    ///
    /// Refused with what the store answers, or with `Memory`. A refusal leaves the process, and the store's content.
    pub fn checkpoint<S: Stable>(&mut self, alloc: Global, store: &mut S) -> Result<(), StoreError>
        ensures core { OnOk result (self.new ≡ checkpointed self.old) }
        ensures same { OnErr result (self.new ≡ self.old) }
        ensures stored { IsCleanCall S.is_clean S.IsSound store.old store.new
            → OnOk result (HasGainedCheckpoint self.old (S.content store.old) (S.content store.new)) }
        ensures free { IsCleanCall S.is_clean S.IsSound store.old store.new
            → OnOk result (get (S.content store.old).checkpoints self.old.now.interval ≡ None) }
        ensures present { IsCleanCall S.is_clean S.IsSound store.old store.new → IsErrOf result StoreError.Present
            → IsSome (get (S.content store.old).checkpoints self.old.now.interval) }
        ensures refused { LeavesRefused S.content S.is_clean S.IsSound store.old result store.new }
        ensures used { UsesStore S.failed S.is_clean S.IsSound store.old (IsErrOf result StoreError.Fault) store.new }
    {
        self.pending.try_reserve(1)?;
        self.store_checkpoint(alloc, store)?;
        let row = self.row();
        self.pending.push_reserved(row);
        Ok(())
    }

    // Puts a checkpoint of now into the store.
    pub(crate) fn store_checkpoint<S: Stable>(
        &self,
        alloc: Global,
        store: &mut S,
    ) -> Result<(), StoreError>
        ensures stored { IsCleanCall S.is_clean S.IsSound store.old store.new
            → OnOk result (HasGainedCheckpoint self.now (S.content store.old) (S.content store.new)) }
        ensures free { IsCleanCall S.is_clean S.IsSound store.old store.new
            → OnOk result (get (S.content store.old).checkpoints self.now.now.interval ≡ None) }
        ensures present { IsCleanCall S.is_clean S.IsSound store.old store.new
            → IsErrOf result StoreError.Present → IsSome (get (S.content store.old).checkpoints self.now.now.interval) }
        ensures refused { LeavesRefused S.content S.is_clean S.IsSound store.old result store.new }
        ensures used { UsesStore S.failed S.is_clean S.IsSound store.old (IsErrOf result StoreError.Fault) store.new }
    {
        let bytes = self.encoded(alloc)?;
        store.put_checkpoint(alloc, self.interval, &bytes)
    }

    // Spells a checkpoint of now, with its row.
    pub(crate) fn spelled_now(&self, alloc: Global) -> Result<Spelled, AllocError>
        ensures { IfOk result (λ s. IsCheckpointOf self.now s) }
    {
        let bytes = self.encoded(alloc)?;
        Ok(Spelled {
            row: self.row(),
            bytes,
        })
    }

    // Returns the row of a checkpoint of now.
    fn row(&self) -> PendingRow
        ensures { result ≡ checkpoint_row self.now }
    {
        PendingRow {
            ckpt: true,
            x: self.interval,
            vec: self.vec,
            got: self.got,
        }
    }

    // Spells the process as a checkpoint of now, from its memory where that lies; of that no page is looked at that was never written.
    fn encoded(&self, alloc: Global) -> Result<Vec<u8>, AllocError>
        ensures { IfOk result (λ bytes. IsSpelledNow self.now bytes.items) }
    {
        let kept = queues_of(alloc, &self.outbox)?;
        let outputs = self.outputs.queue(alloc)?;
        let pages = self.machine.kept_pages(alloc)?;
        let head = Head {
            ext: self.machine.ext(),
            pid: self.pid,
            interval: self.interval,
            count: self.machine.count(),
            pc: self.machine.pc(),
            regs: self.machine.regs(),
            vec: self.vec,
            got: self.got,
            sent: self.sent,
            made: self.made,
        };
        encode_parts(alloc, &head, self.machine.memory(), &pages, &kept, &outputs)
    }
}

// Returns the first `k` receipts of a log, or all where it is shorter.
pub(crate) fn first_of(log: &[Logged], k: usize) -> &[Logged]
    ensures { result.now ≡ take k log.now }
{
    match log.get(..k) {
        Some(first) => first,
        None => log,
    }
}

// Returns the bytes of each receipt of the log.
pub(crate) fn spelled(alloc: Global, log: &[Logged]) -> Result<Vec<Vec<u8>>, AllocError>
    ensures { IfOk result (λ recs. SpellLog (map logged_record log.now) (bytes_of recs.items)) }
{
    let mut recs = Vec::with_capacity(alloc, log.len())?;
    for logged in log {
        recs.push(encode_receipt(alloc, &logged.receipt)?)?;
    }
    Ok(recs)
}

// Makes the first k receipts of the log, all where it is shorter, rows, for which there is room.
pub(crate) fn move_rows(rows: &mut Vec<PendingRow>, log: &mut Vec<Logged>, k: usize)
    requires { vec_len rows.old + k ≤ vec_capacity rows.old }
    ensures rows { rows.new.items ≡ rows.old.items ++ map log_row (take k (map logged_record log.old.items)) }
    ensures log { map logged_record log.new.items ≡ drop k (map logged_record log.old.items) }
{
    let stored = first_of(log, k);
    add_rows(rows, stored);
    let count = stored.len();
    log.drain(..count);
}

// Adds the rows of a log, for which there is room.
fn add_rows(rows: &mut Vec<PendingRow>, log: &[Logged])
    requires { vec_len rows.old + length log.now ≤ vec_capacity rows.old }
    ensures { rows.new.items ≡ rows.old.items ++ map log_row (map logged_record log.now) }
{
    for logged in log {
        rows.push_reserved(PendingRow {
            ckpt: false,
            x: logged.receipt.interval,
            vec: logged.vec,
            got: logged.got,
        });
    }
}

// Returns the messages as queues of a checkpoint.
fn queues_of(alloc: Global, outbox: &Vec<Messages>) -> Result<Vec<Queue>, AllocError>
    ensures { IfOk result (λ queues. map queue_record queues.items ≡ outbox.now.items) }
{
    let mut queues = Vec::with_capacity(alloc, outbox.len())?;
    for messages in outbox.iter() {
        queues.push(messages.queue(alloc)?)?;
    }
    Ok(queues)
}
