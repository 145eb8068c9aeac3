//! Receipts that are delivered once more.

ghost use Rattle.std.specs.Prelude.{◌≡◌, ◌+◌, ◌<◌, ◌∷◌, [], List, IfErr, IfNone, IfOk, IfSome, OnOk, false, true, vec_len};
ghost use Rattle.om_format.specs.Receipts.{ReceiptRecord, SpellsReceipt, receipt_record};
ghost use Rattle.om_stable.specs.Content.{rows_of};
ghost use Rattle.om_process.specs.Core.{cluster_size};
ghost use Rattle.om_process.specs.Replays.{Replayed};
ghost use Rattle.om_process.specs.declared.limits.TheConstants.{LAST_INTERVAL};
ghost use Rattle.om_process.specs.steps.Fitting.{MayTake, DoesNotFit};
ghost use Rattle.om_process.specs.steps.Rows.{AreGapless, Ascend, IsFirstGap, RefusesBytes, RefusesRow, RefusesRows, SpellRows};
ghost use Rattle.om_process.specs.steps.Pieces.{ChangesProcessAlone, KeepsClusterSize};

use crate::proc_core::ProcCore;
use crate::replay::{ReplayFault, damaged};
use crate::status::Status;
use om_format::{Receipt, decode_receipt};
use std::alloc::{AllocError, Global};

// Reads the receipt that these bytes spell, which names interval `y`.
fn receipt_at(alloc: Global, y: u32, bytes: &[u8]) -> Result<Receipt, ReplayFault>
    ensures found { IfOk result (λ r. SpellsReceipt (receipt_record r) bytes.now) }
    ensures named { IfOk result (λ r. r.interval ≡ y) }
    ensures refused { IfErr result (λ fault. RefusesBytes y bytes.now fault) }
{
    let receipt = match decode_receipt(alloc, bytes) {
        Ok(receipt) => receipt,
        Err(error) => return Err(damaged(y, error)),
    };
    if receipt.interval == y {
        Ok(receipt)
    } else {
        Err(ReplayFault::Damaged(y))
    }
}

impl ProcCore {
    // Returns whether a receipt is this process's, of a sender that is there and the next of its sender, at a count not yet passed.
    fn may_take(&self, receipt: &Receipt) -> bool
        ensures yes { result ≡ true → MayTake self.now (receipt_record receipt.now) }
        ensures no { result ≡ false → DoesNotFit self.now.own (cluster_size self.now.now) self.now.now (receipt_record receipt.now) }
    {
        if receipt.to != self.pid || receipt.from.index() >= self.vec.n() {
            return false;
        }
        receipt.ssn == self.got.get(receipt.from) && receipt.count >= self.machine.count()
    }

    // Delivers a receipt of the next interval where the process waits at its count, and answers whether it does. Where it does
    // not, turns may have been taken.
    fn again(&mut self, alloc: Global, receipt: &Receipt) -> Result<bool, AllocError>
        requires next { receipt.now.interval ≡ self.old.now.interval + 1 }
        requires room { self.old.now.interval < LAST_INTERVAL }
        requires unlogged { self.old.log ≡ [] }
        ensures fits { IfOk result (λ fits. fits ≡ true
            → Replayed self.old.own (cluster_size self.old.now) self.old.now (receipt_record receipt.now ∷ []) self.new.now) }
        ensures other { IfOk result (λ fits. fits ≡ false
            → DoesNotFit self.old.own (cluster_size self.old.now) self.old.now (receipt_record receipt.now)) }
        ensures rest { ChangesProcessAlone self.old self.new }
        ensures size { KeepsClusterSize self.old self.new }
    {
        if !self.may_take(receipt) {
            return Ok(false);
        }
        let turns = receipt.count - self.machine.count();
        let ran = self.run(alloc, turns)?;
        if ran.steps < turns {
            return Ok(false);
        }
        if ran.status != Status::Waiting {
            return Ok(false);
        }
        self.deliver(
            receipt.from,
            receipt.sender_interval,
            receipt.body.as_slice(),
        );
        Ok(true)
    }

    // Delivers what these bytes say was received at the next interval, `y`.
    fn repeat(&mut self, alloc: Global, y: u32, bytes: &[u8]) -> Result<(), ReplayFault>
        requires next { y ≡ self.old.now.interval + 1 }
        requires unlogged { self.old.log ≡ [] }
        ensures replayed { OnOk result ((r : ReceiptRecord) × SpellsReceipt r bytes.now × (r.interval ≡ y)
            × Replayed self.old.own (cluster_size self.old.now) self.old.now (r ∷ []) self.new.now) }
        ensures refused { IfErr result (λ fault. RefusesRow self.old.own (cluster_size self.old.now) self.old.now (y, bytes.now) fault) }
        ensures rest { ChangesProcessAlone self.old self.new }
        ensures size { KeepsClusterSize self.old self.new }
    {
        let receipt = receipt_at(alloc, y, bytes)?;
        if self.again(alloc, &receipt)? {
            Ok(())
        } else {
            Err(ReplayFault::Mismatch(y))
        }
    }

    // Delivers what these rows say was received, one after another, at the intervals that follow.
    pub(crate) fn repeat_all(
        &mut self,
        alloc: Global,
        found: &Vec<(u32, Vec<u8>)>,
    ) -> Result<(), ReplayFault>
        requires gapless { AreGapless self.old.now.interval (rows_of found.now.items) }
        requires unlogged { self.old.log ≡ [] }
        ensures replayed { OnOk result ((rs : List ReceiptRecord) × SpellRows (rows_of found.now.items) rs
            × Replayed self.old.own (cluster_size self.old.now) self.old.now rs self.new.now) }
        ensures refused { IfErr result (λ fault.
            RefusesRows self.old.own (cluster_size self.old.now) self.old.now (rows_of found.now.items) fault) }
        ensures rest { ChangesProcessAlone self.old self.new }
        ensures size { KeepsClusterSize self.old self.new }
    {
        for (y, bytes) in found {
            self.repeat(alloc, *y, bytes)?;
        }
        Ok(())
    }
}

// Returns the least interval above `after` and at or below `x` that none of these rows is of, where they ascend between the two. A
// store of which nothing is known may find rows of any intervals.
pub(crate) fn missing(after: u32, x: u32, found: &Vec<(u32, Vec<u8>)>) -> Option<u32>
    ensures gapless { IfNone result (AreGapless after (rows_of found.now.items)) }
    ensures all { IfNone result (after + vec_len found.now ≡ x) }
    ensures some { Ascend after x (rows_of found.now.items) → IfSome result (λ y. IsFirstGap after x (rows_of found.now.items) y) }
{
    let mut last = after;
    for (y, _) in found {
        if last == u32::MAX || *y != last + 1 {
            return Some(last.wrapping_add(1));
        }
        last = *y;
    }
    if last == x {
        None
    } else {
        Some(last.wrapping_add(1))
    }
}
