//! The rows that the records of a store stand for.

ghost use Rattle.std.specs.Prelude.{◌≡◌, ◌+◌, ◌<◌, ◌++◌, ◌∷◌, ◌↔◌, IsTrue, List, IfErr, IfOk, IfSome, IsErrOf, OnOk, length, slice_index};
ghost use Rattle.std.specs.List.{AllZip};
ghost use Rattle.om_format.specs.Checkpoints.{CheckpointRecord, IsSpelled};
ghost use Rattle.om_format.specs.Receipts.{ReceiptRecord, SpellsReceipt, receipt_record};
ghost use Rattle.om_look.specs.Rows.{AreRowsOf, AreSendersOf, IsSenderOf, FollowOn, IsBase, IsReceiptOf, RefusesRows, RefusesSenders, base_row, next_row, receipts_behind};
ghost use Rattle.om_look.specs.steps.Rowing.{FindsSegment, IsOfStore, RefusesBase, RefusesFollowing, RefusesNext, RefusesOneOf, RefusesReceipt, damage_of};
ghost use Rattle.om_look.specs.steps.Reading.{IsReading};
ghost use Rattle.om_process.specs.declared.limits.TheConstants.{LAST_INTERVAL};
ghost use Rattle.om_process.specs.declared.row.PendingRow.{PendingRow};
ghost use Rattle.om_stable.specs.Calls.{IsCleanCall, UsesStore};
ghost use Rattle.om_stable.specs.Content.{rows_of};
ghost use Rattle.om_look.specs.declared.rows.RowsFault.TheVariants.{Memory};

use crate::fault::{LookFault, fault_of};
use crate::gathering::below;
use crate::reading::{effective_of, receipts_of};
use om_format::{DecodeError, Head, Receipt, decode_checkpoint, decode_receipt};
use om_interval::Pid;
use om_process::{LAST_INTERVAL, PendingRow};
use om_stable::Stable;
use std::alloc::{AllocError, AllocFailed, Global};
use thiserror::Error;

/// Why the records of a store stand for no rows.
#[derive(Clone, Copy, Debug, PartialEq, Eq, Error)]
pub enum RowsFault {
    /// The checkpoint or the receipt of this interval does not decode, names another interval, or is of another process or of
    /// another number of processes.
    #[error("damaged {0}")]
    Damaged(u32),
    /// The receipt of this interval is not the next of its sender.
    #[error("mismatch {0}")]
    Mismatch(u32),
    /// The store failed, and its count of failures rose.
    #[error("the store failed")]
    Fault,
    /// Memory ran out.
    #[error("no memory")]
    Memory,
}

impl From<AllocError> for RowsFault {
    ghost from_gives = { λ _ fault. fault ≡ Memory };

    fn from(_e: AllocError) -> RowsFault {
        RowsFault::Memory
    }
}

impl<T: Drop> From<AllocFailed<T>> for RowsFault {
    ghost from_gives = { λ _ fault. fault ≡ Memory };

    fn from(_e: AllocFailed<T>) -> RowsFault {
        RowsFault::Memory
    }
}

impl From<LookFault> for RowsFault {
    ghost use Rattle.om_look.specs.steps.Rowing.{looked};

    ghost from_gives = { λ e fault. fault ≡ looked e };

    fn from(e: LookFault) -> RowsFault {
        match e {
            LookFault::Fault => RowsFault::Fault,
            LookFault::Memory => RowsFault::Memory,
        }
    }
}

/// Returns the rows that the records of the store of process `own` of `n` stand for, from the newest checkpoint down: of each
/// checkpoint its row, and the row of each receipt that follows on it without a gap, up to the next checkpoint. The store
/// keeps its content.
///
/// Refused with `Damaged` at a record that is none of the process's, with `Mismatch` at a receipt that does not follow on those
/// before it, with `Fault` and `Memory` where they arise.
pub fn stored_rows<S: Stable>(
    alloc: Global,
    store: &mut S,
    own: Pid,
    n: usize,
) -> Result<Vec<PendingRow>, RowsFault>
    ensures rows { IsCleanCall S.is_clean S.IsSound store.old store.new
        → IfOk result (λ rows. AreRowsOf own n (S.content store.old) rows.items) }
    ensures refused { IsCleanCall S.is_clean S.IsSound store.old store.new
        → IfErr result (λ fault. RefusesRows own n (S.content store.old) fault) }
    ensures same { IsCleanCall S.is_clean S.IsSound store.old store.new → S.content store.new ≡ S.content store.old }
    ensures used { UsesStore S.failed S.is_clean S.IsSound store.old (IsErrOf result RowsFault.Fault) store.new }
{
    let mut rows = Vec::new(alloc);
    let mut next = Some(LAST_INTERVAL);
    while let Some(to) = next {
        next = push_segment(alloc, store, own, n, to, &mut rows)?;
    }
    Ok(rows)
}

/// Returns the interval of each receipt in the store of process `own` of `n`, ascending, with its sender. The store keeps its
/// content.
///
/// Refused with `Damaged` at the first receipt that is none, with `Fault` and `Memory` where they arise.
pub fn stored_senders<S: Stable>(
    alloc: Global,
    store: &mut S,
    own: Pid,
    n: usize,
) -> Result<Vec<(u32, Pid)>, RowsFault>
    ensures senders { IsCleanCall S.is_clean S.IsSound store.old store.new
        → IfOk result (λ senders. AreSendersOf own n (S.content store.old) senders.items) }
    ensures refused { IsCleanCall S.is_clean S.IsSound store.old store.new
        → IfErr result (λ fault. RefusesSenders own n (S.content store.old) fault) }
    ensures same { IsCleanCall S.is_clean S.IsSound store.old store.new → S.content store.new ≡ S.content store.old }
    ensures used { UsesStore S.failed S.is_clean S.IsSound store.old (IsErrOf result RowsFault.Fault) store.new }
{
    let found = receipts_of(alloc, store)?;
    senders_in(alloc, own, n, &found)
}

// Returns the senders of these receipts.
fn senders_in(
    alloc: Global,
    own: Pid,
    n: usize,
    found: &[(u32, Vec<u8>)],
) -> Result<Vec<(u32, Pid)>, RowsFault>
    ensures senders { IfOk result (λ senders. AllZip (IsSenderOf own n) (rows_of found.now) senders.items) }
    ensures refused { IfErr result (λ fault. RefusesOneOf own n (rows_of found.now) fault) }
    ensures never_fault { IsErrOf result RowsFault.Fault → ⊥ }
{
    let mut senders = Vec::new(alloc);
    for (y, bytes) in found {
        let receipt = receipt_of(alloc, own, n, *y, bytes)?;
        senders.push((*y, receipt.from))?;
    }
    Ok(senders)
}

// Adds the rows of the effective checkpoint of `to` and of the receipts behind it, and answers the interval before it, if there
// is one.
fn push_segment<S: Stable>(
    alloc: Global,
    store: &mut S,
    own: Pid,
    n: usize,
    to: u32,
    rows: &mut Vec<PendingRow>,
) -> Result<Option<u32>, RowsFault>
    ensures below { IfOk result (λ next. IfSome next (λ y. y < to)) }
    ensures finds { IsCleanCall S.is_clean S.IsSound store.old store.new
        → IfOk result (λ next. FindsSegment own n (S.content store.old) to rows.old.items next rows.new.items) }
    ensures refused { IsCleanCall S.is_clean S.IsSound store.old store.new
        → IfErr result (λ fault. RefusesRows own n (S.content store.old) fault) }
    ensures reads { IsReading S.content S.failed S.is_clean S.IsSound store.old (IsErrOf result RowsFault.Fault) store.new }
{
    let Some((x, bytes)) = effective_of(alloc, store, to)? else {
        return Ok(None);
    };
    let base = base_at(alloc, own, n, x, &bytes)?;
    let found = receipts_up_to(alloc, store, x, to)?;
    push_rows(alloc, own, n, &base, &found, rows)?;
    Ok(below(x, to))
}

// Reads the receipts behind `x`, up to the interval after `to`.
fn receipts_up_to<S: Stable>(
    alloc: Global,
    store: &mut S,
    x: u32,
    to: u32,
) -> Result<Vec<(u32, Vec<u8>)>, RowsFault>
    ensures found { IsCleanCall S.is_clean S.IsSound store.old store.new
        → IfOk result (λ found. rows_of found.items ≡ receipts_behind (S.content store.old) x to) }
    ensures refused { IfErr result (λ fault. IsOfStore fault) }
    ensures reads { IsReading S.content S.failed S.is_clean S.IsSound store.old (IsErrOf result RowsFault.Fault) store.new }
{
    match store.receipts(alloc, x, to.saturating_add(1)) {
        Ok(found) => Ok(found),
        Err(error) => Err(fault_of(error).into()),
    }
}

// Returns the row of the checkpoint of `x` that these bytes spell.
fn base_at(alloc: Global, own: Pid, n: usize, x: u32, bytes: &[u8]) -> Result<PendingRow, RowsFault>
    ensures found { IfOk result (λ row. (c : CheckpointRecord) × IsSpelled c bytes.now × IsBase own n x c × (row ≡ base_row c)) }
    ensures size { IfOk result (λ row. length row.vec ≡ n) }
    ensures got { IfOk result (λ row. length row.got ≡ n) }
    ensures place { OnOk result (own < n) }
    ensures refused { IfErr result (λ fault. RefusesBase own n x bytes.now fault) }
{
    let checkpoint = match decode_checkpoint(alloc, bytes) {
        Ok(checkpoint) => checkpoint,
        Err(error) => return Err(damage(x, error)),
    };
    let head = checkpoint.head;
    if !is_of(&head, own, n, x) {
        return Err(RowsFault::Damaged(x));
    }
    Ok(PendingRow {
        ckpt: true,
        x,
        vec: head.vec,
        got: head.got,
    })
}

// Returns whether it is the head of process `own` of `n` in interval `x`.
fn is_of(head: &Head, own: Pid, n: usize, x: u32) -> bool
    ensures { IsTrue result ↔ ((head.now.pid ≡ own) × (length head.now.vec ≡ n) × (head.now.interval ≡ x)) }
{
    head.pid == own && head.vec.n() == n && head.interval == x
}

// Returns why bytes of interval `x` that were not decoded are refused.
fn damage(x: u32, error: DecodeError) -> RowsFault
    ensures { result ≡ damage_of x error }
{
    match error {
        DecodeError::Memory => RowsFault::Memory,
        _ => RowsFault::Damaged(x),
    }
}

// Adds a row, and those of the records that follow on it without a gap.
fn push_rows(
    alloc: Global,
    own: Pid,
    n: usize,
    base: &PendingRow,
    found: &[(u32, Vec<u8>)],
    rows: &mut Vec<PendingRow>,
) -> Result<(), RowsFault>
    requires own { own < n }
    requires vec { length base.now.vec ≡ n }
    requires got { length base.now.got ≡ n }
    ensures follow { OnOk result ((behind : List PendingRow) × FollowOn own n base.now (rows_of found.now) behind
        × (rows.new.items ≡ rows.old.items ++ base.now ∷ behind)) }
    ensures refused { IfErr result (λ fault. RefusesFollowing own n base.now (rows_of found.now) fault) }
{
    rows.push(*base)?;
    let mut before = *base;
    for (y, bytes) in found {
        if !is_next(before.x, *y) {
            break;
        }
        before = next_at(alloc, own, n, &before, bytes)?;
        rows.push(before)?;
    }
    Ok(())
}

// Returns whether `y` is the interval after `x`.
fn is_next(x: u32, y: u32) -> bool
    ensures { IsTrue result ↔ (y ≡ x + 1) }
{
    x.checked_add(1) == Some(y)
}

// Returns the row of the receipt that these bytes spell, which follows on a row.
fn next_at(
    alloc: Global,
    own: Pid,
    n: usize,
    before: &PendingRow,
    bytes: &[u8],
) -> Result<PendingRow, RowsFault>
    requires own { own < n }
    requires vec { length before.now.vec ≡ n }
    requires got { length before.now.got ≡ n }
    requires room { before.now.x < LAST_INTERVAL }
    ensures next { IfOk result (λ row. (r : ReceiptRecord) × SpellsReceipt r bytes.now × IsReceiptOf own n (before.now.x + 1) r
        × (r.ssn ≡ slice_index before.now.got r.from) × (row ≡ next_row own before.now r)) }
    ensures vec { IfOk result (λ row. length row.vec ≡ n) }
    ensures got { IfOk result (λ row. length row.got ≡ n) }
    ensures refused { IfErr result (λ fault. RefusesNext own n before.now bytes.now fault) }
{
    let x = before.x + 1;
    let receipt = receipt_of(alloc, own, n, x, bytes)?;
    if receipt.ssn != before.got.get(receipt.from) {
        return Err(RowsFault::Mismatch(x));
    }
    let mut row = PendingRow {
        ckpt: false,
        x,
        vec: before.vec,
        got: before.got,
    };
    row.vec.join_tag(receipt.from, receipt.sender_interval);
    row.vec.set(own, x);
    row.got.set(receipt.from, receipt.ssn + 1);
    Ok(row)
}

// Returns the receipt of process `own` of `n` at `x` that these bytes spell.
fn receipt_of(alloc: Global, own: Pid, n: usize, x: u32, bytes: &[u8]) -> Result<Receipt, RowsFault>
    ensures found { IfOk result (λ r. SpellsReceipt (receipt_record r) bytes.now) }
    ensures of { IfOk result (λ r. IsReceiptOf own n x (receipt_record r)) }
    ensures refused { IfErr result (λ fault. RefusesReceipt own n x bytes.now fault) }
{
    let receipt = match decode_receipt(alloc, bytes) {
        Ok(receipt) => receipt,
        Err(error) => return Err(damage(x, error)),
    };
    if receipt.interval == x && receipt.to == own && receipt.from.index() < n {
        Ok(receipt)
    } else {
        Err(RowsFault::Damaged(x))
    }
}
