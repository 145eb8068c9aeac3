//! The receipts of a store, as its rows tell them: so that the records are read once.

ghost use Rattle.std.specs.Prelude.{◌≡◌, ◌<◌, ◌≤◌, ◌↔◌, ℕ, IfNone, IfOk, IfSome, IsErrOf, IsTrue, Some, length};
ghost use Rattle.std.specs.List.{All, Any};
ghost use Rattle.std.specs.List.Sorted.{IsNonDecreasingBy};
ghost use Rattle.om_process.specs.declared.limits.TheConstants.{LAST_INTERVAL};
ghost use Rattle.om_restart.specs.Beyond.{HasStray};
ghost use Rattle.om_restart.specs.declared.finding.FindFault.{FindFault};
ghost use Rattle.om_restart.specs.steps.Receiving.{AreReceivedBy, GoOnBehind, IsFirstChange, IsFrom};
ghost use Rattle.om_stable.specs.Calls.{IsCleanCall, UsesStore, LeavesContent};
ghost use Rattle.om_stable.specs.Content.{between, rows_of};

use crate::finding::FindFault;
use om_format::{DecodeError, decode_receipt};
use om_interval::Pid;
use om_process::{LAST_INTERVAL, PendingRow};
use om_stable::{Stable, StoreError};
use std::alloc::{AllocError, Global};

// Returns the first place at which two lists differ, among those that both have.
fn first_change(old: &[u32], new: &[u32]) -> Option<usize>
    ensures found { IfSome result (λ q. IsFirstChange old.now new.now q) }
    ensures none { IfNone result ((q : ℕ) → IsFirstChange old.now new.now q → ⊥) }
{
    for place in 0..old.len().min(new.len()) {
        if old[place] != new[place] {
            return Some(place);
        }
    }
    None
}

// Returns the place of the sender of the receipt that gave a row, by the row before it: the one of which a message more was
// got. A checkpoint's row is not given by a receipt.
fn sender_of(before: &PendingRow, row: &PendingRow) -> Option<u8>
    ensures told { IfSome result (λ q. IsFrom before.now row.now q) }
    ensures all { (q : ℕ) → IsFrom before.now row.now q → q < 256 → result ≡ Some q }
{
    if row.ckpt {
        return None;
    }
    match first_change(before.got.as_slice(), row.got.as_slice()) {
        Some(place) if place < 256 => Some(place as u8),
        _ => None,
    }
}

// Returns the interval and the sender of each receipt that gave a row, ascending.
pub(crate) fn received_in(alloc: Global, rows: &[PendingRow]) -> Result<Vec<(u32, u8)>, AllocError>
    ensures told { IfOk result (λ received. AreReceivedBy (length rows.now) rows.now received.items) }
    ensures ascending { IfOk result (λ received. IsNonDecreasingBy (λ e. e.0) received.items) }
{
    let mut received = in_order_of(alloc, rows)?;
    received.sort_unstable_by_key(|(interval, _)| *interval);
    Ok(received)
}

// Returns the interval and the sender of each receipt that gave a row, in the order of the rows.
fn in_order_of(alloc: Global, rows: &[PendingRow]) -> Result<Vec<(u32, u8)>, AllocError>
    ensures { IfOk result (λ received. AreReceivedBy (length rows.now) rows.now received.items) }
{
    let mut received = Vec::new(alloc);
    for at in 1..rows.len() {
        let row = &rows[at];
        if let Some(from) = sender_of(&rows[at - 1], row) {
            received.push((row.x, from))?;
        }
    }
    Ok(received)
}

// Adds the senders of the receipts that follow on those without a gap.
pub(crate) fn add_following(senders: &mut Vec<u8>, received: &[(u32, u8)]) -> Result<(), AllocError>
    requires { IsNonDecreasingBy (λ e. e.0) received.now }
    ensures { IfOk result (λ _. GoOnBehind received.now senders.old.items senders.new.items) }
{
    for (interval, from) in received {
        if *interval as usize == senders.len() + 1 {
            senders.push(*from)?;
        }
    }
    Ok(())
}

// Returns whether there are receipts behind the newest row, or any where there is none: they follow on nothing. Each is one of
// process `own` of `n`, else it is `Damaged`.
pub(crate) fn has_strays<S: Stable>(
    alloc: Global,
    store: &mut S,
    own: Pid,
    n: usize,
    rows: &[PendingRow],
) -> Result<bool, FindFault>
    ensures strays { IsCleanCall S.is_clean S.IsSound store.old store.new
        → IfOk result (λ has. IsTrue has ↔ HasStray (S.content store.old) rows.now) }
    ensures same { LeavesContent S.content S.is_clean S.IsSound store.old store.new }
    ensures used { UsesStore S.failed S.is_clean S.IsSound store.old (IsErrOf result FindFault.Fault) store.new }
{
    let strays = receipts_after(alloc, store, newest(rows))?;
    check_all(alloc, own, n, &strays)?;
    Ok(!strays.is_empty())
}

// Returns the newest interval of the rows.
fn newest(rows: &[PendingRow]) -> u32
    ensures highest { All (λ row. row.x ≤ result) rows.now }
    ensures one { 0 < result → Any (λ row. row.x ≡ result) rows.now }
{
    rows.iter().map(|row| row.x).max().unwrap_or(0)
}

// Reads the receipts behind an interval.
fn receipts_after<S: Stable>(
    alloc: Global,
    store: &mut S,
    after: u32,
) -> Result<Vec<(u32, Vec<u8>)>, FindFault>
    ensures found { IsCleanCall S.is_clean S.IsSound store.old store.new
        → IfOk result (λ found. rows_of found.items ≡ between (S.content store.old).receipts after LAST_INTERVAL) }
    ensures same { LeavesContent S.content S.is_clean S.IsSound store.old store.new }
    ensures used { UsesStore S.failed S.is_clean S.IsSound store.old (IsErrOf result FindFault.Fault) store.new }
{
    match store.receipts(alloc, after, LAST_INTERVAL) {
        Ok(found) => Ok(found),
        Err(StoreError::Memory) => Err(FindFault::Memory),
        Err(_) => Err(FindFault::Fault),
    }
}

// Returns whether each of these is a receipt of process `own` of `n`.
fn check_all(
    alloc: Global,
    own: Pid,
    n: usize,
    receipts: &[(u32, Vec<u8>)],
) -> Result<(), FindFault>
    ensures never_fault { IsErrOf result FindFault.Fault → ⊥ }
{
    for (y, bytes) in receipts {
        check(alloc, own, n, *y, bytes)?;
    }
    Ok(())
}

fn check(alloc: Global, own: Pid, n: usize, y: u32, bytes: &[u8]) -> Result<(), FindFault>
    ensures never_fault { IsErrOf result FindFault.Fault → ⊥ }
{
    let receipt = match decode_receipt(alloc, bytes) {
        Ok(receipt) => receipt,
        Err(DecodeError::Memory) => return Err(FindFault::Memory),
        Err(_) => return Err(FindFault::Damaged(y)),
    };
    if receipt.interval == y && receipt.to == own && receipt.from.index() < n {
        Ok(())
    } else {
        Err(FindFault::Damaged(y))
    }
}
