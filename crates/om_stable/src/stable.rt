//! Stores: a receipt and a checkpoint for each interval, or none.

ghost use Rattle.std.specs.Prelude.{◌≡◌, ◌≢◌, ℕ, ◌+◌, ◌≤◌, Bool, Option, length, IsSome, IfOk, IfSome, IfNone, OnOk, IsErrOf};
ghost use Rattle.std.specs.Result.{result_err};
ghost use Rattle.std.specs.FinMap as map;
ghost use Rattle.om_stable.specs.declared.error.StoreError.{StoreError};
ghost use Rattle.om_stable.specs.Content.{Content, IsFree, IsTaken, IsEffective, with_receipts, with_checkpoint, between, bytes_of, rows_of, kept_by_cut, kept_by_prune};
ghost use Rattle.om_stable.specs.Calls.{IsCall, IsCleanCall, LeavesRefused};

use crate::error::StoreError;
use std::alloc::Global;

/// How many intervals there are: they are numbered from 0 to 4,294,967,295.
pub const INTERVALS: u64 = 4_294_967_296;

/// The last value of a count of failures, where it stays.
pub const LAST_COUNT: u64 = u64::MAX;

/// One process's store: a receipt and a checkpoint for each interval, or none.
///
/// What a call does to the content is known where the store is clean as the call ends and was sound
/// as it began. A store that is not clean never becomes clean again, and a clean one stays sound.
/// A refused call changes no content. The refusals come in no fixed order: `Present`, where a record
/// of that kind is already at an interval to be put, `Fault`, where the count of failures rose, and
/// `Memory`.
pub trait Stable: Drop {
    /// What it holds.
    ghost content: { Self → Content };

    /// How often it has failed.
    ghost failed: { Self → ℕ };

    /// Whether what it holds is known.
    ghost is_clean: { Self → Bool };

    /// What has to be known as a call begins.
    ghost IsSound: { Self → Type 0 };

    /// What else each call promises, by the store before, its error if any, and the store after.
    ghost call_gives: { Self → Option StoreError → Self → Type 0 };

    /// Puts receipts at `first`, `first + 1`, .., all of them or none.
    fn put_receipts(
        &mut self,
        alloc: Global,
        first: u32,
        recs: &[Vec<u8>],
    ) -> Result<(), StoreError>
        requires { first + length recs.now ≤ INTERVALS }
        ensures put { IsCleanCall is_clean IsSound self.old self.new
            → OnOk result (content self.new
            ≡ with_receipts (content self.old) first (bytes_of recs.now)) }
        ensures free { IsCleanCall is_clean IsSound self.old self.new
            → OnOk result (IsFree (content self.old).receipts first (length recs.now)) }
        ensures present { IsCleanCall is_clean IsSound self.old self.new
            → IsErrOf result StoreError.Present
            → IsTaken (content self.old).receipts first (length recs.now) }
        ensures refused { LeavesRefused content is_clean IsSound self.old result self.new }
        ensures call { IsCall failed is_clean IsSound call_gives self.old (result_err result) self.new };

    /// Puts a checkpoint at `x`.
    fn put_checkpoint(&mut self, alloc: Global, x: u32, bytes: &[u8]) -> Result<(), StoreError>
        ensures put { IsCleanCall is_clean IsSound self.old self.new
            → OnOk result (content self.new ≡ with_checkpoint (content self.old) x bytes.now) }
        ensures free { IsCleanCall is_clean IsSound self.old self.new
            → OnOk result (map.get (content self.old).checkpoints x ≡ None) }
        ensures present { IsCleanCall is_clean IsSound self.old self.new
            → IsErrOf result StoreError.Present
            → IsSome (map.get (content self.old).checkpoints x) }
        ensures refused { LeavesRefused content is_clean IsSound self.old result self.new }
        ensures call { IsCall failed is_clean IsSound call_gives self.old (result_err result) self.new };

    /// The effective checkpoint of `x`: the greatest at or below it.
    fn effective(&mut self, alloc: Global, x: u32) -> Result<Option<(u32, Vec<u8>)>, StoreError>
        ensures effective { IsCleanCall is_clean IsSound self.old self.new
            → IfOk result (λ found. IfSome found (λ e.
            IsEffective (content self.old).checkpoints x e.0)) }
        ensures bytes { IsCleanCall is_clean IsSound self.old self.new
            → IfOk result (λ found. IfSome found (λ e.
            map.get (content self.old).checkpoints e.0 ≡ Some e.1.items)) }
        ensures none { IsCleanCall is_clean IsSound self.old self.new
            → IfOk result (λ found. IfNone found
            (IsFree (content self.old).checkpoints 0 (x + 1))) }
        ensures same { IsCleanCall is_clean IsSound self.old self.new
            → content self.new ≡ content self.old }
        ensures never_present { result ≢ Err StoreError.Present }
        ensures call { IsCall failed is_clean IsSound call_gives self.old (result_err result) self.new };

    /// The receipts above `after` and at or below `to`, ascending.
    fn receipts(
        &mut self,
        alloc: Global,
        after: u32,
        to: u32,
    ) -> Result<Vec<(u32, Vec<u8>)>, StoreError>
        ensures found { IsCleanCall is_clean IsSound self.old self.new
            → IfOk result (λ found. rows_of found.items
            ≡ between (content self.old).receipts after to) }
        ensures same { IsCleanCall is_clean IsSound self.old self.new
            → content self.new ≡ content self.old }
        ensures never_present { result ≢ Err StoreError.Present }
        ensures call { IsCall failed is_clean IsSound call_gives self.old (result_err result) self.new };

    /// Removes what stands above `r`.
    fn cut(&mut self, alloc: Global, r: u32) -> Result<(), StoreError>
        ensures cut { IsCleanCall is_clean IsSound self.old self.new
            → OnOk result (content self.new ≡ kept_by_cut (content self.old) r) }
        ensures refused { LeavesRefused content is_clean IsSound self.old result self.new }
        ensures never_present { result ≢ Err StoreError.Present }
        ensures call { IsCall failed is_clean IsSound call_gives self.old (result_err result) self.new };

    /// Removes the checkpoints below `c`, and the receipts at or below it.
    fn prune(&mut self, alloc: Global, c: u32) -> Result<(), StoreError>
        ensures pruned { IsCleanCall is_clean IsSound self.old self.new
            → OnOk result (content self.new ≡ kept_by_prune (content self.old) c) }
        ensures refused { LeavesRefused content is_clean IsSound self.old result self.new }
        ensures never_present { result ≢ Err StoreError.Present }
        ensures call { IsCall failed is_clean IsSound call_gives self.old (result_err result) self.new };

    /// Returns how often it has failed, up to `LAST_COUNT`.
    fn failures(&self) -> u64
        ensures { result ≡ failed self.now };
}
