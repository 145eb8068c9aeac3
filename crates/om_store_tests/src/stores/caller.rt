ghost use Rattle.std.specs.Prelude.{◌≡◌, ℕ, ◌+◌, ◌≤◌, length, IfOk, IfSome, OnOk, IsErrOf, IsSome};
ghost use Rattle.std.specs.FinMap as map;
ghost use Rattle.om_stable.specs.Calls.{IsCleanCall};
ghost use Rattle.om_stable.specs.Content.{Content, between, bytes_of, rows_of, with_all};
ghost use Rattle.om_stable.specs.Count.{Rose};

use super::{checkpoint_at, receipts_from};
use om_stable::{FuseStable, INTERVALS, MemStable, Stable, StoreError};
use std::alloc::Global;
use std::process::Abort;

// The receipts before, and the checkpoint that is kept.
type Left = (Vec<(u32, Vec<u8>)>, Option<(u32, Vec<u8>)>);

// Puts receipts, and at `x` a checkpoint that takes the place of all that is stored.
fn replace_all<S: Stable>(
    store: &mut S,
    alloc: Global,
    first: u32,
    recs: &[Vec<u8>],
    x: u32,
    bytes: &[u8],
) -> Result<Left, StoreError>
    requires { first + length recs.now ≤ INTERVALS }
    ensures before { IsCleanCall S.is_clean S.IsSound store.old store.new
        → IfOk result (λ left. rows_of left.0.items
        ≡ between (with_all (S.content store.old).receipts first (bytes_of recs.now)) 0 x) }
    ensures kept { IsCleanCall S.is_clean S.IsSound store.old store.new
        → IfOk result (λ left. IsSome left.1) }
    ensures interval { IsCleanCall S.is_clean S.IsSound store.old store.new
        → IfOk result (λ left. IfSome left.1 (λ e. e.0 ≡ x)) }
    ensures bytes { IsCleanCall S.is_clean S.IsSound store.old store.new
        → IfOk result (λ left. IfSome left.1 (λ e. e.1.items ≡ bytes.now)) }
    ensures receipts { IsCleanCall S.is_clean S.IsSound store.old store.new
        → OnOk result ((S.content store.new).receipts ≡ map.empty) }
    ensures checkpoints { IsCleanCall S.is_clean S.IsSound store.old store.new
        → OnOk result ((S.content store.new).checkpoints ≡ map.insert map.empty x bytes.now) }
    ensures fault { IsErrOf result StoreError.Fault
        → Rose (S.failed store.old) (S.failed store.new) }
{
    store.put_receipts(alloc, first, recs)?;
    store.put_checkpoint(alloc, x, bytes)?;
    let before = store.receipts(alloc, 0, x)?;
    store.cut(alloc, x)?;
    store.prune(alloc, x)?;
    let kept = store.effective(alloc, u32::MAX)?;
    Ok((before, kept))
}

// Receipts 1 to 3, then a checkpoint at 2: receipts 1 and 2 stood before, checkpoint 2 is kept.
fn check_at<S: Stable>(rt: &impl Abort, alloc: Global, store: &mut S) -> Result<(), StoreError> {
    let recs = receipts_from(alloc, 1, 3)?;
    assert!(rt; recs.len() == 3);
    let (before, kept) = replace_all(store, alloc, 1, &recs, 2, &checkpoint_at(2))?;
    assert!(rt; before.len() == 2);
    let (x, bytes) = kept.expect(rt, "a checkpoint");
    assert!(rt; x == 2 && bytes.as_slice() == checkpoint_at(2).as_slice());
    Ok(())
}

#[test]
fn replaces_all_at_both_stores(rt: HostRuntime) {
    let mut store = MemStable::new(rt.alloc());
    let told = check_at(&rt, rt.alloc(), &mut store);
    let mut fused = FuseStable::new(MemStable::new(rt.alloc()), u64::MAX);
    let told_fused = check_at(&rt, rt.alloc(), &mut fused);
    assert!(&rt; told.is_ok() && told_fused.is_ok());
    drop(fused);
    drop(store);
}
