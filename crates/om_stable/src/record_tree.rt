//! Records by interval.

ghost use Rattle.std.specs.Prelude.{◌≡◌, ℕ, ◌+◌, ◌<◌, ◌≤◌, length, nat_le, Some, None, IsSome, is_some, IfOk, IfSome, IfNone, OnOk, OnErr};
ghost use Rattle.std.specs.Bool.{OnTrue, OnFalse};
ghost use Rattle.std.specs.FinMap as map;
ghost use Rattle.om_stable.specs.Content.{Records, IsFree, IsTaken, IsEffective, with_all, between, bytes_of, rows_of};

use crate::stable::INTERVALS;
use std::alloc::{AllocError, Global};
use std::collections::BTreeMap;
use std::marker::Model;
use std::ops::Bound;

// Records of one kind, by interval.
#[derive(Debug, Drop)]
pub(crate) struct RecordTree {
    tree: BTreeMap<u32, Vec<u8>>,
}

impl Model for RecordTree {
    ghost use Rattle.std.specs.FinMap as map;
    ghost use Rattle.std.specs.Coded.{coded_ℕ, coded_list};
    ghost use Rattle.om_stable.specs.Content.{Records, rows_of};

    ghost Value = { Records };

    ghost coded = { map.code coded_ℕ (coded_list coded_ℕ) };

    ghost view = { λ t. map.from_entries (rows_of t.tree.entries) };
}

impl RecordTree {
    pub(crate) fn new(alloc: Global) -> Self
        ensures { result ≡ map.empty }
    {
        RecordTree {
            tree: BTreeMap::new(alloc),
        }
    }

    // Puts a copy of the bytes at `x`.
    pub(crate) fn insert(&mut self, alloc: Global, x: u32, bytes: &[u8]) -> Result<(), AllocError>
        ensures ok { OnOk result (self.new ≡ map.insert self.old x bytes.now) }
        ensures err { OnErr result (self.new ≡ self.old) }
    {
        self.tree.insert(x, Vec::from_slice(alloc, bytes)?)?;
        Ok(())
    }

    pub(crate) fn remove(&mut self, x: u32)
        ensures { self.new ≡ map.remove self.old x }
    {
        let _ = self.tree.remove(&x);
    }

    // Returns whether `x` has a record.
    pub(crate) fn has(&self, x: u32) -> bool
        ensures { result ≡ is_some (map.get self.now x) }
    {
        self.tree.contains_key(&x)
    }

    // Returns whether one of the `count` intervals from `first` on has a record.
    pub(crate) fn has_any(&self, first: u32, count: usize) -> bool
        requires { first + count ≤ INTERVALS }
        ensures taken { OnTrue result (IsTaken self.now first count) }
        ensures free { OnFalse result (IsFree self.now first count) }
    {
        if count == 0 {
            return false;
        }
        let last = (u64::from(first) + (count as u64 - 1)) as u32;
        self.tree.range(first..=last).next().is_some()
    }

    // Puts copies of the bytes at `first`, `first + 1`, .., all of them or none.
    pub(crate) fn insert_all(
        &mut self,
        alloc: Global,
        first: u32,
        recs: &[Vec<u8>],
    ) -> Result<(), AllocError>
        requires range { first + length recs.now ≤ INTERVALS }
        requires free { IsFree self.old first (length recs.now) }
        ensures ok { OnOk result (self.new ≡ with_all self.old first (bytes_of recs.now)) }
        ensures err { OnErr result (self.new ≡ self.old) }
    {
        for (k, bytes) in recs.iter().enumerate() {
            let x = (u64::from(first) + k as u64) as u32;
            if let Err(error) = self.insert(alloc, x, bytes) {
                // What was put so far goes again, so the tree is as it was.
                self.remove_run(first, k);
                return Err(error);
            }
        }
        Ok(())
    }

    // Removes the records at the `count` intervals from `first` on.
    pub(crate) fn remove_run(&mut self, first: u32, count: usize)
        requires { first + count ≤ INTERVALS }
        ensures gone { IsFree self.new first count }
        ensures below { (q : ℕ) → q < first → map.get self.new q ≡ map.get self.old q }
        ensures above { (q : ℕ) → first + count ≤ q → map.get self.new q ≡ map.get self.old q }
    {
        for k in 0..count {
            self.remove((u64::from(first) + k as u64) as u32);
        }
    }

    // Returns the greatest record at or below `x`.
    pub(crate) fn effective(
        &self,
        alloc: Global,
        x: u32,
    ) -> Result<Option<(u32, Vec<u8>)>, AllocError>
        ensures effective { IfOk result (λ found. IfSome found (λ e. IsEffective self.now x e.0)) }
        ensures bytes { IfOk result (λ found. IfSome found (λ e.
            map.get self.now e.0 ≡ Some e.1.items)) }
        ensures none { IfOk result (λ found. IfNone found (IsFree self.now 0 (x + 1))) }
    {
        let Some((c, bytes)) = self.tree.range(..=x).next_back() else {
            return Ok(None);
        };
        Ok(Some((*c, Vec::from_slice(alloc, bytes)?)))
    }

    // Returns the records above `after` and at or below `to`, ascending.
    pub(crate) fn between(
        &self,
        alloc: Global,
        after: u32,
        to: u32,
    ) -> Result<Vec<(u32, Vec<u8>)>, AllocError>
        ensures { IfOk result (λ found. rows_of found.items ≡ between self.now after to) }
    {
        let mut found = Vec::new(alloc);
        if to < after {
            return Ok(found);
        }
        let ends = (Bound::Excluded(after), Bound::Included(to));
        for (x, bytes) in self.tree.range(ends) {
            found.push((*x, Vec::from_slice(alloc, bytes)?))?;
        }
        Ok(found)
    }

    // Removes the records above `r`.
    pub(crate) fn keep_up_to(&mut self, r: u32)
        ensures { self.new ≡ map.retain_keys self.old (λ x. nat_le x r) }
    {
        while let Some(x) = self.greatest() {
            if x <= r {
                break;
            }
            self.remove(x);
        }
    }

    // Removes the records below `least`.
    pub(crate) fn keep_from(&mut self, least: u64)
        ensures { self.new ≡ map.retain_keys self.old (λ x. nat_le least x) }
    {
        while let Some(x) = self.least() {
            if u64::from(x) >= least {
                break;
            }
            self.remove(x);
        }
    }

    // Returns the greatest interval that has a record.
    fn greatest(&self) -> Option<u32>
        ensures has { IfSome result (λ x. IsSome (map.get self.now x)) }
        ensures greatest { IfSome result (λ x. (y : ℕ) → x < y → map.get self.now y ≡ None) }
        ensures none { IfNone result ((y : ℕ) → map.get self.now y ≡ None) }
    {
        let (x, _) = self.tree.last_key_value()?;
        Some(*x)
    }

    // Returns the least interval that has a record.
    fn least(&self) -> Option<u32>
        ensures has { IfSome result (λ x. IsSome (map.get self.now x)) }
        ensures least { IfSome result (λ x. (y : ℕ) → y < x → map.get self.now y ≡ None) }
        ensures none { IfNone result ((y : ℕ) → map.get self.now y ≡ None) }
    {
        let (x, _) = self.tree.first_key_value()?;
        Some(*x)
    }
}
