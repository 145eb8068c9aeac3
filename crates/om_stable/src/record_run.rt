//! Records of intervals without a gap.

ghost use Rattle.std.specs.Prelude.{◌≡◌, ◌+◌, ◌≤◌, length, nat_le, IfOk, OnErr};
ghost use Rattle.std.specs.Bool.{OnTrue, OnFalse};
ghost use Rattle.std.specs.FinMap as map;
ghost use Rattle.om_stable.specs.Content.{IsFree, IsTaken, with_all, between, bytes_of, rows_of};
ghost use Rattle.om_stable.specs.steps.Runs.{AreBelow, rows_from};

use crate::record_list::RecordList;
use crate::record_tree::RecordTree;
use crate::stable::INTERVALS;
use std::alloc::{AllocError, Global};
use std::cmp;
use std::marker::Model;

// Records of intervals without a gap, in a list: the first of them stands at `first`.
#[derive(Debug, Drop)]
pub(crate) struct RecordRun {
    first: u64,
    records: RecordList,
}

impl Model for RecordRun {
    ghost use Rattle.std.specs.Prelude.{◌+◌, ◌≤◌, length};
    ghost use Rattle.std.specs.FinMap as map;
    ghost use Rattle.std.specs.Coded.{coded_ℕ, coded_list};
    ghost use Rattle.om_stable.specs.Content.{Records, with_all};
    ghost use Rattle.om_stable.specs.declared.stable.TheConstants.{INTERVALS};

    ghost Value = { Records };

    ghost coded = { map.code coded_ℕ (coded_list coded_ℕ) };

    ghost view = { λ r. with_all map.empty r.first r.records };

    ghost invariant = { λ r. r.first + length r.records ≤ INTERVALS };
}

impl RecordRun {
    pub(crate) fn new(alloc: Global) -> Self
        ensures { result ≡ map.empty }
    {
        RecordRun {
            first: 0,
            records: RecordList::new(alloc),
        }
    }

    // Returns whether one of the `count` intervals from `first` on has a record.
    pub(crate) fn has_any(&self, first: u32, count: usize) -> bool
        requires { first + count ≤ INTERVALS }
        ensures taken { OnTrue result (IsTaken self.now first count) }
        ensures free { OnFalse result (IsFree self.now first count) }
    {
        let low = cmp::max(u64::from(first), self.first);
        let end = self.first + self.records.len() as u64;
        low < cmp::min(u64::from(first) + count as u64, end)
    }

    // Puts copies of the bytes at `first`, `first + 1`, .., all of them or none. Answers whether it put them: it does where there
    // is none to put, where it has none, and else only right behind the last.
    pub(crate) fn append(&mut self, first: u32, recs: &[Vec<u8>]) -> Result<bool, AllocError>
        requires { first + length recs.now ≤ INTERVALS }
        ensures put { IfOk result (λ put.
            OnTrue put (self.new ≡ with_all self.old first (bytes_of recs.now))) }
        ensures passed { IfOk result (λ put. OnFalse put (self.new ≡ self.old)) }
        ensures err { OnErr result (self.new ≡ self.old) }
    {
        if recs.is_empty() {
            return Ok(true);
        }
        if self.records.len() == 0 {
            self.first = u64::from(first);
        }
        if u64::from(first) != self.first + self.records.len() as u64 {
            return Ok(false);
        }
        self.records.push_all(recs)?;
        Ok(true)
    }

    // Returns a tree with copies of its records.
    pub(crate) fn to_tree(&self, alloc: Global) -> Result<RecordTree, AllocError>
        ensures { IfOk result (λ tree. tree ≡ self.now) }
    {
        let mut tree = RecordTree::new(alloc);
        if self.records.len() > 0 {
            let records = self.records.copies(alloc, 0, self.records.len())?;
            tree.insert_all(alloc, self.first as u32, &records)?;
        }
        Ok(tree)
    }

    // Returns the records above `after` and at or below `to`, ascending.
    pub(crate) fn between(
        &self,
        alloc: Global,
        after: u32,
        to: u32,
    ) -> Result<Vec<(u32, Vec<u8>)>, AllocError>
        ensures { IfOk result (λ found. rows_of found.items ≡ between self.now after to) }
    {
        let len = self.records.len();
        let from = count_below(self.first, len, u64::from(after) + 1);
        let end = count_below(self.first, len, u64::from(to) + 1);
        if end <= from {
            return Ok(Vec::new(alloc));
        }
        let records = self.records.copies(alloc, from, end - from)?;
        numbered(alloc, self.first + from as u64, records)
    }

    // Removes the records above `r`.
    pub(crate) fn keep_up_to(&mut self, r: u32)
        ensures { self.new ≡ map.retain_keys self.old (λ x. nat_le x r) }
    {
        let count = count_below(self.first, self.records.len(), u64::from(r) + 1);
        self.records.keep_front(count);
    }

    // Removes the records below `least`.
    pub(crate) fn keep_from(&mut self, least: u64)
        ensures { self.new ≡ map.retain_keys self.old (λ x. nat_le least x) }
    {
        let count = count_below(self.first, self.records.len(), least);
        self.records.drop_front(count);
        self.first += count as u64;
    }
}

// Returns how many of `len` records from `first` on stand below `bound`.
fn count_below(first: u64, len: usize, bound: u64) -> usize
    ensures { AreBelow first len bound result }
{
    let below = bound.saturating_sub(first);
    if below < len as u64 {
        below as usize
    } else {
        len
    }
}

// Returns records that stand from `first` on, each with its interval.
fn numbered(
    alloc: Global,
    first: u64,
    records: Vec<Vec<u8>>,
) -> Result<Vec<(u32, Vec<u8>)>, AllocError>
    requires { first + length records.items ≤ INTERVALS }
    ensures { IfOk result (λ found. rows_of found.items ≡ rows_from first (bytes_of records.items)) }
{
    let mut found = Vec::new(alloc);
    for (k, bytes) in records.into_iter().enumerate() {
        found.push(((first + k as u64) as u32, bytes))?;
    }
    Ok(found)
}
