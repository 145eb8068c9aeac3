//! The records of a table of a ledger, by number.

ghost use Rattle.std.specs.Prelude.{◌≡◌, ℕ, ◌+◌, ◌<◌, ◌≤◌, length, IfOk, OnOk, OnErr};
ghost use Rattle.std.specs.Bool.{OnTrue, OnFalse};
ghost use Rattle.std.specs.FinMap as map;
ghost use Rattle.om_stable.specs.Content.{Records, IsFree, IsTaken, with_all, bytes_of, rows_of};

use crate::ledger::LEDGER_NUMBERS;
use std::alloc::{AllocError, Global};
use std::collections::BTreeMap;
use std::marker::Model;

// Records of one table of a ledger, by number.
#[derive(Debug, Drop)]
pub(crate) struct RowTree {
    tree: BTreeMap<u64, Vec<u8>>,
}

impl Model for RowTree {
    ghost use Rattle.std.specs.FinMap as map;
    ghost use Rattle.std.specs.Coded.{coded_ℕ, coded_list};
    ghost use Rattle.om_stable.specs.Content.{Records, rows_of};

    ghost Value = { Records };

    ghost coded = { map.code coded_ℕ (coded_list coded_ℕ) };

    ghost view = { λ t. map.from_entries (rows_of t.tree.entries) };
}

impl RowTree {
    pub(crate) fn new(alloc: Global) -> Self
        ensures { result ≡ map.empty }
    {
        RowTree {
            tree: BTreeMap::new(alloc),
        }
    }

    // Returns whether one of the `count` numbers from `first` on has a record.
    pub(crate) fn has_any(&self, first: u64, count: usize) -> bool
        requires { first + count ≤ LEDGER_NUMBERS }
        ensures taken { OnTrue result (IsTaken self.now first count) }
        ensures free { OnFalse result (IsFree self.now first count) }
    {
        if count == 0 {
            return false;
        }
        let last = first + (count as u64 - 1);
        self.tree.range(first..=last).next().is_some()
    }

    // Puts copies of the bytes at `first`, `first + 1`, .., all of them or none.
    pub(crate) fn insert_all(
        &mut self,
        alloc: Global,
        first: u64,
        recs: &[Vec<u8>],
    ) -> Result<(), AllocError>
        requires range { first + length recs.now ≤ LEDGER_NUMBERS }
        requires free { IsFree self.old first (length recs.now) }
        ensures ok { OnOk result (self.new ≡ with_all self.old first (bytes_of recs.now)) }
        ensures err { OnErr result (self.new ≡ self.old) }
    {
        for (k, bytes) in recs.iter().enumerate() {
            if let Err(error) = self.insert(alloc, first + k as u64, bytes) {
                // What was put so far goes again, so the tree is as it was.
                self.remove_run(first, k);
                return Err(error);
            }
        }
        Ok(())
    }

    // Removes the records at the `count` numbers from `first` on.
    pub(crate) fn remove_run(&mut self, first: u64, count: usize)
        requires { first + count ≤ LEDGER_NUMBERS }
        ensures gone { IsFree self.new first count }
        ensures below { (q : ℕ) → q < first → map.get self.new q ≡ map.get self.old q }
        ensures above { (q : ℕ) → first + count ≤ q → map.get self.new q ≡ map.get self.old q }
    {
        for k in 0..count {
            self.remove(first + k as u64);
        }
    }

    // Returns copies of all records, ascending.
    pub(crate) fn all(&self, alloc: Global) -> Result<Vec<(u64, Vec<u8>)>, AllocError>
        ensures { IfOk result (λ found. rows_of found.items ≡ map.entries self.now) }
    {
        let mut found = Vec::new(alloc);
        for (x, bytes) in self.tree.iter() {
            found.push((*x, Vec::from_slice(alloc, bytes)?))?;
        }
        Ok(found)
    }

    // Puts a copy of the bytes at `x`.
    fn insert(&mut self, alloc: Global, x: u64, bytes: &[u8]) -> Result<(), AllocError>
        ensures ok { OnOk result (self.new ≡ map.insert self.old x bytes.now) }
        ensures err { OnErr result (self.new ≡ self.old) }
    {
        self.tree.insert(x, Vec::from_slice(alloc, bytes)?)?;
        Ok(())
    }

    fn remove(&mut self, x: u64)
        ensures { self.new ≡ map.remove self.old x }
    {
        let _ = self.tree.remove(&x);
    }
}
