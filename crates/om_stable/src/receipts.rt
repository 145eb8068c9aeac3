//! The receipts of a store in memory: in a run, or in a tree.

ghost use Rattle.std.specs.Prelude.{◌≡◌, ◌+◌, ◌≤◌, length, nat_le, IfOk, OnOk, OnErr};
ghost use Rattle.std.specs.Bool.{OnTrue, OnFalse};
ghost use Rattle.std.specs.FinMap as map;
ghost use Rattle.om_stable.specs.Content.{IsFree, IsTaken, with_all, between, bytes_of, rows_of};

use crate::record_run::RecordRun;
use crate::record_tree::RecordTree;
use crate::stable::INTERVALS;
use std::alloc::{AllocError, Global};
use std::marker::Model;

// The receipts of a store. They come in order, one behind the other, and stand in a run; from the first that does not come
// so, all of them stand in a tree.
#[derive(Debug, Drop)]
pub(crate) struct Receipts {
    in_line: bool,
    run: RecordRun,
    tree: RecordTree,
}

impl Model for Receipts {
    ghost use Rattle.std.specs.Prelude.{cond};
    ghost use Rattle.std.specs.FinMap as map;
    ghost use Rattle.std.specs.Coded.{coded_ℕ, coded_list};
    ghost use Rattle.om_stable.specs.Content.{Records};

    ghost Value = { Records };

    ghost coded = { map.code coded_ℕ (coded_list coded_ℕ) };

    ghost view = { λ r. cond r.in_line r.run r.tree };
}

impl Receipts {
    pub(crate) fn new(alloc: Global) -> Self
        ensures { result ≡ map.empty }
    {
        Receipts {
            in_line: true,
            run: RecordRun::new(alloc),
            tree: RecordTree::new(alloc),
        }
    }

    // Returns whether one of the `count` intervals from `first` on has a record.
    pub(crate) fn has_any(&self, first: u32, count: usize) -> bool
        requires { first + count ≤ INTERVALS }
        ensures taken { OnTrue result (IsTaken self.now first count) }
        ensures free { OnFalse result (IsFree self.now first count) }
    {
        if self.in_line {
            self.run.has_any(first, count)
        } else {
            self.tree.has_any(first, count)
        }
    }

    // Puts copies of the bytes at `first`, `first + 1`, .., all of them or none.
    pub(crate) fn insert_all(
        &mut self,
        alloc: Global,
        first: u32,
        recs: &[Vec<u8>],
    ) -> Result<(), AllocError>
        requires range { first + length recs.now ≤ INTERVALS }
        requires free { IsFree self.old first (length recs.now) }
        ensures ok { OnOk result (self.new ≡ with_all self.old first (bytes_of recs.now)) }
        ensures err { OnErr result (self.new ≡ self.old) }
    {
        if !self.in_line {
            return self.tree.insert_all(alloc, first, recs);
        }
        if self.run.append(first, recs)? {
            return Ok(());
        }
        let mut tree = self.run.to_tree(alloc)?;
        tree.insert_all(alloc, first, recs)?;
        self.in_line = false;
        self.tree = tree;
        self.run = RecordRun::new(alloc);
        Ok(())
    }

    // Returns the records above `after` and at or below `to`, ascending.
    pub(crate) fn between(
        &self,
        alloc: Global,
        after: u32,
        to: u32,
    ) -> Result<Vec<(u32, Vec<u8>)>, AllocError>
        ensures { IfOk result (λ found. rows_of found.items ≡ between self.now after to) }
    {
        if self.in_line {
            self.run.between(alloc, after, to)
        } else {
            self.tree.between(alloc, after, to)
        }
    }

    // Removes the records above `r`.
    pub(crate) fn keep_up_to(&mut self, r: u32)
        ensures { self.new ≡ map.retain_keys self.old (λ x. nat_le x r) }
    {
        if self.in_line {
            self.run.keep_up_to(r);
        } else {
            self.tree.keep_up_to(r);
        }
    }

    // Removes the records below `least`.
    pub(crate) fn keep_from(&mut self, least: u64)
        ensures { self.new ≡ map.retain_keys self.old (λ x. nat_le least x) }
    {
        if self.in_line {
            self.run.keep_from(least);
        } else {
            self.tree.keep_from(least);
        }
    }
}
