//! What a store is given beside its records, for a run that takes it up after a crash of the whole program.

ghost use Rattle.std.specs.Prelude.{◌≡◌, ◌+◌, ◌≤◌, [], IfOk, length};
ghost use Rattle.om_stable.specs.declared.ledger.TheConstants.{LEDGER_NUMBERS};

use crate::worker_fault::WorkerFault;
use om_interval::Bounds;
use om_stable::{LEDGER_NUMBERS, LedgerRows};
use std::alloc::Global;

/// Says what need not be kept any longer: by a process what is below the bounds, and by its store what stands before the checkpoint.
#[derive(Clone, Copy)]
pub struct Limits {
    pub bounds: Bounds,
    /// The interval of the checkpoint.
    pub checkpoint: u32,
}

/// Holds rows for a further table of a store, from a number on. The table has room for them.
#[derive(Drop)]
pub struct NewRows {
    pub first: u64,
    pub recs: Vec<Vec<u8>>,
    ghost room: { first + length recs.items ≤ LEDGER_NUMBERS },
}

impl NewRows {
    // Returns no rows.
    fn none(alloc: Global) -> NewRows
        ensures { result.recs.items ≡ [] }
    {
        NewRows {
            first: 0,
            recs: Vec::new(alloc),
        }
    }

    /// Returns these rows. Refused where the table has not their numbers.
    pub fn of(first: u64, recs: Vec<Vec<u8>>) -> Result<NewRows, WorkerFault>
        ensures { IfOk result (λ rows. (rows.first ≡ first) × (rows.recs ≡ recs)) }
    {
        let room = LEDGER_NUMBERS.saturating_sub(first);
        if first > LEDGER_NUMBERS || recs.len() as u64 > room {
            return Err(WorkerFault::Refused);
        }
        Ok(NewRows { first, recs })
    }

    // Returns them as a store is given them.
    fn rows(&self) -> LedgerRows<'_>
        ensures room { result.first + length result.recs.now ≤ LEDGER_NUMBERS }
        ensures first { result.first ≡ self.now.first }
        ensures recs { result.recs.now ≡ self.now.recs.items }
    {
        LedgerRows {
            first: self.first,
            recs: &self.recs,
        }
    }
}

/// Holds what is put into a store, beside its records, before it is pruned.
#[derive(Drop)]
pub struct Deposit {
    pub outputs: NewRows,
    pub senders: NewRows,
    /// The number of receipts whose senders are known to the store then.
    pub known: usize,
}

impl Deposit {
    /// Returns a deposit of nothing.
    pub fn none(alloc: Global) -> Deposit
        ensures outputs { result.outputs.recs.items ≡ [] }
        ensures senders { result.senders.recs.items ≡ [] }
        ensures known { result.known ≡ 0 }
    {
        Deposit {
            outputs: NewRows::none(alloc),
            senders: NewRows::none(alloc),
            known: 0,
        }
    }

    /// Returns the outputs, as a store is given them.
    pub fn outputs(&self) -> LedgerRows<'_>
        ensures room { result.first + length result.recs.now ≤ LEDGER_NUMBERS }
        ensures first { result.first ≡ self.now.outputs.first }
        ensures recs { result.recs.now ≡ self.now.outputs.recs.items }
    {
        self.outputs.rows()
    }

    /// Returns the senders of receipts, as a store is given them.
    pub fn senders(&self) -> LedgerRows<'_>
        ensures room { result.first + length result.recs.now ≤ LEDGER_NUMBERS }
        ensures first { result.first ≡ self.now.senders.first }
        ensures recs { result.recs.now ≡ self.now.senders.recs.items }
    {
        self.senders.rows()
    }
}

/// Says what is due to be done in a store, with whatever is stored next.
#[derive(Drop)]
pub struct Due {
    /// The interval of the checkpoint before which nothing is kept any longer.
    pub checkpoint: u32,
    /// What is put there before.
    pub deposit: Deposit,
}
