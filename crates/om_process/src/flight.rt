//! What a process hands over to be stored while it goes on, and what it does once that is stored.

ghost use Rattle.std.specs.Prelude.{◌≡◌, ◌≢◌, ◌<◌, ◌≤◌, ◌+◌, ◌++◌, [], IfOk, OnErr, OnOk, vec_capacity, vec_len};
ghost use Rattle.om_process.specs.Flights.{Carries, CarriesCheckpoint, checkpoint_rows, landed};
ghost use Rattle.om_process.specs.Stores.{first_logged};

use crate::proc_core::ProcCore;
use crate::row::PendingRow;
use crate::storing::{first_of, move_rows, spelled};
use std::alloc::{AllocError, Global};

/// A checkpoint as it is put into a store, with the row that it will have.
#[derive(Debug, Drop)]
pub struct Spelled {
    pub row: PendingRow,
    pub bytes: Vec<u8>,
}

/// What a process handed over to be stored in one transaction.
#[derive(Debug, Drop)]
pub struct Flight {
    /// The interval of the first of the receipts, where there is one.
    pub first: u32,
    /// The receipts, one an interval.
    pub receipts: Vec<Vec<u8>>,
    pub checkpoint: Option<Spelled>,
}

impl ProcCore {
    /// Spells the first `k` receipts of the log, all where it is shorter, and a checkpoint of now where one is due. The process
    /// stays as it is: it goes on while they are stored, and its log grows behind them.
    ///
    /// Refused where memory runs out.
    pub fn hand_over(
        &mut self,
        alloc: Global,
        k: usize,
        is_checkpoint_due: bool,
    ) -> Result<Flight, AllocError>
        ensures carries { IfOk result (λ flight. Carries k is_checkpoint_due self.old flight) }
        ensures same { self.new ≡ self.old }
    {
        let first = self.first_logged();
        let receipts = spelled(alloc, first_of(&self.log, k))?;
        let checkpoint = self.checkpoint_due(alloc, is_checkpoint_due)?;
        // So that a flight that lands asks for no memory.
        self.pending.try_reserve(receipts.len() + 1)?;
        Ok(Flight {
            first,
            receipts,
            checkpoint,
        })
    }

    /// Takes note that a flight has landed. What it carried is stored: its checkpoint is a pending row now, and so are its
    /// receipts, the first of the log.
    ///
    /// Refused where memory runs out, which leaves the process.
    pub fn land(&mut self, flight: &Flight) -> Result<(), AllocError>
        ensures landed { OnOk result (self.new ≡ landed flight.now self.old) }
        ensures refused { OnErr result (self.new ≡ self.old) }
    {
        let count = flight.receipts.len();
        self.pending.try_reserve(count + 1)?;
        push_checkpoint(&mut self.pending, &flight.checkpoint);
        move_rows(&mut self.pending, &mut self.log, count);
        Ok(())
    }

    // Returns the interval of the first receipt of the log, where there is one.
    fn first_logged(&self) -> u32
        ensures { self.now.log ≢ [] → result ≡ first_logged self.now }
    {
        match self.log.first() {
            Some(oldest) => oldest.receipt.interval,
            None => self.interval,
        }
    }

    // Spells a checkpoint of now, where one is due.
    fn checkpoint_due(&self, alloc: Global, is_due: bool) -> Result<Option<Spelled>, AllocError>
        ensures { IfOk result (λ checkpoint. CarriesCheckpoint is_due self.now checkpoint) }
    {
        if is_due {
            Ok(Some(self.spelled_now(alloc)?))
        } else {
            Ok(None)
        }
    }
}

// Adds the row of a checkpoint, where there is one, for which there is room.
fn push_checkpoint(rows: &mut Vec<PendingRow>, checkpoint: &Option<Spelled>)
    requires { vec_len rows.old < vec_capacity rows.old }
    ensures rows { rows.new.items ≡ rows.old.items ++ checkpoint_rows checkpoint.now }
    ensures taken { vec_len rows.new ≤ vec_len rows.old + 1 }
    ensures room { vec_capacity rows.new ≡ vec_capacity rows.old }
{
    if let Some(checkpoint) = checkpoint {
        rows.push_reserved(checkpoint.row);
    }
}
