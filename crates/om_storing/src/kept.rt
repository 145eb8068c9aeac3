//! How much of what a process did stands in its store, and what is put there of it.

ghost use Rattle.std.specs.Prelude.{◌≡◌, ◌+◌, ◌≤◌, if◌then◌else◌, nat_eq, IfOk, length, max, min};
ghost use Rattle.om_stable.specs.Content.{bytes_of};
ghost use Rattle.om_storing.specs.Keeping.{first_number, kept_from, released_recs, sender_recs};

use om_node::{Deposit, Limits, NewRows, WorkerFault};
use om_process::{Made, ProcCore};
use om_restart::output_record;
use std::alloc::{AllocError, Global};

/// Says how much of what a process did stands in its store beside the records. What stands there is never rolled back.
#[derive(Clone, Copy)]
pub struct Kept {
    /// The number of the output behind those of the table.
    pub outputs: u64,
    /// The number of receipts whose senders stand there.
    pub senders: usize,
}

impl Kept {
    /// Returns what the store has not yet of the outputs that are released, and of the senders of the receipts up to the checkpoint
    /// of the limits. Refused: memory, or a table that has no room for them.
    pub fn deposit(
        &self,
        alloc: Global,
        core: &ProcCore,
        limits: &Limits,
        senders: &[u8],
    ) -> Result<Deposit, WorkerFault>
        ensures outputs { IfOk result (λ d. bytes_of d.outputs.recs.items
            ≡ released_recs (kept_from core.now self.now.outputs) limits.now.bounds.released) }
        ensures numbered { IfOk result (λ d. d.outputs.first ≡ first_number (kept_from core.now self.now.outputs)) }
        ensures senders { IfOk result (λ d. bytes_of d.senders.recs.items
            ≡ sender_recs senders.now self.now.senders (min (length senders.now) limits.now.checkpoint)) }
        ensures behind { IfOk result (λ d. d.senders.first ≡ self.now.senders) }
        ensures known { IfOk result (λ d. d.known ≡ min (length senders.now) limits.now.checkpoint) }
    {
        let outputs = released_rows(
            alloc,
            core.outputs_from(self.outputs),
            limits.bounds.released,
        )?;
        let known = senders.len().min(limits.checkpoint as usize);
        Ok(Deposit {
            outputs,
            senders: sender_rows(alloc, senders, self.senders, known)?,
            known,
        })
    }

    /// Notes that the store has what it was given.
    pub fn add(&mut self, deposit: &Deposit)
        ensures outputs { let rows = deposit.now.outputs in
            self.new.outputs ≡ (if nat_eq (length rows.recs.items) 0 then self.old.outputs else rows.first + length rows.recs.items) }
        ensures senders { self.new.senders ≡ max self.old.senders deposit.now.known }
    {
        if !deposit.outputs.recs.is_empty() {
            self.outputs = deposit
                .outputs
                .first
                .saturating_add(deposit.outputs.recs.len() as u64);
        }
        self.senders = self.senders.max(deposit.known);
    }
}

// Returns the rows of those of the outputs that are released.
fn released_rows(alloc: Global, outputs: &[Made], released: u64) -> Result<NewRows, WorkerFault>
    ensures first { IfOk result (λ rows. rows.first ≡ first_number outputs.now) }
    ensures recs { IfOk result (λ rows. bytes_of rows.recs.items ≡ released_recs outputs.now released) }
{
    let recs = released_records(alloc, outputs, released)?;
    let first = match outputs.first() {
        Some(output) => output.seq,
        None => 0,
    };
    NewRows::of(first, recs)
}

// Returns the records of those of the outputs that are released.
fn released_records(
    alloc: Global,
    outputs: &[Made],
    released: u64,
) -> Result<Vec<Vec<u8>>, AllocError>
    ensures { IfOk result (λ recs. bytes_of recs.items ≡ released_recs outputs.now released) }
{
    let mut recs = Vec::new(alloc);
    for output in outputs {
        if output.seq < released {
            recs.push(output_record(alloc, output)?)?;
        }
    }
    Ok(recs)
}

// Returns the row of the senders from a number of receipts on, up to another.
fn sender_rows(
    alloc: Global,
    senders: &[u8],
    from: usize,
    to: usize,
) -> Result<NewRows, WorkerFault>
    requires { to ≤ length senders.now }
    ensures first { IfOk result (λ rows. rows.first ≡ from) }
    ensures recs { IfOk result (λ rows. bytes_of rows.recs.items ≡ sender_recs senders.now from to) }
{
    let mut recs = Vec::new(alloc);
    if from < to {
        recs.push(Vec::from_slice(alloc, &senders[from..to])?)
            .map_err(AllocError::from)?;
    }
    NewRows::of(from as u64, recs)
}
