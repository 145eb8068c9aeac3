//! What was found in a store that a run may take up.

ghost use Rattle.std.specs.Prelude.{◌<◌, ◌↔◌, IsTrue, length};
ghost use Rattle.om_restart.specs.Beyond.{IsBeyondStart};

use om_process::{Made, PendingRow};

/// What was found in the store of a process that a run may take up.
#[derive(Debug, Drop)]
pub struct Found {
    /// The rows that its records stand for, from the newest checkpoint down.
    pub rows: Vec<PendingRow>,
    /// The outputs of its table, by number, ascending.
    pub outputs: Vec<Made>,
    /// By receipt, from the first on, the place of its sender, as far as they are known without a gap.
    pub senders: Vec<u8>,
    /// The number of receipts whose senders stand in the table.
    pub kept: usize,
    /// Whether it says what it is of.
    pub has_about: bool,
    /// Whether it has a receipt.
    pub has_receipt: bool,
}

impl Found {
    /// Tells whether the store has a checkpoint, from which a process can come back.
    pub fn is_begun(&self) -> bool
        ensures { IsTrue result ↔ (0 < length self.now.rows.items) }
    {
        !self.rows.is_empty()
    }

    /// Tells whether the store holds more than the checkpoint of a process at its start: then all processes had theirs.
    pub fn is_beyond_start(&self) -> bool
        ensures { IsTrue result ↔ IsBeyondStart self.now }
    {
        if self.rows.len() > 1 || self.has_receipt {
            return true;
        }
        self.rows.iter().any(|row| row.x > 0)
            || !self.outputs.is_empty()
            || !self.senders.is_empty()
    }
}
