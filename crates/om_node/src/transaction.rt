//! What is stored in one transaction.

ghost use Rattle.std.specs.Prelude.{◌≡◌, ◌+◌, ◌≤◌, length};
ghost use Rattle.om_stable.specs.declared.stable.TheConstants.{INTERVALS};

use crate::keeping::Due;
use om_process::Flight;
use om_stable::Stable;
use std::snapshot::Snapshot;

/// Holds what is stored in one transaction: what a process handed over, and what is due in its store beside.
#[derive(Drop)]
pub struct Transaction {
    pub flight: Flight,
    pub due: Option<Due>,
    ghost fits: { flight.first + length flight.receipts.items ≤ INTERVALS },
}

/// Says what a ticket is for: a store as it went, and what went with it.
#[derive(Drop)]
pub struct SentStore<S: Stable> {
    store: Snapshot<Box<S>>,
    transaction: Snapshot<Transaction>,
}

impl<S: Stable> SentStore<S> {
    /// Returns what is sent, of a store and a transaction as they are now.
    pub fn of(store: &Box<S>, transaction: &Transaction) -> SentStore<S>
        ensures store { result.store.value ≡ store.now }
        ensures transaction { result.transaction.value ≡ transaction.now }
    {
        SentStore {
            store: Snapshot::of(store),
            transaction: Snapshot::of(transaction),
        }
    }
}
