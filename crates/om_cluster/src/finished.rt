//! What a worker brings back.

use om_board::Naming;
use om_links::Ends;
use om_process::{Status, Witness};
use om_report::Harvest;
use om_stable::Stable;

/// Holds what a worker brings back.
#[derive(Drop)]
pub struct Finished<K: Naming, S: Stable> {
    /// How the process ended.
    pub status: Status,
    /// Its outputs.
    pub harvest: Harvest<K>,
    /// Its store.
    pub store: S,
    /// Its passes.
    pub ends: Ends,
    /// What it did, where that is kept.
    pub witness: Witness,
}
