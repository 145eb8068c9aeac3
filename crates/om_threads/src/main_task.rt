//! What is done beside the threads of a cluster.

use om_board::Naming;
use om_cluster::Cluster;

// What the thread that starts the others does beside them.
pub(crate) trait MainTask<K: Naming, R>: Drop {
    // What it may have become.
    ghost Becomes: { Self → Self → Type 0 };

    // Runs until the others have ended.
    fn run_beside<G, O>(self, cluster: &Cluster<'_, K, R, G, O>) -> Self
        ensures { Becomes self result };
}

// It waits for them.
#[derive(Drop)]
pub(crate) struct OnlyJoin;

impl<K: Naming, R> MainTask<K, R> for OnlyJoin {
    ghost Becomes = { λ _ _. Unit {0} };

    fn run_beside<G, O>(self, _cluster: &Cluster<'_, K, R, G, O>) -> OnlyJoin {
        self
    }
}
