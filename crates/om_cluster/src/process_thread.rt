//! What the thread of a process is to do.

ghost use Rattle.std.specs.Prelude.{◌≡◌, IfOk};
ghost use Rattle.om_process.specs.Images.{program_of};
ghost use Rattle.om_node.specs.Nodes.{HasCleanStores};
ghost use Rattle.om_cluster.specs.Ends.{IsEndOf, IsOwnEnd, IsProgramOf};

use crate::finished::Finished;
use crate::ground::Cluster;
use crate::opener::Gate;
use crate::store_maker::StoreMaker;
use om_board::{Naming, Pass};
use om_links::Links;
use om_node::FlightChannel;
use om_process::Image;
use om_report::RunFault;
use om_stable::Stable;
use om_tickets::Series;
use std::sync::Wait;
use std::time::Clock;

/// Holds what a worker begins with.
#[derive(Drop)]
pub struct Job<'a, K: Naming, J: Series, S: Stable> {
    /// The ends of its process.
    pub links: Links<'a>,
    /// What it has seen of the fronts.
    pub pass: Pass<K>,
    /// Where stores are slow, the way to the thread that writes that of the process.
    pub channel: Option<FlightChannel<J, S>>,
    pub ghost sized: { links.ends.n ≡ K.cell.n },
}

/// Does what the thread of a process does. Who starts the threads of a cluster knows no more of them than this says.
pub trait ProcessThread {
    /// Runs the process to its end, once the gate lets it start. Where it ends with a fault, the others are stopped. Whoever
    /// follows is told of its end. Refused with the fault of the process, or where memory runs out.
    fn run<'a, K: Naming, J: Series, R: Wait + Clock, G: Gate, O: StoreMaker<R>>(
        cluster: &Cluster<'a, K, R, G, O>,
        image: &'a Image,
        job: Job<'a, K, J, O::Store>,
    ) -> Result<Finished<K, O::Store>, RunFault>
        requires program { IsProgramOf K.programs job.links.ends.own image.now }
        requires clean { HasCleanStores K.OverClean O.Store.is_clean }
        ensures end { let l = job.entry.links.ends in
            IfOk result (λ f. IsEndOf O.Store.is_clean (program_of image.entry.now) l.lines l.own l.n f) }
        ensures own { IsOwnEnd cluster.now.config.now job.entry.links.ends.own result };
}
