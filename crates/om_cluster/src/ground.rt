//! What the threads of a cluster have in common.

ghost use Rattle.std.specs.Prelude.{◌≡◌, ◌≤◌, IfOk, vec_len};
ghost use Rattle.om_interval.specs.declared.pid.TheConstants.{MAX_PROCESSES};
ghost use Rattle.om_links.specs.Wiring.{IsWired};

use crate::config::Config;
use om_board::{Bell, Blank, Inbox, Naming, Pass, Shared, ring_all};
use om_interval::MAX_PROCESSES;
use om_links::{Ends, Network, Received, connected};
use om_observers::Observers;
use std::alloc::{AllocError, Global};
use std::sync::atomic::Ordering::SeqCst;
use std::sync::atomic::{AtomicBool, AtomicU64};

/// Counts how far the processes have come that look at their stores.
#[derive(Drop)]
pub struct Census {
    /// How many stores are opened. That of process 0 is the first: of two programs over the same stores one is refused there,
    /// before it has touched another.
    pub opened: AtomicU64,
    /// How many processes have looked, and found nothing that is refused.
    pub looked: AtomicU64,
    /// How many of these hold more than a start.
    pub beyond: AtomicU64,
}

impl Census {
    // Makes the census of a run in which nobody has looked.
    pub(crate) fn new() -> Census {
        Census {
            opened: AtomicU64::new(0),
            looked: AtomicU64::new(0),
            beyond: AtomicU64::new(0),
        }
    }
}

/// Holds what the threads of a cluster have in common.
#[derive(Drop)]
pub struct Cluster<'s, K: Naming, R, G, O> {
    pub rt: &'s R,
    pub alloc: Global,
    pub config: &'s Config,
    pub gate: &'s G,
    pub opener: &'s O,
    pub shared: &'s Shared<K>,
    /// Set where one of them ends with a fault.
    pub stop: &'s AtomicBool,
    /// How often processes came up: at their start, and behind each round.
    pub returns: &'s AtomicU64,
    /// How far they have come that look at their stores, where they are taken up.
    pub census: &'s Census,
    /// Who observes the run.
    pub observers: Observers<'s>,
    /// The inboxes, by sender, and there by receiver.
    pub inboxes: &'s [Vec<Inbox>],
    /// By process, what wakes its worker.
    pub bells: &'s [Bell],
    /// By process, what it has received.
    pub received: &'s [Received],
}

/// Holds what the threads of a cluster share, before there are any.
#[derive(Drop)]
pub struct Ground<K: Naming> {
    pub shared: Shared<K>,
    /// The inboxes, by sender, and there by receiver.
    pub inboxes: Vec<Vec<Inbox>>,
    pub bells: Vec<Bell>,
    pub received: Vec<Received>,
    pub stop: AtomicBool,
    pub returns: AtomicU64,
    pub census: Census,
}

/// Makes the ground of as many processes as the cell is for, with the passes of each. Refused where memory runs
/// out.
pub fn ground_of<K: Naming>(
    alloc: Global,
    n: usize,
    blank: Blank,
) -> Result<(Ground<K>, Vec<Ends>, Vec<Pass<K>>), AllocError>
    requires named { blank ≡ K.cell }
    requires size { blank.n ≡ n }
    requires few { n ≤ MAX_PROCESSES }
    ensures wired { IfOk result (λ made. IsWired n made.0.inboxes.items made.1.items) }
    ensures passes { IfOk result (λ made. vec_len made.2 ≡ n) }
{
    let (shared, passes) = Shared::<K>::new(alloc, blank)?;
    let Network { inboxes, ends } = connected(alloc, n)?;
    let ground = Ground {
        shared,
        inboxes,
        bells: bells_of(alloc, n)?,
        received: received_of(alloc, n)?,
        stop: AtomicBool::new(false),
        returns: AtomicU64::new(0),
        census: Census::new(),
    };
    Ok((ground, ends, passes))
}

// Makes a bell for each of so many processes.
fn bells_of(alloc: Global, n: usize) -> Result<Vec<Bell>, AllocError> {
    let mut bells = Vec::with_capacity(alloc, n)?;
    for _ in 0..n {
        bells.push(Bell::new())?;
    }
    Ok(bells)
}

// Returns what each of so many processes has received at its start.
fn received_of(alloc: Global, n: usize) -> Result<Vec<Received>, AllocError> {
    let mut received = Vec::with_capacity(alloc, n)?;
    for _ in 0..n {
        received.push(Received::new(alloc, n)?)?;
    }
    Ok(received)
}

/// Stops all workers.
pub fn stop_all<K: Naming, R, G, O>(cluster: &Cluster<'_, K, R, G, O>) {
    cluster.stop.store(true, SeqCst);
    ring_all(cluster.bells);
}
