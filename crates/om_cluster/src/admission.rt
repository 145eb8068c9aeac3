//! How a process is let into a run, and begins there.

ghost use Rattle.std.specs.Prelude.{◌≡◌, ◌≤◌, ◌==◌, filter, IfErr, IfOk, OnOk, is_some, map};
ghost use Rattle.om_process.specs.Images.{program_of};
ghost use Rattle.om_report.specs.Faults.{IsFaultBy};

use crate::ground::Cluster;
use crate::opener::Gate;
use crate::store_maker::StoreMaker;
use crate::told_fault::{load_fault, open_fault};
use om_board::Naming;
use om_interval::Pid;
use om_node::{FlightChannel, Node};
use om_process::Image;
use om_report::RunFault;
use om_tickets::Series;
use std::alloc::{AllocError, Global};
use std::sync::Wait;
use std::thread;

// Asks the gate until it lets the process start.
fn pass_gate<G: Gate>(gate: &G, gate_turns: u64, pid: Pid) -> Result<(), RunFault>
    ensures asked { OnOk result (1 ≤ gate_turns) }
    ensures fault { IfErr result (IsFaultBy pid) }
{
    for _ in 0..gate_turns {
        if gate.may_start(pid) {
            return Ok(());
        }
        thread::yield_now();
    }
    Err(RunFault::GateShut(pid))
}

// Makes a process, over a store of its own.
fn begin<'a, J: Series, R, O: StoreMaker<R>>(
    rt: &R,
    alloc: Global,
    opener: &O,
    image: &'a Image,
    pid: Pid,
    n: usize,
    channel: Option<FlightChannel<J, O::Store>>,
) -> Result<Node<'a, J, O::Store>, RunFault>
    ensures member { IfOk result (λ node. node.member ≡ record { program = program_of image.entry.now; own = pid; n = n }) }
    ensures slow { IfOk result (λ node. node.slow ≡ is_some channel) }
    ensures fault { IfErr result (IsFaultBy pid) }
{
    let store = match opener.make_store(rt, alloc, pid) {
        Ok(store) => store,
        Err(fault) => return Err(open_fault(fault, pid)),
    };
    match Node::start(alloc, image, pid, n, store, channel) {
        Ok(node) => Ok(node),
        Err(fault) => Err(load_fault(fault, pid)),
    }
}

/// Asks the gate until it lets the process start, and returns the intervals at which that is to fail. Refused where the gate never
/// does, or where memory runs out.
pub fn admitted<'a, K: Naming, R: Wait, G: Gate, O: StoreMaker<R>>(
    cluster: &Cluster<'a, K, R, G, O>,
    pid: Pid,
) -> Result<Vec<u32>, RunFault>
    ensures kills { let config = cluster.now.config.now in
        IfOk result (λ own. own.items ≡ map (λ kill. kill.1) (filter (λ kill. kill.0 == pid) config.kills.items)) }
    ensures asked { OnOk result (1 ≤ cluster.now.config.now.gate_turns) }
    ensures fault { IfErr result (IsFaultBy pid) }
{
    let config = cluster.config;
    pass_gate(cluster.gate, config.gate_turns, pid)?;
    match kills_of(cluster.alloc, &config.kills, pid) {
        Ok(kills) => Ok(kills),
        Err(_) => Err(RunFault::Memory),
    }
}

/// Starts a process over a store of its own once the gate lets it, and returns it with the intervals at which it is to fail. Refused where
/// the gate never does, where its store is not made, where it is not started, or where memory runs out.
pub fn admit<'a, K: Naming, J: Series, R: Wait, G: Gate, O: StoreMaker<R>>(
    cluster: &Cluster<'a, K, R, G, O>,
    image: &'a Image,
    pid: Pid,
    n: usize,
    channel: Option<FlightChannel<J, O::Store>>,
) -> Result<(Node<'a, J, O::Store>, Vec<u32>), RunFault>
    ensures kills { let config = cluster.now.config.now in
        IfOk result (λ made. made.1.items ≡ map (λ kill. kill.1) (filter (λ kill. kill.0 == pid) config.kills.items)) }
    ensures member { IfOk result (λ made. made.0.member ≡ record { program = program_of image.entry.now; own = pid; n = n }) }
    ensures slow { IfOk result (λ made. made.0.slow ≡ is_some channel) }
    ensures asked { OnOk result (1 ≤ cluster.now.config.now.gate_turns) }
    ensures fault { IfErr result (IsFaultBy pid) }
{
    let Cluster {
        rt,
        alloc,
        config,
        ..
    } = *cluster;
    pass_gate(cluster.gate, config.gate_turns, pid)?;
    let Ok(kills) = kills_of(alloc, &config.kills, pid) else {
        return Err(RunFault::Memory);
    };
    let node = begin(rt, alloc, cluster.opener, image, pid, n, channel)?;
    Ok((node, kills))
}

// Returns the intervals at which a process is to fail.
fn kills_of(alloc: Global, kills: &[(Pid, u32)], pid: Pid) -> Result<Vec<u32>, AllocError>
    ensures { IfOk result (λ own. own.items ≡ map (λ kill. kill.1) (filter (λ kill. kill.0 == pid) kills.now)) }
{
    kills
        .iter()
        .filter(|kill| kill.0 == pid)
        .map(|kill| kill.1)
        .collect(alloc)
}
