//! Where the process of a worker stands.

ghost use Rattle.std.specs.Prelude.{◌≡◌, ◌<◌};
ghost use Rattle.om_worker_parts.specs.Places.{IsLanded, IsLandedAt, place_after};
ghost use Rattle.om_worker_parts.specs.Sights.{doing_at, sight_at, sight_of};

use om_node::{DownNode, Node};
use om_observers::{Doing, Sight};
use om_process::ProcCore;
use om_stable::Stable;
use om_tickets::Series;

/// Says where the process of a worker stands.
#[derive(Drop)]
pub enum WorkerState<'a, J: Series, S: Stable> {
    /// It runs.
    Up(Node<'a, J, S>),
    /// A gathering is open, which it is to join.
    MustJoin(Node<'a, J, S>),
    /// It joined, and waits for the round to be finished.
    Joined(Node<'a, J, S>),
    /// It failed, which the manager is still to be told.
    Failed(DownNode<'a, J, S>),
    /// It failed, and waits for the round to be finished.
    Down(DownNode<'a, J, S>),
    /// All processes are quiet.
    AllQuiet(Node<'a, J, S>),
}

impl<'a, J: Series, S: Stable> WorkerState<'a, J, S> {
    /// Returns what the process does in this state.
    pub fn doing(&self) -> Doing
        ensures { result ≡ doing_at self.now }
    {
        match self {
            WorkerState::Up(node) | WorkerState::AllQuiet(node) => Doing::Up(node.core().status()),
            WorkerState::MustJoin(_) => Doing::Called,
            WorkerState::Joined(_) => Doing::Joined,
            WorkerState::Failed(_) | WorkerState::Down(_) => Doing::Down,
        }
    }

    /// Returns what is seen of the process there, once this was seen of it before: of one that is down, what it does.
    pub fn sight(&self, before: Sight) -> Sight
        ensures { result ≡ sight_at before self.now }
    {
        let doing = self.doing();
        match self {
            WorkerState::Up(node)
            | WorkerState::MustJoin(node)
            | WorkerState::Joined(node)
            | WorkerState::AllQuiet(node) => { sight_of(node.core(), doing, before) }
            WorkerState::Failed(_) | WorkerState::Down(_) => Sight { doing, ..before },
        }
    }
}

// Returns what is seen of a process that does this, once this was seen of it before.
fn sight_of(core: &ProcCore, doing: Doing, before: Sight) -> Sight
    ensures { result ≡ sight_of doing before core.now }
{
    let machine = core.machine();
    Sight {
        doing,
        interval: core.interval(),
        count: machine.count(),
        pc: machine.pc(),
        ..before
    }
}

/// Says what a turn of a process that runs comes to.
#[derive(Clone, Copy)]
pub enum TurnOutcome {
    /// It goes on.
    Up,
    /// A gathering is open.
    MustJoin,
    /// It fails.
    Failed,
    /// All processes are quiet.
    AllQuiet,
}

impl TurnOutcome {
    /// Returns where the process stands after such a turn.
    #[inline(never)]
    pub fn place_of<'a, J: Series, S: Stable>(self, node: Node<'a, J, S>) -> WorkerState<'a, J, S>
        requires landed { IsLandedAt self node }
        ensures place { result ≡ place_after self node.entry }
        ensures landed { IsLanded result }
    {
        match self {
            TurnOutcome::Up => WorkerState::Up(node),
            TurnOutcome::MustJoin => WorkerState::MustJoin(node),
            TurnOutcome::Failed => WorkerState::Failed(node.fail()),
            TurnOutcome::AllQuiet => WorkerState::AllQuiet(node),
        }
    }
}
