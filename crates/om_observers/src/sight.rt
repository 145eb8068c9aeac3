//! What is seen of a process while its cluster runs.

ghost use Rattle.std.specs.Prelude.{◌≡◌, ◌↔◌, IsTrue, None};
ghost use Rattle.om_observers.specs.Watching.{HasEnded};
ghost use Rattle.om_observers.specs.declared.sight.Doing.TheVariants.{Begins};

use om_board::Front;
use om_process::Status;
use std::fmt;

/// What a process does.
#[derive(Clone, Copy, Debug, PartialEq, Eq)]
pub enum Doing {
    /// It was not started yet.
    Begins,
    /// It is up: it runs, waits for a message, or has come to its end and waits for the others.
    Up(Status),
    /// A round of recovery is open, which it is to join.
    Called,
    /// It has joined a round of recovery, and waits for the others.
    Joined,
    /// It failed, and waits for a round of recovery to be finished.
    Down,
}

impl fmt::Display for Doing {
    fn fmt<W: fmt::Write>(&self, f: &mut fmt::Formatter<W>) -> fmt::Result {
        f.write_str(match self {
            Doing::Begins => "is not started",
            Doing::Up(Status::Ready) => "runs",
            Doing::Up(Status::Waiting) => "waits for a message",
            Doing::Up(Status::Ended(_)) => "has ended",
            Doing::Up(Status::Trapped(_)) => "has trapped",
            Doing::Called => "is to join a round of recovery",
            Doing::Joined => "has joined a round of recovery and waits for the others",
            Doing::Down => "is down and waits for a round of recovery",
        })
    }
}

/// What was seen of a process at the end of its last turn.
#[derive(Clone, Copy, Debug, PartialEq, Eq)]
pub struct Sight {
    pub doing: Doing,
    /// Its interval; of one that is down, the last one that was seen.
    pub interval: u32,
    /// How many instructions it has finished, but for what was rolled back.
    pub count: u64,
    /// Its pc; of one that trapped, where it did.
    pub pc: u32,
    /// How many of its sends were refused, also such as were rolled back: to no process, too long, or with no number left.
    pub refused: u64,
    /// How many messages were put into inboxes for it, each as often as it was.
    pub put: u64,
    /// How many messages were taken from inboxes for it, also such as it had received before.
    pub taken: u64,
    /// What it read last of the manager.
    pub front: Option<Front>,
}

impl Sight {
    /// Makes the sight of a process that was not started yet.
    pub fn new() -> Sight
        ensures begins { result ≡ record { doing = Begins; interval = 0; count = 0; pc = 0; refused = 0; put = 0; taken = 0; front = None } }
    {
        Sight {
            doing: Doing::Begins,
            interval: 0,
            count: 0,
            pc: 0,
            refused: 0,
            put: 0,
            taken: 0,
            front: None,
        }
    }

    /// Returns whether the process has come to its end.
    pub fn has_ended(&self) -> bool
        ensures ended { IsTrue result ↔ HasEnded self.now.doing }
    {
        match self.doing {
            Doing::Up(status) => status.has_ended(),
            _ => false,
        }
    }
}

impl fmt::Display for Sight {
    fn fmt<W: fmt::Write>(&self, f: &mut fmt::Formatter<W>) -> fmt::Result {
        write!(f, "{}, interval {}", self.doing, self.interval)
    }
}
