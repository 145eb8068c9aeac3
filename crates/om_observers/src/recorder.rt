//! What the threads of a run did, in one order.

ghost use Rattle.std.specs.Prelude.{◌≡◌, []};

use om_board::Bell;
use om_interval::{DepVec, Pid};
use std::alloc::{AllocError, Global};
use std::mem;
use std::sync::atomic::AtomicUsize;
use std::sync::atomic::Ordering::SeqCst;
use std::sync::{Mutex, Wait};
use std::time::Duration;

// Where so many acts wait, whoever takes them is woken.
const PART: usize = 4_096;

// How long whoever takes them sleeps at most, in milliseconds.
const LONGEST_SLEEP: u64 = 1_000;

/// A message on its way, by what tells it from others.
#[derive(Clone, Copy, Debug, PartialEq, Eq)]
pub struct Letter {
    pub from: Pid,
    pub to: Pid,
    /// The incarnation of the sender with which it is tagged.
    pub inc: u32,
    /// Its number among those from this sender to this receiver, from 0.
    pub ssn: u32,
}

/// What one thread did.
#[derive(Clone, Copy, Debug, PartialEq, Eq)]
pub enum Act {
    /// The process finished so many instructions. What it sent stands right behind it.
    Run {
        process: Pid,
        steps: u64,
    },
    /// Each message that the process keeps is sent once more. They stand right behind it.
    Resend {
        process: Pid,
    },
    /// A message is on its way: by receiver and then by number behind a run or a resend.
    Send {
        letter: Letter,
        /// The least number among those to this receiver that the sender keeps. No message with a lower one, of this incarnation,
        /// is told as offered any more.
        kept: u32,
    },
    /// A message was offered to the process, which began this interval with it, or refused it.
    Give {
        letter: Letter,
        interval: Option<u32>,
    },
    /// The process stored its volatile log, and its pending rows are noted.
    Flush {
        process: Pid,
    },
    /// The process stored so many receipts of its volatile log, and its pending rows are noted.
    FlushFirst {
        process: Pid,
        count: usize,
    },
    /// The process spelled a checkpoint, whose row is pending.
    Spell {
        process: Pid,
    },
    /// The process stored a checkpoint, and its pending rows are noted.
    Checkpoint {
        process: Pid,
    },
    /// The process drops what it need not keep.
    Trim {
        process: Pid,
    },
    /// The manager drops what it need not keep.
    Prune,
    /// The process failed as this interval began, which is declared.
    Fail {
        process: Pid,
        interval: u32,
    },
    /// The process stored its volatile log, handed over all that it had, and joined the gathering.
    Join {
        process: Pid,
    },
    /// The round is finished.
    Finish {
        round: u32,
    },
    /// The process is up again, as it was.
    GoOn {
        process: Pid,
    },
    /// The process is up again, rolled back to this interval, in this incarnation.
    Back {
        process: Pid,
        interval: u32,
        inc: u32,
    },
}

/// What threads did, in an order in which it could have happened one after the other: all of it, or the part from one moment to
/// another.
#[derive(Debug, Drop)]
pub struct Record {
    pub acts: Vec<Act>,
    /// The recovery state of each round that is finished in it, in order.
    pub recoveries: Vec<DepVec>,
}

impl Record {
    /// Returns that of no acts.
    pub fn empty(alloc: Global) -> Record
        ensures acts { result.acts.items ≡ [] }
        ensures recoveries { result.recoveries.items ≡ [] }
    {
        Record {
            acts: Vec::new(alloc),
            recoveries: Vec::new(alloc),
        }
    }

    // Adds acts, and says whether enough of them wait by now, and did not before.
    fn add(&mut self, acts: &[Act]) -> Result<bool, AllocError> {
        let before = self.acts.len();
        self.acts.extend_from_slice(acts)?;
        Ok(before < PART && self.acts.len() >= PART)
    }
}

/// Takes in what the threads of one run do, until it is taken.
#[derive(Drop)]
pub struct Recorder {
    alloc: Global,
    bell: Bell,
    // How many workers have ended.
    ended: AtomicUsize,
    // What was not taken yet.
    part: Mutex<Record>,
}

impl Recorder {
    /// Makes one of a run that is to begin.
    pub fn new(alloc: Global) -> Recorder {
        Recorder {
            alloc,
            bell: Bell::new(),
            ended: AtomicUsize::new(0),
            part: Mutex::new(Record::empty(alloc)),
        }
    }

    /// Takes in acts that nothing parts.
    pub fn enter<R: Wait>(&self, rt: &R, acts: &[Act]) -> Result<(), AllocError> {
        let is_part = self.part.lock(rt).add(acts)?;
        if is_part {
            self.bell.ring();
        }
        Ok(())
    }

    /// Takes in that a round is finished with this recovery state.
    pub fn finish<R: Wait>(&self, rt: &R, round: u32, recovery: DepVec) -> Result<(), AllocError> {
        let mut guard = self.part.lock(rt);
        let part = &mut *guard;
        part.recoveries.push(recovery)?;
        part.acts.push(Act::Finish { round })?;
        Ok(())
    }

    /// Counts a worker that has ended.
    pub fn end(&self) {
        self.ended.fetch_add(1, SeqCst);
        self.bell.ring();
    }

    /// Tells whether so many workers have ended.
    pub fn have_ended(&self, n: usize) -> bool {
        self.ended.load(SeqCst) >= n
    }

    /// Takes what came since it was last asked for.
    pub fn take<R: Wait>(&self, rt: &R) -> Record {
        let mut guard = self.part.lock(rt);
        let part = &mut *guard;
        mem::replace(part, Record::empty(self.alloc))
    }

    /// Sleeps until a part waits to be taken, a worker has ended, or a second has gone by.
    pub fn sleep<R: Wait>(&self, rt: &R) {
        self.bell.sleep(rt, Duration::from_millis(LONGEST_SLEEP));
    }
}

/// Takes down what the threads of a run do while they go on.
pub trait Scribe: Drop {
    /// Takes down a part, which follows on the one before.
    fn take_down(&mut self, part: &Record);
}
