//! Who learns of outputs that are released, and in which order they are.

use om_board::Bell;
use om_interval::{MAX_PROCESSES, Pid};
use om_manager::Manager;
use std::alloc::{AllocError, Global};
use std::mem;
use std::sync::atomic::AtomicUsize;
use std::sync::atomic::Ordering::SeqCst;
use std::sync::{Mutex, Wait};
use std::time::Duration;

// How long whoever follows sleeps at most, in milliseconds.
const LONGEST_SLEEP: u64 = 1_000;

/// Tells that outputs of a process are released: those whose numbers are lower.
#[derive(Clone, Copy)]
pub struct Release {
    pub process: Pid,
    pub below: usize,
}

// What is known of releases.
#[derive(Drop)]
struct News {
    // By process, how many of its outputs are released.
    known: [usize; MAX_PROCESSES],
    // What was released since it was last asked for, in order.
    releases: Vec<Release>,
}

/// Learns of outputs that are released. Workers tell it while the board's lock is had, so their order is that in which outputs
/// were released.
#[derive(Drop)]
pub struct Herald {
    alloc: Global,
    bell: Bell,
    // How many workers have ended.
    ended: AtomicUsize,
    news: Mutex<News>,
}

impl News {
    // Takes in what the manager has released, and says whether there is any news.
    fn take_in(&mut self, manager: &Manager) -> Result<bool, AllocError> {
        let mut has_news = false;
        for p in 0..manager.recovery().n() {
            let below = manager.released(Pid::at(p)).len();
            if below > self.known[p] {
                let process = Pid::at(p);
                self.releases.push(Release { process, below })?;
                self.known[p] = below;
                has_news = true;
            }
        }
        Ok(has_news)
    }
}

impl Herald {
    /// Makes the herald of a run that is to begin.
    pub fn new(alloc: Global) -> Herald {
        Herald {
            alloc,
            bell: Bell::new(),
            ended: AtomicUsize::new(0),
            news: Mutex::new(News {
                known: [0; MAX_PROCESSES],
                releases: Vec::new(alloc),
            }),
        }
    }

    /// Tells of what the manager has released, under the board's lock.
    pub fn announce<R: Wait>(&self, rt: &R, manager: &Manager) -> Result<(), AllocError> {
        let has_news = self.news.lock(rt).take_in(manager)?;
        if has_news {
            self.bell.ring();
        }
        Ok(())
    }

    /// Counts a worker that has ended.
    pub fn end(&self) {
        self.ended.fetch_add(1, SeqCst);
        self.bell.ring();
    }

    /// Tells whether so many workers have ended.
    pub fn have_ended(&self, n: usize) -> bool {
        self.ended.load(SeqCst) >= n
    }

    /// Takes what was released since it was last asked for, in order.
    pub fn releases<R: Wait>(&self, rt: &R) -> Vec<Release> {
        let mut guard = self.news.lock(rt);
        let news = &mut *guard;
        mem::replace(&mut news.releases, Vec::new(self.alloc))
    }

    /// Sleeps until there is news.
    pub fn sleep<R: Wait>(&self, rt: &R) {
        self.bell.sleep(rt, Duration::from_millis(LONGEST_SLEEP));
    }
}
