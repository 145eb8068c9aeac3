//! A bell, which wakes the worker that sleeps by it.

use crossbeam_utils::CachePadded;
use std::sync::Wait;
use std::sync::atomic::AtomicU64;
use std::sync::atomic::Ordering::SeqCst;
use std::thread::yield_now;
use std::time::{Clock, Duration, Instant};

const SILENT: u64 = 0;

const RUNG: u64 = 1;

const ASLEEP: u64 = 2;

// How often a worker yields at most while its bell is silent.
const YIELDS: u32 = 2_048;

// For how many microseconds it goes on with that. So long it sleeps first.
const LONGEST_LOOK: u64 = 1_000;

// A yield that takes more microseconds gave a time slice to another program.
const SLICE: u64 = 500;

/// Tells what came of yielding while a bell was silent.
#[derive(Clone, Copy, PartialEq, Eq)]
pub enum SpinOutcome {
    /// It was rung.
    Rung,
    /// It was silent for as long as that is worth while.
    Silent,
    /// A yield gave a time slice away.
    Slice,
}

/// Wakes the one thread that sleeps by it: a worker, or the thread that started the workers; any thread rings it. Rung while its thread
/// is awake, it ends the next sleep: so a thread that looks before it sleeps misses nothing.
// Each stands on cache lines of its own, since workers that wait look at theirs all the time.
#[derive(Drop)]
pub struct Bell {
    state: CachePadded<AtomicU64>,
    // Which processes have put something for its worker since it asked: a bit for each.
    senders: CachePadded<AtomicU64>,
}

// Returns the bit of a process. There are fewer processes than bits.
fn bit_of(place: usize) -> u64 {
    1 << (place % 64)
}

/// Marks processes.
#[derive(Clone, Copy, Drop)]
pub struct SenderSet {
    bits: u64,
}

impl SenderSet {
    /// Marks no process.
    pub fn none() -> SenderSet {
        SenderSet { bits: 0 }
    }

    /// Tells whether none is marked.
    pub fn is_none(&self) -> bool {
        self.bits == 0
    }

    /// Finds the first that is marked, from a place on and then from the first place on; 64 where none is.
    pub fn first_from(&self, place: usize) -> usize {
        let behind = self.bits & !bit_of(place).wrapping_sub(1);
        let bits = if behind == 0 { self.bits } else { behind };
        bits.trailing_zeros() as usize
    }

    /// Marks a process no longer.
    pub fn remove(&mut self, place: usize) {
        self.bits &= !bit_of(place);
    }

    /// Marks also those that are marked in the other.
    pub fn add(&mut self, other: SenderSet) {
        self.bits |= other.bits;
    }
}

impl Bell {
    /// Makes a silent bell, for which nobody has put anything.
    pub fn new() -> Bell {
        Bell {
            state: CachePadded::new(AtomicU64::new(SILENT)),
            senders: CachePadded::new(AtomicU64::new(0)),
        }
    }

    /// Wakes the bell's worker, for which a process has put something.
    pub fn tell(&self, from: usize) {
        self.senders.fetch_or(bit_of(from), SeqCst);
        self.ring();
    }

    /// Takes who has put something since this was asked last.
    pub fn senders(&self) -> SenderSet {
        if self.senders.load(SeqCst) == 0 {
            return SenderSet::none();
        }
        SenderSet {
            bits: self.senders.swap(0, SeqCst),
        }
    }

    /// Ends the sleep, or the next one.
    pub fn ring(&self) {
        if self.state.swap(RUNG, SeqCst) == ASLEEP {
            self.state.wake_one();
        }
    }

    /// Yields until it is rung, for a while; not where the clock cannot be read. Rung, it is silent again; else the ring is left
    /// to the sleep.
    pub fn look<R: Clock>(&self, rt: &R) -> SpinOutcome {
        let Ok(start) = Instant::now(rt) else {
            return SpinOutcome::Silent;
        };
        let mut before = start;
        for _ in 0..YIELDS {
            if self.is_rung() {
                return SpinOutcome::Rung;
            }
            yield_now();
            let Ok(after) = Instant::now(rt) else {
                break;
            };
            if after.duration_since(before) > Duration::from_micros(SLICE) {
                return SpinOutcome::Slice;
            }
            if after.duration_since(start) > Duration::from_micros(LONGEST_LOOK) {
                break;
            }
            before = after;
        }
        SpinOutcome::Silent
    }

    // Returns whether it was rung. Then it is silent again.
    fn is_rung(&self) -> bool {
        self.state.load(SeqCst) == RUNG
            && self
                .state
                .compare_exchange(RUNG, SILENT, SeqCst, SeqCst)
                .is_ok()
    }

    /// Sleeps until it is rung, for no longer than this, and says whether it was. It may be shorter for no reason.
    pub fn sleep<R: Wait>(&self, rt: &R, duration: Duration) -> bool {
        self.nap(rt, duration, 1)
    }

    /// Sleeps until it is rung, for so many parts at most, and says whether it was.
    pub fn nap<R: Wait>(&self, rt: &R, part: Duration, parts: u32) -> bool {
        let is_silent = self
            .state
            .compare_exchange(SILENT, ASLEEP, SeqCst, SeqCst)
            .is_ok();
        if is_silent {
            for _ in 0..parts {
                self.state.park_timeout(rt, ASLEEP as u32, part);
                if self.state.load(SeqCst) != ASLEEP {
                    break;
                }
            }
        }
        self.state.swap(SILENT, SeqCst) == RUNG
    }
}

/// Rings all bells.
pub fn ring_all(bells: &[Bell]) {
    for bell in bells {
        bell.ring();
    }
}
