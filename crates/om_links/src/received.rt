//! What each process has received, for those that send to it, what these have put for it, and whether it takes nothing any more.

use om_interval::{DepVec, Pid};
use std::alloc::{AllocError, Global};
use std::sync::atomic::Ordering::SeqCst;
use std::sync::atomic::{AtomicBool, AtomicU32};

/// By sender, how many of its messages one process has received, as it stands. Its worker tells, and those of the senders ask: a
/// message below is refused as one that was received before, so a resend may leave it out. By sender too, how many messages were put
/// into its inbox. And whether the process takes no message any more, whatever fails: then none to it need be kept.
#[derive(Drop)]
pub struct Received {
    counts: Vec<AtomicU32>,
    // By sender, modulo 2^32.
    posted: Vec<AtomicU32>,
    is_over: AtomicBool,
}

// Makes counts of nothing, of so many senders.
fn no_counts(alloc: Global, n: usize) -> Result<Vec<AtomicU32>, AllocError> {
    let mut counts = Vec::with_capacity(alloc, n)?;
    for _ in 0..n {
        counts.push(AtomicU32::new(0))?;
    }
    Ok(counts)
}

impl Received {
    /// Makes the counts of a process at its start, among `n`.
    pub fn new(alloc: Global, n: usize) -> Result<Received, AllocError> {
        let counts = no_counts(alloc, n)?;
        let posted = no_counts(alloc, n)?;
        Ok(Received {
            counts,
            posted,
            is_over: AtomicBool::new(false),
        })
    }

    // Tells that a sender has put one message more. Each tells of its own.
    pub(crate) fn post(&self, from: usize) {
        if let Some(posted) = self.posted.get(from) {
            posted.fetch_add(1, SeqCst);
        }
    }

    // Returns whether a sender has told of so many messages that it put, modulo 2^32.
    pub(crate) fn is_posted(&self, from: usize, count: u32) -> bool {
        match self.posted.get(from) {
            Some(posted) => posted.load(SeqCst) == count,
            None => false,
        }
    }

    // Tells that so many of a sender's messages were received.
    pub(crate) fn tell(&self, from: Pid, count: u32) {
        if let Some(told) = self.counts.get(from.index()) {
            told.store(count, SeqCst);
        }
    }

    // Tells that the process stands where it has received so many of each.
    pub(crate) fn tell_all(&self, got: &DepVec) {
        for (told, count) in self.counts.iter().zip(got.as_slice()) {
            told.store(*count, SeqCst);
        }
    }

    // Tells that the process takes no message any more, whatever fails.
    pub(crate) fn end(&self) {
        self.is_over.store(true, SeqCst);
    }

    // Returns whether the process has told so.
    pub(crate) fn is_over(&self) -> bool {
        self.is_over.load(SeqCst)
    }

    // Returns how many of a sender's messages were received.
    pub(crate) fn from(&self, from: Pid) -> u32 {
        match self.counts.get(from.index()) {
            Some(told) => told.load(SeqCst),
            None => 0,
        }
    }
}
