//! The frames that were made and not given.

use std::alloc::{AllocError, Global};
use std::collections::VecDeque;

// The messages of a process to another.
#[derive(Drop)]
pub(crate) struct FrameQueue {
    // The frames of those that are still to be given, in order.
    frames: VecDeque<usize>,
    // How many of them the sender kept when it was looked at last.
    kept: usize,
}

// All of them: by sender, and there by receiver.
#[derive(Drop)]
pub(crate) struct FrameQueues {
    rows: Vec<Vec<FrameQueue>>,
    // How many frames were made.
    made: usize,
}

impl FrameQueues {
    // Makes the queues of so many processes, before they run.
    pub(crate) fn new(alloc: Global, n: usize) -> Result<FrameQueues, AllocError> {
        let mut rows = Vec::with_capacity(alloc, n)?;
        for _ in 0..n {
            rows.push(row(alloc, n)?)?;
        }
        Ok(FrameQueues { rows, made: 0 })
    }

    // Takes the next message of the one to the other, if it was sent.
    pub(crate) fn take(&mut self, from: usize, to: usize) -> Option<usize> {
        self.rows.get_mut(from)?.get_mut(to)?.frames.pop_front()
    }

    // Returns whether a message of the one to the other was sent and not taken.
    pub(crate) fn has(&self, from: usize, to: usize) -> bool {
        match self.rows.get(from) {
            Some(row) => match row.get(to) {
                Some(line) => !line.frames.is_empty(),
                None => false,
            },
            None => false,
        }
    }

    // Numbers what the one sent to the other since it was looked at last: it keeps so many messages now.
    pub(crate) fn number(&mut self, from: usize, to: usize, kept: usize) -> Result<(), AllocError> {
        let Some(row) = self.rows.get_mut(from) else {
            return Ok(());
        };
        let Some(line) = row.get_mut(to) else {
            return Ok(());
        };
        for _ in line.kept..kept {
            line.frames.push_back(self.made)?;
            self.made = self.made.saturating_add(1);
        }
        line.kept = kept;
        Ok(())
    }
}

// Makes the queues of no messages of a process to each of so many.
fn row(alloc: Global, n: usize) -> Result<Vec<FrameQueue>, AllocError> {
    let mut row = Vec::with_capacity(alloc, n)?;
    for _ in 0..n {
        row.push(FrameQueue {
            frames: VecDeque::new(alloc),
            kept: 0,
        })?;
    }
    Ok(row)
}
