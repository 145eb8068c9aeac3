//! A scribe that keeps what it takes down.

use om_runner::{Record, Scribe};
use std::alloc::{AllocError, Global};

// Keeps all parts as one.
#[derive(Drop)]
pub struct Keeper {
    pub record: Record,
    // Whether memory ran out for some of it.
    pub has_gaps: bool,
}

impl Keeper {
    // Makes one of a run that is to begin.
    pub fn new(alloc: Global) -> Keeper {
        Keeper {
            record: Record::empty(alloc),
            has_gaps: false,
        }
    }

    fn keep(&mut self, part: &Record) -> Result<(), AllocError> {
        self.record.acts.extend_from_slice(&part.acts)?;
        self.record.recoveries.extend_from_slice(&part.recoveries)
    }
}

impl Scribe for Keeper {
    fn take_down(&mut self, part: &Record) {
        if self.keep(part).is_err() {
            self.has_gaps = true;
        }
    }
}
