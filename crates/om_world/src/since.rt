//! What is kept of the last finished round.

ghost use Rattle.std.specs.Prelude.{◌≡◌, [], cond, false};
ghost use Rattle.om_world.specs.steps.Moves.{since_told};

use crate::event::Refusal;
use crate::remembered::Remembered;
use std::marker::Model;

// What had been received before the last finished round cut it, or at the start nothing; and whether a process has stored since.
#[derive(Drop)]
pub(crate) struct Since {
    pub(crate) before: Remembered,
    pub(crate) stored: bool,
}

impl Model for Since {
    ghost use Rattle.om_world.specs.World.{SinceState};

    ghost Value = { SinceState };

    ghost view = { λ s. record { before = s.before.entries; stored = s.stored } };
}

impl Since {
    // Begins with the start.
    pub(crate) fn new() -> Since
        ensures { result ≡ record { before = []; stored = false } }
    {
        Since {
            before: Remembered::none(),
            stored: false,
        }
    }

    // Begins with a round that cuts these entries.
    pub(crate) fn at(before: Remembered) -> Since
        ensures { result ≡ record { before = before.entries; stored = false } }
    {
        Since {
            before,
            stored: false,
        }
    }

    // Returns whether a process has stored.
    pub(crate) fn has_stored(&self) -> bool
        ensures { result ≡ self.now.stored }
    {
        self.stored
    }

    // Returns what had been received before the round cut it.
    pub(crate) fn before(&self) -> &Remembered
        ensures { result.now.entries ≡ self.now.before }
    {
        &self.before
    }

    // Notes that a store was called, and rows are pending behind it or not: where none is, it holds no more than before.
    pub(crate) fn note_stored(&mut self, told: &Result<(), Refusal>, has_rows: bool)
        ensures { self.new ≡ since_told has_rows told.now self.old }
    {
        if told.is_ok() && has_rows {
            self.stored = true;
        }
    }

    // Notes that a round finishes, and is about to cut what was received.
    pub(crate) fn finish(&mut self, live: &Remembered)
        ensures { self.new ≡ record { before = live.now.entries; stored = false } }
    {
        self.before = Remembered::copy(live);
        self.stored = false;
    }

    // Notes that all starts anew over what was received, or over what had been before the last finished round.
    pub(crate) fn restart(&mut self, live: &Remembered, current: bool)
        ensures { self.new ≡ record { before = cond current live.now.entries self.old.before; stored = false } }
    {
        if current {
            self.finish(live);
        } else {
            self.stored = false;
        }
    }
}
