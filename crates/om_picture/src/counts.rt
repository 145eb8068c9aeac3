//! What is counted for the head; `on`: the window is reached.

use crate::history::Mark;
use crate::page::Page;

impl Page {
    /// Counts an event of the window.
    pub(crate) fn count_event(&mut self, on: bool) {
        if on {
            self.counts.events = self.counts.events.saturating_add(1);
        }
    }

    /// Counts an event of the window that showed something.
    pub(crate) fn count_shown(&mut self) {
        self.counts.shown = self.counts.shown.saturating_add(1);
    }

    /// Counts so many outputs that a run made and messages that it sent.
    pub(crate) fn count_run(&mut self, on: bool, made: u64, sent: usize) {
        if on {
            self.counts.made = self.counts.made.saturating_add(made);
            self.counts.sent = self.counts.sent.saturating_add(sent as u64);
        }
    }

    pub(crate) fn count_resend(&mut self, on: bool, sent: usize) {
        if on {
            self.counts.resent = self.counts.resent.saturating_add(sent as u64);
        }
    }

    pub(crate) fn count_receipt(&mut self, on: bool) {
        if on {
            self.counts.taken = self.counts.taken.saturating_add(1);
        }
    }

    /// Counts a message that was refused in the window.
    pub(crate) fn count_refusal(&mut self) {
        self.counts.refused = self.counts.refused.saturating_add(1);
    }

    pub(crate) fn count_failure(&mut self, on: bool) {
        if on {
            self.counts.failures = self.counts.failures.saturating_add(1);
        }
    }

    /// Counts a round that was finished in the window.
    pub(crate) fn count_round(&mut self) {
        self.counts.rounds = self.counts.rounds.saturating_add(1);
    }

    /// Counts the outputs of a mark of the window as released, or cut.
    pub(crate) fn count_fate(&mut self, on: bool, mark: &Mark, cut: bool) {
        if on && mark.at.x != 0 {
            self.add_fate(mark.fresh, cut);
        }
    }

    fn add_fate(&mut self, outputs: u64, cut: bool) {
        if cut {
            self.counts.cut = self.counts.cut.saturating_add(outputs);
        } else {
            self.counts.released = self.counts.released.saturating_add(outputs);
        }
    }
}
