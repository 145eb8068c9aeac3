//! The marks of a lane, in order, and how many of them are settled.

ghost use Rattle.std.specs.Prelude.{◌≡◌, ◌≤◌, [], is_some, length, max, OnOk, MatchOption};

use om_sheet::{Label, Shown, Spot, Title};
use std::alloc::{AllocError, Global};
use std::slice;

/// What happened on a lane, kept or cut later.
#[derive(Clone, Copy)]
pub struct Mark {
    /// Its place, whose x is 0 before the window.
    pub at: Spot,
    pub interval: u32,
    pub shown: Shown,
    /// How many outputs it handed in, and the label of the first.
    pub fresh: u64,
    pub label: Label,
    pub title: Title,
}

/// The next mark of a lane.
#[derive(Clone, Copy)]
pub struct Next {
    pub mark: Mark,
    /// Whether a recovery state covers it.
    pub covered: bool,
    /// Whether it is stored.
    pub stored: bool,
}

/// The history of a lane.
#[derive(Drop)]
pub struct History {
    /// The interval of the process.
    pub interval: u32,
    /// Whether its program came to its end.
    pub ended: bool,
    /// The last interval up to which all that it received is in its store.
    pub safe: u32,
    /// The highest place of the process in the recovery states so far.
    pub reached: u32,
    pub marks: Vec<Mark>,
    /// So many marks, the first ones, are of no receipt that is in memory only.
    pub firm: usize,
    /// How many marks are known to be kept or cut: the first ones.
    pub settled: usize,
    ghost in_range: { settled ≤ length marks.items },
}

impl History {
    ghost use Rattle.om_picture.specs.Drawing.{held_in, lane_in, new_lane};
    ghost use Rattle.om_picture.specs.Held.{covered_by};
    ghost use Rattle.om_picture.specs.steps.Adding.{Ends, GoesBack, IsMore, Raises, Receives, Stores, TakesCovered, TakesFirst};
    ghost use Rattle.om_picture.specs.Fates.{has_loose, saved};

    pub(crate) fn new(alloc: Global) -> History
        ensures { lane_in result ≡ new_lane }
    {
        History {
            interval: 0,
            ended: false,
            safe: 0,
            reached: 0,
            marks: Vec::new(alloc),
            firm: 0,
            settled: 0,
        }
    }

    /// Adds a mark.
    pub(crate) fn add(&mut self, mark: &Mark) -> Result<(), AllocError>
        ensures { OnOk result (IsMore mark.now (lane_in self.old) (lane_in self.new)) }
    {
        self.marks.extend_from_slice(slice::from_ref(mark))
    }

    /// Takes the first mark that is not settled, if there is one.
    pub(crate) fn next(&mut self) -> Option<Next>
        ensures { MatchOption result (((lane_in self.old).waiting ≡ []) × (lane_in self.new ≡ lane_in self.old))
            (λ next. TakesFirst next (lane_in self.old) (lane_in self.new)) }
    {
        if self.settled >= self.marks.len() {
            return None;
        }
        let mark = self.marks[self.settled];
        let stored = mark.interval <= self.safe;
        self.settled += 1;
        let covered = mark.interval <= self.reached;
        Some(Next {
            mark,
            covered,
            stored,
        })
    }

    /// Takes the first mark that is not settled, if a recovery state covers it.
    pub(crate) fn next_covered(&mut self) -> Option<Mark>
        ensures { MatchOption result ((lane_in self.new ≡ lane_in self.old)
            × (covered_by (lane_in self.old).reached (held_in (lane_in self.old)) ≡ []))
            (λ mark. TakesCovered mark (lane_in self.old) (lane_in self.new)) }
    {
        if self.settled >= self.marks.len() {
            return None;
        }
        let mark = self.marks[self.settled];
        if mark.interval > self.reached {
            return None;
        }
        self.settled += 1;
        Some(mark)
    }

    /// Notes that the program came to its end, if it did.
    pub(crate) fn end(&mut self, ended: bool)
        ensures { Ends ended (lane_in self.old) (lane_in self.new) }
    {
        self.ended |= ended;
    }

    /// Notes that an interval began, with a receipt.
    pub(crate) fn receive(&mut self, interval: u32)
        ensures { Receives interval (lane_in self.old) (lane_in self.new) }
    {
        self.interval = interval;
    }

    // Returns the place of the first receipt that is in memory only; marks are not looked at again once they are
    // firm.
    fn first_loose(&mut self) -> Option<u32>
        ensures { lane_in self.new ≡ lane_in self.old }
    {
        let firm = self.firm.min(self.marks.len());
        for k in firm..self.marks.len() {
            self.firm = k;
            if self.marks[k].interval > self.safe {
                return Some(self.marks[k].at.x);
            }
        }
        None
    }

    // Returns up to which interval all is stored, once so many receipts more are, or all.
    fn saved(&self, many: Option<usize>) -> u32
        ensures { result ≡ (saved many (lane_in self.now).progress).safe }
    {
        let Some(count) = many else {
            return self.interval;
        };
        let upto = (self.safe as usize).saturating_add(count);
        if upto < self.interval as usize {
            upto as u32
        } else {
            self.interval
        }
    }

    /// Stores so many receipts that were in memory only, the first ones, or all, and returns the place of the first
    /// of them.
    pub(crate) fn store(&mut self, many: Option<usize>) -> Option<u32>
        ensures stores { Stores many (lane_in self.old) (lane_in self.new) }
        ensures loose { is_some result ≡ has_loose (lane_in self.old).progress }
    {
        let is_loose = self.safe < self.interval;
        let first = self.first_loose().unwrap_or(0);
        self.safe = self.saved(many);
        if is_loose { Some(first) } else { None }
    }

    /// Puts the process back into an interval.
    pub(crate) fn go_back(&mut self, interval: u32)
        ensures { GoesBack interval (lane_in self.old) (lane_in self.new) }
    {
        self.ended = false;
        self.interval = interval;
        self.safe = interval;
        self.firm = self.marks.len();
    }

    /// Notes that the process has this place in a recovery state.
    pub(crate) fn reach(&mut self, place: u32)
        ensures { Raises place (lane_in self.old) (lane_in self.new) }
    {
        self.reached = self.reached.max(place);
    }

    /// Returns the place of the first mark that is not settled.
    pub(crate) fn first(&self) -> Option<u32> {
        Some(self.marks.get(self.settled)?.at.x)
    }
}
