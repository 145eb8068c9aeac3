//! Columns: each event that shows something has one, right of those before it.

ghost use Rattle.std.specs.Prelude.{◌≡◌, ◌+◌, ◌-◌, ◌^◌, ◌<◌, ◌≤◌, min};

use crate::measure::digits;
use crate::page::{AGAIN, Page};
use om_sheet::{LabelContent, LaneSegment, Style};
use std::alloc::AllocError;

/// The height of the numbers of lines.
pub(crate) const AXIS: u32 = 54;

/// The most that a column may widen a picture. No words need more.
pub const WIDEST: u32 = 200;

/// The furthest that the left side may be.
pub const MOST_LEFT: u32 = 248;

/// So many columns have room in a picture. A script within its limits has fewer events.
pub const MOST_COLUMNS: usize = 20_000_000;

// The widest half of a column.
pub(crate) const MOST_HALF: u32 = 14;

/// Where the last column stands.
#[derive(Drop)]
pub(crate) struct Columns {
    // Its right side and its middle; the left side of the picture, where there is none.
    pub right: u32,
    pub x: u32,
    ghost there: { 0 < x },
    ghost inside: { x ≤ right },
}

impl Columns {
    /// Makes the columns behind a left side: none yet.
    pub(crate) fn new(left: u32) -> Columns
        requires { 0 < left }
        ensures x { result.x ≡ left }
        ensures right { result.right ≡ left }
    {
        Columns {
            right: left,
            x: left,
        }
    }

    /// Returns the least place of the next column, of this half width.
    pub(crate) fn least(&self, half: u32) -> u32
        ensures { result ≡ min (self.now.right + half) (2 ^ 32 - 1) }
    {
        self.right.saturating_add(half)
    }

    /// Adds the next column, of this half width, at a place or as near to it as may be. Answers where it
    /// stands.
    pub(crate) fn add(&mut self, place: u32, half: u32) -> u32
        requires some { 0 < half }
        requires narrow { half ≤ MOST_HALF }
        ensures x { self.new.x ≡ result }
        ensures there { 0 < result }
        ensures behind { self.old.x ≤ result }
        ensures column { self.old.right + WIDEST < 2 ^ 32 → self.old.x < result }
        ensures inside { result ≤ self.new.right }
        ensures room { self.new.right ≤ self.old.right + WIDEST }
    {
        let most = self.right.saturating_add(WIDEST - MOST_HALF);
        let x = place.max(self.least(half)).min(most);
        self.x = x;
        self.right = x.saturating_add(half);
        x
    }
}

impl Page {
    /// Tells of a column: the number of its line, and the names of the lanes again.
    pub(crate) fn tell_column(
        &mut self,
        x: u32,
        right: u32,
        line: usize,
    ) -> Result<(), AllocError> {
        self.count_shown();
        self.tick(x, line)?;
        self.name_again(right)
    }

    // Tells the number of a line, where there is room.
    fn tick(&mut self, x: u32, line: usize) -> Result<(), AllocError> {
        let half = digits(line as u64).saturating_mul(3);
        if x < self.axis.saturating_add(half) {
            return Ok(());
        }
        self.axis = x.saturating_add(half).saturating_add(8);
        self.say(Style::Middle, x, AXIS, LabelContent::Number(line as u64))?;
        self.sheet.segment.push(LaneSegment::Tick { x })?;
        Ok(())
    }

    // Tells the names of the lanes again, as often as the picture is that wide.
    fn name_again(&mut self, right: u32) -> Result<(), AllocError> {
        if self.again > right {
            return Ok(());
        }
        let times = (right - self.again) / AGAIN + 1;
        for _ in 0..times {
            self.names_at(self.again)?;
            self.again = self.again.saturating_add(AGAIN);
        }
        Ok(())
    }

    fn names_at(&mut self, x: u32) -> Result<(), AllocError> {
        for p in 0..self.lanes.len() {
            let y = self.y(p).saturating_add(32);
            self.say(Style::Grey, x, y, LabelContent::Name(p))?;
        }
        Ok(())
    }
}
