//! A lane, and where its next words may stand.

use om_sheet::{LaneSegment, SegmentKind};
use om_world::Answer;
use std::alloc::AllocError;

/// How a process stands.
#[derive(Clone, Copy, Debug, PartialEq, Eq)]
pub enum Stand {
    Up,
    In,
    Down,
}

/// The words that an event puts above, beside and below its lane: how far right of the column's place less 4, and how wide.
#[derive(Clone, Copy)]
pub struct Wanted {
    pub above: Option<Extent>,
    pub beside: Option<Extent>,
    pub below: Option<Extent>,
}

#[derive(Clone, Copy)]
pub struct Extent {
    pub shift: u32,
    pub width: u32,
}

/// No words.
pub const NOTHING: Wanted = Wanted {
    above: None,
    beside: None,
    below: None,
};

#[derive(Clone, Copy)]
pub struct Lane {
    pub number: u32,
    pub stand: Stand,
    pub inc: u32,
    /// Where the stretch begins in which it is up; none once that is drawn.
    pub live: Option<u32>,
    /// Where that ends.
    pub stop: u32,
    /// Where the stretch begins in which it is in or down.
    pub wait: u32,
    /// Where the next word may begin above, beside and below it.
    pub above: u32,
    pub beside: u32,
    pub below: u32,
    /// The last refusal, where that is the last word below.
    pub why: Option<Answer>,
}

// Returns the least place with this room for a word.
fn fitted(x: u32, free: u32, extent: Option<Extent>) -> u32 {
    match extent {
        Some(extent) => x.max(free.saturating_add(4).saturating_sub(extent.shift)),
        None => x,
    }
}

// Returns where the next word may begin.
fn behind(x: u32, free: u32, extent: Option<Extent>) -> u32 {
    match extent {
        Some(extent) => x.saturating_add(extent.shift).saturating_add(extent.width),
        None => free,
    }
}

impl Lane {
    pub fn new(number: u32, left: u32) -> Lane {
        Lane {
            number,
            stand: Stand::Up,
            inc: 0,
            live: Some(left),
            stop: left,
            wait: left,
            above: 0,
            beside: 0,
            below: 0,
            why: None,
        }
    }

    /// Returns the height of the lane.
    pub fn y(&self) -> u32 {
        lane_y(self.number)
    }

    /// Takes room for words, from a place on, and answers where the column stands.
    pub fn take_room(&mut self, x: u32, wanted: Wanted) -> u32 {
        let x = fitted(x, self.above, wanted.above);
        let x = fitted(x, self.beside, wanted.beside);
        let x = fitted(x, self.below, wanted.below);
        self.above = behind(x, self.above, wanted.above);
        self.beside = behind(x, self.beside, wanted.beside);
        self.below = behind(x, self.below, wanted.below);
        if wanted.below.is_some() {
            self.why = None;
        }
        x
    }

    /// Returns how its process is drawn where it is up.
    pub fn up(&self) -> SegmentKind {
        SegmentKind::Up(self.inc)
    }

    /// Returns how its process is drawn where it is not.
    pub fn away(&self) -> SegmentKind {
        match self.stand {
            Stand::In => SegmentKind::In,
            _ => SegmentKind::Down,
        }
    }

    /// Returns where the last of its words ends.
    pub fn end(&self) -> u32 {
        self.above.max(self.beside).max(self.below)
    }

    /// Notes that the process is in or down from here on; 0 is before the window.
    pub fn leave(
        &mut self,
        segment: &mut Vec<LaneSegment>,
        x: u32,
        left: u32,
        stand: Stand,
    ) -> Result<(), AllocError> {
        if self.stand == Stand::Up {
            self.stop = or_left(x, left);
        } else {
            add_stretch(segment, SegmentKind::In, self.number, self.wait, x)?;
        }
        self.wait = or_left(x, left);
        self.stand = stand;
        Ok(())
    }
}

/// Returns the height of a lane.
pub fn lane_y(number: u32) -> u32 {
    number.saturating_mul(64).saturating_add(112)
}

/// Returns the place, or the left side for 0, which is before the window.
pub fn or_left(x: u32, left: u32) -> u32 {
    if x == 0 { left } else { x }
}

/// Adds a stretch, if it has a length.
pub fn add_stretch(
    segment: &mut Vec<LaneSegment>,
    kind: SegmentKind,
    lane: u32,
    from: u32,
    to: u32,
) -> Result<(), AllocError> {
    if to > from {
        segment.push(LaneSegment::Span {
            kind,
            lane,
            from,
            to,
        })?;
    }
    Ok(())
}
