//! The page: all pieces but the marks, and the room for words.

use crate::frame::{Frame, add_frames};
use crate::lane::{Lane, Stand, add_stretch, lane_y, or_left};
use crate::measure::{CHARACTER, digits};
use om_sheet::{
    Band, Counts, LabelContent, Numbers, PlayedEvent, SegmentKind, Sheet, Spot, Style, Word,
};
use std::alloc::{AllocError, Global};

/// How far apart the names of the lanes are told again.
pub(crate) const AGAIN: u32 = 1200;

// The height of the names of rounds.
const ROUNDS: u32 = 68;

/// What has been drawn beside the marks, and where the next words may stand.
#[derive(Drop)]
pub(crate) struct Page {
    pub left: u32,
    // Where the next number of a line may begin, the next text of a state, and the next names.
    pub axis: u32,
    pub foot: u32,
    pub again: u32,
    // The rounds that are finished, and where the open gathering began.
    pub round: u32,
    pub opened: Option<u32>,
    pub lanes: Vec<Lane>,
    pub frames: Vec<Frame>,
    /// How many of them were made before the last restart, which numbers them anew.
    pub lost: usize,
    pub counts: Counts,
    pub sheet: Sheet,
}

fn no_pieces(alloc: Global) -> Sheet {
    Sheet {
        back: Vec::new(alloc),
        segment: Vec::new(alloc),
        send: Vec::new(alloc),
        line: Vec::new(alloc),
        text: Vec::new(alloc),
    }
}

/// Returns `count` numbers from the first on.
pub(crate) fn numbers(first: u64, count: u64) -> Numbers {
    Numbers {
        first,
        last: first.saturating_add(count.saturating_sub(1)),
        count,
    }
}

impl Page {
    /// Makes the page of so many lanes, which begin at the left side.
    pub(crate) fn new(alloc: Global, count: usize, left: u32) -> Result<Page, AllocError> {
        let mut lanes = Vec::new(alloc);
        let mut number: u32 = 0;
        for _ in 0..count {
            lanes.push(Lane::new(number, left))?;
            number = number.saturating_add(1);
        }
        Ok(Page {
            left,
            axis: 0,
            foot: 0,
            again: left.saturating_add(AGAIN),
            round: 0,
            opened: None,
            lanes,
            frames: Vec::new(alloc),
            lost: 0,
            counts: Counts::default(),
            sheet: no_pieces(alloc),
        })
    }

    /// Adds a word.
    pub(crate) fn say(
        &mut self,
        style: Style,
        x: u32,
        y: u32,
        what: LabelContent,
    ) -> Result<(), AllocError> {
        self.sheet.text.push(Word { style, x, y, what })?;
        Ok(())
    }

    /// Tells how a lane stands as the window begins, where that is not the start.
    pub(crate) fn begin_lane(&mut self, p: usize, interval: u32) -> Result<(), AllocError> {
        let lane = self.lane_at(p);
        if lane.stand == Stand::Down || (lane.inc == 0 && interval == 0) {
            return Ok(());
        }
        let x = self.left.saturating_add(2);
        let y = lane.y();
        let number = digits(u64::from(interval)).saturating_mul(CHARACTER);
        let inc = digits(u64::from(lane.inc))
            .saturating_add(4)
            .saturating_mul(CHARACTER);
        let what = LabelContent::Number(u64::from(interval));
        self.say(Style::Plain, x, y.saturating_sub(5), what)?;
        let below = y.saturating_add(20);
        self.say(Style::Small, x, below, LabelContent::Inc(lane.inc))?;
        if let Some(lane) = self.lanes.get_mut(p) {
            lane.beside = x.saturating_add(number).saturating_add(4);
            lane.below = x.saturating_add(inc).saturating_add(4);
        }
        Ok(())
    }

    pub(crate) fn lane_at(&self, p: usize) -> Lane {
        match self.lanes.get(p) {
            Some(lane) => *lane,
            None => Lane::new(0, self.left),
        }
    }

    /// Returns a place on the lane of a process.
    pub(crate) fn spot(&self, p: usize, x: u32) -> Spot {
        Spot {
            x,
            lane: self.lane_at(p).number,
        }
    }

    /// Makes new frames, and returns their numbers.
    pub(crate) fn make(
        &mut self,
        x: u32,
        p: usize,
        step: &PlayedEvent,
        again: bool,
    ) -> Result<Numbers, AllocError> {
        let from = self.lane_at(p).number;
        let first = self.frames.len().saturating_sub(self.lost) as u64;
        let count = add_frames(&mut self.frames, x, from, &step.frames, again)?;
        Ok(numbers(first, count))
    }

    /// Gives the frame of a number, and returns it.
    pub(crate) fn give(&mut self, frame: usize) -> Option<Frame> {
        let frame = self.frames.get_mut(self.lost.saturating_add(frame))?;
        frame.given = true;
        Some(*frame)
    }

    /// Notes that the process is in or down from here on.
    pub(crate) fn leave(&mut self, p: usize, x: u32, stand: Stand) -> Result<(), AllocError> {
        match self.lanes.get_mut(p) {
            Some(lane) => lane.leave(&mut self.sheet.segment, x, self.left, stand),
            None => Ok(()),
        }
    }

    /// Notes that all processes are down from here on, in the first round of a new start.
    pub(crate) fn fall(&mut self, x: u32) -> Result<(), AllocError> {
        self.open(true, x);
        self.round = 0;
        for p in 0..self.lanes.len() {
            self.leave(p, x, Stand::Down)?;
        }
        Ok(())
    }

    /// Notes that the process is up from here on.
    pub(crate) fn stand_up(&mut self, p: usize, x: u32) -> Result<(), AllocError> {
        let lane = self.lane_at(p);
        let segment = &mut self.sheet.segment;
        add_stretch(segment, lane.away(), lane.number, lane.wait, x)?;
        if let Some(lane) = self.lanes.get_mut(p) {
            lane.stand = Stand::Up;
            lane.live = Some(or_left(x, self.left));
        }
        Ok(())
    }

    /// Draws the stretch in which a process was up, if that is not drawn.
    pub(crate) fn stretch_up(&mut self, lane: &Lane, to: u32) -> Result<(), AllocError> {
        self.stretch(lane.up(), lane, lane.live.unwrap_or(to), to)
    }

    pub(crate) fn stretch(
        &mut self,
        kind: SegmentKind,
        lane: &Lane,
        from: u32,
        to: u32,
    ) -> Result<(), AllocError> {
        add_stretch(&mut self.sheet.segment, kind, lane.number, from, to)
    }

    /// Draws a round, from its left to its right side.
    pub(crate) fn band(
        &mut self,
        left: u32,
        right: u32,
        what: LabelContent,
    ) -> Result<(), AllocError> {
        self.sheet.back.push(Band { left, right })?;
        self.say(Style::Small, left, ROUNDS, what)
    }

    /// Returns the height at which bands end.
    pub(crate) fn bottom(&self) -> u32 {
        count_of(self.lanes.len())
            .saturating_mul(64)
            .saturating_add(80)
    }

    /// Returns the height of a lane.
    pub(crate) fn y(&self, p: usize) -> u32 {
        lane_y(self.lane_at(p).number)
    }
}

/// Returns the number of so many lanes in 32 bits, or 0 where it has more.
pub(crate) fn count_of(lanes: usize) -> u32 {
    u32::try_from(lanes).unwrap_or(0)
}
