//! The right side of a picture: how all stands in the end.

ghost use Rattle.std.specs.Prelude.{◌≡◌, ℕ, List, length, false, IfOk, OnOk};
ghost use Rattle.om_picture.specs.Drawing.{IsSketchOf, mark_marks, sketch_of};
ghost use Rattle.om_picture.specs.Fates.{EventRow};
ghost use Rattle.om_picture.specs.Marks.{IsDrawingOf};
ghost use Rattle.om_picture.specs.steps.Adding.{Settles, SettlesAll, SettlesLane, fate_now};

use crate::column::AXIS;
use crate::frame::Frame;
use crate::history::Next;
use crate::lane::{Stand, lane_y};
use crate::measure::{CHARACTER, digits, end_state_length};
use crate::page::{Page, count_of};
use crate::picture::Picture;
use crate::rounds::before;
use crate::settle::{fate_now, place_of};
use om_interval::DepVec;
use om_sheet::{Crossing, Drawn, EndState, LabelContent, LineKind, MessageLine, Spot, Style};
use std::alloc::{AllocError, Global};

// The least width: that of the legend.
const LEAST: u32 = 880;

// Frames of one place and one receiver that follow each other, and how many of them were never given.
#[derive(Clone, Copy)]
struct Group {
    x: u32,
    from: u32,
    to: u32,
    few: u64,
}

fn group_of(frame: &Frame) -> Group {
    Group {
        x: frame.x,
        from: frame.from,
        to: frame.to,
        few: u64::from(!frame.given),
    }
}

// Returns the characters of the longest word behind the lanes.
fn longest(recovery: DepVec, end_states: &[Option<EndState>], lengths: &[u32]) -> u32 {
    let mut longest = 0;
    for length in lengths {
        longest = longest.max(*length);
    }
    for end_state in end_states {
        longest = longest.max(end_state_length(*end_state));
    }
    for place in recovery.as_slice() {
        longest = longest.max(digits(u64::from(*place)).saturating_add(9));
    }
    longest
}

impl Page {
    // Returns the right side of the lanes, whose last column ends there.
    fn right(&self, last: u32) -> u32 {
        let mut right = last;
        for lane in &self.lanes {
            right = right.max(lane.end());
        }
        right.saturating_add(16)
    }

    // Draws the band of a gathering that is open, within the window.
    fn end_band(&mut self, on: bool, right: u32) -> Result<(), AllocError> {
        match self.opened {
            Some(opened) if on => self.band(opened, right, LabelContent::Gathering),
            _ => Ok(()),
        }
    }

    // Draws what is left of a lane whose first mark that is not covered stands here: the place of the last line.
    fn end_road(&mut self, p: usize, first: Option<u32>, right: u32) -> Result<u32, AllocError> {
        let lane = self.lane_at(p);
        if lane.stand == Stand::Up {
            self.stretch_up(&lane, right)?;
        } else {
            self.stretch_up(&lane, lane.stop)?;
            self.stretch(lane.away(), &lane, lane.wait, right)?;
        }
        match first {
            Some(x) => Ok(before(x, self.left)),
            None => Ok(right),
        }
    }

    // Writes the words behind a lane: its name, its state and its place in the recovery state.
    fn tell_lane(
        &mut self,
        p: usize,
        right: u32,
        end_state: Option<EndState>,
        place: u32,
    ) -> Result<(), AllocError> {
        let x = right.saturating_add(12);
        let y = self.y(p);
        self.say(Style::Plain, x, y.saturating_sub(9), LabelContent::Name(p))?;
        let beside = y.saturating_add(3);
        self.say(Style::Small, x, beside, LabelContent::EndState(end_state))?;
        self.say(
            Style::Small,
            x,
            y.saturating_add(15),
            LabelContent::Place(place),
        )
    }

    // Writes the words before the lanes.
    fn name_lanes(&mut self) -> Result<(), AllocError> {
        for p in 0..self.lanes.len() {
            let y = self.y(p);
            self.say(Style::Plain, 16, y, LabelContent::Name(p))?;
            self.say(
                Style::Grey,
                16,
                y.saturating_add(12),
                LabelContent::Program(p),
            )?;
        }
        self.say(Style::Grey, 16, AXIS, LabelContent::Line)
    }

    // Draws a stub for the frames of an event to one receiver that were never given.
    fn stubs(&mut self) -> Result<(), AllocError> {
        let mut open: Option<Group> = None;
        for k in 0..self.frames.len() {
            let Some(frame) = self.frames.get(k).copied() else {
                return Ok(());
            };
            open = Some(self.grouped(open, &frame)?);
        }
        match open {
            Some(group) => self.stub(group),
            None => Ok(()),
        }
    }

    // Returns the group with one frame more; draws a stub for the group where the frame is none of it.
    fn grouped(&mut self, open: Option<Group>, frame: &Frame) -> Result<Group, AllocError> {
        let Some(group) = open else {
            return Ok(group_of(frame));
        };
        if group.x == frame.x && group.to == frame.to {
            return Ok(Group {
                few: group.few.saturating_add(u64::from(!frame.given)),
                ..group
            });
        }
        self.stub(group)?;
        Ok(group_of(frame))
    }

    fn stub(&mut self, group: Group) -> Result<(), AllocError> {
        if group.few == 0 || group.x == 0 {
            return Ok(());
        }
        let from = Spot {
            x: group.x,
            lane: group.from,
        };
        let below = group.to > group.from;
        self.sheet.send.push(MessageLine::Stub { below, from })?;
        if group.few == 1 {
            return Ok(());
        }
        let y = lane_y(group.from);
        let y = if below {
            y.saturating_add(20)
        } else {
            y.saturating_sub(11)
        };
        let x = group.x.saturating_add(12);
        self.say(Style::Grey, x, y, LabelContent::Number(group.few))
    }
}

impl Picture {
    /// Returns the whole picture, where the processes stand so in the end, and their names have so many
    /// characters.
    pub fn end(
        self,
        alloc: Global,
        end_states: &[Option<EndState>],
        lengths: &[u32],
    ) -> Result<Drawn, AllocError>
        ensures { (n first : ℕ) (rows : List EventRow) → IsSketchOf n first rows (sketch_of self)
            → IfOk result (IsDrawingOf n first rows) }
    {
        let mut picture = self;
        let right = picture.page.right(picture.columns.right);
        picture.page.end_band(picture.on, right)?;
        picture.end_lanes(alloc, right, end_states)?;
        picture.page.stubs()?;
        picture.page.name_lanes()?;
        let longest = longest(picture.recovery, end_states, lengths);
        Ok(picture.drawn(right, longest))
    }

    // Draws what is left of each lane, and the last line.
    fn end_lanes(
        &mut self,
        alloc: Global,
        right: u32,
        end_states: &[Option<EndState>],
    ) -> Result<(), AllocError>
        ensures { OnOk result (SettlesAll false (sketch_of self.old) (sketch_of self.new)) }
    {
        let recovery = self.recovery;
        let mut places = Vec::new(alloc);
        for p in 0..self.histories.len() {
            let x = self.end_lane(p, right)?;
            let spot = self.page.spot(p, x);
            places.push(spot)?;
            let end_state = end_states.get(p).copied().unwrap_or(None);
            let place = place_of(recovery, p);
            self.page.tell_lane(p, right, end_state, place)?;
        }
        let kind = LineKind::End(recovery);
        self.page.sheet.line.push(Crossing { places, kind })?;
        Ok(())
    }

    fn drawn(self, right: u32, longest: u32) -> Drawn
        ensures { result.marks ≡ self.marks }
    {
        let words = longest.saturating_mul(CHARACTER);
        let width = right.saturating_add(24).saturating_add(words).max(LEAST);
        let page = self.page;
        let bottom = page.bottom();
        let lanes = count_of(page.lanes.len());
        Drawn {
            sheet: page.sheet,
            marks: self.marks,
            counts: page.counts,
            width,
            height: bottom.saturating_add(168),
            lanes,
            bottom,
            legend: bottom.saturating_add(46),
        }
    }

    // Draws what is left of a lane: the place of the last line.
    fn end_lane(&mut self, p: usize, right: u32) -> Result<u32, AllocError>
        ensures { OnOk result (SettlesLane false (sketch_of self.old) (sketch_of self.new) p) }
    {
        let first = self.first_waiting(p);
        let place = self.page.end_road(p, first, right)?;
        self.end_marks(p)?;
        Ok(place)
    }

    // Draws the marks that wait on a lane as they stand.
    fn end_marks(&mut self, p: usize) -> Result<(), AllocError>
        ensures { OnOk result (SettlesLane false (sketch_of self.old) (sketch_of self.new) p) }
    {
        while let Some(first) = self.next(p) {
            self.end_mark(&first)?;
        }
        Ok(())
    }

    fn end_mark(&mut self, next: &Next) -> Result<(), AllocError>
        ensures { OnOk result (Settles (sketch_of self.old) (sketch_of self.new)
            (mark_marks next.now.mark (fate_now false next.now.covered next.now.stored))) }
    {
        self.settle(&next.mark, fate_now(next, false))
    }
}
