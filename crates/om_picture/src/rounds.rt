//! Rounds: what they cut, and the lines to which all went back.

ghost use Rattle.std.specs.Prelude.{◌<◌, length, true, OnOk};
ghost use Rattle.om_picture.specs.Drawing.{mark_marks, sketch_of};
ghost use Rattle.om_picture.specs.steps.Adding.{Settles, SettlesAll, SettlesLane, fate_now};

use crate::history::Next;
use crate::lane::or_left;
use crate::measure::{CHARACTER, recovery_length};
use crate::page::Page;
use crate::picture::{Picture, state_if, title_of};
use crate::settle::fate_now;
use om_interval::DepVec;
use om_sheet::{
    Crossing, LabelContent, LineKind, PlayedEvent, SegmentKind, Spot, Style, TitleDetail,
};
use om_world::Answer;
use std::alloc::{AllocError, Global};

// From a mark to the recovery line beside it.
const GAP: u32 = 9;

/// Returns where a recovery line passes before a mark at this place, which it does not cover.
pub(crate) fn before(x: u32, left: u32) -> u32 {
    if x == 0 { left } else { x.saturating_sub(GAP) }
}

impl Page {
    // Draws the stretches of a lane that a round cut at its first mark that is cut: the place of the recovery line.
    fn cut_road(&mut self, p: usize, first: Option<u32>) -> Result<u32, AllocError> {
        let lane = self.lane_at(p);
        let place = match first {
            Some(x) => {
                let at = or_left(x, self.left);
                self.stretch_up(&lane, at)?;
                self.stretch(SegmentKind::Cut, &lane, at, lane.stop)?;
                before(x, self.left)
            }
            None => {
                self.stretch_up(&lane, lane.stop)?;
                lane.stop.saturating_add(GAP)
            }
        };
        if let Some(lane) = self.lanes.get_mut(p) {
            lane.live = None;
        }
        Ok(place)
    }

    // Closes the gathering that is open; within the window, its round is told, up to the right side.
    fn close(
        &mut self,
        on: bool,
        right: u32,
        step: &PlayedEvent,
        changed: bool,
        places: Vec<Spot>,
    ) -> Result<(), AllocError> {
        if on {
            self.tell_round(right, step, changed, places)?;
        }
        self.opened = None;
        if step.answer == Answer::Restarted {
            self.lost = self.frames.len();
        }
        Ok(())
    }

    // Draws the band, the name, the recovery line and the recovery state of a round.
    fn tell_round(
        &mut self,
        right: u32,
        step: &PlayedEvent,
        changed: bool,
        places: Vec<Spot>,
    ) -> Result<(), AllocError> {
        self.count_round();
        let opened = self.opened.unwrap_or(self.left);
        self.band(opened, right, LabelContent::Round(self.round))?;
        let state = step.recovery;
        let more = TitleDetail::Round {
            changed: state_if(changed, step),
            round: self.round,
            state,
        };
        let kind = LineKind::Round(title_of(step, more));
        self.sheet.line.push(Crossing { places, kind })?;
        self.tell_foot(opened, state)
    }

    // Writes the recovery state of a round below its band, where there is room.
    fn tell_foot(&mut self, opened: u32, state: DepVec) -> Result<(), AllocError> {
        if opened < self.foot {
            return Ok(());
        }
        let y = self.bottom().saturating_add(12);
        self.say(Style::Small, opened, y, LabelContent::Recovery(state))?;
        let length = recovery_length(state.as_slice()).saturating_mul(CHARACTER);
        self.foot = opened.saturating_add(length).saturating_add(8);
        Ok(())
    }
}

impl Picture {
    // Cuts all to the recovery state, as a round is finished.
    pub(crate) fn finish(
        &mut self,
        alloc: Global,
        step: &PlayedEvent,
        changed: bool,
    ) -> Result<(), AllocError>
        ensures { OnOk result (SettlesAll true (sketch_of self.old) (sketch_of self.new)) }
    {
        self.page.round = self.page.round.saturating_add(1);
        let places = self.cut_lanes(alloc)?;
        let right = self.columns.right;
        self.page.close(self.on, right, step, changed, places)?;
        Ok(())
    }

    // Cuts the lanes: the places of the recovery line.
    fn cut_lanes(&mut self, alloc: Global) -> Result<Vec<Spot>, AllocError>
        ensures { OnOk result (SettlesAll true (sketch_of self.old) (sketch_of self.new)) }
    {
        let mut places = Vec::new(alloc);
        for p in 0..self.histories.len() {
            let x = self.cut_lane(p)?;
            let spot = self.page.spot(p, x);
            places.push(spot)?;
        }
        Ok(places)
    }

    // Cuts a lane: the place of the recovery line.
    fn cut_lane(&mut self, p: usize) -> Result<u32, AllocError>
        ensures { OnOk result (SettlesLane true (sketch_of self.old) (sketch_of self.new) p) }
    {
        let first = self.first_waiting(p);
        let place = self.page.cut_road(p, first)?;
        self.cut_marks(p)?;
        Ok(place)
    }

    // Settles the marks that wait on a lane: those that no recovery state covers are cut.
    fn cut_marks(&mut self, p: usize) -> Result<(), AllocError>
        ensures { OnOk result (SettlesLane true (sketch_of self.old) (sketch_of self.new) p) }
    {
        while let Some(first) = self.next(p) {
            self.cut_mark(&first)?;
        }
        Ok(())
    }

    fn cut_mark(&mut self, next: &Next) -> Result<(), AllocError>
        ensures { OnOk result (Settles (sketch_of self.old) (sketch_of self.new)
            (mark_marks next.now.mark (fate_now true next.now.covered next.now.stored))) }
    {
        let fate = fate_now(next, true);
        self.page.count_fate(self.on, &next.mark, fate.cut);
        self.settle(&next.mark, fate)
    }
}
