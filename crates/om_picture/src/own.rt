//! What each kind of event shows on its lane.

ghost use Rattle.std.specs.Prelude.{◌≡◌, ◌==◌, ◌<◌, not, OnOk};
ghost use Rattle.om_picture.specs.Drawing.{sketch_of};
ghost use Rattle.om_picture.specs.Fates.{step_entry};
ghost use Rattle.om_picture.specs.steps.Adding.{Logs, Shows, HasHistory};
ghost use Rattle.om_sheet.specs.declared.shown.Shown.TheVariants as shows;

use crate::frame::Frame;
use crate::lane::{Stand, or_left};
use crate::page::{Page, numbers};
use crate::picture::Picture;
use crate::placing::FAILURE;
use om_process::Status;
use om_sheet::{Glyph, LabelContent, MessageLine, PlayedEvent, Shown, Spot, Style, TitleDetail};
use std::alloc::AllocError;

// The longest way of a refused message.
const TRAIL: u32 = 320;

impl Page {
    // Draws the way of a refused message, if it is one to this lane; of one that was sent long ago, the end
    // alone.
    fn trail(&mut self, frame: Option<Frame>, to: Spot) -> Result<(), AllocError> {
        let Some(frame) = frame else {
            return Ok(());
        };
        if frame.to != to.lane {
            return Ok(());
        }
        let x = or_left(frame.x, self.left);
        let from = Spot {
            x,
            lane: frame.from,
        };
        let message_line = if to.x.saturating_sub(x) <= TRAIL {
            MessageLine::Trail { from, to }
        } else {
            MessageLine::Short {
                below: frame.from > to.lane,
                to,
            }
        };
        self.sheet.send.push(message_line)?;
        Ok(())
    }

    // Draws what a refused message shows beside its mark, which stands there.
    fn refuse(&mut self, on: bool, frame: usize, at: Spot) -> Result<(), AllocError> {
        let frame = self.give(frame);
        if !on {
            return Ok(());
        }
        self.trail(frame, at)?;
        self.count_refusal();
        Ok(())
    }

    // Opens a gathering from the left of this failure on, if none was open; 0 is before the window.
    pub(crate) fn open(&mut self, declared: bool, x: u32) {
        if declared && self.opened.is_none() {
            self.opened = Some(if x == 0 {
                self.left
            } else {
                x.saturating_sub(FAILURE)
            });
        }
    }

    // Begins a new incarnation of a process.
    fn begin_inc(&mut self, p: usize, inc: u32) {
        if let Some(lane) = self.lanes.get_mut(p) {
            lane.inc = inc;
        }
    }

    // Writes the interval and the incarnation of a process that is back.
    fn tell_back(
        &mut self,
        on: bool,
        p: usize,
        x: u32,
        interval: u32,
        inc: u32,
    ) -> Result<(), AllocError> {
        if !on {
            return Ok(());
        }
        let y = self.y(p);
        let what = LabelContent::Number(u64::from(interval));
        self.say(Style::Plain, x.saturating_add(7), y.saturating_sub(5), what)?;
        let below = y.saturating_add(20);
        self.say(
            Style::Small,
            x.saturating_sub(4),
            below,
            LabelContent::Inc(inc),
        )
    }
}

impl Picture {
    pub(crate) fn draw_run(
        &mut self,
        p: usize,
        step: &PlayedEvent,
        at: Spot,
        sent: usize,
        made: usize,
        ends: Option<Status>,
    ) -> Result<(), AllocError>
        requires within { HasHistory self.old p }
        requires there { (at.x == 0) ≡ not self.old.on }
        ensures { OnOk result (Shows (sketch_of self.old) (sketch_of self.new) p (shows.Run sent made ends)
            step.now.fresh (step_entry step.now at)) }
    {
        let outputs = numbers(step.first, step.fresh);
        let frames = self.page.make(at.x, p, step, false)?;
        self.page.count_run(self.on, step.fresh, sent);
        self.end_program(p, ends.is_some());
        let shown = Shown::Run { sent, made, ends };
        self.wait(p, step, at, shown, TitleDetail::Made { outputs, frames })
    }

    pub(crate) fn draw_resend(
        &mut self,
        p: usize,
        step: &PlayedEvent,
        at: Spot,
        sent: usize,
    ) -> Result<(), AllocError>
        requires within { HasHistory self.old p }
        requires there { (at.x == 0) ≡ not self.old.on }
        ensures { OnOk result (Shows (sketch_of self.old) (sketch_of self.new) p (shows.Resend sent) step.now.fresh (step_entry step.now at)) }
    {
        let frames = self.page.make(at.x, p, step, true)?;
        let outputs = numbers(0, 0);
        self.page.count_resend(self.on, sent);
        let shown = Shown::Resend { sent };
        self.wait(p, step, at, shown, TitleDetail::Made { outputs, frames })
    }

    pub(crate) fn draw_receipt(
        &mut self,
        p: usize,
        step: &PlayedEvent,
        at: Spot,
        frame: usize,
        interval: u32,
    ) -> Result<(), AllocError>
        requires within { HasHistory self.old p }
        requires there { (at.x == 0) ≡ not self.old.on }
        ensures { OnOk result (Shows (sketch_of self.old) (sketch_of self.new) p (shows.Receipt frame interval)
            step.now.fresh (step_entry step.now at)) }
    {
        let _ = self.page.give(frame);
        self.page.count_receipt(self.on);
        self.receive(p, interval);
        let shown = Shown::Receipt { frame, interval };
        self.wait(p, step, at, shown, TitleDetail::Nothing)
    }

    pub(crate) fn draw_refused(
        &mut self,
        p: usize,
        step: &PlayedEvent,
        at: Spot,
        frame: usize,
    ) -> Result<(), AllocError>
        requires { HasHistory self.old p }
        ensures { OnOk result (Shows (sketch_of self.old) (sketch_of self.new) p (shows.Refused frame)
            step.now.fresh (step_entry step.now at)) }
    {
        self.page.refuse(self.on, frame, at)?;
        self.shape(Glyph::Refused, step, at)
    }

    // Stores so many receipts of a process, or all, and draws that, if some were in memory only.
    fn log(
        &mut self,
        p: usize,
        step: &PlayedEvent,
        at: Spot,
        many: Option<usize>,
    ) -> Result<(), AllocError>
        requires { HasHistory self.old p }
        ensures { OnOk result (Logs many (step_entry step.now at) (sketch_of self.old) (sketch_of self.new) p) }
    {
        match self.store(p, many) {
            Some(from) => {
                let from = or_left(from, self.page.left);
                self.shape(Glyph::Flush { from }, step, at)
            }
            None => Ok(()),
        }
    }

    pub(crate) fn draw_flush(
        &mut self,
        p: usize,
        step: &PlayedEvent,
        at: Spot,
    ) -> Result<(), AllocError>
        requires { HasHistory self.old p }
        ensures { OnOk result (Shows (sketch_of self.old) (sketch_of self.new) p shows.Flush step.now.fresh (step_entry step.now at)) }
    {
        self.log(p, step, at, None)
    }

    pub(crate) fn draw_flush_first(
        &mut self,
        p: usize,
        step: &PlayedEvent,
        at: Spot,
        count: usize,
    ) -> Result<(), AllocError>
        requires { HasHistory self.old p }
        ensures { OnOk result (Shows (sketch_of self.old) (sketch_of self.new) p (shows.FlushFirst count)
            step.now.fresh (step_entry step.now at)) }
    {
        self.log(p, step, at, Some(count))
    }

    pub(crate) fn draw_checkpoint(
        &mut self,
        p: usize,
        step: &PlayedEvent,
        at: Spot,
    ) -> Result<(), AllocError>
        requires within { HasHistory self.old p }
        requires there { (at.x == 0) ≡ not self.old.on }
        ensures { OnOk result (Shows (sketch_of self.old) (sketch_of self.new) p shows.Checkpoint step.now.fresh (step_entry step.now at)) }
    {
        let interval = self.interval(p);
        self.wait(
            p,
            step,
            at,
            Shown::Checkpoint,
            TitleDetail::Interval(interval),
        )
    }

    pub(crate) fn draw_failure(
        &mut self,
        p: usize,
        step: &PlayedEvent,
        at: Spot,
        declared: bool,
    ) -> Result<(), AllocError>
        requires { HasHistory self.old p }
        ensures { OnOk result (Shows (sketch_of self.old) (sketch_of self.new) p (shows.Failure declared)
            step.now.fresh (step_entry step.now at)) }
    {
        self.page.open(declared, at.x);
        self.page.leave(p, at.x, Stand::Down)?;
        self.page.count_failure(self.on);
        self.shape(Glyph::Failure, step, at)
    }

    pub(crate) fn draw_join(
        &mut self,
        p: usize,
        step: &PlayedEvent,
        at: Spot,
    ) -> Result<(), AllocError>
        requires { HasHistory self.old p }
        ensures { OnOk result (Shows (sketch_of self.old) (sketch_of self.new) p shows.Join step.now.fresh (step_entry step.now at)) }
    {
        self.log(p, step, at, None)?;
        self.page.leave(p, at.x, Stand::In)?;
        self.shape(Glyph::Join, step, at)
    }

    pub(crate) fn draw_goes_on(
        &mut self,
        p: usize,
        step: &PlayedEvent,
        at: Spot,
    ) -> Result<(), AllocError>
        requires { HasHistory self.old p }
        ensures { OnOk result (Shows (sketch_of self.old) (sketch_of self.new) p shows.GoesOn step.now.fresh (step_entry step.now at)) }
    {
        self.page.stand_up(p, at.x)?;
        self.shape(Glyph::GoesOn, step, at)
    }

    pub(crate) fn draw_back(
        &mut self,
        p: usize,
        step: &PlayedEvent,
        at: Spot,
        interval: u32,
        inc: u32,
    ) -> Result<(), AllocError>
        requires { HasHistory self.old p }
        ensures { OnOk result (Shows (sketch_of self.old) (sketch_of self.new) p (shows.Back interval inc)
            step.now.fresh (step_entry step.now at)) }
    {
        self.page.stand_up(p, at.x)?;
        self.page.begin_inc(p, inc);
        self.page.tell_back(self.on, p, at.x, interval, inc)?;
        self.go_back(p, interval);
        self.shape(Glyph::Back, step, at)
    }
}
