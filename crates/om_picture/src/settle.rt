//! Marks that are known to be kept or cut.

ghost use Rattle.std.specs.Prelude.{◌≡◌, ◌<◌, nat_lt, [], if◌then◌else◌, is_some, slice_index, Some, IfOk, OnOk};
ghost use Rattle.om_picture.specs.Drawing.{held_of, lane_of, mark_marks, sketch_of};
ghost use Rattle.om_picture.specs.Fates.{step_entry, step_row};
ghost use Rattle.om_picture.specs.Held.{is_elsewhere};
ghost use Rattle.om_picture.specs.Marks.{form_of, mark_of, output_marks, released_at, title_entry};
ghost use Rattle.om_picture.specs.steps.Adding.{LearnsAll, LearnsAt, Settles, fate_in, fate_now, form_late, frees, kept, lane_number, made_by, HasHistory};

use crate::history::{Mark, Next};
use crate::lane::{lane_y, or_left};
use crate::page::Page;
use crate::picture::{Picture, state_if, title_of};
use crate::placing::lane_number;
use om_interval::DepVec;
use om_process::Status;
use om_sheet::{
    Glyph, LabelContent, MessageLine, PlayedEvent, Shape, Shown, Spot, Style, TitleDetail,
};
use std::alloc::AllocError;

/// How a mark is settled: cut by a round or not; covered by a recovery state, its outputs are released; stored.
#[derive(Clone, Copy)]
pub(crate) struct FateNow {
    pub cut: bool,
    pub covered: bool,
    pub stored: bool,
}

/// Returns how the next mark of a lane is settled now; as a round is finished, or in the end.
pub(crate) fn fate_now(next: &Next, finished: bool) -> FateNow
    ensures { fate_in result ≡ fate_now finished next.now.covered next.now.stored }
{
    FateNow {
        cut: finished && !next.covered,
        covered: next.covered,
        stored: next.covered || next.stored,
    }
}

// Returns the style of the words of a mark.
fn style(fate: FateNow, style: Style) -> Style {
    if fate.cut { Style::Grey } else { style }
}

// Makes a mark of a form, at the place of this one.
fn shape_of(glyph: Glyph, mark: &Mark, fate: FateNow) -> Shape
    ensures glyph { result.glyph ≡ glyph }
    ensures cut { result.cut ≡ fate.cut }
    ensures at { result.at ≡ mark.now.at }
    ensures title { result.title ≡ mark.now.title }
{
    Shape {
        glyph,
        cut: fate.cut,
        at: mark.at,
        title: mark.title,
    }
}

// Returns the form of a mark.
fn glyph_of(shown: Shown, fate: FateNow) -> Glyph
    ensures { form_of result ≡ form_late shown (fate_in fate) }
{
    match shown {
        Shown::Receipt { .. } => Glyph::Receipt {
            stored: fate.stored,
        },
        Shown::Checkpoint => Glyph::Checkpoint,
        Shown::Run { ends: Some(_), .. } => Glyph::End,
        _ => Glyph::Dot,
    }
}

// Returns whether a mark has outputs.
fn has_outputs(shown: Shown) -> bool
    ensures { result ≡ nat_lt 0 (made_by shown) }
{
    match shown {
        Shown::Run { made, .. } => made > 0,
        _ => false,
    }
}

impl Page {
    // Returns the place of a mark that is kept, where it has outputs that were held before the event that
    // stands there.
    fn held_at(&self, mark: &Mark, at: Spot) -> Option<u32>
        ensures { is_some result ≡ is_elsewhere at.x (held_of mark.now) }
    {
        if mark.fresh > 0 && mark.at.x != at.x {
            return Some(or_left(mark.at.x, self.left));
        }
        None
    }

    // Writes the words of a mark whose fate is known, and draws the message of a receipt.
    fn tell(&mut self, mark: &Mark, fate: FateNow) -> Result<(), AllocError> {
        match mark.shown {
            Shown::Receipt { frame, interval } => { self.tell_receipt(mark, fate, frame, interval) }
            Shown::Run { made, ends, .. } => {
                if made > 0 && mark.fresh > 0 {
                    self.tell_outputs(mark, fate)?;
                }
                self.tell_status(mark, fate, ends)
            }
            _ => Ok(()),
        }
    }

    fn tell_receipt(
        &mut self,
        mark: &Mark,
        fate: FateNow,
        frame: usize,
        interval: u32,
    ) -> Result<(), AllocError> {
        if let Some(frame) = self.frames.get(self.lost.saturating_add(frame)) {
            self.sheet.send.push(MessageLine::Message {
                again: frame.again,
                cut: fate.cut,
                from: Spot {
                    x: or_left(frame.x, self.left),
                    lane: frame.from,
                },
                to: mark.at,
            })?;
        }
        let y = lane_y(mark.at.lane).saturating_sub(5);
        let what = LabelContent::Number(u64::from(interval));
        self.say(
            style(fate, Style::Plain),
            mark.at.x.saturating_add(5),
            y,
            what,
        )
    }

    fn tell_status(
        &mut self,
        mark: &Mark,
        fate: FateNow,
        ends: Option<Status>,
    ) -> Result<(), AllocError> {
        let Some(status) = ends else {
            return Ok(());
        };
        let y = lane_y(mark.at.lane).saturating_add(20);
        let x = mark.at.x.saturating_add(3);
        self.say(style(fate, Style::Small), x, y, LabelContent::End(status))
    }

    fn tell_outputs(&mut self, mark: &Mark, fate: FateNow) -> Result<(), AllocError> {
        let y = lane_y(mark.at.lane).saturating_sub(24);
        let x = mark.at.x.saturating_sub(4);
        let what = LabelContent::Output {
            label: mark.label,
            more: mark.fresh.saturating_sub(1),
        };
        self.say(style(fate, Style::Small), x, y, what)
    }
}

impl Picture {
    // Draws a mark whose fate is known; one from before the window is passed over.
    pub(crate) fn settle(&mut self, mark: &Mark, fate: FateNow) -> Result<(), AllocError>
        ensures { OnOk result (Settles (sketch_of self.old) (sketch_of self.new) (mark_marks mark.now (fate_in fate))) }
    {
        if mark.at.x == 0 {
            return Ok(());
        }
        self.page.tell(mark, fate)?;
        self.add_outputs(mark, fate)?;
        self.add_form(glyph_of(mark.shown, fate), mark, fate)
    }

    // Draws the stem of the outputs of a mark, and its head, if they were not all made before.
    fn add_outputs(&mut self, mark: &Mark, fate: FateNow) -> Result<(), AllocError>
        ensures { OnOk result (Settles (sketch_of self.old) (sketch_of self.new)
            (output_marks (made_by mark.now.shown) mark.now.fresh (fate_in fate) (title_entry mark.now.title mark.now.at))) }
    {
        if !has_outputs(mark.shown) {
            return Ok(());
        }
        let again = mark.fresh == 0;
        self.add_form(Glyph::Stem { again }, mark, fate)?;
        if again {
            return Ok(());
        }
        let released = fate.covered;
        self.add_form(Glyph::Head { released }, mark, fate)
    }

    // Draws a form at the place of a mark.
    fn add_form(&mut self, glyph: Glyph, mark: &Mark, fate: FateNow) -> Result<(), AllocError>
        ensures { OnOk result (Settles (sketch_of self.old) (sketch_of self.new)
            (mark_of (form_of glyph) fate.cut (title_entry mark.now.title mark.now.at))) }
    {
        self.add_shape(&shape_of(glyph, mark, fate))
    }

    // Settles what the recovery state now covers, and shows where outputs that were held are released.
    pub(crate) fn keep(
        &mut self,
        step: &PlayedEvent,
        at: Spot,
        changed: bool,
    ) -> Result<(), AllocError>
        ensures { OnOk result (LearnsAll (step_row step.now at) (sketch_of self.old) (sketch_of self.new)) }
    {
        for p in 0..self.histories.len() {
            let held = self.keep_lane(p, step, at)?;
            self.release(p, held, step, at, changed)?;
        }
        Ok(())
    }

    // Settles a lane as `keep` does, and returns the place of the first output that was held and is released.
    fn keep_lane(
        &mut self,
        p: usize,
        step: &PlayedEvent,
        at: Spot,
    ) -> Result<Option<u32>, AllocError>
        requires { HasHistory self.old p }
        ensures learns { OnOk result (LearnsAt (step_row step.now at) (sketch_of self.old) (sketch_of self.new) p) }
        ensures freed { IfOk result (λ held. is_some held ≡ frees (step_row step.now at) p (lane_of (sketch_of self.old) p)) }
    {
        self.learn(p, place_of(step.recovery, p));
        let mut held = None;
        while let Some(mark) = self.next_covered(p) {
            let found = self.keep_mark(&mark, at)?;
            held = held.or(found);
        }
        Ok(held)
    }

    // Keeps a mark: its place, where it has outputs that were held.
    fn keep_mark(&mut self, mark: &Mark, at: Spot) -> Result<Option<u32>, AllocError>
        ensures settles { OnOk result (Settles (sketch_of self.old) (sketch_of self.new) (mark_marks mark.now kept)) }
        ensures found { IfOk result (λ found. is_some found ≡ is_elsewhere at.x (held_of mark.now)) }
    {
        self.page.count_fate(self.on, mark, false);
        let fate = FateNow {
            cut: false,
            covered: true,
            stored: true,
        };
        self.settle(mark, fate)?;
        Ok(self.page.held_at(mark, at))
    }

    // Shows that outputs which were made at a place are released, if there are some.
    fn release(
        &mut self,
        p: usize,
        held: Option<u32>,
        step: &PlayedEvent,
        at: Spot,
        changed: bool,
    ) -> Result<(), AllocError>
        ensures { OnOk result (Settles (sketch_of self.old) (sketch_of self.new)
            (if self.old.on then released_at (is_some held) (lane_number p) (step_entry step.now at) else [])) }
    {
        let Some(from) = held else {
            return Ok(());
        };
        if !self.on {
            return Ok(());
        }
        let to = Spot {
            x: at.x,
            lane: lane_number(p),
        };
        self.page.sheet.send.push(MessageLine::Held { from, to })?;
        let more = TitleDetail::Released(state_if(changed, step));
        let title = title_of(step, more);
        self.add_shape(&Shape {
            glyph: Glyph::Released,
            cut: false,
            at: to,
            title,
        })
    }
}

// Returns the place of a process in a recovery state.
pub(crate) fn place_of(recovery: DepVec, p: usize) -> u32
    ensures { result ≡ slice_index recovery p }
{
    match recovery.as_slice().get(p) {
        Some(place) => *place,
        None => 0,
    }
}
