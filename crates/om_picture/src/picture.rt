//! A picture that is drawn event by event.

ghost use Rattle.std.specs.Prelude.{◌≡◌, ◌==◌, ◌<◌, ◌≤◌, not, false, [], ◌∷◌, ◌++◌, ℕ, List, Some, if◌then◌else◌, is_some, length, OnOk, IfOk, MatchOption};
ghost use Rattle.om_picture.specs.Drawing.{IsSketchOf, held_in, lane_of, sketch_of};
ghost use Rattle.om_picture.specs.Fates.{EventRow, has_loose, step_entry, step_row};
ghost use Rattle.om_picture.specs.Held.{covered_by};
ghost use Rattle.om_picture.specs.Marks.{form_of, mark_of, shape_marks, title_entry};
ghost use Rattle.om_sheet.specs.Shows.{is_finished};
ghost use Rattle.om_sheet.specs.declared.sheet.Spot.{Spot};
ghost use Rattle.om_picture.specs.steps.Adding.{AreNew, Ends, GoesBack, Raises, ReachesWindow, Receives, Settles, SettlesIf, Shows, ShowsEvent, ShowsOn, Stores, TakesCovered, TakesFirst, Turns, Waits, HasHistory};

use crate::column::{Columns, MOST_LEFT};
use crate::history::{History, Mark, Next};
use crate::page::Page;
use om_interval::DepVec;
use om_sheet::{
    Glyph, PlayedEvent, Shape, Shown, Spot, Title, TitleDetail, is_finished, process_of, shown_of,
};
use om_world::Answer;
use std::alloc::{AllocError, Global};
use std::slice;

/// The most characters of a name that have room at the left side.
pub const MOST_NAME: u32 = 32;

/// What has been drawn, and what is known of the marks that are drawn later.
#[derive(Drop)]
pub struct Picture {
    // The first line of the window, and whether it is reached.
    pub(crate) first: usize,
    pub(crate) on: bool,
    pub(crate) recovery: DepVec,
    pub(crate) columns: Columns,
    pub(crate) page: Page,
    // The marks whose fate is known.
    pub(crate) marks: Vec<Shape>,
    // Those of each lane that wait, in order.
    pub(crate) histories: Vec<History>,
}

// Returns the left side, behind names of so many characters.
fn left_side(longest: u32) -> u32
    ensures some { 0 < result }
    ensures most { result ≤ MOST_LEFT }
{
    let characters = longest.min(MOST_NAME);
    (24 + 7 * characters).max(56)
}

fn new_histories(alloc: Global, count: usize) -> Result<Vec<History>, AllocError>
    ensures lanes { IfOk result (λ histories. length histories.items ≡ count) }
    ensures new { IfOk result (λ histories. AreNew histories.items) }
{
    let mut histories = Vec::new(alloc);
    for _ in 0..count {
        histories.push(History::new(alloc))?;
    }
    Ok(histories)
}

impl Picture {
    /// Makes the picture of so many processes, whose window begins at a line. `longest`: the characters of the longest name, of
    /// which at most [`MOST_NAME`] have room.
    pub fn new(
        alloc: Global,
        recovery: DepVec,
        longest: u32,
        first: usize,
    ) -> Result<Picture, AllocError>
        ensures { IfOk result (λ picture. IsSketchOf (length recovery) first [] (sketch_of picture)) }
    {
        let histories = new_histories(alloc, recovery.n())?;
        let left = left_side(longest);
        Ok(Picture {
            first,
            on: false,
            recovery,
            columns: Columns::new(left),
            page: Page::new(alloc, recovery.n(), left)?,
            marks: Vec::new(alloc),
            histories,
        })
    }

    /// Draws what an event showed.
    pub fn draw(&mut self, alloc: Global, step: &PlayedEvent) -> Result<(), AllocError>
        ensures { OnOk result ((at : Spot) × ((n first : ℕ) (rows : List EventRow) → IsSketchOf n first rows (sketch_of self.old)
            → IsSketchOf n first (rows ++ step_row step.now at ∷ []) (sketch_of self.new))) }
    {
        self.begin(step.line)?;
        let at = self.place(step)?;
        self.draw_event(step, at)?;
        let changed = self.change(step.recovery);
        self.keep(step, at, changed)?;
        self.end_round(alloc, step, changed)
    }

    // Counts the event of a line; with the first line of the window, the picture begins.
    fn begin(&mut self, line: usize) -> Result<(), AllocError>
        ensures { OnOk result (ReachesWindow (sketch_of self.old) (sketch_of self.new) line) }
    {
        self.reach(line)?;
        self.page.count_event(self.on);
        Ok(())
    }

    fn reach(&mut self, line: usize) -> Result<(), AllocError>
        ensures { OnOk result (ReachesWindow (sketch_of self.old) (sketch_of self.new) line) }
    {
        if self.on {
            return Ok(());
        }
        if line < self.first {
            return Ok(());
        }
        self.on = true;
        self.tell_lanes()
    }

    // Tells how the lanes stand as the window begins.
    fn tell_lanes(&mut self) -> Result<(), AllocError>
        ensures { OnOk result (sketch_of self.new ≡ sketch_of self.old) }
    {
        for p in 0..self.histories.len() {
            let interval = self.interval(p);
            self.page.begin_lane(p, interval)?;
        }
        Ok(())
    }

    // Draws what an event shows, which stands there.
    fn draw_event(&mut self, step: &PlayedEvent, at: Spot) -> Result<(), AllocError>
        requires { (at.x == 0) ≡ not self.old.on }
        ensures { OnOk result (ShowsEvent (sketch_of self.old) (sketch_of self.new) (step_row step.now at)) }
    {
        match process_of(step.event) {
            Some(p) => self.draw_own(p, step, at),
            None => self.draw_whole(step, at),
        }
    }

    // Draws what an event of no process shows: a restart takes all down.
    fn draw_whole(&mut self, step: &PlayedEvent, at: Spot) -> Result<(), AllocError>
        ensures { OnOk result (sketch_of self.new ≡ sketch_of self.old) }
    {
        if step.answer == Answer::Restarted {
            self.page.fall(at.x)?;
        }
        Ok(())
    }

    // Draws what the event itself shows.
    fn draw_own(&mut self, p: usize, step: &PlayedEvent, at: Spot) -> Result<(), AllocError>
        requires { (at.x == 0) ≡ not self.old.on }
        ensures { OnOk result (ShowsOn (Some p) (sketch_of self.old) (sketch_of self.new) (step_row step.now at)) }
    {
        if p >= self.histories.len() {
            return Ok(());
        }
        let ended = self.histories[p].ended;
        let shown = shown_of(step, ended);
        self.draw_shown(p, step, at, shown)
    }

    fn draw_shown(
        &mut self,
        p: usize,
        step: &PlayedEvent,
        at: Spot,
        shown: Shown,
    ) -> Result<(), AllocError>
        requires within { HasHistory self.old p }
        requires there { (at.x == 0) ≡ not self.old.on }
        ensures { OnOk result (Shows (sketch_of self.old) (sketch_of self.new) p shown step.now.fresh (step_entry step.now at)) }
    {
        match shown {
            Shown::Nothing => Ok(()),
            Shown::Run { sent, made, ends } => self.draw_run(p, step, at, sent, made, ends),
            Shown::Resend { sent } => self.draw_resend(p, step, at, sent),
            Shown::Receipt { frame, interval } => self.draw_receipt(p, step, at, frame, interval),
            Shown::Refused { frame } => self.draw_refused(p, step, at, frame),
            Shown::Flush => self.draw_flush(p, step, at),
            Shown::FlushFirst { count } => self.draw_flush_first(p, step, at, count),
            Shown::Checkpoint => self.draw_checkpoint(p, step, at),
            Shown::Failure { declared } => self.draw_failure(p, step, at, declared),
            Shown::Join => self.draw_join(p, step, at),
            Shown::Back { interval, inc } => self.draw_back(p, step, at, interval, inc),
            Shown::GoesOn => self.draw_goes_on(p, step, at),
        }
    }

    // Takes the recovery state that holds from now on, and returns whether it is another.
    fn change(&mut self, recovery: DepVec) -> bool
        ensures { sketch_of self.new ≡ sketch_of self.old }
    {
        let is_changed = recovery != self.recovery;
        self.recovery = recovery;
        is_changed
    }

    // Cuts all to the recovery state, if a round is finished.
    fn end_round(
        &mut self,
        alloc: Global,
        step: &PlayedEvent,
        changed: bool,
    ) -> Result<(), AllocError>
        ensures { OnOk result (SettlesIf (is_finished step.now.answer) (sketch_of self.old) (sketch_of self.new)) }
    {
        if is_finished(step.answer) {
            return self.finish(alloc, step, changed);
        }
        Ok(())
    }

    // Returns the interval of a process.
    pub(crate) fn interval(&self, p: usize) -> u32 {
        match self.histories.get(p) {
            Some(history) => history.interval,
            None => 0,
        }
    }

    // Returns the place of the first mark that waits on a lane.
    pub(crate) fn first_waiting(&self, p: usize) -> Option<u32> {
        self.histories.get(p)?.first()
    }

    // Adds the mark of an event that is not settled later, within the window.
    pub(crate) fn shape(
        &mut self,
        glyph: Glyph,
        step: &PlayedEvent,
        at: Spot,
    ) -> Result<(), AllocError>
        ensures { OnOk result (Settles (sketch_of self.old) (sketch_of self.new)
            (if self.old.on then mark_of (form_of glyph) false (step_entry step.now at) else [])) }
    {
        if !self.on {
            return Ok(());
        }
        let title = title_of(step, TitleDetail::Nothing);
        self.add_shape(&Shape {
            glyph,
            cut: false,
            at,
            title,
        })
    }

    // Adds a mark whose fate is known.
    pub(crate) fn add_shape(&mut self, shape: &Shape) -> Result<(), AllocError>
        ensures { OnOk result (Settles (sketch_of self.old) (sketch_of self.new) (shape_marks shape.now)) }
    {
        self.marks.extend_from_slice(slice::from_ref(shape))
    }

    // Adds a mark that is settled later.
    pub(crate) fn wait(
        &mut self,
        p: usize,
        step: &PlayedEvent,
        at: Spot,
        shown: Shown,
        more: TitleDetail,
    ) -> Result<(), AllocError>
        requires { HasHistory self.old p }
        ensures { OnOk result (Turns (Waits at.x shown step.now.fresh (step_entry step.now at)) (sketch_of self.old) (sketch_of self.new) p) }
    {
        let title = title_of(step, more);
        let history = &mut self.histories[p];
        let mark = Mark {
            at,
            interval: history.interval,
            shown,
            fresh: step.fresh,
            label: step.label,
            title,
        };
        history.add(&mark)
    }

    // Takes the first mark that waits on a lane, if there is one.
    pub(crate) fn next(&mut self, p: usize) -> Option<Next>
        ensures { MatchOption result ((sketch_of self.new ≡ sketch_of self.old) × ((lane_of (sketch_of self.old) p).waiting ≡ []))
            (λ next. Turns (TakesFirst next) (sketch_of self.old) (sketch_of self.new) p) }
    {
        if p >= self.histories.len() {
            return None;
        }
        let history = &mut self.histories[p];
        history.next()
    }

    // Takes the first mark that waits on a lane, if a recovery state covers it.
    pub(crate) fn next_covered(&mut self, p: usize) -> Option<Mark>
        ensures { MatchOption result ((sketch_of self.new ≡ sketch_of self.old)
            × (covered_by (lane_of (sketch_of self.old) p).reached (held_in (lane_of (sketch_of self.old) p)) ≡ []))
            (λ mark. Turns (TakesCovered mark) (sketch_of self.old) (sketch_of self.new) p) }
    {
        if p >= self.histories.len() {
            return None;
        }
        let history = &mut self.histories[p];
        history.next_covered()
    }

    // Notes that the program of a process came to its end, if it did.
    pub(crate) fn end_program(&mut self, p: usize, ended: bool)
        requires { HasHistory self.old p }
        ensures turn { Turns (Ends ended) (sketch_of self.old) (sketch_of self.new) p }
        ensures lanes { length self.new.histories.items ≡ length self.old.histories.items }
    {
        let history = &mut self.histories[p];
        history.end(ended);
    }

    // Notes that an interval of a process began, with a receipt.
    pub(crate) fn receive(&mut self, p: usize, interval: u32)
        requires { HasHistory self.old p }
        ensures turn { Turns (Receives interval) (sketch_of self.old) (sketch_of self.new) p }
        ensures lanes { length self.new.histories.items ≡ length self.old.histories.items }
    {
        let history = &mut self.histories[p];
        history.receive(interval);
    }

    // Stores so many receipts of a process, or all, and returns the place of the first that was in memory only.
    pub(crate) fn store(&mut self, p: usize, many: Option<usize>) -> Option<u32>
        requires { HasHistory self.old p }
        ensures turn { Turns (Stores many) (sketch_of self.old) (sketch_of self.new) p }
        ensures loose { is_some result ≡ has_loose (lane_of (sketch_of self.old) p).progress }
    {
        let history = &mut self.histories[p];
        history.store(many)
    }

    // Puts a process back into an interval.
    pub(crate) fn go_back(&mut self, p: usize, interval: u32)
        requires { HasHistory self.old p }
        ensures { Turns (GoesBack interval) (sketch_of self.old) (sketch_of self.new) p }
    {
        let history = &mut self.histories[p];
        history.go_back(interval);
    }

    // Notes that a process has this place in a recovery state.
    pub(crate) fn learn(&mut self, p: usize, place: u32)
        requires { HasHistory self.old p }
        ensures { Turns (Raises place) (sketch_of self.old) (sketch_of self.new) p }
    {
        let history = &mut self.histories[p];
        history.reach(place);
    }
}

// Returns the recovery state behind an event, if it changed.
pub(crate) fn state_if(changed: bool, step: &PlayedEvent) -> Option<DepVec> {
    if changed { Some(step.recovery) } else { None }
}

// Makes the title of an event.
pub(crate) fn title_of(step: &PlayedEvent, more: TitleDetail) -> Title
    ensures { (at : Spot) → title_entry result at ≡ step_entry step.now at }
{
    Title {
        line: step.line,
        event: step.event,
        answer: step.answer,
        more,
    }
}
