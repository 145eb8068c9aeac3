//! Where events stand: the column of each, and the room that its words need.

ghost use Rattle.std.specs.Prelude.{◌≡◌, ◌<◌, ◌≤◌, if◌then◌else◌, IfOk, Some};
ghost use Rattle.om_picture.specs.Drawing.{sketch_of};
ghost use Rattle.om_picture.specs.Fates.{step_row};
ghost use Rattle.om_picture.specs.Places.{is_shown};
ghost use Rattle.om_picture.specs.steps.Adding.{MovesTo, Places, PlacesEvent, lane_number, shows_at};

use crate::column::MOST_HALF;
use crate::lane::{Extent, NOTHING, Wanted};
use crate::measure::{CHARACTER, digits, label_length, status_length, why_length};
use crate::page::Page;
use crate::picture::Picture;
use om_process::Status;
use om_sheet::{LabelContent, PlayedEvent, Shown, Spot, Style, process_of, shown_of};
use om_world::Answer;
use std::alloc::AllocError;

// Half the width of a refusal, and of a failure.
const REFUSED: u32 = 8;

pub(crate) const FAILURE: u32 = 11;

// Returns half the width of the column of what an event shows.
fn half_of(shown: Shown) -> u32
    ensures some { 0 < result }
    ensures narrow { result ≤ MOST_HALF }
{
    match shown {
        Shown::Nothing | Shown::Flush | Shown::FlushFirst { .. } | Shown::Join | Shown::GoesOn => 7,
        Shown::Run { .. } => 10,
        Shown::Resend { .. } | Shown::Checkpoint => 9,
        Shown::Receipt { .. } => 12,
        Shown::Refused { .. } => REFUSED,
        Shown::Failure { .. } => FAILURE,
        Shown::Back { .. } => 14,
    }
}

// Returns room for so many characters.
fn extent(shift: u32, characters: u32) -> Option<Extent> {
    Some(Extent {
        shift,
        width: characters.saturating_mul(CHARACTER),
    })
}

// Returns room for the words of a run.
fn run_words(step: &PlayedEvent, ends: Option<Status>) -> Wanted {
    let above = if step.fresh == 0 {
        None
    } else {
        extent(0, label_length(step.label, step.fresh - 1))
    };
    let below = match ends {
        Some(status) => extent(7, status_length(status)),
        None => None,
    };
    Wanted {
        above,
        beside: None,
        below,
    }
}

// Returns room for a number beside a lane.
fn number_beside(shift: u32, number: u32) -> Wanted {
    Wanted {
        above: None,
        beside: extent(shift, digits(u64::from(number))),
        below: None,
    }
}

// Returns room for a word below a lane.
fn word_below(characters: u32) -> Wanted {
    Wanted {
        above: None,
        beside: None,
        below: extent(0, characters),
    }
}

// Returns room for the words of a process that is back.
fn back_words(interval: u32, inc: u32) -> Wanted {
    Wanted {
        above: None,
        beside: extent(11, digits(u64::from(interval))),
        below: extent(0, digits(u64::from(inc)).saturating_add(4)),
    }
}

// Returns room for the words of what an event shows, but for a refusal.
fn words_of(step: &PlayedEvent, shown: Shown) -> Wanted {
    match shown {
        Shown::Run { ends, .. } => run_words(step, ends),
        Shown::Receipt { interval, .. } => number_beside(9, interval),
        Shown::Back { interval, inc } => back_words(interval, inc),
        _ => NOTHING,
    }
}

/// Returns the number of a lane.
pub(crate) fn lane_number(p: usize) -> u32
    ensures { result ≡ lane_number p }
{
    u32::try_from(p).unwrap_or(0)
}

impl Page {
    // Takes room for words of a lane, from a place on: where they have it.
    fn take_room(&mut self, p: usize, place: u32, wanted: Wanted) -> u32 {
        match self.lanes.get_mut(p) {
            Some(lane) => lane.take_room(place, wanted),
            None => place,
        }
    }

    // Returns whether the word of a refusal was just told, and reaches beyond this place.
    fn has_told(&self, p: usize, answer: Answer, place: u32) -> bool {
        let lane = self.lane_at(p);
        lane.why == Some(answer) && place < lane.below.saturating_add(4)
    }

    // Tells the word of a refusal.
    fn tell_why(&mut self, p: usize, x: u32, answer: Answer) -> Result<(), AllocError> {
        if let Some(lane) = self.lanes.get_mut(p) {
            lane.why = Some(answer);
        }
        let y = self.y(p).saturating_add(20);
        self.say(
            Style::Small,
            x.saturating_sub(4),
            y,
            LabelContent::Why(answer),
        )
    }
}

impl Picture {
    /// Returns where an event stands: in the next column, if it shows something in the window, and else in the last one; 0 before
    /// the window.
    pub(crate) fn place(&mut self, step: &PlayedEvent) -> Result<Spot, AllocError>
        ensures { IfOk result (λ at. PlacesEvent (sketch_of self.old) (sketch_of self.new) (step_row step.now at)) }
    {
        match process_of(step.event) {
            Some(p) => self.place_of_own(p, step),
            None => Ok(Spot {
                x: self.here(),
                lane: 0,
            }),
        }
    }

    // Returns the last column; 0 before the window.
    fn here(&self) -> u32
        ensures { result ≡ (if self.now.on then self.now.columns.x else 0) }
    {
        if self.on { self.columns.x } else { 0 }
    }

    // Returns where an event of a process stands.
    fn place_of_own(&mut self, p: usize, step: &PlayedEvent) -> Result<Spot, AllocError>
        ensures x { IfOk result (λ at. Places (shows_at (Some p) (sketch_of self.old) (step_row step.now at)) at.x
            (sketch_of self.old) (sketch_of self.new)) }
        ensures lane { IfOk result (λ at. at.lane ≡ lane_number p) }
    {
        let lane = lane_number(p);
        if p >= self.histories.len() {
            return Ok(Spot {
                x: self.here(),
                lane,
            });
        }
        let ended = self.histories[p].ended;
        let x = self.next_place(p, step, shown_of(step, ended))?;
        Ok(Spot { x, lane })
    }

    // Returns the place of an event of a process, by what it shows.
    fn next_place(&mut self, p: usize, step: &PlayedEvent, shown: Shown) -> Result<u32, AllocError>
        ensures { IfOk result (λ x. Places (is_shown shown) x (sketch_of self.old) (sketch_of self.new)) }
    {
        if !self.on {
            return Ok(0);
        }
        match shown {
            Shown::Nothing => Ok(self.columns.x),
            Shown::Refused { .. } => self.why_column(p, step),
            _ => self.column(p, step.line, half_of(shown), words_of(step, shown)),
        }
    }

    // Adds the column of a refusal, with its word unless that was just told.
    fn why_column(&mut self, p: usize, step: &PlayedEvent) -> Result<u32, AllocError>
        ensures { IfOk result (λ x. MovesTo x (sketch_of self.old) (sketch_of self.new)) }
    {
        let least = self.columns.least(REFUSED);
        if self.page.has_told(p, step.answer, least) {
            return self.column(p, step.line, REFUSED, NOTHING);
        }
        let wanted = word_below(why_length(step.answer));
        let x = self.column(p, step.line, REFUSED, wanted)?;
        self.page.tell_why(p, x, step.answer)?;
        Ok(x)
    }

    // Adds the next column, with room for the words of an event of a process, and returns its middle.
    fn column(
        &mut self,
        p: usize,
        line: usize,
        half: u32,
        wanted: Wanted,
    ) -> Result<u32, AllocError>
        requires some { 0 < half }
        requires narrow { half ≤ MOST_HALF }
        ensures { IfOk result (λ x. MovesTo x (sketch_of self.old) (sketch_of self.new)) }
    {
        let least = self.columns.least(half);
        let place = self.page.take_room(p, least, wanted);
        let x = self.columns.add(place, half);
        self.page.tell_column(x, self.columns.right, line)?;
        Ok(x)
    }
}
