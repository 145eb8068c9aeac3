//! The text of what threads did: a script of `sim`, with comments.

use crate::event_text::push_line;
use om_commands::{name_of, push_state};
use om_interval::{DepVec, Pid};
use om_runner::{Act, Letter, Record};
use om_scripts::Programs;
use om_world::Event;
use std::alloc::{AllocError, Global};
use std::collections::BTreeMap;
use std::fmt::Write;

// How many messages of a pair come until those of it that are not given any more are dropped.
const FORGOTTEN_EACH: u32 = 16;

// The frames that were made and may still be given, and a few more, with their numbers: by sender, receiver, incarnation and number of the message.
#[derive(Drop)]
pub(crate) struct Frames {
    numbers: BTreeMap<(Pid, Pid, u32, u32), usize>,
    made: usize,
}

impl Frames {
    // Makes those of a run that is to begin.
    pub(crate) fn new(alloc: Global) -> Frames {
        Frames {
            numbers: BTreeMap::new(alloc),
            made: 0,
        }
    }

    // Returns the frame of the greatest number below `kept` of this sender, receiver and incarnation.
    fn last_below(&self, from: Pid, to: Pid, inc: u32, kept: u32) -> Option<(Pid, Pid, u32, u32)> {
        let (found, _) = self.numbers.range(..(from, to, inc, kept)).next_back()?;
        if found.0 == from && found.1 == to && found.2 == inc {
            return Some((from, to, inc, found.3));
        }
        None
    }

    // Drops those messages of the sender to the receiver, in this incarnation, that have lower numbers: they are not given any more.
    // The greatest goes first, so that few rows of the tree are moved.
    fn forget(&mut self, from: Pid, to: Pid, inc: u32, kept: u32) {
        for _ in 0..self.numbers.len() {
            let Some(last) = self.last_below(from, to, inc, kept) else {
                return;
            };
            self.numbers.remove(&last);
        }
    }

    // Numbers one more frame, and now and then drops what is below `kept`. If there was one of the same message and incarnation, this one stands for both.
    fn make(&mut self, letter: Letter, kept: u32) -> Result<(), AllocError> {
        let Letter { from, to, inc, ssn } = letter;
        if ssn % FORGOTTEN_EACH == 0 {
            self.forget(from, to, inc, kept);
        }
        self.numbers.insert((from, to, inc, ssn), self.made)?;
        self.made = self.made.saturating_add(1);
        Ok(())
    }

    // Returns the number of the last frame of the message.
    fn number(&self, letter: Letter) -> Option<usize> {
        let Letter { from, to, inc, ssn } = letter;
        self.numbers.get(&(from, to, inc, ssn)).copied()
    }

    // Returns the event that an act is, if it is one.
    fn event_of(&self, act: Act) -> Option<Event> {
        match act {
            Act::Run { process, steps } => Some(Event::Run {
                process: process.index(),
                fuel: steps,
            }),
            Act::Give { letter, .. } => Some(Event::Give {
                process: letter.to.index(),
                frame: self.number(letter)?,
            }),
            Act::Send { .. } | Act::Finish { .. } => None,
            other => event_at(other),
        }
    }
}

// Returns the event that an act of a process alone is, if it is one.
fn event_at(act: Act) -> Option<Event> {
    match act {
        Act::Resend { process } => Some(Event::Resend {
            process: process.index(),
        }),
        Act::Flush { process } => Some(Event::Flush {
            process: process.index(),
        }),
        Act::FlushFirst { process, count } => Some(Event::FlushFirst {
            process: process.index(),
            count,
        }),
        Act::Spell { process } => Some(Event::Spell {
            process: process.index(),
        }),
        Act::Checkpoint { process } => Some(Event::Checkpoint {
            process: process.index(),
        }),
        Act::Trim { process } => Some(Event::Trim {
            process: process.index(),
        }),
        Act::Prune => Some(Event::Prune),
        Act::Fail { process, .. } => Some(Event::Fail {
            process: process.index(),
        }),
        Act::Join { process } => Some(Event::Join {
            process: process.index(),
        }),
        Act::GoOn { process } | Act::Back { process, .. } => {
            Some(Event::Resume {
                process: process.index(),
            })
        }
        _ => None,
    }
}

// Writes what a person looks for before an act, if it is of that kind; a round that it finishes has this recovery state.
fn push_comment(
    text: &mut String,
    programs: &Programs,
    act: Act,
    recovery: Option<&DepVec>,
) -> Result<(), AllocError> {
    match act {
        Act::Fail { process, interval } => {
            let name = name_of(programs, process.index());
            write!(text, "# {name} fails as interval {interval} begins\n")
        }
        Act::Back {
            process,
            interval,
            inc,
        } => {
            let name = name_of(programs, process.index());
            write!(
                text,
                "# {name} goes back to {interval}, incarnation {inc}\n"
            )
        }
        Act::Finish { round } => push_finish(text, round, recovery),
        _ => Ok(()),
    }
}

// Writes that a round is finished.
fn push_finish(text: &mut String, round: u32, recovery: Option<&DepVec>) -> Result<(), AllocError> {
    write!(text, "# round {round} is finished")?;
    match recovery {
        Some(recovery) => {
            text.push_str(": recovery")?;
            push_state(text, recovery)
        }
        None => text.push('\n'),
    }
}

impl Frames {
    // Writes an act: a comment before it, where a person looks for one, and its event, if it is one.
    fn push_act(
        &mut self,
        text: &mut String,
        programs: &Programs,
        act: &Act,
        recovery: Option<&DepVec>,
    ) -> Result<(), AllocError> {
        push_comment(text, programs, *act, recovery)?;
        if let Act::Send { letter, kept } = *act {
            self.make(letter, kept)?;
        }
        if let Some(event) = self.event_of(*act) {
            push_line(text, event)?;
        }
        Ok(())
    }

    // Returns the events of a part of a record, which follows on the one before: a line for each, and comments between them.
    pub(crate) fn part_text(
        &mut self,
        alloc: Global,
        programs: &Programs,
        part: &Record,
    ) -> Result<String, AllocError> {
        let mut text = String::new(alloc);
        let mut finished: usize = 0;
        for act in &part.acts {
            self.push_act(&mut text, programs, act, part.recoveries.get(finished))?;
            if matches!(act, Act::Finish { .. }) {
                finished = finished.saturating_add(1);
            }
        }
        Ok(text)
    }
}
