//! What an event shows, by its answer.

ghost use Rattle.std.specs.Prelude.{◌≡◌, Bool, ℕ};
ghost use Rattle.om_sheet.specs.Shows.{end_of, is_finished, shown};
ghost use Rattle.om_world.specs.declared.event.Answer.TheVariants as answers;
ghost use Rattle.om_world.specs.declared.event.Event.TheVariants as events;

use crate::step::PlayedEvent;
use om_manager::Gathered;
use om_process::{Accept, Status};
use om_world::{Answer, Event, Refusal};

/// What an event shows on the lane of its process.
#[derive(Clone, Copy)]
pub enum Shown {
    Nothing,
    /// The process sent messages, made outputs, or its program came to its end.
    Run {
        sent: usize,
        made: usize,
        ends: Option<Status>,
    },
    /// The messages that it keeps were sent again.
    Resend {
        sent: usize,
    },
    /// The frame was taken, and the interval began.
    Receipt {
        frame: usize,
        interval: u32,
    },
    /// The frame was not taken.
    Refused {
        frame: usize,
    },
    /// All that was received is stored.
    Flush,
    /// So many receipts are stored, the first ones that were in memory only.
    FlushFirst {
        count: usize,
    },
    Checkpoint,
    /// The process failed; declared, a gathering is open.
    Failure {
        declared: bool,
    },
    Join,
    /// The process is back in this interval and incarnation.
    Back {
        interval: u32,
        inc: u32,
    },
    GoesOn,
}

/// Returns what a step shows. `ended`: it is known already that the program of its process came to its end.
pub fn shown_of(step: &PlayedEvent, ended: bool) -> Shown
    ensures { result ≡ shown ended step.now.event step.now.answer }
{
    match step.event {
        Event::Run { .. } => run_shown(step.answer, ended),
        Event::Give { frame, .. } => give_shown(step.answer, frame),
        Event::Flush { .. } => flush_shown(step.answer),
        Event::FlushFirst { count, .. } => first_shown(step.answer, count),
        Event::Checkpoint { .. } | Event::Spell { .. } => checkpoint_shown(step.answer),
        Event::Resend { .. } => resend_shown(step.answer),
        Event::Fail { .. } => failure_shown(step.answer),
        Event::Join { .. } => join_shown(step.answer),
        Event::Resume { .. } => resume_shown(step.answer),
        Event::Trim { .. } | Event::Prune | Event::Restart => Shown::Nothing,
    }
}

fn run_shown(answer: Answer, ended: bool) -> Shown
    ensures { (process fuel : ℕ) → result ≡ shown ended (events.Run process fuel) answer }
{
    let Answer::Ran {
        status,
        sent,
        made,
        ..
    } = answer
    else {
        return Shown::Nothing;
    };
    let ends = if ended { None } else { end_of(status) };
    if sent == 0 && made == 0 && ends.is_none() {
        return Shown::Nothing;
    }
    Shown::Run { sent, made, ends }
}

// Returns the status, where it is the end of a program.
fn end_of(status: Status) -> Option<Status>
    ensures { result ≡ end_of status }
{
    match status {
        Status::Ended(_) | Status::Trapped(_) => Some(status),
        Status::Ready | Status::Waiting => None,
    }
}

fn give_shown(answer: Answer, frame: usize) -> Shown
    ensures { (ended : Bool) (process : ℕ) → result ≡ shown ended (events.Give process frame) answer }
{
    match answer {
        Answer::Given(Accept::Taken(interval)) => Shown::Receipt { frame, interval },
        Answer::Refused(why) => refusal_shown(why, frame),
        _ => Shown::Refused { frame },
    }
}

fn refusal_shown(why: Refusal, frame: usize) -> Shown
    ensures { (ended : Bool) (process : ℕ) → result ≡ shown ended (events.Give process frame) (answers.Refused why) }
{
    match why {
        Refusal::NoFrame | Refusal::NoProcess => Shown::Nothing,
        _ => Shown::Refused { frame },
    }
}

fn flush_shown(answer: Answer) -> Shown
    ensures { (ended : Bool) (process : ℕ) → result ≡ shown ended (events.Flush process) answer }
{
    match answer {
        Answer::Noted(count) if count > 0 => Shown::Flush,
        _ => Shown::Nothing,
    }
}

// Returns what is shown of a flush of so many receipts.
fn first_shown(answer: Answer, many: usize) -> Shown
    ensures { (ended : Bool) (process : ℕ) → result ≡ shown ended (events.FlushFirst process many) answer }
{
    match answer {
        Answer::Noted(count) => {
            if count == 0 || many == 0 {
                return Shown::Nothing;
            }
            Shown::FlushFirst { count: many }
        }
        _ => Shown::Nothing,
    }
}

fn checkpoint_shown(answer: Answer) -> Shown
    ensures checkpoint { (ended : Bool) (process : ℕ) → result ≡ shown ended (events.Checkpoint process) answer }
    ensures spell { (ended : Bool) (process : ℕ) → result ≡ shown ended (events.Spell process) answer }
{
    match answer {
        Answer::Noted(_) => Shown::Checkpoint,
        _ => Shown::Nothing,
    }
}

fn resend_shown(answer: Answer) -> Shown
    ensures { (ended : Bool) (process : ℕ) → result ≡ shown ended (events.Resend process) answer }
{
    match answer {
        Answer::Resent(sent) if sent > 0 => Shown::Resend { sent },
        _ => Shown::Nothing,
    }
}

fn failure_shown(answer: Answer) -> Shown
    ensures { (ended : Bool) (process : ℕ) → result ≡ shown ended (events.Fail process) answer }
{
    match answer {
        Answer::Gathered(_) => Shown::Failure { declared: true },
        Answer::Down => Shown::Failure { declared: false },
        _ => Shown::Nothing,
    }
}

fn join_shown(answer: Answer) -> Shown
    ensures { (ended : Bool) (process : ℕ) → result ≡ shown ended (events.Join process) answer }
{
    match answer {
        Answer::Gathered(_) => Shown::Join,
        _ => Shown::Nothing,
    }
}

fn resume_shown(answer: Answer) -> Shown
    ensures { (ended : Bool) (process : ℕ) → result ≡ shown ended (events.Resume process) answer }
{
    match answer {
        Answer::Back { interval, inc } => Shown::Back { interval, inc },
        Answer::GoesOn => Shown::GoesOn,
        _ => Shown::Nothing,
    }
}

/// Returns whether a round is finished with this answer.
pub fn is_finished(answer: Answer) -> bool
    ensures { result ≡ is_finished answer }
{
    match answer {
        Answer::Gathered(Gathered::Finished) | Answer::Restarted => true,
        _ => false,
    }
}
