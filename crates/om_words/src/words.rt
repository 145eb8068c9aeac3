//! What is printed, the form of each, and where it is told.

use om_arguments::{DEBUG_HELP, HELP, IMAGE_HELP, REPLAY_HELP, RUN_HELP, SIM_HELP};
use om_commands::CommandError;
use om_event_text::{push_answer, push_status};
use om_machine::Cause;
use om_manager::Gathered;
use om_process::{Accept, Status};
use om_text::LineError;
use om_world::{Answer, Refusal};
use std::alloc::{AllocError, Global};

/// What may be printed.
#[derive(Clone, Copy)]
pub enum Word {
    Fault(CommandError),
    Line(LineError),
    Status(Status),
    /// As the titles of pictures tell it: a law of the command `draw` says that `sim` writes the same.
    Answer(Answer),
}

/// A word and its form.
pub type Row = (Word, &'static str);

/// Words with their forms, and the sections that tell of them.
#[derive(Clone, Copy)]
pub struct Group {
    pub name: &'static str,
    /// The line of the formats that begins the section; another heading ends it.
    pub heading: &'static str,
    /// Empty, where no help is to tell of them.
    pub help: &'static str,
    /// The line of the help that begins the section begins so.
    pub first: &'static str,
    /// The line behind that one begins so, if there is one.
    pub next: &'static str,
    pub rows: &'static [Row],
}

static LINE_FAULTS: [Row; 11] = [
    (Word::Line(LineError::UnknownLine), "unknown line"),
    (Word::Line(LineError::WrongCount), "wrong count of words"),
    (Word::Line(LineError::BadNumber), "bad number"),
    (Word::Line(LineError::BadWord), "bad word"),
    (Word::Line(LineError::BadName), "bad name"),
    (Word::Line(LineError::NameTaken), "name taken"),
    (Word::Line(LineError::NoSuchName), "no such name"),
    (Word::Line(LineError::OutOfPlace), "out of place"),
    (Word::Line(LineError::TooMany), "too many"),
    (Word::Line(LineError::BadSize), "bad size"),
    (Word::Line(LineError::ImageTooLong), "image too long"),
];

static FAULTS: [Row; 4] = [
    (Word::Fault(CommandError::TooLong), "too long"),
    (Word::Fault(CommandError::CannotRead), "cannot read"),
    (Word::Fault(CommandError::CannotWrite), "cannot write"),
    (Word::Fault(CommandError::NoMemory), "no memory"),
];

static IMAGE_FAULTS: [Row; 4] = [
    (Word::Line(LineError::BadNumber), "bad number"),
    (Word::Line(LineError::BadName), "bad name"),
    (Word::Line(LineError::BadSize), "bad size"),
    (Word::Line(LineError::ImageTooLong), "image too long"),
];

static RUN_FAULTS: [Row; 10] = [
    (Word::Fault(CommandError::EmptyScript), "empty script"),
    (Word::Fault(CommandError::OutOfTurns), "out of turns"),
    (Word::Fault(CommandError::StoreFault), "store fault"),
    (Word::Fault(CommandError::StoreInUse(0)), "store in use"),
    (
        Word::Fault(CommandError::AnotherCluster(0)),
        "another cluster",
    ),
    (Word::Fault(CommandError::StoreMissing(0)), "store missing"),
    (Word::Fault(CommandError::NoThread), "no thread"),
    (Word::Fault(CommandError::Unlike), "unlike its check"),
    (Word::Fault(CommandError::NoSuchProcess), "no such process"),
    (Word::Fault(CommandError::CannotWrite), "cannot write"),
];

static DEBUG_FAULTS: [Row; 2] = [
    (Word::Fault(CommandError::NoSuchProcess), "no such process"),
    (Word::Fault(CommandError::EmptyScript), "empty script"),
];

static REPLAY_FAULTS: [Row; 5] = [
    (Word::Fault(CommandError::NoCheckpoint), "no checkpoint"),
    (Word::Fault(CommandError::Damaged(7)), "damaged Y"),
    (
        Word::Fault(CommandError::MissingReceipt(8)),
        "missing receipt Y",
    ),
    (Word::Fault(CommandError::Mismatch(9)), "mismatch Y"),
    (Word::Fault(CommandError::StoreFault), "store fault"),
];

static STATUSES: [Row; 4] = [
    (Word::Status(Status::Ready), "ready"),
    (Word::Status(Status::Waiting), "waiting"),
    (Word::Status(Status::Ended(7)), "ended CODE"),
    (Word::Status(Status::Trapped(Cause::Break)), "trapped CAUSE"),
];

static ANSWERS: [Row; 30] = [
    (
        Word::Answer(Answer::Ran {
            steps: 4,
            status: Status::Ready,
            sent: 1,
            made: 2,
        }),
        "ran STEPS STATUS sent M made K",
    ),
    (Word::Answer(Answer::Given(Accept::Taken(1))), "taken X"),
    (Word::Answer(Answer::Given(Accept::Stranger)), "stranger"),
    (Word::Answer(Answer::Given(Accept::Orphan)), "orphan"),
    (Word::Answer(Answer::Given(Accept::Repeat)), "repeat"),
    (Word::Answer(Answer::Given(Accept::Ahead)), "ahead"),
    (
        Word::Answer(Answer::Given(Accept::NotWaiting)),
        "not-waiting",
    ),
    (Word::Answer(Answer::Given(Accept::Full)), "full"),
    (Word::Answer(Answer::Given(Accept::Memory)), "memory"),
    (Word::Answer(Answer::Noted(3)), "noted K"),
    (Word::Answer(Answer::Resent(2)), "sent M"),
    (Word::Answer(Answer::Trimmed), "trimmed"),
    (Word::Answer(Answer::Pruned), "pruned"),
    (Word::Answer(Answer::Gathered(Gathered::Waiting)), "waiting"),
    (
        Word::Answer(Answer::Gathered(Gathered::Finished)),
        "finished",
    ),
    (Word::Answer(Answer::Down), "down"),
    (
        Word::Answer(Answer::Back {
            interval: 5,
            inc: 1,
        }),
        "back X inc I",
    ),
    (Word::Answer(Answer::GoesOn), "goes-on"),
    (Word::Answer(Answer::Restarted), "restarted"),
    (
        Word::Answer(Answer::Refused(Refusal::NoProcess)),
        "no-process",
    ),
    (Word::Answer(Answer::Refused(Refusal::NotUp)), "not-up"),
    (Word::Answer(Answer::Refused(Refusal::NoFrame)), "no-frame"),
    (Word::Answer(Answer::Refused(Refusal::NotIn)), "not-in"),
    (Word::Answer(Answer::Refused(Refusal::NoRound)), "no-round"),
    (Word::Answer(Answer::Refused(Refusal::Spent)), "spent"),
    (Word::Answer(Answer::Refused(Refusal::Present)), "present"),
    (Word::Answer(Answer::Refused(Refusal::Fault)), "fault"),
    (Word::Answer(Answer::Refused(Refusal::Damaged)), "damaged"),
    (Word::Answer(Answer::Refused(Refusal::Memory)), "memory"),
    (
        Word::Answer(Answer::Refused(Refusal::Unsettled)),
        "unsettled",
    ),
];

pub fn line_faults() -> Group {
    Group {
        name: "line faults",
        heading: "## Texts in",
        help: "",
        first: "",
        next: "",
        rows: &LINE_FAULTS,
    }
}

pub fn faults() -> Group {
    Group {
        name: "faults",
        heading: "## Texts in",
        help: HELP,
        first: "Beside what its own help says",
        next: "Status:",
        rows: &FAULTS,
    }
}

pub fn image_faults() -> Group {
    Group {
        name: "faults of image",
        heading: "## `omlog image`",
        help: IMAGE_HELP,
        first: "A linked program, an ELF file",
        next: "Example",
        rows: &IMAGE_FAULTS,
    }
}

pub fn run_faults() -> Group {
    Group {
        name: "faults of run",
        heading: "## `omlog run`",
        help: RUN_HELP,
        first: "Answers:",
        next: "A faulty file",
        rows: &RUN_FAULTS,
    }
}

pub fn debug_faults() -> Group {
    Group {
        name: "faults of debug",
        heading: "## `omlog debug`",
        help: DEBUG_HELP,
        first: "Refused",
        next: "A faulty record",
        rows: &DEBUG_FAULTS,
    }
}

pub fn replay_faults() -> Group {
    Group {
        name: "faults of replay",
        heading: "## `omlog replay`",
        help: REPLAY_HELP,
        first: "Writes the state",
        next: "Example",
        rows: &REPLAY_FAULTS,
    }
}

pub fn statuses() -> Group {
    Group {
        name: "statuses",
        heading: "## `omlog replay`",
        help: REPLAY_HELP,
        first: "Writes the state",
        next: "Example",
        rows: &STATUSES,
    }
}

pub fn answers() -> Group {
    Group {
        name: "answers of sim",
        heading: "## `omlog sim`",
        help: SIM_HELP,
        first: "Answers:",
        next: "A faulty script",
        rows: &ANSWERS,
    }
}

/// Returns a word as it is printed.
pub fn printed(alloc: Global, word: Word) -> Result<String, AllocError> {
    let mut text = String::new(alloc);
    match word {
        Word::Fault(fault) => return format!(in alloc; "{fault}"),
        Word::Line(fault) => return format!(in alloc; "{fault}"),
        Word::Status(status) => push_status(&mut text, status)?,
        Word::Answer(answer) => push_answer(&mut text, answer)?,
    }
    Ok(text)
}
