//! Of which kind an event is for one process.

ghost use Rattle.std.specs.Prelude.{◌≡◌};
ghost use Rattle.om_timeline.specs.steps.Kinds.{IsKind, kind_of};

use om_process::Accept;
use om_world::{Answer, Event, Refusal};

// What an event is for the machine of one process.
#[derive(Clone, Copy, Debug, PartialEq, Eq)]
pub(crate) enum Kind {
    // The machine stays, or the process is down.
    Nothing,
    // It took so many turns.
    Ran(u64),
    // It received the frame of a number.
    Took(usize),
    // It came back.
    Back,
    // Memory ran out.
    NoMemory,
}

// Returns of which kind an event was for the process of a number, by its answer.
pub(crate) fn kind_of(process: usize, answer: Answer, event: Event) -> Kind
    ensures kind { result ≡ kind_of process answer event }
    ensures is { IsKind process answer event result }
{
    match (answer, event) {
        (Answer::Ran { steps, .. }, Event::Run { process: other, .. }) if other == process => {
            Kind::Ran(steps)
        }
        (
            Answer::Given(Accept::Taken(_)),
            Event::Give {
                process: other,
                frame,
            },
        ) if other == process => Kind::Took(frame),
        (Answer::Back { .. }, Event::Resume { process: other }) if other == process => Kind::Back,
        (Answer::Refused(Refusal::Memory), _) => Kind::NoMemory,
        _ => Kind::Nothing,
    }
}
