//! An event of a script, and what is seen of the world behind it.

ghost use Rattle.std.specs.Prelude.{◌≡◌};
ghost use Rattle.om_sheet.specs.Shows.{process_of};

use om_interval::{DepVec, MAX_PROCESSES};
use om_process::Status;
use om_world::{Answer, Event};

/// How many bytes of an output a label may need.
pub const LABEL_BYTES: usize = 4;

/// An event that was played, its answer, and what was read of the world.
#[derive(Clone, Copy)]
pub struct PlayedEvent {
    /// The number of the event's line in the script, from 1.
    pub line: usize,
    pub event: Event,
    pub answer: Answer,
    /// The frames that the event made, by receiver.
    pub frames: [usize; MAX_PROCESSES],
    /// The number of the process's first output that the event handed in.
    pub first: u64,
    /// How many it handed in.
    pub fresh: u64,
    /// The label of the first of these outputs.
    pub label: Label,
    /// The recovery state behind the event.
    pub recovery: DepVec,
}

/// What is told of the bytes of an output.
#[derive(Clone, Copy)]
pub struct Label {
    /// Its first bytes, and zeros where it has fewer.
    pub bytes: [u8; LABEL_BYTES],
    /// How many it has.
    pub size: usize,
}

/// Where a process that is up or in stands.
#[derive(Clone, Copy)]
pub struct EndState {
    pub inc: u32,
    pub interval: u32,
    pub status: Status,
}

/// Returns the process of an event.
pub fn process_of(event: Event) -> Option<usize>
    ensures { result ≡ process_of event }
{
    match event {
        Event::Run { process, .. }
        | Event::Give { process, .. }
        | Event::Flush { process }
        | Event::FlushFirst { process, .. }
        | Event::Checkpoint { process }
        | Event::Spell { process }
        | Event::Resend { process }
        | Event::Trim { process }
        | Event::Fail { process }
        | Event::Join { process }
        | Event::Resume { process } => Some(process),
        Event::Prune | Event::Restart => None,
    }
}
