//! One process of a record, or all.

ghost use Rattle.std.specs.Prelude.{◌≡◌, IfOk};
ghost use Rattle.om_debug.specs.Told.{text_of, ReadsNothing, IsNotLast};
ghost use Rattle.om_inferiors.specs.Serving.{IsShownOutcome, pause_text};

use crate::inferiors::Inferiors;
use om_debug::{Debugger, Reply, Wish};
use om_timeline::PlayFault;
use std::alloc::{AllocError, Global};

/// What is shown of a record.
#[derive(Drop)]
pub enum Shown {
    /// One process; the others go on unseen.
    One(Debugger),
    /// All processes, in one time.
    All(Inferiors),
}

impl Shown {
    /// Answers a packet of these bytes. Refused where memory ran out, or the record is not played on: then the processes may have
    /// moved, and nothing else has changed.
    pub fn answer<R: Wish>(
        &mut self,
        alloc: Global,
        packet: &[u8],
        reader: &mut R,
    ) -> Result<Reply, PlayFault>
        ensures outcome { IsShownOutcome packet.now self.old result self.new }
        ensures unread { ReadsNothing R.remaining reader.old reader.new }
    {
        match self {
            Shown::One(debugger) => debugger.answer(packet, reader),
            Shown::All(inferiors) => inferiors.answer(alloc, packet, reader),
        }
    }

    /// Tells that what is shown stands where it stands, as one who asked for a stop is told. Refused only where memory ran out.
    pub fn interrupted(&self, alloc: Global) -> Result<Reply, AllocError>
        ensures paused { IfOk result (λ told. text_of told ≡ pause_text self.now) }
        ensures last { IfOk result IsNotLast }
    {
        match self {
            Shown::One(debugger) => debugger.interrupted(),
            Shown::All(inferiors) => inferiors.interrupted(alloc),
        }
    }
}
