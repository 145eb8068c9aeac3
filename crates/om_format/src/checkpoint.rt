//! Checkpoints.

ghost use Rattle.std.specs.Prelude.{length, map};
ghost use Rattle.om_format.specs.Checkpoints.{IsCheckpoint};
ghost use Rattle.om_format.specs.Queues.{queue_record};

use crate::head::Head;
use crate::memory::MemoryBytes;
use crate::queue::Queue;

/// The state of a process in an interval.
#[derive(Debug, Drop)]
pub struct Checkpoint {
    pub head: Head,
    pub memory: MemoryBytes,
    /// The messages that are kept, by receiver.
    pub kept: Vec<Queue>,
    /// The outputs that are kept.
    pub outputs: Queue,
    // The values fit each other.
    pub ghost lawful: { IsCheckpoint (record {
      n = length head.vec;
      head = head;
      memory = memory;
      kept = map queue_record kept.items;
      outputs = queue_record outputs;
    }) },
}
