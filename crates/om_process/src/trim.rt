//! What a process need not keep any longer.

ghost use Rattle.std.specs.Prelude.{◌≡◌, ◌≤◌, ◌++◌, ◌∷◌, [], drop, length};
ghost use Rattle.om_process.specs.Core.{cluster_size, with_now, with_pending};
ghost use Rattle.om_process.specs.Trims.{trimmed, trimmed_queues};

use crate::proc_core::ProcCore;
use crate::queues::Messages;
use om_interval::Bounds;

impl ProcCore {
    /// Drops the messages to each process numbered below its bound, and the outputs numbered below theirs. A bound above
    /// what was made drops all there is.
    pub fn trim(&mut self, bounds: &Bounds)
        requires { length bounds.now.got ≡ cluster_size self.old.now }
        ensures { self.new ≡ with_now self.old (trimmed (bounds.now.got ++ bounds.now.released ∷ []) self.old.now) }
    {
        trim_all(&mut self.outbox, bounds.got.as_slice());
        self.outputs.trim(bounds.released);
    }

    /// Drops the first `k` of the pending rows: the manager was told of them.
    pub fn noted(&mut self, k: usize)
        requires { k ≤ length self.old.pending }
        ensures { self.new ≡ with_pending self.old (drop k self.old.pending) }
    {
        self.pending.drain(..k);
    }
}

// Trims each queue by its bound.
fn trim_all(outbox: &mut Vec<Messages>, bounds: &[u32])
    requires { length bounds.now ≡ length outbox.old.items }
    ensures { outbox.new.items ≡ trimmed_queues bounds.now outbox.old.items }
{
    for q in 0..outbox.len() {
        outbox[q].trim(bounds[q]);
    }
}
