//! What a process waits for is delivered: for the first time, or once more.

ghost use Rattle.std.specs.Prelude.{◌≡◌, ◌<◌, []};
ghost use Rattle.om_process.specs.Core.{cluster_size, with_now};
ghost use Rattle.om_process.specs.Process.{delivered};
ghost use Rattle.om_process.specs.Turns.{IsWaiting};
ghost use Rattle.om_process.specs.declared.limits.TheConstants.{LAST_INTERVAL};

use crate::proc_core::ProcCore;
use om_interval::Pid;

impl ProcCore {
    // Delivers what the process waits for, which begins an interval. A log has a receipt for that interval only afterwards, so
    // it is not in the process meanwhile.
    pub(crate) fn deliver(&mut self, from: Pid, sender_interval: u32, body: &[u8])
        requires from { from < cluster_size self.old.now }
        requires waits { IsWaiting self.old.own (cluster_size self.old.now) self.old.now }
        requires room { self.old.now.interval < LAST_INTERVAL }
        requires unlogged { self.old.log ≡ [] }
        ensures { self.new ≡ with_now self.old
            (delivered self.old.own self.old.now (record { from = from; interval = sender_interval; body = body.now })) }
    {
        let next = self.interval + 1;
        self.machine.finish_receive(from.index() as u32, body);
        self.interval = next;
        self.vec.join_tag(from, sender_interval);
        self.vec.set(self.pid, next);
        self.got.set(from, self.got.get(from) + 1);
    }
}
