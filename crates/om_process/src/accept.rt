//! Messages that are offered to a process.

ghost use Rattle.std.specs.Prelude.{◌≡◌, ◌≢◌, ◌+◌, ◌<◌, ◌↔◌, ◌⊎◌, ℕ, OnOk, OnErr, IfSome, IfNone};
ghost use Rattle.om_interval.specs.Starts.{IsOrphan};
ghost use Rattle.om_process.specs.Accepts.{Answers, IsDue, IsNoStranger, taken};
ghost use Rattle.om_process.specs.declared.limits.TheConstants.{LAST_INTERVAL};

use crate::limits::LAST_INTERVAL;
use crate::log::Logged;
use crate::proc_core::ProcCore;
use crate::status::Status;
use om_format::{Message, Receipt};
use std::alloc::{AllocError, Global};
use std::mem;

/// The answer to a message that was offered.
#[derive(Clone, Copy, Debug, PartialEq, Eq)]
pub enum Accept {
    /// It was taken, and this interval began with it.
    Taken(u32),
    /// It is for another process, or its sender or its sender's incarnation is not known.
    Stranger,
    /// The interval in which it was sent was cut.
    Orphan,
    /// It was received before.
    Repeat,
    /// One from this sender that was sent before it is still to come.
    Ahead,
    /// The process does not wait for a message.
    NotWaiting,
    /// There is no further interval.
    Full,
    /// Memory ran out.
    Memory,
}

impl ProcCore {
    /// Offers a message to the process. Taken, it begins an interval, and its receipt is the last of the volatile log. The
    /// refusals are tested in their order, and change nothing.
    #[tactic(auto, using(crate::proofs::Accepting::due_is_taken, crate::proofs::Accepting::orphan_is_exact))]
    pub fn accept(&mut self, alloc: Global, message: &Message) -> Accept
        ensures answer { Answers self.old message.now result }
        ensures taken { (x : ℕ) → result ≡ Accept.Taken x → self.new ≡ taken self.old message.now }
        ensures refused { ((x : ℕ) → result ≢ Accept.Taken x) → self.new ≡ self.old }
        ensures orphan { (result ≡ Accept.Orphan) ↔ (IsNoStranger self.old message.now
            × IsOrphan self.old.starts message.now.from message.now.tag.inc message.now.tag.interval) }
        ensures due { IsDue self.old message.now → self.old.now.interval < LAST_INTERVAL
            → (result ≡ Accept.Memory) ⊎ (result ≡ Accept.Taken (self.old.now.interval + 1)) }
    {
        if let Some(refusal) = self.refusal(message) {
            return refusal;
        }
        match self.take(alloc, message) {
            Ok(()) => Accept::Taken(self.interval),
            Err(_) => Accept::Memory,
        }
    }

    // Returns what speaks against a message, if anything does.
    fn refusal(&self, message: &Message) -> Option<Accept>
        ensures some { IfSome result (λ answer. Answers self.now message.now answer) }
        ensures not_taken { IfSome result (λ answer. (x : ℕ) → answer ≢ Accept.Taken x) }
        ensures none { IfNone result (IsDue self.now message.now) }
        ensures room { IfNone result (self.now.now.interval < LAST_INTERVAL) }
    {
        let from = message.from;
        if message.to != self.pid
            || from.index() >= self.vec.n()
            || message.tag.inc > self.starts.incs(from)
        {
            return Some(Accept::Stranger);
        }
        if self.starts.is_orphan(from, message.tag) {
            return Some(Accept::Orphan);
        }
        let got = self.got.get(from);
        if message.ssn < got {
            return Some(Accept::Repeat);
        }
        if message.ssn > got {
            return Some(Accept::Ahead);
        }
        if self.status() != Status::Waiting {
            return Some(Accept::NotWaiting);
        }
        if self.interval == LAST_INTERVAL {
            return Some(Accept::Full);
        }
        None
    }

    // Takes a message that is due. What may run out of memory comes first: what is delivered stays.
    fn take(&mut self, alloc: Global, message: &Message) -> Result<(), AllocError>
        requires due { IsDue self.old message.now }
        requires room { self.old.now.interval < LAST_INTERVAL }
        ensures ok { OnOk result (self.new ≡ taken self.old message.now) }
        ensures err { OnErr result (self.new ≡ self.old) }
    {
        let body = message.body.copy(alloc)?;
        self.log.try_reserve(1)?;
        let count = self.machine.count();
        let mut log = mem::replace(&mut self.log, Vec::new(alloc));
        self.deliver(message.from, message.tag.interval, message.body.as_slice());
        let receipt = Receipt {
            to: self.pid,
            from: message.from,
            interval: self.interval,
            sender_interval: message.tag.interval,
            ssn: message.ssn,
            count,
            body,
        };
        log.push_reserved(Logged {
            receipt,
            vec: self.vec,
            got: self.got,
        });
        self.log = log;
        Ok(())
    }
}
