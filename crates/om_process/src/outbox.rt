//! What a process sent and made, as far as it is kept.

ghost use Rattle.std.specs.Prelude.{◌≡◌, ◌-◌, ◌<◌, ℕ, Some, drop, max, slice_get, IfOk, IfSome};
ghost use Rattle.om_process.specs.Core.{cluster_size};
ghost use Rattle.om_process.specs.Frames.{IsFrameOf, frame_at, messages_to, outputs_of};
ghost use Rattle.om_process.specs.Claims.{HasEntry};
ghost use Rattle.om_process.specs.Kept.{made_as, numbered, sent_as};

use crate::proc_core::ProcCore;
use crate::queues::{Made, Sent};
use om_format::Message;
use om_interval::{Pid, Tag};
use std::alloc::{AllocError, Global};

impl ProcCore {
    /// Returns the messages to a process that are kept, with their numbers.
    pub fn outbox(&self, to: Pid) -> &[Sent]
        requires { to < cluster_size self.now.now }
        ensures kept { result.now ≡ numbered sent_as (messages_to self.now to).first (messages_to self.now to).entries }
        ensures sent { (i : ℕ) (s : Sent) → slice_get result.now i ≡ Some s
            → HasEntry self.now.now.queues to s.ssn (record { interval = s.interval; body = s.body }) }
    {
        self.outbox[to.index()].as_slice()
    }

    /// Returns the outputs numbered `seq` and above that are kept, with their numbers.
    pub fn outputs_from(&self, seq: u64) -> &[Made]
        ensures kept { result.now ≡ numbered made_as (max (outputs_of self.now).first seq)
            (drop (seq - (outputs_of self.now).first) (outputs_of self.now).entries) }
        ensures made { (i : ℕ) (m : Made) → slice_get result.now i ≡ Some m
            → HasEntry self.now.now.queues (cluster_size self.now.now) m.seq (record { interval = m.interval; body = m.bytes }) }
    {
        self.outputs.above(seq)
    }

    /// Copies the `k`-th of the messages to a process that are kept, tagged with the process's present incarnation and the
    /// interval in which it was sent; `None` where there are no more than `k`.
    pub fn frame(&self, alloc: Global, to: Pid, k: usize) -> Result<Option<Message>, AllocError>
        requires { to < cluster_size self.now.now }
        ensures frame { IfOk result (λ frame. frame ≡ frame_at self.now to k) }
        ensures sent { IfOk result (λ frame. IfSome frame (λ m. IsFrameOf self.now m)) }
    {
        let messages = self.outbox(to);
        if k >= messages.len() {
            return Ok(None);
        }
        let sent = &messages[k];
        Ok(Some(Message {
            from: self.pid,
            to,
            tag: Tag {
                inc: self.inc,
                interval: sent.interval,
            },
            ssn: sent.ssn,
            body: sent.body.copy(alloc)?,
        }))
    }
}
