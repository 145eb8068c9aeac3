//! The results of environment calls. Each counts as one finished instruction, and the next one follows it.

ghost use Rattle.std.specs.Prelude.{◌≡◌, ◌+◌, ◌≤◌, length};
ghost use Rattle.om_machine.specs.derived.NextStep.{next_of};
ghost use Rattle.om_machine.specs.State.{written};
ghost use Rattle.om_machine.specs.Finishing.{TakesWord, TakesBody, finished_word, finished_who, finished_receive};

use crate::event::{EnvCall, Event};
use crate::known::forget;
use crate::limits::{A0, A1};
use crate::machine::Machine;
use crate::memory::overwrite;
use om_pages::{PAGE, mark, page_count};

impl Machine {
    /// Finishes the send or the output at which the machine stands: its result goes into x10.
    #[tactic(auto, using(crate::proofs::Stops::room_at_word), unfolding(crate::specs::Finishing::finished_word, crate::specs::State::put, crate::specs::State::moved_to))]
    pub fn finish_word(&mut self, v: u32)
        requires { TakesWord (next_of self.old).0 }
        ensures state { self.new ≡ finished_word v self.old }
        ensures counted { self.new.count ≡ self.old.count + 1 }
    {
        self.put(A0, v);
        self.advance();
    }

    /// Finishes the call at which the machine stands, the question who it is: the process's own number goes into x10, the
    /// number of processes into x11.
    #[tactic(auto, using(crate::proofs::Stops::room_at_who), unfolding(crate::specs::Finishing::finished_who, crate::specs::State::put, crate::specs::State::moved_to))]
    pub fn finish_who(&mut self, own: u32, n: u32)
        requires { (next_of self.old).0 ≡ Event.Call EnvCall.Who }
        ensures state { self.new ≡ finished_who own n self.old }
        ensures counted { self.new.count ≡ self.old.count + 1 }
    {
        self.put(A0, own);
        self.put(A1, n);
        self.advance();
    }

    /// Finishes the receive at which the machine stands, whose buffer lies in memory: the first bytes of the body go there,
    /// as many as there is room for, the body's length modulo 2^32 goes into x10 and the sender's number into x11.
    #[tactic(auto, using(crate::proofs::Stops::room_at_body, crate::proofs::Stops::buffer_at_body), unfolding(crate::specs::Finishing::finished_receive, crate::specs::State::put, crate::specs::State::moved_to, crate::specs::State::written))]
    pub fn finish_receive(&mut self, from: u32, body: &[u8])
        requires { TakesBody self.old (next_of self.old).0 }
        ensures state { self.new ≡ finished_receive from body.now self.old }
        ensures counted { self.new.count ≡ self.old.count + 1 }
    {
        let addr = self.number(A0);
        let room = self.number(A1) as usize;
        self.write_all(addr, &body[..body.len().min(room)]);
        self.put(A0, (body.len() % 0x1_0000_0000) as u32);
        self.put(A1, from);
        self.advance();
    }

    // Writes bytes to memory, after which nothing is known of the words that they lie in, and marks their pages.
    #[tactic(auto, unfolding(crate::specs::State::written))]
    fn write_all(&mut self, address: u32, bytes: &[u8])
        requires { address + length bytes.now ≤ length self.old.memory }
        ensures state { self.new ≡ written self.old address bytes.now }
        ensures count { self.new.count ≡ self.old.count }
    {
        let start = address as usize;
        let end = start + bytes.len();
        forget(&mut self.table, start / 4, (end + 3) / 4);
        mark(&mut self.touched, start / PAGE, page_count(end));
        overwrite(&mut self.memory, start, bytes);
    }
}
