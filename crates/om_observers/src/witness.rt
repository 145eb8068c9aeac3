//! What is kept of what one process did.

ghost use Rattle.std.specs.Prelude.{◌≡◌, ◌++◌, ◌∷◌, [], false, true, IsTrue, OnErr, OnOk, take};

use om_interval::Pid;
use om_process::Witness;
use std::alloc::{AllocError, Global};
use std::marker::Model;

/// Keeps what a process did, but for what was rolled back; where that is not to be kept, nothing is added.
#[derive(Drop)]
pub struct Past {
    keeps: bool,
    witness: Witness,
}

impl Model for Past {
    ghost use Rattle.om_observers.specs.Witnessing.{PastState};

    ghost Value = { PastState };

    ghost view = { λ p. record { keeps = p.keeps; senders = p.witness.senders.items; count = p.witness.count } };
}

impl Past {
    /// Begins for a process at its start.
    pub fn new(alloc: Global, keeps: bool) -> Past
        ensures { result ≡ record { keeps = keeps; senders = []; count = 0 } }
    {
        Past {
            keeps,
            witness: Witness {
                senders: Vec::new(alloc),
                count: 0,
            },
        }
    }

    /// Goes on for a process that is taken up, with the places of the senders of all that it had received.
    pub fn taken_up(senders: Vec<u8>) -> Past
        ensures { result ≡ record { keeps = true; senders = senders.items; count = 0 } }
    {
        Past {
            keeps: true,
            witness: Witness { senders, count: 0 },
        }
    }

    /// Returns by receipt the place of its sender, where that is kept.
    pub fn senders(&self) -> &[u8]
        ensures { result.now ≡ self.now.senders }
    {
        &self.witness.senders
    }

    /// Adds a receipt. Refused only where memory ran out, and then nothing is added.
    pub fn receive(&mut self, from: Pid) -> Result<(), AllocError>
        ensures added { IsTrue self.old.keeps → OnOk result (self.new ≡ record self.old { senders = self.old.senders ++ from ∷ [] }) }
        ensures off { self.old.keeps ≡ false → self.new ≡ self.old }
        ensures refused { OnErr result (self.new ≡ self.old) }
    {
        if self.keeps {
            self.witness.senders.push(from.index() as u8)?;
        }
        Ok(())
    }

    /// Drops what came after an interval, in which the process is back.
    pub fn cut(&mut self, interval: u32)
        ensures { self.new ≡ record self.old { senders = take interval self.old.senders } }
    {
        self.witness.senders.truncate(interval as usize);
    }

    /// Takes in that the process has ended, with so many instructions.
    pub fn end(&mut self, count: u64)
        ensures { self.new ≡ record self.old { count = count } }
    {
        self.witness.count = count;
    }

    /// Gives up what was kept.
    pub fn into_witness(self) -> Witness
        ensures senders { result.senders.items ≡ self.senders }
        ensures count { result.count ≡ self.count }
    {
        let Past { witness, .. } = self;
        witness
    }
}
