//! A machine that goes along the receipts of its process.

ghost use Rattle.std.specs.Prelude.{◌≡◌, ◌≢◌, ◌+◌, ◌-◌, [], IfOk, IfNone, IfSome, MatchBool, OnOk, false, true};
ghost use Rattle.om_format.specs.Receipts.{ReceiptRecord, SpellsReceipt, receipt_record};
ghost use Rattle.om_machine.specs.State.{State};
ghost use Rattle.om_timeline.specs.Alone.{HasTurns, turns_alone};
ghost use Rattle.om_stored_timeline.specs.Following.{FitsAlone, IsRest};
ghost use Rattle.om_stored_timeline.specs.steps.Walking.{IsAtReceipt, IsGoneOn, IsLed, IsReceived, IsTakenIn, IsUnfit};

use om_format::{DecodeError, Receipt, decode_receipt};
use om_interval::Pid;
use om_machine::Machine;
use om_process::Status;
use om_timeline::{Alone, Deed};
use om_world::Event;
use std::alloc::{AllocError, Global};

/// How many instructions are shown behind the last receipt, where the process does not wait, end or trap before.
pub const MOST_BEHIND: u64 = 20_000_000;

// A process on its way along its receipts: what these did, as events and deeds.
#[derive(Drop)]
pub(crate) struct Follower {
    pub(crate) alone: Alone,
    // How many turns it took behind the last receipt.
    pub(crate) done: u64,
    // Of the last receipt.
    pub(crate) interval: u32,
    pub(crate) events: Vec<Event>,
    pub(crate) deeds: Vec<Deed>,
}

// Reads the receipt that these bytes spell, which names interval `y`, if they do.
fn receipt_at(alloc: Global, y: u32, bytes: &[u8]) -> Result<Option<Receipt>, AllocError>
    ensures found { IfOk result (λ found. IfSome found (λ r. SpellsReceipt (receipt_record r) bytes.now)) }
    ensures named { IfOk result (λ found. IfSome found (λ r. r.interval ≡ y)) }
    ensures none { IfOk result (λ found. IfNone found ((r : ReceiptRecord) → SpellsReceipt r bytes.now → r.interval ≡ y → ⊥)) }
{
    match decode_receipt(alloc, bytes) {
        Ok(receipt) if receipt.interval == y => Ok(Some(receipt)),
        Ok(_) => Ok(None),
        Err(DecodeError::Memory) => Err(AllocError),
        Err(_) => Ok(None),
    }
}

impl Follower {
    // Stands with a machine right behind the receipt of an interval.
    pub(crate) fn new(
        alloc: Global,
        machine: Machine,
        process: Pid,
        n: u32,
        interval: u32,
    ) -> Follower
        ensures still { IsAtReceipt result }
        ensures machine { result.alone.machine ≡ machine }
        ensures own { result.alone.own ≡ process }
        ensures n { result.alone.n ≡ n }
        ensures interval { result.interval ≡ interval }
        ensures events { result.events.items ≡ [] }
        ensures deeds { result.deeds.items ≡ [] }
    {
        let own = process.index() as u32;
        Follower {
            alone: Alone { machine, own, n },
            done: 0,
            interval,
            events: Vec::new(alloc),
            deeds: Vec::new(alloc),
        }
    }

    // Goes to where the receipt was taken in, and answers whether it fits there.
    fn comes_to(&mut self, receipt: &Receipt) -> bool
        requires { IsAtReceipt self.old }
        ensures fits { MatchBool result (FitsAlone self.old.alone.own self.old.alone.n self.old.alone.machine (receipt_record receipt.now))
            (FitsAlone self.old.alone.own self.old.alone.n self.old.alone.machine (receipt_record receipt.now) → ⊥) }
        ensures there { result ≡ true → self.new.done ≡ receipt.now.count - self.old.alone.machine.count }
        ensures gone { IsGoneOn self.old self.new }
    {
        if receipt.to.index() as u32 != self.alone.own {
            return false;
        }
        if receipt.from.index() as u32 >= self.alone.n {
            return false;
        }
        let count = self.alone.machine.count();
        if receipt.count < count {
            return false;
        }
        let turns = receipt.count - count;
        self.done = self.alone.go_while(turns);
        if self.done < turns {
            return false;
        }
        self.alone.status() == Status::Waiting
    }

    // Takes in what interval `y` began with, where these bytes are a receipt that fits, and answers whether they are.
    fn take(&mut self, alloc: Global, y: u32, bytes: &[u8]) -> Result<bool, AllocError>
        requires { IsAtReceipt self.old }
        ensures taken { IfOk result (λ taken. taken ≡ true → IsTakenIn self.old y bytes.now self.new) }
        ensures unfit { IfOk result (λ taken. taken ≡ false → IsUnfit self.old.alone.own self.old.alone.n self.old.alone.machine y bytes.now) }
        ensures gone { IfOk result (λ taken. taken ≡ false → IsGoneOn self.old self.new) }
    {
        let Some(receipt) = receipt_at(alloc, y, bytes)? else {
            return Ok(false);
        };
        if !self.comes_to(&receipt) {
            return Ok(false);
        }
        self.receive(receipt)?;
        Ok(true)
    }

    // Takes in a receipt where it stands, behind the turns before it.
    fn receive(&mut self, receipt: Receipt) -> Result<(), AllocError>
        ensures { OnOk result (IsReceived self.old (receipt_record receipt) self.new) }
    {
        let process = self.alone.own as usize;
        let fuel = self.done;
        self.events.push(Event::Run { process, fuel })?;
        let frame = receipt.interval as usize;
        self.events.push(Event::Give { process, frame })?;
        self.deeds.push(Deed::Ran(fuel))?;
        let from = receipt.from.index() as u32;
        self.alone.receive(from, receipt.body.as_slice());
        self.deeds.push(Deed::Took(from, receipt.body))?;
        self.interval = receipt.interval;
        self.done = 0;
        Ok(())
    }

    // Takes in one row after another, as long as it is of the next interval and fits.
    pub(crate) fn follow(
        &mut self,
        alloc: Global,
        rows: &Vec<(u32, Vec<u8>)>,
    ) -> Result<(), AllocError>
        requires { IsAtReceipt self.old }
        ensures { OnOk result (IsLed self.old rows.now.items self.new) }
    {
        for (y, bytes) in rows {
            if !self.comes_before(*y) {
                return Ok(());
            }
            if !self.take(alloc, *y, bytes)? {
                return Ok(());
            }
        }
        Ok(())
    }

    // Returns whether `y` is the next interval.
    fn comes_before(&self, y: u32) -> bool
        ensures { MatchBool result (y ≡ self.now.interval + 1) (y ≢ self.now.interval + 1) }
    {
        self.interval < y && y - self.interval == 1
    }

    // Goes on behind the last receipt, as long as there are turns, or at least for many; answers how many there are behind it.
    pub(crate) fn go_on(&mut self) -> u64
        ensures rest { (m : State) → self.old.alone.machine ≡ turns_alone self.old.alone.own self.old.alone.n self.old.done m
            → HasTurns self.old.alone.own self.old.alone.n self.old.done m → IsRest self.old.alone.own self.old.alone.n m result }
        ensures events { self.new.events ≡ self.old.events }
        ensures deeds { self.new.deeds ≡ self.old.deeds }
    {
        if self.done >= MOST_BEHIND {
            return self.done;
        }
        self.done + self.alone.go_while(MOST_BEHIND - self.done)
    }
}
