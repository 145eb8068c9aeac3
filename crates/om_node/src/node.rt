//! A process over its store, up or down.

ghost use Rattle.std.specs.Prelude.{◌≡◌, ◌≢◌, ◌<◌, ◌+◌, ◌≤◌, ℕ, ◌∷◌, [], ◌++◌, IfErr, IfOk, IfSome, IsErrOf, IsOk, IsTrue, OnErr, OnOk, drop, false, is_some, length};
ghost use Rattle.om_manager.specs.State.{held_by, process_count};
ghost use Rattle.om_member.specs.Handed.{AreHandedUpTo, outputs_from};
ghost use Rattle.om_member.specs.Keeps.{Keeps};
ghost use Rattle.om_member.specs.Told.{IsToldAtOnce};
ghost use Rattle.om_format.specs.Queues.{queue_end};
ghost use Rattle.om_process.specs.Accepts.{Answers, taken};
ghost use Rattle.om_process.specs.Core.{IsEnd, RunsTo, cluster_size, move_of, settled, status_of, with_now, with_pending};
ghost use Rattle.om_process.specs.Flights.{Carries, landed};
ghost use Rattle.om_process.specs.Frames.{outputs_of};
ghost use Rattle.om_process.specs.Images.{program_of};
ghost use Rattle.om_process.specs.Resumes.{resumed};
ghost use Rattle.om_process.specs.Stores.{flushed};
ghost use Rattle.om_process.specs.Trims.{trimmed};
ghost use Rattle.om_node.specs.Ends.{IsWholeRun};
ghost use Rattle.om_stable.specs.Content.{nothing};
ghost use Rattle.om_node.specs.Stores.{AreNeverClean};
ghost use Rattle.om_node.specs.Nodes.{AreAlwaysClean, TakesFrom, KeepsMember, LeavesCore};
ghost use Rattle.om_node.specs.Storing.{HasStored, with_flight};
ghost use Rattle.om_stable.specs.Calls.{IsCleanCall, UsesStore};
ghost use Rattle.om_stable.specs.declared.stable.TheConstants.{INTERVALS};

use crate::flying::{FlightChannel, Landing, WriteRequest};
use crate::keeping::{Deposit, Due};
use crate::transaction::{SentStore, Transaction};
use crate::worker_fault::WorkerFault;
use om_format::Message;
use om_interval::{Bounds, Pid, Starts, Verdict};
use om_manager::{OutputError, RecordError};
use om_member::ManagerAccess;
use om_process::{Accept, Down, Flight, Image, ProcCore, RunEnd, StartFault, Status};
use om_stable::{Ledger, NewCheckpoint, Stable, StoreError, WriteBatch};
use om_tickets::{Series, Ticket};
use std::alloc::{AllocError, Global};
use std::marker::Model;
use std::mem::replace;
use std::sync::Wait;

/// Holds a process that is up, and its store. Where the store is clean, the process stands along its image, and so does each
/// checkpoint that the store holds.
#[derive(Drop)]
pub struct Node<'a, J: Series, S: Stable> {
    image: &'a Image,
    pid: Pid,
    // The number of processes.
    n: usize,
    // In boxes, which a worker moves from call to call.
    core: Box<ProcCore>,
    hold: Hold<J, S>,
    // Where the store is slow, the way to the thread that writes it.
    channel: Option<FlightChannel<J, S>>,
}

// Where the store of a process is.
#[derive(Drop)]
pub(crate) enum Hold<J: Series, S: Stable> {
    Here(Box<S>),
    // With the flight that is under way, and has a ticket like this.
    Away(Ticket<J, SentStore<S>>),
}

impl<'a, J: Series, S: Stable> Model for Node<'a, J, S> {
    ghost use Rattle.om_process.specs.Images.{program_of};
    ghost use Rattle.std.specs.Prelude.{is_some};
    ghost use Rattle.om_node.specs.Nodes.{NodeState};
    ghost use Rattle.om_node.specs.Holding.{IsHeld, is_away};

    ghost Value = { NodeState };

    ghost view = { λ d. record {
      member = record { program = program_of d.image.now; own = d.pid; n = d.n };
      core = d.core.value;
      away = is_away d.hold;
      slow = is_some d.channel;
    } };

    ghost invariant = { λ d. IsHeld S.content S.is_clean S.IsSound
        (record { member = record { program = program_of d.image.now; own = d.pid; n = d.n }; core = d.core.value }) d.hold };
}

/// Holds a process that is down, and its store.
#[derive(Drop)]
pub struct DownNode<'a, J: Series, S: Stable> {
    image: &'a Image,
    pid: Pid,
    n: usize,
    store: Box<S>,
    channel: Option<FlightChannel<J, S>>,
}

impl<'a, J: Series, S: Stable> Model for DownNode<'a, J, S> {
    ghost use Rattle.om_process.specs.Images.{program_of};
    ghost use Rattle.om_node.specs.Nodes.{IsKept, Member};

    ghost Value = { Member };

    ghost view = { λ d. record { program = program_of d.image.now; own = d.pid; n = d.n } };

    ghost invariant = { λ d. IsKept S.content S.is_clean S.IsSound
        (record { program = program_of d.image.now; own = d.pid; n = d.n }) d.store.value };
}

// Puts a value into a box of its own.
fn boxed<T: Drop>(alloc: Global, value: T) -> Result<Box<T>, AllocError>
    ensures { IfOk result (λ b. b.value ≡ value) }
{
    match Box::new(alloc, value) {
        Ok(in_box) => Ok(in_box),
        Err(error) => Err(AllocError::from(error)),
    }
}

impl<'a, J: Series, S: Stable> Node<'a, J, S> {
    /// Starts the process over a store that holds nothing. Refused as `ProcCore::start`, and where memory ran out.
    pub fn start(
        alloc: Global,
        image: &'a Image,
        pid: Pid,
        n: usize,
        store: S,
        channel: Option<FlightChannel<J, S>>,
    ) -> Result<Node<'a, J, S>, StartFault>
        requires sound { IsTrue (S.is_clean store) → S.IsSound store }
        requires empty { IsTrue (S.is_clean store) → S.content store ≡ nothing }
        ensures member { IfOk result (λ node. node.member ≡ record { program = program_of image.entry.now; own = pid; n = n }) }
        ensures slow { IfOk result (λ node. node.slow ≡ is_some channel) }
    {
        let mut store = boxed(alloc, store)?;
        let core = ProcCore::start(
            alloc,
            &image.bytes,
            image.size,
            image.ext,
            pid,
            n,
            &mut *store,
        )?;
        let core = boxed(alloc, core)?;
        Ok(Node {
            image,
            pid,
            n,
            core,
            hold: Hold::Here(store),
            channel,
        })
    }

    /// Returns the process.
    pub fn core(&self) -> &ProcCore
        ensures core { result.now ≡ self.now.core }
        ensures own { self.now.core.own ≡ self.now.member.own }
        ensures size { cluster_size self.now.core.now ≡ self.now.member.n }
    {
        &self.core
    }

    /// Runs at most `fuel` instructions. Refused where memory ran out.
    pub fn run(&mut self, alloc: Global, fuel: u64) -> Result<RunEnd, WorkerFault>
        ensures member { KeepsMember self.old self.new }
        ensures ran { IfOk result (λ ran. RunsTo self.old.core fuel ran.steps ran.status self.new.core) }
    {
        Ok(self.core.run(alloc, fuel)?)
    }

    /// Offers a message to the process.
    pub fn accept(&mut self, alloc: Global, message: &Message) -> Accept
        ensures member { KeepsMember self.old self.new }
        ensures slow { self.new.slow ≡ self.old.slow }
        ensures answer { Answers self.old.core message.now result }
        ensures taken { (x : ℕ) → result ≡ Accept.Taken x → self.new.core ≡ taken self.old.core message.now }
        ensures refused { ((x : ℕ) → result ≢ Accept.Taken x) → self.new.core ≡ self.old.core }
    {
        self.core.accept(alloc, message)
    }

    /// Stores the volatile log. Refused where the store or memory refuses, and then the log is as it was.
    #[inline(never)]
    pub fn flush(&mut self, alloc: Global) -> Result<(), WorkerFault>
        requires here { self.old.away ≡ false }
        ensures member { KeepsMember self.old self.new }
        ensures away { self.new.away ≡ false }
        ensures stored { OnOk result (self.new.core ≡ flushed self.old.core) }
        ensures refused { LeavesCore self.old result self.new }
    {
        let Hold::Here(store) = &mut self.hold else {
            unreachable!()
        };
        Ok(self.core.flush(alloc, &mut **store)?)
    }

    /// Offers the pending rows to the manager at once, up to the first that is refused, and says how many were not: those are pending
    /// no longer.
    pub fn note<O: ManagerAccess>(
        &mut self,
        access: &mut O,
        alloc: Global,
    ) -> (usize, Result<(), RecordError>)
        ensures told { IsToldAtOnce (O.state access.old) self.old.core.round self.old.member.own self.old.core.pending
            result.0 result.1 (O.state access.new) }
        ensures keeps { Keeps (O.state access.old) (O.state access.new) }
        ensures core { self.new.core ≡ with_pending self.old.core (drop result.0 self.old.core.pending) }
        ensures member { KeepsMember self.old self.new }
        ensures away { self.new.away ≡ self.old.away }
    {
        om_member::note_at_once(&mut self.core, access, alloc, self.pid)
    }

    /// Hands in the outputs that the manager has not, up to the first that is refused.
    pub fn hand_in<O: ManagerAccess>(
        &self,
        access: &mut O,
        alloc: Global,
    ) -> Result<(), OutputError>
        requires known { self.now.member.own < process_count (O.state access.old) }
        requires taken { TakesFrom O.Takes S.is_clean self.now.member }
        ensures keeps { Keeps (O.state access.old) (O.state access.new) }
        ensures handed { let p = self.now.member.own in AreHandedUpTo (O.state access.old) self.now.core.round p
            (outputs_from self.now.core (length (held_by (O.state access.old) p))) result (O.state access.new) }
    {
        om_member::hand_in(&self.core, access, alloc, self.pid)
    }

    /// Drops what the process need not keep.
    pub fn trim(&mut self, bounds: &Bounds)
        requires { length bounds.now.got ≡ self.old.member.n }
        ensures member { KeepsMember self.old self.new }
        ensures away { self.new.away ≡ self.old.away }
        ensures core { self.new.core
            ≡ with_now self.old.core (trimmed (bounds.now.got ++ bounds.now.released ∷ []) self.old.core.now) }
    {
        self.core.trim(bounds);
    }

    /// Goes on after a round that does not roll it back. Refused as `ProcCore::resume`, and then nothing changes.
    pub fn resume(
        &mut self,
        alloc: Global,
        starts: &Starts,
        verdict: &Verdict,
    ) -> Result<(), WorkerFault>
        requires { length starts.now ≡ self.old.member.n }
        ensures member { KeepsMember self.old self.new }
        ensures round { OnOk result (self.new.core.round ≡ verdict.now.round) }
        ensures on { OnOk result (self.new.core ≡ resumed self.old.core verdict.now.round starts.now) }
        ensures refused { LeavesCore self.old result self.new }
    {
        Ok(self.core.resume(alloc, starts, verdict)?)
    }

    /// Lets the process fail: all but its store is lost.
    #[inline(never)]
    pub fn fail(self) -> DownNode<'a, J, S>
        requires here { self.away ≡ false }
        ensures { result ≡ self.entry.member }
    {
        let Node {
            image,
            pid,
            n,
            core,
            hold,
            channel,
        } = self;
        Box::into_inner(core).fail();
        let Hold::Here(store) = hold else {
            unreachable!()
        };
        DownNode {
            image,
            pid,
            n,
            store,
            channel,
        }
    }

    /// Returns how the process ended, and its store; or itself, where it has not ended.
    #[inline(never)]
    pub fn end(self) -> Result<(Status, S), Node<'a, J, S>>
        requires here { self.away ≡ false }
        ensures end { IfOk result (λ e. IsEnd e.0) }
        ensures whole { let m = self.entry.member in IfOk result (λ e. IsTrue (S.is_clean e.1)
            → IsWholeRun m.program m.own m.n e.0 (queue_end (outputs_of self.entry.core))) }
        ensures member { IfErr result (λ node. node.member ≡ self.entry.member) }
    {
        let status = self.core.status();
        if !status.has_ended() {
            return Err(self);
        }
        let Node { hold, .. } = self;
        match hold {
            Hold::Here(store) => Ok((status, Box::into_inner(store))),
            Hold::Away(_) => unreachable!(),
        }
    }
}

impl<'a, J: Series, S: Ledger> Node<'a, J, S> {
    /// Stores, in one transaction, the first `k` receipts of the log, all where it is shorter, a checkpoint of now where one is due, and
    /// what the store is given beside; and drops there what stands before a checkpoint. Refused where the store is away with a flight,
    /// or it or memory refuses; then nothing counts as stored.
    #[inline(never)]
    pub fn store(
        &mut self,
        alloc: Global,
        k: usize,
        is_checkpoint_due: bool,
        deposit: &Deposit,
        prune_to: Option<u32>,
    ) -> Result<(), WorkerFault>
        ensures member { KeepsMember self.old self.new }
        ensures stored { OnOk result (HasStored k is_checkpoint_due self.old.core self.new.core) }
        ensures refused { LeavesCore self.old result self.new }
    {
        // The process's interval has 32 bits, so those of its receipts, which are not above it, have 32 bits too.
        let _ = self.core.interval();
        let flight = self.core.hand_over(alloc, k, is_checkpoint_due)?;
        let Hold::Here(store) = &mut self.hold else {
            return Err(WorkerFault::Refused);
        };
        write(&mut **store, alloc, &flight, deposit, prune_to)?;
        self.core.land(&flight)?;
        Ok(())
    }

    // Returns what goes with a flight: the first k receipts of the log, all where it is shorter, a checkpoint of now where one
    // is due, and what is due in the store beside.
    fn pack(
        &mut self,
        alloc: Global,
        k: usize,
        is_checkpoint_due: bool,
        due: Option<Due>,
    ) -> Result<Transaction, WorkerFault>
        ensures member { KeepsMember self.old self.new }
        ensures core { self.new.core ≡ self.old.core }
        ensures carries { IfOk result (λ transaction. Carries k is_checkpoint_due self.old.core transaction.flight) }
        ensures due { IfOk result (λ transaction. transaction.due ≡ due) }
    {
        // The process's interval has 32 bits, so those of its receipts, which are not above it, have 32 bits too.
        let _ = self.core.interval();
        let flight = self.core.hand_over(alloc, k, is_checkpoint_due)?;
        let transaction = Transaction { flight, due };
        Ok(transaction)
    }

    /// Begins a flight: has the first `k` receipts of the log, all where it is shorter, a checkpoint of now where one is due, and what is
    /// due in the store beside stored in one transaction, while the process goes on. Says what came back at once. Refused where
    /// memory ran out, the store is not slow, or a flight is under way.
    #[inline(never)]
    pub fn launch<R: Wait>(
        &mut self,
        rt: &R,
        alloc: Global,
        k: usize,
        is_checkpoint_due: bool,
        due: Option<Due>,
    ) -> Result<Option<Landing<J, S>>, WorkerFault>
        ensures member { KeepsMember self.old self.new }
        ensures core { self.new.core ≡ self.old.core }
    {
        let transaction = self.pack(alloc, k, is_checkpoint_due, due)?;
        let Some(channel) = &mut self.channel else {
            return Err(WorkerFault::Refused);
        };
        let Hold::Here(store) = &self.hold else {
            return Err(WorkerFault::Refused);
        };
        let Some((ticket, stub)) = channel.issue(store, &transaction) else {
            return Err(WorkerFault::Refused);
        };
        let Hold::Here(store) = replace(&mut self.hold, Hold::Away(stub)) else {
            return Err(WorkerFault::Refused);
        };
        let request = WriteRequest {
            store,
            transaction,
            ticket,
        };
        Ok(channel.send(rt, alloc, request))
    }
}

impl<'a, J: Series, S: Stable> Node<'a, J, S> {
    /// Returns whether its store is slow, so that a flight takes to it what is to be stored.
    pub fn is_slow(&self) -> bool
        ensures { result ≡ self.now.slow }
    {
        self.channel.is_some()
    }

    /// Returns whether a flight is under way.
    pub fn is_away(&self) -> bool
        ensures { result ≡ self.now.away }
    {
        match self.hold {
            Hold::Here(_) => false,
            Hold::Away(_) => true,
        }
    }

    /// Returns what came back of the flight that is under way, if it has landed.
    pub fn look<R: Wait>(&self, rt: &R) -> Option<Landing<J, S>> {
        self.channel.as_ref()?.look(rt)
    }

    /// Waits until the flight that is under way has landed, and returns what came back.
    pub fn wait<R: Wait>(&self, rt: &R) -> Option<Landing<J, S>> {
        self.channel.as_ref()?.wait(rt)
    }

    /// Takes the store back, and where it took what it was given, the process notes that it is stored. Refused where the store
    /// refused, and then all that is still in the log; and where what comes back is not of the flight that is under way.
    #[inline(never)]
    pub fn land(&mut self, landing: Landing<J, S>) -> Result<Transaction, WorkerFault>
        ensures member { KeepsMember self.old self.new }
        ensures took { OnOk result (IsOk landing.told) }
        ensures here { OnOk result (self.new.away ≡ false) }
        ensures transaction { IfOk result (λ transaction. transaction ≡ landing.transaction) }
        ensures landed { IfOk result (λ transaction. self.new.core ≡ landed transaction.flight self.old.core) }
        ensures refused { LeavesCore self.old result self.new }
    {
        let Landing {
            store,
            transaction,
            told,
            ticket,
        } = landing;
        let Hold::Away(stub) = &self.hold else {
            return Err(WorkerFault::Refused);
        };
        if !ticket.is_of(stub) {
            return Err(WorkerFault::Refused);
        }
        self.hold = Hold::Here(store);
        told?;
        self.core.land(&transaction.flight)?;
        Ok(transaction)
    }
}

// Writes into a store, in one transaction, what a process handed over and what the store is given beside; and drops there what
// stands before a checkpoint.
pub(crate) fn write<S: Ledger>(
    store: &mut S,
    alloc: Global,
    flight: &Flight,
    deposit: &Deposit,
    prune_to: Option<u32>,
) -> Result<(), StoreError>
    requires { flight.now.first + length flight.now.receipts.items ≤ INTERVALS }
    ensures put { IsCleanCall S.is_clean S.IsSound store.old store.new
        → OnOk result (S.content store.new ≡ with_flight (S.content store.old) flight.now prune_to) }
    ensures refused { IsCleanCall S.is_clean S.IsSound store.old store.new
        → OnErr result (S.content store.new ≡ S.content store.old) }
    ensures used { UsesStore S.failed S.is_clean S.IsSound store.old (IsErrOf result StoreError.Fault) store.new }
{
    let checkpoint = match &flight.checkpoint {
        Some(spelled) => Some(NewCheckpoint {
            x: spelled.row.x,
            bytes: &spelled.bytes,
        }),
        None => None,
    };
    let batch = WriteBatch {
        first: flight.first,
        receipts: &flight.receipts,
        checkpoint,
        outputs: deposit.outputs(),
        senders: deposit.senders(),
        prune_to,
    };
    store.put_batch(alloc, &batch)
}

impl<'a, J: Series, S: Stable> DownNode<'a, J, S> {
    /// Returns a process that is down over a store of which nothing is known. Refused where memory ran out.
    pub fn over(
        alloc: Global,
        image: &'a Image,
        pid: Pid,
        n: usize,
        store: S,
        channel: Option<FlightChannel<J, S>>,
    ) -> Result<DownNode<'a, J, S>, AllocError>
        requires { AreNeverClean S.is_clean }
        ensures { IfOk result (λ node. node ≡ record { program = program_of image.entry.now; own = pid; n = n }) }
    {
        let store = boxed(alloc, store)?;
        Ok(DownNode {
            image,
            pid,
            n,
            store,
            channel,
        })
    }

    /// Comes back after a round that rolls it back. Its store is cut then. Refused as `Down::roll_back`, and where memory ran out.
    #[inline(never)]
    pub fn come_back(
        self,
        alloc: Global,
        starts: &Starts,
        verdict: &Verdict,
    ) -> Result<Node<'a, J, S>, WorkerFault>
        requires { length starts.now ≡ self.n }
        ensures member { IfOk result (λ node. node.member ≡ self.entry) }
        ensures round { IfOk result (λ node. node.core.round ≡ verdict.now.round) }
        ensures back { IfOk result (λ node. node.core
            ≡ settled self.entry.own node.core.now verdict.now.inc verdict.now.round starts.now) }
        ensures interval { AreAlwaysClean S.is_clean → IfOk result (λ node. node.core.now.interval ≡ verdict.now.r) }
    {
        let DownNode {
            image,
            pid,
            n,
            mut store,
            channel,
        } = self;
        match (Down { pid, n }).roll_back(alloc, &mut *store, starts, verdict) {
            Ok(core) => {
                let core = boxed(alloc, core)?;
                Ok(Node {
                    image,
                    pid,
                    n,
                    core,
                    hold: Hold::Here(store),
                    channel,
                })
            }
            Err((_, fault)) => Err(WorkerFault::from(fault)),
        }
    }
}
