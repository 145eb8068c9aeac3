//! Flights: what a process hands to the thread that writes its store, and what comes back from there.

ghost use Rattle.std.specs.Prelude.{◌≡◌, ◌+◌, ◌≤◌, IfSome, IsErrOf, OnErr, OnOk, length};
ghost use Rattle.om_node.specs.Flying.{IsWriteRequest, prune_of};
ghost use Rattle.om_node.specs.Storing.{with_flight};
ghost use Rattle.om_stable.specs.Calls.{IsCleanCall, UsesStore};
ghost use Rattle.om_stable.specs.declared.stable.TheConstants.{INTERVALS};

use crate::keeping::Deposit;
use crate::node::write;
use crate::transaction::{SentStore, Transaction};
use crossbeam_channel::{Receiver, Sender, bounded};
use om_board::Bell;
use om_stable::{Ledger, Stable, StoreError};
use om_tickets::{Book, Opened, Series, Ticket};
use std::alloc::{AllocError, Global};
use std::marker::Model;
use std::sync::Wait;

/// Holds a store, and what is to be stored there.
#[derive(Drop)]
pub struct WriteRequest<J: Series, S: Stable> {
    pub store: Box<S>,
    pub transaction: Transaction,
    /// The ticket of this store and this transaction.
    pub ticket: Ticket<J, SentStore<S>>,
}

impl<J: Series, S: Stable> Model for WriteRequest<J, S> {
    ghost use Rattle.om_node.specs.Flying.{WriteRequestState, IsWriteRequest};

    ghost Value = { WriteRequestState S };

    ghost view = { λ e. record { store = e.store.value; transaction = e.transaction; ticket = e.ticket } };

    ghost invariant = { λ e. IsWriteRequest (record { store = e.store.value; transaction = e.transaction; ticket = e.ticket }) };
}

/// Holds a store that comes back, and whether it took what it was given.
#[derive(Drop)]
pub struct Landing<J: Series, S: Stable> {
    pub store: Box<S>,
    pub transaction: Transaction,
    pub told: Result<(), StoreError>,
    /// The ticket of the store as it went.
    pub ticket: Ticket<J, SentStore<S>>,
}

impl<J: Series, S: Stable> Model for Landing<J, S> {
    ghost use Rattle.om_node.specs.Flying.{IsLanding, LandingState};

    ghost Value = { LandingState S };

    ghost view = { λ l. record { store = l.store.value; transaction = l.transaction; told = l.told; ticket = l.ticket } };

    ghost invariant = { λ l. IsLanding S.content S.failed S.is_clean S.IsSound
        (record { store = l.store.value; transaction = l.transaction; told = l.told; ticket = l.ticket }) };
}

impl<J: Series, S: Ledger> WriteRequest<J, S> {
    /// Stores what is requested, in this thread. The ticket comes back with the store.
    pub fn fly(self, alloc: Global) -> Landing<J, S>
        ensures { result.ticket ≡ self.ticket }
    {
        let WriteRequest {
            mut store,
            transaction,
            ticket,
        } = self;
        let told = store_transaction(&mut *store, alloc, &transaction);
        Landing {
            store,
            transaction,
            told,
            ticket,
        }
    }
}

fn store_transaction<S: Ledger>(
    store: &mut S,
    alloc: Global,
    transaction: &Transaction,
) -> Result<(), StoreError>
    requires { transaction.now.flight.first + length transaction.now.flight.receipts.items ≤ INTERVALS }
    ensures put { IsCleanCall S.is_clean S.IsSound store.old store.new
        → OnOk result (S.content store.new ≡ with_flight (S.content store.old) transaction.now.flight (prune_of transaction.now)) }
    ensures refused { IsCleanCall S.is_clean S.IsSound store.old store.new
        → OnErr result (S.content store.new ≡ S.content store.old) }
    ensures used { UsesStore S.failed S.is_clean S.IsSound store.old (IsErrOf result StoreError.Fault) store.new }
{
    match &transaction.due {
        Some(due) => {
            let prune_to = Some(due.checkpoint);
            write(store, alloc, &transaction.flight, &due.deposit, prune_to)
        }
        None => write(
            store,
            alloc,
            &transaction.flight,
            &Deposit::none(alloc),
            None,
        ),
    }
}

/// Leads from a process to the thread that writes its store, and back. One flight is under way at a time, so each way holds one.
#[derive(Drop)]
pub struct FlightChannel<J: Series, S: Stable> {
    requests: Sender<WriteRequest<J, S>, Global>,
    landings: Receiver<Landing<J, S>, Global>,
    book: Book<J, SentStore<S>>,
}

/// Holds the other ends, which that thread has.
#[derive(Drop)]
pub struct FarEnds<J: Series, S: Stable> {
    requests: Receiver<WriteRequest<J, S>, Global>,
    landings: Sender<Landing<J, S>, Global>,
}

/// Makes a channel and its far ends. Refused where memory ran out.
pub fn flight_channel<J: Series, S: Stable>(
    alloc: Global,
    opened: Opened<SentStore<S>>,
) -> Result<(FlightChannel<J, S>, FarEnds<J, S>), AllocError>
    requires { opened.seen.book ≡ J.book }
{
    let (to, requests) = bounded(alloc, 1)?;
    let (landings, from) = bounded(alloc, 1)?;
    Ok((
        FlightChannel {
            requests: to,
            landings: from,
            book: opened.named::<J>(),
        },
        FarEnds { requests, landings },
    ))
}

impl<J: Series, S: Stable> FlightChannel<J, S> {
    /// Issues a ticket for a store and what goes with it, and its stub. None where the numbers of tickets are used up.
    pub fn issue(
        &mut self,
        store: &Box<S>,
        transaction: &Transaction,
    ) -> Option<(Ticket<J, SentStore<S>>, Ticket<J, SentStore<S>>)>
        ensures ticket { IfSome result (λ r. IsWriteRequest (record { store = store.now.value; transaction = transaction.now; ticket = r.0 })) }
        ensures stub { IfSome result (λ r. r.1 ≡ r.0) }
    {
        let sent = SentStore::of(store, transaction);
        self.book.issue(&sent)
    }
}

impl<J: Series, S: Ledger> FlightChannel<J, S> {
    /// Has what is requested stored, in the other thread. Where that is gone, it is stored at once, and comes back.
    pub fn send<R: Wait>(
        &self,
        rt: &R,
        alloc: Global,
        request: WriteRequest<J, S>,
    ) -> Option<Landing<J, S>> {
        match self.requests.send(rt, request) {
            Ok(()) => None,
            Err(error) => Some(error.into_inner().fly(alloc)),
        }
    }
}

impl<J: Series, S: Stable> FlightChannel<J, S> {
    /// Returns what has come back, if it has.
    pub fn look<R: Wait>(&self, rt: &R) -> Option<Landing<J, S>> {
        match self.landings.try_recv(rt) {
            Ok(landing) => Some(landing),
            Err(_) => None,
        }
    }

    /// Waits for what comes back. None where the other thread is gone.
    pub fn wait<R: Wait>(&self, rt: &R) -> Option<Landing<J, S>> {
        match self.landings.recv(rt) {
            Ok(landing) => Some(landing),
            Err(_) => None,
        }
    }
}

/// Stores flight by flight, until nobody sends one: what the thread does that writes the store of a process. Rings the bell of its
/// worker at each that has landed.
pub fn write_all<J: Series, S: Ledger, R: Wait>(
    rt: &R,
    alloc: Global,
    far: FarEnds<J, S>,
    bell: &Bell,
) {
    for _ in rt.forever() {
        let Ok(request) = far.requests.recv(rt) else {
            return;
        };
        let landing = request.fly(alloc);
        if far.landings.send(rt, landing).is_err() {
            return;
        }
        bell.ring();
    }
}
