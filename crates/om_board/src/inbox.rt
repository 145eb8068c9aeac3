//! Inboxes: queues of messages from one process to another, with a pass to put and one to take.

ghost use Rattle.std.specs.Prelude.{◌≡◌, [], true, false, None, Some, IfOk};
ghost use mathlib.Core.List.{IsPrefix};
ghost use Rattle.crossbeam_channel.specs.Claims.{view as knows, IsSeatAt};
ghost use Rattle.crossbeam_channel.specs.Ends.{sends_on};
ghost use Rattle.om_board.specs.Inboxes.{IsOfLine, MatchPut, MatchTake};
ghost use Rattle.om_board.specs.steps.Order.{hand};

use crate::hand::Hand;
use crate::order::{InOrder, Pair, PutStep, Roles, Settles, TakeStep, Total};
use crossbeam_channel::{Pass, RuledReceiver, RuledSender, TrySendError, bounded_with};
use om_format::Message;
use om_interval::Pid;
use std::alloc::{AllocError, Global};
use std::marker::{Brand, Model};
use std::sync::Wait;

/// How many messages an inbox holds at most.
pub const CAPACITY: usize = 64;

type Sender = RuledSender<Message, Hand, InOrder>;

type Receiver = RuledReceiver<Message, Hand, InOrder>;

type Ticket = Pass<Message, Hand>;

/// What became of a message that was to be put.
#[derive(Drop)]
pub enum PutAnswer {
    /// It is in the inbox.
    Put,
    /// The inbox was full, and the message comes back.
    Full(Message),
    /// Nobody could take from the inbox any longer, and the message comes back. While the inbox is there this does not come: it
    /// keeps both its ends.
    Gone(Message),
}

/// A queue of messages from one process to another, which may be itself. To a contract it is a line: the channel, and the
/// pair of processes.
#[derive(Drop)]
pub struct Inbox {
    from: Pid,
    to: Pid,
    sender: Sender,
    receiver: Receiver,
}

impl Model for Inbox {
    ghost use Rattle.std.specs.Prelude.{◌≡◌};
    ghost use Rattle.crossbeam_channel.specs.Claims.{IsKeyed};
    ghost use Rattle.crossbeam_channel.specs.Ends.{sends_on, receives_on, ruled_capacity};
    ghost use Rattle.om_board.specs.Inboxes.{Line};
    ghost use Rattle.om_board.specs.declared.inbox.TheConstants.{CAPACITY};

    ghost Value = { Line };

    ghost view = { λ b. record {
      channel = ((sends_on b.sender).stamps.shared.table_id, (sends_on b.sender).stamps.shared.key);
      from = b.from;
      to = b.to;
    } };

    ghost invariant = { λ b. (receives_on b.receiver ≡ sends_on b.sender) × (ruled_capacity (sends_on b.sender) ≡ CAPACITY)
        × IsKeyed (sends_on b.sender) };
}

/// The leave to put into one inbox. To a contract it is the inbox's line and what its holder has put.
#[derive(Drop)]
pub struct PutPass {
    ticket: Ticket,
}

impl Model for PutPass {
    ghost use Rattle.std.specs.Prelude.{◌≡◌, [], true};
    ghost use Rattle.crossbeam_channel.specs.Claims.{view as knows};
    ghost use Rattle.om_board.specs.Inboxes.{Traffic};

    ghost Value = { Traffic };

    ghost view = { λ p. record {
      line = record {
        channel = (p.ticket.table_id, p.ticket.me.0.of);
        from = (knows p.ticket).from;
        to = (knows p.ticket).to;
      };
      messages = (knows p.ticket).put;
    } };

    ghost invariant = { λ p. (p.ticket.me.1 ≡ []) × ((knows p.ticket).puts ≡ true) };
}

/// The leave to take from one inbox. To a contract it is the inbox's line, what its holder has taken, and all that was put,
/// once the pass that put is taken in.
#[derive(Drop)]
pub struct TakePass {
    ticket: Ticket,
}

impl Model for TakePass {
    ghost use Rattle.std.specs.Prelude.{◌≡◌, [], true};
    ghost use Rattle.crossbeam_channel.specs.Claims.{view as knows};
    ghost use Rattle.om_board.specs.Inboxes.{Takings};
    ghost use Rattle.om_board.specs.steps.Order.{known_put};

    ghost Value = { Takings };

    ghost view = { λ p. record {
      line = record {
        channel = (p.ticket.table_id, p.ticket.me.0.of);
        from = (knows p.ticket).from;
        to = (knows p.ticket).to;
      };
      messages = (knows p.ticket).taken;
      put = known_put (knows p.ticket).puts (knows p.ticket).put;
    } };

    ghost invariant = { λ p. (p.ticket.me.1 ≡ []) × ((knows p.ticket).takes ≡ true) };
}

// Cuts the first pass into one that puts and one that takes, both for this pair.
fn roles<J: Pair>(sender: &Sender, pass: &mut Ticket, from: Pid, to: Pid) -> Ticket
    requires pair { (J.from ≡ from) × (J.to ≡ to) }
    requires seat { IsSeatAt (sends_on sender.now) pass.old }
    requires first { knows pass.old ≡ hand true true 0 0 [] [] }
    ensures seats { IsSeatAt (sends_on sender.now) pass.new × IsSeatAt (sends_on sender.now) result }
    ensures puts { knows pass.new ≡ hand true false from to [] [] }
    ensures takes { knows result ≡ hand false true from to [] [] }
{
    sender.another::<Roles<J>>(pass)
}

impl Inbox {
    /// Makes an empty inbox from one process to another, with its two passes.
    pub fn new(alloc: Global, from: Pid, to: Pid) -> Result<(Inbox, PutPass, TakePass), AllocError>
        ensures from { IfOk result (λ made. made.0.from ≡ from) }
        ensures to { IfOk result (λ made. made.0.to ≡ to) }
        ensures put { IfOk result (λ made. made.1 ≡ record { line = made.0; messages = [] }) }
        ensures taken { IfOk result (λ made. made.2 ≡ record { line = made.0; messages = []; put = None }) }
    {
        let (sender, receiver, mut put) = bounded_with(alloc, CAPACITY)?;
        let take = roles::<Brand>(&sender, &mut put, from, to);
        let inbox = Inbox {
            from,
            to,
            sender,
            receiver,
        };
        Ok((inbox, PutPass { ticket: put }, TakePass { ticket: take }))
    }

    /// Puts a message, where there is room.
    pub fn put<R: Wait>(&self, rt: &R, pass: &mut PutPass, message: Message) -> PutAnswer
        requires own { pass.old.line ≡ self.now }
        requires pair { IsOfLine self.now message }
        ensures { MatchPut result message pass.old pass.new }
    {
        let sent = self
            .sender
            .try_send_as::<PutStep, R>(rt, &mut pass.ticket, message);
        match sent {
            Ok(()) => PutAnswer::Put,
            Err(TrySendError::Full(back)) => PutAnswer::Full(back),
            Err(error) => PutAnswer::Gone(error.into_inner()),
        }
    }

    /// Takes the next message, if there is one. It does not wait for one.
    pub fn take<R: Wait>(&self, rt: &R, pass: &mut TakePass) -> Option<Message>
        requires own { pass.old.line ≡ self.now }
        ensures { MatchTake result pass.old pass.new }
    {
        match self
            .receiver
            .try_recv_as::<TakeStep, R>(rt, &mut pass.ticket)
        {
            Ok(message) => Some(message),
            Err(_) => None,
        }
    }

    /// Takes in the pass of a sender that has ended: what was taken so far begins what was put. Takes go on as before.
    pub fn settle<R: Wait>(&self, _rt: &R, pass: &mut TakePass, put: PutPass)
        requires own { pass.old.line ≡ self.now }
        requires same_line { put.line ≡ self.now }
        ensures known { pass.new ≡ record pass.old { put = Some put.messages } }
        ensures settled { IsPrefix pass.old.messages put.messages }
    {
        let PutPass { ticket } = put;
        self.sender.absorb::<Settles>(&mut pass.ticket, ticket);
        self.sender.learn_as::<Total>(&mut pass.ticket);
    }

    /// Returns the process whose messages these are.
    pub fn from(&self) -> Pid
        ensures { result ≡ self.now.from }
    {
        self.from
    }

    /// Returns the process to which they go.
    pub fn to(&self) -> Pid
        ensures { result ≡ self.now.to }
    {
        self.to
    }
}
