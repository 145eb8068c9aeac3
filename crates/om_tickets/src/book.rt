//! Whoever issues tickets.

ghost use Rattle.std.specs.Prelude.{◌≡◌, ◌+◌, ◌<◌, ◌^◌, ◌++◌, ◌∷◌, [], IfSome, length};
ghost use Rattle.om_tickets.specs.Rules.{head_of};

use crate::ticket::Ticket;
use logbook::{Gain, Offer, Plain, Play, Rule, Seen, Start, Word};
use std::marker::{Brand, PhantomData};

// How many tickets a book has.
const MOST: u64 = 1 << 60;

/// The rule of a book: its word is the number of tickets that were issued.
pub struct Law;

impl<T> Rule<T, u64> for Law {
    ghost use Rattle.std.specs.Prelude.{[]};
    ghost use base.Fml.{ftrue};
    ghost use Rattle.om_tickets.specs.Rules.{IsKept};

    ghost holds = { λ cells log. IsKept cells log };

    ghost first = { [] };

    ghost hinted = { λ n log. Unit {0} };

    ghost shows = { λ log. [] };

    ghost keeps = { λ names log. ftrue };

    ghost moves = { λ ask before after answer. Unit {0} };
}

/// Nothing is traded.
pub struct Nothing;

impl<T> Gain<T, u64> for Nothing {
    ghost use base.Fml.{ftrue};

    ghost after = { λ names about answer. ftrue };
}

/// A step that issues a ticket.
pub struct Add;

impl<T> Play<T, u64> for Add {
    ghost use Rattle.om_tickets.specs.Rules.{Adds};

    ghost then = { Adds };
}

/// It is asked for by what the ticket is for.
impl<T> Plain<T, T, u64> for Add {
    ghost use Rattle.std.specs.Prelude.{None};

    ghost ask = { λ entry. entry };

    ghost state = { λ entry. None };
}

/// Which book it is. Each call of a program picks it.
pub trait Series {
    ghost use Rattle.logbook.specs.Pages.{Book};

    ghost book: { Book };
}

impl Series for Brand {
    ghost book = { record { number = 0; log_name = 0; cells_name = 0 } };
}

/// A book of which no ticket was issued, before it has a name.
#[derive(Drop)]
pub struct Opened<T> {
    head: Word<T, u64, Law>,
    seen: Seen<T, u64, Law>,
    pub ghost empty: { seen.log ≡ [] },
    pub ghost head_is: { head ≡ head_of seen.book },
}

impl<T> Opened<T> {
    /// Opens a book.
    pub fn new() -> Opened<T> {
        let (seen, mut first, _second) = Seen::open(Start::alone(), 0, 0);
        Opened {
            head: Word::tracked(0, &mut first),
            seen,
        }
    }

    /// Returns the book under a name.
    pub fn named<J: Series>(self) -> Book<J, T>
        requires { self.seen.book ≡ J.book }
    {
        let Opened { head, seen } = self;
        Book {
            head,
            last: Ticket::of(0, seen),
        }
    }
}

/// Issues tickets.
#[derive(Drop)]
pub struct Book<J: Series, T> {
    head: Word<T, u64, Law>,
    // The last ticket, or one that is for nothing.
    last: Ticket<J, T>,
    ghost head_is: { head ≡ head_of J.book },
}

impl<J: Series, T> Book<J, T> {
    /// Issues a ticket, and its stub, which is another. None where all are issued.
    pub fn issue(&mut self, entry: &T) -> Option<(Ticket<J, T>, Ticket<J, T>)>
        ensures ticket { IfSome result (λ r. r.0 ≡ self.old.last ++ entry.now ∷ []) }
        ensures stub { IfSome result (λ r. r.1 ≡ r.0) }
    {
        if self.last.number() >= MOST {
            return None;
        }
        if !self.last.follow(&self.head, entry) {
            return None;
        }
        Some((self.last.again(), self.last.again()))
    }
}
