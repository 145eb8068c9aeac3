//! Tickets.

ghost use Rattle.std.specs.Prelude.{◌≡◌, ◌+◌, ◌<◌, ◌^◌, ◌++◌, ◌∷◌, [], IsTrue, length, MatchBool};
ghost use Rattle.om_tickets.specs.Rules.{head_of};

use crate::book::{Add, Law, Nothing, Series};
use logbook::{Offer, Seen, Word};
use std::marker::{Model, PhantomData};

/// A ticket. To a contract it is all that tickets of its book were issued for, up to this one, which is the last.
#[derive(Drop)]
pub struct Ticket<J: Series, T> {
    number: u64,
    seen: Seen<T, u64, Law>,
    of: PhantomData<J>,
}

impl<J: Series, T> Model for Ticket<J, T> {
    ghost use Rattle.std.specs.Prelude.{◌≡◌, List, length};

    ghost Value = { List T };

    ghost view = { λ t. t.seen.log };

    ghost invariant = { λ t. (t.number ≡ length t.seen.log) × (t.seen.book ≡ J.book) };
}

impl<J: Series, T> Ticket<J, T> {
    // Makes a ticket of what was seen, with its number.
    pub(crate) fn of(number: u64, seen: Seen<T, u64, Law>) -> Ticket<J, T>
        requires { (number ≡ length seen.log) × (seen.book ≡ J.book) }
        ensures { result ≡ seen.log }
    {
        Ticket {
            number,
            seen,
            of: PhantomData,
        }
    }

    // Returns the number of the ticket.
    pub(crate) fn number(&self) -> u64
        ensures { result ≡ length self.now }
    {
        self.number
    }

    /// Returns whether two tickets have one number: then both are of the same.
    pub fn is_of(&self, other: &Ticket<J, T>) -> bool
        ensures { IsTrue result → self.now ≡ other.now }
    {
        let mut both = self.seen.again();
        both.learn(&other.seen);
        self.number == other.number
    }

    // Returns the same ticket once more.
    pub(crate) fn again(&self) -> Ticket<J, T>
        ensures { result ≡ self.now }
    {
        Ticket {
            number: self.number,
            seen: self.seen.again(),
            of: PhantomData,
        }
    }

    // Becomes the next ticket, and says whether it did: it did not where another was issued.
    pub(crate) fn follow(&mut self, head: &Word<T, u64, Law>, entry: &T) -> bool
        requires room { length self.old < 2 ^ 62 }
        requires head { head.now ≡ head_of J.book }
        ensures { IsTrue result → self.new ≡ self.old ++ entry.now ∷ [] }
    {
        let mut offer: Offer<T, u64, Law, Nothing> = self.seen.plain::<Nothing, T, Add>(entry);
        let mut pen = self.seen.no_pen();
        let number = self.number;
        let found = head.compare_exchange::<Add, Nothing>(
            number,
            number + 1,
            &mut self.seen,
            &mut offer,
            &mut pen,
        );
        self.number = if found == number { number + 1 } else { found };
        found == number
    }
}
