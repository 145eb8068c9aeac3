//! Tickets: what went to another thread is known by its ticket when it comes back.
//!
//! Whoever hands something over issues a ticket for it, and keeps the stub. The ticket goes along with what was handed over, and with
//! whatever comes of it. Where a ticket that comes back has the number of the stub, both are of the same thing: so a fact that the
//! other thread states of what its ticket is for is one of what was handed over. Tickets take a number each, and nothing is kept of
//! them.
#![tactic(auto)]

mod book;
mod ticket;

pub use book::{Book, Opened, Series};
pub use ticket::Ticket;

#[cfg(test)]
mod tests;
