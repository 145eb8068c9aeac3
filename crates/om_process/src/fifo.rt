//! A list whose front is dropped.

ghost use Rattle.std.specs.Prelude.{◌≡◌, ◌≤◌, ◌+◌, ◌++◌, ◌∷◌, [], drop, length, OnOk, OnErr};

use std::alloc::{AllocError, Global};
use std::marker::Model;

/// Entries in order. Those that were dropped from the front lie there until they are more than those that are left: so an
/// entry is moved once at most for each that is dropped.
#[derive(Debug, Drop)]
pub(crate) struct Fifo<T> {
    items: Vec<T>,
    gone: usize,
}

impl<T> Model for Fifo<T> {
    ghost use Rattle.std.specs.Prelude.{List, ◌≤◌, drop, length};

    ghost Value = { List T };

    ghost view = { λ f. drop f.gone f.items.items };

    ghost invariant = { λ f. f.gone ≤ length f.items.items };
}

impl<T: Drop> Fifo<T> {
    pub(crate) fn new(alloc: Global) -> Fifo<T>
        ensures { result ≡ [] }
    {
        Fifo {
            items: Vec::new(alloc),
            gone: 0,
        }
    }

    // Makes a queue of the entries of a list.
    pub(crate) fn of(items: Vec<T>) -> Fifo<T>
        ensures { result ≡ items.items }
    {
        Fifo { items, gone: 0 }
    }

    pub(crate) fn as_slice(&self) -> &[T]
        ensures { result.now ≡ self.now }
    {
        &self.items[self.gone..]
    }

    pub(crate) fn len(&self) -> usize
        ensures { result ≡ length self.now }
    {
        self.items.len() - self.gone
    }

    // Adds an entry behind the others.
    pub(crate) fn push(&mut self, item: T) -> Result<(), AllocError>
        ensures ok { OnOk result (self.new ≡ self.old ++ item ∷ []) }
        ensures err { OnErr result (self.new ≡ self.old) }
    {
        self.items.push(item)?;
        Ok(())
    }

    // Drops so many entries from the front.
    pub(crate) fn drop_front(&mut self, count: usize)
        requires { count ≤ length self.old }
        ensures { self.new ≡ drop count self.old }
    {
        self.gone += count;
        if self.gone > self.items.len() - self.gone {
            move_to_front(&mut self.items, self.gone);
            self.gone = 0;
        }
    }
}

// Moves the entries from `from` on to the front, in order, and drops what stood before them, which are no fewer. A drain would
// turn the list through a room of its own, which costs more than the few that are moved.
fn move_to_front<T: Drop>(items: &mut Vec<T>, from: usize)
    requires within { from ≤ length items.old.items }
    requires fewer { length items.old.items ≤ from + from }
    ensures { items.new.items ≡ drop from items.old.items }
{
    let left = items.len() - from;
    for k in 0..left {
        items.swap(k, from + k);
    }
    items.truncate(left);
}
