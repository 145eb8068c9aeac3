//! The logs of a run without a gap, as numbers in one row.

ghost use Rattle.std.specs.Prelude.{◌≡◌, ◌+◌, ◌<◌, ◌≤◌, ◌↔◌, ◌++◌, ◌∷◌, [], length, take, drop, slice_get, Some, MatchOption, OnOk, OnErr, IsTrue};
ghost use Rattle.om_recover.specs.steps.Flat.{AreAlike};

use crate::rows::lent::Lent;
use std::alloc::{AllocError, Global};
use std::marker::Model;

/// The vectors of a run's logs, as numbers in one row: of each log first the dependency vector, then what was got. What was
/// dropped from the front lies there until a drop finds more gone than left: so a number is moved once at most for each that
/// is dropped.
#[derive(Debug, Drop)]
pub struct RunLogs {
    // How many places each vector has: of no matter where there are no logs.
    n: usize,
    numbers: Vec<u32>,
    // How many numbers were dropped.
    gone: usize,
    // How many logs there are.
    count: usize,
}

impl Model for RunLogs {
    ghost use Rattle.std.specs.Prelude.{List, drop};
    ghost use Rattle.om_recover.specs.declared.rows.trees.Vectors.{Vectors};
    ghost use Rattle.om_recover.specs.steps.Flat.{AreFlat, vectors_in};

    ghost Value = { List Vectors };

    ghost view = { λ l. vectors_in l.n l.count (drop l.gone l.numbers.items) };

    ghost invariant = { λ l. AreFlat l.n l.count l.gone l.numbers.items };
}

impl RunLogs {
    /// Makes a run of no logs.
    pub fn new(alloc: Global) -> RunLogs
        ensures { result ≡ [] }
    {
        RunLogs {
            n: 1,
            numbers: Vec::new(alloc),
            gone: 0,
            count: 0,
        }
    }

    /// Returns how many logs there are.
    pub fn len(&self) -> usize
        ensures { result ≡ length self.now }
    {
        self.count
    }

    /// Returns whether there is no log.
    pub fn is_empty(&self) -> bool
        ensures { IsTrue result ↔ (length self.now ≡ 0) }
    {
        self.len() == 0
    }

    /// Returns the vectors of the log at a place, if there is one.
    pub fn get(&self, place: usize) -> Option<Lent<'_>>
        ensures { MatchOption result (length self.now ≤ place) (λ vectors. slice_get self.now place ≡ Some vectors) }
    {
        if self.len() <= place {
            return None;
        }
        Some(self.at(place))
    }

    /// Returns the vectors of the log at a place.
    pub fn at(&self, place: usize) -> Lent<'_>
        requires { place < length self.now }
        ensures { slice_get self.now place ≡ Some result }
    {
        let size = self.n + self.n;
        let from = self.gone + place * size;
        Lent::of_halves(part(&self.numbers, from, size), self.n)
    }

    /// Returns whether these vectors have as many places as those that lie there.
    pub fn takes(&self, vectors: &Lent<'_>) -> bool
        ensures { IsTrue result → AreAlike self.now vectors.now }
    {
        let n = vectors.vec_numbers().len();
        if vectors.got_numbers().len() != n {
            return false;
        }
        if self.count == 0 {
            return true;
        }
        self.n == n
    }

    /// Puts a log behind the others: or none, where memory is refused.
    pub fn push(&mut self, vectors: &Lent<'_>) -> Result<(), AllocError>
        requires { AreAlike self.old vectors.now }
        ensures ok { OnOk result (self.new ≡ self.old ++ vectors.now ∷ []) }
        ensures err { OnErr result (self.new ≡ self.old) }
    {
        append(
            &mut self.numbers,
            vectors.vec_numbers(),
            vectors.got_numbers(),
        )?;
        self.n = vectors.vec_numbers().len();
        self.count += 1;
        Ok(())
    }

    /// Drops the logs behind the first so many.
    pub fn truncate(&mut self, kept: usize)
        ensures { self.new ≡ take kept self.old }
    {
        if self.count <= kept {
            return;
        }
        self.numbers.truncate(self.gone + kept * (self.n + self.n));
        self.count = kept;
    }

    /// Drops so many logs from the front.
    pub fn drop_front(&mut self, dropped: usize)
        requires { dropped ≤ length self.old }
        ensures { self.new ≡ drop dropped self.old }
    {
        let gone = self.gone + dropped * (self.n + self.n);
        self.gone = settle(&mut self.numbers, gone);
        self.count -= dropped;
    }
}

// Returns `size` numbers from a place on.
fn part(numbers: &[u32], from: usize, size: usize) -> &[u32]
    requires { from + size ≤ length numbers.now }
    ensures { result.now ≡ take size (drop from numbers.now) }
{
    &numbers[from..from + size]
}

// Adds two rows of numbers, one behind the other: or none, where memory is refused.
fn append(numbers: &mut Vec<u32>, one: &[u32], other: &[u32]) -> Result<(), AllocError>
    ensures ok { OnOk result (numbers.new.items ≡ numbers.old.items ++ (one.now ++ other.now)) }
    ensures err { OnErr result (numbers.new.items ≡ numbers.old.items) }
{
    let before = numbers.len();
    numbers.extend_from_slice(one)?;
    if let Err(error) = numbers.extend_from_slice(other) {
        numbers.truncate(before);
        return Err(error);
    }
    Ok(())
}

// Moves what is left to the front, once that is less than what is gone, and tells how many are gone then.
fn settle(numbers: &mut Vec<u32>, gone: usize) -> usize
    requires { gone ≤ length numbers.old.items }
    ensures left { drop result numbers.new.items ≡ drop gone numbers.old.items }
    ensures within { result ≤ length numbers.new.items }
{
    let left = numbers.len() - gone;
    if gone <= left {
        return gone;
    }
    numbers.copy_within(gone.., 0);
    numbers.truncate(left);
    0
}
