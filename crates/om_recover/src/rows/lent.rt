//! The vectors of an interval, read where they lie.

ghost use Rattle.std.specs.Prelude.{◌≡◌, ◌+◌, ◌≤◌, ◌<◌, length, slice_index, IsTrue};
ghost use Rattle.om_interval.specs.Vectors.{IsBelow};
ghost use Rattle.om_interval.specs.declared.pid.TheConstants.{MAX_PROCESSES};
ghost use Rattle.om_recover.specs.steps.Flat.{halves};

use crate::numbers::{is_below, number_of};
use crate::rows::trees::Vectors;
use om_interval::{DepVec, Pid};
use std::marker::Model;

/// The vectors of an interval, read where they lie.
#[derive(Drop)]
pub struct Lent<'a> {
    vec: &'a [u32],
    got: &'a [u32],
}

impl<'a> Model for Lent<'a> {
    ghost use Rattle.om_recover.specs.declared.rows.trees.Vectors.{Vectors};
    ghost use Rattle.om_recover.specs.steps.Flat.{AreSized};

    ghost Value = { Vectors };

    ghost view = { λ l. record { vec = l.vec.now; got = l.got.now } };

    ghost invariant = { λ l. AreSized l.vec.now l.got.now };
}

impl<'a> Lent<'a> {
    /// Lends vectors that are kept as such.
    pub fn of(vec: &'a DepVec, got: &'a DepVec) -> Lent<'a>
        ensures { result ≡ record { vec = vec.now; got = got.now } }
    {
        Lent {
            vec: vec.as_slice(),
            got: got.as_slice(),
        }
    }

    /// Lends vectors that lie one behind the other, each of `n` places.
    pub fn of_halves(numbers: &'a [u32], n: usize) -> Lent<'a>
        requires some { 1 ≤ n }
        requires within { n ≤ MAX_PROCESSES }
        requires whole { length numbers.now ≡ n + n }
        ensures { result ≡ halves n numbers.now }
    {
        let (vec, got) = numbers.split_at(n);
        Lent { vec, got }
    }

    /// Returns the numbers of the dependency vector.
    pub fn vec_numbers(&self) -> &[u32]
        ensures numbers { result.now ≡ self.now.vec }
        ensures some { 1 ≤ length self.now.vec }
        ensures within { length self.now.vec ≤ MAX_PROCESSES }
    {
        self.vec
    }

    /// Returns the numbers of messages got, by sender.
    pub fn got_numbers(&self) -> &[u32]
        ensures numbers { result.now ≡ self.now.got }
    {
        self.got
    }

    /// Returns the numbers of the dependency vector, for as long as they lie there.
    pub fn into_vec(self) -> &'a [u32]
        ensures { result.now ≡ self.entry.vec }
    {
        self.vec
    }

    /// Returns the dependency vector, on its own.
    pub fn vec(&self) -> DepVec
        ensures { result ≡ self.now.vec }
    {
        DepVec::from_slice(self.vec).unwrap()
    }

    /// Returns the vector of what was got, on its own.
    pub fn got(&self) -> DepVec
        ensures { result ≡ self.now.got }
    {
        DepVec::from_slice(self.got).unwrap()
    }

    /// Returns both vectors, on their own.
    pub fn kept(&self) -> Vectors
        ensures { result ≡ self.now }
    {
        Vectors {
            vec: self.vec(),
            got: self.got(),
        }
    }

    /// Returns how many messages were got from a process.
    pub fn got_from(&self, sender: Pid) -> u32
        requires { sender < length self.now.got }
        ensures { result ≡ slice_index self.now.got sender }
    {
        number_of(self.got, sender)
    }

    /// Returns whether the vectors are these.
    pub fn are(&self, vec: &DepVec, got: &DepVec) -> bool
        ensures vec { IsTrue result → self.now.vec ≡ vec.now }
        ensures got { IsTrue result → self.now.got ≡ got.now }
        ensures both { self.now.vec ≡ vec.now → self.now.got ≡ got.now → IsTrue result }
    {
        self.vec == vec.as_slice() && self.got == got.as_slice()
    }

    /// Returns whether each is at most the one given.
    pub fn are_at_most(&self, vec: &DepVec, got: &DepVec) -> bool
        ensures vec { IsTrue result → IsBelow self.now.vec vec.now }
        ensures got { IsTrue result → IsBelow self.now.got got.now }
        ensures both { IsBelow self.now.vec vec.now → IsBelow self.now.got got.now → IsTrue result }
    {
        is_below(self.vec, vec) && is_below(self.got, got)
    }
}
