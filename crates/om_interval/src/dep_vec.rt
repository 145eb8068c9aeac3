//! Vectors of one number for each process.

ghost use Rattle.std.specs.Prelude.{◌≡◌, ℕ, ◌+◌, ◌-◌, ◌^◌, ◌<◌, ◌≤◌, ◌↔◌, ◌++◌, All, List, length, take, replicate, max, slice_index, slice_set, nat_eq, IsTrue, IsSome, IfSome};
ghost use Rattle.std.specs.Cmp.Lexicographic.{pointwise};
ghost use Rattle.std.specs.Cmp.Rules.{comparing};
ghost use Rattle.std.proofs.Common.{rules};
ghost use Rattle.om_interval.specs.steps.InUse.{AreInUse};
ghost use Rattle.om_interval.specs.steps.InUseLaws.{length-in_use, padded-in_use};
ghost use Rattle.om_interval.specs.Vectors.{IsBelow, padded_words};
ghost use Rattle.om_interval.specs.declared.pid.TheConstants.{MAX_PROCESSES};

use crate::pid::{MAX_PROCESSES, Pid};
use std::marker::Model;

/// One 32-bit number for each process of a cluster: the state intervals that a process depends on directly (Johnson and
/// Zwaenepoel 1990), a state of the whole system, or counts by process.
#[derive(Clone, Copy, Debug)]
pub struct DepVec {
    count: usize,
    places: [u32; MAX_PROCESSES],
}

impl Model for DepVec {
    ghost Value = { List ℕ };

    ghost view = { λ v. take v.count v.places };

    ghost invariant = { λ v. AreInUse MAX_PROCESSES v.count v.places };

    ghost inverse = { λ numbers. record { count = length numbers; places = numbers ++ replicate (MAX_PROCESSES - length numbers) 0 } };

    ghost inverse_ok = { λ v used. λ i. record {
      count = length-in_use _ v.count v.places used i;
      places = padded-in_use _ v.count v.places used i;
    } };
}

impl DepVec {
    /// Makes the vector of `n` zeros, or `None` where no cluster has `n` processes.
    pub fn zeros(n: usize) -> Option<DepVec>
        ensures in_range { IsSome result ↔ ((1 ≤ n) × (n ≤ MAX_PROCESSES)) }
        ensures zeros { IfSome result (λ vector. vector ≡ replicate n 0) }
    {
        if 1 <= n && n <= MAX_PROCESSES {
            Some(DepVec {
                count: n,
                places: [0; MAX_PROCESSES],
            })
        } else {
            None
        }
    }

    /// Makes the vector of these numbers, or `None` where no cluster has so many processes.
    pub fn from_slice(numbers: &[u32]) -> Option<DepVec>
        ensures in_range { IsSome result ↔ ((1 ≤ length numbers.now) × (length numbers.now ≤ MAX_PROCESSES)) }
        ensures numbers { IfSome result (λ vector. vector ≡ numbers.now) }
    {
        let count = numbers.len();
        if count == 0 || count > MAX_PROCESSES {
            return None;
        }
        let mut places = [0; MAX_PROCESSES];
        places[..count].copy_from_slice(numbers);
        Some(DepVec { count, places })
    }

    /// Makes the vector of these words.
    pub fn from_words(words: &[u64]) -> DepVec
        requires some { 1 ≤ length words.now }
        requires within { length words.now ≤ MAX_PROCESSES }
        requires fit { All (λ word. word < 2 ^ 32) words.now }
        ensures { result ≡ words.now }
    {
        let count = words.len();
        let mut places = [0; MAX_PROCESSES];
        narrow(words, &mut places[..count]);
        DepVec { count, places }
    }

    /// Returns the numbers as words, by process, and zeros up to the limit of processes.
    pub fn to_words(&self) -> [u64; MAX_PROCESSES]
        ensures words { result ≡ padded_words self.now }
        ensures fit { All (λ word. word < 2 ^ 32) result }
    {
        let mut words = [0; MAX_PROCESSES];
        widen(&self.places, &mut words);
        words
    }

    /// Returns the number of processes, from 1 to the limit.
    pub fn n(&self) -> usize
        ensures places { result ≡ length self.now }
        ensures some { 1 ≤ result }
        ensures within { result ≤ MAX_PROCESSES }
    {
        self.as_slice().len()
    }

    /// Returns the numbers, by process.
    pub fn as_slice(&self) -> &[u32]
        ensures numbers { result.now ≡ self.now }
        ensures some { 1 ≤ length self.now }
        ensures within { length self.now ≤ MAX_PROCESSES }
    {
        &self.places[..self.count]
    }

    /// Returns the number of one process.
    pub fn get(&self, pid: Pid) -> u32
        requires { pid < length self.now }
        ensures { result ≡ slice_index self.now pid }
    {
        self.as_slice()[pid.index()]
    }

    /// Gives one process a number.
    pub fn set(&mut self, pid: Pid, number: u32)
        requires { pid < length self.old }
        ensures { self.new ≡ slice_set self.old pid number }
    {
        self.places[pid.index()] = number;
    }

    /// Raises the place of one process to an interval, where it is lower.
    pub fn join_tag(&mut self, pid: Pid, interval: u32)
        requires { pid < length self.old }
        ensures { self.new ≡ slice_set self.old pid (max (slice_index self.old pid) interval) }
    {
        self.set(pid, self.get(pid).max(interval));
    }

    /// Returns whether each place is at most the other's. Vectors of clusters of different sizes are not comparable.
    pub fn leq(&self, other: &DepVec) -> bool
        ensures { IsTrue result ↔ IsBelow self.now other.now }
    {
        let mut pairs = self.as_slice().iter().zip(other.as_slice());
        self.count == other.count && pairs.all(|(low, high)| *low <= *high)
    }
}

// Writes words that are numbers of 32 bits as such numbers.
fn narrow(words: &[u64], numbers: &mut [u32])
    requires same_places { length words.now ≡ length numbers.old }
    requires fit { All (λ word. word < 2 ^ 32) words.now }
    ensures { numbers.new ≡ words.now }
{
    for place in 0..words.len() {
        numbers[place] = words[place] as u32;
    }
}

// Writes numbers as words.
fn widen(numbers: &[u32], words: &mut [u64])
    requires { length numbers.now ≡ length words.old }
    ensures same { words.new ≡ numbers.now }
    ensures fit { All (λ word. word < 2 ^ 32) words.new }
{
    for place in 0..numbers.len() {
        words[place] = u64::from(numbers[place]);
    }
}

impl PartialEq for DepVec {
    ghost eq = { pointwise nat_eq };

    ghost laws = { Prim.search (comparing, rules) };

    fn eq(&self, other: &DepVec) -> bool {
        self.as_slice() == other.as_slice()
    }
}

impl Eq for DepVec {
    ghost laws = { Prim.search (comparing, rules) };
}
