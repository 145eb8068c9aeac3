//! The intervals at which incarnations start.

ghost use Rattle.std.specs.Prelude.{◌≡◌, ℕ, ◌+◌, ◌-◌, ◌<◌, ◌≤◌, ◌↔◌, List, [], ◌∷◌, length, replicate, slice_get, Some, IsTrue, IfOk, OnOk, OnErr};
ghost use Rattle.om_interval.specs.Starts.{starts_of, newest_of, AllAreStarts, IsOrphan, MayBegin, BeginIncarnations};
ghost use Rattle.om_interval.specs.declared.pid.TheConstants.{MAX_PROCESSES};

use crate::dep_vec::DepVec;
use crate::pid::{MAX_PROCESSES, Pid};
use crate::shared_blocks::SharedBlocks;
use crate::tag::Tag;
use std::alloc::{AllocError, Global};
use std::marker::Model;

/// For each process the intervals at which its incarnations start, as far as they are known (after Strom and Yemini
/// 1985). Incarnation 0 starts at interval 0. Copies share what was known long ago, so that one costs little more than what
/// is new.
#[derive(Debug, Drop)]
pub struct Starts {
    by_process: Vec<SharedBlocks>,
}

impl Model for Starts {
    ghost Value = { List (List ℕ) };

    ghost view = { λ s. s.by_process.items };

    ghost invariant = { λ s. AllAreStarts s.by_process.items };
}

impl Starts {
    /// Makes the starts of `n` processes that have never failed.
    pub fn new(alloc: Global, n: usize) -> Result<Starts, AllocError>
        requires some { 1 ≤ n }
        requires within { n ≤ MAX_PROCESSES }
        ensures { IfOk result (λ starts. starts ≡ replicate n (0 ∷ [])) }
    {
        let mut by_process = Vec::with_capacity(alloc, n)?;
        for _ in 0..n {
            by_process.push_reserved(SharedBlocks::new(alloc)?);
        }
        Ok(Starts { by_process })
    }

    /// Returns the number of processes, from 1 to the limit.
    pub fn n(&self) -> usize
        ensures processes { result ≡ length self.now }
        ensures some { 1 ≤ result }
        ensures within { result ≤ MAX_PROCESSES }
    {
        self.by_process.len()
    }

    /// Returns the newest incarnation of a process: 0 at first.
    pub fn incs(&self, pid: Pid) -> u32
        requires { pid < length self.now }
        ensures newest { result ≡ newest_of self.now pid }
        ensures lawful { AllAreStarts self.now }
    {
        let starts = &self.by_process[pid.index()];
        (starts.len() - 1) as u32
    }

    /// Returns the interval at which an incarnation of a process starts: 0 for incarnation 0, and `None` above the newest.
    pub fn start(&self, pid: Pid, inc: u32) -> Option<u64>
        requires { pid < length self.now }
        ensures start { result ≡ slice_get (starts_of self.now pid) inc }
        ensures first { inc ≡ 0 → result ≡ Some 0 }
    {
        let starts = &self.by_process[pid.index()];
        starts.get(inc as usize)
    }

    /// Returns whether a message with this tag is an orphan: a later incarnation of its sender began at or below the interval in
    /// which it was sent.
    pub fn is_orphan(&self, pid: Pid, tag: Tag) -> bool
        requires { pid < length self.now }
        ensures { IsTrue result ↔ IsOrphan self.now pid tag.inc tag.interval }
    {
        let next = self.by_process[pid.index()].get(tag.inc as usize + 1);
        next.is_some_and(|start| start <= u64::from(tag.interval))
    }

    /// Returns the same starts once more.
    pub fn copy(&self, alloc: Global) -> Result<Starts, AllocError>
        ensures { IfOk result (λ copy. copy ≡ self.now) }
    {
        let mut by_process = Vec::with_capacity(alloc, self.by_process.len())?;
        for starts in &self.by_process {
            by_process.push_reserved(starts.copy(alloc)?);
        }
        Ok(Starts { by_process })
    }

    /// Begins an incarnation of each named process, right above its place of `r`: of all of them, or of none where
    /// memory is refused.
    pub fn cut_all(
        &mut self,
        alloc: Global,
        who: [bool; MAX_PROCESSES],
        r: &DepVec,
    ) -> Result<(), AllocError>
        requires { MayBegin who r.now self.old }
        ensures ok { OnOk result (BeginIncarnations who r.now self.old self.new) }
        ensures err { OnErr result (self.new ≡ self.old) }
    {
        self.by_process = begun(alloc, &self.by_process, who, r.as_slice())?;
        Ok(())
    }
}

// Returns the starts once each named process has one more, right above its place of the state.
fn begun(
    alloc: Global,
    by_process: &Vec<SharedBlocks>,
    who: [bool; MAX_PROCESSES],
    state: &[u32],
) -> Result<Vec<SharedBlocks>, AllocError>
    requires may { MayBegin who state.now by_process.now.items }
    requires within { length by_process.now.items ≤ MAX_PROCESSES }
    ensures { IfOk result (λ begun. BeginIncarnations who state.now by_process.now.items begun.items) }
{
    let mut begun = Vec::with_capacity(alloc, by_process.len())?;
    for p in 0..by_process.len() {
        let mut starts = by_process[p].copy(alloc)?;
        if who[p] {
            starts.push(alloc, u64::from(state[p]) + 1)?;
        }
        begun.push_reserved(starts);
    }
    Ok(begun)
}
