//! Processes that are down, and how processes go on after a round of recovery.

ghost use Rattle.std.specs.Prelude.{◌≡◌, [], IfErr, IfOk, IsErrOf, OnErr, OnOk, length};
ghost use Rattle.om_stable.specs.Calls.{IsCleanCall, UsesStore, LeavesContent, LeavesRefused};
ghost use Rattle.om_stable.specs.Content.{kept_by_cut};
ghost use Rattle.om_process.specs.Core.{cluster_size};
ghost use Rattle.om_process.specs.Resumes.{resumed};
ghost use Rattle.om_process.specs.Stored.{CanReplay, IsNoMatterOfContent, IsReplay, Refuses, the_process};
ghost use Rattle.om_process.specs.declared.replay.ReplayFault.{ReplayFault};

use crate::proc_core::ProcCore;
use crate::replay::{ReplayFault, beginning, fault_of};
use om_interval::{Pid, Starts, Verdict};
use om_stable::Stable;
use std::alloc::{AllocError, Global};

/// A process that has failed: its number and the number of processes are all that is left.
#[derive(Clone, Copy, Debug)]
pub struct Down {
    pub pid: Pid,
    /// The number of processes.
    pub n: usize,
}

impl ProcCore {
    /// Fails the process: all that is volatile is lost.
    pub fn fail(self) -> Down
        ensures pid { result.pid ≡ self.own }
        ensures n { result.n ≡ cluster_size self.now }
    {
        Down {
            pid: self.pid,
            n: self.vec.n(),
        }
    }

    /// Goes on after a finished round of recovery that does not roll the process back: it knows the round and the starts.
    pub fn resume(
        &mut self,
        alloc: Global,
        starts: &Starts,
        verdict: &Verdict,
    ) -> Result<(), AllocError>
        requires { length starts.now ≡ cluster_size self.old.now }
        ensures ok { OnOk result (self.new ≡ resumed self.old verdict.now.round starts.now) }
        ensures err { OnErr result (self.new ≡ self.old) }
    {
        self.starts = starts.copy(alloc)?;
        self.round = verdict.round;
        Ok(())
    }
}

impl Down {
    /// Comes back after a finished round of recovery that rolls the process back: as it was in the verdict's interval,
    /// replayed from its store, which is cut to there; with the verdict's incarnation and round, and the starts.
    ///
    /// Refused as a replay is, and with `Damaged` where the checkpoint is of another process or of another number of
    /// processes. A refusal hands the process that is down back, and leaves the store's content.
    pub fn roll_back<S: Stable>(
        self,
        alloc: Global,
        store: &mut S,
        starts: &Starts,
        verdict: &Verdict,
    ) -> Result<ProcCore, (Down, ReplayFault)>
        requires { length starts.now ≡ self.n }
        ensures back { IsCleanCall S.is_clean S.IsSound store.old store.new
            → IfOk result (λ core. IsReplay (S.content store.old) verdict.now.r core) }
        ensures cut { IsCleanCall S.is_clean S.IsSound store.old store.new
            → OnOk result (S.content store.new ≡ kept_by_cut (S.content store.old) verdict.now.r) }
        ensures own { IfOk result (λ core. core.own ≡ self.pid) }
        ensures size { IfOk result (λ core. cluster_size core.now ≡ self.n) }
        ensures log { IfOk result (λ core. core.log ≡ []) }
        ensures pending { IfOk result (λ core. core.pending ≡ []) }
        ensures inc { IfOk result (λ core. core.inc ≡ verdict.now.inc) }
        ensures round { IfOk result (λ core. core.round ≡ verdict.now.round) }
        ensures starts { IfOk result (λ core. core.starts ≡ starts.now) }
        ensures down { IfErr result (λ refusal. refusal.0 ≡ self) }
        ensures refused { IsCleanCall S.is_clean S.IsSound store.old store.new
            → IfErr result (λ refusal. Refuses (the_process self.pid self.n) (S.content store.old) verdict.now.r refusal.1) }
        ensures only { IsCleanCall S.is_clean S.IsSound store.old store.new
            → CanReplay (the_process self.pid self.n) (S.content store.old) verdict.now.r
            → IfErr result (λ refusal. IsNoMatterOfContent refusal.1) }
        ensures same { LeavesRefused S.content S.is_clean S.IsSound store.old result store.new }
        ensures used { UsesStore S.failed S.is_clean S.IsSound store.old (IsErrOf result (self, ReplayFault.Fault)) store.new }
    {
        match self.come_back(alloc, store, starts, verdict) {
            Ok(core) => Ok(core),
            Err(fault) => Err((self, fault)),
        }
    }

    // Comes back. The starts are copied before the store is cut, so that nothing is refused after it.
    fn come_back<S: Stable>(
        &self,
        alloc: Global,
        store: &mut S,
        starts: &Starts,
        verdict: &Verdict,
    ) -> Result<ProcCore, ReplayFault>
        requires { length starts.now ≡ self.now.n }
        ensures back { IsCleanCall S.is_clean S.IsSound store.old store.new
            → IfOk result (λ core. IsReplay (S.content store.old) verdict.now.r core) }
        ensures cut { IsCleanCall S.is_clean S.IsSound store.old store.new
            → OnOk result (S.content store.new ≡ kept_by_cut (S.content store.old) verdict.now.r) }
        ensures own { IfOk result (λ core. core.own ≡ self.now.pid) }
        ensures size { IfOk result (λ core. cluster_size core.now ≡ self.now.n) }
        ensures log { IfOk result (λ core. core.log ≡ []) }
        ensures pending { IfOk result (λ core. core.pending ≡ []) }
        ensures inc { IfOk result (λ core. core.inc ≡ verdict.now.inc) }
        ensures round { IfOk result (λ core. core.round ≡ verdict.now.round) }
        ensures starts { IfOk result (λ core. core.starts ≡ starts.now) }
        ensures refused { IsCleanCall S.is_clean S.IsSound store.old store.new
            → IfErr result (λ fault. Refuses (the_process self.now.pid self.now.n) (S.content store.old) verdict.now.r fault) }
        ensures same { LeavesRefused S.content S.is_clean S.IsSound store.old result store.new }
        ensures used { UsesStore S.failed S.is_clean S.IsSound store.old (IsErrOf result ReplayFault.Fault) store.new }
    {
        let mut core = self.replayed(alloc, store, verdict.r)?;
        core.resume(alloc, starts, verdict)?;
        core.inc = verdict.inc;
        match store.cut(alloc, verdict.r) {
            Ok(()) => Ok(core),
            Err(error) => Err(fault_of(error)),
        }
    }

    // Replays the process to what it was right after receipt `x`, from a checkpoint of its own.
    fn replayed<S: Stable>(
        &self,
        alloc: Global,
        store: &mut S,
        x: u32,
    ) -> Result<ProcCore, ReplayFault>
        ensures back { IsCleanCall S.is_clean S.IsSound store.old store.new
            → IfOk result (λ core. IsReplay (S.content store.old) x core) }
        ensures own { IfOk result (λ core. core.own ≡ self.now.pid) }
        ensures size { IfOk result (λ core. cluster_size core.now ≡ self.now.n) }
        ensures log { IfOk result (λ core. core.log ≡ []) }
        ensures pending { IfOk result (λ core. core.pending ≡ []) }
        ensures refused { IsCleanCall S.is_clean S.IsSound store.old store.new
            → IfErr result (λ fault. Refuses (the_process self.now.pid self.now.n) (S.content store.old) x fault) }
        ensures same { LeavesContent S.content S.is_clean S.IsSound store.old store.new }
        ensures used { UsesStore S.failed S.is_clean S.IsSound store.old (IsErrOf result ReplayFault.Fault) store.new }
    {
        let checkpoint = beginning(alloc, store, x)?;
        if checkpoint.head.pid != self.pid {
            return Err(ReplayFault::Damaged(checkpoint.head.interval));
        }
        if checkpoint.head.vec.n() != self.n {
            return Err(ReplayFault::Damaged(checkpoint.head.interval));
        }
        ProcCore::replay_from(alloc, store, x, checkpoint)
    }
}
