//! One process with its store.

ghost use Rattle.std.specs.Prelude.{◌≡◌, ◌≢◌, ◌<◌, length, IfErr, IfNone, IfOk, IfSome, OnErr, OnOk, Err, None, Ok, Some, false};
ghost use Rattle.om_manager.specs.State.{held_by, process_count};
ghost use Rattle.om_process.specs.Core.{CoreState, cluster_size};
ghost use Rattle.om_process.specs.Resumes.{resumed};
ghost use Rattle.om_process.specs.declared.replay.ReplayFault.{ReplayFault};
ghost use Rattle.om_stable.specs.declared.error.StoreError.{StoreError};
ghost use Rattle.om_member.specs.Handed.{AreHandedUpTo, MayHandIn, outputs_from};
ghost use Rattle.om_member.specs.Keeps.{Keeps};
ghost use Rattle.om_member.specs.Members.{HasComeBack, HasDeclared, HasJoined, HasNoted, HasRun, HasStored, HasTrimmed, IsNotIn, IsNotUp, IsOffered, StaysDown, TakesTurns, WasCalled, WasPruned, core_of};
ghost use Rattle.om_member.specs.declared.member.MemberState.TheVariants as stands;

use crate::batch::Batch;
use crate::manager_access::ManagerAccess;
use crate::{handing, telling};
use om_format::Message;
use om_interval::{Bounds, Pid, Starts, Verdict};
use om_manager::{FailError, Gathered, JoinError, OutputError, RecordError};
use om_process::{Accept, Down, ProcCore, ReplayFault, RunEnd};
use om_stable::{Stable, StoreError};
use std::alloc::{AllocError, Global};
use std::mem;

/// Where a process stands, with the process where it is not down.
#[derive(Drop)]
pub enum MemberState {
    /// It runs.
    Up(ProcCore),
    /// It joined a gathering, and has not resumed.
    In(ProcCore),
    /// It failed, and whether that was declared to the manager.
    Down { declared: bool },
}

/// The process is not up, so it did nothing.
#[derive(Clone, Copy, Debug, PartialEq, Eq)]
pub struct NotUp;

/// The process has joined no gathering, or is back from it, so it did nothing.
#[derive(Clone, Copy, Debug, PartialEq, Eq)]
pub struct NotIn;

/// A process with its store.
#[derive(Drop)]
pub struct Member<S: Stable> {
    pub standing: MemberState,
    /// How many rounds were finished when it was last up.
    pub round: u32,
    pub store: S,
}

impl MemberState {
    // Returns how it stands once those that are up have joined; any other stands as before.
    fn joined(self) -> MemberState
        ensures joined { (core : CoreState) → self ≡ stands.Up core → result ≡ stands.In core }
        ensures other { IsNotUp self → result ≡ self }
    {
        match self {
            MemberState::Up(core) => MemberState::In(core),
            other => other,
        }
    }

    // Returns how it stands once those that joined are up; any other stands as before.
    fn risen(self) -> MemberState
        ensures risen { (core : CoreState) → self ≡ stands.In core → result ≡ stands.Up core }
        ensures other { IsNotIn self → result ≡ self }
    {
        match self {
            MemberState::In(core) => MemberState::Up(core),
            other => other,
        }
    }
}

impl<S: Stable> Member<S> {
    /// Makes the member of a process that was started over this store.
    pub fn new(core: ProcCore, store: S) -> Member<S>
        ensures standing { result.standing ≡ stands.Up core }
        ensures round { result.round ≡ 0 }
        ensures store { result.store ≡ store }
    {
        Member {
            standing: MemberState::Up(core),
            round: 0,
            store,
        }
    }

    /// Returns the process: none where it is down.
    pub fn core(&self) -> Option<&ProcCore>
        ensures some { IfSome result (λ core. core_of self.now.standing ≡ Some core.now) }
        ensures none { IfNone result (core_of self.now.standing ≡ None) }
    {
        match &self.standing {
            MemberState::Up(core) => Some(core),
            MemberState::In(core) => Some(core),
            MemberState::Down { declared: _ } => None,
        }
    }
}

// What a process does by itself.
impl<S: Stable> Member<S> {
    /// Runs a process that is up, at most `fuel` instructions. Where memory runs out the instructions before stand.
    pub fn run(&mut self, alloc: Global, fuel: u64) -> Result<Result<RunEnd, AllocError>, NotUp>
        ensures goes_on { OnOk result (TakesTurns self.old fuel self.new) }
        ensures ran { IfOk result (λ answer. IfOk answer (λ ran. HasRun self.old fuel ran self.new)) }
        ensures not_up { OnErr result (IsNotUp self.old.standing) }
        ensures refused { OnErr result (self.new ≡ self.old) }
    {
        match &mut self.standing {
            MemberState::Up(core) => Ok(core.run(alloc, fuel)),
            _ => Err(NotUp),
        }
    }

    /// Offers a message to a process that is up.
    pub fn accept(&mut self, alloc: Global, message: &Message) -> Result<Accept, NotUp>
        ensures offered { IfOk result (λ answer. IsOffered self.old message.now answer self.new) }
        ensures not_up { OnErr result (IsNotUp self.old.standing) }
        ensures refused { OnErr result (self.new ≡ self.old) }
    {
        match &mut self.standing {
            MemberState::Up(core) => Ok(core.accept(alloc, message)),
            _ => Err(NotUp),
        }
    }

    /// Drops what a process that is up keeps below these bounds.
    pub fn trim(&mut self, bounds: &Bounds) -> Result<(), NotUp>
        requires { (core : CoreState) → self.old.standing ≡ stands.Up core → length bounds.now.got ≡ cluster_size core.now }
        ensures trimmed { OnOk result (HasTrimmed self.old bounds.now.got bounds.now.released self.new) }
        ensures not_up { OnErr result (IsNotUp self.old.standing) }
        ensures refused { OnErr result (self.new ≡ self.old) }
    {
        match &mut self.standing {
            MemberState::Up(core) => {
                core.trim(bounds);
                Ok(())
            }
            _ => Err(NotUp),
        }
    }

    /// Fails the process: all that is volatile is lost. Nothing is declared.
    pub fn fail(&mut self)
        ensures { self.new ≡ record self.old { standing = stands.Down false } }
    {
        self.standing = MemberState::Down { declared: false };
    }
}

// What a process does with its store.
impl<S: Stable> Member<S> {
    /// Stores a batch of what a process that is up keeps. Refused with what its store answers, or with `Memory`; that leaves the
    /// process, and what the store holds.
    pub fn store(&mut self, alloc: Global, kind: Batch) -> Result<Result<(), StoreError>, NotUp>
        ensures stored { IfOk result (λ answer. HasStored S.content S.failed S.is_clean S.IsSound kind self.old answer self.new) }
        ensures faultless { ((store : S) → S.failed store ≡ 0) → result ≢ Ok (Err StoreError.Fault) }
        ensures not_up { OnErr result (IsNotUp self.old.standing) }
        ensures refused { OnErr result (self.new ≡ self.old) }
    {
        match &mut self.standing {
            MemberState::Up(core) => match kind {
                Batch::Log => Ok(core.flush(alloc, &mut self.store)),
                Batch::First(count) => Ok(core.flush_first(alloc, &mut self.store, count)),
                Batch::Checkpoint => Ok(core.checkpoint(alloc, &mut self.store)),
            },
            _ => Err(NotUp),
        }
    }

    /// Removes from the store what stands before a checkpoint, wherever the process stands. Refused with `Fault` and `Memory`;
    /// that leaves what the store holds.
    pub fn prune(&mut self, alloc: Global, checkpoint: u32) -> Result<(), StoreError>
        ensures others { self.new ≡ record self.old { store = self.new.store } }
        ensures pruned { WasCalled S.content S.failed S.is_clean S.IsSound (result ≡ Err StoreError.Fault) self.old.store
            self.new.store (WasPruned checkpoint result) }
        ensures never_present { result ≢ Err StoreError.Present }
        ensures faultless { ((store : S) → S.failed store ≡ 0) → result ≢ Err StoreError.Fault }
    {
        self.store.prune(alloc, checkpoint)
    }

    /// Brings the process back where a round cut it, wherever it stands: replayed from its store, which is cut to there. Says in
    /// which interval and incarnation it is. Refused as a replay is; the process stands as before then, and the store holds what
    /// it held.
    pub fn come_back(
        &mut self,
        alloc: Global,
        down: Down,
        starts: &Starts,
        verdict: &Verdict,
    ) -> Result<(u32, u32), ReplayFault>
        requires { length starts.now ≡ down.n }
        ensures back { IfOk result (λ at. HasComeBack S.content S.failed S.is_clean S.IsSound down starts.now verdict.now self.old at self.new) }
        ensures stays { IfErr result (λ fault. StaysDown S.content S.failed S.is_clean S.IsSound down verdict.now self.old fault self.new) }
        ensures faultless { ((store : S) → S.failed store ≡ 0) → result ≢ Err ReplayFault.Fault }
    {
        match down.roll_back(alloc, &mut self.store, starts, verdict) {
            Ok(core) => {
                let at = (core.interval(), core.inc());
                self.standing = MemberState::Up(core);
                self.round = verdict.round;
                Ok(at)
            }
            Err((_, fault)) => Err(fault),
        }
    }

    /// Lets a process that is in go on as it was; it knows the round and its starts then. Refused with `NotIn` where it is not
    /// in, and where memory runs out, and then all stays.
    pub fn go_on(
        &mut self,
        alloc: Global,
        starts: &Starts,
        verdict: &Verdict,
    ) -> Result<Result<(), AllocError>, NotIn>
        requires { (core : CoreState) → self.old.standing ≡ stands.In core → length starts.now ≡ cluster_size core.now }
        ensures on { IfOk result (λ answer. OnOk answer ((core : CoreState) × (self.old.standing ≡ stands.In core)
            × (self.new ≡ record self.old { standing = stands.Up (resumed core verdict.now.round starts.now); round = verdict.now.round }))) }
        ensures not_in { OnErr result (IsNotIn self.old.standing) }
        ensures refused { OnErr result (self.new ≡ self.old) }
        ensures no_memory { IfOk result (λ answer. OnErr answer (self.new ≡ self.old)) }
    {
        let MemberState::In(core) = &mut self.standing else {
            return Err(NotIn);
        };
        match core.resume(alloc, starts, verdict) {
            Ok(()) => {
                self.rise(verdict.round);
                Ok(Ok(()))
            }
            Err(refused) => Ok(Err(refused)),
        }
    }

    // Notes that a process that is in is up, and knows a round.
    fn rise(&mut self, round: u32)
        ensures { (core : CoreState) → self.old.standing ≡ stands.In core
            → self.new ≡ record self.old { standing = stands.Up core; round = round } }
    {
        let standing = mem::replace(&mut self.standing, MemberState::Down { declared: false });
        self.standing = standing.risen();
        self.round = round;
    }
}

// What a process tells the manager.
impl<S: Stable> Member<S> {
    /// Offers the pending rows of a process that is up, in order, up to the first that is refused. Says how many were not
    /// refused; those are pending no longer.
    pub fn note<O: ManagerAccess>(
        &mut self,
        access: &mut O,
        alloc: Global,
        pid: Pid,
    ) -> Result<(usize, Result<(), RecordError>), NotUp>
        ensures noted { IfOk result (λ told. HasNoted (O.state access.old) pid self.old told.0 told.1 (O.state access.new) self.new) }
        ensures not_up { OnErr result (IsNotUp self.old.standing) }
        ensures refused { OnErr result (self.new ≡ self.old) }
        ensures untold { OnErr result (O.state access.new ≡ O.state access.old) }
    {
        match &mut self.standing {
            MemberState::Up(core) => Ok(telling::note(core, access, alloc, pid)),
            _ => Err(NotUp),
        }
    }

    /// Hands in the outputs of a process that is up that the manager has not, in order, up to the first that is refused.
    pub fn hand_in<O: ManagerAccess>(
        &self,
        access: &mut O,
        alloc: Global,
        pid: Pid,
    ) -> Result<Result<(), OutputError>, NotUp>
        requires known { pid < process_count (O.state access.old) }
        requires taken { (core : CoreState) → self.now.standing ≡ stands.Up core → MayHandIn O.Takes pid core }
        ensures handed { IfOk result (λ end. (core : CoreState) × (self.now.standing ≡ stands.Up core)
            × AreHandedUpTo (O.state access.old) core.round pid
            (outputs_from core (length (held_by (O.state access.old) pid))) end (O.state access.new)) }
        ensures keeps { OnOk result (Keeps (O.state access.old) (O.state access.new)) }
        ensures not_up { OnErr result (IsNotUp self.now.standing) }
        ensures untold { OnErr result (O.state access.new ≡ O.state access.old) }
    {
        match &self.standing {
            MemberState::Up(core) => Ok(handing::hand_in(core, access, alloc, pid)),
            _ => Err(NotUp),
        }
    }

    /// Takes a process that is up into the open gathering. Refused with what the manager answers, and then all stays.
    pub fn join<O: ManagerAccess>(
        &mut self,
        access: &mut O,
        alloc: Global,
        pid: Pid,
    ) -> Result<Result<Gathered, JoinError>, NotUp>
        ensures joined { IfOk result (λ answer. HasJoined (O.state access.old) pid self.old answer (O.state access.new) self.new) }
        ensures not_up { OnErr result (IsNotUp self.old.standing) }
        ensures refused { OnErr result (self.new ≡ self.old) }
        ensures untold { OnErr result (O.state access.new ≡ O.state access.old) }
    {
        let MemberState::Up(core) = &self.standing else {
            return Err(NotUp);
        };
        match access.join(alloc, pid, core.round(), core.interval()) {
            Ok(told) => {
                self.go_in();
                Ok(Ok(told))
            }
            Err(fault) => Ok(Err(fault)),
        }
    }

    // Notes that a process that is up is in.
    fn go_in(&mut self)
        ensures { (core : CoreState) → self.old.standing ≡ stands.Up core → self.new ≡ record self.old { standing = stands.In core } }
    {
        let standing = mem::replace(&mut self.standing, MemberState::Down { declared: false });
        self.standing = standing.joined();
    }

    /// Declares that the process failed: it is down, whatever it did before, and all that is volatile is lost. Refused with what
    /// the manager answers, and then all stays.
    pub fn declare<O: ManagerAccess>(
        &mut self,
        access: &mut O,
        alloc: Global,
        pid: Pid,
    ) -> Result<Gathered, FailError>
        ensures { HasDeclared (O.state access.old) pid self.old result (O.state access.new) self.new }
    {
        match access.fail(alloc, pid, self.round) {
            Ok(told) => {
                self.standing = MemberState::Down { declared: true };
                Ok(told)
            }
            Err(fault) => Err(fault),
        }
    }
}
