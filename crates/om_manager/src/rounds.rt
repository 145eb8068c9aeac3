//! How a round opens, and how it finishes.

ghost use Rattle.std.specs.Prelude.{◌≡◌, ◌+◌, ◌-◌, ◌<◌, ◌^◌, ◌↔◌, map, IfOk, OnOk, OnErr, Ok, Err, IsTrue};
ghost use Rattle.om_interval.specs.Vectors.{IsBelow};
ghost use Rattle.om_manager.specs.declared.answers.FailError.TheVariants.{Spent};
ghost use Rattle.om_manager.specs.Gatherings.{AreAllIn, presences_of};
ghost use Rattle.om_manager.specs.State.{process_count};
ghost use Rattle.om_manager.specs.Sound.{IsManager, GoesOn, KeepsReleased};
ghost use Rattle.om_manager.specs.Rounds.{Failing, Joining, Finishes, Gathers, IsSpent};
ghost use Rattle.om_manager.specs.steps.OutputLog.{log_within};
ghost use Rattle.om_interval.specs.declared.pid.TheConstants.{MAX_PROCESSES};

use crate::answers::{FailError, Gathered, JoinError};
use crate::manager::Manager;
use crate::output_log::OutputLog;
use crate::presence::{Presence, are_all_in, new_incarnations};
use om_interval::{MAX_PROCESSES, Pid};
use std::alloc::{AllocError, Global};

/// Returns whether no round can follow the one of this number: it is 2^32 - 1.
pub fn is_last_round(round: u32) -> bool
    ensures { IsTrue result ↔ (round ≡ 2 ^ 32 - 1) }
{
    round == u32::MAX
}

impl Manager {
    /// Declares that a process failed: it is in the gathering, which is opened where none is open, and where it joined before,
    /// it is in as failed. The round is finished where all are in then. A process that failed already waits.
    ///
    /// Refused, the first that holds, are a process that the cluster has not (`Stranger`), another round than the manager's
    /// (`Stale`), a gathering that would open after the last round (`Spent`), and memory that ran out as the round is finished
    /// (`Memory`).
    pub fn fail(&mut self, alloc: Global, pid: Pid, round: u32) -> Result<Gathered, FailError>
        ensures answer { Failing self.old pid round result self.new }
        ensures sound { IsManager self.new }
        ensures front { GoesOn self.old self.new }
        ensures not_lowered { IsBelow self.old.recovery self.new.recovery }
        ensures released { KeepsReleased self.old self.new }
    {
        if pid.index() >= self.records.n() {
            return Err(FailError::Stranger);
        }
        if round != self.round {
            return Err(FailError::Stale { round: self.round });
        }
        let mut presences = self.opened()?;
        if presences[pid.index()] == Presence::Failed {
            return Ok(Gathered::Waiting);
        }
        presences[pid.index()] = Presence::Failed;
        match self.gather(alloc, &presences) {
            Ok(gathered) => Ok(gathered),
            Err(_) => Err(FailError::Memory),
        }
    }

    // Returns who is in the gathering that is open, or that can be opened.
    fn opened(&self) -> Result<[Presence; MAX_PROCESSES], FailError>
        ensures presences { IfOk result (λ presences. presences ≡ presences_of self.now.gathering) }
        ensures unspent { OnOk result (IsSpent self.now → ⊥) }
        ensures spent { OnErr result ((result ≡ Err Spent) × IsSpent self.now) }
    {
        match self.gathering {
            None if is_last_round(self.round) => Err(FailError::Spent),
            None => Ok([Presence::Away; MAX_PROCESSES]),
            Some(presences) => Ok(presences),
        }
    }

    /// Takes a process that is up, and in interval `current`, into the gathering that is open. The round is finished where all
    /// are in then.
    ///
    /// Refused, the first that holds, are a process that the cluster has not (`Stranger`), another round than the manager's
    /// (`Stale`), a gathering that is not open (`NoRound`), a process that is in (`Joined`), and memory that ran out as the round is
    /// finished (`Memory`).
    pub fn join(
        &mut self,
        alloc: Global,
        pid: Pid,
        round: u32,
        current: u32,
    ) -> Result<Gathered, JoinError>
        ensures answer { Joining self.old pid round current result self.new }
        ensures sound { IsManager self.new }
        ensures front { GoesOn self.old self.new }
        ensures not_lowered { IsBelow self.old.recovery self.new.recovery }
        ensures released { KeepsReleased self.old self.new }
    {
        if pid.index() >= self.records.n() {
            return Err(JoinError::Stranger);
        }
        if round != self.round {
            return Err(JoinError::Stale { round: self.round });
        }
        let Some(mut presences) = self.gathering else {
            return Err(JoinError::NoRound);
        };
        if presences[pid.index()] != Presence::Away {
            return Err(JoinError::Joined);
        }
        presences[pid.index()] = Presence::Joined(current);
        match self.gather(alloc, &presences) {
            Ok(gathered) => Ok(gathered),
            Err(_) => Err(JoinError::Memory),
        }
    }

    // Takes these as those who are in, and finishes the round where all are.
    fn gather(
        &mut self,
        alloc: Global,
        presences: &[Presence; MAX_PROCESSES],
    ) -> Result<Gathered, AllocError>
        requires { self.old.round + 1 < 2 ^ 32 }
        ensures gathered { (answer : _) → result ≡ Ok answer → Gathers presences.now self.old answer self.new }
        ensures refused { OnErr result (AreAllIn (process_count self.old) presences.now × (self.new ≡ self.old)) }
        ensures sound { IsManager self.new }
        ensures front { GoesOn self.old self.new }
        ensures not_lowered { IsBelow self.old.recovery self.new.recovery }
        ensures released { KeepsReleased self.old self.new }
    {
        if are_all_in(presences, self.records.n()) {
            self.finish(alloc, presences)?;
            return Ok(Gathered::Finished);
        }
        if self.gathering.is_none() {
            self.version += 1;
        }
        self.gathering = Some(*presences);
        Ok(Gathered::Waiting)
    }

    // Finishes the round: what can want memory comes first, and the rest cannot be refused.
    fn finish(
        &mut self,
        alloc: Global,
        presences: &[Presence; MAX_PROCESSES],
    ) -> Result<(), AllocError>
        requires { self.old.round + 1 < 2 ^ 32 }
        ensures finished { OnOk result (Finishes presences.now self.old self.new) }
        ensures refused { OnErr result (self.new ≡ self.old) }
        ensures sound { IsManager self.new }
    {
        let state = self.records.recovery();
        let who = new_incarnations(presences, &state);
        self.starts.cut_all(alloc, who, &state)?;
        self.records.cut();
        cut_all(&mut self.logs);
        self.last = state;
        self.backs = who;
        self.gathering = None;
        self.round += 1;
        self.version += 1;
        Ok(())
    }
}

// Drops the outputs that are not released.
fn cut_all(logs: &mut Vec<OutputLog>)
    ensures { logs.new.items ≡ map log_within logs.old.items }
{
    for p in 0..logs.len() {
        let log = &mut logs[p];
        log.cut();
    }
}
