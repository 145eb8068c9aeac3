//! The manager of a cluster: its reads, and how it prunes.

ghost use Rattle.std.specs.Prelude.{◌≡◌, ℕ, [], ◌∷◌, ◌<◌, ◌≤◌, ◌↔◌, length, replicate, map, slice_index, IfOk, false, None, is_some};
ghost use Rattle.om_interval.specs.declared.pid.TheConstants.{MAX_PROCESSES};
ghost use Rattle.om_interval.specs.Starts.{newest_of, is_named};
ghost use Rattle.om_interval.specs.Vectors.{IsBelow};
ghost use Rattle.om_recover.specs.Rows.{HasRow};
ghost use Rattle.om_recover.specs.Records.{first_row};
ghost use Rattle.om_recover.specs.Cutting.{IsEffective, IsPruned};
ghost use Rattle.om_manager.specs.Bounds.{AreGotFrom};
ghost use Rattle.om_manager.specs.Outputs.{held_of, AreNumbered};
ghost use Rattle.om_manager.specs.State.{process_count, held_by, released_by};
ghost use Rattle.om_manager.specs.Sound.{IsManager, IsExact, GoesOn, KeepsReleased};

use crate::output_log::{Output, OutputLog};
use crate::presence::Presence;
use om_interval::{Bounds, DepVec, MAX_PROCESSES, Pid, Starts, Verdict};
use om_recover::Records;
use std::alloc::{AllocError, Global};
use std::marker::Model;

/// What the processes of one cluster told: their records, the outputs that they handed in, and who failed in which round.
#[derive(Debug, Drop)]
pub struct Manager {
    pub(crate) records: Records,
    // By process.
    pub(crate) logs: Vec<OutputLog>,
    pub(crate) starts: Starts,
    pub(crate) round: u32,
    // By process, where one is open.
    pub(crate) gathering: Option<[Presence; MAX_PROCESSES]>,
    // The recovery state of the last finished round, and who began an incarnation in it.
    pub(crate) last: DepVec,
    pub(crate) backs: [bool; MAX_PROCESSES],
    pub(crate) version: u64,
}

impl Model for Manager {
    ghost use Rattle.std.specs.Prelude.{map};
    ghost use Rattle.om_manager.specs.State.{ManagerState};
    ghost use Rattle.om_manager.specs.steps.Parts.{AreParts};
    ghost use Rattle.om_manager.specs.steps.Codes.{coded_manager};

    ghost Value = { ManagerState };

    ghost coded = { coded_manager };

    ghost view = { λ m. record {
      rows = m.records.rows;
      recovery = m.records.state;
      outputs = map (λ log. log.held) m.logs.items;
      starts = m.starts;
      round = m.round;
      gathering = m.gathering;
      last = m.last;
      backs = m.backs;
      version = m.version;
    } };

    ghost invariant = { λ m. AreParts m.records m.logs.items m.starts m.round m.gathering m.last m.backs m.version };
}

impl Manager {
    /// Makes the manager of `n` processes at their start: checkpoint 0 of each, and nothing else.
    pub fn new(alloc: Global, n: usize) -> Result<Manager, AllocError>
        requires some { 1 ≤ n }
        requires within { n ≤ MAX_PROCESSES }
        ensures rows { IfOk result (λ manager. (row : _) → HasRow manager.rows row ↔ ((row.pid < n) × (row ≡ first_row n row.pid))) }
        ensures recovery { IfOk result (λ manager. manager.recovery ≡ replicate n 0) }
        ensures outputs { IfOk result (λ manager. manager.outputs ≡ replicate n []) }
        ensures starts { IfOk result (λ manager. manager.starts ≡ replicate n (0 ∷ [])) }
        ensures round { IfOk result (λ manager. manager.round ≡ 0) }
        ensures gathering { IfOk result (λ manager. manager.gathering ≡ None) }
        ensures last { IfOk result (λ manager. manager.last ≡ replicate n 0) }
        ensures backs { IfOk result (λ manager. manager.backs ≡ replicate MAX_PROCESSES false) }
        ensures version { IfOk result (λ manager. manager.version ≡ 0) }
    {
        let records = Records::new(alloc, n)?;
        let logs = new_logs(alloc, n)?;
        let starts = Starts::new(alloc, n)?;
        let last = records.recovery();
        Ok(Manager {
            records,
            logs,
            starts,
            round: 0,
            gathering: None,
            last,
            backs: [false; MAX_PROCESSES],
            version: 0,
        })
    }

    /// Returns the recovery state: by process, the greatest interval that can be recovered (the maximum recoverable state of
    /// Johnson and Zwaenepoel 1990).
    pub fn recovery(&self) -> DepVec
        ensures recovery { result ≡ self.now.recovery }
        ensures exact { IsExact self.now }
        ensures sound { IsManager self.now }
    {
        self.records.recovery()
    }

    /// Returns at which intervals the incarnations of each process start.
    pub fn starts(&self) -> &Starts
        ensures { result.now ≡ self.now.starts }
    {
        &self.starts
    }

    /// Returns how many rounds are finished.
    pub fn round(&self) -> u32
        ensures { result ≡ self.now.round }
    {
        self.round
    }

    /// Returns whether a gathering is open.
    pub fn gathering(&self) -> bool
        ensures { result ≡ is_some self.now.gathering }
    {
        self.gathering.is_some()
    }

    /// Returns the version: one higher for each call that raises the recovery state, opens a gathering or finishes a round.
    pub fn version(&self) -> u64
        ensures { result ≡ self.now.version }
    {
        self.version
    }

    /// Returns the interval of the checkpoint that is used for the process's place of the recovery state.
    pub fn effective(&self, pid: Pid) -> u32
        requires { pid < process_count self.now }
        ensures { IsEffective self.now.rows pid (slice_index self.now.recovery pid) result }
    {
        self.records.effective(pid)
    }

    /// Returns the number of the process's next output.
    pub fn next_output(&self, pid: Pid) -> u64
        requires { pid < process_count self.now }
        ensures { result ≡ length (held_by self.now pid) }
    {
        let log = &self.logs[pid.index()];
        log.next() as u64
    }

    /// Returns the outputs of a process that are released, in order. They are kept for good.
    pub fn released(&self, pid: Pid) -> &[Output]
        requires { pid < process_count self.now }
        ensures outputs { map held_of result.now ≡ released_by self.now pid }
        ensures exact { IsExact self.now }
        ensures numbered { AreNumbered result.now }
    {
        let log = &self.logs[pid.index()];
        log.released()
    }

    /// Returns what the last finished round says to a process. Before any round, all of it is zero or false.
    pub fn verdict(&self, pid: Pid) -> Verdict
        requires { pid < process_count self.now }
        ensures round { result.round ≡ self.now.round }
        ensures inc { result.inc ≡ newest_of self.now.starts pid }
        ensures r { result.r ≡ slice_index self.now.last pid }
        ensures back { result.back ≡ is_named self.now.backs pid }
        ensures no_round { self.now.round ≡ 0 → (result.inc ≡ 0) × (result.r ≡ 0) × (result.back ≡ false) }
    {
        Verdict {
            round: self.round,
            inc: self.starts.incs(pid),
            r: self.last.get(pid),
            back: self.backs[pid.index()],
        }
    }

    /// Returns what a process need not keep any longer.
    pub fn bounds(&self, pid: Pid) -> Bounds
        requires { pid < process_count self.now }
        ensures got { AreGotFrom self.now.rows self.now.recovery pid result.got }
        ensures released { result.released ≡ length (released_by self.now pid) }
    {
        let log = &self.logs[pid.index()];
        Bounds {
            got: got_from(&self.records, pid),
            released: log.released().len() as u64,
        }
    }

    /// Drops the rows below the checkpoints that are used for the recovery state, which stays.
    pub fn prune(&mut self)
        ensures rows { IsPruned self.old.rows self.old.recovery self.new.rows }
        ensures others { self.new ≡ record self.old { rows = self.new.rows } }
        ensures sound { IsManager self.new }
        ensures front { GoesOn self.old self.new }
        ensures not_lowered { IsBelow self.old.recovery self.new.recovery }
        ensures released { KeepsReleased self.old self.new }
    {
        self.records.prune();
    }
}

fn new_logs(alloc: Global, n: usize) -> Result<Vec<OutputLog>, AllocError>
    ensures { IfOk result (λ logs. logs.items ≡ replicate n (record { held = []; limit = 0 })) }
{
    let mut logs = Vec::with_capacity(alloc, n)?;
    for _ in 0..n {
        logs.push_reserved(OutputLog::new(alloc));
    }
    Ok(logs)
}

// Returns, by receiver, how many messages from this process it got in the recovery state.
fn got_from(records: &Records, pid: Pid) -> DepVec
    requires { pid < length records.now.state }
    ensures { AreGotFrom records.now.rows records.now.state pid result }
{
    let mut by_receiver = records.recovery();
    for q in 0..by_receiver.n() {
        let receiver = Pid::at(q);
        by_receiver.set(receiver, records.got_from(receiver, pid));
    }
    by_receiver
}
