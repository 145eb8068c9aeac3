//! A world that is played, and the messages that were sent in it and not received.

ghost use Rattle.std.specs.Prelude.{◌≡◌, IfOk};

use crate::lines::FrameQueues;
use om_interval::Pid;
use om_stable::MemStable;
use om_world::World;
use std::alloc::{AllocError, Global};

/// After so many receipts a world drops what it need not keep.
pub(crate) const RECEIPTS_KEPT: usize = 1_000;

// A world, and the frames of it that were not given.
#[derive(Drop)]
pub(crate) struct Stage {
    pub(crate) alloc: Global,
    pub(crate) world: World<MemStable>,
    pub(crate) lines: FrameQueues,
}

impl Stage {
    // Makes a stage of a world of so many processes at its start.
    pub(crate) fn new(alloc: Global, world: World<MemStable>, n: usize) -> Result<Stage, AllocError>
        ensures { IfOk result (λ stage. stage.world ≡ world) }
    {
        Ok(Stage {
            alloc,
            world,
            lines: FrameQueues::new(alloc, n)?,
        })
    }

    // Returns how many messages to another a process keeps.
    fn kept(&self, pid: Pid, to: usize) -> usize {
        match self.world.core(pid) {
            Some(core) if to < core.vec().n() => core.outbox(Pid::at(to)).len(),
            _ => 0,
        }
    }

    // Numbers what a process sent to each of so many since it was looked at last.
    pub(crate) fn number(&mut self, n: usize, pid: Pid) -> Result<(), AllocError>
        ensures { self.new.world ≡ self.old.world }
    {
        for to in 0..n {
            let kept = self.kept(pid, to);
            self.lines.number(pid.index(), to, kept)?;
        }
        Ok(())
    }

    // Returns how many instructions a process may still finish of so many.
    pub(crate) fn left(&self, pid: Pid, limit: u64) -> u64 {
        match self.world.core(pid) {
            Some(core) => limit.saturating_sub(core.machine().count()),
            None => 0,
        }
    }
}
