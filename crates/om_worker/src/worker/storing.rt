//! What a worker does after a receipt, and what its process drops.

ghost use Rattle.std.specs.Prelude.{◌≡◌, ◌↔◌, Contains, IfOk, IsTrue, Ok, OnOk, false, is_some};
ghost use Rattle.om_storing.specs.Receipts.{HasStoredBy};
ghost use Rattle.om_worker.specs.steps.Dropping.{HasDropped};
ghost use Rattle.om_links.specs.Links.{KeepsEnds};
ghost use Rattle.om_node.specs.Nodes.{KeepsMember};

use super::Worker;
use om_board::Naming;
use om_interval::{Bounds, DepVec};
use om_node::{Node, WorkerFault};
use om_stable::{Ledger, Stable};
use om_tickets::Series;
use om_worker_parts::TurnOutcome;
use std::alloc::Global;
use std::sync::Wait;

impl<'a, K: Naming> Worker<'a, K> {
    // Returns what comes after the receipt that began interval x: a failure, or what is stored by its number.
    pub(super) fn after_receipt<J: Series, S: Ledger, R: Wait>(
        &mut self,
        rt: &R,
        alloc: Global,
        node: &mut Node<'a, J, S>,
        x: u32,
    ) -> Result<TurnOutcome, WorkerFault>
        ensures same { KeepsEnds self.old.links self.new.links }
        ensures member { KeepsMember node.old node.new }
        ensures now { node.new.core.now ≡ node.old.core.now }
        ensures killed { Contains self.old.kills.items x → result ≡ Ok TurnOutcome.Failed }
        ensures spared { (Contains self.old.kills.items x → ⊥) → IfOk result (λ turn_outcome. turn_outcome ≡ TurnOutcome.Up) }
        ensures stored { let w = self.old in (Contains w.kills.items x → ⊥) → node.old.slow ≡ false
            → OnOk result (HasStoredBy x w.config.now.flush w.config.now.checkpoint (is_some w.storing.kept) node.old.core node.new.core) }
    {
        if self.is_to_fail(x) {
            return Ok(TurnOutcome::Failed);
        }
        let (flush, checkpoint) = (self.config.flush, self.config.checkpoint);
        if node.is_slow() {
            self.storing
                .launch(rt, alloc, node, &mut self.diary, flush, checkpoint)?;
        } else {
            self.storing.store_by(alloc, node, x, flush, checkpoint)?;
        }
        Ok(TurnOutcome::Up)
    }

    // Returns whether the process is to fail in this interval, which is then done with.
    fn is_to_fail(&mut self, x: u32) -> bool
        ensures same { KeepsEnds self.old.links self.new.links }
        ensures config { self.new.config ≡ self.old.config }
        ensures kept { self.new.storing.kept ≡ self.old.storing.kept }
        ensures named { IsTrue result ↔ Contains self.old.kills.items x }
    {
        match self.kills.iter().position(|kill| *kill == x) {
            Some(i) => {
                self.kills.swap_remove(i);
                true
            }
            None => false,
        }
    }

    // Drops the messages to processes that take none any more, where the process was trimmed. Of a run that is recorded they are
    // kept: its record is played in a world, whose resends send all that is not received.
    pub(super) fn drop_untaken<J: Series, S: Stable>(
        &self,
        node: &mut Node<'a, J, S>,
        is_trimmed: bool,
    )
        requires { node.old.member.n ≡ K.cell.n }
        ensures member { KeepsMember node.old node.new }
        ensures dropped { HasDropped node.old.core node.new.core }
    {
        if !is_trimmed || self.diary.is_kept() {
            return;
        }
        if let Some(bounds) = self.links.bounds_of_ended() {
            node.trim(&bounds);
        }
    }

    // Drops the outputs of the process that are released, before they are copied: else each would stand in memory three times. Of a run
    // that is recorded they are kept, since its record has no event for it.
    pub(crate) fn drop_released<J: Series, S: Stable, R: Wait>(
        &self,
        rt: &R,
        node: &mut Node<'a, J, S>,
    )
        requires { node.old.member.n ≡ K.cell.n }
        ensures member { KeepsMember node.old node.new }
        ensures away { node.new.away ≡ node.old.away }
    {
        if self.diary.is_kept() {
            return;
        }
        let Some(got) = DepVec::zeros(self.n()) else {
            return;
        };
        let released = self.manager_link.released(rt);
        node.trim(&Bounds { got, released });
    }
}
