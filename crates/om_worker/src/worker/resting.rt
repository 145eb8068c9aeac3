//! What a worker does in a turn in which nothing happens.

ghost use Rattle.std.specs.Prelude.{◌≡◌, ◌<◌, ◌+◌, true};
ghost use Rattle.om_worker.specs.steps.Turning.{HasRested, pause_turns};
ghost use Rattle.om_links.specs.Links.{KeepsEnds};

use super::{ALL_TURNS, Worker};
use om_board::{Naming, SpinOutcome};
use om_links::Links;
use om_pacing::{Idle, Pause, SpinPolicy};
use std::sync::Wait;
use std::time::Clock;

// Passes a turn in which nothing happened: the worker yields for a while at first, where it has the patience, and sleeps.
fn pause_of<R: Wait + Clock>(
    rt: &R,
    links: &Links<'_>,
    idle: &Idle,
    patience: &mut SpinPolicy,
) -> Pause {
    let is_fresh = idle.is_fresh();
    if is_fresh && patience.begin() {
        match links.look(rt) {
            SpinOutcome::Rung => {
                patience.gain();
                return Pause::Woken;
            }
            SpinOutcome::Slice => patience.end(),
            SpinOutcome::Silent => {}
        }
    }
    let is_woken = if is_fresh && !patience.is_patient() {
        links.nap(rt)
    } else {
        links.sleep(rt, idle.sleep())
    };
    if is_woken { Pause::Woken } else { Pause::Slept }
}

impl<'a, K: Naming> Worker<'a, K> {
    // Takes a turn in which nothing happens to a process that is up. Where all that it keeps was resent, and put, the board knows
    // while it sleeps that it waits.
    pub(super) fn rest<R: Wait + Clock>(&mut self, rt: &R) -> Pause
        ensures same { KeepsEnds self.old.links self.new.links }
    {
        if self.resent && !self.storing.is_away && self.links.has_put_all() {
            self.wait(rt)
        } else {
            let pause = pause_of(rt, &self.links, &self.idle, &mut self.patience);
            self.count(rt, pause);
            pause
        }
    }

    // Sleeps, while the board knows that the process waits. Where all wait, nothing can happen any more: all turns that are left are
    // spent at once, and the run ends with `Turns`.
    fn wait<R: Wait + Clock>(&mut self, rt: &R) -> Pause
        ensures same { KeepsEnds self.old.links self.new.links }
        ensures waited { HasRested K.cell.n self.old.manager_link.pid self.old.manager_link.round self.old.idle.turns result self.new.extra }
    {
        if self
            .manager_link
            .wait(rt, self.links.put(), self.links.taken())
        {
            self.extra = ALL_TURNS;
            return Pause::Slept;
        }
        let pause = pause_of(rt, &self.links, &self.idle, &mut self.patience);
        self.manager_link.withdraw(rt);
        self.count(rt, pause);
        pause
    }

    // Counts a pause of a process that is up.
    fn count<R: Wait>(&mut self, rt: &R, pause: Pause)
        ensures same { KeepsEnds self.old.links self.new.links }
        ensures counted { self.new.extra + 1 ≡ pause_turns self.old.idle.turns pause }
    {
        if self.pass(pause) {
            self.manager_link.offer(rt);
            self.resent = true;
        }
    }

    // Counts a pause, and says whether all that is kept is put once more after it. Where there was no room for some of it, that is
    // put first: a resend would begin it anew each time.
    fn pass(&mut self, pause: Pause) -> bool
        ensures same { KeepsEnds self.old.links self.new.links }
        ensures counted { self.new.extra + 1 ≡ pause_turns self.old.idle.turns pause }
    {
        let passed = self.idle.count(pause);
        self.extra = u64::from(passed.turns).saturating_sub(1);
        let has_put_all = self.links.has_put_all();
        if passed.resends {
            self.links.resend_put();
        }
        passed.resends && has_put_all
    }

    // Takes a turn in which nothing happens to a process that is in, or down.
    pub(crate) fn doze<R: Wait + Clock>(&mut self, rt: &R)
        ensures same { KeepsEnds self.old.links self.new.links }
    {
        let pause = pause_of(rt, &self.links, &self.idle, &mut self.patience);
        self.pass(pause);
    }
}
