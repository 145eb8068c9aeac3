//! How a checkpoint is added.

ghost use Rattle.std.specs.Prelude.{◌≡◌, ◌<◌, None, Some, OnOk, OnErr, IsSome, IsTrue, false, length, slice_get, slice_set, ℕ};
ghost use Rattle.om_recover.specs.steps.Nearest.{at, IsPut};
ghost use Rattle.om_recover.specs.steps.Bases.{AreBases, AreSameBases, IsNewest, HasNoNewest, IsStored, base_entries, IsShelved, IsTop, newest_of};
ghost use Rattle.om_recover.specs.declared.rows.trees.Base.{Base};

use crate::rows::bases::{base_from, newest_of};
use crate::rows::trees::{Base, Bases, Newest};
use om_interval::Pid;
use std::alloc::AllocError;
use std::collections::BTreeMap;

/// Adds a checkpoint of an interval that has none: or none, where memory is refused.
pub fn store(bases: &mut Bases, pid: Pid, x: u32, base: Base) -> Result<(), AllocError>
    requires bases { AreBases bases.old }
    requires free { at (base_entries bases.old) pid x ≡ None }
    ensures ok { OnOk result (IsStored bases.old bases.new pid x base) }
    ensures err { OnErr result (AreSameBases bases.old bases.new) }
{
    if !is_top(bases, pid, x) {
        bases.others.insert((pid, x), base)?;
        return Ok(());
    }
    shelve(bases, pid)?;
    bases.newest[pid.index()] = Some(Newest { interval: x, base });
    Ok(())
}

// Returns whether none of a process's checkpoints is at an interval or above, and there is room for a newest.
fn is_top(bases: &Bases, pid: Pid, x: u32) -> bool
    requires { AreBases bases.now }
    ensures yes { IsTrue result → IsTop bases.now pid x }
    ensures none { result ≡ false → (y : ℕ) (base : Base) → IsNewest bases.now.newest.items pid y base
        → at (base_entries bases.now) pid x ≡ None → x < y }
{
    if bases.newest.len() <= pid.index() {
        return false;
    }
    match base_from(bases, pid, x) {
        None => true,
        Some(_) => false,
    }
}

// Puts a process's newest checkpoint, if it has one, into the tree too.
fn shelve(bases: &mut Bases, pid: Pid) -> Result<(), AllocError>
    requires { AreBases bases.old }
    ensures ok { OnOk result (IsShelved bases.old bases.new pid) }
    ensures err { OnErr result (AreSameBases bases.old bases.new) }
{
    let Some(newest) = newest_of(&bases.newest, pid) else {
        return Ok(());
    };
    let newest = *newest;
    bases.others.insert((pid, newest.interval), newest.base)?;
    Ok(())
}

/// Lets the checkpoint of an interval reach to another.
pub fn set_last(bases: &mut Bases, pid: Pid, x: u32, last: u32)
    requires bases { AreBases bases.old }
    requires there { IsSome (at (base_entries bases.old) pid x) }
    ensures { (base : Base) → at (base_entries bases.old) pid x ≡ Some base
        → IsStored bases.old bases.new pid x (record base { last = last }) }
{
    if is_newest(&bases.newest, pid, x) {
        set_newest_last(&mut bases.newest[pid.index()], last);
    } else {
        set_other_last(&mut bases.others, pid, x, last);
    }
}

fn is_newest(newest: &[Option<Newest>], pid: Pid, x: u32) -> bool
    ensures yes { IsTrue result → (base : Base) × IsNewest newest.now pid x base }
    ensures none { result ≡ false → (base : Base) → IsNewest newest.now pid x base → ⊥ }
{
    match newest_of(newest, pid) {
        None => false,
        Some(found) => found.interval == x,
    }
}

fn set_newest_last(slot: &mut Option<Newest>, last: u32)
    ensures { (x : ℕ) (base : Base) → slot.old ≡ Some (newest_of x base) → slot.new ≡ Some (newest_of x (record base { last = last })) }
{
    if let Some(newest) = slot {
        newest.base.last = last;
    }
}

fn set_other_last(others: &mut BTreeMap<(Pid, u32), Base>, pid: Pid, x: u32, last: u32)
    requires { IsSome (at others.old.entries pid x) }
    ensures { (base : Base) → at others.old.entries pid x ≡ Some base
        → IsPut others.old.entries others.new.entries pid x (record base { last = last }) }
{
    if let Some(base) = others.get_mut(&(pid, x)) {
        base.last = last;
    }
}
