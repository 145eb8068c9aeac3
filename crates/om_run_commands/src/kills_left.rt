//! Which kills of a run did not come, for whoever is told more of it.

ghost use Rattle.std.specs.Prelude.{◌≡◌, ◌<◌, ◌++◌, ℕ, [], IfOk, IsTrue, OnOk, count_by, false, if◌then◌else◌, length, string_bytes};
ghost use Rattle.om_run_commands.specs.KillsLeft.{is_left, is_left_after, is_same, kills_left_text, left_line};

use crate::cluster_script::ClusterScript;
use om_commands::name_of;
use om_interval::Pid;
use om_scripts::Programs;
use std::alloc::{AllocError, Global};
use std::fmt::Write;

/// Returns whether one of these kills did not come, by the failures that there were: by each the process, and the interval that
/// it had just begun.
pub fn has_kills_left(kills: &[(Pid, u32)], failures: &[(Pid, u32)]) -> bool
    ensures some { IsTrue result → (i : ℕ) × (i < length kills.now) × IsTrue (is_left kills.now failures.now i) }
    ensures none { result ≡ false → (i : ℕ) → i < length kills.now → is_left kills.now failures.now i ≡ false }
{
    for i in 0..kills.len() {
        if is_left_after(&kills[..i], &kills[i], failures) {
            return true;
        }
    }
    false
}

// Returns whether a kill did not come that stands behind others: no more failures are like it than kills before it.
fn is_left_after(before: &[(Pid, u32)], kill: &(Pid, u32), failures: &[(Pid, u32)]) -> bool
    ensures { result ≡ is_left_after before.now kill.now failures.now }
{
    count_of(kill, failures) <= count_of(kill, before)
}

// Returns how many of these are like a kill.
fn count_of(kill: &(Pid, u32), others: &[(Pid, u32)]) -> usize
    ensures { result ≡ count_by (is_same kill.now) others.now }
{
    others.iter().filter(|other| is_same(kill, *other)).count()
}

fn is_same(kill: &(Pid, u32), other: &(Pid, u32)) -> bool
    ensures { result ≡ is_same kill.now other.now }
{
    kill.0 == other.0 && kill.1 == other.1
}

/// Says which lines `kill` of a cluster file did not come, by the failures that there were: of lines that are alike the last ones. A line
/// for each, in their order. Refused where memory ran out.
pub fn kills_left_text(
    alloc: Global,
    script: &ClusterScript,
    failures: &[(Pid, u32)],
) -> Result<String, AllocError>
    ensures { IfOk result (λ text. string_bytes text ≡ kills_left_text script.now.cluster script.now.kills failures.now) }
{
    let mut text = String::new(alloc);
    push_kills_left(&mut text, script.programs(), script.kills(), failures)?;
    Ok(text)
}

// Writes a line for each kill that did not come.
fn push_kills_left(
    text: &mut String,
    programs: &Programs,
    kills: &[(Pid, u32)],
    failures: &[(Pid, u32)],
) -> Result<(), AllocError>
    ensures { OnOk result (string_bytes text.new
        ≡ string_bytes text.old ++ kills_left_text programs.now kills.now failures.now) }
{
    for i in 0..kills.len() {
        let kill = &kills[i];
        let is_left = is_left_after(&kills[..i], kill, failures);
        push_left(text, name_of(programs, kill.0.index()), kill.1, is_left)?;
    }
    Ok(())
}

// Writes the line of a kill, where it did not come.
fn push_left(text: &mut String, name: &str, interval: u32, is_left: bool) -> Result<(), AllocError>
    ensures { OnOk result (string_bytes text.new ≡ string_bytes text.old ++ (if is_left then left_line name.now interval else [])) }
{
    if is_left {
        push_line(text, name, interval)?;
    }
    Ok(())
}

// Writes the line of a kill that did not come.
fn push_line(text: &mut String, name: &str, interval: u32) -> Result<(), AllocError>
    ensures { OnOk result (string_bytes text.new ≡ string_bytes text.old ++ left_line name.now interval) }
{
    write!(text, "kill {name} {interval}: did not come\n")
}
