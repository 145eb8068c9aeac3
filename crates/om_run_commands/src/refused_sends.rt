//! How many sends of each process of a run were refused, for whoever is told more of it.

ghost use Rattle.std.specs.Prelude.{◌≡◌, ◌++◌, IfOk, OnOk, string_bytes};
ghost use Rattle.om_run_commands.specs.RefusedSends.{refused_line, refused_sends_text};

use crate::cluster_script::ClusterScript;
use om_commands::name_of;
use om_runner::Sight;
use om_scripts::Programs;
use std::alloc::{AllocError, Global};
use std::fmt::Write;

/// Says how many sends of each process of a cluster file were refused, by what was seen of each in the end: a line for each of which
/// some were, in their order. Refused where memory ran out.
pub fn refused_sends_text(
    alloc: Global,
    script: &ClusterScript,
    sights: &[Sight],
) -> Result<String, AllocError>
    ensures { IfOk result (λ text. string_bytes text ≡ refused_sends_text script.now.cluster sights.now) }
{
    let mut text = String::new(alloc);
    push_refused_sends(&mut text, script.programs(), sights)?;
    Ok(text)
}

// Writes a line for each process of which sends were refused.
fn push_refused_sends(
    text: &mut String,
    programs: &Programs,
    sights: &[Sight],
) -> Result<(), AllocError>
    ensures { OnOk result (string_bytes text.new ≡ string_bytes text.old ++ refused_sends_text programs.now sights.now) }
{
    for p in 0..sights.len() {
        push_refused(text, name_of(programs, p), sights[p].refused)?;
    }
    Ok(())
}

// Writes the line of a process, where sends of it were refused.
fn push_refused(text: &mut String, name: &str, count: u64) -> Result<(), AllocError>
    ensures { OnOk result (string_bytes text.new ≡ string_bytes text.old ++ refused_line name.now count) }
{
    if count == 0 {
        return Ok(());
    }
    write!(text, "{name}: refused sends: {count}\n")
}
