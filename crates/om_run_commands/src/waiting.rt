//! What processes wait for, for whoever is told that a run came to no end.

use crate::cluster_script::ClusterScript;
use om_commands::name_of;
use om_runner::Sight;
use std::alloc::{AllocError, Global};
use std::fmt::Write;

/// Says of each process of a cluster file what it was seen to do, by number: a line with its name, what it does or waits for, and
/// its interval. Those that have ended are left out.
///
/// Refused where memory ran out.
pub fn waiting_text(
    alloc: Global,
    script: &ClusterScript,
    sights: &[Sight],
) -> Result<String, AllocError> {
    let programs = script.programs();
    let mut text = String::new(alloc);
    for p in 0..programs.n().min(sights.len()) {
        let sight = &sights[p];
        if !sight.has_ended() {
            let name = name_of(programs, p);
            write!(text, "{name}: {sight}\n")?;
        }
    }
    Ok(text)
}
