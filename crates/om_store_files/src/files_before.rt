//! What stood at the names of a cluster's stores before a run that takes them up, and what of the rest it leaves if it is refused.

ghost use Rattle.std.specs.Prelude.{◌≡◌, IfOk, length};

use crate::names::{log_of, store_of};
use sqlite_std_file::{Unknown, open};
use std::alloc::AllocError;
use std::fs;

// The bytes of the shortest log that has a page in it: its head, the head of a page, and the least page.
const SHORTEST_LOG: u64 = 32 + 24 + 512;

/// Whether there was a file of a process's store, and a log beside it.
#[derive(Clone, Copy, Debug, PartialEq, Eq)]
pub struct Stood {
    pub store: bool,
    pub log: bool,
}

/// What stood at the names of the stores of a cluster before a run, by process.
#[derive(Debug, Drop)]
pub struct FilesBefore {
    pub stood: Vec<Stood>,
}

impl FilesBefore {
    /// Looks at the names of so many processes. Refused where memory ran out.
    pub fn of(rt: &HostRuntime, prefix: &str, n: usize) -> Result<FilesBefore, AllocError>
        ensures number { IfOk result (λ standing. length standing.stood.items ≡ n) }
    {
        let mut stood = Vec::with_capacity(rt.alloc(), n)?;
        for process in 0..n {
            stood.push(stood_at(rt, prefix, process)?)?;
        }
        Ok(FilesBefore { stood })
    }

    /// Removes what a refused start left at names that nothing had: a log without a page, and a file that has nothing in it and no
    /// log. All else stays, and so does what another program has open.
    pub fn tidy(&self, rt: &HostRuntime, prefix: &str) {
        for (process, stood) in self.stood.iter().enumerate() {
            let _ = tidy_one(rt, prefix, process, *stood);
        }
    }
}

// Returns what stands at the names of a process.
fn stood_at(rt: &HostRuntime, prefix: &str, process: usize) -> Result<Stood, AllocError> {
    let file = store_of(rt.alloc(), prefix, process)?;
    let log = log_of(rt.alloc(), &file)?;
    Ok(Stood {
        store: is_there(rt, &file),
        log: is_there(rt, &log),
    })
}

// Returns whether anything has this name, also a link that leads nowhere.
fn is_there(rt: &HostRuntime, path: &str) -> bool {
    fs::symlink_metadata(rt, path).is_ok()
}

fn tidy_one(
    rt: &HostRuntime,
    prefix: &str,
    process: usize,
    stood: Stood,
) -> Result<(), AllocError> {
    let file = store_of(rt.alloc(), prefix, process)?;
    let log = log_of(rt.alloc(), &file)?;
    if stood.log || !is_there(rt, &file) {
        return Ok(());
    }
    // As long as both are open nobody else has them.
    if let Ok(_files) = open(rt, file.as_str(), Unknown) {
        if !is_shorter(rt, &log, SHORTEST_LOG) {
            return Ok(());
        }
        let _ = fs::remove_file(rt, log.as_str());
        if !stood.store && is_shorter(rt, &file, 1) {
            let _ = fs::remove_file(rt, file.as_str());
        }
    }
    Ok(())
}

// Returns whether it is a file of fewer bytes than so many.
fn is_shorter(rt: &HostRuntime, path: &str, bytes: u64) -> bool {
    fs::symlink_metadata(rt, path).is_ok_and(|found| found.is_file() && found.len() < bytes)
}
