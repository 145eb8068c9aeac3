//! Whether a file that is to be written is one that the run has anyway, which it would overwrite.

use crate::identity::Identity;
use crate::names::store_of;
use std::alloc::AllocError;
use std::io::Read;
use std::path::{Path, PathBuf};
use std::{fmt, fs, io};

/// What a file is for a run, besides the one that is to be written.
#[derive(Clone, Copy, Debug, PartialEq, Eq)]
pub enum Clash {
    /// What the run reads.
    Input,
    /// The file that standard output goes to.
    Output,
    /// The file of a store, or one that SQLite keeps beside it.
    Store,
    /// A database, or the log of one, of whatever run or program.
    Database,
}

impl fmt::Display for Clash {
    fn fmt<W: fmt::Write>(&self, f: &mut fmt::Formatter<W>) -> fmt::Result {
        f.write_str(match self {
            Clash::Input => "is the input of the run",
            Clash::Output => "is what standard output goes to",
            Clash::Store => "is a store of the run, or belongs to one",
            Clash::Database =>
                "is a database, perhaps a store of another run: another name, or remove it",
        })
    }
}

// How a database of SQLite begins, and its log, in either order of bytes.
const STARTS: [&[u8]; 3] = [b"SQLite format 3", b"\x37\x7f\x06\x82", b"\x37\x7f\x06\x83"];

// The longest of these.
const LONGEST_START: usize = 15;

// As many links are followed, one behind the other.
const MAX_LINKS: usize = 40;

// What SQLite puts behind the name of a file for what it keeps beside it; nothing for the file itself.
const ENDINGS: [&str; 4] = ["", "-wal", "-shm", "-journal"];

/// Returns what a path names that is a file already: the input, a file or else standard input, or the file of standard output. None
/// where it is neither, or is no regular file.
pub fn clash_with_streams(rt: &HostRuntime, path: &str, input: Option<&str>) -> Option<Clash> {
    let found = file_at(rt, path)?;
    if file_at(rt, input.unwrap_or("/dev/stdin")) == Some(found) {
        return Some(Clash::Input);
    }
    if file_at(rt, "/dev/stdout") == Some(found) {
        return Some(Clash::Output);
    }
    None
}

/// Says whether a path names a file that begins as a database of SQLite does, or as the log of one. One that cannot be read does not.
pub fn clash_with_databases(rt: &HostRuntime, path: &str) -> Option<Clash> {
    file_at(rt, path)?;
    match start_of(rt, path) {
        Ok(start) if STARTS.iter().any(|known| start.starts_with(*known)) => Some(Clash::Database),
        _ => None,
    }
}

// Reads the first bytes of a file.
fn start_of(rt: &HostRuntime, path: &str) -> io::Result<Vec<u8>> {
    let mut start = Vec::new(rt.alloc());
    fs::open(rt, path)?
        .take(LONGEST_START as u64)
        .read_to_end(&mut start)?;
    Ok(start)
}

/// Returns whether what is written to a path would lie at the name of a store of so many processes, or of what SQLite keeps
/// beside one. None of them need be there.
pub fn clashes_with_stores(
    rt: &HostRuntime,
    path: &str,
    prefix: &str,
    n: usize,
) -> Result<bool, AllocError> {
    let place = end_of_links(rt, path)?;
    let Some(name) = place.file_name() else {
        return Ok(false);
    };
    let Some(folder) = folder_of(rt, place.as_path()) else {
        return Ok(false);
    };
    for process in 0..n {
        let file = store_of(rt.alloc(), prefix, process)?;
        let store = Path::new(file.as_str());
        if is_beside(name, store.file_name()) && folder_of(rt, store) == Some(folder) {
            return Ok(true);
        }
    }
    Ok(false)
}

// Returns whether it is the name of the file, or of what SQLite keeps beside it.
fn is_beside(name: &str, file: Option<&str>) -> bool {
    let Some(file) = file else {
        return false;
    };
    let Some(ending) = name.strip_prefix(file) else {
        return false;
    };
    ENDINGS.iter().any(|known| *known == ending)
}

// Returns where a file would lie that is written to a path: links at its end are followed.
fn end_of_links(rt: &HostRuntime, path: &str) -> Result<PathBuf, AllocError> {
    let mut place = PathBuf::from_str(rt.alloc(), path)?;
    for _ in 0..MAX_LINKS {
        let Ok(target) = fs::read_link(rt, place.as_str()) else {
            return Ok(place);
        };
        place = place.with_file_name(rt.alloc(), target.as_str())?;
    }
    Ok(place)
}

// Returns the folder of a path, where there is one.
fn folder_of(rt: &HostRuntime, path: Path<'_>) -> Option<Identity> {
    let folder = path.parent()?.as_str();
    let folder = if folder.is_empty() { "." } else { folder };
    identity_at(rt, folder)
}

fn identity_at(rt: &HostRuntime, path: &str) -> Option<Identity> {
    match fs::metadata(rt, path) {
        Ok(found) => Some(Identity::of(&found)),
        Err(_) => None,
    }
}

// Returns the regular file that a path leads to.
fn file_at(rt: &HostRuntime, path: &str) -> Option<Identity> {
    match fs::metadata(rt, path) {
        Ok(found) if found.is_file() => Some(Identity::of(&found)),
        _ => None,
    }
}
