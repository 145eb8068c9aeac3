//! The files of the stores of a cluster, which a run makes at names that nothing has.

ghost use Rattle.std.specs.Prelude.{◌≡◌, ◌↔◌, IfOk, length};
ghost use Rattle.om_commands.specs.declared.error.CommandError.TheVariants as commands;
ghost use Rattle.om_store_files.specs.steps.Places.{error_of_place};

use crate::identity::Identity;
use crate::names::{log_of, store_of};
use om_commands::CommandError;
use std::alloc::AllocError;
use std::fs::OpenOptions;
use std::os::unix::fs::OpenOptionsExt;
use std::{fmt, fs, io};

/// Why the stores of a cluster cannot be made.
#[derive(Debug, Drop)]
pub enum PlaceError {
    /// Something of this name is there already.
    Taken(String),
    /// A file of this name is there that has nothing in it: of a run that was killed as it made it, or of somebody else.
    Empty(String),
    /// No file of this name can be made.
    NotMade(String, io::Error),
    Memory,
}

impl fmt::Display for PlaceError {
    fn fmt<W: fmt::Write>(&self, f: &mut fmt::Formatter<W>) -> fmt::Result {
        match self {
            PlaceError::Taken(name) => write!(f, "{name}: is there already"),
            PlaceError::Empty(name) => write!(
                f,
                "{name}: is there already, with nothing in it: remove it, if a run that was killed left it"
            ),
            PlaceError::NotMade(name, error) => write!(f, "{name}: cannot be made: {error}"),
            PlaceError::Memory => f.write_str("no memory"),
        }
    }
}

impl From<AllocError> for PlaceError {
    fn from(_e: AllocError) -> PlaceError {
        PlaceError::Memory
    }
}

impl From<PlaceError> for CommandError {
    ghost from_gives = { λ error e. e ≡ error_of_place error };

    fn from(error: PlaceError) -> CommandError {
        match error {
            PlaceError::Taken(_) | PlaceError::Empty(_) | PlaceError::NotMade(..) =>
                CommandError::StoreFault,
            PlaceError::Memory => CommandError::NoMemory,
        }
    }
}

/// The files that were made for the stores of a cluster, by process.
#[derive(Debug, Drop)]
pub struct Places {
    pub made: Vec<Identity>,
}

impl Places {
    /// Makes an empty file for the store of each of so many processes. The first name, of a file or of the log beside it, that
    /// anything has is an error, and so is the first at which none can be made; then none is left of those that were made here.
    pub fn make(rt: &HostRuntime, prefix: &str, n: usize) -> Result<Places, PlaceError>
        ensures { IfOk result (λ places. length places.made.items ≡ n) }
    {
        look(rt, prefix, n)?;
        let mut made = Vec::with_capacity(rt.alloc(), n)?;
        for process in 0..n {
            let identity = match make_one(rt, prefix, process) {
                Ok(identity) => identity,
                Err(error) => {
                    remove_all(rt, prefix, &made);
                    return Err(error);
                }
            };
            if made.push(identity).is_err() {
                return Err(PlaceError::Memory);
            }
        }
        Ok(Places { made })
    }

    /// Removes of these files those that nobody wrote to, each with its log. What has the name of one by now, and is another
    /// file, stays; so does a file whose log has something in it.
    pub fn remove_empty(&self, rt: &HostRuntime, prefix: &str) {
        remove_all(rt, prefix, &self.made);
    }
}

// Looks at the names of so many processes, and makes none.
fn look(rt: &HostRuntime, prefix: &str, n: usize) -> Result<(), PlaceError> {
    for process in 0..n {
        let file = store_of(rt.alloc(), prefix, process)?;
        let log = log_of(rt.alloc(), &file)?;
        look_at(rt, file)?;
        look_at(rt, log)?;
    }
    Ok(())
}

fn look_at(rt: &HostRuntime, name: String) -> Result<(), PlaceError> {
    match fs::symlink_metadata(rt, name.as_str()) {
        Ok(found) if found.is_file() && found.len() == 0 => Err(PlaceError::Empty(name)),
        Ok(_) => Err(PlaceError::Taken(name)),
        Err(error) if error.kind() == io::ErrorKind::NotFound => Ok(()),
        Err(error) => Err(PlaceError::NotMade(name, error)),
    }
}

// Makes the file of a process, which is refused where another run has made one of its name by now.
fn make_one(rt: &HostRuntime, prefix: &str, process: usize) -> Result<Identity, PlaceError> {
    let file = store_of(rt.alloc(), prefix, process)?;
    match new_file(rt, &file) {
        Ok(identity) => Ok(identity),
        Err(error) if error.kind() == io::ErrorKind::AlreadyExists => Err(PlaceError::Taken(file)),
        Err(error) => Err(PlaceError::NotMade(file, error)),
    }
}

// Makes an empty file at a name that nothing has.
fn new_file(rt: &HostRuntime, path: &str) -> io::Result<Identity> {
    let mut options = OpenOptions::new();
    options.write(true).create_new(true).mode(0o644);
    Ok(Identity::of(&options.open(rt, path)?.metadata()?))
}

fn remove_all(rt: &HostRuntime, prefix: &str, made: &[Identity]) {
    for (process, made) in made.iter().enumerate() {
        let _ = remove_made(rt, prefix, process, *made);
    }
}

fn remove_made(
    rt: &HostRuntime,
    prefix: &str,
    process: usize,
    made: Identity,
) -> Result<(), AllocError> {
    let file = store_of(rt.alloc(), prefix, process)?;
    let log = log_of(rt.alloc(), &file)?;
    if is_empty(rt, &file, Some(made)) && (!is_there(rt, &log) || is_empty(rt, &log, None)) {
        // The log first: once the file is gone its name is another run's, and so is the log's.
        let _ = fs::remove_file(rt, log.as_str());
        let _ = fs::remove_file(rt, file.as_str());
    }
    Ok(())
}

// Returns whether anything has this name, also a link that leads nowhere.
fn is_there(rt: &HostRuntime, path: &str) -> bool {
    fs::symlink_metadata(rt, path).is_ok()
}

// Returns whether it is a file that has nothing in it; where one is named, that file.
fn is_empty(rt: &HostRuntime, path: &str, wanted: Option<Identity>) -> bool {
    fs::symlink_metadata(rt, path).is_ok_and(|found| {
        found.is_file()
            && found.len() == 0
            && wanted.is_none_or(|wanted| wanted == Identity::of(&found))
    })
}
