//! The files of a cluster.

use crate::connecting::Connects;
use crate::opening::opened;
use om_interval::Pid;
use om_runner::OpenFault;
use om_store_files::{Note, NotedFile, Notes, connection_options, open_noted, store_of};
use sqlite::{Connection, FileStore};
use sqlite_std_file::OpenError;
use std::alloc::Global;
use std::io::ErrorKind;

/// The files that are named by a prefix, the number of the process and `.db`.
#[derive(Drop)]
pub struct Files<'a> {
    pub rt: &'a HostRuntime,
    pub prefix: &'a str,
    /// What the system answers where one of them fails.
    pub notes: &'a Notes,
}

impl<'a> Connects for Files<'a> {
    type Disk = FileStore<NotedFile>;

    fn connect(
        &self,
        alloc: Global,
        pid: Pid,
    ) -> Result<Connection<FileStore<NotedFile>>, OpenFault> {
        let note = self.notes.of(pid);
        let Ok(path) = store_of(alloc, self.prefix, pid.index()) else {
            return Err(OpenFault::Memory);
        };
        let Some(options) = connection_options(self.rt) else {
            return Err(OpenFault::Refused);
        };
        let pair = match open_noted(self.rt, path.as_str(), note) {
            Ok(pair) => pair,
            Err(error) => return Err(refused(&error, note)),
        };
        opened(alloc, pair, options)
    }
}

// Returns why the files of a process are not opened; what the system answered is noted.
fn refused(error: &OpenError, note: Option<&Note>) -> OpenFault {
    match error {
        OpenError::OutOfMemory => OpenFault::Memory,
        OpenError::Io(error) if error.kind() == ErrorKind::OutOfMemory => OpenFault::Memory,
        OpenError::Io(error) => {
            if let Some(note) = note {
                note.take(error);
            }
            OpenFault::Refused
        }
        OpenError::Busy => OpenFault::InUse,
        OpenError::HotJournal => OpenFault::Refused,
    }
}
