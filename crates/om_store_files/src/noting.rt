//! What the system answered where a file of a cluster failed.

ghost use Rattle.std.specs.Prelude.{◌≡◌, ◌↔◌, ◌<◌, IfOk, IfSome, IsSome, IsTrue};
ghost use Rattle.sqlite_disk.specs.Disk.{Only};
ghost use Rattle.om_store_files.specs.FileDisk.{of_file};

use om_interval::Pid;
use sqlite_disk::{Disk, Tally};
use sqlite_std_file::File;
use std::alloc::{AllocError, Global};
use std::io;
use std::marker::Model;
use std::sync::Arc;
use std::sync::atomic::AtomicI32;
use std::sync::atomic::Ordering::SeqCst;

// The code of no error of the system.
const NONE: i32 = 0;

/// The first error of the system that the files of a process met, if there was one. All who note in it share it.
#[derive(Drop)]
pub struct Note {
    code: Arc<AtomicI32>,
}

impl Note {
    // Makes the note of a process that met no error yet.
    fn new(alloc: Global) -> Result<Note, AllocError> {
        let code = Arc::new(alloc, AtomicI32::new(NONE))?;
        Ok(Note { code })
    }

    // Returns the same note, for one more who notes in it. Refused only where more share it than can be counted.
    pub(crate) fn share(&self) -> Result<Note, AllocError> {
        let code = Arc::try_clone(&self.code)?;
        Ok(Note { code })
    }

    /// Keeps what the system answered, where it is the first such answer.
    pub fn take(&self, error: &io::Error) {
        if let Some(code) = error.raw_os_error() {
            if self.code.load(SeqCst) == NONE {
                self.code.store(code, SeqCst);
            }
        }
    }

    fn error(&self) -> Option<io::Error> {
        match self.code.load(SeqCst) {
            NONE => None,
            code => Some(io::Error::from_raw_os_error(code)),
        }
    }
}

/// A note for each process of a cluster. No contract can say what stands in one.
#[derive(Drop)]
pub struct Notes {
    notes: Vec<Note>,
}

// Of how many processes they are.
impl Model for Notes {
    ghost use Rattle.std.specs.Prelude.{ℕ, vec_len};
    ghost use Rattle.std.specs.Coded.{coded_ℕ};

    ghost Value = { ℕ };

    ghost coded = { coded_ℕ };

    ghost view = { λ n. vec_len n.notes };
}

impl Notes {
    /// Makes the notes of so many processes, which met no error yet. Refused only where memory ran out.
    pub fn new(alloc: Global, n: usize) -> Result<Notes, AllocError>
        ensures many { IfOk result (λ notes. notes ≡ n) }
    {
        let mut notes = Vec::with_capacity(alloc, n)?;
        for _ in 0..n {
            notes.push(Note::new(alloc)?)?;
        }
        Ok(Notes { notes })
    }

    /// Returns the note of a process, where there is one.
    pub fn of(&self, pid: Pid) -> Option<&Note>
        ensures there { IsSome result ↔ (pid < self.now) }
    {
        self.notes.get(pid.index())
    }

    /// Returns the first process whose files met an error, with what the system answered; none where none did.
    pub fn first(&self) -> Option<(usize, io::Error)>
        ensures place { IfSome result (λ first. first.0 < self.now) }
    {
        for (process, note) in self.notes.iter().enumerate() {
            if let Some(error) = note.error() {
                return Some((process, error));
            }
        }
        None
    }
}

/// A file of the system whose first error is noted. A sync is passed over where nothing was written since the last one.
#[derive(Drop)]
pub struct NotedFile {
    pub inner: File,
    pub note: Option<Note>,
    /// Nothing was written since it was opened, or since the last sync.
    pub is_synced: bool,
    ghost synced: { IsTrue is_synced → Only (of_file.seen inner) (of_file.may_leave inner) },
}

// Notes an answer that is an error.
fn see<T>(note: Option<&Note>, answer: &io::Result<T>) {
    if let (Some(note), Err(error)) = (note, answer) {
        note.take(error);
    }
}

impl Disk for NotedFile {
    ghost use Rattle.std.specs.Prelude.{refl};
    ghost use Rattle.std.proofs.Common.{inl};
    ghost use Rattle.om_store_files.specs.FileDisk.{fair_if_clean, of_file};

    ghost seen = { λ d. of_file.seen d.inner };

    ghost may_leave = { λ d. of_file.may_leave d.inner };

    ghost is_usable = { λ d. of_file.is_usable d.inner };

    ghost faults = { λ d. of_file.faults d.inner };

    ghost tally_of = { λ d. of_file.tally_of d.inner };

    ghost is_rotten = { λ d. of_file.is_rotten d.inner };

    ghost key_of = { λ d. of_file.key_of d.inner };

    ghost is_frozen = { λ d. of_file.is_frozen d.inner };

    ghost is_clean = { λ d. of_file.is_clean d.inner };

    ghost is_fair = { λ d. of_file.is_fair d.inner };

    ghost fair_if_clean = { λ d. fair_if_clean d.inner };

    ghost seen_may_stay = { λ _. inl refl };

    ghost is_mixing = { λ d. of_file.is_mixing d.inner };

    fn mixes(&self) -> bool {
        self.inner.mixes()
    }

    fn key(&self) -> u64 {
        self.inner.key()
    }

    fn tally(&self) -> Tally {
        self.inner.tally()
    }

    fn may_be_used(&self) -> bool {
        self.inner.may_be_used()
    }

    fn len(&mut self) -> io::Result<usize> {
        let answer = self.inner.len();
        see(self.note.as_ref(), &answer);
        answer
    }

    fn read_at(&mut self, at: usize, buf: &mut [u8]) -> io::Result<()> {
        let answer = self.inner.read_at(at, buf);
        see(self.note.as_ref(), &answer);
        answer
    }

    fn read_checked(&mut self, key: u64, want: u64, at: usize, buf: &mut [u8]) -> io::Result<()> {
        let answer = self.inner.read_checked(key, want, at, buf);
        see(self.note.as_ref(), &answer);
        answer
    }

    fn write_at(&mut self, at: usize, bytes: &[u8]) -> io::Result<()> {
        self.is_synced = false;
        let answer = self.inner.write_at(at, bytes);
        see(self.note.as_ref(), &answer);
        answer
    }

    fn set_len(&mut self, len: usize) -> io::Result<()> {
        self.is_synced = false;
        let answer = self.inner.set_len(len);
        see(self.note.as_ref(), &answer);
        answer
    }

    fn sync(&mut self) -> io::Result<()> {
        if self.is_synced {
            return Ok(());
        }
        let answer = self.inner.sync();
        self.is_synced = answer.is_ok();
        see(self.note.as_ref(), &answer);
        answer
    }
}
