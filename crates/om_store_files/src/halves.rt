//! The files of a database whose log is put into its file.

use crate::log_copy::LogCopy;
use crate::noting::NotedFile;
use sqlite_disk::{Disk, Tally};
use std::io;

/// A file of a database whose log is put into its file, and then removed.
#[derive(Drop)]
pub(crate) enum Half {
    /// A copy of its log: what is done to it need not stand anywhere.
    Log(LogCopy),
    /// Its file.
    File(NotedFile),
}

impl Disk for Half {
    ghost use Rattle.om_store_files.specs.steps.Halves.{seen_of, may_leave_of, is_usable_of, faults_of, tally_in};
    ghost use Rattle.om_store_files.specs.steps.Halves.{is_clean_of, key_in, is_fair_of, fair_if_clean_of, seen_stays};

    ghost seen = { seen_of };

    ghost may_leave = { may_leave_of };

    ghost is_usable = { is_usable_of };

    ghost faults = { faults_of };

    ghost tally_of = { tally_in };

    ghost is_clean = { is_clean_of };

    ghost key_of = { key_in };

    ghost is_fair = { is_fair_of };

    ghost fair_if_clean = { fair_if_clean_of };

    ghost seen_may_stay = { seen_stays };

    fn mixes(&self) -> bool {
        false
    }

    fn key(&self) -> u64 {
        match self {
            Half::Log(log) => log.key(),
            Half::File(file) => file.key(),
        }
    }

    fn tally(&self) -> Tally {
        match self {
            Half::Log(log) => log.tally(),
            Half::File(file) => file.tally(),
        }
    }

    fn may_be_used(&self) -> bool {
        match self {
            Half::Log(log) => log.may_be_used(),
            Half::File(file) => file.may_be_used(),
        }
    }

    fn len(&mut self) -> io::Result<usize> {
        match self {
            Half::Log(log) => log.len(),
            Half::File(file) => file.len(),
        }
    }

    fn read_at(&mut self, at: usize, buf: &mut [u8]) -> io::Result<()> {
        match self {
            Half::Log(log) => log.read_at(at, buf),
            Half::File(file) => file.read_at(at, buf),
        }
    }

    fn read_checked(&mut self, key: u64, want: u64, at: usize, buf: &mut [u8]) -> io::Result<()> {
        match self {
            Half::Log(log) => log.read_checked(key, want, at, buf),
            Half::File(file) => file.read_checked(key, want, at, buf),
        }
    }

    fn write_at(&mut self, at: usize, bytes: &[u8]) -> io::Result<()> {
        match self {
            Half::Log(log) => log.write_at(at, bytes),
            Half::File(file) => file.write_at(at, bytes),
        }
    }

    fn set_len(&mut self, len: usize) -> io::Result<()> {
        match self {
            Half::Log(log) => log.set_len(len),
            Half::File(file) => file.set_len(len),
        }
    }

    fn sync(&mut self) -> io::Result<()> {
        match self {
            Half::Log(log) => log.sync(),
            Half::File(file) => file.sync(),
        }
    }
}
