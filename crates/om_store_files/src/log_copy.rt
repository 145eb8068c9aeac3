//! A log in memory.

ghost use Rattle.std.specs.Prelude.{◌≡◌, length, false, is_ok, OnOk};
ghost use Rattle.sqlite_disk.specs.Disk.{Holds, Torn, Cut, CountsFault};
ghost use Rattle.sqlite_disk.specs.Refusal.{finds_no_room};

use sqlite_disk::{Disk, Tally};
use std::alloc::AllocError;
use std::io;

/// What a log held as it was copied. What is written to the copy stands at once, so nothing of it is kept twice, and a sync does nothing.
#[derive(Drop)]
pub(crate) struct LogCopy {
    pub(crate) bytes: Vec<u8>,
    faults: u64,
}

impl LogCopy {
    /// Makes a copy that holds these bytes.
    pub(crate) fn new(bytes: Vec<u8>) -> LogCopy
        ensures { result.bytes ≡ bytes }
    {
        LogCopy { bytes, faults: 0 }
    }
}

impl Disk for LogCopy {
    ghost use Rattle.std.specs.Prelude.{◌≡◌, true, refl};

    ghost seen = { λ d. d.bytes.items };

    ghost may_leave = { λ d c. c ≡ d.bytes.items };

    ghost is_usable = { λ _. true };

    ghost faults = { λ d. d.faults };

    ghost is_clean = { λ _. true };

    ghost tally_of = { λ _. record { caught = 0; refused = 0 } };

    ghost key_of = { λ _. 0 };

    ghost is_fair = { λ _ _. true };

    ghost fair_if_clean = { λ _ _ _. refl };

    ghost seen_may_stay = { λ _. refl };

    fn mixes(&self) -> bool {
        false
    }

    // Memory tells no lie, so it needs no secret.
    fn key(&self) -> u64 {
        0
    }

    fn tally(&self) -> Tally {
        Tally {
            caught: 0,
            refused: 0,
        }
    }

    fn may_be_used(&self) -> bool {
        true
    }

    fn len(&mut self) -> io::Result<usize> {
        Ok(self.bytes.len())
    }

    fn read_at(&mut self, at: usize, buf: &mut [u8]) -> io::Result<()> {
        if at > self.bytes.len() || buf.len() > self.bytes.len() - at {
            return Err(io::ErrorKind::UnexpectedEof.into());
        }
        buf.copy_from_slice(&self.bytes[at..at + buf.len()]);
        Ok(())
    }

    // Whoever asks knows the digest of what stands there, and memory gives that back.
    fn read_checked(&mut self, _key: u64, _want: u64, at: usize, buf: &mut [u8]) -> io::Result<()> {
        self.read_at(at, buf)
    }

    fn write_at(&mut self, at: usize, bytes: &[u8]) -> io::Result<()> {
        count(overwrite(&mut self.bytes, at, bytes), &mut self.faults)
    }

    fn set_len(&mut self, len: usize) -> io::Result<()> {
        count(resize(&mut self.bytes, len), &mut self.faults)
    }

    fn sync(&mut self) -> io::Result<()> {
        Ok(())
    }
}

// Counts a call for which memory ran out.
fn count(outcome: Result<(), AllocError>, faults: &mut u64) -> io::Result<()>
    ensures variant { is_ok result ≡ is_ok outcome }
    ensures kind { finds_no_room result ≡ false }
    ensures faults { CountsFault result faults.old faults.new }
{
    if outcome.is_err() {
        *faults = faults.saturating_add(1);
        return Err(io::Error::from(io::ErrorKind::OutOfMemory));
    }
    Ok(())
}

// Cuts the bytes, or adds zeros.
fn resize(held: &mut Vec<u8>, len: usize) -> Result<(), AllocError>
    ensures len { OnOk result (length held.new.items ≡ len) }
    ensures others { Cut len held.old.items held.new.items }
{
    held.resize(len, 0)
}

// Writes bytes over others, or behind them.
fn overwrite(held: &mut Vec<u8>, at: usize, bytes: &[u8]) -> Result<(), AllocError>
    ensures written { OnOk result (Holds held.new.items at bytes.now) }
    ensures others { Torn at (length bytes.now) held.old.items held.new.items }
{
    let end = at.checked_add(bytes.len()).ok_or(AllocError)?;
    if end > held.len() {
        resize(held, end)?;
    }
    held[at..end].copy_from_slice(bytes);
    Ok(())
}
