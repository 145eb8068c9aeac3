//! Record scripts: what their lines build.

ghost use Rattle.std.specs.Prelude.{◌≡◌, ◌≤◌, ◌+◌, length, map, IfSome, OnOk, vec_len};
ghost use Rattle.om_interval.specs.declared.pid.TheConstants.{MAX_PROCESSES};
ghost use Rattle.om_text.specs.Reading.{Gives, all_read};
ghost use Rattle.om_commands.specs.RecordScript.{RecordLines, no_records, processes_line, note_line, note_of, record_script_line};
ghost use Rattle.om_text.specs.Numbers.{number_of};
ghost use Rattle.om_text.specs.declared.error.LineError.{LineError};

use om_interval::{DepVec, MAX_PROCESSES};
use om_recover::RowKind;
use om_text::{BuildError, Builder, LineError, number_of};
use std::alloc::Global;
use std::marker::Model;

/// A note of a record script: what kind of record of which interval, with which dependency vector.
#[derive(Clone, Copy, Debug)]
pub struct NoteLine {
    pub kind: RowKind,
    /// The process. The script may name one that no cluster has.
    pub pid: u32,
    pub interval: u32,
    pub vec: DepVec,
}

/// What has been read of a record script.
#[derive(Debug, Drop)]
pub struct RecordScript {
    processes: Option<usize>,
    notes: Vec<NoteLine>,
    // Room for the numbers of a line.
    numbers: Vec<u32>,
}

impl Model for RecordScript {
    ghost Value = { RecordLines };

    ghost view = { λ s. record { processes = s.processes; notes = s.notes.items } };

    ghost invariant = { λ s. IfSome s.processes (λ n. (1 ≤ n) × (n ≤ MAX_PROCESSES)) };
}

impl RecordScript {
    pub fn new(alloc: Global) -> RecordScript
        ensures { result ≡ no_records }
    {
        RecordScript {
            processes: None,
            notes: Vec::new(alloc),
            numbers: Vec::new(alloc),
        }
    }

    /// Returns the number of processes, once it is given.
    pub fn processes(&self) -> Option<usize>
        ensures number { result ≡ self.now.processes }
        ensures in_range { IfSome result (λ n. (1 ≤ n) × (n ≤ MAX_PROCESSES)) }
    {
        self.processes
    }

    /// Returns the notes in order.
    pub fn notes(&self) -> &[NoteLine]
        ensures { result.now ≡ self.now.notes }
    {
        &self.notes
    }

    fn add_processes(&mut self, words: &[&[u8]]) -> Result<(), BuildError<LineError>>
        ensures { Gives (λ _. self.new) result
            (processes_line self.old (map (λ word. word.now) words.now)) }
    {
        let [word] = words else {
            return Err(LineError::WrongCount.into());
        };
        let Some(number) = number_of(word) else {
            return Err(LineError::BadNumber.into());
        };
        let n = number as usize;
        if n < 1 || MAX_PROCESSES < n {
            return Err(LineError::BadNumber.into());
        }
        if self.processes.is_some() {
            return Err(LineError::OutOfPlace.into());
        }
        self.processes = Some(n);
        Ok(())
    }

    fn add_note(&mut self, kind: RowKind, words: &[&[u8]]) -> Result<(), BuildError<LineError>>
        ensures { Gives (λ _. self.new) result
            (note_line kind self.old (map (λ word. word.now) words.now)) }
    {
        if let Some(n) = self.processes
            && words.len() != n + 2
        {
            return Err(LineError::WrongCount.into());
        }
        read_numbers(words, &mut self.numbers)?;
        if self.processes.is_none() {
            return Err(LineError::OutOfPlace.into());
        }
        self.notes.push(note_of(kind, &self.numbers))?;
        Ok(())
    }
}

impl Builder for RecordScript {
    ghost State = { RecordLines };

    ghost state = { λ script. script };

    ghost meaning = { record_script_line };

    fn add_line(&mut self, _alloc: Global, words: &[&[u8]]) -> Result<(), BuildError<LineError>> {
        let [first, words @ ..] = words else {
            return Err(LineError::UnknownLine.into());
        };
        if *first == b"procs".as_slice() {
            return self.add_processes(words);
        }
        if *first == b"log".as_slice() {
            return self.add_note(RowKind::Log, words);
        }
        if *first == b"ckpt".as_slice() {
            return self.add_note(RowKind::Checkpoint, words);
        }
        Err(LineError::UnknownLine.into())
    }
}

// Puts the numbers that the words stand for in place of what was there.
fn read_numbers(words: &[&[u8]], numbers: &mut Vec<u32>) -> Result<(), BuildError<LineError>>
    ensures numbers { Gives (λ _. numbers.new.items) result (all_read number_of LineError.BadNumber (map (λ word. word.now) words.now)) }
    ensures count { OnOk result (vec_len numbers.new ≡ length words.now) }
{
    numbers.clear();
    for word in words {
        let Some(number) = number_of(word) else {
            return Err(LineError::BadNumber.into());
        };
        numbers.push(number)?;
    }
    Ok(())
}

// Makes the note of a process, an interval and a vector.
fn note_of(kind: RowKind, numbers: &[u32]) -> NoteLine
    requires least { 3 ≤ length numbers.now }
    requires most { length numbers.now ≤ MAX_PROCESSES + 2 }
    ensures { result ≡ note_of kind numbers.now }
{
    NoteLine {
        kind,
        pid: numbers[0],
        interval: numbers[1],
        vec: DepVec::from_slice(&numbers[2..]).unwrap(),
    }
}
