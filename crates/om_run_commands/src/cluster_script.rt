//! Cluster files: the programs and processes of a cluster, and how it is run.

ghost use Rattle.std.specs.Prelude.{◌≡◌, map};
ghost use Rattle.om_text.specs.Numbers.{long_number_of, number_of};
ghost use Rattle.om_text.specs.Reading.{Gives};
ghost use Rattle.om_run_commands.specs.ClusterScript.{ClusterFile, cluster_file_line, count_in, kill_line, no_settings, setting_line};
ghost use Rattle.om_run_commands.specs.steps.Settings.{checkpoint_line, flush_line, fuel_line};

use om_interval::Pid;
use om_isa::Ext;
use om_scripts::{MAX_KILLS, Programs, name_of};
use om_text::{BuildError, Builder, LineError, long_number_of, number_of};
use std::alloc::{AllocError, Global};
use std::marker::Model;

/// After so many receipts a process stores its volatile log, where no line `flush` says otherwise.
pub const DEFAULT_FLUSH: u32 = 4;

/// After so many receipts a process stores a checkpoint, where no line `checkpoint` says otherwise.
pub const DEFAULT_CHECKPOINT: u32 = 16;

/// A process runs at most so many instructions in a turn, where no line `fuel` says otherwise.
pub const DEFAULT_FUEL: u64 = 1_000;

/// What has been read of a cluster file.
#[derive(Drop)]
pub struct ClusterScript {
    programs: Programs,
    kills: Vec<(Pid, u32)>,
    flush: u32,
    checkpoint: u32,
    fuel: u64,
    // Its lines of programs and processes, where they are kept.
    lines: Option<Vec<u8>>,
}

impl Model for ClusterScript {
    ghost Value = { ClusterFile };

    ghost view = { λ s. record {
      cluster = s.programs;
      kills = s.kills.items;
      flush = s.flush;
      checkpoint = s.checkpoint;
      fuel = s.fuel;
    } };
}

impl ClusterScript {
    /// Has read no line yet. Where `keeps_lines`, the lines of programs and processes are kept as they stand, for a script that
    /// begins with them.
    pub fn new(alloc: Global, keeps_lines: bool) -> ClusterScript
        ensures { result ≡ no_settings }
    {
        ClusterScript {
            programs: Programs::new(alloc),
            kills: Vec::new(alloc),
            flush: DEFAULT_FLUSH,
            checkpoint: DEFAULT_CHECKPOINT,
            fuel: DEFAULT_FUEL,
            lines: lines_kept(alloc, keeps_lines),
        }
    }

    /// Returns the programs and processes.
    pub fn programs(&self) -> &Programs
        ensures { result.now ≡ self.now.cluster }
    {
        &self.programs
    }

    /// Returns which processes are to fail, and each in which interval, in the order of the lines.
    pub fn kills(&self) -> &[(Pid, u32)]
        ensures { result.now ≡ self.now.kills }
    {
        &self.kills
    }

    /// Returns after how many receipts a process stores its volatile log.
    pub fn flush(&self) -> u32
        ensures { result ≡ self.now.flush }
    {
        self.flush
    }

    /// Returns after how many receipts a process stores a checkpoint.
    pub fn checkpoint(&self) -> u32
        ensures { result ≡ self.now.checkpoint }
    {
        self.checkpoint
    }

    /// Returns the most instructions of a turn.
    pub fn fuel(&self) -> u64
        ensures { result ≡ self.now.fuel }
    {
        self.fuel
    }

    /// Returns the lines of programs and processes, one space between two words; nothing where they were not kept.
    pub fn lines(&self) -> &[u8] {
        match &self.lines {
            Some(lines) => lines.as_slice(),
            None => &[],
        }
    }

    /// Has these kills in place of those of its lines.
    pub fn set_kills(&mut self, kills: Vec<(Pid, u32)>)
        ensures { self.new ≡ record self.old { kills = kills.items } }
    {
        self.kills = kills;
    }

    // Takes in a line `kill NAME INTERVAL`, by the words behind its first, as do the others.
    fn add_kill(&mut self, words: &[&[u8]]) -> Result<(), BuildError<LineError>>
        ensures { Gives (λ _. self.new) result (kill_line self.old (map (λ word. word.now) words.now)) }
    {
        let [name, interval] = words else {
            return Err(LineError::WrongCount.into());
        };
        let Some(interval) = number_of(interval) else {
            return Err(LineError::BadNumber.into());
        };
        let Some(name) = name_of(name) else {
            return Err(LineError::BadName.into());
        };
        let Some(process) = self.programs.place(name) else {
            return Err(LineError::NoSuchName.into());
        };
        if self.kills.len() >= MAX_KILLS {
            return Err(LineError::TooMany.into());
        }
        self.kills.push((Pid::at(process), interval))?;
        self.programs.close();
        Ok(())
    }

    // Reads a line `flush K`.
    fn set_flush(&mut self, words: &[&[u8]]) -> Result<(), BuildError<LineError>>
        ensures { Gives (λ _. self.new) result (flush_line self.old (map (λ word. word.now) words.now)) }
    {
        self.flush = receipts_in(words)?;
        self.programs.close();
        Ok(())
    }

    // Reads a line `checkpoint K`.
    fn set_checkpoint(&mut self, words: &[&[u8]]) -> Result<(), BuildError<LineError>>
        ensures { Gives (λ _. self.new) result (checkpoint_line self.old (map (λ word. word.now) words.now)) }
    {
        self.checkpoint = receipts_in(words)?;
        self.programs.close();
        Ok(())
    }

    // Reads a line `fuel K`.
    fn set_fuel(&mut self, words: &[&[u8]]) -> Result<(), BuildError<LineError>>
        ensures { Gives (λ _. self.new) result (fuel_line self.old (map (λ word. word.now) words.now)) }
    {
        self.fuel = instructions_in(words)?;
        self.programs.close();
        Ok(())
    }

    // Reads a line that says how the cluster is run, by its first word and those behind it.
    fn add_setting(&mut self, first: &[u8], words: &[&[u8]]) -> Result<(), BuildError<LineError>>
        ensures { Gives (λ _. self.new) result (setting_line self.old first.now (map (λ word. word.now) words.now)) }
    {
        if first == b"kill".as_slice() {
            return self.add_kill(words);
        }
        if first == b"flush".as_slice() {
            return self.set_flush(words);
        }
        if first == b"checkpoint".as_slice() {
            return self.set_checkpoint(words);
        }
        if first == b"fuel".as_slice() {
            return self.set_fuel(words);
        }
        Err(LineError::UnknownLine.into())
    }

    // Takes in what a line means.
    fn take_in(&mut self, alloc: Global, words: &[&[u8]]) -> Result<(), BuildError<LineError>>
        ensures { Gives (λ _. self.new) result (cluster_file_line self.old (map (λ word. word.now) words.now)) }
    {
        let [first, words @ ..] = words else {
            return Err(LineError::UnknownLine.into());
        };
        if *first == b"program".as_slice() {
            return self.programs.add_program(alloc, Ext::I, words);
        }
        if *first == b"program-m".as_slice() {
            return self.programs.add_program(alloc, Ext::Im, words);
        }
        if *first == b"proc".as_slice() {
            return self.programs.add_process(alloc, words);
        }
        self.add_setting(first, words)
    }

    // Keeps a line, where lines are kept and it gives a program or a process.
    fn keep(&mut self, words: &[&[u8]]) -> Result<(), AllocError>
        ensures { self.new ≡ self.old }
    {
        match &mut self.lines {
            Some(lines) => keep(lines, words),
            None => Ok(()),
        }
    }
}

impl Builder for ClusterScript {
    ghost State = { ClusterFile };

    ghost state = { λ script. script };

    ghost meaning = { cluster_file_line };

    fn add_line(&mut self, alloc: Global, words: &[&[u8]]) -> Result<(), BuildError<LineError>> {
        self.take_in(alloc, words)?;
        Ok(self.keep(words)?)
    }
}

// Makes room for lines, where they are to be kept.
fn lines_kept(alloc: Global, keeps_lines: bool) -> Option<Vec<u8>> {
    if keeps_lines {
        Some(Vec::new(alloc))
    } else {
        None
    }
}

// Returns whether a line of this first word gives a program or a process.
fn is_kept(first: &[u8]) -> bool {
    first == b"program".as_slice()
        || first == b"program-m".as_slice()
        || first == b"proc".as_slice()
}

// Adds a line of these words, where it gives a program or a process.
fn keep(lines: &mut Vec<u8>, words: &[&[u8]]) -> Result<(), AllocError> {
    let [first, words @ ..] = words else {
        return Ok(());
    };
    if !is_kept(first) {
        return Ok(());
    }
    lines.extend_from_slice(first)?;
    for word in words {
        lines.push(b' ')?;
        lines.extend_from_slice(word)?;
    }
    lines.push(b'\n')?;
    Ok(())
}

// Reads the number of receipts that the one word stands for.
fn receipts_in(words: &[&[u8]]) -> Result<u32, LineError>
    ensures { result ≡ count_in number_of (map (λ word. word.now) words.now) }
{
    let [word] = words else {
        return Err(LineError::WrongCount);
    };
    match number_of(word) {
        None | Some(0) => Err(LineError::BadNumber),
        Some(number) => Ok(number),
    }
}

// Reads the number of instructions that the one word stands for.
fn instructions_in(words: &[&[u8]]) -> Result<u64, LineError>
    ensures { result ≡ count_in long_number_of (map (λ word. word.now) words.now) }
{
    let [word] = words else {
        return Err(LineError::WrongCount);
    };
    match long_number_of(word) {
        None | Some(0) => Err(LineError::BadNumber),
        Some(number) => Ok(number),
    }
}
