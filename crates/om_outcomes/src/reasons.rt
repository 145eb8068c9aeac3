//! Why a command was refused, in more words than the line that tells it.

ghost use Rattle.std.specs.Prelude.{◌≡◌, ◌↔◌, [], IsTrue, string_bytes};

use om_reasons::{form_of, rule_of};
use om_text::ScriptError;
use std::alloc::Global;
use std::fmt::{Display, Write};
use std::io::IsTerminal;

// How much of a line is shown.
const SHOWN: usize = 100;

/// What is told behind that line, where somebody hears it: a person at a terminal, or who asks for more. Where it cannot be made or
/// written, nothing comes of it.
#[derive(Drop)]
pub struct Reasons {
    pub are_heard: bool,
    pub text: String,
}

impl Reasons {
    /// Begins with none: they are heard by whoever asks for more, or sits at a terminal.
    pub fn new(rt: &HostRuntime, is_verbose: bool) -> Reasons
        ensures heard { IsTrue is_verbose → IsTrue result.are_heard }
        ensures none { string_bytes result.text ≡ [] }
    {
        Reasons::empty(rt.alloc(), is_verbose || rt.stderr().is_terminal())
    }

    /// Begins with none.
    pub fn empty(alloc: Global, are_heard: bool) -> Reasons
        ensures heard { result.are_heard ≡ are_heard }
        ensures none { string_bytes result.text ≡ [] }
    {
        Reasons {
            are_heard,
            text: String::new(alloc),
        }
    }

    /// Says whether nothing is told yet.
    pub fn is_empty(&self) -> bool
        ensures { IsTrue result ↔ (string_bytes self.now.text ≡ []) }
    {
        self.text.is_empty()
    }

    /// Adds what is the matter with a file.
    pub fn add<D: Display + Drop>(&mut self, file: &str, what: D)
        ensures { self.new.are_heard ≡ self.old.are_heard }
    {
        if self.are_heard {
            let _ = writeln!(self.text, "omlog: {file}: {what}");
        }
    }

    /// Adds what can be done.
    pub fn advise<D: Display + Drop>(&mut self, what: D)
        ensures { self.new.are_heard ≡ self.old.are_heard }
    {
        if self.are_heard {
            let _ = writeln!(self.text, "omlog: {what}");
        }
    }

    /// Adds lines that are made already.
    pub fn add_lines(&mut self, lines: &str)
        ensures { self.new.are_heard ≡ self.old.are_heard }
    {
        if self.are_heard {
            let _ = self.text.push_str(lines);
        }
    }

    /// Adds other reasons, behind these.
    pub fn add_all(&mut self, others: &Reasons)
        ensures { self.new.are_heard ≡ self.old.are_heard }
    {
        self.add_lines(others.text.as_str());
    }

    /// Adds the line of an input that was refused, the rule that it breaks, and how such a line is written.
    pub fn add_line(&mut self, file: &str, bytes: &[u8], refused: ScriptError)
        ensures { self.new.are_heard ≡ self.old.are_heard }
    {
        if !self.are_heard {
            return;
        }
        let rule = rule_of(refused.error);
        let number = refused.line;
        let line = line_of(bytes, number);
        let Ok(shown) = shown(*self.text.allocator(), line) else {
            return;
        };
        let _ = match form_of(first_word(line)) {
            Some(form) => writeln!(self.text, "omlog: {file}:{number}: {shown}: {rule}: {form}"),
            None => writeln!(self.text, "omlog: {file}:{number}: {shown}: {rule}"),
        };
    }

    /// Writes the reasons to standard error; where that refuses, nothing comes of it.
    pub fn say<R: Eprint>(&self, rt: &R) {
        if !self.text.is_empty() {
            let _ = rt.eprint(self.text.as_str());
        }
    }
}

// Returns the line of a text by its number, which counts from 1.
fn line_of(bytes: &[u8], number: usize) -> &[u8] {
    let mut lines = bytes.split(|byte| *byte == b'\n');
    lines.nth(number.saturating_sub(1)).unwrap_or(b"")
}

// Returns the first word of a line, where it is text.
fn first_word(line: &[u8]) -> &str {
    let mut words = line.split(|byte| matches!(*byte, b' ' | b'\t' | b'\r'));
    let word = words.find(|word| !word.is_empty());
    str::from_utf8(word.unwrap_or(b"")).unwrap_or("")
}

// Returns the start of a line, as far as it can be shown: other bytes are question marks.
fn shown(alloc: Global, line: &[u8]) -> Result<String, std::alloc::AllocError> {
    let mut text = String::new(alloc);
    for byte in line.iter().take(SHOWN) {
        let is_plain = byte.is_ascii_graphic() || *byte == b' ';
        text.push(if is_plain { *byte as char } else { '?' })?;
    }
    if line.len() > SHOWN {
        text.push_str(" ..")?;
    }
    Ok(text)
}
