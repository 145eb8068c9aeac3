//! What a command reads: standard input, or a file.

ghost use Rattle.std.specs.Prelude.{◌≡◌, IfErr, IsOk, None};
ghost use Rattle.om_outcomes.specs.Sources.{left_in};

use crate::reasons::Reasons;
use om_commands::CommandError;
use std::io::Read;
use std::rt::Runtime;
use std::{fs, io};

/// Where the bytes of an input come from.
#[derive(Drop)]
pub enum Origin<S, F> {
    Standard(S),
    Named(F),
}

/// An input, and why it was not read, where it was not.
#[derive(Drop)]
pub struct Source<S, F> {
    pub from: Origin<S, F>,
    pub refusal: Option<io::Error>,
}

impl<S, F> Source<S, F> {
    /// Begins with an input of which nothing was read.
    pub fn new(from: Origin<S, F>) -> Source<S, F>
        ensures from { result.from ≡ from }
        ensures none { result.refusal ≡ None }
    {
        Source {
            from,
            refusal: None,
        }
    }
}

impl<S: Read, F: Read> Read for Source<S, F> {
    ghost remaining = { λ source. left_in S.remaining F.remaining source.from };

    fn read(&mut self, buf: &mut [u8]) -> io::Result<usize> {
        match &mut self.from {
            Origin::Standard(reader) => noted(reader.read(buf), &mut self.refusal),
            Origin::Named(file) => noted(file.read(buf), &mut self.refusal),
        }
    }
}

// Returns what was answered to a read; a refusal is kept.
fn noted(read: io::Result<usize>, refusal: &mut Option<io::Error>) -> io::Result<usize>
    ensures same { result ≡ read }
{
    match read {
        Ok(count) => Ok(count),
        Err(error) => {
            *refusal = Some(error);
            Err(error)
        }
    }
}

/// Opens the file of this name, or takes standard input where none is given. One that cannot be opened is refused with `CannotRead`, and the
/// reason is added.
pub fn source_of<R: Runtime>(
    rt: &R,
    file: Option<&str>,
    reasons: &mut Reasons,
) -> Result<Source<R::Reader, R::File>, CommandError>
    ensures standard { file.entry ≡ None → IsOk result }
    ensures error { IfErr result (λ error. error ≡ CommandError.CannotRead) }
{
    let Some(path) = file else {
        return Ok(Source::new(Origin::Standard(rt.reader())));
    };
    match fs::open(rt, path) {
        Ok(file) => Ok(Source::new(Origin::Named(file))),
        Err(error) => {
            reasons.add(path, error);
            Err(CommandError::CannotRead)
        }
    }
}
