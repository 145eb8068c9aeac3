//! Standard output, which whoever reads it may close.

ghost use Rattle.std.specs.Prelude.{◌≡◌, ◌⊎◌, None, Ok, Err, MatchResult};

use crate::failure::Failure;
use crate::reasons::Reasons;
use om_commands::CommandError;
use std::io;
use std::io::{ErrorKind, Write};

/// What a command writes to, and why it was not written, where it was not.
#[derive(Drop)]
pub struct Output<W> {
    pub to: W,
    pub refusal: Option<io::Error>,
}

impl<W> Output<W> {
    /// Begins with a writer that has not refused.
    pub fn new(to: W) -> Output<W>
        ensures to { result.to ≡ to }
        ensures none { result.refusal ≡ None }
    {
        Output { to, refusal: None }
    }

    /// Returns how a command ended that wrote to it: that nobody wants more is no refusal.
    pub fn ended<T: Drop>(&self, outcome: Result<T, CommandError>) -> Result<T, Failure>
        ensures { MatchResult outcome (λ done. result ≡ Ok done) (λ error. (result ≡ Err (Failure.Refused error))
            ⊎ ((error ≡ CommandError.CannotWrite) × (result ≡ Err Failure.Unread))) }
    {
        match outcome {
            Ok(done) => Ok(done),
            Err(CommandError::CannotWrite) if self.is_closed() => Err(Failure::Unread),
            Err(error) => Err(Failure::Refused(error)),
        }
    }

    // Returns whether whoever reads it has closed it.
    fn is_closed(&self) -> bool {
        match self.refusal {
            Some(error) => error.kind() == ErrorKind::BrokenPipe,
            None => false,
        }
    }

    /// Tells why it was not written, where it was not. Whoever has closed it is told nothing.
    pub fn tell_refusal(&self, reasons: &mut Reasons)
        ensures { reasons.new.are_heard ≡ reasons.old.are_heard }
    {
        if self.is_closed() {
            return;
        }
        if let Some(error) = self.refusal {
            reasons.add("standard output", error);
        }
    }

    fn note(&mut self, error: io::Error) -> io::Error
        ensures same { result ≡ error }
        ensures to { self.new.to ≡ self.old.to }
    {
        self.refusal = Some(error);
        error
    }
}

impl<W: Write> Write for Output<W> {
    ghost contents = { λ output. W.contents output.to };

    fn write(&mut self, buf: &[u8]) -> io::Result<usize> {
        match self.to.write(buf) {
            Ok(written) => Ok(written),
            Err(error) => Err(self.note(error)),
        }
    }

    fn flush(&mut self) -> io::Result<()> {
        match self.to.flush() {
            Ok(()) => Ok(()),
            Err(error) => Err(self.note(error)),
        }
    }
}
