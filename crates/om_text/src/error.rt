//! What can be wrong with a script.

ghost use Rattle.std.specs.Prelude.{◌≡◌, codes, Some};
ghost use Rattle.om_text.specs.declared.error.BuildError.TheVariants.{Invalid, Memory};
ghost use Rattle.om_text.specs.Errors.{line_error_text, build_error_text, script_error_text};

use std::alloc::{AllocError, AllocFailed};
use std::error::Error;
use std::fmt;

/// What is wrong with a line. Of several faults the first of this list counts.
#[derive(Clone, Copy, Debug, PartialEq, Eq, Hash)]
pub enum LineError {
    UnknownLine,
    WrongCount,
    BadNumber,
    BadWord,
    BadName,
    NameTaken,
    NoSuchName,
    OutOfPlace,
    TooMany,
    BadSize,
    ImageTooLong,
}

impl fmt::Display for LineError {
    ghost output = { λ error. Some (line_error_text error) };

    fn fmt<W: fmt::Write>(&self, f: &mut fmt::Formatter<W>) -> fmt::Result {
        f.write_str(match self {
            LineError::UnknownLine => "unknown line",
            LineError::WrongCount => "wrong count of words",
            LineError::BadNumber => "bad number",
            LineError::BadWord => "bad word",
            LineError::BadName => "bad name",
            LineError::NameTaken => "name taken",
            LineError::NoSuchName => "no such name",
            LineError::OutOfPlace => "out of place",
            LineError::TooMany => "too many",
            LineError::BadSize => "bad size",
            LineError::ImageTooLong => "image too long",
        })
    }
}

impl Error for LineError {}

/// The first faulty line of a script, and what is wrong with it.
#[derive(Clone, Copy, Debug, PartialEq, Eq, Hash)]
pub struct ScriptError {
    /// The line's number from 1, the lines that are passed over counted too.
    pub line: usize,
    pub error: LineError,
}

impl fmt::Display for ScriptError {
    ghost output = { λ error. Some (script_error_text error) };

    fn fmt<W: fmt::Write>(&self, f: &mut fmt::Formatter<W>) -> fmt::Result {
        write!(f, "line {}: {}", self.line, self.error)
    }
}

impl Error for ScriptError {}

/// Why a script, or a line of it, was not read: its error, or out of memory.
#[derive(Clone, Copy, Debug, PartialEq, Eq, Drop)]
pub enum BuildError<F> {
    Invalid(F),
    Memory,
}

impl From<LineError> for BuildError<LineError> {
    ghost from_gives = { λ error e. e ≡ Invalid error };

    fn from(error: LineError) -> BuildError<LineError> {
        BuildError::Invalid(error)
    }
}

impl<F> From<AllocError> for BuildError<F> {
    ghost from_gives = { λ _ e. e ≡ Memory };

    fn from(_e: AllocError) -> BuildError<F> {
        BuildError::Memory
    }
}

impl<F, T: Drop> From<AllocFailed<T>> for BuildError<F> {
    ghost from_gives = { λ _ e. e ≡ Memory };

    fn from(_e: AllocFailed<T>) -> BuildError<F> {
        BuildError::Memory
    }
}

impl<F: fmt::Display> fmt::Display for BuildError<F> {
    ghost output = { λ error. build_error_text F.output error };

    fn fmt<W: fmt::Write>(&self, f: &mut fmt::Formatter<W>) -> fmt::Result {
        match self {
            BuildError::Invalid(error) => error.fmt(f),
            BuildError::Memory => f.write_str("no memory"),
        }
    }
}

impl<F: fmt::Debug + fmt::Display + Drop> Error for BuildError<F> {}
