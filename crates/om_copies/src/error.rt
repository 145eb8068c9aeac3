//! Why bytes are not opened as a database.

ghost use Rattle.std.specs.Prelude.{◌≡◌, ◌↔◌};

use sqlite::{Error, ErrorCode};

/// Why bytes are not opened as a database, or it answers no more.
#[derive(Clone, Copy, Debug, PartialEq, Eq, thiserror::Error)]
pub enum CopyError {
    #[error("no memory")]
    Memory,
    /// They hold none, or such a one as cannot be read.
    #[error("no database")]
    NoDatabase,
}

// Returns what an error of `sqlite` comes to.
pub(crate) fn error_of(error: &Error) -> CopyError
    ensures { (result ≡ CopyError.Memory) ↔ (error.now ≡ Error.SqliteFailure ErrorCode.OutOfMemory) }
{
    match error {
        Error::SqliteFailure(ErrorCode::OutOfMemory) => CopyError::Memory,
        _ => CopyError::NoDatabase,
    }
}
