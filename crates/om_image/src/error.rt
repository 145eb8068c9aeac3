//! Why no line of a program is written.

ghost use Rattle.std.specs.Prelude.{◌≡◌};
ghost use Rattle.om_text.specs.declared.error.BuildError.TheVariants as building;
ghost use Rattle.om_text.specs.declared.text.ReadError.TheVariants as reading;
ghost use Rattle.om_image.specs.steps.Errors.{error_of_building, error_of_reading};

use om_text::{BuildError, LineError, ReadError};
use std::alloc::AllocError;
use thiserror::Error;

/// Why no line was written.
#[derive(Clone, Copy, Debug, PartialEq, Eq, Error)]
pub enum ImageError {
    #[error("cannot read")]
    CannotRead,
    #[error("cannot write")]
    CannotWrite,
    #[error("no memory")]
    NoMemory,
    /// A script would refuse the line, and says this of it.
    #[error("line 1: {0}")]
    Line(LineError),
    /// The input is a linked program, an ELF file, and no raw image.
    #[error("an ELF file: objcopy -O binary makes a raw image of it")]
    Elf,
}

impl From<AllocError> for ImageError {
    ghost use Rattle.om_image.specs.declared.error.ImageError.TheVariants.{NoMemory};

    ghost from_gives = { λ _ error. error ≡ NoMemory };

    fn from(_e: AllocError) -> ImageError {
        ImageError::NoMemory
    }
}

impl From<BuildError<LineError>> for ImageError {
    ghost from_gives = { λ error e. e ≡ error_of_building error };

    fn from(error: BuildError<LineError>) -> ImageError {
        match error {
            BuildError::Invalid(error) => ImageError::Line(error),
            BuildError::Memory => ImageError::NoMemory,
        }
    }
}

// What is read is no longer than a text may be.
impl From<ReadError> for ImageError {
    ghost from_gives = { λ error e. e ≡ error_of_reading error };

    fn from(error: ReadError) -> ImageError {
        match error {
            ReadError::Memory => ImageError::NoMemory,
            ReadError::CannotRead | ReadError::TooLong => ImageError::CannotRead,
        }
    }
}
