//! The whole of an input.

ghost use Rattle.std.specs.Prelude.{◌≡◌, ℕ, ◌+◌, ◌<◌, ◌≤◌, ◌++◌, List, IfOk, OnOk, IsErr, IfSome, vec_len, length, Some, Ok, Err, true};
ghost use Rattle.std.specs.Io.KnownBytes.{Consumes, IsAtEnd};
ghost use Rattle.om_text.specs.Errors.{read_error_text};
ghost use Rattle.om_text.specs.declared.text.ReadError.TheVariants.{Memory};

use std::alloc::{AllocError, Global};
use std::error::Error;
use std::fmt;
use std::io::{ErrorKind, Read};

/// At most so many bytes are read of an input.
pub const MAX_BYTES: usize = 16_777_216;

/// At most so many times a reader is asked for bytes.
pub const MAX_TURNS: u32 = 33_554_432;

// How many bytes a reader is asked for at a time.
const CHUNK_BYTES: usize = 65_536;

/// Why an input was not read.
#[derive(Clone, Copy, Debug, PartialEq, Eq, Hash)]
pub enum ReadError {
    /// It has more than `MAX_BYTES` bytes.
    TooLong,
    /// The reader refused, or did not come to its end in `MAX_TURNS` turns.
    CannotRead,
    Memory,
}

impl fmt::Display for ReadError {
    ghost output = { λ error. Some (read_error_text error) };

    fn fmt<W: fmt::Write>(&self, f: &mut fmt::Formatter<W>) -> fmt::Result {
        f.write_str(match self {
            ReadError::TooLong => "too long",
            ReadError::CannotRead => "cannot read",
            ReadError::Memory => "no memory",
        })
    }
}

impl Error for ReadError {}

impl From<AllocError> for ReadError {
    ghost from_gives = { λ _ error. error ≡ Memory };

    fn from(_e: AllocError) -> ReadError {
        ReadError::Memory
    }
}

/// Reads an input to its end. A read that is interrupted is tried again. Which of its bytes a reader
/// has left after an error is open.
pub fn read_text<R: Read>(alloc: Global, reader: &mut R) -> Result<Vec<u8>, ReadError>
    ensures whole { IfSome (R.remaining reader.old) (λ bytes.
        IfOk result (λ text. text.items ≡ bytes)) }
    ensures ended { OnOk result (IsAtEnd (R.remaining reader.new)) }
    ensures within { IfOk result (λ text. vec_len text ≤ MAX_BYTES) }
    ensures longer_is_refused { IfSome (R.remaining reader.old) (λ bytes.
        MAX_BYTES < length bytes → IsErr result) }
    ensures too_long_only_where_longer { IfSome (R.remaining reader.old) (λ bytes.
        result ≡ Err ReadError.TooLong → MAX_BYTES < length bytes) }
{
    let mut text = Vec::new(alloc);
    let mut chunk = zeros(alloc, CHUNK_BYTES)?;
    let chunk = chunk.as_mut_slice();
    for _ in 0..MAX_TURNS {
        if read_more(reader, chunk, &mut text)? {
            return Ok(text);
        }
    }
    Err(ReadError::CannotRead)
}

// Reads into the chunk, and puts what came at the end of the text. Answers whether the input has ended.
fn read_more<R: Read>(
    reader: &mut R,
    chunk: &mut [u8],
    text: &mut Vec<u8>,
) -> Result<bool, ReadError>
    requires room { 0 < length chunk.old }
    requires within { vec_len text.old ≤ MAX_BYTES }
    ensures within { vec_len text.new ≤ MAX_BYTES }
    ensures appended { OnOk result ((bytes : List ℕ)
        × (text.new.items ≡ text.old.items ++ bytes)
        × Consumes (R.remaining reader.old) (R.remaining reader.new) bytes) }
    ensures ended { result ≡ Ok true → IsAtEnd (R.remaining reader.new) }
    ensures too_long { result ≡ Err ReadError.TooLong → ((bytes : List ℕ)
        × (MAX_BYTES < vec_len text.old + length bytes)
        × Consumes (R.remaining reader.old) (R.remaining reader.new) bytes) }
{
    let count = match reader.read(chunk) {
        Ok(count) => count,
        Err(e) if e.kind() == ErrorKind::Interrupted => return Ok(false),
        Err(_) => return Err(ReadError::CannotRead),
    };
    if count > MAX_BYTES - text.len() {
        return Err(ReadError::TooLong);
    }
    text.extend_from_slice(&chunk[..count])?;
    Ok(count == 0)
}

fn zeros(alloc: Global, count: usize) -> Result<Vec<u8>, AllocError>
    ensures { IfOk result (λ bytes. vec_len bytes ≡ count) }
{
    vec![in alloc; 0; count]
}
