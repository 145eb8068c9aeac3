//! The command: an image in, a line out.

ghost use Rattle.std.specs.Prelude.{◌≡◌, ℕ, List, IfErr, IfOk, IfSome, OnErr, OnOk, Err, take};
ghost use Rattle.std.specs.Io.KnownBytes.{Appends, Keeps};
ghost use Rattle.om_image.specs.Image.{IsElf, IsErrorOf, IsImageLine, IsSilent, most_read};

use crate::error::ImageError;
use crate::line::line_of;
use om_isa::{Ext, MAX_MEMORY};
use om_text::{ReadError, read_text};
use std::alloc::Global;
use std::io::{Read, Write};

// At most so many bytes are read: more are too many for any memory.
const MOST_READ: u64 = MAX_MEMORY as u64 + 1;

/// Reads a raw image, and writes the line `program NAME SIZE WORD ..` (`program-m` where `ext` is RV32IM) of the program whose
/// memory of SIZE bytes begins with it: words of four bytes, the lowest first, the last padded with zeros. Refused, nothing is
/// written, unless it was the writer that refused.
///
/// An ELF file, as a linker writes it, is refused with `Elf` before all else. A line that a script would refuse is refused as the
/// script would, with `bad number`, `bad name`, `bad size` or `image too long`, in this order. Of an input longer than any memory
/// only the first 65,537 bytes are read.
pub fn image<I: Read, W: Write>(
    alloc: Global,
    ext: Ext,
    name: &[u8],
    size: &[u8],
    reader: &mut I,
    writer: &mut W,
) -> Result<(), ImageError>
    ensures text { IfSome (I.remaining reader.old) (λ bytes. OnOk result ((text : List ℕ)
        × IsImageLine ext name.now size.now bytes text
        × Appends (W.contents writer.old) (W.contents writer.new) text)) }
    ensures raw { IfSome (I.remaining reader.old) (λ bytes. OnOk result (IsElf (take most_read bytes) → ⊥)) }
    ensures error { IfSome (I.remaining reader.old) (λ bytes. IfErr result (IsErrorOf ext name.now size.now bytes)) }
    ensures silent { IfErr result (λ error. IsSilent error (Keeps (W.contents writer.old) (W.contents writer.new))) }
{
    let bytes = read_image(alloc, reader)?;
    let line = line_of(alloc, ext, name, size, &bytes)?;
    written(writer, &line)
}

// Reads the bytes of an image, and one more at most than a memory may have.
fn read_image<I: Read>(alloc: Global, reader: &mut I) -> Result<Vec<u8>, ReadError>
    ensures { IfSome (I.remaining reader.old) (λ bytes. IfOk result (λ image. image.items ≡ take most_read bytes)) }
{
    let mut first = reader.take(MOST_READ);
    read_text(alloc, &mut first)
}

fn written<W: Write>(writer: &mut W, text: &[u8]) -> Result<(), ImageError>
    ensures text { OnOk result (Appends (W.contents writer.old) (W.contents writer.new) text.now) }
    ensures error { OnErr result (result ≡ Err ImageError.CannotWrite) }
{
    writer.write_all(text).map_err(|_| ImageError::CannotWrite)
}
