//! The lines of a text.

ghost use Rattle.std.specs.Prelude.{◌≡◌, ◌==◌, IfOk, map};
ghost use Rattle.std.specs.List.{slice_split};

use std::alloc::{AllocError, Global};

// Returns what stands between the ends of lines. The last of these has no end.
pub(crate) fn parts_of(alloc: Global, text: &[u8]) -> Result<Vec<&[u8]>, AllocError>
    ensures { IfOk result (λ parts. map (λ part. part.now) parts.items ≡ slice_split (λ byte. byte == 10) text.now) }
{
    let mut parts = Vec::new(alloc);
    for part in text.split(|byte| *byte == b'\n') {
        parts.push(part)?;
    }
    Ok(parts)
}
