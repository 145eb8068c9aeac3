//! A text whose rows of zeros are folded.

ghost use Rattle.std.specs.Prelude.{◌≡◌, ◌++◌, ◌∷◌, [], ◌<◌, IfOk, OnOk, length, map};
ghost use Rattle.om_folding.specs.Folding.{folded, folded_line};

use crate::lines::parts_of;
use crate::rows::{repeats, repeats_on};
use std::alloc::{AllocError, Global};

// Writes what stands for a line.
fn push_folded(folded: &mut Vec<u8>, lines: &[&[u8]], k: usize) -> Result<(), AllocError>
    requires { k < length lines.now }
    ensures { OnOk result (folded.new.items ≡ folded.old.items ++ folded_line (map (λ line. line.now) lines.now) k) }
{
    if repeats_on(lines, k) {
        return Ok(());
    }
    if repeats(lines, k) {
        folded.extend_from_slice(b"*\n")
    } else {
        push_line(folded, lines[k])
    }
}

// Writes a line as it is.
fn push_line(folded: &mut Vec<u8>, line: &[u8]) -> Result<(), AllocError>
    ensures { OnOk result (folded.new.items ≡ folded.old.items ++ line.now ++ 10 ∷ []) }
{
    folded.extend_from_slice(line)?;
    folded.push(b'\n')?;
    Ok(())
}

/// Folds the rows of zeros of a text: of those that follow one another the first stays, and one line `*` stands for all others. A
/// row is an address of 8 hexadecimal digits, a space, and zeros alone. All other lines stay as they are.
///
/// Refused where memory runs out.
pub fn fold_zero_rows(alloc: Global, text: &[u8]) -> Result<Vec<u8>, AllocError>
    ensures { IfOk result (λ short. short.items ≡ folded text.now) }
{
    let parts = parts_of(alloc, text)?;
    let mut short = Vec::new(alloc);
    for k in 0..parts.len().saturating_sub(1) {
        push_folded(&mut short, &parts, k)?;
    }
    if let Some(last) = parts.last() {
        short.extend_from_slice(last)?;
    }
    Ok(short)
}
