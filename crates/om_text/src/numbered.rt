//! The numbers of the lines that say something.

ghost use Rattle.std.specs.Prelude.{◌≡◌, IfOk, map};
ghost use Rattle.std.specs.Str.Lines.{lines};
ghost use Rattle.om_text.specs.Script.{numbered};
ghost use Rattle.om_text.specs.Words.{words_of};

use crate::lines::split_line;
use crate::words::{is_passed_over, split_words};
use std::alloc::{AllocError, Global};

/// Returns the numbers, from 1, of the lines of a text that are not passed over.
pub fn numbered_lines(alloc: Global, text: &[u8]) -> Result<Vec<usize>, AllocError>
    ensures { IfOk result (λ numbers. numbers.items ≡ map (λ line. line.0) (numbered 1 (map words_of (lines text.now)))) }
{
    let mut numbers = Vec::new(alloc);
    let mut words = Vec::new(alloc);
    let mut rest = text;
    let mut number = 0;
    while let Some((line, after)) = split_line(rest) {
        rest = after;
        number += 1;
        split_words(line, &mut words)?;
        if !is_passed_over(&words) {
            numbers.push(number)?;
        }
    }
    Ok(numbers)
}
