//! The words of a line.

ghost use Rattle.std.specs.Prelude.{◌≡◌, map, OnOk};
ghost use Rattle.om_text.specs.Words.{is_blank, is_passed_over, words_of};

use std::alloc::AllocError;

// Puts the words of a line in place of what was there.
pub(crate) fn split_words<'a>(line: &'a [u8], words: &mut Vec<&'a [u8]>) -> Result<(), AllocError>
    ensures { OnOk result (map (λ word. word.now) words.new.items ≡ words_of line.now) }
{
    words.clear();
    for word in line.split(|b| is_blank(*b)) {
        if !word.is_empty() {
            words.push(word)?;
        }
    }
    Ok(())
}

fn is_blank(byte: u8) -> bool
    ensures { result ≡ is_blank byte }
{
    byte == b' ' || byte == b'\t'
}

// Returns whether a line of these words is passed over: it is empty, or its first word begins with `#`.
pub(crate) fn is_passed_over(words: &[&[u8]]) -> bool
    ensures { result ≡ is_passed_over (map (λ word. word.now) words.now) }
{
    match words {
        [] => true,
        [first, ..] => matches!(first, [b'#', ..]),
    }
}
