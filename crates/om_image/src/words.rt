//! Bytes as words of the machine, and words as text.

ghost use Rattle.std.specs.Prelude.{◌≡◌, ◌+◌, ◌≤◌, ◌<◌, ◌^◌, All, IfOk, length, map, slice_range, string_bytes};
ghost use Rattle.std.specs.Int.{to_le_bytes, w32};
ghost use Rattle.om_look.specs.Trace.{word_text};
ghost use Rattle.om_image.specs.steps.Padded.{AreWholeWordsOf, AreWordsOf, IsWholePadded};

use std::alloc::{AllocError, Global};

// How many bytes a word has.
const WORD_BYTES: usize = 4;

// Returns the words of the bytes, the lowest byte of each first; the last is padded with zeros.
#[tactic(auto, using(crate::proofs::Whole::words_of_padded))]
pub(crate) fn words_of(alloc: Global, bytes: &[u8]) -> Result<Vec<u32>, AllocError>
    ensures words { IfOk result (λ words. AreWordsOf bytes.now words.items) }
    ensures range { IfOk result (λ words. All (λ word. word < 2 ^ 32) words.items) }
{
    let padded = padded(alloc, bytes)?;
    whole_words(alloc, &padded)
}

// Returns the bytes, and zeros up to a whole number of words.
fn padded(alloc: Global, bytes: &[u8]) -> Result<Vec<u8>, AllocError>
    ensures { IfOk result (λ padded. IsWholePadded bytes.now padded.items) }
{
    let zeros = (WORD_BYTES - bytes.len() % WORD_BYTES) % WORD_BYTES;
    let mut padded = Vec::from_slice(alloc, bytes)?;
    for _ in 0..zeros {
        padded.push(0)?;
    }
    Ok(padded)
}

// Returns the words of so many bytes as whole words have.
#[tactic(auto, using(crate::proofs::Whole::words_more))]
fn whole_words(alloc: Global, bytes: &[u8]) -> Result<Vec<u32>, AllocError>
    ensures words { IfOk result (λ words. AreWholeWordsOf bytes.now words.items) }
    ensures range { IfOk result (λ words. All (λ word. word < 2 ^ 32) words.items) }
{
    let mut words = Vec::new(alloc);
    for i in 0..bytes.len() / WORD_BYTES {
        words.push(word_at(bytes, WORD_BYTES * i))?;
    }
    Ok(words)
}

// Returns the word of four bytes.
fn word_at(bytes: &[u8], at: usize) -> u32
    requires { at + 4 ≤ length bytes.now }
    ensures { to_le_bytes w32 result ≡ slice_range bytes.now at (at + 4) }
{
    u32::from_le_bytes([bytes[at], bytes[at + 1], bytes[at + 2], bytes[at + 3]])
}

// Returns the words as text.
pub(crate) fn texts_of(alloc: Global, words: &[u32]) -> Result<Vec<String>, AllocError>
    ensures { IfOk result (λ texts. map string_bytes texts.items ≡ map word_text words.now) }
{
    let mut texts = Vec::with_capacity(alloc, words.len())?;
    for word in words {
        texts.push(hex::encode(alloc, word.to_be_bytes())?)?;
    }
    Ok(texts)
}
