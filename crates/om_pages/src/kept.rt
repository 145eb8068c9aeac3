//! The pages of a memory that are kept: those that hold a byte other than zero.

ghost use Rattle.std.specs.Prelude.{◌≡◌, ◌<◌, ◌≤◌, All, IfOk, length, map};
ghost use Rattle.om_pages.specs.Pages.{page_count, page_at, is_kept, kept_pages};
ghost use Rattle.om_isa.specs.declared.memory.TheConstants.{MAX_MEMORY};

use crate::pages::{page_count, page_of};
use std::alloc::{AllocError, Global};

// How many bytes are looked at at once.
const WORD: usize = 16;

/// Returns whether any byte is other than zero.
pub fn is_kept(bytes: &[u8]) -> bool
    ensures { result ≡ is_kept bytes.now }
{
    let mut rest = bytes;
    while let Some((word, behind)) = rest.split_first_chunk::<WORD>() {
        if is_set(word) {
            return true;
        }
        rest = behind;
    }
    is_any_set(rest)
}

// Returns whether any byte of a word is other than zero.
fn is_set(word: &[u8; WORD]) -> bool
    ensures { result ≡ is_kept word.now }
{
    u128::from_le_bytes(*word) != 0
}

// Returns whether any byte is other than zero, of those that are no word.
fn is_any_set(bytes: &[u8]) -> bool
    ensures { result ≡ is_kept bytes.now }
{
    let mut set = false;
    for byte in bytes {
        set |= *byte > 0;
    }
    set
}

/// Returns the indices of the pages of a memory that are kept, from the least on. Each page is looked at.
pub fn kept_indices(alloc: Global, memory: &[u8]) -> Result<Vec<u16>, AllocError>
    requires { length memory.now ≤ MAX_MEMORY }
    ensures kept { IfOk result (λ kept. map (page_at memory.now) kept.items ≡ kept_pages memory.now) }
    ensures within { IfOk result (λ kept. All (λ index. index < page_count (length memory.now)) kept.items) }
    ensures few { IfOk result (λ kept. length kept.items ≤ page_count (length memory.now)) }
{
    let mut kept = Vec::new(alloc);
    for index in 0..page_count(memory.len()) {
        if is_kept(page_of(memory, index)) {
            kept.push(index as u16)?;
        }
    }
    Ok(kept)
}
