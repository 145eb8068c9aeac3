//! Marks of the pages of a memory: a page that has none holds zeros, and nobody looks at it.

ghost use Rattle.std.specs.Prelude.{◌≡◌, ◌<◌, ◌≤◌, All, IfOk, false, length, map, replicate};
ghost use Rattle.om_pages.specs.Pages.{page_count, page_at, is_kept, kept_pages};
ghost use Rattle.om_pages.specs.Marks.{AreZerosOutside, Marks, kept_marks};
ghost use Rattle.om_isa.specs.declared.memory.TheConstants.{MAX_MEMORY};

use crate::kept::is_kept;
use crate::pages::{page_count, page_of};
use std::alloc::{AllocError, Global};

/// Makes the marks of a memory of `size` bytes, in which the pages of the first `front` bytes have one.
pub fn marks_of_front(alloc: Global, front: usize, size: usize) -> Result<Vec<bool>, AllocError>
    requires within { front ≤ size }
    requires most { size ≤ MAX_MEMORY }
    ensures { IfOk result (λ marks. Marks (replicate (page_count size) false) marks.items 0 (page_count front)) }
{
    let mut marks = vec![in alloc; false; page_count(size)]?;
    mark(&mut marks, 0, page_count(front));
    Ok(marks)
}

/// Makes the marks of a memory, in which the pages that hold a byte other than zero have one.
pub fn marks_of(alloc: Global, memory: &[u8]) -> Result<Vec<bool>, AllocError>
    requires { length memory.now ≤ MAX_MEMORY }
    ensures { IfOk result (λ marks. marks.items ≡ kept_marks memory.now) }
{
    let count = page_count(memory.len());
    let mut marks = Vec::with_capacity(alloc, count)?;
    for index in 0..count {
        marks.push(is_kept(page_of(memory, index)))?;
    }
    Ok(marks)
}

/// Marks the pages from one to before another.
pub fn mark(marks: &mut Vec<bool>, first: usize, last: usize)
    requires ordered { first ≤ last }
    requires inside { last ≤ length marks.old.items }
    ensures { Marks marks.old.items marks.new.items first last }
{
    for page in first..last {
        marks[page] = true;
    }
}

/// Returns the indices of the pages of a memory that hold a byte other than zero, from the least on. Only pages that have a mark
/// are looked at.
pub fn kept_among(alloc: Global, memory: &[u8], marks: &[bool]) -> Result<Vec<u16>, AllocError>
    requires most { length memory.now ≤ MAX_MEMORY }
    requires marks { length marks.now ≡ page_count (length memory.now) }
    requires zeros { AreZerosOutside marks.now memory.now }
    ensures kept { IfOk result (λ kept. map (page_at memory.now) kept.items ≡ kept_pages memory.now) }
    ensures within { IfOk result (λ kept. All (λ index. index < page_count (length memory.now)) kept.items) }
    ensures few { IfOk result (λ kept. length kept.items ≤ page_count (length memory.now)) }
{
    let mut kept = Vec::new(alloc);
    for index in 0..marks.len() {
        if is_kept_at(memory, marks, index) {
            kept.push(index as u16)?;
        }
    }
    Ok(kept)
}

// Returns whether a page is kept, which is looked at only where it has a mark.
fn is_kept_at(memory: &[u8], marks: &[bool], index: usize) -> bool
    requires most { length memory.now ≤ MAX_MEMORY }
    requires marks { length marks.now ≡ page_count (length memory.now) }
    requires zeros { AreZerosOutside marks.now memory.now }
    requires within { index < page_count (length memory.now) }
    ensures { result ≡ is_kept (page_at memory.now index).bytes }
{
    if marks[index] {
        is_page_kept(memory, index)
    } else {
        false
    }
}

// Returns whether a page is kept. It stands apart, so that nothing is done for a page that has no mark.
#[inline(never)]
fn is_page_kept(memory: &[u8], index: usize) -> bool
    requires most { length memory.now ≤ MAX_MEMORY }
    requires within { index < page_count (length memory.now) }
    ensures { result ≡ is_kept (page_at memory.now index).bytes }
{
    is_kept(page_of(memory, index))
}
