//! What the pages of a memory are.

ghost use Rattle.std.specs.Prelude.{◌≡◌, ◌<◌, ◌≤◌, length};
ghost use Rattle.om_pages.specs.Pages.{page_count, page_size, page_at};
ghost use Rattle.om_isa.specs.declared.memory.TheConstants.{MAX_MEMORY};

/// The number of bytes in a page of a memory.
pub const PAGE: usize = 256;

/// Returns how many pages a memory of so many bytes has.
pub fn page_count(size: usize) -> usize
    requires { size ≤ MAX_MEMORY }
    ensures { result ≡ page_count size }
{
    (size + (PAGE - 1)) / PAGE
}

/// Returns how many bytes the page of that index has.
pub fn page_size(size: usize, index: usize) -> usize
    requires most { size ≤ MAX_MEMORY }
    requires within { index < page_count size }
    ensures { result ≡ page_size size index }
{
    PAGE.min(size - index * PAGE)
}

/// Returns the bytes of the page of that index.
pub fn page_of(memory: &[u8], index: usize) -> &[u8]
    requires most { length memory.now ≤ MAX_MEMORY }
    requires within { index < page_count (length memory.now) }
    ensures { result.now ≡ (page_at memory.now index).bytes }
{
    let behind = &memory[index * PAGE..];
    &behind[..PAGE.min(behind.len())]
}
