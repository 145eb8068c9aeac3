//! The sizes that a memory may have.

ghost use Rattle.std.specs.Prelude.{◌≡◌, ◌↔◌, true};
ghost use Rattle.om_isa.specs.Memory.{IsMemorySize, is_memory_size};

/// The least number of bytes in a memory: one word. Each number of bytes is a multiple of it.
pub const MIN_MEMORY: usize = 4;

/// The greatest number of bytes in a memory.
pub const MAX_MEMORY: usize = 65_536;

/// Returns whether a memory may have so many bytes: from `MIN_MEMORY` to `MAX_MEMORY`, and a multiple of `MIN_MEMORY`.
pub fn is_memory_size(bytes: usize) -> bool
    ensures test { result ≡ is_memory_size bytes }
    ensures size { (result ≡ true) ↔ IsMemorySize bytes }
{
    MIN_MEMORY <= bytes && bytes <= MAX_MEMORY && bytes % MIN_MEMORY == 0
}
