//! The bytes of a machine's memory.

ghost use Rattle.std.specs.Prelude.{◌≡◌, ◌↔◌, ℕ, List, length, vec_len, true};
ghost use Rattle.om_isa.specs.Memory.{is_memory_size};

use std::marker::Model;

/// The bytes of a machine's memory, as many as `om_isa::is_memory_size` allows.
#[derive(Debug, Drop)]
pub struct MemoryBytes {
    bytes: Vec<u8>,
}

impl Model for MemoryBytes {
    ghost Value = { List ℕ };

    ghost view = { λ m. m.bytes.items };

    ghost invariant = { λ m. is_memory_size (vec_len m.bytes) ≡ true };
}

impl MemoryBytes {
    /// Makes a memory of these bytes.
    pub fn from_vec(bytes: Vec<u8>) -> MemoryBytes
        requires { is_memory_size (vec_len bytes) ≡ true }
        ensures { result ≡ bytes.items }
    {
        MemoryBytes { bytes }
    }

    /// Gives the bytes back.
    pub fn into_vec(self) -> Vec<u8>
        ensures bytes { result.items ≡ self }
        ensures size { is_memory_size (vec_len result) ≡ true }
    {
        self.bytes
    }

    /// Returns the bytes of the memory.
    pub fn as_slice(&self) -> &[u8]
        ensures bytes { result.now ≡ self.now }
        ensures size { is_memory_size (length self.now) ≡ true }
    {
        &self.bytes
    }
}
