//! Bytes of memory as numbers, the lowest byte first.

ghost use Rattle.std.specs.Prelude.{◌≡◌, ◌+◌, ◌<◌, ◌≤◌, length};
ghost use Rattle.om_machine.specs.State.{half_at, word_at, overwritten};

pub fn read_half(memory: &[u8], address: usize) -> u16
    requires { address + 2 ≤ length memory.now }
    ensures { result ≡ half_at memory.now address }
{
    // By a copy, which is one load of 2 bytes.
    let mut bytes = [0; 2];
    bytes.copy_from_slice(&memory[address..address + 2]);
    u16::from_le_bytes(bytes)
}

pub fn read_word(memory: &[u8], address: usize) -> u32
    requires { address + 4 ≤ length memory.now }
    ensures { result ≡ word_at memory.now address }
{
    // By a copy, which is one load of 4 bytes.
    let mut bytes = [0; 4];
    bytes.copy_from_slice(&memory[address..address + 4]);
    u32::from_le_bytes(bytes)
}

pub fn overwrite(memory: &mut Vec<u8>, address: usize, bytes: &[u8])
    requires { address + length bytes.now ≤ length memory.old.items }
    ensures { memory.new.items ≡ overwritten memory.old.items address bytes.now }
{
    memory[address..address + bytes.len()].copy_from_slice(bytes);
}
