//! The words of a packet.

ghost use Rattle.std.specs.Prelude.{◌≡◌, IfOk, map};
ghost use Rattle.om_requests.specs.Requests.{is_mark, packet_words};

use std::alloc::{AllocError, Global};

fn is_mark(byte: u8) -> bool
    ensures { result ≡ is_mark byte }
{
    byte == b',' || byte == b':' || byte == b';'
}

// Returns the words of a packet, which commas, colons and semicolons part.
pub(crate) fn packet_words(alloc: Global, packet: &[u8]) -> Result<Vec<&[u8]>, AllocError>
    ensures { IfOk result (λ words. map (λ word. word.now) words.items ≡ packet_words packet.now) }
{
    let mut words = Vec::new(alloc);
    for word in packet.split(|b| is_mark(*b)) {
        words.push(word)?;
    }
    Ok(words)
}
