//! A packet as it is written.

ghost use Rattle.std.specs.Prelude.{◌≡◌, ◌++◌, ◌∷◌, ◌<◌, [], IfOk, IsTrue, OnOk};
ghost use Rattle.om_packets.specs.Packets.{checksum, escaped, escaped_byte, hex_digit, is_special, packet_text};

use std::alloc::{AllocError, Global};

// Returns whether a packet may not hold the byte as it is.
fn must_be_escaped(byte: u8) -> bool
    ensures { result ≡ is_special byte }
{
    byte == b'#' || byte == b'$' || byte == b'*' || byte == b'}'
}

fn digit(value: u8) -> u8
    requires { value < 16 }
    ensures { result ≡ hex_digit value }
{
    if value < 10 {
        b'0' + value
    } else {
        b'a' + (value - 10)
    }
}

// Returns the sum of bytes, modulo 256.
fn sum_of(text: &[u8]) -> u8
    ensures { result ≡ checksum text.now }
{
    let mut sum: u8 = 0;
    for byte in text {
        sum = sum.wrapping_add(*byte);
    }
    sum
}

fn push_byte(text: &mut Vec<u8>, byte: u8) -> Result<(), AllocError>
    ensures { OnOk result (text.new.items ≡ text.old.items ++ escaped_byte byte) }
{
    if must_be_escaped(byte) {
        text.push(b'}')?;
        text.push(byte ^ 0x20)?;
        return Ok(());
    }
    text.push(byte)?;
    Ok(())
}

fn escape(alloc: Global, bytes: &[u8]) -> Result<Vec<u8>, AllocError>
    ensures { IfOk result (λ text. text.items ≡ escaped bytes.now) }
{
    let mut text = Vec::new(alloc);
    for byte in bytes {
        push_byte(&mut text, *byte)?;
    }
    Ok(text)
}

/// Returns the packet that holds these bytes: `$`, the bytes with `#`, `$`, `*` and `}` written as `}` and the byte with bit 5
/// turned, `#`, and the sum of what stands between, modulo 256, in two hexadecimal digits. Refused only where memory ran out.
pub fn encode(alloc: Global, bytes: &[u8]) -> Result<Vec<u8>, AllocError>
    ensures { IfOk result (λ packet. packet.items ≡ packet_text bytes.now) }
{
    let text = escape(alloc, bytes)?;
    let sum = sum_of(&text);
    let mut packet = Vec::new(alloc);
    packet.push(b'$')?;
    packet.extend_from_slice(&text)?;
    packet.push(b'#')?;
    packet.push(digit(sum / 16))?;
    packet.push(digit(sum % 16))?;
    Ok(packet)
}
