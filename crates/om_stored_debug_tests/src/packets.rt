//! Packets as gdb sends them, and the answers to them as lines.

use std::alloc::Global;
use std::process::Abort;

// Asks where it stands.
pub(crate) const WHERE: &str = "$qRcmd,7768657265#3e";

// What is asked behind the agreement not to acknowledge packets, and then the end.
pub(crate) fn asked(rt: &impl Abort, alloc: Global, packets: &[&str]) -> String {
    let mut text = String::from_str(alloc, "$QStartNoAckMode#b0").expect(rt, "memory");
    for packet in packets {
        text.push_str(packet).expect(rt, "memory");
    }
    text.push_str("$D#44").expect(rt, "memory");
    text
}

fn hex_digit(byte: u8) -> Option<u8> {
    match byte {
        b'0'..=b'9' => Some(byte - b'0'),
        b'a'..=b'f' => Some(byte - b'a' + 10),
        _ => None,
    }
}

// Returns the text that a long answer in hexadecimal is, or the answer where it is none.
fn said(rt: &impl Abort, alloc: Global, answer: &[u8]) -> String {
    let mut bytes = Vec::new(alloc);
    let mut high = None;
    for byte in answer {
        let Some(digit) = hex_digit(*byte) else {
            break;
        };
        match high {
            None => high = Some(digit),
            Some(first) => {
                let both: u8 = (first & 15) << 4 | digit & 15;
                bytes.push(both).expect(rt, "memory");
                high = None;
            }
        }
    }
    if answer.len() > 20 && answer.len() / 2 == bytes.len() {
        return String::from_utf8(bytes).expect(rt, "text");
    }
    let whole = Vec::from_slice(alloc, answer).expect(rt, "memory");
    String::from_utf8(whole).expect(rt, "text")
}

// Returns the packets that were written, in lines; the text of a command as the text that it is.
pub(crate) fn lines_of(rt: &impl Abort, alloc: Global, written: &[u8], most: usize) -> String {
    let mut lines = String::new(alloc);
    let mut rest = written;
    for _ in 0..most {
        let Some(start) = rest.iter().position(|b| *b == b'$') else {
            break;
        };
        let Some(end) = rest.iter().position(|b| *b == b'#') else {
            break;
        };
        assert!(rt; start < end && end + 3 <= rest.len());
        let line = said(rt, alloc, &rest[start + 1..end]);
        lines.push_str(&line).expect(rt, "memory");
        lines.push_str("\n").expect(rt, "memory");
        rest = &rest[end + 3..];
    }
    lines
}
