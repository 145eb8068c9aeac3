//! Bytes that come one after another, and what they complete.

use om_packets::{Decoder, Event, MAX_PACKET, laws};
use std::alloc::Global;
use std::process::Abort;

// What bytes complete: the event, and where it is a packet, its bytes.
type Told = (Event, &'static [u8]);

static TEXTS: [(&[u8], &[Told]); 14] = [
    (b"", &[]),
    (b"$OK#9a", &[(Event::Packet, b"OK")]),
    (b"$OK#9A", &[(Event::Packet, b"OK")]),
    (b"$#00", &[(Event::Packet, b"")]),
    // Acknowledgements and other bytes between packets say nothing.
    (
        b"+$g#67-x+$?#3f",
        &[(Event::Packet, b"g"), (Event::Packet, b"?")],
    ),
    (b"$OK#9b", &[(Event::Garbled, b"")]),
    (b"$OK#9g", &[(Event::Garbled, b"")]),
    // What is no digit ends it, and the next packet is read.
    (
        b"$OK#x$g#67",
        &[(Event::Garbled, b""), (Event::Packet, b"g")],
    ),
    // A packet that is begun anew.
    (b"$abc$OK#9a", &[(Event::Packet, b"OK")]),
    (b"\x03", &[(Event::Interrupt, b"")]),
    // Within a packet the byte is one of its bytes.
    (b"$\x03#03", &[(Event::Packet, b"\x03")]),
    (b"$}]#da", &[(Event::Packet, b"}")]),
    (
        b"$a}\x03}\x04}\x0az#63\x03",
        &[(Event::Packet, b"a#$*z"), (Event::Interrupt, b"")],
    ),
    // The end comes in the middle.
    (b"$OK#9", &[]),
];

// The next event that bytes complete from a place on, and the place behind it.
fn next(
    rt: &impl Abort,
    decoder: &mut Decoder,
    text: &[u8],
    from: usize,
) -> (Option<Event>, usize) {
    for at in from..text.len() {
        let event = decoder.take(text[at]).expect(rt, "memory");
        if event.is_some() {
            return (event, at + 1);
        }
    }
    (None, text.len())
}

fn check(rt: &impl Abort, alloc: Global, text: &[u8], told: &[Told]) {
    let mut decoder = Decoder::new(alloc);
    let mut at = 0;
    for (event, bytes) in told {
        let (found, behind) = next(rt, &mut decoder, text, at);
        assert_eq!(rt; found, Some(*event));
        if *event == Event::Packet {
            assert_eq!(rt; decoder.body(), *bytes);
        }
        at = behind;
    }
    let (rest, _) = next(rt, &mut decoder, text, at);
    assert_eq!(rt; rest, None);
}

#[test]
fn bytes_and_what_they_complete(rt: HostRuntime) {
    laws::reads_back();
    for (text, told) in &TEXTS {
        check(&rt, rt.alloc(), text, told);
    }
}

// Takes so many bytes 0 as a packet; the sum of zeros is 0.
fn of_length(rt: &impl Abort, alloc: Global, length: usize) -> Option<Event> {
    let mut decoder = Decoder::new(alloc);
    decoder.take(b'$').expect(rt, "memory");
    for _ in 0..length {
        decoder.take(0).expect(rt, "memory");
    }
    let (event, _) = next(rt, &mut decoder, b"#00", 0);
    event
}

#[test]
fn the_longest_packet(rt: HostRuntime) {
    assert_eq!(&rt; MAX_PACKET, 65_536);
    assert_eq!(&rt; of_length(&rt, rt.alloc(), 65_536), Some(Event::Packet));
    assert_eq!(&rt; of_length(&rt, rt.alloc(), 65_537), Some(Event::Garbled));
}
