//! What is taken of bytes that were read, and the wish among them.

use om_debug::Wish;
use om_inbox::{Inbox, Taker};
use std::io;
use std::io::{ErrorKind, Read};
use std::process::Abort;
use std::sync::Wait;

// Gives these bytes, and fails behind them.
#[derive(Drop)]
struct Failing<'a> {
    bytes: &'a [u8],
}

impl<'a> Read for Failing<'a> {
    fn read(&mut self, buf: &mut [u8]) -> io::Result<usize> {
        if self.bytes.is_empty() {
            return Err(io::Error::from(ErrorKind::ConnectionReset));
        }
        self.bytes.read(buf)
    }
}

// Takes so many bytes at most, and these are to come.
fn check<R: Abort, W: Wait>(rt: &R, packets: &mut Taker<'_, W>, room: usize, wanted: &[u8]) {
    let mut buf = [0; 8];
    match packets.read(&mut buf[..room.min(8)]) {
        Ok(count) => {
            assert!(rt;
                count == wanted.len() && buf.starts_with(wanted),
                "{wanted:?}"
            );
        }
        Err(_) => panic!(rt; "{wanted:?}"),
    }
}

#[test]
fn no_reading_goes_beyond_a_wish(rt: HostRuntime) {
    let inbox = Inbox::new(rt.alloc());
    inbox.fill(&rt, &mut b"ab\x03cd".as_slice());
    let mut packets = Taker::new(&rt, &inbox);
    assert!(&rt; !packets.is_there());
    check(&rt, &mut packets, 8, b"ab");
    assert!(&rt; packets.is_there());
    assert!(&rt; !packets.is_there());
    check(&rt, &mut packets, 1, b"c");
    check(&rt, &mut packets, 8, b"d");
    check(&rt, &mut packets, 8, b"");
}

#[test]
fn a_wish_is_read_where_nobody_asks_for_it(rt: HostRuntime) {
    let inbox = Inbox::new(rt.alloc());
    inbox.fill(&rt, &mut b"\x03\x03a".as_slice());
    let mut packets = Taker::new(&rt, &inbox);
    check(&rt, &mut packets, 8, b"\x03");
    assert!(&rt; packets.is_there());
    check(&rt, &mut packets, 8, b"a");
}

#[test]
fn a_refusal_comes_behind_the_bytes(rt: HostRuntime) {
    let inbox = Inbox::new(rt.alloc());
    inbox.fill(&rt, &mut Failing { bytes: b"ab" });
    let mut packets = Taker::new(&rt, &inbox);
    check(&rt, &mut packets, 8, b"ab");
    let refused = packets.read(&mut [0; 4]);
    assert!(&rt; matches!(refused, Err(error) if error.kind() == ErrorKind::ConnectionReset));
    assert!(&rt; packets.refusal().is_some());
}

#[test]
fn one_that_is_closed_takes_nothing(rt: HostRuntime) {
    let inbox = Inbox::new(rt.alloc());
    inbox.close(&rt);
    let mut bytes = b"abc".as_slice();
    inbox.fill(&rt, &mut bytes);
    assert!(&rt; bytes.is_empty());
}
