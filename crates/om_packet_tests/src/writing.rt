//! Packets as they are written.

use om_packets::encode;
use std::alloc::Global;
use std::process::Abort;

// Bytes, and their packets: the sums are those that gdb 13.1 writes and awaits.
static PACKETS: [(&[u8], &[u8]); 13] = [
    (b"", b"$#00"),
    (b"OK", b"$OK#9a"),
    (b"E01", b"$E01#a6"),
    (b"g", b"$g#67"),
    (b"?", b"$?#3f"),
    (b"qC", b"$qC#b4"),
    (b"Hg0", b"$Hg0#df"),
    (b"vCont?", b"$vCont?#49"),
    (b"qTStatus", b"$qTStatus#49"),
    (b"vMustReplyEmpty", b"$vMustReplyEmpty#3a"),
    (b"QStartNoAckMode", b"$QStartNoAckMode#b0"),
    (b"}", b"$}]#da"),
    (b"a#$*z", b"$a}\x03}\x04}\x0az#63"),
];

fn check(rt: &impl Abort, alloc: Global, bytes: &[u8], packet: &[u8]) {
    assert_eq!(rt;
        encode(alloc, bytes).expect(rt, "memory").as_slice(),
        packet
    );
}

#[test]
fn bytes_and_their_packets(rt: HostRuntime) {
    for (bytes, packet) in &PACKETS {
        check(&rt, rt.alloc(), bytes, packet);
    }
}
