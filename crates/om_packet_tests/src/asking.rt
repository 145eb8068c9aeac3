//! What packets ask: those that gdb 13.1 sends, and some that it does not.

use om_requests::{Command, Request, Resume, Thread, Watch, Watched, hex_number, request_of};
use std::alloc::Global;
use std::process::Abort;

const WRITES: Watch = Watch {
    kind: Watched::Writes,
    address: 568,
    length: 4,
};

const READS: Watch = Watch {
    kind: Watched::Reads,
    address: 568,
    length: 4,
};

const BOTH: Watch = Watch {
    kind: Watched::Both,
    address: 568,
    length: 4,
};

// As gdb sent them.
static SENT: [(&[u8], Request); 45] = [
    (
        b"qSupported:multiprocess+;swbreak+;hwbreak+;qRelocInsn+;fork-events+;vfork-events+;exec-events+;vContSupported+;QThreadEvents+;no-resumed+;memory-tagging+;xmlRegisters=i386",
        Request::Supported,
    ),
    (b"vMustReplyEmpty", Request::Unknown),
    (b"QStartNoAckMode", Request::StartNoAckMode),
    (b"Hg0", Request::Select(Thread::Any)),
    (b"Hg2", Request::Select(Thread::Numbered(2))),
    (b"Hc0", Request::SelectGoing(Thread::Any)),
    (b"Hc-1", Request::SelectGoing(Thread::Any)),
    (b"T1", Request::IsAlive(Thread::Numbered(1))),
    (
        b"qXfer:features:read:target.xml:0,1000",
        Request::Target(0, 4096),
    ),
    (b"qXfer:threads:read::0,1000", Request::Threads(0, 4096)),
    (b"qTStatus", Request::Unknown),
    (b"qOffsets", Request::Unknown),
    (b"qSymbol::", Request::Unknown),
    (b"?", Request::Why),
    (b"qAttached", Request::Attached),
    (b"qAttached:1", Request::Attached),
    (b"g", Request::Registers),
    (b"m238,4", Request::Memory(568, 4)),
    (b"m80,40", Request::Memory(128, 64)),
    (b"m1fc0,40", Request::Memory(8128, 64)),
    (b"vCont?", Request::Actions),
    (b"vCont;c", Request::Resume(Resume::Continue)),
    (b"vCont;s:1", Request::Resume(Resume::Step)),
    (b"vCont;s:1;c", Request::Resume(Resume::Step)),
    (b"vCont;C20:1;c", Request::Resume(Resume::Continue)),
    (b"vCont;r18,24:2;c", Request::Resume(Resume::Range(24, 36))),
    (b"Z0,18,4", Request::SetBreak(24)),
    (b"z0,18,4", Request::ClearBreak(24)),
    (b"bs", Request::BackStep),
    (b"bc", Request::BackContinue),
    (b"qRcmd,7768657265", Request::Monitor(Command::Where)),
    (b"qRcmd,6576656e7473", Request::Monitor(Command::Events)),
    (
        b"qRcmd,676f746f20323339",
        Request::Monitor(Command::Goto(239)),
    ),
    (
        b"qRcmd,676f746f2034323934393637323935",
        Request::Monitor(Command::Goto(4_294_967_295)),
    ),
    (b"qRcmd,68656c70", Request::Monitor(Command::Help)),
    (b"Z2,238,4", Request::SetWatch(WRITES)),
    (b"Z3,238,4", Request::SetWatch(READS)),
    (b"Z4,238,4", Request::SetWatch(BOTH)),
    (b"z2,238,4", Request::ClearWatch(WRITES)),
    (b"D", Request::Detach),
    (b"D;1", Request::Detach),
    (b"vKill;a410", Request::Kill),
    (b"k", Request::Kill),
    (b"X238,4:\x01\x00\x00\x00", Request::Write),
    (b"M238,4:01000000", Request::Write),
];

// With numbers and words that they cannot have, and unknown ones.
static OTHERS: [(&[u8], Request); 40] = [
    (b"", Request::Unknown),
    (b",", Request::Unknown),
    (b"\x00\xff", Request::Unknown),
    (b"gg", Request::Unknown),
    (
        b"mffffffff,ffffffff",
        Request::Memory(0xffff_ffff, 0xffff_ffff),
    ),
    (b"m00000000000000000238,4", Request::Memory(568, 4)),
    // The first numbers that are too great.
    (b"m100000000,4", Request::Malformed),
    (b"m0,100000000", Request::Malformed),
    (b"m", Request::Malformed),
    (b"m238", Request::Malformed),
    (b"m238,", Request::Malformed),
    (b"m,4", Request::Malformed),
    (b"m238,4,4", Request::Malformed),
    (b"m-1,4", Request::Malformed),
    (b"m+1,4", Request::Malformed),
    (b"m23g,4", Request::Malformed),
    // Breakpoints without an address, or with one that is too great; watchpoints without a length; and other kinds.
    (b"Z0", Request::Malformed),
    (b"Z0,", Request::Malformed),
    (b"z1,100000000,4", Request::Malformed),
    (b"Z2,238", Request::Malformed),
    (b"Z3,100000000,4", Request::Malformed),
    (b"z4,238,", Request::Malformed),
    (b"Z5,238,4", Request::Unknown),
    (b"Z22,238,4", Request::Unknown),
    // Commands that are none, by an odd number of digits, a digit that is none, no number, and the first number that is too great.
    (b"qRcmd", Request::Monitor(Command::Help)),
    (b"qRcmd,776865726", Request::Monitor(Command::Help)),
    (b"qRcmd,77686572zz", Request::Monitor(Command::Help)),
    (b"qRcmd,676f746f20", Request::Monitor(Command::Help)),
    (
        b"qRcmd,676f746f2034323934393637323936",
        Request::Monitor(Command::Help),
    ),
    (b"bsc", Request::Unknown),
    (b"H", Request::Malformed),
    (b"Hg", Request::Malformed),
    (b"Hx1", Request::Malformed),
    (b"T", Request::Malformed),
    (b"vCont", Request::Malformed),
    (b"vCont;", Request::Malformed),
    (b"vCont;x", Request::Malformed),
    (b"vCont;r18", Request::Malformed),
    (b"qXfer:features:read:other.xml:0,1000", Request::Malformed),
    (b"qXfer:features:write:target.xml:0,1000", Request::Unknown),
];

fn check(rt: &impl Abort, alloc: Global, rows: &[(&[u8], Request)]) {
    for (packet, request) in rows {
        assert_eq!(rt; request_of(alloc, packet).expect(rt, "memory"), *request);
    }
}

#[test]
fn packets_that_gdb_sends(rt: HostRuntime) {
    check(&rt, rt.alloc(), &SENT);
}

#[test]
fn packets_that_ask_nothing(rt: HostRuntime) {
    check(&rt, rt.alloc(), &OTHERS);
}

#[test]
fn numbers_of_packets(rt: HostRuntime) {
    assert_eq!(&rt; hex_number(b"0"), Some(0));
    assert_eq!(&rt; hex_number(b"aF"), Some(175));
    assert_eq!(&rt; hex_number(b"ffffffff"), Some(4_294_967_295));
    assert_eq!(&rt; hex_number(b"100000000"), None);
    assert_eq!(&rt; hex_number(b""), None);
}
