//! The rows of the command `replay`, over both kinds of store: the process receives what another sent and sends it on.

ghost use Rattle.std.specs.Prelude.{◌≡◌, false};

use om_commands::CommandError;
use om_commands::replay::replay;
use om_commands::show::show;
use om_commands::steps::replay_steps;
use om_interval::Pid;
use om_isa::Ext;
use om_look_commands::replay_over;
use om_process::ProcCore;
use om_stable::{FuseStable, MemStable, Stable};
use om_tables::SqlStable;
use sqlite::{Alter, Connection, MemStore};
use std::alloc::Global;
use std::io;
use std::io::Write;
use std::process::Abort;

static PROGRAM: [u32; 11] = [
    0x00200893, 0x04000513, 0x00400593, 0x00000073, 0x00100893, 0x00050613, 0x00000513, 0x04000593,
    0x00000073, 0x00000893, 0x00000073,
];

// The receipt of 4 bytes that began interval 1 of process 1 of 3.
pub const RECEIPT: [u8; 30] = [
    0x52, 1, 1, 2, 1, 0, 0, 0, 0, 0, 0, 0, 0, 0, 0, 0, 3, 0, 0, 0, 0, 0, 0, 0, 4, 0, 0x93, 0x08,
    0x10, 0x00,
];

const AT_START: &str = "\
interval 0
count 0
pc 00000000
x0 00000000
x1 00000000
x2 00000000
x3 00000000
x4 00000000
x5 00000000
x6 00000000
x7 00000000
x8 00000000
x9 00000000
x10 00000000
x11 00000000
x12 00000000
x13 00000000
x14 00000000
x15 00000000
x16 00000000
x17 00000000
x18 00000000
x19 00000000
x20 00000000
x21 00000000
x22 00000000
x23 00000000
x24 00000000
x25 00000000
x26 00000000
x27 00000000
x28 00000000
x29 00000000
x30 00000000
x31 00000000
00000000 93082000130500049305400073000000
00000010 93081000130605001305000093050004
00000020 73000000930800007300000000000000
00000030 00000000000000000000000000000000
00000040 00000000000000000000000000000000
00000050 00000000000000000000000000000000
00000060 00000000000000000000000000000000
00000070 00000000000000000000000000000000
status ready
";

const AFTER_RECEIPT: &str = "\
interval 1
count 4
pc 00000010
x0 00000000
x1 00000000
x2 00000000
x3 00000000
x4 00000000
x5 00000000
x6 00000000
x7 00000000
x8 00000000
x9 00000000
x10 00000004
x11 00000002
x12 00000000
x13 00000000
x14 00000000
x15 00000000
x16 00000000
x17 00000002
x18 00000000
x19 00000000
x20 00000000
x21 00000000
x22 00000000
x23 00000000
x24 00000000
x25 00000000
x26 00000000
x27 00000000
x28 00000000
x29 00000000
x30 00000000
x31 00000000
00000000 93082000130500049305400073000000
00000010 93081000130605001305000093050004
00000020 73000000930800007300000000000000
00000030 00000000000000000000000000000000
00000040 93081000000000000000000000000000
00000050 00000000000000000000000000000000
00000060 00000000000000000000000000000000
00000070 00000000000000000000000000000000
status ready
";

// The process has started over the store, and these bytes are its receipt of interval 1.
pub fn fill<S: Stable>(rt: &impl Abort, alloc: Global, store: &mut S, receipt: &[u8]) {
    let mut image = Vec::new(alloc);
    for word in &PROGRAM {
        image
            .extend_from_slice(&word.to_le_bytes())
            .expect(rt, "memory");
    }
    let core = ProcCore::start(alloc, &image, 128, Ext::I, Pid::at(1), 3, store);
    assert!(rt; core.is_ok());
    put(rt, alloc, store, receipt);
    drop(core);
}

fn put<S: Stable>(rt: &impl Abort, alloc: Global, store: &mut S, receipt: &[u8]) {
    let bytes = Vec::from_slice(alloc, receipt).expect(rt, "memory");
    let mut receipts = Vec::new(alloc);
    receipts.push(bytes).expect(rt, "memory");
    assert!(rt; receipts.len() == 1);
    store.put_receipts(alloc, 1, &receipts).expect(rt, "stored");
}

// What the command writes, and its answer.
fn check<S: Stable>(
    rt: &impl Abort,
    alloc: Global,
    store: &mut S,
    interval: u32,
    written: &str,
    answer: Result<(), CommandError>,
) {
    let mut text = Vec::new(alloc);
    let told = replay(alloc, store, interval, &mut text);
    let is_right = told == answer && text.as_slice() == written.as_bytes();
    assert!(rt; is_right, "{interval}: {told:?}");
}

/// By interval: what is written, and the answer.
pub static ROWS: [(u32, &str, Result<(), CommandError>); 4] = [
    (0, AT_START, Ok(())),
    (1, AFTER_RECEIPT, Ok(())),
    (2, "", Err(CommandError::MissingReceipt(2))),
    (u32::MAX, "", Err(CommandError::MissingReceipt(2))),
];

fn check_store<S: Stable>(rt: &impl Abort, alloc: Global, store: &mut S) {
    fill(rt, alloc, store, &RECEIPT);
    for (interval, written, answer) in &ROWS {
        check(rt, alloc, store, *interval, written, *answer);
    }
}

#[test]
fn rows_in_memory(rt: HostRuntime) {
    let mut store = MemStable::new(rt.alloc());
    check(
        &rt,
        rt.alloc(),
        &mut store,
        0,
        "",
        Err(CommandError::NoCheckpoint),
    );
    check_store(&rt, rt.alloc(), &mut store);
    drop(store);
}

// The rows over a connection, which is handed back after each.
fn check_connection<S: Alter + Drop>(rt: &impl Abort, alloc: Global, conn: Connection<S>) {
    let mut conn = conn;
    for (interval, written, answer) in &ROWS {
        assert!(rt; conn.is_autocommit());
        let mut text = Vec::new(alloc);
        let (told, left) = replay_over(alloc, conn, *interval, &mut text);
        conn = left;
        let is_right = told == *answer && text.as_slice() == written.as_bytes();
        assert!(rt; is_right, "{interval}");
    }
}

fn in_memory(rt: &impl Abort, alloc: Global) -> Connection<MemStore>
    ensures { result.in_transaction ≡ false }
{
    let conn = Connection::open_in_memory(alloc).expect(rt, "memory");
    assert!(rt; conn.is_autocommit());
    conn
}

#[test]
fn rows_in_tables(rt: HostRuntime) {
    match SqlStable::create(rt.alloc(), in_memory(&rt, rt.alloc())) {
        Ok(mut store) => {
            check_store(&rt, rt.alloc(), &mut store);
            check_connection(&rt, rt.alloc(), store.into_connection());
        }
        Err((error, _conn)) => panic!(rt; "{error:?}"),
    }
}

#[test]
fn a_database_without_a_store(rt: HostRuntime) {
    let mut text = Vec::new(rt.alloc());
    let conn = in_memory(&rt, rt.alloc());
    let (told, conn) = replay_over(rt.alloc(), conn, 0, &mut text);
    assert!(&rt; told == Err(CommandError::StoreFault) && text.is_empty());
    assert!(&rt; conn.schema().tables.is_empty());
}

// The command over a store with the first so many bytes of the receipt, of which one is another, has this answer.
fn check_altered(
    rt: &impl Abort,
    alloc: Global,
    len: usize,
    (place, byte): (usize, u8),
    answer: CommandError,
) {
    let mut receipt = RECEIPT;
    assert!(rt; place < receipt.len() && len <= receipt.len());
    receipt[place] = byte;
    let mut store = MemStable::new(alloc);
    fill(rt, alloc, &mut store, &receipt[..len]);
    check(rt, alloc, &mut store, 1, "", Err(answer));
    drop(store);
}

// A receipt with another byte at a place, and one that is cut.
static ALTERED: [(usize, (usize, u8), CommandError); 5] = [
    (30, (4, 2), CommandError::Damaged(1)),
    (30, (2, 0), CommandError::Mismatch(1)),
    (30, (3, 3), CommandError::Mismatch(1)),
    (30, (16, 2), CommandError::Mismatch(1)),
    (29, (0, 0x52), CommandError::Damaged(1)),
];

#[test]
fn records_that_are_altered(rt: HostRuntime) {
    for (len, change, answer) in &ALTERED {
        check_altered(&rt, rt.alloc(), *len, *change, *answer);
    }
}

// The two calls that fill the store pass.
#[test]
fn a_store_that_fails(rt: HostRuntime) {
    let mut store = FuseStable::new(MemStable::new(rt.alloc()), 2);
    fill(&rt, rt.alloc(), &mut store, &RECEIPT);
    check(
        &rt,
        rt.alloc(),
        &mut store,
        1,
        "",
        Err(CommandError::StoreFault),
    );
    check(&rt, rt.alloc(), &mut store, 1, AFTER_RECEIPT, Ok(()));
    drop(store);
}

// Takes a byte with each of so many calls, and then fails.
#[derive(Drop)]
struct Failing {
    calls: u32,
}

impl Write for Failing {
    fn write(&mut self, buf: &[u8]) -> io::Result<usize> {
        if self.calls == 0 || buf.is_empty() {
            return Err(io::Error::from(io::ErrorKind::Other));
        }
        self.calls -= 1;
        Ok(1)
    }

    fn flush(&mut self) -> io::Result<()> {
        Ok(())
    }
}

// A text that cannot be written to its end.
#[test]
fn a_writer_that_fails(rt: HostRuntime) {
    let mut store = MemStable::new(rt.alloc());
    fill(&rt, rt.alloc(), &mut store, &RECEIPT);
    let told = replay(rt.alloc(), &mut store, 1, &mut Failing { calls: 3 });
    assert!(&rt; told == Err(CommandError::CannotWrite), "{told:?}");
    drop(store);
}

#[test]
fn looks_that_are_refused(rt: HostRuntime) {
    let mut store = MemStable::new(rt.alloc());
    fill(&rt, rt.alloc(), &mut store, &RECEIPT);
    let mut text = Vec::new(rt.alloc());
    let told = replay_steps(rt.alloc(), &mut store, 2, 1, true, &mut text);
    assert!(&rt; told == Err(CommandError::MissingReceipt(2)) && text.is_empty());
    drop(store);
}

#[test]
fn a_store_that_fails_is_not_shown(rt: HostRuntime) {
    let mut text = Vec::new(rt.alloc());
    let mut store = FuseStable::new(MemStable::new(rt.alloc()), 0);
    let told = show(rt.alloc(), &mut store, &mut text);
    assert!(&rt; told == Err(CommandError::StoreFault) && text.is_empty());
    drop(store);
}
