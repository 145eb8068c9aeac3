//! Stores of a process that receives without end, made by hand.

use om_interval::Pid;
use om_isa::Ext;
use om_process::ProcCore;
use om_stable::{MemStable, Stable};
use std::alloc::Global;
use std::process::Abort;

// Receives 4 bytes at address 64, adds 1 to t0, and does so again: addi a7, zero, 2; addi a0, zero, 64; addi a1, zero, 4; ecall;
// addi t0, t0, 1; jal zero, -20.
static RECEIVES: [u32; 6] = [
    0x0020_0893,
    0x0400_0513,
    0x0040_0593,
    0x0000_0073,
    0x0012_8293,
    0xfedf_f06f,
];

// The receipt that began interval `x` of process 1 of 3: from process 2, the next of its messages, of 4 bytes, of which the first is `x`.
// Three instructions lie before the first wait, and the finished call and five more between two.
pub(crate) fn receipt(x: u8) -> [u8; 30] {
    let count = 3 + 6 * x.saturating_sub(1).min(40);
    [
        0x52,
        1,
        1,
        2,
        x,
        0,
        0,
        0,
        0,
        0,
        0,
        0,
        x.saturating_sub(1),
        0,
        0,
        0,
        count,
        0,
        0,
        0,
        0,
        0,
        0,
        0,
        4,
        0,
        x,
        0,
        0,
        0,
    ]
}

// The store of process 1 of 3 of these words right after its start.
pub(crate) fn started_with(rt: &impl Abort, alloc: Global, words: &[u32]) -> MemStable {
    let mut store = MemStable::new(alloc);
    let mut image = Vec::new(alloc);
    for word in words {
        image
            .extend_from_slice(&word.to_le_bytes())
            .expect(rt, "memory");
    }
    let core = ProcCore::start(alloc, &image, 128, Ext::I, Pid::at(1), 3, &mut store);
    assert!(rt; core.is_ok());
    store
}

pub(crate) fn put(rt: &impl Abort, alloc: Global, store: &mut MemStable, x: u8, receipt: &[u8]) {
    let bytes = Vec::from_slice(alloc, receipt).expect(rt, "memory");
    let mut receipts = Vec::new(alloc);
    receipts.push(bytes).expect(rt, "memory");
    assert!(rt; receipts.len() == 1);
    let put = store.put_receipts(alloc, u32::from(x), &receipts);
    put.expect(rt, "stored");
}

// The store with the receipts of these intervals.
pub(crate) fn received(rt: &impl Abort, alloc: Global, intervals: &[u8]) -> MemStable {
    let mut store = started_with(rt, alloc, &RECEIVES);
    for x in intervals {
        put(rt, alloc, &mut store, *x, &receipt(*x));
    }
    store
}

// Adds the checkpoint of an interval, as it is replayed from another store.
pub(crate) fn add_checkpoint(
    rt: &impl Abort,
    alloc: Global,
    store: &mut MemStable,
    from: &mut MemStable,
    x: u32,
) {
    let mut core = ProcCore::replay(alloc, from, x).expect(rt, "a process");
    core.checkpoint(alloc, store).expect(rt, "stored");
}
