//! Rings as cluster files, and what they print.

use std::alloc::Global;
use std::process::Abort;

// Each process takes 6 receipts; at each it adds 1 to a counter, puts the counter out and sends it on. Process 0 starts with
// 0, and at the end the code is the counter.
const RING: &str = "\
program ring 512 00400893 00000073 00050293 00150313 00B36463 00000313 00600393 00029C63 00100893 00030513 10000593 \
00400613 00000073 00200893 10000513 00400593 00000073 10002403 00140413 10802023 00300893 10000513 00400593 00000073 \
00100893 00030513 10000593 00400613 00000073 FFF38393 FA039EE3 00000893 00040513 00000073
";

/// The ring of n processes as a cluster file, with these lines behind it.
pub fn ring(rt: &impl Abort, alloc: Global, n: u32, more: &str) -> String {
    let mut text = String::from_str(alloc, RING).expect(rt, "memory");
    for p in 0..n {
        writeln!(text, "proc p{p} ring").expect(rt, "memory");
    }
    text.push_str(more).expect(rt, "memory");
    text
}

/// Returns what a ring of n processes puts out, and how it ends.
pub fn ring_ends(rt: &impl Abort, alloc: Global, n: u32) -> String {
    let mut outs = String::new(alloc);
    let mut ends = String::new(alloc);
    for p in 0..n {
        let mut count = if p == 0 { n } else { p };
        for l in 0..6 {
            writeln!(outs, "out p{p} {l} {:08x}", count.swap_bytes()).expect(rt, "memory");
            count = count.wrapping_add(n);
        }
        let code = count.wrapping_sub(n);
        writeln!(ends, "end p{p} ended {code}").expect(rt, "memory");
    }
    outs.push_str(&ends).expect(rt, "memory");
    outs
}
