//! Messages to a process that has ended.

use crate::clusters::{Always, run, unstopped};
use crate::waiting::cluster;
use om_runner::Config;
use om_stable::Stable;
use std::alloc::Global;
use std::process::Abort;
use std::sync::Wait;
use std::sync::atomic::AtomicBool;
use std::thread::Threads;
use std::time::Clock;

// Process 2 ends at once. The others send 4 bytes to each other in turn, 2,000 times, and process 0 each time to process 2 too. Then
// they end.
const SENDS_TO_ENDED: [u32; 34] = [
    0x00400893, 0x00000073, 0x00200293, 0x06550863, 0x7D000313, 0x02051E63, 0x00100893, 0x00100513,
    0x10000593, 0x00400613, 0x00000073, 0x00200513, 0x00000073, 0x00200893, 0x10000513, 0x00400593,
    0x00000073, 0xFFF30313, 0xFC0318E3, 0x0300006F, 0x00200893, 0x10000513, 0x00400593, 0x00000073,
    0x00100893, 0x00000513, 0x10000593, 0x00400613, 0x00000073, 0xFFF30313, 0xFC031CE3, 0x00000893,
    0x00000513, 0x00000073,
];

// Returns how many bytes the newest checkpoint of a process has, if there is one.
fn newest_of<R: Threads + Wait + Clock + Abort + Sync>(
    rt: &R,
    alloc: Global,
    config: &Config,
    p: usize,
) -> Option<usize> {
    let set = AtomicBool::new(true);
    let told = run(rt, alloc, config, &Always(true), &unstopped(&set));
    let (report, mut stores) = told.expect(rt, "a report");
    drop(report);
    let store = stores.get_mut(p).expect(rt, "a store");
    let newest = store.effective(alloc, u32::MAX).expect(rt, "a checkpoint");
    drop(stores);
    newest.map(|(_, bytes)| bytes.len())
}

// A checkpoint has 10 bytes for each message of 4 that is kept: so 20,000 for those to process 2, were they kept.
#[test]
fn what_is_never_taken_is_not_kept(rt: HostRuntime) {
    let words = (3, SENDS_TO_ENDED.as_slice());
    let mut config = cluster(&rt, rt.alloc(), words, &[], 50_000_000);
    config.checkpoint = 16;
    config.fuel = 1_000;
    let bytes = newest_of(&rt, rt.alloc(), &config, 0);
    drop(config);
    assert!(&rt; matches!(bytes, Some(count) if count < 10_000), "{bytes:?}");
}
