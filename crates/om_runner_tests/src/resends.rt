use crate::waiting::{ENDS, cluster};
use crate::watching::seen;
use om_runner::RunFault;
use std::process::Abort;

// Process 0 sends 1,000 messages to process 1, receives one from process 2, and sends one more. Process 2 counts down from
// 16,777,216 before. All end.
const WAITS_WITH_ALL_SENT: [u32; 43] = [
    0x00400893, 0x00000073, 0x00100293, 0x04550A63, 0x00200293, 0x06550663, 0x3E800313, 0x00100893,
    0x00100513, 0x10000593, 0x00400613, 0x00000073, 0xFFF30313, 0xFE0314E3, 0x00200893, 0x10000513,
    0x00400593, 0x00000073, 0x00100893, 0x00100513, 0x10000593, 0x00400613, 0x00000073, 0x0440006F,
    0x3E900313, 0x00200893, 0x10000513, 0x00400593, 0x00000073, 0xFFF30313, 0xFE0316E3, 0x0240006F,
    0x010002B7, 0xFFF28293, 0xFE029EE3, 0x00100893, 0x00000513, 0x10000593, 0x00400613, 0x00000073,
    0x00000893, 0x00000513, 0x00000073,
];

// Nothing is trimmed, so each resend has the 1,000 messages, all of which were received: were they put anew each time, the sleeps
// of a tenth of a second, each twice as long as the one before, would bring thousands.
#[test]
fn what_was_received_is_not_put_again(rt: HostRuntime) {
    let words = (3, WAITS_WITH_ALL_SENT.as_slice());
    let mut config = cluster(&rt, rt.alloc(), words, &[], 50_000_000);
    config.flush = 0;
    config.fuel = 100_000;
    let (fault, sights) = seen(&rt, rt.alloc(), &config);
    drop(config);
    assert!(&rt; fault.is_none(), "{fault:?}");
    assert!(&rt; sights.len() == 3);
    assert!(&rt;
        1_001 <= sights[0].put && sights[0].put < 2_000,
        "{sights:?}"
    );
    assert!(&rt; sights[1].interval == 1_001, "{sights:?}");
}

// Process 0 has ended, and drops what process 1 sends it. So process 1, which waits, sends that once more when it has rested.
#[test]
fn what_was_not_received_is_put_again(rt: HostRuntime) {
    let config = cluster(&rt, rt.alloc(), (2, &ENDS), &[], u64::MAX);
    let (fault, sights) = seen(&rt, rt.alloc(), &config);
    drop(config);
    assert!(&rt; matches!(fault, Some(RunFault::Turns(_))), "{fault:?}");
    assert!(&rt; sights.len() == 2);
    assert!(&rt; 2 <= sights[1].put, "{sights:?}");
}
