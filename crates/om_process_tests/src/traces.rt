//! Traces, as a stepper of its own writes them, by the tables of the RISC-V manual.

use om_interval::Pid;
use om_isa::Ext;
use om_look::{Traced, trace};
use om_process::{ProcCore, Status};
use om_stable::MemStable;
use std::alloc::Global;
use std::process::Abort;

static PROGRAM: [u32; 21] = [
    0x00400893, 0x00000073, 0x06b02023, 0x06b01223, 0x06b00323, 0x00100013, 0x008000ef, 0x00100073,
    0x00300893, 0x06000513, 0x00000593, 0x00000073, 0x00100893, 0x00900513, 0x00400613, 0x00000073,
    0x00100513, 0x06000593, 0x00000073, 0x06002283, 0x00100073,
];

const FIRST: &str = "\
0 00000000 00400893 addi x17, x0, 4; x17 = 00000004
1 00000004 00000073 ecall; x10 = 00000001; x11 = 00000003
2 00000008 06b02023 sw x11, 96(x0); 00000060 03000000
3 0000000c 06b01223 sh x11, 100(x0); 00000064 0300
4 00000010 06b00323 sb x11, 102(x0); 00000066 03
5 00000014 00100013 addi x0, x0, 1
6 00000018 008000ef jal x1, 8; x1 = 0000001c
";

const REST: &str = "\
7 00000020 00300893 addi x17, x0, 3; x17 = 00000003
8 00000024 06000513 addi x10, x0, 96; x10 = 00000060
9 00000028 00000593 addi x11, x0, 0; x11 = 00000000
10 0000002c 00000073 ecall; x10 = 00000000
out 0 -
11 00000030 00100893 addi x17, x0, 1; x17 = 00000001
12 00000034 00900513 addi x10, x0, 9; x10 = 00000009
13 00000038 00400613 addi x12, x0, 4; x12 = 00000004
14 0000003c 00000073 ecall; x10 = ffffffff
15 00000040 00100513 addi x10, x0, 1; x10 = 00000001
16 00000044 06000593 addi x11, x0, 96; x11 = 00000060
17 00000048 00000073 ecall; x10 = 00000000
send 1 0 03000000
18 0000004c 06002283 lw x5, 96(x0); x5 = 00000003
";

// Process 1 of 3 at its start.
fn started(rt: &impl Abort, alloc: Global) -> ProcCore {
    let mut image = Vec::new(alloc);
    for word in &PROGRAM {
        image
            .extend_from_slice(&word.to_le_bytes())
            .expect(rt, "memory");
    }
    let mut store = MemStable::new(alloc);
    let core = ProcCore::start(alloc, &image, 128, Ext::I, Pid::at(1), 3, &mut store);
    core.expect(rt, "a process")
}

// So many instructions have these lines and this end.
fn check(
    rt: &impl Abort,
    alloc: Global,
    core: &mut ProcCore,
    fuel: u64,
    lines: &str,
    (steps, ready): (u64, bool),
) {
    let mut text = Vec::new(alloc);
    let traced: Traced = trace(alloc, core, fuel, &mut text).expect(rt, "memory");
    assert_eq!(rt; text.as_slice(), lines.as_bytes());
    assert_eq!(rt;
        (traced.steps, traced.status == Status::Ready),
        (steps, ready)
    );
}

#[test]
fn lines_of_instructions_and_calls(rt: HostRuntime) {
    let mut core = started(&rt, rt.alloc());
    check(&rt, rt.alloc(), &mut core, 0, "", (0, true));
    check(&rt, rt.alloc(), &mut core, 7, FIRST, (7, true));
    // At the end it traps, and there is no line more.
    check(&rt, rt.alloc(), &mut core, 100, REST, (12, false));
    check(&rt, rt.alloc(), &mut core, 100, "", (0, false));
    drop(core);
}
