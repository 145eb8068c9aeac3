//! What gdb sent in whole sessions, and what it is answered.

use crate::told::{check_all, check_told};
use crate::{bank_session as bank, group_session as group, trap_session as trap};

#[test]
fn to_a_trap_and_back(rt: HostRuntime) {
    check_told(
        &rt,
        rt.alloc(),
        trap::RECORD,
        trap::PROCESS,
        (trap::SENT, trap::TOLD),
    );
}

#[test]
fn over_failures_to_the_end_and_back(rt: HostRuntime) {
    check_told(
        &rt,
        rt.alloc(),
        bank::RECORD,
        bank::PROCESS,
        (bank::SENT, bank::TOLD),
    );
}

#[test]
fn all_processes_forward_and_back(rt: HostRuntime) {
    check_all(
        &rt,
        rt.alloc(),
        &[],
        group::RECORD,
        (group::SENT, group::TOLD),
    );
}
