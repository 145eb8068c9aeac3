//! What is said of processes where turns ran out, of those that trapped, of sends that were refused, and of kills that did not
//! come.

use om_commands::read_input;
use om_interval::Pid;
use om_machine::Cause;
use om_process::Status;
use om_run_commands::{
    ClusterScript, has_kills_left, kills_left_text, refused_sends_text, trapped_text, waiting_text,
};
use om_runner::{Doing, Sight};
use std::alloc::Global;
use std::process::Abort;

const FILE: &str = "program w 16 00200893\nproc a w\nproc b w\nproc c w\nproc d w\nproc e w\n";

fn sight(doing: Doing, interval: u32) -> Sight {
    let mut sight = Sight::new();
    sight.doing = doing;
    sight.interval = interval;
    sight
}

// A cluster file.
fn script_of(rt: &impl Abort, alloc: Global, file: &str) -> ClusterScript {
    read_input(
        alloc,
        &mut file.as_bytes(),
        ClusterScript::new(alloc, false),
    )
    .ok()
    .expect(rt, "a cluster file")
}

// Returns what is said of these sights of the processes of FILE.
fn said(rt: &impl Abort, alloc: Global, sights: &[Sight]) -> String {
    let script = script_of(rt, alloc, FILE);
    let text = waiting_text(alloc, &script, sights).expect(rt, "memory");
    drop(script);
    text
}

#[test]
fn those_that_have_not_ended_are_named(rt: HostRuntime) {
    let sights = [
        sight(Doing::Up(Status::Waiting), 3),
        sight(Doing::Up(Status::Ended(0)), 9),
        sight(Doing::Down, 2),
        sight(Doing::Begins, 0),
        sight(Doing::Up(Status::Ready), 4_294_967_295),
    ];
    let text = said(&rt, rt.alloc(), &sights);
    assert_eq!(rt;
        text.as_str(),
        "a: waits for a message, interval 3\nc: is down and waits for a round of recovery, interval 2\n\
d: is not started, interval 0\ne: runs, interval 4294967295\n"
    );
}

// There may be more sights than processes.
#[test]
fn sights_of_no_process_are_passed_over(rt: HostRuntime) {
    let sights = [sight(Doing::Up(Status::Ended(0)), 1); 16];
    assert_eq!(&rt; said(&rt, rt.alloc(), &sights).as_str(), "");
    let sights = [sight(Doing::Down, 1); 16];
    assert_eq!(&rt; said(&rt, rt.alloc(), &sights).lines().count(), 5);
}

fn trap(cause: Cause, pc: u32) -> Sight {
    let mut sight = Sight::new();
    sight.doing = Doing::Up(Status::Trapped(cause));
    sight.pc = pc;
    sight
}

#[test]
fn those_that_trapped_are_named(rt: HostRuntime) {
    let sights = [
        trap(Cause::Illegal, 0x44),
        sight(Doing::Up(Status::Ended(0)), 9),
        trap(Cause::DataOutside, 0xFFFF_FFFC),
        sight(Doing::Up(Status::Waiting), 1),
        trap(Cause::CountFull, 0),
    ];
    let script = script_of(&rt, rt.alloc(), FILE);
    let text = trapped_text(rt.alloc(), &script, &sights).expect(&rt, "memory");
    drop(script);
    assert_eq!(rt;
        text.as_str(),
        "a: trapped 1, no instruction has the word at pc, at 00000044\n\
c: trapped 6, a load or a store outside memory, at fffffffc\ne: trapped 9, 2^64 - 1 instructions, at 00000000\n"
    );
}

// A line for each process of which sends were refused, also of one that did not trap, and none for the others.
#[test]
fn refused_sends_are_told(rt: HostRuntime) {
    let mut sights = [
        trap(Cause::Break, 0),
        sight(Doing::Up(Status::Ended(0)), 9),
        sight(Doing::Up(Status::Ended(1)), 2),
    ];
    sights[0].refused = u64::MAX;
    sights[2].refused = 1;
    let script = script_of(&rt, rt.alloc(), FILE);
    let text = refused_sends_text(rt.alloc(), &script, &sights).expect(&rt, "memory");
    drop(script);
    let wanted = "a: refused sends: 18446744073709551615\nc: refused sends: 1\n";
    assert_eq!(&rt; text.as_str(), wanted);
}

// Kills of the processes of FILE, of which two are alike.
const KILLS: &str = "kill c 3\nkill a 1\nkill c 3\nkill c 4\nkill b 0\n";

// Returns what is said of the kills where these processes failed, each in the interval.
fn said_of_kills(rt: &impl Abort, alloc: Global, failures: &[(u32, u32)]) -> String {
    let file = format!(in alloc; "{FILE}{KILLS}").expect(rt, "memory");
    let script = script_of(rt, alloc, &file);
    let mut came = Vec::new(alloc);
    for (p, interval) in failures {
        let failure = (Pid::new(*p).expect(rt, "a process"), *interval);
        came.push(failure).expect(rt, "memory");
    }
    let text = kills_left_text(alloc, &script, &came).expect(rt, "memory");
    let are_left = has_kills_left(script.kills(), &came);
    drop(script);
    assert!(rt; are_left == !text.is_empty());
    text
}

fn assert_left(rt: &impl Abort, alloc: Global, failures: &[(u32, u32)], wanted: &str) {
    let text = said_of_kills(rt, alloc, failures);
    assert_eq!(rt; text.as_str(), wanted);
}

#[test]
fn kills_that_did_not_come_are_named(rt: HostRuntime) {
    let alloc = rt.alloc();
    let all =
        "kill c 3: did not come\nkill a 1: did not come\nkill c 3: did not come\nkill c 4: did not come\n\
kill b 0: did not come\n";
    assert_left(&rt, alloc, &[], all);
    let of_two_alike = "kill c 3: did not come\nkill b 0: did not come\n";
    assert_left(&rt, alloc, &[(0, 1), (2, 4), (2, 3)], of_two_alike);
    assert_left(&rt, alloc, &[(2, 3), (1, 0), (2, 3), (0, 1), (2, 4)], "");
    assert_left(
        &rt,
        alloc,
        &[(2, 3), (2, 3), (0, 1), (2, 4), (2, 0)],
        "kill b 0: did not come\n",
    );
}
