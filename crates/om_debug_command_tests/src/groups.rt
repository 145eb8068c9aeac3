//! All processes of a small record: who is there, who stops, and who leaves.

use crate::told::{check_all, symbols_in};
use om_debug_command::{DebugError, Symbols, debug_all};
use std::alloc::Global;
use std::process::Abort;

// Each process puts 1 into a0, and then adds 1 to it without end: addi a0, zero, 1; addi a0, a0, 1; jal zero, -4.
static RECORD: &str =
    "program counts 16 00100513 00150513 FFDFF06F\nproc p counts\nproc q counts\nrun 0 3\nrun 1 5\nfail 1\nrun 0 2\n";

// Threads that are not there, and what is refused of those that are; a breakpoint of q alone, which p passes; a step of p, before which
// the rest of q's run and its failure come; the end; a step of q back over its failure, and a breakpoint of p back; a wish to stop; q
// is left, and what comes to it stops nothing any more; and the end with p.
static ASKED: &str =
    "$QStartNoAckMode#b0$Hgp3.1#b1$Hgp1.2#b0$Hgp1.x#f6$Tp3.1#56$vCont;s:p3.1#f4$vCont;c:p1.-1#0f$vCont;x:p1.1#f7$qXfer:exec-file:read:1:0,100#1a$D;3#b2$D;x#f7$Hgp2.1#b0$Z0,8,4#4e$vCont;c#a8$g#67$Hgp1.1#af$g#67$Hgp2.1#b0$z0,8,4#6e$vCont;s:p1.1#f2$vCont;s:p1.1#f2$g#67$vCont;c#a8$Hcp2.1#ac$bs#d5$qRcmd,7768657265#3e$Hc0#db$Hgp1.1#af$Z0,4,4#4a$bc#c5$qRcmd,7768657265#3e$z0,4,4#6a\x03$D;2#b1$qXfer:threads:read::0,1000#92$vCont;c:p1.-1#0f$vKill;1#6e$g#67";

// By what the three instructions do: a0 and pc stand in the words of g.
static ANSWERED: &str =
    "+$OK#9a$E01#a6$E01#a6$E01#a6$E01#a6$E01#a6$E.time goes on for all processes: first say set schedule-multiple on#02$E01#a6$E01#a6$E01#a6$E01#a6$OK#9a$OK#9a$T05thread:p2.1;swbreak:;#0b$000000000000000000000000000000000000000000000000000000000000000000000000000000000200000000000000000000000000000000000000000000000000000000000000000000000000000000000000000000000000000000000000000000000000000000000000000000000000000000000000000000000000000008000000#8a$OK#9a$000000000000000000000000000000000000000000000000000000000000000000000000000000000200000000000000000000000000000000000000000000000000000000000000000000000000000000000000000000000000000000000000000000000000000000000000000000000000000000000000000000000000000004000000#86$OK#9a$OK#9a$T20thread:p2.1;#a4$T05thread:p1.1;#a6$000000000000000000000000000000000000000000000000000000000000000000000000000000000300000000000000000000000000000000000000000000000000000000000000000000000000000000000000000000000000000000000000000000000000000000000000000000000000000000000000000000000000000008000000#8b$T05thread:p1.1;replaylog:end;#21$OK#9a$T05thread:p2.1;#a7$6576656e742032206f6620343a206661696c20312c203020696e737472756374696f6e7320646f6e650a3120703a2072656164792c203320696e737472756374696f6e730a3220713a2072656164792c203520696e737472756374696f6e730a#71$OK#9a$OK#9a$OK#9a$T05thread:p1.1;swbreak:;#0a$6576656e742030206f6620343a2072756e203020332c203120696e737472756374696f6e7320646f6e650a3120703a2072656164792c203120696e737472756374696f6e730a3220713a2072656164792c203020696e737472756374696f6e730a#c5$OK#9a$T02thread:p1.1;#a3$OK#9a$l<?xml version=\"1.0\"?><threads><thread id=\"p1.1\" name=\"p\">ready</thread></threads>#2c$T05thread:p1.1;replaylog:end;#21$OK#9a";

#[test]
fn two_processes_in_one_time(rt: HostRuntime) {
    check_all(&rt, rt.alloc(), &[], RECORD, (ASKED, ANSWERED));
}

// The processes p and q run a program each that has a file, r one that has none.
static PROGRAMS: &str =
    "program a 16 00000893 00000073\nprogram b 16 00000893 00000073\nprogram c 16 00000893 00000073\nproc p a\nproc q b\nproc r c\n";

// The file of each, whole and in pieces; one that is not known, and one of a process that is not there.
static FILES_ASKED: &str =
    "$QStartNoAckMode#b0$qXfer:exec-file:read:1:0,1000#4a$qXfer:exec-file:read:2:0,3#bd$qXfer:exec-file:read:2:3,1000#4e$qXfer:exec-file:read:3:0,1000#4c$qXfer:exec-file:read:4:0,1000#4d$k#6b";

static FILES_TOLD: &str = "+$OK#9a$l./a&b.elf#17$m/x/#43$lq.elf#42$E01#a6$E01#a6$OK#9a";

#[test]
fn files_with_symbols(rt: HostRuntime) {
    let alloc = rt.alloc();
    let symbols = [
        symbols_in(&rt, alloc, "b", "/x/q.elf"),
        symbols_in(&rt, alloc, "a", "./a&b.elf"),
    ];
    check_all(&rt, alloc, &symbols, PROGRAMS, (FILES_ASKED, FILES_TOLD));
}

// A program that is there, which no process runs, and one that is not. Nothing is read or written then.
#[test]
fn files_of_no_process(rt: HostRuntime) {
    let alloc = rt.alloc();
    for program in ["a", "c"] {
        let symbols = [
            symbols_in(&rt, alloc, "b", "b.elf"),
            symbols_in(&rt, alloc, program, "a.elf"),
        ];
        check_no_process(&rt, alloc, &symbols, program);
    }
}

const OF_NO_PROCESS: &str =
    "program a 16 00000893 00000073\nprogram b 16 00000893 00000073\nproc p b\n";

fn check_no_process(rt: &impl Abort, alloc: Global, symbols: &[Symbols], program: &str) {
    let mut written = Vec::new(alloc);
    let mut packets = "$g#67".as_bytes();
    let outcome = debug_all(
        alloc,
        symbols,
        &mut OF_NO_PROCESS.as_bytes(),
        &mut packets,
        &mut written,
    );
    let is_right = written.is_empty() && packets.len() == 5;
    assert!(rt;
        outcome == Err(DebugError::NoSuchName) && is_right,
        "{program}"
    );
}

// p writes 1 to address 12, and q counts, as above, while r does nothing.
static THREE: &str =
    "program stores 16 00100513 00A02623 0000006F\nprogram counts 16 00100513 00150513 FFDFF06F\nproc p stores\nproc q counts\nproc r counts\nrun 0 2\nrun 1 3\n";

// At the end, and a step of q back; then address 12 of p is watched, and q has a breakpoint before its second instruction. A step of r back
// leads nowhere; one of p comes to q's breakpoint, which is later than what p wrote; and then one of q. Between them where all stand.
static BACK_ASKED: &str =
    "$QStartNoAckMode#b0$vCont;c#a8$Tp2.1#55$bs#d5$qRcmd,7768657265#3e$Hgp1.1#af$Z2,c,4#7b$Hgp2.1#b0$Z0,4,4#4a$Tp3.1#56$bs#d5$qRcmd,7768657265#3e$Tp1.1#54$bs#d5$qRcmd,7768657265#3e$bs#d5$qRcmd,7768657265#3e$k#6b";

// As the second implementation of tools/debug tells it.
static BACK_TOLD: &str =
    "+$OK#9a$T05thread:p1.1;replaylog:end;#21$OK#9a$T05thread:p2.1;#a7$6576656e742031206f6620323a2072756e203120332c203220696e737472756374696f6e7320646f6e650a3120703a2072656164792c203220696e737472756374696f6e730a3220713a2072656164792c203220696e737472756374696f6e730a3320723a2072656164792c203020696e737472756374696f6e730a#ea$OK#9a$OK#9a$OK#9a$OK#9a$OK#9a$T05thread:p3.1;replaylog:begin;#f1$6576656e742031206f6620323a2072756e203120332c203220696e737472756374696f6e7320646f6e650a3120703a2072656164792c203220696e737472756374696f6e730a3220713a2072656164792c203220696e737472756374696f6e730a3320723a2072656164792c203020696e737472756374696f6e730a#ea$OK#9a$T05thread:p2.1;swbreak:;#0b$6576656e742031206f6620323a2072756e203120332c203120696e737472756374696f6e7320646f6e650a3120703a2072656164792c203220696e737472756374696f6e730a3220713a2072656164792c203120696e737472756374696f6e730a3320723a2072656164792c203020696e737472756374696f6e730a#e8$T05thread:p2.1;#a7$6576656e742031206f6620323a2072756e203120332c203020696e737472756374696f6e7320646f6e650a3120703a2072656164792c203220696e737472756374696f6e730a3220713a2072656164792c203020696e737472756374696f6e730a3320723a2072656164792c203020696e737472756374696f6e730a#e6$OK#9a";

#[test]
fn a_step_back_of_one_among_three(rt: HostRuntime) {
    check_all(&rt, rt.alloc(), &[], THREE, (BACK_ASKED, BACK_TOLD));
}

// To before an event and to one that is not there, the events around, and what else the user may say.
static COMMANDS_ASKED: &str =
    "$QStartNoAckMode#b0$qRcmd,676f746f2031#f9$qRcmd,6576656e7473#d6$qRcmd,7768657265#3e$qRcmd,676f746f2037#ff$qRcmd,68656c70#fc$qRcmd,6e6f6e73656e7365#3a$k#6b";

// As the second implementation of tools/debug tells it.
static COMMANDS_TOLD: &str =
    "+$OK#9a$6576656e742031206f6620323a2072756e203120332c203020696e737472756374696f6e7320646f6e650a3120703a2072656164792c203220696e737472756374696f6e730a3220713a2072656164792c203020696e737472756374696f6e730a3320723a2072656164792c203020696e737472756374696f6e730a#e6$202020302072756e203020320a3d3e20312072756e203120330a#5e$6576656e742031206f6620323a2072756e203120332c203020696e737472756374696f6e7320646f6e650a3120703a2072656164792c203220696e737472756374696f6e730a3220713a2072656164792c203020696e737472756374696f6e730a3320723a2072656164792c203020696e737472756374696f6e730a#e6$6576656e742032206f6620320a3120703a2072656164792c203220696e737472756374696f6e730a3220713a2072656164792c203320696e737472756374696f6e730a3320723a2072656164792c203020696e737472756374696f6e730a#34$7768657265202020202020202020202020746865206576656e742c20616e6420686f77207468652070726f63657373207374616e64730a6576656e74732020202020202020202020746865206576656e74732061726f756e6420686572650a676f746f204556454e5420202020202020676f20746f206265666f726520616e206576656e743b207468656e3a206d61696e74656e616e636520666c7573682072656769737465722d63616368650a68656c7020202020202020202020202020746869730a#7e$7768657265202020202020202020202020746865206576656e742c20616e6420686f77207468652070726f63657373207374616e64730a6576656e74732020202020202020202020746865206576656e74732061726f756e6420686572650a676f746f204556454e5420202020202020676f20746f206265666f726520616e206576656e743b207468656e3a206d61696e74656e616e636520666c7573682072656769737465722d63616368650a68656c7020202020202020202020202020746869730a#7e$OK#9a";

#[test]
fn commands_of_the_user(rt: HostRuntime) {
    check_all(&rt, rt.alloc(), &[], THREE, (COMMANDS_ASKED, COMMANDS_TOLD));
}
