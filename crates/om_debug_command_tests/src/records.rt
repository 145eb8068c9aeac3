//! Records that are opened, and those that are refused.

use crate::told::check_told;
use om_commands::CommandError;
use om_debug_command::debug;
use om_text::{LineError, ScriptError};

// The process q puts 1 into a0, and then adds 1 to it without end; p ends at once.
static RECORD: &str =
    "program ends 16 00000893 00000073\nprogram counts 16 00100513 00150513 FFDFF06F\nproc p ends\nproc q counts\nrun 0 9\nrun 1 5\n";

// To the end of the record, and what a0 is there; then the command where, and the end.
static ASKED: &str = "$QStartNoAckMode#b0$vCont;c#a8$p#70$qRcmd,7768657265#3e$D#44$g#67";

// Behind five instructions a0 is 3, and pc 4: the first puts 1 there, and the second and the fourth add 1.
static ANSWERED: &str =
    "+$OK#9a$T05thread:1;replaylog:end;#52$#00$6576656e742032206f6620320a713a2072656164792c203520696e737472756374696f6e730a#2f$OK#9a";

#[test]
fn a_process_of_two(rt: HostRuntime) {
    check_told(&rt, rt.alloc(), RECORD, "q", (ASKED, ANSWERED));
}

// Records, the name that is asked for, and the refusal: the faults are those of sim, and come before the name is looked up.
static REFUSED: [(&str, &str, CommandError); 5] = [
    (RECORD_WITHOUT_R, "r", CommandError::NoSuchProcess),
    ("", "p", CommandError::EmptyScript),
    (
        "run x 9\n",
        "p",
        CommandError::Script(ScriptError {
            line: 1,
            error: LineError::BadNumber,
        }),
    ),
    (
        "program ends 16 00000893\nproc p ends\nrunn 0\n",
        "r",
        CommandError::Script(ScriptError {
            line: 3,
            error: LineError::UnknownLine,
        }),
    ),
    ("program ends 16 00000893\n", "p", CommandError::EmptyScript),
];

const RECORD_WITHOUT_R: &str = "program ends 16 00000893 00000073\nproc p ends\nproc q ends\n";

// No packet is read or answered then.
#[test]
fn refused_records(rt: HostRuntime) {
    let alloc = rt.alloc();
    for (record, process, wanted) in REFUSED.iter() {
        let mut written = Vec::new(alloc);
        let mut packets = "$g#67".as_bytes();
        let outcome = debug(
            alloc,
            process,
            &mut record.as_bytes(),
            &mut packets,
            &mut written,
        );
        assert!(&rt; outcome == Err(*wanted), "{record}");
        assert!(&rt; written.is_empty() && packets.len() == 5, "{record}");
    }
}
