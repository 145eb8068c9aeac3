//! What is told of each fault, for people.

use om_commands::CommandError;
use om_isa::Ext;
use om_machine::Cause;
use om_observers::{Doing, Sight};
use om_process::Status;
use om_reasons::{advice_on, ends_text, form_of, rule_of};
use om_scripts::Programs;
use om_text::{LineError, ScriptError};

// The faults of lines, and the rules that they break.
static RULES: [(LineError, &str); 11] = [
    (LineError::UnknownLine, "no line begins with this word"),
    (
        LineError::WrongCount,
        "a line of this kind has another count of words",
    ),
    (
        LineError::BadNumber,
        "a number is digits alone, and within what its line takes",
    ),
    (LineError::BadWord, "a word is eight hexadecimal digits"),
    (
        LineError::BadName,
        "a name is 1 to 32 letters, digits and _",
    ),
    (LineError::NameTaken, "a line above gave this name"),
    (
        LineError::NoSuchName,
        "no line above gave a name that stands here",
    ),
    (
        LineError::OutOfPlace,
        "programs and processes stand above all other lines, and procs, once, above all notes",
    ),
    (
        LineError::TooMany,
        "there are more of these than the 16 processes or 64 kills that may be",
    ),
    (LineError::BadSize, "a size is 4 to 65536, a multiple of 4"),
    (
        LineError::ImageTooLong,
        "the words take more bytes than the size",
    ),
];

#[test]
fn rules_of_lines(rt: HostRuntime) {
    for (error, rule) in &RULES {
        assert_eq!(&rt; rule_of(*error), *rule, "{error}");
    }
}

// All other faults, and what may be done about them.
static ADVICE: [(CommandError, Option<&str>); 19] = [
    (
        CommandError::TooLong,
        Some("an input has at most 16777216 bytes"),
    ),
    (
        CommandError::EmptyScript,
        Some("the input names no process"),
    ),
    (
        CommandError::NoCheckpoint,
        Some("omlog show FILE says which intervals can be replayed"),
    ),
    (
        CommandError::MissingReceipt(1),
        Some("omlog show FILE says which intervals can be replayed"),
    ),
    (
        CommandError::Damaged(1),
        Some("the store was changed behind its run, or is of another process"),
    ),
    (
        CommandError::Mismatch(1),
        Some("the store was changed behind its run, or is of another process"),
    ),
    (
        CommandError::OutOfTurns,
        Some(
            "waits: a message that it needs never comes; runs: it needs more turns (--turns) or more instructions in each (the line fuel)",
        ),
    ),
    (
        CommandError::NoThread,
        Some("each process runs in a thread of its own"),
    ),
    (
        CommandError::NoMemory,
        Some(
            "the program may have no more memory: another limit (ulimit -v), or fewer and smaller processes",
        ),
    ),
    (
        CommandError::CannotWrite,
        Some("standard output cannot be written: is its disk full, or is it closed?"),
    ),
    (
        CommandError::CannotRead,
        Some("standard input cannot be read"),
    ),
    (
        CommandError::Unlike,
        Some(
            "the threads did not do what their programs say: a fault of the machine, or of omlog; the run can be tried again, with --record to see what they did",
        ),
    ),
    (
        CommandError::NoSuchProcess,
        Some("the name behind --raw or --process stands in no line proc of the input"),
    ),
    (
        CommandError::StoreFault,
        Some(
            "a store failed as it was used (is its disk full?), or no process could be replayed from it: omlog show FILE says what of it is damaged",
        ),
    ),
    (CommandError::StoreInUse(1), None),
    (CommandError::AnotherCluster(1), None),
    (CommandError::StoreMissing(1), None),
    (CommandError::Script(LINE), None),
    (CommandError::GateShut, None),
];

const LINE: ScriptError = ScriptError {
    line: 1,
    error: LineError::BadWord,
};

#[test]
fn advice_on_faults(rt: HostRuntime) {
    for (error, advice) in &ADVICE {
        assert_eq!(&rt; advice_on(*error), *advice, "{error}");
    }
}

// The first words of lines, and how such lines are written: all that a script, a cluster file or a record script may have.
static FORMS: [(&str, Option<&str>); 23] = [
    (
        "program",
        Some("program NAME SIZE WORD .., each WORD of eight hexadecimal digits"),
    ),
    (
        "program-m",
        Some("program-m NAME SIZE WORD .., each WORD of eight hexadecimal digits"),
    ),
    ("proc", Some("proc NAME PROGRAM")),
    ("kill", Some("kill NAME INTERVAL, for run")),
    (
        "flush",
        Some("flush K, of 1 or more, for run; flush P or flush P K for sim"),
    ),
    (
        "checkpoint",
        Some("checkpoint K, of 1 or more, for run; checkpoint P for sim"),
    ),
    ("spell", Some("spell P, for sim")),
    ("fuel", Some("fuel K, of 1 or more, for run")),
    ("run", Some("run P K, for sim")),
    ("give", Some("give P F, for sim")),
    ("fail", Some("fail P, for sim")),
    ("join", Some("join P, for sim")),
    ("resume", Some("resume P, for sim")),
    ("resend", Some("resend P, for sim")),
    ("trim", Some("trim P, for sim")),
    ("prune", Some("prune, for sim")),
    ("restart", Some("restart, for sim")),
    ("procs", Some("procs N, of 1 to 16, for frontier")),
    (
        "log",
        Some("log P X V0 .., as many V as there are processes, for frontier"),
    ),
    (
        "ckpt",
        Some("ckpt P X V0 .., as many V as there are processes, for frontier"),
    ),
    ("kills", None),
    ("Kill", None),
    ("", None),
];

#[test]
fn forms_of_lines(rt: HostRuntime) {
    for (word, form) in &FORMS {
        assert_eq!(&rt; form_of(word), *form, "{word}");
    }
}

fn sight(doing: Doing) -> Sight {
    let mut sight = Sight::new();
    sight.doing = doing;
    sight
}

// A line for each process that has ended, also where more are seen than there are, and none for the others.
#[test]
fn those_that_have_ended_are_named(rt: HostRuntime) {
    let mut programs = Programs::new(rt.alloc());
    let words = [b"w".as_slice(), b"16"];
    let added = programs.add_program(rt.alloc(), Ext::I, &words);
    assert_eq!(&rt; added, Ok(()));
    for name in [b"a".as_slice(), b"b", b"c", b"d"] {
        let added = programs.add_process(rt.alloc(), &[name, b"w"]);
        assert_eq!(&rt; added, Ok(()));
    }
    let sights = [
        sight(Doing::Up(Status::Ended(4_294_967_295))),
        sight(Doing::Up(Status::Trapped(Cause::Break))),
        sight(Doing::Up(Status::Waiting)),
        sight(Doing::Up(Status::Ended(0))),
        sight(Doing::Begins),
    ];
    let text = ends_text(rt.alloc(), &programs, &sights).expect(&rt, "memory");
    assert_eq!(&rt; text.as_str(), "a: ended 4294967295\nd: ended 0\n");
}
