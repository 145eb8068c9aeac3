use Kind::{Process, Program};
use om_isa::Ext;
use om_scripts::{Programs, laws};
use om_text::{BuildError, LineError};
use std::alloc::Global;
use std::process::Abort;

#[derive(Clone, Copy)]
enum Kind {
    Program,
    Process,
}

// A line by the words behind its first, and its answer.
type Row = (Kind, &'static str, Result<(), LineError>);

// Hands in each line, and compares the answer.
fn check_lines(rt: &impl Abort, alloc: Global, programs: &mut Programs, rows: &[Row]) {
    for (kind, words, want) in rows {
        let words = split(rt, alloc, words);
        let told = match kind {
            Program => programs.add_program(alloc, Ext::I, &words),
            Process => programs.add_process(alloc, &words),
        };
        assert_eq!(rt; told, want.map_err(BuildError::Invalid), "{words:?}");
    }
}

// Returns what stands between spaces. At the begin of a text that begins with one, that is the empty word.
fn split<'a>(rt: &impl Abort, alloc: Global, text: &'a str) -> Vec<&'a [u8]> {
    let mut words = Vec::new(alloc);
    for word in text.as_bytes().split(|byte| *byte == b' ') {
        words.push(word).expect(rt, "memory");
    }
    words
}

static PROGRAMS: [Row; 14] = [
    (Program, "a", Err(LineError::WrongCount)),
    (Program, "a-b x 13", Err(LineError::BadNumber)),
    (Program, "a-b 4 13", Err(LineError::BadWord)),
    (Program, "a-b 4", Err(LineError::BadName)),
    (Program, "a 6", Err(LineError::BadSize)),
    (
        Program,
        "a 4 00000013 00000013",
        Err(LineError::ImageTooLong),
    ),
    (Program, "a 0", Err(LineError::BadSize)),
    (Program, "a 65540", Err(LineError::BadSize)),
    (Program, "a 4 00500093", Ok(())),
    (Program, "a 6", Err(LineError::NameTaken)),
    (Program, "B_9 65536", Ok(())),
    (Program, "aaaaaaaaaabbbbbbbbbbccccccccccdd 4", Ok(())),
    (
        Program,
        "aaaaaaaaaabbbbbbbbbbccccccccccddd 4",
        Err(LineError::BadName),
    ),
    (Program, " 4", Err(LineError::BadName)),
];

#[test]
fn lines_of_programs_are_taken_or_refused(rt: HostRuntime) {
    let mut programs = Programs::new(rt.alloc());
    check_lines(&rt, rt.alloc(), &mut programs, &PROGRAMS);
    let image = programs.image(0).expect(&rt, "a program");
    assert_eq!(rt;
        (
            image.size,
            image.ext,
            image.bytes.as_slice(),
            programs.image(3).is_none()
        ),
        (4, Ext::I, [0x93, 0, 0x50, 0].as_slice(), true)
    );
}

static PROCESSES: [Row; 7] = [
    (Program, "a 4", Ok(())),
    (Process, "x a a", Err(LineError::WrongCount)),
    (Process, "x a-b", Err(LineError::BadName)),
    (Process, "x nosuch", Err(LineError::NoSuchName)),
    (Process, "x a", Ok(())),
    (Process, "x nosuch", Err(LineError::NameTaken)),
    (Process, "a a", Ok(())),
];

// Lines behind the programs and the processes.
static LATE: [Row; 2] = [
    (Program, "b 6", Err(LineError::OutOfPlace)),
    (Process, "b a", Err(LineError::OutOfPlace)),
];

#[test]
fn lines_of_processes_are_taken_or_refused(rt: HostRuntime) {
    let mut programs = Programs::new(rt.alloc());
    check_lines(&rt, rt.alloc(), &mut programs, &PROCESSES);
    assert_eq!(rt;
        (
            programs.n(),
            programs.place("a"),
            programs.place("b"),
            programs.name(0),
            programs.name(2)
        ),
        (2, Some(1), None, Some("x"), None)
    );
    programs.close();
    check_lines(&rt, rt.alloc(), &mut programs, &LATE);
    laws::limits();
}

static SEVENTEEN: [Row; 18] = [
    (Program, "a 4", Ok(())),
    (Process, "a a", Ok(())),
    (Process, "b a", Ok(())),
    (Process, "c a", Ok(())),
    (Process, "d a", Ok(())),
    (Process, "e a", Ok(())),
    (Process, "f a", Ok(())),
    (Process, "g a", Ok(())),
    (Process, "h a", Ok(())),
    (Process, "i a", Ok(())),
    (Process, "j a", Ok(())),
    (Process, "k a", Ok(())),
    (Process, "l a", Ok(())),
    (Process, "m a", Ok(())),
    (Process, "n a", Ok(())),
    (Process, "o a", Ok(())),
    (Process, "p a", Ok(())),
    (Process, "q a", Err(LineError::TooMany)),
];

#[test]
fn sixteen_processes_are_a_cluster(rt: HostRuntime) {
    let mut programs = Programs::new(rt.alloc());
    check_lines(&rt, rt.alloc(), &mut programs, &SEVENTEEN);
}
