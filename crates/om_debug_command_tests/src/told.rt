//! Processes of a record, and what is asked about them.

use om_debug_command::{Symbols, debug, debug_all};
use std::alloc::Global;
use std::process::Abort;

// What is written to one who asks these packets about a process of a record.
pub(crate) fn check_told(
    rt: &impl Abort,
    alloc: Global,
    record: &str,
    process: &str,
    (asked, wanted): (&str, &str),
) {
    let written = told(rt, alloc, record, process, asked);
    assert_eq!(rt; written.as_slice(), wanted.as_bytes());
}

fn told(rt: &impl Abort, alloc: Global, record: &str, process: &str, asked: &str) -> Vec<u8> {
    let mut written = Vec::new(alloc);
    let done = debug(
        alloc,
        process,
        &mut record.as_bytes(),
        &mut asked.as_bytes(),
        &mut written,
    );
    assert!(rt; done.is_ok());
    written
}

// What is written to one who asks these packets about all processes of a record, with these files for its programs.
pub(crate) fn check_all(
    rt: &impl Abort,
    alloc: Global,
    symbols: &[Symbols],
    record: &str,
    (asked, wanted): (&str, &str),
) {
    let written = told_of_all(rt, alloc, symbols, record, asked);
    assert_eq!(rt; written.as_slice(), wanted.as_bytes());
}

fn told_of_all(
    rt: &impl Abort,
    alloc: Global,
    symbols: &[Symbols],
    record: &str,
    asked: &str,
) -> Vec<u8> {
    let mut written = Vec::new(alloc);
    let done = debug_all(
        alloc,
        symbols,
        &mut record.as_bytes(),
        &mut asked.as_bytes(),
        &mut written,
    );
    assert!(rt; done.is_ok());
    written
}

// Returns a file with the symbols of a program.
pub(crate) fn symbols_in(rt: &impl Abort, alloc: Global, program: &str, file: &str) -> Symbols {
    Symbols {
        program: String::from_str(alloc, program).expect(rt, "memory"),
        file: String::from_str(alloc, file).expect(rt, "memory"),
    }
}
