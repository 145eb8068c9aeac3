//! What is told where words ask for nothing, and where a command is refused.

use crate::screen::Screen;
use om_arguments::{end, end_unasked, end_unread, parse};
use std::alloc::Global;
use std::io;
use std::process::{Abort, ExitCode};

// Words that are mistaken, and all that is told of them.
static MISTAKES: [(&[&str], &str); 28] = [
    (
        &["omlog", "replay", "s0.db", "x"],
        "error: invalid value 'x' for '<INTERVAL>': it is no number of 32 bits\n\nUsage: omlog replay [OPTIONS] <FILE> <INTERVAL>\n\nFor more information, try '--help'.\n",
    ),
    (
        &["omlog", "replay", "s0.db", "4294967296"],
        "error: invalid value '4294967296' for '<INTERVAL>': it is no number of 32 bits\n\nUsage: omlog replay [OPTIONS] <FILE> <INTERVAL>\n\nFor more information, try '--help'.\n",
    ),
    (
        &[
            "omlog",
            "replay",
            "s0.db",
            "1",
            "--steps",
            "18446744073709551616",
        ],
        "error: invalid value '18446744073709551616' for '--steps <K>': it is no number of 64 bits\n\nUsage: omlog replay [OPTIONS] <FILE> <INTERVAL>\n\nFor more information, try '--help'.\n",
    ),
    (
        &["omlog", "run", "--turns", "1.5"],
        "error: invalid value '1.5' for '--turns <K>': it is no number of 64 bits\n\nUsage: omlog run [OPTIONS] [FILE]\n\nFor more information, try '--help'.\n",
    ),
    (
        &["omlog", "draw", "--from", "+1"],
        "error: invalid value '+1' for '--from <LINE>': it is no number of 32 bits\n\nUsage: omlog draw [OPTIONS] [FILE]\n\nFor more information, try '--help'.\n",
    ),
    (
        &["omlog", "draw", "--to", ""],
        "error: invalid value '' for '--to <LINE>': it is no number of 32 bits\n\nUsage: omlog draw [OPTIONS] [FILE]\n\nFor more information, try '--help'.\n",
    ),
    (
        &["omlog", "sim", "a", "b"],
        "error: unexpected argument 'b' found\n\nUsage: omlog sim [OPTIONS] [FILE]\n\nFor more information, try '--help'.\n",
    ),
    (
        &["omlog", "debug"],
        "error: the following required arguments were not provided:\n  <RECORD>\n\nUsage: omlog debug [OPTIONS] <RECORD>\n       omlog debug [OPTIONS] --store <FILE> [INTERVAL]\n\nFor more information, try '--help'.\n",
    ),
    (
        &["omlog", "debug", "--process", "p"],
        "error: the following required arguments were not provided:\n  <RECORD>\n\nUsage: omlog debug [OPTIONS] <RECORD>\n       omlog debug [OPTIONS] --store <FILE> [INTERVAL]\n\nFor more information, try '--help'.\n",
    ),
    (
        &["omlog", "debug", "--process", "p", "-"],
        "error: invalid value '-' for '<RECORD>': packets come over standard input, and a file is needed; ./- is one of this name\n\nUsage: omlog debug [OPTIONS] <RECORD>\n       omlog debug [OPTIONS] --store <FILE> [INTERVAL]\n\nFor more information, try '--help'.\n",
    ),
    (
        &["omlog", "debug", "--elf", "q", "r"],
        "error: invalid value 'q' for '--elf <PROGRAM=FILE>': it is no program and a file with = between them\n\nUsage: omlog debug [OPTIONS] <RECORD>\n       omlog debug [OPTIONS] --store <FILE> [INTERVAL]\n\nFor more information, try '--help'.\n",
    ),
    (
        &["omlog", "debug", "--elf", "=q.elf", "r"],
        "error: invalid value '=q.elf' for '--elf <PROGRAM=FILE>': it is no program and a file with = between them\n\nUsage: omlog debug [OPTIONS] <RECORD>\n       omlog debug [OPTIONS] --store <FILE> [INTERVAL]\n\nFor more information, try '--help'.\n",
    ),
    (
        &["omlog", "debug", "--elf=q=", "r"],
        "error: invalid value 'q=' for '--elf <PROGRAM=FILE>': it is no program and a file with = between them\n\nUsage: omlog debug [OPTIONS] <RECORD>\n       omlog debug [OPTIONS] --store <FILE> [INTERVAL]\n\nFor more information, try '--help'.\n",
    ),
    (
        &["omlog", "debug", "--elf", "q=a", "--elf", "q=a", "r"],
        "error: invalid value 'q=a' for '--elf <PROGRAM=FILE>': its program has a file already\n\nUsage: omlog debug [OPTIONS] <RECORD>\n       omlog debug [OPTIONS] --store <FILE> [INTERVAL]\n\nFor more information, try '--help'.\n",
    ),
    (
        &["omlog", "debug", "--elf", "q=a", "--process", "p", "r"],
        "error: the argument '--elf <PROGRAM=FILE>' cannot be used with '--process <NAME>'\n\nUsage: omlog debug [OPTIONS] <RECORD>\n       omlog debug [OPTIONS] --store <FILE> [INTERVAL]\n\nFor more information, try '--help'.\n",
    ),
    (
        &["omlog", "debug", "--store", "q1.db", "x"],
        "error: invalid value 'x' for '--store <FILE> [INTERVAL]': it is no number of 32 bits\n\nUsage: omlog debug [OPTIONS] <RECORD>\n       omlog debug [OPTIONS] --store <FILE> [INTERVAL]\n\nFor more information, try '--help'.\n",
    ),
    (
        &["omlog", "show"],
        "error: the following required arguments were not provided:\n  <FILE>\n\nUsage: omlog show <FILE>\n\nFor more information, try '--help'.\n",
    ),
    (
        &["omlog", "show", "--text", "s0.db"],
        "error: the following required arguments were not provided:\n  --bodies\n\nUsage: omlog show --bodies --text <FILE>\n\nFor more information, try '--help'.\n",
    ),
    (
        &["omlog", "run", "--check", "--record", "r"],
        "error: the argument '--check' cannot be used with '--record <FILE>'\n\nUsage: omlog run --check [FILE]\n\nFor more information, try '--help'.\n",
    ),
    (
        &["omlog", "run", "--resume"],
        "error: the following required arguments were not provided:\n  --store <PREFIX>\n\nUsage: omlog run --store <PREFIX> --resume [FILE]\n\nFor more information, try '--help'.\n",
    ),
    (
        &["omlog", "run", "--kills", "65"],
        "error: invalid value '65' for '--kills <N>': it is above 64\n\nUsage: omlog run [OPTIONS] [FILE]\n\nFor more information, try '--help'.\n",
    ),
    (
        &["omlog", "run", "--kills", "4294967296"],
        "error: invalid value '4294967296' for '--kills <N>': it is no number of 32 bits\n\nUsage: omlog run [OPTIONS] [FILE]\n\nFor more information, try '--help'.\n",
    ),
    (
        &["omlog", "run", "--seed", "1"],
        "error: the following required arguments were not provided:\n  --kills <N>\n\nUsage: omlog run --kills <N> --seed <S> [FILE]\n\nFor more information, try '--help'.\n",
    ),
    (
        &["omlog", "run", "--raw", "p", "--text"],
        "error: the argument '--raw <NAME>' cannot be used with '--text'\n\nUsage: omlog run --raw <NAME> [FILE]\n\nFor more information, try '--help'.\n",
    ),
    (
        &["omlog", "run", "--raw", "p", "--check"],
        "error: the argument '--raw <NAME>' cannot be used with '--check'\n\nUsage: omlog run --raw <NAME> [FILE]\n\nFor more information, try '--help'.\n",
    ),
    (
        &["omlog", "run", "--record", "-"],
        "error: invalid value '-' for '--record <FILE>': standard output has the text of the run, and a file is needed; ./- is one of this name\n\nUsage: omlog run [OPTIONS] [FILE]\n\nFor more information, try '--help'.\n",
    ),
    (
        &["omlog", "run", "--witness", "-"],
        "error: invalid value '-' for '--witness <FILE>': standard output has the text of the run, and a file is needed; ./- is one of this name\n\nUsage: omlog run [OPTIONS] [FILE]\n\nFor more information, try '--help'.\n",
    ),
    (
        &["omlog", "explore", "--text", "a", "b"],
        "error: unexpected argument 'b' found\n\nUsage: omlog explore [OPTIONS] [FILE]\n\nFor more information, try '--help'.\n",
    ),
];

// How the words end, and what is printed.
fn check(
    rt: &impl Abort,
    alloc: Global,
    is_shut: bool,
    words: &'static [&'static str],
    status: u8,
    (output, told): (&str, &str),
) {
    let screen = Screen::new(alloc, is_shut);
    match parse(alloc, words) {
        Ok(_) => panic!(rt; "{words:?}"),
        Err(error) => {
            assert_eq!(rt; end_unasked(&screen, &error), ExitCode::from(status));
            screen.check(rt, output, told);
        }
    }
}

#[test]
fn mistakes_and_their_texts(rt: HostRuntime) {
    for (words, told) in &MISTAKES {
        check(&rt, rt.alloc(), false, words, 2, ("", told));
        check(&rt, rt.alloc(), true, words, 2, ("", ""));
    }
}

static VERSION: [&str; 2] = ["omlog", "--version"];

#[test]
fn the_version(rt: HostRuntime) {
    check(&rt, rt.alloc(), false, &VERSION, 0, ("omlog 1.0\n", ""));
    check(&rt, rt.alloc(), true, &VERSION, 1, ("", ""));
}

static SHORT_HELP: [&str; 3] = ["omlog", "show", "-h"];

// The options alone, as clap lays them out; with `--help` what is read and written stands behind them.
const SUMMARY: &str = "\
What the store of a process holds, and to where it can be replayed

Usage: omlog show [OPTIONS] <FILE>

Arguments:
  <FILE>  The store of the process

Options:
      --bodies   Write the bodies of messages too
      --text     Write them as text with the escapes of C
      --verbose  Say more on standard error: what was refused and why; of a run, who waited
  -h, --help     Print help (see more with '--help')
";

#[test]
fn the_short_help(rt: HostRuntime) {
    check(&rt, rt.alloc(), false, &SHORT_HELP, 0, (SUMMARY, ""));
}

#[test]
fn words_that_are_no_text(rt: HostRuntime) {
    let screen = Screen::new(rt.alloc(), false);
    let error = io::Error::from(io::ErrorKind::InvalidData);
    assert_eq!(&rt; end_unread(&screen, &error), ExitCode::from(2));
    screen.check(&rt, "", "error: the arguments are not text\n");
    let screen = Screen::new(rt.alloc(), false);
    let error = io::Error::from(io::ErrorKind::OutOfMemory);
    assert_eq!(&rt; end_unread(&screen, &error), ExitCode::from(1));
    screen.check(&rt, "", "no memory\n");
}

#[test]
fn commands_that_end(rt: HostRuntime) {
    let screen = Screen::new(rt.alloc(), false);
    let done: Result<(), &str> = Ok(());
    assert_eq!(&rt; end(&screen, done), ExitCode::from(0));
    screen.check(&rt, "", "");
    let refused: Result<(), &str> = Err("store fault");
    assert_eq!(&rt; end(&screen, refused), ExitCode::from(1));
    screen.check(&rt, "", "store fault\n");
    let screen = Screen::new(rt.alloc(), true);
    assert_eq!(&rt; end(&screen, refused), ExitCode::from(1));
    screen.check(&rt, "", "");
}
