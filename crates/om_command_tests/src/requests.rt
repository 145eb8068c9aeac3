//! Command lines, and what they ask for.

use om_arguments::{
    Asked, Checking, Exploring, Kills, Lines, Look, OutputForm, Request, Running, SymbolFile, parse,
};
use om_isa::Ext;
use std::alloc::Global;
use std::process::Abort;

static PLAIN: [(&[&str], Request<'static>, Option<&str>); 18] = [
    (&["omlog", "decode"], Request::Decode(Ext::I), None),
    (
        &["omlog", "decode", "--m", "words"],
        Request::Decode(Ext::Im),
        Some("words"),
    ),
    (&["omlog", "frontier"], Request::Frontier, None),
    (&["omlog", "frontier", "f"], Request::Frontier, Some("f")),
    (&["omlog", "frontier", "-"], Request::Frontier, None),
    (
        &["omlog", "frontier", "./-"],
        Request::Frontier,
        Some("./-"),
    ),
    (&["omlog", "sim"], Request::Sim(OutputForm::Hex), None),
    (
        &["omlog", "sim", "--", "-x"],
        Request::Sim(OutputForm::Hex),
        Some("-x"),
    ),
    (
        &["omlog", "sim", "--text", "s"],
        Request::Sim(OutputForm::Text),
        Some("s"),
    ),
    (
        &["omlog", "debug", "--process", "w1", "record"],
        Request::Debug {
            process: Some("w1"),
        },
        Some("record"),
    ),
    (
        &["omlog", "debug", "--process=p", "--", "-r"],
        Request::Debug { process: Some("p") },
        Some("-r"),
    ),
    (
        &["omlog", "debug", "record"],
        Request::Debug { process: None },
        Some("record"),
    ),
    (
        &["omlog", "debug", "--store", "q1.db"],
        Request::DebugStore {
            file: "q1.db",
            interval: None,
        },
        None,
    ),
    (
        &["omlog", "debug", "--store", "q1.db", "16"],
        Request::DebugStore {
            file: "q1.db",
            interval: Some(16),
        },
        None,
    ),
    (
        &["omlog", "draw"],
        Request::Draw(Lines {
            from: 0,
            to: usize::MAX,
        }),
        None,
    ),
    (
        &["omlog", "draw", "--from", "007", "s", "--to", "4294967295"],
        Request::Draw(Lines {
            from: 7,
            to: 4_294_967_295,
        }),
        Some("s"),
    ),
    (
        &["omlog", "image", "a", "+4"],
        Request::Image {
            ext: Ext::I,
            name: "a",
            size: "+4",
        },
        None,
    ),
    (
        &["omlog", "image", "--m", "a", "64"],
        Request::Image {
            ext: Ext::Im,
            name: "a",
            size: "64",
        },
        None,
    ),
];

static LOOKS: [(&[&str], Look<'static>); 8] = [
    (
        &["omlog", "show", "s0.db"],
        Look::Show {
            file: "s0.db",
            bodies: None,
        },
    ),
    (
        &["omlog", "show", "--bodies", "s0.db"],
        Look::Show {
            file: "s0.db",
            bodies: Some(OutputForm::Hex),
        },
    ),
    (
        &["omlog", "show", "--text", "s0.db", "--bodies"],
        Look::Show {
            file: "s0.db",
            bodies: Some(OutputForm::Text),
        },
    ),
    (
        &["omlog", "replay", "s0.db", "4294967295"],
        Look::Replay {
            file: "s0.db",
            interval: 4_294_967_295,
            short: false,
        },
    ),
    (
        &["omlog", "replay", "--short", "s0.db", "1"],
        Look::Replay {
            file: "s0.db",
            interval: 1,
            short: true,
        },
    ),
    (
        &[
            "omlog",
            "replay",
            "f",
            "0",
            "--steps",
            "18446744073709551615",
        ],
        Look::Steps {
            file: "f",
            interval: 0,
            steps: u64::MAX,
            traced: false,
            short: false,
        },
    ),
    (
        &["omlog", "replay", "--trace", "--steps", "1", "f", "2"],
        Look::Steps {
            file: "f",
            interval: 2,
            steps: 1,
            traced: true,
            short: false,
        },
    ),
    (
        &["omlog", "replay", "f", "2", "--steps", "1", "--short"],
        Look::Steps {
            file: "f",
            interval: 2,
            steps: 1,
            traced: false,
            short: true,
        },
    ),
];

// By the turns, the prefix, how it is checked, and the file that is read.
type Run = (
    u64,
    Option<&'static str>,
    Checking<'static>,
    Option<&'static str>,
);

static RUNS: [(&[&str], Run); 10] = [
    (&["omlog", "run"], (50_000_000, None, Checking::Off, None)),
    (
        &["omlog", "run", "ring.txt"],
        (50_000_000, None, Checking::Off, Some("ring.txt")),
    ),
    (
        &[
            "omlog",
            "run",
            "--turns",
            "18446744073709551615",
            "--store",
            "d/",
        ],
        (u64::MAX, Some("d/"), Checking::Off, None),
    ),
    (
        &["omlog", "run", "--check"],
        (50_000_000, None, Checking::Check, None),
    ),
    (
        &["omlog", "run", "--witness", "w", "c"],
        (50_000_000, None, Checking::Witness("w"), Some("c")),
    ),
    (
        &["omlog", "run", "--check", "--witness", "w"],
        (50_000_000, None, Checking::Witness("w"), None),
    ),
    (
        &["omlog", "run", "--record", "r", "--store", "s", "c"],
        (50_000_000, Some("s"), Checking::Record("r"), Some("c")),
    ),
    (
        &["omlog", "run", "--follow"],
        (50_000_000, None, Checking::Follow, None),
    ),
    (
        &["omlog", "run", "--raw", "p0", "c"],
        (50_000_000, None, Checking::Raw("p0"), Some("c")),
    ),
    (
        &["omlog", "run", "--follow", "--raw", "p0"],
        (50_000_000, None, Checking::FollowRaw("p0"), None),
    ),
];

static LOUD: [&str; 3] = ["omlog", "run", "--verbose"];

const VERBOSE: Running<'static> = Running {
    turns: 50_000_000,
    prefix: None,
    resumes: false,
    checking: Checking::Off,
    form: OutputForm::Hex,
    kills: None,
    strict: false,
};

// Each command can be asked to say more.
static LOUD_ONES: [(&[&str], Request<'static>); 8] = [
    (&["omlog", "decode", "--verbose"], Request::Decode(Ext::I)),
    (&["omlog", "frontier", "--verbose"], Request::Frontier),
    (
        &["omlog", "sim", "--verbose"],
        Request::Sim(OutputForm::Hex),
    ),
    (
        &["omlog", "draw", "--verbose"],
        Request::Draw(Lines {
            from: 0,
            to: usize::MAX,
        }),
    ),
    (
        &["omlog", "explore", "--verbose", "--text"],
        Request::Explore(Exploring {
            runs: 1_000,
            seed: 0,
            all: false,
            turns: 1_000_000,
            witnesses: None,
            form: OutputForm::Text,
        }),
    ),
    (
        &["omlog", "show", "--verbose", "f"],
        Request::Look(Look::Show {
            file: "f",
            bodies: None,
        }),
    ),
    (
        &["omlog", "replay", "f", "--verbose", "0"],
        Request::Look(Look::Replay {
            file: "f",
            interval: 0,
            short: false,
        }),
    ),
    (
        &["omlog", "image", "a", "64", "--verbose"],
        Request::Image {
            ext: Ext::I,
            name: "a",
            size: "64",
        },
    ),
];

static EXPLORED: [&str; 5] = ["omlog", "explore", "--all", "--witnesses", "w"];

const IN_HEX: Exploring<'static> = Exploring {
    runs: 1_000_000,
    seed: 0,
    all: true,
    turns: 1_000_000,
    witnesses: Some("w"),
    form: OutputForm::Hex,
};

static AGAIN: [&str; 6] = ["omlog", "run", "--check", "--resume", "--store", "s"];

const RESUMED: Running<'static> = Running {
    turns: 50_000_000,
    prefix: Some("s"),
    resumes: true,
    checking: Checking::Check,
    form: OutputForm::Hex,
    kills: None,
    strict: false,
};

static TOLD: [&str; 5] = ["omlog", "run", "--strict", "--follow", "--text"];

const AS_TEXT: Running<'static> = Running {
    turns: 50_000_000,
    prefix: None,
    resumes: false,
    checking: Checking::Follow,
    form: OutputForm::Text,
    kills: None,
    strict: true,
};

static KILLED: [&str; 6] = [
    "omlog",
    "run",
    "--seed",
    "18446744073709551615",
    "--kills",
    "64",
];

static KILLED_BY_0: [&str; 5] = ["omlog", "run", "--kills", "0", "c"];

// A run that is plain but for its kills.
fn killed(count: u32, seed: u64) -> Running<'static> {
    Running {
        turns: 50_000_000,
        prefix: None,
        resumes: false,
        checking: Checking::Off,
        form: OutputForm::Hex,
        kills: Some(Kills { count, seed }),
        strict: false,
    }
}

fn check(
    rt: &impl Abort,
    alloc: Global,
    words: &'static [&'static str],
    request: Request<'static>,
    input: Option<&'static str>,
) {
    let wanted = Asked {
        request,
        input,
        symbols: Vec::new(alloc),
        verbose: false,
    };
    check_asked(rt, alloc, words, wanted);
}

fn check_asked(
    rt: &impl Abort,
    alloc: Global,
    words: &'static [&'static str],
    wanted: Asked<'static>,
) {
    match parse(alloc, words) {
        Ok(asked) => assert_eq!(rt; asked, wanted),
        Err(error) => panic!(rt; "{error}"),
    }
}

// The same of a command that is asked to say more.
fn check_loud(
    rt: &impl Abort,
    alloc: Global,
    words: &'static [&'static str],
    request: Request<'static>,
) {
    let wanted = Asked {
        request,
        input: None,
        symbols: Vec::new(alloc),
        verbose: true,
    };
    check_asked(rt, alloc, words, wanted);
}

#[test]
fn commands_that_are_to_say_more(rt: HostRuntime) {
    check_loud(&rt, rt.alloc(), &LOUD, Request::Run(VERBOSE));
    for (words, request) in &LOUD_ONES {
        check_loud(&rt, rt.alloc(), words, *request);
    }
}

#[test]
fn words_and_what_they_ask_for(rt: HostRuntime) {
    for (words, request, input) in &PLAIN {
        check(&rt, rt.alloc(), words, *request, *input);
    }
    for (words, look) in &LOOKS {
        check(&rt, rt.alloc(), words, Request::Look(*look), None);
    }
    let explored = Request::Explore(IN_HEX);
    check(&rt, rt.alloc(), &EXPLORED, explored, None);
    check(&rt, rt.alloc(), &AGAIN, Request::Run(RESUMED), None);
    check(&rt, rt.alloc(), &TOLD, Request::Run(AS_TEXT), None);
    let most = Request::Run(killed(64, u64::MAX));
    check(&rt, rt.alloc(), &KILLED, most, None);
    let none = Request::Run(killed(0, 0));
    check(&rt, rt.alloc(), &KILLED_BY_0, none, Some("c"));
    for (words, (turns, prefix, checking, input)) in &RUNS {
        let running = Running {
            turns: *turns,
            prefix: *prefix,
            resumes: false,
            checking: *checking,
            form: OutputForm::Hex,
            kills: None,
            strict: false,
        };
        check(&rt, rt.alloc(), words, Request::Run(running), *input);
    }
}

static WITH_SYMBOLS: [&str; 7] = [
    "omlog",
    "debug",
    "--elf",
    "queue=q=1.elf",
    "record",
    "--elf",
    "bank=./b.elf",
];

// The first = parts the program from its file.
#[test]
fn files_with_symbols(rt: HostRuntime) {
    let wanted = [("queue", "q=1.elf"), ("bank", "./b.elf")];
    match parse(rt.alloc(), &WITH_SYMBOLS) {
        Ok(asked) => {
            assert_eq!(&rt; asked.request, Request::Debug { process: None });
            assert_eq!(&rt; asked.input, Some("record"));
            assert_eq!(&rt; asked.symbols.len(), wanted.len());
            for (symbols, (program, file)) in asked.symbols.iter().zip(wanted) {
                assert_eq!(&rt; *symbols, SymbolFile { program, file });
            }
        }
        Err(error) => panic!(&rt; "{error}"),
    }
}
