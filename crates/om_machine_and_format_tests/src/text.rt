//! What no clause says: that the definitions mean what the formats say, and what becomes of readers
//! that fail.

ghost use Rattle.std.specs.Prelude.{ℕ, ◌+◌, ◌-◌, ◌^◌, ◌&&◌, ◌==◌, min, length, slice_index_or, ok_or, if◌then◌else◌, [], codes, Ok, Err};
ghost use Rattle.std.specs.Option.{option_map};
ghost use Rattle.std.specs.Str.{bytes_eq};
ghost use Rattle.om_text.specs.Numbers.{number_of};
ghost use Rattle.om_text.specs.declared.error.LineError.TheVariants.{UnknownLine, BadNumber};

use crate::same::{assert_same, assert_same_at};
use om_text::{
    BuildError, Builder, LineError, MAX_BYTES, MAX_TURNS, ReadError, ScriptError, hex_word, laws,
    number_of, read_script, read_text,
};
use std::alloc::Global;
use std::fmt::Display;
use std::io;
use std::io::{ErrorKind, Read};
use std::process::Abort;

// The sum of the numbers N of the lines `add N`.
#[derive(Drop)]
struct Sum(u64);

impl Builder for Sum {
    ghost State = { ℕ };

    ghost state = { λ sum. sum.0 };

    ghost meaning = { λ total words.
        if (length words == 2) && bytes_eq (slice_index_or words 0 []) (codes "add")
        then ok_or (option_map (λ n. min (total + n) (2 ^ 64 - 1))
        (number_of (slice_index_or words 1 []))) BadNumber
        else Err UnknownLine };

    fn add_line(&mut self, _alloc: Global, words: &[&[u8]]) -> Result<(), BuildError<LineError>> {
        let [name, number] = words else {
            return Err(LineError::UnknownLine.into());
        };
        if *name != b"add".as_slice() {
            return Err(LineError::UnknownLine.into());
        }
        let Some(number) = number_of(number) else {
            return Err(LineError::BadNumber.into());
        };
        self.0 = self.0.saturating_add(u64::from(number));
        Ok(())
    }
}

fn sum_of(alloc: Global, text: &[u8]) -> Result<u64, BuildError<ScriptError>> {
    match read_script(alloc, text, Sum(0)) {
        Ok(sum) => Ok(sum.0),
        Err(error) => Err(error),
    }
}

fn assert_sum(
    rt: &impl Abort,
    alloc: Global,
    text: &str,
    want: Result<u64, BuildError<ScriptError>>,
) {
    assert_same_at(rt, &text, &sum_of(alloc, text.as_bytes()), &want);
}

fn faulty(line: usize, error: LineError) -> Result<u64, BuildError<ScriptError>> {
    Err(BuildError::Invalid(ScriptError { line, error }))
}

// Scripts and their sums.
const SUMS: [(&str, u64); 7] = [
    ("", 0),
    ("add 1\nadd 2", 3),
    ("add 1\r\nadd 2\r\n", 3),
    ("\n\r\n \t \n# add 5\n  #add 5\n#", 0),
    ("add\t1\n \tadd  \t 2 \t\n", 3),
    ("add 007\nadd 00000000000000000000000000000010", 17),
    ("add 4294967295\nadd 4294967295", 8589934590),
];

#[test]
fn scripts_are_read_whole(rt: HostRuntime) {
    let alloc = rt.alloc();
    for (text, sum) in &SUMS {
        assert_sum(&rt, alloc, text, Ok(*sum));
    }
}

// Scripts, the line of the first fault, and the fault.
const FAULTS: [(&str, usize, LineError); 9] = [
    ("add 1\n\n# add x\nadd x\nsub 1", 4, LineError::BadNumber),
    ("add 1\r\n\r\nsub 1\r\nadd x", 3, LineError::UnknownLine),
    ("add 4294967296", 1, LineError::BadNumber),
    ("add +5", 1, LineError::BadNumber),
    ("add 1\nadd 2\r", 2, LineError::BadNumber),
    ("add 1\r\r\n", 1, LineError::BadNumber),
    ("\r", 1, LineError::UnknownLine),
    ("add\u{b}1\n", 1, LineError::UnknownLine),
    ("1 add\n", 1, LineError::UnknownLine),
];

#[test]
fn the_first_faulty_line_counts(rt: HostRuntime) {
    let alloc = rt.alloc();
    for (text, line, error) in &FAULTS {
        assert_sum(&rt, alloc, text, faulty(*line, *error));
    }
    laws::first_faulty_line_counts::<u64>();
    laws::limits();
}

const NUMBERS: [(&str, Option<u32>); 8] = [
    ("0", Some(0)),
    ("0010", Some(10)),
    ("4294967295", Some(4294967295)),
    ("4294967296", None),
    ("99999999999999999999999999", None),
    ("", None),
    ("+1", None),
    ("1a", None),
];

#[test]
fn words_are_numbers(rt: HostRuntime) {
    for (word, number) in &NUMBERS {
        assert_same_at(&rt, word, &number_of(word.as_bytes()), number);
    }
}

const HEX_WORDS: [(&str, Option<u32>); 5] = [
    ("00500093", Some(0x0050_0093)),
    ("fe000EE3", Some(0xfe00_0ee3)),
    ("0500093", None),
    ("000500093", None),
    ("0x500093", None),
];

#[test]
fn words_of_eight_digits_are_hexadecimal(rt: HostRuntime) {
    for (word, value) in &HEX_WORDS {
        assert_same_at(&rt, word, &hex_word(word.as_bytes()), value);
    }
}

fn has_text<E: Display>(rt: &impl Abort, alloc: Global, error: &E, text: &str) -> bool {
    let shown = error.to_string(alloc).expect(rt, "memory");
    shown.as_str() == text
}

#[test]
fn faults_are_named(rt: HostRuntime) {
    let alloc = rt.alloc();
    let error = LineError::WrongCount;
    let error = BuildError::Invalid(ScriptError { line: 2, error });
    let memory = BuildError::<LineError>::Memory;
    let are_named = [
        has_text(&rt, alloc, &error, "line 2: wrong count of words"),
        has_text(&rt, alloc, &memory, "no memory"),
        has_text(&rt, alloc, &ReadError::TooLong, "too long"),
    ];
    assert_same(&rt, &are_named, &[true; 3]);
}

// A reader that gives its bytes one at a time, after so many interruptions, and may refuse in place
// of ending.
#[derive(Drop)]
struct Drip<'a> {
    bytes: &'a [u8],
    turns: u64,
    interruptions: u64,
    refuses: bool,
}

impl Read for Drip<'_> {
    fn read(&mut self, buf: &mut [u8]) -> io::Result<usize> {
        self.turns = self.turns.saturating_add(1);
        if self.turns <= self.interruptions {
            return Err(ErrorKind::Interrupted.into());
        }
        let [first, rest @ ..] = self.bytes else {
            return if self.refuses {
                Err(ErrorKind::BrokenPipe.into())
            } else {
                Ok(0)
            };
        };
        if buf.is_empty() {
            return Ok(0);
        }
        buf[0] = *first;
        self.bytes = rest;
        Ok(1)
    }
}

const SCRIPT: &[u8] = b"add 1\nadd 2";

// An input of these bytes is read to its end.
fn assert_read<R: Read>(rt: &impl Abort, alloc: Global, input: &mut R, bytes: &[u8]) {
    let text = read_text(alloc, input).expect(rt, "a text");
    assert_same(rt, &text.as_slice(), &bytes);
}

#[test]
fn inputs_are_read_whole(rt: HostRuntime) {
    let alloc = rt.alloc();
    let (mut none, mut script) = (b"".as_slice(), SCRIPT);
    assert_read(&rt, alloc, &mut none, b"");
    assert_read(&rt, alloc, &mut script, SCRIPT);
    let mut drip = Drip {
        bytes: SCRIPT,
        turns: 0,
        interruptions: 1,
        refuses: false,
    };
    assert_read(&rt, alloc, &mut drip, SCRIPT);
}

// Returns how long the text of an input of so many zeros is.
fn read_len(rt: &impl Abort, alloc: Global, count: usize) -> Result<usize, ReadError> {
    let input = vec![in alloc; 0; count].expect(rt, "memory");
    match read_text(alloc, &mut input.as_slice()) {
        Ok(text) => Ok(text.len()),
        Err(fault) => Err(fault),
    }
}

#[test]
fn inputs_have_limits(rt: HostRuntime) {
    let alloc = rt.alloc();
    let longest = read_len(&rt, alloc, MAX_BYTES);
    let longer = read_len(&rt, alloc, MAX_BYTES + 1);
    let wanted = (Ok(16_777_216), Err(ReadError::TooLong));
    assert_same(&rt, &(longest, longer), &wanted);
}

// Returns why an input was not read, None where it was.
fn read_fault(alloc: Global, drip: &mut Drip) -> Option<ReadError> {
    read_text(alloc, drip).err()
}

#[test]
fn readers_may_refuse(rt: HostRuntime) {
    let mut refusing = Drip {
        bytes: SCRIPT,
        turns: 0,
        interruptions: 0,
        refuses: true,
    };
    let fault = read_fault(rt.alloc(), &mut refusing);
    let told = (fault, refusing.bytes.is_empty());
    assert_same(&rt, &told, &(Some(ReadError::CannotRead), true));
}

#[test]
fn readers_have_a_number_of_turns(rt: HostRuntime) {
    let mut endless = Drip {
        bytes: b"",
        turns: 0,
        interruptions: u64::MAX,
        refuses: false,
    };
    let fault = read_fault(rt.alloc(), &mut endless);
    let told = (fault, endless.turns);
    assert_same(&rt, &told, &(Some(ReadError::CannotRead), 33_554_432));
}
