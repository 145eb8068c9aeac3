//! What is wrong with the arguments of a subcommand, and how their numbers are read.

ghost use Rattle.std.specs.Prelude.{◌≡◌, ◌≤◌, IfErr, IfOk, Some, None};
ghost use Rattle.om_text.specs.Numbers.{long_number_of as long_number, number_of as number};

use clap::ArgMatches;
use om_text::{long_number_of, number_of};
use std::fmt;

// Why the arguments of a subcommand ask for nothing.
#[derive(Clone, Copy)]
pub(crate) enum Mistake<'a> {
    // An argument has no value. The command line lets none that is needed be absent.
    Absent(&'a str),
    // The value of an argument is no number of so many bits.
    NoNumber {
        argument: &'a str,
        word: &'a str,
        bits: u32,
    },
    // The number that the value of an argument is lies above the greatest that it may be.
    TooGreat {
        argument: &'a str,
        word: &'a str,
        greatest: u32,
    },
    // The file that an argument names is to be standard output, which has the text of the command.
    NoFile(&'a str),
    // The record that an argument names is to be standard input, over which packets come.
    NoRecord(&'a str),
    // A word is no program and a file for its symbols.
    NoSymbols(&'a str),
    // The program of such a word has a file already.
    NamedTwice(&'a str),
}

impl<'a> fmt::Display for Mistake<'a> {
    fn fmt<W: fmt::Write>(&self, f: &mut fmt::Formatter<W>) -> fmt::Result {
        match self {
            Mistake::Absent(argument) => write!(f, "a value is required for '{argument}'"),
            Mistake::NoNumber {
                argument,
                word,
                bits,
            } => write!(
                f,
                "invalid value '{word}' for '{argument}': it is no number of {bits} bits"
            ),
            Mistake::TooGreat {
                argument,
                word,
                greatest,
            } => write!(
                f,
                "invalid value '{word}' for '{argument}': it is above {greatest}"
            ),
            Mistake::NoFile(argument) => write!(
                f,
                "invalid value '-' for '{argument}': standard output has the text of the run, and a file is needed; ./- is one of this name"
            ),
            Mistake::NoRecord(argument) => write!(
                f,
                "invalid value '-' for '{argument}': packets come over standard input, and a file is needed; ./- is one of this name"
            ),
            Mistake::NoSymbols(word) => write!(
                f,
                "invalid value '{word}' for '--elf <PROGRAM=FILE>': it is no program and a file with = between them"
            ),
            Mistake::NamedTwice(word) => write!(
                f,
                "invalid value '{word}' for '--elf <PROGRAM=FILE>': its program has a file already"
            ),
        }
    }
}

// Returns the value of an argument that is needed.
pub(crate) fn needed<'a>(found: &ArgMatches<'a>, name: &'a str) -> Result<&'a str, Mistake<'a>> {
    found.get_str(name).ok_or(Mistake::Absent(name))
}

// Returns the number of 32 bits that the value of an argument is: digits alone.
pub(crate) fn number_for<'a>(argument: &'a str, word: &'a str) -> Result<u32, Mistake<'a>>
    ensures number { IfOk result (λ n. number word.now ≡ Some n) }
    ensures none { IfErr result (λ _. number word.now ≡ None) }
{
    let bits = 32;
    number_of(word.as_bytes()).ok_or(Mistake::NoNumber {
        argument,
        word,
        bits,
    })
}

// Returns the number that the value of an argument is: digits alone, and at most so great.
pub(crate) fn number_up_to<'a>(
    argument: &'a str,
    word: &'a str,
    greatest: u32,
) -> Result<u32, Mistake<'a>>
    ensures number { IfOk result (λ n. number word.now ≡ Some n) }
    ensures most { IfOk result (λ n. n ≤ greatest) }
{
    let n = number_for(argument, word)?;
    if n > greatest {
        return Err(Mistake::TooGreat {
            argument,
            word,
            greatest,
        });
    }
    Ok(n)
}

// Returns the number of 64 bits that the value of an argument is: digits alone.
pub(crate) fn long_number_for<'a>(argument: &'a str, word: &'a str) -> Result<u64, Mistake<'a>>
    ensures number { IfOk result (λ n. long_number word.now ≡ Some n) }
    ensures none { IfErr result (λ _. long_number word.now ≡ None) }
{
    let bits = 64;
    long_number_of(word.as_bytes()).ok_or(Mistake::NoNumber {
        argument,
        word,
        bits,
    })
}
