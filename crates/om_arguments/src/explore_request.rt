//! The subcommand `explore`: which runs it plays, and how it is asked for.

use crate::arguments::{OutputForm, form_of};
use crate::building::{ArgumentText, CommandText, FLAG, OPTION};
use crate::commands::{INPUT_FILE, VERBOSE_FLAG};
use crate::mistake::{Mistake, long_number_for};
use clap::ArgMatches;

pub(crate) const EXPLORE: &str = "explore";

const RUNS: &str = "runs";

const SEED: &str = "seed";

const ALL: &str = "all";

const TURNS: &str = "turns";

const WITNESSES: &str = "witnesses";

const TEXT: &str = "text";

// How many runs are played, where nothing is said.
const DEFAULT_RUNS: u64 = 1_000;

// How many are played at most of all that there can be, where nothing is said.
const DEFAULT_ALL: u64 = 1_000_000;

// The most turns of a process, where nothing is said.
const DEFAULT_TURNS: u64 = 1_000_000;

/// What `--help` tells of `explore`.
pub const EXPLORE_HELP: &str = "\
Reads a cluster file as run does, and plays runs without failures, one after
another in one thread, in each of which messages come in another order. What run
writes is, whatever fails, what one of the runs without failures writes; so this
tells what a cluster may write, and whether it depends on the order.

A line for each different text, which is what run writes; the first that came
is text 1:
  text K runs N sha256 HEX   N of the runs came to it; HEX is its digest
  .. waiting NAME ..         behind it, where these processes wait for a message
                             that nobody sends; run ends so with out of turns
Then, for each but the first, where it begins to differ from text 1:
  texts 1 and K differ at output I of NAME: HEX in interval X, HEX in interval Y
                             output I of the process, in each of the two, and
                             the interval it was made in; none, where it has no
                             such output
  texts 1 and K differ at the end of NAME: STATUS, STATUS
                             ended CODE, trapped CAUSE or waiting
The last line says how many texts there are, in how many runs:
  2 texts in 1000 runs

With --all runs are not drawn by lot, but gone through: of runs in which each
process receives the same messages in the same order, one. The last line says
whether these were all.
  2 texts in all 36 runs
  2 texts in 1000000 runs, not all

With --text the bytes of outputs that differ are written as text, as by run, and
not as HEX. The digests are the same, those of what run writes without --text.

With --witnesses PREFIX the first run of each text K is written to the file
PREFIX and K, which must not be there yet: sim plays it, draw draws it.

Lines of kill, flush and checkpoint in the cluster file count for nothing here.
Refused, on standard error, status 1:
  empty script     there is no process
  out of turns     a process did not come to rest within its turns of fuel
                   instructions: it does not end, or needs more --turns
  cannot write     also: a file of PREFIX cannot be made, or is there already
A faulty file is refused whole: 'line N: ..' on standard error, status 1.

Example: what a race between two senders comes to.
  omlog explore --all race.txt";

pub(crate) const EXPLORE_COMMAND: CommandText = CommandText {
    name: EXPLORE,
    about: "What a cluster may write, by the orders in which its messages come",
    help: EXPLORE_HELP,
    usage: None,
    arguments: &[
        RUNS_OPTION,
        SEED_OPTION,
        ALL_FLAG,
        WITNESSES_OPTION,
        TURNS_OPTION,
        TEXT_FLAG,
        INPUT_FILE,
        VERBOSE_FLAG,
    ],
};

const RUNS_OPTION: ArgumentText = ArgumentText {
    name: RUNS,
    help: "How many runs are played [default: 1000; with --all at most 1000000]",
    values: &["N"],
    ..OPTION
};

const SEED_OPTION: ArgumentText = ArgumentText {
    name: SEED,
    help: "Which orders are drawn, a number of 64 bits [default: 0]",
    values: &["S"],
    excludes: &[ALL],
    ..OPTION
};

const ALL_FLAG: ArgumentText = ArgumentText {
    name: ALL,
    help: "Go through all runs that there can be",
    ..FLAG
};

const WITNESSES_OPTION: ArgumentText = ArgumentText {
    name: WITNESSES,
    help: "Write a run of each text to a file, as a script of sim",
    values: &["PREFIX"],
    ..OPTION
};

const TURNS_OPTION: ArgumentText = ArgumentText {
    name: TURNS,
    help: "The most turns of each process, a number of 64 bits [default: 1000000]",
    values: &["K"],
    ..OPTION
};

const TEXT_FLAG: ArgumentText = ArgumentText {
    name: TEXT,
    help: "Write the bytes in which texts differ as text with the escapes of C",
    ..FLAG
};

/// How a cluster is to be explored.
#[derive(Clone, Copy, Debug, PartialEq, Eq)]
pub struct Exploring<'a> {
    /// How many runs are played; of all, at most.
    pub runs: u64,
    /// Which orders are drawn.
    pub seed: u64,
    /// Whether all runs are gone through.
    pub all: bool,
    /// The most turns of each process.
    pub turns: u64,
    /// The prefix of the files of the runs that each different text came of first.
    pub witnesses: Option<&'a str>,
    /// How the bytes of outputs are written in which texts differ.
    pub form: OutputForm,
}

// Returns how a cluster is to be explored, where its numbers are numbers.
pub(crate) fn exploring_of<'a>(found: &ArgMatches<'a>) -> Result<Exploring<'a>, Mistake<'a>> {
    let all = found.get_flag(ALL);
    let most = if all { DEFAULT_ALL } else { DEFAULT_RUNS };
    Ok(Exploring {
        runs: number_or("--runs <N>", found.get_str(RUNS), most)?,
        seed: number_or("--seed <S>", found.get_str(SEED), 0)?,
        all,
        turns: number_or("--turns <K>", found.get_str(TURNS), DEFAULT_TURNS)?,
        witnesses: found.get_str(WITNESSES),
        form: form_of(found.get_flag(TEXT)),
    })
}

// Returns the number of an argument, or what stands for it where it is not given.
fn number_or<'a>(
    argument: &'a str,
    word: Option<&'a str>,
    default: u64,
) -> Result<u64, Mistake<'a>> {
    match word {
        Some(word) => long_number_for(argument, word),
        None => Ok(default),
    }
}
