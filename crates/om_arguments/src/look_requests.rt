//! The subcommands that look into the store of a process, `show` and `replay`: what they ask for, and how.

ghost use Rattle.std.specs.Prelude.{◌≡◌, IfOk};
ghost use Rattle.om_arguments.specs.steps.Requests.{looked_by};
ghost use Rattle.om_arguments.specs.declared.arguments.Subcommand.{Subcommand};

use crate::arguments::{OutputForm, form_of};
use crate::building::{ArgumentText, CommandText, FLAG, OPTION, WORD};
use crate::commands::VERBOSE_FLAG;
use crate::mistake::{Mistake, long_number_for, needed, number_for};
use clap::ArgMatches;

pub(crate) const SHOW: &str = "show";

const SHOW_HELP: &str = "\
Writes what the store FILE of a process holds:

  checkpoint X process P of N count C version V bytes B
      the state in interval X of process P of N: the instructions that it had
      finished, and the version and the bytes of the record
  receipt X from Q interval Y number M count C bytes B
      the message that began interval X: its sender and the sender's interval,
      its number from there, the instructions that the process had finished as
      it waited, and the bytes of the message
  replay X to Y
      omlog replay FILE answers for these intervals, and for no others

Where run --resume made the store, a line follows for each row of what it keeps
beside its records:

  about 0 process P of N program W memory S image B
      what the store is of: process P of N, and its program: of rv32i or
      rv32im, with S bytes of memory and an image of B
  senders X HEX
      the senders of the receipts behind the first X, two digits each
  output X interval Y HEX
      a released output: its number, the interval that made it, and its bytes,
      - where there are none

With --bodies a line follows for each message, which shows what came in it:

  body X from Q HEX
      the message that began interval X, from process Q: its bytes, - where
      there are none; of a receipt that is damaged there is no such line

With --text too these bytes are written as text, as by run.

A record that is none is a line, too, and the rest goes on: the interval, and
damaged with its first fault: short, kind, version, field OFFSET or trailing.
One that names another interval is damaged interval Y. A row that is none is
damaged; of an output damaged short or damaged trailing.

Refused, on standard error, status 1:
  store fault         FILE is not there, or is no store

FILE is only read.

Example: omlog show s1.db, behind omlog run --store s with the example of run.
  checkpoint 0 process 1 of 2 count 0 version 2 bytes 328
  receipt 1 from 0 interval 0 number 0 count 3 bytes 4
  replay 0 to 1";

pub(crate) const REPLAY: &str = "replay";

/// What `--help` tells of `replay`.
pub const REPLAY_HELP: &str = "\
Writes the state that a process had right after its receipt INTERVAL, from the
checkpoints and receipts that its store FILE holds:

  interval X
  count C             the instructions that it had finished
  pc HHHHHHHH
  x0 HHHHHHHH         a line for each register, to x31
  HHHHHHHH BB..       an address, and up to 16 bytes of memory from there on
  status STATUS       ready, waiting, ended CODE or trapped CAUSE

With --steps K it goes on from there: written is the state K instructions
behind, or fewer where the process comes to wait, ends or traps before.
With --trace too, these lines stand before it, in order:
  C PC WORD TEXT; ..  an instruction: the count and pc before it, its word, its
                      text, and what it wrote: xN = HHHHHHHH, or an address and
                      the bytes of memory from there on
  send P NUMBER HEX   it sent a message to process P
  out NUMBER HEX      it made an output

With --short, of rows of memory that are all zeros and follow one another only
the first is written, and one line * stands for the others.

Refused, on standard error, status 1:
  no checkpoint       none is stored at INTERVAL or below
  damaged Y           the record of interval Y cannot be read
  missing receipt Y   the receipt of interval Y is not stored, the least such
  mismatch Y          the receipt of interval Y does not fit the process
  store fault         FILE is not there, or is no store

FILE is only read. omlog show FILE tells for which intervals there is a state.

Example: omlog replay s1.db 1, behind omlog run --store s with the example of
run. The message that began the interval stands at address 40.
  interval 1
  count 4
  pc 00000010
  ..
  00000040 93081000000000000000000000000000
  ..
  status ready
And omlog replay s1.db 1 --steps 5 --trace begins with
  4 00000010 00300893 addi x17, x0, 3; x17 = 00000003";

const FILE: &str = "FILE";

const INTERVAL: &str = "INTERVAL";

const STEPS: &str = "steps";

const TRACE: &str = "trace";

const BODIES: &str = "bodies";

const TEXT: &str = "text";

const SHORT: &str = "short";

pub(crate) const SHOW_COMMAND: CommandText = CommandText {
    name: SHOW,
    about: "What the store of a process holds, and to where it can be replayed",
    help: SHOW_HELP,
    usage: None,
    arguments: &[STORE_FILE, BODIES_FLAG, TEXT_FLAG, VERBOSE_FLAG],
};

pub(crate) const REPLAY_COMMAND: CommandText = CommandText {
    name: REPLAY,
    about: "The state of a process in an interval, from its store",
    help: REPLAY_HELP,
    usage: None,
    arguments: &[
        STORE_FILE,
        INTERVAL_WORD,
        STEPS_OPTION,
        TRACE_FLAG,
        SHORT_FLAG,
        VERBOSE_FLAG,
    ],
};

const STORE_FILE: ArgumentText = ArgumentText {
    name: FILE,
    help: "The store of the process",
    values: &[FILE],
    is_required: true,
    ..WORD
};

const BODIES_FLAG: ArgumentText = ArgumentText {
    name: BODIES,
    help: "Write the bodies of messages too",
    ..FLAG
};

const TEXT_FLAG: ArgumentText = ArgumentText {
    name: TEXT,
    help: "Write them as text with the escapes of C",
    needs: &[BODIES],
    ..FLAG
};

const INTERVAL_WORD: ArgumentText = ArgumentText {
    name: INTERVAL,
    help: "The interval, 0 to 4294967295",
    values: &[INTERVAL],
    is_required: true,
    ..WORD
};

const STEPS_OPTION: ArgumentText = ArgumentText {
    name: STEPS,
    help: "Go on for K instructions, a number of 64 bits",
    values: &["K"],
    ..OPTION
};

const TRACE_FLAG: ArgumentText = ArgumentText {
    name: TRACE,
    help: "Write a line for each of these instructions",
    needs: &[STEPS],
    ..FLAG
};

const SHORT_FLAG: ArgumentText = ArgumentText {
    name: SHORT,
    help: "Fold rows of memory that are all zeros",
    ..FLAG
};

/// What is looked for in the store of a process.
#[derive(Clone, Copy, Debug, PartialEq, Eq)]
pub enum Look<'a> {
    /// What it holds, and in which form with the bodies of messages.
    Show {
        file: &'a str,
        bodies: Option<OutputForm>,
    },
    /// The state in an interval, and whether rows of zeros are folded.
    Replay {
        file: &'a str,
        interval: u32,
        short: bool,
    },
    /// The state so many instructions behind, whether with a trace, and whether rows of zeros are folded.
    Steps {
        file: &'a str,
        interval: u32,
        steps: u64,
        traced: bool,
        short: bool,
    },
}

// Makes the request to show what a file holds.
pub(crate) fn show_request<'a>(found: &ArgMatches<'a>) -> Result<Look<'a>, Mistake<'a>>
    ensures { IfOk result (λ look. looked_by look ≡ Subcommand.Show) }
{
    Ok(Look::Show {
        file: needed(found, FILE)?,
        bodies: bodies_of(found),
    })
}

// Returns in which form the bodies of messages are asked for.
fn bodies_of<'a>(found: &ArgMatches<'a>) -> Option<OutputForm> {
    if found.get_flag(BODIES) {
        return Some(form_of(found.get_flag(TEXT)));
    }
    None
}

// Makes the request to replay from a file to an interval, and so many steps on, where these are numbers.
pub(crate) fn replay_request<'a>(found: &ArgMatches<'a>) -> Result<Look<'a>, Mistake<'a>>
    ensures { IfOk result (λ look. looked_by look ≡ Subcommand.Replay) }
{
    let file = needed(found, FILE)?;
    let interval = number_for("<INTERVAL>", needed(found, INTERVAL)?)?;
    let short = found.get_flag(SHORT);
    let Some(steps) = found.get_str(STEPS) else {
        return Ok(Look::Replay {
            file,
            interval,
            short,
        });
    };
    Ok(Look::Steps {
        file,
        interval,
        steps: long_number_for("--steps <K>", steps)?,
        traced: found.get_flag(TRACE),
        short,
    })
}
