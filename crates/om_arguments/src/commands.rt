//! The subcommands as a command line has them: their names, helps and options.

use crate::arguments::Subcommand;
use crate::building::{ArgumentText, CommandText, FLAG, OPTION, WORD, command_by};
use crate::debug_request::DEBUG_COMMAND;
use crate::draw_request::DRAW_COMMAND;
use crate::explore_request::EXPLORE_COMMAND;
use crate::look_requests::{REPLAY_COMMAND, SHOW_COMMAND};
use clap::Command;
use std::alloc::{AllocError, Global};

/// What `omlog --help` tells of all subcommands, behind their list; `-h` leaves it out, as it does with the others.
pub const HELP: &str = "\
A process takes the messages that are sent to it one at a time. With each a new
interval begins: 0 at its start, 1 with the first message, and so on. Now and
then it logs the messages that it received, and stores its state. A recovery
state is an interval of each process to which all can go back together after a
failure: none of them depends on an interval of another that is lost.

Begin with run: it takes a cluster file, and processes that fail come back by
themselves; explore tells whether what it writes depends on the order of
messages. With sim the same is played by hand, event by event, and debug shows
it to gdb, forward and back. frontier computes recovery states from records
alone, show and replay look into the store of a process, and decode tells what
words of programs mean. Each says with --help what it reads and writes, and has
an example; -h lists its options alone.

run, explore, sim, draw, frontier and decode read FILE, where one is named, and
standard input else, also for -.

Status:
  0   done, or a help text or the version was asked for
  1   refused: a line on standard error says why; or run --strict, and a process
      trapped or a kill did not come
  2   the arguments are not understood
  141 whoever read standard output has closed it

Beside what its own help says, a command may be refused with:
  too long       the input has more than 16 MiB
  cannot read    the input cannot be read, or FILE not be opened
  cannot write   standard output cannot be written
  no memory      memory ran out";

pub(crate) const DECODE: &str = "decode";

const DECODE_HELP: &str = "\
Reads words of RV32I, one on each line, and writes a line for each: the text of
its instruction, or none.

  00500093     a word: eight hexadecimal digits, in either case

With --m the instructions of multiplication and division (RV32M) are read too;
without it their words are none.

Empty lines, and lines that begin with '#', are passed over.

A faulty line refuses the whole: 'line N: ..' on standard error, status 1.

Example:
  00500093     addi x1, x0, 5
  FE000EE3     beq x0, x0, -4
  022081B3     none, and with --m: mul x3, x1, x2";

pub(crate) const M: &str = "m";

pub(crate) const FRONTIER: &str = "frontier";

/// What `--help` tells of `frontier`.
pub const FRONTIER_HELP: &str = "\
Reads a record script and writes a line for each note: what was answered, and
the recovery state after it. The last line is the recovery state in the end.

  procs N           N processes, 1 to 16, numbered from 0: the first line
  log P X V0 ..     the receipt that began interval X of process P is logged
  ckpt P X V0 ..    the state of process P in interval X is stored

V0 .. is the dependency vector of the interval, one number for each process:
the greatest interval of that process that it depends on directly. P's own
place in it is X. Checkpoint 0 of each process is there from the start.
Empty lines, and lines that begin with '#', are passed over.

Answers:
  noted        the record is new, and the recovery state stays
  raised       the record is new, and the recovery state rose
  known        that very record is there
  bad-vector   P's own place is not X, or a receipt is logged at interval 0
  differs      interval X of P has a record with another vector
  disorder Y   the vector falls between X and the record of P at interval Y
  stranger     there is no process P
A faulty script is refused whole: 'line N: ..' on standard error, status 1.

Example: process 0 depends on interval 1 of process 1, which comes last. That
interval 3 of process 1 is stored gains nothing: it depends on interval 4 of
process 2, of which there is no record.
  procs 3
  log 0 1 1 1 0        noted: 0 0 0
  ckpt 1 3 0 3 4       noted: 0 0 0
  log 1 1 0 1 0        raised: 1 1 0
                       recovery 1 1 0";

pub(crate) const SIM: &str = "sim";

/// What `--help` tells of `sim`.
pub const SIM_HELP: &str = "\
Reads programs, processes and events, plays the events in order over stores in
memory, and writes a line for each: what was answered. Then it writes how all
stands in the end.

  program NAME SIZE WORD ..    a program of RV32I: the bytes of its memory, and
                               the words at its start in hexadecimal
  program-m NAME SIZE WORD ..  the same, with RV32M
  proc NAME PROGRAM            a process of it; they are numbered from 0

  run P K          process P runs, at most K instructions
  give P F         frame F is offered to P; messages become frames as they are
                   sent, numbered from 0, and a frame may be given many times
  flush P          P stores what it received, and notes it to the manager
  flush P K        the same for the first K that it received and has not stored
  checkpoint P     P stores its state, and notes it
  spell P          P stores its state, and notes nothing yet
  fail P           P is down, and what it had not stored is lost
  join P           P, which is up, flushes, and joins the round of recovery that
                   a failure opened; the round is finished when all are in
  resume P         P, which is down or in, is up again after a finished round:
                   rolled back to the recovery state, or as it was
  resend P         each message that P keeps becomes a new frame
  trim P           P drops what it need not keep
  prune            the manager and the stores drop what they need not keep
  restart          all that runs is lost, and a new manager starts over the
                   stores; each process is down until it resumes

Answers:
  ran STEPS STATUS sent M made K   STATUS is ready, waiting, ended CODE or
                                   trapped CAUSE; M messages, K outputs
  taken X, repeat, ahead, orphan, not-waiting, stranger, full   to a give;
                                   X is the interval that begins
  noted K, sent M, trimmed, pruned
  waiting, finished                to a fail or a join; the round, then
  down                             to a fail of which nobody need know
  back X inc I, goes-on            to a resume: rolled back to interval X, in
                                   incarnation I; or as it was
  restarted R .., unsettled        to a restart: the recovery state; or not
                                   all are back from the last round
  no-process, not-up, no-frame, not-in, no-round, spent, present, fault,
  damaged, memory
In the end:
  recovery X0 ..                   the greatest recoverable state
  proc NAME inc I interval X STATUS, or proc NAME down
  out NAME NUMBER HEX              an output that may be released

With --text the bytes of outputs are written as text, as by run.
A faulty script is refused whole: 'line N: ..' on standard error, status 1.

Example: c sends its first 4 bytes to process 1, which puts them out. They may
be released once it has stored the message.
  program pc 64 00100893 00100513 00400613 00000073 00000893 00000073
  program pa 128 00200893 04000513 00400593 00000073 00300893 00050593 04000513
          00000073 00000893 00000073        (as one line)
  proc c pc
  proc a pa
  run 0 100                        ran 5 ended 0 sent 1 made 0
  run 1 100                        ran 3 waiting sent 0 made 0
  give 1 0                         taken 1
  run 1 100                        ran 5 ended 0 sent 0 made 1
  flush 1                          noted 1
                                   recovery 0 1
                                   proc c inc 0 interval 0 ended 0
                                   proc a inc 0 interval 1 ended 0
                                   out a 0 93081000";

pub(crate) const RUN: &str = "run";

/// What `--help` tells of `run`.
pub const RUN_HELP: &str = "\
Reads a cluster file and runs the cluster: each process in a thread, with a log
of what it receives and with checkpoints. A process that fails comes back from
what it stored. Written is what may be released, and how each process ended.

  program NAME SIZE WORD ..    a program of RV32I: the bytes of its memory, and
                               the words at its start in hexadecimal
  program-m NAME SIZE WORD ..  the same, with RV32M
  proc NAME PROGRAM            a process of it, 1 to 16; numbered from 0
Behind these, in any order; in brackets what holds without the line:
  kill NAME INTERVAL   the process fails, once, as it begins the interval; at
                       most 64 such lines
  flush K              a process stores its log after every K receipts (4)
  checkpoint K         a process stores its state after every K receipts (16)
  fuel K               a process runs at most K instructions a turn (1000)

With --store PREFIX the stores are the files PREFIX, the process's number and
.db, which must not be there yet; without it they are in memory. When the run
ended well, each store is whole in its one file.

With --resume too, a run goes on from its stores where an earlier one was ended
before its end, by a kill or a loss of power or for want of turns; where there
are none it begins. It writes its text from output 0 on, that of a run without
failures however often it was ended. The programs and the order of the processes
are to be those of before; all else may differ. Such stores keep more, and a run
without --resume does not take them.

With --check the run is compared before anything is written: when the cluster
has ended, a run without failures in which each process receives the same
messages in the same order is played in one thread. Where both have the same
text, to the byte, it is written; else the run is refused: unlike its check.
With --witness FILE the same is done, and that run is written to FILE: sim
plays it event by event, to the same outputs.

With --record FILE what the threads did is written to FILE, in one order and
with comments on failures and rounds: sim plays it event by event, to the same
outputs. It is written too where the run is refused. A recorded process notes
what it stored at once, and is a little slower; the text is the same.

With --follow each output is written as soon as it is released: the lines of a
process in order, those of different processes as they come. What was released
by then is written too where the run is refused.

With --text the bytes of outputs are written as text between quotation marks,
in place of HEX, with the escapes of C: \\\" \\\\ \\n \\t \\r, and any other byte that
is no printable ASCII as a backslash and three octal digits.

With --raw NAME only the bytes that the process NAME put out are written, one
output behind the other, when the run has ended; with --follow too, each output
as soon as it is released.

With --kills N as many kills, 64 at most, are drawn by --seed S in place of the
lines kill: each of any process, at an interval from 1 to 4, 16, 64, 256 or 1024.
The same seed draws the same. A kill behind the last message that its process
receives does not come. What is written is the same.

With --strict the status is 1, too, where a process trapped or a line kill did
not come; what is written is the same.

With --verbose, and where standard error is a terminal, more is said there, and
nothing else changes: what was refused and why; which processes trapped, of what
and at which pc; how many sends of each were refused; which kills did not come;
where turns ran out also which processes ended, and of each other one what it
did or waited for, and in which interval.
On a terminal a line each second says how far the run has come: instructions of
all processes, messages, the round of recovery, and the recovery state.

FILE of --witness and --record may not be what the run has anyway: its input, a
store, or what lies beside one; nor any database, or the log of one.

Answers:
  out NAME NUMBER HEX  an output that is released
  end NAME STATUS      ended CODE or trapped CAUSE
Causes:
  1  no instruction has the word at pc: without program-m also not mul or div
  2  ebreak
  3  pc lies outside memory
  4  a jump or a branch to an address that is no multiple of 4
  5  2 or 4 bytes at an address that is no multiple of their number
  6  a load or a store outside memory
  7  ecall with a number above 4 in x17
  8  the buffer of a call lies outside memory
  9  2^64 - 1 instructions
Refused, on standard error, status 1:
  empty script         there is no process
  out of turns         a process did not end within its turns: it waits for a
                       message that never comes, does not end, or computes for
                       long and needs more --turns, or more fuel a turn
  store fault          a store cannot be made, is there already, or failed
  store in use         with --resume: another program has one of the stores
  another cluster      with --resume: a store is of another program, process or
                       number of processes
  store missing        with --resume: a store holds nothing, and others do
  no thread            a thread cannot be made
  unlike its check     what the cluster wrote is not what that run writes
  no such process      with --raw: no process has this name
  cannot write         also: FILE cannot be made
A faulty file is refused whole: 'line N: ..' on standard error, status 1.

Example: the programs and processes of the example of sim. That a message was
lost with what a had not stored is not seen in the output.
  program pc 64 ..
  program pa 128 ..
  proc c pc
  proc a pa
  kill a 1             out a 0 93081000
                       end c ended 0
                       end a ended 0";

pub(crate) const TURNS: &str = "turns";

pub(crate) const STORE: &str = "store";

pub(crate) const RESUME: &str = "resume";

pub(crate) const IMAGE: &str = "image";

/// What `--help` tells of `image`.
pub const IMAGE_HELP: &str = "\
Reads a raw image from standard input, as objcopy -O binary writes one, and
writes its line for a script or a cluster file:

  program NAME SIZE WORD ..    the bytes of memory, and the words at its start

A word is four bytes, the lowest first; the last is padded with zeros. With
--m the line is a program-m, which may multiply and divide.

A linked program, an ELF file, is refused with status 1: objcopy -O binary makes
a raw image of it. A line that a script would refuse is refused in its words:
  line 1: bad number      SIZE is no number of 32 bits; status 2
  line 1: bad name        NAME is not 1 to 32 letters, digits and _; status 2
  line 1: bad size        SIZE is not 4 to 65536, or no multiple of 4; status 2
  line 1: image too long  the image has more than SIZE bytes; status 1

Example, of an image of eight bytes:
  omlog image pc 64 < pc.bin     program pc 64 00100893 00000073";

pub(crate) const NAME: &str = "NAME";

pub(crate) const SIZE: &str = "SIZE";

pub(crate) const CHECK: &str = "check";

pub(crate) const WITNESS: &str = "witness";

pub(crate) const RECORD: &str = "record";

pub(crate) const FOLLOW: &str = "follow";

pub(crate) const RAW: &str = "raw";

pub(crate) const TEXT: &str = "text";

pub(crate) const STRICT: &str = "strict";

pub(crate) const KILLS: &str = "kills";

pub(crate) const SEED: &str = "seed";

pub(crate) const VERBOSE: &str = "verbose";

pub(crate) const INPUT: &str = "INPUT";

// The version of the commands, their texts and their formats.
const VERSION: &str = "1.0";

// The subcommands, in the order of the help.
const SUBCOMMANDS: &[Subcommand] = &[
    Subcommand::Decode,
    Subcommand::Image,
    Subcommand::Frontier,
    Subcommand::Sim,
    Subcommand::Draw,
    Subcommand::Run,
    Subcommand::Explore,
    Subcommand::Debug,
    Subcommand::Replay,
    Subcommand::Show,
];

const DECODE_COMMAND: CommandText = CommandText {
    name: DECODE,
    about: "The texts of the instructions that words of RV32I stand for",
    help: DECODE_HELP,
    usage: None,
    arguments: &[
        ArgumentText {
            name: M,
            help: "Read the instructions of RV32M too",
            ..FLAG
        },
        INPUT_FILE,
        VERBOSE_FLAG,
    ],
};

const IMAGE_COMMAND: CommandText = CommandText {
    name: IMAGE,
    about: "The program line of a raw image",
    help: IMAGE_HELP,
    usage: None,
    arguments: &[
        ArgumentText {
            name: M,
            help: "The program may use RV32M",
            ..FLAG
        },
        ArgumentText {
            name: NAME,
            help: "The name of the program",
            values: &[NAME],
            is_required: true,
            ..WORD
        },
        ArgumentText {
            name: SIZE,
            help: "The bytes of its memory, 4 to 65536",
            values: &[SIZE],
            is_required: true,
            ..WORD
        },
        VERBOSE_FLAG,
    ],
};

const FRONTIER_COMMAND: CommandText = CommandText {
    name: FRONTIER,
    about: "The greatest recoverable state after each note of a record script",
    help: FRONTIER_HELP,
    usage: None,
    arguments: &[INPUT_FILE, VERBOSE_FLAG],
};

const SIM_COMMAND: CommandText = CommandText {
    name: SIM,
    about: "Logged processes that are played event by event",
    help: SIM_HELP,
    usage: None,
    arguments: &[TEXT_FLAG, INPUT_FILE, VERBOSE_FLAG],
};

const RUN_COMMAND: CommandText = CommandText {
    name: RUN,
    about: "Logged processes that run in threads, fail and recover",
    help: RUN_HELP,
    usage: None,
    arguments: &[
        TURNS_OPTION,
        STORE_OPTION,
        RESUME_FLAG,
        CHECK_FLAG,
        WITNESS_OPTION,
        RECORD_OPTION,
        FOLLOW_FLAG,
        KILLS_OPTION,
        SEED_OPTION,
        TEXT_FLAG,
        RAW_OPTION,
        STRICT_FLAG,
        INPUT_FILE,
        VERBOSE_FLAG,
    ],
};

pub(crate) const INPUT_FILE: ArgumentText = ArgumentText {
    name: INPUT,
    help: "What is read, in place of standard input; - is standard input",
    values: &["FILE"],
    ..WORD
};

pub(crate) const VERBOSE_FLAG: ArgumentText = ArgumentText {
    name: VERBOSE,
    help: "Say more on standard error: what was refused and why; of a run, who waited",
    ..FLAG
};

const TURNS_OPTION: ArgumentText = ArgumentText {
    name: TURNS,
    help: "The most turns of each process, a number of 64 bits [default: 50000000]",
    values: &["K"],
    ..OPTION
};

const STORE_OPTION: ArgumentText = ArgumentText {
    name: STORE,
    help: "Keep the stores in files",
    values: &["PREFIX"],
    ..OPTION
};

const RESUME_FLAG: ArgumentText = ArgumentText {
    name: RESUME,
    help: "Go on from the stores where there are any",
    needs: &[STORE],
    excludes: &[RECORD],
    ..FLAG
};

const CHECK_FLAG: ArgumentText = ArgumentText {
    name: CHECK,
    help: "Write only what a run without failures writes",
    ..FLAG
};

const WITNESS_OPTION: ArgumentText = ArgumentText {
    name: WITNESS,
    help: "Check, and write that run to FILE as a script of sim",
    values: &["FILE"],
    ..OPTION
};

const RECORD_OPTION: ArgumentText = ArgumentText {
    name: RECORD,
    help: "Write what the threads did to FILE as a script of sim",
    values: &["FILE"],
    excludes: &[CHECK, WITNESS],
    ..OPTION
};

const FOLLOW_FLAG: ArgumentText = ArgumentText {
    name: FOLLOW,
    help: "Write each output as soon as it is released",
    excludes: &[CHECK, WITNESS, RECORD],
    ..FLAG
};

const KILLS_OPTION: ArgumentText = ArgumentText {
    name: KILLS,
    help: "Draw N kills, at most 64, in place of those of FILE",
    values: &["N"],
    ..OPTION
};

const SEED_OPTION: ArgumentText = ArgumentText {
    name: SEED,
    help: "Which kills are drawn, a number of 64 bits [default: 0]",
    values: &["S"],
    needs: &[KILLS],
    ..OPTION
};

const TEXT_FLAG: ArgumentText = ArgumentText {
    name: TEXT,
    help: "Write the bytes of outputs as text with the escapes of C",
    ..FLAG
};

const RAW_OPTION: ArgumentText = ArgumentText {
    name: RAW,
    help: "Write only the bytes that the process NAME put out",
    values: &["NAME"],
    excludes: &[CHECK, WITNESS, RECORD, TEXT],
    ..OPTION
};

const STRICT_FLAG: ArgumentText = ArgumentText {
    name: STRICT,
    help: "End with status 1 where a process trapped, or a line kill did not come",
    ..FLAG
};

pub(crate) fn command<'a>(alloc: Global) -> Result<Command<'a>, AllocError> {
    let subcommands = subcommands(alloc)?;
    Command::new(alloc, "omlog")
        .bin_name("omlog")?
        .about(
            "Runs message-passing programs whose processes log, fail and recover, and computes their recovery states",
        )
        .version(VERSION)
        .after_long_help(HELP)
        .subcommand_required(true)
        .subcommands(subcommands)
}

// Makes the commands of all subcommands, in their order.
fn subcommands<'a>(alloc: Global) -> Result<Vec<Command<'a>>, AllocError> {
    let mut commands = Vec::new(alloc);
    for subcommand in SUBCOMMANDS {
        commands.push(command_of(alloc, *subcommand)?)?;
    }
    Ok(commands)
}

pub(crate) fn command_of<'a>(
    alloc: Global,
    subcommand: Subcommand,
) -> Result<Command<'a>, AllocError> {
    command_by(alloc, text_of(subcommand))
}

// Returns what is said of a subcommand.
fn text_of(subcommand: Subcommand) -> CommandText {
    match subcommand {
        Subcommand::Decode => DECODE_COMMAND,
        Subcommand::Frontier => FRONTIER_COMMAND,
        Subcommand::Sim => SIM_COMMAND,
        Subcommand::Draw => DRAW_COMMAND,
        Subcommand::Run => RUN_COMMAND,
        Subcommand::Explore => EXPLORE_COMMAND,
        Subcommand::Debug => DEBUG_COMMAND,
        Subcommand::Replay => REPLAY_COMMAND,
        Subcommand::Show => SHOW_COMMAND,
        Subcommand::Image => IMAGE_COMMAND,
    }
}
