//! What the words of a command line ask of the subcommands.

ghost use Rattle.std.specs.Prelude.{◌≡◌, ◌↔◌, IfOk, IsErr, Some, codes};
ghost use Rattle.om_arguments.specs.steps.Requests.{asked_by, ext_of, form_of, subcommand_named};

use crate::commands::{
    CHECK, DECODE, FOLLOW, FRONTIER, IMAGE, INPUT, KILLS, M, NAME, RAW, RECORD, RESUME, RUN, SEED,
    SIM, SIZE, STORE, STRICT, TEXT, TURNS, VERBOSE, WITNESS, command, command_of,
};
use crate::debug_request::{DEBUG, SymbolFile, debug_request, symbols_of};
use crate::draw_request::{DRAW, Lines, lines_of};
use crate::explore_request::{EXPLORE, Exploring, exploring_of};
use crate::look_requests::{Look, REPLAY, SHOW, replay_request, show_request};
use crate::mistake::{Mistake, long_number_for, needed, number_up_to};
use clap::error::ErrorKind;
use clap::{ArgMatches, Command, Error};
use om_isa::Ext;
use om_scripts::MAX_KILLS;
use std::alloc::{AllocError, Global};
use std::convert::AsStr;

// The most turns of a worker, where nothing is said.
const DEFAULT_TURNS: u64 = 50_000_000;

// The name that stands for standard input. As that of a file to be written it would stand for standard output.
pub(crate) const STANDARD_STREAM: &str = "-";

// What a subcommand is for.
#[derive(Clone, Copy)]
pub(crate) enum Subcommand {
    Decode,
    Frontier,
    Sim,
    Draw,
    Run,
    Explore,
    Debug,
    Replay,
    Show,
    Image,
}

/// What the words of a command line ask for.
#[derive(Clone, Copy, Debug, PartialEq, Eq)]
pub enum Request<'a> {
    Decode(Ext),
    Frontier,
    Sim(OutputForm),
    Draw(Lines),
    Run(Running<'a>),
    Explore(Exploring<'a>),
    /// Of the record that is the input: one process, or all.
    Debug {
        process: Option<&'a str>,
    },
    /// Of the process whose store the file is: at an interval, or else at the last.
    DebugStore {
        file: &'a str,
        interval: Option<u32>,
    },
    Look(Look<'a>),
    Image {
        ext: Ext,
        name: &'a str,
        size: &'a str,
    },
}

/// How a cluster is to be run.
#[derive(Clone, Copy, Debug, PartialEq, Eq)]
pub struct Running<'a> {
    /// The most turns of each worker.
    pub turns: u64,
    /// The prefix of the files of its stores; without one they are in memory.
    pub prefix: Option<&'a str>,
    /// Whether the run goes on from its stores where there are any.
    pub resumes: bool,
    pub checking: Checking<'a>,
    pub form: OutputForm,
    /// What is drawn in place of the kills of the cluster file.
    pub kills: Option<Kills>,
    /// Whether a process that trapped is a failure, and a line `kill` that did not come.
    pub strict: bool,
}

/// How many kills are drawn, 64 at most, and by which seed.
#[derive(Clone, Copy, Debug, PartialEq, Eq)]
pub struct Kills {
    pub count: u32,
    pub seed: u64,
}

/// How the bytes of outputs are written.
#[derive(Clone, Copy, Debug, PartialEq, Eq)]
pub enum OutputForm {
    Hex,
    /// As text between quotation marks.
    Text,
}

/// Whether a run is compared with the run without failures that it comes to, and the file that this is written to; or the
/// file that what its threads did is written to; or whether outputs are written as they are released; or the process whose
/// outputs are written alone.
#[derive(Clone, Copy, Debug, PartialEq, Eq)]
pub enum Checking<'a> {
    Off,
    Check,
    Witness(&'a str),
    Record(&'a str),
    Follow,
    Raw(&'a str),
    FollowRaw(&'a str),
}

/// A request, and what goes with each.
#[derive(Debug, PartialEq, Eq, Drop)]
pub struct Asked<'a> {
    pub request: Request<'a>,
    /// The file that is read in place of standard input, where one is named.
    pub input: Option<&'a str>,
    /// The files with the symbols of programs, for `debug`: one for each program at most.
    pub symbols: Vec<SymbolFile<'a>>,
    /// Whether more is said on standard error.
    pub verbose: bool,
}

/// Returns what the words of a command line ask for, of which the first is the program. Refused, the error has its text: a
/// mistake, a help text or the version that was asked for, or out of memory.
pub fn parse<'a, S: AsStr>(alloc: Global, words: &'a [S]) -> Result<Asked<'a>, Error> {
    let mut command = command(alloc)?;
    let asked = parse_by(alloc, &mut command, words);
    drop(command);
    asked
}

// Returns the same by this command.
fn parse_by<'a, S: AsStr>(
    alloc: Global,
    command: &mut Command<'a>,
    words: &'a [S],
) -> Result<Asked<'a>, Error> {
    let matches = command.try_get_matches_from_mut(words)?;
    let asked = asked_of(alloc, &matches);
    drop(matches);
    match asked {
        Some(asked) => asked,
        None => Err(no_subcommand(command)),
    }
}

// Returns what is asked for, where a subcommand is.
fn asked_of<'a>(alloc: Global, matches: &ArgMatches<'a>) -> Option<Result<Asked<'a>, Error>> {
    let (name, found) = matches.subcommand()?;
    let subcommand = subcommand_of(name)?;
    Some(asked_in(alloc, subcommand, found))
}

// Returns what is asked for by the words of a subcommand.
fn asked_in<'a>(
    alloc: Global,
    subcommand: Subcommand,
    found: &ArgMatches<'a>,
) -> Result<Asked<'a>, Error> {
    match request_of(subcommand, found) {
        Ok(request) => Ok(Asked {
            request,
            input: found.get_str(INPUT).filter(|name| *name != STANDARD_STREAM),
            symbols: symbols_of(alloc, found)?,
            verbose: found.get_flag(VERBOSE),
        }),
        Err(mistake) => Err(refusal_of(alloc, subcommand, mistake)),
    }
}

fn no_subcommand(command: &mut Command<'_>) -> Error {
    match command.error(ErrorKind::MissingSubcommand, "a subcommand is missing") {
        Ok(error) => error,
        Err(refused) => Error::from(refused),
    }
}

// Makes the error of a mistake in the arguments of a subcommand, or of memory that ran out for it.
fn refusal_of(alloc: Global, subcommand: Subcommand, mistake: Mistake<'_>) -> Error {
    match told(alloc, subcommand, mistake) {
        Ok(error) => error,
        Err(refused) => Error::from(refused),
    }
}

// Makes the text of a mistake, with the usage of its subcommand.
fn told(alloc: Global, subcommand: Subcommand, mistake: Mistake<'_>) -> Result<Error, AllocError> {
    let what = mistake.to_string(alloc)?;
    let mut command = named_whole(alloc, subcommand)?;
    let error = command.error(ErrorKind::ValueValidation, what.as_str());
    drop(command);
    error
}

// Makes the command of a subcommand, whose usage names the program too.
fn named_whole<'a>(alloc: Global, subcommand: Subcommand) -> Result<Command<'a>, AllocError> {
    let name = name_of(subcommand);
    let bin_name = format!(in alloc; "omlog {name}")?;
    command_of(alloc, subcommand)?.bin_name(bin_name.as_str())
}

// Makes the request of a subcommand, where what it is given for a number is one.
fn request_of<'a>(
    subcommand: Subcommand,
    found: &ArgMatches<'a>,
) -> Result<Request<'a>, Mistake<'a>>
    ensures { IfOk result (λ request. asked_by request ≡ subcommand) }
{
    match subcommand {
        Subcommand::Decode => Ok(Request::Decode(ext_of(found.get_flag(M)))),
        Subcommand::Frontier => Ok(Request::Frontier),
        Subcommand::Sim => Ok(Request::Sim(form_of(found.get_flag(TEXT)))),
        Subcommand::Draw => Ok(Request::Draw(lines_of(found)?)),
        Subcommand::Run => run_request(found),
        Subcommand::Explore => Ok(Request::Explore(exploring_of(found)?)),
        Subcommand::Debug => debug_request(found),
        Subcommand::Replay => Ok(Request::Look(replay_request(found)?)),
        Subcommand::Show => Ok(Request::Look(show_request(found)?)),
        Subcommand::Image => image_request(found),
    }
}

// Returns the subcommand of a name.
fn subcommand_of(name: &str) -> Option<Subcommand>
    ensures { result ≡ subcommand_named name.now }
{
    match name {
        DECODE => Some(Subcommand::Decode),
        FRONTIER => Some(Subcommand::Frontier),
        SIM => Some(Subcommand::Sim),
        DRAW => Some(Subcommand::Draw),
        RUN => Some(Subcommand::Run),
        EXPLORE => Some(Subcommand::Explore),
        DEBUG => Some(Subcommand::Debug),
        REPLAY => Some(Subcommand::Replay),
        SHOW => Some(Subcommand::Show),
        IMAGE => Some(Subcommand::Image),
        _ => None,
    }
}

// Returns the name of a subcommand.
fn name_of(subcommand: Subcommand) -> &'static str
    ensures { subcommand_named result.now ≡ Some subcommand }
{
    match subcommand {
        Subcommand::Decode => DECODE,
        Subcommand::Frontier => FRONTIER,
        Subcommand::Sim => SIM,
        Subcommand::Draw => DRAW,
        Subcommand::Run => RUN,
        Subcommand::Explore => EXPLORE,
        Subcommand::Debug => DEBUG,
        Subcommand::Replay => REPLAY,
        Subcommand::Show => SHOW,
        Subcommand::Image => IMAGE,
    }
}

// Makes the request for the line of an image.
fn image_request<'a>(found: &ArgMatches<'a>) -> Result<Request<'a>, Mistake<'a>>
    ensures { IfOk result (λ request. asked_by request ≡ Subcommand.Image) }
{
    Ok(Request::Image {
        ext: ext_of(found.get_flag(M)),
        name: needed(found, NAME)?,
        size: needed(found, SIZE)?,
    })
}

// Returns the instructions that a program may use, by the flag `--m`.
fn ext_of(with_m: bool) -> Ext
    ensures { result ≡ ext_of with_m }
{
    if with_m { Ext::Im } else { Ext::I }
}

// Returns how the bytes of outputs are to be written, by the flag `--text`.
pub(crate) fn form_of(with_text: bool) -> OutputForm
    ensures { result ≡ form_of with_text }
{
    if with_text {
        OutputForm::Text
    } else {
        OutputForm::Hex
    }
}

// Returns how a run is to be checked, recorded or followed: with a file for its witness it always is checked, and the bytes of
// one process may be followed. The command line takes no other two of them together.
fn checking_of<'a>(found: &ArgMatches<'a>) -> Result<Checking<'a>, Mistake<'a>> {
    if let Some(path) = found.get_str(WITNESS) {
        return Ok(Checking::Witness(file_for("--witness <FILE>", path)?));
    }
    if let Some(name) = found.get_str(RAW) {
        return Ok(raw_of(name, found.get_flag(FOLLOW)));
    }
    match found.get_str(RECORD) {
        Some(path) => Ok(Checking::Record(file_for("--record <FILE>", path)?)),
        None if found.get_flag(CHECK) => Ok(Checking::Check),
        None if found.get_flag(FOLLOW) => Ok(Checking::Follow),
        None => Ok(Checking::Off),
    }
}

// Returns the name of a file that is to be written beside the text, which standard output cannot take too.
fn file_for<'a>(argument: &'a str, path: &'a str) -> Result<&'a str, Mistake<'a>>
    ensures file { IfOk result (λ file. file ≡ path.entry) }
    ensures refused { IsErr result ↔ (path.now ≡ codes "-") }
{
    if path == STANDARD_STREAM {
        return Err(Mistake::NoFile(argument));
    }
    Ok(path)
}

// Returns how the bytes of a process are to be written: at the end, or as they are released.
fn raw_of<'a>(name: &'a str, follows: bool) -> Checking<'a> {
    if follows {
        Checking::FollowRaw(name)
    } else {
        Checking::Raw(name)
    }
}

// Reads the kills that are to be drawn, if any are, where their numbers are numbers.
fn kills_of<'a>(found: &ArgMatches<'a>) -> Result<Option<Kills>, Mistake<'a>> {
    let Some(count) = found.get_str(KILLS) else {
        return Ok(None);
    };
    let count = number_up_to("--kills <N>", count, MAX_KILLS as u32)?;
    let seed = match found.get_str(SEED) {
        Some(seed) => long_number_for("--seed <S>", seed)?,
        None => 0,
    };
    Ok(Some(Kills { count, seed }))
}

// Makes the request to run a cluster, where its turns and what else is a number are numbers.
fn run_request<'a>(found: &ArgMatches<'a>) -> Result<Request<'a>, Mistake<'a>>
    ensures { IfOk result (λ request. asked_by request ≡ Subcommand.Run) }
{
    let turns = match found.get_str(TURNS) {
        Some(turns) => long_number_for("--turns <K>", turns)?,
        None => DEFAULT_TURNS,
    };
    Ok(Request::Run(Running {
        turns,
        prefix: found.get_str(STORE),
        resumes: found.get_flag(RESUME),
        checking: checking_of(found)?,
        form: form_of(found.get_flag(TEXT)),
        kills: kills_of(found)?,
        strict: found.get_flag(STRICT),
    }))
}
