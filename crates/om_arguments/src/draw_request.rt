//! The subcommand `draw`: its window, and how it is asked for.

use crate::building::{ArgumentText, CommandText, OPTION};
use crate::commands::{INPUT_FILE, VERBOSE_FLAG};
use crate::mistake::{Mistake, number_for};
use clap::ArgMatches;

pub(crate) const DRAW: &str = "draw";

const FROM: &str = "from";

const TO: &str = "to";

const DRAW_HELP: &str = "\
Reads an event script as sim does, plays it, and writes a picture of the run:
an SVG file that stands alone. It has a lane for each process, from left to
right as events come. Its legend says what the marks mean; hold the pointer on
a mark to see its line, its event and its answer.

With --from and --to it shows the events of those lines of the script alone.
What happened before is played too, and stands at the left side as it was; what
comes behind is not played.

A faulty script is refused whole, as by sim.

Example:
  omlog draw script.txt > picture.svg
  omlog draw --from 100 --to 160 script.txt > picture.svg";

pub(crate) const DRAW_COMMAND: CommandText = CommandText {
    name: DRAW,
    about: "The picture of logged processes that are played event by event",
    help: DRAW_HELP,
    usage: None,
    arguments: &[FROM_OPTION, TO_OPTION, INPUT_FILE, VERBOSE_FLAG],
};

const FROM_OPTION: ArgumentText = ArgumentText {
    name: FROM,
    help: "The first line of the script that is shown",
    values: &["LINE"],
    ..OPTION
};

const TO_OPTION: ArgumentText = ArgumentText {
    name: TO,
    help: "The last line that is played",
    values: &["LINE"],
    ..OPTION
};

/// The lines of a script whose events are drawn.
#[derive(Clone, Copy, Debug, PartialEq, Eq)]
pub struct Lines {
    /// The first that is shown.
    pub from: usize,
    /// The last that is played.
    pub to: usize,
}

// Reads the window between two lines, where they are numbers.
pub(crate) fn lines_of<'a>(found: &ArgMatches<'a>) -> Result<Lines, Mistake<'a>> {
    Ok(Lines {
        from: line_of("--from <LINE>", found.get_str(FROM), 0)?,
        to: line_of("--to <LINE>", found.get_str(TO), usize::MAX)?,
    })
}

// Returns the number of a line, or what stands for it where it is not given.
fn line_of<'a>(
    argument: &'a str,
    word: Option<&'a str>,
    default: usize,
) -> Result<usize, Mistake<'a>> {
    match word {
        Some(word) => Ok(number_for(argument, word)? as usize),
        None => Ok(default),
    }
}
