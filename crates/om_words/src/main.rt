//! Compares the words of answers and of faults, as they are printed, with the texts that tell of them: the helps, and the
//! formats, which are a file of the folder where the program runs.
//!
//! Each has a form, in which words in capitals stand for any: `taken X`. What is printed has to be of its form, and the form has
//! to stand in the section of its command: in backquotes in the formats, and in the help.
//!
//! In an order of reading: `words` (what is printed, its forms, and where they are told), `forms`.
#![tactic(auto)]

mod forms;
mod words;

use crate::forms::{is_of, section};
use crate::words::{
    Group, Word, answers, debug_faults, faults, image_faults, line_faults, printed, replay_faults,
    run_faults, statuses,
};
use std::process::ExitCode;
use std::{fs, io};

fn main(rt: HostRuntime) -> ExitCode {
    match compare_all(&rt) {
        Ok(true) => ExitCode::SUCCESS,
        Ok(false) => ExitCode::FAILURE,
        Err(error) => {
            let _ = rt.eprintln(error);
            ExitCode::FAILURE
        }
    }
}

// Compares all. Answers whether each word is told.
fn compare_all(rt: &HostRuntime) -> io::Result<bool> {
    let formats = fs::read_to_string(rt, "FORMATS.md")?;
    let faults = compare_faults(rt, &formats)?;
    let statuses = compare(rt, &formats, &statuses())?;
    let answers = compare(rt, &formats, &answers())?;
    Ok(faults && statuses && answers)
}

fn compare_faults(rt: &HostRuntime, formats: &str) -> io::Result<bool> {
    let lines = compare(rt, formats, &line_faults())?;
    let all = compare(rt, formats, &faults())?;
    let image = compare(rt, formats, &image_faults())?;
    let run = compare(rt, formats, &run_faults())?;
    let debug = compare(rt, formats, &debug_faults())?;
    let replay = compare(rt, formats, &replay_faults())?;
    Ok(lines && all && image && run && debug && replay)
}

// Compares a group with its sections. Answers whether each word is told.
fn compare(rt: &HostRuntime, formats: &str, group: &Group) -> io::Result<bool> {
    let told = section(rt.alloc(), formats, group.heading, "## ")?;
    let help = section(rt.alloc(), group.help, group.first, group.next)?;
    let help = if group.help.is_empty() {
        None
    } else {
        Some(help.as_str())
    };
    compare_rows(rt, &told, help, group)
}

// Prints each row that is not told as it should be, and how many are. Answers whether all are.
fn compare_rows(
    rt: &HostRuntime,
    formats: &str,
    help: Option<&str>,
    group: &Group,
) -> io::Result<bool> {
    let mut count: usize = 0;
    for (word, form) in group.rows {
        if is_told(rt, *word, form, formats, help)? {
            count = count.saturating_add(1);
        }
    }
    let name = group.name;
    let all = group.rows.len();
    println!(rt; "{name}: {count} of {all} are told")?;
    Ok(count == all)
}

// Returns whether a word is printed in its form, and told in these sections; else it is printed.
fn is_told(
    rt: &HostRuntime,
    word: Word,
    form: &str,
    formats: &str,
    help: Option<&str>,
) -> io::Result<bool> {
    let printed = printed(rt.alloc(), word)?;
    if is_of(&printed, form) && stands(rt, "`", form, formats)? && is_helped(rt, form, help)? {
        return Ok(true);
    }
    println!(rt; "'{printed}' is not told as '{form}'")?;
    Ok(false)
}

// Returns whether the help tells of a form, where there is one that is to.
fn is_helped(rt: &HostRuntime, form: &str, help: Option<&str>) -> io::Result<bool> {
    match help {
        Some(help) => stands(rt, " ", form, help),
        None => Ok(true),
    }
}

// Returns whether a form stands in a text between these marks.
fn stands(rt: &HostRuntime, mark: &str, form: &str, text: &str) -> io::Result<bool> {
    let marked = format!(in rt.alloc(); "{mark}{form}{mark}")?;
    Ok(text.contains(marked.as_str()))
}
