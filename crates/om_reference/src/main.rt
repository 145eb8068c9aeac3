//! Compares om_isa and om_machine with values from outside tools, which stand in files of the folder where the program
//! runs.
#![tactic(auto)]

mod steps;
mod words;

use std::alloc::{AllocError, Global};
use std::process::ExitCode;
use std::{fs, io};

fn main(rt: HostRuntime) -> ExitCode {
    match compare_all(&rt) {
        Ok(true) => ExitCode::SUCCESS,
        Ok(false) => ExitCode::FAILURE,
        Err(error) => {
            let _ = rt.eprintln(error);
            ExitCode::FAILURE
        }
    }
}

// Compares all files. Answers whether all their lines agree.
fn compare_all(rt: &HostRuntime) -> io::Result<bool> {
    let words = compare(rt, "words", words::agrees)?;
    let words_m = compare(rt, "words-m", words::agrees_with_m_alone)?;
    let steps = compare(rt, "steps", steps::agrees)?;
    let steps_m = compare(rt, "steps-m", steps::agrees_with_m_alone)?;
    Ok(words && words_m && steps && steps_m)
}

// Prints each line of a file that does not agree, and how many do. Answers whether all do.
fn compare<F: Fn(Global, &str) -> Result<bool, AllocError>>(
    rt: &HostRuntime,
    name: &str,
    agrees: F,
) -> io::Result<bool>
    requires { F.IsAlwaysCallable agrees }
{
    let text = fs::read_to_string(rt, format!(in rt.alloc(); "{name}.txt")?)?;
    let lines: Vec<&str> = text.lines().collect(rt.alloc())?;
    let mut differing = Vec::new(rt.alloc());
    for line in &lines {
        if !agrees(rt.alloc(), line)? {
            rt.println(line)?;
            differing.push(*line)?;
        }
    }
    let count = lines.len();
    let agreeing = count.saturating_sub(differing.len());
    println!(rt; "{agreeing} of {count} {name} agree")?;
    Ok(differing.is_empty())
}
