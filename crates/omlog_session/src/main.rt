//! Runs of the program `omlog` over files that lie where this one runs, one behind the other: a run that is checked, one that is followed, one
//! that is played by hand, and looks into a store that SQLite itself made.
#![tactic(auto)]

use om_program::run_words;
use std::process::ExitCode;

// The words of each run.
static RUNS: [&[&str]; 5] = [
    &["omlog", "run", "--check", "ring"],
    &["omlog", "run", "--follow", "pair"],
    &["omlog", "sim", "events"],
    &["omlog", "show", "s1.db"],
    &["omlog", "replay", "s1.db", "1"],
];

// The status is that of the last run.
fn main(rt: HostRuntime) -> ExitCode {
    let mut status = ExitCode::SUCCESS;
    for words in &RUNS {
        status = run_words(&rt, &rt, words);
    }
    status
}
