//! Kills that are drawn in place of those of a cluster file.

use super::rings::{ring, ring_ends};
use om_commands::{BytesForm, CommandError};
use om_process::Status;
use om_run_commands::{ClusterScript, RandomKills, RunContext, RunMode, run_file};
use om_runner::InMemory;
use std::alloc::Global;
use std::process::Abort;
use std::sync::Wait;
use std::thread::Threads;
use std::time::Clock;

// The turns of a worker.
const TURNS: u64 = 50_000_000;

// Has kills drawn, and keeps which they are.
#[derive(Drop)]
struct Drawing {
    random_kills: RandomKills,
    kills: Vec<(usize, u32)>,
}

impl RunContext for Drawing {
    fn random_kills(&self) -> Option<RandomKills> {
        Some(self.random_kills)
    }

    fn begin(&mut self, script: &ClusterScript) -> Result<(), CommandError> {
        for (process, interval) in script.kills() {
            if self.kills.push((process.index(), *interval)).is_err() {
                return Err(CommandError::NoMemory);
            }
        }
        Ok(())
    }

    fn write(&mut self, _text: &[u8]) -> Result<(), CommandError> {
        Err(CommandError::CannotWrite)
    }

    fn end(&mut self, _script: &ClusterScript, _outcome: Result<&[Status], CommandError>) {}
}

// Returns what a cluster file comes to with so many kills that are drawn by a seed, its text, and the kills.
fn run_with<R: Threads + Wait + Clock + Abort + Sync>(
    rt: &R,
    alloc: Global,
    file: &str,
    count: usize,
    seed: u64,
) -> (Option<CommandError>, Vec<u8>, Vec<(usize, u32)>) {
    let mut context = Drawing {
        random_kills: RandomKills { count, seed },
        kills: Vec::new(alloc),
    };
    let (outcome, written) = run_file(
        rt,
        alloc,
        RunMode::Plain,
        BytesForm::Hex,
        TURNS,
        &InMemory,
        &mut context,
        &mut file.as_bytes(),
        Vec::new(alloc),
    );
    let Drawing { kills, .. } = context;
    (outcome.err(), written, kills)
}

// The kills that are drawn for a ring of five, whose text is that of a run without failures. Its file has a kill of its own.
fn drawn<R: Threads + Wait + Clock + Abort + Sync>(
    rt: &R,
    alloc: Global,
    count: usize,
    seed: u64,
) -> Vec<(usize, u32)> {
    let file = ring(rt, alloc, 5, "kill p0 2000\n");
    let wanted = ring_ends(rt, alloc, 5);
    let (error, written, kills) = run_with(rt, alloc, &file, count, seed);
    assert!(rt; error.is_none());
    assert!(rt; written.as_slice() == wanted.as_bytes());
    kills
}

// Returns how many kills are of this process.
fn count_of(kills: &[(usize, u32)], p: usize) -> usize {
    kills.iter().filter(|kill| kill.0 == p).count()
}

// Returns how many kills lie above an interval, up to another.
fn count_between(kills: &[(usize, u32)], above: u32, to: u32) -> usize {
    kills
        .iter()
        .filter(|kill| kill.1 > above && kill.1 <= to)
        .count()
}

// Each process has some, and so have short runs and long ones; none lies elsewhere.
#[test]
fn kills_are_drawn_in_place_of_lines(rt: HostRuntime) {
    let alloc = rt.alloc();
    let kills = drawn(&rt, alloc, 64, 1);
    assert!(&rt; kills.len() == 64);
    for p in 0..5 {
        assert!(&rt; count_of(&kills, p) > 0);
    }
    check_places(&rt, &kills);
    assert!(&rt; drawn(&rt, alloc, 0, 1).is_empty());
}

// All of 64 kills lie below interval 1,024, some early and some late.
fn check_places(rt: &impl Abort, kills: &[(usize, u32)]) {
    assert!(rt; count_between(kills, 0, 1_024) == 64);
    assert!(rt; count_between(kills, 0, 4) > 0);
    assert!(rt; count_between(kills, 64, 1_024) > 0);
}

#[test]
fn the_same_seed_draws_the_same_kills(rt: HostRuntime) {
    let alloc = rt.alloc();
    let kills = drawn(&rt, alloc, 20, u64::MAX);
    assert!(&rt; drawn(&rt, alloc, 20, u64::MAX).as_slice() == kills.as_slice());
    assert!(&rt; drawn(&rt, alloc, 20, 0).as_slice() != kills.as_slice());
}

#[test]
fn no_kill_is_drawn_of_no_process(rt: HostRuntime) {
    let (error, written, kills) = run_with(&rt, rt.alloc(), "flush 2\n", 3, 1);
    assert!(&rt; error == Some(CommandError::EmptyScript));
    assert!(&rt; written.is_empty() && kills.is_empty());
}
