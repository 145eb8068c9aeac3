//! Kills that are drawn.

ghost use Rattle.std.specs.Prelude.{◌≡◌, ◌≤◌, ◌<◌, All, IfOk, length};
ghost use Rattle.om_interval.specs.declared.pid.TheConstants.{MAX_PROCESSES};
ghost use Rattle.om_run_commands.specs.RandomKills.{IsDrawn};

use om_interval::{MAX_PROCESSES, Pid};
use rand_core::{Rng, SeedableRng};
use rand_xoshiro::Xoshiro256PlusPlus;
use std::alloc::{AllocError, Global};

/// The greatest interval of a kill that is drawn.
pub const LAST_DRAWN: u64 = 1_024;

/// How many kills are drawn in place of those of a cluster file, and by which seed. The same seed draws the same kills.
#[derive(Clone, Copy, Debug, PartialEq, Eq)]
pub struct RandomKills {
    pub count: usize,
    pub seed: u64,
}

// Returns below which interval a kill comes, by a number that is drawn: a short run has some of its kills, and a long one not all at
// its start.
fn bound_of(drawn: u64) -> u64
    ensures least { 1 ≤ result }
    ensures most { result ≤ LAST_DRAWN }
{
    match drawn % 5 {
        0 => 4,
        1 => 16,
        2 => 64,
        3 => 256,
        _ => LAST_DRAWN,
    }
}

// Draws a kill of one of so many processes.
fn draw(generator: &mut Xoshiro256PlusPlus, n: usize) -> (Pid, u32)
    requires some { 1 ≤ n }
    requires few { n ≤ MAX_PROCESSES }
    ensures { IsDrawn n result }
{
    let process = generator.next_u64() % n as u64;
    let bound = bound_of(generator.next_u64());
    let interval = generator.next_u64() % bound + 1;
    (Pid::at(process as usize), interval as u32)
}

impl RandomKills {
    // Draws the kills of a cluster of so many processes.
    pub(crate) fn of(self, alloc: Global, n: usize) -> Result<Vec<(Pid, u32)>, AllocError>
        requires some { 1 ≤ n }
        requires few { n ≤ MAX_PROCESSES }
        ensures many { IfOk result (λ kills. length kills.items ≡ self.count) }
        ensures drawn { IfOk result (λ kills. All (IsDrawn n) kills.items) }
    {
        let mut generator = Xoshiro256PlusPlus::seed_from_u64(self.seed);
        let mut kills = Vec::new(alloc);
        for _ in 0..self.count {
            let kill = draw(&mut generator, n);
            kills.push(kill)?;
        }
        Ok(kills)
    }
}
