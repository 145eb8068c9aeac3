//! Orders that are drawn.

ghost use Rattle.std.specs.Prelude.{◌≤◌};
ghost use Rattle.om_interval.specs.declared.pid.TheConstants.{MAX_PROCESSES};

use om_check::{Delivery, Scheduler};
use om_interval::MAX_PROCESSES;
use rand_core::{Rng, SeedableRng};
use rand_xoshiro::Xoshiro256PlusPlus;
use std::alloc::{AllocError, Global};

// How likely messages of the one process to the other are to come next, against the others that can. With weights that far apart a
// message may come very late.
const WEIGHTS: [u64; 4] = [1, 16, 256, 4_096];

// Draws which message comes next.
#[derive(Drop)]
pub(crate) struct Draws {
    generator: Xoshiro256PlusPlus,
    // By sender, and there by receiver.
    weights: Vec<u64>,
}

impl Draws {
    // Makes draws by a seed.
    pub(crate) fn new(alloc: Global, seed: u64) -> Result<Draws, AllocError> {
        Ok(Draws {
            generator: Xoshiro256PlusPlus::seed_from_u64(seed),
            weights: vec![in alloc; 1; MAX_PROCESSES * MAX_PROCESSES]?,
        })
    }

    // Draws the weights anew, for a run.
    pub(crate) fn deal(&mut self) {
        for weight in self.weights.iter_mut() {
            let place = self.generator.next_u64() % 4;
            *weight = WEIGHTS[place as usize];
        }
    }

    // Returns how likely a delivery is, against the others.
    fn weight(&self, delivery: &Delivery) -> u64 {
        let place = delivery.from.index() * MAX_PROCESSES + delivery.to.index();
        self.weights.get(place).copied().unwrap_or(1)
    }

    // Returns how likely all these are together.
    fn total(&self, deliveries: &[Delivery]) -> u64 {
        let mut total: u64 = 0;
        for delivery in deliveries {
            total = total.saturating_add(self.weight(delivery));
        }
        total
    }
}

impl Scheduler for Draws {
    fn pick(&mut self, deliveries: &[Delivery]) -> Option<usize> {
        let total = self.total(deliveries);
        if total == 0 {
            return None;
        }
        let mut left = self.generator.next_u64() % total;
        for (place, delivery) in deliveries.iter().enumerate() {
            let weight = self.weight(delivery);
            if left < weight {
                return Some(place);
            }
            left -= weight;
        }
        None
    }
}
