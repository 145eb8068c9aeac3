//! How often runs come to each text.

ghost use Rattle.std.specs.Prelude.{◌≡◌, ◌≢◌, ◌++◌, ◌∷◌, ◌+◌, ◌<◌, [], All, IfOk, OnOk, length, map, string_bytes, sum_by};
ghost use Rattle.om_explore_command.specs.Tallies.{text_of};
ghost use Rattle.om_explore_command.specs.steps.{IsCountedAgain, TakesIn};

use crate::outcome::Outcome;
use crate::texts::Texts;
use std::alloc::{AllocError, Global};

/// A text that runs came to.
#[derive(Drop)]
pub struct Found {
    /// What the first of them came to.
    pub outcome: Outcome,
    /// How many runs came to this text.
    pub runs: u64,
}

// What runs came to: each text once, in the order in which they came to it first.
#[derive(Drop)]
pub(crate) struct Tally {
    pub(crate) found: Vec<Found>,
    // The texts of what was found.
    texts: Texts,
    // How many runs there were.
    pub(crate) runs: u64,
    ghost indexed: { texts ≡ map text_of found.items },
    ghost summed: { sum_by (λ f. f.runs) found.items ≡ runs },
}

impl Tally {
    // Makes a tally of no run.
    pub(crate) fn new(alloc: Global) -> Tally
        ensures { result.found.items ≡ [] }
    {
        Tally {
            found: Vec::new(alloc),
            texts: Texts::new(alloc),
            runs: 0,
        }
    }

    // Takes in what one more run came to.
    pub(crate) fn add(&mut self, alloc: Global, outcome: Outcome) -> Result<(), AllocError>
        ensures { OnOk result (TakesIn self.old.found.items outcome self.new.found.items) }
    {
        match self.texts.place(outcome.text.as_str()) {
            Some(place) => self.count(place),
            None => self.push(alloc, outcome),
        }
    }

    // Counts one more run that came to the text at a place.
    fn count(&mut self, place: usize) -> Result<(), AllocError>
        requires { place < length self.old.found.items }
        ensures { OnOk result (IsCountedAgain self.old.found.items place self.new.found.items) }
    {
        let Some(runs) = self.runs.checked_add(1) else {
            return Err(AllocError);
        };
        self.found[place].runs += 1;
        self.runs = runs;
        Ok(())
    }

    // Adds a run that came to a new text.
    fn push(&mut self, alloc: Global, outcome: Outcome) -> Result<(), AllocError>
        requires { All (λ other. other ≢ string_bytes outcome.text) (map text_of self.old.found.items) }
        ensures { OnOk result (self.new.found.items ≡ self.old.found.items ++ (record { outcome = outcome; runs = 1 }) ∷ []) }
    {
        let Some(runs) = self.runs.checked_add(1) else {
            return Err(AllocError);
        };
        self.found.try_reserve(1)?;
        self.texts.add(alloc, outcome.text.as_str())?;
        self.found.push_reserved(Found { outcome, runs: 1 });
        self.runs = runs;
        Ok(())
    }
}
