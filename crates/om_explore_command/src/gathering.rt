//! Gathers what runs come to.

ghost use Rattle.std.specs.Prelude.{◌≡◌};

use crate::context::ExploreContext;
use crate::outcome::outcome_of;
use crate::tally::Tally;
use om_check::{Explored, Visitor};
use om_scripts::Programs;
use std::alloc::{AllocError, Global};
use std::marker::{Brand, PhantomData};

// After so many runs the context learns how far the exploration has come.
const RUNS_TOLD: u64 = 1_000;

// Names the cluster whose runs are gathered, in proofs alone.
pub(crate) trait Subject {
    ghost use Rattle.om_scripts.specs.Programs.{Cluster};

    ghost cluster: { Cluster };
}

impl Subject for Brand {
    ghost use Rattle.om_scripts.specs.Programs.{no_programs};

    ghost cluster = { no_programs };
}

// Is shown runs of these programs, and counts their texts.
#[derive(Drop)]
pub(crate) struct Gathering<'a, J: Subject, C> {
    pub(crate) alloc: Global,
    pub(crate) context: &'a C,
    pub(crate) programs: &'a Programs,
    pub(crate) tally: Tally,
    pub(crate) of: PhantomData<J>,
    ghost named: { programs.now ≡ J.cluster },
}

impl<'a, J: Subject, C: ExploreContext> Gathering<'a, J, C> {
    // Tells how far the exploration has come, now and then.
    fn tell(&self) {
        if self.tally.runs % RUNS_TOLD == 0 {
            self.context.tell(self.tally.runs, self.tally.found.len());
        }
    }
}

impl<'a, J: Subject, C: ExploreContext> Visitor for Gathering<'a, J, C> {
    ghost use Rattle.om_scripts.specs.Programs.{programs_of};
    ghost use Rattle.om_explore_command.specs.Tallies.{IsTally};

    ghost programs = { λ _. programs_of J.cluster };

    ghost has_seen = { λ g runs. IsTally J.cluster g.tally.found.items runs };

    fn visit(&mut self, run: Explored) -> Result<(), AllocError> {
        let outcome = outcome_of(self.alloc, self.programs, run)?;
        self.tally.add(self.alloc, outcome)?;
        self.tell();
        Ok(())
    }
}
