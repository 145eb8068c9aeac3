//! How a cluster is run.

ghost use Rattle.std.specs.Prelude.{◌≡◌, ◌⊎◌, ◌↔◌, IsTrue};
ghost use Rattle.om_run_commands.specs.steps.Modes.{LacksIn};

use om_scripts::Programs;

/// How a run is observed, and so what is written of it.
#[derive(Clone, Copy, Debug, PartialEq, Eq)]
pub enum RunMode<'a> {
    /// By nobody: what it comes to is written at its end.
    Plain,
    /// It is compared with the run without failures that it comes to.
    Check,
    /// The same, and that run is written to a file.
    Witness,
    /// What its threads do is written to a file.
    Record,
    /// Outputs are written as they are released.
    Follow,
    /// By nobody: the bytes that the process of this name put out are written at its end, and nothing else.
    Raw(&'a str),
    /// The same bytes are written as they are released.
    FollowRaw(&'a str),
}

impl<'a> RunMode<'a> {
    // Returns whether a script of `sim` is written, which begins with the lines of programs and processes.
    pub(crate) fn writes_script(self) -> bool
        ensures { IsTrue result ↔ ((self.entry ≡ RunMode.Witness) ⊎ (self.entry ≡ RunMode.Record)) }
    {
        matches!(self, RunMode::Witness | RunMode::Record)
    }

    // Returns whether the process whose outputs are asked for is none of these.
    pub(crate) fn lacks(self, programs: &Programs) -> bool
        ensures { IsTrue result ↔ LacksIn self.entry programs.now }
    {
        match self {
            RunMode::Raw(name) | RunMode::FollowRaw(name) => programs.place(name).is_none(),
            _ => false,
        }
    }
}
