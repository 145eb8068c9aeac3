//! What an exploration has beside its input and its text.

ghost use Rattle.std.specs.Prelude.{◌≡◌, IfErr};
ghost use Rattle.om_commands.specs.declared.error.CommandError.{CommandError};

use om_commands::CommandError;

/// What an exploration has beside its input and its text: somebody who waits for it, and files for scripts.
pub trait ExploreContext {
    /// Learns how far the exploration has come: how many runs were played, and to how many texts they came.
    fn tell(&self, runs: u64, texts: usize);

    /// Learns the name of the process that came to its limit, where one did; then the exploration is refused.
    fn tell_spent(&self, process: &str);

    /// Returns whether a script of each text is wanted.
    fn wants_witnesses(&self) -> bool;

    /// Takes the script of `sim` that leads to the text of a number, counted from 1; refused with `CannotWrite`.
    fn write_witness(&mut self, number: usize, script: &[u8]) -> Result<(), CommandError>
        ensures { IfErr result (λ error. error ≡ CommandError.CannotWrite) };
}
