//! What an exploration says of other runs of its cluster.

ghost use Rattle.std.specs.Prelude.{◌≡◌, ℕ, List, IsTrue, map};
ghost use Rattle.std.specs.List.{IsAmong};
ghost use Rattle.om_scripts.specs.Programs.{Cluster};
ghost use Rattle.om_commands.specs.declared.bytes_text.BytesForm.TheVariants.{Hex};
ghost use Rattle.om_run_commands.specs.Check.{IsFailureFreeIn};
ghost use Rattle.om_explore_command.specs.Explorations.{IsExploration};
ghost use Rattle.om_explore_command.specs.Tallies.{text_of};
ghost use Rattle.om_explore_command.specs.declared.exploration.Exploration.{Exploration};

/// Proves that where an exploration found all runs, the text of every run without failures in which each process ends is told,
/// and so is what `run --check` writes of a run of threads, whatever failed in it.
pub fn every_text()
    ensures { (cluster : Cluster) (exploration : Exploration) (text : List ℕ) → IsExploration cluster exploration → IsTrue exploration.is_all
        → IsFailureFreeIn Hex cluster text → IsAmong (map text_of exploration.found.items) text }
{}
