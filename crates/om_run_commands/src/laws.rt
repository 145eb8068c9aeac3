//! What is said of the texts of runs without failures.

ghost use Rattle.std.specs.Prelude.{◌≡◌, ℕ, List};
ghost use Rattle.om_commands.specs.declared.bytes_text.BytesForm.{BytesForm};
ghost use Rattle.om_scripts.specs.Programs.{Cluster};
ghost use Rattle.om_world.specs.declared.entry.Entry.{Entry};
ghost use Rattle.om_run_commands.specs.Check.{IsTextIn};
ghost use Rattle.om_run_commands.specs.declared.cluster_script.TheConstants.{DEFAULT_CHECKPOINT, DEFAULT_FLUSH, DEFAULT_FUEL};

/// Proves that what is received in a run without failures determines its text.
pub fn one_text()
    ensures { (form : BytesForm) (cluster : Cluster) (live : List Entry) (text other : List ℕ) → IsTextIn form cluster live text
        → IsTextIn form cluster live other → text ≡ other }
{}

/// Proves that these numbers hold where a cluster file names none.
pub fn limits()
    ensures flush { DEFAULT_FLUSH ≡ 4 }
    ensures checkpoint { DEFAULT_CHECKPOINT ≡ 16 }
    ensures fuel { DEFAULT_FUEL ≡ 1000 }
{}
