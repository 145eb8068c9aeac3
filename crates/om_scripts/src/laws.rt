//! What holds of the definitions alone.

ghost use Rattle.std.specs.Prelude.{◌≡◌};
ghost use Rattle.om_scripts.specs.declared.names.TheConstants.{MAX_NAME};
ghost use Rattle.om_scripts.specs.declared.programs.TheConstants.{MAX_KILLS};

/// Proves that the limit of a name is 32 bytes, and that a run has at most so many kills.
pub fn limits()
    ensures name { MAX_NAME ≡ 32 }
    ensures kills { MAX_KILLS ≡ 64 }
{}
