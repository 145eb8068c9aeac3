//! What is said of the texts of commands.

ghost use Rattle.std.specs.Prelude.{◌≡◌, ◌<◌, ℕ, List, All};
ghost use Rattle.om_commands.specs.Quoted.{quoted};

/// Proves that quoted text can be read back: it is that of no other bytes.
pub fn quoted_once()
    ensures { (bytes other : List ℕ) → All (λ byte. byte < 256) bytes → All (λ byte. byte < 256) other → quoted bytes ≡ quoted other
        → bytes ≡ other }
{}
