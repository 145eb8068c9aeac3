//! What holds of every script, whatever its lines mean.

ghost use Rattle.om_text.specs.declared.text.TheConstants.{MAX_BYTES, MAX_TURNS};
ghost use Rattle.std.specs.Prelude.{◌≡◌, ℕ, ◌↔◌, List, Err};
ghost use Rattle.om_text.specs.declared.error.ScriptError.{ScriptError};
ghost use Rattle.om_text.specs.Script.{IsFirstFaulty, Meaning, script_from};

/// Proves that a script's error is that of its first faulty line, and where there is one, it is the script's: of any lines, each with
/// its number.
pub fn first_faulty_line_counts<State>()
    ensures { (meaning : Meaning State) (state : State)
        (lines : List (ℕ × List (List ℕ))) (error : ScriptError)
        → (script_from meaning state lines ≡ Err error)
        ↔ IsFirstFaulty meaning state lines error }
{}

/// Proves that the limits of an input, in bytes, and of the reads that it takes are these.
pub fn limits()
    ensures bytes { MAX_BYTES ≡ 16777216 }
    ensures turns { MAX_TURNS ≡ 33554432 }
{}
