//! What holds of the definitions alone.

ghost use Rattle.om_stable.specs.declared.stable.TheConstants.{INTERVALS, LAST_COUNT};
ghost use Rattle.om_stable.specs.declared.ledger.TheConstants.{LEDGER_NUMBERS};
ghost use Rattle.std.specs.Prelude.{◌≡◌, ◌⊎◌, ◌+◌, ◌<◌, ◌≤◌, ℕ, List, Some, length};
ghost use Rattle.std.specs.FinMap.{get};
ghost use Rattle.std.specs.List.{slice_get};
ghost use Rattle.om_stable.specs.Content.{Records, between, with_all};

/// Proves that the records between two intervals are each of them, no other, in ascending order.
pub fn between_is_all_between()
    ensures within { (held : Records) (after to i : ℕ) (row : ℕ × List ℕ) → slice_get (between held after to) i ≡ Some row
        → (after < row.0) × (row.0 ≤ to) }
    ensures are_held { (held : Records) (after to i : ℕ) (row : ℕ × List ℕ) → slice_get (between held after to) i ≡ Some row
        → get held row.0 ≡ Some row.1 }
    ensures rise { (held : Records) (after to i j : ℕ) (row later : ℕ × List ℕ) → i < j
        → slice_get (between held after to) i ≡ Some row → slice_get (between held after to) j ≡ Some later → row.0 < later.0 }
    ensures are_all { (held : Records) (after to x : ℕ) (bytes : List ℕ) → after < x → x ≤ to → get held x ≡ Some bytes
        → (i : ℕ) × (slice_get (between held after to) i ≡ Some (x, bytes)) }
{}

/// Proves that records with more added hold these where they were added, and elsewhere what they held before.
pub fn with_all_holds_all()
    ensures below { (held : Records) (first : ℕ) (added : List (List ℕ)) (x : ℕ) → x < first
        → get (with_all held first added) x ≡ get held x }
    ensures are_added { (held : Records) (first : ℕ) (added : List (List ℕ)) (i : ℕ) (bytes : List ℕ) → slice_get added i ≡ Some bytes
        → get (with_all held first added) (first + i) ≡ Some bytes }
    ensures above { (held : Records) (first : ℕ) (added : List (List ℕ)) (x : ℕ) → first + length added ≤ x
        → get (with_all held first added) x ≡ get held x }
    ensures nothing_else { (held : Records) (first : ℕ) (added : List (List ℕ)) (x : ℕ) (bytes : List ℕ)
        → get (with_all held first added) x ≡ Some bytes
        → (get held x ≡ Some bytes) ⊎ ((i : ℕ) × (x ≡ first + i) × (slice_get added i ≡ Some bytes)) }
{}

/// Proves that the numbers of intervals and of records of a table, and the last count of failures, are these.
pub fn limits()
    ensures intervals { INTERVALS ≡ 4294967296 }
    ensures last_count { LAST_COUNT ≡ 18446744073709551615 }
    ensures numbers { LEDGER_NUMBERS ≡ 9223372036854775808 }
{}
