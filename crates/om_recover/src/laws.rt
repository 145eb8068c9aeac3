//! What holds of recoverable states, whatever is recorded: each function stands for a theorem over the definitions alone.

ghost use Rattle.std.specs.Prelude.{◌≡◌, ◌<◌, ◌^◌, ℕ, List, All, slice_index};
ghost use Rattle.om_recover.specs.Rows.{Rows, HasRow, IsLawful};
ghost use Rattle.om_recover.specs.Cutting.{AreEffective, cut_to, pruned_to};
ghost use Rattle.om_recover.specs.Offers.{Offers};
ghost use Rattle.om_recover.specs.declared.row.Row.{Row};
ghost use Rattle.om_recover.specs.Recoverable.{IsRecoverable, IsGreatest, maximum_of};

/// Proves that the maximum of two recoverable states, place by place, is recoverable.
pub fn maximum_is_recoverable()
    ensures { (n : ℕ) (rows : Rows) (one other : List ℕ) → IsRecoverable n rows one → IsRecoverable n rows other
        → IsRecoverable n rows (maximum_of one other) }
{}

/// Proves that the greatest recoverable state is unique.
pub fn greatest_is_unique()
    ensures { (n : ℕ) (rows : Rows) (one other : List ℕ) → IsGreatest n rows one → IsGreatest n rows other → one ≡ other }
{}

/// Proves that a recoverable state has a row at each place.
pub fn recoverable_has_rows()
    ensures { (n : ℕ) (rows : Rows) (state : List ℕ) (p : ℕ) → IsRecoverable n rows state → p < n
        → (row : Row) × HasRow rows row × (row.pid ≡ p) × (row.interval ≡ slice_index state p) }
{}

/// Proves that a cut to the greatest state keeps it the greatest.
pub fn cut_keeps_the_greatest()
    ensures { (n : ℕ) (rows : Rows) (state : List ℕ) → IsLawful n rows → IsGreatest n rows state → IsGreatest n (cut_to rows state) state }
{}

/// Proves that a prune to the checkpoints that the greatest state uses keeps it the greatest.
pub fn prune_keeps_the_greatest()
    ensures { (n : ℕ) (rows : Rows) (state checkpoints : List ℕ) → IsLawful n rows → AreEffective rows state checkpoints
        → IsGreatest n rows state → IsGreatest n (pruned_to rows checkpoints) state }
{}

/// Proves that later offers do not tell whether there was a prune: whatever is offered, the greatest states after each
/// offer are the same.
pub fn later_offers_do_not_tell_a_prune()
    ensures { (n : ℕ) (rows : Rows) (state checkpoints : List ℕ) (later : List Row) (states states_pruned : List (List ℕ))
        → IsLawful n rows → IsGreatest n rows state → AreEffective rows state checkpoints
        → All (λ (row : Row). row.interval < 2 ^ 32) later
        → Offers n rows later states → Offers n (pruned_to rows checkpoints) later states_pruned → states ≡ states_pruned }
{}
