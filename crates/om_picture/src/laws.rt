//! What holds of a picture: each function stands for a theorem over the definitions alone.

ghost use Rattle.std.specs.Prelude.{◌≡◌, ◌<◌, ◌↔◌, [], ◌∷◌, ◌++◌, ℕ, List, length, true};
ghost use Rattle.om_picture.specs.Fates.{EventRow, IsCutBy, IsSavedBy, Progress, highest, is_cut, is_saved};
ghost use Rattle.om_picture.specs.Held.{WereHeld, releases};
ghost use Rattle.om_picture.specs.Places.{ArePlaced, has_column};
ghost use Rattle.om_picture.specs.declared.column.TheConstants.{MOST_COLUMNS};

/// Proves that an interval is cut exactly where a round is finished and no recovery state up to it had the process as high.
pub fn cut_by_a_round()
    ensures { (p interval was : ℕ) (rows : List EventRow) → is_cut p interval was rows ≡ true ↔ IsCutBy p interval was rows }
{}

/// Proves that an interval is stored exactly where its process had stored what it received up to it as a round cut it, or in
/// the end.
pub fn stored_by_its_process()
    ensures { (p interval place : ℕ) (was : Progress) (rows : List EventRow)
        → is_saved p interval place was rows ≡ true ↔ IsSavedBy p interval place was rows }
{}

/// Proves that of two events the later one, if it has a column and there is room, stands right of the other.
pub fn later_stands_right()
    ensures { (n first : ℕ) (before between later : List EventRow) (one other : EventRow)
        → ArePlaced n first [] ((before ++ one ∷ between) ++ other ∷ later) → length (before ++ one ∷ between) < MOST_COLUMNS
        → has_column n first (before ++ one ∷ between) other ≡ true → one.entry.at.x < other.entry.at.x }
{}

/// Proves that outputs that are released with an event were handed in by an event up to it, which stands elsewhere, in an
/// interval that the recovery states up to it cover.
pub fn released_were_held()
    ensures { (p : ℕ) (before : List EventRow) (row : EventRow) → releases p before row ≡ true
        → WereHeld p (before ++ row ∷ []) row.entry.at.x (highest p 0 (before ++ row ∷ [])) }
{}
