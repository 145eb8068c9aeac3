//! What holds of texts: each function stands for a theorem over the definitions alone.

ghost use Rattle.std.specs.Prelude.{◌≡◌, ℕ, List, true};
ghost use Rattle.om_scripts.specs.Named.{is_name};
ghost use Rattle.om_scripts.specs.Programs.{Cluster};
ghost use Rattle.om_sheet.specs.declared.sheet.Title.{Title};
ghost use Rattle.om_sheet.specs.declared.sheet.LabelContent.{LabelContent};
ghost use Rattle.om_svg.specs.AnswerText.{recovery_text};
ghost use Rattle.om_svg.specs.Plain.{HasPlainNames, is_plain_text};
ghost use Rattle.om_svg.specs.ShapeText.{told_text};
ghost use Rattle.om_svg.specs.WordText.{content_text};

/// Proves that what is told of a mark needs no escape.
pub fn titles_are_plain()
    ensures { (title : Title) → is_plain_text (told_text title) ≡ true }
{}

/// Proves that what is told of a recovery state needs no escape.
pub fn states_are_plain()
    ensures { (state : List ℕ) → is_plain_text (recovery_text state) ≡ true }
{}

/// Proves that words need no escape, if the names of processes and programs need none.
pub fn words_are_plain()
    ensures { (cluster : Cluster) → HasPlainNames cluster → (what : LabelContent) → is_plain_text (content_text cluster what) ≡ true }
{}

/// Proves that names that a script may give need no escape.
pub fn names_are_plain()
    ensures { (name : List ℕ) → is_name name ≡ true → is_plain_text name ≡ true }
{}
