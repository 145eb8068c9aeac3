//! What holds of the texts of words: each function stands for a theorem over the definitions alone.

ghost use Rattle.std.specs.Prelude.{◌≡◌, ℕ, ◌<◌, ◌^◌, List, All, map, Some, Ok};
ghost use Rattle.om_text.specs.Numbers.{hex_word};
ghost use Rattle.om_look.specs.Trace.{word_text};
ghost use Rattle.om_text.specs.Reading.{all_read};
ghost use Rattle.om_text.specs.declared.error.LineError.TheVariants.{BadWord};

/// Proves that a word's eight digits read back as the word.
pub fn word_is_read_back()
    ensures { (word : ℕ) → word < 2 ^ 32 → hex_word (word_text word) ≡ Some word }
{}

/// Proves that the words of a line read back as the words.
pub fn words_are_read_back()
    ensures { (words : List ℕ) → All (λ word. word < 2 ^ 32) words → all_read hex_word BadWord (map word_text words) ≡ Ok words }
{}
