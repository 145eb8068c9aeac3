//! A script of words of the machine.

ghost use Rattle.std.specs.Prelude.{◌≡◌, ℕ, List, []};
ghost use Rattle.om_commands.specs.WordScript.{word_script_line};

use om_text::{BuildError, Builder, LineError, hex_word};
use std::alloc::Global;

/// The words of the machine that were read, one on each line.
#[derive(Debug, Drop)]
pub struct WordScript {
    pub words: Vec<u32>,
}

impl WordScript {
    pub fn new(alloc: Global) -> WordScript
        ensures { result.words.items ≡ [] }
    {
        WordScript {
            words: Vec::new(alloc),
        }
    }
}

impl Builder for WordScript {
    ghost State = { List ℕ };

    ghost state = { λ script. script.words.items };

    ghost meaning = { word_script_line };

    fn add_line(&mut self, _alloc: Global, words: &[&[u8]]) -> Result<(), BuildError<LineError>> {
        let [word] = words else {
            return Err(LineError::WrongCount.into());
        };
        let Some(word) = hex_word(word) else {
            return Err(LineError::BadWord.into());
        };
        self.words.push(word)?;
        Ok(())
    }
}
