//! Scripts, over any meaning of a line.

ghost use Rattle.std.specs.Prelude.{ℕ, List, map, Result, Ok, if◌then◌else◌};
ghost use Rattle.std.specs.Str.Lines.{lines};
ghost use Rattle.om_text.specs.declared.error.LineError.{LineError};
ghost use Rattle.om_text.specs.Reading.{Gives};
ghost use Rattle.om_text.specs.Script.{at_line, numbered, script_from};
ghost use Rattle.om_text.specs.Words.{is_passed_over, words_of};

use crate::error::{BuildError, LineError, ScriptError};
use crate::lines::split_line;
use crate::words::{is_passed_over, split_words};
use std::alloc::Global;

/// What the lines of a script mean, and what has been built of them so far.
pub trait Builder {
    /// What is built, as the meaning of a line sees it.
    ghost State: { Type 0 };

    /// What a builder has built so far.
    ghost state: { Self → State };

    /// What a state and the words of a line that is not passed over give: the next state, or the
    /// line's error.
    ghost meaning: { State → List (List ℕ) → Result State LineError };

    /// Takes in a line that is not passed over. After an error reading ends, and nothing is said of
    /// the builder.
    fn add_line(&mut self, alloc: Global, words: &[&[u8]]) -> Result<(), BuildError<LineError>>
        ensures { Gives (λ _. state self.new) result
            (meaning (state self.old) (map (λ word. word.now) words.now)) };
}

/// Reads a whole script: what its lines build, or the error of the first faulty one. Lines without
/// words, and those whose first word begins with `#`, are passed over.
#[tactic(auto, using(crate::proofs::FirstFaulty::script_line))]
pub fn read_script<B: Builder + Drop>(
    alloc: Global,
    text: &[u8],
    builder: B,
) -> Result<B, BuildError<ScriptError>>
    ensures { Gives B.state result
        (script_from B.meaning (B.state builder) (numbered 1 (map words_of (lines text.now)))) }
{
    let mut builder = builder;
    let mut words = Vec::new(alloc);
    let mut rest = text;
    let mut number = 0;
    while let Some((line, after)) = split_line(rest) {
        rest = after;
        number += 1;
        split_words(line, &mut words)?;
        take_line(alloc, &words, number, &mut builder)?;
    }
    Ok(builder)
}

// Takes in a line, which may be passed over; its error is one of the script, at the line's number.
fn take_line<B: Builder>(
    alloc: Global,
    words: &[&[u8]],
    number: usize,
    builder: &mut B,
) -> Result<(), BuildError<ScriptError>>
    ensures { Gives (λ _. B.state builder.new) result
        (let line = map (λ word. word.now) words.now in
        if is_passed_over line then Ok (B.state builder.old) else at_line B.meaning (B.state builder.old) (number, line)) }
{
    if is_passed_over(words) {
        return Ok(());
    }
    match builder.add_line(alloc, words) {
        Ok(()) => Ok(()),
        Err(BuildError::Memory) => Err(BuildError::Memory),
        Err(BuildError::Invalid(error)) => Err(BuildError::Invalid(ScriptError {
            line: number,
            error,
        })),
    }
}
