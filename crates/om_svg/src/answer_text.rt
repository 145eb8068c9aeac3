//! The text of a recovery state, and of why a frame was refused.

ghost use Rattle.std.specs.Prelude.{◌≡◌, ◌++◌, OnOk, string_bytes};
ghost use Rattle.om_svg.specs.AnswerText.{recovery_text, why_word};

use om_event_text::{accept_word, refusal_word};
use om_world::Answer;
use std::alloc::AllocError;
use std::fmt::Write;

/// Writes a recovery state.
pub fn push_recovery(text: &mut String, state: &[u32]) -> Result<(), AllocError>
    ensures { OnOk result (string_bytes text.new ≡ string_bytes text.old ++ recovery_text state.now) }
{
    text.push_str("recovery")?;
    for place in state {
        write!(text, " {place}")?;
    }
    Ok(())
}

/// Returns the word for why a frame was refused: empty where it was taken.
pub fn why_word(answer: Answer) -> &'static str
    ensures { result.now ≡ why_word answer }
{
    match answer {
        Answer::Given(accept) => accept_word(accept),
        Answer::Refused(why) => refusal_word(why),
        _ => "",
    }
}
