//! The text of what is answered to events.

ghost use Rattle.std.specs.Prelude.{◌≡◌, ◌++◌, ◌∷◌, codes, decimal, OnOk, string_bytes};
ghost use Rattle.om_world.specs.Texts.{accept_word, answer_text, refusal_word, status_text};
ghost use Rattle.om_world.specs.declared.event.Answer.{Answer};

use crate::status_text::push_status;
use om_manager::Gathered;
use om_process::{Accept, Status};
use om_world::{Answer, Refusal};
use std::alloc::AllocError;
use std::fmt::Write;

// Writes the answer to a run.
fn push_ran(
    text: &mut String,
    steps: u64,
    status: Status,
    sent: usize,
    made: usize,
) -> Result<(), AllocError>
    ensures { OnOk result (string_bytes text.new ≡ string_bytes text.old ++ codes "ran " ++ decimal steps ++ 32 ∷ status_text status
        ++ codes " sent " ++ decimal sent ++ codes " made " ++ decimal made) }
{
    write!(text, "ran {steps} ")?;
    push_status(text, status)?;
    write!(text, " sent {sent} made {made}")
}

/// Writes the answer to an event. Refused only where memory runs out.
pub fn push_answer(text: &mut String, answer: Answer) -> Result<(), AllocError>
    ensures { OnOk result (string_bytes text.new ≡ string_bytes text.old ++ answer_text answer) }
{
    match answer {
        Answer::Ran {
            steps,
            status,
            sent,
            made,
        } => push_ran(text, steps, status, sent, made),
        Answer::Given(accept) => push_accept(text, accept),
        Answer::Noted(count) => write!(text, "noted {count}"),
        Answer::Resent(count) => write!(text, "sent {count}"),
        Answer::Trimmed => text.push_str("trimmed"),
        Answer::Pruned => text.push_str("pruned"),
        Answer::Gathered(gathered) => text.push_str(gathered_word(gathered)),
        Answer::Down => text.push_str("down"),
        Answer::Back { interval, inc } => write!(text, "back {interval} inc {inc}"),
        Answer::GoesOn => text.push_str("goes-on"),
        Answer::Restarted => text.push_str("restarted"),
        Answer::Refused(why) => text.push_str(refusal_word(why)),
    }
}

// Writes what a process answers to a frame.
fn push_accept(text: &mut String, accept: Accept) -> Result<(), AllocError>
    ensures { OnOk result (string_bytes text.new ≡ string_bytes text.old ++ answer_text (Answer.Given accept)) }
{
    match accept {
        Accept::Taken(x) => write!(text, "taken {x}"),
        _ => text.push_str(accept_word(accept)),
    }
}

// Returns the word for how far a round of recovery came.
fn gathered_word(gathered: Gathered) -> &'static str
    ensures { result.now ≡ answer_text (Answer.Gathered gathered) }
{
    match gathered {
        Gathered::Waiting => "waiting",
        Gathered::Finished => "finished",
    }
}

/// Returns the word for why a frame was not taken: empty where it was.
pub fn accept_word(accept: Accept) -> &'static str
    ensures { result.now ≡ accept_word accept }
{
    match accept {
        Accept::Taken(_) => "",
        Accept::Repeat => "repeat",
        Accept::Ahead => "ahead",
        Accept::Orphan => "orphan",
        Accept::NotWaiting => "not-waiting",
        Accept::Stranger => "stranger",
        Accept::Full => "full",
        Accept::Memory => "memory",
    }
}

/// Returns the word for why nothing was done at an event.
pub fn refusal_word(why: Refusal) -> &'static str
    ensures { result.now ≡ refusal_word why }
{
    match why {
        Refusal::NoProcess => "no-process",
        Refusal::NotUp => "not-up",
        Refusal::NoFrame => "no-frame",
        Refusal::NotIn => "not-in",
        Refusal::NoRound => "no-round",
        Refusal::Spent => "spent",
        Refusal::Present => "present",
        Refusal::Fault => "fault",
        Refusal::Damaged => "damaged",
        Refusal::Memory => "memory",
        Refusal::Unsettled => "unsettled",
    }
}
