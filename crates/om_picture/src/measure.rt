//! How long words are.

use om_process::{Accept, Status};
use om_sheet::{EndState, LABEL_BYTES, Label};
use om_world::{Answer, Refusal};

/// How wide a character counts.
pub const CHARACTER: u32 = 6;

/// Returns how many decimal digits a number has.
pub fn digits(number: u64) -> u32 {
    number.checked_ilog10().unwrap_or(0).saturating_add(1)
}

pub fn label_length(label: Label, more: u64) -> u32 {
    let hex = if label.size == 0 {
        1
    } else if label.size > LABEL_BYTES {
        8
    } else {
        2 * label.size as u32
    };
    if more == 0 {
        return hex;
    }
    digits(more).saturating_add(hex + 1)
}

pub fn status_length(status: Status) -> u32 {
    match status {
        Status::Ready => 5,
        Status::Waiting => 7,
        Status::Ended(code) => digits(u64::from(code)).saturating_add(6),
        Status::Trapped(cause) => digits(u64::from(cause.number())).saturating_add(8),
    }
}

pub fn end_state_length(end_state: Option<EndState>) -> u32 {
    match end_state {
        None => 4,
        Some(now) => digits(u64::from(now.inc))
            .saturating_add(digits(u64::from(now.interval)))
            .saturating_add(status_length(now.status))
            .saturating_add(15),
    }
}

/// Returns how long the text of a recovery state is.
pub fn recovery_length(state: &[u32]) -> u32 {
    let mut length: u32 = 8;
    for place in state {
        length = length
            .saturating_add(1)
            .saturating_add(digits(u64::from(*place)));
    }
    length
}

pub fn why_length(answer: Answer) -> u32 {
    match answer {
        Answer::Given(accept) => accept_length(accept),
        Answer::Refused(why) => refusal_length(why),
        _ => 0,
    }
}

fn accept_length(accept: Accept) -> u32 {
    match accept {
        Accept::Taken(_) => 0,
        Accept::Repeat => 6,
        Accept::Ahead => 5,
        Accept::Orphan => 6,
        Accept::NotWaiting => 11,
        Accept::Stranger => 8,
        Accept::Full => 4,
        Accept::Memory => 6,
    }
}

fn refusal_length(why: Refusal) -> u32 {
    match why {
        Refusal::NoProcess => 10,
        Refusal::NotUp => 6,
        Refusal::NoFrame => 8,
        Refusal::NotIn => 6,
        Refusal::NoRound => 8,
        Refusal::Spent => 5,
        Refusal::Present => 7,
        Refusal::Fault => 5,
        Refusal::Damaged => 7,
        Refusal::Memory => 6,
        Refusal::Unsettled => 9,
    }
}
