//! The answer to a row that is offered.

ghost use Rattle.std.specs.Prelude.{◌≡◌, ℕ, ◌<◌, ◌≤◌, ◌↔◌, ◌⊎◌, length, false, slice_index, IsTrue, IfSome, MatchOption};
ghost use Rattle.om_recover.specs.Rows.{HasRow, IsFair, IsAtMost, HaveSameVectors, IsLawful};
ghost use Rattle.om_recover.specs.Offered.{IsNew, IsOffer, IsInOrderBelow, IsInOrderAbove, Agrees};
ghost use Rattle.om_recover.specs.steps.Beside.{IsNearestBelow, IsNearestAbove, BreaksBelow, BreaksAbove};
ghost use Rattle.om_recover.specs.steps.Search.{IsAnswered, IsQuiet, HasNoRowBelow, HasNoRowAbove, HasNoRowFrom, FollowsRow};
ghost use Rattle.om_recover.specs.steps.Held.{AreTrees, HasDifferent, AgreesOfKind, held, row_of};

use crate::note::{Note, NoteError};
use crate::row::{Row, RowKind};
use crate::rows::bases::base_from;
use crate::rows::lent::Lent;
use crate::rows::logs::{log_at, log_from};
use crate::rows::lookup::{record_from, record_to, vectors_of};
use crate::rows::trees::Trees;

// Returns the answer to a row that is not added, or `None` where the row is new.
pub fn answer_without_change(trees: &Trees, n: usize, row: &Row) -> Option<Result<Note, NoteError>>
    requires in_order { AreTrees trees.now }
    requires lawful { IsLawful n (held trees.now) }
    ensures answer { MatchOption result (IsNew n (held trees.now) row.now) (IsAnswered n (held trees.now) row.now) }
    ensures quiet { IfSome result IsQuiet }
{
    if row.pid.index() >= n {
        return Some(Err(NoteError::Stranger));
    }
    if !is_fair(row, n) {
        return Some(Err(NoteError::BadVector));
    }
    if is_beyond(trees, row) {
        return answer_beyond(trees, n, row);
    }
    answer_amid(trees, n, row)
}

// Returns the answer to a row above all of its process's.
fn answer_beyond(trees: &Trees, n: usize, row: &Row) -> Option<Result<Note, NoteError>>
    requires in_order { AreTrees trees.now }
    requires lawful { IsLawful n (held trees.now) }
    requires offer { IsOffer n row.now }
    requires beyond { HasNoRowFrom (held trees.now) row.now }
    ensures answer { MatchOption result (IsNew n (held trees.now) row.now) (IsAnswered n (held trees.now) row.now) }
    ensures quiet { IfSome result IsQuiet }
{
    match fault_below(trees, n, row) {
        None => None,
        Some(y) => Some(Err(NoteError::Disorder(y))),
    }
}

// Returns the answer to a row with others of its process at its interval or above.
fn answer_amid(trees: &Trees, n: usize, row: &Row) -> Option<Result<Note, NoteError>>
    requires in_order { AreTrees trees.now }
    requires lawful { IsLawful n (held trees.now) }
    requires offer { IsOffer n row.now }
    ensures answer { MatchOption result (IsNew n (held trees.now) row.now) (IsAnswered n (held trees.now) row.now) }
    ensures quiet { IfSome result IsQuiet }
{
    if has_different(trees, row) {
        return Some(Err(NoteError::Differs));
    }
    if has_row(trees, row) {
        return Some(Ok(Note::Known));
    }
    if let Some(y) = fault_below(trees, n, row) {
        return Some(Err(NoteError::Disorder(y)));
    }
    if let Some(y) = fault_above(trees, n, row) {
        return Some(Err(NoteError::Disorder(y)));
    }
    None
}

fn is_fair(row: &Row, n: usize) -> bool
    requires { row.now.pid < n }
    ensures { IsTrue result ↔ IsFair n row.now }
{
    row.vec.n() == n
        && row.got.n() == n
        && row.vec.get(row.pid) == row.interval
        && (row.kind == RowKind::Checkpoint || row.interval > 0)
}

// Returns whether a record of the row's interval has other vectors.
fn has_different(trees: &Trees, row: &Row) -> bool
    requires { AreTrees trees.now }
    ensures yes { IsTrue result → HasDifferent (held trees.now) row.now }
    ensures none { result ≡ false → Agrees (held trees.now) row.now }
{
    is_different(trees, RowKind::Checkpoint, row) || is_different(trees, RowKind::Log, row)
}

fn is_different(trees: &Trees, kind: RowKind, row: &Row) -> bool
    requires { AreTrees trees.now }
    ensures yes { IsTrue result → HasDifferent (held trees.now) row.now }
    ensures none { result ≡ false → AgreesOfKind (held trees.now) kind row.now }
{
    match vectors_of(trees, kind, row.pid, row.interval) {
        None => false,
        Some(vectors) => !has_vectors(row, &vectors),
    }
}

// Returns whether that very row is there.
fn has_row(trees: &Trees, row: &Row) -> bool
    requires { AreTrees trees.now }
    ensures { IsTrue result ↔ HasRow (held trees.now) row.now }
{
    match vectors_of(trees, row.kind, row.pid, row.interval) {
        None => false,
        Some(vectors) => has_vectors(row, &vectors),
    }
}

fn has_vectors(row: &Row, vectors: &Lent<'_>) -> bool
    ensures { IsTrue result ↔ (row_of row.now.kind row.now.pid row.now.interval vectors.now ≡ row.now) }
{
    vectors.are(&row.vec, &row.got)
}

fn is_at_most(low: &Row, high: &Row) -> bool
    ensures { IsTrue result ↔ IsAtMost low.now high.now }
{
    low.vec.leq(&high.vec) && low.got.leq(&high.got)
}

// Returns the interval of the nearest row below, where it has not at most the row's vectors.
fn fault_below(trees: &Trees, n: usize, row: &Row) -> Option<u32>
    requires in_order { AreTrees trees.now }
    requires lawful { IsLawful n (held trees.now) }
    ensures { MatchOption result (IsInOrderBelow (held trees.now) row.now) (BreaksBelow (held trees.now) row.now) }
{
    if follows_a_log(trees, row) {
        return None;
    }
    match nearest_below(trees, row) {
        Some(low) if !is_at_most(&low, row) => Some(low.interval),
        _ => None,
    }
}

// Returns the interval of the nearest row above, where it has not at least the row's vectors.
fn fault_above(trees: &Trees, n: usize, row: &Row) -> Option<u32>
    requires in_order { AreTrees trees.now }
    requires lawful { IsLawful n (held trees.now) }
    ensures { MatchOption result (IsInOrderAbove (held trees.now) row.now) (BreaksAbove (held trees.now) row.now) }
{
    if is_last(trees, row) {
        return None;
    }
    match nearest_above(trees, row) {
        Some(high) if !is_at_most(row, &high) => Some(high.interval),
        _ => None,
    }
}

// Returns whether the process is seen to have no row at the row's interval or above.
fn is_beyond(trees: &Trees, row: &Row) -> bool
    requires { AreTrees trees.now }
    ensures { IsTrue result → HasNoRowFrom (held trees.now) row.now }
{
    let None = log_from(&trees.logs, row.pid, row.interval) else {
        return false;
    };
    match base_from(&trees.bases, row.pid, row.interval) {
        None => true,
        Some(_) => false,
    }
}

// Returns whether a log of the interval right before has at most the row's vectors, as where rows come in order.
fn follows_a_log(trees: &Trees, row: &Row) -> bool
    requires { AreTrees trees.now }
    ensures { IsTrue result → FollowsRow (held trees.now) row.now }
{
    let Some(before) = row.interval.checked_sub(1) else {
        return false;
    };
    match log_at(&trees.logs, row.pid, before) {
        None => false,
        Some(vectors) => vectors.are_at_most(&row.vec, &row.got),
    }
}

// Returns whether the process has no row above the row's interval.
fn is_last(trees: &Trees, row: &Row) -> bool
    requires { AreTrees trees.now }
    ensures { IsTrue result → HasNoRowAbove (held trees.now) row.now }
{
    let Some(from) = row.interval.checked_add(1) else {
        return false;
    };
    let None = log_from(&trees.logs, row.pid, from) else {
        return false;
    };
    match base_from(&trees.bases, row.pid, from) {
        None => true,
        Some(_) => false,
    }
}

// Returns the nearest of the process's rows below the row's interval.
fn nearest_below(trees: &Trees, row: &Row) -> Option<Row>
    requires { AreTrees trees.now }
    ensures { MatchOption result (HasNoRowBelow (held trees.now) row.now) (IsNearestBelow (held trees.now) row.now) }
{
    let to = row.interval.checked_sub(1)?;
    let Some(log) = record_to(trees, RowKind::Log, row.pid, to) else {
        return record_to(trees, RowKind::Checkpoint, row.pid, to);
    };
    let Some(checkpoint) = record_to(trees, RowKind::Checkpoint, row.pid, to) else {
        return Some(log);
    };
    if log.interval < checkpoint.interval {
        Some(checkpoint)
    } else {
        Some(log)
    }
}

// Returns the nearest of the process's rows above the row's interval.
fn nearest_above(trees: &Trees, row: &Row) -> Option<Row>
    requires in_order { AreTrees trees.now }
    requires lawful { (n : ℕ) × IsLawful n (held trees.now) }
    ensures { MatchOption result (HasNoRowAbove (held trees.now) row.now) (IsNearestAbove (held trees.now) row.now) }
{
    let from = row.interval.checked_add(1)?;
    let Some(log) = record_from(trees, RowKind::Log, row.pid, from) else {
        return record_from(trees, RowKind::Checkpoint, row.pid, from);
    };
    let Some(checkpoint) = record_from(trees, RowKind::Checkpoint, row.pid, from) else {
        return Some(log);
    };
    if checkpoint.interval < log.interval {
        Some(checkpoint)
    } else {
        Some(log)
    }
}
