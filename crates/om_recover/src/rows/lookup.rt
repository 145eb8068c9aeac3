//! Look-ups of records of either kind.

ghost use Rattle.std.specs.Prelude.{◌≡◌, ℕ, ◌<◌, ◌≤◌, MatchOption};
ghost use Rattle.om_recover.specs.Cutting.{IsEffective, IsGotAt, IsGotFrom};
ghost use Rattle.om_recover.specs.Recoverable.{IsStable};
ghost use Rattle.om_recover.specs.Rows.{HasRow, Has, IsLawful};
ghost use Rattle.om_recover.specs.steps.Held.{AreTrees, IsRecordTo, IsRecordFrom, held, row_of};

use crate::row::{Row, RowKind};
use crate::rows::bases::{base_at, base_from, base_to};
use crate::rows::lent::Lent;
use crate::rows::logs::{log_at, log_from, log_to};
use crate::rows::trees::{Trees, Vectors};
use om_interval::{DepVec, Pid};

/// Returns the vectors of a record, or `None` where there is no such record.
pub fn vectors_of(trees: &Trees, kind: RowKind, pid: Pid, x: u32) -> Option<Lent<'_>>
    requires { AreTrees trees.now }
    ensures { MatchOption result (Has (held trees.now) kind pid x → ⊥)
        (λ vectors. HasRow (held trees.now) (row_of kind pid x vectors)) }
{
    match kind {
        RowKind::Checkpoint => match base_at(&trees.bases, pid, x) {
            None => None,
            Some(base) => Some(Lent::of(&base.vectors.vec, &base.vectors.got)),
        },
        RowKind::Log => match log_at(&trees.logs, pid, x) {
            None => None,
            Some(vectors) => Some(vectors),
        },
    }
}

/// Returns the nearest of a process's records of a kind at or below an interval.
pub fn record_to(trees: &Trees, kind: RowKind, pid: Pid, to: u32) -> Option<Row>
    requires { AreTrees trees.now }
    ensures { MatchOption result ((x : ℕ) → Has (held trees.now) kind pid x → x ≤ to → ⊥) (IsRecordTo (held trees.now) kind pid to) }
{
    match kind {
        RowKind::Checkpoint => match base_to(&trees.bases, pid, to) {
            None => None,
            Some((x, base)) => Some(row(kind, pid, x, base.vectors)),
        },
        RowKind::Log => match log_to(&trees.logs, pid, to) {
            None => None,
            Some((x, vectors)) => Some(row(kind, pid, x, vectors.kept())),
        },
    }
}

/// Returns the nearest of a process's records of a kind at or above an interval.
pub fn record_from(trees: &Trees, kind: RowKind, pid: Pid, from: u32) -> Option<Row>
    requires { AreTrees trees.now }
    ensures { MatchOption result ((x : ℕ) → Has (held trees.now) kind pid x → from ≤ x → ⊥)
        (IsRecordFrom (held trees.now) kind pid from) }
{
    match kind {
        RowKind::Checkpoint => match base_from(&trees.bases, pid, from) {
            None => None,
            Some((x, base)) => Some(row(kind, pid, x, base.vectors)),
        },
        RowKind::Log => match log_from(&trees.logs, pid, from) {
            None => None,
            Some((x, vectors)) => Some(row(kind, pid, x, vectors.kept())),
        },
    }
}

fn row(kind: RowKind, pid: Pid, interval: u32, vectors: Vectors) -> Row
    ensures { result ≡ row_of kind pid interval vectors }
{
    Row {
        kind,
        pid,
        interval,
        vec: vectors.vec,
        got: vectors.got,
    }
}

// Returns the vectors of an interval that has a record.
fn vectors_at(trees: &Trees, pid: Pid, x: u32) -> Lent<'_>
    requires in_order { AreTrees trees.now }
    requires there { (kind : _) × Has (held trees.now) kind pid x }
    ensures { (kind : _) × HasRow (held trees.now) (row_of kind pid x result) }
{
    if let Some(vectors) = vectors_of(trees, RowKind::Log, pid, x) {
        return vectors;
    }
    match vectors_of(trees, RowKind::Checkpoint, pid, x) {
        Some(vectors) => vectors,
        None => unreachable!(),
    }
}

/// Returns the numbers of the dependency vector of an interval of a process that has a record.
pub fn vec_at(trees: &Trees, pid: Pid, x: u32) -> &[u32]
    requires in_order { AreTrees trees.now }
    requires lawful { (n : ℕ) × IsLawful n (held trees.now) }
    requires there { (kind : _) × Has (held trees.now) kind pid x }
    ensures { (row : _) → HasRow (held trees.now) row → row.pid ≡ pid → row.interval ≡ x → row.vec ≡ result.now }
{
    let vectors = vectors_at(trees, pid, x);
    vectors.into_vec()
}

/// Returns what a process had got in a stable interval.
pub fn got_at(trees: &Trees, pid: Pid, x: u32) -> DepVec
    requires in_order { AreTrees trees.now }
    requires stable { IsStable (held trees.now) pid x }
    ensures { IsGotAt (held trees.now) pid x result }
{
    let vectors = vectors_at(trees, pid, x);
    vectors.got()
}

/// Returns how many messages from the sender the receiver had got in a stable interval.
pub fn got_from(trees: &Trees, receiver: Pid, x: u32, sender: Pid) -> u32
    requires in_order { AreTrees trees.now }
    requires stable { IsStable (held trees.now) receiver x }
    requires lawful { (n : ℕ) × IsLawful n (held trees.now) × (sender < n) }
    ensures { IsGotFrom (held trees.now) receiver x sender result }
{
    let vectors = vectors_at(trees, receiver, x);
    vectors.got_from(sender)
}

/// Returns the interval of the checkpoint that is used for a stable interval of a process.
pub fn effective_of(trees: &Trees, pid: Pid, x: u32) -> u32
    requires in_order { AreTrees trees.now }
    requires stable { IsStable (held trees.now) pid x }
    ensures { IsEffective (held trees.now) pid x result }
{
    match base_to(&trees.bases, pid, x) {
        Some((checkpoint, _)) => checkpoint,
        None => unreachable!(),
    }
}
