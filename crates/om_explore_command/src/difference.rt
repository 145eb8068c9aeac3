//! Where two texts differ first.

ghost use Rattle.std.specs.Prelude.{◌≡◌, ◌≢◌, ◌<◌, ◌≤◌, ℕ, IfSome, IsTrue, None, false, length, map, slice_get, slice_index_or, []};
ghost use Rattle.om_manager.specs.Outputs.{held_of};
ghost use Rattle.om_explore_command.specs.Differences.{DifferFirst, DifferIn, PutOutSame, PutOutSameUpTo, bytes_in};
ghost use Rattle.om_explore_command.specs.steps.{AreOf, IsEndPlace, IsOutputPlace, held};

use om_manager::Output;
use om_process::Status;
use om_runner::Report;

/// A place in the text of a run.
#[derive(Clone, Copy, Debug, PartialEq, Eq)]
pub enum TextPosition {
    /// The output of a number of a process.
    Output { process: usize, number: usize },
    /// How a process ended, or that it waits.
    End { process: usize },
}

// Returns whether the outputs of a number have the same bytes, or there is neither.
fn is_same(one: &[Output], other: &[Output], number: usize) -> bool
    ensures same { IsTrue result → bytes_in (map held_of one.now) number ≡ bytes_in (map held_of other.now) number }
    ensures other { result ≡ false → bytes_in (map held_of one.now) number ≢ bytes_in (map held_of other.now) number }
{
    match (one.get(number), other.get(number)) {
        (Some(one), Some(other)) => one.bytes.as_slice() == other.bytes.as_slice(),
        (None, None) => true,
        _ => false,
    }
}

// Returns the number of the first output in which these of two runs differ.
fn first_output(one: &[Output], other: &[Output]) -> Option<usize>
    ensures some { IfSome result (λ number. DifferIn (map held_of one.now) (map held_of other.now) number) }
    ensures none { result ≡ None → PutOutSame (map held_of one.now) (map held_of other.now) }
{
    for number in 0..one.len().max(other.len()) {
        if !is_same(one, other, number) {
            return Some(number);
        }
    }
    None
}

// Returns the first place at which the outputs of so many processes differ.
fn output_place(one: &[Vec<Output>], other: &[Vec<Output>], n: usize) -> Option<TextPosition>
    requires one { length one.now ≡ n }
    requires other { length other.now ≡ n }
    ensures some { IfSome result (IsOutputPlace n (held one.now) (held other.now)) }
    ensures none { result ≡ None → PutOutSameUpTo (held one.now) (held other.now) n }
{
    for process in 0..n {
        if let Some(number) = first_output(&one[process], &other[process]) {
            return Some(TextPosition::Output { process, number });
        }
    }
    None
}

// Returns the first place at which the ends of so many processes differ.
fn end_place(one: &[Status], other: &[Status], n: usize) -> Option<TextPosition>
    requires one { length one.now ≡ n }
    requires other { length other.now ≡ n }
    ensures some { IfSome result (IsEndPlace n one.now other.now) }
    ensures none { result ≡ None → (p : ℕ) → p < n → slice_get one.now p ≡ slice_get other.now p }
{
    for process in 0..n {
        if one[process] != other[process] {
            return Some(TextPosition::End { process });
        }
    }
    None
}

// Returns the first place at which two runs of so many processes differ.
pub(crate) fn first_difference(one: &Report, other: &Report, n: usize) -> Option<TextPosition>
    requires one { AreOf n one.now }
    requires other { AreOf n other.now }
    ensures { DifferFirst n one.now other.now result }
{
    match output_place(&one.released, &other.released, n) {
        Some(place) => Some(place),
        None => end_place(&one.statuses, &other.statuses, n),
    }
}
