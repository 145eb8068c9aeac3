//! Numbers by process, where they lie.

ghost use Rattle.std.specs.Prelude.{◌≡◌, ◌<◌, ◌↔◌, length, slice_index, IsTrue};
ghost use Rattle.om_interval.specs.Vectors.{IsBelow};

use om_interval::{DepVec, Pid};

/// Returns the number of one process.
pub fn number_of(numbers: &[u32], pid: Pid) -> u32
    requires { pid < length numbers.now }
    ensures { result ≡ slice_index numbers.now pid }
{
    numbers[pid.index()]
}

/// Returns whether each number is at most the vector's.
pub fn is_below(low: &[u32], high: &DepVec) -> bool
    ensures { IsTrue result ↔ IsBelow low.now high.now }
{
    let numbers = high.as_slice();
    low.len() == numbers.len() && are_at_most(low, numbers)
}

// Returns whether each number is at most the other. All are compared: to stop at the first that is not takes longer.
fn are_at_most(low: &[u32], high: &[u32]) -> bool
    requires { length low.now ≡ length high.now }
    ensures { IsTrue result ↔ IsBelow low.now high.now }
{
    let mut is_above = false;
    for place in 0..low.len() {
        if high[place] < low[place] {
            is_above = true;
        }
    }
    !is_above
}
