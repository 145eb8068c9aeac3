//! How the tests compare: one function that is generic costs a proof less than as many assertions.

use std::fmt::Debug;
use std::process::Abort;

// What is told is what is wanted.
pub fn assert_same<T: PartialEq + Debug>(rt: &impl Abort, told: &T, wanted: &T) {
    assert_eq!(rt; *told, *wanted);
}

// So it is, at this row of a table.
pub fn assert_same_at<Row: Debug, T: PartialEq + Debug>(
    rt: &impl Abort,
    row: &Row,
    told: &T,
    wanted: &T,
) {
    assert_eq!(rt; *told, *wanted, "{row:?}");
}
