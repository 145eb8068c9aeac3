//! Rows of zeros that are folded.

use om_folding::fold_zero_rows;
use std::str;

// Texts, and what they come to: as hexdump writes rows that repeat, where these are zeros.
static FOLDED: [(&str, &str); 12] = [
    ("", ""),
    ("\n\n", "\n\n"),
    ("00000000 00\n", "00000000 00\n"),
    ("00000000 00\n00000001 00\n", "00000000 00\n*\n"),
    (
        "00000000 00\n00000001 00\n00000002 00\n00000003 00\nstatus ready\n",
        "00000000 00\n*\nstatus ready\n",
    ),
    (
        "00000000 00\n00000001 00\n00000002 01\n00000003 00\n00000004 00\n00000005 00\n",
        "00000000 00\n*\n00000002 01\n00000003 00\n*\n",
    ),
    // The last row of a memory may be shorter.
    (
        "00000ff0 00000000000000000000000000000000\n0000abcd 00000000\n",
        "00000ff0 00000000000000000000000000000000\n*\n",
    ),
    // Rows that repeat and are no zeros.
    (
        "00000000 11\n00000001 11\n00000002 11\n",
        "00000000 11\n00000001 11\n00000002 11\n",
    ),
    // No rows, though zeros stand in them.
    ("x0 00000000\nx1 00000000\n", "x0 00000000\nx1 00000000\n"),
    ("interval 0\ninterval 0\n", "interval 0\ninterval 0\n"),
    ("out 1234 00\nout 1235 00\n", "out 1234 00\nout 1235 00\n"),
    // What stands behind the last end of a line is none.
    ("00000000 00\n00000001 00", "00000000 00\n00000001 00"),
];

#[test]
fn rows_of_zeros(rt: HostRuntime) {
    for (text, short) in &FOLDED {
        let folded = fold_zero_rows(rt.alloc(), text.as_bytes()).expect(&rt, "memory");
        let written = str::from_utf8(&folded).ok().expect(&rt, "text");
        assert_eq!(&rt; written, *short);
    }
}
