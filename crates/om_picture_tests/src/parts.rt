//! Receipts that are stored in parts: which are drawn as stored.

use om_draw_command::draw::{Window, draw};
use std::alloc::{AllocError, Global};
use std::process::Abort;

// Process a receives twice: first what b sends on of what it received of c, then what d sends. b stores nothing, so that no recovery
// state covers what a received first.
static RECEIVED: &str = "\
program pa 128 00200893 04000513 00400593 00000073 00200893 04000513 00400593 00000073
program pb 128 00200893 04000513 00400593 00000073 00100893 00050613 00000513 04000593 00000073 00000893 00000073
program pc 64 00100893 00100513 00400613 00000073 00000893 00000073
program pd 64 00100893 00000513 00400613 00000073 00000893 00000073
proc a pa
proc b pb
proc c pc
proc d pd
run 0 100
run 1 100
run 2 100
run 3 100
give 1 0
run 1 100
give 0 2
run 0 100
give 0 1
";

// The text with a line behind it.
fn with_line(alloc: Global, line: &str) -> Result<String, AllocError> {
    let mut script = String::new(alloc);
    script.push_str(RECEIVED)?;
    script.push_str(line)?;
    Ok(script)
}

// Returns how often a word stands in a text.
fn count(text: &[u8], word: &[u8]) -> usize {
    let mut found: usize = 0;
    for k in 0..text.len() {
        let rest = text.get(k..).unwrap_or(&[]);
        if rest.starts_with(word) {
            found = found.saturating_add(1);
        }
    }
    found
}

// The picture where this line ends the script.
fn picture<R: Abort>(rt: &R, alloc: Global, line: &str) -> Vec<u8> {
    let script = with_line(alloc, line).expect(rt, "a script");
    let mut reader = script.as_bytes();
    let mut picture = Vec::new(alloc);
    let window = Window {
        from: 0,
        to: usize::MAX,
    };
    draw(alloc, &mut reader, &mut picture, window).expect(rt, "a picture");
    picture
}

// Returns how many marks are drawn as what is in memory only, and how many brackets of flushes, where this line ends the script.
fn marks<R: Abort>(rt: &R, alloc: Global, line: &str) -> (usize, usize) {
    let drawn = picture(rt, alloc, line);
    let bytes = drawn.as_slice();
    (count(bytes, b"class=\"v\""), count(bytes, b"class=\"i\""))
}

// Two receipts of a are in memory only; the first, both or none are stored, and each such event has its bracket.
#[test]
fn as_many_are_stored_as_are_told(rt: HostRuntime) {
    let (loose, brackets) = marks(&rt, rt.alloc(), "");
    assert!(rt; loose >= 3);
    assert_eq!(rt;
        marks(&rt, rt.alloc(), "flush 0 1\n"),
        (loose.saturating_sub(1), brackets.saturating_add(1))
    );
    assert_eq!(rt;
        marks(&rt, rt.alloc(), "flush 0 1\nflush 0 1\n"),
        (loose.saturating_sub(2), brackets.saturating_add(2))
    );
    assert_eq!(rt;
        marks(&rt, rt.alloc(), "flush 0 2\n"),
        (loose.saturating_sub(2), brackets.saturating_add(1))
    );
    assert_eq!(rt;
        marks(&rt, rt.alloc(), "flush 0 3\n"),
        (loose.saturating_sub(2), brackets.saturating_add(1))
    );
    assert_eq!(rt;
        marks(&rt, rt.alloc(), "flush 0\n"),
        (loose.saturating_sub(2), brackets.saturating_add(1))
    );
    assert_eq!(rt; marks(&rt, rt.alloc(), "flush 0 0\n"), (loose, brackets));
}

// Returns how many checkpoints are drawn, that of the legend too.
fn checkpoints<R: Abort>(rt: &R, alloc: Global, line: &str) -> usize {
    let drawn = picture(rt, alloc, line);
    count(drawn.as_slice(), b"<rect class=\"l\"")
}

// A checkpoint whose row is pending is drawn as one that is noted, and what was received stays in memory only.
#[test]
fn a_checkpoint_is_drawn_before_it_is_noted(rt: HostRuntime) {
    let noted = checkpoints(&rt, rt.alloc(), "checkpoint 0\n");
    assert!(rt; checkpoints(&rt, rt.alloc(), "spell 0\n") == noted);
    assert!(rt; noted == checkpoints(&rt, rt.alloc(), "").saturating_add(1));
    assert_eq!(rt;
        marks(&rt, rt.alloc(), "spell 0\n"),
        marks(&rt, rt.alloc(), "")
    );
}

// What becomes of a script in which the whole starts over, once and twice.
static RESTARTED: &str = "restart\nresume 0\nresume 1\nresume 2\nresume 3\n";

static RESTARTED_TWICE: &str =
    "restart\nresume 0\nresume 1\nresume 2\nresume 3\nrestart\nresume 0\nresume 1\nresume 2\nresume 3\n";

// Returns how many bands of rounds are drawn, that of the legend too, and how many of them are named as the first of a start.
fn rounds<R: Abort>(rt: &R, alloc: Global, line: &str) -> (usize, usize) {
    let drawn = picture(rt, alloc, line);
    let bytes = drawn.as_slice();
    (
        count(bytes, b"<rect class=\"b\""),
        count(bytes, b">round 1<"),
    )
}

// A restart is drawn as the first round of a new start, which nobody need have failed before.
#[test]
fn a_restart_is_a_round(rt: HostRuntime) {
    assert_eq!(rt; rounds(&rt, rt.alloc(), ""), (1, 0));
    assert_eq!(rt; rounds(&rt, rt.alloc(), RESTARTED), (2, 1));
    assert_eq!(rt; rounds(&rt, rt.alloc(), RESTARTED_TWICE), (3, 2));
}
