//! Each script with the MD5 digest of its picture, as another program drew it.

use md5::{Digest, Md5};
use om_commands::CommandError;
use om_draw_command::draw::{Window, draw};
use om_text::{LineError, ScriptError};
use std::alloc::Global;
use std::process::Abort;

const WHOLE: Window = Window {
    from: 0,
    to: usize::MAX,
};

// The digest of the picture of a script.
fn digest_of<R: Abort>(rt: &R, alloc: Global, script: &str, window: Window) -> [u8; 16] {
    let mut reader = script.as_bytes();
    let mut picture = Vec::new(alloc);
    draw(alloc, &mut reader, &mut picture, window).expect(rt, "a picture");
    let mut hasher = Md5::new();
    hasher.update(picture.as_slice());
    hasher.finalize()
}

static TABLE: &str = "\
# a receives and puts out what came, b receives and sends it to process 0, c sends its first 4 bytes to process 1
program pa 128 00200893 04000513 00400593 00000073 00300893 00050593 04000513 00000073 00000893 00000073
program pb 128 00200893 04000513 00400593 00000073 00100893 00050613 00000513 04000593 00000073 00000893 00000073
program pc 64 00100893 00100513 00400613 00000073 00000893 00000073
proc a pa
proc b pb
proc c pc

run 0 100
run 1 100
run 2 100
give 1 0
run 1 100
give 0 1
run 0 100
flush 0

# b fails before it stored anything, and a has received what b cannot send again as it was
fail 1
join 0
join 2
resume 0
resume 1
resume 2

# what is left of before is refused, and b and a run again
give 0 1
run 1 100
give 1 0
run 1 100
run 0 100
give 0 1
give 0 2
run 0 100
flush 1
flush 0
";

static THREE_FAILURES: &str = "\
program relay 2048 00400893 00000073 00050a13 00058a93 020a1463 001a0913 01594663 41590933 ff9ff06f 00090513 60000593 00400613 00100893 00000073 40000513 00400593 00200893 00000073 00058993 40002483 00940433 00a40433 00899493 00940433 00140413 60802023 60000513 00400593 00300893 00000073 001a0913 01594663 41590933 ff9ff06f 00090513 60000593 00400613 00100893 00000073 001b0b13 7d000b93 f97b4ae3 000b0513 00000893 00000073
proc p0 relay
proc p1 relay
proc p2 relay
prune
run 2 60
run 0 20
resend 1
run 1 60
give 1 0
run 1 3
run 1 60
trim 2
give 2 1
resend 2
run 2 60
resend 0
trim 0
give 0 2
fail 1
join 0
join 2
resume 0
resume 1
resume 2
flush 0
run 1 60
resend 0
give 1 3
run 1 60
run 0 8
run 2 60
give 2 4
run 0 60
run 2 60
give 0 6
run 0 60
give 1 7
run 1 60
give 2 8
prune
run 2 1
give 0 2
run 2 60
fail 2
join 1
join 0
resume 2
run 2 20
resume 1
resume 0
give 2 4
checkpoint 2
run 1 60
run 2 20
run 2 60
run 0 60
give 0 11
run 1 60
run 1 60
fail 2
join 1
run 0 60
join 0
resume 2
run 2 60
resume 1
resume 0
give 1 13
flush 1
flush 1
give 1 7
run 1 60
give 2 15
run 0 60
flush 2
run 2 60
flush 2
give 0 16
";

static EVERY_ANSWER: &str = "\
# every answer once
program pa 128 00200893 04000513 00400593 00000073 00300893 00050593 04000513 00000073 00000893 00000073
program pb 128 00200893 04000513 00400593 00000073 00100893 00050613 00000513 04000593 00000073 00000893 00000073
program pc 64 00100893 00100513 00400613 00000073 00000893 00000073
program trap 4
proc a_name_of_thirty_two_characters_ pa
proc b pb
proc c pc
proc d trap
give 0 0
run 7 1
give 7 1
run 3 10
run 3 10
checkpoint 0
join 0
resume 0
run 2 100
give 1 0
run 1 1
give 1 0
run 1 100
give 1 0
give 0 0
give 1 0
give 1 0
give 1 0
checkpoint 1
fail 1
fail 1
give 1 0
give 1 99
fail 0
join 2
resend 3
join 3
fail 2
resume 0
resume 1
resume 2
resume 3
run 2 100
run 0 10
trim 0
prune
give 0 1
run 0 100
give 1 2
run 1 100
fail 3
join 0
fail 0
";

static LOST_AGAIN: &str = "\
program ring 512 00400893 00000073 00050293 00150313 00b36463 00000313 00600393 00029c63 00100893 00030513 10000593 00400613 00000073 00200893 10000513 00400593 00000073 10002403 00140413 10802023 00300893 10000513 00400593 00000073 00100893 00030513 10000593 00400613 00000073 fff38393 fa039ee3 00000893 00040513 00000073
proc p0 ring
proc p1 ring
proc p2 ring
run 0 60
run 1 60
give 1 0
run 1 60
run 2 20
give 2 1
run 2 60
give 2 1
trim 0
prune
give 0 2
run 0 60
flush 1
give 1 3
run 0 60
fail 0
join 2
join 1
resume 0
resume 2
resume 1
run 0 3
run 0 60
trim 1
give 0 2
run 1 60
give 1 3
run 0 20
give 2 2
checkpoint 1
trim 2
give 1 6
resend 2
run 0 60
run 1 60
give 2 8
run 2 60
give 0 9
run 1 60
run 1 60
fail 0
join 2
join 1
resume 0
resume 1
resume 2
run 2 60
run 0 60
give 0 9
give 1 6
flush 1
prune
give 0 7
run 0 60
give 1 6
give 1 12
run 1 60
fail 0
give 2 13
join 1
join 2
resume 2
resume 0
resume 1
run 0 60
checkpoint 2
run 2 1
run 2 60
flush 1
give 0 7
run 0 20
give 1 16
run 1 8
run 1 60
give 2 17
";

static SENT_AGAIN: &str = "\
program sink 2048 40000513 00400593 00200893 00000073 40000513 00400593 00300893 00000073 fe1ff06f
program fwd 2048 40000513 00400593 00200893 00000073 00000513 40000593 00400613 00100893 00000073 fddff06f
program src 2048 00100513 00000593 00400613 00100893 00000073 00100513 00400593 00400613 00100893 00000073 00000513 00000893 00000073
proc a sink
proc b fwd
proc c src
run 0 99
run 1 99
run 2 99
give 1 0
run 1 99
flush 1
give 1 1
run 1 99
resend 1
give 0 4
run 0 99
flush 0
fail 1
join 0
join 2
resume 0
resume 1
resume 2
run 1 99
give 1 1
give 0 5
";

#[test]
fn table(rt: HostRuntime) {
    let digest = digest_of(&rt, rt.alloc(), TABLE, WHOLE);
    assert_eq!(rt;
        digest,
        [
            30, 26, 209, 126, 79, 158, 146, 193, 65, 139, 114, 91, 99, 26, 106, 60
        ]
    );
}

// From the failure on, to the last output but not to what stores it.
#[test]
fn window_of_table(rt: HostRuntime) {
    let digest = digest_of(&rt, rt.alloc(), TABLE, Window { from: 19, to: 34 });
    assert_eq!(rt;
        digest,
        [
            201, 35, 185, 245, 118, 74, 79, 7, 28, 10, 3, 224, 124, 9, 81, 186
        ]
    );
}

#[test]
fn three_failures(rt: HostRuntime) {
    let digest = digest_of(&rt, rt.alloc(), THREE_FAILURES, WHOLE);
    assert_eq!(rt;
        digest,
        [
            220, 167, 63, 90, 81, 103, 190, 219, 247, 195, 235, 45, 123, 205, 54, 196
        ]
    );
}

#[test]
fn every_answer(rt: HostRuntime) {
    let digest = digest_of(&rt, rt.alloc(), EVERY_ANSWER, WHOLE);
    assert_eq!(rt;
        digest,
        [
            33, 95, 157, 189, 165, 112, 55, 230, 78, 19, 203, 66, 71, 57, 251, 65
        ]
    );
}

#[test]
fn lost_again(rt: HostRuntime) {
    let digest = digest_of(&rt, rt.alloc(), LOST_AGAIN, WHOLE);
    assert_eq!(rt;
        digest,
        [
            159, 159, 8, 146, 185, 119, 216, 250, 91, 70, 226, 231, 104, 35, 10, 239
        ]
    );
}

#[test]
fn sent_again(rt: HostRuntime) {
    let digest = digest_of(&rt, rt.alloc(), SENT_AGAIN, WHOLE);
    assert_eq!(rt;
        digest,
        [
            69, 51, 210, 123, 148, 197, 61, 145, 67, 118, 16, 245, 13, 113, 62, 164
        ]
    );
}

#[test]
fn a_picture_that_is_refused(rt: HostRuntime) {
    let mut picture = Vec::new(rt.alloc());
    let told = draw(
        rt.alloc(),
        &mut b"program a 6".as_slice(),
        &mut picture,
        WHOLE,
    );
    let refused = ScriptError {
        line: 1,
        error: LineError::BadSize,
    };
    assert_eq!(rt; told, Err(CommandError::Script(refused)));
    assert_eq!(rt; picture.len(), 0);
}
