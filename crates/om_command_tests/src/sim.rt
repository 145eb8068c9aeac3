//! Scripts of worlds, and what the command writes of them.

use crate::rows::How::{Begins, Refused, Writes};
use crate::rows::{Command, Row, check};

// Three processes: a receives and puts out what came, b receives and sends it to process 0, c sends its first 4 bytes to
// process 1.
const THREE: &str = "\
program pa 128 00200893 04000513 00400593 00000073 00300893 00050593 04000513 00000073 00000893 00000073
program pb 128 00200893 04000513 00400593 00000073 00100893 00050613 00000513 04000593 00000073 00000893 00000073
program pc 64 00100893 00100513 00400613 00000073 00000893 00000073
proc a pa
proc b pb
proc c pc
";

// Events over them, the answers, and how the world stands in the end.
static EVENTS: [Row; 10] = [
    (
        "run 0 100\nrun 1 100\nrun 2 100\ngive 1 0\nrun 1 100\ngive 0 1\nflush 0 0\nflush 0 1\nflush 0 2\nflush 3 1\n",
        Writes,
        "\
ran 3 waiting sent 0 made 0
ran 3 waiting sent 0 made 0
ran 5 ended 0 sent 1 made 0
taken 1
ran 6 ended 0 sent 1 made 0
taken 1
noted 0
noted 1
noted 0
no-process
recovery 0 0 0
proc a inc 0 interval 1 ready
proc b inc 0 interval 1 ended 0
proc c inc 0 interval 0 ended 0
",
    ),
    (
        "run 0 100\nrun 1 100\nrun 2 100\ngive 1 0\nrun 1 100\ngive 0 1\nrun 0 100\nflush 0\n",
        Writes,
        "\
ran 3 waiting sent 0 made 0
ran 3 waiting sent 0 made 0
ran 5 ended 0 sent 1 made 0
taken 1
ran 6 ended 0 sent 1 made 0
taken 1
ran 5 ended 0 sent 0 made 1
noted 1
recovery 0 0 0
proc a inc 0 interval 1 ended 0
proc b inc 0 interval 1 ended 0
proc c inc 0 interval 0 ended 0
",
    ),
    (
        "run 0 100\nrun 1 100\nrun 2 100\ngive 1 0\nspell 1\nspell 1\nflush 1 0\nspell 3\nflush 1\n",
        Writes,
        "\
ran 3 waiting sent 0 made 0
ran 3 waiting sent 0 made 0
ran 5 ended 0 sent 1 made 0
taken 1
noted 0
present
noted 1
no-process
noted 1
recovery 0 1 0
proc a inc 0 interval 0 waiting
proc b inc 0 interval 1 ready
proc c inc 0 interval 0 ended 0
",
    ),
    (
        "run 0 100\ncheckpoint 0\ngive 0 5\njoin 0\nresume 0\nresend 0\ntrim 0\nrun 3 1\nfail 3\njoin 3\nresume 3\n",
        Writes,
        "\
ran 3 waiting sent 0 made 0
present
no-frame
no-round
not-in
sent 0
trimmed
no-process
no-process
no-process
no-process
recovery 0 0 0
proc a inc 0 interval 0 waiting
proc b inc 0 interval 0 ready
proc c inc 0 interval 0 ready
",
    ),
    (
        "run 0 100\nrun 1 100\nrun 2 100\ngive 1 0\nflush 1\nrestart\nrestart\nresume 1\ncheckpoint 1\nrestart\nresume 0\nresume 2\nresume 2\nrestart\n",
        Writes,
        "\
ran 3 waiting sent 0 made 0
ran 3 waiting sent 0 made 0
ran 5 ended 0 sent 1 made 0
taken 1
noted 1
restarted 0 1 0
restarted 0 1 0
back 1 inc 1
noted 1
unsettled
back 0 inc 1
back 0 inc 1
not-in
restarted 0 1 0
recovery 0 1 0
proc a down
proc b down
proc c down
",
    ),
    (
        "prune\nprune\ncheckpoint 0\ncheckpoint 1\ncheckpoint 2\n",
        Writes,
        "\
pruned
pruned
present
present
present
recovery 0 0 0
proc a inc 0 interval 0 ready
proc b inc 0 interval 0 ready
proc c inc 0 interval 0 ready
",
    ),
    (
        "run 2 100\nresend 2\ngive 0 0\ngive 1 0\nrun 1 3\ngive 1 1\ngive 1 0\n",
        Writes,
        "\
ran 5 ended 0 sent 1 made 0
sent 1
stranger
not-waiting
ran 3 waiting sent 0 made 0
taken 1
repeat
recovery 0 0 0
proc a inc 0 interval 0 ready
proc b inc 0 interval 1 ready
proc c inc 0 interval 0 ended 0
",
    ),
    (
        "\
run 0 100\nrun 1 100\nrun 2 100\ngive 1 0\nrun 1 100\ngive 0 1\nrun 0 100\nflush 0\nfail 1\njoin 0\njoin 2
resume 0\nresume 1\nresume 2\ngive 0 1\nrun 1 100\ngive 1 0\nrun 1 100\nrun 0 100\ngive 0 1\ngive 0 2\nrun 0 100
flush 1\nflush 0
",
        Writes,
        "\
ran 3 waiting sent 0 made 0
ran 3 waiting sent 0 made 0
ran 5 ended 0 sent 1 made 0
taken 1
ran 6 ended 0 sent 1 made 0
taken 1
ran 5 ended 0 sent 0 made 1
noted 1
waiting
waiting
finished
back 0 inc 1
back 0 inc 1
goes-on
orphan
ran 3 waiting sent 0 made 0
taken 1
ran 6 ended 0 sent 1 made 0
ran 3 waiting sent 0 made 0
orphan
taken 1
ran 5 ended 0 sent 0 made 1
noted 1
noted 1
recovery 1 1 0
proc a inc 1 interval 1 ended 0
proc b inc 1 interval 1 ended 0
proc c inc 0 interval 0 ended 0
out a 0 93081000
",
    ),
    (
        "\
run 1 100\nrun 2 100\ngive 1 0\ncheckpoint 1\nflush 1\nprune\nfail 1\njoin 0\njoin 2\nresume 1\nresume 0\nresume 2
give 1 0\nrun 1 100
",
        Writes,
        "\
ran 3 waiting sent 0 made 0
ran 5 ended 0 sent 1 made 0
taken 1
noted 1
noted 1
pruned
waiting
waiting
finished
back 1 inc 1
goes-on
goes-on
repeat
ran 6 ended 0 sent 1 made 0
recovery 0 1 0
proc a inc 0 interval 0 ready
proc b inc 1 interval 1 ended 0
proc c inc 0 interval 0 ended 0
",
    ),
    (
        "\
fail 0\nfail 1\ngive 2 0\njoin 2\nfail 2\nresume 0\nfail 0\nresume 2\nresume 1\njoin 1\njoin 2\nresume 0\nresume 1
resume 2\nresume 2
",
        Writes,
        "\
waiting
waiting
no-frame
finished
down
back 0 inc 1
waiting
back 0 inc 0
back 0 inc 1
waiting
finished
back 0 inc 2
goes-on
goes-on
not-in
recovery 0 0 0
proc a inc 2 interval 0 ready
proc b inc 1 interval 0 ready
proc c inc 0 interval 0 ready
",
    ),
];

// Who is in or down is not up.
static NOT_UP: [Row; 3] = [
    ("fail 1\n", Begins, "waiting\nrecovery 0 0 0\n"),
    (
        "fail 1\nfail 1\nrun 1 1\ngive 1 0\nflush 1\ncheckpoint 1\njoin 1\nresend 1\ntrim 1\nresume 1\n",
        Begins,
        "waiting\nnot-up\nnot-up\nnot-up\nnot-up\nnot-up\nnot-up\nnot-up\nnot-up\nnot-in\nrecovery 0 0 0\n",
    ),
    (
        "fail 1\njoin 0\nrun 0 1\njoin 0\nresume 0\nfail 0\njoin 2\n",
        Begins,
        "waiting\nwaiting\nnot-up\nnot-up\nnot-in\nwaiting\nfinished\nrecovery 0 0 0\n",
    ),
];

// One process; what it puts out is released, where it depends on no receipt.
static FLAGS: [Row; 2] = [
    (
        "program-m dv 128 00700093 0200C1B3 04302023 00300893 04000513 00400593 00000073 00000893 00000073\nproc d dv\nrun 0 100\n",
        Writes,
        "ran 8 ended 0 sent 0 made 1\nrecovery 0\nproc d inc 0 interval 0 ended 0\nout d 0 ffffffff\n",
    ),
    (
        "program dv 128 00700093 0200C1B3 04302023 00300893 04000513 00400593 00000073 00000893 00000073\nproc d dv\nrun 0 100\n",
        Writes,
        "ran 1 trapped 1 sent 0 made 0\nrecovery 0\nproc d inc 0 interval 0 trapped 1\n",
    ),
];

const SEVENTEEN: &str = "program a 4
proc p0 a\nproc p1 a\nproc p2 a\nproc p3 a\nproc p4 a\nproc p5 a\nproc p6 a\nproc p7 a\nproc p8 a
proc p9 a\nproc p10 a\nproc p11 a\nproc p12 a\nproc p13 a\nproc p14 a\nproc p15 a\nproc p16 a\n";

static FAULTY: [Row; 32] = [
    ("", Refused, "empty script"),
    ("program a 4\n", Refused, "empty script"),
    ("run 0 1\n", Refused, "empty script"),
    ("program a 6\n", Refused, "line 1: bad size"),
    (
        "program a 4 00000013 00000013\n",
        Refused,
        "line 1: image too long",
    ),
    ("program a-b 4\n", Refused, "line 1: bad name"),
    ("program a 4 13\n", Refused, "line 1: bad word"),
    ("program a 4\nprogram a 4\n", Refused, "line 2: name taken"),
    ("proc x nosuch\n", Refused, "line 1: no such name"),
    (SEVENTEEN, Refused, "line 18: too many"),
    (
        "program a 4\nproc p a\nprune\nprogram b 4\n",
        Refused,
        "line 4: out of place",
    ),
    (
        "program a 4\nproc p a\nprune\nproc q a\n",
        Refused,
        "line 4: out of place",
    ),
    ("fail\n", Refused, "line 1: wrong count of words"),
    ("join 0 1\n", Refused, "line 1: wrong count of words"),
    ("resume x\n", Refused, "line 1: bad number"),
    ("die 0\n", Refused, "line 1: unknown line"),
    ("run 0\n", Refused, "line 1: wrong count of words"),
    ("prune 0\n", Refused, "line 1: wrong count of words"),
    ("restart 0\n", Refused, "line 1: wrong count of words"),
    ("flush\n", Refused, "line 1: wrong count of words"),
    ("flush 0 1 1\n", Refused, "line 1: wrong count of words"),
    ("flush 0 x\n", Refused, "line 1: bad number"),
    ("flush 0 4294967296\n", Refused, "line 1: bad number"),
    ("flush 0 4294967295\n", Refused, "empty script"),
    ("give 0 4294967296\n", Refused, "line 1: bad number"),
    ("give 0 4294967295\n", Refused, "empty script"),
    ("run 4294967296 1\n", Refused, "line 1: bad number"),
    (
        "run 0 18446744073709551616\n",
        Refused,
        "line 1: bad number",
    ),
    ("run 0 18446744073709551615\n", Refused, "empty script"),
    ("checkpoint x\n", Refused, "line 1: bad number"),
    ("spell\n", Refused, "line 1: wrong count of words"),
    ("spell 0 1\n", Refused, "line 1: wrong count of words"),
];

// A process puts out the bytes 22 5c 0a 09 0d 20 7e 7f 00 38 ff 1f and then none, and another "hi".
const SPEAK: &str = "\
program p 64 00300893 02c00513 00c00593 00000073 00300893 00000593 00000073 00000893 00000513 00000073 00000013 \
090a5c22 7f7e200d 1fff3800
program q 64 00300893 01800513 00200593 00000073 00000893 00000073 00006968
proc p p
proc q q
run 0 100
run 1 100
";

static SPOKEN: [Row; 1] = [(
    "",
    Writes,
    "\
ran 9 ended 0 sent 0 made 2
ran 5 ended 0 sent 0 made 1
recovery 0 0
proc p inc 0 interval 0 ended 0
proc q inc 0 interval 0 ended 0
out p 0 225c0a090d207e7f0038ff1f
out p 1 -
out q 0 6869
",
)];

// The same in the escapes of C: a digit behind three octal ones is a byte of its own.
static QUOTED: [Row; 1] = [(
    "",
    Writes,
    r#"ran 9 ended 0 sent 0 made 2
ran 5 ended 0 sent 0 made 1
recovery 0 0
proc p inc 0 interval 0 ended 0
proc q inc 0 interval 0 ended 0
out p 0 "\"\\\n\t\r ~\177\0008\377\037"
out p 1 ""
out q 0 "hi"
"#,
)];

#[test]
fn outputs_in_their_forms(rt: HostRuntime) {
    check(&rt, rt.alloc(), Command::Sim, SPEAK, &SPOKEN);
    check(&rt, rt.alloc(), Command::SimText, SPEAK, &QUOTED);
}

#[test]
fn scripts_and_their_answers(rt: HostRuntime) {
    check(&rt, rt.alloc(), Command::Sim, THREE, &EVENTS);
    check(&rt, rt.alloc(), Command::Sim, THREE, &NOT_UP);
    check(&rt, rt.alloc(), Command::Sim, "", &FLAGS);
    check(&rt, rt.alloc(), Command::Sim, "", &FAULTY);
}
