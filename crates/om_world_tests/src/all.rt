//! All runs that there can be.

ghost use Rattle.std.specs.Prelude.{◌≡◌, IfOk, length, map};
ghost use Rattle.om_process.specs.Images.{program_of};

use crate::orders::{COUNTS, GATHERS, MANY, images, put_out};
use om_check::{End, Explored, Visitor, explore_all};
use om_interval::MAX_PROCESSES;
use om_process::Image;
use std::alloc::{AllocError, Global};
use std::process::Abort;
use std::snapshot::Snapshot;

// Processes 0 and 1 receive from each other one and put out what came; each other one sends its number to both.
static GATHERS_TWICE: [u32; 29] = [
    0x0040_0893,
    0x0000_0073,
    0x1000_0493,
    0x0020_0993,
    0x0335_7A63,
    0xFFE5_8913,
    0x0409_0863,
    0x1000_0513,
    0x0040_0593,
    0x0020_0893,
    0x0000_0073,
    0x0005_0593,
    0x1000_0513,
    0x0030_0893,
    0x0000_0073,
    0xFFF9_0913,
    0xFD9F_F06F,
    0x00A4_8023,
    0x0000_0513,
    0x1000_0593,
    0x0010_0613,
    0x0010_0893,
    0x0000_0073,
    0x0010_0513,
    0x0010_0893,
    0x0000_0073,
    0x0000_0513,
    0x0000_0893,
    0x0000_0073,
];

#[derive(Clone, Copy)]
enum Program {
    Gathers,
    Counts,
    GathersTwice,
}

fn words_of(program: Program) -> &'static [u32] {
    match program {
        Program::Gathers => &GATHERS,
        Program::Counts => &COUNTS,
        Program::GathersTwice => &GATHERS_TWICE,
    }
}

// Keeps of each run that it is shown what the processes put out, and a byte that is 1 where it is stuck.
#[derive(Drop)]
struct Shown {
    alloc: Global,
    images: Snapshot<Vec<Image>>,
    runs: Vec<Vec<u8>>,
}

impl Visitor for Shown {
    ghost use Rattle.std.specs.Prelude.{map};
    ghost use Rattle.om_process.specs.Images.{program_of};

    ghost programs = { λ v. map program_of v.images.value.items };

    ghost has_seen = { λ _ _. Unit {0} };

    fn visit(&mut self, run: Explored) -> Result<(), AllocError> {
        let bytes = bytes_of(self.alloc, &run);
        drop(run);
        self.runs.push(bytes?)?;
        Ok(())
    }
}

fn bytes_of(alloc: Global, run: &Explored) -> Result<Vec<u8>, AllocError> {
    let mut bytes = put_out(alloc, &run.world)?;
    if run.end == End::Stuck {
        bytes.push(0xFF)?;
    }
    Ok(bytes)
}

// All runs of so many processes with this program within so many walks, and whether these were all.
fn all(
    rt: &impl Abort,
    alloc: Global,
    words: &[u32],
    n: usize,
    walks: u64,
) -> (bool, Vec<Vec<u8>>) {
    assert!(rt; n > 0);
    assert!(rt; n <= MAX_PROCESSES);
    let images = images(alloc, words, n).expect(rt, "memory");
    let mut shown = Shown {
        alloc,
        images: Snapshot::of(&images),
        runs: Vec::new(alloc),
    };
    let whole = explore_all(alloc, &images, &mut shown, MANY, walks).expect(rt, "an end");
    let mut runs = shown.runs;
    runs.sort().expect(rt, "memory");
    (whole, runs)
}

// Which program, how many processes, and what their runs put out, in order.
static RUNS: [(Program, usize, &[&[u8]]); 6] = [
    (Program::Gathers, 1, &[&[]]),
    (Program::Gathers, 2, &[&[1]]),
    (Program::Gathers, 3, &[&[1, 2], &[2, 1]]),
    (
        Program::Gathers,
        4,
        &[
            &[1, 2, 3],
            &[1, 3, 2],
            &[2, 1, 3],
            &[2, 3, 1],
            &[3, 1, 2],
            &[3, 2, 1],
        ],
    ),
    (Program::Counts, 3, &[&[], &[0xFF]]),
    (
        Program::GathersTwice,
        4,
        &[&[2, 3, 2, 3], &[2, 3, 3, 2], &[3, 2, 2, 3], &[3, 2, 3, 2]],
    ),
];

#[test]
fn all_runs_that_there_can_be(rt: HostRuntime) {
    for (program, n, expected) in &RUNS {
        let (whole, runs) = all(&rt, rt.alloc(), words_of(*program), *n, 1_000);
        assert!(&rt; whole);
        check_runs(&rt, &runs, expected);
    }
}

fn check_runs(rt: &impl Abort, runs: &[Vec<u8>], expected: &[&[u8]]) {
    assert!(rt; runs.len() == expected.len());
    for k in 0..runs.len() {
        assert_eq!(rt; runs[k].as_slice(), expected[k]);
    }
}
