//! Plays of runs without failures, and reports that are compared with them.

ghost use Rattle.std.specs.Prelude.{◌≡◌, ◌≤◌, IfOk, length};

use om_bytes::Bytes;
use om_check::{PlayFault, play};
use om_commands::{BytesForm, CommandError};
use om_interval::Pid;
use om_isa::Ext;
use om_manager::Output;
use om_process::{Image, Status, Witness};
use om_run_commands::checked_text;
use om_runner::Report;
use om_scripts::Programs;
use om_stable::MemStable;
use om_world::World;
use std::alloc::{AllocError, Global};
use std::process::Abort;

// Process 0 takes two messages and puts each out; each of the others sends it its number.
pub const GATHER: &str = "\
program gather 512 00400893 00000073 04051863 00200893 10000513 01000593 00000073 00300893 10000513 00400593 00000073 \
00200893 10000513 01000593 00000073 00300893 10000513 00400593 00000073 00000893 00000513 00000073 10A02023 00100893 \
00000513 10000593 00400613 00000073 00000893 00000513 00000073
proc p0 gather
proc p1 gather
proc p2 gather
proc p3 gather
";

static WORDS: [u32; 31] = [
    0x00400893, 0x00000073, 0x04051863, 0x00200893, 0x10000513, 0x01000593, 0x00000073, 0x00300893,
    0x10000513, 0x00400593, 0x00000073, 0x00200893, 0x10000513, 0x01000593, 0x00000073, 0x00300893,
    0x10000513, 0x00400593, 0x00000073, 0x00000893, 0x00000513, 0x00000073, 0x10A02023, 0x00100893,
    0x00000513, 0x10000593, 0x00400613, 0x00000073, 0x00000893, 0x00000513, 0x00000073,
];

fn gather_image(alloc: Global) -> Result<Image, AllocError> {
    let mut bytes = Vec::new(alloc);
    for word in &WORDS {
        bytes.extend_from_slice(&word.to_le_bytes())?;
    }
    Ok(Image {
        bytes,
        size: 512,
        ext: Ext::I,
    })
}

fn gather_images(alloc: Global) -> Result<Vec<Image>, AllocError>
    ensures { IfOk result (λ images. length images.items ≡ 4) }
{
    let mut images = Vec::with_capacity(alloc, 4)?;
    for _ in 0..4usize {
        images.push(gather_image(alloc)?)?;
    }
    Ok(images)
}

// That process 0 receives from these, and that each process finishes at most so many instructions.
fn gather_witnesses(alloc: Global, senders: &[u8], count: u64) -> Result<Vec<Witness>, AllocError> {
    let mut witnesses = Vec::new(alloc);
    witnesses.push(Witness {
        senders: senders.to_vec(alloc)?,
        count,
    })?;
    for _ in 1..4usize {
        witnesses.push(Witness {
            senders: Vec::new(alloc),
            count,
        })?;
    }
    Ok(witnesses)
}

// A fault in a word, and of which process.
fn fault_text(fault: PlayFault) -> (&'static str, usize) {
    match fault {
        PlayFault::NotSent(pid) => ("not sent", pid.index()),
        PlayFault::NotWaiting(pid) => ("not waiting", pid.index()),
        PlayFault::Spent(pid) => ("spent", pid.index()),
        PlayFault::NotEnded(pid) => ("not ended", pid.index()),
        PlayFault::Memory => ("memory", 0),
    }
}

// From whom process 0 is to receive, how many instructions each process may finish, and what is told.
static PLAYS: [(&[u8], u64, (&str, usize)); 11] = [
    (&[1, 2], 1_000, ("", 0)),
    (&[3, 1], 1_000, ("", 0)),
    (&[], 1_000, ("not ended", 0)),
    (&[1], 1_000, ("not ended", 0)),
    (&[1, 1], 1_000, ("not sent", 0)),
    (&[1, 0], 1_000, ("not sent", 0)),
    (&[1, 4], 1_000, ("not sent", 0)),
    (&[255, 1], 1_000, ("not sent", 0)),
    (&[1, 2, 3], 1_000, ("not waiting", 0)),
    (&[1, 2], 10, ("spent", 1)),
    (&[1, 2], 13, ("spent", 0)),
];

// Returns whether the outputs of process 0 are the numbers of these.
fn are_gathered(world: &World<MemStable>, senders: &[u8]) -> bool {
    if world.manager().recovery().n() == 0 {
        return false;
    }
    let outputs = world.manager().released(Pid::at(0));
    if outputs.len() != senders.len() {
        return false;
    }
    for (output, sender) in outputs.iter().zip(senders) {
        if output.bytes.as_slice() != [*sender, 0, 0, 0].as_slice() {
            return false;
        }
    }
    true
}

// Returns what is told of a play; that the outputs are in another order is told too.
fn told(
    alloc: Global,
    images: &[Image],
    senders: &[u8],
    count: u64,
) -> Result<(&'static str, usize), AllocError>
    requires { length images.now ≡ 4 }
{
    let witnesses = gather_witnesses(alloc, senders, count)?;
    let played = play(alloc, images, &witnesses);
    let told = told_of(&played, senders);
    drop(played);
    Ok(told)
}

fn told_of(played: &Result<World<MemStable>, PlayFault>, senders: &[u8]) -> (&'static str, usize) {
    match played {
        Ok(world) if are_gathered(world, senders) => ("", 0),
        Ok(_) => ("order", 0),
        Err(fault) => fault_text(*fault),
    }
}

#[test]
fn receipts_that_are_played(rt: HostRuntime) {
    let images = gather_images(rt.alloc()).expect(&rt, "memory");
    for (senders, count, wanted) in &PLAYS {
        let told = told(rt.alloc(), &images, senders, *count).expect(&rt, "memory");
        assert!(&rt; told == *wanted, "{senders:?}");
    }
}

// What is altered of a report, and of the senders of process 0 in its witness.
#[derive(Clone, Copy, Debug)]
enum Damage {
    Nothing,
    // A byte of the last output of process 0.
    Byte,
    // The last output of process 0.
    Output,
    // The outputs of the last process, of which there are none.
    Outputs,
    Status,
    LastStatus,
    OneStatusMore,
}

// The bytes, of which the first is another.
fn spoiled(alloc: Global, bytes: &Bytes) -> Result<Bytes, AllocError> {
    let mut changed = Vec::from_slice(alloc, bytes.as_slice())?;
    if let Some(byte) = changed.get_mut(0) {
        *byte ^= 1;
    }
    Bytes::from_slice(alloc, &changed)
}

fn spoil_first(alloc: Global, released: &mut Vec<Vec<Output>>, keeps: bool) {
    let Some(outputs) = released.get_mut(0) else {
        return;
    };
    let Some(mut output) = outputs.pop() else {
        return;
    };
    if let Ok(bytes) = spoiled(alloc, &output.bytes) {
        output.bytes = bytes;
    }
    if keeps {
        let _ = outputs.push(output);
    }
}

fn spoil_status(statuses: &mut [Status]) {
    if let Some(status) = statuses.get_mut(2) {
        *status = Status::Ended(1);
    }
}

fn spoil(alloc: Global, report: &mut Report, how: Damage) {
    match how {
        Damage::Nothing => {}
        Damage::Byte => spoil_first(alloc, &mut report.released, true),
        Damage::Output => spoil_first(alloc, &mut report.released, false),
        Damage::Outputs => {
            let _ = report.released.pop();
        }
        Damage::Status => spoil_status(&mut report.statuses),
        Damage::LastStatus => {
            let _ = report.statuses.pop();
        }
        Damage::OneStatusMore => {
            let _ = report.statuses.push(Status::Ended(0));
        }
    }
}

// How a report in which process 0 received from 1 and then from 2 is altered, from whom the witness says that it received,
// and whether the text is written.
static CHECKS: [(Damage, &[u8], bool); 11] = [
    (Damage::Nothing, &[1, 2], true),
    (Damage::Byte, &[1, 2], false),
    (Damage::Output, &[1, 2], false),
    (Damage::Outputs, &[1, 2], true),
    (Damage::Status, &[1, 2], false),
    (Damage::LastStatus, &[1, 2], false),
    (Damage::OneStatusMore, &[1, 2], false),
    (Damage::Nothing, &[2, 1], false),
    (Damage::Nothing, &[1], false),
    (Damage::Nothing, &[1, 2, 3], false),
    (Damage::Nothing, &[1, 3], false),
];

const GATHERED: &str = "\
out p0 0 01000000
out p0 1 02000000
end p0 ended 0
end p1 ended 0
end p2 ended 0
end p3 ended 0
";

// The programs of the lines of a text.
fn programs_of(rt: &impl Abort, alloc: Global, text: &str) -> Programs {
    let mut programs = Programs::new(alloc);
    for line in text.lines() {
        let mut words = Vec::new(alloc);
        for word in line.split_whitespace() {
            words.push(word.as_bytes()).expect(rt, "memory");
        }
        let added = match words.as_slice() {
            [b"program", words @ ..] => programs.add_program(alloc, Ext::I, words),
            [b"proc", words @ ..] => programs.add_process(alloc, words),
            _ => Ok(()),
        };
        added.expect(rt, "a line of a program or a process");
    }
    programs
}

// The report of the run in which process 0 receives from 1 and then from 2.
fn gathered(alloc: Global, images: &[Image]) -> Result<Report, CommandError>
    requires { length images.now ≡ 4 }
{
    let witnesses = gather_witnesses(alloc, &[1, 2], 1_000)?;
    let statuses = vec![in alloc; Status::Ended(0); 4]?;
    let world = play(alloc, images, &witnesses).map_err(|_| CommandError::NoMemory)?;
    let report = Report::of(alloc, world.manager(), statuses);
    drop(world);
    Ok(report?)
}

// The check of a report that is altered so, by a witness with these senders.
fn checked(
    alloc: Global,
    programs: &Programs,
    images: &[Image],
    how: Damage,
    senders: &[u8],
) -> Result<String, CommandError>
    requires images { length images.now ≡ 4 }
    requires some { 1 ≤ length programs.now.processes }
{
    let witnesses = gather_witnesses(alloc, senders, 1_000)?;
    let mut report = gathered(alloc, images)?;
    spoil(alloc, &mut report, how);
    let text = checked_text(alloc, BytesForm::Hex, programs, &report, &witnesses);
    drop(report);
    text
}

fn check_checks(rt: &impl Abort, alloc: Global, programs: &Programs, images: &[Image])
    requires images { length images.now ≡ 4 }
    requires some { 1 ≤ length programs.now.processes }
{
    for (how, senders, is_written) in &CHECKS {
        let told = checked(alloc, programs, images, *how, senders);
        let is_right = match &told {
            Ok(text) => *is_written && text.as_str() == GATHERED,
            Err(error) => !*is_written && *error == CommandError::Unlike,
        };
        assert!(rt; is_right, "{how:?} {senders:?}");
    }
}

#[test]
fn reports_that_are_altered(rt: HostRuntime) {
    let images = gather_images(rt.alloc()).expect(&rt, "memory");
    let programs = programs_of(&rt, rt.alloc(), GATHER);
    assert!(&rt; programs.n() == 4);
    check_checks(&rt, rt.alloc(), &programs, &images);
    drop(programs);
}
