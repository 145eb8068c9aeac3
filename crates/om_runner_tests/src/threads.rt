ghost use Rattle.std.specs.Prelude.{◌≡◌};

use crate::rows::{front, is_set, last, noted};
use om_runner::{Blank, Front, Frontier, Naming, Pass, Shared, laws};
use std::alloc::Global;
use std::marker::Brand;
use std::process::Abort;
use std::sync::Wait;
use std::sync::atomic::AtomicBool;
use std::sync::atomic::Ordering::SeqCst;
use std::thread::{Threads, join};

// A thread notes, posts and ends.
fn noted_beside<K: Naming + Send + Sync, R: Threads + Wait + Abort + Sync>(
    rt: &R,
    alloc: Global,
    shared: &Shared<K>,
) {
    join(
        rt,
        || noted(rt, alloc, &mut shared.board.lock(rt), &shared.frontier),
        || (),
    );
}

// A pass meets.
fn met<K: Naming, R: Wait>(rt: &R, shared: &Shared<K>, pass: Pass<K>) -> (Front, Pass<K>) {
    let mut board = shared.board.lock(rt);
    let told = shared.frontier.meet(rt, &mut board, pass);
    drop(board);
    told
}

// A pass reads.
fn read<K: Naming, R: Wait>(rt: &R, frontier: &Frontier<K>, mut pass: Pass<K>) -> Front {
    let front = frontier.read(rt, &mut pass);
    drop(pass);
    front
}

// A thread notes, posts and ends. Then a first pass meets and reads, and after it a second one reads, which has not met.
fn met_and_read<K: Naming + Send + Sync, R: Threads + Wait + Abort + Sync>(
    rt: &R,
    alloc: Global,
    blank: Blank,
) -> (Front, Front, Front)
    requires { blank ≡ K.cell }
{
    let (shared, mut passes) = Shared::<K>::new(alloc, blank).expect(rt, "memory");
    let second = last(rt, &mut passes);
    let first = last(rt, &mut passes);
    drop(passes);
    noted_beside(rt, alloc, &shared);
    let (met, first) = met(rt, &shared, first);
    let read_after = read(rt, &shared.frontier, first);
    let read_beside = read(rt, &shared.frontier, second);
    drop(shared);
    (met, read_after, read_beside)
}

#[test]
fn meet_then_read(rt: HostRuntime) {
    let blank = Blank::new(rt.alloc(), 2).expect(&rt, "memory");
    let (met, read_after, read_beside) = met_and_read::<Brand, _>(&rt, rt.alloc(), blank);
    let wanted = front(&rt, 1, 0, &[1, 0]);
    assert!(&rt; met == wanted && read_after == wanted && read_beside == wanted);
    laws::each_version_has_one_front();
    laws::limits();
}

// Keeps the board's lock until it sees that a read was answered.
fn keep_the_lock<K: Naming, R: Wait>(
    rt: &R,
    shared: &Shared<K>,
    locked: &AtomicBool,
    answered: &AtomicBool,
) -> bool {
    let board = shared.board.lock(rt);
    locked.store(true, SeqCst);
    let answered_in_time = is_set(answered);
    drop(board);
    answered_in_time
}

// Reads once the board is locked.
fn read_once_locked<K: Naming, R: Wait>(
    rt: &R,
    frontier: &Frontier<K>,
    pass: &mut Pass<K>,
    locked: &AtomicBool,
    answered: &AtomicBool,
) -> Option<Front> {
    if !is_set(locked) {
        return None;
    }
    let front = frontier.read(rt, pass);
    answered.store(true, SeqCst);
    Some(front)
}

// One thread keeps the board's lock until it sees that the other's read was answered.
fn read_in_two_threads<K: Naming + Send + Sync, R: Threads + Wait + Abort + Sync>(
    rt: &R,
    shared: &Shared<K>,
    pass: &mut Pass<K>,
) -> (bool, Option<Front>) {
    let locked = AtomicBool::new(false);
    let answered = AtomicBool::new(false);
    join(
        rt,
        || keep_the_lock(rt, shared, &locked, &answered),
        || read_once_locked(rt, &shared.frontier, pass, &locked, &answered),
    )
}

fn read_beside_the_lock<K: Naming + Send + Sync, R: Threads + Wait + Abort + Sync>(
    rt: &R,
    alloc: Global,
    blank: Blank,
) -> (bool, Option<Front>)
    requires { blank ≡ K.cell }
{
    let (shared, mut passes) = Shared::<K>::new(alloc, blank).expect(rt, "memory");
    let mut pass = last(rt, &mut passes);
    drop(passes);
    let told = read_in_two_threads(rt, &shared, &mut pass);
    drop(pass);
    drop(shared);
    told
}

#[test]
fn read_while_locked(rt: HostRuntime) {
    let blank = Blank::new(rt.alloc(), 1).expect(&rt, "memory");
    let (answered_in_time, read) = read_beside_the_lock::<Brand, _>(&rt, rt.alloc(), blank);
    let wanted = Some(front(&rt, 0, 0, &[0]));
    assert!(&rt; answered_in_time && read == wanted);
}
