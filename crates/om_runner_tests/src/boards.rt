ghost use Rattle.std.specs.Prelude.{◌≡◌};

use crate::rows::{front, last, process, vector};
use om_interval::DepVec;
use om_manager::{Gathered, JoinError, OutputNote, RecordError};
use om_recover::Note;
use om_runner::{Blank, Board, Frontier, Naming, Pass, Shared};
use std::alloc::Global;
use std::marker::Brand;
use std::process::Abort;
use std::sync::Wait;

// Reports a process quiet in a round, and compares the answer.
fn assert_quiet<K: Naming, R: Abort>(
    rt: &R,
    board: &mut Board<K>,
    number: u32,
    round: u32,
    all: bool,
) {
    let pid = process(rt, number);
    let is_right = pid.index() < board.manager().recovery().n() && board.quiet(pid, round) == all;
    assert!(rt; is_right, "{number} in round {round}");
}

// Notes a receipt of process 0 that is beyond the recovery state.
fn assert_logged<K: Naming, R: Wait + Abort>(
    rt: &R,
    alloc: Global,
    board: &mut Board<K>,
    frontier: &Frontier<K>,
    round: u32,
    wanted: Result<Note, RecordError>,
) {
    let (vec, got) = (vector(rt, &[1, 1]), vector(rt, &[0, 1]));
    let told = board.note_logged(rt, alloc, process(rt, 0), round, 1, &vec, &got, frontier);
    assert!(rt; told == wanted);
}

// Hands in an output of that receipt.
fn assert_held<K: Naming, R: Wait + Abort>(
    rt: &R,
    alloc: Global,
    board: &mut Board<K>,
    frontier: &Frontier<K>,
)
    requires { K.OverClean → ⊥ }
{
    let told = board.note_output(rt, alloc, process(rt, 0), 0, 1, 0, b"A", frontier);
    assert!(rt; told == Ok(OutputNote::Held));
}

// Notes a checkpoint of process 1 that is beyond it.
fn assert_stored<K: Naming, R: Wait + Abort>(
    rt: &R,
    alloc: Global,
    board: &mut Board<K>,
    frontier: &Frontier<K>,
) {
    let (vec, got) = (vector(rt, &[2, 2]), vector(rt, &[1, 1]));
    let told = board.note_checkpoint(rt, alloc, process(rt, 1), 0, 2, &vec, &got, frontier);
    assert!(rt; told == Ok(Note::Noted { raised: false }));
}

// Notes and hands in what is beyond the recovery state: no front comes of it.
fn waiting_rows<K: Naming, R: Wait + Abort>(
    rt: &R,
    alloc: Global,
    board: &mut Board<K>,
    frontier: &Frontier<K>,
)
    requires { K.OverClean → ⊥ }
{
    let below = Ok(Note::Noted { raised: false });
    let stale = Err(RecordError::Stale { round: 0 });
    assert_logged(rt, alloc, board, frontier, 0, below);
    assert_logged(rt, alloc, board, frontier, 1, stale);
    assert_held(rt, alloc, board, frontier);
    assert_stored(rt, alloc, board, frontier);
    board.prune(rt, frontier);
}

// Process 0 joins.
fn assert_joined<K: Naming, R: Wait + Abort>(
    rt: &R,
    alloc: Global,
    board: &mut Board<K>,
    frontier: &Frontier<K>,
    wanted: Result<Gathered, JoinError>,
) {
    let told = board.join(rt, alloc, process(rt, 0), 0, 1, frontier);
    assert!(rt; told == wanted, "{told:?}");
}

// The last front, with a vector of zeros.
fn assert_read<K: Naming, R: Wait + Abort>(
    rt: &R,
    frontier: &Frontier<K>,
    pass: &mut Pass<K>,
    version: u64,
    round: u32,
) {
    let read = frontier.read(rt, pass);
    assert!(rt; read == front(rt, version, round, &[0, 0]), "{read:?}");
}

// One process fails and the other joins: the frontier shows each step to a pass that has not met.
fn one_round<K: Naming, R: Wait + Abort>(
    rt: &R,
    alloc: Global,
    board: &mut Board<K>,
    frontier: &Frontier<K>,
    pass: &mut Pass<K>,
) {
    assert_joined(rt, alloc, board, frontier, Err(JoinError::NoRound));
    assert_read(rt, frontier, pass, 0, 0);
    let failed = board.fail(rt, alloc, process(rt, 1), 0, frontier);
    assert!(rt; failed == Ok(Gathered::Waiting));
    assert_read(rt, frontier, pass, 1, 0);
    assert_quiet(rt, board, 0, 0, false);
    assert_joined(rt, alloc, board, frontier, Ok(Gathered::Finished));
    assert_read(rt, frontier, pass, 2, 1);
}

// What a board answers before, in and after a round.
fn rows_in_order<K: Naming, R: Wait + Abort>(
    rt: &R,
    alloc: Global,
    board: &mut Board<K>,
    frontier: &Frontier<K>,
    pass: &mut Pass<K>,
)
    requires { K.OverClean → ⊥ }
{
    waiting_rows(rt, alloc, board, frontier);
    assert_quiet(rt, board, 0, 0, false);
    assert_quiet(rt, board, 0, 1, false);
    assert_quiet(rt, board, 1, 0, true);
    one_round(rt, alloc, board, frontier, pass);
    assert_quiet(rt, board, 0, 0, false);
    assert_quiet(rt, board, 0, 1, false);
    assert_quiet(rt, board, 1, 1, true);
}

// After a round each process offers anew. Where all have ended, nobody waits.
fn rows_of_ended<K: Naming, R: Abort>(rt: &R, board: &mut Board<K>) {
    assert_waits(rt, board, (0, 1), (1, 1), false);
    both_offer(rt, board, 1);
    assert_waits(rt, board, (0, 1), (1, 1), false);
    assert_waits(rt, board, (1, 1), (1, 1), false);
}

// The pass meets, and reads the same.
fn assert_met<K: Naming, R: Wait + Abort>(
    rt: &R,
    board: &mut Board<K>,
    frontier: &Frontier<K>,
    pass: Pass<K>,
) {
    let (met, mut pass) = frontier.meet(rt, board, pass);
    assert!(rt; met == front(rt, 2, 1, &[0, 0]), "{met:?}");
    assert_read(rt, frontier, &mut pass, 2, 1);
    drop(pass);
}

// Reports that a process of two waits, with these counts, and compares the answer.
fn assert_waits<K: Naming, R: Abort>(
    rt: &R,
    board: &mut Board<K>,
    (number, round): (u32, u32),
    (put, taken): (u64, u64),
    all: bool,
) {
    let pid = process(rt, number);
    let is_right = pid.index() < board.manager().recovery().n()
        && board.wait(pid, round, put, taken) == all;
    assert!(rt; is_right, "{number} in round {round}: {put} {taken}");
}

// Both processes of two put anew what they keep.
fn both_offer<K: Naming, R: Abort>(rt: &R, board: &mut Board<K>, round: u32) {
    for number in 0..2 {
        let pid = process(rt, number);
        let is_of_board = pid.index() < board.manager().recovery().n();
        assert!(rt; is_of_board);
        board.offer(pid, round);
    }
}

// Process 1 of two withdraws.
fn one_withdraws<K: Naming, R: Abort>(rt: &R, board: &mut Board<K>) {
    let pid = process(rt, 1);
    let is_of_board = pid.index() < board.manager().recovery().n();
    assert!(rt; is_of_board);
    board.withdraw(pid);
}

// Two processes wait once both have offered what they keep, and as many messages were taken as put.
fn rows_of_waiting<K: Naming, R: Abort>(rt: &R, board: &mut Board<K>) {
    assert_waits(rt, board, (0, 0), (1, 0), false);
    assert_waits(rt, board, (1, 0), (0, 1), false);
    both_offer(rt, board, 0);
    assert_waits(rt, board, (0, 0), (1, 0), false);
    assert_waits(rt, board, (1, 0), (0, 0), false);
    assert_waits(rt, board, (1, 0), (0, 1), true);
    assert_waits(rt, board, (0, 1), (2, 0), true);
    assert_waits(rt, board, (0, 0), (2, 0), false);
    assert_waits(rt, board, (0, 0), (1, 0), true);
}

// What takes a report back.
fn rows_of_running<K: Naming, R: Abort>(rt: &R, board: &mut Board<K>) {
    one_withdraws(rt, board);
    assert_waits(rt, board, (0, 0), (1, 0), false);
    assert_waits(rt, board, (1, 0), (0, 1), true);
    board.refuse();
    assert_waits(rt, board, (0, 0), (1, 0), false);
    both_offer(rt, board, 1);
    assert_waits(rt, board, (0, 0), (1, 0), false);
    assert_waits(rt, board, (1, 0), (0, 1), false);
    one_withdraws(rt, board);
    assert_waits(rt, board, (1, 0), (0, 1), false);
}

fn rows_under_lock<K: Naming, R: Wait + Abort>(
    rt: &R,
    alloc: Global,
    shared: &Shared<K>,
    mut pass: Pass<K>,
)
    requires { K.OverClean → ⊥ }
{
    let mut board = shared.board.lock(rt);
    rows_of_waiting(rt, &mut board);
    rows_of_running(rt, &mut board);
    both_offer(rt, &mut board, 0);
    rows_in_order(rt, alloc, &mut board, &shared.frontier, &mut pass);
    rows_of_ended(rt, &mut board);
    assert_met(rt, &mut board, &shared.frontier, pass);
    drop(board);
}

fn rows_of_a_board<K: Naming, R: Wait + Abort>(rt: &R, alloc: Global, blank: Blank)
    requires named { blank ≡ K.cell }
    requires no_program { K.OverClean → ⊥ }
{
    let (shared, mut passes) = Shared::<K>::new(alloc, blank).expect(rt, "memory");
    let count = passes.len();
    let pass = last(rt, &mut passes);
    drop(passes);
    rows_under_lock(rt, alloc, &shared, pass);
    drop(shared);
    assert!(rt; count == 2);
}

#[test]
fn board_calls_post_and_clear(rt: HostRuntime) {
    let blank = Blank::new(rt.alloc(), 2).expect(&rt, "memory");
    rows_of_a_board::<Brand, _>(&rt, rt.alloc(), blank);
}

#[test]
fn vectors_go_to_words_and_back(rt: HostRuntime) {
    let numbers = vector(&rt, &[7, 0, 4_294_967_295]);
    let words = numbers.to_words();
    let wanted = [7, 0, 4_294_967_295, 0, 0, 0, 0, 0, 0, 0, 0, 0, 0, 0, 0, 0];
    assert!(&rt; words == wanted && DepVec::from_words(&words[..3]) == numbers);
}
