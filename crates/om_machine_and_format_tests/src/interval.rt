use crate::same::{assert_same, assert_same_at};
use om_interval::{Bounds, DepVec, MAX_PROCESSES, Pid, Starts, Tag, laws};
use std::alloc::Global;
use std::process::Abort;

#[test]
fn processes_are_numbered_below_the_limit(rt: HostRuntime) {
    let last = Pid::new(15).expect(&rt, "a process");
    let told = (MAX_PROCESSES, last.index(), Pid::at(3).index());
    assert_same(&rt, &(told, Pid::new(16)), &((16, 15, 3), None));
}

// A vector with these places.
fn vector_of(rt: &impl Abort, places: &[u32]) -> DepVec {
    DepVec::from_slice(places).expect(rt, "1 to 16 places")
}

// Returns how many places a vector of so many zeros has, None where there is none.
fn zeros(places: usize) -> Option<usize> {
    Some(DepVec::zeros(places)?.n())
}

// Returns whether a vector of these places has them, None where there is none.
fn keeps(places: &[u32]) -> Option<bool> {
    Some(DepVec::from_slice(places)?.as_slice() == places)
}

const SEVENS: [u32; 17] = [7; 17];

#[test]
fn vectors_have_1_to_16_places(rt: HostRuntime) {
    let lengths = [zeros(0), zeros(1), zeros(16), zeros(17)];
    let are_kept = [keeps(&[]), keeps(&SEVENS[..16]), keeps(&SEVENS)];
    let wanted = ([None, Some(1), Some(16), None], [None, Some(true), None]);
    assert_same(&rt, &(lengths, are_kept), &wanted);
}

// The vector 0, 5, 9, made place by place.
#[test]
fn vectors_are_read_and_changed_by_place(rt: HostRuntime) {
    let mut vector = DepVec::zeros(3).expect(&rt, "3 places");
    assert!(rt; vector.n() == 3);
    let pid = Pid::at(1);
    vector.set(pid, 5);
    vector.join_tag(pid, 4);
    vector.join_tag(Pid::at(2), 9);
    let second = vector.get(pid);
    let is_same = vector_of(&rt, &[0, 5, 9]) == vector;
    let told = (second, vector.as_slice(), is_same);
    assert_same(&rt, &told, &(5, &[0, 5, 9], true));
}

type Pair = (&'static [u32], &'static [u32], bool);

// Two vectors, and whether each place of the first is at most that of the second.
const PAIRS: [Pair; 5] = [
    (&[0, 5, 9], &[0, 5, 9], true),
    (&[0, 4, 9], &[0, 5, 9], true),
    (&[1, 0, 0], &[0, 5, 9], false),
    (&[0, 5, 10], &[0, 5, 9], false),
    (&[0, 0], &[0, 5, 9], false),
];

#[test]
fn vectors_are_compared_by_place(rt: HostRuntime) {
    for (low, high, want) in &PAIRS {
        assert_same_at(
            &rt,
            &(low, high),
            &vector_of(&rt, low).leq(&vector_of(&rt, high)),
            want,
        );
    }
    laws::lower_vector_has_smaller_sum();
    laws::limits();
}

#[test]
fn bounds_are_compared(rt: HostRuntime) {
    let got = vector_of(&rt, &[3, 4]);
    let bounds = Bounds { got, released: 5 };
    let is_same = bounds == Bounds { got, released: 5 };
    let is_other = bounds == Bounds { got, released: 6 };
    assert_same(&rt, &(is_same, is_other), &(true, false));
}

// The starts of two processes of which process 1 goes back to interval 4.
fn cut(rt: &impl Abort, alloc: Global) -> Starts {
    let mut starts = Starts::new(alloc, 2).expect(rt, "memory");
    assert!(rt; starts.n() == 2);
    let state = DepVec::from_slice(&[3, 4]).expect(rt, "2 places");
    let mut who = [false; MAX_PROCESSES];
    who[1] = true;
    starts.cut_all(alloc, who, &state).expect(rt, "memory");
    starts
}

// The newest incarnation of a process, and where an incarnation of it starts.
fn start(starts: &Starts, (pid, inc): (usize, u32)) -> Option<(u32, Option<u64>)> {
    if starts.n() <= pid {
        return None;
    }
    Some((starts.incs(Pid::at(pid)), starts.start(Pid::at(pid), inc)))
}

fn is_orphan(starts: &Starts, (pid, inc): (usize, u32), interval: u32) -> Option<bool> {
    if starts.n() <= pid {
        return None;
    }
    Some(starts.is_orphan(Pid::at(pid), Tag { inc, interval }))
}

type Start = ((usize, u32), Option<(u32, Option<u64>)>);

// A process and an incarnation, the newest one of the process, and where the first one starts.
const STARTS: [Start; 5] = [
    ((0, 0), Some((0, Some(0)))),
    ((0, 1), Some((0, None))),
    ((1, 0), Some((1, Some(0)))),
    ((1, 1), Some((1, Some(5)))),
    ((1, 2), Some((1, None))),
];

fn assert_starts(rt: &impl Abort, starts: &Starts) {
    for (place, told) in &STARTS {
        assert_same_at(rt, place, &start(starts, *place), told);
    }
}

type Orphan = ((usize, u32), u32, Option<bool>);

// A process, an incarnation and an interval of it, and whether that is an orphan.
const ORPHANS: [Orphan; 5] = [
    ((1, 0), 4, Some(false)),
    ((1, 0), 5, Some(true)),
    ((1, 0), 6, Some(true)),
    ((1, 1), 6, Some(false)),
    ((0, 0), 6, Some(false)),
];

fn assert_orphans(rt: &impl Abort, starts: &Starts) {
    for (place, interval, want) in &ORPHANS {
        let told = is_orphan(starts, *place, *interval);
        assert_same_at(rt, &(place, interval), &told, want);
    }
}

#[test]
fn incarnations_begin_above_the_state(rt: HostRuntime) {
    let alloc = rt.alloc();
    let starts = cut(&rt, alloc);
    let starts = starts.copy(alloc).expect(&rt, "memory");
    assert_starts(&rt, &starts);
    assert_orphans(&rt, &starts);
}
