//! Bodies, entries, queues, messages and memories as values.

use crate::format::records::assert_bytes;
use crate::same::assert_same;
use om_format::{Body, MAX_BODY, MemoryBytes, Message, Queue, QueueEntry};
use om_interval::{Pid, Tag};
use std::alloc::Global;
use std::process::Abort;

// A body of these bytes.
fn body(rt: &impl Abort, alloc: Global, bytes: &[u8]) -> Body {
    assert!(rt; bytes.len() <= MAX_BODY);
    Body::from_slice(alloc, bytes).expect(rt, "memory")
}

// Bytes of the numbers from 1 on.
fn numbered(rt: &impl Abort, alloc: Global, count: usize) -> Vec<u8> {
    let mut bytes = Vec::new(alloc);
    for number in 1..=count {
        bytes.push((number % 251) as u8).expect(rt, "memory");
    }
    bytes
}

// How many bytes bodies have: none, few, as many as stand in place and one more, and as many as there may be.
const LENGTHS: [usize; 5] = [0, 2, 14, 15, 256];

#[test]
fn bodies_are_copied_and_give_their_bytes_back(rt: HostRuntime) {
    let alloc = rt.alloc();
    assert_bytes(&rt, Body::empty().as_slice(), &[]);
    for count in LENGTHS {
        let bytes = numbered(&rt, alloc, count);
        let body = body(&rt, alloc, &bytes);
        let copy = body.copy(alloc).expect(&rt, "memory");
        assert_same(&rt, &copy, &body);
        assert_bytes(&rt, body.as_slice(), &bytes);
        assert_bytes(&rt, copy.as_slice(), &bytes);
    }
}

const WORD: [u8; 4] = [1, 2, 3, 4];

// A memory of one word.
fn memory(rt: &impl Abort, alloc: Global) -> MemoryBytes {
    let bytes = Vec::from_slice(alloc, &WORD).expect(rt, "memory");
    assert!(rt; bytes.len() == 4);
    MemoryBytes::from_vec(bytes)
}

#[test]
fn memories_give_their_bytes_back(rt: HostRuntime) {
    let memory = memory(&rt, rt.alloc());
    assert_bytes(&rt, memory.as_slice(), &WORD);
    assert_bytes(&rt, &memory.into_vec(), &WORD);
}

// A message of process 0 to process 15.
fn message(rt: &impl Abort, alloc: Global) -> Message {
    Message {
        from: Pid::at(0),
        to: Pid::at(15),
        tag: Tag {
            inc: 2,
            interval: 3,
        },
        ssn: 7,
        body: body(rt, alloc, &[1, 2]),
    }
}

fn assert_copied(rt: &impl Abort, copy: &Message, message: &Message) {
    let told = (copy.from, copy.to, copy.tag, copy.ssn);
    let wanted = (message.from, message.to, message.tag, 7);
    let body = (copy.body == message.body, copy.body.as_slice());
    assert_same(rt, &(told, body), &(wanted, (true, &[1, 2])));
}

#[test]
fn messages_are_copied_whole(rt: HostRuntime) {
    let alloc = rt.alloc();
    let message = message(&rt, alloc);
    let copy = message.copy(alloc).expect(&rt, "memory");
    assert_copied(&rt, &copy, &message);
}

fn entry(rt: &impl Abort, alloc: Global, interval: u32, bytes: &[u8]) -> QueueEntry {
    let body = body(rt, alloc, bytes);
    QueueEntry { interval, body }
}

// A copy of the first entry is that entry, and the last one is another.
fn assert_compared(rt: &impl Abort, alloc: Global, first: &QueueEntry, last: &QueueEntry) {
    let copy = first.copy(alloc).expect(rt, "memory");
    let told = (copy == *first, first != last, first.body != last.body);
    assert_same(rt, &told, &(true, true, true));
}

#[test]
fn entries_are_copied_and_compared(rt: HostRuntime) {
    let alloc = rt.alloc();
    let first = entry(&rt, alloc, 1, &[1, 2]);
    let last = entry(&rt, alloc, 3, &[3, 4]);
    assert_compared(&rt, alloc, &first, &last);
}

const ENTRIES: [(u32, [u8; 2]); 2] = [(1, [1, 2]), (3, [3, 4])];

// A queue of two entries.
fn queue(rt: &impl Abort, alloc: Global) -> Queue {
    let mut entries = Vec::new(alloc);
    for (interval, bytes) in &ENTRIES {
        let entry = entry(rt, alloc, *interval, bytes);
        entries.push(entry).expect(rt, "memory");
    }
    Queue { first: 5, entries }
}

// A copy of a queue is the queue, and is another one with another first number or without its last entry.
fn assert_changes(rt: &impl Abort, queue: &Queue, copy: &mut Queue) {
    let is_copied = *copy == *queue;
    copy.first = 6;
    let differs = *copy != *queue;
    copy.first = 5;
    let _ = copy.entries.pop();
    let told = (is_copied, differs, *copy != *queue);
    assert_same(rt, &told, &(true, true, true));
}

#[test]
fn queues_are_copied_and_compared(rt: HostRuntime) {
    let alloc = rt.alloc();
    let queue = queue(&rt, alloc);
    let mut copy = queue.copy(alloc).expect(&rt, "memory");
    assert_changes(&rt, &queue, &mut copy);
}
