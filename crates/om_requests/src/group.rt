//! What a packet asks of a group of processes, of which each has one thread.

ghost use Rattle.std.specs.Prelude.{◌≡◌, ◌==◌, ◌<◌, IfOk, IfSome, Some, codes, if◌then◌else◌, length, map, position};
ghost use Rattle.std.specs.Str.{bytes_eq};
ghost use Rattle.om_requests.specs.Numbers.{hex_number};
ghost use Rattle.om_requests.specs.Groups.{any_or, behind_action, by_group_letter, file_of, file_request, group_by, group_by_word, group_request_of, group_resume, group_selection, leaving, named_first, of_number, of_whom, one_thread, parted_whom, process_whom, resumed, thread_in, thread_whom, whole, whom_of};

use crate::numbers::hex_number;
use crate::reading::{request_by, resume_request, thread_of};
use crate::request::{Request, Resume, Thread};
use crate::words::packet_words;
use std::alloc::{AllocError, Global};

/// Who of a group is meant.
#[derive(Clone, Copy, Debug, PartialEq, Eq)]
pub enum Whom {
    /// Whoever.
    Any,
    /// All threads of the process of this number, from 1 on.
    Whole(u32),
    /// The one thread of the process of this number.
    One(u32),
}

/// What a packet asks of a group of processes.
#[derive(Clone, Copy, Debug, PartialEq, Eq)]
pub enum GroupRequest {
    /// Whose registers, memory and breakpoints are meant from now on: `HgTHREAD`.
    Select(Whom),
    /// Who goes back from now on: `HcTHREAD`.
    SelectGoing(Whom),
    /// Whether a thread is there: `TTHREAD`.
    IsAlive(Whom),
    /// To go on, and who is to do it so: `vCont;ACTION:THREAD..`.
    Resume(Resume, Whom),
    /// A piece of the name of a process's file, from an offset on, of at most so many bytes.
    File(u32, u32, u32),
    /// To leave a process: `D;PROCESS` or `vKill;PROCESS`.
    Leave(u32),
    /// What one process may be asked too.
    Other(Request),
}

/// Tells what a packet of these bytes asks of a group. Refused only where memory ran out.
pub fn group_request_of(alloc: Global, packet: &[u8]) -> Result<GroupRequest, AllocError>
    ensures { IfOk result (λ request. request ≡ group_request_of packet.now) }
{
    let words = packet_words(alloc, packet)?;
    match group_by(&words) {
        Some(request) => Ok(request),
        None => Ok(GroupRequest::Other(request_by(alloc, &words)?)),
    }
}

fn group_by(words: &[&[u8]]) -> Option<GroupRequest>
    ensures { result ≡ group_by (map (λ word. word.now) words.now) }
{
    match words {
        [] => None,
        [first, rest @ ..] => group_by_word(first, rest),
    }
}

fn group_by_word(first: &[u8], rest: &[&[u8]]) -> Option<GroupRequest>
    ensures { result ≡ group_by_word first.now (map (λ word. word.now) rest.now) }
{
    if first == b"vCont".as_slice() {
        return Some(group_resume(rest));
    }
    if first == b"qXfer".as_slice() {
        return file_request(rest);
    }
    if first == b"D".as_slice() || first == b"vKill".as_slice() {
        return leaving(rest);
    }
    by_group_letter(first)
}

fn by_group_letter(first: &[u8]) -> Option<GroupRequest>
    ensures { result ≡ by_group_letter first.now }
{
    let [letter, word @ ..] = first else {
        return None;
    };
    if *letter == b'H' {
        return Some(group_selection(word));
    }
    if *letter == b'T' {
        return Some(match whom_of(word) {
            Some(whom) => GroupRequest::IsAlive(whom),
            None => GroupRequest::Other(Request::Malformed),
        });
    }
    None
}

// Returns who is meant from now on.
fn group_selection(word: &[u8]) -> GroupRequest
    ensures { result ≡ group_selection word.now }
{
    let [letter, word @ ..] = word else {
        return GroupRequest::Other(Request::Malformed);
    };
    match (*letter, whom_of(word)) {
        (b'g', Some(whom)) => GroupRequest::Select(whom),
        (b'c', Some(whom)) => GroupRequest::SelectGoing(whom),
        _ => GroupRequest::Other(Request::Malformed),
    }
}

fn whom_of(word: &[u8]) -> Option<Whom>
    ensures { result ≡ whom_of word.now }
{
    let [first, rest @ ..] = word else {
        return None;
    };
    if *first == b'p' {
        return process_whom(rest);
    }
    match thread_of(word)? {
        Thread::Any => Some(Whom::Any),
        Thread::Numbered(number) => Some(Whom::One(number)),
    }
}

// Returns where the point stands between a process and its thread.
fn point_in(word: &[u8]) -> Option<usize>
    ensures place { result ≡ position (λ byte. byte == 46) word.now }
    ensures within { IfSome result (λ at. at < length word.now) }
{
    word.iter().position(|byte| *byte == b'.')
}

// Reads PROCESS or PROCESS.THREAD.
fn process_whom(word: &[u8]) -> Option<Whom>
    ensures { result ≡ process_whom word.now }
{
    if word == b"-1".as_slice() {
        return Some(Whom::Any);
    }
    match point_in(word) {
        None => whole(hex_number(word)),
        Some(at) => thread_of_group(&word[..at], &word[at + 1..]),
    }
}

// Reads a thread of a process, or whoever.
fn thread_of_group(process: &[u8], word: &[u8]) -> Option<Whom>
    ensures { result ≡ (if bytes_eq process.now (codes "-1") then Some Whom.Any else any_or (hex_number process.now) (thread_in word.now)) }
{
    if process == b"-1".as_slice() {
        return Some(Whom::Any);
    }
    thread_in(word, hex_number(process))
}

// Names all threads of a process.
fn whole(number: Option<u32>) -> Option<Whom>
    ensures { result ≡ any_or number whole }
{
    match number? {
        0 => Some(Whom::Any),
        number => Some(Whom::Whole(number)),
    }
}

// Reads a thread of a process, or all.
fn thread_in(word: &[u8], number: Option<u32>) -> Option<Whom>
    ensures { result ≡ any_or number (thread_in word.now) }
{
    match number? {
        0 => Some(Whom::Any),
        number => thread_of_process(word, number),
    }
}

fn thread_of_process(word: &[u8], number: u32) -> Option<Whom>
    ensures { result ≡ thread_in word.now number }
{
    if word == b"-1".as_slice() {
        return Some(Whom::Whole(number));
    }
    if hex_number(word)? <= 1 {
        Some(Whom::One(number))
    } else {
        None
    }
}

// Returns how to go on, and who is to do it so.
fn group_resume(rest: &[&[u8]]) -> GroupRequest
    ensures { result ≡ group_resume (map (λ word. word.now) rest.now) }
{
    match (resume_request(rest), named_first(behind_action(rest))) {
        (Request::Resume(how), Some(whom)) => GroupRequest::Resume(how, whom),
        _ => GroupRequest::Other(Request::Malformed),
    }
}

// Returns the words behind the first action.
fn behind_action<'a, 'b>(rest: &'a [&'b [u8]]) -> &'a [&'b [u8]]
    ensures { map (λ word. word.now) result.now ≡ behind_action (map (λ word. word.now) rest.now) }
{
    match rest {
        [] => rest,
        [[b'r', ..], _, more @ ..] => more,
        [_, more @ ..] => more,
    }
}

// Returns who is named first.
fn named_first(words: &[&[u8]]) -> Option<Whom>
    ensures { result ≡ named_first (map (λ word. word.now) words.now) }
{
    match words {
        [[b'p', word @ ..], ..] => process_whom(word),
        _ => Some(Whom::Any),
    }
}

// Reads the process that is left.
fn leaving(rest: &[&[u8]]) -> Option<GroupRequest>
    ensures { result ≡ leaving (map (λ word. word.now) rest.now) }
{
    let [word, ..] = rest else {
        return None;
    };
    Some(match hex_number(word) {
        Some(number) => GroupRequest::Leave(number),
        None => GroupRequest::Other(Request::Malformed),
    })
}

// Reads a request for a piece of the name of a file.
fn file_request(rest: &[&[u8]]) -> Option<GroupRequest>
    ensures { result ≡ file_request (map (λ word. word.now) rest.now) }
{
    let [object, action, annex, offset, length] = rest else {
        return None;
    };
    if *object != b"exec-file".as_slice() || *action != b"read".as_slice() {
        return None;
    }
    Some(file_of(annex, offset, length))
}

fn file_of(annex: &[u8], offset: &[u8], length: &[u8]) -> GroupRequest
    ensures { result ≡ file_of (hex_number annex.now) (hex_number offset.now) (hex_number length.now) }
{
    match (hex_number(annex), hex_number(offset), hex_number(length)) {
        (Some(process), Some(offset), Some(length)) => {
            GroupRequest::File(process, offset, length)
        }
        _ => GroupRequest::Other(Request::Malformed),
    }
}
