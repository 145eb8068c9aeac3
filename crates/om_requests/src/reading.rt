//! What a packet asks.

ghost use Rattle.std.specs.Prelude.{◌≡◌, IfOk, map};
ghost use Rattle.om_requests.specs.Requests.{break_at, break_request, by_letter, command_of, goto_command, by_word, going, is_break, letter_request, memory_request, monitor_request, range_request, request_by, request_of, resume_request, selection, thread_of, transfer, transfer_of, watch_at, watch_request, watched_of};

use crate::numbers::hex_number;
use crate::request::{Command, Request, Resume, Thread, Watch, Watched};
use crate::words::packet_words;
use hex::FromHexError;
use om_text::number_of;
use std::alloc::{AllocError, Global};

/// Tells what a packet of these bytes asks. Refused only where memory ran out.
pub fn request_of(alloc: Global, packet: &[u8]) -> Result<Request, AllocError>
    ensures { IfOk result (λ request. request ≡ request_of packet.now) }
{
    let words = packet_words(alloc, packet)?;
    request_by(alloc, &words)
}

pub(crate) fn request_by(alloc: Global, words: &[&[u8]]) -> Result<Request, AllocError>
    ensures { IfOk result (λ request. request ≡ request_by (map (λ word. word.now) words.now)) }
{
    match words {
        [] => Ok(Request::Unknown),
        [first, rest @ ..] if *first == b"qRcmd".as_slice() => monitor_request(alloc, rest),
        [first, rest @ ..] => Ok(by_word(first, rest)),
    }
}

// Reads a request by the whole first word, where that is no command of the user.
fn by_word(first: &[u8], rest: &[&[u8]]) -> Request
    ensures { result ≡ by_word first.now (map (λ word. word.now) rest.now) }
{
    if first == b"qSupported".as_slice() {
        return Request::Supported;
    }
    if first == b"QStartNoAckMode".as_slice() {
        return Request::StartNoAckMode;
    }
    if first == b"?".as_slice() {
        return Request::Why;
    }
    if first == b"g".as_slice() {
        return Request::Registers;
    }
    if first == b"qAttached".as_slice() {
        return Request::Attached;
    }
    if first == b"qXfer".as_slice() {
        return transfer(rest);
    }
    if first == b"vCont?".as_slice() {
        return Request::Actions;
    }
    if first == b"vCont".as_slice() {
        return resume_request(rest);
    }
    if first == b"bs".as_slice() {
        return Request::BackStep;
    }
    if first == b"bc".as_slice() {
        return Request::BackContinue;
    }
    if first == b"D".as_slice() {
        return Request::Detach;
    }
    if first == b"k".as_slice() || first == b"vKill".as_slice() {
        return Request::Kill;
    }
    by_letter(first, rest)
}

// Reads a request by the letter that begins the first word.
fn by_letter(first: &[u8], rest: &[&[u8]]) -> Request
    ensures { result ≡ by_letter first.now (map (λ word. word.now) rest.now) }
{
    match first {
        [] => Request::Unknown,
        [letter, word @ ..] => letter_request(*letter, word, rest),
    }
}

fn letter_request(letter: u8, word: &[u8], rest: &[&[u8]]) -> Request
    ensures { result ≡ letter_request letter word.now (map (λ word. word.now) rest.now) }
{
    if letter == b'm' {
        return memory_request(word, rest);
    }
    if letter == b'H' {
        return selection(word);
    }
    if letter == b'T' {
        return match thread_of(word) {
            Some(thread) => Request::IsAlive(thread),
            None => Request::Malformed,
        };
    }
    if letter == b'Z' {
        return break_request(true, word, rest);
    }
    if letter == b'z' {
        return break_request(false, word, rest);
    }
    if letter == b'M' || letter == b'X' || letter == b'G' || letter == b'P' {
        return Request::Write;
    }
    Request::Unknown
}

fn is_break(kind: &[u8]) -> bool
    ensures { result ≡ is_break kind.now }
{
    kind == b"0".as_slice() || kind == b"1".as_slice()
}

// Reads a request to set a breakpoint or a watchpoint, or to take it away.
fn break_request(sets: bool, kind: &[u8], rest: &[&[u8]]) -> Request
    ensures { result ≡ break_request sets kind.now (map (λ word. word.now) rest.now) }
{
    let [address, rest @ ..] = rest else {
        return Request::Malformed;
    };
    if is_break(kind) {
        return break_at(sets, hex_number(address));
    }
    match watched_of(kind) {
        Some(kind) => watch_request(sets, kind, hex_number(address), rest),
        None => Request::Unknown,
    }
}

fn break_at(sets: bool, address: Option<u32>) -> Request
    ensures { result ≡ break_at sets address }
{
    match address {
        Some(address) if sets => Request::SetBreak(address),
        Some(address) => Request::ClearBreak(address),
        None => Request::Malformed,
    }
}

// Returns which accesses the kind of a watchpoint means.
fn watched_of(kind: &[u8]) -> Option<Watched>
    ensures { result ≡ watched_of kind.now }
{
    if kind == b"2".as_slice() {
        return Some(Watched::Writes);
    }
    if kind == b"3".as_slice() {
        return Some(Watched::Reads);
    }
    if kind == b"4".as_slice() {
        return Some(Watched::Both);
    }
    None
}

fn watch_request(sets: bool, kind: Watched, address: Option<u32>, rest: &[&[u8]]) -> Request
    ensures { result ≡ watch_request sets kind address (map (λ word. word.now) rest.now) }
{
    let [length, ..] = rest else {
        return Request::Malformed;
    };
    match (address, hex_number(length)) {
        (Some(address), Some(length)) => watch_at(
            sets,
            Watch {
                kind,
                address,
                length,
            },
        ),
        _ => Request::Malformed,
    }
}

fn watch_at(sets: bool, watch: Watch) -> Request
    ensures { result ≡ watch_at sets watch }
{
    if sets {
        Request::SetWatch(watch)
    } else {
        Request::ClearWatch(watch)
    }
}

// Reads a request for some bytes of memory.
fn memory_request(address: &[u8], rest: &[&[u8]]) -> Request
    ensures { result ≡ memory_request address.now (map (λ word. word.now) rest.now) }
{
    let [length] = rest else {
        return Request::Malformed;
    };
    match (hex_number(address), hex_number(length)) {
        (Some(address), Some(length)) => Request::Memory(address, length),
        _ => Request::Malformed,
    }
}

// Returns which thread is meant.
fn selection(word: &[u8]) -> Request
    ensures { result ≡ selection word.now }
{
    let [letter, word @ ..] = word else {
        return Request::Malformed;
    };
    match (*letter, thread_of(word)) {
        (b'g', Some(thread)) => Request::Select(thread),
        (b'c', Some(thread)) => Request::SelectGoing(thread),
        _ => Request::Malformed,
    }
}

pub(crate) fn thread_of(word: &[u8]) -> Option<Thread>
    ensures { result ≡ thread_of word.now }
{
    if word == b"-1".as_slice() {
        return Some(Thread::Any);
    }
    match hex_number(word)? {
        0 => Some(Thread::Any),
        number => Some(Thread::Numbered(number)),
    }
}

// Reads a request for a piece of a text.
fn transfer(rest: &[&[u8]]) -> Request
    ensures { result ≡ transfer (map (λ word. word.now) rest.now) }
{
    let [object, action, annex, offset, length] = rest else {
        return Request::Unknown;
    };
    if *action != b"read".as_slice() {
        return Request::Unknown;
    }
    transfer_of(object, annex, offset, length)
}

fn transfer_of(object: &[u8], annex: &[u8], offset: &[u8], length: &[u8]) -> Request
    ensures { result ≡ transfer_of object.now annex.now offset.now length.now }
{
    let piece = (hex_number(offset), hex_number(length));
    if object == b"features".as_slice() {
        return match piece {
            (Some(offset), Some(length)) if annex == b"target.xml".as_slice() => {
                Request::Target(offset, length)
            }
            _ => Request::Malformed,
        };
    }
    if object == b"threads".as_slice() {
        return match piece {
            (Some(offset), Some(length)) => Request::Threads(offset, length),
            _ => Request::Malformed,
        };
    }
    Request::Unknown
}

// Reads a command of the user.
fn monitor_request(alloc: Global, rest: &[&[u8]]) -> Result<Request, AllocError>
    ensures { IfOk result (λ request. request ≡ monitor_request (map (λ word. word.now) rest.now)) }
{
    let [word] = rest else {
        return Ok(Request::Monitor(Command::Help));
    };
    match hex::decode(alloc, *word) {
        Ok(text) => Ok(Request::Monitor(command_of(&text))),
        Err(FromHexError::OutOfMemory) => Err(AllocError),
        Err(_) => Ok(Request::Monitor(Command::Help)),
    }
}

fn command_of(text: &[u8]) -> Command
    ensures { result ≡ command_of text.now }
{
    if text == b"where".as_slice() {
        return Command::Where;
    }
    if text == b"events".as_slice() {
        return Command::Events;
    }
    match text {
        [b'g', b'o', b't', b'o', b' ', word @ ..] => goto_command(number_of(word)),
        _ => Command::Help,
    }
}

fn goto_command(event: Option<u32>) -> Command
    ensures { result ≡ goto_command event }
{
    match event {
        Some(event) => Command::Goto(event),
        None => Command::Help,
    }
}

// Returns how to go on, by the first action.
pub(crate) fn resume_request(rest: &[&[u8]]) -> Request
    ensures { result ≡ resume_request (map (λ word. word.now) rest.now) }
{
    let [action, rest @ ..] = rest else {
        return Request::Malformed;
    };
    match *action {
        [] => Request::Malformed,
        [letter, word @ ..] => going(*letter, word, rest),
    }
}

fn going(letter: u8, word: &[u8], rest: &[&[u8]]) -> Request
    ensures { result ≡ going letter word.now (map (λ word. word.now) rest.now) }
{
    if letter == b's' || letter == b'S' {
        return Request::Resume(Resume::Step);
    }
    if letter == b'c' || letter == b'C' {
        return Request::Resume(Resume::Continue);
    }
    if letter == b'r' {
        return range_request(word, rest);
    }
    Request::Malformed
}

fn range_request(from: &[u8], rest: &[&[u8]]) -> Request
    ensures { result ≡ range_request from.now (map (λ word. word.now) rest.now) }
{
    let [to, ..] = rest else {
        return Request::Malformed;
    };
    match (hex_number(from), hex_number(to)) {
        (Some(from), Some(to)) => Request::Resume(Resume::Range(from, to)),
        _ => Request::Malformed,
    }
}
