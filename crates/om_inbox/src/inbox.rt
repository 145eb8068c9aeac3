//! What was read, and who takes it.

use crate::front::Front;
use om_debug::Wish;
use std::alloc::Global;
use std::io::{ErrorKind, Read};
use std::sync::{Mutex, Wait};
use std::thread::Parker;
use std::{io, mem};

// How many bytes are read at once.
const MOST_READ: usize = 4096;

// Where so many bytes wait to be taken, no more are read.
const MOST_WAITING: usize = 65_536;

// What was read and is not taken.
#[derive(Drop)]
struct Got {
    bytes: Vec<u8>,
    // How the reading ended, where it did: well, or refused.
    end: Option<io::Result<()>>,
    // Whether nobody takes any more.
    is_closed: bool,
}

/// Bytes between the thread that reads them and the one that takes them.
#[derive(Drop)]
pub struct Inbox {
    alloc: Global,
    got: Mutex<Got>,
    // Something came, or the reading ended.
    came: Parker,
    // There is room, or nobody takes any more.
    room: Parker,
}

impl Inbox {
    /// Makes an inbox with nothing in it.
    pub fn new(alloc: Global) -> Inbox {
        Inbox {
            alloc,
            got: Mutex::new(Got {
                bytes: Vec::new(alloc),
                end: None,
                is_closed: false,
            }),
            came: Parker::new(),
            room: Parker::new(),
        }
    }

    /// Reads until the reader has no more or fails, or nobody takes any more. One thread does so.
    pub fn fill<W: Wait, R: Read>(&self, rt: &W, reader: &mut R) {
        let mut chunk = [0; MOST_READ];
        for _ in rt.forever() {
            match reader.read(&mut chunk) {
                Ok(0) => return self.end(rt, Ok(())),
                Ok(count) => {
                    if !self.put(rt, &chunk[..count]) {
                        return;
                    }
                }
                Err(error) if error.kind() == ErrorKind::Interrupted => {}
                Err(error) => return self.end(rt, Err(error)),
            }
        }
    }

    /// Says that nobody takes any more, so that the reading ends once the reader answers.
    pub fn close<W: Wait>(&self, rt: &W) {
        let mut guard = self.got.lock(rt);
        let got = &mut *guard;
        got.is_closed = true;
        self.room.unpark();
    }

    fn end<W: Wait>(&self, rt: &W, how: io::Result<()>) {
        let mut guard = self.got.lock(rt);
        let got = &mut *guard;
        got.end = Some(how);
        self.came.unpark();
    }

    // Puts bytes behind those that are there, once there is room. Answers whether more may come.
    fn put<W: Wait>(&self, rt: &W, bytes: &[u8]) -> bool {
        for _ in rt.forever() {
            if let Some(may_go_on) = self.try_put(rt, bytes) {
                return may_go_on;
            }
            self.room.park(rt);
        }
        unreachable!()
    }

    // Puts bytes as `put` does, but does not wait: `None` where there is no room yet. Where memory runs out the reading ends.
    fn try_put<W: Wait>(&self, rt: &W, bytes: &[u8]) -> Option<bool> {
        let mut guard = self.got.lock(rt);
        let got = &mut *guard;
        if got.is_closed {
            return Some(false);
        }
        if got.bytes.len() >= MOST_WAITING {
            return None;
        }
        let put = got.bytes.extend_from_slice(bytes);
        self.came.unpark();
        if let Err(refused) = put {
            got.end = Some(Err(io::Error::from(refused)));
            return Some(false);
        }
        Some(true)
    }

    // Takes what there is, and waits until there is something: nothing at the end.
    fn take<W: Wait>(&self, rt: &W) -> io::Result<Vec<u8>> {
        for _ in rt.forever() {
            if let Some(taken) = self.try_take(rt) {
                return taken;
            }
            self.came.park(rt);
        }
        unreachable!()
    }

    // Takes what there is as `take` does, but does not wait: `None` where nothing is there and the reading has not ended.
    fn try_take<W: Wait>(&self, rt: &W) -> Option<io::Result<Vec<u8>>> {
        let mut guard = self.got.lock(rt);
        let got = &mut *guard;
        if !got.bytes.is_empty() {
            self.room.unpark();
            return Some(Ok(mem::replace(&mut got.bytes, Vec::new(self.alloc))));
        }
        match got.end {
            Some(Ok(())) => Some(Ok(Vec::new(self.alloc))),
            Some(Err(error)) => Some(Err(error)),
            None => None,
        }
    }
}

/// Takes the bytes of an inbox, as a reader does: a reading waits until there are some, gives none at the end, and never goes beyond a
/// wish to stop, which is the byte 3.
#[derive(Drop)]
pub struct Taker<'a, W> {
    rt: &'a W,
    inbox: &'a Inbox,
    front: Front,
    refusal: Option<io::Error>,
}

impl<'a, W: Wait> Taker<'a, W> {
    /// Takes from an inbox. One thread does so.
    pub fn new(rt: &'a W, inbox: &'a Inbox) -> Taker<'a, W> {
        Taker {
            rt,
            inbox,
            front: Front::of(Vec::new(inbox.alloc)),
            refusal: None,
        }
    }

    /// Returns why the bytes were not read, where they were not.
    pub fn refusal(&self) -> Option<io::Error> {
        self.refusal
    }
}

// A wish is taken where it is the next byte. That is not waited for.
impl<'a, W: Wait> Wish for Taker<'a, W> {
    fn is_there(&mut self) -> bool {
        if self.front.is_empty() {
            if let Some(Ok(bytes)) = self.inbox.try_take(self.rt) {
                self.front = Front::of(bytes);
            }
        }
        self.front.takes_wish()
    }
}

impl<'a, W: Wait> Read for Taker<'a, W> {
    fn read(&mut self, buf: &mut [u8]) -> io::Result<usize> {
        if self.front.is_empty() && !buf.is_empty() {
            match self.inbox.take(self.rt) {
                Ok(bytes) => self.front = Front::of(bytes),
                Err(error) => {
                    self.refusal = Some(error);
                    return Err(error);
                }
            }
        }
        Ok(self.front.read(buf))
    }
}
