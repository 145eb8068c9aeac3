//! Bytes that come one after another, and what they complete.

ghost use Rattle.std.specs.Prelude.{◌≡◌, ◌+◌, ◌*◌, ◌↔◌, IfOk, IsTrue, OnErr, OnOk};
ghost use Rattle.om_packets.specs.Decoding.{begin, hex_value, start, with_byte, step, step_body, step_escaped, step_first, step_outside, step_second};

use std::alloc::{AllocError, Global};
use std::marker::Model;

/// How many bytes a packet holds at most.
pub const MAX_PACKET: usize = 65_536;

/// Tells what a byte completes.
#[derive(Clone, Copy, Debug, PartialEq, Eq)]
pub enum Event {
    /// A packet of at most `MAX_PACKET` bytes, whose sum is right. [`Decoder::body`] has its bytes.
    Packet,
    /// A packet whose sum is wrong or is none, or which is too long.
    Garbled,
    /// The byte 3 between packets, by which a user asks for a stop.
    Interrupt,
}

/// Tells where in a packet the next byte stands.
#[derive(Clone, Copy, Debug, PartialEq, Eq)]
pub enum DecoderState {
    /// Between packets.
    Outside,
    /// Behind `$`.
    Body,
    /// Behind `}`.
    Escaped,
    /// Behind `#`.
    FirstDigit,
    /// Behind the first digit of the sum, which has this value.
    SecondDigit(u8),
}

/// Reads packets from bytes, one byte at a time.
#[derive(Drop)]
pub struct Decoder {
    place: DecoderState,
    body: Vec<u8>,
    total: u8,
}

impl Model for Decoder {
    ghost use Rattle.om_packets.specs.Decoding.{Decoding};

    ghost Value = { Decoding };

    ghost view = { λ d. record { place = d.place; body = d.body.items; total = d.total } };
}

// Returns what a hexadecimal digit stands for, in either case.
fn value_of(byte: u8) -> Option<u8>
    ensures { result ≡ hex_value byte }
{
    match byte {
        b'0'..=b'9' => Some(byte - b'0'),
        b'A'..=b'F' => Some(byte - b'A' + 10),
        b'a'..=b'f' => Some(byte - b'a' + 10),
        _ => None,
    }
}

impl Decoder {
    /// Begins between packets.
    pub fn new(alloc: Global) -> Decoder
        ensures { result ≡ start }
    {
        Decoder {
            place: DecoderState::Outside,
            body: Vec::new(alloc),
            total: 0,
        }
    }

    /// Returns the bytes of the packet that was completed last, until the next begins.
    pub fn body(&self) -> &[u8]
        ensures { result.now ≡ self.now.body }
    {
        &self.body
    }

    /// Takes the next byte, and tells what it completes. Refused where memory ran out, with the decoder as it was.
    pub fn take(&mut self, byte: u8) -> Result<Option<Event>, AllocError>
        ensures taken { IfOk result (λ event. step self.old byte ≡ (self.new, event)) }
        ensures refused { OnErr result (self.new ≡ self.old) }
    {
        match self.place {
            DecoderState::Outside => Ok(self.take_outside(byte)),
            DecoderState::Body => self.take_body(byte),
            DecoderState::Escaped => {
                self.keep(byte ^ 0x20)?;
                self.total = self.total.wrapping_add(byte);
                self.place = DecoderState::Body;
                Ok(None)
            }
            DecoderState::FirstDigit => Ok(self.take_first(byte)),
            DecoderState::SecondDigit(high) => Ok(self.take_second(high, byte)),
        }
    }

    fn take_outside(&mut self, byte: u8) -> Option<Event>
        ensures { step_outside self.old byte ≡ (self.new, result) }
    {
        if byte == 3 {
            return Some(Event::Interrupt);
        }
        if byte == b'$' {
            self.begin();
        }
        None
    }

    fn take_body(&mut self, byte: u8) -> Result<Option<Event>, AllocError>
        ensures taken { IfOk result (λ event. step_body self.old byte ≡ (self.new, event)) }
        ensures refused { OnErr result (self.new ≡ self.old) }
    {
        if byte == b'$' {
            self.begin();
            return Ok(None);
        }
        if byte == b'#' {
            self.place = DecoderState::FirstDigit;
            return Ok(None);
        }
        if byte == b'}' {
            self.place = DecoderState::Escaped;
        } else {
            self.keep(byte)?;
            self.place = DecoderState::Body;
        }
        self.total = self.total.wrapping_add(byte);
        Ok(None)
    }

    fn take_first(&mut self, byte: u8) -> Option<Event>
        ensures { step_first self.old byte ≡ (self.new, result) }
    {
        match value_of(byte) {
            Some(high) => {
                self.place = DecoderState::SecondDigit(high);
                None
            }
            None => {
                self.place = DecoderState::Outside;
                Some(Event::Garbled)
            }
        }
    }

    fn take_second(&mut self, high: u8, byte: u8) -> Option<Event>
        ensures { step_second high self.old byte ≡ (self.new, result) }
    {
        self.place = DecoderState::Outside;
        match value_of(byte) {
            Some(low) if is_sum(high, low, self.total) && self.body.len() <= MAX_PACKET => {
                Some(Event::Packet)
            }
            _ => Some(Event::Garbled),
        }
    }

    fn begin(&mut self)
        ensures { self.new ≡ begin }
    {
        self.place = DecoderState::Body;
        self.body.clear();
        self.total = 0;
    }

    // Keeps a byte of the packet, and of a packet that is too long one byte more than it may have.
    fn keep(&mut self, byte: u8) -> Result<(), AllocError>
        ensures kept { OnOk result (self.new ≡ with_byte self.old byte) }
        ensures refused { OnErr result (self.new ≡ self.old) }
    {
        if self.body.len() <= MAX_PACKET {
            self.body.push(byte)?;
        }
        Ok(())
    }
}

// Returns whether two digits are a sum.
fn is_sum(high: u8, low: u8, total: u8) -> bool
    ensures { IsTrue result ↔ (high * 16 + low ≡ total) }
{
    u32::from(high) * 16 + u32::from(low) == u32::from(total)
}
