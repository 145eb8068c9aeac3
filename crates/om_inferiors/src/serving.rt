//! Packets in, packets out.

ghost use Rattle.std.specs.Prelude.{◌≡◌, ◌<◌, ◌&&◌, Bool, List, ℕ, IfOk, OnOk, Ok, [], codes, false, length, not, true};
ghost use Rattle.std.specs.Str.{bytes_eq};
ghost use Rattle.std.specs.Io.KnownBytes.{Appends, Consumes, IsAtEnd};
ghost use Rattle.om_packets.specs.Packets.{packet_text};
ghost use Rattle.om_inferiors.specs.Serving.{IsPacketTaken, SessionState, Takes, TakesByte, if_acked, is_over, outcome_text, pause_text, session};
ghost use Rattle.om_inferiors.specs.steps.Serving.{AreRead, AreTaken, session_of};
ghost use Rattle.om_debug.specs.Told.{ReadsNothing};

use crate::shown::Shown;
use om_debug::{Reply, Wish};
use om_packets::{Decoder, Event, encode};
use om_timeline::PlayFault;
use std::alloc::{AllocError, Global};
use std::io::{ErrorKind, Write};
use thiserror::Error;

// How many bytes are read at once.
const MOST_READ: usize = 4096;

// How often is read at most: no reader lives so long.
const MOST_TURNS: u64 = u64::MAX;

/// Why packets are not answered any more.
#[derive(Clone, Copy, Debug, PartialEq, Eq, Error)]
pub enum ServeError {
    /// The reader failed.
    #[error("cannot read")]
    CannotRead,
    /// The writer failed.
    #[error("cannot write")]
    CannotWrite,
    /// Memory ran out.
    #[error("no memory")]
    NoMemory,
}

impl From<AllocError> for ServeError {
    ghost use Rattle.std.specs.Prelude.{◌≡◌};
    ghost use Rattle.om_inferiors.specs.declared.serving.ServeError.TheVariants.{NoMemory};

    ghost from_gives = { λ _ error. error ≡ NoMemory };

    fn from(_e: AllocError) -> ServeError {
        ServeError::NoMemory
    }
}

// One who asks, and what answers.
#[derive(Drop)]
struct Session {
    alloc: Global,
    shown: Shown,
    decoder: Decoder,
    // Whether each packet is acknowledged.
    acks: bool,
}

/// Answers the packets that a reader gives, one after another, until it has no more or the last packet was answered. What stands
/// between packets is passed over, but for a wish to stop, which is told where the processes stand. A packet whose sum is wrong is
/// asked for again, as long as packets are acknowledged. Each answer is flushed before more is read. The reader is also asked, while
/// processes go on, whether a stop is wished. Refused where the reader or the writer fails or memory ran out: then some of the packets
/// are answered.
pub fn serve<R: Wish, W: Write>(
    alloc: Global,
    shown: Shown,
    reader: &mut R,
    writer: &mut W,
) -> Result<(), ServeError>
    ensures served { OnOk result ((bytes : List ℕ) × (written : List ℕ) × (over : Bool) × (last : SessionState)
        × Takes (session shown) bytes written over last × Appends (W.contents writer.old) (W.contents writer.new) written
        × Consumes (R.remaining reader.old) (R.remaining reader.new) bytes × (over ≡ false → IsAtEnd (R.remaining reader.new))) }
{
    let mut session = Session {
        alloc,
        shown,
        decoder: Decoder::new(alloc),
        acks: true,
    };
    session.answer_all(reader, writer)
}

// What became of one reading.
#[derive(Clone, Copy, Debug, PartialEq, Eq)]
enum Turn {
    // All that came was taken.
    More,
    // The reader has no more.
    End,
    // The last packet was answered.
    Last,
}

fn write<W: Write>(writer: &mut W, bytes: &[u8]) -> Result<(), ServeError>
    ensures { OnOk result (Appends (W.contents writer.old) (W.contents writer.new) bytes.now) }
{
    match writer.write_all(bytes) {
        Ok(()) => Ok(()),
        Err(_) => Err(ServeError::CannotWrite),
    }
}

fn flush<W: Write>(writer: &mut W) -> Result<(), ServeError>
    ensures { OnOk result (Appends (W.contents writer.old) (W.contents writer.new) []) }
{
    match writer.flush() {
        Ok(()) => Ok(()),
        Err(_) => Err(ServeError::CannotWrite),
    }
}

// Returns the answer to a packet.
fn outcome_text(alloc: Global, outcome: Result<Reply, PlayFault>) -> Result<Vec<u8>, AllocError>
    ensures { IfOk result (λ text. text.items ≡ outcome_text outcome) }
{
    match outcome {
        Ok(Reply::Text(text)) => Ok(text),
        Ok(Reply::Last(text)) => Ok(text),
        Err(PlayFault::Memory) => Vec::from_slice(alloc, b"E0c"),
        Err(PlayFault::TooLong) => Vec::from_slice(alloc, b"E01"),
    }
}

fn is_over(outcome: &Result<Reply, PlayFault>) -> bool
    ensures { result ≡ is_over outcome.now }
{
    match outcome {
        Ok(Reply::Text(_)) => false,
        Ok(Reply::Last(_)) => true,
        Err(_) => false,
    }
}

// Returns whether packets are acknowledged behind this one.
fn acks_after(acks: bool, packet: &[u8]) -> bool
    ensures { result ≡ (acks && not (bytes_eq packet.now (codes "QStartNoAckMode"))) }
{
    acks && packet != b"QStartNoAckMode".as_slice()
}

impl Session {
    // Answers the packets that a reader gives, until it has no more or the last packet was answered. Whoever owns the session drops it
    // once, behind this.
    fn answer_all<R: Wish, W: Write>(
        &mut self,
        reader: &mut R,
        writer: &mut W,
    ) -> Result<(), ServeError>
        ensures served { OnOk result ((bytes : List ℕ) × (written : List ℕ) × (over : Bool) × (last : SessionState)
            × Takes (session_of self.old) bytes written over last × Appends (W.contents writer.old) (W.contents writer.new) written
            × Consumes (R.remaining reader.old) (R.remaining reader.new) bytes × (over ≡ false → IsAtEnd (R.remaining reader.new))) }
    {
        let mut chunk = [0; MOST_READ];
        for _ in 0..MOST_TURNS {
            match self.turn(&mut chunk, reader, writer)? {
                Turn::More => {}
                Turn::End => return Ok(()),
                Turn::Last => return Ok(()),
            }
        }
        Err(ServeError::CannotRead)
    }

    // Reads once, and takes what came.
    fn turn<R: Wish, W: Write>(
        &mut self,
        chunk: &mut [u8],
        reader: &mut R,
        writer: &mut W,
    ) -> Result<Turn, ServeError>
        requires { 0 < length chunk.old }
        ensures more { result ≡ Ok Turn.More → AreRead (session_of self.old) (R.remaining reader.old) (R.remaining reader.new)
            (W.contents writer.old) (W.contents writer.new) false (session_of self.new) }
        ensures end { result ≡ Ok Turn.End → AreRead (session_of self.old) (R.remaining reader.old) (R.remaining reader.new)
            (W.contents writer.old) (W.contents writer.new) false (session_of self.new) × IsAtEnd (R.remaining reader.new) }
        ensures last { result ≡ Ok Turn.Last → AreRead (session_of self.old) (R.remaining reader.old) (R.remaining reader.new)
            (W.contents writer.old) (W.contents writer.new) true (session_of self.new) }
    {
        let count = match reader.read(chunk) {
            Ok(count) => count,
            Err(e) if e.kind() == ErrorKind::Interrupted => return Ok(Turn::More),
            Err(_) => return Err(ServeError::CannotRead),
        };
        if count == 0 {
            return Ok(Turn::End);
        }
        if self.take_all(&chunk[..count], reader, writer)? {
            Ok(Turn::Last)
        } else {
            Ok(Turn::More)
        }
    }

    // Takes bytes, and tells whether it is over with them.
    fn take_all<R: Wish, W: Write>(
        &mut self,
        bytes: &[u8],
        reader: &mut R,
        writer: &mut W,
    ) -> Result<bool, ServeError>
        ensures unread { ReadsNothing R.remaining reader.old reader.new }
        ensures taken { IfOk result (λ over. AreTaken (session_of self.old) bytes.now (W.contents writer.old) (W.contents writer.new) over (session_of self.new)) }
    {
        for byte in bytes {
            if self.take(*byte, reader, writer)? {
                return Ok(true);
            }
        }
        Ok(false)
    }

    fn take<R: Wish, W: Write>(
        &mut self,
        byte: u8,
        reader: &mut R,
        writer: &mut W,
    ) -> Result<bool, ServeError>
        ensures unread { ReadsNothing R.remaining reader.old reader.new }
        ensures taken { IfOk result (λ over. (written : List ℕ) × TakesByte (session_of self.old) byte written over (session_of self.new)
            × Appends (W.contents writer.old) (W.contents writer.new) written) }
    {
        match self.decoder.take(byte)? {
            None => Ok(false),
            Some(Event::Packet) => self.packet(reader, writer),
            Some(Event::Garbled) => {
                self.acknowledge(b"-", writer)?;
                Ok(false)
            }
            Some(Event::Interrupt) => {
                self.interrupted(writer)?;
                Ok(false)
            }
        }
    }

    // Writes a byte, where packets are acknowledged.
    fn acknowledge<W: Write>(&self, text: &[u8], writer: &mut W) -> Result<(), ServeError>
        ensures { OnOk result (Appends (W.contents writer.old) (W.contents writer.new) (if_acked self.now.acks text.now)) }
    {
        if self.acks {
            write(writer, text)?;
            flush(writer)?;
        }
        Ok(())
    }

    // Tells one who wishes a stop where the processes stand.
    fn interrupted<W: Write>(&self, writer: &mut W) -> Result<(), ServeError>
        ensures { OnOk result (Appends (W.contents writer.old) (W.contents writer.new) (packet_text (pause_text self.now.shown))) }
    {
        let told = self.shown.interrupted(self.alloc)?;
        self.send(Ok(told), writer)
    }

    // Answers the packet that was completed last.
    fn packet<R: Wish, W: Write>(
        &mut self,
        reader: &mut R,
        writer: &mut W,
    ) -> Result<bool, ServeError>
        ensures unread { ReadsNothing R.remaining reader.old reader.new }
        ensures taken { IfOk result (λ over. (written : List ℕ) × IsPacketTaken (session_of self.old) self.old.decoder written over (session_of self.new)
            × Appends (W.contents writer.old) (W.contents writer.new) written) }
    {
        self.acknowledge(b"+", writer)?;
        let outcome = self.shown.answer(self.alloc, self.decoder.body(), reader);
        self.acks = acks_after(self.acks, self.decoder.body());
        let over = is_over(&outcome);
        self.send(outcome, writer)?;
        Ok(over)
    }

    // Sends an answer.
    fn send<W: Write>(
        &self,
        outcome: Result<Reply, PlayFault>,
        writer: &mut W,
    ) -> Result<(), ServeError>
        ensures { OnOk result (Appends (W.contents writer.old) (W.contents writer.new) (packet_text (outcome_text outcome))) }
    {
        let text = outcome_text(self.alloc, outcome)?;
        let packet = encode(self.alloc, &text)?;
        write(writer, &packet)?;
        flush(writer)
    }
}
