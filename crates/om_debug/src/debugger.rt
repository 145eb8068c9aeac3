//! A process, its breakpoints, and what packets ask of it.

ghost use Rattle.std.specs.Prelude.{◌≡◌, IfOk, OnErr, OnOk, [], false};
ghost use Rattle.std.specs.List.{list_any};
ghost use Rattle.om_requests.specs.Requests.{request_of};
ghost use Rattle.om_debug.specs.Stops.{IsMoved, stop_text, with_timeline, ChangesTimelineAlone};
ghost use Rattle.om_debug.specs.Answered.{IsAnswered};
ghost use Rattle.om_debug.specs.Monitor.{IsCommanded, IsSaid, where_text};
ghost use Rattle.om_debug.specs.Told.{asked, clear_break, clear_watch, is_last, is_leaving, is_there, is_watch, is_watched, ok_if, set_break, set_watch, text_of, with_breaks, with_watches, ReadsNothing, IsNotLast};

use crate::monitor::HELP;
use crate::stop::{Stop, stop_text};
use crate::wish::Wish;
use om_requests::{
    Command, ERROR, Request, Thread, Watch, Watched, memory_text, piece_text, registers_text,
    request_of, target_text,
};
use om_timeline::{PlayFault, Timeline};
use std::alloc::{AllocError, Global};
use std::marker::Model;

const SUPPORTED: &str =
    "PacketSize=4000;QStartNoAckMode+;qXfer:features:read+;qXfer:threads:read+;ReverseStep+;ReverseContinue+;vContSupported+;swbreak+;hwbreak+";

const ACTIONS: &str = "vCont;c;C;s;S;r";

/// A process of a record, and where it is to stop.
#[derive(Drop)]
pub struct Debugger {
    pub(crate) alloc: Global,
    pub(crate) timeline: Timeline,
    // The addresses of instructions.
    pub(crate) breaks: Vec<u32>,
    pub(crate) watches: Vec<Watch>,
    pub(crate) name: String,
    // The list of the one thread.
    threads: String,
}

impl Model for Debugger {
    ghost use Rattle.std.specs.Prelude.{string_bytes};
    ghost use Rattle.om_debug.specs.Stops.{DebugState};
    ghost use Rattle.om_world.specs.steps.Codes.{coded_health};
    ghost use Rattle.om_stable.specs.steps.Codes.{content_code};
    ghost use Rattle.om_manager.specs.steps.Codes.{coded_manager};
    ghost use Rattle.std.specs.Coded.{codes};

    ghost Value = { DebugState };

    ghost coded = { Prim.hlevel (codes, coded_health, content_code, coded_manager) };

    ghost view = { λ d. record {
      timeline = d.timeline;
      breaks = d.breaks.items;
      watches = d.watches.items;
      name = string_bytes d.name;
      threads = string_bytes d.threads;
    } };
}

/// What is answered to a packet.
#[derive(Debug, Drop)]
pub enum Reply {
    /// This text, and the next packet is awaited.
    Text(Vec<u8>),
    /// This text, and it is over.
    Last(Vec<u8>),
}

fn bytes(alloc: Global, text: &str) -> Result<Vec<u8>, AllocError>
    ensures { IfOk result (λ bytes. bytes.items ≡ text.now) }
{
    Vec::from_slice(alloc, text.as_bytes())
}

impl Debugger {
    /// Shows a process of this name, which stands without breakpoints where the timeline does. Refused where memory ran out.
    pub fn new(alloc: Global, timeline: Timeline, name: &str) -> Result<Debugger, AllocError>
        ensures timeline { IfOk result (λ d. d.timeline ≡ timeline) }
        ensures breaks { IfOk result (λ d. d.breaks ≡ []) }
        ensures watches { IfOk result (λ d. d.watches ≡ []) }
        ensures name { IfOk result (λ d. d.name ≡ name.now) }
    {
        let threads = format!(in alloc;
            "<?xml version=\"1.0\"?><threads><thread id=\"1\" name=\"{name}\"></thread></threads>"
        )?;
        Ok(Debugger {
            alloc,
            timeline,
            breaks: Vec::new(alloc),
            watches: Vec::new(alloc),
            name: String::from_str(alloc, name)?,
            threads,
        })
    }

    /// Answers a packet of these bytes: what is asked, or where the process stands after it moved. While it goes on the reader is asked
    /// whether a stop is wished. Refused where memory ran out, or the record is not played on: then the process may have moved, and
    /// nothing else has changed.
    pub fn answer<R: Wish>(&mut self, packet: &[u8], reader: &mut R) -> Result<Reply, PlayFault>
        ensures answered { IfOk result (λ told. IsAnswered (request_of packet.now) self.old told self.new) }
        ensures last { IfOk result (λ told. is_last told ≡ is_leaving (request_of packet.now)) }
        ensures moved { IsMoved self.old.timeline self.new.timeline }
        ensures refused { OnErr result (self.new ≡ with_timeline self.old self.new.timeline) }
        ensures unread { ReadsNothing R.remaining reader.old reader.new }
    {
        let request = request_of(self.alloc, packet)?;
        self.answer_to(request, reader)
    }

    fn answer_to<R: Wish>(&mut self, request: Request, reader: &mut R) -> Result<Reply, PlayFault>
        ensures answered { IfOk result (λ told. IsAnswered request self.old told self.new) }
        ensures last { IfOk result (λ told. is_last told ≡ is_leaving request) }
        ensures moved { IsMoved self.old.timeline self.new.timeline }
        ensures refused { OnErr result (self.new ≡ with_timeline self.old self.new.timeline) }
        ensures unread { ReadsNothing R.remaining reader.old reader.new }
    {
        match request {
            Request::Resume(how) => {
                let stop = self.forward(how, reader)?;
                Ok(self.stopped(stop)?)
            }
            Request::BackStep => {
                let stop = self.step_back()?;
                Ok(self.stopped(stop)?)
            }
            Request::BackContinue => {
                let stop = self.run_back(reader)?;
                Ok(self.stopped(stop)?)
            }
            Request::SetBreak(address) => {
                let done = self.text("OK")?;
                self.set_break(address)?;
                Ok(done)
            }
            Request::ClearBreak(address) => {
                let done = self.text("OK")?;
                self.clear_break(address);
                Ok(done)
            }
            Request::SetWatch(watch) => {
                let done = self.text("OK")?;
                self.set_watch(watch)?;
                Ok(done)
            }
            Request::ClearWatch(watch) => {
                let done = self.text("OK")?;
                self.clear_watch(watch);
                Ok(done)
            }
            Request::Monitor(command) => self.commanded(command),
            Request::Detach => Ok(Reply::Last(bytes(self.alloc, "OK")?)),
            Request::Kill => Ok(Reply::Last(bytes(self.alloc, "OK")?)),
            asked => Ok(Reply::Text(self.asked(asked)?)),
        }
    }

    fn commanded(&mut self, command: Command) -> Result<Reply, PlayFault>
        ensures last { IfOk result IsNotLast }
        ensures moved { IsMoved self.old.timeline self.new.timeline }
        ensures same { ChangesTimelineAlone self.old self.new }
        ensures commanded { IfOk result (λ told. IsCommanded command self.old told self.new) }
    {
        match command {
            Command::Where => self.said_where(),
            Command::Events => {
                let events = self.told_events()?;
                Ok(self.said(&events)?)
            }
            Command::Goto(event) => {
                self.go_to_event(event as usize)?;
                self.said_where()
            }
            Command::Help => Ok(self.said(HELP)?),
        }
    }

    // Returns where time and the process stand, as it is told.
    fn said_where(&self) -> Result<Reply, PlayFault>
        ensures said { IfOk result (λ told. IsSaid (where_text self.now) told) }
        ensures last { IfOk result IsNotLast }
    {
        let text = self.told_where()?;
        Ok(self.said(&text)?)
    }

    // Makes a text for the user, whose bytes are told in hexadecimal.
    fn said(&self, text: &str) -> Result<Reply, AllocError>
        ensures said { IfOk result (λ told. IsSaid text.now told) }
        ensures last { IfOk result IsNotLast }
    {
        Ok(Reply::Text(hex::encode(self.alloc, text.as_bytes())?.into_bytes()))
    }

    /// Tells that the process stands where it stands, as one who asked for a stop is told. Refused only where memory ran out.
    pub fn interrupted(&self) -> Result<Reply, AllocError>
        ensures paused { IfOk result (λ told. text_of told ≡ stop_text Stop.Paused) }
        ensures last { IfOk result IsNotLast }
    {
        self.stopped(Stop::Paused)
    }

    fn text(&self, text: &str) -> Result<Reply, AllocError>
        ensures text { IfOk result (λ told. text_of told ≡ text.now) }
        ensures last { IfOk result IsNotLast }
    {
        Ok(Reply::Text(bytes(self.alloc, text)?))
    }

    fn stopped(&self, stop: Stop) -> Result<Reply, AllocError>
        ensures text { IfOk result (λ told. text_of told ≡ stop_text stop) }
        ensures last { IfOk result IsNotLast }
    {
        Ok(Reply::Text(stop_text(self.alloc, stop)?.into_bytes()))
    }

    // Returns the answer to what is only asked: for what moves, nothing.
    fn asked(&self, request: Request) -> Result<Vec<u8>, AllocError>
        ensures { IfOk result (λ text. text.items ≡ asked self.now request) }
    {
        let alloc = self.alloc;
        let machine = self.timeline.machine();
        match request {
            Request::Supported => bytes(alloc, SUPPORTED),
            Request::StartNoAckMode => bytes(alloc, "OK"),
            Request::Why => Ok(stop_text(alloc, Stop::Here)?.into_bytes()),
            Request::Registers => Ok(registers_text(alloc, machine)?.into_bytes()),
            Request::Memory(address, length) => {
                Ok(memory_text(alloc, machine, address, length)?.into_bytes())
            }
            Request::Select(thread) => bytes(alloc, ok_if(is_there(thread))),
            Request::SelectGoing(thread) => bytes(alloc, ok_if(is_there(thread))),
            Request::IsAlive(thread) => bytes(alloc, ok_if(is_there(thread))),
            Request::Target(offset, length) => {
                piece_text(alloc, target_text().as_bytes(), offset, length)
            }
            Request::Threads(offset, length) => {
                piece_text(alloc, self.threads.as_bytes(), offset, length)
            }
            Request::Attached => bytes(alloc, "1"),
            Request::Actions => bytes(alloc, ACTIONS),
            Request::Write => bytes(alloc, ERROR),
            Request::Malformed => bytes(alloc, ERROR),
            _ => Ok(Vec::new(alloc)),
        }
    }

    /// Stops the process from now on before the instruction at an address. Refused only where memory ran out.
    pub fn set_break(&mut self, address: u32) -> Result<(), AllocError>
        ensures set { OnOk result (self.new ≡ with_breaks self.old (set_break address self.old.breaks)) }
        ensures refused { OnErr result (self.new ≡ self.old) }
    {
        if !self.breaks.contains(&address) {
            self.breaks.push(address)?;
        }
        Ok(())
    }

    /// Takes the breakpoint at an address away.
    pub fn clear_break(&mut self, address: u32)
        ensures { self.new ≡ with_breaks self.old (clear_break address self.old.breaks) }
    {
        self.breaks.retain(|other| *other != address);
    }

    /// Stops the process from now on at an access to bytes of memory. Refused only where memory ran out.
    pub fn set_watch(&mut self, watch: Watch) -> Result<(), AllocError>
        ensures set { OnOk result (self.new ≡ with_watches self.old (set_watch watch self.old.watches)) }
        ensures refused { OnErr result (self.new ≡ self.old) }
    {
        if !is_among(&self.watches, watch) {
            self.watches.push(watch)?;
        }
        Ok(())
    }

    /// Takes a watchpoint away.
    pub fn clear_watch(&mut self, watch: Watch)
        ensures { self.new ≡ with_watches self.old (clear_watch watch self.old.watches) }
    {
        self.watches.retain(|other| !is_watch(*other, watch));
    }
}

fn is_watched(kind: Watched, other: Watched) -> bool
    ensures { result ≡ is_watched kind other }
{
    match (kind, other) {
        (Watched::Writes, Watched::Writes) => true,
        (Watched::Reads, Watched::Reads) => true,
        (Watched::Both, Watched::Both) => true,
        _ => false,
    }
}

// Returns whether it is the same watchpoint.
fn is_watch(watch: Watch, other: Watch) -> bool
    ensures { result ≡ is_watch watch other }
{
    is_watched(watch.kind, other.kind)
        && watch.address == other.address
        && watch.length == other.length
}

fn is_among(watches: &[Watch], watch: Watch) -> bool
    ensures { result ≡ list_any (λ other. is_watch other watch) watches.now }
{
    watches.iter().any(|other| is_watch(*other, watch))
}

// Returns whether the thread is there.
fn is_there(thread: Thread) -> bool
    ensures { result ≡ is_there thread }
{
    match thread {
        Thread::Any => true,
        Thread::Numbered(number) => number == 1,
    }
}

fn ok_if(holds: bool) -> &'static str
    ensures { result.now ≡ ok_if holds }
{
    if holds { "OK" } else { ERROR }
}
