//! What packets ask of several processes.

ghost use Rattle.std.specs.Prelude.{◌≡◌, ◌==◌, ◌<◌, ◌⊎◌, IfOk, IfSome, OnErr, None, false, length, position, string_bytes};
ghost use Rattle.om_requests.specs.Groups.{group_request_of};
ghost use Rattle.om_debug.specs.Told.{clear_break, clear_watch, is_last, is_leaving, set_break, set_watch, text_of, with_breaks, with_watches, ReadsNothing, IsNotLast};
ghost use Rattle.om_debug.specs.declared.stop.Stop.TheVariants.{Paused};
ghost use Rattle.om_inferiors.specs.Told.{IsGroupAnswered, IsGroupBack, IsGroupEnd, IsGroupOn, IsLeft, IsRefused, IsSet, IsTold, asked_group, group_stop_text, is_there, member_of, memory_of, number_of, place_of_inferior, registers_of, thread_text, threads_text};

use crate::inferior::Inferior;
use crate::moving::{Stopped, backward, forward};
use crate::stop::group_stop_text;
use om_debug::{Reply, Stop, Wish};
use om_requests::{
    ERROR, GroupRequest, Request, Resume, Watch, Whom, group_request_of, memory_text, piece_text,
    registers_text, target_text,
};
use om_timeline::PlayFault;
use std::alloc::{AllocError, Global};

const SUPPORTED: &str =
    "PacketSize=4000;QStartNoAckMode+;qXfer:features:read+;qXfer:threads:read+;qXfer:exec-file:read+;ReverseStep+;ReverseContinue+;vContSupported+;swbreak+;hwbreak+;multiprocess+";

const ACTIONS: &str = "vCont;c;C;s;S;r";

// What one is told who lets one of several processes go on alone.
const ALONE: &str = "E.time goes on for all processes: first say set schedule-multiple on";

/// The processes of a record that are shown, all at one moment.
#[derive(Drop)]
pub struct Inferiors {
    /// The processes, in the order of their numbers.
    pub members: Vec<Inferior>,
    /// The number of the one whose registers, memory and stops are meant.
    pub selected: u32,
    /// The number of the one that goes back by a step, where that was said.
    pub going: Option<u32>,
    /// The number of the one that was told or named last.
    pub focus: u32,
}

fn bytes(alloc: Global, text: &str) -> Result<Vec<u8>, AllocError>
    ensures { IfOk result (λ bytes. bytes.items ≡ text.now) }
{
    Vec::from_slice(alloc, text.as_bytes())
}

fn text(alloc: Global, text: &str) -> Result<Reply, AllocError>
    ensures text { IfOk result (λ told. text_of told ≡ text.now) }
    ensures last { IfOk result IsNotLast }
{
    Ok(Reply::Text(bytes(alloc, text)?))
}

// Returns where the process of a number stands among those that are shown.
pub(crate) fn place_of(members: &[Inferior], number: u32) -> Option<usize>
    ensures place { result ≡ place_of_inferior members.now number }
    ensures within { IfSome result (λ place. place < length members.now) }
{
    members.iter().position(|member| member.number == number)
}

fn thread_text(alloc: Global, member: &Inferior) -> Result<String, AllocError>
    ensures { IfOk result (λ text. string_bytes text ≡ thread_text member.now) }
{
    let number = member.number;
    let mut text = format!(in alloc; "<thread id=\"p{number:x}.1\" name=\"")?;
    text.push_str(&member.name)?;
    text.push_str("\">")?;
    text.push_str(&member.debugger.standing_text()?)?;
    text.push_str("</thread>")?;
    Ok(text)
}

// Returns the list of the threads, one of each process.
fn threads_text(alloc: Global, members: &[Inferior]) -> Result<String, AllocError>
    ensures { IfOk result (λ text. string_bytes text ≡ threads_text members.now) }
{
    let mut text = String::from_str(alloc, "<?xml version=\"1.0\"?><threads>")?;
    for member in members {
        text.push_str(&thread_text(alloc, member)?)?;
    }
    text.push_str("</threads>")?;
    Ok(text)
}

impl Inferiors {
    /// Shows these processes, of which the first is meant.
    pub fn new(members: Vec<Inferior>) -> Inferiors
        ensures members { result.members.items ≡ members.items }
        ensures selected { result.selected ≡ 1 }
        ensures focus { result.focus ≡ 1 }
        ensures going { result.going ≡ None }
    {
        Inferiors {
            members,
            selected: 1,
            going: None,
            focus: 1,
        }
    }

    /// Answers a packet of these bytes: what is asked, or which process stops where all have moved. While they go on the reader is asked
    /// whether a stop is wished. Refused where memory ran out, or the record is not played on: then the processes may have moved, each
    /// as far as it came, and nothing else has changed.
    pub fn answer<R: Wish>(
        &mut self,
        alloc: Global,
        packet: &[u8],
        reader: &mut R,
    ) -> Result<Reply, PlayFault>
        ensures answered { IfOk result (λ told. IsGroupAnswered (group_request_of packet.now) self.old told self.new) }
        ensures last { IfOk result (λ told. IsGroupEnd (group_request_of packet.now) told) }
        ensures unread { ReadsNothing R.remaining reader.old reader.new }
    {
        let request = group_request_of(alloc, packet)?;
        self.answer_to(alloc, request, reader)
    }

    fn answer_to<R: Wish>(
        &mut self,
        alloc: Global,
        request: GroupRequest,
        reader: &mut R,
    ) -> Result<Reply, PlayFault>
        ensures answered { IfOk result (λ told. IsGroupAnswered request self.old told self.new) }
        ensures last { IfOk result (λ told. IsGroupEnd request told) }
        ensures unread { ReadsNothing R.remaining reader.old reader.new }
    {
        match request {
            GroupRequest::Resume(how, whom) => self.resume(alloc, how, whom, reader),
            GroupRequest::Select(whom) => Ok(self.select(alloc, whom)?),
            GroupRequest::SelectGoing(whom) => Ok(self.select_going(alloc, whom)?),
            GroupRequest::IsAlive(whom) => Ok(self.name(alloc, whom)?),
            GroupRequest::Leave(number) => Ok(self.leave(alloc, number)?),
            GroupRequest::File(number, offset, length) => {
                Ok(Reply::Text(self.file(alloc, number, offset, length)?))
            }
            GroupRequest::Other(request) => self.answer_other(alloc, request, reader),
        }
    }

    // Returns the answer to what one process is asked too.
    fn answer_other<R: Wish>(
        &mut self,
        alloc: Global,
        request: Request,
        reader: &mut R,
    ) -> Result<Reply, PlayFault>
        ensures answered { IfOk result (λ told. IsGroupAnswered (GroupRequest.Other request) self.old told self.new) }
        ensures last { IfOk result (λ told. is_last told ≡ is_leaving request) }
        ensures unread { ReadsNothing R.remaining reader.old reader.new }
    {
        match request {
            Request::BackStep => self.go_back(alloc, true, reader),
            Request::BackContinue => self.go_back(alloc, false, reader),
            Request::SetBreak(address) => Ok(self.set_break(alloc, address)?),
            Request::ClearBreak(address) => Ok(self.clear_break(alloc, address)?),
            Request::SetWatch(watch) => Ok(self.set_watch(alloc, watch)?),
            Request::ClearWatch(watch) => Ok(self.clear_watch(alloc, watch)?),
            Request::Monitor(command) => self.commanded(alloc, command),
            Request::Detach => Ok(Reply::Last(bytes(alloc, "OK")?)),
            Request::Kill => Ok(Reply::Last(bytes(alloc, "OK")?)),
            asked => Ok(Reply::Text(self.asked(alloc, asked)?)),
        }
    }

    /// Tells that the processes stand where they stand, as one who asked for a stop is told. Refused only where memory ran out.
    pub fn interrupted(&self, alloc: Global) -> Result<Reply, AllocError>
        ensures paused { IfOk result (λ told. text_of told ≡ group_stop_text self.now.focus Paused) }
        ensures last { IfOk result IsNotLast }
    {
        Ok(Reply::Text(group_stop_text(alloc, self.focus, Stop::Paused)?.into_bytes()))
    }

    // Returns the number of the process that is meant.
    fn number_of(&self, whom: Whom) -> u32
        ensures { result ≡ number_of self.now whom }
    {
        match whom {
            Whom::Any => self.focus,
            Whom::Whole(number) => number,
            Whom::One(number) => number,
        }
    }

    fn is_there(&self, whom: Whom) -> bool
        ensures { result ≡ is_there self.now.members.items whom }
    {
        match whom {
            Whom::Any => true,
            Whom::Whole(number) => place_of(&self.members, number).is_some(),
            Whom::One(number) => place_of(&self.members, number).is_some(),
        }
    }
}

// Who goes on, and back, and what is set.
impl Inferiors {
    // Returns the text of a stop; from now on the process that stopped is meant.
    fn stopped(&mut self, alloc: Global, stopped: Stopped) -> Result<Reply, AllocError>
        requires { stopped.place < length self.old.members.items }
        ensures told { IfOk result (λ told. IsTold self.old stopped.place stopped.stop told self.new) }
        ensures members { self.new.members.items ≡ self.old.members.items }
    {
        let number = self.members[stopped.place].number;
        let text = group_stop_text(alloc, number, stopped.stop)?;
        self.focus = number;
        self.selected = number;
        Ok(Reply::Text(text.into_bytes()))
    }

    // Goes on to the first stop: where one is named, it goes on so, and all others until something stops them.
    fn resume<R: Wish>(
        &mut self,
        alloc: Global,
        how: Resume,
        whom: Whom,
        reader: &mut R,
    ) -> Result<Reply, PlayFault>
        ensures answered { IfOk result (λ told. IsGroupOn self.old told self.new ⊎ IsRefused self.old told self.new) }
        ensures last { IfOk result IsNotLast }
        ensures unread { ReadsNothing R.remaining reader.old reader.new }
    {
        if is_alone(whom, self.members.len()) {
            return Ok(text(alloc, ALONE)?);
        }
        let number = self.number_of(whom);
        let Some(place) = place_of(&self.members, number) else {
            return Ok(text(alloc, ERROR)?);
        };
        self.focus = number;
        let stopped = forward(&mut self.members, place, how, reader)?;
        Ok(self.stopped(alloc, stopped)?)
    }

    // Goes back to the last stop, or by a step of the one that was named for it.
    fn go_back<R: Wish>(
        &mut self,
        alloc: Global,
        steps: bool,
        reader: &mut R,
    ) -> Result<Reply, PlayFault>
        ensures answered { IfOk result (λ told. IsGroupBack self.old told self.new ⊎ IsRefused self.old told self.new) }
        ensures last { IfOk result IsNotLast }
        ensures unread { ReadsNothing R.remaining reader.old reader.new }
    {
        let number = self.going.unwrap_or(self.focus);
        let Some(place) = place_of(&self.members, number) else {
            return Ok(text(alloc, ERROR)?);
        };
        let stopped = backward(&mut self.members, place, steps, reader)?;
        Ok(self.stopped(alloc, stopped)?)
    }

    fn select(&mut self, alloc: Global, whom: Whom) -> Result<Reply, AllocError>
        ensures answered { IfOk result (λ told. IsGroupAnswered (GroupRequest.Select whom) self.old told self.new) }
        ensures last { IfOk result IsNotLast }
    {
        if !self.is_there(whom) {
            return text(alloc, ERROR);
        }
        let done = text(alloc, "OK")?;
        match whom {
            Whom::Any => {}
            Whom::Whole(number) => self.selected = number,
            Whom::One(number) => self.selected = number,
        }
        Ok(done)
    }

    fn select_going(&mut self, alloc: Global, whom: Whom) -> Result<Reply, AllocError>
        ensures answered { IfOk result (λ told. IsGroupAnswered (GroupRequest.SelectGoing whom) self.old told self.new) }
        ensures last { IfOk result IsNotLast }
    {
        if !self.is_there(whom) {
            return text(alloc, ERROR);
        }
        let done = text(alloc, "OK")?;
        match whom {
            Whom::Any => self.going = None,
            Whom::Whole(number) => self.going = Some(number),
            Whom::One(number) => self.going = Some(number),
        }
        Ok(done)
    }

    // Tells whether a thread is there, and takes it for the one that is meant by a step back.
    fn name(&mut self, alloc: Global, whom: Whom) -> Result<Reply, AllocError>
        ensures answered { IfOk result (λ told. IsGroupAnswered (GroupRequest.IsAlive whom) self.old told self.new) }
        ensures last { IfOk result IsNotLast }
    {
        if !self.is_there(whom) {
            return text(alloc, ERROR);
        }
        let done = text(alloc, "OK")?;
        match whom {
            Whom::Any => {}
            Whom::Whole(number) => self.focus = number,
            Whom::One(number) => self.focus = number,
        }
        Ok(done)
    }

    // Shows a process no more. It is over when none is left.
    fn leave(&mut self, alloc: Global, number: u32) -> Result<Reply, AllocError>
        ensures { IfOk result (λ told. IsLeft self.old number told self.new) }
    {
        let Some(place) = place_of(&self.members, number) else {
            return text(alloc, ERROR);
        };
        let done = bytes(alloc, "OK")?;
        self.members.remove(place);
        if self.members.is_empty() {
            Ok(Reply::Last(done))
        } else {
            Ok(Reply::Text(done))
        }
    }

    fn set_break(&mut self, alloc: Global, address: u32) -> Result<Reply, AllocError>
        ensures set { IfOk result (λ told. IsSet self.old (λ d. with_breaks d (set_break address d.breaks)) told self.new) }
        ensures last { IfOk result IsNotLast }
    {
        let Some(place) = place_of(&self.members, self.selected) else {
            return text(alloc, ERROR);
        };
        let done = text(alloc, "OK")?;
        let member = &mut self.members[place];
        member.debugger.set_break(address)?;
        Ok(done)
    }

    fn clear_break(&mut self, alloc: Global, address: u32) -> Result<Reply, AllocError>
        ensures set { IfOk result (λ told. IsSet self.old (λ d. with_breaks d (clear_break address d.breaks)) told self.new) }
        ensures last { IfOk result IsNotLast }
    {
        let Some(place) = place_of(&self.members, self.selected) else {
            return text(alloc, ERROR);
        };
        let done = text(alloc, "OK")?;
        let member = &mut self.members[place];
        member.debugger.clear_break(address);
        Ok(done)
    }

    fn set_watch(&mut self, alloc: Global, watch: Watch) -> Result<Reply, AllocError>
        ensures set { IfOk result (λ told. IsSet self.old (λ d. with_watches d (set_watch watch d.watches)) told self.new) }
        ensures last { IfOk result IsNotLast }
    {
        let Some(place) = place_of(&self.members, self.selected) else {
            return text(alloc, ERROR);
        };
        let done = text(alloc, "OK")?;
        let member = &mut self.members[place];
        member.debugger.set_watch(watch)?;
        Ok(done)
    }

    fn clear_watch(&mut self, alloc: Global, watch: Watch) -> Result<Reply, AllocError>
        ensures set { IfOk result (λ told. IsSet self.old (λ d. with_watches d (clear_watch watch d.watches)) told self.new) }
        ensures last { IfOk result IsNotLast }
    {
        let Some(place) = place_of(&self.members, self.selected) else {
            return text(alloc, ERROR);
        };
        let done = text(alloc, "OK")?;
        let member = &mut self.members[place];
        member.debugger.clear_watch(watch);
        Ok(done)
    }
}

// What is only asked.
impl Inferiors {
    // Returns the answer to what is only asked: for all else nothing.
    fn asked(&self, alloc: Global, request: Request) -> Result<Vec<u8>, AllocError>
        ensures { IfOk result (λ text. text.items ≡ asked_group self.now (GroupRequest.Other request)) }
    {
        match request {
            Request::Supported => bytes(alloc, SUPPORTED),
            Request::StartNoAckMode => bytes(alloc, "OK"),
            Request::Why => Ok(group_stop_text(alloc, self.focus, Stop::Here)?.into_bytes()),
            Request::Registers => self.registers(alloc),
            Request::Memory(address, length) => self.memory(alloc, address, length),
            Request::Target(offset, length) => {
                piece_text(alloc, target_text().as_bytes(), offset, length)
            }
            Request::Threads(offset, length) => {
                let threads = threads_text(alloc, &self.members)?;
                piece_text(alloc, threads.as_bytes(), offset, length)
            }
            Request::Attached => bytes(alloc, "1"),
            Request::Actions => bytes(alloc, ACTIONS),
            Request::Write => bytes(alloc, ERROR),
            Request::Malformed => bytes(alloc, ERROR),
            _ => Ok(Vec::new(alloc)),
        }
    }

    fn registers(&self, alloc: Global) -> Result<Vec<u8>, AllocError>
        ensures { IfOk result (λ text. text.items ≡ registers_of (member_of self.now.members.items self.now.selected)) }
    {
        let Some(place) = place_of(&self.members, self.selected) else {
            return bytes(alloc, ERROR);
        };
        let machine = self.members[place].debugger.machine();
        Ok(registers_text(alloc, machine)?.into_bytes())
    }

    fn memory(&self, alloc: Global, address: u32, length: u32) -> Result<Vec<u8>, AllocError>
        ensures { IfOk result (λ text. text.items ≡ memory_of (member_of self.now.members.items self.now.selected) address length) }
    {
        let Some(place) = place_of(&self.members, self.selected) else {
            return bytes(alloc, ERROR);
        };
        let machine = self.members[place].debugger.machine();
        Ok(memory_text(alloc, machine, address, length)?.into_bytes())
    }

    // Returns a piece of the name of a process's file.
    fn file(
        &self,
        alloc: Global,
        number: u32,
        offset: u32,
        length: u32,
    ) -> Result<Vec<u8>, AllocError>
        ensures { IfOk result (λ text. text.items ≡ asked_group self.now (GroupRequest.File number offset length)) }
    {
        let Some(place) = place_of(&self.members, number) else {
            return bytes(alloc, ERROR);
        };
        match &self.members[place].file {
            Some(file) => piece_text(alloc, file.as_bytes(), offset, length),
            None => bytes(alloc, ERROR),
        }
    }
}

// Returns whether one of several would go on alone.
fn is_alone(whom: Whom, count: usize) -> bool {
    match whom {
        Whom::Whole(_) => count > 1,
        Whom::Any => false,
        Whom::One(_) => false,
    }
}
