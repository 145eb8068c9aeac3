//! The ends of inboxes that one process has.

ghost use Rattle.std.specs.Prelude.{◌≡◌, ◌<◌, ◌≤◌, ◌+◌, ℕ, IfNone, IfSome, false, length, min, nat_eq, not, slice_index, slice_index_or, true};
ghost use Rattle.om_board.specs.Inboxes.{MatchTake};
ghost use Rattle.om_interval.specs.declared.pid.TheConstants.{MAX_PROCESSES};
ghost use Rattle.om_links.specs.Network.{ArePuts, AreTakes, IsNetwork};
ghost use Rattle.om_links.specs.Wiring.{HasEnds};
ghost use Rattle.om_links.specs.Dropping.{AreAllOrNone};
ghost use Rattle.om_links.specs.Links.{KeepsEnds, KeepsHasPutAll, IsOfCluster};

use crate::network::Ends;
use crate::received::Received;
use om_board::{
    Bell, CAPACITY, Inbox, PutAnswer, PutPass, SenderSet, SpinOutcome, TakePass, ring_all,
};
use om_format::Message;
use om_interval::{Bounds, DepVec, MAX_PROCESSES, Pid};
use om_process::ProcCore;
use std::alloc::{AllocError, Global};
use std::marker::Model;
use std::sync::Wait;
use std::time::{Clock, Duration};

// After how many messages from one sender its worker is woken, which may wait for room. An inbox that was full passes this
// before it is empty.
const ROOM: u32 = 32;

// How long a nap is, in microseconds, and how many make up a millisecond.
const NAP: u64 = 100;

const NAPS: u32 = 10;

/// Holds a message as it was taken from an inbox: `take` alone gives one.
#[derive(Drop)]
pub struct Taken {
    message: Message,
}

impl Model for Taken {
    ghost use Rattle.om_format.specs.declared.message.Message.{Message};

    ghost Value = { Message };

    ghost view = { λ t. t.message };
}

impl Taken {
    /// Returns the message that was taken.
    pub fn message(&self) -> &Message
        ensures { result.now ≡ self.now }
    {
        &self.message
    }
}

// Takes the next message from an inbox, if there is one.
fn taken_from<R: Wait>(rt: &R, inbox: &Inbox, pass: &mut TakePass) -> Option<Taken>
    requires { pass.old.line ≡ inbox.now }
    ensures { MatchTake result pass.old pass.new }
{
    match inbox.take(rt, pass) {
        Some(message) => Some(Taken { message }),
        None => None,
    }
}

// Returns how many messages of its sender were received with this one, as those before were.
fn count_with(message: &Message) -> u32
    ensures { result ≡ min (message.now.ssn + 1) u32.MAX }
{
    message.ssn.saturating_add(1)
}

/// Holds where the messages of one process go, and where those to it come from.
#[derive(Drop)]
pub struct Links<'a> {
    own: Pid,
    // By sender, and there by receiver.
    inboxes: &'a [Vec<Inbox>],
    // By receiver.
    puts: Vec<PutPass>,
    // By sender.
    takes: Vec<TakePass>,
    // By receiver, the number from which on messages are to be put.
    next: [u32; MAX_PROCESSES],
    // The sender whose turn it is.
    turn: usize,
    // The senders that may have something in their inboxes.
    marked: SenderSet,
    // The number of processes.
    n: usize,
    // By process, what wakes its worker.
    bells: &'a [Bell],
    // By process, what it has received.
    received: &'a [Received],
    // How many messages the process has put, and taken.
    put: u64,
    taken: u64,
    // By receiver, whether there was no room for a message that is kept, when they were put last.
    left: [bool; MAX_PROCESSES],
    // Whether there was room for all of them.
    has_put_all: bool,
    // Whether something is to be put that the process did not send since.
    is_behind: bool,
    // By sender, how many messages were taken since its worker was woken for room.
    since: [u32; MAX_PROCESSES],
    // By sender, how many messages were taken, modulo 2^32.
    counts: [u32; MAX_PROCESSES],
}

impl<'a> Model for Links<'a> {
    ghost use Rattle.om_links.specs.Links.{AreLinks, LinksState};

    ghost Value = { LinksState };

    ghost view = { λ l. record {
      ends = record { own = l.own; n = l.n; lines = l.inboxes.now };
      put = l.put;
      taken = l.taken;
      has_put_all = l.has_put_all;
      is_behind = l.is_behind;
    } };

    ghost invariant = { λ l. AreLinks (record { own = l.own; n = l.n; lines = l.inboxes.now }) l.puts.items l.takes.items l.turn };
}

// Returns how many messages of this sender each process has received, as far as it has told.
fn received_of(received: &[Received], from: Pid) -> [u32; MAX_PROCESSES] {
    let mut counts = [u32::MAX; MAX_PROCESSES];
    for (to, receiver) in received.iter().enumerate().take(MAX_PROCESSES) {
        counts[to] = receiver.from(from);
    }
    counts
}

// Returns whether a process has taken all that a sender told of, which are so many messages, modulo 2^32.
fn has_all(received: &[Received], own: Pid, from: usize, count: u32) -> bool {
    match received.get(own.index()) {
        Some(receiver) => receiver.is_posted(from, count),
        None => false,
    }
}

// Has all put from the first on that its receiver lacks of its sender, where nothing is left to put.
fn from_the_first_lacked(
    next: &mut [u32; MAX_PROCESSES],
    left: &[bool; MAX_PROCESSES],
    received: &[u32; MAX_PROCESSES],
)
    ensures lowered { (to : ℕ) → to < MAX_PROCESSES → slice_index_or left.now to true ≡ false
        → slice_index next.new to ≡ min (slice_index next.old to) (slice_index received.now to) }
    ensures left { (to : ℕ) → slice_index_or left.now to true ≡ true → slice_index next.new to ≡ slice_index next.old to }
{
    for to in 0..MAX_PROCESSES {
        if !left[to] {
            next[to] = next[to].min(received[to]);
        }
    }
}

impl<'a> Links<'a> {
    /// Makes the ends of a process that has put and taken nothing.
    pub fn new(
        own: Pid,
        inboxes: &'a [Vec<Inbox>],
        puts: Vec<PutPass>,
        takes: Vec<TakePass>,
        bells: &'a [Bell],
        received: &'a [Received],
    ) -> Links<'a>
        requires own { own < length inboxes.now }
        requires few { length inboxes.now ≤ MAX_PROCESSES }
        requires network { IsNetwork (length inboxes.now) inboxes.now }
        requires puts { length puts.items ≡ length inboxes.now }
        requires takes { length takes.items ≡ length inboxes.now }
        requires putting { ArePuts inboxes.now own puts.items }
        requires taking { AreTakes inboxes.now own takes.items }
        ensures own { result.ends.own ≡ own }
        ensures n { result.ends.n ≡ length inboxes.entry.now }
        ensures lines { result.ends.lines ≡ inboxes.entry.now }
        ensures put { result.put ≡ 0 }
        ensures taken { result.taken ≡ 0 }
        ensures all { result.has_put_all ≡ true }
        ensures behind { result.is_behind ≡ false }
    {
        let n = inboxes.len();
        Links {
            own,
            inboxes,
            puts,
            takes,
            next: [0; MAX_PROCESSES],
            turn: 0,
            marked: SenderSet::none(),
            n,
            bells,
            received,
            put: 0,
            taken: 0,
            left: [false; MAX_PROCESSES],
            has_put_all: true,
            is_behind: false,
            since: [0; MAX_PROCESSES],
            counts: [0; MAX_PROCESSES],
        }
    }

    /// Returns the process.
    pub fn own(&self) -> Pid
        ensures own { result ≡ self.now.ends.own }
        ensures place { self.now.ends.own < self.now.ends.n }
    {
        self.own
    }

    /// Returns the number of processes.
    pub fn n(&self) -> usize
        ensures n { result ≡ self.now.ends.n }
        ensures few { self.now.ends.n ≤ MAX_PROCESSES }
    {
        self.n
    }

    /// Returns the inboxes of the cluster.
    pub fn inboxes(&self) -> &'a [Vec<Inbox>]
        ensures { result.now ≡ self.now.ends.lines }
    {
        self.inboxes
    }

    /// Returns how many messages the process has put.
    pub fn put(&self) -> u64
        ensures { result ≡ self.now.put }
    {
        self.put
    }

    /// Returns how many messages it has taken.
    pub fn taken(&self) -> u64
        ensures { result ≡ self.now.taken }
    {
        self.taken
    }

    /// Returns whether all messages that are kept were put, when they were put last.
    pub fn has_put_all(&self) -> bool
        ensures { result ≡ self.now.has_put_all }
    {
        self.has_put_all
    }

    /// Returns whether something is to be put though the process sends nothing.
    pub fn is_behind(&self) -> bool
        ensures { result ≡ self.now.is_behind }
    {
        self.is_behind
    }

    /// Yields until its worker is woken, for a while.
    pub fn look<R: Clock>(&self, rt: &R) -> SpinOutcome {
        match self.bells.get(self.own.index()) {
            Some(bell) => bell.look(rt),
            None => SpinOutcome::Rung,
        }
    }

    /// Sleeps until its worker is woken, for so many milliseconds at most, and says whether it was woken.
    pub fn sleep<R: Wait>(&self, rt: &R, millis: u64) -> bool {
        match self.bells.get(self.own.index()) {
            Some(bell) => bell.sleep(rt, Duration::from_millis(millis)),
            None => true,
        }
    }

    /// Sleeps until its worker is woken, for a millisecond at most, in naps. Each that ends has the system choose anew who is to run,
    /// where another worker was woken and waits until a busy program's time slice ends.
    pub fn nap<R: Wait>(&self, rt: &R) -> bool {
        match self.bells.get(self.own.index()) {
            Some(bell) => bell.nap(rt, Duration::from_micros(NAP), NAPS),
            None => true,
        }
    }

    // Wakes the worker of a process.
    fn wake(&self, place: usize) {
        if let Some(bell) = self.bells.get(place) {
            bell.ring();
        }
    }

    // Wakes the worker of a process, for which a message was put. It is counted first: who is woken by it finds it counted.
    fn tell(&self, place: usize) {
        if let Some(receiver) = self.received.get(place) {
            receiver.post(self.own.index());
        }
        if let Some(bell) = self.bells.get(place) {
            bell.tell(self.own.index());
        }
    }

    /// Wakes all workers.
    pub fn wake_all(&self) {
        ring_all(self.bells);
    }

    /// Gives the passes of the process up.
    pub fn into_ends(self) -> Ends
        ensures { let e = self.entry.ends in HasEnds e.n e.lines e.own result }
    {
        let Links { puts, takes, .. } = self;
        Ends { puts, takes }
    }

    /// Has all messages that are kept put once more.
    pub fn resend(&mut self)
        ensures ends { KeepsEnds self.old self.new }
        ensures put { self.new.put ≡ self.old.put }
        ensures taken { self.new.taken ≡ self.old.taken }
        ensures all { KeepsHasPutAll self.old self.new }
        ensures behind { self.new.is_behind ≡ true }
    {
        self.next = [0; MAX_PROCESSES];
        self.is_behind = true;
    }

    /// Has the messages that are kept put once more, to each process to which all of them were put: from the first on that it has not
    /// received, as it stands. The others it would refuse as received before; and where it goes back, all that is kept is put once more
    /// after that round.
    pub fn resend_put(&mut self)
        ensures ends { KeepsEnds self.old self.new }
        ensures put { self.new.put ≡ self.old.put }
        ensures taken { self.new.taken ≡ self.old.taken }
        ensures all { KeepsHasPutAll self.old self.new }
        ensures behind { self.new.is_behind ≡ true }
    {
        let received = received_of(self.received, self.own);
        from_the_first_lacked(&mut self.next, &self.left, &received);
        self.is_behind = true;
    }

    /// Tells the sender of a message, which the process has received, that it did.
    pub fn tell_received(&self, message: &Message) {
        if let Some(received) = self.received.get(self.own.index()) {
            received.tell(message.from, count_with(message));
        }
    }

    /// Tells all senders how much the process has received where it stands.
    pub fn tell_all_received(&self, core: &ProcCore) {
        if let Some(received) = self.received.get(self.own.index()) {
            received.tell_all(core.got());
        }
    }

    /// Tells all senders that the process takes no message any more, whatever fails.
    pub fn tell_end(&self) {
        if let Some(received) = self.received.get(self.own.index()) {
            received.end();
        }
    }

    // Returns whether a process takes no message any more, as far as it has told.
    fn is_over(&self, place: usize) -> bool {
        match self.received.get(place) {
            Some(received) => received.is_over(),
            None => false,
        }
    }

    /// Returns bounds below which all messages stand to each process that takes none any more, and nothing else; none where there is
    /// no such process.
    pub fn bounds_of_ended(&self) -> Option<Bounds>
        ensures places { IfSome result (λ bounds. length bounds.got ≡ self.now.ends.n) }
        ensures whole { IfSome result (λ bounds. AreAllOrNone bounds.got) }
        ensures outputs { IfSome result (λ bounds. bounds.released ≡ 0) }
    {
        let mut got = DepVec::zeros(self.n)?;
        let mut is_any = false;
        for to in 0..self.n {
            if self.is_over(to) {
                got.set(Pid::at(to), u32::MAX);
                is_any = true;
            }
        }
        if !is_any {
            return None;
        }
        Some(Bounds { got, released: 0 })
    }

    /// Puts the messages that are kept and not put yet, as far as there is room for them.
    pub fn put_all<R: Wait>(
        &mut self,
        rt: &R,
        alloc: Global,
        core: &ProcCore,
    ) -> Result<(), AllocError>
        requires own { core.now.own ≡ self.old.ends.own }
        requires size { IsOfCluster self.old core.now.now }
        ensures ends { KeepsEnds self.old self.new }
        ensures taken { self.new.taken ≡ self.old.taken }
        ensures behind { self.new.is_behind ≡ not self.new.has_put_all }
    {
        self.is_behind = false;
        self.has_put_all = true;
        for to in 0..self.n {
            let to = Pid::at(to);
            if self.begin_put(core, to) {
                self.put_to(rt, alloc, core, to)?;
            }
        }
        Ok(())
    }

    // Begins to put to a process, and says whether some of the messages to it that are kept are not put yet. Mostly there are none.
    fn begin_put(&mut self, core: &ProcCore, to: Pid) -> bool
        requires size { IsOfCluster self.old core.now.now }
        requires to { to < self.old.ends.n }
        ensures { self.new ≡ self.old }
    {
        let place = to.index();
        self.left[place] = false;
        match core.outbox(to).last() {
            Some(newest) => newest.ssn >= self.next[place],
            None => false,
        }
    }

    // Puts the messages to a process that are kept and not put yet, as far as there is room for them.
    #[inline(never)]
    fn put_to<R: Wait>(
        &mut self,
        rt: &R,
        alloc: Global,
        core: &ProcCore,
        to: Pid,
    ) -> Result<(), AllocError>
        requires own { core.now.own ≡ self.old.ends.own }
        requires size { IsOfCluster self.old core.now.now }
        requires to { to < self.old.ends.n }
        requires behind { self.old.is_behind ≡ not self.old.has_put_all }
        ensures ends { KeepsEnds self.old self.new }
        ensures taken { self.new.taken ≡ self.old.taken }
        ensures behind { self.new.is_behind ≡ not self.new.has_put_all }
    {
        let outbox = core.outbox(to);
        let Some(oldest) = outbox.first() else {
            return Ok(());
        };
        let from = self.next[to.index()].saturating_sub(oldest.ssn) as usize;
        for k in from..outbox.len() {
            if !self.put_one(rt, alloc, core, to, k)? {
                self.left[to.index()] = true;
                self.has_put_all = false;
                self.is_behind = true;
                return Ok(());
            }
        }
        Ok(())
    }

    // Puts one of the messages that are kept, and says whether there was room for it.
    fn put_one<R: Wait>(
        &mut self,
        rt: &R,
        alloc: Global,
        core: &ProcCore,
        to: Pid,
        k: usize,
    ) -> Result<bool, AllocError>
        requires own { core.now.own ≡ self.old.ends.own }
        requires size { IsOfCluster self.old core.now.now }
        requires to { to < self.old.ends.n }
        ensures ends { KeepsEnds self.old self.new }
        ensures taken { self.new.taken ≡ self.old.taken }
        ensures all { KeepsHasPutAll self.old self.new }
        ensures behind { self.new.is_behind ≡ self.old.is_behind }
    {
        let place = to.index();
        let inbox = &self.inboxes[self.own.index()][place];
        let Some(message) = core.frame(alloc, to, k)? else {
            return Ok(false);
        };
        let ssn = message.ssn;
        match inbox.put(rt, &mut self.puts[place], message) {
            PutAnswer::Put => {
                self.next[place] = ssn.saturating_add(1);
                self.put = self.put.saturating_add(1);
                self.tell(place);
                Ok(true)
            }
            _ => Ok(false),
        }
    }

    /// Takes a message from one of the senders, each in its turn, if there is one.
    pub fn take<R: Wait>(&mut self, rt: &R) -> Option<Taken>
        ensures ends { KeepsEnds self.old self.new }
        ensures put { self.new.put ≡ self.old.put }
        ensures all { KeepsHasPutAll self.old self.new }
        ensures behind { self.new.is_behind ≡ self.old.is_behind }
        ensures taken { IfSome result (λ _. self.new.taken ≡ min (self.old.taken + 1) u64.MAX) }
        ensures none { IfNone result (self.new ≡ self.old) }
    {
        if let Some(bell) = self.bells.get(self.own.index()) {
            self.marked.add(bell.senders());
        }
        for _ in 0..self.n {
            if self.marked.is_none() {
                return None;
            }
            let taken = self.take_next(rt);
            if taken.is_some() {
                return taken;
            }
        }
        None
    }

    // Takes a message from the next sender that may have put one, if there is one. Of an inbox that was empty its sender tells
    // once more.
    fn take_next<R: Wait>(&mut self, rt: &R) -> Option<Taken>
        ensures ends { KeepsEnds self.old self.new }
        ensures put { self.new.put ≡ self.old.put }
        ensures all { KeepsHasPutAll self.old self.new }
        ensures behind { self.new.is_behind ≡ self.old.is_behind }
        ensures taken { IfSome result (λ _. self.new.taken ≡ min (self.old.taken + 1) u64.MAX) }
        ensures none { IfNone result (self.new ≡ self.old) }
    {
        let from = self.marked.first_from(self.turn);
        if from >= self.n {
            return None;
        }
        self.turn = if from + 1 < self.n { from + 1 } else { 0 };
        let inbox = &self.inboxes[from][self.own.index()];
        let taken = taken_from(rt, inbox, &mut self.takes[from]);
        if taken.is_some() {
            self.count_taken(from);
        } else {
            self.marked.remove(from);
        }
        taken
    }

    // Counts a message that was taken, and wakes its sender where that may wait for room. Its mark goes once all that it told of are
    // taken: of each other message it tells still, and sets the mark anew, since it counts one before it tells of it.
    fn count_taken(&mut self, from: usize)
        requires { from < self.old.ends.n }
        ensures ends { KeepsEnds self.old self.new }
        ensures put { self.new.put ≡ self.old.put }
        ensures all { KeepsHasPutAll self.old self.new }
        ensures behind { self.new.is_behind ≡ self.old.is_behind }
        ensures taken { self.new.taken ≡ min (self.old.taken + 1) u64.MAX }
    {
        self.taken = self.taken.saturating_add(1);
        let count = self.counts[from].wrapping_add(1);
        self.counts[from] = count;
        if has_all(self.received, self.own, from, count) {
            self.marked.remove(from);
        }
        let since = self.since[from].saturating_add(1);
        if since >= ROOM {
            self.since[from] = 0;
            self.wake(from);
        } else {
            self.since[from] = since;
        }
    }

    /// Drops what has come, and says whether anything had.
    pub fn drain<R: Wait>(&mut self, rt: &R) -> bool
        ensures ends { KeepsEnds self.old self.new }
        ensures put { self.new.put ≡ self.old.put }
        ensures all { KeepsHasPutAll self.old self.new }
        ensures behind { self.new.is_behind ≡ self.old.is_behind }
        ensures some { result ≡ not (nat_eq self.new.taken self.old.taken) }
    {
        let before = self.taken;
        for _ in 0..CAPACITY {
            if self.take(rt).is_none() {
                break;
            }
        }
        self.taken != before
    }
}
