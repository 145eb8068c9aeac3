ghost use Rattle.std.specs.Prelude.{◌≡◌};
ghost use Rattle.om_board.specs.Inboxes.{IsOfLine};

use om_format::{Body, Message};
use om_interval::{Pid, Tag};
use om_runner::{CAPACITY, Inbox, PutAnswer, PutPass, TakePass};
use std::alloc::Global;
use std::process::Abort;
use std::sync::Wait;

// A message of an inbox.
fn message_of(inbox: &Inbox, ssn: u32) -> Message
    ensures { IsOfLine inbox.now result }
{
    Message {
        from: inbox.from(),
        to: inbox.to(),
        tag: Tag {
            inc: 0,
            interval: 0,
        },
        ssn,
        body: Body::empty(),
    }
}

fn number_of(message: Message) -> u32 {
    let ssn = message.ssn;
    drop(message);
    ssn
}

// What is answered to a put, with the number of what comes back.
#[derive(Clone, Copy, PartialEq, Eq, Drop)]
enum Told {
    Put,
    Full(u32),
    Gone(u32),
}

// Puts a message of this number.
fn put_back(rt: &impl Wait, inbox: &Inbox, pass: &mut PutPass, ssn: u32) -> Told
    requires { pass.old.line ≡ inbox.now }
    ensures { pass.new.line ≡ pass.old.line }
{
    let message = message_of(inbox, ssn);
    match inbox.put(rt, pass, message) {
        PutAnswer::Put => Told::Put,
        PutAnswer::Full(back) => Told::Full(number_of(back)),
        PutAnswer::Gone(back) => Told::Gone(number_of(back)),
    }
}

// Returns how many of the messages from number 0 on, as many as an inbox holds, are put.
fn fill(rt: &impl Wait, inbox: &Inbox, pass: &mut PutPass) -> usize
    requires { pass.old.line ≡ inbox.now }
    ensures { pass.new.line ≡ pass.old.line }
{
    let mut filled = 0;
    for ssn in 0..CAPACITY {
        if put_back(rt, inbox, pass, ssn as u32) == Told::Put {
            filled += 1;
        }
    }
    filled
}

// Takes a message: its number.
fn taken(rt: &impl Wait, inbox: &Inbox, pass: &mut TakePass) -> Option<u32>
    requires { pass.old.line ≡ inbox.now }
    ensures { pass.new.line ≡ pass.old.line }
{
    match inbox.take(rt, pass) {
        Some(message) => Some(number_of(message)),
        None => None,
    }
}

// Returns whether the messages from number 1 to 64 are left, in this order, and no other.
fn drains(rt: &impl Wait, inbox: &Inbox, pass: &mut TakePass) -> bool
    requires { pass.old.line ≡ inbox.now }
{
    for ssn in 1..=64 {
        if taken(rt, inbox, pass) != Some(ssn) {
            return false;
        }
    }
    taken(rt, inbox, pass).is_none()
}

// It is filled, and what does not fit comes back. One is taken, and there is room.
fn assert_filled(
    rt: &(impl Wait + Abort),
    alloc: Global,
    inbox: &Inbox,
    put: &mut PutPass,
    take: &mut TakePass,
)
    requires put { put.old.line ≡ inbox.now }
    requires take { take.old.line ≡ inbox.now }
    ensures put { put.new.line ≡ put.old.line }
    ensures take { take.new.line ≡ take.old.line }
{
    assert!(rt; fill(rt, inbox, put) == 64);
    assert!(rt; put_back(rt, inbox, put, 64) == Told::Full(64));
    assert!(rt; taken(rt, inbox, take) == Some(0));
    assert!(rt; put_back(rt, inbox, put, 64) == Told::Put);
}

// What was put is taken in order.
fn assert_drained(rt: &(impl Wait + Abort), inbox: &Inbox, put: PutPass, take: &mut TakePass)
    requires put { put.line ≡ inbox.now }
    requires take { take.old.line ≡ inbox.now }
{
    inbox.settle(rt, take, put);
    assert!(rt; drains(rt, inbox, take));
}

#[test]
fn full_inbox(rt: HostRuntime) {
    let made = Inbox::new(rt.alloc(), Pid::at(0), Pid::at(1));
    let (inbox, mut put, mut take) = made.expect(&rt, "memory");
    assert_filled(&rt, rt.alloc(), &inbox, &mut put, &mut take);
    assert_drained(&rt, &inbox, put, &mut take);
    drop(inbox);
    drop(take);
}
