//! Commands of the user, which only tell or go to an event.

ghost use Rattle.std.specs.Prelude.{◌≡◌, ◌++◌, ◌<◌, IfOk, OnOk, length, position, slice_get, string_bytes};
ghost use Rattle.std.specs.List.{flat_map};
ghost use Rattle.om_debug.specs.Monitor.{IsAtEvent, IsSaid, time_line};
ghost use Rattle.om_debug.specs.Told.{IsNotLast};
ghost use Rattle.om_inferiors.specs.Monitor.{AreSentTo, IsGroupCommanded, IsGroupSentTo, group_events_text, group_where_text, is_under_way, lead_place, member_line, number_text, time_of};
ghost use Rattle.om_inferiors.specs.steps.Sending.{IsSentAt};

use crate::inferior::Inferior;
use crate::inferiors::Inferiors;
use om_debug::{HELP, Reply};
use om_requests::Command;
use om_timeline::PlayFault;
use std::alloc::{AllocError, Global};

fn to_event_at(all: &mut [Inferior], place: usize, event: usize) -> Result<(), PlayFault>
    requires { place < length all.old }
    ensures { OnOk result (IsSentAt event place all.old all.new) }
{
    let member = &mut all[place];
    member.debugger.go_to_event(event)
}

// Takes all to before an event, or to the end where the record has no such event.
#[tactic(auto, using(crate::proofs::Telling::none_sent, crate::proofs::Telling::first_more, crate::proofs::Telling::all_sent, crate::proofs::Telling::length_first))]
fn all_to_event(all: &mut [Inferior], event: usize) -> Result<(), PlayFault>
    ensures { OnOk result (AreSentTo event all.old all.new) }
{
    for place in 0..all.len() {
        to_event_at(all, place, event)?;
    }
    Ok(())
}

// Makes a text for the user, whose bytes are told in hexadecimal.
fn said(alloc: Global, text: &str) -> Result<Reply, AllocError>
    ensures said { IfOk result (λ told. IsSaid text.now told) }
    ensures last { IfOk result IsNotLast }
{
    Ok(Reply::Text(hex::encode(alloc, text.as_bytes())?.into_bytes()))
}

// Returns whether some instructions of the next event are done.
fn is_under_way(member: &Inferior) -> bool
    ensures { result ≡ is_under_way member.now }
{
    member.debugger.position().turns > 0
}

fn push_number(text: &mut String, number: u32) -> Result<(), AllocError>
    ensures { OnOk result (string_bytes text.new ≡ string_bytes text.old ++ number_text number) }
{
    write!(text, "{number} ")
}

// Writes the line of a process.
fn push_member(text: &mut String, member: &Inferior) -> Result<(), AllocError>
    ensures { OnOk result (string_bytes text.new ≡ string_bytes text.old ++ member_line member.now) }
{
    push_number(text, member.number)?;
    member.debugger.push_standing(text)
}

// Writes a line of each process.
fn push_members(text: &mut String, members: &[Inferior]) -> Result<(), AllocError>
    ensures { OnOk result (string_bytes text.new ≡ string_bytes text.old ++ flat_map member_line members.now) }
{
    for member in members {
        push_member(text, member)?;
    }
    Ok(())
}

// Writes where time stands, as the process at a place sees it, if one is there.
fn push_time(text: &mut String, members: &[Inferior], place: usize) -> Result<(), AllocError>
    ensures { OnOk result (string_bytes text.new ≡ string_bytes text.old ++ time_of (slice_get members.now place)) }
{
    match members.get(place) {
        Some(member) => member.debugger.push_event_here(text),
        None => Ok(()),
    }
}

impl Inferiors {
    // Does what a command of the user says, and tells it.
    pub(crate) fn commanded(&mut self, alloc: Global, command: Command) -> Result<Reply, PlayFault>
        ensures commanded { IfOk result (λ told. IsGroupCommanded command self.old told self.new) }
        ensures last { IfOk result IsNotLast }
    {
        match command {
            Command::Where => self.said_where(alloc),
            Command::Events => {
                let events = self.told_events(alloc)?;
                Ok(said(alloc, &events)?)
            }
            Command::Goto(event) => {
                self.go_to_event(event as usize)?;
                self.said_where(alloc)
            }
            Command::Help => Ok(said(alloc, HELP)?),
        }
    }

    fn go_to_event(&mut self, event: usize) -> Result<(), PlayFault>
        ensures { OnOk result (IsGroupSentTo event self.old self.new) }
    {
        all_to_event(&mut self.members, event)
    }

    // Returns where time and the processes stand, as it is told.
    fn said_where(&self, alloc: Global) -> Result<Reply, PlayFault>
        ensures said { IfOk result (λ told. IsSaid (group_where_text self.now.members.items) told) }
        ensures last { IfOk result IsNotLast }
    {
        let text = self.told_where(alloc)?;
        Ok(said(alloc, &text)?)
    }

    // Returns where time and the processes stand.
    fn told_where(&self, alloc: Global) -> Result<String, AllocError>
        ensures { IfOk result (λ text. string_bytes text ≡ group_where_text self.now.members.items) }
    {
        let mut text = String::new(alloc);
        push_time(&mut text, &self.members, self.lead_place())?;
        push_members(&mut text, &self.members)?;
        Ok(text)
    }

    // Returns which process is the first in the middle of an event.
    fn under_way(&self) -> Option<usize>
        ensures { result ≡ position is_under_way self.now.members.items }
    {
        self.members.iter().position(|member| is_under_way(member))
    }

    // Returns where the process stands that is in the middle of an event, or else the first.
    fn lead_place(&self) -> usize
        ensures { result ≡ lead_place self.now.members.items }
    {
        match self.under_way() {
            Some(place) => place,
            None => 0,
        }
    }

    fn told_events(&self, alloc: Global) -> Result<String, AllocError>
        ensures { IfOk result (λ text. string_bytes text ≡ group_events_text self.now.members.items) }
    {
        match self.members.get(0) {
            Some(member) => member.debugger.told_events(),
            None => Ok(String::new(alloc)),
        }
    }
}
