//! Scripts of a world: its programs and processes, and what is to happen to it.

ghost use Rattle.std.specs.Prelude.{◌≡◌, OnOk};
ghost use Rattle.om_commands.specs.SimScript.{EventScript, event_script_line, no_events, with_event};

use crate::events::event_of;
use om_isa::Ext;
use om_scripts::Programs;
use om_text::{BuildError, Builder, LineError};
use om_world::Event;
use std::alloc::{AllocError, Global};
use std::marker::Model;

/// What has been read of a script of a world.
#[derive(Drop)]
pub struct SimScript {
    programs: Programs,
    events: Vec<Event>,
}

impl Model for SimScript {
    ghost Value = { EventScript };

    ghost view = { λ s. record { cluster = s.programs; events = s.events.items } };
}

impl SimScript {
    /// Makes a script of no line yet.
    pub fn new(alloc: Global) -> SimScript
        ensures { result ≡ no_events }
    {
        SimScript {
            programs: Programs::new(alloc),
            events: Vec::new(alloc),
        }
    }

    /// Returns the programs and processes.
    pub fn programs(&self) -> &Programs
        ensures { result.now ≡ self.now.cluster }
    {
        &self.programs
    }

    /// Returns the events in order.
    pub fn events(&self) -> &[Event]
        ensures { result.now ≡ self.now.events }
    {
        &self.events
    }

    // Adds an event, behind which no line of a program or a process may stand.
    fn add_event(&mut self, event: Event) -> Result<(), AllocError>
        ensures { OnOk result (self.new ≡ with_event self.old event) }
    {
        self.programs.close();
        self.events.push(event)?;
        Ok(())
    }
}

impl Builder for SimScript {
    ghost State = { EventScript };

    ghost state = { λ script. script };

    ghost meaning = { event_script_line };

    fn add_line(&mut self, alloc: Global, words: &[&[u8]]) -> Result<(), BuildError<LineError>> {
        let [first, words @ ..] = words else {
            return Err(LineError::UnknownLine.into());
        };
        if *first == b"program".as_slice() {
            return self.programs.add_program(alloc, Ext::I, words);
        }
        if *first == b"program-m".as_slice() {
            return self.programs.add_program(alloc, Ext::Im, words);
        }
        if *first == b"proc".as_slice() {
            return self.programs.add_process(alloc, words);
        }
        let event = event_of(first, words)?;
        self.add_event(event)?;
        Ok(())
    }
}
