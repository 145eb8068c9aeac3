//! The command `sim`: a world of logged processes, played event by event.

ghost use Rattle.std.specs.Prelude.{◌≡◌, ◌≢◌, ◌⊎◌, ◌+◌, ◌<◌, ◌≤◌, ℕ, List, All, length, map, slice_get, Err, IfSome, IfOk, IfErr, OnOk, OnErr, Some, string_bytes};
ghost use Rattle.std.specs.Io.KnownBytes.{Appends, Keeps};
ghost use Rattle.om_interval.specs.declared.pid.TheConstants.{MAX_PROCESSES};
ghost use Rattle.om_manager.specs.State.{process_count};
ghost use Rattle.om_process.specs.Images.{program_of};
ghost use Rattle.om_process.specs.declared.start.StartFault.{StartFault};
ghost use Rattle.om_scripts.specs.Programs.{IsProgram, programs_of};
ghost use Rattle.om_world.specs.World.{IsEmpty, IsKnown};
ghost use Rattle.om_world.specs.declared.event.Event.{Event};
ghost use Rattle.om_commands.specs.Command.{IsSilent};
ghost use Rattle.om_commands.specs.Sim.{IsBegun, IsErrorOfSim, IsPlayed, IsSim, IsSimAnswer};
ghost use Rattle.om_commands.specs.steps.Parts.{ArePlayed, EndsPart};

use crate::bytes_text::BytesForm;
use crate::command::{read_input, write_answer};
use crate::error::CommandError;
use crate::sim_script::SimScript;
use crate::sim_text::{push_answers, push_end};
use om_process::{Image, StartFault};
use om_scripts::Programs;
use om_stable::MemStable;
use om_world::{Event, World};
use std::alloc::{AllocError, Global};
use std::io::{Read, Write};

/// Reads a script of programs, processes and events whole, plays the events over stores in memory, and then writes the
/// answer to each and how the world stands in the end, with the bytes of outputs in a form.
pub fn sim<R: Read, W: Write>(
    alloc: Global,
    form: BytesForm,
    reader: &mut R,
    writer: &mut W,
) -> Result<(), CommandError>
    ensures text { IfSome (R.remaining reader.old) (λ bytes. OnOk result ((text : List ℕ) × IsSim form bytes text
        × Appends (W.contents writer.old) (W.contents writer.new) text)) }
    ensures error { IfSome (R.remaining reader.old) (λ bytes.
        IfErr result (IsErrorOfSim bytes)) }
    ensures silent { IfErr result (λ error. IsSilent error (Keeps (W.contents writer.old) (W.contents writer.new))) }
{
    let text = answer_to(alloc, form, reader)?;
    write_answer(writer, text.as_bytes())
}

// Returns the text that answers the script of an input.
fn answer_to<R: Read>(
    alloc: Global,
    form: BytesForm,
    reader: &mut R,
) -> Result<String, CommandError>
    ensures text { IfSome (R.remaining reader.old) (λ bytes. IfOk result (λ text. IsSim form bytes (string_bytes text))) }
    ensures error { IfSome (R.remaining reader.old) (λ bytes.
        IfErr result (IsErrorOfSim bytes)) }
{
    let script = read_input(alloc, reader, SimScript::new(alloc))?;
    answer(alloc, form, &script)
}

// Returns the text that answers a script.
fn answer(alloc: Global, form: BytesForm, script: &SimScript) -> Result<String, CommandError>
    ensures text { IfOk result (λ text. IsSimAnswer form script.now (string_bytes text)) }
    ensures error { IfErr result (λ error. (error ≡ CommandError.NoMemory)
        ⊎ ((error ≡ CommandError.EmptyScript) × (length script.now.cluster.processes ≡ 0))) }
{
    let programs = script.programs();
    if programs.n() == 0 {
        return Err(CommandError::EmptyScript);
    }
    let mut world = start(alloc, programs)?;
    Ok(told(alloc, form, script, &mut world)?)
}

/// Makes the world of these programs at its start, over stores that hold nothing. Refused where memory runs out.
pub fn start(alloc: Global, programs: &Programs) -> Result<World<MemStable>, AllocError>
    requires some { 1 ≤ length programs.now.processes }
    requires few { length programs.now.processes ≤ MAX_PROCESSES }
    ensures begun { IfOk result (IsBegun (programs_of programs.now)) }
    ensures size { IfOk result (λ world. process_count world.manager ≡ length programs.now.processes) }
{
    let images = programs.images(alloc)?;
    begin(alloc, &images)
}

// Plays the events of a script, and tells the answers and how the world stands in the end.
fn told(
    alloc: Global,
    form: BytesForm,
    script: &SimScript,
    world: &mut World<MemStable>,
) -> Result<String, AllocError>
    requires known { IsKnown world.old }
    requires managed { length script.now.cluster.processes ≤ process_count world.old.manager }
    ensures { IfOk result (λ text. IsPlayed form script.now world.old (string_bytes text)) }
{
    let programs = script.programs();
    let mut text = String::new(alloc);
    play(alloc, &mut text, world, script.events())?;
    push_end(alloc, &mut text, form, programs, world, programs.n())?;
    Ok(text)
}

// Makes `n` stores that hold nothing.
fn empty_stores(alloc: Global, n: usize) -> Result<Vec<MemStable>, AllocError>
    ensures number { IfOk result (λ stores. length stores.items ≡ n) }
    ensures empty { IfOk result (λ stores. All IsEmpty stores.items) }
{
    let mut stores = Vec::new(alloc);
    for _ in 0..n {
        stores.push(MemStable::new(alloc))?;
    }
    Ok(stores)
}

// Makes the world of these images at its start, over stores that hold nothing.
fn begin(alloc: Global, images: &[Image]) -> Result<World<MemStable>, AllocError>
    requires some { 1 ≤ length images.now }
    requires few { length images.now ≤ MAX_PROCESSES }
    requires sizes { All IsProgram (map program_of images.now) }
    ensures begun { IfOk result (IsBegun (map program_of images.now)) }
    ensures size { IfOk result (λ world. process_count world.manager ≡ length images.now) }
{
    let stores = empty_stores(alloc, images.len())?;
    match World::start(alloc, images, stores) {
        Ok(world) => Ok(world),
        Err(fault) => Err(memory(fault)),
    }
}

// Returns the one fault that programs which can be loaded and stores which are empty leave.
fn memory(fault: StartFault) -> AllocError
    requires { fault ≡ StartFault.Memory }
{
    match fault {
        StartFault::Memory => AllocError,
        _ => unreachable!(),
    }
}

// Returns where a part of events ends that begins at a place: behind the next restart, or with the last event.
fn part_end(events: &[Event], from: usize) -> usize
    requires { from < length events.now }
    ensures more { from < result }
    ensures within { result ≤ length events.now }
    ensures only { (i : ℕ) → from ≤ i → i + 1 < result → slice_get events.now i ≢ Some Event.Restart }
{
    for at in from..events.len() {
        if events[at] == Event::Restart {
            return at + 1;
        }
    }
    events.len()
}

// Plays events of which a restart can only be the last, over stores that never fail, and writes a line for each.
fn play_part(
    alloc: Global,
    text: &mut String,
    world: &mut World<MemStable>,
    events: &[Event],
) -> Result<(), AllocError>
    requires known { IsKnown world.old }
    requires part { EndsPart events.now }
    ensures told { OnOk result (ArePlayed world.old events.now world.new (string_bytes text.old) (string_bytes text.new)) }
    ensures known { IsKnown world.new }
    ensures size { process_count world.new.manager ≡ process_count world.old.manager }
{
    let answers = world.play(alloc, events)?;
    push_answers(text, &answers, &world.manager().recovery())
}

// Plays events over stores that never fail, and writes a line for each.
fn play(
    alloc: Global,
    text: &mut String,
    world: &mut World<MemStable>,
    events: &[Event],
) -> Result<(), AllocError>
    requires { IsKnown world.old }
    ensures told { OnOk result (ArePlayed world.old events.now world.new (string_bytes text.old) (string_bytes text.new)) }
    ensures known { IsKnown world.new }
    ensures size { process_count world.new.manager ≡ process_count world.old.manager }
{
    let mut done = 0;
    while done < events.len() {
        let next = part_end(events, done);
        play_part(alloc, text, world, &events[done..next])?;
        done = next;
    }
    Ok(())
}
