//! The command `draw`: the picture of a world that is played.

ghost use Rattle.std.specs.Prelude.{◌≡◌, ◌≤◌, ◌⊎◌, ◌∷◌, [], ℕ, List, length, slice_index, take, IfSome, IfOk, IfErr, OnOk, string_bytes};
ghost use Rattle.std.specs.Io.KnownBytes.{Appends, Keeps};
ghost use Rattle.om_world.specs.Played.{Played};
ghost use Rattle.om_world.specs.World.{IsKnown};
ghost use Rattle.om_commands.specs.Command.{IsErrorOf, IsScript, IsSilent};
ghost use Rattle.om_picture.specs.Drawing.{IsSketchOf, sketch_of};
ghost use Rattle.om_draw_command.specs.Reading.{newly_handed};
ghost use Rattle.om_picture.specs.declared.column.TheConstants.{MOST_COLUMNS};
ghost use Rattle.om_text.specs.declared.text.TheConstants.{MAX_BYTES};
ghost use Rattle.om_draw_command.specs.Draw.{IsDrawn, IsPictureOf, IsPlayedPicture, event_lines};
ghost use Rattle.om_draw_command.specs.steps.Counting.{count_within};
ghost use Rattle.om_draw_command.specs.steps.Playing.{AreDrawn};
ghost use Rattle.om_commands.specs.Sim.{IsErrorOfSim};
ghost use Rattle.om_commands.specs.SimScript.{event_script_line, no_events};

use crate::reading::{play_step, standings_of};
use om_commands::sim::start;
use om_commands::{CommandError, SimScript, write_answer};
use om_picture::{MOST_NAME, Picture};
use om_scripts::{MAX_NAME, Programs};
use om_sheet::PlayedEvent;
use om_stable::MemStable;
use om_svg::picture_text;
use om_text::{numbered_lines, read_script, read_text};
use om_world::{Event, World};
use std::alloc::{AllocError, Global};
use std::io::{Read, Write};

// Each name has room.
const _: () = prove!(MAX_NAME <= MOST_NAME as usize);

/// The lines of a script whose events a picture shows.
#[derive(Clone, Copy)]
pub struct Window {
    /// The first one. What happened before it is played, and stands at the left side as it was.
    pub from: usize,
    /// The last one. What is behind it is not played.
    pub to: usize,
}

/// Reads a script of programs, processes and events whole, plays the events up to the window's last line over stores in
/// memory, and then writes a picture of those of the window.
pub fn draw<R: Read, W: Write>(
    alloc: Global,
    reader: &mut R,
    writer: &mut W,
    window: Window,
) -> Result<(), CommandError>
    ensures text { IfSome (R.remaining reader.old) (λ bytes. OnOk result ((text : List ℕ) × IsDrawn window.from window.to bytes text
        × Appends (W.contents writer.old) (W.contents writer.new) text)) }
    ensures error { IfSome (R.remaining reader.old) (λ bytes.
        IfErr result (IsErrorOfSim bytes)) }
    ensures silent { IfErr result (λ error. IsSilent error (Keeps (W.contents writer.old) (W.contents writer.new))) }
{
    let text = picture_of(alloc, reader, window)?;
    write_answer(writer, text.as_bytes())
}

// Makes the picture of the script of an input.
fn picture_of<R: Read>(
    alloc: Global,
    reader: &mut R,
    window: Window,
) -> Result<String, CommandError>
    ensures text { IfSome (R.remaining reader.old) (λ bytes. IfOk result (λ text. IsDrawn window.from window.to bytes (string_bytes text))) }
    ensures error { IfSome (R.remaining reader.old) (λ bytes.
        IfErr result (IsErrorOfSim bytes)) }
{
    let input = read_events(alloc, reader)?;
    let lines = event_lines(alloc, &input)?;
    let count = count_within(&lines, window.to);
    draw_script(alloc, &input.script, &lines, count, window.from)
}

// An input, and the script that it is.
#[derive(Drop)]
struct Input {
    bytes: Vec<u8>,
    script: SimScript,
}

// Reads an input and its script.
fn read_events<R: Read>(alloc: Global, reader: &mut R) -> Result<Input, CommandError>
    ensures script { IfSome (R.remaining reader.old) (λ bytes.
        IfOk result (λ input. (input.bytes.items ≡ bytes) × IsScript event_script_line no_events bytes input.script)) }
    ensures error { IfSome (R.remaining reader.old) (λ bytes.
        IfErr result (IsErrorOf event_script_line no_events (λ _. ⊥) bytes)) }
    ensures within { IfOk result (λ input. length input.bytes.items ≤ MAX_BYTES) }
{
    let bytes = read_text(alloc, reader)?;
    let script = read_script(alloc, &bytes, SimScript::new(alloc))?;
    Ok(Input { bytes, script })
}

// Returns the numbers of the lines of the events, which stand behind all others.
fn event_lines(alloc: Global, input: &Input) -> Result<Vec<usize>, AllocError>
    ensures { IfOk result (λ lines. lines.items ≡ event_lines input.now.bytes.items (length input.now.script.events)) }
{
    let lines = numbered_lines(alloc, &input.bytes)?;
    let head = lines.len().saturating_sub(input.script.events().len());
    Vec::from_slice(alloc, &lines[head..])
}

// Returns how many of these lines stand at this line or before it.
fn count_within(lines: &[usize], last: usize) -> usize
    ensures { result ≡ count_within lines.now last }
{
    lines.iter().filter(|line| **line <= last).count()
}

// Makes the picture of the first events of a script, so many, whose window begins at a line.
fn draw_script(
    alloc: Global,
    script: &SimScript,
    lines: &[usize],
    count: usize,
    from: usize,
) -> Result<String, CommandError>
    requires { count ≤ MOST_COLUMNS }
    ensures text { IfOk result (λ text. IsPictureOf script.now lines.now from count (string_bytes text)) }
    ensures error { IfErr result (λ error. (error ≡ CommandError.NoMemory)
        ⊎ ((error ≡ CommandError.EmptyScript) × (length script.now.cluster.processes ≡ 0))) }
{
    let programs = script.programs();
    if programs.n() == 0 {
        return Err(CommandError::EmptyScript);
    }
    let mut world = start(alloc, programs)?;
    Ok(played_picture(alloc, script, lines, count, from, &mut world)?)
}

// Makes the picture of the first events of a script, played from this world on.
fn played_picture(
    alloc: Global,
    script: &SimScript,
    lines: &[usize],
    count: usize,
    from: usize,
    world: &mut World<MemStable>,
) -> Result<String, AllocError>
    requires known { IsKnown world.old }
    requires few { count ≤ MOST_COLUMNS }
    ensures { IfOk result (λ text. IsPlayedPicture script.now lines.now from count world.old (string_bytes text)) }
{
    let programs = script.programs();
    let recovery = world.manager().recovery();
    let mut picture = Picture::new(alloc, recovery, longest(programs), from)?;
    let events = first_of(script.events(), count);
    play(alloc, world, events, lines, &mut picture)?;
    let lengths = name_lengths(alloc, programs)?;
    let end_states = standings_of(alloc, world, programs.n())?;
    let drawn = picture.end(alloc, &end_states, &lengths)?;
    picture_text(alloc, programs, &drawn)
}

// Returns the first events, so many.
fn first_of(events: &[Event], count: usize) -> &[Event]
    ensures { result.now ≡ take count events.now }
{
    &events[..count.min(events.len())]
}

// Plays events, and draws what each shows.
fn play(
    alloc: Global,
    world: &mut World<MemStable>,
    events: &[Event],
    lines: &[usize],
    picture: &mut Picture,
) -> Result<(), AllocError>
    requires known { IsKnown world.old }
    ensures drawn { (n first : ℕ) → IsSketchOf n first [] (sketch_of picture.old)
        → OnOk result (AreDrawn lines.now events.now n first world.old world.new (sketch_of picture.new)) }
    ensures known { IsKnown world.new }
{
    for k in 0..events.len() {
        let line = line_of(lines, k);
        let step = play_line(alloc, world, line, events[k])?;
        picture.draw(alloc, &step)?;
    }
    Ok(())
}

// Returns the number of the line of an event, and 0 where there is none.
fn line_of(lines: &[usize], k: usize) -> usize
    ensures { result ≡ slice_index lines.now k }
{
    match lines.get(k) {
        Some(line) => *line,
        None => 0,
    }
}

// Plays the event of a line over stores that never fail.
fn play_line(
    alloc: Global,
    world: &mut World<MemStable>,
    line: usize,
    event: Event,
) -> Result<PlayedEvent, AllocError>
    requires known { IsKnown world.old }
    ensures played { IfOk result (λ step. Played world.old (event ∷ []) (step.answer ∷ []) world.new) }
    ensures line { IfOk result (λ step. step.line ≡ line) }
    ensures event { IfOk result (λ step. step.event ≡ event) }
    ensures fresh { IfOk result (λ step. step.fresh ≡ newly_handed event step.answer world.old.manager world.new.manager) }
    ensures recovery { IfOk result (λ step. step.recovery ≡ world.new.manager.recovery) }
    ensures known { IsKnown world.new }
{
    play_step(alloc, world, line, event)
}

// Returns how many characters the names of the processes have.
fn name_lengths(alloc: Global, programs: &Programs) -> Result<Vec<u32>, AllocError> {
    let mut lengths = Vec::new(alloc);
    for p in 0..programs.n() {
        lengths.push(length_of(programs.name(p)))?;
    }
    Ok(lengths)
}

fn length_of(name: Option<&str>) -> u32 {
    u32::try_from(name.unwrap_or("").len()).unwrap_or(0)
}

// Returns how many characters the longest name of a process or of its program has.
fn longest(programs: &Programs) -> u32 {
    let mut longest = 0;
    for p in 0..programs.n() {
        longest = length_of(programs.name(p)).max(longest);
        longest = length_of(programs.program_of(p)).max(longest);
    }
    longest
}
