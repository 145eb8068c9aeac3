//! What is to happen to a world, by the words of a line.

ghost use Rattle.std.specs.Prelude.{◌≡◌, map};
ghost use Rattle.std.specs.Option.{ok_or};
ghost use Rattle.om_text.specs.Numbers.{long_number_of, number_of};
ghost use Rattle.om_text.specs.declared.error.LineError.{LineError};
ghost use Rattle.om_commands.specs.Events.{alone, event_line, event_of_two, flush_line, process_in};
ghost use Rattle.om_commands.specs.steps.Events.{event_at};
ghost use Rattle.om_world.specs.declared.event.Event.{Event};

use om_text::{LineError, long_number_of, number_of};
use om_world::Event;

// Reads the event of a line, by its first word and those behind it.
pub(crate) fn event_of(first: &[u8], words: &[&[u8]]) -> Result<Event, LineError>
    ensures { result ≡ event_line first.now (map (λ word. word.now) words.now) }
{
    if first == b"run".as_slice() {
        return run_of(words);
    }
    if first == b"give".as_slice() {
        return give_of(words);
    }
    if first == b"prune".as_slice() {
        return alone(words, Event::Prune);
    }
    if first == b"restart".as_slice() {
        return alone(words, Event::Restart);
    }
    event_at(first, words)
}

// Reads the event of a line that names a process alone.
fn event_at(first: &[u8], words: &[&[u8]]) -> Result<Event, LineError>
    ensures { result ≡ event_at first.now (map (λ word. word.now) words.now) }
{
    if first == b"flush".as_slice() {
        return flush_of(words);
    }
    if first == b"checkpoint".as_slice() {
        let process = process_in(words)?;
        return Ok(Event::Checkpoint { process });
    }
    if first == b"spell".as_slice() {
        let process = process_in(words)?;
        return Ok(Event::Spell { process });
    }
    if first == b"fail".as_slice() {
        let process = process_in(words)?;
        return Ok(Event::Fail { process });
    }
    if first == b"join".as_slice() {
        let process = process_in(words)?;
        return Ok(Event::Join { process });
    }
    if first == b"resume".as_slice() {
        let process = process_in(words)?;
        return Ok(Event::Resume { process });
    }
    if first == b"resend".as_slice() {
        let process = process_in(words)?;
        return Ok(Event::Resend { process });
    }
    if first == b"trim".as_slice() {
        let process = process_in(words)?;
        return Ok(Event::Trim { process });
    }
    Err(LineError::UnknownLine)
}

// Reads a flush of the whole log, or of so many receipts of it.
fn flush_of(words: &[&[u8]]) -> Result<Event, LineError>
    ensures { result ≡ flush_line (map (λ word. word.now) words.now) }
{
    if let [_] = words {
        let process = process_in(words)?;
        return Ok(Event::Flush { process });
    }
    let [process, count] = words else {
        return Err(LineError::WrongCount);
    };
    let process = place_of(process)?;
    let count = place_of(count)?;
    Ok(Event::FlushFirst { process, count })
}

// Reads the process that the one word stands for.
fn process_in(words: &[&[u8]]) -> Result<usize, LineError>
    ensures { result ≡ process_in (map (λ word. word.now) words.now) }
{
    let [word] = words else {
        return Err(LineError::WrongCount);
    };
    place_of(word)
}

// Reads the number of a process or a frame.
fn place_of(word: &[u8]) -> Result<usize, LineError>
    ensures { result ≡ ok_or (number_of word.now) LineError.BadNumber }
{
    match number_of(word) {
        Some(number) => Ok(number as usize),
        None => Err(LineError::BadNumber),
    }
}

fn run_of(words: &[&[u8]]) -> Result<Event, LineError>
    ensures { result ≡ event_of_two Event.Run long_number_of (map (λ word. word.now) words.now) }
{
    let [process, fuel] = words else {
        return Err(LineError::WrongCount);
    };
    let process = place_of(process)?;
    let Some(fuel) = long_number_of(fuel) else {
        return Err(LineError::BadNumber);
    };
    Ok(Event::Run { process, fuel })
}

fn give_of(words: &[&[u8]]) -> Result<Event, LineError>
    ensures { result ≡ event_of_two Event.Give number_of (map (λ word. word.now) words.now) }
{
    let [process, frame] = words else {
        return Err(LineError::WrongCount);
    };
    let process = place_of(process)?;
    let frame = place_of(frame)?;
    Ok(Event::Give { process, frame })
}

// Reads an event of the whole, which no word follows.
fn alone(words: &[&[u8]], event: Event) -> Result<Event, LineError>
    ensures { result ≡ alone event (map (λ word. word.now) words.now) }
{
    if !words.is_empty() {
        return Err(LineError::WrongCount);
    }
    Ok(event)
}
