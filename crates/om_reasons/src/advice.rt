//! What may be done about faults.

ghost use Rattle.std.specs.Prelude.{◌≡◌};
ghost use Rattle.std.specs.Option.{option_map};
ghost use Rattle.om_reasons.specs.Sentences.{advice_text};

use om_commands::CommandError;

/// Returns what may be done about a fault. There is nothing to say of those of which a line of an input, or a store, is told anyway.
pub fn advice_on(error: CommandError) -> Option<&'static str>
    ensures { option_map (λ advice. advice.now) result ≡ advice_text error }
{
    match error {
        CommandError::TooLong => Some("an input has at most 16777216 bytes"),
        CommandError::EmptyScript => Some("the input names no process"),
        CommandError::NoCheckpoint | CommandError::MissingReceipt(_) => Some(
            "omlog show FILE says which intervals can be replayed",
        ),
        CommandError::Damaged(_) | CommandError::Mismatch(_) => Some(
            "the store was changed behind its run, or is of another process",
        ),
        CommandError::OutOfTurns => Some(
            "waits: a message that it needs never comes; runs: it needs more turns (--turns) or more instructions in each (the line fuel)",
        ),
        CommandError::NoThread => Some("each process runs in a thread of its own"),
        CommandError::NoMemory => Some(
            "the program may have no more memory: another limit (ulimit -v), or fewer and smaller processes",
        ),
        CommandError::CannotWrite => Some(
            "standard output cannot be written: is its disk full, or is it closed?",
        ),
        CommandError::CannotRead => Some("standard input cannot be read"),
        CommandError::Unlike => Some(
            "the threads did not do what their programs say: a fault of the machine, or of omlog; the run can be tried again, with --record to see what they did",
        ),
        CommandError::NoSuchProcess => Some(
            "the name behind --raw or --process stands in no line proc of the input",
        ),
        CommandError::StoreFault => Some(
            "a store failed as it was used (is its disk full?), or no process could be replayed from it: omlog show FILE says what of it is damaged",
        ),
        CommandError::StoreInUse(_)
        | CommandError::AnotherCluster(_)
        | CommandError::StoreMissing(_)
        | CommandError::Script(_)
        | CommandError::GateShut => None,
    }
}
