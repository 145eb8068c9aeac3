//! Looks into the stores of files.

ghost use Rattle.std.specs.Prelude.{◌≡◌, ℕ, List, IfErr, OnOk};
ghost use Rattle.std.specs.Io.KnownBytes.{Appends, Keeps};
ghost use Rattle.om_commands.specs.Command.{IsSilent};
ghost use Rattle.om_commands.specs.Replay.{IsNoMatterOfContent};
ghost use Rattle.om_folding.specs.Folding.{folded};
ghost use Rattle.om_program.specs.Answers.{IsLookError, IsLookText, Writes};
ghost use Rattle.om_program.specs.steps.Looks.{IsLongText, is_short};

use om_arguments::Look;
use om_commands::{CommandError, write_answer};
use om_files::{fault_of, replay_file, show_bodies_file, show_file, steps_file};
use om_folding::fold_zero_rows;
use om_outcomes::Reasons;
use om_run_request::form_of;
use std::alloc::Global;
use std::io::Write;

// Writes what a look is to show. Of a store that failed the reason is added, where it is heard.
pub(crate) fn look_into<W: Write>(
    rt: &HostRuntime,
    look: Look<'_>,
    writer: &mut W,
    reasons: &mut Reasons,
) -> Result<(), CommandError>
    ensures text { OnOk result (Writes (IsLookText look.entry) (W.contents writer.old) (W.contents writer.new)) }
    ensures error { IfErr result (IsLookError look.entry) }
    ensures silent { IfErr result (λ error. IsSilent error (Keeps (W.contents writer.old) (W.contents writer.new))) }
{
    let outcome = look_at(rt, look, writer);
    if outcome == Err(CommandError::StoreFault) && reasons.are_heard {
        let file = file_of(look);
        reasons.add(file, fault_of(rt, file));
    }
    outcome
}

fn file_of<'a>(look: Look<'a>) -> &'a str {
    match look {
        Look::Show { file, .. } | Look::Replay { file, .. } | Look::Steps { file, .. } => file,
    }
}

// Writes what a look is to show. Where rows of zeros are to be folded, it is made whole before it is written.
fn look_at<W: Write>(rt: &HostRuntime, look: Look<'_>, writer: &mut W) -> Result<(), CommandError>
    ensures text { OnOk result (Writes (IsLookText look.entry) (W.contents writer.old) (W.contents writer.new)) }
    ensures error { IfErr result (IsLookError look.entry) }
    ensures silent { IfErr result (λ error. IsSilent error (Keeps (W.contents writer.old) (W.contents writer.new))) }
{
    if !is_short(look) {
        return look_long(rt, look, writer);
    }
    let mut text = Vec::new(rt.alloc());
    match look_long(rt, look, &mut text) {
        // Only memory refuses what is written there.
        Err(CommandError::CannotWrite) => Err(CommandError::NoMemory),
        Err(error) => Err(error),
        Ok(()) => write_folded(rt.alloc(), &text, writer),
    }
}

fn is_short(look: Look<'_>) -> bool
    ensures { result ≡ is_short look.entry }
{
    match look {
        Look::Show { .. } => false,
        Look::Replay { short, .. } | Look::Steps { short, .. } => short,
    }
}

fn write_folded<W: Write>(alloc: Global, text: &[u8], writer: &mut W) -> Result<(), CommandError>
    ensures text { OnOk result (Appends (W.contents writer.old) (W.contents writer.new) (folded text.now)) }
    ensures error { IfErr result IsNoMatterOfContent }
    ensures silent { IfErr result (λ error. IsSilent error (Keeps (W.contents writer.old) (W.contents writer.new))) }
{
    let short = fold_zero_rows(alloc, text)?;
    write_answer(writer, &short)
}

// Writes it with all rows.
fn look_long<W: Write>(rt: &HostRuntime, look: Look<'_>, writer: &mut W) -> Result<(), CommandError>
    ensures text { OnOk result (Writes (IsLongText look.entry) (W.contents writer.old) (W.contents writer.new)) }
    ensures error { IfErr result (IsLookError look.entry) }
    ensures silent { IfErr result (λ error. IsSilent error (Keeps (W.contents writer.old) (W.contents writer.new))) }
{
    match look {
        Look::Show { file, bodies: None } => show_file(rt, file, writer),
        Look::Show {
            file,
            bodies: Some(form),
        } => show_bodies_file(rt, file, form_of(form), writer),
        Look::Replay { file, interval, .. } => replay_file(rt, file, interval, writer),
        Look::Steps {
            file,
            interval,
            steps,
            traced,
            ..
        } => steps_file(rt, file, interval, steps, traced, writer),
    }
}
