//! The commands `replay` and `show` over a file, which is only read: what it and its log hold is read first, and the rest is done over these
//! bytes.

ghost use Rattle.std.specs.Prelude.{ℕ, List, IfErr, OnOk};
ghost use Rattle.std.specs.Io.KnownBytes.{Appends, Keeps};
ghost use Rattle.om_commands.specs.Command.{IsSilent};
ghost use Rattle.om_commands.specs.Replay.{IsNoMatterOfContent, IsReplayError, IsReplayText};
ghost use Rattle.om_commands.specs.ReplaySteps.{IsStepsText};
ghost use Rattle.om_files.specs.Looked.{IsErrorOfFile, IsSoOfFile};
ghost use Rattle.om_look.specs.Show.{IsShown};
ghost use Rattle.om_look_commands.specs.Looks.{IsShownWithBodies};

use crate::copying::bytes_of;
use om_commands::{BytesForm, CommandError};
use om_look_commands::{replay_in, show_bodies_in, show_in, steps_in};
use std::io::Write;

/// Replays the process whose store is in a file to an interval, and writes its state, as [`replay_in`] does. A file that is not there, or
/// has nothing, is a `StoreFault`. Refused, nothing is written, unless it was the writer that refused.
pub fn replay_file<W: Write>(
    rt: &HostRuntime,
    file: &str,
    interval: u32,
    writer: &mut W,
) -> Result<(), CommandError>
    ensures text { OnOk result ((text : List ℕ) × IsSoOfFile (λ held. IsReplayText held interval text)
        × Appends (W.contents writer.old) (W.contents writer.new) text) }
    ensures error { IfErr result (IsErrorOfFile (λ held. IsReplayError held interval)) }
    ensures silent { IfErr result (λ error. IsSilent error (Keeps (W.contents writer.old) (W.contents writer.new))) }
{
    let bytes = bytes_of(rt, file)?;
    replay_in(rt.alloc(), &bytes, interval, writer)
}

/// Writes how the process goes on whose store is in a file, as [`steps_in`] does. A file that is not there, or has nothing, is a
/// `StoreFault`. Refused, nothing is written, unless it was the writer that refused.
pub fn steps_file<W: Write>(
    rt: &HostRuntime,
    file: &str,
    interval: u32,
    steps: u64,
    traced: bool,
    writer: &mut W,
) -> Result<(), CommandError>
    ensures text { OnOk result ((text : List ℕ) × IsSoOfFile (λ held. IsStepsText held interval steps traced text)
        × Appends (W.contents writer.old) (W.contents writer.new) text) }
    ensures error { IfErr result (IsErrorOfFile (λ held. IsReplayError held interval)) }
    ensures silent { IfErr result (λ error. IsSilent error (Keeps (W.contents writer.old) (W.contents writer.new))) }
{
    let bytes = bytes_of(rt, file)?;
    steps_in(rt.alloc(), &bytes, interval, steps, traced, writer)
}

/// Writes what the store in a file holds, as [`show_in`] does. A file that is not there, or has nothing, is a `StoreFault`. Refused, nothing
/// is written, unless it was the writer that refused.
pub fn show_file<W: Write>(rt: &HostRuntime, file: &str, writer: &mut W) -> Result<(), CommandError>
    ensures text { OnOk result ((text : List ℕ) × IsSoOfFile (λ held. IsShown held text)
        × Appends (W.contents writer.old) (W.contents writer.new) text) }
    ensures error { IfErr result IsNoMatterOfContent }
    ensures silent { IfErr result (λ error. IsSilent error (Keeps (W.contents writer.old) (W.contents writer.new))) }
{
    let bytes = bytes_of(rt, file)?;
    show_in(rt.alloc(), &bytes, writer)
}

/// Writes what the store in a file holds, with the bodies of messages, as [`show_bodies_in`] does. A file that is not there, or has nothing,
/// is a `StoreFault`. Refused, nothing is written, unless it was the writer that refused.
pub fn show_bodies_file<W: Write>(
    rt: &HostRuntime,
    file: &str,
    form: BytesForm,
    writer: &mut W,
) -> Result<(), CommandError>
    ensures text { OnOk result ((text : List ℕ) × IsSoOfFile (λ held. IsShownWithBodies form held text)
        × Appends (W.contents writer.old) (W.contents writer.new) text) }
    ensures error { IfErr result IsNoMatterOfContent }
    ensures silent { IfErr result (λ error. IsSilent error (Keeps (W.contents writer.old) (W.contents writer.new))) }
{
    let bytes = bytes_of(rt, file)?;
    show_bodies_in(rt.alloc(), &bytes, form, writer)
}
