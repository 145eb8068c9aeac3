//! Files with the symbols of programs.

ghost use Rattle.std.specs.Prelude.{◌≡◌, IfOk, IfErr, MatchBool, option_map, string_bytes};
ghost use Rattle.om_debug_command.specs.Symbols.{AreRun, IsRun, IsUnknown, file_if, file_of, program_at_place};
ghost use Rattle.om_debug_command.specs.declared.error.DebugError.TheVariants.{NoSuchName};

use crate::error::DebugError;
use om_scripts::Programs;
use std::alloc::{AllocError, Global};

/// The file that has the symbols of a program.
#[derive(Drop)]
pub struct Symbols {
    /// The name of the program.
    pub program: String,
    /// The name of the file, as gdb is told it.
    pub file: String,
}

// Returns the name of the file that is given for a program, if one is.
fn file_of(alloc: Global, symbols: &[Symbols], program: &str) -> Result<Option<String>, AllocError>
    ensures { IfOk result (λ file. option_map string_bytes file ≡ file_of program.now symbols.now) }
{
    for one in symbols {
        if program == one.program.as_str() {
            return Ok(Some(String::from_str(alloc, &one.file)?));
        }
    }
    Ok(None)
}

// Returns the name of the file that is given for the program of the process at a place, if one is.
pub(crate) fn file_for(
    alloc: Global,
    symbols: &[Symbols],
    programs: &Programs,
    place: usize,
) -> Result<Option<String>, AllocError>
    ensures { IfOk result (λ file. option_map string_bytes file ≡ file_if symbols.now (program_at_place programs.now place)) }
{
    match programs.program_of(place) {
        Some(program) => file_of(alloc, symbols, program),
        None => Ok(None),
    }
}

// Refuses a file for a program that no process runs.
pub(crate) fn check_known(programs: &Programs, symbols: &[Symbols]) -> Result<(), DebugError>
    ensures known { IfOk result (λ _. AreRun programs.now symbols.now) }
    ensures refused { IfErr result (λ error. (error ≡ NoSuchName) × IsUnknown programs.now symbols.now) }
{
    for one in symbols {
        if !is_run(programs, &one.program) {
            return Err(DebugError::NoSuchName);
        }
    }
    Ok(())
}

// Returns whether a process runs the program.
#[tactic(auto, using(crate::proofs::Knowing::not_run))]
fn is_run(programs: &Programs, program: &str) -> bool
    ensures { MatchBool result (IsRun programs.now program.now) (IsRun programs.now program.now → ⊥) }
{
    for process in 0..programs.n() {
        match programs.program_of(process) {
            Some(name) if name == program => return true,
            _ => {}
        }
    }
    false
}
