//! The names of files.

ghost use Rattle.std.specs.Prelude.{◌≡◌, ◌++◌, IfOk, codes, decimal, string_bytes};

use std::alloc::{AllocError, Global};
use std::fs;

/// Returns the name of the file of a process's store: a prefix, the number of the process, and `.db`. Refused where memory ran out.
pub fn store_of(alloc: Global, prefix: &str, process: usize) -> Result<String, AllocError>
    ensures { IfOk result (λ name. string_bytes name ≡ prefix.now ++ decimal process ++ codes ".db") }
{
    format!(in alloc; "{prefix}{process}.db")
}

/// Returns the name of the log that SQLite keeps beside a file. Refused where memory ran out.
pub fn log_of(alloc: Global, file: &str) -> Result<String, AllocError>
    ensures { IfOk result (λ name. string_bytes name ≡ file.now ++ codes "-wal") }
{
    format!(in alloc; "{file}-wal")
}

/// Says whether it is a file that has something in it.
pub fn is_written(rt: &HostRuntime, path: &str) -> bool {
    fs::metadata(rt, path).is_ok_and(|metadata| metadata.is_file() && metadata.len() > 0)
}
