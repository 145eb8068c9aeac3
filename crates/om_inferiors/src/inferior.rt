//! A process among others.

use om_debug::Debugger;

/// A process among others of its record.
#[derive(Drop)]
pub struct Inferior {
    /// Its number, from 1 on.
    pub number: u32,
    /// Its name.
    pub name: String,
    /// The file with the symbols of its program, where one is known.
    pub file: Option<String>,
    /// The process, and where it is to stop.
    pub debugger: Debugger,
}
