//! What the program `omlog` does: the words of its command line are read, what they ask for is carried out, and it ends with a status.
//!
//! In an order of reading:
//!
//! - `answering`: what is asked for is answered, over a reader and a writer
//! - `looking`: looks into the stores of files; `exploring`: runs that are explored; `debugging`: a process of a record under gdb
//! - `carrying`: the words, the standard streams and the files, and the status
#![tactic(auto)]

mod answering;
mod carrying;
mod debugging;
mod exploring;
mod looking;

pub use answering::answer;
pub use carrying::{run, run_words};
