//! Stores in files: a database for each process of a cluster, and the state of a process that is replayed from one.
//!
//! What the files hold is trusted to the system and to SQLite's log; what a connection to them answers is not: every clause
//! stands over any disk.
//!
//! - `connecting`: who opens the databases of a cluster, and the stores that are made in their tables; `resuming`: stores that an
//!   earlier run may have left
//! - `files`: the files that are named by a prefix; `opening`: how the database in one is opened, or made; `blaming`: which file a refused run could not use
//! - `copying`: what a file and its log hold, and the database of it, which is only read
//! - `looking`: the commands `replay` and `show` over a file
#![tactic(auto)]

mod blaming;
mod connecting;
mod copying;
mod files;
mod looking;
mod opening;
mod resuming;

pub use blaming::{Blame, FileFault, fault_of, first_unusable};
pub use connecting::{Connects, InTables};
pub use copying::bytes_of;
pub use files::Files;
pub use looking::{replay_file, show_bodies_file, show_file, steps_file};
pub use resuming::TakenUp;
