//! What a process does with its store, and what it tells the manager: each act once, for a world of one thread and for a worker
//! under the board's lock.
//!
//! An act costs what the calls of the process, of its store and of the manager cost. A store is trusted as far as it says that it is
//! clean.
//!
//! In an order of reading: `manager_access` (the manager as a process reaches it), `own_rows` and `telling` (rows), `handed` and `handing` (outputs), `batch` (what
//! is stored at once), `member` (a process with its store, and all that it does).
#![tactic(auto)]

pub use batch::Batch;
pub use handed::HandedOutput;
pub use handing::{hand_all, hand_in};
pub use manager_access::ManagerAccess;
pub use member::{Member, MemberState, NotIn, NotUp};
pub use own_rows::OwnRows;
pub use telling::{note, note_at_once, tell_all};

mod batch;
mod handed;
mod handing;
mod manager_access;
mod member;
mod own_rows;
mod telling;
