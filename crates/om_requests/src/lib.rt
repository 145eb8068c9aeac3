//! What packets of gdb's remote protocol ask.
//!
//! Only the packets that gdb sends to see processes of a record are known, and all others are unknown, to which the protocol
//! wants an empty answer. In an order of reading: `request` (what may be asked), `numbers` (the numbers of packets), `words` (the
//! words of a packet), `reading` (what a packet asks), `group` (what it asks of several processes), `answers` (the texts of registers and memory).
#![tactic(auto)]

mod answers;
mod group;
mod numbers;
mod reading;
mod request;
mod words;

pub use answers::{ERROR, memory_text, piece_text, registers_text, target_text};
pub use group::{GroupRequest, Whom, group_request_of};
pub use numbers::hex_number;
pub use reading::request_of;
pub use request::{Command, Request, Resume, Thread, Watch, Watched};
