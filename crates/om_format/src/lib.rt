//! Messages, and the records of receipts and checkpoints as bytes: each record has one spelling, and each damage that the
//! format can show is named at its first byte.
//!
//! A record is written and read once from front to back; a memory is written by its pages that are not zero. Nothing is trusted
//! here.
//!
//! In an order of reading:
//!
//! - what is recorded: `body`, `message`, `queue`, `memory`, `receipt`, `head` and `checkpoint`
//! - the formats: `limits` (kinds, versions, limits), `version`, `error` (why bytes are no record), `laws`
//! - to bytes: `encoding`, `checkpoint_writing`
//! - from bytes: `decoding`, `reading` (fields from the left), `offsets` (where the parts of a checkpoint begin),
//!   `checkpoint_reading`, `queue_reading`, `memory_reading`
#![tactic(auto)]

pub use body::Body;
pub use checkpoint::Checkpoint;
pub use decoding::{decode_checkpoint, decode_receipt};
pub use encoding::{encode_checkpoint, encode_parts, encode_receipt};
pub use error::DecodeError;
pub use head::Head;
pub use limits::{MAX_BODY, MAX_PROCESSES_OF_VERSION_1};
pub use memory::MemoryBytes;
pub use message::Message;
pub use om_pages::PAGE;
pub use queue::{Queue, QueueEntry};
pub use receipt::Receipt;
pub use version::Version;

mod body;
mod checkpoint;
mod checkpoint_reading;
mod checkpoint_writing;
mod decoding;
mod encoding;
mod error;
mod head;
pub mod laws;
mod limits;
mod memory;
mod memory_reading;
mod message;
mod offsets;
mod queue;
mod queue_reading;
mod reading;
mod receipt;
mod version;
