//! Bytes of which few stand in place: what a message or an output carries is mostly a word or two.
//!
//! They take 16 bytes, and none elsewhere where they are 14 at most. A read costs a look at which of both they are. Nothing is trusted here.
//!
//! One module, `bytes`.
#![tactic(auto)]

pub use bytes::{Bytes, IN_PLACE};

mod bytes;
