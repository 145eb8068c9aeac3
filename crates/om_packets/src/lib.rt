//! Packets of gdb's remote protocol: bytes to packets, and packets to bytes.
//!
//! Nothing here is known of what a packet asks. In an order of reading: `packet` (a packet as it is written), `decoder` (bytes
//! that come one after another, and what they complete), `laws` (what is written is read back).
#![tactic(auto)]

mod decoder;
pub mod laws;
mod packet;

pub use decoder::{Decoder, DecoderState, Event, MAX_PACKET};
pub use packet::encode;
