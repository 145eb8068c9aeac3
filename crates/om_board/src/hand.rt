//! What a pass of an inbox knows, in proofs alone.

use om_format::Message;
use std::collections::LinkedList;

/// What a pass of an inbox knows: what it may do, the pair of processes, and the messages that went through it, oldest
/// first. It stands in proofs alone, and no value of it is made.
pub struct Hand {
    pub puts: bool,
    pub takes: bool,
    pub from: u64,
    pub to: u64,
    pub put: LinkedList<Message>,
    pub taken: LinkedList<Message>,
}
