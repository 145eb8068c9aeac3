//! What a process did, as far as it was not rolled back.

/// What a process did, but for what was rolled back: by its image it is determined.
#[derive(Debug, Drop)]
pub struct Witness {
    /// The number of the sender of each receipt, in order. From each sender it is the next message.
    pub senders: Vec<u8>,
    /// How many instructions were finished.
    pub count: u64,
}
