//! What a message carries of its sender.

/// What a message carries of its sender: the sender's incarnation and the state interval in which it was sent.
#[derive(Clone, Copy, Debug, PartialEq, Eq, Hash)]
pub struct Tag {
    pub inc: u32,
    pub interval: u32,
}
