//! One who may wish a stop while the process goes on.

ghost use Rattle.std.specs.Prelude.{◌≡◌};

use std::io::Read;

/// A reader whose other end may wish that a process stops which goes on.
pub trait Wish: Read {
    /// Tells whether a stop is wished, and takes the wish, so that it is told once. It waits for nothing, and what is known of the bytes
    /// that are to be read stays.
    fn is_there(&mut self) -> bool
        ensures { Self.remaining self.new ≡ Self.remaining self.old };
}

// Bytes that are there from the start: nobody wishes anything.
impl Wish for &[u8] {
    fn is_there(&mut self) -> bool {
        false
    }
}
