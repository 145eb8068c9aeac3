//! Bytes that were read and nobody has taken yet.

ghost use Rattle.std.specs.Prelude.{◌≡◌, ◌∷◌, ◌<◌, ◌≤◌, ◌==◌, [], IfSome, drop, false, length, position, take, true};
ghost use Rattle.om_inbox.specs.Front.{reach, taken};
ghost use Rattle.om_inbox.specs.declared.front.TheConstants.{WISH};

use std::marker::Model;

// The byte with which a stop is wished.
pub(crate) const WISH: u8 = 3;

// Bytes in their order: seen are those that are left.
#[derive(Drop)]
pub(crate) struct Front {
    bytes: Vec<u8>,
    // How many of them are taken.
    at: usize,
}

impl Model for Front {
    ghost use Rattle.std.specs.Prelude.{ℕ, List, ◌≤◌, drop, length};

    ghost Value = { List ℕ };

    ghost view = { λ f. drop f.at f.bytes.items };

    ghost invariant = { λ f. f.at ≤ length f.bytes.items };
}

// Returns where the first wish stands.
fn wish_at(bytes: &[u8]) -> Option<usize>
    ensures place { result ≡ position (λ byte. byte == WISH) bytes.now }
    ensures within { IfSome result (λ at. at < length bytes.now) }
{
    bytes.iter().position(|byte| *byte == WISH)
}

// Returns how many may be taken at once, so that no wish is taken with others.
fn reach(bytes: &[u8]) -> usize
    ensures reach { result ≡ reach bytes.now }
    ensures within { result ≤ length bytes.now }
{
    match wish_at(bytes) {
        None => bytes.len(),
        Some(before) => before.max(1),
    }
}

impl Front {
    pub(crate) fn of(bytes: Vec<u8>) -> Front
        ensures { result ≡ bytes.items }
    {
        Front { bytes, at: 0 }
    }

    pub(crate) fn is_empty(&self) -> bool
        ensures none { result ≡ true → self.now ≡ [] }
        ensures left { result ≡ false → 1 ≤ length self.now }
    {
        self.at == self.bytes.len()
    }

    // Takes the first bytes, as many as there is room for, and no wish with others.
    pub(crate) fn read(&mut self, buf: &mut [u8]) -> usize
        ensures count { result ≡ taken self.old (length buf.old) }
        ensures taken { take result buf.new ≡ take result self.old }
        ensures left { self.new ≡ drop result self.old }
        ensures room { length buf.new ≡ length buf.old }
        ensures within { result ≤ length buf.new }
    {
        let left = &self.bytes[self.at..];
        let count = reach(left).min(buf.len());
        buf[..count].copy_from_slice(&left[..count]);
        self.at += count;
        count
    }

    // Takes a wish, where one is the first byte.
    pub(crate) fn takes_wish(&mut self) -> bool
        ensures taken { result ≡ true → self.old ≡ 3 ∷ self.new }
        ensures none { result ≡ false → self.new ≡ self.old }
    {
        match self.bytes.get(self.at) {
            Some(byte) if *byte == WISH => {
                self.at += 1;
                true
            }
            _ => false,
        }
    }
}
