//! Records in order, of which the first are dropped.

ghost use Rattle.std.specs.Prelude.{◌≡◌, ◌≤◌, ◌+◌, ◌++◌, ◌∷◌, [], drop, take, length, IfOk, OnOk, OnErr};
ghost use Rattle.om_stable.specs.Content.{bytes_of};
ghost use Rattle.om_stable.specs.steps.Pieces.{pieces, total};

use std::alloc::{AllocError, Global};
use std::marker::Model;

// Records in order, their bytes one behind the other. Those that were dropped from the front lie there until they are more than those
// that are left: so a record is moved once at most for each that is dropped.
#[derive(Debug, Drop)]
pub(crate) struct RecordList {
    bytes: Vec<u8>,
    // How many bytes each record has.
    lens: Vec<usize>,
    // How many records were dropped, and how many bytes they have.
    gone: usize,
    past: usize,
}

impl Model for RecordList {
    ghost use Rattle.std.specs.Prelude.{◌≡◌, ℕ, List, ◌+◌, ◌≤◌, drop, length};
    ghost use Rattle.om_stable.specs.steps.Pieces.{pieces, total};

    ghost Value = { List (List ℕ) };

    ghost view = { λ r. pieces (drop r.gone r.lens.items) (drop r.past r.bytes.items) };

    ghost invariant = { λ r. (r.gone ≤ length r.lens.items) × (r.past + total (drop r.gone r.lens.items) ≡ length r.bytes.items) };
}

impl RecordList {
    pub(crate) fn new(alloc: Global) -> Self
        ensures { result ≡ [] }
    {
        RecordList {
            bytes: Vec::new(alloc),
            lens: Vec::new(alloc),
            gone: 0,
            past: 0,
        }
    }

    pub(crate) fn len(&self) -> usize
        ensures { result ≡ length self.now }
    {
        self.lens.len() - self.gone
    }

    // Returns copies of `count` records from the `from`th on.
    pub(crate) fn copies(
        &self,
        alloc: Global,
        from: usize,
        count: usize,
    ) -> Result<Vec<Vec<u8>>, AllocError>
        requires { from + count ≤ length self.now }
        ensures { IfOk result (λ found. bytes_of found.items ≡ take count (drop from self.now)) }
    {
        let (lens, bytes) = (&self.lens[self.gone..], &self.bytes[self.past..]);
        let begin = begin_of(lens, bytes, from);
        copies_of(alloc, &lens[from..], &bytes[begin..], count)
    }

    // Adds a copy of the bytes behind the others.
    pub(crate) fn push(&mut self, bytes: &[u8]) -> Result<(), AllocError>
        ensures ok { OnOk result (self.new ≡ self.old ++ bytes.now ∷ []) }
        ensures err { OnErr result (self.new ≡ self.old) }
    {
        let size = self.bytes.len();
        self.bytes.extend_from_slice(bytes)?;
        if let Err(error) = self.lens.push(bytes.len()) {
            self.bytes.truncate(size);
            return Err(error.into());
        }
        Ok(())
    }

    // Adds copies of the records behind the others, all of them or none.
    pub(crate) fn push_all(&mut self, recs: &[Vec<u8>]) -> Result<(), AllocError>
        ensures ok { OnOk result (self.new ≡ self.old ++ bytes_of recs.now) }
        ensures err { OnErr result (self.new ≡ self.old) }
    {
        let before = self.len();
        for bytes in recs {
            if let Err(error) = self.push(bytes) {
                // What was put so far goes again, so the list is as it was.
                self.keep_front(before);
                return Err(error);
            }
        }
        Ok(())
    }

    // Keeps so many records at the front.
    pub(crate) fn keep_front(&mut self, count: usize)
        requires { count ≤ length self.old }
        ensures { self.new ≡ take count self.old }
    {
        let end = begin_of(&self.lens[self.gone..], &self.bytes[self.past..], count);
        self.lens.truncate(self.gone + count);
        self.bytes.truncate(self.past + end);
    }

    // Drops so many records from the front.
    pub(crate) fn drop_front(&mut self, count: usize)
        requires { count ≤ length self.old }
        ensures { self.new ≡ drop count self.old }
    {
        let size = begin_of(&self.lens[self.gone..], &self.bytes[self.past..], count);
        self.past += size;
        self.gone += count;
        if self.gone > self.lens.len() - self.gone {
            self.move_to_front();
        }
    }

    // Moves the records to the front.
    fn move_to_front(&mut self)
        ensures { self.new ≡ self.old }
    {
        let (count, size) = (self.lens.len(), self.bytes.len());
        self.lens.copy_within(self.gone..count, 0);
        self.lens.truncate(count - self.gone);
        self.bytes.copy_within(self.past..size, 0);
        self.bytes.truncate(size - self.past);
        self.gone = 0;
        self.past = 0;
    }
}

// Returns how many bytes the first `count` records of these lengths have, which stand one behind the other.
fn begin_of(lens: &[usize], bytes: &[u8], count: usize) -> usize
    requires count { count ≤ length lens.now }
    requires within { total lens.now ≤ length bytes.now }
    ensures { result ≡ total (take count lens.now) }
{
    let mut rest = bytes;
    for len in &lens[..count] {
        rest = &rest[*len..];
    }
    bytes.len() - rest.len()
}

// Returns copies of the first `count` records of these lengths, which stand one behind the other.
fn copies_of(
    alloc: Global,
    lens: &[usize],
    bytes: &[u8],
    count: usize,
) -> Result<Vec<Vec<u8>>, AllocError>
    requires count { count ≤ length lens.now }
    requires within { total lens.now ≤ length bytes.now }
    ensures { IfOk result (λ found. bytes_of found.items ≡ take count (pieces lens.now bytes.now)) }
{
    let mut rest = bytes;
    let mut found = Vec::new(alloc);
    for len in &lens[..count] {
        found.push(Vec::from_slice(alloc, &rest[..*len])?)?;
        rest = &rest[*len..];
    }
    Ok(found)
}
