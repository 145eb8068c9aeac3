//! Bytes, of which a few stand in place.

ghost use Rattle.std.specs.Prelude.{◌≡◌, ◌≤◌, [], IfOk, length, nat_eq};
ghost use Rattle.std.specs.Cmp.Lexicographic.{pointwise};
ghost use Rattle.std.specs.Cmp.Rules.{comparing};
ghost use Rattle.std.proofs.Common.{rules};
ghost use Rattle.om_bytes.specs.declared.bytes.TheConstants.{IN_PLACE};
ghost use Rattle.om_bytes.specs.steps.Kept.{AreKept, kept_bytes};

use std::alloc::{AllocError, Global};
use std::marker::Model;
use std::sync::Arc;

/// How many bytes stand in place at most.
pub const IN_PLACE: usize = 14;

// What is long stands behind a pointer, so that all take 16 bytes, and is shared by all copies.
#[derive(Debug, Drop)]
pub(crate) enum Kept {
    Short { count: u8, places: [u8; IN_PLACE] },
    Long(Arc<Vec<u8>>),
}

/// Bytes, any number of them. Up to `IN_PLACE` take no memory of their own.
#[derive(Debug, Drop)]
pub struct Bytes {
    kept: Kept,
}

impl Model for Bytes {
    ghost use Rattle.std.specs.Prelude.{List, ℕ};
    ghost use Rattle.om_bytes.specs.steps.Kept.{AreKept, kept_bytes};

    ghost Value = { List ℕ };

    ghost view = { λ b. kept_bytes b.kept };

    ghost invariant = { λ b. AreKept b.kept };
}

impl Bytes {
    /// Returns no bytes.
    pub fn empty() -> Bytes
        ensures { result ≡ [] }
    {
        Bytes {
            kept: Kept::Short {
                count: 0,
                places: [0; IN_PLACE],
            },
        }
    }

    /// Copies these bytes. Refused only where memory ran out.
    pub fn from_slice(alloc: Global, bytes: &[u8]) -> Result<Bytes, AllocError>
        ensures { IfOk result (λ copy. copy ≡ bytes.now) }
    {
        if bytes.len() <= IN_PLACE {
            return Ok(Bytes {
                kept: in_place(bytes),
            });
        }
        let long = Vec::from_slice(alloc, bytes)?;
        let kept = Kept::Long(Arc::new(alloc, long)?);
        Ok(Bytes { kept })
    }

    /// Returns the same bytes once more. Those that do not stand in place are shared. Refused only where there are too many copies to
    /// be counted.
    pub fn copy(&self, _alloc: Global) -> Result<Bytes, AllocError>
        ensures { IfOk result (λ copy. copy ≡ self.now) }
    {
        let kept = match &self.kept {
            Kept::Short { count, places } => Kept::Short {
                count: *count,
                places: *places,
            },
            Kept::Long(long) => Kept::Long(Arc::try_clone(long)?),
        };
        Ok(Bytes { kept })
    }

    /// Returns the bytes as a slice.
    pub fn as_slice(&self) -> &[u8]
        ensures { result.now ≡ self.now }
    {
        match &self.kept {
            Kept::Short { count, places } => &places[..*count as usize],
            Kept::Long(long) => long.as_slice(),
        }
    }
}

fn in_place(bytes: &[u8]) -> Kept
    requires { length bytes.now ≤ IN_PLACE }
    ensures bytes { kept_bytes result ≡ bytes.now }
    ensures kept { AreKept result }
{
    let mut places = [0; IN_PLACE];
    places[..bytes.len()].copy_from_slice(bytes);
    Kept::Short {
        count: bytes.len() as u8,
        places,
    }
}

impl PartialEq for Bytes {
    ghost eq = { pointwise nat_eq };

    ghost laws = { Prim.search (comparing, rules) };

    fn eq(&self, other: &Bytes) -> bool {
        self.as_slice() == other.as_slice()
    }
}

impl Eq for Bytes {
    ghost laws = { Prim.search (comparing, rules) };
}
