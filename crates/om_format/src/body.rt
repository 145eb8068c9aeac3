//! The bytes of a message or of an output.

ghost use Rattle.std.specs.Prelude.{◌≡◌, ℕ, ◌≤◌, [], List, IfOk, length, nat_eq};
ghost use Rattle.std.specs.Cmp.Lexicographic.{pointwise};
ghost use Rattle.std.specs.Cmp.Rules.{comparing};
ghost use Rattle.std.proofs.Common.{rules};
ghost use Rattle.om_format.specs.declared.limits.TheConstants.{MAX_BODY};

use crate::limits::MAX_BODY;
use om_bytes::Bytes;
use std::alloc::{AllocError, Global};
use std::marker::Model;

/// The bytes of a message or of an output: at most `MAX_BODY`.
#[derive(Debug, Drop)]
pub struct Body {
    bytes: Bytes,
}

impl Model for Body {
    ghost Value = { List ℕ };

    ghost view = { λ b. b.bytes };

    ghost invariant = { λ b. length b.bytes ≤ MAX_BODY };
}

impl Body {
    /// Makes the body without bytes.
    pub fn empty() -> Body
        ensures { result ≡ [] }
    {
        Body {
            bytes: Bytes::empty(),
        }
    }

    /// Makes a body of a copy of these bytes. Refused only where memory ran out.
    pub fn from_slice(alloc: Global, bytes: &[u8]) -> Result<Body, AllocError>
        requires { length bytes.now ≤ MAX_BODY }
        ensures { IfOk result (λ body. body ≡ bytes.now) }
    {
        let bytes = Bytes::from_slice(alloc, bytes)?;
        Ok(Body { bytes })
    }

    /// Returns the bytes of the body, at most `MAX_BODY`.
    pub fn as_slice(&self) -> &[u8]
        ensures bytes { result.now ≡ self.now }
        ensures within { length self.now ≤ MAX_BODY }
    {
        self.bytes.as_slice()
    }

    /// Copies the body. Long bytes are shared with the copy. Refused only where there are too many copies to be counted.
    pub fn copy(&self, alloc: Global) -> Result<Body, AllocError>
        ensures { IfOk result (λ copy. copy ≡ self.now) }
    {
        let bytes = self.bytes.copy(alloc)?;
        Ok(Body { bytes })
    }
}

impl PartialEq for Body {
    ghost eq = { pointwise nat_eq };

    ghost laws = { Prim.search (comparing, rules) };

    fn eq(&self, other: &Body) -> bool {
        self.as_slice() == other.as_slice()
    }
}

impl Eq for Body {
    ghost laws = { Prim.search (comparing, rules) };
}
