//! Different texts, each with its place.

ghost use Rattle.std.specs.Prelude.{◌≡◌, ◌≢◌, ◌++◌, ◌∷◌, [], All, IfSome, None, OnErr, OnOk, Some, slice_get};

use indexmap::IndexSet;
use std::alloc::{AllocError, Global};
use std::marker::Model;

// Different texts, in the order in which they came.
#[derive(Drop)]
pub(crate) struct Texts {
    texts: IndexSet<String>,
}

impl Model for Texts {
    ghost use Rattle.std.specs.Prelude.{ℕ, List, map};
    ghost use Rattle.std.specs.String.{string_bytes};

    ghost Value = { List (List ℕ) };

    ghost view = { λ t. map string_bytes t.texts.keys };
}

impl Texts {
    pub(crate) fn new(alloc: Global) -> Texts
        ensures { result ≡ [] }
    {
        Texts {
            texts: IndexSet::new(alloc),
        }
    }

    // Returns the place of a text, if it is there.
    pub(crate) fn place(&self, text: &str) -> Option<usize>
        ensures some { IfSome result (λ place. slice_get self.now place ≡ Some text.now) }
        ensures none { result ≡ None → All (λ other. other ≢ text.now) self.now }
    {
        self.texts.get_index_of(text)
    }

    // Adds a new text behind the others.
    pub(crate) fn add(&mut self, alloc: Global, text: &str) -> Result<(), AllocError>
        requires new { All (λ other. other ≢ text.now) self.old }
        ensures added { OnOk result (self.new ≡ self.old ++ text.now ∷ []) }
        ensures refused { OnErr result (self.new ≡ self.old) }
    {
        let text = String::from_str(alloc, text)?;
        match self.texts.insert(text) {
            Ok(_) => Ok(()),
            Err(_) => Err(AllocError),
        }
    }
}
