//! Values by name.

ghost use Rattle.std.specs.Prelude.{◌≡◌, ◌++◌, ◌∷◌, [], None, Some, length, map, slice_get, OnOk, OnErr, MatchOption};
ghost use Rattle.om_scripts.specs.Named.{place_of};

use indexmap::IndexMap;
use std::alloc::{AllocError, Global};
use std::marker::Model;

/// Values by name, in the order in which they were named.
#[derive(Drop)]
pub struct Named<V> {
    entries: IndexMap<String, V>,
}

impl<V> Model for Named<V> {
    ghost use Rattle.std.specs.Prelude.{ℕ, List, map};
    ghost use Rattle.std.specs.String.{string_bytes};

    ghost Value = { List (List ℕ × V) };

    ghost view = { λ n. map (λ e. (string_bytes e.0, e.1)) n.entries.entries };
}

impl<V: Drop> Named<V> {
    pub fn new(alloc: Global) -> Named<V>
        ensures { result ≡ [] }
    {
        Named {
            entries: IndexMap::new(alloc),
        }
    }

    /// Returns how many names there are.
    pub fn len(&self) -> usize
        ensures { result ≡ length self.now }
    {
        self.entries.len()
    }

    /// Returns the place of a name, if it is there.
    pub fn place(&self, name: &str) -> Option<usize>
        ensures { result ≡ place_of name.now self.now }
    {
        self.entries.get_index_of(name)
    }

    /// Returns the name and the value at a place.
    pub fn get(&self, place: usize) -> Option<(&str, &V)>
        ensures { MatchOption result (slice_get self.now place ≡ None) (λ e. slice_get self.now place ≡ Some (e.0.now, e.1.now)) }
    {
        let (name, value) = self.entries.get_index(place)?;
        Some((name.as_str(), value))
    }

    // Adds a value by a new name behind the others.
    pub(crate) fn add(&mut self, alloc: Global, name: &str, value: V) -> Result<(), AllocError>
        requires new { place_of name.now self.old ≡ None }
        ensures added { OnOk result (self.new ≡ self.old ++ (name.now, value) ∷ []) }
        ensures refused { OnErr result (self.new ≡ self.old) }
    {
        let name = String::from_str(alloc, name)?;
        match self.entries.insert(name, value) {
            Ok(_) => Ok(()),
            Err(_) => Err(AllocError),
        }
    }
}
