//! Entries that clauses alone know.

ghost use Rattle.std.specs.Prelude.{◌≡◌, ◌++◌, ◌∷◌, List, []};
ghost use Rattle.std.specs.Borrow.{ftrue};
ghost use Rattle.std.specs.Coded.{coded_list};
ghost use Rattle.om_world.specs.Live.{cut_list};
ghost use Rattle.om_world.specs.World.{entry_of};
ghost use Rattle.om_world.specs.declared.entry.Entry.{Entry};
ghost use Rattle.om_world.specs.steps.Codes.{coded_entry};

use om_format::Message;
use om_interval::DepVec;
use std::marker::Model;

// Entries in order. They take no bytes.
#[derive(Drop)]
pub(crate) struct Remembered {
    pub(crate) ghost entries: { List Entry } by { coded_list coded_entry },
}

impl Model for Remembered {
    ghost also_owns = { λ _. ftrue };
}

impl Remembered {
    // Remembers no entries.
    pub(crate) fn none() -> Remembered
        ensures { result.entries ≡ [] }
    {
        Remembered {}
    }

    // Remembers the same entries.
    pub(crate) fn copy(_before: &Remembered) -> Remembered
        ensures { result.entries ≡ _before.now.entries }
    {
        Remembered {}
    }

    // Remembers the entries, and behind them that of a message.
    pub(crate) fn longer(_before: &Remembered, _message: &Message) -> Remembered
        ensures { result.entries ≡ _before.now.entries ++ entry_of _message.now ∷ [] }
    {
        Remembered {}
    }

    // Remembers of each process its first entries, as many as the state says.
    pub(crate) fn cut(_before: &Remembered, _state: &DepVec) -> Remembered
        ensures { result.entries ≡ cut_list _state.now _before.now.entries }
    {
        Remembered {}
    }
}
