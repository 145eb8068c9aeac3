//! What holds of the definitions alone.

ghost use Rattle.std.specs.Prelude.{IsTrue};
ghost use Rattle.sqlite.specs.Held.{state};
ghost use Rattle.sqlite.specs.Steps.{over_memory};
ghost use Rattle.sqlite_trees.specs.declared.memory.MemStore.{MemStore};
ghost use Rattle.om_tables.specs.Store.{Tables, is_sure};

/// Proves that a store in the tables of a database in memory is clean, whatever was done to it.
pub fn tables_in_memory_are_clean()
    ensures { (s : Tables MemStore) → IsTrue (is_sure (state over_memory s.connection)) }
{}
