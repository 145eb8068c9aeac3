//! Rows in a list of any kind.

ghost use Rattle.std.specs.Prelude.{◌≡◌, ◌<◌, List, length, slice_get, Some};
ghost use Rattle.om_recover.specs.declared.row.Row.{Row};

use crate::row::Row;

/// Rows as a process lists them, however it keeps them.
pub trait RowList {
    /// The rows, in order.
    ghost rows: { Self → List Row };

    /// Returns how many there are.
    fn len(&self) -> usize
        ensures { result ≡ length (rows self.now) };

    /// Returns the row at a place.
    fn row(&self, place: usize) -> Row
        requires { place < length (rows self.now) }
        ensures { slice_get (rows self.now) place ≡ Some result };
}
