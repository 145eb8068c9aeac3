//! Why a connection is not taken as a store.

use crate::refusal::Refusal;
use thiserror::Error;

/// Why a connection was not taken as a store.
#[derive(Clone, Copy, Debug, PartialEq, Eq, Error)]
pub enum TablesError {
    /// It has a table, an index or a view.
    #[error("there are tables")]
    Present,
    /// It has not the two tables, or something beside them.
    #[error("the tables of a store are not there")]
    NoTables,
    /// The database refused a statement, or memory ran out.
    #[error("{0}")]
    Refused(Refusal),
}
