//! Stores in the tables of databases. What takes or gives back a whole database is not inlined: several moves of one in a
//! function take the compiler a minute.

use om_tables::{SqlStable, TablesError};
use sqlite::{Alter, Connection};
use std::alloc::Global;
use std::process::Abort;

/// Makes a store over the connection, or takes the one that is there.
#[inline(never)]
pub fn store_over<S: Alter + Drop>(
    rt: &impl Abort,
    alloc: Global,
    conn: Connection<S>,
    is_new: bool,
) -> Result<SqlStable<S>, (TablesError, Connection<S>)> {
    assert!(rt; conn.is_autocommit());
    if is_new {
        SqlStable::create(alloc, conn)
    } else {
        SqlStable::adopt(alloc, conn)
    }
}

/// The store, where it was made or taken.
#[inline(never)]
pub fn expected<S: Alter + Drop>(
    rt: &impl Abort,
    store: Result<SqlStable<S>, (TablesError, Connection<S>)>,
) -> SqlStable<S> {
    match store {
        Ok(store) => store,
        Err((error, _conn)) => panic!(rt; "{error:?}"),
    }
}

/// Returns why it was not made or taken, and the connection.
#[inline(never)]
pub fn refused<S: Alter + Drop>(
    rt: &impl Abort,
    store: Result<SqlStable<S>, (TablesError, Connection<S>)>,
) -> (TablesError, Connection<S>) {
    match store {
        Ok(_) => panic!(rt; "made or taken"),
        Err(refused) => refused,
    }
}
