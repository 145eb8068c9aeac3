//! Stores in the tables of databases.

ghost use Rattle.std.specs.Prelude.{◌≡◌, ◌↔◌, IfOk, IsTrue};
ghost use Rattle.om_runner.specs.Reports.{nothing};
ghost use Rattle.om_tables.specs.Refusals.{out_of_memory};
ghost use Rattle.om_files.specs.Quiet.{IsIdle};

use om_interval::Pid;
use om_runner::{OpenFault, Opener};
use om_tables::{SqlStable, TablesError};
use sqlite::{Alter, Connection, Error, ErrorCode};
use std::alloc::Global;

/// Opens the database of each process.
pub trait Connects {
    type Disk: Alter + Send + Drop;

    /// A connection to the process's database. Refused, it says whether memory ran out.
    fn connect(&self, alloc: Global, pid: Pid) -> Result<Connection<Self::Disk>, OpenFault>
        ensures { IfOk result IsIdle };
}

/// Makes stores in the tables of databases that have nothing.
#[derive(Debug, Drop)]
pub struct InTables<C> {
    pub connects: C,
}

impl<R, C: Connects> Opener<R> for InTables<C> {
    type Store = SqlStable<C::Disk>;

    fn make(&self, _rt: &R, alloc: Global, pid: Pid) -> Result<SqlStable<C::Disk>, OpenFault> {
        let conn = match self.connects.connect(alloc, pid) {
            Ok(conn) => conn,
            Err(fault) => return Err(made_anew(fault)),
        };
        match SqlStable::create(alloc, conn) {
            Ok(store) => Ok(store),
            Err((error, _conn)) => Err(refusal_of(error)),
        }
    }

    fn is_slow(&self) -> bool {
        true
    }
}

// Returns why no store is made anew where its database is not opened: whoever else has it came between.
fn made_anew(fault: OpenFault) -> OpenFault
    ensures { (result ≡ OpenFault.Memory) ↔ (fault ≡ OpenFault.Memory) }
{
    match fault {
        OpenFault::Memory => OpenFault::Memory,
        OpenFault::Refused | OpenFault::InUse => OpenFault::Refused,
    }
}

// Returns why no store is made where its tables are refused.
pub(crate) fn refusal_of(error: TablesError) -> OpenFault
    ensures { (result ≡ OpenFault.Memory) ↔ (error ≡ TablesError.Refused out_of_memory) }
{
    match error {
        TablesError::Refused(refusal) => refusal_of_opening(&refusal.error()),
        TablesError::Present | TablesError::NoTables => OpenFault::Refused,
    }
}

/// Returns why no store is made where a database is not opened.
pub fn refusal_of_opening(error: &Error) -> OpenFault
    ensures { (result ≡ OpenFault.Memory) ↔ (error.now ≡ Error.SqliteFailure ErrorCode.OutOfMemory) }
{
    match error {
        Error::SqliteFailure(ErrorCode::OutOfMemory) => OpenFault::Memory,
        _ => OpenFault::Refused,
    }
}
