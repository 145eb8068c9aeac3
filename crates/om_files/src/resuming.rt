//! Stores in the tables of databases that an earlier run may have left.

use crate::connecting::{Connects, refusal_of};
use om_interval::Pid;
use om_runner::{OpenFault, Opener};
use om_tables::{CachingLedger, SqlLedger};
use std::alloc::Global;

/// Takes up the stores that an earlier run left in the databases, and makes those that are not there, with tables for what a run
/// needs that takes them up again. What is read of one first is kept until it is read again or changed: a run reads the receipts
/// that it finds twice, to tell what they stand for and to replay them.
#[derive(Debug, Drop)]
pub struct TakenUp<C> {
    pub connects: C,
}

impl<R, C: Connects> Opener<R> for TakenUp<C> {
    type Store = CachingLedger<SqlLedger<C::Disk>>;

    fn make(
        &self,
        _rt: &R,
        alloc: Global,
        pid: Pid,
    ) -> Result<CachingLedger<SqlLedger<C::Disk>>, OpenFault> {
        let conn = self.connects.connect(alloc, pid)?;
        match SqlLedger::take_up(alloc, conn) {
            Ok(store) => Ok(CachingLedger::new(store)),
            Err((error, _conn)) => Err(refusal_of(error)),
        }
    }

    fn is_slow(&self) -> bool {
        true
    }

    fn resumes(&self) -> bool {
        true
    }
}
