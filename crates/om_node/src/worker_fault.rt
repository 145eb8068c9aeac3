//! Why a worker cannot go on.

use om_manager::{FailError, JoinError, OutputError, RecordError};
use om_process::ReplayFault;
use om_recover::NoteError;
use om_stable::StoreError;
use std::alloc::AllocError;

/// Why a worker cannot go on.
#[derive(Clone, Copy)]
pub enum WorkerFault {
    /// Memory ran out.
    Memory,
    /// A store, a replay or the manager refused a call.
    Refused,
}

impl From<AllocError> for WorkerFault {
    fn from(_e: AllocError) -> WorkerFault {
        WorkerFault::Memory
    }
}

impl From<StoreError> for WorkerFault {
    fn from(error: StoreError) -> WorkerFault {
        match error {
            StoreError::Memory => WorkerFault::Memory,
            _ => WorkerFault::Refused,
        }
    }
}

impl From<ReplayFault> for WorkerFault {
    fn from(fault: ReplayFault) -> WorkerFault {
        match fault {
            ReplayFault::Memory => WorkerFault::Memory,
            _ => WorkerFault::Refused,
        }
    }
}

impl From<RecordError> for WorkerFault {
    fn from(error: RecordError) -> WorkerFault {
        match error {
            RecordError::Refused(NoteError::Memory) => WorkerFault::Memory,
            _ => WorkerFault::Refused,
        }
    }
}

impl From<OutputError> for WorkerFault {
    fn from(error: OutputError) -> WorkerFault {
        match error {
            OutputError::Memory => WorkerFault::Memory,
            _ => WorkerFault::Refused,
        }
    }
}

impl From<FailError> for WorkerFault {
    fn from(error: FailError) -> WorkerFault {
        match error {
            FailError::Memory => WorkerFault::Memory,
            _ => WorkerFault::Refused,
        }
    }
}

impl From<JoinError> for WorkerFault {
    fn from(error: JoinError) -> WorkerFault {
        match error {
            JoinError::Memory => WorkerFault::Memory,
            _ => WorkerFault::Refused,
        }
    }
}
