//! Why a run ended early.
use std::alloc::{AllocError, AllocFailed};
use std::io;
use value_types::OutOfMemory;

#[derive(Debug, Drop)]
pub enum RunFault {
    OutOfMemory,
    Io(io::Error),
}

impl From<OutOfMemory> for RunFault {
    fn from(_error: OutOfMemory) -> RunFault {
        RunFault::OutOfMemory
    }
}

impl From<AllocError> for RunFault {
    fn from(_error: AllocError) -> RunFault {
        RunFault::OutOfMemory
    }
}

impl<T: Drop> From<AllocFailed<T>> for RunFault {
    fn from(_error: AllocFailed<T>) -> RunFault {
        RunFault::OutOfMemory
    }
}

impl From<io::Error> for RunFault {
    fn from(error: io::Error) -> RunFault {
        RunFault::Io(error)
    }
}
