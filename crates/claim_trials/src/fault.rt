//! Why a trial wasn't made.
use piece_claims::ClaimFault;
use std::alloc::{AllocError, AllocFailed};
use std::io;

#[derive(Debug, Drop)]
pub enum TrialFault {
    OutOfMemory,
    Words,
    Io(io::Error),
}

impl From<AllocError> for TrialFault {
    fn from(_error: AllocError) -> TrialFault {
        TrialFault::OutOfMemory
    }
}

impl<T: Drop> From<AllocFailed<T>> for TrialFault {
    fn from(_error: AllocFailed<T>) -> TrialFault {
        TrialFault::OutOfMemory
    }
}

impl From<io::Error> for TrialFault {
    fn from(error: io::Error) -> TrialFault {
        TrialFault::Io(error)
    }
}

/// A job that is to have no fault of its own had no memory.
impl From<ClaimFault<()>> for TrialFault {
    fn from(_fault: ClaimFault<()>) -> TrialFault {
        TrialFault::OutOfMemory
    }
}
