//! Why a run ended early.
use std::io;
use value_lists::OutOfMemory;

#[derive(Debug, Drop)]
pub enum RunFault {
    OutOfMemory,
    Io(io::Error),
}

impl From<OutOfMemory> for RunFault {
    fn from(_error: OutOfMemory) -> RunFault {
        RunFault::OutOfMemory
    }
}

impl From<io::Error> for RunFault {
    fn from(error: io::Error) -> RunFault {
        RunFault::Io(error)
    }
}
