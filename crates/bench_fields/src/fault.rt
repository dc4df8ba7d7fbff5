//! Why nothing was measured.
use std::io;

#[derive(Debug, Drop)]
pub enum BenchFault {
    OutOfMemory,
    Io(io::Error),
}

impl From<value_lists::OutOfMemory> for BenchFault {
    fn from(_error: value_lists::OutOfMemory) -> BenchFault {
        BenchFault::OutOfMemory
    }
}

impl From<io::Error> for BenchFault {
    fn from(error: io::Error) -> BenchFault {
        BenchFault::Io(error)
    }
}
