//! Why a case wasn't told.
use std::io;

#[derive(Debug, Drop)]
pub enum TestFault {
    OutOfMemory,
    /// The line is no case: a word is wrong, or a value isn't one of its type.
    NoCase,
    Io(io::Error),
}

impl From<value_types::OutOfMemory> for TestFault {
    fn from(_error: value_types::OutOfMemory) -> TestFault {
        TestFault::OutOfMemory
    }
}

impl From<std::alloc::AllocError> for TestFault {
    fn from(_error: std::alloc::AllocError) -> TestFault {
        TestFault::OutOfMemory
    }
}

impl From<io::Error> for TestFault {
    fn from(error: io::Error) -> TestFault {
        TestFault::Io(error)
    }
}
