//! Outcomes in words.
use crate::cases::Outcome;
use scalar_texts::StateFault;
use std::alloc::{AllocError, Global};

pub(crate) fn fault_words(alloc: Global, fault: StateFault) -> Result<String, AllocError> {
    match fault {
        StateFault::Short => String::from_str(alloc, "short"),
        StateFault::Version(byte) => format!(in alloc; "version {byte}"),
        StateFault::BadTag(at) => format!(in alloc; "tag at {at}"),
        StateFault::NotCanonical(at) => format!(in alloc; "not canonical at {at}"),
        StateFault::Long(at) => format!(in alloc; "long at {at}"),
    }
}

/// What a case comes to, as a case says what it wants.
pub(crate) fn outcome_words(
    alloc: Global,
    outcome: &Option<Outcome>,
) -> Result<String, AllocError> {
    match outcome {
        Some(Outcome::Read(_)) => String::from_str(alloc, "state"),
        Some(Outcome::Refused(fault)) => fault_words(alloc, *fault),
        None => String::from_str(alloc, "no case"),
    }
}
