//! Each byte of a state changed to four others: the bytes are a state that is written the same again, or they are refused with a fault
//! that lies among them.
ghost use Rattle.state_codec.specs.Codec.{IsLegalState};
ghost use Rattle.value_types.specs.Folds.{ty_of};

use crate::cases::written_back;
use crate::fault::RunFault;
use scalar_texts::{StateFault, StateReadFault};
use std::alloc::Global;
use value_types::Ty;

/// How many changes led where.
#[derive(Clone, Copy)]
pub(crate) struct Changes {
    /// To bytes that are read and written the same again.
    pub(crate) read: u64,
    /// To a fault among the bytes.
    pub(crate) refused: u64,
    /// To anything else.
    pub(crate) wrong: u64,
}

/// Whether the fault lies among so many bytes, if it has a place.
fn is_among(fault: StateFault, length: usize) -> bool {
    match fault {
        StateFault::Short | StateFault::Version(_) => true,
        StateFault::BadTag(at) | StateFault::NotCanonical(at) | StateFault::Long(at) => {
            at < length as u64
        }
    }
}

/// Where one change led.
#[derive(Clone, Copy)]
enum Change {
    Read,
    Refused,
    Wrong,
}

/// Where a change led that gave these bytes.
fn change_of(alloc: Global, ty: &Ty, bytes: &[u8]) -> Result<Change, RunFault>
    requires { IsLegalState (ty_of ty.now) }
{
    match written_back(alloc, ty, bytes) {
        Ok(written) if written.as_slice() == bytes => Ok(Change::Read),
        Err(StateReadFault::Bad(fault)) if is_among(fault, bytes.len()) => Ok(Change::Refused),
        Err(StateReadFault::OutOfMemory) => Err(RunFault::OutOfMemory),
        _ => Ok(Change::Wrong),
    }
}

impl Changes {
    /// These and one more.
    fn with(self, change: Change) -> Changes {
        match change {
            Change::Read => Changes {
                read: self.read.saturating_add(1),
                ..self
            },
            Change::Refused => Changes {
                refused: self.refused.saturating_add(1),
                ..self
            },
            Change::Wrong => Changes {
                wrong: self.wrong.saturating_add(1),
                ..self
            },
        }
    }
}

/// The bytes with another one at a place.
fn with_byte(alloc: Global, bytes: &[u8], at: usize, byte: u8) -> Result<Vec<u8>, RunFault> {
    let mut changed = Vec::from_slice(alloc, bytes)?;
    match changed.get_mut(at) {
        Some(place) => *place = byte,
        None => {}
    }
    Ok(changed)
}

/// Where the changes of all bytes lead: each to the next one, to that with the other highest bit, to 00 and to FF.
pub(crate) fn all_changes(alloc: Global, ty: &Ty, bytes: &[u8]) -> Result<Changes, RunFault>
    requires { IsLegalState (ty_of ty.now) }
{
    let mut changes = Changes {
        read: 0,
        refused: 0,
        wrong: 0,
    };
    for at in 0..bytes.len() {
        let byte = bytes[at];
        for other in [byte.wrapping_add(1), byte ^ 0x80, 0x00, 0xff] {
            let changed = with_byte(alloc, bytes, at, other)?;
            changes = changes.with(change_of(alloc, ty, changed.as_slice())?);
        }
    }
    Ok(changes)
}
