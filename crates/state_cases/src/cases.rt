//! One case: the bytes of a state, and what comes of them.
ghost use Rattle.state_codec.specs.Codec.{IsLegalState};
ghost use Rattle.value_types.specs.Folds.{ty_of};

use crate::changes::{Changes, all_changes};
use crate::fault::RunFault;
use scalar_texts::{StateFault, StateReadFault, StateReader, StateWriter};
use state_codec::Codec;
use std::alloc::Global;
use value_types::{Bytes, Ty};

/// What comes of the bytes of a case.
#[derive(Clone, Copy)]
pub(crate) enum Outcome {
    /// They are no state.
    Refused(StateFault),
    /// They are a state, which was written again.
    Read(Again),
}

/// What comes of bytes like those of a state.
#[derive(Clone, Copy)]
pub(crate) struct Again {
    /// Whether the state is written as the same bytes.
    pub(crate) is_written_back: bool,
    /// At how many places they can be cut so that they end too early.
    pub(crate) cut_short: usize,
    /// The fault of the bytes with 00 behind them.
    pub(crate) longer: Option<StateFault>,
    pub(crate) changes: Changes,
}

/// The bytes of the state that the bytes stand for.
pub(crate) fn written_back(alloc: Global, ty: &Ty, bytes: &[u8]) -> Result<Bytes, StateReadFault>
    requires { IsLegalState (ty_of ty.now) }
{
    let tree = Codec.read(alloc, ty, bytes)?;
    match Codec.write(alloc, ty, &tree) {
        Ok(written) => Ok(written),
        Err(_) => Err(StateReadFault::OutOfMemory),
    }
}

/// The fault of bytes; none where they are a state.
fn fault_of(alloc: Global, ty: &Ty, bytes: &[u8]) -> Result<Option<StateFault>, RunFault>
    requires { IsLegalState (ty_of ty.now) }
{
    match written_back(alloc, ty, bytes) {
        Ok(_) => Ok(None),
        Err(StateReadFault::Bad(fault)) => Ok(Some(fault)),
        Err(StateReadFault::OutOfMemory) => Err(RunFault::OutOfMemory),
    }
}

/// At how many places the bytes can be cut so that they end too early.
fn cut_short(alloc: Global, ty: &Ty, bytes: &[u8]) -> Result<usize, RunFault>
    requires { IsLegalState (ty_of ty.now) }
{
    let mut count = 0usize;
    for at in 0..bytes.len() {
        if fault_of(alloc, ty, &bytes[..at])? == Some(StateFault::Short) {
            count += 1;
        }
    }
    Ok(count)
}

/// The fault of the bytes with one more behind them.
fn longer(alloc: Global, ty: &Ty, bytes: &[u8]) -> Result<Option<StateFault>, RunFault>
    requires { IsLegalState (ty_of ty.now) }
{
    let mut more = Vec::from_slice(alloc, bytes)?;
    more.push(0)?;
    fault_of(alloc, ty, more.as_slice())
}

/// What comes of bytes like those of a state.
fn tried_again(
    alloc: Global,
    ty: &Ty,
    bytes: &[u8],
    is_written_back: bool,
) -> Result<Again, RunFault>
    requires { IsLegalState (ty_of ty.now) }
{
    Ok(Again {
        is_written_back,
        cut_short: cut_short(alloc, ty, bytes)?,
        longer: longer(alloc, ty, bytes)?,
        changes: all_changes(alloc, ty, bytes)?,
    })
}

/// What comes of bytes in a state type.
pub(crate) fn judge(alloc: Global, ty: &Ty, bytes: &[u8]) -> Result<Outcome, RunFault>
    requires { IsLegalState (ty_of ty.now) }
{
    match written_back(alloc, ty, bytes) {
        Ok(written) => {
            let is_written_back = written.as_slice() == bytes;
            Ok(Outcome::Read(tried_again(alloc, ty, bytes, is_written_back)?))
        }
        Err(StateReadFault::Bad(fault)) => Ok(Outcome::Refused(fault)),
        Err(StateReadFault::OutOfMemory) => Err(RunFault::OutOfMemory),
    }
}
