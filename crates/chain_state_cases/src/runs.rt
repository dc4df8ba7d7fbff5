//! A case run in every way.
ghost use Rattle.std.specs.Prelude.{◌<◌, ◌^◌, length};

use crate::cases::Case;
use crate::tables::{batch_of, types_in};
use crate::trial::Trial;
use crate::ways::Way;
use agg_defs::Call;
use chain_states::ReadyCall;
use columns::Batch;
use refusals::RequestFault;
use request_text::{Query, read_query};
use std::alloc::Global;
use value_types::OutOfMemory;

/// Where a case came out otherwise than it says.
#[derive(Clone, Copy, PartialEq, Eq)]
pub(crate) enum Difference {
    Nowhere,
    /// Its table or its call is refused, or there is not one call.
    NoCall,
    /// A row is refused.
    NoRows,
    In(Way),
}

/// The longest line of a table or of a call that is read.
const MOST_BYTES: usize = 1 << 20;

/// The first way in which a call comes to something else than is wanted.
fn first_difference(trial: &Trial<'_>) -> Result<Difference, OutOfMemory> {
    for way in Way::ALL {
        if !trial.goes_as_wanted(way)? {
            return Ok(Difference::In(way));
        }
    }
    Ok(Difference::Nowhere)
}

/// The same of a call over rows.
fn difference_over(
    alloc: Global,
    case: &Case,
    call: &Call,
    batch: &Batch,
) -> Result<Difference, OutOfMemory> {
    let ready = ReadyCall::new(alloc, &call.legal)?;
    let arguments = call.columns.as_slice();
    match Trial::new(
        alloc,
        case,
        &ready,
        batch.columns.as_slice(),
        arguments,
        batch.len(),
    ) {
        Some(trial) => first_difference(&trial),
        None => Ok(Difference::NoCall),
    }
}

/// The same of a call, whose rows are read.
fn difference_of(alloc: Global, case: &Case, call: &Call) -> Result<Difference, OutOfMemory>
    requires { length case.now.table.items < 2 ^ 32 }
{
    let Some(types) = types_in(alloc, &case.table)? else {
        return Ok(Difference::NoCall);
    };
    match batch_of(alloc, types.as_slice(), &case.rows)? {
        Some(batch) => difference_over(alloc, case, call, &batch),
        None => Ok(Difference::NoRows),
    }
}

/// The same of a query's only call.
fn difference_for(alloc: Global, case: &Case, query: &Query) -> Result<Difference, OutOfMemory>
    requires { length case.now.table.items < 2 ^ 32 }
{
    match query.plan.calls.as_slice() {
        [call] => difference_of(alloc, case, call),
        _ => Ok(Difference::NoCall),
    }
}

/// Where a case comes out otherwise than it says.
pub(crate) fn difference_in(alloc: Global, case: &Case) -> Result<Difference, OutOfMemory> {
    if case.table.len() > MOST_BYTES || case.select.len() > MOST_BYTES {
        return Ok(Difference::NoCall);
    }
    match read_query(alloc, &case.table, &case.select) {
        Ok(query) => difference_for(alloc, case, &query),
        Err(RequestFault::OutOfMemory) => Err(OutOfMemory),
        Err(RequestFault::Bad { line: _, why: _ }) => Ok(Difference::NoCall),
    }
}
