//! What the lines of an answer are made of: the types of the results, and what each call means in a group.
ghost use Rattle.std.specs.Prelude.{◌≡◌, ◌<◌, ◌++◌, All, get_or, length, map, IfOk, OnOk};
ghost use Rattle.agg_meaning.specs.States.{MeansChain};
ghost use Rattle.agg_terms.specs.Values.{Empty};
ghost use Rattle.chain_states.specs.Calls.{chain_in, types_in};
ghost use Rattle.state_columns.specs.Trees.{IsColumnOf, trees_in};
ghost use Rattle.value_types.specs.Folds.{ty_of, value_of};
ghost use Rattle.group_tables.specs.Tables.{AreColumns};
ghost use Rattle.group_tables.specs.proving.Lines.{AddsValues, result_of};

use crate::grouping::GroupCall;
use state_columns::StateColumn;
use std::alloc::Global;
use value_types::{OutOfMemory, Seq, Ty, Value};

/// The type of a call's result.
fn result_type(alloc: Global, call: &GroupCall) -> Result<Ty, OutOfMemory>
    ensures { IfOk result (λ ty. ty_of ty ≡ result_of call.now) }
{
    call.ready.legal().result().copy(alloc)
}

/// Adds the types of the calls' results.
pub(crate) fn add_results(
    alloc: Global,
    calls: &[GroupCall],
    types: &mut Seq<Ty>,
) -> Result<(), OutOfMemory>
    ensures { OnOk result (map ty_of types.new ≡ map ty_of types.old ++ map result_of calls.now) }
{
    for i in 0..calls.len() {
        types.push(result_type(alloc, &calls[i])?)?;
    }
    Ok(())
}

/// What a call means by its state at a place.
fn call_value(
    alloc: Global,
    call: &GroupCall,
    column: &StateColumn,
    place: usize,
) -> Result<Value, OutOfMemory>
    requires shape { IsColumnOf call.now.ready column.now }
    requires place { place < length (trees_in column.now) }
    ensures { IfOk result (λ value. MeansChain (chain_in call.now.ready) (types_in call.now.ready) (get_or (trees_in column.now) place Empty) (value_of value)) }
{
    column.value(alloc, &call.ready, place)
}

/// Adds what each call means by its state at a place.
pub(crate) fn add_values(
    alloc: Global,
    calls: &[GroupCall],
    columns: &[StateColumn],
    place: usize,
    values: &mut Seq<Value>,
) -> Result<(), OutOfMemory>
    requires shape { AreColumns calls.now columns.now }
    requires place { All (λ s. place < length (trees_in s)) columns.now }
    ensures { OnOk result (AddsValues calls.now columns.now place (length calls.now) (map value_of values.old) (map value_of values.new)) }
{
    for i in 0..calls.len() {
        values.push(call_value(alloc, &calls[i], &columns[i], place)?)?;
    }
    Ok(())
}
