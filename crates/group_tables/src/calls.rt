//! The columns of states of all calls.
ghost use Rattle.std.specs.Prelude.{◌≡◌, ◌<◌, ◌≤◌, ◌-◌, All, length, map, IfOk, OnOk};
ghost use Rattle.chain_states.specs.Calls.{argument_rows};
ghost use Rattle.state_columns.specs.Trees.{IsColumnOf, trees_in};
ghost use Rattle.group_tables.specs.Tables.{AreColumns};
ghost use Rattle.group_tables.specs.proving.Fed.{AreFed, IsFed, IsFresh, AreFresh};

use crate::grouping::GroupCall;
use state_columns::StateColumn;
use std::alloc::Global;
use typed_columns::Column;
use value_types::OutOfMemory;

/// A column of a call's states of no rows, this many.
fn fresh_column(alloc: Global, call: &GroupCall, count: usize) -> Result<StateColumn, OutOfMemory>
    ensures shape { IfOk result (λ column. IsColumnOf call.now.ready column) }
    ensures fresh { IfOk result (λ column. IsFresh call.now count (trees_in column)) }
{
    let mut column = StateColumn::new(alloc);
    column.widen(alloc, &call.ready, count)?;
    Ok(column)
}

/// For each call a column of states of no rows, this many.
pub(crate) fn fresh_columns(
    alloc: Global,
    calls: &[GroupCall],
    count: usize,
) -> Result<Vec<StateColumn>, OutOfMemory>
    ensures shape { IfOk result (λ columns. AreColumns calls.now columns.items) }
    ensures fresh { IfOk result (λ columns. AreFresh calls.now count (map trees_in columns.items)) }
{
    let mut columns = Vec::with_capacity(alloc, calls.len())?;
    for i in 0..calls.len() {
        columns.push(fresh_column(alloc, &calls[i], count)?)?;
    }
    Ok(columns)
}

/// Makes room for the states of so many groups, and feeds each row to the state at its place.
fn feed_call(
    alloc: Global,
    call: &GroupCall,
    states: &mut StateColumn,
    count: usize,
    places: &[u32],
    columns: &[Column],
    from: usize,
    to: usize,
) -> Result<(), OutOfMemory>
    requires shape { IsColumnOf call.now.ready states.old }
    requires room { length (trees_in states.old) ≤ count }
    requires places { All (λ p. p < count) places.now }
    requires order { from ≤ to }
    requires count { length places.now ≡ to - from }
    requires few { length call.now.columns ≤ 64 }
    requires columns { All (λ a. a < length columns.now) call.now.columns }
    requires within { All (λ c. to ≤ length c.values) columns.now }
    ensures shape { OnOk result (IsColumnOf call.now.ready states.new) }
    ensures rows { OnOk result (IsFed call.now count places.now (argument_rows columns.now call.now.columns from (to - from)) (trees_in states.old) (trees_in states.new)) }
{
    let more = count - states.len();
    states.widen(alloc, &call.ready, more)?;
    let arguments = call.columns.as_slice();
    states.feed(alloc, &call.ready, places, columns, arguments, from, to)
}

/// Feeds the rows to each call, over the whole stretch.
pub(crate) fn feed_calls(
    alloc: Global,
    calls: &[GroupCall],
    states: &mut Vec<StateColumn>,
    count: usize,
    places: &[u32],
    columns: &[Column],
    from: usize,
    to: usize,
) -> Result<(), OutOfMemory>
    requires shape { AreColumns calls.now states.old.items }
    requires room { All (λ s. length (trees_in s) ≤ count) states.old.items }
    requires places { All (λ p. p < count) places.now }
    requires order { from ≤ to }
    requires count { length places.now ≡ to - from }
    requires few { All (λ c. length c.columns ≤ 64) calls.now }
    requires columns { All (λ c. All (λ a. a < length columns.now) c.columns) calls.now }
    requires within { All (λ c. to ≤ length c.values) columns.now }
    ensures shape { OnOk result (AreColumns calls.now states.new.items) }
    ensures rows { OnOk result (AreFed calls.now count places.now columns.now from (to - from) (map trees_in states.old.items) (map trees_in states.new.items)) }
{
    for i in 0..calls.len() {
        let column = &mut states[i];
        feed_call(alloc, &calls[i], column, count, places, columns, from, to)?;
    }
    Ok(())
}
