//! Functions over the collected first arguments: groupArray and quantileExact.
ghost use Rattle.std.specs.Prelude.{◌≡◌, cond, IfOk, length, map};
ghost use Rattle.agg_terms.specs.Lists as lists;
ghost use Rattle.agg_terms.specs.Order as order;
ghost use Rattle.agg_meaning.specs.Functions as terms;
ghost use Rattle.value_types.specs.Folds.{value_of};
ghost use Rattle.plain_rows.specs.Rows.{row_of, rows_of};

use crate::sorted::ascending_values;
use agg_values::{OutOfMemory, Seq, Value};
use plain_rows::first_args;
use std::alloc::Global;

/// The level 1, in billionths.
const ALL: u32 = 1_000_000_000;

/// The first arguments in order, the first ones where there is a limit.
#[tactic(auto, using(crate::proofs::Places::kept_laws))]
pub fn kept(
    alloc: Global,
    most: &Option<u32>,
    rows: &[Seq<Value>],
) -> Result<Seq<Value>, OutOfMemory>
    ensures { IfOk result (λ values. map value_of values ≡ terms.at_most most.now (map terms.the_arg (rows_of rows.now))) }
{
    let mut values = first_args(alloc, rows)?;
    if let Some(most) = most {
        values.truncate(*most as usize);
    }
    Ok(values)
}

/// The place of the quantile among so many values in order.
#[tactic(auto, using(crate::proofs::Places::place_is))]
fn quantile_place(level: u32, count: usize) -> u128
    ensures { result ≡ terms.quantile_place level count }
{
    if level == ALL {
        count.saturating_sub(1) as u128
    } else {
        u128::from(level) * count as u128 / u128::from(ALL)
    }
}

/// The value at a place, NULL past the last one.
fn value_at(alloc: Global, values: &[Value], place: u128) -> Result<Value, OutOfMemory>
    ensures { IfOk result (λ value. value_of value ≡ terms.arg place (row_of values.now)) }
{
    if place < values.len() as u128 {
        values[place as usize].copy(alloc)
    } else {
        Ok(Value::Nil)
    }
}

/// The first arguments, ascending.
pub fn ascending_args(alloc: Global, rows: &[Seq<Value>]) -> Result<Seq<Value>, OutOfMemory>
    ensures { IfOk result (λ values. map value_of values ≡ order.ascending order.compare (map terms.the_arg (rows_of rows.now))) }
{
    let values = first_args(alloc, rows)?;
    ascending_values(alloc, values.as_slice())
}

/// The value at the quantile's place.
#[tactic(auto, using(crate::proofs::Places::empty_rows))]
pub fn quantile(
    alloc: Global,
    level: u32,
    rows: &[Seq<Value>],
    nothing: &Value,
) -> Result<Value, OutOfMemory>
    ensures { IfOk result (λ value. value_of value ≡ cond (lists.is_empty (rows_of rows.now)) (value_of nothing.now) (terms.arg (terms.quantile_place level (length (rows_of rows.now))) (order.ascending order.compare (map terms.the_arg (rows_of rows.now))))) }
{
    if rows.is_empty() {
        return nothing.copy(alloc);
    }
    let sorted = ascending_args(alloc, rows)?;
    value_at(alloc, sorted.as_slice(), quantile_place(level, rows.len()))
}
