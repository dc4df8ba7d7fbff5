//! Rows that stand at a place of arrays, or in an interval of keys: -ForEach and -Resample.
ghost use Rattle.std.specs.Prelude.{◌≡◌, ◌++◌, ◌<◌, ◌*◌, ◌^◌, ◌+ℤ◌, pos, IfOk, OnOk};
ghost use Rattle.agg_terms.specs.Types.{intervals};
ghost use Rattle.agg_meaning.specs.Feeds as feeds;
ghost use Rattle.value_types.specs.Folds.{value_of};
ghost use Rattle.plain_rows.specs.Rows.{row_of, rows_of};
ghost use Rattle.plain_meaning.specs.Inward.{key_inside, place_count as count_of, row_at, row_between, rows_at as at_of, rows_between as between_of, rows_inside as inside_of};

use crate::passed::{front, last, tuples};
use agg_values::{OutOfMemory, Seq, Value};
use plain_rows::copy_row;
use std::alloc::Global;

/// How many places there are: the length of the longest row's elements.
#[tactic(auto, using(crate::proofs::Rows::length_laws))]
pub fn place_count(alloc: Global, rows: &[Seq<Value>]) -> Result<usize, OutOfMemory>
    ensures { IfOk result (λ count. count ≡ count_of (rows_of rows.now)) }
{
    match rows {
        [] => Ok(0),
        [first, rest @ ..] => {
            let elements = tuples(alloc, first.as_slice())?;
            Ok(elements.len().max(place_count(alloc, rest)?))
        }
    }
}

/// Adds the row of elements at a place, where a row has one.
#[tactic(auto, using(crate::proofs::Rows::place_laws))]
fn push_row_at(
    alloc: Global,
    place: usize,
    row: &[Value],
    into: &mut Seq<Seq<Value>>,
) -> Result<(), OutOfMemory>
    ensures { OnOk result (rows_of into.new ≡ rows_of into.old ++ row_at place (row_of row.now)) }
{
    let elements = tuples(alloc, row)?;
    let elements = elements.as_slice();
    if place >= elements.len() {
        return Ok(());
    }
    let found = copy_row(alloc, elements[place].as_slice())?;
    into.push(found)
}

/// The rows of elements at a place.
#[tactic(auto, using(crate::proofs::Rows::more_laws))]
pub fn rows_at(
    alloc: Global,
    place: usize,
    rows: &[Seq<Value>],
) -> Result<Seq<Seq<Value>>, OutOfMemory>
    ensures { IfOk result (λ found. rows_of found ≡ at_of place (rows_of rows.now)) }
{
    let mut found = Seq::new(alloc);
    for row in rows {
        push_row_at(alloc, place, row.as_slice(), &mut found)?;
    }
    Ok(found)
}

/// Whether a key lies in an interval, by the interval's bounds.
fn is_inside(low: i128, high: i128, end: i64, key: &Value) -> bool
    ensures { result ≡ key_inside low high end (feeds.as_key (value_of key.now)) }
{
    match key {
        Value::Num(key) => low <= *key && *key < high && *key < i128::from(end),
        _ => false,
    }
}

/// Adds a row without its key, which is its last argument, where that lies in an interval.
fn push_between(
    alloc: Global,
    low: i128,
    high: i128,
    end: i64,
    row: &[Value],
    into: &mut Seq<Seq<Value>>,
) -> Result<(), OutOfMemory>
    ensures { OnOk result (rows_of into.new ≡ rows_of into.old ++ row_between low high end (row_of row.now)) }
{
    let nil = Value::Nil;
    if is_inside(low, high, end, last(row, &nil)) {
        into.push(copy_row(alloc, front(row))?)?;
    }
    Ok(())
}

/// The rows whose key lies in an interval, without it.
#[tactic(auto, using(crate::proofs::Rows::more_laws))]
fn rows_between(
    alloc: Global,
    low: i128,
    high: i128,
    end: i64,
    rows: &[Seq<Value>],
) -> Result<Seq<Seq<Value>>, OutOfMemory>
    ensures { IfOk result (λ found. rows_of found ≡ between_of low high end (rows_of rows.now)) }
{
    let mut found = Seq::new(alloc);
    for row in rows {
        push_between(alloc, low, high, end, row.as_slice(), &mut found)?;
    }
    Ok(found)
}

/// Where the interval of a number begins.
fn interval_start(start: i64, step: u64, place: u128) -> i128
    requires { place * step < 2 ^ 64 }
    ensures { result ≡ start +ℤ pos (place * step) }
{
    i128::from(start) + (place * u128::from(step)) as i128
}

/// The rows whose key lies in the interval of a number, without it.
#[tactic(auto, using(crate::proofs::Intervals::interval_laws))]
pub fn rows_inside(
    alloc: Global,
    start: i64,
    end: i64,
    step: u64,
    place: u128,
    rows: &[Seq<Value>],
) -> Result<Seq<Seq<Value>>, OutOfMemory>
    requires { place < intervals start end step }
    ensures { IfOk result (λ found. rows_of found ≡ inside_of start end step place (rows_of rows.now)) }
{
    let low = interval_start(start, step, place);
    rows_between(alloc, low, low + i128::from(step), end, rows)
}
