//! Types and rows that a link hands inward: -If, -Array, -Resample and -Distinct.
ghost use Rattle.std.specs.Prelude.{◌≡◌, ◌++◌, ◌∷◌, [], flat_map, IfOk, map, OnOk};
ghost use Rattle.agg_terms.specs.Lists as lists;
ghost use Rattle.agg_terms.specs.Types as types_in;
ghost use Rattle.agg_meaning.specs.Feeds as feeds;
ghost use Rattle.value_types.specs.Folds.{ty_of, value_of};
ghost use Rattle.plain_rows.specs.Rows.{row_of, rows_of};
ghost use Rattle.plain_meaning.specs.Inward.{element_rows as elements_of, first_live as first_live_of, is_above, met_row, met_rows as met_of};

use agg_values::{OutOfMemory, Seq, Ty, Value, element, map_item};
use plain_functions::first_rows;
use plain_rows::{copy_row, live_rows, push_rows, push_values};
use std::alloc::Global;

/// All types but the last.
pub fn front_types(types: &[Ty]) -> &[Ty]
    ensures { map ty_of result.now ≡ lists.front (map ty_of types.now) }
{
    match types {
        [] => types,
        [inner @ .., _] => inner,
    }
}

/// The types of the arrays' elements.
pub fn element_types(alloc: Global, types: &[Ty]) -> Result<Seq<Ty>, OutOfMemory>
    ensures { IfOk result (λ inner. map ty_of inner ≡ map types_in.element (map ty_of types.now)) }
{
    let mut inner = Seq::new(alloc);
    for ty in types {
        inner.push(element(ty).copy(alloc)?)?;
    }
    Ok(inner)
}

/// The types of the maps' values.
pub fn item_types(alloc: Global, types: &[Ty]) -> Result<Seq<Ty>, OutOfMemory>
    ensures { IfOk result (λ inner. map ty_of inner ≡ map types_in.map_part (map ty_of types.now)) }
{
    let mut inner = Seq::new(alloc);
    for ty in types {
        inner.push(map_item(ty).copy(alloc)?)?;
    }
    Ok(inner)
}

/// All values but the last.
pub fn front(row: &[Value]) -> &[Value]
    ensures { row_of result.now ≡ lists.front (row_of row.now) }
{
    match row {
        [] => row,
        [inner @ .., _] => inner,
    }
}

/// The last value; `nil`, which is NULL, where there is none.
pub fn last<'a>(row: &'a [Value], nil: &'a Value) -> &'a Value
    ensures { value_of result.now ≡ feeds.last (value_of nil.now) (row_of row.now) }
{
    match row {
        [] => nil,
        [first, rest @ ..] => last(rest, first),
    }
}

/// Whether a condition is met: a number above 0.
fn is_met(condition: &Value) -> bool
    ensures { result ≡ is_above (feeds.as_condition (value_of condition.now)) }
{
    match condition {
        Value::Num(number) => *number > 0,
        _ => false,
    }
}

/// Adds a row without its condition, which is its last argument, where that is met.
#[tactic(auto, using(crate::proofs::Rows::met_laws))]
fn push_met(alloc: Global, row: &[Value], into: &mut Seq<Seq<Value>>) -> Result<(), OutOfMemory>
    ensures { OnOk result (rows_of into.new ≡ rows_of into.old ++ met_row (row_of row.now)) }
{
    let nil = Value::Nil;
    if is_met(last(row, &nil)) {
        into.push(copy_row(alloc, front(row))?)?;
    }
    Ok(())
}

/// The rows whose condition is met, without it.
#[tactic(auto, using(crate::proofs::Rows::more_laws))]
pub fn met_rows(alloc: Global, rows: &[Seq<Value>]) -> Result<Seq<Seq<Value>>, OutOfMemory>
    ensures { IfOk result (λ met. rows_of met ≡ met_of (rows_of rows.now)) }
{
    let mut met = Seq::new(alloc);
    for row in rows {
        push_met(alloc, row.as_slice(), &mut met)?;
    }
    Ok(met)
}

/// The elements of an array, none of another value.
#[tactic(auto, using(crate::proofs::Rows::items_at))]
fn items(value: &Value) -> &[Value]
    ensures { row_of result.now ≡ feeds.items_of (value_of value.now) }
{
    match value {
        Value::List(items) => items.as_slice(),
        _ => &[],
    }
}

/// A row with one more value in front.
fn with_first(alloc: Global, first: &Value, rest: &[Value]) -> Result<Seq<Value>, OutOfMemory>
    ensures { IfOk result (λ row. row_of row ≡ value_of first.now ∷ row_of rest.now) }
{
    let mut row = Seq::new(alloc);
    row.push(first.copy(alloc)?)?;
    push_values(alloc, rest, &mut row)?;
    Ok(row)
}

/// Adds rows with one more value in front of each, as far as there are such values.
fn push_zipped(
    alloc: Global,
    items: &[Value],
    rows: &[Seq<Value>],
    into: &mut Seq<Seq<Value>>,
) -> Result<(), OutOfMemory>
    ensures { OnOk result (rows_of into.new ≡ rows_of into.old ++ feeds.zip_with (λ x r. x ∷ r) (row_of items.now) (rows_of rows.now)) }
{
    match items {
        [] => Ok(()),
        [item, others @ ..] => match rows {
            [] => Ok(()),
            [row, rest @ ..] => {
                into.push(with_first(alloc, item, row.as_slice())?)?;
                push_zipped(alloc, others, rest, into)
            }
        },
    }
}

/// Each value as a row.
fn single_rows(alloc: Global, values: &[Value]) -> Result<Seq<Seq<Value>>, OutOfMemory>
    ensures { IfOk result (λ rows. rows_of rows ≡ map (λ x. x ∷ []) (row_of values.now)) }
{
    let mut rows = Seq::new(alloc);
    for value in values {
        rows.push(with_first(alloc, value, &[])?)?;
    }
    Ok(rows)
}

/// The rows of elements at equal places of the arrays of a row, as far as the shortest goes.
pub fn tuples(alloc: Global, row: &[Value]) -> Result<Seq<Seq<Value>>, OutOfMemory>
    ensures { IfOk result (λ rows. rows_of rows ≡ feeds.tuples (row_of row.now)) }
{
    match row {
        [] => Ok(Seq::new(alloc)),
        [array] => single_rows(alloc, items(array)),
        [array, rest @ ..] => {
            let inner = tuples(alloc, rest)?;
            let mut rows = Seq::new(alloc);
            push_zipped(alloc, items(array), inner.as_slice(), &mut rows)?;
            Ok(rows)
        }
    }
}

/// The rows of elements of all rows.
#[tactic(auto, using(crate::proofs::Rows::more_laws))]
pub fn element_rows(alloc: Global, rows: &[Seq<Value>]) -> Result<Seq<Seq<Value>>, OutOfMemory>
    ensures { IfOk result (λ elements. rows_of elements ≡ elements_of (rows_of rows.now)) }
{
    let mut elements = Seq::new(alloc);
    for row in rows {
        let inner = tuples(alloc, row.as_slice())?;
        push_rows(alloc, inner.as_slice(), &mut elements)?;
    }
    Ok(elements)
}

/// The first occurrences of the rows that count.
pub fn first_live(alloc: Global, rows: &[Seq<Value>]) -> Result<Seq<Seq<Value>>, OutOfMemory>
    ensures { IfOk result (λ firsts. rows_of firsts ≡ first_live_of (rows_of rows.now)) }
{
    let live = live_rows(alloc, rows)?;
    first_rows(alloc, live.as_slice())
}
