//! Rows that stand at a key of maps: -Map.
ghost use Rattle.std.specs.Prelude.{◌≡◌, ◌++◌, flat_map, IfOk, map, OnOk};
ghost use Rattle.agg_terms.specs.Values.{Nil};
ghost use Rattle.agg_meaning.specs.Feeds as feeds;
ghost use Rattle.agg_meaning.specs.Suffixes.{at_key};
ghost use Rattle.value_types.specs.Folds.{value_of};
ghost use Rattle.plain_rows.specs.Rows.{row_of, rows_of};
ghost use Rattle.plain_meaning.specs.proving.Images.{image_of};
ghost use Rattle.plain_meaning.specs.Inward.{all_row_keys, entry_row, entry_rows, keys_in, row_keys as keys_of, rows_at_key as at_key_of};

use crate::passed::last;
use agg_values::{OutOfMemory, Seq, Value, compare};
use plain_functions::different_values;
use std::alloc::Global;

/// The entries of a map, none of another value.
#[tactic(auto, using(crate::proofs::Rows::entries_at))]
fn entries(value: &Value) -> &[(Value, Value)]
    ensures { map image_of result.now ≡ feeds.entries_of (value_of value.now) }
{
    match value {
        Value::Pairs(entries) => entries.as_slice(),
        _ => &[],
    }
}

/// Adds the keys of the entries.
fn push_keys(
    alloc: Global,
    entries: &[(Value, Value)],
    into: &mut Seq<Value>,
) -> Result<(), OutOfMemory>
    ensures { OnOk result (map value_of into.new ≡ map value_of into.old ++ keys_in (map image_of entries.now)) }
{
    match entries {
        [] => Ok(()),
        [first, rest @ ..] => {
            into.push(first.0.copy(alloc)?)?;
            push_keys(alloc, rest, into)
        }
    }
}

/// Adds the keys of the map that is a row's last argument.
fn push_row_keys(alloc: Global, row: &[Value], into: &mut Seq<Value>) -> Result<(), OutOfMemory>
    ensures { OnOk result (map value_of into.new ≡ map value_of into.old ++ keys_in (feeds.entries_of (feeds.last Nil (row_of row.now)))) }
{
    let nil = Value::Nil;
    push_keys(alloc, entries(last(row, &nil)), into)
}

/// The keys of the maps that are the rows' last arguments.
#[tactic(auto, using(crate::proofs::Rows::more_laws))]
fn all_keys(alloc: Global, rows: &[Seq<Value>]) -> Result<Seq<Value>, OutOfMemory>
    ensures { IfOk result (λ keys. map value_of keys ≡ all_row_keys (rows_of rows.now)) }
{
    let mut keys = Seq::new(alloc);
    for row in rows {
        push_row_keys(alloc, row.as_slice(), &mut keys)?;
    }
    Ok(keys)
}

/// The different keys, ascending.
pub fn row_keys(alloc: Global, rows: &[Seq<Value>]) -> Result<Seq<Value>, OutOfMemory>
    ensures { IfOk result (λ keys. map value_of keys ≡ keys_of (rows_of rows.now)) }
{
    let keys = all_keys(alloc, rows)?;
    different_values(alloc, keys.as_slice())
}

/// Adds the values that stand at a key, each as a row.
fn push_at_key(
    alloc: Global,
    key: &Value,
    entries: &[(Value, Value)],
    into: &mut Seq<Seq<Value>>,
) -> Result<(), OutOfMemory>
    ensures { OnOk result (rows_of into.new ≡ rows_of into.old ++ at_key (value_of key.now) (map entry_row (map image_of entries.now))) }
{
    match entries {
        [] => Ok(()),
        [first, rest @ ..] => {
            if compare(key, &first.0).is_eq() {
                let mut row = Seq::new(alloc);
                row.push(first.1.copy(alloc)?)?;
                into.push(row)?;
            }
            push_at_key(alloc, key, rest, into)
        }
    }
}

/// Adds the values that stand at a key of the map that is a row's last argument.
fn push_row_at_key(
    alloc: Global,
    key: &Value,
    row: &[Value],
    into: &mut Seq<Seq<Value>>,
) -> Result<(), OutOfMemory>
    ensures { OnOk result (rows_of into.new ≡ rows_of into.old ++ at_key (value_of key.now) (entry_rows (row_of row.now))) }
{
    let nil = Value::Nil;
    push_at_key(alloc, key, entries(last(row, &nil)), into)
}

/// The values that stand at a key in the rows' maps, each as a row.
#[tactic(auto, using(crate::proofs::Rows::more_laws))]
pub fn rows_at_key(
    alloc: Global,
    key: &Value,
    rows: &[Seq<Value>],
) -> Result<Seq<Seq<Value>>, OutOfMemory>
    ensures { IfOk result (λ found. rows_of found ≡ at_key_of (value_of key.now) (rows_of rows.now)) }
{
    let mut found = Seq::new(alloc);
    for row in rows {
        push_row_at_key(alloc, key, row.as_slice(), &mut found)?;
    }
    Ok(found)
}
