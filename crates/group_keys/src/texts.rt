//! Places of keys that are bytes.
ghost use Rattle.std.specs.Prelude.{◌≡◌, ◌<◌, ◌≤◌, ◌-◌, All, length, map, true, IfOk, OnOk};
ghost use Rattle.agg_terms.specs.Lists.{Each};
ghost use Rattle.group_keys.specs.Kinds.{is_bytes};
ghost use Rattle.group_keys.specs.proving.Texts.{same_bytes};
ghost use Rattle.key_columns.specs.Words.{AreKeyColumns, column_at, key_tuples};
ghost use Rattle.key_methods.specs.KeyBytes.{AreShort, bytes_by, only_text, values_bytes};
ghost use Rattle.key_methods.specs.Kinds.{AreKeyTypes, kind_of};
ghost use Rattle.table_words.specs.KeyLists.{keys_with, places_of};
ghost use Rattle.value_types.specs.Folds.{ty_of};

use crate::places::place_text;
use indexmap::IndexSet;
use key_columns::{text_in, write_row};
use key_methods::KeyKind;
use std::alloc::Global;
use std::collections::hash_map::RandomState;
use typed_columns::Column;
use value_types::{OutOfMemory, Ty};

/// The place of each row's key, where keys are bytes; a new one goes last.
pub(crate) fn place_texts(
    alloc: Global,
    set: &mut IndexSet<Vec<u8>, RandomState>,
    types: &[Ty],
    columns: &[Column],
    keys: &[u32],
    from: usize,
    to: usize,
) -> Result<Vec<u32>, OutOfMemory>
    requires kind { is_bytes (kind_of (map ty_of types.now)) ≡ true }
    requires types { AreKeyTypes types.now }
    requires order { from ≤ to }
    requires keys { All (λ k. k < length columns.now) keys.now }
    requires within { All (λ c. to ≤ length c.values) columns.now }
    requires columns { AreKeyColumns types.now columns.now keys.now from to }
    ensures keys { OnOk result (map (λ k. k.items) set.new.keys ≡ keys_with same_bytes (map (λ k. k.items) set.old.keys) (map (bytes_by (kind_of (map ty_of types.now)) (map ty_of types.now)) (key_tuples columns.now keys.now from (to - from)))) }
    ensures places { IfOk result (λ places. places.items ≡ places_of same_bytes (map (λ k. k.items) set.old.keys) (map (bytes_by (kind_of (map ty_of types.now)) (map ty_of types.now)) (key_tuples columns.now keys.now from (to - from)))) }
    ensures short { OnOk result (Each AreShort (key_tuples columns.now keys.now from (to - from))) }
{
    match KeyKind::of(types) {
        KeyKind::KeyString => place_strings(alloc, set, columns, keys, from, to),
        _ => place_written(alloc, set, types, columns, keys, from, to),
    }
}

/// The same where the key is a String: it is looked up where it stands.
fn place_strings(
    alloc: Global,
    set: &mut IndexSet<Vec<u8>, RandomState>,
    columns: &[Column],
    keys: &[u32],
    from: usize,
    to: usize,
) -> Result<Vec<u32>, OutOfMemory>
    requires one { length keys.now ≡ 1 }
    requires order { from ≤ to }
    requires keys { All (λ k. k < length columns.now) keys.now }
    requires within { All (λ c. to ≤ length c.values) columns.now }
    ensures keys { OnOk result (map (λ k. k.items) set.new.keys ≡ keys_with same_bytes (map (λ k. k.items) set.old.keys) (map only_text (key_tuples columns.now keys.now from (to - from)))) }
    ensures places { IfOk result (λ places. places.items ≡ places_of same_bytes (map (λ k. k.items) set.old.keys) (map only_text (key_tuples columns.now keys.now from (to - from)))) }
    ensures short { OnOk result (Each AreShort (key_tuples columns.now keys.now from (to - from))) }
{
    let key = keys[0];
    let column = &columns[key as usize];
    let mut places = Vec::with_capacity(alloc, to - from)?;
    for row in from..to {
        let text = text_in(column.item(row));
        places.push(place_text(alloc, set, text)?)?;
    }
    Ok(places)
}

/// The same where each value is written out.
fn place_written(
    alloc: Global,
    set: &mut IndexSet<Vec<u8>, RandomState>,
    types: &[Ty],
    columns: &[Column],
    keys: &[u32],
    from: usize,
    to: usize,
) -> Result<Vec<u32>, OutOfMemory>
    requires types { AreKeyTypes types.now }
    requires order { from ≤ to }
    requires keys { All (λ k. k < length columns.now) keys.now }
    requires within { All (λ c. to ≤ length c.values) columns.now }
    requires columns { AreKeyColumns types.now columns.now keys.now from to }
    ensures keys { OnOk result (map (λ k. k.items) set.new.keys ≡ keys_with same_bytes (map (λ k. k.items) set.old.keys) (map (values_bytes (map ty_of types.now)) (key_tuples columns.now keys.now from (to - from)))) }
    ensures places { IfOk result (λ places. places.items ≡ places_of same_bytes (map (λ k. k.items) set.old.keys) (map (values_bytes (map ty_of types.now)) (key_tuples columns.now keys.now from (to - from)))) }
    ensures short { OnOk result (Each AreShort (key_tuples columns.now keys.now from (to - from))) }
{
    let mut places = Vec::with_capacity(alloc, to - from)?;
    let mut bytes = Vec::new(alloc);
    for row in from..to {
        bytes.clear();
        write_row(&mut bytes, types, columns, keys, row)?;
        places.push(place_text(alloc, set, bytes.as_slice())?)?;
    }
    Ok(places)
}
