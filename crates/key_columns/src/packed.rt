//! Keys of numbers as numbers: one number by its column, several side by side.
ghost use Rattle.std.specs.Prelude.{◌≡◌, ◌<◌, ◌≤◌, ◌-◌, All, length, map, true, IfOk};
ghost use Rattle.agg_meaning.specs.Feeds.{AreValues};
ghost use Rattle.key_columns.specs.Words.{AreKeyColumns, key_tuple, key_tuples};
ghost use Rattle.key_methods.specs.Figures.{worth};
ghost use Rattle.key_methods.specs.KeyBytes.{values_bytes};
ghost use Rattle.key_methods.specs.Kinds.{AreKeyTypes, fit_in};
ghost use Rattle.value_types.specs.Folds.{ty_of};

use crate::rows::{key_item, word_in};
use crate::words::column_words;
use key_methods::{Joined, behind, number_width};
use std::alloc::Global;
use typed_columns::Column;
use value_types::{OutOfMemory, Ty};

/// The keys of rows of one number, from row `from` on and below row `to`: the numbers that their bytes spell.
///
/// # Errors
///
/// [`OutOfMemory`] where there is no room for them.
pub fn key_words(
    alloc: Global,
    types: &[Ty],
    columns: &[Column],
    keys: &[u32],
    from: usize,
    to: usize,
) -> Result<Vec<u64>, OutOfMemory>
    requires one { length types.now ≡ 1 }
    requires plain { fit_in 8 (map ty_of types.now) ≡ true }
    requires types { AreKeyTypes types.now }
    requires order { from ≤ to }
    requires keys { All (λ k. k < length columns.now) keys.now }
    requires within { All (λ c. to ≤ length c.values) columns.now }
    requires columns { AreKeyColumns types.now columns.now keys.now from to }
    ensures { IfOk result (λ words. words.items ≡ map (λ vs. worth (values_bytes (map ty_of types.now) vs)) (key_tuples columns.now keys.now from (to - from))) }
{
    let key = keys[0];
    column_words(alloc, &types[0], &columns[key as usize], from, to)
}

/// The keys of rows of two numbers or more, of at most 16 bytes together, from row `from` on and below row `to`: the
/// numbers that their bytes spell.
///
/// # Errors
///
/// [`OutOfMemory`] where there is no room for them.
pub fn packed_words(
    alloc: Global,
    types: &[Ty],
    columns: &[Column],
    keys: &[u32],
    from: usize,
    to: usize,
) -> Result<Vec<u128>, OutOfMemory>
    requires plain { fit_in 16 (map ty_of types.now) ≡ true }
    requires types { AreKeyTypes types.now }
    requires order { from ≤ to }
    requires keys { All (λ k. k < length columns.now) keys.now }
    requires within { All (λ c. to ≤ length c.values) columns.now }
    requires columns { AreKeyColumns types.now columns.now keys.now from to }
    ensures { IfOk result (λ words. words.items ≡ map (λ vs. worth (values_bytes (map ty_of types.now) vs)) (key_tuples columns.now keys.now from (to - from))) }
{
    let mut words = Vec::with_capacity(alloc, to - from)?;
    for row in from..to {
        words.push(packed_row(types, columns, keys, row))?;
    }
    Ok(words)
}

/// The key of a row as one number.
fn packed_row(types: &[Ty], columns: &[Column], keys: &[u32], row: usize) -> u128
    requires plain { fit_in 16 (map ty_of types.now) ≡ true }
    requires types { AreKeyTypes types.now }
    requires keys { All (λ k. k < length columns.now) keys.now }
    requires within { All (λ c. row < length c.values) columns.now }
    requires values { AreValues (map ty_of types.now) (key_tuple columns.now keys.now row) }
    ensures { result ≡ worth (values_bytes (map ty_of types.now) (key_tuple columns.now keys.now row)) }
{
    let mut packed = Joined { word: 0, width: 0 };
    for i in 0..types.len() {
        let ty = &types[i];
        let item = key_item(columns, keys, i, row);
        packed = behind(packed, word_in(ty, item), number_width(ty));
    }
    packed.word
}
