//! The keys of rows as bytes and as packed numbers.
ghost use Rattle.std.specs.Prelude.{◌≡◌, ◌<◌, ◌+◌, ◌*◌, ◌^◌, ◌≤◌, ◌++◌, All, get_or, length, map, true, OnOk};
ghost use Rattle.agg_meaning.specs.Feeds.{AreValues};
ghost use Rattle.agg_terms.specs.Trees.{IsValue};
ghost use Rattle.agg_terms.specs.Values as values;
ghost use Rattle.agg_typing.specs.Kinds.{is_number_or_text};
ghost use Rattle.key_columns.specs.Words.{key_tuple, key_values};
ghost use Rattle.key_methods.specs.KeyBytes as spec;
ghost use Rattle.key_methods.specs.Kinds.{AreKeyTypes};
ghost use Rattle.typed_columns.specs.Items.{item_value};
ghost use Rattle.value_types.specs.Folds.{ty_of, value_of};

use key_methods::{number_width, number_word, write_number, write_text};
use typed_columns::{Column, Item};
use value_types::{OutOfMemory, Ty};

/// The bytes of a String, and none of another value. What stands in memory is shorter than 2^64 bytes.
#[inline]
#[tactic(auto, using(value_types::proofs::FoldLaws::value_laws))]
pub fn text_in<'a>(item: Item<'a>) -> &'a [u8]
    ensures text { result.now ≡ spec.text_of (value_of (item_value item.entry)) }
    ensures short { spec.IsShort (value_of (item_value item.entry)) }
{
    match item {
        Item::Bytes(bytes) => {
            let _count = bytes.len();
            bytes
        }
        _ => &[],
    }
}

/// The number that a number's bytes spell.
#[tactic(auto, using(key_methods::proofs::Numbers::number_laws, value_types::proofs::FoldLaws::value_laws, crate::proofs::KeyRows::word_laws))]
pub(crate) fn word_in(ty: &Ty, item: Item<'_>) -> u64
    requires { IsValue (ty_of ty.now) (value_of (item_value item)) }
    ensures { result ≡ spec.word_of (ty_of ty.now) (value_of (item_value item.entry)) }
{
    match item {
        Item::Num(number) => number_word(ty, number),
        _ => 0,
    }
}

/// Lends the value that a row has in the key column of a number.
#[inline]
pub(crate) fn key_item<'a>(columns: &'a [Column], keys: &[u32], i: usize, row: usize) -> Item<'a>
    requires i { i < length keys.now }
    requires keys { All (λ k. k < length columns.now) keys.now }
    requires within { All (λ c. row < length c.values) columns.now }
    ensures { item_value result ≡ get_or (key_values columns.now keys.now row) i (item_value result) }
{
    columns[keys[i] as usize].item(row)
}

/// Whether a value is NULL.
#[tactic(auto, using(value_types::proofs::FoldLaws::value_laws))]
fn is_null(item: Item<'_>) -> bool
    ensures { result ≡ values.is_null (value_of (item_value item.entry)) }
{
    match item {
        Item::Nil => true,
        _ => false,
    }
}

/// Writes a value that stands in a column behind others.
#[tactic(auto, using(value_types::proofs::FoldLaws::ty_laws, key_methods::proofs::Fronts::not_null))]
fn write_item(out: &mut Vec<u8>, ty: &Ty, item: Item<'_>) -> Result<(), OutOfMemory>
    requires ty { is_number_or_text (ty_of ty.now) ≡ true }
    requires value { IsValue (ty_of ty.now) (value_of (item_value item)) }
    ensures { OnOk result (out.new.items ≡ out.old.items ++ spec.value_bytes (ty_of ty.now) (value_of (item_value item.entry))) }
{
    match ty {
        Ty::Str => write_text(out, text_in(item)),
        Ty::Nullable(of) => {
            if is_null(item) {
                out.push(0)?;
                return Ok(());
            }
            out.push(1)?;
            write_item(out, of.get(), item)
        }
        _ => write_number(out, word_in(ty, item), number_width(ty)),
    }
}

/// Writes the bytes of a row's key behind others: its value in each key column. `keys` are the numbers of the key
/// columns among these, and `types` their types.
///
/// # Errors
///
/// [`OutOfMemory`] where there is no room.
pub fn write_row(
    out: &mut Vec<u8>,
    types: &[Ty],
    columns: &[Column],
    keys: &[u32],
    row: usize,
) -> Result<(), OutOfMemory>
    requires types { AreKeyTypes types.now }
    requires keys { All (λ k. k < length columns.now) keys.now }
    requires within { All (λ c. row < length c.values) columns.now }
    requires values { AreValues (map ty_of types.now) (key_tuple columns.now keys.now row) }
    ensures bytes { OnOk result (out.new.items ≡ out.old.items ++ spec.values_bytes (map ty_of types.now) (key_tuple columns.now keys.now row)) }
    ensures short { OnOk result (spec.AreShort (key_tuple columns.now keys.now row)) }
{
    for i in 0..types.len() {
        let item = key_item(columns, keys, i, row);
        let _text = text_in(item);
        write_item(out, &types[i], item)?;
    }
    Ok(())
}
