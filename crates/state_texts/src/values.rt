//! Values and tuples as bytes. Of a value that is none of its type what the definition says is written; no caller has one.
ghost use Rattle.std.specs.Prelude.{◌≡◌, ◌++◌, map, OnOk};
ghost use Rattle.agg_meaning.specs.Functions.{number};
ghost use Rattle.agg_values.specs.Peels.{peeled_types};
ghost use Rattle.value_types.specs.Folds.{ty_of, value_of};
ghost use Rattle.state_texts.specs.proving.Writing.{pair_text, pair_view};
ghost use Rattle.state_texts.specs.Texts.{bytes_of, items_of, list_text, pairs_of, row_text, value_text};

use crate::numbers::{put_bytes, put_count, put_number};
use agg_values::{Peels, peel};
use value_types::{OutOfMemory, Seq, Ty, Value, bare, is_nil};

#[tactic(auto, using(crate::proofs::Written::value_kinds))]
fn number_in(value: &Value) -> i128
    ensures { result ≡ number (value_of value.now) }
{
    match value {
        Value::Num(number) => *number,
        _ => 0,
    }
}

#[tactic(auto, using(crate::proofs::Written::value_kinds))]
fn bytes_in(value: &Value) -> &[u8]
    ensures { result.now ≡ bytes_of (value_of value.now) }
{
    match value {
        Value::Bytes(bytes) => bytes.as_slice(),
        _ => &[],
    }
}

#[tactic(auto, using(crate::proofs::Written::value_kinds))]
fn items_in(value: &Value) -> &[Value]
    ensures { map value_of result.now ≡ items_of (value_of value.now) }
{
    match value {
        Value::List(items) => items.as_slice(),
        _ => &[],
    }
}

#[tactic(auto, using(crate::proofs::Written::value_kinds))]
fn pairs_in(value: &Value) -> &[(Value, Value)]
    ensures { map pair_view result.now ≡ pairs_of (value_of value.now) }
{
    match value {
        Value::Pairs(pairs) => pairs.as_slice(),
        _ => &[],
    }
}

/// A value of the type.
#[cycle(put)]
#[tactic(auto, using(crate::proofs::Written::value_texts))]
pub(crate) fn put_value(ty: &Ty, value: &Value, out: &mut Vec<u8>) -> Result<(), OutOfMemory>
    ensures { OnOk result (out.new.items ≡ out.old.items ++ value_text (ty_of ty.now) (value_of value.now)) }
{
    match ty {
        Ty::U8 => put_number(number_in(value), 1, out),
        Ty::U16 => put_number(number_in(value), 2, out),
        Ty::U32 => put_number(number_in(value), 4, out),
        Ty::U64 => put_number(number_in(value), 8, out),
        Ty::I8 => put_number(number_in(value), 1, out),
        Ty::I16 => put_number(number_in(value), 2, out),
        Ty::I32 => put_number(number_in(value), 4, out),
        Ty::I64 => put_number(number_in(value), 8, out),
        Ty::Str => put_bytes(bytes_in(value), out),
        Ty::Arr(item) => put_values(item.get(), items_in(value), out),
        Ty::Map(_, _) => put_pairs(ty, pairs_in(value), out),
        Ty::Nullable(of) => {
            if is_nil(value) {
                out.push(0)?;
                return Ok(());
            }
            out.push(1)?;
            put_value(of.get(), value, out)
        }
        // A value of a state type stands in no body.
        Ty::State(_, _) => Ok(()),
    }
}

/// So many values of the type, behind their number.
#[cycle(put)]
pub(crate) fn put_values(ty: &Ty, values: &[Value], out: &mut Vec<u8>) -> Result<(), OutOfMemory>
    ensures { OnOk result (out.new.items ≡ out.old.items ++ list_text (value_text (ty_of ty.now)) (map value_of values.now)) }
{
    put_count(values.len() as u64, out)?;
    for value in values {
        put_value(ty, value, out)?;
    }
    Ok(())
}

/// So many entries of a map's type, behind their number.
#[cycle(put)]
fn put_pairs(ty: &Ty, pairs: &[(Value, Value)], out: &mut Vec<u8>) -> Result<(), OutOfMemory>
    ensures { OnOk result (out.new.items ≡ out.old.items ++ list_text (pair_text (ty_of ty.now)) (map pair_view pairs.now)) }
{
    put_count(pairs.len() as u64, out)?;
    for pair in pairs {
        put_pair(ty, pair, out)?;
    }
    Ok(())
}

/// An entry of a map's type.
#[cycle(put)]
#[tactic(auto, using(crate::proofs::Written::pair_texts))]
fn put_pair(ty: &Ty, pair: &(Value, Value), out: &mut Vec<u8>) -> Result<(), OutOfMemory>
    ensures { OnOk result (out.new.items ≡ out.old.items ++ pair_text (ty_of ty.now) (pair_view pair.now)) }
{
    match ty {
        Ty::Map(key, item) => {
            put_value(key.get(), &pair.0, out)?;
            put_value(item.get(), &pair.1, out)
        }
        _ => Ok(()),
    }
}

/// A tuple of values of these types, taken without Nullable.
pub(crate) fn put_row(
    types: &[Ty],
    peels: &Peels<'_>,
    row: &[Value],
    out: &mut Vec<u8>,
) -> Result<(), OutOfMemory>
    ensures { OnOk result (out.new.items ≡ out.old.items ++ row_text (peeled_types peels.now types.now) (map value_of row.now)) }
{
    match types {
        [] => Ok(()),
        [ty, others @ ..] => match row {
            [] => Ok(()),
            [value, rest @ ..] => {
                put_value(bare(peel(peels, ty)), value, out)?;
                put_row(others, peels, rest, out)
            }
        },
    }
}

/// So many tuples, behind their number.
pub(crate) fn put_rows(
    types: &[Ty],
    peels: &Peels<'_>,
    rows: &[Seq<Value>],
    out: &mut Vec<u8>,
) -> Result<(), OutOfMemory>
    ensures { OnOk result (out.new.items ≡ out.old.items ++ list_text (row_text (peeled_types peels.now types.now)) (map (map value_of) rows.now)) }
{
    put_count(rows.len() as u64, out)?;
    for row in rows {
        put_row(types, peels, row.as_slice(), out)?;
    }
    Ok(())
}
