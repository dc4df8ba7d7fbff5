//! The quick reader of elements: it builds values in one pass, and knows no places of faults.
ghost use Rattle.std.specs.Prelude.{◌&&◌, IfOk, IsTrue};
ghost use Rattle.agg_terms.specs.Fitting.{fits_plain, fits_value};
ghost use Rattle.scalar_texts.specs.States.{AllStates};
ghost use Rattle.value_types.specs.Folds.{ty_of, value_of};
ghost use Rattle.agg_terms.specs.Chains as terms;
ghost use Rattle.tsv_values.specs.Answer.{KeysArePlain};
ghost use Rattle.tsv_values.specs.Elements.{ArraySays, ElementSays, EntrySays, MapSays};
ghost use Rattle.tsv_values.specs.proving.Reading.{IsElementRead, IsEntryRead};

use crate::atoms::{behind_null, number, state, string};
use crate::found::{Entry, Found, Missing};
use crate::next::{Next, behind, behind_colon, first, more};
use scalar_texts::StateReader;
use std::alloc::Global;
use value_types::{Seq, Ty, Value};

/// The element of the type at the front of a text.
#[cycle(elements)]
pub(crate) fn read_element<'t, R: StateReader>(
    alloc: Global,
    reader: &R,
    ty: &Ty,
    text: &'t [u8],
) -> Result<Found<'t>, Missing>
    requires { AllStates (R.takes reader.now) (ty_of ty.now) }
    ensures read { IsElementRead (ElementSays (R.reads reader.now) (ty_of ty.now)) text.now result }
    ensures fits { KeysArePlain (ty_of ty.now) → IfOk result (λ found. IsTrue (fits_value (ty_of ty.now) (value_of found.value))) }
{
    match ty {
        Ty::U8 | Ty::U16 | Ty::U32 | Ty::U64 => number(ty, text),
        Ty::I8 | Ty::I16 | Ty::I32 | Ty::I64 => number(ty, text),
        Ty::Str => string(alloc, text),
        Ty::State(_, _) => state(alloc, reader, ty, text),
        Ty::Nullable(of) => match behind_null(text) {
            Some(rest) => Ok(Found {
                value: Value::Nil,
                rest,
            }),
            None => read_element(alloc, reader, of.get(), text),
        },
        Ty::Arr(item) => match behind(b'[', text) {
            Some(inside) => read_items(alloc, reader, item.get(), inside),
            None => Err(Missing::Nothing),
        },
        Ty::Map(key, item) => match behind(b'{', text) {
            Some(inside) => read_entries(alloc, reader, key.get(), item.get(), inside),
            None => Err(Missing::Nothing),
        },
    }
}

/// The elements of an array, behind its bracket.
#[cycle(elements)]
fn read_items<'t, R: StateReader>(
    alloc: Global,
    reader: &R,
    item: &Ty,
    text: &'t [u8],
) -> Result<Found<'t>, Missing>
    requires { AllStates (R.takes reader.now) (ty_of item.now) }
    ensures read { IsElementRead (ArraySays (ElementSays (R.reads reader.now) (ty_of item.now))) text.now result }
    ensures fits { KeysArePlain (ty_of item.now) → IfOk result (λ found. IsTrue (fits_value (terms.Arr (ty_of item.now)) (value_of found.value))) }
{
    let mut items = Seq::new(alloc);
    let mut next = first(b']', text);
    while let Next::OneMore(at) = next {
        match read_element(alloc, reader, item, at) {
            Ok(Found { value, rest }) => {
                items.push(value)?;
                next = more(b']', rest);
            }
            Err(missing) => return Err(missing),
        }
    }
    match next {
        Next::End(rest) => Ok(Found {
            value: Value::List(items),
            rest,
        }),
        _ => Err(Missing::Nothing),
    }
}

/// The entries of a map, behind its brace.
#[cycle(elements)]
fn read_entries<'t, R: StateReader>(
    alloc: Global,
    reader: &R,
    key: &Ty,
    item: &Ty,
    text: &'t [u8],
) -> Result<Found<'t>, Missing>
    requires keys { AllStates (R.takes reader.now) (ty_of key.now) }
    requires items { AllStates (R.takes reader.now) (ty_of item.now) }
    ensures read { IsElementRead (MapSays (ElementSays (R.reads reader.now) (ty_of key.now)) (ElementSays (R.reads reader.now) (ty_of item.now))) text.now result }
    ensures fits { KeysArePlain (terms.MapTy (ty_of key.now) (ty_of item.now)) → IfOk result (λ found. IsTrue (fits_value (terms.MapTy (ty_of key.now) (ty_of item.now)) (value_of found.value))) }
{
    let mut entries = Seq::new(alloc);
    let mut next = first(b'}', text);
    while let Next::OneMore(at) = next {
        match read_entry(alloc, reader, key, item, at) {
            Ok(Entry { key, value, rest }) => {
                entries.push((key, value))?;
                next = more(b'}', rest);
            }
            Err(missing) => return Err(missing),
        }
    }
    match next {
        Next::End(rest) => Ok(Found {
            value: Value::Pairs(entries),
            rest,
        }),
        _ => Err(Missing::Nothing),
    }
}

/// A key, a colon and a value.
#[cycle(elements)]
fn read_entry<'t, R: StateReader>(
    alloc: Global,
    reader: &R,
    key: &Ty,
    item: &Ty,
    text: &'t [u8],
) -> Result<Entry<'t>, Missing>
    requires keys { AllStates (R.takes reader.now) (ty_of key.now) }
    requires items { AllStates (R.takes reader.now) (ty_of item.now) }
    ensures read { IsEntryRead (EntrySays (ElementSays (R.reads reader.now) (ty_of key.now)) (ElementSays (R.reads reader.now) (ty_of item.now))) text.now result }
    ensures fits { KeysArePlain (terms.MapTy (ty_of key.now) (ty_of item.now)) → IfOk result (λ entry. IsTrue (fits_plain (ty_of key.now) (value_of entry.key) && fits_value (ty_of item.now) (value_of entry.value))) }
{
    let (key, rest) = match read_element(alloc, reader, key, text) {
        Ok(Found { value, rest }) => (value, rest),
        Err(missing) => return Err(missing),
    };
    let Some(rest) = behind_colon(rest) else {
        return Err(Missing::Nothing);
    };
    match read_element(alloc, reader, item, rest) {
        Ok(Found { value, rest }) => Ok(Entry { key, value, rest }),
        Err(missing) => Err(missing),
    }
}
