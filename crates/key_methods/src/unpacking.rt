//! A key as the tuple that it stands for.
ghost use Rattle.std.specs.Prelude.{◌≡◌, ◌∷◌, [], List, map, true, IfOk};
ghost use Rattle.agg_terms.specs.Chains as terms;
ghost use Rattle.agg_terms.specs.Values as family;
ghost use Rattle.agg_typing.specs.Kinds.{is_number_or_text};
ghost use Rattle.key_methods.specs.proving.Fronts as spec;
ghost use Rattle.key_methods.specs.Keys.{IsKey, bytes_of};
ghost use Rattle.key_methods.specs.Kinds.{AreKeyTypes, is_plain_number, kind_of};
ghost use Rattle.key_methods.specs.Tuples.{IsKeyOf, Undoes};
ghost use Rattle.value_types.specs.Folds.{ty_of, value_of};

use crate::number::{number_of, number_width, worth};
use crate::{Key, KeyKind};
use std::alloc::Global;
use value_lists::{OutOfMemory, Seq};
use value_types::{Ty, Value};

/// The tuple of values of the key columns that a key stands for.
///
/// # Errors
///
/// [`OutOfMemory`] where there is no room for the values.
pub fn unpack(
    alloc: Global,
    kind: KeyKind,
    types: &[Ty],
    key: &Key,
) -> Result<Seq<Value>, OutOfMemory>
    requires kind { kind ≡ kind_of (map ty_of types.now) }
    requires types { AreKeyTypes types.now }
    requires packed { (vs : List family.Value) × IsKeyOf types.now vs key.now }
    ensures { IfOk result (λ values. Undoes types.now key.now (map value_of values)) }
{
    unpacked(alloc, kind, types, key)
}

/// What the bytes of a key are read as.
fn unpacked(
    alloc: Global,
    kind: KeyKind,
    types: &[Ty],
    key: &Key,
) -> Result<Seq<Value>, OutOfMemory>
    requires types { AreKeyTypes types.now }
    requires key { IsKey key.now }
    ensures { IfOk result (λ values. map value_of values ≡ spec.values_by kind (map ty_of types.now) (bytes_of key.now)) }
{
    match key {
        Key::Small { word, width } => {
            let bytes = word.to_be_bytes();
            let width = usize::from(*width);
            values_of(alloc, kind, types, &bytes[8 - width..])
        }
        Key::Wide { word, width } => {
            let bytes = word.to_be_bytes();
            let width = usize::from(*width);
            values_of(alloc, kind, types, &bytes[16 - width..])
        }
        Key::Long(bytes) => values_of(alloc, kind, types, bytes.as_slice()),
    }
}

/// What bytes are read as, by the kind of key.
fn values_of(
    alloc: Global,
    kind: KeyKind,
    types: &[Ty],
    bytes: &[u8],
) -> Result<Seq<Value>, OutOfMemory>
    requires types { AreKeyTypes types.now }
    ensures { IfOk result (λ values. map value_of values ≡ spec.values_by kind (map ty_of types.now) bytes.now) }
{
    match kind {
        KeyKind::KeyString => only_text(alloc, bytes),
        KeyKind::NoKey => read_values(alloc, types, bytes),
        KeyKind::Key8 => read_values(alloc, types, bytes),
        KeyKind::Key16 => read_values(alloc, types, bytes),
        KeyKind::Key32 => read_values(alloc, types, bytes),
        KeyKind::Key64 => read_values(alloc, types, bytes),
        KeyKind::Packed128 => read_values(alloc, types, bytes),
        KeyKind::Serialized => read_values(alloc, types, bytes),
    }
}

/// A String whose bytes are all there is.
fn only_text(alloc: Global, bytes: &[u8]) -> Result<Seq<Value>, OutOfMemory>
    ensures { IfOk result (λ values. map value_of values ≡ family.Bytes bytes.now ∷ []) }
{
    let mut values = Seq::new(alloc);
    values.push(Value::Bytes(Seq::from_slice(alloc, bytes)?))?;
    Ok(values)
}

/// One value of each type.
fn read_values(alloc: Global, types: &[Ty], bytes: &[u8]) -> Result<Seq<Value>, OutOfMemory>
    requires types { AreKeyTypes types.now }
    ensures { IfOk result (λ values. map value_of values ≡ spec.values_front (map ty_of types.now) bytes.now) }
{
    let mut values = Seq::new(alloc);
    let mut left = bytes;
    for ty in types {
        let (value, rest) = read_value(alloc, ty, left)?;
        values.push(value)?;
        left = rest;
    }
    Ok(values)
}

/// The value at the front, and the bytes behind it.
fn read_value<'b>(alloc: Global, ty: &Ty, bytes: &'b [u8]) -> Result<(Value, &'b [u8]), OutOfMemory>
    requires { is_number_or_text (ty_of ty.now) ≡ true }
    ensures { IfOk result (λ read. (value_of read.0, read.1.now) ≡ spec.value_front (ty_of ty.now) bytes.now) }
{
    match ty {
        Ty::Str => read_text(alloc, bytes),
        Ty::Nullable(of) => match bytes {
            [] => Ok((Value::Nil, bytes)),
            [0, rest @ ..] => Ok((Value::Nil, rest)),
            [_, rest @ ..] => read_value(alloc, of.get(), rest),
        },
        _ => Ok(read_number(ty, bytes)),
    }
}

fn read_number<'b>(ty: &Ty, bytes: &'b [u8]) -> (Value, &'b [u8])
    requires { is_plain_number (ty_of ty.now) ≡ true }
    ensures { (value_of result.0, result.1.now) ≡ spec.value_front (ty_of ty.now) bytes.now }
{
    let (front, rest) = bytes.split_at(number_width(ty).min(bytes.len()));
    (Value::Num(number_of(ty, worth(front))), rest)
}

fn read_text<'b>(alloc: Global, bytes: &'b [u8]) -> Result<(Value, &'b [u8]), OutOfMemory>
    ensures { IfOk result (λ read. (value_of read.0, read.1.now) ≡ spec.value_front terms.Str bytes.now) }
{
    let (front, rest) = bytes.split_at(bytes.len().min(8));
    let count = worth(front).min(rest.len() as u64);
    let (text, rest) = rest.split_at(count as usize);
    Ok((Value::Bytes(Seq::from_slice(alloc, text)?), rest))
}
