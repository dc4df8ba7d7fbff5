//! Types nested three deep around a type, and values of them around a value.
ghost use Rattle.std.specs.Prelude.{◌≡◌, IfOk};
ghost use Rattle.value_types.specs.declared.value.Value.TheVariants as form;

use std::alloc::Global;
use value_types::{Boxed, Bytes, OutOfMemory, Seq, Ty, Value};

/// An array of maps from a string to a Nullable of this type.
pub(crate) fn in_maps(alloc: Global, of: Ty) -> Result<Ty, OutOfMemory> {
    let value = Boxed::new(alloc, Ty::Nullable(Boxed::new(alloc, of)?))?;
    let map = Ty::Map(Boxed::new(alloc, Ty::Str)?, value);
    Ok(Ty::Arr(Boxed::new(alloc, map)?))
}

/// An array of arrays of arrays of this type.
pub(crate) fn in_arrays(alloc: Global, of: Ty) -> Result<Ty, OutOfMemory> {
    let inner = Ty::Arr(Boxed::new(alloc, of)?);
    let middle = Ty::Arr(Boxed::new(alloc, inner)?);
    Ok(Ty::Arr(Boxed::new(alloc, middle)?))
}

pub(crate) fn text(alloc: Global, bytes: &[u8]) -> Result<Value, OutOfMemory>
    ensures { IfOk result (λ v. v ≡ form.Bytes bytes.now) }
{
    Ok(Value::Bytes(Bytes::from_slice(alloc, bytes)?))
}

/// The list of one value.
pub(crate) fn alone(alloc: Global, value: Value) -> Result<Value, OutOfMemory> {
    let mut values = Seq::new(alloc);
    values.push(value)?;
    Ok(Value::List(values))
}

/// A list of two values.
pub(crate) fn pair(alloc: Global, first: Value, second: Value) -> Result<Value, OutOfMemory> {
    let mut values = Seq::new(alloc);
    values.push(first)?;
    values.push(second)?;
    Ok(Value::List(values))
}

/// A map with NULL at one key and this value at another.
fn keyed(alloc: Global, value: Value) -> Result<Value, OutOfMemory> {
    let mut entries = Seq::new(alloc);
    let none = (text(alloc, b"none")?, Value::Nil);
    entries.push(none)?;
    let some = (text(alloc, b"some")?, value);
    entries.push(some)?;
    Ok(Value::Pairs(entries))
}

/// The value in a map, beside an empty map.
pub(crate) fn among_maps(alloc: Global, value: Value) -> Result<Value, OutOfMemory> {
    let empty = Value::Pairs(Seq::new(alloc));
    pair(alloc, empty, keyed(alloc, value)?)
}

/// The value in an array in an array, beside an empty one.
pub(crate) fn among_arrays(alloc: Global, value: Value) -> Result<Value, OutOfMemory> {
    let empty = Value::List(Seq::new(alloc));
    let inner = alone(alloc, value)?;
    pair(alloc, empty, alone(alloc, inner)?)
}
