//! Small questions to a value or a type.
ghost use Rattle.std.specs.Prelude.{◌≡◌, None, Some, OnSome, IfNone};
ghost use Rattle.agg_terms.specs.Types as types;
ghost use Rattle.agg_terms.specs.Values as values;
ghost use Rattle.value_types.specs.Folds.{ty_of, value_of};
ghost use Rattle.value_types.specs.Words as words;

use crate::{Ty, Value};

/// Whether a value is NULL.
pub fn is_nil(value: &Value) -> bool
    ensures { result ≡ values.is_null (value_of value.now) }
{
    match value {
        Value::Nil => true,
        _ => false,
    }
}

/// The number, if the value is one.
pub fn number(value: &Value) -> Option<i128>
    ensures { result ≡ words.number (value_of value.now) }
{
    match value {
        Value::Num(number) => Some(*number),
        _ => None,
    }
}

/// The type without Nullable.
pub fn bare(ty: &Ty) -> &Ty
    ensures { ty_of result.now ≡ types.bare (ty_of ty.now) }
{
    match ty {
        Ty::Nullable(of) => bare(of.get()),
        _ => ty,
    }
}

/// Whether the type is under Nullable.
pub fn is_nullable(ty: &Ty) -> bool
    ensures { result ≡ types.may_be_null (ty_of ty.now) }
{
    match ty {
        Ty::Nullable(_) => true,
        _ => false,
    }
}

/// Whether the type, taken without Nullable, is one of signed numbers.
pub fn is_signed(ty: &Ty) -> bool
    ensures { result ≡ types.is_signed (ty_of ty.now) }
{
    match ty {
        Ty::I8 | Ty::I16 | Ty::I32 | Ty::I64 => true,
        Ty::Nullable(of) => is_signed(of.get()),
        _ => false,
    }
}

/// The type of an array's elements; another type as it is.
pub fn element(ty: &Ty) -> &Ty
    ensures { ty_of result.now ≡ types.element (ty_of ty.now) }
{
    match ty {
        Ty::Arr(item) => item.get(),
        _ => ty,
    }
}

/// The type of a map's keys; another type as it is.
pub fn map_key(ty: &Ty) -> &Ty
    ensures { ty_of result.now ≡ types.key_type (ty_of ty.now) }
{
    match ty {
        Ty::Map(key, _) => key.get(),
        _ => ty,
    }
}

/// The type of a map's values; another type as it is.
pub fn map_item(ty: &Ty) -> &Ty
    ensures { ty_of result.now ≡ types.map_part (ty_of ty.now) }
{
    match ty {
        Ty::Map(_, item) => item.get(),
        _ => ty,
    }
}
