//! Which values a type without a state has: numbers within its width, any string, lists and maps of such
//! values, and NULL under Nullable. Nothing here takes memory.
ghost use Rattle.std.specs.Prelude.{◌≡◌, map, ◌^◌, nat_lt};
ghost use Rattle.std.specs.List.{list_all};
ghost use Rattle.agg_terms.specs.Fitting as spec;
ghost use Rattle.value_types.specs.Folds.{ty_of, value_of};

use value_types::{Seq, Ty, Value, bare};

pub(crate) fn is_number(value: &Value, low: i128, high: i128) -> bool
    ensures { result ≡ spec.has_number (spec.is_between low high) (value_of value.now) }
{
    match value {
        Value::Num(number) => low <= *number && *number <= high,
        _ => false,
    }
}

pub(crate) fn is_text(value: &Value) -> bool
    ensures { result ≡ spec.has_bytes (list_all (λ b. nat_lt b (2 ^ 8))) (value_of value.now) }
{
    match value {
        Value::Bytes(bytes) => are_bytes(bytes.as_slice()),
        _ => false,
    }
}

/// Bytes are below 2^8 by their type.
fn are_bytes(bytes: &[u8]) -> bool
    ensures { result ≡ list_all (λ b. nat_lt b (2 ^ 8)) bytes.now }
{
    let _count = bytes.len();
    true
}

pub(crate) fn is_null(value: &Value) -> bool
    ensures { result ≡ spec.is_nil (value_of value.now) }
{
    matches!(value, Value::Nil)
}

/// Whether the value is one of the type, which holds no state.
#[cycle(plain)]
#[tactic(auto, using(crate::proofs::TypeKinds::plain_laws))]
pub(crate) fn plain_fits(ty: &Ty, value: &Value) -> bool
    ensures { result ≡ spec.fits_plain (ty_of ty.now) (value_of value.now) }
{
    match ty {
        Ty::U8 => is_number(value, 0, 255),
        Ty::U16 => is_number(value, 0, 65535),
        Ty::U32 => is_number(value, 0, 4294967295),
        Ty::U64 => is_number(value, 0, 18446744073709551615),
        Ty::I8 => is_number(value, -128, 127),
        Ty::I16 => is_number(value, -32768, 32767),
        Ty::I32 => is_number(value, -2147483648, 2147483647),
        Ty::I64 => is_number(value, -9223372036854775808, 9223372036854775807),
        Ty::Str => is_text(value),
        Ty::Arr(item) => items_fit(item.get(), value),
        Ty::Map(key, item) => keys_fit(key.get(), value) && entries_fit(item.get(), value),
        Ty::Nullable(of) => is_null(value) || plain_fits(of.get(), value),
        Ty::State(_, _) => false,
    }
}

#[cycle(plain)]
#[tactic(auto, using(crate::proofs::ValueKinds::value_laws))]
fn items_fit(item: &Ty, value: &Value) -> bool
    ensures { result ≡ spec.has_items (list_all (spec.fits_plain (ty_of item.now))) (value_of value.now) }
{
    match value {
        Value::List(items) => all_fit(item, items.as_slice()),
        _ => false,
    }
}

/// Whether each entry's key is a value of the type; false at a value that is no map.
#[cycle(plain)]
#[tactic(auto, using(crate::proofs::ValueKinds::value_laws))]
pub(crate) fn keys_fit(key: &Ty, value: &Value) -> bool
    ensures { result ≡ spec.has_entries (list_all (λ e. spec.fits_plain (ty_of key.now) e.0)) (value_of value.now) }
{
    match value {
        Value::Pairs(pairs) => all_keys_fit(key, pairs.as_slice()),
        _ => false,
    }
}

#[cycle(plain)]
#[tactic(auto, using(crate::proofs::ValueKinds::value_laws))]
fn entries_fit(item: &Ty, value: &Value) -> bool
    ensures { result ≡ spec.has_entries (list_all (λ e. spec.fits_plain (ty_of item.now) e.1)) (value_of value.now) }
{
    match value {
        Value::Pairs(pairs) => all_entries_fit(item, pairs.as_slice()),
        _ => false,
    }
}

/// Whether each value is one of the type.
#[cycle(plain)]
pub(crate) fn all_fit(ty: &Ty, items: &[Value]) -> bool
    ensures { result ≡ list_all (λ v. spec.fits_plain (ty_of ty.now) (value_of v)) items.now }
{
    for i in 0..items.len() {
        if !plain_fits(ty, &items[i]) {
            return false;
        }
    }
    true
}

#[cycle(plain)]
fn all_keys_fit(ty: &Ty, pairs: &[(Value, Value)]) -> bool
    ensures { result ≡ list_all (λ e. spec.fits_plain (ty_of ty.now) (value_of e.0)) pairs.now }
{
    for i in 0..pairs.len() {
        if !plain_fits(ty, &pairs[i].0) {
            return false;
        }
    }
    true
}

#[cycle(plain)]
fn all_entries_fit(ty: &Ty, pairs: &[(Value, Value)]) -> bool
    ensures { result ≡ list_all (λ e. spec.fits_plain (ty_of ty.now) (value_of e.1)) pairs.now }
{
    for i in 0..pairs.len() {
        if !plain_fits(ty, &pairs[i].1) {
            return false;
        }
    }
    true
}
