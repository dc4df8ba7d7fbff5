//! What a value that fits a type is made of.
ghost use Rattle.std.specs.Prelude.{◌≡◌, true};
ghost use Rattle.agg_terms.specs.Fitting.{has_bytes, has_cell, has_entries, has_items, has_number, is_nil};
ghost use Rattle.value_types.specs.Folds.{value_of};
ghost use Rattle.value_types.specs.declared.value.Value.TheVariants as form;

use value_types::{Tree, Value};

pub(crate) fn number_in(value: &Value) -> i128
    requires { has_number (λ _. true) (value_of value.now) ≡ true }
    ensures { value.now ≡ form.Num result }
{
    match value {
        Value::Num(number) => *number,
        _ => unreachable!(),
    }
}

pub(crate) fn text_in(value: &Value) -> &[u8]
    requires { has_bytes (λ _. true) (value_of value.now) ≡ true }
    ensures { value.now ≡ form.Bytes result.now }
{
    match value {
        Value::Bytes(bytes) => bytes.as_slice(),
        _ => unreachable!(),
    }
}

pub(crate) fn elements_in(value: &Value) -> &[Value]
    requires { has_items (λ _. true) (value_of value.now) ≡ true }
    ensures { value.now ≡ form.List result.now }
{
    match value {
        Value::List(elements) => elements.as_slice(),
        _ => unreachable!(),
    }
}

pub(crate) fn entries_in(value: &Value) -> &[(Value, Value)]
    requires { has_entries (λ _. true) (value_of value.now) ≡ true }
    ensures { value.now ≡ form.Pairs result.now }
{
    match value {
        Value::Pairs(entries) => entries.as_slice(),
        _ => unreachable!(),
    }
}

pub(crate) fn tree_in(value: &Value) -> &Tree
    requires { has_cell (λ _. true) (value_of value.now) ≡ true }
    ensures { value.now ≡ form.Cell result.now }
{
    match value {
        Value::Cell(tree) => tree,
        _ => unreachable!(),
    }
}

pub(crate) fn is_null(value: &Value) -> bool
    ensures test { result ≡ is_nil (value_of value.now) }
    ensures null { result ≡ true → value.now ≡ form.Nil }
{
    match value {
        Value::Nil => true,
        _ => false,
    }
}
