//! The order of values: NULL first, then numbers by value, strings by bytes, and lists and maps by what
//! stands in them. It is total over all values, so that it can sort any column.
ghost use Rattle.std.specs.Prelude.{◌≡◌, map};
ghost use Rattle.std.specs.Ordering.{nat_cmp};
ghost use Rattle.std.specs.Cmp.Lexicographic.{slice_cmp};
ghost use Rattle.agg_terms.specs.Order as terms;
ghost use Rattle.value_types.specs.Folds.{event_of, value_of};
ghost use Rattle.agg_values.specs.proving.Comparing.{keyed_cmp, pair_cmp, tree_cmp, value_cmp};

use crate::tree_order::compare_trees;
use std::cmp::Ordering;
use value_types::Value;

/// The place of a value's kind among the kinds.
fn rank(value: &Value) -> u8
    ensures { result ≡ terms.rank (value_of value.now) }
{
    match value {
        Value::Nil => 0,
        Value::Num(_) => 1,
        Value::Bytes(_) => 2,
        Value::List(_) => 3,
        Value::Pairs(_) => 4,
        Value::Cell(_) => 5,
    }
}

fn by_kind(a: &Value, b: &Value) -> Ordering
    ensures { result ≡ nat_cmp (terms.rank (value_of a.now)) (terms.rank (value_of b.now)) }
{
    rank(a).cmp(&rank(b))
}

/// How two values stand to one another. On two values of one type without a state this is the order that
/// the crate's description gives; values of different kinds stand by their kind, and cells by their trees.
#[cycle(compare)]
#[tactic(auto, using(crate::proofs::Compared::value_kinds))]
pub fn compare(a: &Value, b: &Value) -> Ordering
    ensures { result ≡ terms.compare (value_of a.now) (value_of b.now) }
{
    match a {
        Value::Nil => by_kind(a, b),
        Value::Num(x) => match b {
            Value::Num(y) => x.cmp(y),
            _ => by_kind(a, b),
        },
        Value::Bytes(x) => match b {
            Value::Bytes(y) => x.as_slice().cmp(&y.as_slice()),
            _ => by_kind(a, b),
        },
        Value::List(x) => match b {
            Value::List(y) => compare_values(x.as_slice(), y.as_slice()),
            _ => by_kind(a, b),
        },
        Value::Pairs(x) => match b {
            Value::Pairs(y) => compare_pairs(x.as_slice(), y.as_slice()),
            _ => by_kind(a, b),
        },
        Value::Cell(x) => match b {
            Value::Cell(y) => compare_trees(x, y),
            _ => by_kind(a, b),
        },
    }
}

/// How two tuples stand to one another: as lists, at the first value that differs.
pub fn compare_rows(a: &[Value], b: &[Value]) -> Ordering
    ensures { result ≡ terms.compare_rows (map value_of a.now) (map value_of b.now) }
{
    compare_values(a, b)
}

#[cycle(compare)]
pub(crate) fn compare_values(a: &[Value], b: &[Value]) -> Ordering
    ensures { result ≡ slice_cmp value_cmp a.now b.now }
{
    for i in 0..a.len().min(b.len()) {
        match compare(&a[i], &b[i]) {
            Ordering::Equal => {}
            other => return other,
        }
    }
    a.len().cmp(&b.len())
}

#[cycle(compare)]
fn compare_pairs(left: &[(Value, Value)], right: &[(Value, Value)]) -> Ordering
    ensures { result ≡ slice_cmp pair_cmp left.now right.now }
{
    for i in 0..left.len().min(right.len()) {
        match compare(&left[i].0, &right[i].0) {
            Ordering::Equal => {}
            other => return other,
        }
        match compare(&left[i].1, &right[i].1) {
            Ordering::Equal => {}
            other => return other,
        }
    }
    left.len().cmp(&right.len())
}
