//! Where a key stands among entries whose keys rise, or where it would: found by halving, with no key made.
ghost use Rattle.std.specs.Prelude.{◌≡◌};
ghost use Rattle.agg_terms.specs.Lists.{Rising};
ghost use Rattle.agg_terms.specs.Order as order;
ghost use Rattle.agg_terms.specs.Values.{Bytes};
ghost use Rattle.value_types.specs.Folds.{value_of};
ghost use Rattle.running_states.specs.Entries.{IsPlaceOf, keys_in};

use crate::running::Running;
use agg_values::compare;
use std::cmp::Ordering;
use value_types::Value;

/// How a text stands to a value.
#[inline]
#[tactic(auto, using(value_types::proofs::FoldLaws::value_laws, crate::proofs::KeyOrder::text_laws))]
fn compare_text(text: &[u8], key: &Value) -> Ordering
    ensures { result ≡ order.compare (Bytes text.now) (value_of key.now) }
{
    match key {
        Value::Bytes(other) => text.cmp(&other.as_slice()),
        Value::Nil => Ordering::Greater,
        Value::Num(_) => Ordering::Greater,
        Value::List(_) => Ordering::Less,
        Value::Pairs(_) => Ordering::Less,
        Value::Cell(_) => Ordering::Less,
    }
}

/// The place of a text, or the place where it would stand.
pub fn place_of_text(entries: &[(Value, Running)], text: &[u8]) -> Result<usize, usize>
    requires { Rising order.compare (keys_in entries.now) }
    ensures { IsPlaceOf (Bytes text.now) (keys_in entries.now) result }
{
    let mut low = 0;
    let mut high = entries.len();
    while low < high {
        let middle = low + (high - low) / 2;
        match compare_text(text, &entries[middle].0) {
            Ordering::Less => high = middle,
            Ordering::Equal => return Ok(middle),
            Ordering::Greater => low = middle + 1,
        }
    }
    Err(low)
}

/// The place of a key, or the place where it would stand.
pub fn place_of_value(entries: &[(Value, Running)], key: &Value) -> Result<usize, usize>
    requires { Rising order.compare (keys_in entries.now) }
    ensures { IsPlaceOf (value_of key.now) (keys_in entries.now) result }
{
    let mut low = 0;
    let mut high = entries.len();
    while low < high {
        let middle = low + (high - low) / 2;
        match compare(key, &entries[middle].0) {
            Ordering::Less => high = middle,
            Ordering::Equal => return Ok(middle),
            Ordering::Greater => low = middle + 1,
        }
    }
    Err(low)
}
