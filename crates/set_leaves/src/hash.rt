//! A hash of values: what a key of several values feeds to a hash function.
ghost use Rattle.std.specs.Prelude.{◌≡◌, map, fold};
ghost use Rattle.agg_terms.specs.Values as family;
ghost use Rattle.value_types.specs.Folds.{value_of};
ghost use Rattle.set_leaves.specs.proving.Hashes.{all_writes, entry_writes, value_writes};
ghost use Rattle.set_leaves.specs.Tuples.{pair_of};

use std::hash::Hasher;
use value_types::Value;

/// Feeds a value. A state feeds nothing: it is no argument of a function that keeps tuples.
#[cycle(hash)]
#[tactic(auto, using(crate::proofs::Hashing::value_kinds))]
fn hash_value<H: Hasher>(value: &Value, state: &mut H)
    ensures { state.new ≡ fold H.write state.old (value_writes (value_of value.now)) }
{
    match value {
        Value::Num(number) => state.write_i128(*number),
        Value::Bytes(bytes) => state.write(bytes.as_slice()),
        Value::List(items) => hash_values(items.as_slice(), state),
        Value::Pairs(entries) => hash_pairs(entries.as_slice(), state),
        Value::Nil => {}
        Value::Cell(_) => {}
    }
}

/// Feeds values in their order.
#[cycle(hash)]
pub fn hash_values<H: Hasher>(values: &[Value], state: &mut H)
    ensures { state.new ≡ fold H.write state.old (all_writes (family.values (map value_of values.now))) }
{
    for value in values {
        hash_value(value, state);
    }
}

#[cycle(hash)]
fn hash_pairs<H: Hasher>(pairs: &[(Value, Value)], state: &mut H)
    ensures { state.new ≡ fold H.write state.old (entry_writes (family.entries (map pair_of pairs.now))) }
{
    for pair in pairs {
        hash_value(&pair.0, state);
        hash_value(&pair.1, state);
    }
}
