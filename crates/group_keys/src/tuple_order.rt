//! Keys in the order of their tuples.
ghost use Rattle.std.specs.Prelude.{◌≡◌, ◌<◌, map, IfOk};
ghost use Rattle.std.specs.List.Sorted.{IsPermutation, IsSorted};
ghost use Rattle.group_keys.specs.Sets.{IsSetOf, count_in};
ghost use Rattle.group_keys.specs.proving.Placed.{ArePlacedTuples, ArePut, IsPlacedTuple, place_of, tuple_cmp};
ghost use Rattle.key_methods.specs.Kinds.{AreKeyTypes};

use crate::key_set::KeySet;
use crate::placed::{Placed, places_of};
use crate::places::narrow;
use agg_values::compare_rows;
use std::alloc::Global;
use value_types::{OutOfMemory, Seq, Ty, Value};

/// The key at a place.
fn placed_tuple(
    alloc: Global,
    keys: &KeySet,
    types: &[Ty],
    place: usize,
) -> Result<Placed<Seq<Value>>, OutOfMemory>
    requires types { AreKeyTypes types.now }
    requires set { IsSetOf types.now keys.now }
    requires place { place < count_in keys.now }
    ensures { IfOk result (IsPlacedTuple types.now keys.now place) }
{
    let number = narrow(place)?;
    Ok(Placed {
        key: keys.tuple(alloc, types, place)?,
        place: number,
    })
}

/// All keys with their places, in the order of these.
fn placed_tuples(
    alloc: Global,
    keys: &KeySet,
    types: &[Ty],
) -> Result<Vec<Placed<Seq<Value>>>, OutOfMemory>
    requires types { AreKeyTypes types.now }
    requires set { IsSetOf types.now keys.now }
    ensures { IfOk result (λ placed. ArePlacedTuples types.now keys.now (count_in keys.now) placed.items) }
{
    let count = keys.len();
    let mut placed = Vec::with_capacity(alloc, count)?;
    for place in 0..count {
        placed.push(placed_tuple(alloc, keys, types, place)?)?;
    }
    Ok(placed)
}

fn put_in_order(tuples: &mut Vec<Placed<Seq<Value>>>)
    ensures same { IsPermutation tuples.old.items tuples.new.items }
    ensures ascending { IsSorted tuple_cmp tuples.new.items }
{
    tuples.sort_unstable_by(|a, b| compare_rows(a.key.as_slice(), b.key.as_slice()));
}

/// The places of keys of any kind in the order of their tuples.
pub(crate) fn tuple_places(
    alloc: Global,
    keys: &KeySet,
    types: &[Ty],
) -> Result<Vec<u32>, OutOfMemory>
    requires types { AreKeyTypes types.now }
    requires set { IsSetOf types.now keys.now }
    ensures { IfOk result (λ places. ArePut tuple_cmp place_of (ArePlacedTuples types.now keys.now (count_in keys.now)) places.items) }
{
    let mut tuples = placed_tuples(alloc, keys, types)?;
    put_in_order(&mut tuples);
    places_of(alloc, &tuples)
}
